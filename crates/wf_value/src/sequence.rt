ghost use Rattle.std.specs.Prelude.{◌≡◌, ◌↔◌, [], length, IsTrue, Ok};
ghost use Rattle.wf_value.specs.Gives.{Gives};

use crate::refusal::Refusal;
use crate::same::{Same, same_items};
use crate::try_copy::{TryCopy, copy_items};
use std::alloc::Global;
use std::marker::Model;

/// A list of values. In contracts it is that list.
#[derive(Drop)]
pub struct Sequence<T> {
    items: Vec<T>,
}

impl<T> Model for Sequence<T> {
    ghost use Rattle.std.specs.Prelude.{List};

    ghost Value = { List T };

    ghost view = { λ s. s.items.items };
}

impl<T> Sequence<T> {
    /// Moves a `Vec` into a sequence, without copying it.
    pub fn new(items: Vec<T>) -> Self
        ensures { result ≡ items.items }
    {
        Sequence { items }
    }

    /// Moves the `Vec` out.
    pub fn into_vec(self) -> Vec<T>
        ensures { result.items ≡ self }
    {
        let Sequence { items } = self;
        items
    }

    pub fn as_slice(&self) -> &[T]
        ensures { result.now ≡ self.now }
    {
        self.items.as_slice()
    }

    pub fn len(&self) -> usize
        ensures { result ≡ length self.now }
    {
        self.items.len()
    }

    pub fn is_empty(&self) -> bool
        ensures { IsTrue result ↔ (self.now ≡ []) }
    {
        self.items.is_empty()
    }
}

impl<T: TryCopy + Drop> TryCopy for Sequence<T> {
    /// An empty list takes no memory.
    fn copy(&self, alloc: Global) -> Result<Self, Refusal>
        ensures gives { Gives (λ s. s) result (Ok self.now) }
        ensures answers { self.now ≡ [] → result ≡ Ok [] }
    {
        Ok(Sequence::new(copy_items(alloc, self.as_slice())?))
    }
}

impl<T: Same> Same for Sequence<T> {
    fn same(&self, other: &Self) -> bool {
        same_items(self.as_slice(), other.as_slice())
    }
}
