//! A value that several runs may refer to.

ghost use Rattle.std.specs.Prelude.{◌≡◌, Ok};
ghost use Rattle.wf_value.specs.Gives.{Gives};

use std::alloc::Global;
use std::marker::Model;
use std::sync::Arc;
use wf_value::{Refusal, Same, Sequence, TryCopy};

/// A value that does not change, so that runs for which the same was bound may refer to one copy of it. In contracts it is the value.
#[derive(Drop)]
pub struct Shared<T> {
    block: Arc<T>,
}

impl<T> Model for Shared<T> {
    ghost use Rattle.std.specs.Arc.{arc_value};

    ghost Value = { T };

    ghost coded = { T.code };

    ghost view = { λ s. arc_value s.block };
}

impl<T> Shared<T> {
    pub fn get(&self) -> &T
        ensures { result.now ≡ self.now }
    {
        &self.block
    }

    /// Another reference to the value. It takes no memory.
    fn again(&self) -> Result<Self, Refusal>
        ensures { Gives (λ s. s) result (Ok self.now) }
    {
        Ok(Shared {
            block: Arc::try_clone(&self.block)?,
        })
    }
}

impl<T> Shared<Sequence<T>> {
    pub fn as_slice(&self) -> &[T]
        ensures { result.now ≡ self.now }
    {
        self.block.as_slice()
    }
}

impl<T: Same + Drop> Shared<T> {
    /// The value. It is the copy that `other` refers to if both are the same, and takes memory otherwise. Only memory shows which.
    pub(crate) fn of(alloc: Global, value: T, other: Option<&Shared<T>>) -> Result<Self, Refusal>
        ensures { Gives (λ s. s) result (Ok value) }
    {
        if let Some(other) = other {
            if value.same(other.get()) {
                return other.again();
            }
        }
        Ok(Shared {
            block: Arc::new(alloc, value)?,
        })
    }
}

impl<T: Drop> TryCopy for Shared<T> {
    /// It takes no memory: the copy is another reference.
    fn copy(&self, _alloc: Global) -> Result<Self, Refusal> {
        self.again()
    }
}
