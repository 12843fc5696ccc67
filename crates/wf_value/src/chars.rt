ghost use Rattle.std.specs.Prelude.{◌≡◌, ◌↔◌, [], IsTrue, Ok, string_bytes};
ghost use Rattle.std.specs.Str.{bytes_eq};
ghost use Rattle.wf_value.specs.Gives.{Gives};

use crate::refusal::Refusal;
use crate::same::Same;
use crate::try_copy::TryCopy;
use std::alloc::Global;
use std::marker::Model;

/// A text. In contracts it is the list of its UTF-8 bytes.
/// Promise (Needs, matrices, templates and values): Texts, lists, combinations and matrices give back what they were made of
/// By: `wf_value::{Chars, Sequence, Combo, Variable, Matrix}`
#[derive(Drop)]
pub struct Chars {
    text: String,
}

impl Model for Chars {
    ghost use Rattle.std.specs.Prelude.{List, ℕ, string_bytes};

    ghost Value = { List ℕ };

    ghost view = { λ c. string_bytes c.text };
}

impl Chars {
    /// Moves a `String` into a text, without copying it.
    pub fn new(text: String) -> Self
        ensures { result ≡ string_bytes text }
    {
        Chars { text }
    }

    /// Copies a text. An empty text takes no memory.
    pub fn from_str(alloc: Global, text: &str) -> Result<Self, Refusal>
        ensures gives { Gives (λ c. c) result (Ok text.now) }
        ensures answers { text.now ≡ [] → result ≡ Ok [] }
    {
        let mut copy = String::with_capacity(alloc, text.len())?;
        copy.push_str(text)?;
        Ok(Chars { text: copy })
    }

    /// Moves the `String` out.
    pub fn into_string(self) -> String
        ensures { string_bytes result ≡ self }
    {
        let Chars { text } = self;
        text
    }

    pub fn as_str(&self) -> &str
        ensures { result.now ≡ self.now }
    {
        self.text.as_str()
    }
}

impl TryCopy for Chars {
    /// An empty text takes no memory.
    fn copy(&self, alloc: Global) -> Result<Self, Refusal>
        ensures gives { Gives (λ c. c) result (Ok self.now) }
        ensures answers { self.now ≡ [] → result ≡ Ok [] }
    {
        Chars::from_str(alloc, self.as_str())
    }
}

impl Same for Chars {
    /// Whether both have the same bytes.
    fn same(&self, other: &Self) -> bool
        ensures equal { IsTrue result ↔ (self.now ≡ other.now) }
        ensures test { result ≡ bytes_eq self.now other.now }
    {
        self.as_str() == other.as_str()
    }
}
