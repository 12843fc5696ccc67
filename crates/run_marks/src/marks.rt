ghost use Rattle.std.specs.Prelude.{◌≡◌, ◌≤◌, ◌+◌, ℕ, length, true, false, IfOk, OnOk};
ghost use Rattle.run_marks.specs.First.{IsFirstFrom};
ghost use Rattle.run_marks.specs.Marked.{Covers, Puts, SameMarks, is_marked};

use crate::levels::first_marked;
use crate::row::{clear_bit, grow, set_bit};
use std::alloc::{AllocError, Global};
use std::marker::Model;

/// A set of numbers. In contracts, `is_marked` says which numbers it contains, and `Covers` says below which bound memory is
/// reserved.
#[derive(Drop)]
pub struct RunBitmap {
    /// One bit per number, set if the set contains it.
    words: Vec<u64>,
    /// One bit per word, set if the word is not 0.
    tops: Vec<u64>,
}

impl Model for RunBitmap {
    ghost use Rattle.std.specs.Prelude.{ℕ, List};
    ghost use Rattle.run_marks.specs.inner.Bits.{IsTopOf};

    ghost Value = { List ℕ };

    ghost view = { λ m. m.words.items };

    ghost invariant = { λ m. IsTopOf m.words.items m.tops.items };
}

impl RunBitmap {
    /// An empty set, without reserved memory.
    /// Promise (Runs, and how they are found): A set of numbers: a mark adds one number and an unmark removes one, the first number from any one
    ///   on is found, and only a reservation and a copy need memory
    /// By: `run_marks::RunBitmap::{new, copy, reserve_up_to, mark, unmark, first_from}`
    pub fn new(alloc: Global) -> Self
        ensures { (i : ℕ) → is_marked result i ≡ false }
    {
        RunBitmap {
            words: Vec::new(alloc),
            tops: Vec::new(alloc),
        }
    }

    /// The same set, with the same reserved memory.
    /// Refusal (The layers below): `run_marks`: `RunBitmap::{copy, reserve_up_to}`
    /// When: `std::alloc::AllocError`
    /// Afterwards: no place is lost and no run is marked
    /// By: `RunBitmap::reserve_up_to`, `marks` (`SameMarks`)
    pub fn copy(&self) -> Result<Self, AllocError>
        ensures { IfOk result (λ m. m ≡ self.now) }
    {
        Ok(RunBitmap {
            words: self.words.clone()?,
            tops: self.tops.clone()?,
        })
    }

    /// Reserves memory for all numbers below the bound. Only this call and a copy take memory. The set stays the same.
    pub fn reserve_up_to(&mut self, bound: usize) -> Result<(), AllocError>
        ensures marks { SameMarks self.old self.new }
        ensures covers { OnOk result (Covers self.new bound) }
        ensures keeps { length self.old ≤ length self.new }
    {
        let words = bound.div_ceil(64);
        grow(&mut self.tops, words.div_ceil(64))?;
        grow(&mut self.words, words)
    }

    pub fn mark(&mut self, i: usize)
        requires { Covers self.old (i + 1) }
        ensures puts { Puts true i self.old self.new }
        ensures keeps { length self.new ≡ length self.old }
    {
        set_bit(&mut self.words, i);
        set_bit(&mut self.tops, i / 64);
    }

    pub fn unmark(&mut self, i: usize)
        requires { Covers self.old (i + 1) }
        ensures puts { Puts false i self.old self.new }
        ensures keeps { length self.new ≡ length self.old }
    {
        let is_empty = clear_bit(&mut self.words, i);
        if is_empty {
            clear_bit(&mut self.tops, i / 64);
        }
    }

    /// The first number of the set that is at least `from`.
    pub fn first_from(&self, from: usize) -> Option<usize>
        ensures { IsFirstFrom (is_marked self.now) from result }
    {
        first_marked(&self.words, &self.tops, from)
    }
}
