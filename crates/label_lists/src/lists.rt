//! Lists of labels by number, and the runs that may have a ready leg for each number.

ghost use Rattle.std.specs.Prelude.{◌≡◌, ◌↔◌, ◌<◌, ◌^◌, ◌⊎◌, ℕ, true, false, None, Some, IfErr, IfNone, IfOk, IfSome, Ok, OnOk};
ghost use Rattle.wf_value.specs.Gives.{Gives, no_memory};
ghost use Rattle.run_marks.specs.First.{IsFirstFrom};
ghost use Rattle.label_lists.specs.Known.{IsBefore};
ghost use Rattle.label_lists.specs.Lists.{HasPlace, IsOnceEach, IsPassedUnder, OnlyGrows, PutsOffer, labels_of, may_offer};

use crate::known_lists::KnownLists;
use crate::label_list::LabelList;
use run_marks::RunBitmap;
use std::alloc::Global;
use std::marker::Model;
use wf_value::{Chars, Refusal};

/// Lists of labels, numbered from 1, and for each the runs that may have a ready leg with these labels. Number 0 is for legs whose
/// labels have no known list. In contracts it is the labels of each number, the runs that may have a ready leg for it, and the runs
/// that can be marked.
/// Promise (Runs, and how they are found): Label lists have numbers that never change. For each number, the runs that may have a ready leg are
///   marked; a mark changes one run of one number. A run that was entered can be marked without memory
/// By: `label_lists::LabelLists`
#[derive(Drop)]
pub struct LabelLists {
    known: KnownLists,
    unknown: RunBitmap,
}

impl Model for LabelLists {
    ghost use Rattle.label_lists.specs.Lists.{ListsState};

    ghost Value = { ListsState };

    ghost view = { λ l. record { lists = l.known.lists; requesting = l.known.requesting; unknown = l.unknown } };
}

impl LabelLists {
    /// No lists, and no reserved memory for marks.
    pub fn new(alloc: Global) -> Self
        ensures labels { (number : ℕ) → labels_of result number ≡ None }
        ensures offers { (number run : ℕ) → may_offer result number run ≡ false }
    {
        LabelLists {
            known: KnownLists::new(alloc),
            unknown: RunBitmap::new(alloc),
        }
    }

    /// Reserves memory for the marks of number 0, for all runs below the bound.
    /// Refusal (The layers below): `label_lists`: `LabelLists::{reserve_up_to, enter}`
    /// When: 50
    /// Afterwards: no number or place is lost and no run is marked; the labels of an `enter` may have a number
    /// By: `LabelLists::enter`, `err`, `grows` (`OnlyGrows`)
    pub fn reserve_up_to(&mut self, bound: usize) -> Result<(), Refusal>
        ensures grows { OnlyGrows self.old self.new }
        ensures places { OnOk result ((run : ℕ) → run < bound → HasPlace self.new 0 run) }
        ensures err { IfErr result (λ e. e ≡ no_memory) }
    {
        self.unknown.reserve_up_to(bound)?;
        Ok(())
    }

    /// The number under which a run is marked for a leg with these labels. It is that of the list, which is entered if it has none,
    /// or 0 if the list already has a later run but not this one. A list that has a number is not copied. On `Err`, which is 50 (out
    /// of memory), the list may have been entered.
    /// Promise (Runs, and how they are found): Number 0 stands for labels that are not known: it is answered only where a later run asks for the
    ///   list already. That callers enter runs in an order that avoids it is only measured
    /// By: `label_lists::LabelLists::enter`
    pub fn enter(&mut self, alloc: Global, labels: &LabelList, run: usize) -> Result<usize, Refusal>
        requires { HasPlace self.old 0 run }
        ensures grows { OnlyGrows self.old self.new }
        ensures number { IfOk result (λ n. (n ≡ 0) ⊎ (labels_of self.new n ≡ Some labels.now)) }
        ensures place { IfOk result (λ n. HasPlace self.new n run) }
        ensures zero { IfOk result (λ n. (n ≡ 0) ↔ IsPassedUnder self.old labels.now run) }
        ensures err { IfErr result (λ e. e ≡ no_memory) }
    {
        let found = self.known.enter(alloc, labels, run)?;
        let _count = self.known.len();
        match found {
            Some(k) => Ok(k + 1),
            None => Ok(0),
        }
    }

    /// Marks that a run may have a ready leg for a number.
    pub fn mark(&mut self, number: usize, run: usize)
        requires { HasPlace self.old number run }
        ensures { PutsOffer true number run self.old self.new }
    {
        if number == 0 {
            self.unknown.mark(run);
        } else {
            self.known.mark(number - 1, run);
        }
    }

    /// Removes the mark of a run that has no ready leg for a number.
    pub fn unmark(&mut self, number: usize, run: usize)
        requires { HasPlace self.old number run }
        ensures { PutsOffer false number run self.old self.new }
    {
        if number == 0 {
            self.unknown.unmark(run);
        } else {
            self.known.unmark(number - 1, run);
        }
    }

    /// The first run, from `run` on, that may have a ready leg for a number.
    /// Promise (Runs, and how they are found): The first marked run of a number is found, and the search for the next number passes over none
    ///   with a marked run
    /// By: `label_lists::LabelLists::{first_from, next_after}`
    pub fn first_from(&self, number: usize, run: usize) -> Option<usize>
        ensures { IsFirstFrom (may_offer self.now number) run result }
    {
        if number == 0 {
            self.unknown.first_from(run)
        } else {
            self.known.first_from(number - 1, run)
        }
    }

    /// The first number greater than `number` for which some run may have a ready leg.
    pub fn next_after(&self, number: usize) -> Option<usize>
        requires { number < 2 ^ 63 }
        ensures some { IfSome result (λ n. (number < n) × (n < 2 ^ 63)) }
        ensures passed { (n run : ℕ) → number < n → IsBefore n result → may_offer self.now n run ≡ false }
    {
        let _count = self.known.len();
        let k = self.known.next_offering(number)?;
        Some(k + 1)
    }

    /// The labels of a number. Number 0 has none.
    pub fn labels(&self, number: usize) -> Option<&[Chars]>
        ensures some { IfSome result (λ labels. labels_of self.now number ≡ Some labels.now) }
        ensures none { IfNone result (labels_of self.now number ≡ None) }
        ensures once { IsOnceEach self.now }
    {
        let _count = self.known.len();
        if number == 0 {
            None
        } else {
            self.known.labels(number - 1)
        }
    }

    /// A copy with the same lists, numbers and runs.
    pub fn copy(&self, alloc: Global) -> Result<Self, Refusal>
        ensures { Gives (λ l. l) result (Ok self.now) }
    {
        Ok(LabelLists {
            known: self.known.copy(alloc)?,
            unknown: self.unknown.copy()?,
        })
    }
}
