//! The runs that have legs with a given list of labels.

ghost use Rattle.std.specs.Prelude.{◌≡◌, ◌↔◌, ◌||◌, ◌&&◌, ℕ, [], true, false, nat_eq, IfErr, IfOk, OnErr};
ghost use Rattle.wf_value.specs.Gives.{Gives, no_memory};
ghost use Rattle.run_marks.specs.First.{IsFirstFrom};
ghost use Rattle.label_lists.specs.inner.Requesting.{Begins, IsPassed, PutsRun, SameRequesting, SameOffers};
ghost use Rattle.label_lists.specs.Requesting.{requests_in, may_offer_in, index_of};

use run_marks::RunBitmap;
use std::alloc::Global;
use std::marker::Model;
use wf_value::Refusal;

/// Runs in increasing order, with a mark for each by its index. In contracts it is the record of both.
#[derive(Drop)]
pub(crate) struct RequestingRuns {
    runs: Vec<usize>,
    marks: RunBitmap,
}

impl Model for RequestingRuns {
    ghost use Rattle.label_lists.specs.Requesting.{RequestingState};
    ghost use Rattle.label_lists.specs.inner.Requesting.{IsOrdered};

    ghost Value = { RequestingState };

    ghost view = { λ a. record { runs = a.runs.items; marks = a.marks } };

    ghost invariant = { λ a. IsOrdered a.runs.items a.marks };
}

impl RequestingRuns {
    /// An empty list of runs.
    pub fn new(alloc: Global) -> Self
        ensures { result.runs ≡ [] }
    {
        RequestingRuns {
            runs: Vec::new(alloc),
            marks: RunBitmap::new(alloc),
        }
    }

    /// The index of a run, if it is in the list.
    fn index_of(&self, run: usize) -> Option<usize>
        ensures { result ≡ index_of self.now.runs run }
    {
        match self.runs.binary_search(&run) {
            Ok(index) => Some(index),
            Err(_) => None,
        }
    }

    /// The index of the first run that is not less than this one.
    fn first_index(&self, run: usize) -> usize
        ensures { Begins self.now.runs run result }
    {
        match self.runs.binary_search(&run) {
            Ok(index) => index,
            Err(index) => index,
        }
    }

    /// Adds a run and returns whether it is in the list. A new run is added only if it is greater than all others.
    pub fn enter(&mut self, run: usize) -> Result<bool, Refusal>
        ensures offers { SameOffers self.old self.new }
        ensures entered { IfOk result (λ has. (r : ℕ) → requests_in self.new r ≡ (has && nat_eq r run || requests_in self.old r)) }
        ensures refused { IfOk result (λ has. (has ≡ false) ↔ IsPassed (requests_in self.old) run) }
        ensures err { IfErr result (λ e. e ≡ no_memory) }
        ensures unchanged { OnErr result (SameRequesting self.old self.new) }
    {
        match self.runs.binary_search(&run) {
            Ok(_) => Ok(true),
            Err(index) if index == self.runs.len() => {
                self.marks.reserve_up_to(index + 1)?;
                self.runs.push(run)?;
                Ok(true)
            }
            Err(_) => Ok(false),
        }
    }

    /// Marks that the run may have a ready leg with these labels.
    pub fn mark(&mut self, run: usize)
        requires { requests_in self.old run ≡ true }
        ensures puts { PutsRun true run self.old self.new }
        ensures requests { SameRequesting self.old self.new }
    {
        if let Some(index) = self.index_of(run) {
            self.marks.mark(index);
        }
    }

    /// Removes the mark of a run that has no such leg.
    pub fn unmark(&mut self, run: usize)
        ensures puts { PutsRun false run self.old self.new }
        ensures requests { SameRequesting self.old self.new }
    {
        if let Some(index) = self.index_of(run) {
            self.marks.unmark(index);
        }
    }

    /// The first run, from `run` on, that may have a ready leg with these labels.
    pub fn first_from(&self, run: usize) -> Option<usize>
        ensures { IsFirstFrom (may_offer_in self.now) run result }
    {
        let from = self.first_index(run);
        let index = self.marks.first_from(from)?;
        Some(self.runs[index])
    }

    pub fn copy(&self) -> Result<Self, Refusal>
        ensures { Gives (λ a. a) result (Ok self.now) }
    {
        Ok(RequestingRuns {
            runs: self.runs.clone()?,
            marks: self.marks.copy()?,
        })
    }
}
