//! Lists of labels by number, each with the runs that have legs with these labels.

ghost use Rattle.std.specs.Prelude.{◌≡◌, ◌↔◌, ◌≤◌, ◌<◌, ◌^◌, ℕ, [], true, false, length, None, Some, IfErr, IfNone, IfOk, IfSome, Ok, slice_get};
ghost use Rattle.wf_value.specs.Gives.{Gives, no_memory};
ghost use Rattle.run_marks.specs.First.{IsFirstFrom};
ghost use Rattle.label_lists.specs.inner.Requesting.{IsPassed};
ghost use Rattle.label_lists.specs.inner.Known.{HasEachOnce, IsPassedFor, OnlyEnters, PutsAt, SameRequested};
ghost use Rattle.label_lists.specs.Known.{IsBefore, requests_at, offers_at};

use crate::label_list::LabelList;
use crate::requesting_runs::RequestingRuns;
use indexmap::IndexSet;
use run_marks::RunBitmap;
use std::alloc::Global;
use std::marker::Model;
use wf_value::{Chars, Refusal, TryCopy};

/// Lists of labels with numbers that never change. In contracts it is the lists in the order of their numbers, from 0, and for each
/// the runs that have legs with these labels.
#[derive(Drop)]
pub(crate) struct KnownLists {
    lists: IndexSet<LabelList>,
    requesting: Vec<RequestingRuns>,
    /// The lists for which some run may have a ready leg.
    offering: RunBitmap,
}

impl Model for KnownLists {
    ghost use Rattle.std.specs.Prelude.{◌≡◌, length};
    ghost use Rattle.indexmap.specs.IndexSet.{IsUnique};
    ghost use Rattle.label_lists.specs.inner.Known.{AreMarked, KnownState};
    ghost use Rattle.label_lists.specs.inner.Labels.{labels_eq};

    ghost Value = { KnownState };

    ghost view = { λ k. record { lists = k.lists.keys; requesting = k.requesting.items } };

    ghost invariant = { λ k. IsUnique labels_eq k.lists × (length k.requesting.items ≡ length k.lists.keys) × AreMarked k.requesting.items k.offering };
}

impl KnownLists {
    pub fn new(alloc: Global) -> Self
        ensures lists { result.lists ≡ [] }
        ensures requesting { result.requesting ≡ [] }
    {
        KnownLists {
            lists: IndexSet::new(alloc),
            requesting: Vec::new(alloc),
            offering: RunBitmap::new(alloc),
        }
    }

    /// The number of lists. They are numbered from 0.
    pub fn len(&self) -> usize
        ensures len { result ≡ length self.now.lists }
        ensures small { result < 2 ^ 63 }
        ensures requesting { result ≡ length self.now.requesting }
        ensures once { HasEachOnce self.now.lists }
    {
        self.lists.len()
    }

    /// The labels of the list with this number, if any.
    pub fn labels(&self, number: usize) -> Option<&[Chars]>
        ensures some { IfSome result (λ labels. slice_get self.now.lists number ≡ Some labels.now) }
        ensures none { IfNone result (slice_get self.now.lists number ≡ None) }
    {
        match self.lists.get_index(number) {
            Some(list) => Some(list.as_slice()),
            None => None,
        }
    }

    /// Marks that a run may have a ready leg with the list of this number.
    pub fn mark(&mut self, number: usize, run: usize)
        requires { requests_at self.old.requesting number run ≡ true }
        ensures puts { PutsAt true number run self.old.requesting self.new.requesting }
        ensures requests { SameRequested self.old.requesting self.new.requesting }
        ensures lists { self.new.lists ≡ self.old.lists }
    {
        self.requesting[number].mark(run);
        self.offering.mark(number);
    }

    /// The first run, from `run` on, that may have a ready leg with the list of this number.
    pub fn first_from(&self, number: usize, run: usize) -> Option<usize>
        ensures { IsFirstFrom (offers_at self.now.requesting number) run result }
    {
        let requesting = self.requesting.get(number)?;
        requesting.first_from(run)
    }

    /// Removes the mark of a run that has no such leg.
    pub fn unmark(&mut self, number: usize, run: usize)
        requires { number < length self.old.requesting }
        ensures puts { PutsAt false number run self.old.requesting self.new.requesting }
        ensures requests { SameRequested self.old.requesting self.new.requesting }
        ensures lists { self.new.lists ≡ self.old.lists }
    {
        self.unmark_run(number, run);
        if self.requesting[number].first_from(0).is_none() {
            self.offering.unmark(number);
        }
    }

    fn unmark_run(&mut self, number: usize, run: usize)
        requires { number < length self.old.requesting }
        ensures puts { PutsAt false number run self.old.requesting self.new.requesting }
        ensures requests { SameRequested self.old.requesting self.new.requesting }
        ensures lists { self.new.lists ≡ self.old.lists }
        ensures len { length self.new.requesting ≡ length self.old.requesting }
    {
        self.requesting[number].unmark(run);
    }

    /// The first list, from `number` on, for which some run may have a ready leg.
    pub fn next_offering(&self, number: usize) -> Option<usize>
        ensures some { IfSome result (λ n. (number ≤ n) × (n < length self.now.lists)) }
        ensures passed { (n r : ℕ) → number ≤ n → IsBefore n result → offers_at self.now.requesting n r ≡ false }
    {
        self.offering.first_from(number)
    }

    /// Enters a list, unless it has a number, and adds a run to it. It returns the number, or `None` if the list already has a
    /// later run but not this one. A list that has a number is looked up once, and not copied.
    pub fn enter(
        &mut self,
        alloc: Global,
        labels: &LabelList,
        run: usize,
    ) -> Result<Option<usize>, Refusal>
        ensures enters { OnlyEnters self.old self.new }
        ensures number { IfOk result (λ found. IfSome found (λ n. slice_get self.new.lists n ≡ Some labels.now)) }
        ensures requests { IfOk result (λ found. IfSome found (λ n. requests_at self.new.requesting n run ≡ true)) }
        ensures none { IfOk result (λ found. (found ≡ None) ↔ IsPassedFor self.old labels.now run) }
        ensures err { IfErr result (λ e. e ≡ no_memory) }
    {
        let number = self.number_of(alloc, labels)?;
        let has_place = self.enter_run(number, run)?;
        if !has_place {
            return Ok(None);
        }
        Ok(Some(number))
    }

    /// Adds a run to the list of a number and returns whether it is there.
    fn enter_run(&mut self, number: usize, run: usize) -> Result<bool, Refusal>
        requires { number < length self.old.requesting }
        ensures enters { OnlyEnters self.old self.new }
        ensures requests { IfOk result (λ has. has ≡ true → requests_at self.new.requesting number run ≡ true) }
        ensures refused { IfOk result (λ has. (has ≡ false) ↔ IsPassed (requests_at self.old.requesting number) run) }
        ensures lists { self.new.lists ≡ self.old.lists }
        ensures err { IfErr result (λ e. e ≡ no_memory) }
    {
        self.requesting[number].enter(run)
    }

    /// The number of a list, which is entered if it has none.
    fn number_of(&mut self, alloc: Global, labels: &LabelList) -> Result<usize, Refusal>
        ensures enters { OnlyEnters self.old self.new }
        ensures number { IfOk result (λ n. slice_get self.new.lists n ≡ Some labels.now) }
        ensures within { IfOk result (λ n. n < length self.new.requesting) }
        ensures keeps { IfOk result (λ n. (k : ℕ) → slice_get self.old.lists k ≡ Some labels.now → n ≡ k) }
        ensures had { IfOk result (λ n. n < length self.old.requesting → slice_get self.old.lists n ≡ Some labels.now) }
        ensures requests { SameRequested self.old.requesting self.new.requesting }
        ensures err { IfErr result (λ e. e ≡ no_memory) }
    {
        match self.number(labels) {
            Some(number) => Ok(number),
            None => self.enter_list(alloc, labels),
        }
    }

    /// The number of a list, if it has one.
    fn number(&self, labels: &LabelList) -> Option<usize>
        ensures number { IfSome result (λ n. slice_get self.now.lists n ≡ Some labels.now) }
        ensures within { IfSome result (λ n. n < length self.now.requesting) }
        ensures keeps { IfSome result (λ n. (k : ℕ) → slice_get self.now.lists k ≡ Some labels.now → n ≡ k) }
        ensures none { IfNone result ((k : ℕ) → slice_get self.now.lists k ≡ Some labels.now → ⊥) }
    {
        self.lists.get_index_of(labels)
    }

    /// Enters a list that has no number. It gets the next number, and has no runs.
    fn enter_list(&mut self, alloc: Global, labels: &LabelList) -> Result<usize, Refusal>
        requires { (k : ℕ) → slice_get self.old.lists k ≡ Some labels.now → ⊥ }
        ensures enters { OnlyEnters self.old self.new }
        ensures number { IfOk result (λ n. slice_get self.new.lists n ≡ Some labels.now) }
        ensures next { IfOk result (λ n. n ≡ length self.old.requesting) }
        ensures within { IfOk result (λ n. n < length self.new.requesting) }
        ensures requests { SameRequested self.old.requesting self.new.requesting }
        ensures err { IfErr result (λ e. e ≡ no_memory) }
    {
        let copy = labels.copy(alloc)?;
        self.offering.reserve_up_to(self.requesting.len() + 1)?;
        self.requesting.reserve(1)?;
        let (number, _is_new) = self.lists.insert_full(copy)?;
        self.requesting.push_reserved(RequestingRuns::new(alloc));
        Ok(number)
    }

    pub fn copy(&self, alloc: Global) -> Result<Self, Refusal>
        ensures { Gives (λ k. k) result (Ok self.now) }
    {
        Ok(KnownLists {
            lists: copy_of(alloc, &self.lists)?,
            requesting: copies_of(alloc, self.requesting.as_slice())?,
            offering: self.offering.copy()?,
        })
    }
}

/// Copies the lists, in order.
fn copy_of(alloc: Global, lists: &IndexSet<LabelList>) -> Result<IndexSet<LabelList>, Refusal>
    ensures { Gives (λ s. s.keys) result (Ok lists.now.keys) }
{
    let mut copy = IndexSet::with_capacity(alloc, lists.len())?;
    for list in lists.iter() {
        copy.insert(list.copy(alloc)?)?;
    }
    Ok(copy)
}

/// Copies the runs of each list.
fn copies_of(alloc: Global, requesting: &[RequestingRuns]) -> Result<Vec<RequestingRuns>, Refusal>
    ensures { Gives (λ v. v.items) result (Ok requesting.now) }
{
    let mut copies = Vec::with_capacity(alloc, requesting.len())?;
    for runs in requesting {
        copies.push(runs.copy()?)?;
    }
    Ok(copies)
}
