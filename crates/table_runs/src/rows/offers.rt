//! Which runs a claim searches: those that are marked for a list of labels that its runner serves. A run is marked for a leg's list before
//! the leg becomes ready.

ghost use Rattle.std.specs.Prelude.{◌≡◌, ◌≤◌, ◌<◌, ℕ, IfNone, IfSome, Some, length, slice_get, true, false};
ghost use Rattle.label_lists.specs.Known.{IsBefore};
ghost use Rattle.label_lists.specs.Lists.{HasPlace, may_offer};
ghost use Rattle.std.specs.List.{list_any};
ghost use Rattle.table_model.specs.inner.Cells.{states};
ghost use Rattle.table_model.specs.Runs.{placed};
ghost use Rattle.table_model.specs.Fitting.{is_ready};
ghost use Rattle.table_bindings.specs.inner.LabelNumbers.{IsOffered, JobsOffer, LegsOffer, MayServe, OnlyMarks, OnlyPuts, ServesList, job_offers, leg_offers};
ghost use Rattle.table_bindings.specs.LabelNumbers.{list_number, number_in};
ghost use Rattle.table_bindings.specs.inner.LabelNumbers.{offers_list};

use label_lists::LabelLists;
use run_plan::Label;
use table_bindings::label_numbers::list_number;
use table_bindings::resolved_labels::has_texts;
use table_bindings::{ListNumbers, RunBindings};
use table_model::{Job, Leg, LegSite, Run};

/// Marks the run of a leg that is about to become ready for the leg's list.
pub(crate) fn offer(lists: &mut LabelLists, leg: Option<LegSite>, bindings: &RunBindings)
    requires { IfSome leg (λ p. HasPlace lists.old (list_number bindings.now.lists p.job p.leg) p.run) }
    ensures itself { IfSome leg (λ p. IsOffered lists.new bindings.now p) }
    ensures others { OnlyMarks lists.old lists.new }
{
    if let Some(site) = leg {
        let number = list_number(bindings.lists.as_slice(), site.job, site.leg);
        lists.mark(number, site.run);
    }
}

/// Marks run `r` for a list, or unmarks it.
fn put(lists: &mut LabelLists, number: usize, r: usize, to: bool)
    requires { HasPlace lists.old number r }
    ensures itself { may_offer lists.new number r ≡ to }
    ensures others { OnlyPuts r to lists.old lists.new }
{
    if to {
        lists.mark(number, r);
    } else {
        lists.unmark(number, r);
    }
}

fn number_at(numbers: &[usize], l: usize) -> usize
    requires { l < length numbers.now }
    ensures { slice_get numbers.now l ≡ Some result }
{
    numbers[l]
}

fn put_each(lists: &mut LabelLists, numbers: &[usize], r: usize, to: bool)
    requires { (l n : ℕ) → slice_get numbers.now l ≡ Some n → HasPlace lists.old n r }
    ensures all { (l n : ℕ) → slice_get numbers.now l ≡ Some n → may_offer lists.new n r ≡ to }
    ensures others { OnlyPuts r to lists.old lists.new }
{
    for l in 0..numbers.len() {
        let number = number_at(numbers, l);
        put(lists, number, r, to);
    }
}

fn put_job(lists: &mut LabelLists, job: &ListNumbers, r: usize, to: bool)
    requires { (l : ℕ) → HasPlace lists.old (number_in job.now l) r }
    ensures all { (l : ℕ) → may_offer lists.new (number_in job.now l) r ≡ to }
    ensures others { OnlyPuts r to lists.old lists.new }
{
    put_each(lists, job.legs.as_slice(), r, to);
    put(lists, job.whole, r, to);
}

fn put_jobs(lists: &mut LabelLists, numbers: &[ListNumbers], r: usize, to: bool)
    requires { (j l : ℕ) → HasPlace lists.old (list_number numbers.now j l) r }
    ensures all { (j l : ℕ) → j < length numbers.now → may_offer lists.new (list_number numbers.now j l) r ≡ to }
    ensures others { OnlyPuts r to lists.old lists.new }
{
    for j in 0..numbers.len() {
        put_job(lists, &numbers[j], r, to);
    }
}

/// Marks run `r` for the lists of all its legs, or unmarks it.
pub(crate) fn put_run(lists: &mut LabelLists, numbers: &[ListNumbers], r: usize, to: bool)
    requires { (j l : ℕ) → HasPlace lists.old (list_number numbers.now j l) r }
    ensures all { (j l : ℕ) → may_offer lists.new (list_number numbers.now j l) r ≡ to }
    ensures others { OnlyPuts r to lists.old lists.new }
{
    put_jobs(lists, numbers, r, to);
    put(lists, 0, r, to);
}

// ---- the ready legs of a run

/// The number of the list of all legs of job `j`, if none of them has its own.
fn number_of_all(numbers: &[ListNumbers], j: usize) -> Option<usize>
    ensures { IfSome result (λ n. (l : ℕ) → list_number numbers.now j l ≡ n) }
{
    match numbers.get(j) {
        Some(job) if job.legs.is_empty() => Some(job.whole),
        Some(_) => None,
        None => Some(0),
    }
}

/// Whether a ready leg among these asks for the list with this number.
fn offers_in_legs(numbers: &[ListNumbers], number: usize, j: usize, legs: &[Leg]) -> bool
    ensures { result ≡ list_any (leg_offers numbers.now number j) (placed legs.now) }
{
    for l in 0..legs.len() {
        let leg = &legs[l];
        if leg.is_ready() && list_number(numbers, j, l) == number {
            return true;
        }
    }
    false
}

/// Whether a ready leg of the job asks for the list with this number. It scans the legs only if one is ready and they have numbers of their
/// own.
fn offers_in_job(numbers: &[ListNumbers], number: usize, j: usize, job: &Job) -> bool
    ensures { result ≡ job_offers numbers.now number (j, job.now.state) }
{
    if !job.has_ready_leg() {
        return false;
    }
    match number_of_all(numbers, j) {
        Some(all) => all == number,
        None => offers_in_legs(numbers, number, j, job.legs()),
    }
}

fn offers_in_jobs(numbers: &[ListNumbers], number: usize, jobs: &[Job]) -> bool
    ensures { result ≡ list_any (job_offers numbers.now number) (placed (states jobs.now)) }
{
    for j in 0..jobs.len() {
        let job = &jobs[j];
        if offers_in_job(numbers, number, j, job) {
            return true;
        }
    }
    false
}

/// Whether a ready leg of the run asks for the list with this number.
pub(crate) fn offers_list(run: &Run, numbers: &[ListNumbers], number: usize) -> bool
    ensures { result ≡ offers_list run.now numbers.now number }
{
    offers_in_jobs(numbers, number, run.jobs())
}

/// Marks run `r` for the list with this number if the leg is ready.
fn offer_leg(lists: &mut LabelLists, number: usize, r: usize, leg: &Leg)
    requires { HasPlace lists.old number r }
    ensures itself { is_ready leg.now.phase ≡ true → may_offer lists.new number r ≡ true }
    ensures others { OnlyPuts r true lists.old lists.new }
{
    if leg.is_ready() {
        put(lists, number, r, true);
    }
}

/// Marks run `r` for the lists of those legs of a job that are ready.
fn offer_legs(lists: &mut LabelLists, numbers: &[ListNumbers], r: usize, j: usize, legs: &[Leg])
    requires { (l : ℕ) → HasPlace lists.old (list_number numbers.now j l) r }
    ensures all { LegsOffer lists.new numbers.now r j legs.now }
    ensures others { OnlyPuts r true lists.old lists.new }
{
    for l in 0..legs.len() {
        let number = list_number(numbers, j, l);
        let leg = &legs[l];
        offer_leg(lists, number, r, leg);
    }
}

/// Marks run `r` for the lists of the ready legs of a job that has one. It scans the legs only if they have numbers of their own.
fn offer_ready(lists: &mut LabelLists, numbers: &[ListNumbers], r: usize, j: usize, legs: &[Leg])
    requires { (l : ℕ) → HasPlace lists.old (list_number numbers.now j l) r }
    ensures all { LegsOffer lists.new numbers.now r j legs.now }
    ensures others { OnlyPuts r true lists.old lists.new }
{
    match number_of_all(numbers, j) {
        Some(number) => put(lists, number, r, true),
        None => offer_legs(lists, numbers, r, j, legs),
    }
}

fn offer_job(lists: &mut LabelLists, numbers: &[ListNumbers], r: usize, j: usize, job: &Job)
    requires { (l : ℕ) → HasPlace lists.old (list_number numbers.now j l) r }
    ensures all { LegsOffer lists.new numbers.now r j job.now.state.legs }
    ensures others { OnlyPuts r true lists.old lists.new }
{
    if job.has_ready_leg() {
        offer_ready(lists, numbers, r, j, job.legs());
    }
}

fn offer_jobs(lists: &mut LabelLists, numbers: &[ListNumbers], r: usize, jobs: &[Job])
    requires { (j l : ℕ) → HasPlace lists.old (list_number numbers.now j l) r }
    ensures all { JobsOffer lists.new numbers.now r (states jobs.now) }
    ensures others { OnlyPuts r true lists.old lists.new }
{
    for j in 0..jobs.len() {
        offer_job(lists, numbers, r, j, &jobs[j]);
    }
}

/// Marks run `r` for the lists of its ready legs.
pub(crate) fn offer_run(lists: &mut LabelLists, bindings: &RunBindings, r: usize, run: &Run)
    requires { (j l : ℕ) → HasPlace lists.old (list_number bindings.now.lists j l) r }
    ensures all { JobsOffer lists.new bindings.now.lists r run.now.jobs }
    ensures others { OnlyPuts r true lists.old lists.new }
{
    offer_jobs(lists, bindings.lists.as_slice(), r, run.jobs());
}

// ---- what a runner may be offered

/// The first run at or after `from` that is marked for the list with this number, if `labels` has all labels of the list.
fn first_served(lists: &LabelLists, labels: &[Label], number: usize, from: usize) -> Option<usize>
    ensures from { IfSome result (λ s. from ≤ s) }
    ensures passed { (s : ℕ) → from ≤ s → IsBefore s result → ServesList lists.now labels.now number
        → may_offer lists.now number s ≡ false }
{
    let wanted = lists.labels(number)?;
    if has_texts(labels, wanted) {
        lists.first_from(number, from)
    } else {
        None
    }
}

/// The smaller of the two, if there are two; otherwise the one that there is.
fn earlier(one: Option<usize>, other: Option<usize>) -> Option<usize>
    ensures before { (s : ℕ) → IsBefore s result → IsBefore s one × IsBefore s other }
    ensures from { (from : ℕ) → IfSome one (λ s. from ≤ s) → IfSome other (λ s. from ≤ s) → IfSome result (λ s. from ≤ s) }
{
    match (one, other) {
        (Some(r), Some(s)) => Some(if r < s { r } else { s }),
        (Some(r), None) => Some(r),
        (None, _) => other,
    }
}

/// The index that was found, if it is below `bound`.
pub(crate) fn below(found: Option<usize>, bound: usize) -> Option<usize>
    ensures within { IfSome result (λ r. r < bound) }
    ensures same { IfSome result (λ r. found ≡ Some r) }
    ensures none { IfNone result (IfSome found (λ r. bound ≤ r)) }
{
    match found {
        Some(r) if r < bound => Some(r),
        _ => None,
    }
}

/// The first run at or after `from` that is marked for a list of which `labels` has all labels, or under number 0, which says nothing about
/// labels.
pub(crate) fn first_offering(lists: &LabelLists, labels: &[Label], from: usize) -> Option<usize>
    ensures from { IfSome result (λ s. from ≤ s) }
    ensures passed { (n s : ℕ) → from ≤ s → IsBefore s result → MayServe lists.now labels.now n → may_offer lists.now n s ≡ false }
{
    let mut first = lists.first_from(0, from);
    let mut number = 0;
    while let Some(n) = lists.next_after(number) {
        first = earlier(first, first_served(lists, labels, n, from));
        number = n;
    }
    first
}
