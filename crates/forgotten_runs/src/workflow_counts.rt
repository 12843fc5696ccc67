//! How many runs of each workflow are forgotten.

ghost use Rattle.std.specs.Prelude.{◌≡◌, ◌+◌, ◌<◌, ◌≤◌, ◌^◌, [], IfSome, Ok, OnErr, Some, length, option_and_then, option_map, slice_get, slice_set};
ghost use Rattle.std.specs.Prelude.{OnOk, find, sum_by, true};
ghost use Rattle.std.specs.Ordering.{is_lt};
ghost use Rattle.definitions.specs.Limits.{last_number};
ghost use Rattle.wf_value.specs.Gives.{Gives};
ghost use Rattle.wf_reader.specs.Event.{event_of};
ghost use Rattle.table_model.specs.Forgotten.{WorkflowCount as CountState, counted, counts_workflow, forgotten_of, increases, next_count};
ghost use Rattle.table_model.specs.Forgotten.{put_in_order, workflow_order};
ghost use Rattle.forgotten_runs.specs.inner.CountIndexes.{first_count, index_in, kept_if_of, one_more};

use run_plan::{Number, Prepared};
use std::alloc::Global;
use std::marker::Model;
use table_model::Run;
use wf_value::{Chars, Code, Refusal, TryCopy, copy_items};

/// A workflow, with how many of its runs are forgotten. Its repository and its path have less than 4 GiB each, so that both can be stored.
#[derive(Drop)]
pub struct WorkflowCount {
    repo: Chars,
    path: Chars,
    runs: Number,
}

impl Model for WorkflowCount {
    ghost use Rattle.std.specs.Prelude.{◌<◌, ◌^◌, length};
    ghost use Rattle.table_model.specs.Forgotten.{WorkflowCount as CountState};

    ghost Value = { CountState };

    ghost view = { λ c. record { repo = c.repo; path = c.path; runs = c.runs } };

    ghost invariant = { λ c. (length c.repo < 2 ^ 32) × (length c.path < 2 ^ 32) };
}

impl WorkflowCount {
    /// The count of a workflow.
    pub fn new(repo: Chars, path: Chars, runs: Number) -> Self
        requires repo { length repo < 2 ^ 32 }
        requires path { length path < 2 ^ 32 }
        ensures { result ≡ record { repo = repo; path = path; runs = runs } }
    {
        WorkflowCount { repo, path, runs }
    }

    /// The workflow's repository.
    pub fn repo(&self) -> &str
        ensures repo { result.now ≡ self.now.repo }
        ensures most { length self.now.repo < 2 ^ 32 }
    {
        self.repo.as_str()
    }

    /// The workflow's path within the repository.
    pub fn path(&self) -> &str
        ensures path { result.now ≡ self.now.path }
        ensures most { length self.now.path < 2 ^ 32 }
    {
        self.path.as_str()
    }

    /// How many of its runs are forgotten.
    pub fn runs(&self) -> Number
        ensures { result ≡ self.now.runs }
    {
        self.runs
    }

    /// A workflow of which one run is forgotten. For a text of 4 GiB there is no memory.
    fn first(alloc: Global, event: &Prepared) -> Result<Self, Refusal>
        ensures { Gives (λ count. count) result (Ok (first_count event.now)) }
    {
        let (repo, path) = (event.repo().copy(alloc)?, event.path().copy(alloc)?);
        if repo.as_str().len() > u32::MAX as usize || path.as_str().len() > u32::MAX as usize {
            return Err(Refusal::Numbered(Code::NoMemory));
        }
        Ok(WorkflowCount {
            repo,
            path,
            runs: Number::new(1),
        })
    }

    /// Whether it is the count of the event's workflow.
    fn is_of(&self, event: &Prepared) -> bool
        ensures { result ≡ counts_workflow event.now self.now }
    {
        event.repo().as_str() == self.repo.as_str() && event.path().as_str() == self.path.as_str()
    }

    /// Whether it is before another in the order.
    pub(crate) fn is_below(&self, other: &WorkflowCount) -> bool
        ensures { result ≡ is_lt (workflow_order self.now other.now) }
    {
        let repo = self.repo.as_str().cmp(other.repo.as_str());
        let path = self.path.as_str().cmp(other.path.as_str());
        repo.then(path).is_lt()
    }

    /// Whether it is before the event's workflow in the order.
    fn is_before(&self, event: &Prepared) -> bool
        ensures { result ≡ is_lt (workflow_order self.now (first_count event.now)) }
    {
        let repo = self.repo.as_str().cmp(event.repo().as_str());
        let path = self.path.as_str().cmp(event.path().as_str());
        repo.then(path).is_lt()
    }

    /// Counts one more run.
    fn count(&mut self)
        requires { self.old.runs < last_number }
        ensures { self.new ≡ one_more self.old }
    {
        self.runs = Number::new(self.runs.get() + 1);
    }
}

impl TryCopy for WorkflowCount {
    fn copy(&self, alloc: Global) -> Result<Self, Refusal> {
        Ok(WorkflowCount {
            repo: self.repo.copy(alloc)?,
            path: self.path.copy(alloc)?,
            runs: self.runs,
        })
    }
}

/// The counts of workflows, in order. A contract sees them as a list.
#[derive(Drop)]
pub(crate) struct WorkflowCounts {
    counts: Vec<WorkflowCount>,
}

impl Model for WorkflowCounts {
    ghost use Rattle.std.specs.Prelude.{◌≡◌, List, true};
    ghost use Rattle.table_model.specs.Forgotten.{WorkflowCount as CountState, increases, workflow_order};

    ghost Value = { List CountState };

    ghost view = { λ c. c.counts.items };

    ghost invariant = { λ c. increases workflow_order c.counts.items ≡ true };
}

impl WorkflowCounts {
    pub(crate) fn new(alloc: Global) -> Self
        ensures { result ≡ [] }
    {
        WorkflowCounts {
            counts: Vec::new(alloc),
        }
    }

    /// These counts.
    pub(crate) fn of(counts: Vec<WorkflowCount>) -> Self
        requires { increases workflow_order counts.items ≡ true }
        ensures { result ≡ counts.items }
    {
        WorkflowCounts { counts }
    }

    pub(crate) fn as_slice(&self) -> &[WorkflowCount]
        ensures counts { result.now ≡ self.now }
        ensures order { increases workflow_order self.now ≡ true }
    {
        self.counts.as_slice()
    }

    /// How many runs of the event's workflow are forgotten.
    pub(crate) fn of_workflow(&self, event: &Prepared) -> u32
        ensures count { result ≡ forgotten_of self.now event.now }
        ensures most { result ≤ last_number }
    {
        match count_of(self.as_slice(), event) {
            Some(count) => count.runs.get(),
            None => 0,
        }
    }

    /// The counts with each of these runs.
    pub(crate) fn with(&self, alloc: Global, runs: &[Run]) -> Result<Self, Refusal>
        requires { sum_by (λ c. c.runs) self.now + length runs.now ≤ last_number }
        ensures { Gives (λ counts. counts) result (Ok (counted self.now runs.now)) }
    {
        let mut counts = self.copy(alloc)?;
        for run in runs {
            counts.count(alloc, run.prepared())?;
        }
        Ok(counts)
    }

    /// Counts a run of the event's workflow.
    fn count(&mut self, alloc: Global, event: &Prepared) -> Result<(), Refusal>
        requires { sum_by (λ c. c.runs) self.old < last_number }
        ensures counts { Gives (λ _. self.new) result (Ok (put_in_order workflow_order self.old (next_count self.old event.now))) }
        ensures sum { OnOk result (sum_by (λ c. c.runs) self.new ≡ sum_by (λ c. c.runs) self.old + 1) }
        ensures err { OnErr result (self.new ≡ self.old) }
    {
        count_in(alloc, &mut self.counts, event)
    }
}

impl TryCopy for WorkflowCounts {
    fn copy(&self, alloc: Global) -> Result<Self, Refusal> {
        Ok(WorkflowCounts {
            counts: copy_items(alloc, &self.counts)?,
        })
    }
}

/// Where the count of the event's workflow is, or would be put.
fn index_in(counts: &[WorkflowCount], event: &Prepared) -> usize
    requires { increases workflow_order counts.now ≡ true }
    ensures { result ≡ index_in counts.now event.now }
{
    counts.partition_point(|count| count.is_before(event))
}

/// The count at an index, if it is that of the event's workflow.
fn count_at<'a>(
    counts: &'a [WorkflowCount],
    index: usize,
    event: &Prepared,
) -> Option<&'a WorkflowCount>
    ensures { option_map (λ c. c.now) result ≡ option_and_then (kept_if_of event.now) (slice_get counts.now index) }
{
    let count = counts.get(index)?;
    if count.is_of(event) {
        Some(count)
    } else {
        None
    }
}

/// The count of the event's workflow, if one of its runs is forgotten.
fn count_of<'a>(counts: &'a [WorkflowCount], event: &Prepared) -> Option<&'a WorkflowCount>
    requires { increases workflow_order counts.now ≡ true }
    ensures { option_map (λ c. c.now) result ≡ find (counts_workflow event.now) counts.now }
{
    count_at(counts, index_in(counts, event), event)
}

/// Counts one more run at an index.
fn count_again(counts: &mut Vec<WorkflowCount>, index: usize)
    requires within { index < length counts.old.items }
    requires few { IfSome (slice_get counts.old.items index) (λ count. count.runs < last_number) }
    ensures { (count : CountState) → slice_get counts.old.items index ≡ Some count
        → counts.new.items ≡ slice_set counts.old.items index (one_more count) }
{
    let count = &mut counts[index];
    count.count();
}

/// Counts a run of the event's workflow, in its place.
fn count_in(alloc: Global, counts: &mut Vec<WorkflowCount>, event: &Prepared) -> Result<(), Refusal>
    requires order { increases workflow_order counts.old.items ≡ true }
    requires few { sum_by (λ c. c.runs) counts.old.items < last_number }
    ensures put { Gives (λ _. counts.new.items) result
        (Ok (put_in_order workflow_order counts.old.items (next_count counts.old.items event.now))) }
    ensures sum { OnOk result (sum_by (λ c. c.runs) counts.new.items ≡ sum_by (λ c. c.runs) counts.old.items + 1) }
    ensures err { OnErr result (counts.new.items ≡ counts.old.items) }
{
    let index = index_in(counts, event);
    if count_at(counts, index, event).is_some() {
        count_again(counts, index);
        return Ok(());
    }
    let first = WorkflowCount::first(alloc, event)?;
    counts.insert(index, first)?;
    Ok(())
}
