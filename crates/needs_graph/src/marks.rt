ghost use Rattle.std.specs.Prelude.{◌≡◌, ◌<◌, ◌≤◌, ℕ, Ok, IfOk, List, Bool, true, false, length, replicate, slice_set};
ghost use Rattle.wf_value.specs.Gives.{Gives};
ghost use Rattle.needs_graph.specs.inner.JobSets.{is_in};
ghost use Rattle.needs_graph.specs.inner.JobBitmap.{is_marked, marked, either, through};

use crate::job_set::JobSet;
use std::alloc::{AllocError, Global};
use std::marker::Model;
use wf_value::{Refusal, Sequence};

/// The number of marks that the processor combines at once.
const STEP: usize = 32;

/// A set of jobs: one flag for each job, in order.
#[derive(Drop)]
pub(crate) struct JobBitmap {
    marks: Vec<bool>,
}

impl Model for JobBitmap {
    ghost Value = { List Bool };

    ghost view = { λ m. m.marks.items };
}

impl JobBitmap {
    /// The empty set over this number of jobs.
    pub(crate) fn none(alloc: Global, jobs: usize) -> Result<Self, Refusal>
        ensures { Gives (λ m. m) result (Ok (replicate jobs false)) }
    {
        Ok(JobBitmap {
            marks: vec![in alloc; false; jobs]?,
        })
    }

    /// The set without the unset marks after its last job. Adding it to another set takes less time.
    pub(crate) fn trimmed(&self, alloc: Global) -> Result<Self, AllocError>
        ensures { IfOk result (λ t. (marks : List Bool) → either marks t ≡ either marks self.now) }
    {
        let end = end_of(self.marks.as_slice());
        Ok(JobBitmap {
            marks: Vec::from_slice(alloc, &self.marks.as_slice()[..end])?,
        })
    }

    pub(crate) fn contains(&self, job: usize) -> bool
        ensures { result ≡ is_marked self.now job }
    {
        self.marks.get(job).copied().unwrap_or(false)
    }

    pub(crate) fn insert(&mut self, job: usize)
        requires { job < length self.old }
        ensures { self.new ≡ slice_set self.old job true }
    {
        self.marks[job] = true;
    }

    /// Adds the jobs of the other set.
    pub(crate) fn add_all(&mut self, others: &JobBitmap)
        ensures { self.new ≡ either self.old others.now }
    {
        add_marks(self.marks.as_mut_slice(), others.marks.as_slice());
    }

    /// If the set contains the job, adds the jobs that the job reaches.
    pub(crate) fn lead_through(&mut self, job: usize, others: &JobBitmap)
        ensures { self.new ≡ through job others.now self.old }
    {
        if self.contains(job) {
            self.add_all(others);
        }
    }

    /// The set as a bitmap.
    pub(crate) fn set(&self, alloc: Global) -> Result<JobSet, AllocError>
        ensures { IfOk result (λ s. (job : ℕ) → is_in s job ≡ is_marked self.now job) }
    {
        JobSet::of(alloc, self.marks.as_slice())
    }

    /// The jobs of the set, in order.
    pub(crate) fn indexes(&self, alloc: Global) -> Result<Sequence<usize>, Refusal>
        ensures { Gives (λ p. p) result (Ok (marked self.now)) }
    {
        Ok(Sequence::new(marked_indexes(alloc, self.marks.as_slice())?))
    }
}

/// The length to which the marks can be cut: a multiple of `STEP` after the last set mark, or the whole length.
fn end_of(marks: &[bool]) -> usize
    ensures within { result ≤ length marks.now }
    ensures rest { (job : ℕ) → result ≤ job → is_marked marks.now job ≡ false }
{
    match marks.iter().rposition(|mark| *mark) {
        Some(last) => (last / STEP * STEP + STEP).min(marks.len()),
        None => 0,
    }
}

fn add_marks(marks: &mut [bool], others: &[bool])
    ensures { marks.new ≡ either marks.old others.now }
{
    let end = marks.len().min(others.len());
    for i in 0..end {
        marks[i] |= others[i];
    }
}

fn marked_indexes(alloc: Global, marks: &[bool]) -> Result<Vec<usize>, AllocError>
    ensures { IfOk result (λ indexes. indexes.items ≡ marked marks.now) }
{
    let first = &marks[..end_of(marks)];
    let mut indexes = Vec::with_capacity(alloc, first.iter().filter(|mark| **mark).count())?;
    for (job, mark) in first.iter().enumerate() {
        if *mark {
            indexes.push(job)?;
        }
    }
    Ok(indexes)
}
