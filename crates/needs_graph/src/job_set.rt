ghost use Rattle.std.specs.Prelude.{◌≡◌, ◌≢◌, ◌/◌, ◌<◌, IfOk, List, [], length, true, ℕ};
ghost use Rattle.std.specs.List.{slice_index_or};
ghost use Rattle.needs_graph.specs.inner.JobSets.{is_in};
ghost use Rattle.needs_graph.specs.inner.JobBitmap.{is_marked};

use std::alloc::{AllocError, Global};
use std::marker::Model;
use wf_value::{Refusal, TryCopy};

/// A set of jobs as a bitmap. In contracts it is the list of its words.
#[derive(Drop)]
pub(crate) struct JobSet {
    words: Vec<u64>,
}

impl Model for JobSet {
    ghost Value = { List ℕ };

    ghost view = { λ s. s.words.items };
}

impl JobSet {
    /// The set of the marked jobs.
    pub(crate) fn of(alloc: Global, marks: &[bool]) -> Result<Self, AllocError>
        ensures { IfOk result (λ s. (job : ℕ) → is_in s job ≡ is_marked marks.now job) }
    {
        Ok(JobSet {
            words: words_of(alloc, marks)?,
        })
    }

    pub(crate) fn contains(&self, job: usize) -> bool
        ensures { result ≡ is_in self.now job }
    {
        match self.words.get(job / 64) {
            Some(word) => (*word >> (job % 64)) & 1 == 1,
            None => false,
        }
    }
}

impl TryCopy for JobSet {
    fn copy(&self, alloc: Global) -> Result<Self, Refusal> {
        Ok(JobSet {
            words: Vec::from_slice(alloc, self.words.as_slice())?,
        })
    }
}

/// Whether the set at an index contains the job; false if there is no such set.
pub(crate) fn set_has(sets: &[JobSet], index: usize, job: usize) -> bool
    ensures { result ≡ is_in (slice_index_or sets.now index []) job }
{
    match sets.get(index) {
        Some(set) => set.contains(job),
        None => false,
    }
}

fn insert(words: &mut [u64], job: usize)
    requires { job / 64 < length words.old }
    ensures it { is_in words.new job ≡ true }
    ensures others { (other : ℕ) → other ≢ job → is_in words.new other ≡ is_in words.old other }
{
    words[job / 64] |= 1u64 << (job % 64);
}

fn words_of(alloc: Global, marks: &[bool]) -> Result<Vec<u64>, AllocError>
    ensures { IfOk result (λ words. (job : ℕ) → is_in words.items job ≡ is_marked marks.now job) }
{
    let mut words = vec![in alloc; 0; marks.len() / 64 + 1]?;
    for (job, mark) in marks.iter().enumerate() {
        if *mark {
            insert(words.as_mut_slice(), job);
        }
    }
    Ok(words)
}
