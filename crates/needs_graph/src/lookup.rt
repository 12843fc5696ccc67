ghost use Rattle.std.specs.Prelude.{◌≡◌, IfOk, Ok, List, ℕ, length};
ghost use Rattle.std.specs.Str.{bytes_eq};
ghost use Rattle.std.specs.HashMap.{get_by};
ghost use Rattle.wf_value.specs.Gives.{Gives};
ghost use Rattle.needs_graph.specs.inner.Lookup.{Finds};

use crate::job_needs::JobNeeds;
use std::alloc::{AllocError, Global};
use std::collections::HashMap;
use std::marker::Model;
use wf_value::{Chars, Refusal, Same};

/// An index of jobs by their ids. In contracts it is the list of the jobs.
#[derive(Drop)]
pub(crate) struct Lookup<'a> {
    jobs: &'a [JobNeeds<'a>],
    indexes: HashMap<&'a str, usize>,
}

impl<'a> Model for Lookup<'a> {
    ghost use Rattle.std.specs.Prelude.{List, ℕ};
    ghost use Rattle.std.specs.Str.{bytes_eq};
    ghost use Rattle.std.specs.HashMap.{get_by};
    ghost use Rattle.needs_graph.specs.inner.Lookup.{Finds};
    ghost use Rattle.definitions.specs.Rising.{JobNeeds};

    ghost Value = { List JobNeeds };

    ghost view = { λ l. l.jobs.now };

    ghost invariant = { λ l. (id : List ℕ) → Finds l.jobs.now id (get_by (λ k. bytes_eq id k.now) l.indexes) };
}

impl<'a> Lookup<'a> {
    pub(crate) fn new(alloc: Global, jobs: &'a [JobNeeds<'a>]) -> Result<Self, Refusal>
        ensures { Gives (λ l. l) result (Ok jobs.now) }
    {
        Ok(Lookup {
            jobs,
            indexes: indexes_by_id(alloc, jobs)?,
        })
    }

    pub(crate) fn job_count(&self) -> usize
        ensures { result ≡ length self.now }
    {
        self.jobs.len()
    }

    /// The index of the job with this id. It first tries the likely index, since ids are mostly listed in order.
    pub(crate) fn index_from(&self, id: &Chars, likely: usize) -> Option<usize>
        ensures { Finds self.now id.now result }
    {
        if likely < self.jobs.len() && self.jobs[likely].id().same(id) {
            return Some(likely);
        }
        self.indexes.get(id.as_str()).copied()
    }
}

fn indexes_by_id<'a>(
    alloc: Global,
    jobs: &'a [JobNeeds<'a>],
) -> Result<HashMap<&'a str, usize>, AllocError>
    ensures { IfOk result (λ indexes. (id : List ℕ) → Finds jobs.now id (get_by (λ k. bytes_eq id k.now) indexes)) }
{
    let mut indexes = HashMap::new(alloc);
    for (index, job) in jobs.iter().enumerate() {
        indexes.insert(job.id().as_str(), index)?;
    }
    Ok(indexes)
}
