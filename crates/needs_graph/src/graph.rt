ghost use Rattle.std.specs.Prelude.{◌≡◌, ◌≢◌, ◌↔◌, ◌<◌, ◌&&◌, ◌==◌, [], not, false, true, IsTrue, None, Ok, length, map, slice_get, ℕ};
ghost use Rattle.std.specs.List.{list_all, list_any, slice_index_or};
ghost use Rattle.wf_value.specs.Gives.{Gives};
ghost use Rattle.needs_graph.specs.Needs.{needs_at, is_ancestor, dependents_of, HasWalk, ids_rise, list_nothing, needs_of, graph_of};
ghost use Rattle.needs_graph.specs.Needs.{ancestor_results, condition_value, has_failed, has_succeeded};
ghost use Rattle.needs_graph.specs.inner.Rows.{own_ids};

use crate::conditions::{AncestorTest, ancestor_test_of, has_failed, has_succeeded, result_at};
use crate::ended::HasResult;
use crate::job_needs::JobNeeds;
use crate::job_set::{JobSet, set_has};
use crate::marks::JobBitmap;
use crate::rows::{all_dependents, all_indexes, all_sets, closed_rows, needs_rows, no_indexes};
use std::alloc::Global;
use std::marker::Model;
use wf_value::{Chars, Condition, Refusal, Sequence, TryCopy};

/// Which jobs each job of a workflow needs, directly and transitively. Jobs are identified by their indices in the order of their
/// ids, from 0. The graph is acyclic. In contracts it is, for each job, the ordered list of the jobs that it needs directly.
#[derive(Drop)]
pub struct Graph {
    needs: Sequence<Sequence<usize>>,
    ancestors: Sequence<JobSet>,
    dependents: Sequence<Sequence<usize>>,
}

impl Model for Graph {
    ghost use Rattle.std.specs.Prelude.{List, ℕ};
    ghost use Rattle.needs_graph.specs.Needs.{IsGraph};

    ghost Value = { List (List ℕ) };

    ghost view = { λ g. g.needs };

    ghost invariant = { λ g. IsGraph g.needs g.ancestors g.dependents };
}

impl Graph {
    /// Builds the graph of the jobs' needs. The jobs are in byte order of their ids. The `Err` is 13 if a job lists an unknown id,
    /// else 14 if a job is its own ancestor, with the ids of all such jobs, in order; 50 when out of memory.
    /// Promise (Needs, matrices, templates and values): A graph is made exactly where every listed id is a job's (else 13) and no job is its own
    ///   ancestor (else 14 with all that are, in order)
    /// By: `needs_graph::Graph::build`, `graph`
    pub fn build(alloc: Global, jobs: &[JobNeeds<'_>]) -> Result<Graph, Refusal>
        requires { IsTrue (ids_rise jobs.now) }
        ensures graph { Gives (λ g. g) result (graph_of jobs.now) }

        // An ancestor is the end of a walk along needs.
        ensures walks { (job other : ℕ) → IsTrue (is_ancestor (needs_of jobs.now) job other)
            ↔ HasWalk (needs_of jobs.now) job other }
    {
        if list_nothing(jobs) {
            return Graph::without_needs(alloc, jobs);
        }
        Graph::of_needs(alloc, jobs)
    }

    /// The graph of jobs that list no needs. It needs no lookup of ids.
    fn without_needs(alloc: Global, jobs: &[JobNeeds<'_>]) -> Result<Graph, Refusal>
        requires { list_nothing jobs.now ≡ true }
        ensures { Gives (λ g. g) result (graph_of jobs.now) }
    {
        let needs = no_indexes(alloc, jobs.len())?;
        let dependents = no_indexes(alloc, jobs.len())?;
        Ok(Graph {
            needs,
            ancestors: no_sets(alloc),
            dependents,
        })
    }

    /// The graph of jobs, whatever they list.
    fn of_needs(alloc: Global, jobs: &[JobNeeds<'_>]) -> Result<Graph, Refusal>
        requires { IsTrue (ids_rise jobs.now) }
        ensures { Gives (λ g. g) result (graph_of jobs.now) }
    {
        let direct = needs_rows(alloc, jobs)?;
        let needs = all_indexes(alloc, direct.as_slice())?;
        let dependents = all_dependents(alloc, direct.as_slice())?;
        let reached = closed_rows(alloc, direct)?;
        let ids = own_ids(alloc, jobs, reached.as_slice())?;
        if !ids.is_empty() {
            return Err(Refusal::Cycle(Sequence::new(ids)));
        }
        Ok(Graph {
            needs,
            ancestors: all_sets(alloc, reached.as_slice())?,
            dependents,
        })
    }

    pub fn job_count(&self) -> usize
        ensures { result ≡ length self.now }
    {
        self.needs.len()
    }

    /// The jobs that a job needs directly, in order.
    /// Promise (Needs, matrices, templates and values): Needs and dependents are those of the lists, in order
    /// By: `needs_graph::Graph::{needs, dependents, job_count, copy}`
    pub fn needs(&self, job: usize) -> &[usize]
        requires { job < length self.now }
        ensures { result.now ≡ needs_at self.now job }
    {
        self.needs.as_slice()[job].as_slice()
    }

    /// The jobs that need a job directly, in order.
    pub fn dependents(&self, job: usize) -> &[usize]
        requires { job < length self.now }
        ensures { result.now ≡ dependents_of self.now job }
    {
        self.dependents.as_slice()[job].as_slice()
    }

    /// The first of the jobs that need a job directly, if any.
    pub fn first_dependent(&self, job: usize) -> Option<usize>
        ensures { result ≡ slice_get (dependents_of self.now job) 0 }
    {
        match self.dependents.as_slice().get(job) {
            Some(dependents) => dependents.as_slice().first().copied(),
            None => None,
        }
    }

    /// Whether `other` is an ancestor of the job, that is, the end of a walk of one or more needs from it.
    /// Promise (Needs, matrices, templates and values): An ancestor is exactly a job at the end of a walk along needs; no job is its own
    /// By: `needs_graph::Graph::has_ancestor`, `value`, `walks`, `within`, `acyclic`; `needs_graph::Graph::build`, `walks`
    pub fn has_ancestor(&self, job: usize, other: usize) -> bool
        ensures value { result ≡ is_ancestor self.now job other }
        ensures walks { IsTrue result ↔ HasWalk self.now job other }
        ensures within { IsTrue result → other < length self.now }
        ensures acyclic { IsTrue result → other ≢ job }
    {
        set_has(self.ancestors.as_slice(), job, other)
    }

    /// Whether the condition of a job holds, given the results of the workflow's jobs so far, in order, and whether the run is
    /// stopping. It considers all ancestors of the job; one without a result has neither succeeded nor failed.
    /// Promise (Needs, matrices, templates and values): Conditions, the result of a job and the conclusion of a run are those of the definition,
    ///   memory or not
    /// By: `needs_graph::Graph::decide`; `needs_graph::{decide, gather, conclude}`; of a table `table_runs::Runs::result`
    pub fn decide<J: HasResult>(
        &self,
        job: usize,
        condition: Condition,
        jobs: &[J],
        stopping: bool,
    ) -> bool
        ensures { result ≡ condition_value condition (ancestor_results self.now (map J.job_result jobs.now) job) stopping }
    {
        match ancestor_test_of(condition, stopping) {
            AncestorTest::Nothing(value) => value,
            AncestorTest::AllSucceeded => self.all_ancestors_succeeded(job, jobs),
            AncestorTest::AnyFailed => self.any_ancestor_failed(job, jobs),
        }
    }

    fn all_ancestors_succeeded<J: HasResult>(&self, job: usize, jobs: &[J]) -> bool
        ensures { result ≡ list_all has_succeeded (ancestor_results self.now (map J.job_result jobs.now) job) }
    {
        if self.need_lacks_success(job, jobs) {
            return false;
        }
        for other in 0..self.job_count() {
            if self.ancestor_lacks_success(job, other, jobs) {
                return false;
            }
        }
        true
    }

    fn any_ancestor_failed<J: HasResult>(&self, job: usize, jobs: &[J]) -> bool
        ensures { result ≡ list_any has_failed (ancestor_results self.now (map J.job_result jobs.now) job) }
    {
        for other in 0..self.job_count() {
            if self.ancestor_failed(job, other, jobs) {
                return true;
            }
        }
        false
    }

    /// Whether a direct need of the job has not succeeded. If so, not all of its ancestors have.
    fn need_lacks_success<J: HasResult>(&self, job: usize, jobs: &[J]) -> bool
        ensures { IsTrue result → list_all has_succeeded (ancestor_results self.now (map J.job_result jobs.now) job) ≡ false }
    {
        match self.needs.as_slice().get(job) {
            Some(needs) => any_lacks_success(needs.as_slice(), jobs),
            None => false,
        }
    }

    /// Whether `other` is an ancestor of the job and has not succeeded.
    fn ancestor_lacks_success<J: HasResult>(&self, job: usize, other: usize, jobs: &[J]) -> bool
        ensures { result ≡ (is_ancestor self.now job other
            && not (has_succeeded (slice_index_or (map J.job_result jobs.now) other None))) }
    {
        self.has_ancestor(job, other) && !has_succeeded(result_at(jobs, other))
    }

    /// Whether `other` is an ancestor of the job and has failed.
    fn ancestor_failed<J: HasResult>(&self, job: usize, other: usize, jobs: &[J]) -> bool
        ensures { result ≡ (is_ancestor self.now job other
            && has_failed (slice_index_or (map J.job_result jobs.now) other None)) }
    {
        self.has_ancestor(job, other) && has_failed(result_at(jobs, other))
    }
}

impl TryCopy for Graph {
    fn copy(&self, alloc: Global) -> Result<Self, Refusal> {
        Ok(Graph {
            needs: self.needs.copy(alloc)?,
            ancestors: self.ancestors.copy(alloc)?,
            dependents: self.dependents.copy(alloc)?,
        })
    }
}

fn lists_nothing(job: &JobNeeds<'_>) -> bool
    ensures { result ≡ (length job.now.needs == 0) }
{
    job.needs().is_empty()
}

/// Whether no job lists a need.
fn list_nothing(jobs: &[JobNeeds<'_>]) -> bool
    ensures { result ≡ list_nothing jobs.now }
{
    jobs.iter().all(|job| lists_nothing(job))
}

/// No sets: a job without a set has no ancestors.
fn no_sets(alloc: Global) -> Sequence<JobSet>
    ensures { result ≡ [] }
{
    Sequence::new(Vec::new(alloc))
}

/// Whether one of the jobs at these indices has not succeeded.
fn any_lacks_success<J: HasResult>(indexes: &[usize], jobs: &[J]) -> bool
    ensures { result ≡ list_any (λ index. not (has_succeeded (slice_index_or (map J.job_result jobs.now) index None))) indexes.now }
{
    indexes
        .iter()
        .any(|index| !has_succeeded(result_at(jobs, *index)))
}

/// The ids of the jobs that reach themselves, in order.
fn own_ids(
    alloc: Global,
    jobs: &[JobNeeds<'_>],
    reached: &[JobBitmap],
) -> Result<Vec<Chars>, Refusal>
    requires { length jobs.now ≡ length reached.now }
    ensures { Gives (λ v. v.items) result (Ok (own_ids jobs.now reached.now)) }
{
    let mut ids = Vec::new(alloc);
    for (index, job) in jobs.iter().enumerate() {
        if reached[index].contains(index) {
            ids.push(job.id().copy(alloc)?)?;
        }
    }
    Ok(ids)
}
