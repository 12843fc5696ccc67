//! For each job of a run, the number of its direct needs that have not finished. Each job keeps its count, so opening a job reads no list.

ghost use Rattle.std.specs.Prelude.{◌≡◌, ◌≢◌, ◌-◌, ℕ, count_by, length, nat_eq};
ghost use Rattle.table_model.specs.inner.Cells.{rooms, states};
ghost use Rattle.table_model.specs.Runs.{changed_at, results_so_far};
ghost use Rattle.table_model.specs.inner.NeedsLeft.{NamedOnce, NeedsAreLeft, needs_left_at, unfinished};
ghost use Rattle.table_model.specs.Settling.{finished_as};

use crate::job::Job;
use crate::run::is_finished_at;
use needs_graph::Graph;
use wf_value::JobResult;

/// Counts again, for each job, its direct needs that have not finished.
pub(super) fn count_needs(jobs: &mut Vec<Job>, graph: &Graph)
    requires { length jobs.old.items ≡ length graph.now }
    ensures states { states jobs.new.items ≡ states jobs.old.items }
    ensures rooms { rooms jobs.new.items ≡ rooms jobs.old.items }
    ensures left { NeedsAreLeft graph.now jobs.new.items }
{
    for j in 0..jobs.len() {
        let left = count_unfinished(jobs.as_slice(), graph.needs(j));
        let job = &mut jobs[j];
        job.set_needs_left(left);
    }
}

/// Finishes job `j`. Each job that needs it directly counts one less, unless `j` had finished before.
pub(super) fn settle_among(jobs: &mut Vec<Job>, graph: &Graph, j: usize, settled: JobResult)
    requires as_many { length jobs.old.items ≡ length graph.now }
    requires once { NamedOnce graph.now }
    requires left { NeedsAreLeft graph.now jobs.old.items }
    ensures states { states jobs.new.items ≡ changed_at j (finished_as settled) (states jobs.old.items) }
    ensures rooms { rooms jobs.new.items ≡ rooms jobs.old.items }
    ensures left { NeedsAreLeft graph.now jobs.new.items }
{
    if j < jobs.len() {
        let job = &mut jobs[j];
        let had_finished = job.is_finished();
        job.settle(settled);
        if !had_finished {
            lower_needs(jobs, graph.dependents(j));
        }
    }
}

/// How many of the jobs at these indices have not finished.
fn count_unfinished(jobs: &[Job], indexes: &[usize]) -> usize
    ensures { result ≡ unfinished (results_so_far (states jobs.now)) indexes.now }
{
    indexes
        .iter()
        .filter(|index| !is_finished_at(jobs, **index))
        .count()
}

/// Lowers the counts of the jobs at these indices by one.
fn lower_needs(jobs: &mut Vec<Job>, indexes: &[usize])
    ensures states { states jobs.new.items ≡ states jobs.old.items }
    ensures rooms { rooms jobs.new.items ≡ rooms jobs.old.items }
    ensures left { (j : ℕ) → needs_left_at jobs.new.items j ≡ needs_left_at jobs.old.items j - count_by (nat_eq j) indexes.now }
{
    for index in indexes {
        lower_needs_at(jobs, *index);
    }
}

/// Lowers the count of the job at this index by one, if there is one.
fn lower_needs_at(jobs: &mut Vec<Job>, index: usize)
    ensures states { states jobs.new.items ≡ states jobs.old.items }
    ensures rooms { rooms jobs.new.items ≡ rooms jobs.old.items }
    ensures there { needs_left_at jobs.new.items index ≡ needs_left_at jobs.old.items index - 1 }
    ensures elsewhere { (j : ℕ) → j ≢ index → needs_left_at jobs.new.items j ≡ needs_left_at jobs.old.items j }
{
    if index < jobs.len() {
        let job = &mut jobs[index];
        let left = job.needs_left();
        job.set_needs_left(left.saturating_sub(1));
    }
}
