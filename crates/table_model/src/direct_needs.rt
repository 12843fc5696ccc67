//! The results of the jobs of a run by index, and the results of a job's direct needs by id.

ghost use Rattle.std.specs.Prelude.{◌≡◌, None, find, option_and_then};
ghost use Rattle.std.specs.List.{slice_index_or};
ghost use Rattle.std.specs.Option.{option_copied};
ghost use Rattle.needs_graph.specs.Needs.{needs_at};
ghost use Rattle.run_plan.specs.PlanOf.{plan_of};
ghost use Rattle.table_model.specs.inner.Cells.{states};
ghost use Rattle.table_model.specs.Runs.{direct_needs, has_id, needs_in, results_so_far};
ghost use Rattle.table_model.specs.LegContext.{under};

use crate::job::Job;
use crate::run::Run;
use run_plan::PlannedJob;
use wf_expr::NeedResults;
use wf_value::JobResult;

/// The indices of the jobs that job `j` needs directly.
fn needs(run: &Run, j: usize) -> &[usize]
    ensures { result.now ≡ needs_at (needs_in run.now) j }
{
    let graph = run.prepared().plan().graph();
    if j < graph.job_count() {
        graph.needs(j)
    } else {
        &[]
    }
}

/// Whether the job at this index of the plan has the id.
#[tactic(auto, unfolding(crate::specs::Runs::has_id))]
fn has_id(plan: &[PlannedJob], index: usize, id: &str) -> bool
    ensures { result ≡ has_id plan.now id.now index }
{
    match plan.get(index) {
        Some(planned) => planned.id.as_str() == id,
        None => false,
    }
}

/// The first of these indices whose job has the id.
fn index_of_id<'p>(plan: &[PlannedJob], indexes: &'p [usize], id: &str) -> Option<&'p usize>
    ensures { option_copied result ≡ find (has_id plan.now id.now) indexes.now }
{
    indexes.iter().find(|index| has_id(plan, **index, id))
}

/// The result of the job at this index, once it has one.
fn result_at(jobs: &[Job], index: usize) -> Option<JobResult>
    ensures { result ≡ slice_index_or (results_so_far (states jobs.now)) index None }
{
    match jobs.get(index) {
        Some(job) => job.phase().result(),
        None => None,
    }
}

/// The index of the job with this id, if job `j` needs it directly.
pub fn index_of_need(run: &Run, j: usize, id: &str) -> Option<usize>
    ensures { result ≡ find (has_id (plan_of run.now.admitted.body) id.now) (needs_at (needs_in run.now) j) }
{
    index_of_id(run.prepared().plan().as_slice(), needs(run, j), id).copied()
}

/// The result so far of the job with this id, if job `j` needs it directly. Takes no memory.
pub fn result_of_need(run: &Run, j: usize, id: &str) -> Option<JobResult>
    ensures { result ≡ option_and_then (λ o. o) (under id.now (direct_needs run.now j)) }
{
    let plan = run.prepared().plan().as_slice();
    match index_of_id(plan, needs(run, j), id) {
        Some(index) => result_at(run.jobs(), *index),
        None => None,
    }
}

impl NeedResults for Run {
    ghost use Rattle.std.specs.Prelude.{None};
    ghost use Rattle.std.specs.List.{slice_index_or};
    ghost use Rattle.table_model.specs.Runs.{results_so_far};

    ghost result_of = { λ run j. slice_index_or (results_so_far run.jobs) j None };

    fn result_of(&self, need: usize) -> Option<JobResult> {
        result_at(self.jobs(), need)
    }
}
