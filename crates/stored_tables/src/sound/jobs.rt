//! Tests the rules of each job: it has the legs that its phase requires, it has none before its needed jobs are
//! finished, and at most as many of them are at work as its plan allows.

ghost use Rattle.std.specs.Bool.{Decides};
ghost use Rattle.std.specs.Prelude.{◌≡◌};
ghost use Rattle.table_model.specs.inner.Cells.{states};
ghost use Rattle.stored_tables.specs.inner.OneByOne.{EachJobIsSound, IsWithinParallel, JobIsSound, NeedsAreFirst};
ghost use Rattle.table_model.specs.Settling.{result_at};
ghost use Rattle.table_model.specs.Sound.{LegsFit, MayLackLegs};
ghost use Rattle.table_model.specs.LegContext.{needs_have_finished, planned_legs};
ghost use Rattle.table_model.specs.declared.phases.JobPhase.TheVariants.{Finished};

use table_model::{Job, JobPhase};
use table_runs::runs::Runs;
use wf_value::JobResult;

/// Whether a job that never opened may finish with this result.
fn may_lack_legs(settled: JobResult) -> bool
    ensures { Decides result (MayLackLegs settled) }
{
    match settled {
        JobResult::Success | JobResult::Failure => false,
        JobResult::Cancelled | JobResult::Skipped => true,
    }
}

/// The number of legs that the run's plan has for the job.
pub(crate) fn planned_legs(runs: &Runs, r: usize, j: usize) -> usize
    ensures { result ≡ planned_legs runs.now r j }
{
    match runs.planned(r, j) {
        Some(planned) => planned.legs.as_slice().len(),
        None => 0,
    }
}

/// Whether a finished job either has no legs and may lack them, or has all of them, ended, with this result.
fn finished_legs_fit(runs: &Runs, r: usize, j: usize, job: &Job, settled: JobResult) -> bool
    ensures { Decides result (LegsFit (planned_legs runs.now r j) (result_at runs.now r j job.now.state) (Finished settled)
        job.now.state.legs) }
{
    let legs = job.legs();
    if legs.is_empty() && may_lack_legs(settled) {
        return true;
    }
    legs.len() == planned_legs(runs, r, j)
        && job.have_legs_ended()
        && settled == runs.result(r, j, legs)
}

/// Whether the job has the legs that its phase requires.
fn legs_fit(runs: &Runs, r: usize, j: usize, job: &Job) -> bool
    ensures { Decides result (LegsFit (planned_legs runs.now r j) (result_at runs.now r j job.now.state) job.now.state.phase
        job.now.state.legs) }
{
    match job.phase() {
        JobPhase::Blocked => job.legs().is_empty(),
        JobPhase::Open => job.legs().len() == planned_legs(runs, r, j),
        JobPhase::Finished(settled) => finished_legs_fit(runs, r, j, job, settled),
    }
}

fn needs_have_finished(runs: &Runs, r: usize, j: usize) -> bool
    ensures { result ≡ needs_have_finished runs.now r j }
{
    match runs.as_slice().get(r) {
        Some(run) => run.needs_have_finished(j),
        None => true,
    }
}

/// Whether the job has no legs, or its needed jobs are finished.
fn needs_are_first(runs: &Runs, r: usize, j: usize, job: &Job) -> bool
    ensures { Decides result (NeedsAreFirst runs.now r j job.now.state) }
{
    job.legs().is_empty() || needs_have_finished(runs, r, j)
}

/// Whether at most as many legs of the job are at work as its plan allows.
fn is_within_parallel(runs: &Runs, r: usize, j: usize, job: &Job) -> bool
    ensures { Decides result (IsWithinParallel runs.now r j job.now.state) }
{
    match runs.most_at_work(r, j) {
        Some(most) => job.legs_at_work() <= usize::from(most),
        None => true,
    }
}

fn is_job_sound(runs: &Runs, r: usize, j: usize, job: &Job) -> bool
    ensures { Decides result (JobIsSound runs.now r j job.now.state) }
{
    legs_fit(runs, r, j, job)
        && needs_are_first(runs, r, j, job)
        && is_within_parallel(runs, r, j, job)
}

pub(crate) fn are_jobs_sound(runs: &Runs, r: usize, jobs: &[Job]) -> bool
    ensures { Decides result (EachJobIsSound runs.now r (states jobs.now)) }
{
    for j in 0..jobs.len() {
        let job = &jobs[j];
        if !is_job_sound(runs, r, j, job) {
            return false;
        }
    }
    true
}
