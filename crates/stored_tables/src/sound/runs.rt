//! Tests the rules of each run: its attempt is one that a run may have, its jobs have come as far as its phase
//! requires, and each job keeps its own rules.

ghost use Rattle.std.specs.Bool.{Decides};
ghost use Rattle.std.specs.Prelude.{◌≡◌};
ghost use Rattle.std.specs.List.{list_all};
ghost use Rattle.stored_tables.specs.inner.OneByOne.{EachRunIsSound, RunIsSound};
ghost use Rattle.table_model.specs.Sound.{AttemptIsGiven, PhaseFits};
ghost use Rattle.table_model.specs.Runs.{is_blocked};

use crate::sound::jobs::are_jobs_sound;
use table_model::{Job, LAST_ATTEMPT, Run, RunPhase};
use table_runs::first_site::has_finished_jobs;
use table_runs::runs::Runs;

fn are_blocked(jobs: &[Job]) -> bool
    ensures { result ≡ list_all (λ job. is_blocked job.state.phase) jobs.now }
{
    jobs.iter().all(|job| job.phase().is_blocked())
}

fn has_blocked_jobs(run: &Run) -> bool
    ensures { result ≡ list_all (λ job. is_blocked job.phase) run.now.jobs }
{
    are_blocked(run.jobs())
}

/// Whether the run's attempt is one that a run may have. Its type excludes 0.
fn attempt_is_given(run: &Run) -> bool
    ensures { Decides result (AttemptIsGiven run.now) }
{
    run.attempt().get() <= LAST_ATTEMPT
}

/// Whether the run, if waiting, is not stopping and has only blocked jobs, and, if ended, has only finished jobs.
fn phase_fits(run: &Run) -> bool
    ensures { Decides result (PhaseFits run.now.phase run.now.stopping run.now.jobs) }
{
    match run.phase() {
        RunPhase::Waiting => !run.is_stopping() && has_blocked_jobs(run),
        RunPhase::Live => true,
        RunPhase::Ended => has_finished_jobs(run),
    }
}

fn is_run_sound(runs: &Runs, r: usize, run: &Run) -> bool
    ensures { Decides result (RunIsSound runs.now r run.now) }
{
    if !attempt_is_given(run) {
        return false;
    }
    if !phase_fits(run) {
        return false;
    }
    are_jobs_sound(runs, r, run.jobs())
}

pub(crate) fn are_runs_sound(runs: &Runs) -> bool
    ensures { Decides result (EachRunIsSound runs.now) }
{
    let all = runs.as_slice();
    for r in 0..all.len() {
        let run = &all[r];
        if !is_run_sound(runs, r, run) {
            return false;
        }
    }
    true
}
