//! Where settling finds the first rule that applies in a run. `tries` counts how often a rule is tried at a site; no other contract mentions it.

ghost use Rattle.std.specs.Prelude.{◌≡◌, ◌+◌, ◌<◌, ◌^◌, Some, option_map};
ghost use Rattle.std.specs.List.{list_all};
ghost use Rattle.table_model.specs.inner.Cells.{states};
ghost use Rattle.table_model.specs.inner.Resuming.{JobsRestBefore, NoneBefore, apply_at};
ghost use Rattle.table_model.specs.Runs.{job_at, leg_at, run_at, RunState, is_finished};
ghost use Rattle.table_model.specs.inner.WithinRun.{first_in_job, first_in_jobs, first_in_run, first_of_legs, first_of_open, first_of_whole};
ghost use Rattle.table_model.specs.inner.WithinRun.{goes_on};

use crate::runs::Runs;
use crate::walk::Legs;
use table_model::{Holder, Job, Leg, LegPhase, LegSite, RuleSite, Run, RunPhase};

fn count(tries: &mut u64)
    ensures { tries.old + 1 < 2 ^ 64 → tries.new ≡ tries.old + 1 }
{
    *tries = tries.saturating_add(1);
}

/// Whether a rule applies to the leg there.
fn goes_on(runs: &Runs, site: LegSite, leg: &Leg) -> bool
    requires { leg_at runs.now site ≡ Some leg.now }
    ensures { result ≡ goes_on runs.now site leg.now }
{
    match leg.phase {
        LegPhase::New => true,
        LegPhase::Waiting => runs.may_start(&Holder::Leg(site)),
        LegPhase::Ready | LegPhase::Running | LegPhase::Stopping | LegPhase::Ended(_) => false,
    }
}

fn first_of_legs(runs: &Runs, r: usize, j: usize, legs: &[Leg], tries: &mut u64) -> Option<RuleSite>
    requires { option_map (λ job. job.legs) (job_at runs.now r j) ≡ Some legs.now }
    ensures { result ≡ first_of_legs runs.now r j legs.now }
{
    for (site, leg) in Legs::of_job(r, j, legs) {
        count(tries);
        if goes_on(runs, site, leg) {
            return Some(RuleSite::AtLeg(site));
        }
    }
    None
}

/// The first leg of the job to which a rule applies. It is new or waits.
fn first_leg(runs: &Runs, r: usize, j: usize, job: &Job, tries: &mut u64) -> Option<RuleSite>
    requires { job_at runs.now r j ≡ Some job.now.state }
    ensures { result ≡ first_of_legs runs.now r j job.now.state.legs }
{
    if job.has_unready_leg() {
        first_of_legs(runs, r, j, job.legs(), tries)
    } else {
        None
    }
}

/// In a job that does not open: its first leg to which a rule applies, or else where it finishes.
fn first_of_open(runs: &Runs, r: usize, j: usize, job: &Job, tries: &mut u64) -> Option<RuleSite>
    requires { job_at runs.now r j ≡ Some job.now.state }
    ensures { result ≡ first_of_open runs.now r j job.now.state }
{
    let site = first_leg(runs, r, j, job, tries);
    if site.is_some() {
        return site;
    }
    count(tries);
    if job.is_done() {
        Some(RuleSite::Closing(r, j))
    } else {
        None
    }
}

/// The first site in a job where a rule applies: where it opens, if it is blocked and all its needs have finished, or else one of its
/// legs, or where it finishes.
fn first_in_job(
    runs: &Runs,
    r: usize,
    run: &Run,
    j: usize,
    job: &Job,
    tries: &mut u64,
) -> Option<RuleSite>
    requires { job_at runs.now r j ≡ Some job.now.state }
    ensures { result ≡ first_in_job runs.now r run.now j job.now.state }
{
    count(tries);
    if job.phase().is_blocked() && run.needs_have_finished(j) {
        return Some(RuleSite::Opening(r, j));
    }
    first_of_open(runs, r, j, job, tries)
}

/// The first site in the jobs of a run where a rule applies. None applies before the job at index `from`.
fn first_in_jobs(
    runs: &Runs,
    r: usize,
    run: &Run,
    jobs: &[Job],
    from: usize,
    tries: &mut u64,
) -> Option<RuleSite>
    requires there { run_at runs.now r ≡ Some run.now }
    requires jobs { states jobs.now ≡ run.now.jobs }
    requires rest { NoneBefore (first_in_job runs.now r run.now) (states jobs.now) from }
    ensures { result ≡ first_in_jobs runs.now r run.now (states jobs.now) }
{
    for j in from..jobs.len() {
        let job = &jobs[j];
        let site = first_in_job(runs, r, run, j, job, tries);
        if site.is_some() {
            return site;
        }
    }
    None
}

fn are_finished(jobs: &[Job]) -> bool
    ensures { result ≡ list_all (λ job. is_finished job.state) jobs.now }
{
    jobs.iter().all(|job| job.is_finished())
}

pub fn has_finished_jobs(run: &Run) -> bool
    ensures { result ≡ list_all is_finished run.now.jobs }
{
    are_finished(run.jobs())
}

/// The run itself as a site, if a rule applies to it: it waits and may start, or it is live and all its jobs have finished.
fn first_of_whole(runs: &Runs, r: usize, run: &Run, tries: &mut u64) -> Option<RuleSite>
    requires { run_at runs.now r ≡ Some run.now }
    ensures { result ≡ first_of_whole runs.now r run.now }
{
    count(tries);
    match run.phase() {
        RunPhase::Waiting if runs.may_start(&Holder::Run(r)) => Some(RuleSite::Whole(r)),
        RunPhase::Live if has_finished_jobs(run) => Some(RuleSite::Whole(r)),
        RunPhase::Waiting | RunPhase::Live | RunPhase::Ended => None,
    }
}

/// The first site in a run where a rule applies. None applies before the job at index `from`.
fn first_in_run(runs: &Runs, r: usize, run: &Run, from: usize, tries: &mut u64) -> Option<RuleSite>
    requires there { run_at runs.now r ≡ Some run.now }
    requires rest { JobsRestBefore runs.now r run.now from }
    ensures { result ≡ first_in_run runs.now r run.now }
{
    if run.phase().is_live() {
        let site = first_in_jobs(runs, r, run, run.jobs(), from, tries);
        if site.is_some() {
            return site;
        }
    }
    first_of_whole(runs, r, run, tries)
}

/// The first site in run `r` where a rule applies, if there is such a run. None applies before the job at index `from`.
pub(crate) fn first_in_run_at(
    runs: &Runs,
    r: usize,
    from: usize,
    tries: &mut u64,
) -> Option<RuleSite>
    requires { (run : RunState) → run_at runs.now r ≡ Some run → JobsRestBefore runs.now r run from }
    ensures { result ≡ apply_at (first_in_run runs.now) runs.now r }
{
    let run = runs.as_slice().get(r)?;
    first_in_run(runs, r, run, from, tries)
}
