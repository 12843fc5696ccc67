ghost use Rattle.std.specs.Prelude.{◌≡◌, filter_map};
ghost use Rattle.std.specs.List.{list_any};
ghost use Rattle.needs_graph.specs.Needs.{conclusion_of, fails_job, gathered, job_cancelled, job_failed, was_cancelled};

use crate::ended::{HasEnd, HasResult};
use wf_value::{JobResult, Outcome};

fn any_leg_fails_job<L: HasEnd>(legs: &[L]) -> bool
    ensures { result ≡ list_any fails_job (filter_map L.leg_end legs.now) }
{
    legs.iter()
        .filter_map(|leg| leg.leg_end())
        .any(|end| end.fails_job())
}

fn any_leg_was_cancelled<L: HasEnd>(legs: &[L]) -> bool
    ensures { result ≡ list_any was_cancelled (filter_map L.leg_end legs.now) }
{
    legs.iter()
        .filter_map(|leg| leg.leg_end())
        .any(|end| end.was_cancelled())
}

/// The result of a job from its legs that have ended: a failure if a leg failed without continue-on-error, else cancelled if a leg
/// was cancelled, else a success.
pub fn gather<L: HasEnd>(legs: &[L]) -> JobResult
    ensures { result ≡ gathered (filter_map L.leg_end legs.now) }
{
    if any_leg_fails_job(legs) {
        JobResult::Failure
    } else if any_leg_was_cancelled(legs) {
        JobResult::Cancelled
    } else {
        JobResult::Success
    }
}

fn any_job_failed<J: HasResult>(jobs: &[J]) -> bool
    ensures { result ≡ list_any job_failed (filter_map J.job_result jobs.now) }
{
    jobs.iter()
        .filter_map(|job| job.job_result())
        .any(|r| r == JobResult::Failure)
}

fn any_job_was_cancelled<J: HasResult>(jobs: &[J]) -> bool
    ensures { result ≡ list_any job_cancelled (filter_map J.job_result jobs.now) }
{
    jobs.iter()
        .filter_map(|job| job.job_result())
        .any(|r| r == JobResult::Cancelled)
}

/// The conclusion of a run from its jobs that have a result: a failure if a job failed, else cancelled if a job was cancelled, else
/// a success. A skipped job counts as a success.
pub fn conclude<J: HasResult>(jobs: &[J]) -> Outcome
    ensures { result ≡ conclusion_of (filter_map J.job_result jobs.now) }
{
    if any_job_failed(jobs) {
        Outcome::Failure
    } else if any_job_was_cancelled(jobs) {
        Outcome::Cancelled
    } else {
        Outcome::Success
    }
}
