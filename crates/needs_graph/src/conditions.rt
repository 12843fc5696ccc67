ghost use Rattle.std.specs.Prelude.{◌≡◌, List, None, Option, map};
ghost use Rattle.std.specs.List.{list_all, list_any, slice_index_or};
ghost use Rattle.wf_value.specs.declared.outcome.JobResult.{JobResult};
ghost use Rattle.needs_graph.specs.Needs.{ancestor_test_value, condition_value, has_failed, has_succeeded};

use crate::ended::HasResult;
use wf_value::{Condition, JobResult};

/// Whether a job's condition holds, given the results of all its ancestors and whether the run is stopping. The condition `true` is
/// the same as `success()`. GitHub Docs, "Evaluate expressions in workflows and actions", Status check functions.
pub fn decide(condition: Condition, results: &[Option<JobResult>], stopping: bool) -> bool
    ensures { result ≡ condition_value condition results.now stopping }
{
    match ancestor_test_of(condition, stopping) {
        AncestorTest::Nothing(value) => value,
        AncestorTest::AllSucceeded => all_succeeded(results),
        AncestorTest::AnyFailed => any_failed(results),
    }
}

fn all_succeeded(results: &[Option<JobResult>]) -> bool
    ensures { result ≡ list_all has_succeeded results.now }
{
    results.iter().all(|r| has_succeeded(*r))
}

fn any_failed(results: &[Option<JobResult>]) -> bool
    ensures { result ≡ list_any has_failed results.now }
{
    results.iter().any(|r| has_failed(*r))
}

/// What a condition depends on among the results of a job's ancestors.
#[derive(Clone, Copy)]
pub(crate) enum AncestorTest {
    /// Nothing: the condition has this value for any results.
    Nothing(bool),
    AllSucceeded,
    AnyFailed,
}

/// What remains to be checked once it is known whether the run is stopping.
pub(crate) fn ancestor_test_of(condition: Condition, stopping: bool) -> AncestorTest
    ensures { (results : List (Option JobResult)) → ancestor_test_value result results ≡ condition_value condition results stopping }
{
    match condition {
        Condition::Success if !stopping => AncestorTest::AllSucceeded,
        Condition::Failure if !stopping => AncestorTest::AnyFailed,
        Condition::Success | Condition::Failure | Condition::Never => AncestorTest::Nothing(false),
        Condition::Always => AncestorTest::Nothing(true),
        Condition::Cancelled => AncestorTest::Nothing(stopping),
        Condition::NotCancelled => AncestorTest::Nothing(!stopping),
    }
}

pub(crate) fn has_succeeded(job: Option<JobResult>) -> bool
    ensures { result ≡ has_succeeded job }
{
    job == Some(JobResult::Success)
}

pub(crate) fn has_failed(job: Option<JobResult>) -> bool
    ensures { result ≡ has_failed job }
{
    job == Some(JobResult::Failure)
}

/// The result of the job at an index, if there is such a job and it has one.
pub(crate) fn result_at<J: HasResult>(jobs: &[J], index: usize) -> Option<JobResult>
    ensures { result ≡ slice_index_or (map J.job_result jobs.now) index None }
{
    jobs.get(index).and_then(|job| job.job_result())
}
