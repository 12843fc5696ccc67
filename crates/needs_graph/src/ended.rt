//! Traits for the jobs and legs of a run, which tell how they ended.

ghost use Rattle.std.specs.Prelude.{◌≡◌, Option};
ghost use Rattle.wf_value.specs.declared.outcome.JobResult.{JobResult};

use wf_value::{JobResult, Outcome};

/// How a leg of a job ended.
#[derive(Clone, Copy)]
pub struct LegEnd {
    pub outcome: Outcome,
    /// Whether a failure of the leg is ignored. GitHub Docs, "Workflow syntax for GitHub Actions",
    /// `jobs.<job_id>.continue-on-error`.
    pub continue_on_error: bool,
}

impl LegEnd {
    ghost use Rattle.needs_graph.specs.Needs.{fails_job, was_cancelled};

    pub(crate) fn fails_job(self) -> bool
        ensures { result ≡ fails_job self }
    {
        self.outcome == Outcome::Failure && !self.continue_on_error
    }

    pub(crate) fn was_cancelled(self) -> bool
        ensures { result ≡ was_cancelled self }
    {
        self.outcome == Outcome::Cancelled
    }
}

/// A leg of a job.
pub trait HasEnd {
    ghost use Rattle.needs_graph.specs.declared.ended.LegEnd.{LegEnd};

    ghost leg_end: { Self → Option LegEnd };

    /// How the leg ended, or `None` if it has not ended.
    fn leg_end(&self) -> Option<LegEnd>
        ensures { result ≡ leg_end self.now };
}

/// A job of a run.
pub trait HasResult {
    ghost job_result: { Self → Option JobResult };

    /// The job's result, or `None` if it has none yet.
    fn job_result(&self) -> Option<JobResult>
        ensures { result ≡ job_result self.now };
}
