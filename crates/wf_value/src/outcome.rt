ghost use Rattle.std.specs.Prelude.{◌≡◌};

/// How a leg ended, as its runner reports it.
#[derive(Clone, Copy, PartialEq, Eq)]
pub enum Outcome {
    Success,
    Failure,
    Cancelled,
}

impl Outcome {
    ghost use Rattle.wf_value.specs.ScalarValue.{outcome_word};

    /// The printed word.
    pub fn word(self) -> &'static str
        ensures { result.now ≡ outcome_word self }
    {
        match self {
            Outcome::Success => "success",
            Outcome::Failure => "failure",
            Outcome::Cancelled => "cancelled",
        }
    }
}

/// The result of a job. GitHub Docs, "Contexts", `needs.<job_id>.result`.
#[derive(Clone, Copy, PartialEq, Eq)]
pub enum JobResult {
    Success,
    Failure,
    Cancelled,
    Skipped,
}

impl JobResult {
    ghost use Rattle.wf_value.specs.ScalarValue.{result_word};

    /// The printed word, which is also the value of `needs.<job_id>.result`.
    pub fn word(self) -> &'static str
        ensures { result.now ≡ result_word self }
    {
        match self {
            JobResult::Success => "success",
            JobResult::Failure => "failure",
            JobResult::Cancelled => "cancelled",
            JobResult::Skipped => "skipped",
        }
    }
}
