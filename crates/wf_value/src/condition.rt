/// When a job runs, as a function of the results of its ancestors and the run's stop flag.
/// GitHub Docs, "Workflow syntax for GitHub Actions", `jobs.<job_id>.if`, and "Evaluate expressions in workflows and actions",
/// Status check functions.
#[derive(Clone, Copy, PartialEq, Eq)]
pub enum Condition {
    /// `success()` or `true`. A job without `if` has this condition.
    Success,
    /// `failure()`.
    Failure,
    /// `always()`.
    Always,
    /// `cancelled()`.
    Cancelled,
    /// `!cancelled()`.
    NotCancelled,
    /// `false`.
    Never,
}
