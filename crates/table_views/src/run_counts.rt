//! How many runs have each status, and completed ones each conclusion.

ghost use Rattle.std.specs.Prelude.{◌≡◌, ◌++◌, ◌∷◌, [], List, OnOk, map, string_bytes};
ghost use Rattle.table_views.specs.RunCounting.{Words, lines_of_runs, run_counts, run_line, run_lines, words, words_of};

use crate::metric_lines::{one_more, push_head, push_value};
use needs_graph::conclude;
use run_table::status_word;
use std::alloc::{AllocError, Global};
use table_model::{Run, RunPhase};
use wf_value::Outcome;

/// The status of a run, and its conclusion once it has completed.
#[derive(Clone, Copy)]
pub(crate) enum RunStatus {
    Pending,
    Queued,
    InProgress,
    Completed(Outcome),
}

impl RunStatus {
    fn of(run: &Run) -> RunStatus
        ensures { words result ≡ words_of run.now }
    {
        match run.phase() {
            RunPhase::Waiting => RunStatus::Pending,
            RunPhase::Live if status_word(run.phase(), run.jobs()) == "queued" => RunStatus::Queued,
            RunPhase::Live => RunStatus::InProgress,
            RunPhase::Ended => RunStatus::Completed(conclude(run.jobs())),
        }
    }
}

/// How many runs have each status, and completed ones each conclusion.
#[derive(Clone, Copy)]
pub(crate) struct RunCounts {
    pub(crate) pending: u64,
    pub(crate) queued: u64,
    pub(crate) in_progress: u64,
    pub(crate) success: u64,
    pub(crate) failure: u64,
    pub(crate) cancelled: u64,
}

impl RunCounts {
    /// There is no run.
    fn none() -> RunCounts
        ensures { result ≡ run_counts [] }
    {
        RunCounts {
            pending: 0,
            queued: 0,
            in_progress: 0,
            success: 0,
            failure: 0,
            cancelled: 0,
        }
    }

    /// There is one more run.
    fn add(&mut self, status: RunStatus)
        ensures { (runs : List Words) → self.old ≡ run_counts runs → self.new ≡ run_counts (runs ++ words status ∷ []) }
    {
        match status {
            RunStatus::Pending => one_more(&mut self.pending),
            RunStatus::Queued => one_more(&mut self.queued),
            RunStatus::InProgress => one_more(&mut self.in_progress),
            RunStatus::Completed(Outcome::Success) => one_more(&mut self.success),
            RunStatus::Completed(Outcome::Failure) => one_more(&mut self.failure),
            RunStatus::Completed(Outcome::Cancelled) => one_more(&mut self.cancelled),
        }
    }

    fn of(runs: &[Run]) -> RunCounts
        ensures { result ≡ run_counts (map words_of runs.now) }
    {
        let mut counts = RunCounts::none();
        for run in runs {
            counts.add(RunStatus::of(run));
        }
        counts
    }
}

fn push_run_line(
    alloc: Global,
    text: &mut String,
    status: &str,
    conclusion: &str,
    count: u64,
) -> Result<(), AllocError>
    ensures { OnOk result (string_bytes text.new ≡ string_bytes text.old ++ run_line status.now conclusion.now count) }
{
    let labels = format!(in alloc; "{{status=\"{status}\",conclusion=\"{conclusion}\"}}")?;
    push_value(alloc, text, "acts_runs", labels.as_str(), count)
}

fn push_counts(alloc: Global, text: &mut String, counts: RunCounts) -> Result<(), AllocError>
    ensures { OnOk result (string_bytes text.new ≡ string_bytes text.old ++ lines_of_runs counts) }
{
    push_head(
        alloc,
        text,
        "acts_runs",
        "gauge",
        "Runs by status and conclusion.",
    )?;
    push_run_line(alloc, text, "pending", "", counts.pending)?;
    push_run_line(alloc, text, "queued", "", counts.queued)?;
    push_run_line(alloc, text, "in_progress", "", counts.in_progress)?;
    push_run_line(alloc, text, "completed", "success", counts.success)?;
    push_run_line(alloc, text, "completed", "failure", counts.failure)?;
    push_run_line(alloc, text, "completed", "cancelled", counts.cancelled)
}

/// Appends the lines of the runs.
pub(crate) fn push_runs(alloc: Global, text: &mut String, runs: &[Run]) -> Result<(), AllocError>
    ensures { OnOk result (string_bytes text.new ≡ string_bytes text.old ++ run_lines runs.now) }
{
    push_counts(alloc, text, RunCounts::of(runs))
}
