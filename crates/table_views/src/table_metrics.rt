//! The numbers of a table, in Prometheus' text format.

ghost use Rattle.std.specs.Prelude.{◌≡◌, ◌++◌, OnOk, find, option_map, string_bytes};
ghost use Rattle.table_views.specs.TableMetrics.{first_open_run, forgotten_lines, is_open, leases_of, open_lines, runner_lines, table_metrics, through_lines};

use crate::leg_counts::push_legs;
use crate::metric_lines::{one_more, push_metric};
use crate::ready_counts::push_ready;
use crate::run_counts::push_runs;
use run_table::{Runner, Table};
use std::alloc::{AllocError, Global};
use table_model::{Run, RunPhase};
use wf_value::Refusal;

fn leases_of(runners: &[Runner]) -> u64
    ensures { result ≡ leases_of runners.now }
{
    let mut count: u64 = 0;
    for runner in runners {
        if runner.holds.is_some() {
            one_more(&mut count);
        }
    }
    count
}

fn push_runners(alloc: Global, text: &mut String, runners: &[Runner]) -> Result<(), AllocError>
    ensures { OnOk result (string_bytes text.new ≡ string_bytes text.old ++ runner_lines runners.now) }
{
    push_metric(
        alloc,
        text,
        "acts_runners",
        "gauge",
        "Runners that have claimed and were not discharged.",
        runners.len() as u64,
    )?;
    push_metric(
        alloc,
        text,
        "acts_leases",
        "gauge",
        "Runners that hold a lease.",
        leases_of(runners),
    )
}

/// Whether a run has not completed.
fn is_open(run: &Run) -> bool
    ensures { result ≡ is_open run.now }
{
    !matches!(run.phase(), RunPhase::Ended)
}

fn first_open(runs: &[Run]) -> Option<&Run>
    ensures { option_map (λ run. run.now) result ≡ find is_open runs.now }
{
    runs.iter().find(|run| is_open(run))
}

/// The id of the first run that has not completed; 0 if all have.
fn first_open_run(runs: &[Run]) -> u64
    ensures { result ≡ first_open_run runs.now }
{
    match first_open(runs) {
        Some(run) => u64::from(run.id().get()),
        None => 0,
    }
}

fn push_through(alloc: Global, text: &mut String, through: u32) -> Result<(), AllocError>
    ensures { OnOk result (string_bytes text.new ≡ string_bytes text.old ++ through_lines through) }
{
    push_metric(
        alloc,
        text,
        "acts_forgotten_runs",
        "gauge",
        "Runs that are forgotten: those with ids up to this one.",
        u64::from(through),
    )
}

fn push_open(alloc: Global, text: &mut String, run: u64) -> Result<(), AllocError>
    ensures { OnOk result (string_bytes text.new ≡ string_bytes text.old ++ open_lines run) }
{
    push_metric(
        alloc,
        text,
        "acts_first_open_run",
        "gauge",
        "The first run that has not completed, which keeps later ones from being forgotten; 0 if all have.",
        run,
    )
}

fn push_forgotten(
    alloc: Global,
    text: &mut String,
    through: u32,
    runs: &[Run],
) -> Result<(), AllocError>
    ensures { OnOk result (string_bytes text.new ≡ string_bytes text.old ++ forgotten_lines through runs.now) }
{
    push_through(alloc, text, through)?;
    push_open(alloc, text, first_open_run(runs))
}

/// Appends the metrics of a table.
/// Promise (Views of a service): Each run is counted at its status and conclusion, each leg at its state
/// By: `table_views::push_table_metrics` (`table_metrics`, `run_counts`, `leg_counts`)
/// Promise (Views of a service): Each ready leg is counted at the list of labels that it asks for, of which the first 50 that come have a line
///   each and all others one together
/// By: `table_views::push_table_metrics` (`named`, `times`, `others`)
/// Promise (Views of a service): The metrics say through which id runs are forgotten, and which run is the first that has not completed
/// By: `table_views::push_table_metrics` (`forgotten_lines`)
pub fn push_table_metrics(alloc: Global, text: &mut String, table: &Table) -> Result<(), Refusal>
    ensures { OnOk result (string_bytes text.new ≡ string_bytes text.old ++ table_metrics table.now) }
{
    let runs = table.kept_runs();
    push_runs(alloc, text, runs.as_slice())?;
    push_legs(alloc, text, runs.as_slice())?;
    push_ready(alloc, text, runs)?;
    push_runners(alloc, text, table.runners())?;
    push_forgotten(alloc, text, table.through(), table.runs())?;
    Ok(())
}
