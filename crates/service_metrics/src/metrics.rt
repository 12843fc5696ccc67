//! The whole text of the metrics.

ghost use Rattle.std.specs.Prelude.{◌≡◌, ◌++◌, IfOk, OnOk, string_bytes};
ghost use Rattle.service_metrics.specs.Metrics.{metrics_text, service_lines};

use crate::counters::Counters;
use crate::gauges::{Gauges, push_clients, push_file, push_program, push_silence, push_standing};
use run_table::Table;
use std::alloc::{AllocError, Global};
use table_views::push_table_metrics;
use wf_value::Refusal;

/// Appends the lines of the service.
fn push_service(
    alloc: Global,
    text: &mut String,
    gauges: &Gauges<'_>,
    counters: &Counters,
) -> Result<(), AllocError>
    ensures { OnOk result (string_bytes text.new ≡ string_bytes text.old ++ service_lines gauges.now counters.now) }
{
    push_program(alloc, text, gauges.version, gauges.uptime)?;
    push_clients(alloc, text, gauges.hooks, gauges.runners, gauges.views)?;
    push_silence(alloc, text, gauges.silence)?;
    push_standing(alloc, text, gauges.standing)?;
    counters.push(alloc, text)?;
    push_file(alloc, text, gauges)
}

/// The metrics of a service with this table.
/// Promise (Views of a service): The metrics are the definition's text, to the byte, of what the service has done, of how it stands and of its
///   table
/// By: `service_metrics::metrics_text` (`metrics_text`)
pub fn metrics_text(
    alloc: Global,
    gauges: &Gauges<'_>,
    counters: &Counters,
    table: &Table,
) -> Result<String, Refusal>
    ensures { IfOk result (λ text. string_bytes text ≡ metrics_text gauges.now counters.now table.now) }
{
    let mut text = String::new(alloc);
    push_service(alloc, &mut text, gauges, counters)?;
    push_table_metrics(alloc, &mut text, table)?;
    Ok(text)
}
