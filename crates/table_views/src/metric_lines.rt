//! The lines of Prometheus' text format.

ghost use Rattle.std.specs.Prelude.{◌≡◌, ◌+◌, ◌++◌, OnOk, string_bytes};
ghost use Rattle.table_views.specs.MetricLines.{capped, head, metric, value_line};

use std::alloc::{AllocError, Global};

/// One more of what is counted.
pub fn one_more(count: &mut u64)
    ensures { count.new ≡ capped (count.old + 1) }
{
    *count = count.saturating_add(1);
}

/// Appends the lines before a metric.
#[tactic(auto, unfolding(crate::specs::MetricLines::head))]
pub fn push_head(
    alloc: Global,
    text: &mut String,
    name: &str,
    kind: &str,
    help: &str,
) -> Result<(), AllocError>
    ensures { OnOk result (string_bytes text.new ≡ string_bytes text.old ++ head name.now kind.now help.now) }
{
    let lines = format!(in alloc; "# HELP {name} {help}\n# TYPE {name} {kind}\n")?;
    text.push_str(lines.as_str())
}

/// Appends the line of a value, with labels between braces, or without any.
#[tactic(auto, unfolding(crate::specs::MetricLines::value_line))]
pub fn push_value(
    alloc: Global,
    text: &mut String,
    name: &str,
    labels: &str,
    value: u64,
) -> Result<(), AllocError>
    ensures { OnOk result (string_bytes text.new ≡ string_bytes text.old ++ value_line name.now labels.now value) }
{
    let number = format!(in alloc; " {value}\n")?;
    text.push_str(name)?;
    text.push_str(labels)?;
    text.push_str(number.as_str())
}

/// Appends a metric of one value.
#[tactic(auto, unfolding(crate::specs::MetricLines::metric))]
pub fn push_metric(
    alloc: Global,
    text: &mut String,
    name: &str,
    kind: &str,
    help: &str,
    value: u64,
) -> Result<(), AllocError>
    ensures { OnOk result (string_bytes text.new ≡ string_bytes text.old ++ metric name.now kind.now help.now value) }
{
    push_head(alloc, text, name, kind, help)?;
    push_value(alloc, text, name, "", value)
}
