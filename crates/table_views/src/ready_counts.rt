//! How many ready legs ask for each list of labels.

ghost use Rattle.std.specs.Prelude.{◌≡◌, ◌++◌, ◌∷◌, ◌<◌, [], ℕ, IfOk, List, OnOk, flat_map, length, string_bytes};
ghost use Rattle.std.specs.List.{All};
ghost use Rattle.table_views.specs.NamedCounts.{AreCounts};
ghost use Rattle.table_views.specs.inner.Placed.{IsWithin};
ghost use Rattle.table_views.specs.ReadyPages.{legs_at};
ghost use Rattle.table_views.specs.TableMetrics.{asked, asked_at, ready_lines, ready_value};

use crate::metric_lines::{push_head, push_value};
use crate::named_counts::{NamedCount, NamedCounts};
use crate::queue::{is_ready_at, labels_json};
use crate::run_legs::legs_at;
use crate::texts::quoted;
use std::alloc::Global;
use table_model::LegSite;
use table_runs::runs::Runs;
use wf_value::Refusal;

// ---- counts

/// Counts what a leg asks for, if it is ready.
fn count_leg(
    alloc: Global,
    runs: &Runs,
    site: LegSite,
    counts: &mut NamedCounts,
) -> Result<(), Refusal>
    requires { IsWithin site }
    ensures { (lists : List (List ℕ)) → AreCounts lists counts.old → OnOk result (AreCounts (lists ++ asked_at runs.now (site ∷ [])) counts.new) }
{
    if !is_ready_at(runs, site) {
        return Ok(());
    }
    let labels = labels_json(alloc, runs, site)?;
    counts.add(labels)?;
    Ok(())
}

/// Counts what those legs at these sites ask for that are ready.
fn count_legs(
    alloc: Global,
    runs: &Runs,
    sites: &[LegSite],
    counts: &mut NamedCounts,
) -> Result<(), Refusal>
    requires { All IsWithin sites.now }
    ensures { (lists : List (List ℕ)) → AreCounts lists counts.old → OnOk result (AreCounts (lists ++ asked_at runs.now sites.now) counts.new) }
{
    for site in sites {
        count_leg(alloc, runs, *site, counts)?;
    }
    Ok(())
}

/// Counts what the ready legs of the run at an index ask for.
fn count_run(alloc: Global, runs: &Runs, r: usize, counts: &mut NamedCounts) -> Result<(), Refusal>
    requires { r < length runs.now }
    ensures { (lists : List (List ℕ)) → AreCounts lists counts.old → OnOk result (AreCounts (lists ++ asked_at runs.now (legs_at runs.now r)) counts.new) }
{
    let all = runs.as_slice();
    if !all[r].offers_legs() {
        return Ok(());
    }
    let sites = legs_at(alloc, runs, r)?;
    count_legs(alloc, runs, sites.as_slice(), counts)
}

fn ready_counts(alloc: Global, runs: &Runs) -> Result<NamedCounts, Refusal>
    ensures { IfOk result (AreCounts (asked runs.now)) }
{
    let mut counts = NamedCounts::none(alloc);
    for r in 0..runs.len() {
        count_run(alloc, runs, r, &mut counts)?;
    }
    Ok(counts)
}

// ---- their lines

fn push_ready_value(alloc: Global, text: &mut String, list: &str, count: u64) -> Result<(), Refusal>
    ensures { OnOk result (string_bytes text.new ≡ string_bytes text.old ++ ready_value list.now count) }
{
    let list = quoted(alloc, list)?;
    let labels = format!(in alloc; "{{labels={list}}}")?;
    push_value(alloc, text, "acts_ready_legs", labels.as_str(), count)?;
    Ok(())
}

fn push_named(alloc: Global, text: &mut String, counts: &[NamedCount]) -> Result<(), Refusal>
    ensures { OnOk result (string_bytes text.new ≡ string_bytes text.old ++ flat_map (λ n. ready_value n.name n.count) counts.now) }
{
    for named in counts {
        push_ready_value(alloc, text, named.name.as_str(), named.count)?;
    }
    Ok(())
}

/// Appends the lines of the ready legs.
pub(crate) fn push_ready(alloc: Global, text: &mut String, runs: &Runs) -> Result<(), Refusal>
    ensures { OnOk result (string_bytes text.new ≡ string_bytes text.old ++ ready_lines runs.now) }
{
    let counts = ready_counts(alloc, runs)?;
    push_head(
        alloc,
        text,
        "acts_ready_legs",
        "gauge",
        "Ready legs by the labels that they ask for.",
    )?;
    push_named(alloc, text, counts.named.as_slice())?;
    push_ready_value(alloc, text, "other", counts.other)
}
