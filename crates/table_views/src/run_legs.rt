//! The legs of one run of a table.

ghost use Rattle.std.specs.Prelude.{◌≡◌, ◌<◌, ◌≤◌, IfOk, length};
ghost use Rattle.std.specs.List.{All};
ghost use Rattle.table_views.specs.inner.Placed.{IsWithin};
ghost use Rattle.table_views.specs.ReadyPages.{legs_at, next_run, start_at};

use crate::sites::push_legs_of_run;
use run_plan::Number;
use run_table::Table;
use std::alloc::{AllocError, Global};
use table_model::LegSite;
use table_runs::runs::Runs;

/// The sites of the legs of the run at an index.
pub(crate) fn legs_at(alloc: Global, runs: &Runs, r: usize) -> Result<Vec<LegSite>, AllocError>
    requires { r < length runs.now }
    ensures sites { IfOk result (λ sites. sites.items ≡ legs_at runs.now r) }
    ensures within { IfOk result (λ sites. All IsWithin sites.items) }
{
    let mut sites = Vec::new(alloc);
    let run = &runs.as_slice()[r];
    push_legs_of_run(&mut sites, r, run)?;
    Ok(sites)
}

/// The index of the run with an id, of the first run that is not forgotten, or the end of the runs.
pub(crate) fn start_at(table: &Table, from: Number) -> usize
    ensures start { result ≡ start_at table.now from }
    ensures within { result ≤ length table.now.runs }
{
    table.runs().len().min(table.index_of(from))
}

/// The id of the run at an index, if there is one.
pub(crate) fn next_run(table: &Table, index: usize) -> Option<u64>
    ensures { result ≡ next_run table.now index }
{
    if index < table.runs().len() {
        Some(u64::from(table.through()) + index as u64 + 1)
    } else {
        None
    }
}
