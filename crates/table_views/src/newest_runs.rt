//! A page of the runs of a table, newest first.

ghost use Rattle.std.specs.Prelude.{◌≡◌, ◌<◌, ◌≤◌, ◌+◌, ◌++◌, ◌^◌, IfOk, OnOk, length, string_bytes};
ghost use Rattle.wf_value.specs.Gives.{ErrsOnlyByMemory};
ghost use Rattle.definitions.specs.Limits.{max_runs};
ghost use Rattle.table_views.specs.RunPages.{IsRunsPage, newest_rows, next_below, runs_below, shown_row};

use crate::members::number_or_null;
use crate::pages::{Source, page_of, page_text};
use crate::run_filter::RunFilter;
use crate::run_rows::run_row;
use run_plan::Number;
use run_table::Table;
use std::alloc::Global;
use wf_value::{Chars, Refusal};

/// The newest runs of a table, those at its first `top` places, from the last one down.
#[derive(Drop)]
struct Newest<'a> {
    table: &'a Table,
    filter: &'a RunFilter,
    top: usize,
    ghost within: { top ≤ length table.now.runs },
}

impl Source for Newest<'_> {
    ghost size = { λ s. s.top };

    ghost rows = { λ s index. newest_rows s.filter.now s.table.now s.top index };

    ghost weigh = { λ s index. length (newest_rows s.filter.now s.table.now s.top index) };

    fn push_rows(
        &self,
        alloc: Global,
        index: usize,
        out: &mut Vec<Chars>,
    ) -> Result<usize, Refusal> {
        push_shown(alloc, self.table, self.filter, self.top - index, out)
    }
}

/// The id of the run at a place, which counts from 1, among those that are not forgotten.
fn id_at(table: &Table, place: usize) -> Number
    requires least { 0 < place }
    requires most { place ≤ length table.now.runs }
    ensures { result ≡ table.now.forgotten.through + place }
{
    Number::new(table.through() + place as u32)
}

/// Adds the row of the run at a place, which counts from 1, if the list shows it. Returns how many rows that are.
fn push_shown(
    alloc: Global,
    table: &Table,
    filter: &RunFilter,
    place: usize,
    rows: &mut Vec<Chars>,
) -> Result<usize, Refusal>
    requires least { 0 < place }
    requires most { place ≤ length table.now.runs }
    ensures err { ErrsOnlyByMemory result }
    ensures rows { OnOk result (rows.new.items
        ≡ rows.old.items ++ shown_row filter.now table.now (table.now.forgotten.through + place)) }
    ensures count { IfOk result (λ n. n ≡ length (shown_row filter.now table.now (table.now.forgotten.through + place))) }
    ensures bound { IfOk result (λ n. n < 2 ^ 63) }
{
    let id = id_at(table, place);
    let Some(view) = table.look(id) else {
        return Ok(0);
    };
    if !filter.shows(alloc, table, &view)? {
        return Ok(0);
    }
    let row = run_row(alloc, table, &view)?;
    rows.push(Chars::new(row))?;
    Ok(1)
}

/// How many of the runs that are not forgotten are below an id, or all.
fn runs_below(table: &Table, before: Option<Number>) -> usize
    ensures below { result ≡ runs_below table.now before }
    ensures within { result ≤ length table.now.runs }
    ensures few { result ≤ max_runs }
{
    let count = table.kept_runs().len();
    match before {
        Some(before) => count.min(table.index_of(before)),
        None => count,
    }
}

/// The id below which the list goes on after `count` of `top` runs.
fn next_below(table: &Table, top: usize, count: usize) -> Option<u64>
    requires { top ≤ max_runs }
    ensures { result ≡ next_below table.now top count }
{
    if count < top {
        Some(u64::from(table.through()) + (top - count) as u64 + 1)
    } else {
        None
    }
}

/// A page of the runs that the filter lets through, with ids below `before`, newest first.
/// Promise (Views of a service): A page of runs, of ready legs, of holders of groups or of runners looks at the indices from where it begins, at
///   most at 10,000 and at none once its rows are as many as wanted
/// By: `table_views::{runs_page, ready_page, holder_page, runner_page}`, `page` (`IsPage`)
/// Promise (Views of a service): A page has the rows of these indices, and says where to go on exactly if indices are left. The whole text is
///   the definition's, to the byte
/// By: `table_views::{runs_page, ready_page, holder_page, runner_page}`, `page` (`IsRunsPage`, `IsReadyPage`, `IsHolderPage`, `IsRunnerPage`,
///   `IsPage`)
/// Refusal (The layers below): `table_views`: `runs_page`, `ready_page`, `holder_page`, `runner_page`, `run_view`; `store_copies`: `copy_of`
/// When: 50. `None` of `copy_of`: the table does not fit, or no store has areas of this length: T
/// Afterwards: nothing is made
/// By: `err` (`ErrsOnlyByMemory`)
pub fn runs_page(
    alloc: Global,
    table: &Table,
    filter: &RunFilter,
    before: Option<Number>,
    limit: usize,
) -> Result<String, Refusal>
    requires { limit < 2 ^ 32 }
    ensures err { ErrsOnlyByMemory result }
    ensures page { IfOk result (λ text. IsRunsPage filter.now before limit table.now (string_bytes text)) }
{
    let top = runs_below(table, before);
    let newest = Newest { table, filter, top };
    let page = page_of(alloc, &newest, 0, top, limit)?;
    let next = number_or_null(alloc, next_below(table, top, page.count))?;
    page_text(
        alloc,
        "runs",
        page.rows.as_slice(),
        page.count,
        "before",
        next.as_str(),
    )
}
