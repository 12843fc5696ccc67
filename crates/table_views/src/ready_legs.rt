//! A page of the ready legs of a table, run by run.

ghost use Rattle.std.specs.Prelude.{◌≡◌, ◌++◌, ◌<◌, ◌^◌, IfOk, OnOk, length, map, string_bytes};
ghost use Rattle.std.specs.List.{All, filter};
ghost use Rattle.wf_value.specs.Gives.{ErrsOnlyByMemory};
ghost use Rattle.table_views.specs.inner.Placed.{IsWithin};
ghost use Rattle.table_views.specs.QueueLines.{is_ready_at, ready_row};
ghost use Rattle.table_views.specs.ReadyPages.{IsReadyPage, ready_rows};

use crate::members::number_or_null;
use crate::pages::{Source, page_of, page_text};
use crate::queue::{is_ready_at, ready_row};
use crate::run_legs::{legs_at, next_run, start_at};
use run_plan::Number;
use run_table::Table;
use std::alloc::Global;
use table_model::LegSite;
use table_runs::runs::Runs;
use wf_value::{Chars, Refusal};

/// The ready legs of a table, run by run.
#[derive(Drop)]
struct Ready<'a> {
    runs: &'a Runs,
}

/// Adds the rows of those legs at these sites that are ready.
fn push_ready(
    alloc: Global,
    runs: &Runs,
    sites: &[LegSite],
    rows: &mut Vec<Chars>,
) -> Result<(), Refusal>
    requires { All IsWithin sites.now }
    ensures err { ErrsOnlyByMemory result }
    ensures rows { OnOk result (rows.new.items ≡ rows.old.items ++ map (ready_row runs.now) (filter (is_ready_at runs.now) sites.now)) }
{
    for site in sites {
        if is_ready_at(runs, *site) {
            let row = ready_row(alloc, runs, *site)?;
            rows.push(Chars::new(row))?;
        }
    }
    Ok(())
}

impl Source for Ready<'_> {
    ghost size = { λ s. length s.runs.now };

    ghost rows = { λ s r. ready_rows s.runs.now r };

    ghost weigh = { λ s r. length (ready_rows s.runs.now r) };

    fn push_rows(
        &self,
        alloc: Global,
        index: usize,
        out: &mut Vec<Chars>,
    ) -> Result<usize, Refusal> {
        let before = out.len();
        let sites = legs_at(alloc, self.runs, index)?;
        push_ready(alloc, self.runs, sites.as_slice(), out)?;
        Ok(out.len() - before)
    }
}

/// A page of the ready legs of the runs with ids from `from` on.
pub fn ready_page(
    alloc: Global,
    table: &Table,
    from: Number,
    limit: usize,
) -> Result<String, Refusal>
    requires { limit < 2 ^ 32 }
    ensures err { ErrsOnlyByMemory result }
    ensures page { IfOk result (λ text. IsReadyPage from limit table.now (string_bytes text)) }
{
    let runs = table.kept_runs();
    let start = start_at(table, from);
    let left = runs.len() - start;
    let page = page_of(alloc, &Ready { runs }, start, left, limit)?;
    let next = number_or_null(alloc, next_run(table, start + page.count))?;
    page_text(
        alloc,
        "queue",
        page.rows.as_slice(),
        page.count,
        "from",
        next.as_str(),
    )
}
