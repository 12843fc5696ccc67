//! A page of the runs and legs that hold concurrency groups or wait for them, run by run.

ghost use Rattle.std.specs.Prelude.{◌≡◌, ◌&&◌, ◌++◌, ◌∷◌, ◌<◌, ◌^◌, [], IfOk, OnOk, Ok, filter_map, length, map, string_bytes};
ghost use Rattle.wf_value.specs.Gives.{ErrsOnlyByMemory, Gives};
ghost use Rattle.table_views.specs.HolderPages.{IsHolderPage, holder_members, holder_row, holder_rows, holding_word, is_group_shown, row_of_holder};
ghost use Rattle.table_model.specs.declared.holder.Holder.TheVariants as held;

use crate::group_filter::GroupFilter;
use crate::groups::group_in_use;
use crate::members::{number_or_null, push_text};
use crate::pages::{Source, page_of, page_text};
use crate::run_filter::is_wanted;
use crate::run_legs::{legs_at, next_run, start_at};
use crate::texts::{leg_members, quoted, run_id};
use group_name::GroupKey;
use run_plan::Number;
use run_table::Table;
use std::alloc::Global;
use table_model::{Holder, LegSite};
use table_runs::runs::Runs;
use wf_value::{Chars, Refusal};

impl GroupFilter {
    fn shows(&self, group: &GroupKey) -> bool
        ensures { result ≡ is_group_shown self.now group.now }
    {
        is_wanted(&self.repository, group.repository()) && is_wanted(&self.group, group.name())
    }
}

fn holder_members(alloc: Global, runs: &Runs, holder: &Holder) -> Result<String, Refusal>
    ensures { Gives string_bytes result (Ok (holder_members runs.now holder.now)) }
{
    match holder {
        Holder::Run(r) => {
            let run = run_id(runs, *r);
            Ok(format!(in alloc; "\"run\":{run},\"job\":null,\"leg\":null")?)
        }
        Holder::Leg(site) => leg_members(alloc, runs, *site),
    }
}

fn holding_word(runs: &Runs, holder: &Holder) -> &'static str
    ensures { result.now ≡ holding_word runs.now holder.now }
{
    if runs.holds(holder) {
        "in_progress"
    } else {
        "pending"
    }
}

fn holder_row(
    alloc: Global,
    runs: &Runs,
    holder: &Holder,
    group: &GroupKey,
) -> Result<String, Refusal>
    ensures { Gives string_bytes result (Ok (holder_row runs.now holder.now group.now)) }
{
    let repository = quoted(alloc, group.repository())?;
    let members = holder_members(alloc, runs, holder)?;
    let mut text = format!(in alloc; "{{\"repository\":{repository}")?;
    push_text(alloc, &mut text, "group", group.name())?;
    push_text(alloc, &mut text, "state", holding_word(runs, holder))?;
    text.push_str(",")?;
    text.push_str(members.as_str())?;
    text.push_str("}")?;
    Ok(text)
}

/// Adds the row of a holder, if it uses a group that the list shows.
fn push_holder(
    alloc: Global,
    runs: &Runs,
    filter: &GroupFilter,
    holder: &Holder,
    rows: &mut Vec<Chars>,
) -> Result<(), Refusal>
    ensures err { ErrsOnlyByMemory result }
    ensures rows { OnOk result (rows.new.items ≡ rows.old.items ++ filter_map (row_of_holder filter.now runs.now) (holder.now ∷ [])) }
{
    let Some(group) = group_in_use(alloc, runs, holder)? else {
        return Ok(());
    };
    if filter.shows(&group) {
        let row = holder_row(alloc, runs, holder, &group)?;
        rows.push(Chars::new(row))?;
    }
    Ok(())
}

fn push_legs(
    alloc: Global,
    runs: &Runs,
    filter: &GroupFilter,
    sites: &[LegSite],
    rows: &mut Vec<Chars>,
) -> Result<(), Refusal>
    ensures err { ErrsOnlyByMemory result }
    ensures rows { OnOk result (rows.new.items ≡ rows.old.items ++ filter_map (row_of_holder filter.now runs.now) (map held.Leg sites.now)) }
{
    for site in sites {
        push_holder(alloc, runs, filter, &Holder::Leg(*site), rows)?;
    }
    Ok(())
}

/// The holders of a table, run by run.
#[derive(Drop)]
struct Holders<'a> {
    runs: &'a Runs,
    filter: &'a GroupFilter,
}

impl Source for Holders<'_> {
    ghost size = { λ s. length s.runs.now };

    ghost rows = { λ s r. holder_rows s.filter.now s.runs.now r };

    ghost weigh = { λ s r. length (holder_rows s.filter.now s.runs.now r) };

    fn push_rows(
        &self,
        alloc: Global,
        index: usize,
        out: &mut Vec<Chars>,
    ) -> Result<usize, Refusal> {
        let before = out.len();
        push_holder(alloc, self.runs, self.filter, &Holder::Run(index), out)?;
        let sites = legs_at(alloc, self.runs, index)?;
        push_legs(alloc, self.runs, self.filter, sites.as_slice(), out)?;
        Ok(out.len() - before)
    }
}

/// A page of the runs and legs that hold or wait for a group that the filter lets through, of the runs with ids from `from` on.
pub fn holder_page(
    alloc: Global,
    table: &Table,
    filter: &GroupFilter,
    from: Number,
    limit: usize,
) -> Result<String, Refusal>
    requires { limit < 2 ^ 32 }
    ensures err { ErrsOnlyByMemory result }
    ensures page { IfOk result (λ text. IsHolderPage filter.now from limit table.now (string_bytes text)) }
{
    let runs = table.kept_runs();
    let start = start_at(table, from);
    let left = runs.len() - start;
    let page = page_of(alloc, &Holders { runs, filter }, start, left, limit)?;
    let next = number_or_null(alloc, next_run(table, start + page.count))?;
    page_text(
        alloc,
        "groups",
        page.rows.as_slice(),
        page.count,
        "from",
        next.as_str(),
    )
}
