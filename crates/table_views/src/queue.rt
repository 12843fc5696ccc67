//! The lines of the queue: those of the ready legs, then those of the concurrency groups.

ghost use Rattle.std.specs.Prelude.{◌≡◌, ◌<◌, ◌^◌, Ok, false, map, string_bytes};
ghost use Rattle.std.specs.List.{All};
ghost use Rattle.wf_value.specs.Gives.{Gives};
ghost use Rattle.table_model.specs.Fitting.{is_ready};
ghost use Rattle.table_model.specs.Runs.{leg_sites};
ghost use Rattle.table_views.specs.inner.Placed.{IsWithin};
ghost use Rattle.table_views.specs.QueueLines.{is_ready_at, labels_json, queue_lines, ready_line, ready_lines, ready_row};
ghost use Rattle.table_views.specs.declared.form.Form.TheVariants as form;
ghost use Rattle.table_views.specs.Texts.{quoted};

use crate::form::Form;
use crate::groups::groups_text;
use crate::sites::leg_sites;
use crate::texts::{leg_members, leg_words, listed, quoted};
use run_table::Table;
use std::alloc::Global;
use table_model::{LegPhase, LegSite};
use table_runs::runs::Runs;
use wf_value::{Chars, Refusal};

fn is_ready(phase: LegPhase) -> bool
    ensures { result ≡ is_ready phase }
{
    match phase {
        LegPhase::Ready => true,
        LegPhase::New | LegPhase::Waiting => false,
        LegPhase::Running | LegPhase::Stopping | LegPhase::Ended(_) => false,
    }
}

pub(crate) fn is_ready_at(runs: &Runs, site: LegSite) -> bool
    ensures { result ≡ is_ready_at runs.now site }
{
    match runs.leg(site) {
        Some(leg) => is_ready(leg.phase),
        None => false,
    }
}

pub(crate) fn quoted_each(alloc: Global, texts: &[Chars]) -> Result<Vec<Chars>, Refusal>
    ensures { Gives (λ quoted. quoted.items) result (Ok (map quoted texts.now)) }
{
    let mut all = Vec::with_capacity(alloc, texts.len())?;
    for text in texts {
        let one = quoted(alloc, text.as_str())?;
        all.push(Chars::new(one))?;
    }
    Ok(all)
}

/// The labels that a leg requires.
pub(crate) fn labels_json(alloc: Global, runs: &Runs, site: LegSite) -> Result<String, Refusal>
    requires { site.leg < 2 ^ 63 }
    ensures { Gives string_bytes result (Ok (labels_json runs.now site)) }
{
    let labels = runs.label_texts(alloc, site)?;
    let texts = quoted_each(alloc, labels.as_slice())?;
    listed(alloc, texts.as_slice())
}

/// A ready leg as JSON.
pub(crate) fn ready_row(alloc: Global, runs: &Runs, site: LegSite) -> Result<String, Refusal>
    requires { IsWithin site }
    ensures { Gives string_bytes result (Ok (ready_row runs.now site)) }
{
    let labels = labels_json(alloc, runs, site)?;
    let leg = leg_members(alloc, runs, site)?;
    Ok(format!(in alloc; "{{{leg},\"labels\":{labels}}}")?)
}

fn ready_words(alloc: Global, runs: &Runs, site: LegSite) -> Result<String, Refusal>
    requires { IsWithin site }
    ensures { Gives string_bytes result (Ok (ready_line form.Lines runs.now site)) }
{
    let labels = labels_json(alloc, runs, site)?;
    let leg = leg_words(alloc, runs, site)?;
    Ok(format!(in alloc; "ready {leg} {labels}\n")?)
}

fn ready_line(alloc: Global, form: Form, runs: &Runs, site: LegSite) -> Result<String, Refusal>
    requires { IsWithin site }
    ensures { Gives string_bytes result (Ok (ready_line form runs.now site)) }
{
    match form {
        Form::Lines => ready_words(alloc, runs, site),
        Form::Json => {
            let mut text = ready_row(alloc, runs, site)?;
            text.push_str("\n")?;
            Ok(text)
        }
    }
}

/// A line for each ready leg. `sites` has the sites of all legs.
fn ready_text(alloc: Global, form: Form, runs: &Runs, sites: &[LegSite]) -> Result<String, Refusal>
    requires all { sites.now ≡ leg_sites runs.now }
    requires within { All IsWithin sites.now }
    ensures { Gives string_bytes result (Ok (ready_lines form runs.now)) }
{
    let mut text = String::new(alloc);
    for site in sites {
        if is_ready_at(runs, *site) {
            let line = ready_line(alloc, form, runs, *site)?;
            text.push_str(line.as_str())?;
        }
    }
    Ok(text)
}

/// The queue of a table.
pub fn queue_text(alloc: Global, form: Form, table: &Table) -> Result<Chars, Refusal>
    ensures { Gives (λ text. text) result (Ok (queue_lines form table.now)) }
{
    let runs = table.kept_runs();
    let sites = leg_sites(alloc, runs)?;
    let mut text = ready_text(alloc, form, runs, sites.as_slice())?;
    let groups = groups_text(alloc, form, runs, sites.as_slice())?;
    text.push_str(groups.as_str())?;
    Ok(Chars::new(text))
}
