//! A run as a row of a list.

ghost use Rattle.std.specs.Prelude.{◌≡◌, ◌++◌, IfOk, Ok, option_map, string_bytes};
ghost use Rattle.wf_value.specs.Gives.{Gives};
ghost use Rattle.group_name.specs.KeyTexts.{name_bytes};
ghost use Rattle.table_model.specs.Groups.{group_at};
ghost use Rattle.table_model.specs.declared.holder.Holder.TheVariants.{Run as OfRun};
ghost use Rattle.table_model.specs.inner.Cells.{states};
ghost use Rattle.table_views.specs.RunRows.{commit_title, conclusion_at, event_members, first_line, github_member, github_text, head_members, number_members, origin_members, own_group, pull_title, ref_of, run_members, run_row, sent_text, state_members, title_of};

use crate::members::{push_number, push_text, push_text_or_null};
use run_plan::{Number, Prepared};
use run_table::{RunView, Table, conclusion_word, status_word};
use std::alloc::{AllocError, Global};
use table_model::{Holder, Job, Run, RunPhase};
use table_runs::runs::Runs;
use wf_expr::{Context, ScalarView};
use wf_value::{Chars, Refusal};

// ---- what a row shows

/// The text at a path of the contexts that the sender supplied, if there is one.
fn sent_text<'e>(event: &'e Prepared, path: &[Chars]) -> Option<&'e str>
    ensures { option_map (λ text. text.now) result ≡ sent_text path.now event.now }
{
    match event.contexts().value_of(path) {
        Some(ScalarView::Text(text)) => Some(text),
        _ => None,
    }
}

/// A copy of a text that may be missing.
fn copied(alloc: Global, text: Option<&str>) -> Result<Option<Chars>, Refusal>
    ensures { Gives (λ copy. copy) result (Ok (option_map (λ t. t.now) text.entry)) }
{
    match text {
        Some(text) => Ok(Some(Chars::from_str(alloc, text)?)),
        None => Ok(None),
    }
}

/// A member of `github`, if it is a text.
fn github_text(alloc: Global, event: &Prepared, name: &str) -> Result<Option<Chars>, Refusal>
    ensures { Gives (λ text. text) result (Ok (github_text name.now event.now)) }
{
    let path = [
        Chars::from_str(alloc, "github")?,
        Chars::from_str(alloc, name)?,
    ];
    copied(alloc, sent_text(event, path.as_slice()))
}

/// `github.ref` of an event, if it is a text.
pub(crate) fn ref_of(alloc: Global, event: &Prepared) -> Result<Option<Chars>, Refusal>
    ensures { Gives (λ text. text) result (Ok (ref_of event.now)) }
{
    github_text(alloc, event, "ref")
}

/// The text before the first line feed, or all.
fn first_line(text: &str) -> &str
    ensures { result.now ≡ first_line text.now }
{
    match text.split_once('\n') {
        Some((line, _)) => line,
        None => text,
    }
}

/// The title of the pull request, where the sender put it there.
fn pull_title(alloc: Global, event: &Prepared) -> Result<Option<Chars>, Refusal>
    ensures { Gives (λ text. text) result (Ok (pull_title event.now)) }
{
    let path = [
        Chars::from_str(alloc, "github")?,
        Chars::from_str(alloc, "event")?,
        Chars::from_str(alloc, "pull_request")?,
        Chars::from_str(alloc, "title")?,
    ];
    copied(alloc, sent_text(event, path.as_slice()))
}

/// The first line of the head commit's message, where the sender put it there.
fn commit_title(alloc: Global, event: &Prepared) -> Result<Option<Chars>, Refusal>
    ensures { Gives (λ text. text) result (Ok (commit_title event.now)) }
{
    let path = [
        Chars::from_str(alloc, "github")?,
        Chars::from_str(alloc, "event")?,
        Chars::from_str(alloc, "head_commit")?,
        Chars::from_str(alloc, "message")?,
    ];
    match sent_text(event, path.as_slice()) {
        Some(message) => Ok(Some(Chars::from_str(alloc, first_line(message))?)),
        None => Ok(None),
    }
}

/// The title of the pull request, or else of the head commit.
fn title_of(alloc: Global, event: &Prepared) -> Result<Option<Chars>, Refusal>
    ensures { Gives (λ text. text) result (Ok (title_of event.now)) }
{
    match pull_title(alloc, event)? {
        Some(title) => Ok(Some(title)),
        None => commit_title(alloc, event),
    }
}

/// The conclusion of a completed run.
pub(crate) fn conclusion_at(phase: RunPhase, jobs: &[Job]) -> Option<&'static str>
    ensures { option_map (λ word. word.now) result ≡ conclusion_at phase (states jobs.now) }
{
    match phase {
        RunPhase::Waiting | RunPhase::Live => None,
        RunPhase::Ended => Some(conclusion_word(phase, jobs)),
    }
}

/// The case-folded name of the group that the run with an id asks for.
pub(crate) fn own_group(alloc: Global, table: &Table, id: Number) -> Result<Option<Chars>, Refusal>
    ensures { Gives (λ name. name) result (Ok (own_group table.now id)) }
{
    group_of_run(alloc, table.kept_runs(), table.index_of(id))
}

/// The case-folded name of the group that the run at an index asks for.
fn group_of_run(alloc: Global, runs: &Runs, index: usize) -> Result<Option<Chars>, Refusal>
    ensures { Gives (λ name. name) result (Ok (option_map name_bytes (group_at runs.now (OfRun index)))) }
{
    match runs.group(alloc, &Holder::Run(index))? {
        Some(group) => Ok(Some(Chars::from_str(alloc, group.name())?)),
        None => Ok(None),
    }
}

/// A text that may be missing, borrowed.
pub(crate) fn as_text(text: &Option<Chars>) -> Option<&str>
    ensures { option_map (λ t. t.now) result ≡ text.now }
{
    match text {
        Some(text) => Some(text.as_str()),
        None => None,
    }
}

// ---- its members

fn number_members(alloc: Global, view: &RunView<'_>) -> Result<String, AllocError>
    ensures { IfOk result (λ s. string_bytes s ≡ number_members view.now) }
{
    let id = view.id().get();
    let mut text = format!(in alloc; "\"run\":{id}")?;
    push_number(&mut text, "number", u64::from(view.number().get()))?;
    push_number(&mut text, "attempt", u64::from(view.run().attempt().get()))?;
    Ok(text)
}

fn push_origin(alloc: Global, text: &mut String, event: &Prepared) -> Result<(), Refusal>
    ensures { Gives (λ _. string_bytes text.new) result (Ok (string_bytes text.old ++ origin_members event.now)) }
{
    push_text(alloc, text, "repository", event.repo().as_str())?;
    push_text(alloc, text, "path", event.path().as_str())?;
    push_text(alloc, text, "workflow", event.workflow_name().as_str())?;
    Ok(())
}

fn push_event(alloc: Global, text: &mut String, event: &Prepared) -> Result<(), Refusal>
    ensures { Gives (λ _. string_bytes text.new) result (Ok (string_bytes text.old ++ event_members event.now)) }
{
    let reference = ref_of(alloc, event)?;
    push_text(alloc, text, "event", event.event().as_str())?;
    push_text(alloc, text, "delivery", event.delivery().as_str())?;
    push_text_or_null(alloc, text, "ref", as_text(&reference))?;
    Ok(())
}

/// Appends a member of `github` under its name.
fn push_github(
    alloc: Global,
    text: &mut String,
    event: &Prepared,
    name: &str,
) -> Result<(), Refusal>
    ensures { Gives (λ _. string_bytes text.new) result (Ok (string_bytes text.old ++ github_member name.now event.now)) }
{
    let value = github_text(alloc, event, name)?;
    push_text_or_null(alloc, text, name, as_text(&value))?;
    Ok(())
}

/// Appends what the run is of, and who began it.
fn push_head(alloc: Global, text: &mut String, event: &Prepared) -> Result<(), Refusal>
    ensures { Gives (λ _. string_bytes text.new) result (Ok (string_bytes text.old ++ head_members event.now)) }
{
    let title = title_of(alloc, event)?;
    push_github(alloc, text, event, "sha")?;
    push_github(alloc, text, event, "ref_name")?;
    push_github(alloc, text, event, "head_ref")?;
    push_github(alloc, text, event, "actor")?;
    push_text_or_null(alloc, text, "title", as_text(&title))?;
    Ok(())
}

pub(crate) fn push_state(alloc: Global, text: &mut String, run: &Run) -> Result<(), Refusal>
    ensures { Gives (λ _. string_bytes text.new) result (Ok (string_bytes text.old ++ state_members run.now)) }
{
    let status = status_word(run.phase(), run.jobs());
    push_text(alloc, text, "status", status)?;
    let conclusion = conclusion_at(run.phase(), run.jobs());
    push_text_or_null(alloc, text, "conclusion", conclusion)?;
    Ok(())
}

/// The members of a run in a list.
pub(crate) fn run_members(
    alloc: Global,
    table: &Table,
    view: &RunView<'_>,
) -> Result<String, Refusal>
    ensures { Gives string_bytes result (Ok (run_members table.now view.now)) }
{
    let group = own_group(alloc, table, view.id())?;
    let mut text = number_members(alloc, view)?;
    push_origin(alloc, &mut text, view.run().prepared())?;
    push_event(alloc, &mut text, view.run().prepared())?;
    push_head(alloc, &mut text, view.run().prepared())?;
    push_state(alloc, &mut text, view.run())?;
    push_text_or_null(alloc, &mut text, "group", as_text(&group))?;
    Ok(text)
}

pub(crate) fn run_row(alloc: Global, table: &Table, view: &RunView<'_>) -> Result<String, Refusal>
    ensures { Gives string_bytes result (Ok (run_row table.now view.now)) }
{
    let members = run_members(alloc, table, view)?;
    Ok(format!(in alloc; "{{{members}}}")?)
}
