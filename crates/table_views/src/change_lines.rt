//! The lines of changes: entries of the history, and runs and legs whose state has changed.

ghost use Rattle.std.specs.Prelude.{◌≡◌, ◌++◌, IfOk, Ok, length, map, string_bytes};
ghost use Rattle.wf_value.specs.Gives.{Gives};
ghost use Rattle.table_views.specs.ChangeLines.{admit_json, beat_json, claim_json, command_json, done_json, entry_line, forgotten_line, json_of_run, json_of_runner, leg_change_line, leg_state_members, named, attempt_line, place_members, rerun_json, run_change_line, short_reply, short_view};
ghost use Rattle.table_views.specs.Texts.{listed, quoted};

use crate::members::{number_or_null, push_member, push_number, push_text, push_text_or_null};
use crate::one_run::lease_number;
use crate::run_rows::{as_text, push_state, run_members};
use crate::texts::{listed, quoted};
use crate::told_legs::LegNews;
use run_plan::{Attempt, Beat, Claim, Command, Done, Label, Number, Prepared, Reply, RunnerName};
use run_table::{RunView, Table, leg_word};
use std::alloc::{AllocError, Global};
use table_model::Run;
use wf_value::{Chars, Refusal, TryCopy};

// ---- commands, without a body

/// The start of a command: its name.
fn named(alloc: Global, name: &str) -> Result<String, AllocError>
    ensures { IfOk result (λ s. string_bytes s ≡ named name.now) }
{
    format!(in alloc; "{{\"name\":\"{name}\"")
}

fn admit_json(alloc: Global, event: &Prepared) -> Result<String, Refusal>
    ensures { Gives string_bytes result (Ok (admit_json event.now)) }
{
    let mut text = named(alloc, "admit")?;
    push_text(alloc, &mut text, "delivery", event.delivery().as_str())?;
    push_text(alloc, &mut text, "event", event.event().as_str())?;
    push_text(alloc, &mut text, "repository", event.repo().as_str())?;
    push_text(alloc, &mut text, "path", event.path().as_str())?;
    text.push_str("}")?;
    Ok(text)
}

/// Each label of a runner, as JSON.
fn quoted_labels(alloc: Global, labels: &[Label]) -> Result<Vec<Chars>, Refusal>
    ensures { Gives (λ texts. texts.items) result (Ok (map quoted labels.now)) }
{
    let mut texts = Vec::with_capacity(alloc, labels.len())?;
    for label in labels {
        let one = quoted(alloc, label.as_str())?;
        texts.push(Chars::new(one))?;
    }
    Ok(texts)
}

/// The labels of a runner, as JSON.
pub(crate) fn labels_text(alloc: Global, labels: &[Label]) -> Result<String, Refusal>
    ensures { Gives string_bytes result (Ok (listed (map quoted labels.now))) }
{
    let labels = quoted_labels(alloc, labels)?;
    listed(alloc, labels.as_slice())
}

fn claim_json(alloc: Global, claim: &Claim) -> Result<String, Refusal>
    ensures { Gives string_bytes result (Ok (claim_json claim.now)) }
{
    let labels = labels_text(alloc, claim.labels.as_slice())?;
    let mut text = named(alloc, "claim")?;
    push_text(alloc, &mut text, "runner", claim.runner.as_str())?;
    push_number(&mut text, "number", u64::from(claim.number.get()))?;
    push_member(&mut text, "labels", labels.as_str())?;
    text.push_str("}")?;
    Ok(text)
}

fn done_json(alloc: Global, done: &Done) -> Result<String, Refusal>
    ensures { Gives string_bytes result (Ok (done_json done.now)) }
{
    let mut text = named(alloc, "done")?;
    push_text(alloc, &mut text, "runner", done.runner.as_str())?;
    push_number(&mut text, "number", u64::from(done.number.get()))?;
    push_number(&mut text, "lease", u64::from(done.lease.get()))?;
    push_text(alloc, &mut text, "result", done.result.word())?;
    text.push_str("}")?;
    Ok(text)
}

fn beat_json(alloc: Global, beat: &Beat) -> Result<String, Refusal>
    ensures { Gives string_bytes result (Ok (beat_json beat.now)) }
{
    let mut text = named(alloc, "beat")?;
    push_text(alloc, &mut text, "runner", beat.runner.as_str())?;
    push_number(&mut text, "lease", u64::from(beat.lease.get()))?;
    text.push_str("}")?;
    Ok(text)
}

/// A command that has a runner alone.
fn json_of_runner(alloc: Global, name: &str, runner: &RunnerName) -> Result<String, Refusal>
    ensures { Gives string_bytes result (Ok (json_of_runner name.now runner.now)) }
{
    let mut text = named(alloc, name)?;
    push_text(alloc, &mut text, "runner", runner.as_str())?;
    text.push_str("}")?;
    Ok(text)
}

/// A command that has a run alone.
fn json_of_run(alloc: Global, name: &str, run: Number) -> Result<String, Refusal>
    ensures { Gives string_bytes result (Ok (json_of_run name.now run)) }
{
    let mut text = named(alloc, name)?;
    push_number(&mut text, "run", u64::from(run.get()))?;
    text.push_str("}")?;
    Ok(text)
}

fn rerun_json(alloc: Global, again: &Attempt) -> Result<String, Refusal>
    ensures { Gives string_bytes result (Ok (rerun_json again.now)) }
{
    let mut text = named(alloc, "rerun")?;
    push_number(&mut text, "run", u64::from(again.run.get()))?;
    push_number(&mut text, "attempt", u64::from(again.attempt.get()))?;
    text.push_str("}")?;
    Ok(text)
}

/// A command without its body, as JSON.
fn command_json(alloc: Global, command: &Command) -> Result<String, Refusal>
    ensures { Gives string_bytes result (Ok (command_json command.now)) }
{
    match command {
        Command::Admit(event) => admit_json(alloc, event),
        Command::Claim(claim) => claim_json(alloc, claim),
        Command::Done(done) => done_json(alloc, done),
        Command::Beat(beat) => beat_json(alloc, beat),
        Command::Cancel(run) => json_of_run(alloc, "cancel", *run),
        Command::Lost(runner) => json_of_runner(alloc, "lost", runner),
        Command::Look(run) => json_of_run(alloc, "look", *run),
        Command::Fetch(run) => json_of_run(alloc, "fetch", *run),
        Command::Rerun(again) => rerun_json(alloc, again),
        Command::Forget(run) => json_of_run(alloc, "forget", *run),
        Command::Discharge(runner) => json_of_runner(alloc, "discharge", runner),
    }
}

// ---- replies, without the view of a run and without a body

/// The view of a run: of a look its id alone.
fn short_view(alloc: Global, command: &Command, view: &Chars) -> Result<Chars, Refusal>
    ensures { Gives (λ text. text) result (Ok (short_view command.now view.now)) }
{
    match command {
        Command::Look(run) => {
            let run = run.get();
            Ok(Chars::new(format!(in alloc; "run {run}")?))
        }
        _ => view.copy(alloc),
    }
}

fn short_reply(alloc: Global, command: &Command, reply: &Reply) -> Result<Chars, Refusal>
    ensures { Gives (λ text. text) result (Ok (short_reply command.now reply.now)) }
{
    match reply {
        Reply::Run(view) => short_view(alloc, command, view),
        Reply::Body(body) => {
            let length = body.as_str().len();
            Ok(Chars::new(format!(in alloc; "body {length}")?))
        }
        _ => reply.text(alloc),
    }
}

// ---- lines. `at` is the time of the commit, in milliseconds since 1970.

/// The line of an entry at a place of the history.
#[tactic(auto, unfolding(crate::specs::ChangeLines::entry_line))]
pub fn entry_line(
    alloc: Global,
    place: u64,
    at: u64,
    command: &Command,
    reply: &Reply,
) -> Result<String, Refusal>
    ensures { Gives string_bytes result (Ok (entry_line place at command.now reply.now)) }
{
    let command_text = command_json(alloc, command)?;
    let reply = short_reply(alloc, command, reply)?;
    let mut text = format!(in alloc; "{{\"entry\":{place}")?;
    push_member(&mut text, "command", command_text.as_str())?;
    push_text(alloc, &mut text, "reply", reply.as_str())?;
    push_number(&mut text, "at", at)?;
    text.push_str("}\n")?;
    Ok(text)
}

/// The line of a run that begins an attempt, with its row, as it is after the entries up to a place.
#[tactic(auto, unfolding(crate::specs::ChangeLines::attempt_line))]
pub fn attempt_line(
    alloc: Global,
    place: u64,
    at: u64,
    table: &Table,
    view: &RunView<'_>,
) -> Result<String, Refusal>
    ensures { Gives string_bytes result (Ok (attempt_line place at table.now view.now)) }
{
    let members = run_members(alloc, table, view)?;
    let mut text = format!(in alloc; "{{\"after\":{place},{members}")?;
    push_number(&mut text, "at", at)?;
    text.push_str("}\n")?;
    Ok(text)
}

/// The line of a run as it is after the entries up to a place.
#[tactic(auto, unfolding(crate::specs::ChangeLines::run_change_line))]
pub fn run_change_line(
    alloc: Global,
    place: u64,
    at: u64,
    id: Number,
    run: &Run,
) -> Result<String, Refusal>
    ensures { Gives string_bytes result (Ok (run_change_line place at id run.now)) }
{
    let mut text = format!(in alloc; "{{\"after\":{place}")?;
    push_number(&mut text, "run", u64::from(id.get()))?;
    push_number(&mut text, "attempt", u64::from(run.attempt().get()))?;
    push_state(alloc, &mut text, run)?;
    push_number(&mut text, "at", at)?;
    text.push_str("}\n")?;
    Ok(text)
}

/// The line of the forgotten runs, those with ids through this one, as it is after the entries up to a place.
#[tactic(auto, unfolding(crate::specs::ChangeLines::forgotten_line))]
pub fn forgotten_line(alloc: Global, place: u64, at: u64, through: u32) -> Result<String, Refusal>
    ensures { Gives string_bytes result (Ok (forgotten_line place at through)) }
{
    let mut text = format!(in alloc; "{{\"after\":{place}")?;
    push_text(alloc, &mut text, "type", "forgotten")?;
    push_number(&mut text, "through", u64::from(through))?;
    push_number(&mut text, "at", at)?;
    text.push_str("}\n")?;
    Ok(text)
}

/// Appends where a leg is.
fn push_place(alloc: Global, text: &mut String, news: &LegNews) -> Result<(), Refusal>
    ensures { Gives (λ _. string_bytes text.new) result (Ok (string_bytes text.old ++ place_members news.now)) }
{
    push_number(text, "run", u64::from(news.run.get()))?;
    push_number(text, "attempt", u64::from(news.attempt.get()))?;
    push_text(alloc, text, "job", news.job.as_str())?;
    push_number(text, "leg", news.leg as u64)?;
    Ok(())
}

/// Appends how a leg stands.
fn push_leg_state(alloc: Global, text: &mut String, news: &LegNews) -> Result<(), Refusal>
    ensures { Gives (λ _. string_bytes text.new) result (Ok (string_bytes text.old ++ leg_state_members news.now)) }
{
    push_text(alloc, text, "state", leg_word(news.state.phase))?;
    let lease = number_or_null(alloc, lease_number(&news.state))?;
    push_member(text, "lease", lease.as_str())?;
    push_text_or_null(alloc, text, "runner", as_text(&news.runner))?;
    Ok(())
}

/// The line of a leg as it is after the entries up to a place.
#[tactic(auto, unfolding(crate::specs::ChangeLines::leg_change_line))]
pub fn leg_change_line(
    alloc: Global,
    place: u64,
    at: u64,
    news: &LegNews,
) -> Result<String, Refusal>
    ensures { Gives string_bytes result (Ok (leg_change_line place at news.now)) }
{
    let mut text = format!(in alloc; "{{\"after\":{place}")?;
    push_place(alloc, &mut text, news)?;
    push_leg_state(alloc, &mut text, news)?;
    push_number(&mut text, "at", at)?;
    text.push_str("}\n")?;
    Ok(text)
}
