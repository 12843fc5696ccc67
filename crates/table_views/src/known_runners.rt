//! A page of the runners of a table, in the order of their names.

ghost use Rattle.std.specs.Prelude.{◌≡◌, ◌++◌, ◌≤◌, ◌<◌, ◌^◌, ◌+◌, IfOk, IfSome, Ok, length, option_map, slice_get, string_bytes};
ghost use Rattle.std.specs.List.{position};
ghost use Rattle.wf_value.specs.Gives.{ErrsOnlyByMemory, Gives};
ghost use Rattle.table_model.specs.TableState.{is_above};
ghost use Rattle.table_views.specs.RunnerPages.{IsRunnerPage, begins_with, claimed_labels, heard_at, heard_members, held_lease, index_after, labels_or_null, lease_json, lease_of_last, next_name, runner_row, runner_rows};

use crate::change_lines::labels_text;
use crate::members::{number_or_null, push_member, push_number, push_text, text_or_null};
use crate::pages::{Source, page_of, page_text};
use crate::texts::quoted;
use run_plan::{ClaimReply, Labels, LastCommand, Lease};
use run_table::{Runner, Table};
use std::alloc::Global;
use wf_value::{Chars, Refusal};

/// The lease that was the reply to a command.
fn lease_of_last(last: &LastCommand) -> Option<&Lease>
    ensures { option_map (λ lease. lease.now) result ≡ lease_of_last last.now }
{
    match last {
        LastCommand::Claim(_, ClaimReply::Lease(kept)) => Some(&kept.lease_reply),
        LastCommand::Claim(_, ClaimReply::Nothing) | LastCommand::Done(_) => None,
    }
}

fn held_lease(runner: &Runner) -> Option<&Lease>
    ensures { option_map (λ lease. lease.now) result ≡ held_lease runner.now }
{
    match runner.holds {
        Some(_) => lease_of_last(&runner.last),
        None => None,
    }
}

fn lease_json(alloc: Global, lease: Option<&Lease>) -> Result<String, Refusal>
    ensures { Gives string_bytes result (Ok (lease_json (option_map (λ lease. lease.now) lease.entry))) }
{
    let Some(lease) = lease else {
        return Ok(String::from_str(alloc, "null")?);
    };
    let number = lease.lease.get();
    let mut text = format!(in alloc; "{{\"lease\":{number}")?;
    push_number(&mut text, "run", u64::from(lease.run.get()))?;
    push_text(alloc, &mut text, "job", lease.job.as_str())?;
    push_number(&mut text, "leg", lease.leg as u64)?;
    text.push_str("}")?;
    Ok(text)
}

/// The labels of a claim, if that was the last command.
fn claimed_labels(last: &LastCommand) -> Option<&Labels>
    ensures { option_map (λ labels. labels.now) result ≡ claimed_labels last.now }
{
    match last {
        LastCommand::Claim(claim, _) => Some(&claim.labels),
        LastCommand::Done(_) => None,
    }
}

/// The labels of a runner's claim, if that was its last command.
fn labels_of(runner: &Runner) -> Option<&Labels>
    ensures { option_map (λ labels. labels.now) result ≡ claimed_labels runner.now.last }
{
    claimed_labels(&runner.last)
}

fn labels_or_null(alloc: Global, labels: Option<&Labels>) -> Result<String, Refusal>
    ensures { Gives string_bytes result (Ok (labels_or_null (option_map (λ labels. labels.now) labels.entry))) }
{
    match labels {
        Some(labels) => labels_text(alloc, labels.as_slice()),
        None => Ok(String::from_str(alloc, "null")?),
    }
}

/// Appends the seconds since a runner was last heard, if that is known, and its labels.
fn push_heard(
    alloc: Global,
    text: &mut String,
    heard: Option<u64>,
    runner: &Runner,
) -> Result<(), Refusal>
    ensures { Gives (λ _. string_bytes text.new) result (Ok (string_bytes text.old ++ heard_members heard runner.now)) }
{
    let seconds = number_or_null(alloc, heard)?;
    let labels = labels_or_null(alloc, labels_of(runner))?;
    push_member(text, "heard_seconds_ago", seconds.as_str())?;
    push_member(text, "labels", labels.as_str())?;
    Ok(())
}

fn runner_row(alloc: Global, heard: Option<u64>, runner: &Runner) -> Result<String, Refusal>
    ensures { Gives string_bytes result (Ok (runner_row heard runner.now)) }
{
    let name = quoted(alloc, runner.name.as_str())?;
    let lease = lease_json(alloc, held_lease(runner))?;
    let mut text = format!(in alloc; "{{\"runner\":{name}")?;
    push_number(&mut text, "number", u64::from(runner.number.get()))?;
    push_member(&mut text, "lease", lease.as_str())?;
    push_heard(alloc, &mut text, heard, runner)?;
    text.push_str("}")?;
    Ok(text)
}

/// The runners of a table whose names begin with a text, with the seconds of those from an index on.
#[derive(Drop)]
struct Known<'a> {
    runners: &'a [Runner],
    name: &'a Option<Chars>,
    heard: &'a [Option<u64>],
    from: usize,
}

/// Whether a name begins with the wanted text, if one is wanted.
fn begins_with(wanted: &Option<Chars>, name: &str) -> bool
    ensures { result ≡ begins_with wanted.now name.now }
{
    match wanted {
        Some(beginning) => name.as_bytes().starts_with(beginning.as_str().as_bytes()),
        None => true,
    }
}

fn runner_at(runners: &[Runner], index: usize) -> Option<&Runner>
    ensures { option_map (λ runner. runner.now) result ≡ slice_get runners.now index }
{
    runners.get(index)
}

/// The seconds of the runner at an index.
fn heard_at(heard: &[Option<u64>], from: usize, index: usize) -> Option<u64>
    ensures { result ≡ heard_at heard.now from index }
{
    match heard.get(index.saturating_sub(from)) {
        Some(seconds) => *seconds,
        None => None,
    }
}

impl Source for Known<'_> {
    ghost size = { λ s. length s.runners.now };

    ghost rows = { λ s index. runner_rows s.name.now s.heard.now s.from s.runners.now index };

    ghost weigh = { λ s index. length (runner_rows s.name.now s.heard.now s.from s.runners.now index) };

    fn push_rows(
        &self,
        alloc: Global,
        index: usize,
        out: &mut Vec<Chars>,
    ) -> Result<usize, Refusal> {
        let Some(runner) = runner_at(self.runners, index) else {
            return Ok(0);
        };
        if !begins_with(self.name, runner.name.as_str()) {
            return Ok(0);
        }
        let heard = heard_at(self.heard, self.from, index);
        let row = runner_row(alloc, heard, runner)?;
        out.push(Chars::new(row))?;
        Ok(1)
    }
}

/// The name after which the list goes on after `count` of the runners from an index on.
fn next_name(runners: &[Runner], from: usize, count: usize) -> Option<&str>
    requires { from + count ≤ length runners.now }
    ensures { option_map (λ name. name.now) result ≡ next_name runners.now from count }
{
    let end = from + count;
    if end >= runners.len() {
        return None;
    }
    let last = runners.get(end.saturating_sub(1))?;
    Some(last.name.as_str())
}

fn is_above(runner: &Runner, name: &str) -> bool
    ensures { result ≡ is_above name.now runner.now }
{
    name < runner.name.as_str()
}

fn first_above(runners: &[Runner], name: &str) -> Option<usize>
    ensures within { IfSome result (λ index. index < length runners.now) }
    ensures first { result ≡ position (is_above name.now) runners.now }
{
    runners.iter().position(|runner| is_above(runner, name))
}

/// The index of the first runner whose name comes after this one.
pub fn index_after(table: &Table, name: &str) -> usize
    ensures within { result ≤ length table.now.runners }
    ensures after { result ≡ index_after table.now.runners name.now }
{
    let runners = table.runners();
    match first_above(runners, name) {
        Some(index) => index,
        None => runners.len(),
    }
}

/// A page of the runners from an index on whose names begin with a text. `heard` has the seconds since each runner from there on was last heard,
/// if that is known.
/// Promise (Views of a service): With a name `/runners` shows the runners whose names begin with it; the page after a name begins with the first
///   runner whose name comes after it
/// By: `table_views::runner_page`, `page` (`IsRunnerPage`, `begins_with`); `table_views::index_after`, `after` (`index_after`)
pub fn runner_page(
    alloc: Global,
    table: &Table,
    name: &Option<Chars>,
    heard: &[Option<u64>],
    from: usize,
    limit: usize,
) -> Result<String, Refusal>
    requires from { from ≤ length table.now.runners }
    requires limit { limit < 2 ^ 32 }
    ensures err { ErrsOnlyByMemory result }
    ensures page { IfOk result (λ text. IsRunnerPage name.now heard.now from limit table.now (string_bytes text)) }
{
    let runners = table.runners();
    let known = Known {
        runners,
        name,
        heard,
        from,
    };
    let page = page_of(alloc, &known, from, runners.len() - from, limit)?;
    let next = text_or_null(alloc, next_name(runners, from, page.count))?;
    page_text(
        alloc,
        "runners",
        page.rows.as_slice(),
        page.count,
        "after",
        next.as_str(),
    )
}
