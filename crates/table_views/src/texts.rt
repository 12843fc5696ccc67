//! The pieces of lines.

ghost use Rattle.std.specs.Prelude.{◌≡◌, ◌++◌, IfOk, Ok, OnOk, string_bytes};
ghost use Rattle.std.specs.List.{join_with_byte};
ghost use Rattle.wf_value.specs.Gives.{Gives};
ghost use Rattle.table_model.specs.LegContext.{id_at};
ghost use Rattle.table_views.specs.Texts.{leg_members, leg_words, listed, quoted};

use json::Writer;
use std::alloc::{AllocError, Global};
use table_model::LegSite;
use table_runs::runs::Runs;
use wf_value::{Chars, Refusal};

/// A text as JSON. RFC 8259, section 7.
pub(crate) fn quoted(alloc: Global, text: &str) -> Result<String, Refusal>
    ensures { Gives string_bytes result (Ok (quoted text.now)) }
{
    Ok(written(alloc, text)?)
}

fn written(alloc: Global, text: &str) -> Result<String, AllocError>
    ensures { IfOk result (λ s. string_bytes s ≡ quoted text.now) }
{
    let mut writer = Writer::new(Vec::new(alloc));
    writer.string(text)?;
    Ok(String::from_utf8(writer.into_inner()).unwrap())
}

/// Texts joined by commas, in brackets.
pub(crate) fn listed(alloc: Global, items: &[Chars]) -> Result<String, Refusal>
    ensures { Gives string_bytes result (Ok (listed items.now)) }
{
    let mut text = String::new(alloc);
    text.push_str("[")?;
    push_joined(items, &mut text)?;
    text.push_str("]")?;
    Ok(text)
}

fn push_joined(items: &[Chars], text: &mut String) -> Result<(), AllocError>
    ensures { OnOk result (string_bytes text.new ≡ string_bytes text.old ++ join_with_byte 44 items.now) }
{
    let Some((first, others)) = items.split_first() else {
        return Ok(());
    };
    text.push_str(first.as_str())?;
    for item in others {
        text.push_str(",")?;
        text.push_str(item.as_str())?;
    }
    Ok(())
}

/// The id of the run at an index, 0 if there is none.
pub(crate) fn run_id(runs: &Runs, r: usize) -> u32
    ensures { result ≡ id_at runs.now r }
{
    match runs.as_slice().get(r) {
        Some(run) => run.id().get(),
        None => 0,
    }
}

/// A leg as words: its run, its job and its number.
pub(crate) fn leg_words(alloc: Global, runs: &Runs, site: LegSite) -> Result<String, Refusal>
    ensures { Gives string_bytes result (Ok (leg_words runs.now site)) }
{
    let run = run_id(runs, site.run);
    let id = runs.job_id(alloc, site.run, site.job)?;
    let job = id.as_str();
    let leg = site.leg;
    Ok(format!(in alloc; "{run} {job} {leg}")?)
}

/// A leg as members of a JSON object.
pub(crate) fn leg_members(alloc: Global, runs: &Runs, site: LegSite) -> Result<String, Refusal>
    ensures { Gives string_bytes result (Ok (leg_members runs.now site)) }
{
    let run = run_id(runs, site.run);
    let job = runs.job_id(alloc, site.run, site.job)?;
    let job = quoted(alloc, job.as_str())?;
    let leg = site.leg;
    Ok(format!(in alloc; "\"run\":{run},\"job\":{job},\"leg\":{leg}")?)
}
