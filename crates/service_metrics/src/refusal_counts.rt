//! How many entries were refused, by number.

ghost use Rattle.std.specs.Prelude.{◌≡◌, ◌++◌, OnOk, flat_map, map, string_bytes};
ghost use Rattle.service_metrics.specs.Refusals.{is_refused, none_refused, numbers, refusal_line, refusal_lines, with_reply};

use run_plan::Reply;
use std::alloc::{AllocError, Global};
use table_views::{one_more, push_head, push_value};

/// How many refusals are entries.
pub(crate) const NUMBERS: usize = 8;

/// How often entries were refused with a number.
#[derive(Drop)]
pub struct RefusalCount {
    pub number: u64,
    pub count: u64,
}

/// No entry was refused with this number.
fn none(number: u64) -> RefusalCount
    ensures { result ≡ none_refused number }
{
    RefusalCount { number, count: 0 }
}

/// No entry was refused.
pub(crate) fn no_refusals() -> [RefusalCount; NUMBERS]
    ensures { result ≡ map none_refused numbers }
{
    [
        none(40),
        none(41),
        none(42),
        none(43),
        none(44),
        none(45),
        none(48),
        none(49),
    ]
}

fn is_refused(reply: &Reply, number: u64) -> bool
    ensures { result ≡ is_refused number reply.now }
{
    match reply {
        Reply::Refused(refusal) => refusal.number() == number,
        _ => false,
    }
}

impl RefusalCount {
    /// An entry has this reply.
    fn add(&mut self, reply: &Reply)
        ensures { self.new ≡ with_reply reply.now self.old }
    {
        if is_refused(reply, self.number) {
            one_more(&mut self.count);
        }
    }
}

/// An entry has this reply.
pub(crate) fn add_reply(counts: &mut [RefusalCount], reply: &Reply)
    ensures { counts.new ≡ map (with_reply reply.now) counts.old }
{
    for count in counts.iter_mut() {
        count.add(reply);
    }
}

/// Appends the line of a number, if it has occurred.
fn push_count(alloc: Global, text: &mut String, refused: &RefusalCount) -> Result<(), AllocError>
    ensures { OnOk result (string_bytes text.new ≡ string_bytes text.old ++ refusal_line refused.now) }
{
    let number = refused.number;
    if refused.count == 0 {
        return Ok(());
    }
    let labels = format!(in alloc; "{{number=\"{number}\"}}")?;
    push_value(
        alloc,
        text,
        "acts_refusals_total",
        labels.as_str(),
        refused.count,
    )
}

fn push_counts(alloc: Global, text: &mut String, counts: &[RefusalCount]) -> Result<(), AllocError>
    ensures { OnOk result (string_bytes text.new ≡ string_bytes text.old ++ flat_map refusal_line counts.now) }
{
    for count in counts {
        push_count(alloc, text, count)?;
    }
    Ok(())
}

/// Appends the lines of the refusals.
pub(crate) fn push_refusals(
    alloc: Global,
    text: &mut String,
    counts: &[RefusalCount],
) -> Result<(), AllocError>
    ensures { OnOk result (string_bytes text.new ≡ string_bytes text.old ++ refusal_lines counts.now) }
{
    push_head(
        alloc,
        text,
        "acts_refusals_total",
        "counter",
        "Entries that were refused, by number.",
    )?;
    push_counts(alloc, text, counts)
}
