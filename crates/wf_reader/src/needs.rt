ghost use Rattle.std.specs.Prelude.{codes, map, flat_map};
ghost use Rattle.serde_json.specs.Find.{get};
ghost use Rattle.serde_json.specs.View.{view};
ghost use Rattle.wf_value.specs.Gives.{Gives};
ghost use Rattle.wf_reader.specs.Faults.{unless_faulty, optional, text_faults};
ghost use Rattle.wf_reader.specs.Json.{member_at, text_in};
ghost use Rattle.wf_reader.specs.Job.{needs_faults, needs_in};

use crate::fields::wrong_kind;
use serde_json::Value;
use std::alloc::Global;
use wf_value::{Chars, Refusal, Sequence};

/// One id.
fn read_need(alloc: Global, value: &Value) -> Result<Chars, Refusal>
    ensures { Gives (λ c. c) result (unless_faulty (text_faults (view value.now)) (text_in (view value.now))) }
{
    match value.as_str() {
        Some(id) => Chars::from_str(alloc, id),
        None => Err(wrong_kind()),
    }
}

/// The ids of a list, or 11 if one of its values is not a text.
fn read_list(alloc: Global, values: &[Value]) -> Result<Vec<Chars>, Refusal>
    ensures { Gives (λ v. v.items) result
        (unless_faulty (flat_map (λ v. text_faults (view v)) values.now) (map (λ v. text_in (view v)) values.now)) }
{
    let mut needs = Vec::with_capacity(alloc, values.len())?;
    for value in values {
        needs.push(read_need(alloc, value)?)?;
    }
    Ok(needs)
}

/// The ids that a value of `needs` lists.
fn needs_of(alloc: Global, value: &Value) -> Result<Vec<Chars>, Refusal>
    ensures { Gives (λ v. v.items) result (unless_faulty (needs_faults (view value.now)) (needs_in (view value.now))) }
{
    if let Some(values) = value.as_array() {
        return read_list(alloc, values.as_slice());
    }
    let mut needs = Vec::with_capacity(alloc, 1)?;
    needs.push(read_need(alloc, value)?)?;
    Ok(needs)
}

/// The ids that a job needs, as listed; empty if the member is missing. A value that is neither a text nor a list of texts is 11.
pub fn read_needs(alloc: Global, job: &Value) -> Result<Sequence<Chars>, Refusal>
    ensures { Gives (λ n. n) result
        (unless_faulty (optional needs_faults (get (codes "needs") (view job.now)))
        (needs_in (member_at (codes "needs") (view job.now)))) }
{
    match job.get("needs") {
        Some(value) => Ok(Sequence::new(needs_of(alloc, value)?)),
        None => Ok(Sequence::new(Vec::new(alloc))),
    }
}
