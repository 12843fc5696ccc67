ghost use Rattle.std.specs.Prelude.{◌≡◌, flat_map, option_map, option_and_then};
ghost use Rattle.serde_json.specs.Data.{object};
ghost use Rattle.serde_json.specs.Find.{get, as_object};
ghost use Rattle.serde_json.specs.View.{view, members_view};
ghost use Rattle.wf_value.specs.Gives.{Gives};
ghost use Rattle.wf_value.specs.declared.code.Code.TheVariants.{WrongKind};
ghost use Rattle.wf_value.specs.declared.refusal.Refusal.TheVariants.{Numbered};
ghost use Rattle.wf_reader.specs.Event.{filled_text_faults};
ghost use Rattle.wf_reader.specs.Faults.{unless_faulty, optional, required, left_out, text_faults, object_faults};
ghost use Rattle.wf_reader.specs.Json.{text_in, member_at};

use serde_json::{Map, Value};
use std::alloc::Global;
use wf_value::{Chars, Code, Refusal};

/// 11: a member has the wrong kind, or a required member is missing.
pub fn wrong_kind() -> Refusal
    ensures { result ≡ Numbered WrongKind }
{
    Refusal::Numbered(Code::WrongKind)
}

/// Moves the value of a name out of the members, without copying it.
fn taken_of(mut members: Map<String, Value>, name: &str) -> Option<Value>
    ensures { option_map (λ v. view v) result ≡ get name.now (object (members_view members.entries)) }
{
    members.remove(name)
}

/// Moves a member out of its object, without copying it.
fn taken_member(object: Value, name: &str) -> Option<Value>
    ensures { option_map (λ v. view v) result ≡ get name.now (view object) }
{
    match object {
        Value::Object(members) => taken_of(members, name),
        _ => None,
    }
}

/// The members of an object.
fn members_in(value: Value) -> Option<Map<String, Value>>
    ensures { option_map (λ m. members_view m.entries) result ≡ as_object (view value) }
{
    match value {
        Value::Object(members) => Some(members),
        _ => None,
    }
}

/// Moves the members of a member that is an object out of it, without copying them.
pub fn taken_members(object: Value, name: &str) -> Option<Map<String, Value>>
    ensures { option_map (λ m. members_view m.entries) result
        ≡ option_and_then as_object (get name.now (view object)) }
{
    match taken_member(object, name) {
        Some(member) => members_in(member),
        None => None,
    }
}

/// Refuses a member that is not supported, whatever its value (16).
pub fn refuse_left_out(object: &Value, name: &str) -> Result<(), Refusal>
    ensures { result ≡ unless_faulty (left_out (get name.now (view object.now))) tt }
{
    match object.get(name) {
        Some(_) => Err(Refusal::Numbered(Code::LeftOut)),
        None => Ok(()),
    }
}

/// Refuses a member that is present and not an object (11).
fn check_context(object: &Value, name: &str) -> Result<(), Refusal>
    ensures { result ≡ unless_faulty (optional object_faults (get name.now (view object.now))) tt }
{
    match object.get(name) {
        Some(context) if !context.is_object() => Err(wrong_kind()),
        _ => Ok(()),
    }
}

/// Refuses the first of the members that is present and not an object (11).
pub fn check_contexts(object: &Value, names: &[&str]) -> Result<(), Refusal>
    ensures { result
        ≡ unless_faulty (flat_map (λ name. optional object_faults (get name.now (view object.now))) names.now) tt }
{
    for name in names {
        check_context(object, name)?;
    }
    Ok(())
}

/// The text of a member, or the empty text if it is missing. A value that is not a text is 11.
pub fn read_text(alloc: Global, object: &Value, name: &str) -> Result<Chars, Refusal>
    ensures { Gives (λ c. c) result
        (unless_faulty (optional text_faults (get name.now (view object.now)))
        (text_in (member_at name.now (view object.now)))) }
{
    let Some(member) = object.get(name) else {
        return Chars::from_str(alloc, "");
    };
    match member.as_str() {
        Some(text) => Chars::from_str(alloc, text),
        None => Err(wrong_kind()),
    }
}

/// The text of a required, non-empty member. Anything else is 11.
pub fn read_filled_text(alloc: Global, object: &Value, name: &str) -> Result<Chars, Refusal>
    ensures { Gives (λ c. c) result
        (unless_faulty (required WrongKind filled_text_faults (get name.now (view object.now)))
        (text_in (member_at name.now (view object.now)))) }
{
    match object.get(name).and_then(Value::as_str) {
        Some(text) if !text.is_empty() => Chars::from_str(alloc, text),
        _ => Err(wrong_kind()),
    }
}
