//! Members of JSON objects, each after others. RFC 8259.

ghost use Rattle.std.specs.Prelude.{◌≡◌, ◌++◌, Ok, OnOk, decimal, option_map, string_bytes};
ghost use Rattle.wf_value.specs.Gives.{Gives};
ghost use Rattle.table_views.specs.Members.{member, number_or_null, text_or_null};
ghost use Rattle.table_views.specs.Texts.{quoted};

use crate::texts::quoted;
use std::alloc::{AllocError, Global};
use std::fmt::Write;
use wf_value::Refusal;

#[tactic(auto, unfolding(crate::specs::Members::member))]
pub(crate) fn push_member(text: &mut String, name: &str, value: &str) -> Result<(), AllocError>
    ensures { OnOk result (string_bytes text.new ≡ string_bytes text.old ++ member name.now value.now) }
{
    text.push_str(",\"")?;
    text.push_str(name)?;
    text.push_str("\":")?;
    text.push_str(value)
}

#[tactic(auto, unfolding(crate::specs::Members::member))]
pub(crate) fn push_number(text: &mut String, name: &str, number: u64) -> Result<(), AllocError>
    ensures { OnOk result (string_bytes text.new ≡ string_bytes text.old ++ member name.now (decimal number)) }
{
    text.push_str(",\"")?;
    text.push_str(name)?;
    text.push_str("\":")?;
    write!(text, "{number}")
}

/// A text as JSON, or `null` if there is none.
pub(crate) fn text_or_null(alloc: Global, value: Option<&str>) -> Result<String, Refusal>
    ensures { Gives string_bytes result (Ok (text_or_null (option_map (λ v. v.now) value.entry))) }
{
    match value {
        Some(value) => quoted(alloc, value),
        None => Ok(String::from_str(alloc, "null")?),
    }
}

pub(crate) fn number_or_null(alloc: Global, value: Option<u64>) -> Result<String, Refusal>
    ensures { Gives string_bytes result (Ok (number_or_null value)) }
{
    match value {
        Some(number) => Ok(format!(in alloc; "{number}")?),
        None => Ok(String::from_str(alloc, "null")?),
    }
}

pub(crate) fn push_text(
    alloc: Global,
    text: &mut String,
    name: &str,
    value: &str,
) -> Result<(), Refusal>
    ensures { Gives (λ _. string_bytes text.new) result (Ok (string_bytes text.old ++ member name.now (quoted value.now))) }
{
    let value = quoted(alloc, value)?;
    push_member(text, name, value.as_str())?;
    Ok(())
}

pub(crate) fn push_text_or_null(
    alloc: Global,
    text: &mut String,
    name: &str,
    value: Option<&str>,
) -> Result<(), Refusal>
    ensures { Gives (λ _. string_bytes text.new) result
        (Ok (string_bytes text.old ++ member name.now (text_or_null (option_map (λ v. v.now) value.entry)))) }
{
    let value = text_or_null(alloc, value)?;
    push_member(text, name, value.as_str())?;
    Ok(())
}
