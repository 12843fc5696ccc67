ghost use Rattle.std.specs.Prelude.{map, flat_map, string_bytes};
ghost use Rattle.serde_json.specs.Find.{get};
ghost use Rattle.serde_json.specs.View.{view};
ghost use Rattle.wf_value.specs.Gives.{Gives};
ghost use Rattle.wf_reader.specs.Faults.{unless_faulty, optional};
ghost use Rattle.wf_reader.specs.Json.{member_at};
ghost use Rattle.wf_reader.specs.Strategy.{pair_faults, pair_of, pattern_faults, pattern_of, patterns_faults, patterns_of};

use crate::values::{empty_list, matrix_value, read_value};
use serde_json::{Map, Value};
use std::alloc::Global;
use wf_value::{Chars, Combo, Refusal, Scalar};

/// A member of an object of `include` or `exclude`.
fn read_pair(alloc: Global, name: &str, value: &Value) -> Result<(Chars, Scalar), Refusal>
    ensures { Gives (λ p. p) result
        (unless_faulty (pair_faults (name.now, view value.now)) (pair_of (name.now, view value.now))) }
{
    let scalar = read_value(alloc, value)?;
    Ok((Chars::from_str(alloc, name)?, scalar))
}

/// The members of an object, or the first fault.
fn read_pairs(alloc: Global, members: &Map<String, Value>) -> Result<Combo, Refusal>
    ensures { Gives (λ c. c) result
        (unless_faulty (flat_map (λ e. pair_faults (string_bytes e.0, view e.1)) members.now.entries)
        (map (λ e. pair_of (string_bytes e.0, view e.1)) members.now.entries)) }
{
    let mut pairs = Vec::with_capacity(alloc, members.len())?;
    for (name, value) in members {
        pairs.push(read_pair(alloc, name.as_str(), value)?)?;
    }
    Ok(Combo::from_pairs(pairs))
}

/// An object of `include` or `exclude`: 19 if it is not an object or has an unsupported value, 20 if it is empty.
fn read_pattern(alloc: Global, value: &Value) -> Result<Combo, Refusal>
    ensures { Gives (λ c. c) result
        (unless_faulty (pattern_faults (view value.now)) (pattern_of (view value.now))) }
{
    let Some(members) = value.as_object() else {
        return Err(matrix_value());
    };
    if members.is_empty() {
        return Err(empty_list());
    }
    read_pairs(alloc, members)
}

/// The objects of a list, or the first fault.
fn read_each(alloc: Global, values: &[Value]) -> Result<Vec<Combo>, Refusal>
    ensures { Gives (λ v. v.items) result
        (unless_faulty (flat_map (λ v. pattern_faults (view v)) values.now)
        (map (λ v. pattern_of (view v)) values.now)) }
{
    let mut patterns = Vec::with_capacity(alloc, values.len())?;
    for value in values {
        patterns.push(read_pattern(alloc, value)?)?;
    }
    Ok(patterns)
}

/// The objects of a list, which may be empty: 19 if it is not a list.
fn read_list(alloc: Global, value: &Value) -> Result<Vec<Combo>, Refusal>
    ensures { Gives (λ v. v.items) result
        (unless_faulty (patterns_faults (view value.now)) (patterns_of (view value.now))) }
{
    match value.as_array() {
        Some(values) => read_each(alloc, values.as_slice()),
        None => Err(matrix_value()),
    }
}

/// The objects of `include` or `exclude`; empty if the member is missing.
pub fn read_patterns(alloc: Global, matrix: &Value, name: &str) -> Result<Vec<Combo>, Refusal>
    ensures { Gives (λ v. v.items) result
        (unless_faulty (optional patterns_faults (get name.now (view matrix.now)))
        (patterns_of (member_at name.now (view matrix.now)))) }
{
    match matrix.get(name) {
        Some(value) => read_list(alloc, value),
        None => Ok(Vec::new(alloc)),
    }
}
