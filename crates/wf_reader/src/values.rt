ghost use Rattle.std.specs.Prelude.{◌≡◌, map, flat_map};
ghost use Rattle.serde_json.specs.View.{view};
ghost use Rattle.wf_value.specs.Gives.{Gives};
ghost use Rattle.wf_value.specs.declared.code.Code.TheVariants.{EmptyList, MatrixValue};
ghost use Rattle.wf_value.specs.declared.refusal.Refusal.TheVariants.{Numbered};
ghost use Rattle.wf_reader.specs.Faults.{unless_faulty};
ghost use Rattle.wf_reader.specs.Strategy.{value_faults, scalar_or_null};

use crate::scalars::scalar_of;
use serde_json::Value;
use std::alloc::Global;
use wf_value::{Code, Refusal, Scalar};

/// 19: a value in a matrix has a kind that a matrix does not support.
pub fn matrix_value() -> Refusal
    ensures { result ≡ Numbered MatrixValue }
{
    Refusal::Numbered(Code::MatrixValue)
}

/// 20: the list of a variable, or an object of `include` or `exclude`, is empty.
pub fn empty_list() -> Refusal
    ensures { result ≡ Numbered EmptyList }
{
    Refusal::Numbered(Code::EmptyList)
}

/// A value of a matrix: null, a boolean, a signed 64-bit integer or a text. Anything else is 19.
pub fn read_value(alloc: Global, value: &Value) -> Result<Scalar, Refusal>
    ensures { Gives (λ s. s) result
        (unless_faulty (value_faults (view value.now)) (scalar_or_null (view value.now))) }
{
    match scalar_of(value) {
        Some(scalar) => scalar.copy(alloc),
        None => Err(matrix_value()),
    }
}

/// The values of a list, or the first fault.
pub fn read_values(alloc: Global, values: &[Value]) -> Result<Vec<Scalar>, Refusal>
    ensures { Gives (λ v. v.items) result
        (unless_faulty (flat_map (λ v. value_faults (view v)) values.now)
        (map (λ v. scalar_or_null (view v)) values.now)) }
{
    let mut scalars = Vec::with_capacity(alloc, values.len())?;
    for value in values {
        scalars.push(read_value(alloc, value)?)?;
    }
    Ok(scalars)
}
