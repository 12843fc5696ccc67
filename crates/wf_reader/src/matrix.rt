ghost use Rattle.std.specs.Prelude.{◌≡◌, IsTrue, IfOk, map, flat_map, string_bytes};
ghost use Rattle.std.specs.List.{filter};
ghost use Rattle.serde_json.specs.View.{view};
ghost use Rattle.wf_value.specs.Gives.{Gives};
ghost use Rattle.definitions.specs.Rising.{names_rise};
ghost use Rattle.wf_value.specs.declared.code.Code.TheVariants.{StrategyMember};
ghost use Rattle.wf_value.specs.declared.refusal.Refusal.TheVariants.{Numbered};
ghost use Rattle.wf_reader.specs.Faults.{unless_faulty};
ghost use Rattle.wf_reader.specs.Strategy.{is_variable_name, variable_faults, variable_of, matrix_faults, matrix_of};

use crate::patterns::read_patterns;
use crate::values::{empty_list, matrix_value, read_values};
use serde_json::{Map, Value};
use std::alloc::Global;
use wf_value::{Chars, Code, Matrix, Refusal, Variable};

/// 25: `strategy` or one of its members is invalid.
pub fn strategy_member() -> Refusal
    ensures { result ≡ Numbered StrategyMember }
{
    Refusal::Numbered(Code::StrategyMember)
}

/// A variable: 19 if it is not a list or has an unsupported value, 20 if it is empty.
fn read_variable(alloc: Global, name: &str, value: &Value) -> Result<Variable, Refusal>
    ensures { Gives (λ v. v) result
        (unless_faulty (variable_faults (name.now, view value.now)) (variable_of (name.now, view value.now))) }
{
    let Some(values) = value.as_array() else {
        return Err(matrix_value());
    };
    if values.is_empty() {
        return Err(empty_list());
    }
    let scalars = read_values(alloc, values.as_slice())?;
    Ok(Variable::new(Chars::from_str(alloc, name)?, scalars))
}

/// Whether a member of a matrix is a variable.
pub fn is_variable_name(name: &str) -> bool
    ensures { result ≡ is_variable_name name.now }
{
    name != "include" && name != "exclude"
}

/// The variables among the members of a matrix, or the first fault.
fn read_variables(alloc: Global, members: &Map<String, Value>) -> Result<Vec<Variable>, Refusal>
    ensures gives { Gives (λ v. v.items) result
        (unless_faulty
        (flat_map (λ e. variable_faults (string_bytes e.0, view e.1))
        (filter (λ e. is_variable_name (string_bytes e.0)) members.now.entries))
        (map (λ e. variable_of (string_bytes e.0, view e.1))
        (filter (λ e. is_variable_name (string_bytes e.0)) members.now.entries))) }
    ensures rising { IfOk result (λ v. IsTrue (names_rise v.items)) }
{
    let mut variables = Vec::new(alloc);
    for (name, value) in members {
        let text = name.as_str();
        if !is_variable_name(text) {
            continue;
        }
        variables.push(read_variable(alloc, text, value)?)?;
    }
    Ok(variables)
}

/// A matrix: 25 if it is not an object, 19 or 20 for a fault inside it.
pub fn read_matrix(alloc: Global, value: &Value) -> Result<Matrix, Refusal>
    ensures { Gives (λ m. m) result
        (unless_faulty (matrix_faults (view value.now)) (matrix_of (view value.now))) }
{
    let Some(members) = value.as_object() else {
        return Err(strategy_member());
    };
    let include = read_patterns(alloc, value, "include")?;
    let exclude = read_patterns(alloc, value, "exclude")?;
    let variables = read_variables(alloc, members)?;
    Ok(Matrix::new(variables, include, exclude))
}
