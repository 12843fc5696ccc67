//! The matrix of a strategy.

ghost use Rattle.std.specs.Prelude.{◌≡◌, ◌++◌, OnOk, Some, map, string_bytes};
ghost use Rattle.std.specs.List.{filter};
ghost use Rattle.serde_json.specs.Find.{as_object};
ghost use Rattle.serde_json.specs.View.{members_view, view};
ghost use Rattle.wf_reader.specs.Strategy.{is_variable_name};
ghost use Rattle.workflow_lint.specs.Checks.{members_at};
ghost use Rattle.workflow_lint.specs.InMatrix.{inside_matrix_at, variable_at};

use crate::check::Check;
use crate::finding::{Finding, push_code};
use crate::paths::member_path;
use crate::rule::{Rule, check_items, check_member, check_members};
use serde_json::{Map, Value};
use std::alloc::{AllocError, Global};
use wf_reader::is_variable_name;
use wf_value::Code;

/// The rule for an object of `include` or `exclude`.
#[derive(Clone, Copy)]
struct Pattern;

impl Rule for Pattern {
    ghost use Rattle.workflow_lint.specs.InMatrix.{pattern_at};

    ghost findings = { λ _. pattern_at };

    fn check(
        &self,
        alloc: Global,
        path: &str,
        value: &Value,
        found: &mut Vec<Finding>,
    ) -> Result<(), AllocError> {
        let Some(members) = value.as_object() else {
            return push_code(alloc, path, Code::MatrixValue, found);
        };
        if members.is_empty() {
            return push_code(alloc, path, Code::EmptyList, found);
        }
        check_members(alloc, &Check::MatrixValue, path, members, found)
    }
}

/// The rule for `include` and `exclude`: a list of objects.
#[derive(Clone, Copy)]
struct Patterns;

impl Rule for Patterns {
    ghost use Rattle.workflow_lint.specs.InMatrix.{patterns_at};

    ghost findings = { λ _. patterns_at };

    fn check(
        &self,
        alloc: Global,
        path: &str,
        value: &Value,
        found: &mut Vec<Finding>,
    ) -> Result<(), AllocError> {
        match value.as_array() {
            Some(values) => check_items(alloc, &Pattern, path, values.as_slice(), found),
            None => push_code(alloc, path, Code::MatrixValue, found),
        }
    }
}

fn check_variable(
    alloc: Global,
    path: &str,
    value: &Value,
    found: &mut Vec<Finding>,
) -> Result<(), AllocError>
    ensures { OnOk result (found.new.items ≡ found.old.items ++ variable_at path.now (view value.now)) }
{
    let Some(values) = value.as_array() else {
        return push_code(alloc, path, Code::MatrixValue, found);
    };
    if values.is_empty() {
        return push_code(alloc, path, Code::EmptyList, found);
    }
    check_items(alloc, &Check::MatrixValue, path, values.as_slice(), found)
}

fn check_variables(
    alloc: Global,
    path: &str,
    members: &Map<String, Value>,
    found: &mut Vec<Finding>,
) -> Result<(), AllocError>
    ensures { OnOk result (found.new.items ≡ found.old.items
        ++ members_at variable_at path.now
        (map (λ e. (string_bytes e.0, view e.1)) (filter (λ e. is_variable_name (string_bytes e.0)) members.now.entries))) }
{
    for (name, value) in members {
        let name = name.as_str();
        if !is_variable_name(name) {
            continue;
        }
        let path = member_path(alloc, path, name)?;
        check_variable(alloc, path.as_str(), value, found)?;
    }
    Ok(())
}

fn check_inside(
    alloc: Global,
    path: &str,
    value: &Value,
    members: &Map<String, Value>,
    found: &mut Vec<Finding>,
) -> Result<(), AllocError>
    requires { Some (members_view members.now.entries) ≡ as_object (view value.now) }
    ensures { OnOk result (found.new.items ≡ found.old.items ++ inside_matrix_at path.now (view value.now)) }
{
    check_member(alloc, &Patterns, path, value, "include", found)?;
    check_member(alloc, &Patterns, path, value, "exclude", found)?;
    check_variables(alloc, path, members, found)
}

/// The rule for a `matrix`.
#[derive(Clone, Copy)]
pub(crate) struct Matrix;

impl Rule for Matrix {
    ghost use Rattle.workflow_lint.specs.InMatrix.{matrix_at};

    ghost findings = { λ _. matrix_at };

    fn check(
        &self,
        alloc: Global,
        path: &str,
        value: &Value,
        found: &mut Vec<Finding>,
    ) -> Result<(), AllocError> {
        match value.as_object() {
            Some(members) => check_inside(alloc, path, value, members, found),
            None => push_code(alloc, path, Code::StrategyMember, found),
        }
    }
}
