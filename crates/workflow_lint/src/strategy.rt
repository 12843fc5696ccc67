//! The `strategy` of a job.

ghost use Rattle.std.specs.Prelude.{◌≡◌, ◌++◌, OnOk, Some};
ghost use Rattle.serde_json.specs.Find.{as_object};
ghost use Rattle.serde_json.specs.View.{members_view, view};
ghost use Rattle.wf_reader.specs.Strategy.{names_faults};
ghost use Rattle.workflow_lint.specs.Findings.{at};
ghost use Rattle.workflow_lint.specs.InMatrix.{inside_strategy_at};

use crate::check::Check;
use crate::finding::{Finding, push_code};
use crate::matrix::Matrix;
use crate::rule::{Rule, check_member};
use serde_json::{Map, Value};
use std::alloc::{AllocError, Global};
use wf_reader::has_strategy_names;
use wf_value::Code;

fn check_names(
    alloc: Global,
    path: &str,
    value: &Value,
    members: &Map<String, Value>,
    found: &mut Vec<Finding>,
) -> Result<(), AllocError>
    requires { Some (members_view members.now.entries) ≡ as_object (view value.now) }
    ensures { OnOk result (found.new.items ≡ found.old.items ++ at path.now (names_faults (view value.now))) }
{
    if has_strategy_names(members) {
        return Ok(());
    }
    push_code(alloc, path, Code::StrategyMember, found)
}

fn check_inside(
    alloc: Global,
    path: &str,
    value: &Value,
    members: &Map<String, Value>,
    found: &mut Vec<Finding>,
) -> Result<(), AllocError>
    requires { Some (members_view members.now.entries) ≡ as_object (view value.now) }
    ensures { OnOk result (found.new.items ≡ found.old.items ++ inside_strategy_at path.now (view value.now)) }
{
    check_names(alloc, path, value, members, found)?;
    check_member(alloc, &Check::FailFast, path, value, "fail-fast", found)?;
    check_member(
        alloc,
        &Check::MaxParallel,
        path,
        value,
        "max-parallel",
        found,
    )?;
    check_member(alloc, &Matrix, path, value, "matrix", found)
}

/// The rule for a `strategy`.
#[derive(Clone, Copy)]
pub(crate) struct Strategy;

impl Rule for Strategy {
    ghost use Rattle.workflow_lint.specs.InMatrix.{strategy_at};

    ghost findings = { λ _. strategy_at };

    fn check(
        &self,
        alloc: Global,
        path: &str,
        value: &Value,
        found: &mut Vec<Finding>,
    ) -> Result<(), AllocError> {
        match value.as_object() {
            Some(members) => check_inside(alloc, path, value, members, found),
            None => push_code(alloc, path, Code::StrategyMember, found),
        }
    }
}
