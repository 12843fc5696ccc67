//! Checks of values whose contents are not inspected further.

ghost use Rattle.std.specs.Prelude.{◌≡◌, Err, IfOk, IsErr, is_some, option_to_list};
ghost use Rattle.serde_json.specs.View.{view};
ghost use Rattle.wf_value.specs.Gives.{no_memory};
ghost use Rattle.wf_reader.specs.Faults.{fault_unless, outcome_faults};
ghost use Rattle.wf_reader.specs.Job.{flag_faults, label_faults};
ghost use Rattle.wf_reader.specs.Json.{scalar_in};
ghost use Rattle.workflow_lint.specs.Checks.{faults_by};

use crate::finding::{Finding, push_if};
use crate::rule::Rule;
use serde_json::Value;
use std::alloc::{AllocError, Global};
use wf_expr::ContextSite;
use wf_reader::{condition_in, flag_of, max_parallel_in, read_label, scalar_of};
use wf_value::{Code, Refusal};

/// What a value is required to be.
#[derive(Clone, Copy)]
pub(crate) enum Check {
    Text,
    /// A text that is a template of a job.
    Label,
    /// A boolean, or a text that is a template.
    Flag(ContextSite),
    Condition,
    FailFast,
    MaxParallel,
    MatrixValue,
    /// No value: the member is not supported.
    LeftOut,
}

fn fault_unless(passes: bool, code: Code) -> Option<Refusal>
    ensures { option_to_list result ≡ fault_unless passes code }
{
    if passes {
        None
    } else {
        Some(Refusal::Numbered(code))
    }
}

/// The fault with which the reader or the planner refuses, if any. Out of memory is no fault of the workflow.
pub(crate) fn fault_of<T: Drop>(outcome: Result<T, Refusal>) -> Result<Option<Refusal>, AllocError>
    ensures fault { IfOk result (λ fault. option_to_list fault ≡ outcome_faults outcome) }
    ensures memory { outcome ≡ Err no_memory → IsErr result }
{
    match outcome {
        Ok(_) => Ok(None),
        Err(Refusal::Numbered(Code::NoMemory)) => Err(AllocError),
        Err(refusal) => Ok(Some(refusal)),
    }
}

fn label_fault(alloc: Global, value: &Value) -> Result<Option<Refusal>, AllocError>
    ensures { IfOk result (λ fault. option_to_list fault ≡ label_faults (view value.now)) }
{
    fault_of(read_label(alloc, value))
}

fn flag_fault(
    alloc: Global,
    site: ContextSite,
    value: &Value,
) -> Result<Option<Refusal>, AllocError>
    ensures { IfOk result (λ fault. option_to_list fault ≡ flag_faults site (view value.now)) }
{
    fault_of(flag_of(alloc, value, site))
}

/// Whether a value is allowed in a matrix.
fn is_scalar(value: &Value) -> bool
    ensures { result ≡ is_some (scalar_in (view value.now)) }
{
    scalar_of(value).is_some()
}

fn fault_by(alloc: Global, check: Check, value: &Value) -> Result<Option<Refusal>, AllocError>
    ensures { IfOk result (λ fault. option_to_list fault ≡ faults_by check (view value.now)) }
{
    let fault = match check {
        Check::Text => fault_unless(value.is_string(), Code::WrongKind),
        Check::Label => label_fault(alloc, value)?,
        Check::Flag(site) => flag_fault(alloc, site, value)?,
        Check::Condition => fault_unless(condition_in(value).is_some(), Code::Condition),
        Check::FailFast => fault_unless(value.is_boolean(), Code::StrategyMember),
        Check::MaxParallel => fault_unless(max_parallel_in(value).is_some(), Code::StrategyMember),
        Check::MatrixValue => fault_unless(is_scalar(value), Code::MatrixValue),
        Check::LeftOut => Some(Refusal::Numbered(Code::LeftOut)),
    };
    Ok(fault)
}

impl Rule for Check {
    ghost use Rattle.workflow_lint.specs.Checks.{found_by};

    ghost findings = { found_by };

    fn check(
        &self,
        alloc: Global,
        path: &str,
        value: &Value,
        found: &mut Vec<Finding>,
    ) -> Result<(), AllocError> {
        let fault = fault_by(alloc, *self, value)?;
        push_if(alloc, path, fault, found)
    }
}
