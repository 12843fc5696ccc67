//! A job: its id and its value.

ghost use Rattle.std.specs.Prelude.{◌≡◌, ◌++◌, OnOk};
ghost use Rattle.serde_json.specs.View.{view};
ghost use Rattle.wf_reader.specs.Faults.{fault_unless};
ghost use Rattle.wf_reader.specs.Job.{is_job_id};
ghost use Rattle.wf_value.specs.declared.code.Code.TheVariants.{JobId};
ghost use Rattle.workflow_lint.specs.Findings.{at};
ghost use Rattle.workflow_lint.specs.InJob.{inside_job_at, job_at, labels_at, legs_at, runs_on_at, start_at};

use crate::check::Check;
use crate::concurrency::ConcurrencyIn;
use crate::finding::{Finding, push_code};
use crate::paths::member_path;
use crate::rule::{Rule, check_items, check_member};
use crate::strategy::Strategy;
use serde_json::Value;
use std::alloc::{AllocError, Global};
use wf_expr::ContextSite;
use wf_reader::is_job_id;
use wf_value::Code;

/// Checks a value of `runs-on`: a text, or a list of texts.
fn check_labels(
    alloc: Global,
    path: &str,
    value: &Value,
    found: &mut Vec<Finding>,
) -> Result<(), AllocError>
    ensures { OnOk result (found.new.items ≡ found.old.items ++ labels_at path.now (view value.now)) }
{
    if let Some(labels) = value.as_array() {
        if labels.is_empty() {
            return push_code(alloc, path, Code::NoLabels, found);
        }
        return check_items(alloc, &Check::Label, path, labels.as_slice(), found);
    }
    if value.is_object() {
        return push_code(alloc, path, Code::LeftOut, found);
    }
    Check::Label.check(alloc, path, value, found)
}

fn check_runs_on(
    alloc: Global,
    path: &str,
    job: &Value,
    found: &mut Vec<Finding>,
) -> Result<(), AllocError>
    ensures { OnOk result (found.new.items ≡ found.old.items ++ runs_on_at path.now (view job.now)) }
{
    let Some(value) = job.get("runs-on") else {
        return push_code(alloc, path, Code::NoLabels, found);
    };
    let path = member_path(alloc, path, "runs-on")?;
    check_labels(alloc, path.as_str(), value, found)
}

/// The rule for `needs`: a text, or a list of texts.
#[derive(Clone, Copy)]
struct Needs;

impl Rule for Needs {
    ghost use Rattle.workflow_lint.specs.InJob.{needs_at};

    ghost findings = { λ _. needs_at };

    fn check(
        &self,
        alloc: Global,
        path: &str,
        value: &Value,
        found: &mut Vec<Finding>,
    ) -> Result<(), AllocError> {
        match value.as_array() {
            Some(needs) => check_items(alloc, &Check::Text, path, needs.as_slice(), found),
            None => Check::Text.check(alloc, path, value, found),
        }
    }
}

/// Checks where the job runs and when it starts: its `runs-on`, `needs` and `if`.
fn check_start(
    alloc: Global,
    path: &str,
    job: &Value,
    found: &mut Vec<Finding>,
) -> Result<(), AllocError>
    ensures { OnOk result (found.new.items ≡ found.old.items ++ start_at path.now (view job.now)) }
{
    check_runs_on(alloc, path, job, found)?;
    check_member(alloc, &Needs, path, job, "needs", found)?;
    check_member(alloc, &Check::Condition, path, job, "if", found)
}

/// Checks how the legs of the job run: its `continue-on-error`, `concurrency` and `strategy`.
fn check_legs(
    alloc: Global,
    path: &str,
    job: &Value,
    found: &mut Vec<Finding>,
) -> Result<(), AllocError>
    ensures { OnOk result (found.new.items ≡ found.old.items ++ legs_at path.now (view job.now)) }
{
    let site = ContextSite::Job;
    check_member(
        alloc,
        &Check::Flag(site),
        path,
        job,
        "continue-on-error",
        found,
    )?;
    check_member(
        alloc,
        &ConcurrencyIn { site },
        path,
        job,
        "concurrency",
        found,
    )?;
    check_member(alloc, &Strategy, path, job, "strategy", found)
}

fn check_inside(
    alloc: Global,
    path: &str,
    job: &Value,
    found: &mut Vec<Finding>,
) -> Result<(), AllocError>
    ensures { OnOk result (found.new.items ≡ found.old.items ++ inside_job_at path.now (view job.now)) }
{
    check_member(alloc, &Check::LeftOut, path, job, "uses", found)?;
    check_start(alloc, path, job, found)?;
    check_legs(alloc, path, job, found)
}

fn check_id(alloc: Global, path: &str, id: &str, found: &mut Vec<Finding>) -> Result<(), AllocError>
    ensures { OnOk result (found.new.items ≡ found.old.items ++ at path.now (fault_unless (is_job_id id.now) JobId)) }
{
    if is_job_id(id) {
        return Ok(());
    }
    push_code(alloc, path, Code::JobId, found)
}

/// Appends the findings of the job at a path.
pub(crate) fn check_job(
    alloc: Global,
    path: &str,
    id: &str,
    job: &Value,
    found: &mut Vec<Finding>,
) -> Result<(), AllocError>
    ensures { OnOk result (found.new.items ≡ found.old.items ++ job_at path.now id.now (view job.now)) }
{
    check_id(alloc, path, id, found)?;
    if job.is_object() {
        check_inside(alloc, path, job, found)
    } else {
        push_code(alloc, path, Code::WrongKind, found)
    }
}
