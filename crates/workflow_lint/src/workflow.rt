//! The text of a workflow.

ghost use Rattle.std.specs.Prelude.{◌≡◌, ◌++◌, IfOk, List, ℕ, Ok, OnOk, codes, map, option_and_then, option_map, string_bytes};
ghost use Rattle.serde_json.specs.Find.{as_object, get};
ghost use Rattle.serde_json.specs.View.{members_view, view};
ghost use Rattle.wf_reader.specs.Json.{member_at, members_of};
ghost use Rattle.wf_reader.specs.Workflow.{workflow_faults, workflow_of};
ghost use Rattle.run_plan.specs.PlanOf.{plan_faults};
ghost use Rattle.wf_value.specs.Gives.{Gives};
ghost use Rattle.workflow_lint.specs.Findings.{refusals};
ghost use Rattle.workflow_lint.specs.InWorkflow.{each_job_at, found_in_text, inside_workflow_at, jobs_at, workflow_at};
ghost use Rattle.workflow_lint.specs.Plans.{first_of, found_in};

use crate::check::Check;
use crate::concurrency::ConcurrencyIn;
use crate::finding::{Finding, push_code, push_refusal};
use crate::job::check_job;
use crate::paths::member_path;
use crate::plan::plan_found;
use crate::rule::check_member;
use serde_json::{Map, Value};
use std::alloc::{AllocError, Global};
use wf_expr::ContextSite;
use wf_reader::{MAX_JOBS, read_body, read_workflow};
use wf_value::{Code, Refusal};

fn check_each_job(
    alloc: Global,
    jobs: &Map<String, Value>,
    found: &mut Vec<Finding>,
) -> Result<(), AllocError>
    ensures { OnOk result (found.new.items ≡ found.old.items
        ++ each_job_at (map (λ e. (string_bytes e.0, view e.1)) jobs.now.entries)) }
{
    for (id, job) in jobs {
        let id = id.as_str();
        let path = member_path(alloc, "jobs", id)?;
        check_job(alloc, path.as_str(), id, job, found)?;
    }
    Ok(())
}

/// Checks the members of `jobs`, of which there is at least one.
fn check_members(
    alloc: Global,
    jobs: &Map<String, Value>,
    found: &mut Vec<Finding>,
) -> Result<(), AllocError>
    ensures { OnOk result (found.new.items ≡ found.old.items ++ jobs_at (map (λ e. (string_bytes e.0, view e.1)) jobs.now.entries)) }
{
    if jobs.is_empty() {
        return push_code(alloc, "jobs", Code::WrongKind, found);
    }
    if jobs.len() > MAX_JOBS {
        push_code(alloc, "jobs", Code::TooManyJobs, found)?;
    }
    check_each_job(alloc, jobs, found)
}

/// The members of `jobs`, if it is an object.
fn jobs_of(workflow: &Value) -> Option<&Map<String, Value>>
    ensures { option_map (λ m. members_view m.now.entries) result ≡ option_and_then as_object (get (codes "jobs") (view workflow.now)) }
{
    match workflow.get("jobs") {
        Some(jobs) => jobs.as_object(),
        None => None,
    }
}

#[tactic(auto, using(crate::proofs::Here::no_jobs))]
fn check_jobs(alloc: Global, workflow: &Value, found: &mut Vec<Finding>) -> Result<(), AllocError>
    ensures { OnOk result (found.new.items ≡ found.old.items ++ jobs_at (members_of (member_at (codes "jobs") (view workflow.now)))) }
{
    match jobs_of(workflow) {
        Some(jobs) => check_members(alloc, jobs, found),
        None => push_code(alloc, "jobs", Code::WrongKind, found),
    }
}

fn check_inside(alloc: Global, workflow: &Value, found: &mut Vec<Finding>) -> Result<(), AllocError>
    ensures { OnOk result (found.new.items ≡ found.old.items ++ inside_workflow_at (view workflow.now)) }
{
    check_member(alloc, &Check::Text, "", workflow, "name", found)?;
    let site = ContextSite::Workflow;
    check_member(
        alloc,
        &ConcurrencyIn { site },
        "",
        workflow,
        "concurrency",
        found,
    )?;
    check_jobs(alloc, workflow, found)
}

fn check_workflow(
    alloc: Global,
    workflow: &Value,
    found: &mut Vec<Finding>,
) -> Result<(), AllocError>
    ensures { OnOk result (found.new.items ≡ found.old.items ++ workflow_at (view workflow.now)) }
{
    if workflow.is_object() {
        check_inside(alloc, workflow, found)
    } else {
        push_code(alloc, "", Code::WrongKind, found)
    }
}

#[tactic(auto, using(crate::proofs::Texts::found_in_value, crate::proofs::Texts::found_without))]
fn found_in_text(alloc: Global, bytes: &[u8]) -> Result<Vec<Finding>, AllocError>
    ensures { IfOk result (λ found. found.items ≡ found_in_text bytes.now) }
{
    let mut found = Vec::new(alloc);
    match read_body(alloc, bytes) {
        Ok(value) => {
            check_workflow(alloc, &value, &mut found)?;
            Ok(found)
        }
        Err(Refusal::Numbered(Code::NoMemory)) => Err(AllocError),
        Err(refusal) => {
            push_refusal(alloc, "", refusal, &mut found)?;
            Ok(found)
        }
    }
}

/// Finds all faults of a workflow's text or, if there are none, all faults of its plan. The list is empty if and only if
/// `read_workflow` and `check_plan` accept the workflow; otherwise its first finding is their refusal. The only `Err` is 50 (out of
/// memory).
/// GitHub Docs, "Workflow syntax for GitHub Actions"; RFC 8259.
/// Refusal (The layers below): `workflow_lint`: `lint`, `finding_line`; `table_views`: `run_line`, `runners_text`, `queue_text`
/// When: 50; of `finding_line` `std::alloc::AllocError`
/// Afterwards: nothing is made
/// By: one clause each (`Gives`, but of `finding_line`)
pub fn lint(alloc: Global, bytes: &[u8]) -> Result<Vec<Finding>, Refusal>
    ensures { Gives (λ found. found.items) result (Ok (found_in bytes.now)) }
{
    let found = found_in_text(alloc, bytes)?;
    if !found.is_empty() {
        return Ok(found);
    }
    let workflow = read_workflow(alloc, bytes)?;
    Ok(plan_found(alloc, workflow.jobs.as_slice())?)
}

/// The faults found in a text are those of `wf_reader`, in the same order. The first of all findings is the refusal of the reader
/// or of the plan.
/// Promise (The program): The faults of `acts lint` are those of its reader, in the same order. The first is the one that `acts check` refuses
///   with, so there is none exactly where nothing is refused
/// By: `workflow_lint::lint_finds_the_faults`, `text`, `first`
pub fn lint_finds_the_faults()
    ensures text { (bytes : List ℕ) → refusals (found_in_text bytes) ≡ workflow_faults bytes }
    ensures first { (bytes : List ℕ) → first_of (refusals (found_in bytes))
        ≡ first_of (workflow_faults bytes ++ plan_faults (workflow_of bytes)) }
{}
