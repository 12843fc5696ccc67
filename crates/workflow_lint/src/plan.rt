//! The plan of a workflow without faults of its own: the matrices and the needs of its jobs.

ghost use Rattle.std.specs.Prelude.{◌≡◌, ◌++◌, IfOk, IsTrue, OnOk, map, option_to_list, string_bytes};
ghost use Rattle.wf_reader.specs.Faults.{outcome_faults};
ghost use Rattle.wf_reader.specs.JobOrder.{ids_rise};
ghost use Rattle.std.specs.List.{list_any};
ghost use Rattle.std.specs.Str.{bytes_eq};
ghost use Rattle.needs_graph.specs.Needs.{graph_of};
ghost use Rattle.run_plan.specs.PlanOf.{job_faults, needs_of_job};
ghost use Rattle.workflow_lint.specs.Plans.{matrices_found, matrix_found, need_found, needs_found, path_in_job, plan_found, unknown_found};
ghost use Rattle.workflow_lint.specs.Plans.{unknown_in};

use crate::check::fault_of;
use crate::finding::{Finding, push_if, push_refusal};
use crate::paths::{item_path, member_path};
use run_plan::{JobLegs, graph_of};
use std::alloc::{AllocError, Global};
use wf_reader::Job;
use wf_value::{Chars, Code, Refusal, Same};

fn path_in_job(alloc: Global, id: &str, name: &str) -> Result<String, AllocError>
    ensures { IfOk result (λ s. string_bytes s ≡ path_in_job id.now name.now) }
{
    let path = member_path(alloc, "jobs", id)?;
    member_path(alloc, path.as_str(), name)
}

// ---- matrices

fn matrix_fault(alloc: Global, job: &Job) -> Result<Option<Refusal>, AllocError>
    ensures { IfOk result (λ fault. option_to_list fault ≡ job_faults job.now) }
{
    fault_of(JobLegs::of(alloc, job))
}

fn check_matrix(alloc: Global, job: &Job, found: &mut Vec<Finding>) -> Result<(), AllocError>
    ensures { OnOk result (found.new.items ≡ found.old.items ++ matrix_found job.now) }
{
    let fault = matrix_fault(alloc, job)?;
    let path = path_in_job(alloc, job.id.as_str(), "strategy")?;
    let path = member_path(alloc, path.as_str(), "matrix")?;
    push_if(alloc, path.as_str(), fault, found)
}

fn check_matrices(alloc: Global, jobs: &[Job], found: &mut Vec<Finding>) -> Result<(), AllocError>
    ensures { OnOk result (found.new.items ≡ found.old.items ++ matrices_found jobs.now) }
{
    for job in jobs {
        check_matrix(alloc, job, found)?;
    }
    Ok(())
}

// ---- needs

fn is_job(jobs: &[Job], id: &Chars) -> bool
    ensures { result ≡ list_any (λ job. bytes_eq id.now job.id) jobs.now }
{
    jobs.iter().any(|job| id.same(&job.id))
}

#[tactic(auto, using(crate::proofs::Here::job_named))]
fn check_need(
    alloc: Global,
    jobs: &[Job],
    id: &str,
    i: usize,
    need: &Chars,
    found: &mut Vec<Finding>,
) -> Result<(), AllocError>
    ensures { OnOk result (found.new.items ≡ found.old.items ++ need_found (map needs_of_job jobs.now) id.now (i, need.now)) }
{
    if is_job(jobs, need) {
        return Ok(());
    }
    let path = path_in_job(alloc, id, "needs")?;
    let path = item_path(alloc, path.as_str(), i)?;
    push_refusal(
        alloc,
        path.as_str(),
        Refusal::Numbered(Code::UnknownNeed),
        found,
    )
}

fn check_needs_of(
    alloc: Global,
    jobs: &[Job],
    job: &Job,
    found: &mut Vec<Finding>,
) -> Result<(), AllocError>
    ensures { OnOk result (found.new.items ≡ found.old.items ++ unknown_in (map needs_of_job jobs.now) (needs_of_job job.now)) }
{
    let needs = job.needs.as_slice();
    for i in 0..needs.len() {
        check_need(alloc, jobs, job.id.as_str(), i, &needs[i], found)?;
    }
    Ok(())
}

/// One finding for each unknown id in `needs`.
fn unknown_needs(alloc: Global, jobs: &[Job]) -> Result<Vec<Finding>, AllocError>
    ensures { IfOk result (λ found. found.items ≡ unknown_found (map needs_of_job jobs.now)) }
{
    let mut found = Vec::new(alloc);
    for job in jobs {
        check_needs_of(alloc, jobs, job, &mut found)?;
    }
    Ok(found)
}

/// The fault of the graph of the jobs' needs, if any.
fn graph_fault(alloc: Global, jobs: &[Job]) -> Result<Option<Refusal>, AllocError>
    requires { IsTrue (ids_rise jobs.now) }
    ensures { IfOk result (λ fault. option_to_list fault ≡ outcome_faults (graph_of (map needs_of_job jobs.now))) }
{
    fault_of(graph_of(alloc, jobs))
}

/// The findings of the jobs' needs: each unknown id, or, if all are known, a cycle.
fn needs_found(alloc: Global, jobs: &[Job]) -> Result<Vec<Finding>, AllocError>
    requires { IsTrue (ids_rise jobs.now) }
    ensures { IfOk result (λ found. found.items ≡ needs_found (map needs_of_job jobs.now)) }
{
    let mut found = unknown_needs(alloc, jobs)?;
    if found.is_empty() {
        let fault = graph_fault(alloc, jobs)?;
        push_if(alloc, "jobs", fault, &mut found)?;
    }
    Ok(found)
}

/// The findings of the plan of a workflow's jobs.
pub(crate) fn plan_found(alloc: Global, jobs: &[Job]) -> Result<Vec<Finding>, AllocError>
    requires { IsTrue (ids_rise jobs.now) }
    ensures { IfOk result (λ found. found.items ≡ plan_found jobs.now) }
{
    let mut found = Vec::new(alloc);
    check_matrices(alloc, jobs, &mut found)?;
    let mut needs = needs_found(alloc, jobs)?;
    found.append(&mut needs)?;
    Ok(found)
}
