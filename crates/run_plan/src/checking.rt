ghost use Rattle.wf_value.specs.Gives.{Gives};
ghost use Rattle.wf_reader.specs.Faults.{unless_faulty};
ghost use Rattle.run_plan.specs.PlanOf.{legs_faults, plan_faults};

use crate::job_graph::graph_of;
use crate::job_legs::JobLegs;
use std::alloc::Global;
use wf_reader::{Job, Workflow};
use wf_value::Refusal;

/// Checks whether a workflow has a plan, without making one. It refuses the same workflows as `plan`.
/// Promise (Bodies, plans and replies): A workflow has no plan exactly where a matrix is 21 or 22, job by job, or else its needs are 13 or 14;
///   the first is answered
/// By: `run_plan::check_plan`; of an event `run_plan::prepare`; `run_plan::plan`
pub fn check_plan(alloc: Global, workflow: &Workflow) -> Result<(), Refusal>
    ensures { Gives (λ u. u) result (unless_faulty (plan_faults workflow.now) tt) }
{
    let jobs = workflow.jobs.as_slice();
    check_legs(alloc, jobs)?;
    graph_of(alloc, jobs)?;
    Ok(())
}

/// Refuses the first fault of the jobs' matrices.
fn check_legs(alloc: Global, jobs: &[Job]) -> Result<(), Refusal>
    ensures { Gives (λ u. u) result (unless_faulty (legs_faults jobs.now) tt) }
{
    for job in jobs {
        JobLegs::of(alloc, job)?;
    }
    Ok(())
}
