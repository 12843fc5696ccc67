ghost use Rattle.std.specs.Prelude.{◌≡◌, Ok, map, true};
ghost use Rattle.std.specs.Option.{option_and_then, option_map_or};
ghost use Rattle.wf_value.specs.Gives.{Gives};
ghost use Rattle.wf_reader.specs.Faults.{unless_faulty};
ghost use Rattle.run_plan.specs.PlanOf.{combinations_where, job_faults, jobs_faults};
ghost use Rattle.run_plan.specs.PlanOf.{legs_faults, legs_of, plan_faults, planned_job, workflow_plan};

use crate::job_graph::graph_of;
use crate::planned::{Plan, PlannedJob, PlannedLeg};
use matrix_expand::expand;
use std::alloc::Global;
use wf_reader::{Job, Jobs, Strategy, Workflow};
use wf_value::{Combo, Matrix, Refusal, Sequence};

/// Makes the plan of a workflow, whose texts it takes over. The `Err` is, for the first job with a wrong matrix, 21 if the product
/// of the lengths of the matrix's lists is over 4,096, else 22 if it has no leg or more than 256; then 13 if a job needs an unknown
/// job, else 14 if a job is its own ancestor, with the ids of all such jobs. Out of memory is 50.
/// GitHub Docs, "Running variations of jobs in a workflow" and "Workflow syntax for GitHub Actions", `jobs.<job_id>.needs`.
/// Promise (Bodies, plans and replies): The plan has each job with its members and with a leg for each combination, in order
/// By: `run_plan::plan`; of an event `run_plan::prepare`; leg by leg `run_plan::JobLegs::{of, len, combination}`
/// Refusal (The layers below): `run_plan`: `plan`, `check_plan`, `JobLegs::of`
/// When: the first of these by job: exactly, with memory. 50
/// Afterwards: nothing is made
/// By: one clause each (`Gives`, `plan_faults`)
pub fn plan(alloc: Global, workflow: Workflow) -> Result<Plan, Refusal>
    ensures { Gives (λ p. p) result (unless_faulty (plan_faults workflow) (workflow_plan workflow)) }
{
    let Workflow { jobs, .. } = workflow;
    plan_jobs(alloc, jobs)
}

/// The plan of jobs, or their first fault.
pub fn plan_jobs(alloc: Global, jobs: Jobs) -> Result<Plan, Refusal>
    ensures { Gives (λ p. p) result (unless_faulty (jobs_faults jobs) (map planned_job jobs)) }
{
    // The faults of all matrices come before those of the needs.
    let graph = graph_of(alloc, jobs.as_slice());
    let planned = planned_jobs(alloc, jobs)?;
    Ok(Plan::new(planned, graph?))
}

/// The planned jobs, or the first fault of a matrix.
fn planned_jobs(alloc: Global, jobs: Jobs) -> Result<Sequence<PlannedJob>, Refusal>
    ensures { Gives (λ p. p) result (unless_faulty (legs_faults jobs) (map planned_job jobs)) }
{
    let jobs = jobs.into_vec();
    let mut planned = Vec::with_capacity(alloc, jobs.len())?;
    for job in jobs {
        planned.push(planned_job(alloc, job)?)?;
    }
    Ok(Sequence::new(planned))
}

fn planned_job(alloc: Global, job: Job) -> Result<PlannedJob, Refusal>
    ensures { Gives (λ j. j) result (unless_faulty (job_faults job) (planned_job job)) }
{
    let Job {
        id,
        labels,
        needs,
        condition,
        continue_on_error,
        concurrency,
        strategy,
    } = job;
    let Strategy {
        matrix,
        fail_fast,
        max_parallel,
    } = strategy_or_default(strategy);
    let combos = combinations(alloc, matrix)?;
    Ok(PlannedJob {
        id,
        labels,
        needs,
        condition,
        continue_on_error,
        concurrency,
        fail_fast,
        max_parallel,
        legs: legs_of(alloc, combos)?,
    })
}

/// The strategy of a job; the default has no matrix, fail-fast on, and no limit.
fn strategy_or_default(strategy: Option<Strategy>) -> Strategy
    ensures matrix { result.matrix ≡ option_and_then (λ s. s.matrix) strategy }
    ensures fail_fast { result.fail_fast ≡ option_map_or (λ s. s.fail_fast) strategy true }
    ensures max_parallel { result.max_parallel ≡ option_and_then (λ s. s.max_parallel) strategy }
{
    match strategy {
        Some(strategy) => strategy,
        None => Strategy {
            matrix: None,
            fail_fast: true,
            max_parallel: None,
        },
    }
}

/// The combinations of a job's legs: those of its matrix, or only the empty one.
fn combinations(alloc: Global, matrix: Option<Matrix>) -> Result<Vec<Combo>, Refusal>
    ensures { Gives (λ v. v.items) result (combinations_where matrix) }
{
    match matrix {
        Some(matrix) => expand(alloc, &matrix),
        None => {
            let mut combos = Vec::with_capacity(alloc, 1)?;
            combos.push(Combo::new(alloc))?;
            Ok(combos)
        }
    }
}

/// One leg for each combination, in order.
fn legs_of(alloc: Global, combos: Vec<Combo>) -> Result<Sequence<PlannedLeg>, Refusal>
    ensures { Gives (λ s. s) result (Ok (legs_of combos.items)) }
{
    let mut legs = Vec::with_capacity(alloc, combos.len())?;
    for combo in combos {
        legs.push(PlannedLeg { combo })?;
    }
    Ok(Sequence::new(legs))
}
