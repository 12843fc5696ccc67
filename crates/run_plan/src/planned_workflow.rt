//! The workflow of an event, planned. Events of the same workflow may share it.

ghost use Rattle.std.specs.Prelude.{◌≡◌, ◌<◌, ◌≤◌, Err, IfOk, false, length};
ghost use Rattle.std.specs.Str.{is_utf8};
ghost use Rattle.definitions.specs.Limits.{max_body};
ghost use Rattle.wf_value.specs.declared.code.Code.TheVariants.{NotJson, TooLong};
ghost use Rattle.wf_value.specs.declared.refusal.Refusal.TheVariants.{Numbered};
ghost use Rattle.wf_value.specs.Gives.{Gives};
ghost use Rattle.wf_reader.specs.Event.{event_of};
ghost use Rattle.wf_reader.specs.Faults.{unless_faulty};
ghost use Rattle.run_plan.specs.PlanOf.{faults_of, plan_of};
ghost use Rattle.run_plan.specs.inner.PlannedWorkflows.{IsOrigin, IsPlanned};

use crate::planned::Plan;
use crate::planning::plan_jobs;
use crate::same_templates::same_concurrency;
use std::alloc::Global;
use wf_reader::{Concurrency, Contexts, Event, Jobs, Workflow, read_event};
use wf_value::{Chars, Refusal, Same};

/// Where the workflow of an event is from, and its plan.
#[derive(Drop)]
pub(crate) struct PlannedWorkflow {
    pub repo: Chars,
    pub path: Chars,
    pub name: Chars,
    pub concurrency: Option<Concurrency>,
    pub plan: Plan,
}

impl Same for PlannedWorkflow {
    fn same(&self, other: &Self) -> bool {
        self.repo.same(&other.repo)
            && self.path.same(&other.path)
            && self.name.same(&other.name)
            && same_concurrency(&self.concurrency, &other.concurrency)
            && self.plan.same(&other.plan)
    }
}

/// The contents of an event except the jobs of its workflow.
#[derive(Drop)]
struct Origin {
    repo: Chars,
    path: Chars,
    contexts: Contexts,
    name: Chars,
    concurrency: Option<Concurrency>,
}

/// Splits an event into the jobs of its workflow and the rest.
fn origin_and_jobs(event: Event) -> (Origin, Jobs)
    ensures origin { IsOrigin result.0 event }
    ensures jobs { result.1 ≡ event.workflow.jobs }
{
    let Event {
        repo,
        path,
        contexts,
        workflow,
    } = event;
    let Workflow {
        name,
        concurrency,
        jobs,
    } = workflow;
    let origin = Origin {
        repo,
        path,
        contexts,
        name,
        concurrency,
    };
    (origin, jobs)
}

/// The origin of a body and the plan of its workflow, or the first fault.
fn origin_and_plan(alloc: Global, body: &[u8]) -> Result<(Origin, Plan), Refusal>
    ensures gives { Gives (λ p. p.1) result (unless_faulty (faults_of body.now) (plan_of body.now)) }
    ensures origin { IfOk result (λ p. IsOrigin p.0 (event_of body.now)) }
    ensures too_long { max_body < length body.now → result ≡ Err (Numbered TooLong) }
    ensures no_text { length body.now ≤ max_body → is_utf8 body.now ≡ false → result ≡ Err (Numbered NotJson) }
{
    let read = read_event(alloc, body)?;
    let (origin, jobs) = origin_and_jobs(read);
    let plan = plan_jobs(alloc, jobs)?;
    Ok((origin, plan))
}

/// The contexts of a body and its workflow, planned, or the first fault.
pub(crate) fn contexts_and_workflow(
    alloc: Global,
    body: &[u8],
) -> Result<(Contexts, PlannedWorkflow), Refusal>
    ensures gives { Gives (λ p. p.1.plan) result (unless_faulty (faults_of body.now) (plan_of body.now)) }
    ensures contexts { IfOk result (λ p. p.0 ≡ (event_of body.now).contexts) }
    ensures planned { IfOk result (λ p. IsPlanned p.1 (event_of body.now)) }
    ensures too_long { max_body < length body.now → result ≡ Err (Numbered TooLong) }
    ensures no_text { length body.now ≤ max_body → is_utf8 body.now ≡ false → result ≡ Err (Numbered NotJson) }
{
    let (origin, plan) = origin_and_plan(alloc, body)?;
    let Origin {
        repo,
        path,
        contexts,
        name,
        concurrency,
    } = origin;
    let workflow = PlannedWorkflow {
        repo,
        path,
        name,
        concurrency,
        plan,
    };
    Ok((contexts, workflow))
}
