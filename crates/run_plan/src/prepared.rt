ghost use Rattle.std.specs.Prelude.{◌≡◌, ◌<◌, ◌≤◌, [], Err, Ok, false, length, option_copied};
ghost use Rattle.std.specs.Str.{is_utf8};
ghost use Rattle.definitions.specs.Limits.{max_body};
ghost use Rattle.wf_value.specs.declared.code.Code.TheVariants.{NotJson, TooLong};
ghost use Rattle.wf_value.specs.declared.refusal.Refusal.TheVariants.{Numbered};
ghost use Rattle.wf_value.specs.Gives.{Gives};
ghost use Rattle.wf_reader.specs.Event.{event_of};
ghost use Rattle.wf_reader.specs.Faults.{unless_faulty};
ghost use Rattle.run_plan.specs.PlanOf.{faults_of, plan_of};

use crate::planned::Plan;
use crate::planned_workflow::{PlannedWorkflow, contexts_and_workflow};
use crate::small_text::{DeliveryId, EventName};
use crate::utf8::text_of;
use std::alloc::Global;
use std::marker::Model;
use std::sync::Arc;
use wf_reader::{Concurrency, Contexts};
use wf_value::{Chars, Refusal, Same};

/// What an event has alone.
#[derive(Drop)]
struct Admission {
    delivery: DeliveryId,
    event: EventName,
}

/// The bytes of an event, and the contexts in them.
#[derive(Drop)]
struct AdmittedBody {
    bytes: Vec<u8>,
    contexts: Contexts,
}

/// An event that is ready for admission. Its value does not change, and all shares refer to one copy in memory; events of the same
/// bytes may refer to one copy of these, and events of the same workflow to one copy of it. In contracts it is the delivery, the
/// event's name and the bytes, since everything else follows from them.
#[derive(Drop)]
pub struct Prepared {
    admission: Arc<Admission>,
    body: Arc<AdmittedBody>,
    workflow: Arc<PlannedWorkflow>,
}

impl Model for Prepared {
    ghost use Rattle.std.specs.Arc.{arc_value};
    ghost use Rattle.std.specs.Prelude.{◌≡◌, []};
    ghost use Rattle.wf_reader.specs.Event.{event_of};
    ghost use Rattle.definitions.specs.SmallText.{Admitted, coded_admitted};
    ghost use Rattle.run_plan.specs.PlanOf.{faults_of};
    ghost use Rattle.run_plan.specs.inner.PlannedWorkflows.{IsPlanned};

    ghost Value = { Admitted };

    ghost coded = { coded_admitted };

    ghost view = { λ p. let a = arc_value p.admission in
        record { delivery = a.delivery; event = a.event; body = (arc_value p.body).bytes.items } };

    ghost invariant = { λ p. let b = arc_value p.body in
        (faults_of b.bytes.items ≡ []) × (b.contexts ≡ (event_of b.bytes.items).contexts)
        × IsPlanned (arc_value p.workflow) (event_of b.bytes.items) };
}

impl Prepared {
    pub fn delivery(&self) -> &DeliveryId
        ensures { result.now ≡ self.now.delivery }
    {
        &self.admission.delivery
    }

    pub fn event(&self) -> &EventName
        ensures { result.now ≡ self.now.event }
    {
        &self.admission.event
    }

    /// The admitted bytes, which have no faults.
    /// Promise (Bodies, plans and replies): What is prepared is the delivery, name and bytes that were given, and its plan, repository, path and
    ///   contexts are those of the bytes
    /// By: `run_plan::Prepared::body`, `faultless`; `run_plan::Prepared::{plan, repo, path, contexts, workflow_name, concurrency}`
    pub fn body(&self) -> &[u8]
        ensures bytes { result.now ≡ self.now.body }
        ensures faultless { faults_of self.now.body ≡ [] }
    {
        self.body.bytes.as_slice()
    }

    /// The admitted bytes as text.
    #[tactic(auto, using(crate::proofs::BodyText::body_is_text))]
    pub fn body_text(&self) -> &str
        ensures { result.now ≡ self.now.body }
    {
        text_of(self.body())
    }

    /// The repository of the event.
    pub fn repo(&self) -> &Chars
        ensures { result.now ≡ (event_of self.now.body).repo }
    {
        &self.workflow.repo
    }

    /// The path of the workflow within the repository.
    pub fn path(&self) -> &Chars
        ensures { result.now ≡ (event_of self.now.body).path }
    {
        &self.workflow.path
    }

    /// The contexts `github`, `inputs` and `vars` that the sender supplied.
    pub fn contexts(&self) -> &Contexts
        ensures { result.now ≡ (event_of self.now.body).contexts }
    {
        &self.body.contexts
    }

    /// The `name` of the workflow, or the empty text if it is missing.
    pub fn workflow_name(&self) -> &Chars
        ensures { result.now ≡ (event_of self.now.body).workflow.name }
    {
        &self.workflow.name
    }

    /// The `concurrency` of the workflow, if any.
    pub fn concurrency(&self) -> Option<&Concurrency>
        ensures { option_copied result ≡ (event_of self.now.body).workflow.concurrency }
    {
        self.workflow.concurrency.as_ref()
    }

    /// The plan of the body's workflow.
    pub fn plan(&self) -> &Plan
        ensures { result.now ≡ plan_of self.now.body }
    {
        &self.workflow.plan
    }

    /// Another share of the event. It takes no memory; the only `Err` is 50, if the event already has 2^63 - 1 shares.
    /// Promise (Bodies, plans and replies): A share of a prepared event is equal to it, and so is the event once it refers to the workflow of
    ///   another. What memory either takes is in no clause
    /// By: `run_plan::Prepared::{share, share_workflow}`
    pub fn share(&self) -> Result<Self, Refusal>
        ensures { Gives (λ p. p) result (Ok self.now) }
    {
        Ok(Prepared {
            admission: Arc::try_clone(&self.admission)?,
            body: Arc::try_clone(&self.body)?,
            workflow: Arc::try_clone(&self.workflow)?,
        })
    }

    /// Another event with the same bytes, which refers to the copies that this one refers to.
    fn delivered_as(
        &self,
        alloc: Global,
        event: EventName,
        delivery: DeliveryId,
    ) -> Result<Self, Refusal>
        ensures { Gives (λ p. p) result (Ok (record { delivery = delivery; event = event; body = self.now.body })) }
    {
        let admission = Arc::new(alloc, Admission { delivery, event })?;
        Ok(Prepared {
            admission,
            body: Arc::try_clone(&self.body)?,
            workflow: Arc::try_clone(&self.workflow)?,
        })
    }

    /// Refers to the copy of the workflow that the other event refers to, if both have the same workflow. Only memory shows it.
    pub fn share_workflow(&mut self, other: &Prepared)
        ensures { self.new ≡ self.old }
    {
        if self.body() != other.body() && !self.workflow.same(&other.workflow) {
            return;
        }
        if let Ok(workflow) = Arc::try_clone(&other.workflow) {
            self.workflow = workflow;
        }
    }
}

impl Same for Prepared {
    fn same(&self, other: &Self) -> bool {
        self.delivery().same(other.delivery())
            && self.event().same(other.event())
            && self.body() == other.body()
    }
}

/// Prepares an event: reads and plans its body, and refuses the first fault, 10 to 26. Out of memory is 50. A body that is too long
/// or not UTF-8 is refused without taking memory.
/// Promise (Bodies, plans and replies): An event is prepared exactly where its body has no fault in event or plan
/// By: `run_plan::prepare`, `gives`
pub fn prepare(
    alloc: Global,
    event: EventName,
    delivery: DeliveryId,
    body: Vec<u8>,
) -> Result<Prepared, Refusal>
    ensures gives { Gives (λ p. p) result
        (unless_faulty (faults_of body.items) (record { delivery = delivery; event = event; body = body.items })) }

    // These two hold with or without memory:
    ensures too_long { max_body < length body.items → result ≡ Err (Numbered TooLong) }
    ensures no_text { length body.items ≤ max_body → is_utf8 body.items ≡ false
        → result ≡ Err (Numbered NotJson) }
{
    let (contexts, planned) = contexts_and_workflow(alloc, body.as_slice())?;
    let workflow = Arc::new(alloc, planned)?;
    let read = AdmittedBody {
        bytes: body,
        contexts,
    };
    let body = Arc::new(alloc, read)?;
    let admission = Arc::new(alloc, Admission { delivery, event })?;
    Ok(Prepared {
        admission,
        body,
        workflow,
    })
}

/// As `prepare`, of bytes that are copied only once they have no fault.
fn prepare_copy(
    alloc: Global,
    event: EventName,
    delivery: DeliveryId,
    body: &[u8],
) -> Result<Prepared, Refusal>
    ensures gives { Gives (λ p. p) result
        (unless_faulty (faults_of body.now) (record { delivery = delivery; event = event; body = body.now })) }
    ensures too_long { max_body < length body.now → result ≡ Err (Numbered TooLong) }
    ensures no_text { length body.now ≤ max_body → is_utf8 body.now ≡ false
        → result ≡ Err (Numbered NotJson) }
{
    let (contexts, planned) = contexts_and_workflow(alloc, body)?;
    let bytes = body.to_vec(alloc)?;
    let workflow = Arc::new(alloc, planned)?;
    let read = AdmittedBody { bytes, contexts };
    let body = Arc::new(alloc, read)?;
    let admission = Arc::new(alloc, Admission { delivery, event })?;
    Ok(Prepared {
        admission,
        body,
        workflow,
    })
}

/// As `prepare`. If the bytes are those of the latest event, they are neither read again nor copied. Others are copied only once they have no
/// fault.
/// Promise (Bodies, plans and replies): What is prepared does not depend on the latest event; that its bytes are not read again is in no clause
/// By: `run_plan::prepare_beside`, `gives`
pub fn prepare_beside(
    alloc: Global,
    latest: Option<&Prepared>,
    event: EventName,
    delivery: DeliveryId,
    body: &[u8],
) -> Result<Prepared, Refusal>
    ensures gives { Gives (λ p. p) result
        (unless_faulty (faults_of body.now) (record { delivery = delivery; event = event; body = body.now })) }

    // These two hold with or without memory:
    ensures too_long { max_body < length body.now → result ≡ Err (Numbered TooLong) }
    ensures no_text { length body.now ≤ max_body → is_utf8 body.now ≡ false
        → result ≡ Err (Numbered NotJson) }
{
    match latest {
        Some(latest) if latest.body() == body => latest.delivered_as(alloc, event, delivery),
        _ => prepare_copy(alloc, event, delivery, body),
    }
}
