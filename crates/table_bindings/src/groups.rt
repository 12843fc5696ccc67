//! What runs and legs ask of concurrency groups, bound when an attempt of a run begins. GitHub Docs, "Control the concurrency of workflows
//! and jobs".

ghost use Rattle.std.specs.Prelude.{◌≡◌, ℕ, IfOk, Some, length, slice_get};
ghost use Rattle.wf_value.specs.Gives.{ErrsOnlyByMemory};
ghost use Rattle.wf_expr.specs.Bound.{HasResults, Results};
ghost use Rattle.wf_expr.specs.TemplateValue.{Values};
ghost use Rattle.wf_reader.specs.Event.{event_of};
ghost use Rattle.table_model.specs.Groups.{concurrency_of_leg, run_context};
ghost use Rattle.table_model.specs.LegContext.{context_of, is_set};
ghost use Rattle.table_bindings.specs.BoundGroups.{Says, SaysSo, facts_by, is_set_by};
ghost use Rattle.table_bindings.specs.declared.groups.GroupRequest.{GroupRequest as RequestedOfGroup};

use crate::leg_needs::NoNeeds;
use crate::run_identity::RunIdentity;
use group_name::BoundGroup;
use run_plan::PlannedJob;
use std::alloc::Global;
use wf_expr::{BoundTemplate, Context, NeedResults, Needs};
use wf_reader::{Concurrency, Flag};
use wf_value::{Refusal, Sequence};

/// A flag: fixed, or a bound template.
#[derive(Drop)]
pub enum BoundFlag {
    Fixed(bool),
    Template(BoundTemplate),
}

/// What a run or a leg asks of a concurrency group.
#[derive(Drop)]
pub struct GroupRequest {
    pub group: BoundGroup,
    /// Whether it has cancel-in-progress.
    pub cancels: BoundFlag,
}

impl BoundFlag {
    pub(crate) fn bind<C: Context, N: Needs>(
        alloc: Global,
        flag: &Flag,
        known: &C,
        needs: &N,
    ) -> Result<Self, Refusal>
        ensures err { ErrsOnlyByMemory result }
        ensures says { IfOk result (λ kept. (results : Results) (values : Values)
            → HasResults (C.values known.now) (N.need_of needs.now) results values → is_set_by results kept ≡ is_set values flag.now) }
    {
        match flag {
            Flag::Fixed(set) => Ok(BoundFlag::Fixed(*set)),
            Flag::Template(template) => {
                let bound = template.bind(alloc, known, needs)?;
                Ok(BoundFlag::Template(bound))
            }
        }
    }

    /// Whether the flag is set, given the results. Takes no memory.
    pub fn is_set<R: NeedResults>(&self, results: &R) -> bool
        ensures { result ≡ is_set_by (R.result_of results.now) self.now }
    {
        match self {
            BoundFlag::Fixed(set) => *set,
            BoundFlag::Template(template) => template.sets_flag(results),
        }
    }
}

impl GroupRequest {
    fn bind<C: Context, N: Needs>(
        alloc: Global,
        repository: &str,
        requested: &Concurrency,
        known: &C,
        needs: &N,
    ) -> Result<Self, Refusal>
        ensures err { ErrsOnlyByMemory result }
        ensures says { IfOk result
            (λ kept. (values : Results → Values)
            → ((results : Results) → HasResults (C.values known.now) (N.need_of needs.now) results (values results))
            → Says repository.now values requested.now kept) }
    {
        let name = requested.group.bind(alloc, known, needs)?;
        let group = BoundGroup::of(alloc, repository, &name)?;
        let cancels = BoundFlag::bind(alloc, &requested.cancel_in_progress, known, needs)?;
        Ok(GroupRequest { group, cancels })
    }
}

pub(crate) fn bind_own(
    alloc: Global,
    identity: &RunIdentity<'_>,
) -> Result<Option<GroupRequest>, Refusal>
    ensures err { ErrsOnlyByMemory result }
    ensures says { IfOk result (λ own. let event = event_of identity.now.event.body in
        SaysSo event.repo (λ results. run_context identity.now) event.workflow.concurrency own) }
{
    let prepared = identity.prepared();
    let repository = prepared.repo().as_str();
    match prepared.concurrency() {
        Some(requested) => {
            let context = identity.run_context();
            let bound = GroupRequest::bind(alloc, repository, requested, &context, &NoNeeds)?;
            Ok(Some(bound))
        }
        None => Ok(None),
    }
}

/// What each leg of a job asks of a concurrency group.
pub(crate) fn bind_groups<'x>(
    alloc: Global,
    identity: &'x RunIdentity<'_>,
    j: usize,
    job: &'x PlannedJob,
) -> Result<Sequence<GroupRequest>, Refusal>
    ensures err { ErrsOnlyByMemory result }
    ensures says { IfOk result (λ legs. (l : ℕ)
        → SaysSo (event_of identity.now.event.body).repo (λ results. context_of (facts_by identity.now j job.now l results))
        (concurrency_of_leg job.now l) (slice_get legs l)) }
{
    match &job.concurrency {
        Some(requested) => {
            let legs = bind_each(alloc, identity, j, job, requested)?;
            Ok(Sequence::new(legs))
        }
        None => Ok(Sequence::new(Vec::new(alloc))),
    }
}

/// What each leg of a job with this `concurrency` asks: one element for each leg.
fn bind_each<'x>(
    alloc: Global,
    identity: &'x RunIdentity<'_>,
    j: usize,
    job: &'x PlannedJob,
    requested: &Concurrency,
) -> Result<Vec<GroupRequest>, Refusal>
    ensures err { ErrsOnlyByMemory result }
    ensures says { IfOk result (λ legs. (l : ℕ) (kept : RequestedOfGroup) → slice_get legs.items l ≡ Some kept
        → Says (event_of identity.now.event.body).repo (λ results. context_of (facts_by identity.now j job.now l results)) requested.now kept) }
    ensures each { IfOk result (λ legs. length legs.items ≡ length job.now.legs) }
{
    let repository = identity.prepared().repo().as_str();
    let needs = identity.leg_needs(j);
    let count = job.legs.as_slice().len();
    let mut legs = Vec::with_capacity(alloc, count)?;
    for leg in 0..count {
        let context = identity.leg_context(j, job, leg);
        let bound = GroupRequest::bind(alloc, repository, requested, &context, &needs)?;
        legs.push(bound)?;
    }
    Ok(legs)
}
