//! Handles a claim: leases the first leg that fits to the runner, or replies that there is none.

ghost use Rattle.std.specs.Prelude.{◌≡◌, ◌<◌, true, length, Ok, IfErr, IfOk, OnErr, IsOk, is_some, Some};
ghost use Rattle.std.specs.Option.{option_map_or};
ghost use Rattle.definitions.specs.Limits.{last_number};
ghost use Rattle.wf_value.specs.Gives.{Gives, no_memory};
ghost use Rattle.table_model.specs.Fitting.{first_fit};
ghost use Rattle.table_model.specs.Sound.{IsSound};
ghost use Rattle.table_model.specs.Runs.{run_at};
ghost use Rattle.table_model.specs.Step.{claim_answer, claimed, claiming, claiming_runner, is_allocation_free, kept_lease_at};
ghost use Rattle.table_model.specs.Step.{lease_answer, lease_at, leasing, outcome, serving_nothing, unchanged};
ghost use Rattle.run_table.specs.inner.IndexNamed.{index_named};
ghost use Rattle.run_plan.specs.declared.last_command.ClaimReply.TheVariants as given;

use crate::leases::kept_lease;
use crate::runner::{Runner, holds_lease};
use crate::sequence_numbers::answer_to_claim;
use crate::table_data::{TableData, refused, with_copy};
use run_plan::{BoxedLease, Claim, ClaimReply, LAST_NUMBER, Number, Reply};
use std::alloc::Global;
use table_model::LegSite;
use table_runs::fit::first_fit;
use table_runs::runs::Runs;
use wf_value::{Code, Refusal, TryCopy};

impl TableData {
    pub(super) fn claim(&mut self, alloc: Global, claim: &Claim) -> Result<(Reply, Reply), Refusal>
        requires { IsSound self.old }
        ensures step { Gives (λ replies. (self.new, replies.0)) result (Ok (outcome (claimed self.old claim.now))) }
        ensures copy { IfOk result (λ replies. replies.1 ≡ replies.0) }
        ensures err { OnErr result (self.new ≡ self.old) }
        ensures answers { is_allocation_free (claim_answer self.old claim.now) ≡ true → IsOk result }
    {
        let index = self.runners.index_named(&claim.runner);
        let runner = self.runners.at(index, &claim.runner);
        if let Some(reply) = answer_to_claim(alloc, runner, claim)? {
            return with_copy(alloc, reply);
        }
        if holds_lease(runner) {
            return Ok((refused(Code::HasLease), refused(Code::HasLease)));
        }
        self.claim_in_sequence(alloc, claim, index)
    }

    /// Handles a claim of a runner that holds no lease and whose number is next in its sequence. `index` is that
    /// of the runner.
    fn claim_in_sequence(
        &mut self,
        alloc: Global,
        claim: &Claim,
        index: usize,
    ) -> Result<(Reply, Reply), Refusal>
        requires sound { IsSound self.old }
        requires index { index ≡ index_named self.old.runners claim.now.runner }
        ensures step { Gives (λ replies. (self.new, replies.0)) result
            (Ok (outcome (option_map_or (unchanged self.old) (lease_answer self.old claim.now) (claiming self.old claim.now)))) }
        ensures copy { IfOk result (λ replies. replies.1 ≡ replies.0) }
        ensures err { OnErr result (self.new ≡ self.old) }
        ensures answers { is_some (lease_answer self.old claim.now) ≡ true → IsOk result }
    {
        match first_fit(claim.labels.as_slice(), &self.runs) {
            None => self.serve_nothing(alloc, claim, index),
            Some(_) if self.last_lease >= LAST_NUMBER => {
                Ok((refused(Code::LastCounter), refused(Code::LastCounter)))
            }
            Some(leg) => self.lease(alloc, claim, index, leg),
        }
    }

    /// Records a claim that no leg fits and replies that there is nothing. No settling rule applied before, so none
    /// applies after.
    fn serve_nothing(
        &mut self,
        alloc: Global,
        claim: &Claim,
        index: usize,
    ) -> Result<(Reply, Reply), Refusal>
        requires sound { IsSound self.old }
        requires index { index ≡ index_named self.old.runners claim.now.runner }
        ensures step { Gives (λ replies. (self.new, replies.0)) result (Ok (outcome (serving_nothing self.old claim.now))) }
        ensures copy { IfOk result (λ replies. replies.1 ≡ replies.0) }
        ensures err { OnErr result (self.new ≡ self.old) }
    {
        let runner = Runner::claiming(alloc, claim, None, ClaimReply::Nothing)?;
        self.runners.put(index, runner)?;
        Ok((Reply::Nothing, Reply::Nothing))
    }

    /// Leases the leg to the runner under a new number. It allocates all memory before the first change.
    fn lease(
        &mut self,
        alloc: Global,
        claim: &Claim,
        index: usize,
        leg: LegSite,
    ) -> Result<(Reply, Reply), Refusal>
        requires sound { IsSound self.old }
        requires index { index ≡ index_named self.old.runners claim.now.runner }
        requires fits { first_fit claim.now.labels self.old.runs ≡ Some leg }
        requires left { self.old.last_lease < last_number }
        ensures step { Gives (λ replies. (self.new, replies.0)) result (Ok (outcome (leasing self.old claim.now leg))) }
        ensures copy { IfOk result (λ replies. replies.1 ≡ replies.0) }
        ensures err { OnErr result (self.new ≡ self.old) }
    {
        let lease = Number::new(self.last_lease + 1);
        let (runner, lease_reply, copy) = runner_and_replies(alloc, claim, &self.runs, leg, lease)?;
        self.runners.put(index, runner)?;
        self.last_lease = lease.get();
        self.runs.lease(leg, lease);
        self.runs.settle();
        Ok((Reply::Lease(lease_reply), Reply::Lease(copy)))
    }
}

/// The record of a runner that gets the leg, and the reply to it with a copy.
fn runner_and_replies(
    alloc: Global,
    claim: &Claim,
    runs: &Runs,
    site: LegSite,
    lease: Number,
) -> Result<(Runner, BoxedLease, BoxedLease), Refusal>
    requires { site.run < length runs.now }
    ensures runner { let at = kept_lease_at runs.now site lease in
        IfOk result (λ kept. kept.0 ≡ claiming_runner claim.now (Some lease) (given.Lease at)) }
    ensures lease_reply { IfOk result (λ kept. kept.1 ≡ lease_at runs.now site lease) }
    ensures copy { IfOk result (λ kept. kept.2 ≡ lease_at runs.now site lease) }
    ensures refused { IfErr result (λ e. e ≡ no_memory) }
{
    let attempt = attempt_at(runs, site.run);
    let kept = kept_lease(alloc, runs, attempt, site, lease)?;
    let lease_reply = BoxedLease::new(alloc, kept.lease_reply.copy(alloc)?)?;
    let copy = lease_reply.copy(alloc)?;
    let runner = Runner::claiming(alloc, claim, Some(lease), ClaimReply::Lease(kept))?;
    Ok((runner, lease_reply, copy))
}

/// The current attempt of the run at an index.
fn attempt_at(runs: &Runs, r: usize) -> Number
    requires { r < length runs.now }
    ensures { result ≡ option_map_or (λ x. x.attempt) (run_at runs.now r) 0 }
{
    runs.as_slice()[r].attempt()
}
