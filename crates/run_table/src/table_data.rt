//! The contents of a table, and a step of it. The modules below carry out the commands.

ghost use Rattle.std.specs.Prelude.{◌≡◌, true, false, Ok, IfOk, OnErr, IsOk};
ghost use Rattle.wf_value.specs.Gives.{Gives};
ghost use Rattle.run_plan.specs.ReplyText.{carries_text};
ghost use Rattle.table_model.specs.inner.Claims.{is_claim};
ghost use Rattle.table_model.specs.Sound.{IsSound};
ghost use Rattle.table_model.specs.Step.{empty, is_allocation_free, read_only_reply, refused, step};
ghost use Rattle.table_model.specs.TableState.{names_rise};

mod admissions;
mod cancellations;
mod claims;
mod discharges;
mod forgetting;
mod held;
mod ids;
mod losses;
mod reads;
mod reports;
mod reruns;

use crate::runner::Runner;
use crate::runners::Runners;
use forgotten_runs::ForgottenRuns;
use run_plan::{Command, Reply};
use std::alloc::Global;
use std::marker::Model;
use table_model::Run;
use table_runs::runs::Runs;
use wf_value::{Code, Refusal, TryCopy};

/// The contents of a table: the last lease granted, what is kept of the forgotten runs, the other runs and the runners.
#[derive(Drop)]
pub struct TableData {
    pub(crate) last_lease: u32,
    pub(crate) forgotten: ForgottenRuns,
    pub(crate) runs: Runs,
    pub(crate) runners: Runners,
}

impl Model for TableData {
    ghost use Rattle.table_model.specs.TableState.{TableState};

    ghost Value = { TableState };

    ghost view = { λ t. record { last_lease = t.last_lease; forgotten = t.forgotten; runs = t.runs; runners = t.runners } };
}

impl TableData {
    /// A table without runs or runners.
    pub(crate) fn new(alloc: Global) -> Self
        ensures { result ≡ empty }
    {
        TableData {
            last_lease: 0,
            forgotten: ForgottenRuns::none(alloc),
            runs: Runs::new(alloc),
            runners: Runners::new(alloc),
        }
    }

    pub(crate) fn last_lease(&self) -> u32
        ensures { result ≡ self.now.last_lease }
    {
        self.last_lease
    }

    pub(crate) fn runs(&self) -> &[Run]
        ensures { result.now ≡ self.now.runs }
    {
        self.runs.as_slice()
    }

    pub(crate) fn runners(&self) -> &[Runner]
        ensures runners { result.now ≡ self.now.runners }
        ensures rise { names_rise self.now.runners ≡ true }
    {
        self.runners.as_slice()
    }

    /// How often settling has tried a rule at a site. No contract depends on it.
    pub(crate) fn tries(&self) -> u64 {
        self.runs.tries()
    }

    /// Carries out a command, applies the settling rules to a fixpoint and returns the reply. The table's refusals, 40
    /// to 45, 48 and 49, are replies. The only error is 50, which leaves the table unchanged. A reply that changes
    /// nothing and holds no text is given even when out of memory.
    pub(crate) fn step(&mut self, alloc: Global, command: &Command) -> Result<Reply, Refusal>
        requires { IsSound self.old }
        ensures step { Gives (λ reply. (self.new, reply)) result (Ok (step self.old command.now)) }
        ensures err { OnErr result (self.new ≡ self.old) }
        ensures answers { is_allocation_free (read_only_reply self.old command.now) ≡ true → IsOk result }
    {
        match command {
            Command::Admit(prepared) => self.admit(alloc, prepared),
            Command::Claim(claim) => {
                let (reply, _copy) = self.claim(alloc, claim)?;
                Ok(reply)
            }
            Command::Done(report) => self.report(alloc, report),
            Command::Beat(beat) => Ok(self.beat(beat)),
            Command::Cancel(id) => Ok(self.cancel(*id)),
            Command::Lost(runner) => self.lose(alloc, runner),
            Command::Look(id) => self.show(alloc, *id),
            Command::Fetch(id) => self.fetch(*id),
            Command::Rerun(requested) => self.rerun(alloc, requested),
            Command::Forget(id) => self.forget(alloc, *id),
            Command::Discharge(runner) => Ok(self.discharge(runner)),
        }
    }

    /// Carries out a command as `step` does and returns the reply with a copy of it. If memory for the copy runs out,
    /// the table is unchanged too: the memory for a leg's new lease is allocated before the first change, and no other
    /// change has a reply with text. A reply that changes nothing and holds no text is given, with its copy, even when
    /// out of memory.
    pub(crate) fn step_with_copy(
        &mut self,
        alloc: Global,
        command: &Command,
    ) -> Result<(Reply, Reply), Refusal>
        requires { IsSound self.old }
        ensures step { Gives (λ replies. (self.new, replies.0)) result (Ok (step self.old command.now)) }
        ensures copy { IfOk result (λ replies. replies.1 ≡ replies.0) }
        ensures err { OnErr result (self.new ≡ self.old) }
        ensures answers { is_allocation_free (read_only_reply self.old command.now) ≡ true → IsOk result }
    {
        match command {
            Command::Claim(claim) => self.claim(alloc, claim),
            _ => self.step_then_copy(alloc, command),
        }
    }

    /// Carries out a command other than a claim, then copies its reply.
    fn step_then_copy(
        &mut self,
        alloc: Global,
        command: &Command,
    ) -> Result<(Reply, Reply), Refusal>
        requires sound { IsSound self.old }
        requires other { is_claim command.now ≡ false }
        ensures step { Gives (λ replies. (self.new, replies.0)) result (Ok (step self.old command.now)) }
        ensures copy { IfOk result (λ replies. replies.1 ≡ replies.0) }
        ensures err { OnErr result (self.new ≡ self.old) }
        ensures answers { is_allocation_free (read_only_reply self.old command.now) ≡ true → IsOk result }
    {
        let reply = self.step(alloc, command)?;
        with_copy(alloc, reply)
    }
}

impl TryCopy for TableData {
    fn copy(&self, alloc: Global) -> Result<Self, Refusal> {
        Ok(TableData {
            last_lease: self.last_lease,
            forgotten: self.forgotten.copy(alloc)?,
            runs: self.runs.copy(alloc)?,
            runners: self.runners.copy(alloc)?,
        })
    }
}

fn refused(code: Code) -> Reply
    ensures { result ≡ refused code }
{
    Reply::Refused(Refusal::Numbered(code))
}

/// Returns a reply with a copy of it. Only a text takes memory.
fn with_copy(alloc: Global, reply: Reply) -> Result<(Reply, Reply), Refusal>
    ensures gives { Gives (λ replies. replies) result (Ok (reply, reply)) }
    ensures answers { carries_text reply ≡ false → IsOk result }
{
    let copy = reply.copy(alloc)?;
    Ok((reply, copy))
}
