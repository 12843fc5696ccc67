ghost use Rattle.std.specs.Prelude.{◌≡◌, Ok, None, Some, option_map, false};
ghost use Rattle.wf_value.specs.Gives.{Gives};
ghost use Rattle.table_model.specs.Step.{reply_through};
ghost use Rattle.table_model.specs.TableState.{holds_lease, holds_this};

use run_plan::{Claim, ClaimReply, Done, LastCommand, Number, RunnerName};
use std::alloc::Global;
use std::marker::Model;
use wf_value::{Refusal, TryCopy};

/// The table's record of a runner: its last numbered command with the kept reply, and the lease that it holds.
#[derive(Drop)]
pub struct Runner {
    pub name: RunnerName,
    /// The number of its last command.
    pub number: Number,
    pub last: LastCommand,
    /// The lease that it holds.
    pub holds: Option<Number>,
}

impl Model for Runner {
    ghost use Rattle.table_model.specs.TableState.{RunnerState};

    ghost Value = { RunnerState };

    ghost view = { λ r. record { name = r.name; number = r.number; last = r.last; holds = r.holds } };
}

impl Runner {
    ghost use Rattle.table_model.specs.Step.{claiming_runner, released, reporting_runner, runner_through};

    /// The record of a runner after its claim.
    pub(crate) fn claiming(
        alloc: Global,
        claim: &Claim,
        holds: Option<Number>,
        reply: ClaimReply,
    ) -> Result<Self, Refusal>
        ensures { Gives (λ r. r) result (Ok (claiming_runner claim.now holds reply)) }
    {
        Ok(Runner {
            name: claim.runner.copy(alloc)?,
            number: claim.number,
            last: LastCommand::Claim(claim.copy(alloc)?, reply),
            holds,
        })
    }

    /// The record of a runner after its report.
    pub(crate) fn reporting(alloc: Global, report: &Done) -> Result<Self, Refusal>
        ensures { Gives (λ r. r) result (Ok (reporting_runner report.now)) }
    {
        Ok(Runner {
            name: report.runner.copy(alloc)?,
            number: report.number,
            last: LastCommand::Done(report.copy(alloc)?),
            holds: None,
        })
    }

    /// The runner, holding no lease.
    pub(crate) fn released(&self, alloc: Global) -> Result<Self, Refusal>
        ensures { Gives (λ r. r) result (Ok (released self.now)) }
    {
        Ok(Runner {
            name: self.name.copy(alloc)?,
            number: self.number,
            last: self.last.copy(alloc)?,
            holds: None,
        })
    }

    /// Forgets the lease that is kept as its last reply, if its run is forgotten: the runs with ids through this one are.
    pub(crate) fn forget_lease(&mut self, through: u32)
        ensures { self.new ≡ runner_through through self.old }
    {
        match &mut self.last {
            LastCommand::Claim(_, reply) => forget_lease_in(reply, through),
            LastCommand::Done(_) => {}
        }
    }

    fn holds_this(&self, lease: Number) -> bool
        ensures { result ≡ holds_this lease (Some self.now) }
    {
        match self.holds {
            Some(held) => held.get() == lease.get(),
            None => false,
        }
    }
}

impl TryCopy for Runner {
    fn copy(&self, alloc: Global) -> Result<Self, Refusal> {
        Ok(Runner {
            name: self.name.copy(alloc)?,
            number: self.number,
            last: self.last.copy(alloc)?,
            holds: self.holds,
        })
    }
}

/// A lease of a run that is forgotten is no longer the reply.
fn forget_lease_in(reply: &mut ClaimReply, through: u32)
    ensures { reply.new ≡ reply_through through reply.old }
{
    let is_over = match reply {
        ClaimReply::Nothing => false,
        ClaimReply::Lease(kept) => kept.lease_reply.run.get() <= through,
    };
    if is_over {
        *reply = ClaimReply::Nothing;
    }
}

/// Whether there is a runner and it holds a lease.
pub fn holds_lease(runner: Option<&Runner>) -> bool
    ensures { result ≡ holds_lease (option_map (λ r. r.now) runner.entry) }
{
    match runner {
        Some(runner) => runner.holds.is_some(),
        None => false,
    }
}

/// Whether there is a runner and it holds this lease.
pub fn holds_this(runner: Option<&Runner>, lease: Number) -> bool
    ensures { result ≡ holds_this lease (option_map (λ r. r.now) runner.entry) }
{
    match runner {
        Some(runner) => runner.holds_this(lease),
        None => false,
    }
}
