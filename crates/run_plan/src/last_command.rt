ghost use Rattle.std.specs.Prelude.{◌≡◌, Ok, false};
ghost use Rattle.wf_value.specs.Gives.{Gives};
ghost use Rattle.run_plan.specs.LastCommand.{is_last_claim, is_last_report, kept_reply};
ghost use Rattle.run_plan.specs.ReplyText.{carries_text};

use crate::boxed_lease::BoxedLease;
use crate::command::{Claim, Done};
use crate::number::Number;
use crate::reply::{Lease, Reply};
use std::alloc::Global;
use wf_value::{Refusal, Same, TryCopy};

/// A lease that is kept as the reply to a claim, with two values that its reply omits: the attempt of its run, and the index of its
/// job, from 0. With them the reply can be repeated when the run is at a later attempt, in which no leg has the lease.
#[derive(Drop)]
pub struct KeptLease {
    pub lease_reply: Lease,
    pub attempt: Number,
    pub job: usize,
}

/// The reply to a claim that was in order.
#[derive(Drop)]
pub enum ClaimReply {
    Nothing,
    Lease(KeptLease),
}

/// The last numbered command of a runner, and the reply to it. A repetition gets the same reply.
#[derive(Drop)]
pub enum LastCommand {
    Claim(Claim, ClaimReply),
    /// A report. Its reply is `ok`.
    Done(Done),
}

impl TryCopy for KeptLease {
    fn copy(&self, alloc: Global) -> Result<Self, Refusal> {
        Ok(KeptLease {
            lease_reply: self.lease_reply.copy(alloc)?,
            attempt: self.attempt,
            job: self.job,
        })
    }
}

impl TryCopy for ClaimReply {
    fn copy(&self, alloc: Global) -> Result<Self, Refusal> {
        match self {
            ClaimReply::Nothing => Ok(ClaimReply::Nothing),
            ClaimReply::Lease(lease) => Ok(ClaimReply::Lease(lease.copy(alloc)?)),
        }
    }
}

impl TryCopy for LastCommand {
    fn copy(&self, alloc: Global) -> Result<Self, Refusal> {
        match self {
            LastCommand::Claim(claim, reply) => {
                Ok(LastCommand::Claim(claim.copy(alloc)?, reply.copy(alloc)?))
            }
            LastCommand::Done(done) => Ok(LastCommand::Done(done.copy(alloc)?)),
        }
    }
}

impl LastCommand {
    /// A copy of the kept reply. Only a lease takes memory.
    pub fn reply(&self, alloc: Global) -> Result<Reply, Refusal>
        ensures gives { Gives (λ r. r) result (Ok (kept_reply self.now)) }
        ensures answers { carries_text (kept_reply self.now) ≡ false → result ≡ Ok (kept_reply self.now) }
    {
        match self {
            LastCommand::Claim(_, ClaimReply::Nothing) => Ok(Reply::Nothing),
            LastCommand::Claim(_, ClaimReply::Lease(kept)) => {
                let lease_reply = kept.lease_reply.copy(alloc)?;
                Ok(Reply::Lease(BoxedLease::new(alloc, lease_reply)?))
            }
            LastCommand::Done(_) => Ok(Reply::Ok),
        }
    }

    /// Whether it is this claim.
    /// Promise (Bodies, plans and replies): A claim, or a report, is the runner's last one again exactly where every field is the same; the kept
    ///   reply is the definition's
    /// By: `run_plan::LastCommand::{is_claim, is_report}`; `run_plan::LastCommand::reply`, `gives`, `answers`
    pub fn is_claim(&self, claim: &Claim) -> bool
        ensures { result ≡ is_last_claim claim.now self.now }
    {
        match self {
            LastCommand::Claim(last, _) => last.same(claim),
            LastCommand::Done(_) => false,
        }
    }

    /// Whether it is this report.
    pub fn is_report(&self, done: &Done) -> bool
        ensures { result ≡ is_last_report done.now self.now }
    {
        match self {
            LastCommand::Claim(_, _) => false,
            LastCommand::Done(last) => last.same(done),
        }
    }
}
