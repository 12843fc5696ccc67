use crate::labels::Labels;
use crate::number::Number;
use crate::prepared::Prepared;
use crate::small_text::RunnerName;
use std::alloc::Global;
use wf_value::{Outcome, Refusal, Same, TryCopy};

/// A runner's request for a leg to run.
#[derive(Drop)]
pub struct Claim {
    pub runner: RunnerName,
    /// The runner's last number plus one, or the last number again.
    pub number: Number,
    pub labels: Labels,
}

/// A runner's report on how the leg of a lease ended.
#[derive(Drop)]
pub struct Done {
    pub runner: RunnerName,
    /// The runner's last number plus one, or the last number again.
    pub number: Number,
    pub lease: Number,
    pub result: Outcome,
}

/// A runner's heartbeat, which asks whether to go on with the leg of a lease.
#[derive(Drop)]
pub struct Beat {
    pub runner: RunnerName,
    pub lease: Number,
}

/// An attempt of a run: 1 on admission, and one higher for each re-run.
#[derive(Clone, Copy)]
pub struct Attempt {
    pub run: Number,
    pub attempt: Number,
}

/// A command to the service.
#[derive(Drop)]
pub enum Command {
    /// Admits a run.
    Admit(Prepared),
    Claim(Claim),
    Done(Done),
    Beat(Beat),
    /// Cancels the run with this id.
    Cancel(Number),
    /// Reports that a runner is lost, together with its leg.
    Lost(RunnerName),
    /// Views the run with this id.
    Look(Number),
    /// Fetches the admitted body of the run with this id.
    Fetch(Number),
    /// Starts this attempt of a completed run, or repeats that command.
    Rerun(Attempt),
    /// Forgets the first runs of the table that have completed, up to this id.
    Forget(Number),
    /// Forgets a runner that holds no lease.
    Discharge(RunnerName),
}

impl TryCopy for Command {
    fn copy(&self, alloc: Global) -> Result<Self, Refusal> {
        match self {
            Command::Admit(prepared) => Ok(Command::Admit(prepared.share()?)),
            Command::Claim(claim) => Ok(Command::Claim(claim.copy(alloc)?)),
            Command::Done(done) => Ok(Command::Done(done.copy(alloc)?)),
            Command::Beat(beat) => Ok(Command::Beat(beat.copy(alloc)?)),
            Command::Cancel(run) => Ok(Command::Cancel(*run)),
            Command::Lost(runner) => Ok(Command::Lost(runner.copy(alloc)?)),
            Command::Look(run) => Ok(Command::Look(*run)),
            Command::Fetch(run) => Ok(Command::Fetch(*run)),
            Command::Rerun(attempt) => Ok(Command::Rerun(*attempt)),
            Command::Forget(run) => Ok(Command::Forget(*run)),
            Command::Discharge(runner) => Ok(Command::Discharge(runner.copy(alloc)?)),
        }
    }
}

impl Same for Command {
    fn same(&self, other: &Self) -> bool {
        match (self, other) {
            (Command::Admit(one), Command::Admit(other)) => one.same(other),
            (Command::Claim(one), Command::Claim(other)) => one.same(other),
            (Command::Done(one), Command::Done(other)) => one.same(other),
            (Command::Beat(one), Command::Beat(other)) => one.same(other),
            (Command::Cancel(one), Command::Cancel(other)) => *one == *other,
            (Command::Lost(one), Command::Lost(other)) => one.same(other),
            (Command::Look(one), Command::Look(other)) => *one == *other,
            (Command::Fetch(one), Command::Fetch(other)) => *one == *other,
            (Command::Rerun(one), Command::Rerun(other)) => one.same(other),
            (Command::Forget(one), Command::Forget(other)) => *one == *other,
            (Command::Discharge(one), Command::Discharge(other)) => one.same(other),
            _ => false,
        }
    }
}

impl TryCopy for Claim {
    fn copy(&self, alloc: Global) -> Result<Self, Refusal> {
        Ok(Claim {
            runner: self.runner.copy(alloc)?,
            number: self.number,
            labels: self.labels.copy(alloc)?,
        })
    }
}

impl Same for Claim {
    fn same(&self, other: &Self) -> bool {
        self.runner.same(&other.runner)
            && self.number == other.number
            && self.labels.same(&other.labels)
    }
}

impl TryCopy for Done {
    fn copy(&self, alloc: Global) -> Result<Self, Refusal> {
        Ok(Done {
            runner: self.runner.copy(alloc)?,
            number: self.number,
            lease: self.lease,
            result: self.result,
        })
    }
}

impl Same for Done {
    fn same(&self, other: &Self) -> bool {
        self.runner.same(&other.runner)
            && self.number == other.number
            && self.lease == other.lease
            && self.result == other.result
    }
}

impl TryCopy for Beat {
    fn copy(&self, alloc: Global) -> Result<Self, Refusal> {
        Ok(Beat {
            runner: self.runner.copy(alloc)?,
            lease: self.lease,
        })
    }
}

impl Same for Attempt {
    fn same(&self, other: &Self) -> bool {
        self.run == other.run && self.attempt == other.attempt
    }
}

impl Same for Beat {
    fn same(&self, other: &Self) -> bool {
        self.runner.same(&other.runner) && self.lease == other.lease
    }
}
