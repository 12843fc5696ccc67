ghost use Rattle.std.specs.Prelude.{◌≡◌, false, IfOk, Ok, string_bytes};
ghost use Rattle.wf_value.specs.Gives.{Gives};
ghost use Rattle.run_plan.specs.ReplyText.{again_line, body_lines, carries_text, lease_line, lease_text, reply_text};

use crate::boxed_lease::BoxedLease;
use crate::combo_text::text_of_combo;
use crate::command::Attempt;
use crate::number::Number;
use crate::shared_body::SharedBody;
use std::alloc::{AllocError, Global};
use wf_value::{Chars, Combo, Refusal, Same, TryCopy};

/// A leg that is leased to a runner.
#[derive(Drop)]
pub struct Lease {
    pub lease: Number,
    pub run: Number,
    pub job: Chars,
    /// The leg's index within its job, from 0.
    pub leg: usize,
    pub combo: Combo,
}

impl TryCopy for Lease {
    fn copy(&self, alloc: Global) -> Result<Self, Refusal> {
        Ok(Lease {
            lease: self.lease,
            run: self.run,
            job: self.job.copy(alloc)?,
            leg: self.leg,
            combo: self.combo.copy(alloc)?,
        })
    }
}

impl Same for Lease {
    fn same(&self, other: &Self) -> bool {
        self.lease == other.lease
            && self.run == other.run
            && self.job.same(&other.job)
            && self.leg == other.leg
            && self.combo.same(&other.combo)
    }
}

impl Lease {
    fn text(&self, alloc: Global) -> Result<Chars, Refusal>
        ensures { Gives (λ t. t) result (Ok (lease_text self.now)) }
    {
        let combo = text_of_combo(alloc, &self.combo)?;
        let lease = self.lease.get();
        let run = self.run.get();
        let line = lease_line(
            alloc,
            lease,
            run,
            self.job.as_str(),
            self.leg,
            combo.as_str(),
        )?;
        Ok(Chars::new(line))
    }
}

fn lease_line(
    alloc: Global,
    lease: u32,
    run: u32,
    job: &str,
    leg: usize,
    combo: &str,
) -> Result<String, AllocError>
    ensures { IfOk result (λ s. string_bytes s ≡ lease_line lease run job.now leg combo.now) }
{
    format!(in alloc; "lease {lease} {run} {job} {leg} {combo}")
}

/// The length of the body, and the body.
fn body_lines(alloc: Global, body: &str) -> Result<String, AllocError>
    ensures { IfOk result (λ s. string_bytes s ≡ body_lines body.now) }
{
    let length = body.len();
    format!(in alloc; "body {length}\n{body}")
}

fn again_line(alloc: Global, run: u32, attempt: u32) -> Result<String, AllocError>
    ensures { IfOk result (λ s. string_bytes s ≡ again_line run attempt) }
{
    format!(in alloc; "again {run} {attempt}")
}

/// A reply to a command.
#[derive(Drop)]
pub enum Reply {
    /// The run that the delivery created.
    Created(Number),
    Lease(BoxedLease),
    /// No leg is ready for the runner.
    Nothing,
    Ok,
    /// The runner stops work on the leg and reports how it ended.
    Stop,
    GoOn,
    /// The printed view of a run.
    Run(Chars),
    /// The admitted body of a run.
    Body(SharedBody),
    /// The current attempt of the run.
    Again(Attempt),
    /// The last id that is forgotten, and with it all before: 0 to 999,999,999.
    Forgotten(u32),
    /// 40 to 45, 48 and 49. The table is unchanged.
    Refused(Refusal),
}

impl TryCopy for Reply {
    /// Only a text takes memory.
    /// Promise (Bodies, plans and replies): A copy of a command or reply is equal; comparison is exact, memory or not; a reply without a text is
    ///   copied memory or not
    /// By: `run_plan::Reply::copy`, `answers`; `wf_value::TryCopy::copy` and `wf_value::Same::same` of each type of `run_plan`
    fn copy(&self, alloc: Global) -> Result<Self, Refusal>
        ensures gives { Gives (λ r. r) result (Ok self.now) }
        ensures answers { carries_text self.now ≡ false → result ≡ Ok self.now }
    {
        match self {
            Reply::Created(run) => Ok(Reply::Created(*run)),
            Reply::Lease(lease) => Ok(Reply::Lease(lease.copy(alloc)?)),
            Reply::Nothing => Ok(Reply::Nothing),
            Reply::Ok => Ok(Reply::Ok),
            Reply::Stop => Ok(Reply::Stop),
            Reply::GoOn => Ok(Reply::GoOn),
            Reply::Run(view) => Ok(Reply::Run(view.copy(alloc)?)),
            Reply::Body(body) => Ok(Reply::Body(body.copy(alloc)?)),
            Reply::Again(attempt) => Ok(Reply::Again(*attempt)),
            Reply::Forgotten(last) => Ok(Reply::Forgotten(*last)),
            Reply::Refused(refusal) => Ok(Reply::Refused(refusal.copy(alloc)?)),
        }
    }
}

impl Same for Reply {
    fn same(&self, other: &Self) -> bool {
        match (self, other) {
            (Reply::Created(one), Reply::Created(other)) => *one == *other,
            (Reply::Lease(one), Reply::Lease(other)) => one.same(other),
            (Reply::Nothing, Reply::Nothing) => true,
            (Reply::Ok, Reply::Ok) => true,
            (Reply::Stop, Reply::Stop) => true,
            (Reply::GoOn, Reply::GoOn) => true,
            (Reply::Run(one), Reply::Run(other)) => one.same(other),
            (Reply::Body(one), Reply::Body(other)) => one.same(other),
            (Reply::Again(one), Reply::Again(other)) => one.same(other),
            (Reply::Forgotten(one), Reply::Forgotten(other)) => *one == *other,
            (Reply::Refused(one), Reply::Refused(other)) => one.same(other),
            _ => false,
        }
    }
}

impl Reply {
    /// The printed reply.
    /// Promise (Bodies, plans and replies): A printed reply is the definition's text
    /// By: `run_plan::Reply::text`
    pub fn text(&self, alloc: Global) -> Result<Chars, Refusal>
        ensures { Gives (λ t. t) result (Ok (reply_text self.now)) }
    {
        match self {
            Reply::Created(run) => {
                let run = run.get();
                Ok(Chars::new(format!(in alloc; "created {run}")?))
            }
            Reply::Lease(lease) => lease.get().text(alloc),
            Reply::Nothing => Chars::from_str(alloc, "nothing"),
            Reply::Ok => Chars::from_str(alloc, "ok"),
            Reply::Stop => Chars::from_str(alloc, "stop"),
            Reply::GoOn => Chars::from_str(alloc, "go on"),
            Reply::Run(view) => view.copy(alloc),
            Reply::Body(body) => Ok(Chars::new(body_lines(alloc, body.as_str())?)),
            Reply::Again(again) => {
                let (run, attempt) = (again.run.get(), again.attempt.get());
                Ok(Chars::new(again_line(alloc, run, attempt)?))
            }
            Reply::Forgotten(last) => {
                let last = *last;
                Ok(Chars::new(format!(in alloc; "forgotten {last}")?))
            }
            Reply::Refused(refusal) => refusal.text(alloc),
        }
    }
}
