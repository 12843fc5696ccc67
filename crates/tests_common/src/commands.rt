//! Commands, made of their words. Words that do not form a command are refused with 75.

use run_plan::{
    Attempt, Beat, Claim, Command, DeliveryId, Done, EventName, Labels, Number, Prepared,
    RunnerName, SharedBody, prepare,
};
use std::alloc::Global;
use wf_value::{Code, Outcome, Refusal};

/// A command in words: the delivery and the body of a `push`, what a runner sends, a runner, a run, or an attempt of a run.
#[derive(Drop)]
pub enum Words<'a> {
    Admit(&'a str, &'a str),
    Claim(&'a str, &'a str, &'a str),
    Done(&'a str, &'a str, &'a str, Outcome),
    Beat(&'a str, &'a str),
    Cancel(&'a str),
    Lost(&'a str),
    Look(&'a str),
    Fetch(&'a str),
    Rerun(&'a str, &'a str),
    Forget(&'a str),
    Discharge(&'a str),
}

/// A value that must be present.
pub fn present<T: Drop>(found: Option<T>) -> Result<T, Refusal> {
    match found {
        Some(value) => Ok(value),
        None => Err(Refusal::Numbered(Code::Line)),
    }
}

pub fn number(text: &str) -> Result<Number, Refusal> {
    present(Number::of(text.as_bytes()))
}

pub fn labels(alloc: Global, text: &str) -> Result<Labels, Refusal> {
    present(Labels::of(alloc, text.as_bytes())?)
}

fn runner(alloc: Global, text: &str) -> Result<RunnerName, Refusal> {
    present(RunnerName::of(alloc, text.as_bytes())?)
}

fn delivery(alloc: Global, text: &str) -> Result<DeliveryId, Refusal> {
    present(DeliveryId::of(alloc, text.as_bytes())?)
}

fn event(alloc: Global, text: &str) -> Result<EventName, Refusal> {
    present(EventName::of(alloc, text.as_bytes())?)
}

/// The event with this name, delivery id and body.
pub fn prepared(alloc: Global, id: &str, name: &str, body: &str) -> Result<Prepared, Refusal> {
    let event = event(alloc, name)?;
    let delivery = delivery(alloc, id)?;
    let body = body.as_bytes().to_vec(alloc)?;
    prepare(alloc, event, delivery, body)
}

/// The body of an admitted event.
pub fn shared_body(alloc: Global, body: &str) -> Result<SharedBody, Refusal> {
    SharedBody::of(&prepared(alloc, "d1", "push", body)?)
}

pub fn claim(alloc: Global, name: &str, count: &str, label_list: &str) -> Result<Claim, Refusal> {
    let number = number(count)?;
    let runner = runner(alloc, name)?;
    let labels = labels(alloc, label_list)?;
    Ok(Claim {
        runner,
        number,
        labels,
    })
}

pub fn done(
    alloc: Global,
    name: &str,
    count: &str,
    lease: &str,
    outcome: Outcome,
) -> Result<Done, Refusal> {
    let lease = number(lease)?;
    let number = number(count)?;
    Ok(Done {
        runner: runner(alloc, name)?,
        number,
        lease,
        result: outcome,
    })
}

pub fn beat(alloc: Global, name: &str, lease: &str) -> Result<Beat, Refusal> {
    let lease = number(lease)?;
    let runner = runner(alloc, name)?;
    Ok(Beat { runner, lease })
}

pub fn attempt(run: &str, attempt: &str) -> Result<Attempt, Refusal> {
    Ok(Attempt {
        run: number(run)?,
        attempt: number(attempt)?,
    })
}

/// The command of what a runner sends, or that the runner is lost or discharged.
fn command_of_runner(alloc: Global, words: &Words<'_>) -> Result<Command, Refusal> {
    match words {
        Words::Claim(name, count, labels) => Ok(Command::Claim(claim(alloc, name, count, labels)?)),
        Words::Done(name, count, lease, outcome) => {
            Ok(Command::Done(done(alloc, name, count, lease, *outcome)?))
        }
        Words::Beat(name, lease) => Ok(Command::Beat(beat(alloc, name, lease)?)),
        Words::Lost(name) => Ok(Command::Lost(runner(alloc, name)?)),
        Words::Discharge(name) => Ok(Command::Discharge(runner(alloc, name)?)),
        _ => Err(Refusal::Numbered(Code::Line)),
    }
}

pub fn command_of(alloc: Global, words: &Words<'_>) -> Result<Command, Refusal> {
    match words {
        Words::Admit(id, body) => Ok(Command::Admit(prepared(alloc, id, "push", body)?)),
        Words::Cancel(run) => Ok(Command::Cancel(number(run)?)),
        Words::Look(run) => Ok(Command::Look(number(run)?)),
        Words::Fetch(run) => Ok(Command::Fetch(number(run)?)),
        Words::Rerun(run, next) => Ok(Command::Rerun(attempt(run, next)?)),
        Words::Forget(run) => Ok(Command::Forget(number(run)?)),
        words => command_of_runner(alloc, words),
    }
}
