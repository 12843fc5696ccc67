ghost use Rattle.std.specs.Prelude.{◌≡◌, ◌≢◌, IfOk};
ghost use Rattle.wf_value.specs.RefusalText.{refusal_number};
ghost use Rattle.run_plan.specs.declared.command.Attempt.{Attempt};
ghost use Rattle.run_plan.specs.declared.command.Command.TheVariants as requested;
ghost use Rattle.command_encodings.specs.declared.decode_error.DecodeError.TheVariants.{NoEncoding};
ghost use Rattle.command_encodings.specs.Commands.{is_faultless};
ghost use Rattle.command_encodings.specs.inner.Reading.{Finds, kept, parts_at};
ghost use Rattle.command_encodings.specs.inner.ReadingCommands.{admit_at, rerun_at, batch_at, beat_at, claim_at, command_at, command_of, done_at};

use crate::decode_error::DecodeError;
use crate::fields::{is_within, labels_at, number_at, result_at, small_text_at};
use crate::list_reader::{ReadAt, list_at};
use crate::prefix::{text_at, word_at};
use run_plan::{
    Attempt, Beat, Claim, Command, DeliveryForm, DeliveryId, Done, EventForm, EventName, Number,
    Prepared, RunnerForm, prepare,
};
use std::alloc::Global;
use wf_value::{Code, Refusal};

/// The error for a refused body: out of memory, or not a valid body.
fn why(refusal: &Refusal) -> DecodeError
    ensures { result ≡ NoEncoding → refusal_number refusal.now ≢ 50 }
{
    if refusal.number() == Code::NoMemory.number() {
        return DecodeError::NoMemory;
    }
    DecodeError::NoEncoding
}

/// The event of a body, if the body has no faults.
fn prepared_of(
    alloc: Global,
    event: EventName,
    delivery: DeliveryId,
    body: &[u8],
) -> Result<Prepared, DecodeError>
    ensures body { Finds (λ p. p.body) result (kept is_faultless body.now) }
    ensures event { IfOk result (λ p. p ≡ record { delivery = delivery; event = event; body = body.now }) }
{
    let body = Vec::from_slice(alloc, body)?;
    match prepare(alloc, event, delivery, body) {
        Ok(prepared) => Ok(prepared),
        Err(refusal) => Err(why(&refusal)),
    }
}

#[tactic(auto, unfolding(crate::specs::inner::ReadingCommands::admit_at, crate::specs::inner::ReadingCommands::body_at))]
pub fn admit_at(alloc: Global, bytes: &[u8]) -> Result<(Prepared, &[u8]), DecodeError>
    ensures { Finds (λ f. (f.0, f.1.now)) result (admit_at bytes.now) }
{
    let (delivery, rest) = small_text_at::<DeliveryForm>(alloc, bytes)?;
    let (event, rest) = small_text_at::<EventForm>(alloc, rest)?;
    let (body, rest) = text_at(rest)?;
    let prepared = prepared_of(alloc, event, delivery, body)?;
    Ok((prepared, rest))
}

#[tactic(auto, unfolding(crate::specs::inner::ReadingCommands::claim_at))]
fn claim_at(alloc: Global, bytes: &[u8]) -> Result<(Claim, &[u8]), DecodeError>
    ensures { Finds (λ f. (f.0, f.1.now)) result (claim_at bytes.now) }
{
    let (runner, rest) = small_text_at::<RunnerForm>(alloc, bytes)?;
    let (number, rest) = number_at(rest)?;
    let (labels, rest) = labels_at(alloc, rest)?;
    let claim = Claim {
        runner,
        number: Number::new(number),
        labels,
    };
    Ok((claim, rest))
}

#[tactic(auto, unfolding(crate::specs::inner::ReadingCommands::done_at))]
fn done_at(alloc: Global, bytes: &[u8]) -> Result<(Done, &[u8]), DecodeError>
    ensures { Finds (λ f. (f.0, f.1.now)) result (done_at bytes.now) }
{
    let (runner, rest) = small_text_at::<RunnerForm>(alloc, bytes)?;
    let (number, rest) = number_at(rest)?;
    let (lease, rest) = number_at(rest)?;
    let (result, rest) = result_at(rest)?;
    let done = Done {
        runner,
        number: Number::new(number),
        lease: Number::new(lease),
        result,
    };
    Ok((done, rest))
}

#[tactic(auto, unfolding(crate::specs::inner::ReadingCommands::beat_at))]
fn beat_at(alloc: Global, bytes: &[u8]) -> Result<(Beat, &[u8]), DecodeError>
    ensures { Finds (λ f. (f.0, f.1.now)) result (beat_at bytes.now) }
{
    let (runner, rest) = small_text_at::<RunnerForm>(alloc, bytes)?;
    let (lease, rest) = number_at(rest)?;
    let beat = Beat {
        runner,
        lease: Number::new(lease),
    };
    Ok((beat, rest))
}

/// A re-run at the front of the bytes, and the bytes after it. It returns the whole command because an `Attempt` is
/// copied.
#[tactic(auto, unfolding(crate::specs::inner::ReadingCommands::rerun_at))]
fn rerun_at(bytes: &[u8]) -> Result<(Command, &[u8]), DecodeError>
    ensures { Finds (λ f. (f.0, f.1.now)) result (parts_at (λ (a : Attempt). requested.Rerun a) rerun_at bytes.now) }
{
    let (run, rest) = number_at(bytes)?;
    let (attempt, rest) = number_at(rest)?;
    let requests = Attempt {
        run: Number::new(run),
        attempt: Number::new(attempt),
    };
    Ok((Command::Rerun(requests), rest))
}

/// The command of a kind at the front of the bytes, and the bytes after it.
#[tactic(auto, unfolding(crate::specs::inner::ReadingCommands::command_of))]
fn command_of(alloc: Global, kind: u8, bytes: &[u8]) -> Result<(Command, &[u8]), DecodeError>
    ensures { Finds (λ f. (f.0, f.1.now)) result (command_of kind bytes.now) }
{
    match kind {
        1 => {
            let (prepared, rest) = admit_at(alloc, bytes)?;
            Ok((Command::Admit(prepared), rest))
        }
        2 => {
            let (claim, rest) = claim_at(alloc, bytes)?;
            Ok((Command::Claim(claim), rest))
        }
        3 => {
            let (done, rest) = done_at(alloc, bytes)?;
            Ok((Command::Done(done), rest))
        }
        4 => {
            let (beat, rest) = beat_at(alloc, bytes)?;
            Ok((Command::Beat(beat), rest))
        }
        5 => {
            let (run, rest) = number_at(bytes)?;
            Ok((Command::Cancel(Number::new(run)), rest))
        }
        6 => {
            let (runner, rest) = small_text_at::<RunnerForm>(alloc, bytes)?;
            Ok((Command::Lost(runner), rest))
        }
        7 => {
            let (run, rest) = number_at(bytes)?;
            Ok((Command::Look(Number::new(run)), rest))
        }
        8 => {
            let (run, rest) = number_at(bytes)?;
            Ok((Command::Fetch(Number::new(run)), rest))
        }
        9 => rerun_at(bytes),
        12 => {
            let (run, rest) = number_at(bytes)?;
            Ok((Command::Forget(Number::new(run)), rest))
        }
        13 => {
            let (runner, rest) = small_text_at::<RunnerForm>(alloc, bytes)?;
            Ok((Command::Discharge(runner), rest))
        }
        _ => Err(DecodeError::NoEncoding),
    }
}

/// The command at the front of the bytes, and the bytes after it.
#[tactic(auto, unfolding(crate::specs::inner::ReadingCommands::command_at))]
pub fn command_at(alloc: Global, bytes: &[u8]) -> Result<(Command, &[u8]), DecodeError>
    ensures { Finds (λ f. (f.0, f.1.now)) result (command_at bytes.now) }
{
    match bytes {
        [] => Err(DecodeError::NoEncoding),
        [kind, rest @ ..] => command_of(alloc, *kind, rest),
    }
}

impl ReadAt for Command {
    ghost prefix_at = { command_at };

    fn read_at(alloc: Global, bytes: &[u8]) -> Result<(Command, &[u8]), DecodeError> {
        command_at(alloc, bytes)
    }
}

/// The counted commands at the front of the bytes, and the bytes after them.
#[tactic(auto, unfolding(crate::specs::inner::ReadingCommands::batch_at))]
pub(crate) fn batch_at(alloc: Global, bytes: &[u8]) -> Result<(Vec<Command>, &[u8]), DecodeError>
    ensures { Finds (λ f. (f.0.items, f.1.now)) result (batch_at bytes.now) }
{
    let (count, rest) = word_at(bytes)?;
    if !is_within(count, u32::MAX) {
        return Err(DecodeError::NoEncoding);
    }
    list_at(alloc, count as usize, rest)
}
