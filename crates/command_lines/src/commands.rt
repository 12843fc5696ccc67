ghost use Rattle.std.specs.Prelude.{◌≡◌, Err, Ok, Some, None, IfOk, IfErr, ok_or};
ghost use Rattle.std.specs.Option.{option_map_or};
ghost use Rattle.wf_value.specs.Gives.{Gives};
ghost use Rattle.definitions.specs.SmallText.{label_list_of, short_text_of};
ghost use Rattle.command_lines.specs.Commands.{not_a_line, prepared, admit_of, event_of, claim_of, outcome_of, done_of, beat_of};
ghost use Rattle.command_lines.specs.Commands.{cancel_of, lost_of, look_of, fetch_of, rerun_of, forget_of, discharge_of};

use crate::fields::{at_space, three_fields};
use run_plan::{
    Attempt, Beat, Claim, Command, DeliveryId, Done, EventName, Form, Labels, Number, Prepared,
    SmallText, prepare_beside,
};
use std::alloc::Global;
use wf_value::{Code, Outcome, Refusal};

/// The value of a parsed part of a line, or 75 if the part does not parse.
pub fn spelled<T: Drop>(part: Option<T>) -> Result<T, Refusal>
    ensures something { IfOk result (λ value. part ≡ Some value) }
    ensures nothing { IfErr result (λ e. (part ≡ None) × (e ≡ not_a_line)) }
{
    part.ok_or(Refusal::Numbered(Code::Line))
}

/// Parses a field as a small text; 75 if it is not of the form.
fn small_text<F: Form>(alloc: Global, field: &[u8]) -> Result<SmallText<F>, Refusal>
    ensures { Gives (λ t. t) result (ok_or (short_text_of F.allows field.now) not_a_line) }
{
    spelled(SmallText::of(alloc, field)?)
}

/// Parses a field as labels; 75 if it is not a list of labels.
fn labels(alloc: Global, field: &[u8]) -> Result<Labels, Refusal>
    ensures { Gives (λ l. l) result (ok_or (label_list_of field.now) not_a_line) }
{
    spelled(Labels::of(alloc, field)?)
}

/// Parses `DELIVERY EVENT BODY`. The body is everything after the second space. A body with a fault is refused with its first
/// fault, 10 to 26; the body of the latest event is not read again.
/// Promise (Bodies, plans and replies): The fields of a line are read as the command of the definition, or refused 75, or with the first fault
///   of a body
/// By: `command_lines::{admit_of, claim_of, done_of, beat_of, cancel_of, lost_of, look_of, fetch_of, rerun_of, forget_of, discharge_of, spelled,
///   at_space, three_fields}`
/// Refusal (The layers below): `command_lines`: `admit_of`, `claim_of`, `done_of`, `beat_of`, `lost_of`, `discharge_of`
/// When: 75, then of `admit_of` 10 to 26: exactly, with memory. 50
/// Afterwards: nothing is made
/// By: one clause each (`Gives`)
pub fn admit_of(alloc: Global, latest: Option<&Prepared>, fields: &[u8]) -> Result<Command, Refusal>
    ensures { Gives (λ c. c) result (admit_of fields.now) }
{
    let (delivery, event, body) = spelled(three_fields(fields))?;
    admit_event(alloc, latest, delivery, event, body)
}

/// Parses a delivery and the name of an event, and prepares the body.
fn admit_event(
    alloc: Global,
    latest: Option<&Prepared>,
    delivery: &[u8],
    event: &[u8],
    body: &[u8],
) -> Result<Command, Refusal>
    ensures { Gives (λ c. c) result
        (option_map_or prepared (event_of (delivery.now, event.now, body.now)) (Err not_a_line)) }
{
    let delivery = small_text(alloc, delivery)?;
    let event = small_text(alloc, event)?;
    prepared(alloc, latest, delivery, event, body)
}

/// The admission of an event, or the first fault of its body.
fn prepared(
    alloc: Global,
    latest: Option<&Prepared>,
    delivery: DeliveryId,
    event: EventName,
    body: &[u8],
) -> Result<Command, Refusal>
    ensures { Gives (λ c. c) result (prepared (record { delivery = delivery; event = event; body = body.now })) }
{
    Ok(Command::Admit(prepare_beside(alloc, latest, event, delivery, body)?))
}

/// Parses `RUNNER NUMBER LABELS`.
pub fn claim_of(alloc: Global, fields: &[u8]) -> Result<Command, Refusal>
    ensures { Gives (λ c. c) result (ok_or (claim_of fields.now) not_a_line) }
{
    let (runner, number, requested) = spelled(three_fields(fields))?;
    let runner = small_text(alloc, runner)?;
    let number = spelled(Number::of(number))?;
    let labels = labels(alloc, requested)?;
    Ok(Command::Claim(Claim {
        runner,
        number,
        labels,
    }))
}

fn outcome_of(text: &[u8]) -> Option<Outcome>
    ensures { result ≡ outcome_of text.now }
{
    if text == b"success".as_slice() {
        Some(Outcome::Success)
    } else if text == b"failure".as_slice() {
        Some(Outcome::Failure)
    } else if text == b"cancelled".as_slice() {
        Some(Outcome::Cancelled)
    } else {
        None
    }
}

/// Parses `RUNNER NUMBER LEASE RESULT`.
pub fn done_of(alloc: Global, fields: &[u8]) -> Result<Command, Refusal>
    ensures { Gives (λ c. c) result (ok_or (done_of fields.now) not_a_line) }
{
    let (runner, fields) = spelled(at_space(fields))?;
    let (number, lease, outcome) = spelled(three_fields(fields))?;
    let runner = small_text(alloc, runner)?;
    let number = spelled(Number::of(number))?;
    let lease = spelled(Number::of(lease))?;
    let result = spelled(outcome_of(outcome))?;
    Ok(Command::Done(Done {
        runner,
        number,
        lease,
        result,
    }))
}

/// Parses `RUNNER LEASE`.
pub fn beat_of(alloc: Global, fields: &[u8]) -> Result<Command, Refusal>
    ensures { Gives (λ c. c) result (ok_or (beat_of fields.now) not_a_line) }
{
    let (runner, lease) = spelled(at_space(fields))?;
    let runner = small_text(alloc, runner)?;
    let lease = spelled(Number::of(lease))?;
    Ok(Command::Beat(Beat { runner, lease }))
}

/// Parses `RUN`.
/// Refusal (The layers below): `command_lines`: `cancel_of`, `look_of`, `fetch_of`, `rerun_of`, `forget_of`, `spelled`
/// When: 75: exactly
/// Afterwards: nothing is made
/// By: one clause each
pub fn cancel_of(field: &[u8]) -> Result<Command, Refusal>
    ensures { result ≡ ok_or (cancel_of field.now) not_a_line }
{
    Ok(Command::Cancel(spelled(Number::of(field))?))
}

/// Parses `RUNNER`.
pub fn lost_of(alloc: Global, field: &[u8]) -> Result<Command, Refusal>
    ensures { Gives (λ c. c) result (ok_or (lost_of field.now) not_a_line) }
{
    Ok(Command::Lost(small_text(alloc, field)?))
}

/// Parses `RUN`.
pub fn look_of(field: &[u8]) -> Result<Command, Refusal>
    ensures { result ≡ ok_or (look_of field.now) not_a_line }
{
    Ok(Command::Look(spelled(Number::of(field))?))
}

/// Parses `RUN`.
pub fn fetch_of(field: &[u8]) -> Result<Command, Refusal>
    ensures { result ≡ ok_or (fetch_of field.now) not_a_line }
{
    Ok(Command::Fetch(spelled(Number::of(field))?))
}

/// Parses `RUN ATTEMPT`.
pub fn rerun_of(fields: &[u8]) -> Result<Command, Refusal>
    ensures { result ≡ ok_or (rerun_of fields.now) not_a_line }
{
    let (run, attempt) = spelled(at_space(fields))?;
    let run = spelled(Number::of(run))?;
    let attempt = spelled(Number::of(attempt))?;
    Ok(Command::Rerun(Attempt { run, attempt }))
}

/// Parses `RUN`.
pub fn forget_of(field: &[u8]) -> Result<Command, Refusal>
    ensures { result ≡ ok_or (forget_of field.now) not_a_line }
{
    Ok(Command::Forget(spelled(Number::of(field))?))
}

/// Parses `RUNNER`.
pub fn discharge_of(alloc: Global, field: &[u8]) -> Result<Command, Refusal>
    ensures { Gives (λ c. c) result (ok_or (discharge_of field.now) not_a_line) }
{
    Ok(Command::Discharge(small_text(alloc, field)?))
}
