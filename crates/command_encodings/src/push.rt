#![tactic(auto, using(crate::proofs::Keeping::unchanged, crate::proofs::Keeping::longer))]

ghost use Rattle.std.specs.Prelude.{◌≡◌, [], ◌∷◌, ◌++◌, ◌<◌, ◌≤◌, ◌^◌, length, vec_capacity, OnErr, OnOk};
ghost use Rattle.command_encodings.specs.Commands.{IsEncoded, admit, beat, body, claim, command_bytes, done, fields_of, kind_of, labels};
ghost use Rattle.command_encodings.specs.Commands.{number, outcome_byte, rerun, small_text};
ghost use Rattle.definitions.specs.Format.{text_bytes, word_bytes};
ghost use Rattle.command_encodings.specs.inner.Writing.{Keeps};

use crate::list_writer::{Push, push_list};
use run_plan::{Attempt, Beat, Claim, Command, Done, Form, Labels, Number, Prepared, SmallText};
use std::alloc::AllocError;
use wf_value::Outcome;

/// Appends a number as four bytes.
#[tactic(auto, using(crate::proofs::Keeping::unchanged, crate::proofs::Keeping::longer), unfolding(definitions::specs::Format::word_bytes))]
pub fn push_word(out: &mut Vec<u8>, value: u32) -> Result<(), AllocError>
    ensures bytes { OnOk result (out.new.items ≡ out.old.items ++ word_bytes value) }
    ensures kept { OnErr result (Keeps out.old.items out.new.items) }
    ensures room { vec_capacity out.old ≤ vec_capacity out.new }
{
    out.extend_from_slice(&value.to_be_bytes())
}

/// Appends the length of a text and its bytes.
#[tactic(auto, using(crate::proofs::Keeping::unchanged, crate::proofs::Keeping::longer), unfolding(definitions::specs::Format::text_bytes))]
pub fn push_text(out: &mut Vec<u8>, text: &[u8]) -> Result<(), AllocError>
    requires { length text.now < 2 ^ 32 }
    ensures bytes { OnOk result (out.new.items ≡ out.old.items ++ text_bytes text.now) }
    ensures kept { OnErr result (Keeps out.old.items out.new.items) }
    ensures room { vec_capacity out.old ≤ vec_capacity out.new }
{
    push_word(out, text.len() as u32)?;
    out.extend_from_slice(text)
}

pub fn push_number(out: &mut Vec<u8>, value: Number) -> Result<(), AllocError>
    ensures takes { number.Takes value }
    ensures bytes { OnOk result (out.new.items ≡ out.old.items ++ word_bytes value) }
    ensures kept { OnErr result (Keeps out.old.items out.new.items) }
    ensures room { vec_capacity out.old ≤ vec_capacity out.new }
{
    push_word(out, value.get())
}

pub fn push_small_text<F: Form>(out: &mut Vec<u8>, text: &SmallText<F>) -> Result<(), AllocError>
    ensures takes { (small_text F.allows).Takes text.now }
    ensures bytes { OnOk result (out.new.items ≡ out.old.items ++ text_bytes text.now) }
    ensures kept { OnErr result (Keeps out.old.items out.new.items) }
    ensures room { vec_capacity out.old ≤ vec_capacity out.new }
{
    push_text(out, text.as_str().as_bytes())
}

impl<F: Form> Push for SmallText<F> {
    ghost can_push = { λ text. Unit {0} };

    ghost takes = { (small_text F.allows).Takes };

    ghost encoding = { text_bytes };

    fn push_to(&self, out: &mut Vec<u8>) -> Result<(), AllocError> {
        push_small_text(out, self)
    }
}

fn push_labels(out: &mut Vec<u8>, value: &Labels) -> Result<(), AllocError>
    ensures takes { labels.Takes value.now }
    ensures bytes { OnOk result (out.new.items ≡ out.old.items ++ labels.encoding value.now) }
    ensures kept { OnErr result (Keeps out.old.items out.new.items) }
    ensures room { vec_capacity out.old ≤ vec_capacity out.new }
{
    let list = value.as_slice();
    push_word(out, list.len() as u32)?;
    push_list(out, list)?;
    Ok(())
}

fn push_outcome(out: &mut Vec<u8>, value: Outcome) -> Result<(), AllocError>
    ensures bytes { OnOk result (out.new.items ≡ out.old.items ++ outcome_byte value ∷ []) }
    ensures kept { OnErr result (Keeps out.old.items out.new.items) }
    ensures room { vec_capacity out.old ≤ vec_capacity out.new }
{
    match value {
        Outcome::Success => out.extend_from_slice(&[1]),
        Outcome::Failure => out.extend_from_slice(&[2]),
        Outcome::Cancelled => out.extend_from_slice(&[3]),
    }
}

/// Appends the length of the admitted body and its bytes.
fn push_body(out: &mut Vec<u8>, event: &Prepared) -> Result<(), AllocError>
    ensures takes { body.Takes event.now.body }
    ensures bytes { OnOk result (out.new.items ≡ out.old.items ++ text_bytes event.now.body) }
    ensures kept { OnErr result (Keeps out.old.items out.new.items) }
    ensures room { vec_capacity out.old ≤ vec_capacity out.new }
{
    push_text(out, event.body())
}

pub fn push_admit(out: &mut Vec<u8>, event: &Prepared) -> Result<(), AllocError>
    ensures takes { OnOk result (admit.Takes event.now) }
    ensures bytes { OnOk result (out.new.items ≡ out.old.items ++ admit.encoding event.now) }
    ensures kept { OnErr result (Keeps out.old.items out.new.items) }
    ensures room { vec_capacity out.old ≤ vec_capacity out.new }
{
    push_small_text(out, event.delivery())?;
    push_small_text(out, event.event())?;
    push_body(out, event)?;
    Ok(())
}

pub fn push_claim(out: &mut Vec<u8>, requests: &Claim) -> Result<(), AllocError>
    ensures takes { OnOk result (claim.Takes requests.now) }
    ensures bytes { OnOk result (out.new.items ≡ out.old.items ++ claim.encoding requests.now) }
    ensures kept { OnErr result (Keeps out.old.items out.new.items) }
    ensures room { vec_capacity out.old ≤ vec_capacity out.new }
{
    push_small_text(out, &requests.runner)?;
    push_number(out, requests.number)?;
    push_labels(out, &requests.labels)?;
    Ok(())
}

pub fn push_done(out: &mut Vec<u8>, report: &Done) -> Result<(), AllocError>
    ensures takes { OnOk result (done.Takes report.now) }
    ensures bytes { OnOk result (out.new.items ≡ out.old.items ++ done.encoding report.now) }
    ensures kept { OnErr result (Keeps out.old.items out.new.items) }
    ensures room { vec_capacity out.old ≤ vec_capacity out.new }
{
    push_small_text(out, &report.runner)?;
    push_number(out, report.number)?;
    push_number(out, report.lease)?;
    push_outcome(out, report.result)?;
    Ok(())
}

fn push_beat(out: &mut Vec<u8>, requests: &Beat) -> Result<(), AllocError>
    ensures takes { OnOk result (beat.Takes requests.now) }
    ensures bytes { OnOk result (out.new.items ≡ out.old.items ++ beat.encoding requests.now) }
    ensures kept { OnErr result (Keeps out.old.items out.new.items) }
    ensures room { vec_capacity out.old ≤ vec_capacity out.new }
{
    push_small_text(out, &requests.runner)?;
    push_number(out, requests.lease)?;
    Ok(())
}

fn push_rerun(out: &mut Vec<u8>, requests: Attempt) -> Result<(), AllocError>
    ensures takes { OnOk result (rerun.Takes requests) }
    ensures bytes { OnOk result (out.new.items ≡ out.old.items ++ rerun.encoding requests) }
    ensures kept { OnErr result (Keeps out.old.items out.new.items) }
    ensures room { vec_capacity out.old ≤ vec_capacity out.new }
{
    push_number(out, requests.run)?;
    push_number(out, requests.attempt)?;
    Ok(())
}

/// Appends the byte for the command's kind.
fn push_kind(out: &mut Vec<u8>, requested: &Command) -> Result<(), AllocError>
    ensures bytes { OnOk result (out.new.items ≡ out.old.items ++ kind_of requested.now ∷ []) }
    ensures kept { OnErr result (Keeps out.old.items out.new.items) }
    ensures room { vec_capacity out.old ≤ vec_capacity out.new }
{
    match requested {
        Command::Admit(_) => out.extend_from_slice(&[1]),
        Command::Claim(_) => out.extend_from_slice(&[2]),
        Command::Done(_) => out.extend_from_slice(&[3]),
        Command::Beat(_) => out.extend_from_slice(&[4]),
        Command::Cancel(_) => out.extend_from_slice(&[5]),
        Command::Lost(_) => out.extend_from_slice(&[6]),
        Command::Look(_) => out.extend_from_slice(&[7]),
        Command::Fetch(_) => out.extend_from_slice(&[8]),
        Command::Rerun(_) => out.extend_from_slice(&[9]),
        Command::Forget(_) => out.extend_from_slice(&[12]),
        Command::Discharge(_) => out.extend_from_slice(&[13]),
    }
}

/// Appends the bytes after that one.
fn push_fields(out: &mut Vec<u8>, requested: &Command) -> Result<(), AllocError>
    ensures takes { OnOk result (IsEncoded requested.now) }
    ensures bytes { OnOk result (out.new.items ≡ out.old.items ++ fields_of requested.now) }
    ensures kept { OnErr result (Keeps out.old.items out.new.items) }
    ensures room { vec_capacity out.old ≤ vec_capacity out.new }
{
    match requested {
        Command::Admit(event) => push_admit(out, event),
        Command::Claim(requests) => push_claim(out, requests),
        Command::Done(report) => push_done(out, report),
        Command::Beat(requests) => push_beat(out, requests),
        Command::Lost(runner) | Command::Discharge(runner) => push_small_text(out, runner),
        Command::Rerun(requests) => push_rerun(out, *requests),
        Command::Cancel(run) | Command::Look(run) | Command::Fetch(run) | Command::Forget(run) =>
            push_number(out, *run),
    }
}

/// Appends the encoding of a command.
pub(crate) fn push_command(out: &mut Vec<u8>, requested: &Command) -> Result<(), AllocError>
    ensures takes { OnOk result (IsEncoded requested.now) }
    ensures bytes { OnOk result (out.new.items ≡ out.old.items ++ command_bytes requested.now) }
    ensures kept { OnErr result (Keeps out.old.items out.new.items) }
    ensures room { vec_capacity out.old ≤ vec_capacity out.new }
{
    push_kind(out, requested)?;
    push_fields(out, requested)
}

impl Push for Command {
    ghost can_push = { λ requested. Unit {0} };

    ghost takes = { IsEncoded };

    ghost encoding = { command_bytes };

    fn push_to(&self, out: &mut Vec<u8>) -> Result<(), AllocError> {
        push_command(out, self)
    }
}
