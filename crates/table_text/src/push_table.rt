//! Appends the parts of a table's encoding to bytes.
#![tactic(auto, using(command_encodings::proofs::Keeping::unchanged, command_encodings::proofs::Keeping::longer))]

ghost use Rattle.std.specs.Prelude.{◌≡◌, [], ◌∷◌, ◌++◌, ◌<◌, ◌≤◌, ◌^◌, length, OnErr, OnOk};
ghost use Rattle.run_plan.specs.declared.last_command.LastCommand.TheVariants as last;
ghost use Rattle.table_model.specs.Parts.{stored_run};
ghost use Rattle.stored_tables.specs.Stored.{stored_last, stored_lease, stored_runner, stored_table};
ghost use Rattle.definitions.specs.Format.{word_bytes};
ghost use Rattle.table_text.specs.Tables.{flag_byte, job, job_byte, kept_lease, last_command, lease, lease_word, leg, leg_byte, run, run_byte, runner};
ghost use Rattle.table_text.specs.Tables.{table};
ghost use Rattle.command_encodings.specs.inner.Writing.{Keeps};
ghost use Rattle.table_text.specs.inner.Writing.{HasByte, JobHasBytes, KeptHasBytes, RunHasBytes};

use crate::push_forgotten::push_forgotten;
use crate::push_list::{Push, push_list};
use command_encodings::{
    push_admit, push_claim, push_done, push_number, push_small_text, push_word,
};
use run_plan::{Claim, ClaimReply, Done, KeptLease, LastCommand, Number};
use run_table::{Runner, Table};
use std::alloc::AllocError;
use table_model::{Job, JobPhase, Leg, LegPhase, Run, RunPhase};
use wf_value::{JobResult, Outcome};

fn push_byte(out: &mut Vec<u8>, value: u8) -> Result<(), AllocError>
    ensures bytes { OnOk result (out.new.items ≡ out.old.items ++ value ∷ []) }
    ensures kept { OnErr result (Keeps out.old.items out.new.items) }
{
    out.extend_from_slice(&[value])
}

/// A byte and a number of four bytes.
#[tactic(auto, unfolding(definitions::specs::Format::word_bytes))]
fn byte_and_word(byte: u8, word: u32) -> [u8; 5]
    ensures { result ≡ byte ∷ word_bytes word }
{
    let word = word.to_be_bytes();
    [byte, word[0], word[1], word[2], word[3]]
}

fn push_byte_and_word(out: &mut Vec<u8>, byte: u8, word: u32) -> Result<(), AllocError>
    ensures bytes { OnOk result (out.new.items ≡ out.old.items ++ byte ∷ word_bytes word) }
    ensures kept { OnErr result (Keeps out.old.items out.new.items) }
{
    out.extend_from_slice(&byte_and_word(byte, word))
}

/// A number of four bytes and two bytes.
#[tactic(auto, unfolding(definitions::specs::Format::word_bytes))]
fn word_and_bytes(word: u32, first: u8, second: u8) -> [u8; 6]
    ensures { result ≡ word_bytes word ++ first ∷ second ∷ [] }
{
    let word = word.to_be_bytes();
    [word[0], word[1], word[2], word[3], first, second]
}

fn push_word_and_bytes(
    out: &mut Vec<u8>,
    word: u32,
    first: u8,
    second: u8,
) -> Result<(), AllocError>
    ensures bytes { OnOk result (out.new.items ≡ out.old.items ++ (word_bytes word ++ first ∷ second ∷ [])) }
    ensures kept { OnErr result (Keeps out.old.items out.new.items) }
{
    out.extend_from_slice(&word_and_bytes(word, first, second))
}

fn leg_byte(phase: LegPhase) -> u8
    ensures { result ≡ leg_byte phase }
{
    match phase {
        LegPhase::New => 0,
        LegPhase::Waiting => 1,
        LegPhase::Ready => 2,
        LegPhase::Running => 3,
        LegPhase::Stopping => 4,
        LegPhase::Ended(Outcome::Success) => 5,
        LegPhase::Ended(Outcome::Failure) => 6,
        LegPhase::Ended(Outcome::Cancelled) => 7,
    }
}

fn job_byte(phase: JobPhase) -> u8
    ensures { result ≡ job_byte phase }
{
    match phase {
        JobPhase::Blocked => 0,
        JobPhase::Open => 1,
        JobPhase::Finished(JobResult::Success) => 2,
        JobPhase::Finished(JobResult::Failure) => 3,
        JobPhase::Finished(JobResult::Cancelled) => 4,
        JobPhase::Finished(JobResult::Skipped) => 5,
    }
}

fn run_byte(phase: RunPhase) -> u8
    ensures { result ≡ run_byte phase }
{
    match phase {
        RunPhase::Waiting => 0,
        RunPhase::Live => 1,
        RunPhase::Ended => 2,
    }
}

fn flag_byte(flag: bool) -> u8
    ensures { result ≡ flag_byte flag }
{
    if flag { 1 } else { 0 }
}

/// The number of a lease, 0 for none.
fn lease_word(value: Option<Number>) -> u32
    ensures takes { lease.Takes value }
    ensures word { result ≡ lease_word value }
{
    match value {
        Some(number) => number.get(),
        None => 0,
    }
}

// ---- runs

impl Push for Leg {
    ghost can_push = { HasByte };

    ghost takes = { leg.Takes };

    ghost encoding = { leg.encoding };

    fn push_to(&self, out: &mut Vec<u8>) -> Result<(), AllocError> {
        push_byte_and_word(out, leg_byte(self.phase), lease_word(self.lease))
    }
}

impl Push for Job {
    ghost can_push = { λ j. JobHasBytes j.state };

    ghost takes = { λ j. job.Takes j.state };

    ghost encoding = { λ j. job.encoding j.state };

    fn push_to(&self, out: &mut Vec<u8>) -> Result<(), AllocError> {
        let legs = self.legs();
        push_byte_and_word(out, job_byte(self.phase()), legs.len() as u32)?;
        push_list(out, legs)?;
        Ok(())
    }
}

impl Push for Run {
    ghost can_push = { RunHasBytes };

    ghost takes = { λ r. run.Takes (stored_run r) };

    ghost encoding = { λ r. run.encoding (stored_run r) };

    fn push_to(&self, out: &mut Vec<u8>) -> Result<(), AllocError> {
        push_admit(out, self.prepared())?;
        let (phase, stopping) = (run_byte(self.phase()), flag_byte(self.is_stopping()));
        push_word_and_bytes(out, self.attempt().get(), phase, stopping)?;
        push_list(out, self.jobs())?;
        Ok(())
    }
}

// ---- runners

/// Appends a kept lease with the place of its leg.
fn push_kept_lease(out: &mut Vec<u8>, kept: &KeptLease) -> Result<(), AllocError>
    requires job { kept.now.job < 2 ^ 32 }
    requires leg { kept.now.lease_reply.leg < 2 ^ 32 }
    ensures takes { OnOk result (kept_lease.Takes (stored_lease kept.now)) }
    ensures bytes { OnOk result (out.new.items ≡ out.old.items ++ kept_lease.encoding (stored_lease kept.now)) }
    ensures kept { OnErr result (Keeps out.old.items out.new.items) }
{
    push_number(out, kept.lease_reply.lease)?;
    push_number(out, kept.lease_reply.run)?;
    push_number(out, kept.attempt)?;
    push_word(out, kept.job as u32)?;
    push_word(out, kept.lease_reply.leg as u32)?;
    Ok(())
}

fn push_last_claim(out: &mut Vec<u8>, claim: &Claim, reply: &ClaimReply) -> Result<(), AllocError>
    requires { KeptHasBytes (last.Claim claim.now reply.now) }
    ensures takes { OnOk result (last_command.Takes (stored_last (last.Claim claim.now reply.now))) }
    ensures bytes { OnOk result
        (out.new.items ≡ out.old.items ++ last_command.encoding (stored_last (last.Claim claim.now reply.now))) }
    ensures kept { OnErr result (Keeps out.old.items out.new.items) }
{
    push_byte(out, 2)?;
    push_claim(out, claim)?;
    match reply {
        ClaimReply::Nothing => push_byte(out, 0),
        ClaimReply::Lease(given) => {
            push_byte(out, 1)?;
            push_kept_lease(out, given)
        }
    }
}

fn push_last_report(out: &mut Vec<u8>, report: &Done) -> Result<(), AllocError>
    ensures takes { OnOk result (last_command.Takes (stored_last (last.Done report.now))) }
    ensures bytes { OnOk result (out.new.items ≡ out.old.items ++ last_command.encoding (stored_last (last.Done report.now))) }
    ensures kept { OnErr result (Keeps out.old.items out.new.items) }
{
    push_byte(out, 3)?;
    push_done(out, report)?;
    push_byte(out, 2)
}

fn push_last(out: &mut Vec<u8>, value: &LastCommand) -> Result<(), AllocError>
    requires { KeptHasBytes value.now }
    ensures takes { OnOk result (last_command.Takes (stored_last value.now)) }
    ensures bytes { OnOk result (out.new.items ≡ out.old.items ++ last_command.encoding (stored_last value.now)) }
    ensures kept { OnErr result (Keeps out.old.items out.new.items) }
{
    match value {
        LastCommand::Claim(claim, reply) => push_last_claim(out, claim, reply),
        LastCommand::Done(report) => push_last_report(out, report),
    }
}

impl Push for Runner {
    ghost can_push = { λ r. KeptHasBytes r.last };

    ghost takes = { λ r. runner.Takes (stored_runner r) };

    ghost encoding = { λ r. runner.encoding (stored_runner r) };

    fn push_to(&self, out: &mut Vec<u8>) -> Result<(), AllocError> {
        push_small_text(out, &self.name)?;
        push_number(out, self.number)?;
        push_last(out, &self.last)?;
        push_word(out, lease_word(self.holds))?;
        Ok(())
    }
}

// ---- tables

/// Appends the encoding of a table.
pub(crate) fn push_table(out: &mut Vec<u8>, value: &Table) -> Result<(), AllocError>
    requires { length value.now.runners ≤ 4294967295 }
    ensures takes { OnOk result (table.Takes (stored_table value.now)) }
    ensures bytes { OnOk result (out.new.items ≡ out.old.items ++ table.encoding (stored_table value.now)) }
    ensures kept { OnErr result (Keeps out.old.items out.new.items) }
{
    let runs = value.runs();
    let runners = value.runners();
    push_word(out, value.last_lease())?;
    push_forgotten(out, value.forgotten())?;
    push_word(out, runs.len() as u32)?;
    push_list(out, runs)?;
    push_word(out, runners.len() as u32)?;
    push_list(out, runners)?;
    Ok(())
}
