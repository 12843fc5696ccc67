//! Phases and flags at the front of bytes, one byte each.

ghost use Rattle.std.specs.Prelude.{not};
ghost use Rattle.stored_tables.specs.Stored.{is_new};
ghost use Rattle.command_encodings.specs.inner.Reading.{Finds, kept};
ghost use Rattle.table_text.specs.inner.ReadingTables.{flag_at, flags, job_phase_at, job_phases, leg_phase_at, leg_phases, of_byte, run_phase_at};
ghost use Rattle.table_text.specs.inner.ReadingTables.{run_phases};
ghost use Rattle.table_text.specs.Tables.{flag_byte, job_byte, leg_byte, run_byte};

use command_encodings::{DecodeError, byte_at};
use table_model::{JobPhase, LegPhase, RunPhase};
use wf_value::{JobResult, Outcome};

/// The phase that a byte encodes.
fn leg_phase_of(byte: u8) -> Result<LegPhase, DecodeError>
    ensures { Finds (λ p. p) result (of_byte leg_byte leg_phases byte) }
{
    match byte {
        0 => Ok(LegPhase::New),
        1 => Ok(LegPhase::Waiting),
        2 => Ok(LegPhase::Ready),
        3 => Ok(LegPhase::Running),
        4 => Ok(LegPhase::Stopping),
        5 => Ok(LegPhase::Ended(Outcome::Success)),
        6 => Ok(LegPhase::Ended(Outcome::Failure)),
        7 => Ok(LegPhase::Ended(Outcome::Cancelled)),
        _ => Err(DecodeError::NoEncoding),
    }
}

/// The phase, if it is not that of a new leg, which is never stored.
fn old_phase(phase: LegPhase) -> Result<LegPhase, DecodeError>
    ensures { Finds (λ p. p) result (kept (λ p. not (is_new p)) phase) }
{
    match phase {
        LegPhase::New => Err(DecodeError::NoEncoding),
        old => Ok(old),
    }
}

fn job_phase_of(byte: u8) -> Result<JobPhase, DecodeError>
    ensures { Finds (λ p. p) result (of_byte job_byte job_phases byte) }
{
    match byte {
        0 => Ok(JobPhase::Blocked),
        1 => Ok(JobPhase::Open),
        2 => Ok(JobPhase::Finished(JobResult::Success)),
        3 => Ok(JobPhase::Finished(JobResult::Failure)),
        4 => Ok(JobPhase::Finished(JobResult::Cancelled)),
        5 => Ok(JobPhase::Finished(JobResult::Skipped)),
        _ => Err(DecodeError::NoEncoding),
    }
}

fn run_phase_of(byte: u8) -> Result<RunPhase, DecodeError>
    ensures { Finds (λ p. p) result (of_byte run_byte run_phases byte) }
{
    match byte {
        0 => Ok(RunPhase::Waiting),
        1 => Ok(RunPhase::Live),
        2 => Ok(RunPhase::Ended),
        _ => Err(DecodeError::NoEncoding),
    }
}

fn flag_of(byte: u8) -> Result<bool, DecodeError>
    ensures { Finds (λ b. b) result (of_byte flag_byte flags byte) }
{
    match byte {
        0 => Ok(false),
        1 => Ok(true),
        _ => Err(DecodeError::NoEncoding),
    }
}

#[tactic(auto, unfolding(crate::specs::inner::ReadingTables::leg_phase_at))]
pub(crate) fn leg_phase_at(bytes: &[u8]) -> Result<(LegPhase, &[u8]), DecodeError>
    ensures { Finds (λ f. (f.0, f.1.now)) result (leg_phase_at bytes.now) }
{
    let (byte, rest) = byte_at(bytes)?;
    let phase = leg_phase_of(byte)?;
    let phase = old_phase(phase)?;
    Ok((phase, rest))
}

#[tactic(auto, unfolding(crate::specs::inner::ReadingTables::job_phase_at))]
pub(crate) fn job_phase_at(bytes: &[u8]) -> Result<(JobPhase, &[u8]), DecodeError>
    ensures { Finds (λ f. (f.0, f.1.now)) result (job_phase_at bytes.now) }
{
    let (byte, rest) = byte_at(bytes)?;
    let phase = job_phase_of(byte)?;
    Ok((phase, rest))
}

#[tactic(auto, unfolding(crate::specs::inner::ReadingTables::run_phase_at))]
pub(crate) fn run_phase_at(bytes: &[u8]) -> Result<(RunPhase, &[u8]), DecodeError>
    ensures { Finds (λ f. (f.0, f.1.now)) result (run_phase_at bytes.now) }
{
    let (byte, rest) = byte_at(bytes)?;
    let phase = run_phase_of(byte)?;
    Ok((phase, rest))
}

#[tactic(auto, unfolding(crate::specs::inner::ReadingTables::flag_at))]
pub(crate) fn flag_at(bytes: &[u8]) -> Result<(bool, &[u8]), DecodeError>
    ensures { Finds (λ f. (f.0, f.1.now)) result (flag_at bytes.now) }
{
    let (byte, rest) = byte_at(bytes)?;
    let flag = flag_of(byte)?;
    Ok((flag, rest))
}
