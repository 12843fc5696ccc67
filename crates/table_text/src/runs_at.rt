//! The runs of a table at the front of bytes, with their jobs and legs.

ghost use Rattle.std.specs.Prelude.{◌≤◌, IfOk};
ghost use Rattle.definitions.specs.Limits.{last_attempt, last_number};
ghost use Rattle.command_encodings.specs.inner.Reading.{Finds, items_at, kept};
ghost use Rattle.table_text.specs.inner.ReadingTables.{attempt_at, job_at, leg_at, optional_lease, run_at, runs_at};
ghost use Rattle.table_text.specs.Tables.{is_attempt, jobs_planned};

use crate::lease_fields::{lease_at, optional_lease};
use crate::list_at::{ReadAt, list_at};
use crate::phases_at::{flag_at, job_phase_at, leg_phase_at, run_phase_at};
use command_encodings::{DecodeError, admit_at, word_at};
use run_plan::{Number, Prepared};
use std::alloc::Global;
use table_model::{JobParts, LAST_ATTEMPT, Leg, LegPhase, MAX_RUNS, RunParts};
use wf_value::Sequence;

/// The leg at the front of the bytes: its phase, the number of its lease, 0 for none, and the bytes after it.
#[tactic(auto, unfolding(crate::specs::inner::ReadingTables::leg_at))]
fn leg_parts_at(bytes: &[u8]) -> Result<(LegPhase, u32, &[u8]), DecodeError>
    ensures gives { Finds (λ f. (record { phase = f.0; lease = optional_lease f.1 }, f.2.now)) result (leg_at bytes.now) }
    ensures most { IfOk result (λ f. f.1 ≤ last_number) }
{
    let (phase, rest) = leg_phase_at(bytes)?;
    let (lease, rest) = lease_at(rest)?;
    Ok((phase, lease, rest))
}

impl ReadAt for Leg {
    ghost prefix_at = { leg_at };

    fn read_at(_alloc: Global, bytes: &[u8]) -> Result<(Leg, &[u8]), DecodeError> {
        let (phase, number, rest) = leg_parts_at(bytes)?;
        let lease = optional_lease(number);
        Ok((Leg { phase, lease }, rest))
    }
}

impl ReadAt for JobParts {
    ghost prefix_at = { job_at };

    #[tactic(auto, unfolding(crate::specs::inner::ReadingTables::job_at))]
    fn read_at(alloc: Global, bytes: &[u8]) -> Result<(JobParts, &[u8]), DecodeError> {
        let (phase, rest) = job_phase_at(bytes)?;
        let (count, rest) = word_at(rest)?;
        let (legs, rest) = list_at(alloc, count as usize, rest)?;
        let job = JobParts {
            phase,
            legs: Sequence::new(legs),
        };
        Ok((job, rest))
    }
}

/// The value, if it is an attempt number.
fn attempt_of(value: u32) -> Result<u32, DecodeError>
    ensures gives { Finds (λ n. n) result (kept is_attempt value) }
    ensures range { IfOk result (λ n. (1 ≤ n) × (n ≤ last_attempt)) }
{
    if 1 <= value && value <= LAST_ATTEMPT {
        return Ok(value);
    }
    Err(DecodeError::NoEncoding)
}

/// The attempt number at the front of the bytes, and the bytes after it.
#[tactic(auto, unfolding(crate::specs::inner::ReadingTables::attempt_at))]
fn attempt_at(bytes: &[u8]) -> Result<(u32, &[u8]), DecodeError>
    ensures gives { Finds (λ f. (f.0, f.1.now)) result (attempt_at bytes.now) }
    ensures range { IfOk result (λ f. (1 ≤ f.0) × (f.0 ≤ last_attempt)) }
{
    let (value, rest) = word_at(bytes)?;
    let attempt = attempt_of(value)?;
    Ok((attempt, rest))
}

/// The jobs of a run, as many as its plan has, and the bytes after them.
pub(crate) fn planned_jobs_at<'a>(
    alloc: Global,
    prepared: &Prepared,
    bytes: &'a [u8],
) -> Result<(Vec<JobParts>, &'a [u8]), DecodeError>
    ensures { Finds (λ f. (f.0.items, f.1.now)) result (items_at job_at (jobs_planned prepared.now) bytes.now) }
{
    let plan = prepared.plan().as_slice();
    list_at(alloc, plan.len(), bytes)
}

impl ReadAt for RunParts {
    ghost prefix_at = { run_at };

    #[tactic(auto, unfolding(crate::specs::inner::ReadingTables::run_at, crate::specs::inner::ReadingTables::course_at))]
    fn read_at(alloc: Global, bytes: &[u8]) -> Result<(RunParts, &[u8]), DecodeError> {
        let (prepared, rest) = admit_at(alloc, bytes)?;
        let (attempt, rest) = attempt_at(rest)?;
        let (phase, rest) = run_phase_at(rest)?;
        let (stopping, rest) = flag_at(rest)?;
        let (jobs, rest) = planned_jobs_at(alloc, &prepared, rest)?;
        let run = RunParts {
            prepared,
            attempt: Number::new(attempt),
            phase,
            stopping,
            jobs: Sequence::new(jobs),
        };
        Ok((run, rest))
    }
}

/// The counted runs, and the bytes after them.
#[tactic(auto, unfolding(crate::specs::inner::ReadingTables::runs_at))]
pub(crate) fn runs_at(alloc: Global, bytes: &[u8]) -> Result<(Vec<RunParts>, &[u8]), DecodeError>
    ensures { Finds (λ f. (f.0.items, f.1.now)) result (runs_at bytes.now) }
{
    let (count, rest) = word_at(bytes)?;
    if count > MAX_RUNS {
        return Err(DecodeError::NoEncoding);
    }
    list_at(alloc, count as usize, rest)
}
