//! The runs of a table of the first layout. Each is at its first attempt.

ghost use Rattle.command_encodings.specs.inner.Reading.{Finds};
ghost use Rattle.table_text.specs.inner.ReadingFirst.{first_run_at, first_runs_at};

use super::list::{ReadFirstAt, first_list_at};
use crate::phases_at::{flag_at, run_phase_at};
use crate::runs_at::planned_jobs_at;
use command_encodings::{DecodeError, admit_at, word_at};
use run_plan::Number;
use std::alloc::Global;
use table_model::{MAX_RUNS, RunParts};
use wf_value::Sequence;

impl ReadFirstAt for RunParts {
    ghost first_prefix_at = { first_run_at };

    #[tactic(auto, unfolding(crate::specs::inner::ReadingFirst::first_run_at, crate::specs::inner::ReadingFirst::first_course_at))]
    fn read_first_at(alloc: Global, bytes: &[u8]) -> Result<(RunParts, &[u8]), DecodeError> {
        let (prepared, rest) = admit_at(alloc, bytes)?;
        let (phase, rest) = run_phase_at(rest)?;
        let (stopping, rest) = flag_at(rest)?;
        let (jobs, rest) = planned_jobs_at(alloc, &prepared, rest)?;
        let run = RunParts {
            prepared,
            attempt: Number::new(1),
            phase,
            stopping,
            jobs: Sequence::new(jobs),
        };
        Ok((run, rest))
    }
}

/// The counted runs, and the bytes after them.
#[tactic(auto, unfolding(crate::specs::inner::ReadingFirst::first_runs_at))]
pub(super) fn first_runs_at(
    alloc: Global,
    bytes: &[u8],
) -> Result<(Vec<RunParts>, &[u8]), DecodeError>
    ensures { Finds (λ f. (f.0.items, f.1.now)) result (first_runs_at bytes.now) }
{
    let (count, rest) = word_at(bytes)?;
    if count > MAX_RUNS {
        return Err(DecodeError::NoEncoding);
    }
    first_list_at(alloc, count as usize, rest)
}
