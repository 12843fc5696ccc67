//! The runners of a table of the first layout.

ghost use Rattle.command_encodings.specs.inner.Reading.{Finds};
ghost use Rattle.table_text.specs.inner.ReadingFirst.{first_last_at, first_runner_at, first_runners_at};

use super::list::{ReadFirstAt, first_list_at};
use super::replies::first_kept_at;
use crate::lease_fields::{lease_at, optional_lease};
use crate::runners_at::{last_with, rising};
use command_encodings::{DecodeError, command_at, number_at, small_text_at, word_at};
use run_plan::{Number, RunnerForm};
use std::alloc::Global;
use stored_tables::{LastParts, RunnerParts};

/// The last command of a runner with its kept reply.
#[tactic(auto, unfolding(crate::specs::inner::ReadingFirst::first_last_at))]
fn first_last_at(alloc: Global, bytes: &[u8]) -> Result<(LastParts, &[u8]), DecodeError>
    ensures { Finds (λ f. (f.0, f.1.now)) result (first_last_at bytes.now) }
{
    let (command, rest) = command_at(alloc, bytes)?;
    match first_kept_at(rest) {
        Ok((kept, rest)) => {
            let last = last_with(command, kept)?;
            Ok((last, rest))
        }
        Err(why) => Err(why),
    }
}

impl ReadFirstAt for RunnerParts {
    ghost first_prefix_at = { first_runner_at };

    #[tactic(auto, unfolding(crate::specs::inner::ReadingFirst::first_runner_at))]
    fn read_first_at(alloc: Global, bytes: &[u8]) -> Result<(RunnerParts, &[u8]), DecodeError> {
        let (name, rest) = small_text_at::<RunnerForm>(alloc, bytes)?;
        let (number, rest) = number_at(rest)?;
        let (last, rest) = first_last_at(alloc, rest)?;
        let (lease, rest) = lease_at(rest)?;
        let runner = RunnerParts {
            name,
            number: Number::new(number),
            last,
            holds: optional_lease(lease),
        };
        Ok((runner, rest))
    }
}

/// The counted runners, and the bytes after them.
#[tactic(auto, unfolding(crate::specs::inner::ReadingFirst::first_runners_at))]
pub(super) fn first_runners_at(
    alloc: Global,
    bytes: &[u8],
) -> Result<(Vec<RunnerParts>, &[u8]), DecodeError>
    ensures { Finds (λ f. (f.0.items, f.1.now)) result (first_runners_at bytes.now) }
{
    let (count, rest) = word_at(bytes)?;
    let (runners, rest) = first_list_at(alloc, count as usize, rest)?;
    let runners = rising(runners)?;
    Ok((runners, rest))
}
