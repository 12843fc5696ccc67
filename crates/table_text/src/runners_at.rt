//! The runners of a table at the front of bytes.

ghost use Rattle.command_encodings.specs.inner.Reading.{Finds, kept};
ghost use Rattle.table_text.specs.inner.ReadingTables.{claim_with, last_at, last_with, report_with, runner_at, runners_at};
ghost use Rattle.table_text.specs.Tables.{names_rise};

use crate::kept::{StoredReply, kept_at};
use crate::lease_fields::{lease_at, optional_lease};
use crate::list_at::{ReadAt, list_at};
use command_encodings::{DecodeError, command_at, number_at, small_text_at, word_at};
use run_plan::{Claim, Command, Done, Number, RunnerForm};
use std::alloc::Global;
use stored_tables::{LastParts, RunnerParts, do_names_rise};

/// A claim with its kept reply.
fn claim_with(claim: Claim, kept: StoredReply) -> Result<LastParts, DecodeError>
    ensures { Finds (λ l. l) result (claim_with claim kept) }
{
    match kept {
        StoredReply::Nothing => Ok(LastParts::Claim(claim, None)),
        StoredReply::Leased(lease) => Ok(LastParts::Claim(claim, Some(lease))),
        StoredReply::Done => Err(DecodeError::NoEncoding),
    }
}

/// A report with its kept reply.
fn report_with(report: Done, kept: StoredReply) -> Result<LastParts, DecodeError>
    ensures { Finds (λ l. l) result (report_with report kept) }
{
    match kept {
        StoredReply::Done => Ok(LastParts::Done(report)),
        StoredReply::Nothing | StoredReply::Leased(_) => Err(DecodeError::NoEncoding),
    }
}

/// A claim or a report with its kept reply.
pub(crate) fn last_with(command: Command, kept: StoredReply) -> Result<LastParts, DecodeError>
    ensures { Finds (λ l. l) result (last_with command kept) }
{
    match command {
        Command::Claim(claim) => claim_with(claim, kept),
        Command::Done(report) => report_with(report, kept),
        _ => Err(DecodeError::NoEncoding),
    }
}

/// The last command of a runner with its kept reply.
#[tactic(auto, unfolding(crate::specs::inner::ReadingTables::last_at))]
fn last_at(alloc: Global, bytes: &[u8]) -> Result<(LastParts, &[u8]), DecodeError>
    ensures { Finds (λ f. (f.0, f.1.now)) result (last_at bytes.now) }
{
    let (command, rest) = command_at(alloc, bytes)?;
    match kept_at(rest) {
        Ok((kept, rest)) => {
            let last = last_with(command, kept)?;
            Ok((last, rest))
        }
        Err(why) => Err(why),
    }
}

impl ReadAt for RunnerParts {
    ghost prefix_at = { runner_at };

    #[tactic(auto, unfolding(crate::specs::inner::ReadingTables::runner_at))]
    fn read_at(alloc: Global, bytes: &[u8]) -> Result<(RunnerParts, &[u8]), DecodeError> {
        let (name, rest) = small_text_at::<RunnerForm>(alloc, bytes)?;
        let (number, rest) = number_at(rest)?;
        let (last, rest) = last_at(alloc, rest)?;
        let (lease, rest) = lease_at(rest)?;
        let runner = RunnerParts {
            name,
            number: Number::new(number),
            last,
            holds: optional_lease(lease),
        };
        Ok((runner, rest))
    }
}

/// The runners, if they are in the order of their names.
pub(crate) fn rising(runners: Vec<RunnerParts>) -> Result<Vec<RunnerParts>, DecodeError>
    ensures { Finds (λ r. r.items) result (kept names_rise runners.items) }
{
    if do_names_rise(&runners) {
        return Ok(runners);
    }
    Err(DecodeError::NoEncoding)
}

/// The counted runners, and the bytes after them.
#[tactic(auto, unfolding(crate::specs::inner::ReadingTables::runners_at))]
pub(crate) fn runners_at(
    alloc: Global,
    bytes: &[u8],
) -> Result<(Vec<RunnerParts>, &[u8]), DecodeError>
    ensures { Finds (λ f. (f.0.items, f.1.now)) result (runners_at bytes.now) }
{
    let (count, rest) = word_at(bytes)?;
    let (runners, rest) = list_at(alloc, count as usize, rest)?;
    let runners = rising(runners)?;
    Ok((runners, rest))
}
