//! The parts of a table, at the front of bytes.

ghost use Rattle.command_encodings.specs.inner.Reading.{Finds, kept};
ghost use Rattle.table_text.specs.inner.ReadingTables.{last_lease_at, table_at};
ghost use Rattle.table_text.specs.Tables.{is_last_lease};

use crate::forgotten_at::forgotten_at;
use crate::runners_at::runners_at;
use crate::runs_at::runs_at;
use command_encodings::{DecodeError, word_at};
use run_plan::LAST_NUMBER;
use std::alloc::Global;
use stored_tables::TableParts;
use wf_value::Sequence;

/// The value, if a table may have it as its last lease.
fn last_lease_of(value: u32) -> Result<u32, DecodeError>
    ensures { Finds (λ n. n) result (kept is_last_lease value) }
{
    if value <= LAST_NUMBER {
        return Ok(value);
    }
    Err(DecodeError::NoEncoding)
}

#[tactic(auto, unfolding(crate::specs::inner::ReadingTables::last_lease_at))]
pub(crate) fn last_lease_at(bytes: &[u8]) -> Result<(u32, &[u8]), DecodeError>
    ensures { Finds (λ f. (f.0, f.1.now)) result (last_lease_at bytes.now) }
{
    let (value, rest) = word_at(bytes)?;
    let lease = last_lease_of(value)?;
    Ok((lease, rest))
}

/// The parts of a table at the front of the bytes, and the bytes after them.
#[tactic(auto, unfolding(crate::specs::inner::ReadingTables::table_at))]
pub(crate) fn table_at(alloc: Global, bytes: &[u8]) -> Result<(TableParts, &[u8]), DecodeError>
    ensures { Finds (λ f. (f.0, f.1.now)) result (table_at bytes.now) }
{
    let (last_lease, rest) = last_lease_at(bytes)?;
    let (forgotten, rest) = forgotten_at(alloc, rest)?;
    let (runs, rest) = runs_at(alloc, rest)?;
    let (runners, rest) = runners_at(alloc, rest)?;
    let parts = TableParts {
        last_lease,
        forgotten,
        runs: Sequence::new(runs),
        runners: Sequence::new(runners),
    };
    Ok((parts, rest))
}
