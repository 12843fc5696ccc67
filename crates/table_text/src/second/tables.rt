//! The parts of a table of the second layout.

ghost use Rattle.command_encodings.specs.inner.Reading.{Finds};
ghost use Rattle.table_text.specs.inner.ReadingSecond.{second_table_at};

use crate::runners_at::runners_at;
use crate::runs_at::runs_at;
use crate::table_at::last_lease_at;
use command_encodings::DecodeError;
use forgotten_runs::ForgottenParts;
use std::alloc::Global;
use stored_tables::TableParts;
use wf_value::Sequence;

/// The parts of a table at the front of the bytes, and the bytes after them.
#[tactic(auto, unfolding(crate::specs::inner::ReadingSecond::second_table_at))]
pub(super) fn second_table_at(
    alloc: Global,
    bytes: &[u8],
) -> Result<(TableParts, &[u8]), DecodeError>
    ensures { Finds (λ f. (f.0, f.1.now)) result (second_table_at bytes.now) }
{
    let (last_lease, rest) = last_lease_at(bytes)?;
    let (runs, rest) = runs_at(alloc, rest)?;
    let (runners, rest) = runners_at(alloc, rest)?;
    let parts = TableParts {
        last_lease,
        forgotten: ForgottenParts::none(alloc),
        runs: Sequence::new(runs),
        runners: Sequence::new(runners),
    };
    Ok((parts, rest))
}
