//! The parts of a table of the first layout.

ghost use Rattle.command_encodings.specs.inner.Reading.{Finds};
ghost use Rattle.table_text.specs.inner.ReadingFirst.{first_table_at};

use super::runners::first_runners_at;
use super::runs::first_runs_at;
use crate::table_at::last_lease_at;
use command_encodings::DecodeError;
use forgotten_runs::ForgottenParts;
use std::alloc::Global;
use stored_tables::TableParts;
use wf_value::Sequence;

/// The parts of a table at the front of the bytes, and the bytes after them.
#[tactic(auto, unfolding(crate::specs::inner::ReadingFirst::first_table_at))]
pub(super) fn first_table_at(
    alloc: Global,
    bytes: &[u8],
) -> Result<(TableParts, &[u8]), DecodeError>
    ensures { Finds (λ f. (f.0, f.1.now)) result (first_table_at bytes.now) }
{
    let (last_lease, rest) = last_lease_at(bytes)?;
    let (runs, rest) = first_runs_at(alloc, rest)?;
    let (runners, rest) = first_runners_at(alloc, rest)?;
    let parts = TableParts {
        last_lease,
        forgotten: ForgottenParts::none(alloc),
        runs: Sequence::new(runs),
        runners: Sequence::new(runners),
    };
    Ok((parts, rest))
}
