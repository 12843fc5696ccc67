//! The kept reply to a last command, in the first layout.

ghost use Rattle.command_encodings.specs.inner.Reading.{Finds};
ghost use Rattle.table_text.specs.inner.ReadingFirst.{first_kept_at, first_kept_of};

use crate::kept::StoredReply;
use crate::lease_fields::{lease_at, optional_lease};
use command_encodings::{DecodeError, byte_at};
use run_plan::Number;
use stored_tables::StoredLease;

/// The kept reply with this byte and this lease.
fn first_kept_of(reply: u8, lease: Option<Number>) -> Result<StoredReply, DecodeError>
    ensures { Finds (λ k. k) result (first_kept_of (reply, lease)) }
{
    match (reply, lease) {
        (0, None) => Ok(StoredReply::Nothing),
        (1, Some(lease)) => Ok(StoredReply::Leased(StoredLease { lease, place: None })),
        (2, None) => Ok(StoredReply::Done),
        _ => Err(DecodeError::NoEncoding),
    }
}

/// The kept reply at the front of the bytes, and the bytes after it.
#[tactic(auto, unfolding(crate::specs::inner::ReadingFirst::first_kept_at))]
pub(crate) fn first_kept_at(bytes: &[u8]) -> Result<(StoredReply, &[u8]), DecodeError>
    ensures { Finds (λ f. (f.0, f.1.now)) result (first_kept_at bytes.now) }
{
    let (reply, rest) = byte_at(bytes)?;
    let (lease, rest) = lease_at(rest)?;
    match first_kept_of(reply, optional_lease(lease)) {
        Ok(kept) => Ok((kept, rest)),
        Err(why) => Err(why),
    }
}
