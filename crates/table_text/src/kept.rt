//! The kept reply to a last command, at the front of bytes.

ghost use Rattle.command_encodings.specs.inner.Reading.{Finds};
ghost use Rattle.table_text.specs.inner.ReadingTables.{kept_at, kept_lease_at, kept_of, place_at};

use command_encodings::{DecodeError, number_at, word_at};
use run_plan::Number;
use stored_tables::{StoredLease, StoredSite};

/// A kept reply.
#[derive(Drop)]
pub(crate) enum StoredReply {
    /// A claim got nothing.
    Nothing,
    /// A claim got a lease.
    Leased(StoredLease),
    /// A report was accepted.
    Done,
}

/// The place of a leg in an attempt of its run, and the bytes after it.
#[tactic(auto, unfolding(crate::specs::inner::ReadingTables::place_at))]
fn place_at(bytes: &[u8]) -> Result<(StoredSite, &[u8]), DecodeError>
    ensures { Finds (λ f. (f.0, f.1.now)) result (place_at bytes.now) }
{
    let (run, rest) = number_at(bytes)?;
    let (attempt, rest) = number_at(rest)?;
    let (job, rest) = word_at(rest)?;
    let (leg, rest) = word_at(rest)?;
    let place = StoredSite {
        run: Number::new(run),
        attempt: Number::new(attempt),
        job: job as usize,
        leg: leg as usize,
    };
    Ok((place, rest))
}

/// A kept lease with its place, and the bytes after it.
#[tactic(auto, unfolding(crate::specs::inner::ReadingTables::kept_lease_at))]
fn kept_lease_at(bytes: &[u8]) -> Result<(StoredLease, &[u8]), DecodeError>
    ensures { Finds (λ f. (f.0, f.1.now)) result (kept_lease_at bytes.now) }
{
    let (lease, rest) = number_at(bytes)?;
    match place_at(rest) {
        Ok((place, rest)) => {
            let kept = StoredLease {
                lease: Number::new(lease),
                place: Some(place),
            };
            Ok((kept, rest))
        }
        Err(why) => Err(why),
    }
}

/// The kept reply whose first byte is `reply`, and the bytes after it.
#[tactic(auto, unfolding(crate::specs::inner::ReadingTables::kept_of))]
fn kept_of(reply: u8, bytes: &[u8]) -> Result<(StoredReply, &[u8]), DecodeError>
    ensures { Finds (λ f. (f.0, f.1.now)) result (kept_of reply bytes.now) }
{
    match reply {
        0 => Ok((StoredReply::Nothing, bytes)),
        1 => match kept_lease_at(bytes) {
            Ok((lease, rest)) => Ok((StoredReply::Leased(lease), rest)),
            Err(why) => Err(why),
        },
        2 => Ok((StoredReply::Done, bytes)),
        _ => Err(DecodeError::NoEncoding),
    }
}

/// The kept reply at the front of the bytes, and the bytes after it.
#[tactic(auto, unfolding(crate::specs::inner::ReadingTables::kept_at))]
pub(crate) fn kept_at(bytes: &[u8]) -> Result<(StoredReply, &[u8]), DecodeError>
    ensures { Finds (λ f. (f.0, f.1.now)) result (kept_at bytes.now) }
{
    match bytes {
        [] => Err(DecodeError::NoEncoding),
        [reply, rest @ ..] => kept_of(*reply, rest),
    }
}
