ghost use Rattle.std.specs.Prelude.{◌≡◌, ◌<◌, ◌≤◌, ℕ, List, length, take, drop, IfSome, IsNone};
ghost use Rattle.std.specs.Int.{from_be_bytes, w32};
ghost use Rattle.gated_journal.specs.Lengths.{body_number_length};
ghost use Rattle.gated_journal.specs.Scanned.{Frames, OpensWith, Parts};
ghost use Rattle.gated_journal.specs.CutOff.{EndsInBody, HasNoRecord, EndsInRecords};
ghost use Rattle.definitions.specs.Area.{IsClosed};

use crate::append::OPEN;
use crate::lengths::LENGTH;

/// The four-byte number at the start, and the bytes after it.
fn number_at(bytes: &[u8]) -> Option<(u32, &[u8])>
    ensures long { IfSome result (λ found. body_number_length ≤ length bytes.now) }
    ensures number { IfSome result (λ found. found.0 ≡ from_be_bytes w32 (take body_number_length bytes.now)) }
    ensures rest { IfSome result (λ found. found.1.now ≡ drop body_number_length bytes.now) }
    ensures none { IsNone result → length bytes.now < body_number_length }
{
    let (prefix, rest) = bytes.split_at_checked(LENGTH as usize)?;
    let number = u32::from_be_bytes([prefix[0], prefix[1], prefix[2], prefix[3]]);
    Some((number, rest))
}

/// The length-prefixed body at the start, and the bytes after it.
#[tactic(auto, using(crate::proofs::Scanning::no_frame_short, crate::proofs::Scanning::no_frame_long, crate::proofs::Scanning::cut_long))]
fn frame_at(bytes: &[u8]) -> Option<(&[u8], &[u8])>
    ensures some { IfSome result (λ found. Frames bytes.now found.0.now found.1.now) }
    ensures none { IsNone result → (body rest : List ℕ) → Frames bytes.now body rest → ⊥ }
    ensures cut { IsNone result → EndsInBody bytes.now }
{
    let (count, rest) = number_at(bytes)?;
    let count = count as usize;
    if rest.len() < count {
        return None;
    }
    Some(rest.split_at(count))
}

/// The body of the open record at the start, and the bytes after it.
/// Promise (Areas and records): Records are parted in one way
/// By: `gated_journal::record_at`, `some`, `none`; `gated_journal::record_laws`
pub fn record_at(bytes: &[u8]) -> Option<(&[u8], &[u8])>
    ensures some { IfSome result (λ found. OpensWith bytes.now found.0.now found.1.now) }
    ensures none { IsNone result → (body rest : List ℕ) → OpensWith bytes.now body rest → ⊥ }
    ensures cut { IsNone result → HasNoRecord bytes.now }
{
    match bytes {
        [OPEN, suffix @ ..] => frame_at(suffix),
        _ => None,
    }
}

/// The bytes after the open records, if they begin with a closed gate.
#[tactic(auto, using(crate::proofs::Parting::parts_more, crate::proofs::Parting::shorter, crate::proofs::Parting::rest_closed))]
pub(crate) fn after_records(bytes: &[u8]) -> Option<&[u8]>
    ensures some { IfSome result (λ rest. IsClosed rest.now × (bodies : List (List ℕ)) × Parts bytes.now bodies rest.now) }
    ensures none { IsNone result → (bodies : List (List ℕ)) (rest : List ℕ) → Parts bytes.now bodies rest → IsClosed rest → ⊥ }
    ensures cut { IsNone result → EndsInRecords bytes.now }
{
    let mut rest = bytes;
    while let Some((_body, suffix)) = record_at(rest) {
        rest = suffix;
    }
    match rest.first() {
        Some(gate) if *gate != OPEN => Some(rest),
        _ => None,
    }
}
