ghost use Rattle.std.specs.Prelude.{◌≡◌, ◌≤◌, ◌&&◌, IfOk, nat_le};
ghost use Rattle.definitions.specs.Limits.{last_number};
ghost use Rattle.definitions.specs.SmallText.{short_text_of};
ghost use Rattle.command_encodings.specs.Commands.{is_numbered};
ghost use Rattle.command_encodings.specs.inner.Reading.{Finds, kept};
ghost use Rattle.command_encodings.specs.inner.ReadingCommands.{labels_at, number_at, result_at, result_of, small_text_at};

use crate::decode_error::DecodeError;
use crate::list_reader::{ReadAt, list_at};
use crate::prefix::{text_at, word_at};
use run_plan::{Form, LAST_NUMBER, Labels, MAX_LABELS, SmallText};
use std::alloc::Global;
use wf_value::Outcome;

/// Whether the value is at least 1 and at most `most`.
pub fn is_within(value: u32, most: u32) -> bool
    ensures { result ≡ (nat_le 1 value && nat_le value most) }
{
    1 <= value && value <= most
}

/// The value, if it is a command's number.
fn numbered(value: u32) -> Result<u32, DecodeError>
    ensures gives { Finds (λ n. n) result (kept is_numbered value) }
    ensures range { IfOk result (λ n. (1 ≤ n) × (n ≤ last_number)) }
{
    if 1 <= value && value <= LAST_NUMBER {
        return Ok(value);
    }
    Err(DecodeError::NoEncoding)
}

/// The command's number at the front of the bytes, and the bytes after it.
#[tactic(auto, unfolding(crate::specs::inner::ReadingCommands::number_at))]
pub fn number_at(bytes: &[u8]) -> Result<(u32, &[u8]), DecodeError>
    ensures gives { Finds (λ f. (f.0, f.1.now)) result (number_at bytes.now) }
    ensures range { IfOk result (λ f. (1 ≤ f.0) × (f.0 ≤ last_number)) }
{
    let (value, rest) = word_at(bytes)?;
    let value = numbered(value)?;
    Ok((value, rest))
}

/// The text, if it has the form.
fn small_text_of<F: Form>(alloc: Global, text: &[u8]) -> Result<SmallText<F>, DecodeError>
    ensures { Finds (λ t. t) result (short_text_of F.allows text.now) }
{
    match SmallText::of(alloc, text) {
        Ok(Some(small)) => Ok(small),
        Ok(None) => Err(DecodeError::NoEncoding),
        Err(_) => Err(DecodeError::NoMemory),
    }
}

/// The text of a form at the front of the bytes, and the bytes after it.
#[tactic(auto, unfolding(crate::specs::inner::ReadingCommands::small_text_at))]
pub fn small_text_at<F: Form>(
    alloc: Global,
    bytes: &[u8],
) -> Result<(SmallText<F>, &[u8]), DecodeError>
    ensures { Finds (λ f. (f.0, f.1.now)) result (small_text_at F.allows bytes.now) }
{
    let (text, rest) = text_at(bytes)?;
    let small = small_text_of(alloc, text)?;
    Ok((small, rest))
}

impl<F: Form> ReadAt for SmallText<F> {
    ghost prefix_at = { small_text_at F.allows };

    fn read_at(alloc: Global, bytes: &[u8]) -> Result<(SmallText<F>, &[u8]), DecodeError> {
        small_text_at(alloc, bytes)
    }
}

/// The counted labels at the front of the bytes, and the bytes after them.
#[tactic(auto, unfolding(crate::specs::inner::ReadingCommands::labels_at))]
pub(crate) fn labels_at(alloc: Global, bytes: &[u8]) -> Result<(Labels, &[u8]), DecodeError>
    ensures { Finds (λ f. (f.0, f.1.now)) result (labels_at bytes.now) }
{
    let (count, rest) = word_at(bytes)?;
    if !is_within(count, MAX_LABELS as u32) {
        return Err(DecodeError::NoEncoding);
    }
    let (labels, rest) = list_at(alloc, count as usize, rest)?;
    Ok((Labels::new(labels), rest))
}

/// The result that a byte encodes.
fn result_of(byte: u8) -> Result<Outcome, DecodeError>
    ensures { Finds (λ r. r) result (result_of byte) }
{
    match byte {
        1 => Ok(Outcome::Success),
        2 => Ok(Outcome::Failure),
        3 => Ok(Outcome::Cancelled),
        _ => Err(DecodeError::NoEncoding),
    }
}

/// The result at the front of the bytes, and the bytes after it.
#[tactic(auto, unfolding(crate::specs::inner::ReadingCommands::result_at))]
pub(crate) fn result_at(bytes: &[u8]) -> Result<(Outcome, &[u8]), DecodeError>
    ensures { Finds (λ f. (f.0, f.1.now)) result (result_at bytes.now) }
{
    match bytes {
        [] => Err(DecodeError::NoEncoding),
        [byte, rest @ ..] => {
            let outcome = result_of(*byte)?;
            Ok((outcome, rest))
        }
    }
}
