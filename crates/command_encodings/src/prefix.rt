ghost use Rattle.command_encodings.specs.inner.Reading.{Finds, byte_at, bytes_at, text_at, word_at};

use crate::decode_error::DecodeError;

/// The first byte, and the bytes after it.
#[tactic(auto, unfolding(crate::specs::inner::Reading::byte_at))]
pub fn byte_at(bytes: &[u8]) -> Result<(u8, &[u8]), DecodeError>
    ensures { Finds (λ f. (f.0, f.1.now)) result (byte_at bytes.now) }
{
    match bytes {
        [] => Err(DecodeError::NoEncoding),
        [byte, rest @ ..] => Ok((*byte, rest)),
    }
}

/// The number in the first four bytes, and the bytes after it.
#[tactic(auto, unfolding(crate::specs::inner::Reading::word_at))]
pub fn word_at(bytes: &[u8]) -> Result<(u32, &[u8]), DecodeError>
    ensures { Finds (λ f. (f.0, f.1.now)) result (word_at bytes.now) }
{
    if bytes.len() < 4 {
        return Err(DecodeError::NoEncoding);
    }
    let (prefix, rest) = bytes.split_at(4);
    let number = u32::from_be_bytes([prefix[0], prefix[1], prefix[2], prefix[3]]);
    Ok((number, rest))
}

/// The first `count` bytes, and the bytes after them.
fn bytes_at(bytes: &[u8], count: usize) -> Result<(&[u8], &[u8]), DecodeError>
    ensures { Finds (λ f. (f.0.now, f.1.now)) result (bytes_at count bytes.now) }
{
    if bytes.len() < count {
        return Err(DecodeError::NoEncoding);
    }
    Ok(bytes.split_at(count))
}

/// The bytes that follow their length, and the bytes after them.
#[tactic(auto, unfolding(crate::specs::inner::Reading::text_at))]
pub fn text_at(bytes: &[u8]) -> Result<(&[u8], &[u8]), DecodeError>
    ensures { Finds (λ f. (f.0.now, f.1.now)) result (text_at bytes.now) }
{
    let (length, rest) = word_at(bytes)?;
    bytes_at(rest, length as usize)
}
