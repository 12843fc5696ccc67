//! Consecutive values of the first layout at the front of bytes.

ghost use Rattle.std.specs.Prelude.{ℕ, List, Option};
ghost use Rattle.command_encodings.specs.inner.Reading.{Finds, items_at};

use command_encodings::DecodeError;
use std::alloc::Global;

/// A type that can be read from the front of bytes, and whose encoding in the first layout differs from that in the
/// second.
pub(super) trait ReadFirstAt: Drop {
    ghost first_prefix_at: { List ℕ → Option (Self × List ℕ) };

    /// The value at the front of the bytes, and the bytes after it.
    fn read_first_at(alloc: Global, bytes: &[u8]) -> Result<(Self, &[u8]), DecodeError>
        ensures { Finds (λ f. (f.0, f.1.now)) result (first_prefix_at bytes.now) };
}

/// `count` consecutive values, and the bytes after them.
pub(super) fn first_list_at<T: ReadFirstAt>(
    alloc: Global,
    count: usize,
    bytes: &[u8],
) -> Result<(Vec<T>, &[u8]), DecodeError>
    ensures { Finds (λ f. (f.0.items, f.1.now)) result (items_at T.first_prefix_at count bytes.now) }
{
    let mut values = Vec::new(alloc);
    let mut rest = bytes;
    for _ in 0..count {
        let (value, suffix) = T::read_first_at(alloc, rest)?;
        values.push(value)?;
        rest = suffix;
    }
    Ok((values, rest))
}
