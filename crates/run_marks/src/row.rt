//! A row of words as a bitmap: bit `k` is bit `k % 64` of word `k / 64`.

ghost use Rattle.std.specs.Prelude.{◌≡◌, ◌≢◌, ◌*◌, ◌/◌, ◌≤◌, ◌<◌, true, false, length, max, nat_eq, slice_index, OnOk};
ghost use Rattle.run_marks.specs.inner.Bits.{AreFew, SameWords, SameWordsBut};
ghost use Rattle.run_marks.specs.Bits.{row_has};
ghost use Rattle.run_marks.specs.Marked.{Puts};
ghost use Rattle.run_marks.specs.First.{IsFirstFrom};

use crate::word::{first_bit, with_bit, without_bit};
use std::alloc::AllocError;

/// Extends the row to at least this length. No added bit is set.
pub(crate) fn grow(words: &mut Vec<u64>, len: usize) -> Result<(), AllocError>
    ensures same { SameWords words.old.items words.new.items }
    ensures keeps { length words.old.items ≤ length words.new.items }
    ensures most { length words.new.items ≤ max (length words.old.items) len }
    ensures grown { OnOk result (len ≤ length words.new.items) }
{
    if len > words.len() {
        words.resize(len, 0)?;
    }
    Ok(())
}

pub(crate) fn set_bit(words: &mut [u64], k: usize)
    requires { k / 64 < length words.old }
    ensures puts { Puts true k words.old words.new }
    ensures others { SameWordsBut (k / 64) words.old words.new }
    ensures some { slice_index words.new (k / 64) ≢ 0 }
{
    let v = k / 64;
    words[v] = with_bit(words[v], k % 64);
}

/// Clears a bit and returns whether its word is 0 afterwards.
pub(crate) fn clear_bit(words: &mut [u64], k: usize) -> bool
    requires { k / 64 < length words.old }
    ensures puts { Puts false k words.old words.new }
    ensures others { SameWordsBut (k / 64) words.old words.new }
    ensures zero { slice_index words.old (k / 64) ≡ 0 → slice_index words.new (k / 64) ≡ 0 }
    ensures left { result ≡ nat_eq (slice_index words.new (k / 64)) 0 }
{
    let v = k / 64;
    let word = without_bit(words[v], k % 64);
    words[v] = word;
    word == 0
}

/// The first set bit at or after an index.
pub(crate) fn first_in_row(words: &[u64], from: usize) -> Option<usize>
    requires { AreFew words.now }
    ensures { IsFirstFrom (row_has words.now) from result }
{
    let start = from / 64;
    if start >= words.len() {
        return None;
    }
    match first_bit(words[start], from % 64) {
        Some(bit) => Some(start * 64 + bit),
        None => first_in_words(words, start + 1),
    }
}

/// The first set bit in the words from `start` on.
fn first_in_words(words: &[u64], start: usize) -> Option<usize>
    requires { AreFew words.now }
    ensures { IsFirstFrom (row_has words.now) (start * 64) result }
{
    for v in start..words.len() {
        if let Some(bit) = first_bit(words[v], 0) {
            return Some(v * 64 + bit);
        }
    }
    None
}
