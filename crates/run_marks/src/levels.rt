//! A bitmap of two levels: the upper level has one bit for each word of the lower level, so that a search skips 64 empty words at a
//! time.

ghost use Rattle.std.specs.Prelude.{◌*◌};
ghost use Rattle.run_marks.specs.inner.Bits.{IsTopOf};
ghost use Rattle.run_marks.specs.Bits.{row_has};
ghost use Rattle.run_marks.specs.First.{IsFirstFrom};

use crate::row::first_in_row;
use crate::word::{first_bit, lowest_bit};

/// The first set bit of the words at or after an index.
pub(crate) fn first_marked(words: &[u64], tops: &[u64], from: usize) -> Option<usize>
    requires { IsTopOf words.now tops.now }
    ensures { IsFirstFrom (row_has words.now) from result }
{
    let v = from / 64;
    if v >= words.len() {
        return None;
    }
    match first_bit(words[v], from % 64) {
        Some(bit) => Some(v * 64 + bit),
        None => first_by_tops(words, tops, v + 1),
    }
}

/// The first set bit in the words from `v` on.
fn first_by_tops(words: &[u64], tops: &[u64], v: usize) -> Option<usize>
    requires { IsTopOf words.now tops.now }
    ensures { IsFirstFrom (row_has words.now) (v * 64) result }
{
    match first_in_row(tops, v) {
        Some(top) => Some(top * 64 + lowest_bit(words[top])),
        None => None,
    }
}
