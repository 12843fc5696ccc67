//! A 64-bit word.

ghost use Rattle.std.specs.Prelude.{◌≡◌, ◌≢◌, ℕ, ◌<◌, true, false, Some, IfSome};
ghost use Rattle.run_marks.specs.Bits.{word_has};
ghost use Rattle.run_marks.specs.First.{IsFirstFrom};

pub(crate) fn with_bit(word: u64, k: usize) -> u64
    requires { k < 64 }
    ensures set { word_has result k ≡ true }
    ensures others { (i : ℕ) → i ≢ k → word_has result i ≡ word_has word i }
{
    word | (1 << k)
}

pub(crate) fn without_bit(word: u64, k: usize) -> u64
    requires { k < 64 }
    ensures clear { word_has result k ≡ false }
    ensures zero { word ≡ 0 → result ≡ 0 }
    ensures others { (i : ℕ) → i < 64 → i ≢ k → word_has result i ≡ word_has word i }
{
    word & !(1 << k)
}

/// The index of the first set bit at or after an index.
pub(crate) fn first_bit(word: u64, from: usize) -> Option<usize>
    requires { from < 64 }
    ensures first { IsFirstFrom (word_has word) from result }
    ensures small { IfSome result (λ i. i < 64) }
{
    let rest = word & (u64::MAX << from);
    if rest == 0 {
        None
    } else {
        Some(rest.trailing_zeros() as usize)
    }
}

/// The index of the lowest set bit of a non-zero word.
pub(crate) fn lowest_bit(word: u64) -> usize
    requires { word ≢ 0 }
    ensures first { IsFirstFrom (word_has word) 0 (Some result) }
    ensures small { result < 64 }
{
    word.trailing_zeros() as usize
}
