ghost use Rattle.std.specs.Prelude.{◌≡◌, ◌+◌, ◌<◌, ◌≤◌, ℕ, List, length, take, drop, IfSome, IsNone};
ghost use Rattle.std.specs.Int.{from_be_bytes, w64};
ghost use Rattle.definitions.specs.Area.{Head};
ghost use Rattle.gated_journal.specs.CutOff.{EndsInHead};
ghost use Rattle.gated_journal.specs.Scanned.{HasText, HasHead};
ghost use Rattle.gated_journal.specs.ScannedHead.{head_of};

/// What follows an area's gate.
#[derive(Clone, Copy)]
pub struct AreaHead<'a> {
    pub version: u8,
    pub generation: u64,
    pub text: &'a [u8],
}

/// The eight-byte number at the start, and the bytes after it.
fn long_number_at(bytes: &[u8]) -> Option<(u64, &[u8])>
    ensures long { IfSome result (λ found. 8 ≤ length bytes.now) }
    ensures number { IfSome result (λ found. found.0 ≡ from_be_bytes w64 (take 8 bytes.now)) }
    ensures rest { IfSome result (λ found. found.1.now ≡ drop 8 bytes.now) }
    ensures none { IsNone result → length bytes.now < 8 }
{
    let (prefix, rest) = bytes.split_at_checked(8)?;
    let number = u64::from_be_bytes([
        prefix[0], prefix[1], prefix[2], prefix[3], prefix[4], prefix[5], prefix[6], prefix[7],
    ]);
    Some((number, rest))
}

/// The length-prefixed text at the start, and the bytes after it.
#[tactic(auto, using(crate::proofs::Heads::no_text, crate::proofs::Heads::no_text_long, crate::proofs::Heads::cut_long))]
fn text_at(bytes: &[u8]) -> Option<(&[u8], &[u8])>
    ensures some { IfSome result (λ found. HasText bytes.now found.0.now found.1.now) }
    ensures none { IsNone result → (text rest : List ℕ) → HasText bytes.now text rest → ⊥ }
    ensures cut { IsNone result → length bytes.now < 8 + from_be_bytes w64 (take 8 bytes.now) }
{
    let (count, suffix) = long_number_at(bytes)?;
    let count = count as usize;
    if suffix.len() < count {
        return None;
    }
    Some(suffix.split_at(count))
}

/// The head at the start, and the bytes after it.
pub(crate) fn head_at(bytes: &[u8]) -> Option<(AreaHead<'_>, &[u8])>
    ensures some { IfSome result (λ found. HasHead bytes.now (head_of found.0) found.1.now) }
    ensures none { IsNone result → (head : Head) (rest : List ℕ) → HasHead bytes.now head rest → ⊥ }
    ensures cut { IsNone result → EndsInHead bytes.now }
{
    let [version, suffix @ ..] = bytes else {
        return None;
    };
    let (generation, suffix) = long_number_at(suffix)?;
    let (text, rest) = text_at(suffix)?;
    let head = AreaHead {
        version: *version,
        generation,
        text,
    };
    Some((head, rest))
}
