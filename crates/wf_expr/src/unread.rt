ghost use Rattle.std.specs.Prelude.{◌≡◌, ◌↔◌, ◌++◌, [], ◌∷◌, IsTrue, MatchOption};
ghost use Rattle.wf_expr.specs.Bound.{bound_text};

use crate::bound::BoundPiece;
use crate::results::NeedResults;
use std::marker::Model;

/// The unread bytes of a bound template's text for the given results. In contracts it is the list of them.
#[derive(Drop)]
pub(crate) struct Unread<'a, R: NeedResults> {
    text: &'a [u8],
    pieces: &'a [BoundPiece],
    results: &'a R,
}

impl<'a, R: NeedResults> Model for Unread<'a, R> {
    ghost use Rattle.std.specs.Prelude.{List, ℕ, ◌++◌};
    ghost use Rattle.wf_expr.specs.Bound.{bound_text};

    ghost Value = { List ℕ };

    ghost view = { λ u. u.text.now ++ bound_text (R.result_of u.results.now) u.pieces.now };
}

impl<'a, R: NeedResults> Unread<'a, R> {
    /// The bytes of a text, followed by those of the pieces.
    pub fn new(text: &'a [u8], pieces: &'a [BoundPiece], results: &'a R) -> Self
        ensures { result ≡ text.now ++ bound_text (R.result_of results.now) pieces.now }
    {
        Unread {
            text,
            pieces,
            results,
        }
    }

    /// The next byte.
    pub fn next(&mut self) -> Option<u8>
        ensures { MatchOption result (self.old ≡ []) (λ byte. self.old ≡ byte ∷ self.new) }
    {
        while self.text.is_empty() {
            match self.pieces {
                [] => return None,
                [piece, pieces @ ..] => {
                    self.text = piece.text(self.results).as_bytes();
                    self.pieces = pieces;
                }
            }
        }
        let (byte, rest) = self.text.split_first()?;
        self.text = rest;
        Some(*byte)
    }
}

/// Whether both have the same unread bytes.
pub(crate) fn are_same<R: NeedResults, S: NeedResults>(
    mut one: Unread<'_, R>,
    mut other: Unread<'_, S>,
) -> bool
    ensures { IsTrue result ↔ (one ≡ other) }
{
    while let Some(byte) = one.next() {
        if other.next() != Some(byte) {
            return false;
        }
    }
    other.next().is_none()
}
