ghost use Rattle.std.specs.Prelude.{◌≡◌, ◌≢◌, ◌↔◌, [], IsTrue, codes};
ghost use Rattle.wf_expr.specs.Bound.{bound_piece_text, bound_text, first_result};
ghost use Rattle.wf_expr.specs.Comparison.{lowered};

use crate::case::Case;
use crate::comparison::are_bound_text;
use crate::results::NeedResults;
use crate::unread::{Unread, are_same};
use std::alloc::Global;
use std::marker::Model;
use wf_value::{Chars, JobResult, Refusal, Sequence, TryCopy};

/// A piece of a bound template: the indices of the needs whose results it looks up, in order, and the text if none of them has a
/// result.
#[derive(Drop)]
pub struct BoundPiece {
    pub needs: Sequence<usize>,
    pub otherwise: Chars,
}

/// The result of the first of these needs that has one.
fn first_result<R: NeedResults>(needs: &[usize], results: &R) -> Option<JobResult>
    ensures { result ≡ first_result (R.result_of results.now) needs.now }
{
    for need in needs {
        if let Some(result) = results.result_of(*need) {
            return Some(result);
        }
    }
    None
}

impl BoundPiece {
    /// The text of the piece for the given results.
    pub fn text<R: NeedResults>(&self, results: &R) -> &str
        ensures { result.now ≡ bound_piece_text (R.result_of results.now) self.now }
    {
        match first_result(self.needs.as_slice(), results) {
            Some(result) => result.word(),
            None => self.otherwise.as_str(),
        }
    }
}

impl TryCopy for BoundPiece {
    fn copy(&self, alloc: Global) -> Result<Self, Refusal> {
        Ok(BoundPiece {
            needs: self.needs.copy(alloc)?,
            otherwise: self.otherwise.copy(alloc)?,
        })
    }
}

/// A template in which everything except the results of needs is looked up. Given the results, its text is known without memory. In
/// contracts it is the list of its pieces.
#[derive(Drop)]
pub struct BoundTemplate {
    pieces: Sequence<BoundPiece>,
}

impl Model for BoundTemplate {
    ghost use Rattle.std.specs.Prelude.{List};
    ghost use Rattle.wf_expr.specs.declared.bound.BoundPiece.{BoundPiece};

    ghost Value = { List BoundPiece };

    ghost view = { λ t. t.pieces };
}

impl BoundTemplate {
    /// Moves a `Vec` into a template, without copying it.
    pub fn new(pieces: Vec<BoundPiece>) -> Self
        ensures { result ≡ pieces.items }
    {
        BoundTemplate {
            pieces: Sequence::new(pieces),
        }
    }

    pub fn pieces(&self) -> &[BoundPiece]
        ensures { result.now ≡ self.now }
    {
        self.pieces.as_slice()
    }

    /// Whether the text for the given results is non-empty.
    pub fn has_text<R: NeedResults>(&self, results: &R) -> bool
        ensures { IsTrue result ↔ (bound_text (R.result_of results.now) self.now ≢ []) }
    {
        Unread::new(b"", self.pieces(), results).next().is_some()
    }

    /// Whether two templates, each with its own results, have the same text.
    pub fn is_same_text<R: NeedResults, S: NeedResults>(
        &self,
        results: &R,
        other: &Self,
        other_results: &S,
    ) -> bool
        ensures { IsTrue result ↔
            (bound_text (R.result_of results.now) self.now ≡ bound_text (S.result_of other_results.now) other.now) }
    {
        let text = Unread::new(b"", self.pieces(), results);
        are_same(text, Unread::new(b"", other.pieces(), other_results))
    }

    /// Whether the text for the given results equals `text` up to ASCII case, as labels compare. It takes no memory.
    pub fn is_text_ignoring_ascii_case<R: NeedResults>(&self, results: &R, text: &[u8]) -> bool
        ensures { IsTrue result ↔ (lowered (bound_text (R.result_of results.now) self.now) ≡ lowered text.now) }
    {
        are_bound_text(self.pieces(), results, text, Case::Insensitive)
    }

    /// Whether the text for the given results sets a flag, that is, whether it is `true`.
    pub fn sets_flag<R: NeedResults>(&self, results: &R) -> bool
        ensures { IsTrue result ↔ (bound_text (R.result_of results.now) self.now ≡ codes "true") }
    {
        let text = Unread::new(b"", self.pieces(), results);
        are_same(text, Unread::new(b"true", &[], results))
    }
}

impl TryCopy for BoundTemplate {
    fn copy(&self, alloc: Global) -> Result<Self, Refusal> {
        Ok(BoundTemplate {
            pieces: self.pieces.copy(alloc)?,
        })
    }
}
