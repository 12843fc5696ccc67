ghost use Rattle.std.specs.Prelude.{◌≡◌, ◌↔◌, IsTrue};
ghost use Rattle.std.specs.List.{flat_map};
ghost use Rattle.std.specs.Option.{option_copied};
ghost use Rattle.wf_value.specs.ScalarValue.{scalar_text};
ghost use Rattle.wf_expr.specs.Bound.{bound_text};
ghost use Rattle.wf_expr.specs.Comparison.{folded, IsRestAfter};
ghost use Rattle.wf_expr.specs.ScalarView.{shown};
ghost use Rattle.wf_expr.specs.TemplateValue.{piece_text};

use crate::bound::BoundPiece;
use crate::case::Case;
use crate::context::Context;
use crate::piece::Piece;
use crate::results::NeedResults;
use crate::scalar_view::ScalarView;
use crate::value::expression_value;
use itoa::Buffer;

fn are_alike(one: &[u8], other: &[u8], case: Case) -> bool
    ensures { IsTrue result ↔ (folded case one.now ≡ folded case other.now) }
{
    match case {
        Case::Sensitive => one == other,
        Case::Insensitive => one.eq_ignore_ascii_case(other),
    }
}

/// The rest of the text after the prefix, or `None` if the text does not begin with it.
fn suffix<'t>(text: &'t [u8], prefix: &[u8], case: Case) -> Option<&'t [u8]>
    ensures { IsRestAfter case prefix.now text.now (option_copied result) }
{
    if text.len() < prefix.len() {
        return None;
    }
    let (head, rest) = text.split_at(prefix.len());
    if are_alike(head, prefix, case) {
        Some(rest)
    } else {
        None
    }
}

fn after_scalar<'t>(text: &'t [u8], value: ScalarView<'_>, case: Case) -> Option<&'t [u8]>
    ensures { IsRestAfter case (scalar_text (shown value.entry)) text.now (option_copied result) }
{
    match value {
        ScalarView::Null => suffix(text, b"", case),
        ScalarView::Truth(true) => suffix(text, b"true", case),
        ScalarView::Truth(false) => suffix(text, b"false", case),
        ScalarView::Whole(whole) => suffix(text, Buffer::new().format(whole).as_bytes(), case),
        ScalarView::Text(characters) => suffix(text, characters.as_bytes(), case),
    }
}

fn after_piece<'t, C: Context>(
    text: &'t [u8],
    piece: &Piece,
    context: &C,
    case: Case,
) -> Option<&'t [u8]>
    ensures { IsRestAfter case (piece_text (C.values context.now) piece.now) text.now (option_copied result) }
{
    match piece {
        Piece::Plain(plain) => suffix(text, plain.as_str().as_bytes(), case),
        Piece::Braced(operands) => {
            after_scalar(text, expression_value(operands.as_slice(), context), case)
        }
    }
}

/// Whether the concatenated texts of the pieces equal the text.
pub(crate) fn are_text<C: Context>(pieces: &[Piece], context: &C, text: &[u8], case: Case) -> bool
    ensures { IsTrue result ↔ (folded case (flat_map (piece_text (C.values context.now)) pieces.now) ≡ folded case text.now) }
{
    let mut rest = text;
    for piece in pieces {
        match after_piece(rest, piece, context, case) {
            Some(suffix) => rest = suffix,
            None => return false,
        }
    }
    rest.is_empty()
}

/// Whether the concatenated texts of the bound pieces, for the given results, equal the text.
pub(crate) fn are_bound_text<R: NeedResults>(
    pieces: &[BoundPiece],
    results: &R,
    text: &[u8],
    case: Case,
) -> bool
    ensures { IsTrue result ↔ (folded case (bound_text (R.result_of results.now) pieces.now) ≡ folded case text.now) }
{
    let mut left = text;
    for piece in pieces {
        match suffix(left, piece.text(results).as_bytes(), case) {
            Some(suffix) => left = suffix,
            None => return false,
        }
    }
    left.is_empty()
}
