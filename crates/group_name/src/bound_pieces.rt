//! Whether bound names are made of the same pieces, so that they have the same text whatever the results.

ghost use Rattle.std.specs.Prelude.{◌≡◌, ◌↔◌, IsTrue};

use wf_expr::BoundPiece;
use wf_value::Same;

fn same_piece(one: &BoundPiece, other: &BoundPiece) -> bool
    ensures { IsTrue result ↔ (one.now ≡ other.now) }
{
    one.needs.same(&other.needs) && one.otherwise.same(&other.otherwise)
}

/// Whether both are the same pieces in the same order.
pub fn same_pieces(one: &[BoundPiece], other: &[BoundPiece]) -> bool
    ensures { IsTrue result ↔ (one.now ≡ other.now) }
{
    if one.len() != other.len() {
        return false;
    }
    for (x, y) in one.iter().zip(other) {
        if !same_piece(x, y) {
            return false;
        }
    }
    true
}
