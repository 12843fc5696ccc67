ghost use Rattle.std.specs.Prelude.{◌≡◌, ◌↔◌, ◌≤◌, [], ◌∷◌, IsTrue, All, codes, count_by, sum_by};
ghost use Rattle.definitions.specs.Limits.{max_references};
ghost use Rattle.wf_expr.specs.Profile.{IsShared, IsInContext, InProfile, IsAllowed, OfReference, OfReferences, AllowedIn};
ghost use Rattle.wf_expr.specs.Profile.{IsInProfile, is_reference, reference_count};

use crate::context_site::ContextSite;
use crate::piece::{Operand, Piece};
use wf_value::Chars;

/// The maximum number of references in a template.
pub(crate) const MAX_REFERENCES: usize = 32;

fn is_shared(context: &str) -> bool
    ensures { IsTrue result ↔ IsShared context.now }
{
    context == "github" || context == "inputs" || context == "vars"
}

/// Whether a reference with these names belongs to the profile.
pub(crate) fn in_profile(path: &[Chars]) -> bool
    ensures { IsTrue result ↔ InProfile path.now }
{
    match path {
        [context, _, names @ ..] => is_in_context(context.as_str(), names),
        _ => false,
    }
}

/// Whether the context has paths with these names after the first two.
fn is_in_context(context: &str, names: &[Chars]) -> bool
    ensures { IsTrue result ↔ IsInContext context.now names.now }
{
    if is_shared(context) {
        return true;
    }
    match context {
        "strategy" | "matrix" => true,
        "needs" => is_result(names),
        _ => false,
    }
}

/// Whether the list is the one name `result`.
fn is_result(names: &[Chars]) -> bool
    ensures { IsTrue result ↔ (names.now ≡ codes "result" ∷ []) }
{
    match names {
        [name] => is_text(name, "result"),
        _ => false,
    }
}

fn is_text(name: &Chars, text: &str) -> bool
    ensures { IsTrue result ↔ (name.now ≡ text.now) }
{
    name.as_str() == text
}

/// Whether a reference with these names is allowed in the site.
pub(crate) fn is_allowed(site: ContextSite, path: &[Chars]) -> bool
    ensures { IsTrue result ↔ IsAllowed site path.now }
{
    match (site, path) {
        (ContextSite::Job, _) => true,
        (ContextSite::Workflow, []) => false,
        (ContextSite::Workflow, [context, ..]) => is_shared(context.as_str()),
    }
}

fn operand_in_profile(operand: &Operand) -> bool
    ensures { IsTrue result ↔ OfReference InProfile operand.now }
{
    match operand {
        Operand::Quoted(_) => true,
        Operand::Reference(path) => in_profile(path.as_slice()),
    }
}

fn operands_in_profile(operands: &[Operand]) -> bool
    ensures { IsTrue result ↔ All (OfReference InProfile) operands.now }
{
    operands.iter().all(|operand| operand_in_profile(operand))
}

fn piece_in_profile(piece: &Piece) -> bool
    ensures { IsTrue result ↔ OfReferences InProfile piece.now }
{
    match piece {
        Piece::Plain(_) => true,
        Piece::Braced(operands) => operands_in_profile(operands.as_slice()),
    }
}

fn pieces_in_profile(pieces: &[Piece]) -> bool
    ensures { IsTrue result ↔ All (OfReferences InProfile) pieces.now }
{
    pieces.iter().all(|piece| piece_in_profile(piece))
}

fn operand_allowed(site: ContextSite, operand: &Operand) -> bool
    ensures { IsTrue result ↔ OfReference (IsAllowed site) operand.now }
{
    match operand {
        Operand::Quoted(_) => true,
        Operand::Reference(path) => is_allowed(site, path.as_slice()),
    }
}

fn operands_allowed(site: ContextSite, operands: &[Operand]) -> bool
    ensures { IsTrue result ↔ All (OfReference (IsAllowed site)) operands.now }
{
    operands
        .iter()
        .all(|operand| operand_allowed(site, operand))
}

fn piece_allowed(site: ContextSite, piece: &Piece) -> bool
    ensures { IsTrue result ↔ OfReferences (IsAllowed site) piece.now }
{
    match piece {
        Piece::Plain(_) => true,
        Piece::Braced(operands) => operands_allowed(site, operands.as_slice()),
    }
}

/// Whether the site allows every context.
pub(crate) fn pieces_allowed(site: ContextSite, pieces: &[Piece]) -> bool
    ensures { IsTrue result ↔ AllowedIn site pieces.now }
{
    pieces.iter().all(|piece| piece_allowed(site, piece))
}

fn references_of(operands: &[Operand]) -> usize
    ensures { result ≡ count_by is_reference operands.now }
{
    operands
        .iter()
        .filter(|operand| matches!(operand, Operand::Reference(_)))
        .count()
}

fn references(piece: &Piece) -> usize
    ensures { result ≡ reference_count piece.now }
{
    match piece {
        Piece::Plain(_) => 0,
        Piece::Braced(operands) => references_of(operands.as_slice()),
    }
}

/// Whether the number of references is within the limit.
fn are_few(pieces: &[Piece]) -> bool
    ensures { IsTrue result ↔ (sum_by reference_count pieces.now ≤ max_references) }
{
    let mut left = MAX_REFERENCES;
    for piece in pieces {
        let count = references(piece);
        if left < count {
            return false;
        }
        left -= count;
    }
    true
}

/// Whether the references belong to the profile and their number is within the limit.
pub(crate) fn are_in_profile(pieces: &[Piece]) -> bool
    ensures { IsTrue result ↔ IsInProfile pieces.now }
{
    pieces_in_profile(pieces) && are_few(pieces)
}
