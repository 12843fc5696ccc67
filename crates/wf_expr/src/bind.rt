ghost use Rattle.std.specs.Prelude.{◌≡◌, ◌↔◌, codes, Ok, IfOk};
ghost use Rattle.wf_value.specs.Gives.{Gives};
ghost use Rattle.wf_value.specs.ScalarValue.{scalar_text};
ghost use Rattle.wf_value.specs.declared.scalar.Scalar.{Scalar};
ghost use Rattle.wf_expr.specs.Bound.{HasResults, Results, referenced_needs, bound_of, bound_piece, bound_text, need_of_operand, needs_of_piece};
ghost use Rattle.wf_expr.specs.TemplateValue.{Values, SetsFlag, template_value};

use crate::bound::{BoundPiece, BoundTemplate};
use crate::context::Context;
use crate::piece::{Operand, Piece};
use crate::results::Needs;
use crate::scalar_view::ScalarView;
use crate::template::Template;
use crate::value::{operand_value, push_piece};
use std::alloc::Global;
use wf_value::{Chars, Refusal, Sequence};

/// The context before any need has a result.
#[derive(Drop)]
struct Known<'a, C, N> {
    context: &'a C,
    needs: &'a N,
}

impl<'a, C: Context, N: Needs> Context for Known<'a, C, N> {
    ghost use Rattle.wf_expr.specs.Bound.{no_results, with_results};

    ghost values = { λ known. with_results (C.values known.context.now) (N.need_of known.needs.now) no_results };

    fn value_of(&self, path: &[Chars]) -> Option<ScalarView<'_>> {
        match self.needs.need_of(path) {
            Some(_) => None,
            None => self.context.value_of(path),
        }
    }
}

/// The need whose result the operand gives, if any.
fn need_of_operand<N: Needs>(operand: &Operand, needs: &N) -> Option<usize>
    ensures { result ≡ need_of_operand (N.need_of needs.now) operand.now }
{
    match operand {
        Operand::Quoted(_) => None,
        Operand::Reference(names) => needs.need_of(names.as_slice()),
    }
}

/// The needs that the operands look up, in order, up to the first operand whose known value is truthy.
fn referenced_needs<'a, C: Context, N: Needs>(
    alloc: Global,
    operands: &'a [Operand],
    known: &'a Known<'a, C, N>,
) -> Result<Vec<usize>, Refusal>
    ensures { Gives (λ v. v.items) result
        (Ok (referenced_needs (C.values known.now.context.now) (N.need_of known.now.needs.now) operands.now)) }
{
    let mut referenced = Vec::new(alloc);
    for operand in operands {
        if operand_value(operand, known).truthy() {
            return Ok(referenced);
        }
        if let Some(need) = need_of_operand(operand, known.needs) {
            referenced.push(need)?;
        }
    }
    Ok(referenced)
}

fn needs_of_piece<'a, C: Context, N: Needs>(
    alloc: Global,
    piece: &'a Piece,
    known: &'a Known<'a, C, N>,
) -> Result<Vec<usize>, Refusal>
    ensures { Gives (λ v. v.items) result
        (Ok (needs_of_piece (C.values known.now.context.now) (N.need_of known.now.needs.now) piece.now)) }
{
    match piece {
        Piece::Plain(_) => Ok(Vec::new(alloc)),
        Piece::Braced(operands) => referenced_needs(alloc, operands.as_slice(), known),
    }
}

fn bound_piece<'a, C: Context, N: Needs>(
    alloc: Global,
    piece: &'a Piece,
    known: &'a Known<'a, C, N>,
) -> Result<BoundPiece, Refusal>
    ensures { Gives (λ b. b) result
        (Ok (bound_piece (C.values known.now.context.now) (N.need_of known.now.needs.now) piece.now)) }
{
    let needs = needs_of_piece(alloc, piece, known)?;
    let mut otherwise = String::new(alloc);
    push_piece(&mut otherwise, piece, known)?;
    Ok(BoundPiece {
        needs: Sequence::new(needs),
        otherwise: Chars::new(otherwise),
    })
}

fn bound_pieces<'a, C: Context, N: Needs>(
    alloc: Global,
    pieces: &'a [Piece],
    known: &'a Known<'a, C, N>,
) -> Result<Vec<BoundPiece>, Refusal>
    ensures { Gives (λ v. v.items) result
        (Ok (bound_of (C.values known.now.context.now) (N.need_of known.now.needs.now) pieces.now)) }
{
    let mut bound = Vec::with_capacity(alloc, pieces.len())?;
    for piece in pieces {
        bound.push(bound_piece(alloc, piece, known)?)?;
    }
    Ok(bound)
}

impl Template {
    /// Looks up everything except the results of needs; the context is not asked for those. For any results, the bound template has
    /// the same text as the value of this template. Its only `Err` is 50 (out of memory).
    /// Promise (Needs, matrices, templates and values): A bound template has, by any results of needs, the text of the template's value in the
    ///   context with them. Comparing it needs no memory
    /// By: `wf_expr::Template::bind`, `gives`, `text`; `wf_expr::BoundTemplate::{has_text, is_same_text, sets_flag}`
    pub fn bind<C: Context, N: Needs>(
        &self,
        alloc: Global,
        context: &C,
        needs: &N,
    ) -> Result<BoundTemplate, Refusal>
        ensures gives { Gives (λ b. b) result (Ok (bound_of (C.values context.now) (N.need_of needs.now) self.now)) }
        ensures text { IfOk result (λ b. (results : Results) (values : Values)
            → HasResults (C.values context.now) (N.need_of needs.now) results values
            → scalar_text (template_value values self.now) ≡ bound_text results b) }
    {
        let known = Known { context, needs };
        let bound = bound_pieces(alloc, self.pieces(), &known)?;
        Ok(BoundTemplate::new(bound))
    }
}

/// A value sets a flag if and only if its text is `true`.
pub fn flag_is_set_by_the_text_true()
    ensures { (value : Scalar) → SetsFlag value ↔ (scalar_text value ≡ codes "true") }
{}
