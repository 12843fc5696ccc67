ghost use Rattle.std.specs.Prelude.{◌≡◌, ◌↔◌, ◌⊎◌, List, IsTrue, Result, IfOk, IfErr, Ok, Err};
ghost use Rattle.wf_expr.specs.Comparison.{lowered};
ghost use Rattle.wf_value.specs.Gives.{Gives, no_memory};
ghost use Rattle.wf_value.specs.ScalarValue.{scalar_text};
ghost use Rattle.wf_expr.specs.declared.piece.Piece.{Piece};
ghost use Rattle.wf_value.specs.declared.refusal.Refusal.{Refusal};
ghost use Rattle.wf_expr.specs.Faults.{wrong_expression, wrong_place};
ghost use Rattle.wf_expr.specs.TemplateValue.{SetsFlag, sets_flag, template_value};
ghost use Rattle.wf_expr.specs.Outcome.{IsOutcome, EncodesNone, EncodesElsewhere};
ghost use Rattle.wf_expr.specs.inner.Parsing.{outcome_of};
ghost use Rattle.wf_expr.specs.Profile.{Encodes, AllowedIn};

use crate::case::Case;
use crate::comparison::are_text;
use crate::context::Context;
use crate::context_site::ContextSite;
use crate::flag::view_sets_flag;
use crate::piece::Piece;
use crate::profile::{are_in_profile, pieces_allowed};
use crate::reader::read;
use crate::value::{expression_value, joined};
use std::alloc::Global;
use std::marker::Model;
use wf_value::{Code, Refusal, Scalar, Sequence, TryCopy};

/// A text with pieces `${{ .. }}`. In contracts it is the list of its pieces.
#[derive(Drop)]
pub struct Template {
    pieces: Sequence<Piece>,
}

impl Model for Template {
    ghost use Rattle.std.specs.Prelude.{List};
    ghost use Rattle.wf_expr.specs.declared.piece.Piece.{Piece};

    ghost Value = { List Piece };

    ghost view = { λ t. t.pieces };
}

impl Template {
    /// Parses a text. The `Err` is 17 if the text is not a template, else 18 if the site does not allow the context of a
    /// reference, and 50 when out of memory.
    /// Promise (Needs, matrices, templates and values): Parsing answers the grammar's outcome, in both directions: the template, 17 or 18; a
    ///   text has one outcome
    /// By: `wf_expr::Template::parse`, `ok`, `grammar`; `wf_expr::{a_text_has_one_outcome, spells_one_template}`
    /// Refusal (The layers below): `wf_expr`: `Template::parse`
    /// When: 17, then 18: exactly, with memory. 50: else
    /// Afterwards: nothing is made
    /// By: `grammar`, `expression`, `site`, `errors`
    pub fn parse(alloc: Global, text: &str, site: ContextSite) -> Result<Template, Refusal>
        ensures grammar { (outcome : Result (List Piece) Refusal) → IsOutcome text.now site outcome → Gives (λ p. p) result outcome }
        ensures ok { IfOk result (λ t. Encodes text.now t × AllowedIn site t) }
        ensures expression { result ≡ Err wrong_expression → EncodesNone text.now }
        ensures site { result ≡ Err wrong_place → EncodesElsewhere text.now site }
        ensures errors { IfErr result (λ e. (e ≡ wrong_expression) ⊎ (e ≡ wrong_place) ⊎ (e ≡ no_memory)) }
    {
        parsed(alloc, text, site)
    }

    /// Promise (Needs, matrices, templates and values): Templates are seen as the list of their pieces; copies are the same list
    /// By: `wf_expr::Template::pieces`; `wf_expr::BoundTemplate::{new, pieces}`; `wf_value::TryCopy::copy` of `wf_expr::{Template, BoundPiece,
    ///   BoundTemplate}`
    pub fn pieces(&self) -> &[Piece]
        ensures { result.now ≡ self.now }
    {
        self.pieces.as_slice()
    }

    /// The value of the template in the context. Its only `Err` is 50 (out of memory).
    /// Promise (Needs, matrices, templates and values): The value of a template is the definition's; whether its text is a given one up to ASCII
    ///   case, and whether it sets a flag, is answered memory or not
    /// By: `wf_expr::Template::{eval, is_text_ignoring_ascii_case, sets_flag}`; `wf_expr::flag_is_set_by_the_text_true`
    /// Refusal (The layers below): `wf_expr`: `Template::{eval, bind}`, `ScalarView::copy`; `Properties::{insert, nest}`
    /// When: 50
    /// Afterwards: each path has the value that it had
    /// By: one clause each (`Gives`); `Properties::insert`, `err`, `memory`
    pub fn eval<C: Context>(&self, alloc: Global, context: &C) -> Result<Scalar, Refusal>
        ensures { Gives (λ s. s) result (Ok (template_value (C.values context.now) self.now)) }
    {
        match self.pieces() {
            [Piece::Braced(operands)] => expression_value(operands.as_slice(), context).copy(alloc),
            pieces => Ok(Scalar::Text(joined(alloc, pieces, context)?)),
        }
    }

    /// Whether the text of the template's value in the context equals `text` up to ASCII case, as labels compare. It takes no
    /// memory.
    pub fn is_text_ignoring_ascii_case<C: Context>(&self, context: &C, text: &[u8]) -> bool
        ensures { IsTrue result ↔
            (lowered (scalar_text (template_value (C.values context.now) self.now)) ≡ lowered text.now) }
    {
        are_text(self.pieces(), context, text, Case::Insensitive)
    }

    /// Whether the template's value in the context sets a flag, that is, whether it is the boolean true or the text `true`. It
    /// takes no memory.
    pub fn sets_flag<C: Context>(&self, context: &C) -> bool
        ensures set { IsTrue result ↔ SetsFlag (template_value (C.values context.now) self.now) }
        ensures test { result ≡ sets_flag (template_value (C.values context.now) self.now) }
    {
        match self.pieces() {
            [Piece::Braced(operands)] => {
                view_sets_flag(expression_value(operands.as_slice(), context))
            }
            pieces => are_text(pieces, context, b"true", Case::Sensitive),
        }
    }
}

impl TryCopy for Template {
    fn copy(&self, alloc: Global) -> Result<Self, Refusal> {
        Ok(Template {
            pieces: self.pieces.copy(alloc)?,
        })
    }
}

fn parsed(alloc: Global, text: &str, site: ContextSite) -> Result<Template, Refusal>
    ensures { Gives (λ p. p) result (outcome_of text.now site) }
{
    let pieces = read(alloc, text)?;
    if !are_in_profile(pieces.as_slice()) {
        return Err(Refusal::Numbered(Code::Expression));
    }
    if !pieces_allowed(site, pieces.as_slice()) {
        return Err(Refusal::Numbered(Code::PlaceOfContext));
    }
    Ok(Template { pieces })
}
