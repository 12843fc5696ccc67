ghost use Rattle.std.specs.Prelude.{◌≡◌, ◌++◌, Ok, OnOk, IfErr, string_bytes};
ghost use Rattle.std.specs.List.{flat_map};
ghost use Rattle.wf_value.specs.Gives.{Gives, no_memory};
ghost use Rattle.wf_value.specs.ScalarValue.{scalar_text};
ghost use Rattle.wf_expr.specs.ScalarView.{shown};
ghost use Rattle.wf_expr.specs.TemplateValue.{operand_value, expression_value, piece_text};

use crate::context::Context;
use crate::piece::{Operand, Piece};
use crate::scalar_view::ScalarView;
use itoa::Buffer;
use std::alloc::Global;
use wf_value::{Chars, Refusal};

/// The value of an operand. A path without a value in the context gives the empty text.
pub(crate) fn operand_value<'a, C: Context>(operand: &'a Operand, context: &'a C) -> ScalarView<'a>
    ensures { shown result ≡ operand_value (C.values context.now) operand.now }
{
    match operand {
        Operand::Quoted(text) => ScalarView::Text(text.as_str()),
        Operand::Reference(names) => match context.value_of(names.as_slice()) {
            Some(value) => value,
            None => ScalarView::Text(""),
        },
    }
}

/// The first truthy value of the operands, else the last one.
pub(crate) fn expression_value<'a, C: Context>(
    operands: &'a [Operand],
    context: &'a C,
) -> ScalarView<'a>
    ensures { shown result ≡ expression_value (C.values context.now) operands.now }
{
    let mut last = ScalarView::Text("");
    for operand in operands {
        last = operand_value(operand, context);
        if last.truthy() {
            return last;
        }
    }
    last
}

/// Appends the text of a scalar.
fn push_scalar(text: &mut String, value: ScalarView<'_>) -> Result<(), Refusal>
    ensures ok { OnOk result (string_bytes text.new ≡ string_bytes text.old ++ scalar_text (shown value.entry)) }
    ensures memory { IfErr result (λ e. e ≡ no_memory) }
{
    match value {
        ScalarView::Null => {}
        ScalarView::Truth(true) => text.push_str("true")?,
        ScalarView::Truth(false) => text.push_str("false")?,
        ScalarView::Whole(whole) => text.push_str(Buffer::new().format(whole))?,
        ScalarView::Text(characters) => text.push_str(characters)?,
    }
    Ok(())
}

/// Appends the text of a piece.
pub(crate) fn push_piece<C: Context>(
    text: &mut String,
    piece: &Piece,
    context: &C,
) -> Result<(), Refusal>
    ensures ok { OnOk result (string_bytes text.new ≡ string_bytes text.old ++ piece_text (C.values context.now) piece.now) }
    ensures memory { IfErr result (λ e. e ≡ no_memory) }
{
    match piece {
        Piece::Plain(plain) => {
            text.push_str(plain.as_str())?;
            Ok(())
        }
        Piece::Braced(operands) => push_scalar(
            text,
            expression_value(operands.as_slice(), context),
        ),
    }
}

/// The concatenated texts of the pieces.
pub(crate) fn joined<C: Context>(
    alloc: Global,
    pieces: &[Piece],
    context: &C,
) -> Result<Chars, Refusal>
    ensures { Gives (λ t. t) result (Ok (flat_map (piece_text (C.values context.now)) pieces.now)) }
{
    let mut text = String::new(alloc);
    for piece in pieces {
        push_piece(&mut text, piece, context)?;
    }
    Ok(Chars::new(text))
}
