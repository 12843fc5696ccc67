//! Labels that are plain text, which are the same for all legs of a job.

ghost use Rattle.std.specs.Prelude.{◌≡◌, IfOk, IfSome};
ghost use Rattle.wf_expr.specs.TemplateValue.{Values, template_value};
ghost use Rattle.wf_value.specs.Gives.{ErrsOnlyByMemory};
ghost use Rattle.wf_value.specs.ScalarValue.{scalar_text};
ghost use Rattle.table_bindings.specs.PlainLabels.{AreTheTexts};

use label_lists::LabelList;
use std::alloc::Global;
use wf_expr::{Piece, Template};
use wf_value::{Chars, Refusal, Sequence, TryCopy};

/// The text of a label that is one plain text.
fn plain_text(label: &Template) -> Option<&Chars>
    ensures { IfSome result (λ text. (values : Values) → scalar_text (template_value values label.now) ≡ text.now) }
{
    let pieces = label.pieces();
    if pieces.len() != 1 {
        return None;
    }
    match &pieces[0] {
        Piece::Plain(text) => Some(text),
        Piece::Braced(_) => None,
    }
}

/// The texts of the labels, if each is one plain text.
pub(crate) fn plain_texts(alloc: Global, labels: &[Template]) -> Result<Option<LabelList>, Refusal>
    ensures err { ErrsOnlyByMemory result }
    ensures texts { IfOk result (λ found. IfSome found (AreTheTexts labels.now)) }
{
    let mut texts = Vec::with_capacity(alloc, labels.len())?;
    for label in labels {
        match plain_text(label) {
            Some(text) => texts.push(text.copy(alloc)?)?,
            None => return Ok(None),
        }
    }
    Ok(Some(LabelList::new(Sequence::new(texts))))
}
