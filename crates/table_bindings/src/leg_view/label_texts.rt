//! The texts of the labels that a leg asks for.

ghost use Rattle.std.specs.Prelude.{Ok};
ghost use Rattle.wf_value.specs.Gives.{Gives};
ghost use Rattle.wf_value.specs.ScalarValue.{scalar_text};
ghost use Rattle.wf_expr.specs.TemplateValue.{template_value};
ghost use Rattle.table_model.specs.LegContext.{context_of, label_texts};

use crate::leg_context::LegContext;
use crate::leg_view::LegView;
use itoa::Buffer;
use std::alloc::Global;
use wf_expr::Template;
use wf_value::{Chars, Refusal, Sequence};

impl<'a> LegView<'a> {
    pub fn label_texts(&self, alloc: Global) -> Result<Sequence<Chars>, Refusal>
        ensures { Gives (λ texts. texts) result (Ok (label_texts (context_of self.now) self.now.job.labels)) }
    {
        let mut id_digits = Buffer::new();
        let mut number_digits = Buffer::new();
        let mut attempt_digits = Buffer::new();
        let context = self.context(&mut id_digits, &mut number_digits, &mut attempt_digits);
        let texts = texts_of(alloc, self.job.labels.as_slice(), &context)?;
        Ok(Sequence::new(texts))
    }
}

fn text_of(alloc: Global, label: &Template, context: &LegContext<'_>) -> Result<Chars, Refusal>
    ensures { Gives (λ text. text) result (Ok (scalar_text (template_value (context_of context.now) label.now))) }
{
    let value = label.eval(alloc, context)?;
    value.text(alloc)
}

fn texts_of(
    alloc: Global,
    labels: &[Template],
    context: &LegContext<'_>,
) -> Result<Vec<Chars>, Refusal>
    ensures { Gives (λ texts. texts.items) result (Ok (label_texts (context_of context.now) labels.now)) }
{
    let mut texts = Vec::with_capacity(alloc, labels.len())?;
    for label in labels {
        texts.push(text_of(alloc, label, context)?)?;
    }
    Ok(texts)
}
