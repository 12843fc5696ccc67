ghost use Rattle.std.specs.Prelude.{◌≡◌, ◌==◌, false, length, nat_le, IsTrue, Ok, None};
ghost use Rattle.std.specs.List.{list_all};
ghost use Rattle.definitions.specs.Limits.{max_labels};
ghost use Rattle.wf_value.specs.Gives.{Gives};
ghost use Rattle.definitions.specs.SmallText.{are_labels, is_short, is_label_byte, label_list_of, split_at_commas};

use crate::small_text::Label;
use std::alloc::Global;
use std::marker::Model;
use wf_value::{Refusal, Same, Sequence, TryCopy};

/// The maximum number of labels of a runner.
pub const MAX_LABELS: usize = 16;

/// The labels of a runner: 1 to 16.
/// GitHub Docs, "Using self-hosted runners in a workflow".
#[derive(Drop)]
pub struct Labels {
    labels: Sequence<Label>,
}

impl Model for Labels {
    ghost use Rattle.std.specs.Prelude.{List, ℕ, IsTrue};
    ghost use Rattle.definitions.specs.SmallText.{are_labels};

    ghost Value = { List (List ℕ) };

    ghost view = { λ l. l.labels };

    ghost invariant = { λ l. IsTrue (are_labels l.labels) };
}

impl Labels {
    /// Moves a `Vec` of 1 to 16 labels into it, without copying it.
    pub fn new(labels: Vec<Label>) -> Self
        requires { IsTrue (are_labels labels.items) }
        ensures { result ≡ labels.items }
    {
        Labels {
            labels: Sequence::new(labels),
        }
    }

    /// Parses comma-separated labels. Bytes of any other form give `None`, which takes no memory.
    /// Promise (Bodies, plans and replies): The labels of a runner are 1 to 16 labels, in order
    /// By: `run_plan::Labels::of`, `gives`, `answers`; `run_plan::Labels::as_slice`, `form`
    pub fn of(alloc: Global, text: &[u8]) -> Result<Option<Self>, Refusal>
        ensures gives { Gives (λ l. l) result (Ok (label_list_of text.now)) }
        ensures answers { are_labels (split_at_commas text.now) ≡ false → result ≡ Ok None }
    {
        if !are_labels(text) {
            return Ok(None);
        }
        let labels = labels_of_parts(alloc, text)?;
        Ok(Some(Labels {
            labels: Sequence::new(labels),
        }))
    }

    pub fn as_slice(&self) -> &[Label]
        ensures labels { result.now ≡ self.now }
        ensures form { IsTrue (are_labels self.now) }
    {
        self.labels.as_slice()
    }
}

impl TryCopy for Labels {
    fn copy(&self, alloc: Global) -> Result<Self, Refusal> {
        Ok(Labels {
            labels: self.labels.copy(alloc)?,
        })
    }
}

impl Same for Labels {
    fn same(&self, other: &Self) -> bool {
        self.labels.same(&other.labels)
    }
}

fn is_comma(byte: &u8) -> bool
    ensures { result ≡ (byte.now == 44) }
{
    *byte == b','
}

fn are_few(text: &[u8]) -> bool
    ensures { result ≡ nat_le (length (split_at_commas text.now)) max_labels }
{
    text.split(is_comma).count() <= MAX_LABELS
}

fn each_is_label(text: &[u8]) -> bool
    ensures { result ≡ list_all (is_short is_label_byte) (split_at_commas text.now) }
{
    text.split(is_comma).all(|part| Label::is_of_form(part))
}

fn are_labels(text: &[u8]) -> bool
    ensures { result ≡ are_labels (split_at_commas text.now) }
{
    are_few(text) && each_is_label(text)
}

fn labels_of_parts(alloc: Global, text: &[u8]) -> Result<Vec<Label>, Refusal>
    requires { IsTrue (are_labels (split_at_commas text.now)) }
    ensures { Gives (λ v. v.items) result (Ok (split_at_commas text.now)) }
{
    let mut labels = Vec::new(alloc);
    for part in text.split(is_comma) {
        labels.push(Label::copy_of(alloc, part)?)?;
    }
    Ok(labels)
}
