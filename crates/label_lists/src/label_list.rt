//! A list of labels as the key of a map.

ghost use Rattle.std.specs.Prelude.{◌≡◌};
ghost use Rattle.std.specs.Cmp.Lexicographic.{bytes_decides};
ghost use Rattle.std.specs.Cmp.Rules.{comparing};
ghost use Rattle.std.specs.Hash as fed;
ghost use Rattle.std.specs.List.{fold};
ghost use Rattle.std.proofs.Common.{rules};
ghost use Rattle.label_lists.specs.inner.Labels.{hashed, labels_eq};

use std::alloc::Global;
use std::hash::{Hash, Hasher};
use std::marker::Model;
use wf_value::{Chars, Refusal, Same, Sequence, TryCopy};

/// The texts of labels. In contracts it is the list of them.
#[derive(Drop)]
pub struct LabelList {
    labels: Sequence<Chars>,
}

impl Model for LabelList {
    ghost use Rattle.std.specs.Prelude.{List, ℕ};

    ghost Value = { List (List ℕ) };

    ghost view = { λ l. l.labels };
}

impl LabelList {
    pub fn new(labels: Sequence<Chars>) -> Self
        ensures { result ≡ labels }
    {
        LabelList { labels }
    }

    pub fn as_slice(&self) -> &[Chars]
        ensures { result.now ≡ self.now }
    {
        self.labels.as_slice()
    }
}

impl TryCopy for LabelList {
    fn copy(&self, alloc: Global) -> Result<Self, Refusal> {
        Ok(LabelList {
            labels: self.labels.copy(alloc)?,
        })
    }
}

impl PartialEq for LabelList {
    ghost eq = { labels_eq };

    ghost laws = { Prim.search (comparing, rules) };

    fn eq(&self, other: &LabelList) -> bool {
        self.labels.same(&other.labels)
    }
}

impl Eq for LabelList {
    ghost laws = { Prim.search (comparing, rules) };
}

impl Hash for LabelList {
    ghost hash_input = { hashed };

    ghost respects_eq = { (fed.items_Alike (fed.same_Alike fed.str bytes_decides)).fed };

    fn hash<H: Hasher>(&self, state: &mut H) {
        hash_labels(self.labels.as_slice(), state);
    }
}

/// Hashes the length, then each label.
fn hash_labels<H: Hasher>(labels: &[Chars], state: &mut H)
    ensures { state.new ≡ fold H.write state.old (hashed labels.now) }
{
    state.write_usize(labels.len());
    for i in 0..labels.len() {
        labels[i].as_str().hash(state);
    }
}
