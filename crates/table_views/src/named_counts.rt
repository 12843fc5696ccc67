//! How often each name comes. The first names have a count each, and all others one together.

ghost use Rattle.std.specs.Prelude.{◌≡◌, ◌++◌, ◌∷◌, [], ℕ, IfSome, List, OnOk, length, string_bytes, ◌<◌};
ghost use Rattle.std.specs.List.{position};
ghost use Rattle.std.specs.Str.{bytes_eq};
ghost use Rattle.table_views.specs.NamedCounts.{AreCounts};

use crate::metric_lines::one_more;
use std::alloc::{AllocError, Global};
use wf_value::Chars;

/// How many names have a count of their own.
const NAMED: usize = 50;

/// A name, and how often it came.
#[derive(Drop)]
pub(crate) struct NamedCount {
    pub(crate) name: Chars,
    pub(crate) count: u64,
}

/// Counts by name.
#[derive(Drop)]
pub(crate) struct NamedCounts {
    pub(crate) named: Vec<NamedCount>,
    pub(crate) other: u64,
}

impl NamedCounts {
    /// No name has come.
    pub(crate) fn none(alloc: Global) -> NamedCounts
        ensures { AreCounts [] result }
    {
        NamedCounts {
            named: Vec::new(alloc),
            other: 0,
        }
    }

    fn index_of(&self, name: &str) -> Option<usize>
        ensures within { IfSome result (λ index. index < length self.now.named.items) }
        ensures first { result ≡ position (λ n. bytes_eq name.now n.name) self.now.named.items }
    {
        self.named
            .iter()
            .position(|named| name == named.name.as_str())
    }

    /// A name has come.
    pub(crate) fn add(&mut self, name: String) -> Result<(), AllocError>
        ensures { (names : List (List ℕ)) → AreCounts names self.old → OnOk result (AreCounts (names ++ string_bytes name ∷ []) self.new) }
    {
        if let Some(index) = self.index_of(name.as_str()) {
            one_more(&mut self.named[index].count);
        } else if self.named.len() < NAMED {
            self.named.push(NamedCount {
                name: Chars::new(name),
                count: 1,
            })?;
        } else {
            one_more(&mut self.other);
        }
        Ok(())
    }
}
