//! The index of the first run of each delivery, so that a repeated delivery is found without a scan.

ghost use Rattle.std.specs.Prelude.{◌≡◌, ◌<◌, ℕ, IfOk, List, None, Ok, OnOk, Some, if◌then◌else◌, string_bytes, unwrap_or};
ghost use Rattle.std.specs.Str.{bytes_eq};
ghost use Rattle.indexmap.specs.IndexMap.{get_by_text, spare};
ghost use Rattle.wf_value.specs.Gives.{ErrsOnlyByMemory, Gives};

use indexmap::IndexMap;
use run_plan::DeliveryId;
use std::alloc::Global;
use wf_value::{Chars, Refusal};

/// The index of the first run of each delivery.
#[derive(Drop)]
pub struct DeliveryIndexes {
    pub indexes: IndexMap<String, usize>,
}

impl DeliveryIndexes {
    pub fn new(alloc: Global) -> Self
        ensures { (delivery : List ℕ) → get_by_text result.indexes delivery ≡ None }
    {
        DeliveryIndexes {
            indexes: IndexMap::new(alloc),
        }
    }

    /// The index that is kept for a delivery.
    pub fn index_of(&self, delivery: &DeliveryId) -> Option<usize>
        ensures { result ≡ get_by_text self.now.indexes delivery.now }
    {
        match self.indexes.get(delivery.as_str()) {
            Some(index) => Some(*index),
            None => None,
        }
    }

    /// Reserves memory, so that keeping one more index takes none.
    pub fn make_room(&mut self) -> Result<(), Refusal>
        ensures err { ErrsOnlyByMemory result }
        ensures same { (delivery : List ℕ) → get_by_text self.new.indexes delivery ≡ get_by_text self.old.indexes delivery }
        ensures room { OnOk result (0 < spare self.new.indexes) }
    {
        self.indexes.reserve(1)?;
        Ok(())
    }

    /// Keeps the index for a delivery, unless one is kept for it already.
    pub fn keep(&mut self, delivery: String, index: usize)
        requires { 0 < spare self.old.indexes }
        ensures { (other : List ℕ) → get_by_text self.new.indexes other
            ≡ (if bytes_eq (string_bytes delivery) other then Some (unwrap_or (get_by_text self.old.indexes other) index)
            else get_by_text self.old.indexes other) }
    {
        match self.indexes.entry(delivery) {
            Ok(entry) => {
                entry.or_insert(index);
            }
            Err(_) => unreachable!(),
        }
    }

    /// A copy of the indices.
    pub fn copy(&self) -> Result<Self, Refusal>
        ensures err { ErrsOnlyByMemory result }
        ensures same { IfOk result (λ copy. (delivery : List ℕ) → get_by_text copy.indexes delivery ≡ get_by_text self.now.indexes delivery) }
    {
        Ok(DeliveryIndexes {
            indexes: self.indexes.clone()?,
        })
    }
}

/// A copy of a text.
pub fn string_of(alloc: Global, text: &str) -> Result<String, Refusal>
    ensures { Gives string_bytes result (Ok text.now) }
{
    Ok(Chars::from_str(alloc, text)?.into_string())
}
