//! The index of a table's runs.

ghost use Rattle.std.specs.Prelude.{◌≡◌, ◌<◌, ℕ, [], IfOk, List, Ok, OnOk, Some, if◌then◌else◌, string_bytes, unwrap_or};
ghost use Rattle.std.specs.Str.{bytes_eq};
ghost use Rattle.indexmap.specs.IndexMap.{get_by_text, spare};
ghost use Rattle.wf_value.specs.Gives.{ErrsOnlyByMemory};
ghost use Rattle.definitions.specs.SmallText.{Admitted};
ghost use Rattle.table_model.specs.LegContext.{same_workflow};
ghost use Rattle.table_bindings.specs.inner.LabelNumbers.{LegsAreOffered};
ghost use Rattle.table_runs.specs.inner.Counted.{AreCounted, count_of};
ghost use Rattle.table_runs.specs.inner.Delivered.{FindsFirst};

use crate::rows::counts::Counts;
use crate::rows::workflow::Workflow;
use forgotten_runs::{DeliveryIndexes, string_of};
use label_lists::LabelLists;
use run_plan::{DeliveryId, Number};
use std::alloc::Global;
use wf_value::Refusal;

/// The index of the first run of each delivery, the number of runs of each workflow, and the runs that may have a ready leg for a list of
/// labels.
#[derive(Drop)]
pub(crate) struct Index {
    pub deliveries: DeliveryIndexes,
    pub counts: Counts,
    pub lists: LabelLists,
}

impl Index {
    #[tactic(auto, using(crate::proofs::LegsOffered::none_offered))]
    pub(crate) fn new(alloc: Global) -> Self
        ensures deliveries { FindsFirst [] result.deliveries.indexes }
        ensures counts { AreCounted [] result.counts.counts }
        ensures offered { LegsAreOffered [] [] result.lists }
    {
        Index {
            deliveries: DeliveryIndexes::new(alloc),
            counts: Counts::new(alloc),
            lists: LabelLists::new(alloc),
        }
    }

    /// Takes the memory for one more run: that of its index and its count, and a copy of its delivery, which it returns.
    pub(crate) fn make_room(
        &mut self,
        alloc: Global,
        delivery: &DeliveryId,
    ) -> Result<String, Refusal>
        ensures err { ErrsOnlyByMemory result }
        ensures copy { IfOk result (λ copy. string_bytes copy ≡ delivery.now) }
        ensures found { (other : List ℕ) → get_by_text self.new.deliveries.indexes other ≡ get_by_text self.old.deliveries.indexes other }
        ensures counted { (event : Admitted) → count_of self.new.counts.counts event ≡ count_of self.old.counts.counts event }
        ensures lists { self.new.lists ≡ self.old.lists }
        ensures room { OnOk result ((0 < spare self.new.deliveries.indexes) × (0 < spare self.new.counts.counts)) }
    {
        self.deliveries.make_room()?;
        self.counts.make_room()?;
        string_of(alloc, delivery.as_str())
    }

    /// Enters a run of this delivery and workflow: that at index `r`, with this number. An earlier run of the delivery is found as before.
    pub(crate) fn enter(&mut self, delivery: String, workflow: Workflow, number: Number, r: usize)
        requires deliveries { 0 < spare self.old.deliveries.indexes }
        requires counts { 0 < spare self.old.counts.counts }
        ensures found { (other : List ℕ) → get_by_text self.new.deliveries.indexes other
            ≡ (if bytes_eq (string_bytes delivery) other then Some (unwrap_or (get_by_text self.old.deliveries.indexes other) r)
            else get_by_text self.old.deliveries.indexes other) }
        ensures counted { (event : Admitted) → count_of self.new.counts.counts event
            ≡ (if same_workflow workflow event then number else count_of self.old.counts.counts event) }
        ensures lists { self.new.lists ≡ self.old.lists }
    {
        self.deliveries.keep(delivery, r);
        self.counts.add(workflow, number, r);
    }

    /// A copy of the index.
    pub(crate) fn copy(&self, alloc: Global) -> Result<Self, Refusal>
        ensures err { ErrsOnlyByMemory result }
        ensures deliveries { IfOk result (λ index. (delivery : List ℕ)
            → get_by_text index.deliveries.indexes delivery ≡ get_by_text self.now.deliveries.indexes delivery) }
        ensures counts { IfOk result (λ index. (event : Admitted)
            → count_of index.counts.counts event ≡ count_of self.now.counts.counts event) }
        ensures lists { IfOk result (λ index. index.lists ≡ self.now.lists) }
    {
        Ok(Index {
            deliveries: self.deliveries.copy()?,
            counts: self.counts.copy()?,
            lists: self.lists.copy(alloc)?,
        })
    }
}
