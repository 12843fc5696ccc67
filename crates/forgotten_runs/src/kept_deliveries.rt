//! The deliveries of the last runs that are forgotten, each found without a scan.

ghost use Rattle.std.specs.Prelude.{◌≡◌, ◌++◌, ◌≤◌, [], IfOk, Ok, length};
ghost use Rattle.std.specs.List.{position};
ghost use Rattle.std.specs.Str.{bytes_eq};
ghost use Rattle.wf_value.specs.Gives.{ErrsOnlyByMemory, Gives};
ghost use Rattle.table_model.specs.Forgotten.{deliveries_of, last_of, max_kept_deliveries};
ghost use Rattle.forgotten_runs.specs.inner.Delivered.{FindsKept};

use crate::delivery_indexes::{DeliveryIndexes, string_of};
use run_plan::DeliveryId;
use std::alloc::Global;
use std::marker::Model;
use table_model::Run;
use wf_value::{Refusal, TryCopy, copy_items};

/// Of how many forgotten runs the deliveries are kept.
pub(crate) const MAX_KEPT_DELIVERIES: usize = 10_000;

/// The deliveries, the oldest first.
#[derive(Drop)]
pub(crate) struct KeptDeliveries {
    deliveries: Vec<DeliveryId>,
    indexes: DeliveryIndexes,
}

impl Model for KeptDeliveries {
    ghost use Rattle.std.specs.Prelude.{List, ℕ};
    ghost use Rattle.forgotten_runs.specs.inner.Delivered.{FindsKept};

    ghost Value = { List (List ℕ) };

    ghost view = { λ k. k.deliveries.items };

    ghost invariant = { λ k. FindsKept k.deliveries.items k.indexes.indexes };
}

impl KeptDeliveries {
    pub(crate) fn new(alloc: Global) -> Self
        ensures { result ≡ [] }
    {
        KeptDeliveries {
            deliveries: Vec::new(alloc),
            indexes: DeliveryIndexes::new(alloc),
        }
    }

    /// These deliveries.
    pub(crate) fn of(alloc: Global, deliveries: Vec<DeliveryId>) -> Result<Self, Refusal>
        ensures { Gives (λ kept. kept) result (Ok deliveries.items) }
    {
        let indexes = indexes_of(alloc, &deliveries)?;
        Ok(KeptDeliveries {
            deliveries,
            indexes,
        })
    }

    pub(crate) fn as_slice(&self) -> &[DeliveryId]
        ensures { result.now ≡ self.now }
    {
        self.deliveries.as_slice()
    }

    /// The index of a delivery.
    pub(crate) fn position(&self, delivery: &DeliveryId) -> Option<usize>
        ensures { result ≡ position (λ known. bytes_eq known delivery.now) self.now }
    {
        self.indexes.index_of(delivery)
    }

    /// The last of these and of the deliveries of the runs that come next.
    pub(crate) fn with(&self, alloc: Global, runs: &[Run]) -> Result<Self, Refusal>
        ensures { Gives (λ kept. kept) result (Ok (last_of max_kept_deliveries (self.now ++ deliveries_of runs.now))) }
    {
        let had = self.deliveries.len();
        let past = (had + runs.len()).saturating_sub(MAX_KEPT_DELIVERIES);
        let mut kept = copy_items(alloc, &self.deliveries[past.min(had)..])?;
        push_deliveries(alloc, &mut kept, &runs[past.saturating_sub(had)..])?;
        KeptDeliveries::of(alloc, kept)
    }
}

impl TryCopy for KeptDeliveries {
    fn copy(&self, alloc: Global) -> Result<Self, Refusal> {
        Ok(KeptDeliveries {
            deliveries: copy_items(alloc, &self.deliveries)?,
            indexes: self.indexes.copy()?,
        })
    }
}

/// The index of each delivery.
fn indexes_of(alloc: Global, deliveries: &[DeliveryId]) -> Result<DeliveryIndexes, Refusal>
    ensures err { ErrsOnlyByMemory result }
    ensures finds { IfOk result (λ indexes. FindsKept deliveries.now indexes.indexes) }
{
    let mut indexes = DeliveryIndexes::new(alloc);
    for i in 0..deliveries.len() {
        indexes.make_room()?;
        let delivery = string_of(alloc, deliveries[i].as_str())?;
        indexes.keep(delivery, i);
    }
    Ok(indexes)
}

/// Appends the deliveries of runs.
fn push_deliveries(alloc: Global, kept: &mut Vec<DeliveryId>, runs: &[Run]) -> Result<(), Refusal>
    ensures { Gives (λ _. kept.new.items) result (Ok (kept.old.items ++ deliveries_of runs.now)) }
{
    for run in runs {
        kept.push(run.prepared().delivery().copy(alloc)?)?;
    }
    Ok(())
}
