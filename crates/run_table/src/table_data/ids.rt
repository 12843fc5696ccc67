//! The ids of runs, which go on from those that are forgotten, and the runs of deliveries.

ghost use Rattle.std.specs.Prelude.{◌≡◌, ◌+◌, ◌<◌, option_copied};
ghost use Rattle.definitions.specs.Limits.{last_number};
ghost use Rattle.table_model.specs.Sound.{IsSound};
ghost use Rattle.table_model.specs.TableState.{index_of, last_id, run_of_delivery, run_with};

use crate::table_data::TableData;
use run_plan::{DeliveryId, Number};
use table_model::Run;

impl TableData {
    /// The index of the run with an id.
    pub(crate) fn index_of(&self, id: Number) -> usize
        ensures { result ≡ index_of self.now id }
    {
        let through = self.forgotten.through();
        id.get().saturating_sub(through + 1) as usize
    }

    /// The run with an id, if there is one that is not forgotten.
    pub(crate) fn run_with(&self, id: Number) -> Option<&Run>
        ensures { option_copied result ≡ run_with self.now id }
    {
        if id.get() <= self.forgotten.through() {
            return None;
        }
        self.runs.as_slice().get(self.index_of(id))
    }

    /// The id of the run at an index.
    pub(super) fn id_at(&self, index: usize) -> Number
        requires { self.now.forgotten.through + index < last_number }
        ensures { result ≡ self.now.forgotten.through + index + 1 }
    {
        Number::new(self.forgotten.through() + index as u32 + 1)
    }

    /// The id of the last run; 0 if there never was one.
    pub(super) fn last_id(&self) -> u32
        ensures { result ≡ last_id self.now }
    {
        self.forgotten.through() + self.runs.len() as u32
    }

    /// The id of the run that a delivery made, if it is known.
    pub(super) fn run_of_delivery(&self, delivery: &DeliveryId) -> Option<Number>
        requires { IsSound self.now }
        ensures { result ≡ run_of_delivery self.now delivery.now }
    {
        if let Some(run) = self.forgotten.run_of(delivery) {
            return Some(run);
        }
        let index = self.runs.position(delivery)?;
        Some(self.id_at(index))
    }
}
