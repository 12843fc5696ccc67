//! The forgotten runs of a table.

ghost use Rattle.std.specs.Prelude.{◌≡◌, ◌+◌, ◌-◌, ◌<◌, ◌≤◌, Ok, length, option_map};
ghost use Rattle.std.specs.List.{position};
ghost use Rattle.std.specs.Str.{bytes_eq};
ghost use Rattle.definitions.specs.Limits.{last_number};
ghost use Rattle.wf_value.specs.Gives.{Gives};
ghost use Rattle.table_model.specs.Forgotten.{forgotten_of, none_forgotten, with_forgotten};
ghost use Rattle.table_model.specs.Sound.{ForgottenFit};

use crate::kept_deliveries::KeptDeliveries;
use crate::workflow_counts::{WorkflowCount, WorkflowCounts};
use run_plan::{DeliveryId, Number, Prepared};
use std::alloc::Global;
use std::marker::Model;
use table_model::Run;
use wf_value::{Refusal, TryCopy};

/// The forgotten runs: the last id, the counts of their workflows, and the deliveries of the last of them.
#[derive(Drop)]
pub struct ForgottenRuns {
    through: u32,
    counts: WorkflowCounts,
    deliveries: KeptDeliveries,
}

impl Model for ForgottenRuns {
    ghost use Rattle.std.specs.Prelude.{◌≤◌};
    ghost use Rattle.definitions.specs.Limits.{last_number};
    ghost use Rattle.table_model.specs.Forgotten.{ForgottenRuns as ForgottenState};
    ghost use Rattle.table_model.specs.Sound.{ForgottenFit};

    ghost Value = { ForgottenState };

    ghost view = { λ f. record { through = f.through; counts = f.counts; deliveries = f.deliveries } };

    ghost invariant = { λ f. ForgottenFit (record { through = f.through; counts = f.counts; deliveries = f.deliveries })
        × (f.through ≤ last_number) };
}

impl ForgottenRuns {
    /// No run is forgotten.
    pub fn none(alloc: Global) -> Self
        ensures { result ≡ none_forgotten }
    {
        ForgottenRuns {
            through: 0,
            counts: WorkflowCounts::new(alloc),
            deliveries: KeptDeliveries::new(alloc),
        }
    }

    /// With this last id, these counts and these deliveries.
    pub(crate) fn of(
        alloc: Global,
        through: u32,
        counts: Vec<WorkflowCount>,
        deliveries: Vec<DeliveryId>,
    ) -> Result<Self, Refusal>
        requires fit { ForgottenFit (record { through = through; counts = counts.items; deliveries = deliveries.items }) }
        requires most { through ≤ last_number }
        ensures { Gives (λ f. f) result (Ok (record { through = through; counts = counts.items; deliveries = deliveries.items })) }
    {
        Ok(ForgottenRuns {
            through,
            counts: WorkflowCounts::of(counts),
            deliveries: KeptDeliveries::of(alloc, deliveries)?,
        })
    }

    /// The last id that is forgotten, and with it all before; 0 if none is.
    pub fn through(&self) -> u32
        ensures through { result ≡ self.now.through }
        ensures most { result ≤ last_number }
        ensures fit { ForgottenFit self.now }
    {
        self.through
    }

    /// The counts of workflows, in order.
    pub fn counts(&self) -> &[WorkflowCount]
        ensures { result.now ≡ self.now.counts }
    {
        self.counts.as_slice()
    }

    /// The deliveries that are kept, the oldest first.
    pub fn deliveries(&self) -> &[DeliveryId]
        ensures { result.now ≡ self.now.deliveries }
    {
        self.deliveries.as_slice()
    }

    /// The index of a delivery among those that are kept.
    pub fn position(&self, delivery: &DeliveryId) -> Option<usize>
        ensures { result ≡ position (λ known. bytes_eq known delivery.now) self.now.deliveries }
    {
        self.deliveries.position(delivery)
    }

    /// The id of the forgotten run that a delivery made, if the delivery is kept.
    pub fn run_of(&self, delivery: &DeliveryId) -> Option<Number>
        ensures { result ≡ option_map (λ i. self.now.through - length self.now.deliveries + i + 1)
            (position (λ known. bytes_eq known delivery.now) self.now.deliveries) }
    {
        let index = self.deliveries.position(delivery)?;
        let before = self.through as usize - self.deliveries.as_slice().len();
        Some(Number::new((before + index + 1) as u32))
    }

    /// The id that the next run gets, after so many runs that are not forgotten.
    pub fn next_id(&self, runs: usize) -> Number
        requires { self.now.through + runs < last_number }
        ensures { result ≡ self.now.through + runs + 1 }
    {
        Number::new(self.through + runs as u32 + 1)
    }

    /// The number that the next run of a workflow gets, by its number among the runs that are not forgotten.
    pub fn next_number(&self, event: &Prepared, number: Number) -> Number
        requires { self.now.through + number ≤ last_number }
        ensures { result ≡ forgotten_of self.now.counts event.now + number }
    {
        Number::new(self.counts.of_workflow(event) + number.get())
    }

    /// With the runs that come next forgotten too.
    pub fn with(&self, alloc: Global, runs: &[Run]) -> Result<Self, Refusal>
        requires { self.now.through + length runs.now ≤ last_number }
        ensures { Gives (λ f. f) result (Ok (with_forgotten self.now runs.now)) }
    {
        Ok(ForgottenRuns {
            through: self.through + runs.len() as u32,
            counts: self.counts.with(alloc, runs)?,
            deliveries: self.deliveries.with(alloc, runs)?,
        })
    }
}

impl TryCopy for ForgottenRuns {
    fn copy(&self, alloc: Global) -> Result<Self, Refusal> {
        Ok(ForgottenRuns {
            through: self.through,
            counts: self.counts.copy(alloc)?,
            deliveries: self.deliveries.copy(alloc)?,
        })
    }
}
