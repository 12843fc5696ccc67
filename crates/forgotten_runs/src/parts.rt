//! What is stored of forgotten runs, and the forgotten runs of which it is stored.

ghost use Rattle.std.specs.Bool.{Decides};
ghost use Rattle.std.specs.List.{AllByRecursion};
ghost use Rattle.std.specs.Prelude.{◌≡◌, ◌≤◌, IfOk, MatchOption, min, sum_by};
ghost use Rattle.definitions.specs.Limits.{last_number};
ghost use Rattle.wf_value.specs.Gives.{ErrsOnlyByMemory};
ghost use Rattle.table_model.specs.Forgotten.{increases, max_kept_deliveries, none_forgotten, workflow_order};
ghost use Rattle.table_model.specs.Sound.{ForgottenFit};

use crate::forgotten::ForgottenRuns;
use crate::kept_deliveries::MAX_KEPT_DELIVERIES;
use crate::workflow_counts::WorkflowCount;
use run_plan::{DeliveryId, LAST_NUMBER};
use std::alloc::Global;
use std::marker::Model;
use wf_value::{Refusal, Sequence, copy_items};

/// What is stored of forgotten runs, whether or not it fits together.
#[derive(Drop)]
pub struct ForgottenParts {
    /// The last id that is forgotten, and with it all before; 0 if none is.
    pub through: u32,
    pub counts: Sequence<WorkflowCount>,
    /// The deliveries that are kept, the oldest first.
    pub deliveries: Sequence<DeliveryId>,
}

impl Model for ForgottenParts {
    ghost use Rattle.table_model.specs.Forgotten.{ForgottenRuns as ForgottenState};

    ghost Value = { ForgottenState };

    ghost view = { λ f. record { through = f.through; counts = f.counts; deliveries = f.deliveries } };
}

impl ForgottenParts {
    /// No run is forgotten.
    pub fn none(alloc: Global) -> Self
        ensures { result ≡ none_forgotten }
    {
        ForgottenParts {
            through: 0,
            counts: Sequence::new(Vec::new(alloc)),
            deliveries: Sequence::new(Vec::new(alloc)),
        }
    }

    /// The forgotten runs of which these parts are stored; `None` if the parts do not fit together, or no id is so high.
    pub fn forgotten(&self, alloc: Global) -> Result<Option<ForgottenRuns>, Refusal>
        ensures err { ErrsOnlyByMemory result }
        ensures of { IfOk result (λ found. MatchOption found
            (ForgottenFit self.now → self.now.through ≤ last_number → ⊥)
            (λ forgotten. (forgotten ≡ self.now) × ForgottenFit self.now × (self.now.through ≤ last_number))) }
    {
        if !self.do_fit() {
            return Ok(None);
        }
        let counts = copy_items(alloc, self.counts.as_slice())?;
        let deliveries = copy_items(alloc, self.deliveries.as_slice())?;
        let forgotten = ForgottenRuns::of(alloc, self.through, counts, deliveries)?;
        Ok(Some(forgotten))
    }

    /// Whether the parts fit together, and their last id is one that a run may have.
    fn do_fit(&self) -> bool
        ensures { Decides result (ForgottenFit self.now × (self.now.through ≤ last_number)) }
    {
        let counts = self.counts.as_slice();
        if self.through > LAST_NUMBER {
            return false;
        }
        if !are_in_order(counts) {
            return false;
        }
        if runs_counted(counts) != u128::from(self.through) {
            return false;
        }
        self.deliveries.len() == deliveries_kept(self.through)
    }
}

/// Of how many of the last forgotten runs the deliveries are kept, where so many are forgotten.
fn deliveries_kept(forgotten: u32) -> usize
    ensures { result ≡ min forgotten max_kept_deliveries }
{
    (forgotten as usize).min(MAX_KEPT_DELIVERIES)
}

/// Whether the counts strictly increase, by the repository, then by the path.
fn are_in_order(counts: &[WorkflowCount]) -> bool
    ensures { result ≡ increases workflow_order counts.now }
{
    counts.is_sorted_by(|count, next| count.is_below(next))
}

/// How many runs are counted: of each workflow one or more.
fn runs_counted(counts: &[WorkflowCount]) -> u128
    ensures total { result ≡ sum_by (λ count. count.runs) counts.now }
    ensures each { AllByRecursion (λ count. 1 ≤ count.runs) counts.now }
{
    let mut total = 0;
    for count in counts {
        total += u128::from(count.runs().get());
    }
    total
}
