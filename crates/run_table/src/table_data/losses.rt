//! Handles the loss of a runner: the leg of its lease ends.

ghost use Rattle.std.specs.Prelude.{◌≡◌, true, Ok, OnErr, IsOk};
ghost use Rattle.wf_value.specs.Gives.{Gives};
ghost use Rattle.table_model.specs.Fitting.{OnlyAtWork};
ghost use Rattle.table_model.specs.Sound.{IsSound, RunsAreSound};
ghost use Rattle.table_model.specs.Step.{is_allocation_free, losing, loss_answer, lost, outcome};
ghost use Rattle.table_model.specs.Stops.{with_ended, outcome_of_loss};
ghost use Rattle.run_table.specs.inner.IndexNamed.{index_named};

use crate::runner::Runner;
use crate::table_data::{TableData, refused};
use run_plan::{Number, Reply, RunnerName};
use std::alloc::Global;
use table_runs::fit::outcome_of_loss;
use wf_value::{Code, Refusal};

impl TableData {
    pub(super) fn lose(&mut self, alloc: Global, name: &RunnerName) -> Result<Reply, Refusal>
        requires { IsSound self.old }
        ensures step { Gives (λ reply. (self.new, reply)) result (Ok (outcome (lost self.old name.now))) }
        ensures err { OnErr result (self.new ≡ self.old) }
        ensures answers { is_allocation_free (loss_answer self.old name.now) ≡ true → IsOk result }
    {
        let index = self.runners.index_named(name);
        match self.runners.at(index, name) {
            Some(runner) => match runner.holds {
                Some(lease) => {
                    let runner = runner.released(alloc)?;
                    self.end_lost(index, runner, lease)
                }
                None => Ok(refused(Code::LeaseNotHeld)),
            },
            None => Ok(refused(Code::NoRunner)),
        }
    }

    /// Ends the leg of a lost runner's lease. `runner` is that runner, released.
    fn end_lost(&mut self, index: usize, runner: Runner, lease: Number) -> Result<Reply, Refusal>
        requires sound { IsSound self.old }
        requires index { index ≡ index_named self.old.runners runner.name }
        requires work { OnlyAtWork self.old.runs lease }
        requires ends { RunsAreSound (with_ended lease (outcome_of_loss self.old.runs lease) self.old.runs) }
        ensures step { Gives (λ reply. (self.new, reply)) result (Ok (outcome (losing self.old runner lease))) }
        ensures err { OnErr result (self.new ≡ self.old) }
    {
        let leg = self.leg_held(index, lease);
        let outcome = outcome_of_loss(leg, &self.runs);
        self.runners.put(index, runner)?;
        self.runs.end(leg, outcome);
        self.runs.settle();
        Ok(Reply::Ok)
    }
}
