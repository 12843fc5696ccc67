//! Handles a report: the leg of the runner's lease ends with its result.

ghost use Rattle.std.specs.Prelude.{◌≡◌, true, Ok, OnErr, IsOk};
ghost use Rattle.wf_value.specs.Gives.{Gives};
ghost use Rattle.table_model.specs.Sound.{IsSound};
ghost use Rattle.table_model.specs.Step.{is_allocation_free, outcome, report_answer, reported, reporting};
ghost use Rattle.run_table.specs.inner.IndexNamed.{index_named};

use crate::runner::{Runner, holds_this};
use crate::sequence_numbers::answer_to_report;
use crate::table_data::{TableData, refused};
use run_plan::{Done, Reply};
use std::alloc::Global;
use wf_value::{Code, Refusal};

impl TableData {
    pub(super) fn report(&mut self, alloc: Global, report: &Done) -> Result<Reply, Refusal>
        requires { IsSound self.old }
        ensures step { Gives (λ reply. (self.new, reply)) result (Ok (outcome (reported self.old report.now))) }
        ensures err { OnErr result (self.new ≡ self.old) }
        ensures answers { is_allocation_free (report_answer self.old report.now) ≡ true → IsOk result }
    {
        let index = self.runners.index_named(&report.runner);
        let runner = self.runners.at(index, &report.runner);
        if let Some(reply) = answer_to_report(alloc, runner, report)? {
            return Ok(reply);
        }
        if !holds_this(runner, report.lease) {
            return Ok(refused(Code::LeaseNotHeld));
        }
        self.end(alloc, report, index)
    }

    /// Ends the leg of the lease.
    fn end(&mut self, alloc: Global, report: &Done, index: usize) -> Result<Reply, Refusal>
        requires sound { IsSound self.old }
        requires index { index ≡ index_named self.old.runners report.now.runner }
        requires due { report_answer self.old report.now ≡ None }
        ensures step { Gives (λ reply. (self.new, reply)) result (Ok (outcome (reporting self.old report.now))) }
        ensures err { OnErr result (self.new ≡ self.old) }
    {
        let leg = self.leg_held(index, report.lease);
        let runner = Runner::reporting(alloc, report)?;
        self.runners.put(index, runner)?;
        self.runs.end(leg, report.result);
        self.runs.settle();
        Ok(Reply::Ok)
    }
}
