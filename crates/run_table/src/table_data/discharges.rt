//! Forgets a runner, unless it holds a lease.

ghost use Rattle.std.specs.Prelude.{◌≡◌};
ghost use Rattle.table_model.specs.Step.{discharged, outcome};

use crate::runner::holds_lease;
use crate::table_data::{TableData, refused};
use run_plan::{Reply, RunnerName};
use wf_value::Code;

impl TableData {
    /// Forgets the runner. It takes no memory.
    pub(super) fn discharge(&mut self, name: &RunnerName) -> Reply
        ensures { (self.new, result) ≡ outcome (discharged self.old name.now) }
    {
        let index = self.runners.index_named(name);
        let runner = self.runners.at(index, name);
        if runner.is_none() {
            return refused(Code::NoRunner);
        }
        if holds_lease(runner) {
            return refused(Code::HasLease);
        }
        self.runners.remove(index, name);
        Reply::Ok
    }
}
