//! Replies to the commands that change nothing: a beat, a fetch and a look.

ghost use Rattle.std.specs.Prelude.{◌≡◌, true, Ok, IsOk, Some};
ghost use Rattle.wf_value.specs.Gives.{Gives};
ghost use Rattle.table_model.specs.Sound.{IsSound};
ghost use Rattle.table_model.specs.Step.{beat_answer, fetch_answer, is_allocation_free, look_answer, seen};

use crate::runner::holds_this;
use crate::table_data::{TableData, refused};
use crate::view::RunView;
use run_plan::{Beat, Number, Reply, SharedBody};
use std::alloc::Global;
use table_runs::fit::is_stopping;
use wf_value::{Code, Refusal};

impl TableData {
    /// Tells a runner whether to go on with its leg. It takes no memory.
    pub(super) fn beat(&self, beat: &Beat) -> Reply
        requires { IsSound self.now }
        ensures { result ≡ beat_answer self.now beat.now }
    {
        let index = self.runners.index_named(&beat.runner);
        let runner = self.runners.at(index, &beat.runner);
        if runner.is_none() {
            refused(Code::NoRunner)
        } else if !holds_this(runner, beat.lease) {
            refused(Code::LeaseNotHeld)
        } else if is_stopping(self.leg_held(index, beat.lease), &self.runs) {
            Reply::Stop
        } else {
            Reply::GoOn
        }
    }

    pub(super) fn fetch(&self, id: Number) -> Result<Reply, Refusal>
        ensures gives { Gives (λ reply. reply) result (Ok (fetch_answer self.now id)) }
        ensures answers { is_allocation_free (Some (fetch_answer self.now id)) ≡ true → IsOk result }
    {
        let Some(run) = self.run_with(id) else {
            return Ok(refused(Code::NoRun));
        };
        Ok(Reply::Body(SharedBody::of(run.prepared())?))
    }

    pub(super) fn show(&self, alloc: Global, id: Number) -> Result<Reply, Refusal>
        ensures gives { Gives (λ reply. reply) result (Ok (look_answer self.now id)) }
        ensures answers { is_allocation_free (Some (look_answer self.now id)) ≡ true → IsOk result }
    {
        match self.look(id) {
            Some(view) => Ok(Reply::Run(view.text(alloc)?)),
            None => Ok(refused(Code::NoRun)),
        }
    }

    /// The view of the run with this id, or `None` if there is no such run. It takes no memory.
    pub(crate) fn look(&self, run: Number) -> Option<RunView<'_>>
        ensures { result ≡ seen self.now run }
    {
        Some(RunView::of(self.run_with(run)?))
    }
}
