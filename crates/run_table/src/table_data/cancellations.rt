//! Cancels a run, unless it has completed.

ghost use Rattle.std.specs.Prelude.{◌≡◌};
ghost use Rattle.table_model.specs.Sound.{IsSound};
ghost use Rattle.table_model.specs.Step.{answer_of_run, cancel_answer, cancelled, outcome};

use crate::table_data::{TableData, refused};
use run_plan::{Number, Reply};
use table_model::RunPhase;
use wf_value::Code;

impl TableData {
    /// Stops the run. It takes no memory.
    pub(super) fn cancel(&mut self, id: Number) -> Reply
        requires { IsSound self.old }
        ensures { (self.new, result) ≡ outcome (cancelled self.old id) }
    {
        if let Some(reply) = self.answer_to_cancel(id) {
            return reply;
        }
        let index = self.index_of(id);
        self.runs.stop(index);
        self.runs.settle();
        Reply::Ok
    }

    fn answer_to_cancel(&self, id: Number) -> Option<Reply>
        ensures { result ≡ cancel_answer self.now id }
    {
        match self.run_with(id) {
            Some(run) => answer_of_run(run.phase(), run.is_stopping()),
            None => Some(refused(Code::NoRun)),
        }
    }
}

fn answer_of_run(phase: RunPhase, stopping: bool) -> Option<Reply>
    ensures { result ≡ answer_of_run phase stopping }
{
    match phase {
        RunPhase::Waiting => None,
        RunPhase::Live if stopping => Some(Reply::Ok),
        RunPhase::Live => None,
        RunPhase::Ended => Some(refused(Code::RunCompleted)),
    }
}
