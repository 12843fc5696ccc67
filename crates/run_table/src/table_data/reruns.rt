//! Re-runs a completed run as its next attempt. GitHub Docs, "Re-running workflows and jobs".

ghost use Rattle.std.specs.Prelude.{◌≡◌, Ok, IsOk, OnErr, true};
ghost use Rattle.wf_value.specs.Gives.{Gives};
ghost use Rattle.table_model.specs.Sound.{IsSound};
ghost use Rattle.table_model.specs.Step.{answer_of_attempt, answer_of_next, is_allocation_free, outcome, rerun, rerun_answer};

use crate::table_data::{TableData, refused};
use run_plan::{Attempt, Reply};
use std::alloc::Global;
use table_model::{LAST_ATTEMPT, Run, RunPhase};
use wf_value::{Code, Refusal};

impl TableData {
    /// Begins the next attempt of a completed run. An attempt that has begun already is only confirmed. It allocates
    /// all memory before the first change.
    pub(super) fn rerun(&mut self, alloc: Global, requested: &Attempt) -> Result<Reply, Refusal>
        requires { IsSound self.old }
        ensures step { Gives (λ reply. (self.new, reply)) result (Ok (outcome (rerun self.old requested.now))) }
        ensures err { OnErr result (self.new ≡ self.old) }
        ensures answers { is_allocation_free (rerun_answer self.old requested.now) ≡ true → IsOk result }
    {
        if let Some(reply) = self.answer_to_rerun(requested) {
            return Ok(reply);
        }
        let index = self.index_of(requested.run);
        self.runs.rerun(alloc, index)?;
        self.runs.settle();
        Ok(Reply::Again(*requested))
    }

    fn answer_to_rerun(&self, requested: &Attempt) -> Option<Reply>
        ensures { result ≡ rerun_answer self.now requested.now }
    {
        match self.run_with(requested.run) {
            Some(run) => answer_of_attempt(run, requested),
            None => Some(refused(Code::NoRun)),
        }
    }
}

/// The reply to a request for this attempt of the run, if it changes nothing.
fn answer_of_attempt(run: &Run, requested: &Attempt) -> Option<Reply>
    ensures { result ≡ answer_of_attempt run.now requested.now }
{
    let present = run.attempt().get();
    let wanted = requested.attempt.get();
    if wanted == present {
        Some(Reply::Again(*requested))
    } else if wanted == present + 1 {
        answer_of_next(run)
    } else {
        Some(Reply::Refused(Refusal::Turn(u64::from(present))))
    }
}

/// The reply to a request for the next attempt of the run, if it changes nothing.
fn answer_of_next(run: &Run) -> Option<Reply>
    ensures { result ≡ answer_of_next run.now }
{
    if run.attempt().get() >= LAST_ATTEMPT {
        return Some(refused(Code::LastCounter));
    }
    match run.phase() {
        RunPhase::Ended => None,
        RunPhase::Waiting | RunPhase::Live => Some(refused(Code::RunNotCompleted)),
    }
}
