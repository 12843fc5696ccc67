//! The facts that the templates of a run use when an attempt of it begins: its event, its id, its number and the attempt. No job of it has
//! a result yet.

ghost use Rattle.std.specs.Prelude.{◌≡◌, ◌<◌, ◌^◌};
ghost use Rattle.wf_expr.specs.Bound.{HasResults, Results};
ghost use Rattle.run_plan.specs.PlanOf.{plan_of};
ghost use Rattle.table_model.specs.LegContext.{context_of};
ghost use Rattle.table_bindings.specs.BoundGroups.{facts_by, need_of_job};

use crate::leg_context::LegContext;
use crate::leg_needs::LegNeeds;
use crate::run_context::RunContext;
use run_plan::{PlannedJob, Prepared};
use std::marker::Model;
use table_model::Run;

/// A run with its id, its number among the runs of its workflow and its attempt, in decimal.
#[derive(Drop)]
pub(crate) struct RunIdentity<'a> {
    pub run: &'a Run,
    pub run_id: &'a str,
    pub run_number: &'a str,
    pub run_attempt: &'a str,
}

impl<'a> Model for RunIdentity<'a> {
    ghost use Rattle.table_model.specs.Groups.{RunFacts};

    ghost Value = { RunFacts };

    ghost view = { λ t. record {
      event = t.run.now.admitted;
      run_id = t.run_id.now;
      run_number = t.run_number.now;
      run_attempt = t.run_attempt.now;
    } };
}

impl<'a> RunIdentity<'a> {
    pub fn prepared(&self) -> &Prepared
        ensures { result.now ≡ self.now.event }
    {
        self.run.prepared()
    }

    pub fn run_context(&self) -> RunContext<'_>
        ensures { result ≡ self.now }
    {
        RunContext {
            event: self.run.prepared(),
            run_id: self.run_id,
            run_number: self.run_number,
            run_attempt: self.run_attempt,
        }
    }

    /// The context of a leg of the job at this index. It lacks only the results of the job's needs.
    pub(crate) fn leg_context<'b>(
        &'b self,
        index: usize,
        job: &'b PlannedJob,
        leg: usize,
    ) -> LegContext<'b>
        requires leg { leg < 2 ^ 63 }
        ensures { (results : Results) → HasResults (context_of result) (need_of_job (plan_of self.now.event.body) index) results
            (context_of (facts_by self.now index job.now leg results)) }
    {
        LegContext {
            run: self.run,
            run_id: self.run_id,
            run_number: self.run_number,
            run_attempt: self.run_attempt,
            job,
            index,
            leg,
        }
    }

    /// The needs of the job at this index.
    pub(crate) fn leg_needs(&self, index: usize) -> LegNeeds<'_>
        ensures event { result.0.admitted ≡ self.now.event }
        ensures index { result.1 ≡ index }
    {
        LegNeeds {
            run: self.run,
            index,
        }
    }
}
