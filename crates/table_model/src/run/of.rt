//! Builds a run from the parts in which it is stored.

ghost use Rattle.std.specs.Prelude.{◌≡◌, IfOk, MatchOption, length};
ghost use Rattle.wf_value.specs.Gives.{ErrsOnlyByMemory};
ghost use Rattle.run_plan.specs.PlanOf.{plan_of};
ghost use Rattle.table_model.specs.AsPlanned.{HaveRoom, IsAsPlanned};
ghost use Rattle.table_model.specs.Parts.{run_of_parts};
ghost use Rattle.table_model.specs.inner.Cells.{legs_planned, rooms, states};

use crate::job::Job;
use crate::run::Run;
use crate::run::needs::count_needs;
use crate::run_parts::{JobParts, RunParts};
use run_plan::{Number, PlannedJob};
use std::alloc::Global;
use wf_value::Refusal;

impl Run {
    /// The run of these parts with this id and this number, if it has the jobs of its plan and each of them has none of its legs or all.
    /// Otherwise `None`.
    /// Refusal (The layers below): `table_model`: `Run::of_parts`; `table_runs`: `Runs::of_parts`; `stored_tables`: `TableParts::table`
    /// When: `None`: exactly, with memory, if nothing has these parts. 50
    /// Afterwards: nothing is made
    /// By: `of`, `err`
    pub fn of_parts(
        alloc: Global,
        id: Number,
        number: Number,
        parts: &RunParts,
    ) -> Result<Option<Self>, Refusal>
        ensures err { ErrsOnlyByMemory result }
        ensures of { IfOk result (λ found. MatchOption found (IsAsPlanned (plan_of parts.now.admitted.body) parts.now.jobs → ⊥)
            (λ run. (run ≡ run_of_parts id number parts.now) × IsAsPlanned (plan_of parts.now.admitted.body) parts.now.jobs)) }
    {
        let plan = parts.prepared.plan();
        let of_jobs = parts.jobs.as_slice();
        if of_jobs.len() != plan.as_slice().len() {
            return Ok(None);
        }
        let Some(mut jobs) = jobs_of_parts(alloc, of_jobs, plan.as_slice())? else {
            return Ok(None);
        };
        count_needs(&mut jobs, plan.graph());
        Ok(Some(Run {
            id,
            number,
            prepared: parts.prepared.share()?,
            attempt: parts.attempt,
            phase: parts.phase,
            stopping: parts.stopping,
            jobs,
        }))
    }
}

/// The jobs of these parts, which are as many as the plan has.
fn jobs_of_parts(
    alloc: Global,
    parts: &[JobParts],
    plan: &[PlannedJob],
) -> Result<Option<Vec<Job>>, Refusal>
    requires { length parts.now ≡ length plan.now }
    ensures err { ErrsOnlyByMemory result }
    ensures of { IfOk result (λ found. MatchOption found (HaveRoom plan.now parts.now → ⊥)
        (λ jobs. (states jobs.items ≡ parts.now) × (rooms jobs.items ≡ legs_planned plan.now) × HaveRoom plan.now parts.now)) }
{
    let mut jobs = Vec::with_capacity(alloc, plan.len())?;
    for j in 0..parts.len() {
        let part = &parts[j];
        let planned = &plan[j];
        match Job::of_parts(alloc, part, planned.legs.as_slice().len())? {
            Some(job) => jobs.push(job)?,
            None => return Ok(None),
        }
    }
    Ok(Some(jobs))
}
