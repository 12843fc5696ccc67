//! The parts of a run's printed view. Each `push_` function appends one to a text.

ghost use Rattle.std.specs.Prelude.{◌≡◌, ◌++◌, OnOk, map, string_bytes};
ghost use Rattle.std.specs.List.{join_with_byte, list_any};
ghost use Rattle.needs_graph.specs.Needs.{conclusion_of};
ghost use Rattle.table_model.specs.inner.Cells.{states};
ghost use Rattle.table_model.specs.ViewText.{conclusion_text, has_claimed_leg, job_text, jobs_text, leg_text, legs_text, planned_job_text};
ghost use Rattle.table_model.specs.ViewText.{results_of, status_text, was_claimed};

use needs_graph::conclude;
use run_plan::PlannedJob;
use std::alloc::AllocError;
use table_model::{Job, JobPhase, Leg, LegPhase, RunPhase};
use wf_value::Outcome;

pub fn leg_word(phase: LegPhase) -> &'static str
    ensures { result.now ≡ leg_text phase }
{
    match phase {
        LegPhase::New => "new",
        LegPhase::Waiting => "waiting",
        LegPhase::Ready => "ready",
        LegPhase::Running => "running",
        LegPhase::Stopping => "stopping",
        LegPhase::Ended(outcome) => outcome.word(),
    }
}

fn has_claimed_leg(job: &Job) -> bool
    ensures { result ≡ has_claimed_leg job.now.state }
{
    job.legs().iter().any(|leg| leg.lease.is_some())
}

fn any_claimed(jobs: &[Job]) -> bool
    ensures { result ≡ list_any (λ job. has_claimed_leg job.state) jobs.now }
{
    jobs.iter().any(|job| has_claimed_leg(job))
}

fn was_claimed(jobs: &[Job]) -> bool
    ensures { result ≡ was_claimed (states jobs.now) }
{
    any_claimed(jobs)
}

/// `pending` for a waiting run, `queued` for a live run without a claimed leg, `in_progress` for any other live run,
/// `completed` for an ended run.
pub fn status_word(phase: RunPhase, jobs: &[Job]) -> &'static str
    ensures { result.now ≡ status_text phase (states jobs.now) }
{
    match phase {
        RunPhase::Waiting => "pending",
        RunPhase::Live if was_claimed(jobs) => "in_progress",
        RunPhase::Live => "queued",
        RunPhase::Ended => "completed",
    }
}

fn conclusion(jobs: &[Job]) -> Outcome
    ensures { result ≡ conclusion_of (results_of (states jobs.now)) }
{
    conclude(jobs)
}

/// The conclusion of an ended run, else `-`.
pub fn conclusion_word(phase: RunPhase, jobs: &[Job]) -> &'static str
    ensures { result.now ≡ conclusion_text phase (states jobs.now) }
{
    match phase {
        RunPhase::Waiting | RunPhase::Live => "-",
        RunPhase::Ended => conclusion(jobs).word(),
    }
}

fn push_leg_words(legs: &[Leg], text: &mut String) -> Result<(), AllocError>
    ensures { OnOk result (string_bytes text.new ≡ string_bytes text.old ++ join_with_byte 44 (map (λ l. leg_text l.phase) legs.now)) }
{
    let Some((first, others)) = legs.split_first() else {
        return Ok(());
    };
    text.push_str(leg_word(first.phase))?;
    for leg in others {
        text.push_str(",")?;
        text.push_str(leg_word(leg.phase))?;
    }
    Ok(())
}

fn push_legs(legs: &[Leg], text: &mut String) -> Result<(), AllocError>
    ensures { OnOk result (string_bytes text.new ≡ string_bytes text.old ++ legs_text legs.now) }
{
    text.push_str("(")?;
    push_leg_words(legs, text)?;
    text.push_str(")")
}

fn push_job(job: &Job, text: &mut String) -> Result<(), AllocError>
    ensures { OnOk result (string_bytes text.new ≡ string_bytes text.old ++ job_text job.now.state) }
{
    let word = match job.phase() {
        JobPhase::Blocked => return text.push_str("blocked"),
        JobPhase::Open => "open",
        JobPhase::Finished(settled) => settled.word(),
    };
    text.push_str(word)?;
    push_legs(job.legs(), text)
}

fn push_planned_job(planned: &PlannedJob, job: &Job, text: &mut String) -> Result<(), AllocError>
    ensures { OnOk result (string_bytes text.new ≡ string_bytes text.old ++ planned_job_text (planned.now, job.now.state)) }
{
    text.push_str(" ")?;
    text.push_str(planned.id.as_str())?;
    text.push_str(":")?;
    push_job(job, text)
}

/// Appends each job of a plan with its state, each after a space.
pub fn push_jobs(plan: &[PlannedJob], jobs: &[Job], text: &mut String) -> Result<(), AllocError>
    ensures { OnOk result (string_bytes text.new ≡ string_bytes text.old ++ jobs_text plan.now (states jobs.now)) }
{
    for (planned, job) in plan.iter().zip(jobs) {
        push_planned_job(planned, job, text)?;
    }
    Ok(())
}
