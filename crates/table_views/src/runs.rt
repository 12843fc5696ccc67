//! The line of a run.

ghost use Rattle.std.specs.Prelude.{◌≡◌, ◌++◌, IfOk, Ok, codes, decimal, map, string_bytes};
ghost use Rattle.wf_value.specs.Gives.{Gives};
ghost use Rattle.table_model.specs.inner.Cells.{states};
ghost use Rattle.table_model.specs.ViewText.{seen_text};
ghost use Rattle.table_views.specs.RunLines.{job_json, jobs_json, leg_json, run_json, run_line, run_start, state_text};

use crate::form::Form;
use crate::texts::{listed, quoted};
use run_plan::PlannedJob;
use run_table::{RunView, conclusion_word, leg_word, status_word};
use std::alloc::{AllocError, Global};
use table_model::{Job, JobPhase, Leg};
use wf_value::{Chars, Refusal};

pub(crate) fn state_word(phase: JobPhase) -> &'static str
    ensures { result.now ≡ state_text phase }
{
    match phase {
        JobPhase::Blocked => "blocked",
        JobPhase::Open => "open",
        JobPhase::Finished(settled) => settled.word(),
    }
}

fn legs_json(alloc: Global, legs: &[Leg]) -> Result<Vec<Chars>, Refusal>
    ensures { Gives (λ texts. texts.items) result (Ok (map leg_json legs.now)) }
{
    let mut texts = Vec::with_capacity(alloc, legs.len())?;
    for leg in legs {
        let text = quoted(alloc, leg_word(leg.phase))?;
        texts.push(Chars::new(text))?;
    }
    Ok(texts)
}

fn job_json(alloc: Global, planned: &PlannedJob, job: &Job) -> Result<Chars, Refusal>
    ensures { Gives (λ text. text) result (Ok (job_json (planned.now, job.now.state))) }
{
    let id = quoted(alloc, planned.id.as_str())?;
    let state = quoted(alloc, state_word(job.phase()))?;
    let legs = legs_json(alloc, job.legs())?;
    let legs = listed(alloc, legs.as_slice())?;
    let text = format!(in alloc; "{{\"id\":{id},\"state\":{state},\"legs\":{legs}}}")?;
    Ok(Chars::new(text))
}

/// Each job of a plan with its state.
fn jobs_json(alloc: Global, plan: &[PlannedJob], jobs: &[Job]) -> Result<Vec<Chars>, Refusal>
    ensures { Gives (λ texts. texts.items) result (Ok (jobs_json plan.now (states jobs.now))) }
{
    let mut texts = Vec::with_capacity(alloc, plan.len())?;
    for (planned, job) in plan.iter().zip(jobs) {
        texts.push(job_json(alloc, planned, job)?)?;
    }
    Ok(texts)
}

/// The start of a JSON object, up to the run's attempt.
fn run_start(alloc: Global, view: &RunView<'_>) -> Result<String, Refusal>
    ensures { Gives string_bytes result (Ok (run_start view.now)) }
{
    let id = view.id().get();
    let number = view.number().get();
    let attempt = view.run().attempt().get();
    Ok(run_numbers(alloc, id, number, attempt)?)
}

fn run_numbers(alloc: Global, id: u32, number: u32, attempt: u32) -> Result<String, AllocError>
    ensures { IfOk result (λ s. string_bytes s ≡ codes "{\"run\":" ++ decimal id ++ codes ",\"number\":" ++ decimal number
        ++ codes ",\"attempt\":" ++ decimal attempt) }
{
    format!(in alloc; "{{\"run\":{id},\"number\":{number},\"attempt\":{attempt}")
}

fn run_object(
    alloc: Global,
    start: &str,
    status: &str,
    conclusion: &str,
    jobs: &str,
) -> Result<String, AllocError>
    ensures { IfOk result (λ s. string_bytes s ≡ start.now ++ codes ",\"status\":" ++ status.now
        ++ codes ",\"conclusion\":" ++ conclusion.now ++ codes ",\"jobs\":" ++ jobs.now ++ codes "}") }
{
    format!(in alloc; "{start},\"status\":{status},\"conclusion\":{conclusion},\"jobs\":{jobs}}}")
}

fn run_json(alloc: Global, view: &RunView<'_>) -> Result<String, Refusal>
    ensures { Gives string_bytes result (Ok (run_json view.now)) }
{
    let run = view.run();
    let jobs = run.jobs();
    let start = run_start(alloc, view)?;
    let status = quoted(alloc, status_word(run.phase(), jobs))?;
    let conclusion = quoted(alloc, conclusion_word(run.phase(), jobs))?;
    let jobs = jobs_json(alloc, run.prepared().plan().as_slice(), jobs)?;
    let jobs = listed(alloc, jobs.as_slice())?;
    let text = run_object(
        alloc,
        start.as_str(),
        status.as_str(),
        conclusion.as_str(),
        jobs.as_str(),
    )?;
    Ok(text)
}

fn seen_text(alloc: Global, view: &RunView<'_>) -> Result<String, Refusal>
    ensures { Gives string_bytes result (Ok (seen_text view.now)) }
{
    Ok(view.text(alloc)?.into_string())
}

/// The line of a run.
pub fn run_line(alloc: Global, form: Form, view: &RunView<'_>) -> Result<String, Refusal>
    ensures { Gives string_bytes result (Ok (run_line form view.now)) }
{
    let mut text = match form {
        Form::Lines => seen_text(alloc, view)?,
        Form::Json => run_json(alloc, view)?,
    };
    text.push_str("\n")?;
    Ok(text)
}
