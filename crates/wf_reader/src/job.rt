ghost use Rattle.serde_json.specs.View.{view};
ghost use Rattle.wf_value.specs.Gives.{Gives};
ghost use Rattle.wf_reader.specs.Faults.{unless_faulty};
ghost use Rattle.wf_reader.specs.Job.{job_faults, job_of};
ghost use Rattle.wf_reader.specs.inner.JobParts.{start_faults, start_of, legs_faults, legs_of};

use crate::concurrency::{Concurrency, read_concurrency};
use crate::condition::read_condition;
use crate::fields::{refuse_left_out, wrong_kind};
use crate::flag::{Flag, read_flag};
use crate::job_id::is_job_id;
use crate::labels::read_runs_on;
use crate::needs::read_needs;
use crate::strategy::{Strategy, read_strategy};
use serde_json::Value;
use std::alloc::Global;
use wf_expr::{ContextSite, Template};
use wf_value::{Chars, Code, Condition, Refusal, Sequence};

/// A job of a workflow. GitHub Docs, "Workflow syntax for GitHub Actions", `jobs.<job_id>`.
#[derive(Drop)]
pub struct Job {
    /// A letter or `_`, then letters, digits, `-` and `_`: 1 to 100 bytes.
    pub id: Chars,
    /// The labels that `runs-on` requires of a runner: at least one template.
    pub labels: Sequence<Template>,
    /// The ids of the needed jobs, as listed: they may repeat, and they may belong to no job.
    pub needs: Sequence<Chars>,
    /// When the job runs: `success()` if the job has no `if`.
    pub condition: Condition,
    /// Whether the job may fail without failing its run. Not set if the member is missing.
    pub continue_on_error: Flag,
    /// The concurrency group of each of its legs, if any.
    pub concurrency: Option<Concurrency>,
    pub strategy: Option<Strategy>,
}

/// Where a job runs and when it starts.
#[derive(Drop)]
struct Start {
    labels: Sequence<Template>,
    needs: Sequence<Chars>,
    condition: Condition,
}

/// How the legs of a job run.
#[derive(Drop)]
struct Legs {
    continue_on_error: Flag,
    concurrency: Option<Concurrency>,
    strategy: Option<Strategy>,
}

/// The labels, needs and condition of a job, or the first fault of its `runs-on`, `needs` and `if`.
fn read_start(alloc: Global, job: &Value) -> Result<Start, Refusal>
    ensures { Gives (λ s. s) result (unless_faulty (start_faults (view job.now)) (start_of (view job.now))) }
{
    let labels = read_runs_on(alloc, job)?;
    let needs = read_needs(alloc, job)?;
    let condition = read_condition(job)?;
    Ok(Start {
        labels,
        needs,
        condition,
    })
}

/// How the legs of a job run, or the first fault of its `continue-on-error`, `concurrency` and `strategy`.
fn read_legs(alloc: Global, job: &Value) -> Result<Legs, Refusal>
    ensures { Gives (λ l. l) result (unless_faulty (legs_faults (view job.now)) (legs_of (view job.now))) }
{
    let continue_on_error = read_flag(alloc, job, "continue-on-error", ContextSite::Job)?;
    let concurrency = read_concurrency(alloc, job, ContextSite::Job)?;
    let strategy = read_strategy(alloc, job)?;
    Ok(Legs {
        continue_on_error,
        concurrency,
        strategy,
    })
}

/// One job, or its first fault.
pub fn read_job(alloc: Global, id: &str, value: &Value) -> Result<Job, Refusal>
    ensures { Gives (λ j. j) result
        (unless_faulty (job_faults (id.now, view value.now)) (job_of (id.now, view value.now))) }
{
    if !is_job_id(id) {
        return Err(Refusal::Numbered(Code::JobId));
    }
    if !value.is_object() {
        return Err(wrong_kind());
    }
    refuse_left_out(value, "uses")?;
    let start = read_start(alloc, value)?;
    let legs = read_legs(alloc, value)?;
    Ok(Job {
        id: Chars::from_str(alloc, id)?,
        labels: start.labels,
        needs: start.needs,
        condition: start.condition,
        continue_on_error: legs.continue_on_error,
        concurrency: legs.concurrency,
        strategy: legs.strategy,
    })
}
