ghost use Rattle.std.specs.Prelude.{◌≡◌, ◌<◌, ◌≤◌, map, codes, flat_map, length, string_bytes, false, Err};
ghost use Rattle.std.specs.Str.{is_utf8};
ghost use Rattle.definitions.specs.Limits.{max_body};
ghost use Rattle.serde_json.specs.View.{view};
ghost use Rattle.wf_value.specs.Gives.{Gives};
ghost use Rattle.wf_value.specs.declared.code.Code.TheVariants.{NotJson, TooLong};
ghost use Rattle.wf_value.specs.declared.refusal.Refusal.TheVariants.{Numbered};
ghost use Rattle.wf_reader.specs.Faults.{unless_faulty};
ghost use Rattle.wf_reader.specs.Job.{job_faults, job_of};
ghost use Rattle.wf_reader.specs.Json.{members_of, member_at};
ghost use Rattle.wf_reader.specs.Workflow.{jobs_faults, workflow_faults_in, workflow_in, workflow_faults, workflow_of};

use crate::body::read_body;
use crate::concurrency::{Concurrency, read_concurrency};
use crate::fields::{read_text, taken_members, wrong_kind};
use crate::job::read_job;
use crate::jobs::Jobs;
use serde_json::{Map, Value};
use std::alloc::Global;
use wf_expr::ContextSite;
use wf_value::{Chars, Code, Refusal};

/// The maximum number of jobs of a workflow.
pub const MAX_JOBS: usize = 256;

/// A workflow. GitHub Docs, "Workflow syntax for GitHub Actions".
#[derive(Drop)]
pub struct Workflow {
    /// The `name`, or the empty text if it is missing.
    pub name: Chars,
    /// The concurrency group of the run, if any.
    pub concurrency: Option<Concurrency>,
    /// 1 to 256 jobs.
    pub jobs: Jobs,
}

/// The jobs of a workflow, or the first fault. The JSON of each job is dropped before the next job is read.
fn read_each(alloc: Global, members: Map<String, Value>) -> Result<Jobs, Refusal>
    ensures { Gives (λ j. j) result
        (unless_faulty (flat_map (λ e. job_faults (string_bytes e.0, view e.1)) members.entries)
        (map (λ e. job_of (string_bytes e.0, view e.1)) members.entries)) }
{
    let mut jobs = Vec::with_capacity(alloc, members.len())?;
    for (id, value) in members {
        jobs.push(read_job(alloc, id.as_str(), &value)?)?;
    }
    Ok(Jobs::new(jobs))
}

/// The jobs of a workflow: 11 if the member is missing, not an object or empty, 23 if there are more than 256.
fn read_jobs(alloc: Global, workflow: Value) -> Result<Jobs, Refusal>
    ensures { Gives (λ j. j) result
        (unless_faulty (jobs_faults (members_of (member_at (codes "jobs") (view workflow))))
        (map job_of (members_of (member_at (codes "jobs") (view workflow))))) }
{
    let Some(members) = taken_members(workflow, "jobs") else {
        return Err(wrong_kind());
    };
    if members.is_empty() {
        return Err(wrong_kind());
    }
    if members.len() > MAX_JOBS {
        return Err(Refusal::Numbered(Code::TooManyJobs));
    }
    read_each(alloc, members)
}

/// The workflow of a value, or its first fault.
#[tactic(auto, using(crate::proofs::InOrder::no_fault, crate::proofs::InOrder::same_value))]
pub fn workflow_in(alloc: Global, value: Value) -> Result<Workflow, Refusal>
    ensures { Gives (λ w. w) result
        (unless_faulty (workflow_faults_in (view value)) (workflow_in (view value))) }
{
    if !value.is_object() {
        return Err(wrong_kind());
    }
    let name = read_text(alloc, &value, "name")?;
    let concurrency = read_concurrency(alloc, &value, ContextSite::Workflow)?;
    let jobs = read_jobs(alloc, value)?;
    Ok(Workflow {
        name,
        concurrency,
        jobs,
    })
}

/// Reads the workflow of a body, or refuses its first fault: 24 for a body longer than 65,536 bytes, 10 if it is not UTF-8 or not
/// JSON, and 11, 12, 15 to 20, 23, 25 and 26 for its contents. Out of memory is 50. GitHub Docs, "Workflow syntax for GitHub
/// Actions"; RFC 8259.
pub fn read_workflow(alloc: Global, bytes: &[u8]) -> Result<Workflow, Refusal>
    ensures gives { Gives (λ w. w) result
        (unless_faulty (workflow_faults bytes.now) (workflow_of bytes.now)) }

    // These two hold with or without memory:
    ensures too_long { max_body < length bytes.now → result ≡ Err (Numbered TooLong) }
    ensures no_text { length bytes.now ≤ max_body → is_utf8 bytes.now ≡ false
        → result ≡ Err (Numbered NotJson) }
{
    let value = read_body(alloc, bytes)?;
    workflow_in(alloc, value)
}
