ghost use Rattle.std.specs.Prelude.{◌≡◌, [], ℕ, List, map, string_bytes, IfOk, IfSome, Ok};
ghost use Rattle.std.specs.Io.KnownBytes.{Appends};
ghost use Rattle.wf_value.specs.Gives.{Gives};
ghost use Rattle.run_plan.specs.PlanOf.{job_faults, legs_faults, planned_job, workflow_plan};
ghost use Rattle.program_commands.specs.Check.{ChecksTo, Written, checked, job_lines, leg_line, leg_lines, leg_text, plan_lines};
ghost use Rattle.program_commands.specs.Input.{ReadsAtMost};
ghost use Rattle.program_commands.specs.inner.Writes.{Writes};

use crate::input::read_input;
use byte_streams::{flush, write_whole};
use run_plan::{JobLegs, check_plan, text_of_combo};
use std::alloc::{AllocError, Global};
use std::io::{Read, Write};
use wf_reader::{Job, Workflow, read_workflow};
use wf_value::{Combo, Refusal};

fn leg_text(alloc: Global, job: &str, number: usize, combo: &str) -> Result<String, AllocError>
    ensures { IfOk result (λ s. string_bytes s ≡ leg_text job.now number combo.now) }
{
    format!(in alloc; "{job} {number} {combo}\n")
}

/// The line of a leg, with its line feed.
fn leg_line(alloc: Global, job: &str, number: usize, combo: &Combo) -> Result<String, Refusal>
    ensures { Gives (λ s. string_bytes s) result (Ok (leg_line job.now number combo.now)) }
{
    let combo = text_of_combo(alloc, combo)?;
    Ok(leg_text(alloc, job, number, combo.as_str())?)
}

fn write_leg<W: Write>(
    alloc: Global,
    job: &str,
    number: usize,
    combo: &Combo,
    writer: &mut W,
) -> Result<(), Refusal>
    ensures { Writes (W.contents writer.old) (W.contents writer.new) (leg_line job.now number combo.now) result }
{
    let line = leg_line(alloc, job, number, combo)?;
    write_whole(writer, line.as_bytes())
}

/// Writes the lines of a job's legs. It keeps one combination at a time in memory.
fn write_legs<W: Write>(
    alloc: Global,
    job: &str,
    legs: &JobLegs,
    writer: &mut W,
) -> Result<(), Refusal>
    ensures { Writes (W.contents writer.old) (W.contents writer.new) (leg_lines job.now legs.now) result }
{
    for number in 0..legs.len() {
        let combo = legs.combination(alloc, number)?;
        write_leg(alloc, job, number, &combo, writer)?;
    }
    Ok(())
}

/// Writes the lines of a job whose matrix has no faults.
fn write_job<W: Write>(alloc: Global, job: &Job, writer: &mut W) -> Result<(), Refusal>
    requires { job_faults job.now ≡ [] }
    ensures { Writes (W.contents writer.old) (W.contents writer.new) (job_lines (planned_job job.now)) result }
{
    let legs = JobLegs::of(alloc, job)?;
    write_legs(alloc, job.id.as_str(), &legs, writer)
}

/// Writes the lines of jobs whose matrices have no faults.
fn write_jobs<W: Write>(alloc: Global, jobs: &[Job], writer: &mut W) -> Result<(), Refusal>
    requires { legs_faults jobs.now ≡ [] }
    ensures { Writes (W.contents writer.old) (W.contents writer.new) (plan_lines (map planned_job jobs.now)) result }
{
    for job in jobs {
        write_job(alloc, job, writer)?;
    }
    Ok(())
}

/// The workflow that a text encodes, if it and its plan have no faults.
fn checked_workflow(alloc: Global, text: &[u8]) -> Result<Workflow, Refusal>
    ensures lines { Gives (λ w. plan_lines (workflow_plan w)) result (checked text.now) }
    ensures legs { IfOk result (λ w. legs_faults w.jobs ≡ []) }
{
    let workflow = read_workflow(alloc, text)?;
    check_plan(alloc, &workflow)?;
    Ok(workflow)
}

/// Writes the lines of the workflow that a text encodes, or nothing if it is refused.
fn write_checked<W: Write>(alloc: Global, text: &[u8], writer: &mut W) -> Result<(), Refusal>
    ensures { (out : List ℕ) × Appends (W.contents writer.old) (W.contents writer.new) out × Written text.now out result }
{
    let workflow = checked_workflow(alloc, text)?;
    write_jobs(alloc, workflow.jobs.as_slice(), writer)?;
    flush(writer)
}

/// Checks a workflow, whose text is read without an envelope. It writes a line `JOB LEG COMBO` for each leg of each
/// job, in order, with the combination as compact JSON. A text over 1,048,576 bytes is refused with 76, and at most
/// 1,048,577 bytes are read. A text over 65,536 bytes is refused with 24, and any other workflow with its first fault:
/// 10 to 23, 25 or 26. Nothing has been written if the workflow is refused. A failed read or write is 61, and out of
/// memory is 50.
/// Promise (The program): `acts check`: a line for each leg of each job, in order, exactly where workflow and plan have no fault
/// By: `program_commands::run_check`, `written` (`ChecksTo`, `checked`)
/// Refusal (Sessions and programs): `program_commands::{run_check, run_lint}`
/// When: Of a check the first fault: only, and always unless memory is refused or a stream fails. 76: only over 1,048,576 bytes. 61, 50; the cause
///   of 61: T
/// Afterwards: nothing is written; after 61 and 50 a prefix
/// By: `written` (`ChecksTo`, `LintsTo`, `checked`), `read`
pub fn run_check<R: Read, W: Write>(
    alloc: Global,
    reader: &mut R,
    writer: &mut W,
) -> Result<(), Refusal>
    ensures read { ReadsAtMost 1048577 (R.remaining reader.old) (R.remaining reader.new) }
    ensures written { IfSome (R.remaining reader.old) (λ text. (out : List ℕ)
        × Appends (W.contents writer.old) (W.contents writer.new) out × ChecksTo text out result) }
{
    let text = read_input(alloc, reader)?;
    write_checked(alloc, &text, writer)
}
