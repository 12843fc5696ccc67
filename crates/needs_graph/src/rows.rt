ghost use Rattle.std.specs.Prelude.{◌≡◌, [], IfOk, IsTrue, Ok, map, length, replicate};
ghost use Rattle.wf_value.specs.Gives.{Gives};
ghost use Rattle.needs_graph.specs.inner.JobBitmap.{is_marked, marked, through, closed};
ghost use Rattle.needs_graph.specs.Needs.{indexes, ids_rise};
ghost use Rattle.needs_graph.specs.inner.Rows.{needs_row_of, needs_rows_of, dependents_by, IsSets};

use crate::job_needs::JobNeeds;
use crate::job_set::JobSet;
use crate::lookup::Lookup;
use crate::marks::JobBitmap;
use std::alloc::{AllocError, Global};
use wf_value::{Chars, Code, Refusal, Sequence};

/// The jobs with these ids, or 13 if one of the ids is unknown.
fn needs_row(alloc: Global, jobs: &Lookup<'_>, ids: &[Chars]) -> Result<JobBitmap, Refusal>
    requires { IsTrue (ids_rise jobs.now) }
    ensures { Gives (λ m. m) result (needs_row_of jobs.now ids.now) }
{
    let mut row = JobBitmap::none(alloc, jobs.job_count())?;
    let mut next = 0;
    for id in ids {
        match jobs.index_from(id, next) {
            Some(index) => {
                row.insert(index);
                next = index + 1;
            }
            None => return Err(Refusal::Numbered(Code::UnknownNeed)),
        }
    }
    Ok(row)
}

/// For each job, the jobs that it lists.
pub(crate) fn needs_rows(alloc: Global, jobs: &[JobNeeds<'_>]) -> Result<Vec<JobBitmap>, Refusal>
    requires { IsTrue (ids_rise jobs.now) }
    ensures { Gives (λ v. v.items) result (needs_rows_of jobs.now) }
{
    let lookup = Lookup::new(alloc, jobs)?;
    let mut rows = Vec::with_capacity(alloc, jobs.len())?;
    for job in jobs {
        rows.push(needs_row(alloc, &lookup, job.needs())?)?;
    }
    Ok(rows)
}

fn lead_all_through(rows: &mut [JobBitmap], job: usize, others: &JobBitmap)
    ensures { rows.new ≡ map (through job others.now) rows.old }
{
    for row in rows.iter_mut() {
        row.lead_through(job, others);
    }
}

/// For each job, the jobs that it reaches by any number of needs, computed from the jobs that it lists.
pub(crate) fn closed_rows(alloc: Global, rows: Vec<JobBitmap>) -> Result<Vec<JobBitmap>, AllocError>
    ensures { IfOk result (λ v. v.items ≡ closed (length rows.items) rows.items) }
{
    let mut reached = rows;
    for job in 0..reached.len() {
        let others = reached[job].trimmed(alloc)?;
        lead_all_through(reached.as_mut_slice(), job, &others);
    }
    Ok(reached)
}

/// So many empty lists of jobs.
pub(crate) fn no_indexes(alloc: Global, count: usize) -> Result<Sequence<Sequence<usize>>, Refusal>
    ensures { Gives (λ p. p) result (Ok (replicate count [])) }
{
    let mut indexes = Vec::with_capacity(alloc, count)?;
    for _ in 0..count {
        indexes.push(Sequence::new(Vec::new(alloc)))?;
    }
    Ok(Sequence::new(indexes))
}

/// The jobs of each row, in order.
pub(crate) fn all_indexes(
    alloc: Global,
    rows: &[JobBitmap],
) -> Result<Sequence<Sequence<usize>>, Refusal>
    ensures { Gives (λ p. p) result (Ok (map marked rows.now)) }
{
    let mut indexes = Vec::with_capacity(alloc, rows.len())?;
    for row in rows {
        indexes.push(row.indexes(alloc)?)?;
    }
    Ok(Sequence::new(indexes))
}

/// The jobs that need the job directly, in order.
fn dependents_on(alloc: Global, rows: &[JobBitmap], job: usize) -> Result<Vec<usize>, AllocError>
    ensures { IfOk result (λ v. v.items ≡ indexes (λ row. is_marked row job) rows.now) }
{
    rows.iter()
        .enumerate()
        .filter(|(_, row)| row.contains(job))
        .map(|(index, _)| index)
        .collect(alloc)
}

/// For each job, the jobs that need it directly, in order.
pub(crate) fn all_dependents(
    alloc: Global,
    rows: &[JobBitmap],
) -> Result<Sequence<Sequence<usize>>, Refusal>
    ensures { Gives (λ d. d) result (Ok (dependents_by rows.now)) }
{
    let mut dependents = Vec::with_capacity(alloc, rows.len())?;
    for job in 0..rows.len() {
        dependents.push(Sequence::new(dependents_on(alloc, rows, job)?))?;
    }
    Ok(Sequence::new(dependents))
}

/// The jobs of each row, as a bitmap.
pub(crate) fn all_sets(alloc: Global, rows: &[JobBitmap]) -> Result<Sequence<JobSet>, AllocError>
    ensures { IfOk result (λ sets. IsSets sets rows.now) }
{
    let mut sets = Vec::new(alloc);
    for row in rows {
        sets.push(row.set(alloc)?)?;
    }
    Ok(Sequence::new(sets))
}
