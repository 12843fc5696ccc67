//! How many bytes runs have in the text of a table.

ghost use Rattle.std.specs.Prelude.{◌≡◌, ◌+◌, ◌*◌, ◌≤◌, [], length, sum_by};
ghost use Rattle.std.specs.List.{AllByRecursion};
ghost use Rattle.definitions.specs.Limits.{max_jobs};
ghost use Rattle.run_plan.specs.PlanOf.{faults_of, plan_of};
ghost use Rattle.table_model.specs.inner.Cells.{rooms, states};
ghost use Rattle.table_model.specs.Changes.{changed};
ghost use Rattle.table_model.specs.Settling.{legs_in_plan};
ghost use Rattle.table_model.specs.declared.change.Change.TheVariants.{Open};
ghost use Rattle.table_runs.specs.StoredSizes.{IsSmall, job_size, leg_counts, run_size, texts_size};

use run_plan::Prepared;
use table_model::{Change, Job, Run};

/// The bytes of a run besides its texts and its jobs: the lengths of three texts, an attempt, a phase and a flag.
const OWN: u64 = 18;

/// The bytes of a job besides its legs: a phase and their number.
const JOB: u64 = 5;

/// The bytes of a leg: a phase and a lease.
const LEG: u64 = 5;

/// How many bytes the run has. The contract adds that it is within its limits.
pub(crate) fn run_size(run: &Run) -> u64
    ensures size { result ≡ run_size run.now }
    ensures small { IsSmall run.now }
{
    OWN + texts_size(run.prepared()) + jobs_size(run.planned_jobs())
}

/// How many bytes the change adds to the run. No change takes any away.
pub(crate) fn size_added(run: &Run, change: &Change) -> u64
    ensures { run_size (changed change.now run.now) ≡ run_size run.now + result }
{
    match change {
        Change::Open(j) => LEG * legs_to_come(run, *j) as u64,
        _ => 0,
    }
}

/// The bytes of the delivery, of the event's name and of the body.
fn texts_size(event: &Prepared) -> u64
    ensures size { result ≡ texts_size event.now }
    ensures most { result ≤ 65664 }
    ensures faultless { faults_of event.now.body ≡ [] }
{
    let names = event.delivery().as_str().len() + event.event().as_str().len();
    (names + event.body().len()) as u64
}

/// The bytes of the jobs.
fn jobs_size(jobs: &[Job]) -> u64
    requires few { length jobs.now ≤ max_jobs }
    requires rooms { AllByRecursion (λ n. n ≤ 256) (rooms jobs.now) }
    ensures size { result ≡ sum_by job_size (leg_counts (states jobs.now)) }
    ensures legs { AllByRecursion (λ n. n ≤ 256) (leg_counts (states jobs.now)) }
    ensures most { result ≤ 256 * 1285 }
{
    let mut size = 0;
    for job in jobs {
        size += JOB + LEG * job.planned_legs().len() as u64;
    }
    size
}

/// How many legs job `j` gets when it opens: none if it has its legs.
fn legs_to_come(run: &Run, j: usize) -> usize
    ensures added { run_size (changed (Open j) run.now) ≡ run_size run.now + 5 * result }
    ensures few { result ≤ 256 }
{
    match run.planned_jobs().get(j) {
        Some(job) => legs_planned(run, j) - job.planned_legs().len(),
        None => 0,
    }
}

fn legs_planned(run: &Run, j: usize) -> usize
    ensures { result ≡ legs_in_plan (plan_of run.now.admitted.body) j }
{
    match run.prepared().plan().as_slice().get(j) {
        Some(planned) => planned.legs.as_slice().len(),
        None => 0,
    }
}
