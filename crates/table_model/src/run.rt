ghost use Rattle.std.specs.Prelude.{◌≡◌, ◌&&◌, ◌<◌, None, Ok, is_some, length, map, not, option_map, slice_get, true};
ghost use Rattle.std.specs.List.{list_any, slice_index_or};
ghost use Rattle.definitions.specs.Limits.{last_attempt};
ghost use Rattle.wf_value.specs.Gives.{Gives};
ghost use Rattle.run_plan.specs.PlanOf.{plan_of};
ghost use Rattle.table_model.specs.inner.ActiveRuns.{has_active_leg, has_ready_leg, is_active, offers_legs};
ghost use Rattle.table_model.specs.inner.Cells.{blocked_cells, legs_planned, rooms, states};
ghost use Rattle.table_model.specs.Changes.{changed};
ghost use Rattle.table_model.specs.Runs.{changed_at, results_so_far, again, new_run, run_in_attempt};
ghost use Rattle.table_model.specs.inner.Resuming.{job_again};
ghost use Rattle.table_model.specs.Settling.{opened, finished_as, run_in_phase, legs_in_plan};
ghost use Rattle.table_model.specs.Stops.{cancelled, is_open_at};
ghost use Rattle.table_model.specs.inner.WithinRun.{condition_in, may_run_in, needs_finished_in};

mod needs;
mod of;

use crate::change::Change;
use crate::job::Job;
use crate::leg::Leg;
use crate::phases::RunPhase;
use crate::run::needs::{count_needs, settle_among};
use run_plan::{Number, PlannedJob, Prepared};
use std::alloc::Global;
use std::marker::Model;
use wf_value::{Condition, JobResult, Refusal, TryCopy, copy_items};

/// A run: its id, its number among the runs of its workflow, what was admitted, and the state of its present attempt.
#[derive(Drop)]
pub struct Run {
    id: Number,
    number: Number,
    prepared: Prepared,
    attempt: Number,
    phase: RunPhase,
    /// Whether the run has been asked to stop.
    stopping: bool,
    jobs: Vec<Job>,
}

impl Model for Run {
    ghost use Rattle.run_plan.specs.PlanOf.{plan_of};
    ghost use Rattle.table_model.specs.inner.Cells.{states};
    ghost use Rattle.table_model.specs.inner.NeedsLeft.{ArePlanned};
    ghost use Rattle.table_model.specs.Runs.{RunState};

    ghost Value = { RunState };

    ghost view = { λ r. record {
      id = r.id;
      number = r.number;
      admitted = r.prepared;
      attempt = r.attempt;
      phase = r.phase;
      stopping = r.stopping;
      jobs = states r.jobs.items;
    } };

    ghost invariant = { λ r. ArePlanned (plan_of r.prepared.body) r.jobs.items };
}

impl Run {
    /// A waiting run with this id and this number, in its first attempt, with all its jobs blocked.
    /// Promise (Runs, and how they are found): A run is made of an event, or of stored parts; each change of it, and its next attempt, are the
    ///   definition's
    /// By: `table_model::Run::{of_event, again, of_parts, change}`; the types `table_model::{Run, Job, Leg}`
    /// Refusal (The layers below): `table_model`: `Run::{of_event, again}`; `table_bindings`: `RunBindings::bind`, `LegView::label_texts`
    /// When: 50
    /// Afterwards: as it was; lists of labels only grow
    /// By: one clause each (`Gives`); `RunBindings::bind`, `err`, `grows`
    pub fn of_event(
        alloc: Global,
        id: Number,
        number: Number,
        prepared: &Prepared,
    ) -> Result<Self, Refusal>
        ensures { Gives (λ r. r) result (Ok (new_run id number prepared.now)) }
    {
        Run::in_attempt(alloc, id, number, Number::new(1), prepared)
    }

    /// The next attempt of the run: waiting, with all its jobs blocked.
    pub fn again(&self, alloc: Global) -> Result<Self, Refusal>
        requires { self.now.attempt < last_attempt }
        ensures { Gives (λ r. r) result (Ok (again self.now)) }
    {
        let next = Number::new(self.attempt.get() + 1);
        Run::in_attempt(alloc, self.id, self.number, next, &self.prepared)
    }

    /// A waiting run with this id and this number, in this attempt, with all its jobs blocked.
    fn in_attempt(
        alloc: Global,
        id: Number,
        number: Number,
        attempt: Number,
        prepared: &Prepared,
    ) -> Result<Self, Refusal>
        ensures { Gives (λ r. r) result (Ok (run_in_attempt id number attempt prepared.now)) }
    {
        let plan = prepared.plan();
        let mut jobs = blocked_jobs(alloc, plan.as_slice())?;
        count_needs(&mut jobs, plan.graph());
        Ok(Run {
            id,
            number,
            prepared: prepared.share()?,
            attempt,
            phase: RunPhase::Waiting,
            stopping: false,
            jobs,
        })
    }

    pub fn id(&self) -> Number
        ensures { result ≡ self.now.id }
    {
        self.id
    }

    /// Its number among the runs of its workflow.
    pub fn number(&self) -> Number
        ensures { result ≡ self.now.number }
    {
        self.number
    }

    pub fn prepared(&self) -> &Prepared
        ensures { result.now ≡ self.now.admitted }
    {
        &self.prepared
    }

    /// Refers to the copy of the workflow that the other run refers to, if both have the same workflow. Only memory shows it.
    pub fn share_workflow(&mut self, other: &Run)
        ensures { self.new ≡ self.old }
    {
        self.prepared.share_workflow(&other.prepared);
    }

    pub fn attempt(&self) -> Number
        ensures { result ≡ self.now.attempt }
    {
        self.attempt
    }

    pub fn phase(&self) -> RunPhase
        ensures { result ≡ self.now.phase }
    {
        self.phase
    }

    pub fn is_stopping(&self) -> bool
        ensures { result ≡ self.now.stopping }
    {
        self.stopping
    }

    pub fn jobs(&self) -> &[Job]
        ensures { states result.now ≡ self.now.jobs }
    {
        self.jobs.as_slice()
    }

    /// Like `jobs`; the contract adds that each has room for the legs of its plan.
    pub fn planned_jobs(&self) -> &[Job]
        ensures jobs { states result.now ≡ self.now.jobs }
        ensures rooms { rooms result.now ≡ legs_planned (plan_of self.now.admitted.body) }
    {
        self.jobs.as_slice()
    }

    pub fn job_count(&self) -> usize
        ensures { result ≡ length self.now.jobs }
    {
        self.jobs.len()
    }

    pub fn job(&self, j: usize) -> Option<&Job>
        ensures { option_map (λ job. job.now.state) result ≡ slice_get self.now.jobs j }
    {
        self.jobs.get(j)
    }

    /// Whether all jobs that job `j` needs directly have finished.
    pub fn needs_have_finished(&self, j: usize) -> bool
        ensures { result ≡ needs_finished_in self.now j }
    {
        match self.jobs.get(j) {
            Some(job) => job.needs_left() == 0,
            None => true,
        }
    }

    /// The job at which settling resumes after a rule at job `j`: the first job that needs it, if `j` has finished and that one is before
    /// it, and otherwise `j`.
    pub fn job_again(&self, j: usize) -> usize
        ensures { result ≡ job_again self.now j }
    {
        if !is_finished_at(self.jobs(), j) {
            return j;
        }
        match self.prepared.plan().graph().first_dependent(j) {
            Some(first) => j.min(first),
            None => j,
        }
    }

    fn planned(&self, j: usize) -> Option<&PlannedJob>
        ensures { option_map (λ p. p.now) result ≡ slice_get (plan_of self.now.admitted.body) j }
    {
        self.prepared.plan().as_slice().get(j)
    }

    fn condition(&self, j: usize) -> Condition
        ensures { result ≡ condition_in self.now j }
    {
        match self.planned(j) {
            Some(job) => job.condition,
            None => Condition::Never,
        }
    }

    /// Whether the condition of job `j` holds, given the results of all its ancestors.
    pub fn may_run(&self, j: usize) -> bool
        ensures { result ≡ may_run_in self.now j }
    {
        let condition = self.condition(j);
        let graph = self.prepared.plan().graph();
        graph.decide(j, condition, self.jobs(), self.stopping)
    }

    /// Whether one of its legs is ready.
    pub fn offers_legs(&self) -> bool
        ensures { result ≡ offers_legs self.now }
    {
        have_ready_leg(self.jobs())
    }

    /// Whether it waits or is live, or one of its legs waits for its group or holds it.
    pub fn is_active(&self) -> bool
        ensures { result ≡ is_active self.now }
    {
        self.phase.waits() || self.phase.is_live() || have_active_leg(self.jobs())
    }

    // ---- changes

    /// Applies the change to the run.
    pub fn change(&mut self, change: Change)
        ensures { self.new ≡ changed change self.old }
    {
        match change {
            Change::Phase(phase) => self.set_phase(phase),
            Change::Open(j) => self.open_job(j),
            Change::Settle(j, settled) => self.settle_job(j, settled),
            Change::Cancel => self.cancel(),
            Change::RequestStop => self.set_stopping(),
            Change::PutLeg(j, l, leg) => self.set_leg(j, l, leg),
        }
    }

    pub(crate) fn set_phase(&mut self, phase: RunPhase)
        ensures { self.new ≡ run_in_phase phase self.old }
    {
        self.phase = phase;
    }

    /// Opens job `j` with all legs of its plan.
    #[tactic(auto, using(crate::proofs::Doors::job_written))]
    pub(crate) fn open_job(&mut self, j: usize)
        ensures { self.new ≡ record self.old {
          jobs = changed_at j (opened (legs_in_plan (plan_of self.old.admitted.body) j)) self.old.jobs;
        } }
    {
        if j < self.jobs.len() {
            let job = &mut self.jobs[j];
            let had_finished = job.is_finished();
            job.open();
            if had_finished {
                count_needs(&mut self.jobs, self.prepared.plan().graph());
            }
        }
    }

    /// Finishes job `j` with this result.
    pub(crate) fn settle_job(&mut self, j: usize, settled: JobResult)
        ensures { self.new ≡ record self.old { jobs = changed_at j (finished_as settled) self.old.jobs } }
    {
        settle_among(&mut self.jobs, self.prepared.plan().graph(), j, settled);
    }

    /// Ends a run that has not begun. All its jobs finish as cancelled.
    fn cancel(&mut self)
        ensures { self.new ≡ cancelled self.old }
    {
        self.settle_all(JobResult::Cancelled);
        self.set_phase(RunPhase::Ended);
    }

    /// Finishes all jobs with the same result.
    fn settle_all(&mut self, settled: JobResult)
        ensures { self.new ≡ record self.old { jobs = map (finished_as settled) self.old.jobs } }
    {
        for j in 0..self.job_count() {
            self.settle_job(j, settled);
        }
    }

    fn set_stopping(&mut self)
        ensures { self.new ≡ record self.old { stopping = true } }
    {
        self.stopping = true;
    }

    /// Whether job `j` is open and its condition is false.
    pub fn is_to_stop(&self, j: usize) -> bool
        ensures { result ≡ (is_open_at self.now j && not (may_run_in self.now j)) }
    {
        self.is_open_at(j) && !self.may_run(j)
    }

    fn is_open_at(&self, j: usize) -> bool
        ensures { result ≡ is_open_at self.now j }
    {
        match self.job(j) {
            Some(job) => job.phase().is_open(),
            None => false,
        }
    }

    /// Replaces leg `l` of job `j`, if there is one.
    #[tactic(auto, using(crate::proofs::Doors::job_written))]
    pub(crate) fn set_leg(&mut self, j: usize, l: usize, leg: Leg)
        ensures { self.new ≡ record self.old {
          jobs = changed_at j (λ job. record job { legs = changed_at l (λ _. leg) job.legs }) self.old.jobs;
        } }
    {
        if j < self.jobs.len() {
            let job = &mut self.jobs[j];
            job.set_leg(l, leg);
        }
    }
}

impl TryCopy for Run {
    /// Shares the event and copies the jobs.
    fn copy(&self, alloc: Global) -> Result<Self, Refusal> {
        Ok(Run {
            id: self.id,
            number: self.number,
            prepared: self.prepared.share()?,
            attempt: self.attempt,
            phase: self.phase,
            stopping: self.stopping,
            jobs: copy_items(alloc, &self.jobs)?,
        })
    }
}

/// The jobs of a plan, all blocked, each with room for its legs.
fn blocked_jobs(alloc: Global, plan: &[PlannedJob]) -> Result<Vec<Job>, Refusal>
    ensures { Gives (λ jobs. jobs.items) result (Ok (map blocked_cells plan.now)) }
{
    let mut jobs = Vec::with_capacity(alloc, plan.len())?;
    for planned in plan {
        jobs.push(Job::blocked(alloc, planned.legs.as_slice().len())?)?;
    }
    Ok(jobs)
}

fn have_ready_leg(jobs: &[Job]) -> bool
    ensures { result ≡ list_any (λ job. has_ready_leg job.state) jobs.now }
{
    jobs.iter().any(|job| job.has_ready_leg())
}

fn have_active_leg(jobs: &[Job]) -> bool
    ensures { result ≡ list_any (λ job. has_active_leg job.state) jobs.now }
{
    jobs.iter().any(|job| job.has_active_leg())
}

/// Whether the job at this index has finished.
fn is_finished_at(jobs: &[Job], index: usize) -> bool
    ensures { result ≡ is_some (slice_index_or (results_so_far (states jobs.now)) index None) }
{
    match jobs.get(index) {
        Some(job) => job.is_finished(),
        None => false,
    }
}
