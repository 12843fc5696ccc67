ghost use Rattle.std.specs.Prelude.{◌≡◌, ◌≤◌, Ok, length};
ghost use Rattle.std.specs.List.{list_all};
ghost use Rattle.wf_value.specs.Gives.{Gives};
ghost use Rattle.table_model.specs.inner.ActiveRuns.{has_active_leg, has_ready_leg};
ghost use Rattle.table_model.specs.inner.Cells.{in_state};
ghost use Rattle.table_model.specs.Runs.{changed_at, blocked_job};
ghost use Rattle.table_model.specs.inner.LegCounts.{AreCounted, has_unready_leg};
ghost use Rattle.table_model.specs.Fitting.{legs_at_work};
ghost use Rattle.table_model.specs.Settling.{leg_has_ended, is_done, is_finished, opened, finished_as};

mod of;

use crate::leg::Leg;
use crate::leg_counts::LegCounts;
use crate::phases::JobPhase;
use needs_graph::HasResult;
use std::alloc::Global;
use std::marker::Model;
use wf_value::{JobResult, Refusal, TryCopy};

/// One job of a run, at its index in the plan. Its room for all its legs is allocated with the run.
#[derive(Drop)]
pub struct Job {
    phase: JobPhase,
    /// Whether the legs in the room are the job's. It has none until it opens.
    has_legs: bool,
    room: Vec<Leg>,
    /// How many of its legs are in each phase.
    counts: LegCounts,
    /// How many of the jobs that it needs directly have not finished. Its run maintains the count.
    needs_left: usize,
}

impl Model for Job {
    ghost use Rattle.table_model.specs.inner.Cells.{JobCells, cells_of};
    ghost use Rattle.table_model.specs.inner.LegCounts.{AreCounted, legs_of_room};

    ghost Value = { JobCells };

    ghost view = { λ j. cells_of j.phase j.has_legs j.room.items j.needs_left };

    ghost invariant = { λ j. AreCounted (legs_of_room j.has_legs j.room.items) j.counts };
}

impl Job {
    /// A blocked job with room for `room` legs. Its needs are not counted yet.
    pub(crate) fn blocked(alloc: Global, room: usize) -> Result<Self, Refusal>
        ensures { Gives (λ j. j) result (Ok (record { state = blocked_job; room = room; needs_left = 0 })) }
    {
        Ok(Job {
            phase: JobPhase::Blocked,
            has_legs: false,
            room: vec![in alloc; Leg::new(); room]?,
            counts: LegCounts::none(),
            needs_left: 0,
        })
    }

    pub fn phase(&self) -> JobPhase
        ensures { result ≡ self.now.state.phase }
    {
        self.phase
    }

    pub fn legs(&self) -> &[Leg]
        ensures { result.now ≡ self.now.state.legs }
    {
        self.planned_legs()
    }

    /// Like `legs`; the contract adds that there are no more than the plan has.
    pub fn planned_legs(&self) -> &[Leg]
        ensures legs { result.now ≡ self.now.state.legs }
        ensures most { length result.now ≤ self.now.room }
    {
        let count = if self.has_legs { self.room.len() } else { 0 };
        &self.room[..count]
    }

    fn counts(&self) -> LegCounts
        ensures { AreCounted self.now.state.legs result }
    {
        self.counts
    }

    /// How many of the jobs that it needs directly have not finished.
    pub(crate) fn needs_left(&self) -> usize
        ensures { result ≡ self.now.needs_left }
    {
        self.needs_left
    }

    pub(crate) fn set_needs_left(&mut self, needs_left: usize)
        ensures { self.new ≡ record self.old { needs_left = needs_left } }
    {
        self.needs_left = needs_left;
    }

    /// Whether one of its legs is ready.
    pub fn has_ready_leg(&self) -> bool
        ensures { result ≡ has_ready_leg self.now.state }
    {
        self.counts().ready > 0
    }

    /// Whether one of its legs waits for its group or holds it.
    pub(crate) fn has_active_leg(&self) -> bool
        ensures { result ≡ has_active_leg self.now.state }
    {
        self.counts().has_active()
    }

    /// Whether one of its legs is new or waits. No rule applies to any other leg.
    pub fn has_unready_leg(&self) -> bool
        ensures { result ≡ has_unready_leg self.now.state }
    {
        self.counts().has_unready()
    }

    /// Opens the job with all its legs new.
    pub(crate) fn open(&mut self)
        ensures { self.new ≡ in_state (opened self.old.room self.old.state) self.old }
    {
        self.room.fill(Leg::new());
        self.counts = LegCounts::all_new(self.room.len());
        self.has_legs = true;
        self.phase = JobPhase::Open;
    }

    pub fn settle(&mut self, settled: JobResult)
        ensures { self.new ≡ in_state (finished_as settled self.old.state) self.old }
    {
        self.phase = JobPhase::Finished(settled);
    }

    /// Replaces leg `l`, if the job has it.
    pub(crate) fn set_leg(&mut self, l: usize, leg: Leg)
        ensures { self.new ≡ in_state (record self.old.state { legs = changed_at l (λ _. leg) self.old.state.legs }) self.old }
    {
        if self.has_legs && l < self.room.len() {
            let old = self.room[l];
            self.counts = self.counts.moved(&old, &leg);
            self.room[l] = leg;
        }
    }

    /// How many of its legs have a runner at work.
    pub fn legs_at_work(&self) -> usize
        ensures { result ≡ legs_at_work self.now.state }
    {
        self.counts().at_work
    }

    pub fn is_finished(&self) -> bool
        ensures { result ≡ is_finished self.now.state }
    {
        self.phase.result().is_some()
    }

    pub fn have_legs_ended(&self) -> bool
        ensures { result ≡ list_all leg_has_ended self.now.state.legs }
    {
        !self.counts().has_unended()
    }

    /// Whether the job is open and all its legs have ended.
    pub fn is_done(&self) -> bool
        ensures { result ≡ is_done self.now.state }
    {
        self.phase.is_open() && self.have_legs_ended()
    }
}

impl HasResult for Job {
    ghost use Rattle.table_model.specs.inner.Cells.{result_of};

    ghost job_result = { result_of };

    fn job_result(&self) -> Option<JobResult> {
        self.phase.result()
    }
}

impl TryCopy for Job {
    fn copy(&self, alloc: Global) -> Result<Self, Refusal> {
        Ok(Job {
            phase: self.phase,
            has_legs: self.has_legs,
            room: Vec::from_slice(alloc, self.room.as_slice())?,
            counts: self.counts,
            needs_left: self.needs_left,
        })
    }
}
