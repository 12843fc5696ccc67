ghost use Rattle.std.specs.Prelude.{◌≡◌};

use wf_value::{JobResult, Outcome};

/// The phase of a leg.
#[derive(Clone, Copy)]
pub enum LegPhase {
    New,
    /// It waits for its concurrency group, if it has one.
    Waiting,
    /// A runner may claim it.
    Ready,
    Running,
    /// Its runner is asked to stop.
    Stopping,
    Ended(Outcome),
}

/// The phase of a job of a run.
#[derive(Clone, Copy)]
pub enum JobPhase {
    /// It waits for the jobs that it needs.
    Blocked,
    Open,
    Finished(JobResult),
}

/// The phase of a run.
#[derive(Clone, Copy)]
pub enum RunPhase {
    /// It waits for its concurrency group, if it has one.
    Waiting,
    Live,
    Ended,
}

impl LegPhase {
    ghost use Rattle.table_model.specs.Fitting.{is_ready, is_stopping_leg, is_at_work};
    ghost use Rattle.table_model.specs.Groups.{leg_holds, leg_waits};
    ghost use Rattle.table_model.specs.Runs.{is_new, outcome_of};
    ghost use Rattle.table_model.specs.Stops.{stopped_phase};

    pub fn is_ready(self) -> bool
        ensures { result ≡ is_ready self }
    {
        match self {
            LegPhase::Ready => true,
            LegPhase::New | LegPhase::Waiting => false,
            LegPhase::Running | LegPhase::Stopping | LegPhase::Ended(_) => false,
        }
    }

    /// Whether a runner is at work on the leg.
    pub fn is_at_work(self) -> bool
        ensures { result ≡ is_at_work self }
    {
        match self {
            LegPhase::Running | LegPhase::Stopping => true,
            LegPhase::New | LegPhase::Waiting | LegPhase::Ready | LegPhase::Ended(_) => false,
        }
    }

    /// Whether the leg's runner is asked to stop.
    pub fn is_stopping(self) -> bool
        ensures { result ≡ is_stopping_leg self }
    {
        match self {
            LegPhase::Stopping => true,
            LegPhase::New | LegPhase::Waiting | LegPhase::Ready => false,
            LegPhase::Running | LegPhase::Ended(_) => false,
        }
    }

    /// The phase after a stop: a leg that no runner has ends as cancelled.
    pub fn stopped(self) -> LegPhase
        ensures { result ≡ stopped_phase self }
    {
        match self {
            LegPhase::New | LegPhase::Waiting | LegPhase::Ready => {
                LegPhase::Ended(Outcome::Cancelled)
            }
            LegPhase::Running | LegPhase::Stopping => LegPhase::Stopping,
            LegPhase::Ended(outcome) => LegPhase::Ended(outcome),
        }
    }

    /// Whether the leg has not arrived yet.
    pub fn is_new(self) -> bool
        ensures { result ≡ is_new self }
    {
        match self {
            LegPhase::New => true,
            LegPhase::Waiting | LegPhase::Ready | LegPhase::Running => false,
            LegPhase::Stopping | LegPhase::Ended(_) => false,
        }
    }

    /// Whether the leg waits for its concurrency group.
    pub fn waits(self) -> bool
        ensures { result ≡ leg_waits self }
    {
        match self {
            LegPhase::Waiting => true,
            LegPhase::New | LegPhase::Ready => false,
            LegPhase::Running | LegPhase::Stopping | LegPhase::Ended(_) => false,
        }
    }

    /// Whether the leg holds its concurrency group.
    pub fn holds(self) -> bool
        ensures { result ≡ leg_holds self }
    {
        match self {
            LegPhase::Stopping | LegPhase::Running | LegPhase::Ready => true,
            LegPhase::New | LegPhase::Waiting | LegPhase::Ended(_) => false,
        }
    }

    /// The outcome of the leg, once it has ended.
    pub fn outcome(self) -> Option<Outcome>
        ensures { result ≡ outcome_of self }
    {
        match self {
            LegPhase::Ended(outcome) => Some(outcome),
            _ => None,
        }
    }
}

impl JobPhase {
    ghost use Rattle.table_model.specs.Runs.{finished_result, is_blocked, is_open};

    pub fn is_blocked(self) -> bool
        ensures { result ≡ is_blocked self }
    {
        match self {
            JobPhase::Blocked => true,
            JobPhase::Open | JobPhase::Finished(_) => false,
        }
    }

    pub(crate) fn is_open(self) -> bool
        ensures { result ≡ is_open self }
    {
        match self {
            JobPhase::Open => true,
            JobPhase::Blocked | JobPhase::Finished(_) => false,
        }
    }

    /// The result of the job, once it has finished.
    pub fn result(self) -> Option<JobResult>
        ensures { result ≡ finished_result self }
    {
        match self {
            JobPhase::Finished(settled) => Some(settled),
            JobPhase::Blocked | JobPhase::Open => None,
        }
    }
}

impl RunPhase {
    ghost use Rattle.table_model.specs.Groups.{run_waits};
    ghost use Rattle.table_model.specs.Runs.{is_live};

    pub fn is_live(self) -> bool
        ensures { result ≡ is_live self }
    {
        match self {
            RunPhase::Live => true,
            RunPhase::Waiting | RunPhase::Ended => false,
        }
    }

    /// Whether the run waits for its concurrency group.
    pub fn waits(self) -> bool
        ensures { result ≡ run_waits self }
    {
        match self {
            RunPhase::Waiting => true,
            RunPhase::Live | RunPhase::Ended => false,
        }
    }
}
