//! The changes of a run.

ghost use Rattle.std.specs.Prelude.{◌≡◌};
ghost use Rattle.table_model.specs.Changes.{offered_by};

use crate::leg::Leg;
use crate::phases::RunPhase;
use crate::sites::LegSite;
use wf_value::JobResult;

/// One change of a run. Within an attempt, a table changes its runs only by these. Each changes at most one holder of a group.
#[derive(Clone, Copy)]
pub enum Change {
    /// The run enters a phase.
    Phase(RunPhase),
    /// A job opens with all legs of its plan.
    Open(usize),
    /// A job finishes with a result.
    Settle(usize, JobResult),
    /// The run, which has not begun, ends, and all its jobs finish as cancelled.
    Cancel,
    /// The run is asked to stop.
    RequestStop,
    /// A leg of a job is replaced.
    PutLeg(usize, usize, Leg),
}

impl Change {
    /// The leg that the change of run `r` makes ready.
    pub fn offered(&self, r: usize) -> Option<LegSite>
        ensures { result ≡ offered_by r self.now }
    {
        match self {
            Change::PutLeg(j, l, leg) if leg.phase.is_ready() => Some(LegSite::new(r, *j, *l)),
            _ => None,
        }
    }
}
