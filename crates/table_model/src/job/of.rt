//! Builds a job from the parts in which it is stored.

ghost use Rattle.std.specs.Prelude.{◌≡◌, IfOk, MatchOption};
ghost use Rattle.wf_value.specs.Gives.{ErrsOnlyByMemory};
ghost use Rattle.table_model.specs.AsPlanned.{HasRoom};

use crate::job::Job;
use crate::leg::Leg;
use crate::leg_counts::LegCounts;
use crate::run_parts::JobParts;
use std::alloc::Global;
use wf_value::Refusal;

impl Job {
    /// The job of these parts, with room for `room` legs, if it has none of them or all. Otherwise `None`. Its needs are not counted yet.
    pub(crate) fn of_parts(
        alloc: Global,
        parts: &JobParts,
        room: usize,
    ) -> Result<Option<Self>, Refusal>
        ensures err { ErrsOnlyByMemory result }
        ensures of { IfOk result (λ found. MatchOption found (HasRoom room parts.now.legs → ⊥)
            (λ job. (job ≡ record { state = parts.now; room = room; needs_left = 0 }) × HasRoom room parts.now.legs)) }
    {
        let legs = parts.legs.as_slice();
        if legs.len() == room {
            return Ok(Some(Job {
                phase: parts.phase,
                has_legs: true,
                room: Vec::from_slice(alloc, legs)?,
                counts: LegCounts::of(legs),
                needs_left: 0,
            }));
        }
        if !legs.is_empty() {
            return Ok(None);
        }
        Ok(Some(Job {
            phase: parts.phase,
            has_legs: false,
            room: vec![in alloc; Leg::new(); room]?,
            counts: LegCounts::none(),
            needs_left: 0,
        }))
    }
}
