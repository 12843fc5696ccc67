//! A run in parts, as it is stored. The parts omit what follows from the rest, such as the run's id, its number and its legs' labels.

use crate::leg::Leg;
use crate::phases::{JobPhase, RunPhase};
use run_plan::{Number, Prepared};
use std::marker::Model;
use wf_value::Sequence;

/// A job of a run with its legs.
#[derive(Drop)]
pub struct JobParts {
    pub phase: JobPhase,
    pub legs: Sequence<Leg>,
}

impl Model for JobParts {
    ghost use Rattle.table_model.specs.Runs.{JobState};

    ghost Value = { JobState };

    ghost view = { λ j. record { phase = j.phase; legs = j.legs } };
}

/// A run: what was admitted, its attempt, the phase of the attempt, and its jobs.
#[derive(Drop)]
pub struct RunParts {
    pub prepared: Prepared,
    pub attempt: Number,
    pub phase: RunPhase,
    /// Whether the run has been asked to stop.
    pub stopping: bool,
    pub jobs: Sequence<JobParts>,
}

impl Model for RunParts {
    ghost use Rattle.table_model.specs.Parts.{RunParts};

    ghost Value = { RunParts };

    ghost view = { λ r. record { admitted = r.prepared; attempt = r.attempt; phase = r.phase; stopping = r.stopping; jobs = r.jobs } };
}
