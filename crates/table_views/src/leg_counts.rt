//! How many legs are in each state.

ghost use Rattle.std.specs.Prelude.{◌≡◌, ◌++◌, ◌∷◌, [], List, OnOk, flat_map, string_bytes};
ghost use Rattle.table_views.specs.LegCounting.{leg_counts, leg_line, leg_lines, leg_phases, lines_of_legs, phases_of};
ghost use Rattle.table_model.specs.declared.phases.LegPhase.{LegPhase as Phase};

use crate::metric_lines::{one_more, push_head, push_value};
use std::alloc::{AllocError, Global};
use table_model::{Job, LegPhase, Run};
use wf_value::Outcome;

/// How many legs are in each state.
#[derive(Clone, Copy)]
pub(crate) struct LegCounts {
    pub(crate) waiting: u64,
    pub(crate) ready: u64,
    pub(crate) running: u64,
    pub(crate) stopping: u64,
    pub(crate) success: u64,
    pub(crate) failure: u64,
    pub(crate) cancelled: u64,
}

impl LegCounts {
    /// There is no leg.
    fn none() -> LegCounts
        ensures { result ≡ leg_counts [] }
    {
        LegCounts {
            waiting: 0,
            ready: 0,
            running: 0,
            stopping: 0,
            success: 0,
            failure: 0,
            cancelled: 0,
        }
    }

    /// There is one more leg.
    fn add(&mut self, phase: LegPhase)
        ensures { (legs : List Phase) → self.old ≡ leg_counts legs → self.new ≡ leg_counts (legs ++ phase ∷ []) }
    {
        match phase {
            LegPhase::New | LegPhase::Waiting => one_more(&mut self.waiting),
            LegPhase::Ready => one_more(&mut self.ready),
            LegPhase::Running => one_more(&mut self.running),
            LegPhase::Stopping => one_more(&mut self.stopping),
            LegPhase::Ended(Outcome::Success) => one_more(&mut self.success),
            LegPhase::Ended(Outcome::Failure) => one_more(&mut self.failure),
            LegPhase::Ended(Outcome::Cancelled) => one_more(&mut self.cancelled),
        }
    }

    fn add_job(&mut self, job: &Job)
        ensures { (legs : List Phase) → self.old ≡ leg_counts legs → self.new ≡ leg_counts (legs ++ phases_of job.now.state) }
    {
        let legs = job.legs();
        for leg in legs {
            self.add(leg.phase);
        }
    }

    fn add_run(&mut self, run: &Run)
        ensures { (legs : List Phase) → self.old ≡ leg_counts legs → self.new ≡ leg_counts (legs ++ flat_map phases_of run.now.jobs) }
    {
        let jobs = run.jobs();
        for job in jobs {
            self.add_job(job);
        }
    }

    fn of(runs: &[Run]) -> LegCounts
        ensures { result ≡ leg_counts (leg_phases runs.now) }
    {
        let mut counts = LegCounts::none();
        for run in runs {
            counts.add_run(run);
        }
        counts
    }
}

fn push_leg_line(
    alloc: Global,
    text: &mut String,
    state: &str,
    count: u64,
) -> Result<(), AllocError>
    ensures { OnOk result (string_bytes text.new ≡ string_bytes text.old ++ leg_line state.now count) }
{
    let labels = format!(in alloc; "{{state=\"{state}\"}}")?;
    push_value(alloc, text, "acts_legs", labels.as_str(), count)
}

fn push_counts(alloc: Global, text: &mut String, counts: LegCounts) -> Result<(), AllocError>
    ensures { OnOk result (string_bytes text.new ≡ string_bytes text.old ++ lines_of_legs counts) }
{
    push_head(alloc, text, "acts_legs", "gauge", "Legs by state.")?;
    push_leg_line(alloc, text, "waiting", counts.waiting)?;
    push_leg_line(alloc, text, "ready", counts.ready)?;
    push_leg_line(alloc, text, "running", counts.running)?;
    push_leg_line(alloc, text, "stopping", counts.stopping)?;
    push_leg_line(alloc, text, "success", counts.success)?;
    push_leg_line(alloc, text, "failure", counts.failure)?;
    push_leg_line(alloc, text, "cancelled", counts.cancelled)
}

/// Appends the lines of the legs of these runs.
pub(crate) fn push_legs(alloc: Global, text: &mut String, runs: &[Run]) -> Result<(), AllocError>
    ensures { OnOk result (string_bytes text.new ≡ string_bytes text.old ++ leg_lines runs.now) }
{
    push_counts(alloc, text, LegCounts::of(runs))
}
