//! Tests the rules of each runner: it alone holds its lease, a runner is at work on that lease's leg, and its last
//! command is its own.

ghost use Rattle.std.specs.Bool.{Decides};
ghost use Rattle.std.specs.Prelude.{◌≡◌, Some};
ghost use Rattle.stored_tables.specs.inner.OneByOne.{EachRunnerIsSound, HoldsWork, RunnerIsSound, is_worked_on, runner_of};
ghost use Rattle.table_model.specs.Sound.{IsLastOf};

use crate::sound::leases::Leases;
use run_plan::{LastCommand, Number, RunnerName};
use run_table::Runner;
use table_runs::runs::Runs;

/// Whether the last command is this runner's and has this number.
fn is_last_of(name: &RunnerName, number: Number, last: &LastCommand) -> bool
    ensures { Decides result (IsLastOf name.now number last.now) }
{
    match last {
        LastCommand::Claim(claim, _) => {
            claim.runner.as_str() == name.as_str() && claim.number.get() == number.get()
        }
        LastCommand::Done(report) => {
            report.runner.as_str() == name.as_str() && report.number.get() == number.get()
        }
    }
}

/// Whether a look-up by the lease finds the runner at this index.
fn is_held_by(leases: &Leases, lease: Number, index: usize) -> bool
    ensures { Decides result (runner_of leases.now lease ≡ Some index) }
{
    match leases.held.get(&lease.get()) {
        Some(found) => *found == index,
        None => false,
    }
}

/// Whether a runner is at work on the leg that a look-up by the lease finds.
fn is_worked_on(leases: &Leases, runs: &Runs, lease: Number) -> bool
    ensures { result ≡ is_worked_on runs.now leases.now lease }
{
    let Some(site) = leases.legs.get(&lease.get()) else {
        return false;
    };
    match runs.leg(*site) {
        Some(leg) => leg.is_at_work(),
        None => false,
    }
}

fn holds_work(leases: &Leases, runs: &Runs, index: usize, runner: &Runner) -> bool
    ensures { Decides result (HoldsWork leases.now runs.now index runner.now) }
{
    match runner.holds {
        Some(lease) => is_held_by(leases, lease, index) && is_worked_on(leases, runs, lease),
        None => true,
    }
}

fn is_runner_sound(leases: &Leases, runs: &Runs, index: usize, runner: &Runner) -> bool
    ensures { Decides result (RunnerIsSound leases.now runs.now index runner.now) }
{
    holds_work(leases, runs, index, runner) && is_last_of(&runner.name, runner.number, &runner.last)
}

pub(crate) fn are_runners_sound(leases: &Leases, runs: &Runs, runners: &[Runner]) -> bool
    ensures { Decides result (EachRunnerIsSound leases.now runs.now runners.now) }
{
    for k in 0..runners.len() {
        let runner = &runners[k];
        if !is_runner_sound(leases, runs, k, runner) {
            return false;
        }
    }
    true
}
