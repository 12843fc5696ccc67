//! A table in parts, as it is stored. The parts leave out what follows from the rest: a run's id and its number, a leg's
//! labels, and the combination of a kept lease.

ghost use Rattle.std.specs.Cmp.Lexicographic.{slice_cmp};
ghost use Rattle.std.specs.Ordering.{is_lt, nat_cmp};
ghost use Rattle.std.specs.Prelude.{◌≡◌};
ghost use Rattle.definitions.specs.Rising.{rises_by};

use forgotten_runs::ForgottenParts;
use run_plan::{Claim, Done, Number, RunnerName};
use std::marker::Model;
use table_model::RunParts;
use wf_value::Sequence;

/// The site of a leg in an attempt of its run.
#[derive(Clone, Copy)]
pub struct StoredSite {
    /// The run's id.
    pub run: Number,
    pub attempt: Number,
    /// The job's index in the plan, from 0.
    pub job: usize,
    /// The leg's index in its job, from 0.
    pub leg: usize,
}

/// A lease that is kept as a reply.
#[derive(Clone, Copy)]
pub struct StoredLease {
    pub lease: Number,
    /// The site of its leg. If it is absent, the leg is the one that has the lease.
    pub place: Option<StoredSite>,
}

/// A runner's last numbered command, with what is stored of its kept reply.
#[derive(Drop)]
pub enum LastParts {
    /// A claim, and the lease that it was granted, if any.
    Claim(Claim, Option<StoredLease>),
    /// A report. Its reply is `ok`.
    Done(Done),
}

/// A runner: its last numbered command and the lease that it holds.
#[derive(Drop)]
pub struct RunnerParts {
    pub name: RunnerName,
    /// The number of its last command.
    pub number: Number,
    pub last: LastParts,
    pub holds: Option<Number>,
}

impl Model for RunnerParts {
    ghost use Rattle.stored_tables.specs.Stored.{RunnerParts};

    ghost Value = { RunnerParts };

    ghost view = { λ r. record { name = r.name; number = r.number; last = r.last; holds = r.holds } };
}

/// A table.
#[derive(Drop)]
pub struct TableParts {
    pub last_lease: u32,
    pub forgotten: ForgottenParts,
    /// The runs that are not forgotten, in the order of their ids.
    pub runs: Sequence<RunParts>,
    /// The runners, in the byte order of their names.
    pub runners: Sequence<RunnerParts>,
}

impl Model for TableParts {
    ghost use Rattle.stored_tables.specs.Stored.{TableParts};

    ghost Value = { TableParts };

    ghost view = { λ t. record { last_lease = t.last_lease; forgotten = t.forgotten; runs = t.runs; runners = t.runners } };
}

fn is_below(runner: &RunnerParts, next: &RunnerParts) -> bool
    ensures { result ≡ is_lt (slice_cmp nat_cmp runner.now.name next.now.name) }
{
    runner.name.as_str() < next.name.as_str()
}

/// Whether the names strictly increase in byte order.
pub fn do_names_rise(runners: &[RunnerParts]) -> bool
    ensures { result ≡ rises_by (λ r. r.name) runners.now }
{
    runners.is_sorted_by(|runner, next| is_below(runner, next))
}
