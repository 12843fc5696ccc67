ghost use Rattle.std.specs.Prelude.{◌≡◌, None, Some, false};
ghost use Rattle.std.specs.Option.{option_map_or};
ghost use Rattle.needs_graph.specs.Needs.{is_cancelled, is_failure};
ghost use Rattle.table_model.specs.Fitting.{has_lease, is_ready, is_stopping_leg, is_at_work};
ghost use Rattle.table_model.specs.Runs.{leased_leg};
ghost use Rattle.table_model.specs.Settling.{leg_has_ended, leg_in_phase, new_leg, outcome_of};
ghost use Rattle.table_model.specs.Stops.{stopped};

use crate::phases::LegPhase;
use run_plan::Number;
use std::marker::Model;
use wf_value::Outcome;

/// One leg of a job of a run.
#[derive(Clone, Copy)]
pub struct Leg {
    pub phase: LegPhase,
    /// The lease under which a runner runs it or ran it.
    pub lease: Option<Number>,
}

impl Model for Leg {
    ghost use Rattle.table_model.specs.Runs.{LegState};

    ghost Value = { LegState };

    ghost view = { λ l. record { phase = l.phase; lease = l.lease } };

    ghost inverse = { λ l. record { phase = l.phase; lease = l.lease } };
}

impl Leg {
    pub fn new() -> Self
        ensures { result ≡ new_leg }
    {
        Leg {
            phase: LegPhase::New,
            lease: None,
        }
    }

    /// A leg that runs under a lease.
    pub fn leased(lease: Number) -> Self
        ensures { result ≡ leased_leg lease }
    {
        Leg {
            phase: LegPhase::Running,
            lease: Some(lease),
        }
    }

    /// The leg in another phase.
    pub fn in_phase(&self, phase: LegPhase) -> Leg
        ensures { result ≡ leg_in_phase phase self.now }
    {
        Leg {
            phase,
            lease: self.lease,
        }
    }

    /// The leg, stopped.
    pub fn stopped(&self) -> Leg
        ensures { result ≡ stopped self.now }
    {
        self.in_phase(self.phase.stopped())
    }

    pub(crate) fn has_ended(&self) -> bool
        ensures { result ≡ leg_has_ended self.now }
    {
        self.phase.outcome().is_some()
    }

    pub fn has_failed(&self) -> bool
        ensures { result ≡ option_map_or is_failure (outcome_of self.now.phase) false }
    {
        match self.phase.outcome() {
            Some(outcome) => outcome == Outcome::Failure,
            None => false,
        }
    }

    pub fn was_cancelled(&self) -> bool
        ensures { result ≡ option_map_or is_cancelled (outcome_of self.now.phase) false }
    {
        match self.phase.outcome() {
            Some(outcome) => outcome == Outcome::Cancelled,
            None => false,
        }
    }

    pub fn is_ready(&self) -> bool
        ensures { result ≡ is_ready self.now.phase }
    {
        self.phase.is_ready()
    }

    pub fn is_at_work(&self) -> bool
        ensures { result ≡ is_at_work self.now.phase }
    {
        self.phase.is_at_work()
    }

    pub fn is_stopping(&self) -> bool
        ensures { result ≡ is_stopping_leg self.now.phase }
    {
        self.phase.is_stopping()
    }

    pub fn has_lease(&self, lease: Number) -> bool
        ensures { result ≡ has_lease lease self.now }
    {
        match self.lease {
            Some(held) => held.get() == lease.get(),
            None => false,
        }
    }
}
