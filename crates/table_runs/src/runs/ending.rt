//! The lease of a leg, and its end.

ghost use Rattle.std.specs.Prelude.{◌≡◌, ◌<◌, ◌^◌, IfSome, true};
ghost use Rattle.std.specs.Option.{option_map_or};
ghost use Rattle.table_model.specs.Groups.{holds};
ghost use Rattle.table_model.specs.Runs.{leased_leg, leg_at, with_leg};
ghost use Rattle.table_model.specs.declared.holder.Holder.TheVariants as held;
ghost use Rattle.table_model.specs.Fitting.{is_at_work};
ghost use Rattle.table_model.specs.Settling.{with_leg_in};
ghost use Rattle.table_model.specs.Sound.{RunsAreSound};
ghost use Rattle.table_model.specs.Stops.{after_end, fails_fast, stops_others};
ghost use Rattle.table_model.specs.declared.phases.LegPhase.TheVariants.{Ended};

use crate::runs::Runs;
use run_plan::Number;
use table_model::{Change, Holder, Leg, LegPhase, LegSite};
use wf_value::Outcome;

impl Runs {
    /// Ends the leg, if there is one.
    pub fn end(&mut self, leg: Option<LegSite>, outcome: Outcome)
        requires leg { IfSome leg (λ p. p.leg < 2 ^ 63) }
        requires sound { RunsAreSound self.old }
        requires work { IfSome leg (λ p. IfSome (leg_at self.old p) (λ leg. is_at_work leg.phase ≡ true)) }
        ensures { self.new ≡ option_map_or (λ p. after_end p outcome self.old) leg self.old }
    {
        if let Some(site) = leg {
            self.end_at(site, outcome);
        }
    }

    /// Whether the other legs of the job are stopped once one has failed.
    fn fails_fast(&self, r: usize, j: usize) -> bool
        ensures { result ≡ fails_fast self.now r j }
    {
        match self.planned(r, j) {
            Some(planned) => planned.fail_fast,
            None => false,
        }
    }

    /// Whether the end of the leg stops the other legs of its job. Takes no memory.
    fn stops_others(&self, site: LegSite, outcome: Outcome) -> bool
        ensures { result ≡ stops_others self.now site outcome }
    {
        outcome == Outcome::Failure
            && self.fails_fast(site.run, site.job)
            && !self.continues_on_error(site)
    }

    /// Ends the leg at the site, and stops the other legs of its job if its end stops them.
    fn end_at(&mut self, site: LegSite, outcome: Outcome)
        requires leg { site.leg < 2 ^ 63 }
        requires sound { RunsAreSound self.old }
        requires work { IfSome (leg_at self.old site) (λ leg. is_at_work leg.phase ≡ true) }
        ensures { self.new ≡ after_end site outcome self.old }
    {
        let stops_others = self.stops_others(site, outcome);
        self.end_leg(site, outcome);
        if stops_others {
            self.stop_legs(site.run, site.job);
        }
    }

    fn end_leg(&mut self, site: LegSite, outcome: Outcome)
        requires sound { RunsAreSound self.old }
        requires work { IfSome (leg_at self.old site) (λ leg. is_at_work leg.phase ≡ true) }
        ensures ended { self.new ≡ with_leg_in (Ended outcome) site self.old }
        ensures sound { RunsAreSound self.new }
    {
        if let Some(leg) = self.leg(site) {
            let ended = leg.in_phase(LegPhase::Ended(outcome));
            let change = Change::PutLeg(site.job, site.leg, ended);
            self.change_ending(&Holder::Leg(site), change);
        }
    }

    /// Gives a ready leg to a runner.
    pub fn lease(&mut self, site: LegSite, lease: Number)
        requires sound { RunsAreSound self.old }
        requires holds { holds self.old (held.Leg site) ≡ true }
        ensures { self.new ≡ with_leg site (λ _. leased_leg lease) self.old }
    {
        let change = Change::PutLeg(site.job, site.leg, Leg::leased(lease));
        self.change_within(site.run, change);
        self.rows.refresh_list(site);
    }
}
