//! Tests the rules of each leg: it has a lease if its phase requires one and none if no runner has claimed it. The
//! lease was granted, no other leg has it, and a runner holds it while the leg is at work.

ghost use Rattle.std.specs.Bool.{Decides};
ghost use Rattle.std.specs.Prelude.{◌≡◌, is_some, Some};
ghost use Rattle.stored_tables.specs.inner.OneByOne.{EachLegIsSound, IsFound, IsGiven, LegIsSound, leg_of, runner_of};
ghost use Rattle.table_model.specs.Sound.{LeaseFits};

use crate::sound::leases::Leases;
use run_plan::Number;
use table_model::{Leg, LegPhase, LegSite};
use table_runs::runs::Runs;
use table_runs::walk::Legs;
use wf_value::Outcome;

/// Whether a leg in this phase may have this lease, or may lack one.
fn lease_fits(phase: LegPhase, lease: Option<Number>) -> bool
    ensures { Decides result (LeaseFits phase lease) }
{
    match phase {
        LegPhase::New | LegPhase::Waiting | LegPhase::Ready => lease.is_none(),
        LegPhase::Running | LegPhase::Stopping => lease.is_some(),
        LegPhase::Ended(Outcome::Success | Outcome::Failure) => lease.is_some(),
        LegPhase::Ended(Outcome::Cancelled) => true,
    }
}

/// Whether the lease, if there is one, is at most the last granted.
fn is_given(last: u32, lease: Option<Number>) -> bool
    ensures { Decides result (IsGiven last lease) }
{
    match lease {
        Some(lease) => lease.get() <= last,
        None => true,
    }
}

/// Whether a look-up by the lease finds the leg at this site.
fn leads_to(leases: &Leases, lease: Number, site: LegSite) -> bool
    ensures { Decides result (leg_of leases.now lease ≡ Some site) }
{
    match leases.legs.get(&lease.get()) {
        Some(found) => found.run == site.run && found.job == site.job && found.leg == site.leg,
        None => false,
    }
}

fn is_held(leases: &Leases, lease: Number) -> bool
    ensures { result ≡ is_some (runner_of leases.now lease) }
{
    leases.held.contains_key(&lease.get())
}

/// Whether a look-up by the leg's lease finds the leg, and a runner holds the lease while the leg is at work.
fn is_found(leases: &Leases, site: LegSite, leg: &Leg) -> bool
    ensures { Decides result (IsFound leases.now site leg.now) }
{
    match leg.lease {
        Some(lease) => {
            leads_to(leases, lease, site) && (!leg.is_at_work() || is_held(leases, lease))
        }
        None => true,
    }
}

fn is_leg_sound(leases: &Leases, site: LegSite, leg: &Leg) -> bool
    ensures { Decides result (LegIsSound leases.now site leg.now) }
{
    lease_fits(leg.phase, leg.lease)
        && is_given(leases.last, leg.lease)
        && is_found(leases, site, leg)
}

pub(crate) fn are_legs_sound(leases: &Leases, runs: &Runs) -> bool
    ensures { Decides result (EachLegIsSound leases.now runs.now) }
{
    for (site, leg) in Legs::of_runs(runs) {
        if !is_leg_sound(leases, site, leg) {
            return false;
        }
    }
    true
}
