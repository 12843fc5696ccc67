//! Whether the contents of a table are sound. Each rule is tested by itself.

ghost use Rattle.std.specs.BTreeMap.{get};
ghost use Rattle.std.specs.Bool.{Decides};
ghost use Rattle.std.specs.Ordering.{nat_cmp};
ghost use Rattle.std.specs.Prelude.{◌≡◌, ◌+◌, ◌≤◌, ℕ, length, true};
ghost use Rattle.definitions.specs.Limits.{last_number};
ghost use Rattle.stored_tables.specs.inner.ByLease.{lease_of_leg, lease_of_runner};
ghost use Rattle.stored_tables.specs.inner.ByNumber.{Finds};
ghost use Rattle.table_model.specs.Sound.{ForgottenFit, IdsFollow, IsSound, KeptLeasesAreOfLegs, NumbersFollow};
ghost use Rattle.table_model.specs.AsPlanned.{AreAsPlanned};
ghost use Rattle.table_model.specs.Groups.{HasOneEach};
ghost use Rattle.table_model.specs.TableState.{names_rise};

mod deliveries;
pub(crate) mod jobs;
pub(crate) mod leases;
mod legs;
mod runners;
mod runs;

use crate::sound::deliveries::do_deliveries_differ;
use crate::sound::leases::Leases;
use crate::sound::legs::are_legs_sound;
use crate::sound::runners::are_runners_sound;
use crate::sound::runs::are_runs_sound;
use forgotten_runs::ForgottenRuns;
use run_plan::LAST_NUMBER;
use run_table::Runner;
use table_runs::runs::Runs;

/// Whether the table of these forgotten runs, runs and runners is sound. The runs must be as planned, their ids and numbers must follow
/// from their places after the forgotten ones, and no id may be too high. The runners' names must strictly increase, and each kept lease must be that of a leg. No group has
/// two pending holders, or two in progress.
pub(crate) fn is_sound(
    leases: &Leases,
    forgotten: &ForgottenRuns,
    runs: &mut Runs,
    runners: &[Runner],
) -> bool
    requires legs { (n : ℕ) → Finds (lease_of_leg runs.old) n (get nat_cmp leases.now.legs n) }
    requires held { (n : ℕ) → Finds (lease_of_runner runners.now) n (get nat_cmp leases.now.held n) }
    requires planned { AreAsPlanned runs.old }
    requires fit { ForgottenFit forgotten.now }
    requires last { forgotten.now.through + length runs.old ≤ last_number }
    requires ids { IdsFollow forgotten.now runs.old }
    requires numbers { NumbersFollow forgotten.now runs.old }
    requires groups { HasOneEach runs.old }
    requires rise { names_rise runners.now ≡ true }
    requires kept { KeptLeasesAreOfLegs leases.now.last runs.old runners.now }
    ensures sound { Decides result (IsSound (record
        { last_lease = leases.now.last; forgotten = forgotten.now; runs = runs.old; runners = runners.now })) }
    ensures kept { runs.new ≡ runs.old }
{
    if leases.last > LAST_NUMBER {
        return false;
    }
    if !are_legs_sound(leases, runs) {
        return false;
    }
    if !are_runs_sound(runs) {
        return false;
    }
    if !are_runners_sound(leases, runs, runners) {
        return false;
    }
    if !do_deliveries_differ(forgotten, runs) {
        return false;
    }
    runs.are_at_rest()
}
