//! Builds the leases that are kept as replies from their stored parts.

ghost use Rattle.std.specs.BTreeMap.{get};
ghost use Rattle.std.specs.Bool.{Decides};
ghost use Rattle.std.specs.Ordering.{nat_cmp};
ghost use Rattle.std.specs.Prelude.{◌≡◌, ◌<◌, ◌≤◌, IfOk, MatchOption, None, Some, nat_lt, option_map};
ghost use Rattle.wf_value.specs.Gives.{ErrsOnlyByMemory};
ghost use Rattle.run_plan.specs.declared.last_command.KeptLease.{KeptLease as Kept};
ghost use Rattle.stored_tables.specs.inner.ByLease.{FindsLegs};
ghost use Rattle.table_model.specs.Sound.{IdsFollow, IsOfALeg};
ghost use Rattle.table_model.specs.Step.{kept_lease};
ghost use Rattle.stored_tables.specs.inner.StoredSites.{site_in_runs};
ghost use Rattle.stored_tables.specs.TableOf.{IsLeaseAs};
ghost use Rattle.table_model.specs.AsPlanned.{AreAsPlanned};
ghost use Rattle.table_model.specs.Runs.{run_at};
ghost use Rattle.table_model.specs.LegContext.{planned_legs};

use crate::parts::{StoredLease, StoredSite};
use crate::sound::jobs::planned_legs;
use forgotten_runs::ForgottenRuns;
use run_plan::{KeptLease, Number};
use run_table::{kept_lease, leg_has_lease};
use std::alloc::Global;
use std::collections::BTreeMap;
use table_model::LegSite;
use table_runs::runs::Runs;
use wf_value::Refusal;

/// What a stored lease is checked against: the last lease, the forgotten runs, the others, and the sites of their legs by lease.
#[derive(Drop)]
pub(crate) struct Leased<'a> {
    pub alloc: Global,
    pub last: u32,
    pub forgotten: &'a ForgottenRuns,
    pub runs: &'a Runs,
    pub legs: &'a BTreeMap<u32, LegSite>,
}

impl<'a> Leased<'a> {
    /// The kept lease, or `None` if its number is above the last or no leg may have had it.
    pub(crate) fn lease(&self, parts: &StoredLease) -> Result<Option<KeptLease>, Refusal>
        requires legs { FindsLegs self.now.runs.now (get nat_cmp self.now.legs.now) }
        requires planned { AreAsPlanned self.now.runs.now }
        requires ids { IdsFollow self.now.forgotten.now self.now.runs.now }
        ensures err { ErrsOnlyByMemory result }
        ensures of { IfOk result (λ found. MatchOption found
            ((kept : Kept) → IsLeaseAs self.now.last self.now.runs.now parts.now kept → ⊥)
            (λ kept. IsLeaseAs self.now.last self.now.runs.now parts.now kept)) }
    {
        let lease = parts.lease;
        if lease.get() > self.last {
            return Ok(None);
        }
        match parts.place.as_ref() {
            Some(site) => self.given_at(lease, site),
            None => self.present(lease),
        }
    }

    /// The lease, at the leg that has it.
    fn present(&self, lease: Number) -> Result<Option<KeptLease>, Refusal>
        requires last { lease ≤ self.now.last }
        requires legs { FindsLegs self.now.runs.now (get nat_cmp self.now.legs.now) }
        requires planned { AreAsPlanned self.now.runs.now }
        requires ids { IdsFollow self.now.forgotten.now self.now.runs.now }
        ensures err { ErrsOnlyByMemory result }
        ensures of { IfOk result (λ found. MatchOption found
            ((kept : Kept) → IsLeaseAs self.now.last self.now.runs.now (record { lease = lease; place = None }) kept → ⊥)
            (λ kept. IsLeaseAs self.now.last self.now.runs.now (record { lease = lease; place = None }) kept)) }
    {
        let Some(site) = self.legs.get(&lease.get()) else {
            return Ok(None);
        };
        let Some(attempt) = attempt_of(self.runs, *site) else {
            return Ok(None);
        };
        let kept = kept_lease(self.alloc, self.runs, attempt, *site, lease)?;
        Ok(Some(kept))
    }

    /// The lease, at the site where it was granted, or `None` if there is no such leg, or its run is forgotten.
    fn given_at(&self, lease: Number, stored: &StoredSite) -> Result<Option<KeptLease>, Refusal>
        requires last { lease ≤ self.now.last }
        requires ids { IdsFollow self.now.forgotten.now self.now.runs.now }
        ensures err { ErrsOnlyByMemory result }
        ensures of { IfOk result (λ found. MatchOption found
            ((kept : Kept) → IsLeaseAs self.now.last self.now.runs.now (record { lease = lease; place = Some stored.now }) kept → ⊥)
            (λ kept. IsLeaseAs self.now.last self.now.runs.now (record { lease = lease; place = Some stored.now }) kept)) }
    {
        let through = self.forgotten.through();
        if stored.run.get() <= through {
            return Ok(None);
        }
        let site = site_in_runs(through, stored);
        let attempt = stored.attempt;
        if !self.is_of_a_leg(lease, attempt, site) {
            return Ok(None);
        }
        let kept = kept_lease(self.alloc, self.runs, attempt, site, lease)?;
        Ok(Some(kept))
    }

    /// Whether the plan has the leg at the site, and the leg may have been granted the lease in this attempt.
    fn is_of_a_leg(&self, lease: Number, attempt: Number, site: LegSite) -> bool
        requires last { lease ≤ self.now.last }
        requires ids { IdsFollow self.now.forgotten.now self.now.runs.now }
        ensures { Decides result (IsOfALeg self.now.last self.now.runs.now (kept_lease self.now.runs.now attempt site lease)) }
    {
        let Some(present) = attempt_of(self.runs, site) else {
            return false;
        };
        if !is_planned(self.runs, site) {
            return false;
        }
        if attempt.get() != present.get() {
            return attempt.get() < present.get();
        }
        leg_has_lease(self.runs, site, lease)
    }
}

/// The site among the runs, where those with ids through this one are forgotten.
fn site_in_runs(through: u32, stored: &StoredSite) -> LegSite
    requires { through < stored.now.run }
    ensures { result ≡ site_in_runs through stored.now }
{
    let run = stored.run.get() - through - 1;
    LegSite::new(run as usize, stored.job, stored.leg)
}

fn is_planned(runs: &Runs, site: LegSite) -> bool
    ensures { result ≡ nat_lt site.leg (planned_legs runs.now site.run site.job) }
{
    site.leg < planned_legs(runs, site.run, site.job)
}

/// The current attempt of a leg's run.
fn attempt_of(runs: &Runs, site: LegSite) -> Option<Number>
    ensures { result ≡ option_map (λ x. x.attempt) (run_at runs.now site.run) }
{
    let run = runs.as_slice().get(site.run)?;
    Some(run.attempt())
}
