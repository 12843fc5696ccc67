//! Maps from leases to the legs that have them and to the runners that hold them.

ghost use Rattle.std.specs.BTreeMap.{get};
ghost use Rattle.std.specs.Ordering.{nat_cmp};
ghost use Rattle.std.specs.Prelude.{◌≡◌, ℕ, IfOk, OnOk, Some};
ghost use Rattle.wf_value.specs.Gives.{ErrsOnlyByMemory};
ghost use Rattle.stored_tables.specs.inner.ByLease.{lease_of_leg, lease_of_runner};
ghost use Rattle.stored_tables.specs.inner.ByNumber.{Adds, Finds};

use run_plan::Number;
use run_table::Runner;
use std::alloc::Global;
use std::collections::BTreeMap;
use table_model::LegSite;
use table_runs::runs::Runs;
use table_runs::walk::Legs;
use wf_value::Refusal;

/// The leases of a table.
#[derive(Drop)]
pub(crate) struct Leases {
    /// The last lease granted.
    pub last: u32,
    /// For each lease that a leg has, the site of such a leg.
    pub legs: BTreeMap<u32, LegSite>,
    /// For each lease that a runner holds, the index of such a runner.
    pub held: BTreeMap<u32, usize>,
}

/// For each lease that a leg has, the site of such a leg.
pub(crate) fn legs_by_lease(alloc: Global, runs: &Runs) -> Result<BTreeMap<u32, LegSite>, Refusal>
    ensures err { ErrsOnlyByMemory result }
    ensures found { IfOk result (λ legs. (n : ℕ) → Finds (lease_of_leg runs.now) n (get nat_cmp legs n)) }
{
    let mut legs = BTreeMap::new(alloc);
    for (site, leg) in Legs::of_runs(runs) {
        put_leg(&mut legs, leg.lease, site)?;
    }
    Ok(legs)
}

/// Adds the site of a leg under its lease, if it has one.
fn put_leg(
    legs: &mut BTreeMap<u32, LegSite>,
    lease: Option<Number>,
    site: LegSite,
) -> Result<(), Refusal>
    ensures err { ErrsOnlyByMemory result }
    ensures put { OnOk result (Adds (get nat_cmp legs.old) (get nat_cmp legs.new) (λ p n. (p ≡ site) × (lease ≡ Some n))) }
{
    if let Some(lease) = lease {
        legs.insert(lease.get(), site)?;
    }
    Ok(())
}

/// Adds the index of a runner under the lease that it holds, if it holds one.
fn put_runner(
    held: &mut BTreeMap<u32, usize>,
    lease: Option<Number>,
    index: usize,
) -> Result<(), Refusal>
    ensures err { ErrsOnlyByMemory result }
    ensures put { OnOk result (Adds (get nat_cmp held.old) (get nat_cmp held.new) (λ k n. (k ≡ index) × (lease ≡ Some n))) }
{
    if let Some(lease) = lease {
        held.insert(lease.get(), index)?;
    }
    Ok(())
}

/// For each lease that a runner holds, the index of such a runner.
pub(crate) fn runners_by_lease(
    alloc: Global,
    runners: &[Runner],
) -> Result<BTreeMap<u32, usize>, Refusal>
    ensures err { ErrsOnlyByMemory result }
    ensures found { IfOk result (λ held. (n : ℕ) → Finds (lease_of_runner runners.now) n (get nat_cmp held n)) }
{
    let mut held = BTreeMap::new(alloc);
    for k in 0..runners.len() {
        let runner = &runners[k];
        put_runner(&mut held, runner.holds, k)?;
    }
    Ok(held)
}
