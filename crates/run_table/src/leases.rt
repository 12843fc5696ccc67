//! What is kept of a lease with the reply to its claim, and whether a leg has it.

ghost use Rattle.std.specs.Option.{option_map_or};
ghost use Rattle.std.specs.Prelude.{◌≡◌, ◌<◌, Ok, false, length};
ghost use Rattle.wf_value.specs.Gives.{Gives};
ghost use Rattle.table_model.specs.Fitting.{has_lease};
ghost use Rattle.table_model.specs.Runs.{leg_at};
ghost use Rattle.table_model.specs.Step.{kept_lease, lease_at};

use run_plan::{KeptLease, Lease, Number};
use std::alloc::Global;
use table_model::LegSite;
use table_runs::runs::Runs;
use wf_value::Refusal;

/// The kept form of a lease that was granted in an attempt of its run.
/// Promise (The table): What a kept lease says of its leg follows from its number, its place and the runs
/// By: `run_table::kept_lease`; the type `run_table::Table` (`IsOfALeg`)
pub fn kept_lease(
    alloc: Global,
    runs: &Runs,
    attempt: Number,
    site: LegSite,
    lease: Number,
) -> Result<KeptLease, Refusal>
    requires { site.run < length runs.now }
    ensures { Gives (λ k. k) result (Ok (kept_lease runs.now attempt site lease)) }
{
    Ok(KeptLease {
        lease_reply: lease_at(alloc, runs, site, lease)?,
        attempt,
        job: site.job,
    })
}

/// The lease as it is sent to the runner that gets the leg.
fn lease_at(alloc: Global, runs: &Runs, site: LegSite, lease: Number) -> Result<Lease, Refusal>
    requires { site.run < length runs.now }
    ensures { Gives (λ l. l) result (Ok (lease_at runs.now site lease)) }
{
    Ok(Lease {
        lease,
        run: runs.id(site.run),
        job: runs.job_id(alloc, site.run, site.job)?,
        leg: site.leg,
        combo: runs.combo(alloc, site)?,
    })
}

/// Whether the leg at a site has the lease.
pub fn leg_has_lease(runs: &Runs, site: LegSite, lease: Number) -> bool
    ensures { result ≡ option_map_or (has_lease lease) (leg_at runs.now site) false }
{
    match runs.leg(site) {
        Some(leg) => leg.has_lease(lease),
        None => false,
    }
}
