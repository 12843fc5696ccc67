//! Finds the leg of a lease that a runner holds.

ghost use Rattle.std.specs.Prelude.{◌≡◌, ◌<◌, ◌^◌, IfSome, option_and_then};
ghost use Rattle.run_table.specs.inner.KeptSite.{kept_site};
ghost use Rattle.table_model.specs.Sound.{IsSound};
ghost use Rattle.table_model.specs.Fitting.{OnlyAtWork, site_of_lease};

use crate::leases::leg_has_lease;
use crate::runner::Runner;
use crate::table_data::TableData;
use run_plan::{ClaimReply, LastCommand, Number};
use table_model::LegSite;
use table_runs::fit::site_of_lease;

impl TableData {
    /// The leg of a lease on which a runner is at work. It first tries the leg that is kept with the last claim of the
    /// runner at this index. In a table read from parts, that leg may belong to another lease, so it counts only if
    /// it has this one; otherwise the active runs are searched. It takes no memory.
    pub(super) fn leg_held(&self, index: usize, lease: Number) -> Option<LegSite>
        requires sound { IsSound self.now }
        requires work { OnlyAtWork self.now.runs lease }
        ensures found { result ≡ site_of_lease self.now.runs lease }
        ensures leg { IfSome result (λ p. p.leg < 2 ^ 63) }
    {
        match kept_site(self.forgotten.through(), self.runners().get(index)) {
            Some(leg) if leg_has_lease(&self.runs, leg, lease) => Some(leg),
            _ => site_of_lease(lease, &self.runs),
        }
    }
}

/// The site of the leg that the runner's last claim was given, or `None` if there is no runner or the claim was given
/// no leg.
fn kept_site(through: u32, runner: Option<&Runner>) -> Option<LegSite>
    ensures { result ≡ option_and_then (λ r. kept_site through r.now.last) runner.entry }
{
    match &runner?.last {
        LastCommand::Claim(_, ClaimReply::Lease(kept)) => Some(LegSite::new(
            (kept.lease_reply.run.get() as usize).saturating_sub(through as usize + 1),
            kept.job,
            kept.lease_reply.leg,
        )),
        LastCommand::Claim(_, ClaimReply::Nothing) | LastCommand::Done(_) => None,
    }
}
