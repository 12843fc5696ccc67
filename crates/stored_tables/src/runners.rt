//! Builds the runners of a table from their stored parts.

ghost use Rattle.std.specs.BTreeMap.{get};
ghost use Rattle.std.specs.Ordering.{nat_cmp};
ghost use Rattle.std.specs.Prelude.{◌≡◌, IfOk, List, MatchOption, true};
ghost use Rattle.wf_value.specs.Gives.{ErrsOnlyByMemory};
ghost use Rattle.stored_tables.specs.inner.ByLease.{FindsLegs};
ghost use Rattle.stored_tables.specs.TableOf.{AreRunnersAs, IsLastAs, IsReplyAs, IsRunnerAs};
ghost use Rattle.table_model.specs.TableState.{RunnerState, names_rise};
ghost use Rattle.run_plan.specs.declared.last_command.ClaimReply.{ClaimReply as Reply};
ghost use Rattle.run_plan.specs.declared.last_command.LastCommand.{LastCommand as Last};
ghost use Rattle.table_model.specs.AsPlanned.{AreAsPlanned};
ghost use Rattle.table_model.specs.Sound.{IdsFollow};

use crate::leased::Leased;
use crate::parts::{LastParts, RunnerParts, StoredLease, do_names_rise};
use forgotten_runs::ForgottenRuns;
use run_plan::{ClaimReply, LastCommand};
use run_table::Runner;
use std::alloc::Global;
use std::collections::BTreeMap;
use table_model::LegSite;
use table_runs::runs::Runs;
use wf_value::{Refusal, TryCopy};

/// The runners of these parts, or `None` if their names do not strictly increase or a kept lease is that of no leg.
pub(crate) fn runners_of(
    alloc: Global,
    last: u32,
    forgotten: &ForgottenRuns,
    runs: &Runs,
    legs: &BTreeMap<u32, LegSite>,
    parts: &[RunnerParts],
) -> Result<Option<Vec<Runner>>, Refusal>
    requires legs { FindsLegs runs.now (get nat_cmp legs.now) }
    requires planned { AreAsPlanned runs.now }
    requires ids { IdsFollow forgotten.now runs.now }
    ensures err { ErrsOnlyByMemory result }
    ensures of { IfOk result (λ found. MatchOption found
        ((runners : List RunnerState) → AreRunnersAs last runs.now parts.now runners → names_rise runners ≡ true → ⊥)
        (λ runners. AreRunnersAs last runs.now parts.now runners.items × (names_rise runners.items ≡ true))) }
{
    if !do_names_rise(parts) {
        return Ok(None);
    }
    let leased = Leased {
        alloc,
        last,
        forgotten,
        runs,
        legs,
    };
    leased.runners(parts)
}

impl<'a> Leased<'a> {
    /// The reply to a claim whose lease is stored as `given`, or `None` if there is no such reply.
    fn reply(&self, given: Option<StoredLease>) -> Result<Option<ClaimReply>, Refusal>
        requires legs { FindsLegs self.now.runs.now (get nat_cmp self.now.legs.now) }
        requires planned { AreAsPlanned self.now.runs.now }
        requires ids { IdsFollow self.now.forgotten.now self.now.runs.now }
        ensures err { ErrsOnlyByMemory result }
        ensures of { IfOk result (λ found. MatchOption found
            ((reply : Reply) → IsReplyAs self.now.last self.now.runs.now given reply → ⊥)
            (λ reply. IsReplyAs self.now.last self.now.runs.now given reply)) }
    {
        let Some(parts) = given else {
            return Ok(Some(ClaimReply::Nothing));
        };
        match self.lease(&parts)? {
            Some(kept) => Ok(Some(ClaimReply::Lease(kept))),
            None => Ok(None),
        }
    }

    fn last(&self, parts: &LastParts) -> Result<Option<LastCommand>, Refusal>
        requires legs { FindsLegs self.now.runs.now (get nat_cmp self.now.legs.now) }
        requires planned { AreAsPlanned self.now.runs.now }
        requires ids { IdsFollow self.now.forgotten.now self.now.runs.now }
        ensures err { ErrsOnlyByMemory result }
        ensures of { IfOk result (λ found. MatchOption found
            ((last : Last) → IsLastAs self.now.last self.now.runs.now parts.now last → ⊥)
            (λ last. IsLastAs self.now.last self.now.runs.now parts.now last)) }
    {
        match parts {
            LastParts::Claim(claim, given) => {
                let Some(reply) = self.reply(*given)? else {
                    return Ok(None);
                };
                Ok(Some(LastCommand::Claim(claim.copy(self.alloc)?, reply)))
            }
            LastParts::Done(report) => Ok(Some(LastCommand::Done(report.copy(self.alloc)?))),
        }
    }

    fn runner(&self, parts: &RunnerParts) -> Result<Option<Runner>, Refusal>
        requires legs { FindsLegs self.now.runs.now (get nat_cmp self.now.legs.now) }
        requires planned { AreAsPlanned self.now.runs.now }
        requires ids { IdsFollow self.now.forgotten.now self.now.runs.now }
        ensures err { ErrsOnlyByMemory result }
        ensures of { IfOk result (λ found. MatchOption found
            ((runner : RunnerState) → IsRunnerAs self.now.last self.now.runs.now parts.now runner → ⊥)
            (λ runner. IsRunnerAs self.now.last self.now.runs.now parts.now runner)) }
    {
        let Some(last) = self.last(&parts.last)? else {
            return Ok(None);
        };
        Ok(Some(Runner {
            name: parts.name.copy(self.alloc)?,
            number: parts.number,
            last,
            holds: parts.holds,
        }))
    }

    fn runners(&self, parts: &[RunnerParts]) -> Result<Option<Vec<Runner>>, Refusal>
        requires legs { FindsLegs self.now.runs.now (get nat_cmp self.now.legs.now) }
        requires planned { AreAsPlanned self.now.runs.now }
        requires ids { IdsFollow self.now.forgotten.now self.now.runs.now }
        ensures err { ErrsOnlyByMemory result }
        ensures of { IfOk result (λ found. MatchOption found
            ((runners : List RunnerState) → AreRunnersAs self.now.last self.now.runs.now parts.now runners → ⊥)
            (λ runners. AreRunnersAs self.now.last self.now.runs.now parts.now runners.items)) }
    {
        let mut runners = Vec::with_capacity(self.alloc, parts.len())?;
        for k in 0..parts.len() {
            let part = &parts[k];
            match self.runner(part)? {
                Some(runner) => runners.push(runner)?,
                None => return Ok(None),
            }
        }
        Ok(Some(runners))
    }
}
