//! What a run or a leg waits for.

ghost use Rattle.std.specs.Prelude.{◌≡◌, Ok, codes, option_map, string_bytes};
ghost use Rattle.wf_value.specs.Gives.{Gives};
ghost use Rattle.table_model.specs.Fitting.{may_run_too, most_at_work};
ghost use Rattle.table_views.specs.RunViews.{for_group, leg_group, leg_waits_for, ready_waits_for, run_waits_for};

use crate::members::{number_or_null, push_member, push_text_or_null};
use crate::run_rows::as_text;
use std::alloc::Global;
use table_model::{Holder, LegPhase, LegSite, RunPhase};
use table_runs::runs::Runs;
use wf_value::{Chars, Refusal};

fn for_group(alloc: Global, name: Option<&str>) -> Result<String, Refusal>
    ensures { Gives string_bytes result (Ok (for_group (option_map (λ n. n.now) name.entry))) }
{
    let mut text = String::from_str(alloc, "{\"for\":\"group\"")?;
    push_text_or_null(alloc, &mut text, "group", name)?;
    text.push_str("}")?;
    Ok(text)
}

fn nothing(alloc: Global) -> Result<String, Refusal>
    ensures { Gives string_bytes result (Ok (codes "null")) }
{
    Ok(String::from_str(alloc, "null")?)
}

/// What a run in this phase, with this group, waits for.
pub(crate) fn run_waits_for(
    alloc: Global,
    phase: RunPhase,
    group: &Option<Chars>,
) -> Result<String, Refusal>
    ensures { Gives string_bytes result (Ok (run_waits_for phase group.now)) }
{
    match phase {
        RunPhase::Waiting => for_group(alloc, as_text(group)),
        RunPhase::Live | RunPhase::Ended => nothing(alloc),
    }
}

/// The case-folded name of the group that a leg asks for.
pub(crate) fn leg_group(alloc: Global, runs: &Runs, site: LegSite) -> Result<Option<Chars>, Refusal>
    ensures { Gives (λ name. name) result (Ok (leg_group runs.now site)) }
{
    match runs.group(alloc, &Holder::Leg(site))? {
        Some(group) => Ok(Some(Chars::from_str(alloc, group.name())?)),
        None => Ok(None),
    }
}

/// Whether one more leg of the job of a leg may run.
fn may_run_too(runs: &Runs, site: LegSite) -> bool
    ensures { result ≡ may_run_too runs.now site }
{
    let Some(run) = runs.as_slice().get(site.run) else {
        return false;
    };
    let Some(job) = run.job(site.job) else {
        return false;
    };
    match runs.most_at_work(site.run, site.job) {
        Some(most) => job.legs_at_work() < most as usize,
        None => true,
    }
}

fn ready_waits_for(alloc: Global, has_room: bool, most: Option<u16>) -> Result<String, Refusal>
    ensures { Gives string_bytes result (Ok (ready_waits_for has_room most)) }
{
    if has_room {
        return Ok(String::from_str(alloc, "{\"for\":\"runner\"}")?);
    }
    let most = number_or_null(alloc, most.map(u64::from))?;
    let mut text = String::from_str(alloc, "{\"for\":\"max_parallel\"")?;
    push_member(&mut text, "max_parallel", most.as_str())?;
    text.push_str("}")?;
    Ok(text)
}

/// What a leg in this phase waits for.
pub(crate) fn leg_waits_for(
    alloc: Global,
    runs: &Runs,
    site: LegSite,
    phase: LegPhase,
) -> Result<String, Refusal>
    ensures { Gives string_bytes result (Ok (leg_waits_for runs.now site phase)) }
{
    match phase {
        LegPhase::Waiting => {
            let group = leg_group(alloc, runs, site)?;
            for_group(alloc, as_text(&group))
        }
        LegPhase::Ready => ready_waits_for(
            alloc,
            may_run_too(runs, site),
            runs.most_at_work(site.run, site.job),
        ),
        LegPhase::New | LegPhase::Running | LegPhase::Stopping | LegPhase::Ended(_) => {
            nothing(alloc)
        }
    }
}
