//! The legs that stand differently than they were told.

ghost use Rattle.std.specs.Prelude.{◌≡◌, ◌++◌, IfOk, OnOk};
ghost use Rattle.covered_log.specs.Standings.{moved_leg, moved_legs, moved_of_job};

use crate::looking::Look;
use crate::standings::Standing;
use std::alloc::Global;
use table_model::{JobSite, Leg, LegSite, Run};
use table_views::{LegNews, leg_news};
use wf_value::Refusal;

/// Adds a leg, if it was not told as it stands.
fn push_moved(
    alloc: Global,
    look: &Look<'_>,
    told: &Standing,
    run: &Run,
    site: LegSite,
    leg: &Leg,
    moved: &mut Vec<LegNews>,
) -> Result<(), Refusal>
    ensures { OnOk result (moved.new.items ≡ moved.old.items ++ moved_leg look.now.names.now look.now.table.now told.now run.now site leg.now) }
{
    if told.has_told(run.attempt(), site, leg) {
        return Ok(());
    }
    let news = leg_news(alloc, look.table, look.names, site, run, leg)?;
    moved.push(news)?;
    Ok(())
}

/// Adds the legs of a job that were not told as they stand.
fn push_moved_of_job(
    alloc: Global,
    look: &Look<'_>,
    told: &Standing,
    run: &Run,
    job: JobSite,
    legs: &[Leg],
    moved: &mut Vec<LegNews>,
) -> Result<(), Refusal>
    ensures { OnOk result
        (moved.new.items ≡ moved.old.items ++ moved_of_job look.now.names.now look.now.table.now told.now run.now job legs.now) }
{
    for l in 0..legs.len() {
        let site = LegSite::new(job.run, job.job, l);
        push_moved(alloc, look, told, run, site, &legs[l], moved)?;
    }
    Ok(())
}

/// The legs of run `r` that were not told as they stand.
pub(crate) fn moved_legs(
    alloc: Global,
    look: &Look<'_>,
    told: &Standing,
    r: usize,
    run: &Run,
) -> Result<Vec<LegNews>, Refusal>
    ensures { IfOk result (λ moved. moved.items ≡ moved_legs look.now.names.now look.now.table.now told.now r run.now) }
{
    let jobs = run.jobs();
    let mut moved = Vec::new(alloc);
    for j in 0..jobs.len() {
        let site = JobSite { run: r, job: j };
        let legs = jobs[j].legs();
        push_moved_of_job(alloc, look, told, run, site, legs, &mut moved)?;
    }
    Ok(moved)
}
