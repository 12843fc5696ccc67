//! All legs of a table, and all runs and legs that may hold a concurrency group.

ghost use Rattle.std.specs.Prelude.{◌≡◌, ◌++◌, IfOk, OnOk};
ghost use Rattle.std.specs.List.{All};
ghost use Rattle.table_model.specs.Runs.{leg_sites, leg_sites_of_job, leg_sites_of_run};
ghost use Rattle.table_views.specs.inner.Placed.{IsWithin};

use std::alloc::{AllocError, Global};
use table_model::{Job, LegSite, Run};
use table_runs::runs::Runs;

/// Adds the sites of a job's legs.
fn push_legs_of_job(
    sites: &mut Vec<LegSite>,
    r: usize,
    j: usize,
    job: &Job,
) -> Result<(), AllocError>
    requires { All IsWithin sites.old.items }
    ensures sites { OnOk result (sites.new.items ≡ sites.old.items ++ leg_sites_of_job r (j, job.now.state)) }
    ensures within { OnOk result (All IsWithin sites.new.items) }
{
    for l in 0..job.legs().len() {
        sites.push(LegSite::new(r, j, l))?;
    }
    Ok(())
}

/// Adds the sites of a run's legs.
pub(crate) fn push_legs_of_run(
    sites: &mut Vec<LegSite>,
    r: usize,
    run: &Run,
) -> Result<(), AllocError>
    requires { All IsWithin sites.old.items }
    ensures sites { OnOk result (sites.new.items ≡ sites.old.items ++ leg_sites_of_run (r, run.now)) }
    ensures within { OnOk result (All IsWithin sites.new.items) }
{
    let jobs = run.jobs();
    for j in 0..jobs.len() {
        let job = &jobs[j];
        push_legs_of_job(sites, r, j, job)?;
    }
    Ok(())
}

/// The sites of all legs, in the order of run, job and leg.
pub(crate) fn leg_sites(alloc: Global, runs: &Runs) -> Result<Vec<LegSite>, AllocError>
    ensures sites { IfOk result (λ sites. sites.items ≡ leg_sites runs.now) }
    ensures within { IfOk result (λ sites. All IsWithin sites.items) }
{
    let mut sites = Vec::new(alloc);
    let all = runs.as_slice();
    for r in 0..all.len() {
        let run = &all[r];
        push_legs_of_run(&mut sites, r, run)?;
    }
    Ok(sites)
}
