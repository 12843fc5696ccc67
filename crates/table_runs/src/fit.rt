//! Which leg a claim gets, and which leg has a lease: the first in the order of run, job and leg.

ghost use Rattle.std.specs.Prelude.{◌≡◌, ◌<◌, ◌^◌, ◌&&◌, IfSome, Some, false, if◌then◌else◌};
ghost use Rattle.std.specs.Option.{option_map_or};
ghost use Rattle.definitions.specs.Limits.{max_runs};
ghost use Rattle.wf_value.specs.declared.outcome.Outcome.TheVariants.{Cancelled, Failure};
ghost use Rattle.table_model.specs.inner.Cells.{HaveTheirRoom, states};
ghost use Rattle.table_model.specs.Fitting.{OnlyAtWork, first_fit, is_ready, is_served, is_stopping_leg, site_of_lease, has_room};
ghost use Rattle.table_model.specs.Runs.{leg_at, run_at};
ghost use Rattle.table_model.specs.inner.WithinRun.{fit_in_job, fit_in_jobs, lease_in_run, served_in_job};
ghost use Rattle.table_model.specs.LegContext.{planned_legs};

use crate::runs::Runs;
use crate::walk::Legs;
use run_plan::{Label, Number};
use table_model::{Job, Leg, LegSite, Run};
use wf_value::Outcome;

/// Whether the leg is ready and `labels` has all labels that it asks for.
fn fits(labels: &[Label], runs: &Runs, site: LegSite, leg: &Leg) -> bool
    requires { site.leg < planned_legs runs.now site.run site.job }
    ensures { result ≡ (is_ready leg.now.phase && is_served labels.now runs.now site) }
{
    leg.is_ready() && runs.is_served(labels, site)
}

/// The first ready leg of the job such that `labels` has all labels that it asks for.
fn served_in_job(labels: &[Label], runs: &Runs, r: usize, j: usize, job: &Job) -> Option<LegSite>
    requires { job.now.room ≡ planned_legs runs.now r j }
    ensures found { result ≡ served_in_job labels.now runs.now r j job.now.state }
    ensures run { IfSome result (λ p. p.run ≡ r) }
{
    for (site, leg) in Legs::of_job(r, j, job.planned_legs()) {
        if fits(labels, runs, site, leg) {
            return Some(site);
        }
    }
    None
}

/// Whether one more leg of the job may run.
fn has_room(runs: &Runs, r: usize, j: usize, job: &Job) -> bool
    ensures { result ≡ has_room runs.now r j job.now.state }
{
    match runs.most_at_work(r, j) {
        Some(most) => job.legs_at_work() < usize::from(most),
        None => true,
    }
}

/// The first leg of the job that fits the runner: one that is ready and served, if one more leg of the job may run. It scans the legs only
/// if one is ready.
fn fit_in_job(labels: &[Label], runs: &Runs, r: usize, j: usize, job: &Job) -> Option<LegSite>
    requires { job.now.room ≡ planned_legs runs.now r j }
    ensures found { result ≡ fit_in_job labels.now runs.now r j job.now.state }
    ensures run { IfSome result (λ p. p.run ≡ r) }
{
    if job.has_ready_leg() && has_room(runs, r, j, job) {
        served_in_job(labels, runs, r, j, job)
    } else {
        None
    }
}

fn fit_in_jobs(labels: &[Label], runs: &Runs, r: usize, jobs: &[Job]) -> Option<LegSite>
    requires { HaveTheirRoom runs.now r jobs.now }
    ensures found { result ≡ fit_in_jobs labels.now runs.now r (states jobs.now) }
    ensures run { IfSome result (λ p. p.run ≡ r) }
{
    for j in 0..jobs.len() {
        let job = &jobs[j];
        let site = fit_in_job(labels, runs, r, j, job);
        if site.is_some() {
            return site;
        }
    }
    None
}

fn fit_in_run(labels: &[Label], runs: &Runs, r: usize, run: &Run) -> Option<LegSite>
    requires { run_at runs.now r ≡ Some run.now }
    ensures found { result ≡ fit_in_jobs labels.now runs.now r run.now.jobs }
    ensures run { IfSome result (λ p. p.run ≡ r) }
{
    fit_in_jobs(labels, runs, r, run.planned_jobs())
}

/// The first ready leg such that `labels` has all labels that it asks for and one more leg of its job may run. Takes no memory.
/// Promise (Runs, and how they are found): The leg that a claim gets is the first that fits
/// By: `table_runs::fit::{first_fit, site_of_lease, is_stopping, outcome_of_loss}`
pub fn first_fit(labels: &[Label], runs: &Runs) -> Option<LegSite>
    ensures found { result ≡ first_fit labels.now runs.now }
    ensures run { IfSome result (λ p. p.run < max_runs) }
{
    let all = runs.as_slice();
    let mut from = 0;
    while let Some(r) = runs.next_offering(labels, from) {
        let run = &all[r];
        let site = fit_in_run(labels, runs, r, run);
        if site.is_some() {
            return site;
        }
        from = r + 1;
    }
    None
}

/// The first leg of the run that has the lease.
fn lease_in_run(lease: Number, r: usize, run: &Run) -> Option<LegSite>
    ensures found { result ≡ lease_in_run lease r run.now }
    ensures leg { IfSome result (λ p. p.leg < 2 ^ 63) }
{
    for (site, leg) in Legs::of_run(r, run) {
        if leg.has_lease(lease) {
            return Some(site);
        }
    }
    None
}

/// The leg that has the lease, where each leg that has it has a runner at work.
pub fn site_of_lease(lease: Number, runs: &Runs) -> Option<LegSite>
    requires { OnlyAtWork runs.now lease }
    ensures found { result ≡ site_of_lease runs.now lease }
    ensures leg { IfSome result (λ p. p.leg < 2 ^ 63) }
{
    let all = runs.as_slice();
    let mut from = 0;
    while let Some(r) = runs.next_active(from) {
        let run = &all[r];
        let site = lease_in_run(lease, r, run);
        if site.is_some() {
            return site;
        }
        from = r + 1;
    }
    None
}

/// Whether the leg, if there is one, is asked to stop.
pub fn is_stopping(leg: Option<LegSite>, runs: &Runs) -> bool
    ensures { result ≡ option_map_or (λ p. option_map_or (λ l. is_stopping_leg l.phase) (leg_at runs.now p) false) leg false }
{
    match leg {
        Some(site) => is_stopping_at(runs, site),
        None => false,
    }
}

/// The outcome of the leg, if there is one, when its runner is lost.
pub fn outcome_of_loss(leg: Option<LegSite>, runs: &Runs) -> Outcome
    ensures { let stopping = option_map_or (λ p. option_map_or (λ l. is_stopping_leg l.phase) (leg_at runs.now p) false) leg false in
        result ≡ (if stopping then Cancelled else Failure) }
{
    if is_stopping(leg, runs) {
        Outcome::Cancelled
    } else {
        Outcome::Failure
    }
}

fn is_stopping_at(runs: &Runs, site: LegSite) -> bool
    ensures { result ≡ option_map_or (λ l. is_stopping_leg l.phase) (leg_at runs.now site) false }
{
    match runs.leg(site) {
        Some(leg) => leg.is_stopping(),
        None => false,
    }
}
