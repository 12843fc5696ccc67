//! One run with its jobs and legs, and what each waits for.

ghost use Rattle.std.specs.Prelude.{◌≡◌, ◌++◌, ◌+◌, ◌-◌, ◌<◌, ◌≤◌, ◌^◌, IfOk, MatchOption, None, Ok, Some, find, length, min, option_and_then, option_map, slice_get, string_bytes};
ghost use Rattle.wf_value.specs.Gives.{ErrsOnlyByMemory, Gives};
ghost use Rattle.run_plan.specs.PlanOf.{plan_of};
ghost use Rattle.table_model.specs.Step.{seen};
ghost use Rattle.table_model.specs.TableState.{index_of};
ghost use Rattle.table_model.specs.ViewText.{Seen};
ghost use Rattle.table_views.specs.LeaseNames.{name_of};
ghost use Rattle.table_views.specs.RunViews.{IsRunView, holds_lease, job_row, job_rows, leg_row, leg_rows, leg_runner, legs_of_job, next_job, plan_members, run_view_text, runner_of, standing_members, truth, wish_members};

use crate::lease_names::LeaseNames;
use crate::members::{number_or_null, push_member, push_text, push_text_or_null};
use crate::pages::{Source, page_of};
use crate::queue::{labels_json, quoted_each};
use crate::run_rows::{as_text, own_group, run_members};
use crate::runs::state_word;
use crate::texts::{listed, quoted};
use crate::waiting::{leg_group, leg_waits_for, run_waits_for};
use run_plan::{Number, PlannedJob, text_of_combo};
use run_table::{RunView, Runner, Table, leg_word};
use std::alloc::Global;
use table_model::{Job, Leg, LegSite, Run};
use wf_value::{Chars, Refusal};

/// The number of legs with which a page is full.
const FULL: usize = 1_000;

// ---- a leg

fn holds(runner: &Runner, lease: Number) -> bool
    ensures { result ≡ holds_lease lease runner.now }
{
    match runner.holds {
        Some(held) => held.get() == lease.get(),
        None => false,
    }
}

/// The runner that holds a lease.
fn holder_of(runners: &[Runner], lease: Number) -> Option<&Runner>
    ensures { option_map (λ runner. runner.now) result ≡ find (holds_lease lease) runners.now }
{
    runners.iter().find(|runner| holds(runner, lease))
}

/// The name of the runner that is at work on a leg.
fn runner_of<'t>(runners: &'t [Runner], leg: &Leg) -> Option<&'t str>
    ensures { option_map (λ name. name.now) result ≡ runner_of runners.now leg.now }
{
    if !leg.is_at_work() {
        return None;
    }
    let runner = holder_of(runners, leg.lease?)?;
    Some(runner.name.as_str())
}

/// The name of the runner to which the lease of a leg was given, if it is known.
fn named_runner<'t>(names: &'t LeaseNames, leg: &Leg) -> Option<&'t str>
    ensures { option_map (λ name. name.now) result ≡ option_and_then (name_of names.now) leg.now.lease }
{
    names.name(leg.lease?)
}

/// The name of the runner that is at work on a leg, else of the one to which its lease was given.
pub(crate) fn leg_runner<'t>(
    names: &'t LeaseNames,
    runners: &'t [Runner],
    leg: &Leg,
) -> Option<&'t str>
    ensures { option_map (λ name. name.now) result ≡ leg_runner names.now runners.now leg.now }
{
    match runner_of(runners, leg) {
        Some(name) => Some(name),
        None => named_runner(names, leg),
    }
}

pub(crate) fn lease_number(leg: &Leg) -> Option<u64>
    ensures { result ≡ leg.now.lease }
{
    match leg.lease {
        Some(lease) => Some(u64::from(lease.get())),
        None => None,
    }
}

/// Appends what a leg asks for and waits for.
fn push_wishes(
    alloc: Global,
    text: &mut String,
    table: &Table,
    site: LegSite,
    leg: &Leg,
) -> Result<(), Refusal>
    requires { site.leg < 2 ^ 63 }
    ensures { Gives (λ _. string_bytes text.new) result (Ok (string_bytes text.old ++ wish_members table.now.runs site leg.now)) }
{
    let runs = table.kept_runs();
    let labels = labels_json(alloc, runs, site)?;
    push_member(text, "labels", labels.as_str())?;
    let group = leg_group(alloc, runs, site)?;
    push_text_or_null(alloc, text, "group", as_text(&group))?;
    let waits_for = leg_waits_for(alloc, runs, site, leg.phase)?;
    push_member(text, "waits_for", waits_for.as_str())?;
    Ok(())
}

/// Appends how a leg stands.
fn push_standing(
    alloc: Global,
    text: &mut String,
    table: &Table,
    names: &LeaseNames,
    site: LegSite,
    leg: &Leg,
) -> Result<(), Refusal>
    ensures { Gives (λ _. string_bytes text.new) result (Ok (string_bytes text.old ++ standing_members names.now table.now site leg.now)) }
{
    let combo = table.kept_runs().combo(alloc, site)?;
    let combo = text_of_combo(alloc, &combo)?;
    push_member(text, "combination", combo.as_str())?;
    push_text(alloc, text, "state", leg_word(leg.phase))?;
    let lease = number_or_null(alloc, lease_number(leg))?;
    push_member(text, "lease", lease.as_str())?;
    push_text_or_null(
        alloc,
        text,
        "runner",
        leg_runner(names, table.runners(), leg),
    )?;
    Ok(())
}

fn leg_row(
    alloc: Global,
    table: &Table,
    names: &LeaseNames,
    site: LegSite,
    leg: &Leg,
) -> Result<String, Refusal>
    requires { site.leg < 2 ^ 63 }
    ensures { Gives string_bytes result (Ok (leg_row names.now table.now site leg.now)) }
{
    let number = site.leg;
    let mut text = format!(in alloc; "{{\"leg\":{number}")?;
    push_standing(alloc, &mut text, table, names, site, leg)?;
    push_wishes(alloc, &mut text, table, site, leg)?;
    text.push_str("}")?;
    Ok(text)
}

// ---- a job

fn leg_rows(
    alloc: Global,
    table: &Table,
    names: &LeaseNames,
    r: usize,
    j: usize,
    legs: &[Leg],
) -> Result<Vec<Chars>, Refusal>
    ensures { Gives (λ rows. rows.items) result (Ok (leg_rows names.now table.now r j legs.now)) }
{
    let mut rows = Vec::new(alloc);
    for l in 0..legs.len() {
        let row = leg_row(alloc, table, names, LegSite::new(r, j, l), &legs[l])?;
        rows.push(Chars::new(row))?;
    }
    Ok(rows)
}

fn most_at_work(planned: &PlannedJob) -> Option<u64>
    ensures { result ≡ planned.now.max_parallel }
{
    match planned.max_parallel {
        Some(most) => Some(u64::from(most)),
        None => None,
    }
}

/// Appends what a job needs, and how many of its legs may be at work.
#[tactic(auto, unfolding(crate::specs::RunViews::plan_members))]
fn push_plan(alloc: Global, text: &mut String, planned: &PlannedJob) -> Result<(), Refusal>
    ensures { Gives (λ _. string_bytes text.new) result (Ok (string_bytes text.old ++ plan_members planned.now)) }
{
    let needs = quoted_each(alloc, planned.needs.as_slice())?;
    let needs = listed(alloc, needs.as_slice())?;
    let most = number_or_null(alloc, most_at_work(planned))?;
    push_member(text, "needs", needs.as_str())?;
    push_member(text, "max_parallel", most.as_str())?;
    Ok(())
}

fn job_row(
    alloc: Global,
    table: &Table,
    names: &LeaseNames,
    r: usize,
    j: usize,
    planned: &PlannedJob,
    job: &Job,
) -> Result<String, Refusal>
    ensures { Gives string_bytes result (Ok (job_row names.now table.now r j planned.now job.now.state)) }
{
    let id = quoted(alloc, planned.id.as_str())?;
    let legs = leg_rows(alloc, table, names, r, j, job.legs())?;
    let legs = listed(alloc, legs.as_slice())?;
    let mut text = format!(in alloc; "{{\"id\":{id}")?;
    push_text(alloc, &mut text, "state", state_word(job.phase()))?;
    push_plan(alloc, &mut text, planned)?;
    push_member(&mut text, "legs", legs.as_str())?;
    text.push_str("}")?;
    Ok(text)
}

/// The plan of a job of a run.
fn planned_at(run: &Run, index: usize) -> Option<&PlannedJob>
    ensures { option_map (λ planned. planned.now) result ≡ slice_get (plan_of run.now.admitted.body) index }
{
    run.prepared().plan().as_slice().get(index)
}

/// The jobs of a run.
#[derive(Drop)]
struct Jobs<'a> {
    table: &'a Table,
    names: &'a LeaseNames,
    view: &'a RunView<'a>,
}

impl Source for Jobs<'_> {
    ghost size = { λ s. length s.view.now.run.jobs };

    ghost rows = { λ s j. job_rows s.names.now s.table.now (index_of s.table.now s.view.now.id) s.view.now.run j };

    ghost weigh = { λ s j. legs_of_job s.view.now.run j };

    fn push_rows(
        &self,
        alloc: Global,
        index: usize,
        out: &mut Vec<Chars>,
    ) -> Result<usize, Refusal> {
        let run = self.view.run();
        let r = self.table.index_of(self.view.id());
        let Some(job) = run.job(index) else {
            return Ok(0);
        };
        let count = job.legs().len();
        let Some(planned) = planned_at(run, index) else {
            return Ok(count);
        };
        let row = job_row(alloc, self.table, self.names, r, index, planned, job)?;
        out.push(Chars::new(row))?;
        Ok(count)
    }
}

// ---- a run

/// The index of the job to go on with.
fn next_job(jobs: usize, index: usize) -> Option<u64>
    ensures { result ≡ next_job jobs index }
{
    if index < jobs {
        Some(index as u64)
    } else {
        None
    }
}

fn truth(b: bool) -> &'static str
    ensures { result.now ≡ truth b }
{
    if b { "true" } else { "false" }
}

fn run_view_text(
    alloc: Global,
    table: &Table,
    view: &RunView<'_>,
    jobs: &[Chars],
    next: Option<u64>,
) -> Result<String, Refusal>
    ensures { Gives string_bytes result (Ok (run_view_text table.now view.now jobs.now next)) }
{
    let members = run_members(alloc, table, view)?;
    let group = own_group(alloc, table, view.id())?;
    let waits_for = run_waits_for(alloc, view.run().phase(), &group)?;
    let jobs = listed(alloc, jobs)?;
    let next = number_or_null(alloc, next)?;
    let mut text = format!(in alloc; "{{{members}")?;
    push_member(&mut text, "stopping", truth(view.run().is_stopping()))?;
    push_member(&mut text, "waits_for", waits_for.as_str())?;
    push_member(&mut text, "jobs", jobs.as_str())?;
    push_member(&mut text, "from", next.as_str())?;
    text.push_str("}\n")?;
    Ok(text)
}

/// A run with its jobs from an index on.
fn view_text(
    alloc: Global,
    table: &Table,
    names: &LeaseNames,
    view: &RunView<'_>,
    from: usize,
) -> Result<String, Refusal>
    requires { from ≤ length view.now.run.jobs }
    ensures err { ErrsOnlyByMemory result }
    ensures view { IfOk result (λ text. IsRunView from names.now table.now view.now (string_bytes text)) }
{
    let jobs = view.run().job_count();
    let source = Jobs { table, names, view };
    let page = page_of(alloc, &source, from, jobs - from, FULL)?;
    let next = next_job(jobs, from + page.count);
    run_view_text(alloc, table, view, page.rows.as_slice(), next)
}

/// The run with an id, with its jobs from an index on. `None` if there is no such run. `names` are the runners of leases, as far as they are known.
/// Promise (Views of a service): A run is shown with its jobs from an index on, and each leg with what it asks for and waits for, to the byte;
///   none is shown exactly if there is none with this id
/// By: `table_views::run_view`, `view` (`IsRunView`)
pub fn run_view(
    alloc: Global,
    table: &Table,
    names: &LeaseNames,
    id: Number,
    from: usize,
) -> Result<Option<String>, Refusal>
    ensures err { ErrsOnlyByMemory result }
    ensures view { IfOk result (λ found. MatchOption found (seen table.now id ≡ None) (λ text. (view : Seen)
        × (seen table.now id ≡ Some view) × IsRunView (min from (length view.run.jobs)) names.now table.now view (string_bytes text))) }
{
    let Some(view) = table.look(id) else {
        return Ok(None);
    };
    let from = from.min(view.run().job_count());
    Ok(Some(view_text(alloc, table, names, &view, from)?))
}
