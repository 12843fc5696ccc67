//! The line of a run that made way for a newcomer of its concurrency group.

ghost use Rattle.std.specs.Prelude.{◌≡◌, ◌++◌, IfOk, Ok, codes, decimal, option_map, string_bytes};
ghost use Rattle.wf_value.specs.Gives.{Gives};
ghost use Rattle.table_model.specs.LegContext.{id_at, job_id};
ghost use Rattle.table_model.specs.declared.holder.Holder.TheVariants as held;
ghost use Rattle.table_views.specs.Texts.{line, quoted};
ghost use Rattle.covered_log.specs.Displaced.{attempt_at, displaced_line, holder_json, holder_or_null, next_after, next_in};

use group_name::GroupKey;
use json::Writer;
use std::alloc::{AllocError, Global};
use table_model::{Holder, LegSite, Run};
use table_runs::runs::Runs;
use wf_value::Refusal;

// ---- who comes next in a group

/// The other holder that is pending in a group, or else the one that is in progress.
fn next_in(runs: &Runs, holder: &Holder, group: &GroupKey) -> Option<Holder>
    ensures { result ≡ next_in runs.now holder.now group.now }
{
    let next = match runs.pending(group) {
        Some(pending) => pending,
        None => runs.running(group)?,
    };
    if next.is(holder) { None } else { Some(next) }
}

/// The other holder of its group that comes next after a run or a leg.
fn next_after(alloc: Global, runs: &Runs, holder: &Holder) -> Result<Option<Holder>, Refusal>
    ensures { Gives (λ next. next) result (Ok (next_after runs.now holder.now)) }
{
    match runs.group(alloc, holder)? {
        Some(group) => Ok(next_in(runs, holder, &group)),
        None => Ok(None),
    }
}

// ---- as JSON

/// The id of run `r`, 0 if there is none.
fn id_at(runs: &Runs, r: usize) -> u32
    ensures { result ≡ id_at runs.now r }
{
    match runs.as_slice().get(r) {
        Some(run) => run.id().get(),
        None => 0,
    }
}

/// The attempt that run `r` is in, 0 if there is none.
fn attempt_at(runs: &Runs, r: usize) -> u32
    ensures { result ≡ attempt_at runs.now r }
{
    match runs.as_slice().get(r) {
        Some(run) => run.attempt().get(),
        None => 0,
    }
}

/// A text as JSON. RFC 8259, section 7.
fn quoted(alloc: Global, text: &str) -> Result<String, AllocError>
    ensures { IfOk result (λ s. string_bytes s ≡ quoted text.now) }
{
    let mut writer = Writer::new(Vec::new(alloc));
    writer.string(text)?;
    Ok(String::from_utf8(writer.into_inner()).unwrap())
}

fn run_json(alloc: Global, run: u32, attempt: u32) -> Result<String, AllocError>
    ensures { IfOk result (λ s. string_bytes s
        ≡ codes "{\"run\":" ++ decimal run ++ codes ",\"attempt\":" ++ decimal attempt ++ codes ",\"job\":null,\"leg\":null}") }
{
    format!(in alloc; "{{\"run\":{run},\"attempt\":{attempt},\"job\":null,\"leg\":null}}")
}

fn leg_json(
    alloc: Global,
    run: u32,
    attempt: u32,
    job: &str,
    leg: usize,
) -> Result<String, AllocError>
    ensures { IfOk result (λ s. string_bytes s
        ≡ codes "{\"run\":" ++ decimal run ++ codes ",\"attempt\":" ++ decimal attempt
        ++ codes ",\"job\":" ++ job.now ++ codes ",\"leg\":" ++ decimal leg ++ codes "}") }
{
    format!(in alloc; "{{\"run\":{run},\"attempt\":{attempt},\"job\":{job},\"leg\":{leg}}}")
}

/// The leg at a site.
fn site_json(alloc: Global, runs: &Runs, site: LegSite) -> Result<String, Refusal>
    ensures { Gives string_bytes result (Ok (holder_json runs.now (held.Leg site))) }
{
    let run = id_at(runs, site.run);
    let attempt = attempt_at(runs, site.run);
    let job = runs.job_id(alloc, site.run, site.job)?;
    let job = quoted(alloc, job.as_str())?;
    Ok(leg_json(alloc, run, attempt, job.as_str(), site.leg)?)
}

fn holder_json(alloc: Global, runs: &Runs, holder: &Holder) -> Result<String, Refusal>
    ensures { Gives string_bytes result (Ok (holder_json runs.now holder.now)) }
{
    match holder {
        Holder::Run(r) => Ok(run_json(alloc, id_at(runs, *r), attempt_at(runs, *r))?),
        Holder::Leg(site) => site_json(alloc, runs, *site),
    }
}

fn holder_or_null(alloc: Global, runs: &Runs, holder: Option<Holder>) -> Result<String, Refusal>
    ensures { Gives string_bytes result (Ok (holder_or_null runs.now holder)) }
{
    match holder {
        Some(holder) => holder_json(alloc, runs, &holder),
        None => Ok(String::from_str(alloc, "null")?),
    }
}

fn line_of(
    alloc: Global,
    place: u64,
    at: u64,
    id: u32,
    attempt: u32,
    by: &str,
) -> Result<String, AllocError>
    ensures { IfOk result (λ s. string_bytes s
        ≡ line (codes "{\"after\":" ++ decimal place ++ codes ",\"run\":" ++ decimal id ++ codes ",\"attempt\":" ++ decimal attempt
        ++ codes ",\"displaced_by\":" ++ by.now ++ codes ",\"at\":" ++ decimal at ++ codes "}")) }
{
    format!(in alloc;
        "{{\"after\":{place},\"run\":{id},\"attempt\":{attempt},\"displaced_by\":{by},\"at\":{at}}}\n"
    )
}

/// The line of run `r`, which made way, as it is after the entries up to a place, with who comes next in its group. `at` is the time of the
/// commit, in milliseconds since 1970.
#[tactic(auto, unfolding(crate::specs::Displaced::displaced_line))]
pub(crate) fn displaced_line(
    alloc: Global,
    place: u64,
    at: u64,
    runs: &Runs,
    r: usize,
    run: &Run,
) -> Result<String, Refusal>
    ensures { Gives string_bytes result (Ok (displaced_line place at runs.now r run.now)) }
{
    let next = next_after(alloc, runs, &Holder::Run(r))?;
    let by = holder_or_null(alloc, runs, next)?;
    let id = run.id().get();
    let attempt = run.attempt().get();
    Ok(line_of(alloc, place, at, id, attempt, by.as_str())?)
}
