//! The lines of concurrency groups: which holder of each is in progress, and which is pending. GitHub Docs, "Control
//! the concurrency of workflows and jobs".

ghost use Rattle.std.specs.Prelude.{◌≡◌, ◌||◌, ◌++◌, ◌<◌, [], ◌∷◌, IfOk, None, Ok, OnOk, Some, codes, filter_map, find, length, map, string_bytes};
ghost use Rattle.wf_value.specs.Gives.{ErrsOnlyByMemory, Gives};
ghost use Rattle.table_model.specs.Groups.{all_holders, is_in_progress_in, is_pending_in};
ghost use Rattle.table_model.specs.Runs.{leg_sites};
ghost use Rattle.table_views.specs.inner.Claims.{claim_of, claims_of, line_once, said};
ghost use Rattle.table_views.specs.GroupLines.{group_in_use, group_line, group_lines, holder_text};
ghost use Rattle.table_views.specs.inner.HolderOrder.{is_before, is_earlier, is_site_before};
ghost use Rattle.table_views.specs.Texts.{line};
ghost use Rattle.table_model.specs.declared.holder.Holder.TheVariants as held;

use crate::claim::GroupClaim;
use crate::form::Form;
use crate::texts::{leg_members, leg_words, quoted, run_id};
use group_name::GroupKey;
use std::alloc::{AllocError, Global};
use table_model::{Holder, LegSite};
use table_runs::runs::Runs;
use wf_value::Refusal;

// ---- runs and legs that hold groups or wait for them

/// The group that a run or a leg holds or waits for.
pub(crate) fn group_in_use(
    alloc: Global,
    runs: &Runs,
    holder: &Holder,
) -> Result<Option<GroupKey>, Refusal>
    ensures { Gives (λ group. group) result (Ok (group_in_use runs.now holder.now)) }
{
    if runs.waits(holder) || runs.holds(holder) {
        runs.group(alloc, holder)
    } else {
        Ok(None)
    }
}

fn push_claim(
    alloc: Global,
    runs: &Runs,
    claims: &mut Vec<GroupClaim>,
    holder: Holder,
) -> Result<(), Refusal>
    ensures err { ErrsOnlyByMemory result }
    ensures added { OnOk result (map said claims.new.items
        ≡ map said claims.old.items ++ filter_map (claim_of runs.now) (holder ∷ [])) }
{
    if let Some(group) = group_in_use(alloc, runs, &holder)? {
        claims.push(GroupClaim { group, holder })?;
    }
    Ok(())
}

/// All claims: those of the runs, then those of the legs. `sites` has the sites of all legs.
fn claims_of(alloc: Global, runs: &Runs, sites: &[LegSite]) -> Result<Vec<GroupClaim>, Refusal>
    requires { sites.now ≡ leg_sites runs.now }
    ensures err { ErrsOnlyByMemory result }
    ensures claims { IfOk result (λ claims. map said claims.items ≡ claims_of runs.now) }
{
    let mut claims = Vec::new(alloc);
    for r in 0..runs.len() {
        push_claim(alloc, runs, &mut claims, Holder::Run(r))?;
    }
    for site in sites {
        push_claim(alloc, runs, &mut claims, Holder::Leg(*site))?;
    }
    Ok(claims)
}

// ---- lines

fn text_of_leg(alloc: Global, form: Form, runs: &Runs, site: LegSite) -> Result<String, Refusal>
    ensures { Gives string_bytes result (Ok (holder_text form runs.now (Some (held.Leg site)))) }
{
    match form {
        Form::Lines => {
            let leg = leg_words(alloc, runs, site)?;
            Ok(format!(in alloc; "leg {leg}")?)
        }
        Form::Json => {
            let leg = leg_members(alloc, runs, site)?;
            Ok(format!(in alloc; "{{{leg}}}")?)
        }
    }
}

fn text_of_run(alloc: Global, form: Form, runs: &Runs, index: usize) -> Result<String, Refusal>
    ensures { Gives string_bytes result (Ok (holder_text form runs.now (Some (held.Run index)))) }
{
    let run = run_id(runs, index);
    match form {
        Form::Lines => Ok(format!(in alloc; "run {run}")?),
        Form::Json => Ok(format!(in alloc; "{{\"run\":{run}}}")?),
    }
}

fn text_of_none(alloc: Global, form: Form) -> Result<String, Refusal>
    ensures { Gives string_bytes result (Ok (holder_text form [] None)) }
{
    let word = match form {
        Form::Lines => "-",
        Form::Json => "null",
    };
    Ok(String::from_str(alloc, word)?)
}

fn text_of_holder(
    alloc: Global,
    form: Form,
    runs: &Runs,
    holder: &Holder,
) -> Result<String, Refusal>
    ensures { Gives string_bytes result (Ok (holder_text form runs.now (Some holder.now))) }
{
    match holder {
        Holder::Run(r) => text_of_run(alloc, form, runs, *r),
        Holder::Leg(site) => text_of_leg(alloc, form, runs, *site),
    }
}

fn holder_text(
    alloc: Global,
    form: Form,
    runs: &Runs,
    holder: Option<Holder>,
) -> Result<String, Refusal>
    ensures { Gives string_bytes result (Ok (holder_text form runs.now (holder))) }
{
    match holder {
        Some(holder) => text_of_holder(alloc, form, runs, &holder),
        None => text_of_none(alloc, form),
    }
}

fn group_words(
    alloc: Global,
    repository: &str,
    name: &str,
    in_progress: &str,
    pending: &str,
) -> Result<String, AllocError>
    ensures { IfOk result (λ s. string_bytes s ≡ line (codes "group " ++ repository.now ++ codes " " ++ name.now
        ++ codes " in_progress " ++ in_progress.now ++ codes " pending " ++ pending.now)) }
{
    format!(in alloc; "group {repository} {name} in_progress {in_progress} pending {pending}\n")
}

fn group_object(
    alloc: Global,
    repository: &str,
    name: &str,
    in_progress: &str,
    pending: &str,
) -> Result<String, AllocError>
    ensures { IfOk result (λ s. string_bytes s ≡ line (codes "{\"repository\":" ++ repository.now ++ codes ",\"group\":" ++ name.now
        ++ codes ",\"in_progress\":" ++ in_progress.now ++ codes ",\"pending\":" ++ pending.now ++ codes "}")) }
{
    format!(in alloc;
        "{{\"repository\":{repository},\"group\":{name},\"in_progress\":{in_progress},\"pending\":{pending}}}\n"
    )
}

/// The line of a group: its repository, its case-folded name, the holder in progress, and the pending one.
fn group_line(alloc: Global, form: Form, runs: &Runs, group: &GroupKey) -> Result<String, Refusal>
    ensures { Gives string_bytes result (Ok (group_line form runs.now group.now)) }
{
    let repository = quoted(alloc, group.repository())?;
    let name = quoted(alloc, group.name())?;
    let in_progress = holder_text(alloc, form, runs, runs.running(group))?;
    let pending = holder_text(alloc, form, runs, runs.pending(group))?;
    let (repository, name) = (repository.as_str(), name.as_str());
    let (in_progress, pending) = (in_progress.as_str(), pending.as_str());
    match form {
        Form::Lines => Ok(group_words(alloc, repository, name, in_progress, pending)?),
        Form::Json => Ok(group_object(alloc, repository, name, in_progress, pending)?),
    }
}

/// Whether a leg comes before another in the table.
fn is_site_before(p: LegSite, q: LegSite) -> bool
    ensures { result ≡ is_site_before p q }
{
    p.run < q.run || (p.run == q.run && (p.job < q.job || (p.job == q.job && p.leg < q.leg)))
}

/// Whether a run or a leg comes before another in the table: all runs come before the legs.
fn is_before(holder: &Holder, other: &Holder) -> bool
    ensures { result ≡ is_before holder.now other.now }
{
    match (holder, other) {
        (Holder::Run(r), Holder::Run(s)) => *r < *s,
        (Holder::Run(_), Holder::Leg(_)) => true,
        (Holder::Leg(_), Holder::Run(_)) => false,
        (Holder::Leg(p), Holder::Leg(q)) => is_site_before(*p, *q),
    }
}

/// Whether another holder, if there is one, comes before a run or a leg.
fn is_earlier(holder: &Holder, other: Option<Holder>) -> bool
    ensures { result ≡ is_earlier holder.now other }
{
    match other {
        Some(other) => is_before(&other, holder),
        None => false,
    }
}

/// Whether an earlier claim has the same group: that of the holder in progress, or of the pending one.
fn has_earlier_claim(runs: &Runs, claim: &GroupClaim) -> bool
    ensures { result ≡ (is_earlier claim.now.holder (find (is_in_progress_in runs.now claim.now.group) (all_holders runs.now))
        || is_earlier claim.now.holder (find (is_pending_in runs.now claim.now.group) (all_holders runs.now))) }
{
    is_earlier(&claim.holder, runs.running(&claim.group))
        || is_earlier(&claim.holder, runs.pending(&claim.group))
}

/// The line of the group of a claim, or nothing if an earlier claim has the same group.
fn line_at(
    alloc: Global,
    form: Form,
    runs: &Runs,
    claims: &[GroupClaim],
    i: usize,
) -> Result<String, Refusal>
    requires within { i < length claims.now }
    requires claims { map said claims.now ≡ claims_of runs.now }
    ensures { Gives string_bytes result (Ok (line_once (group_line form runs.now) (map (λ c. c.group) claims.now) i)) }
{
    let claim = &claims[i];
    if has_earlier_claim(runs, claim) {
        return Ok(String::new(alloc));
    }
    group_line(alloc, form, runs, &claim.group)
}

fn lines_of(
    alloc: Global,
    form: Form,
    runs: &Runs,
    claims: &[GroupClaim],
) -> Result<String, Refusal>
    requires { map said claims.now ≡ claims_of runs.now }
    ensures { Gives string_bytes result (Ok (group_lines form runs.now)) }
{
    let mut text = String::new(alloc);
    for i in 0..claims.len() {
        let line = line_at(alloc, form, runs, claims, i)?;
        text.push_str(line.as_str())?;
    }
    Ok(text)
}

/// A line for each group that a run or a leg holds or waits for. `sites` has the sites of all legs.
pub(crate) fn groups_text(
    alloc: Global,
    form: Form,
    runs: &Runs,
    sites: &[LegSite],
) -> Result<String, Refusal>
    requires { sites.now ≡ leg_sites runs.now }
    ensures { Gives string_bytes result (Ok (group_lines form runs.now)) }
{
    let claims = claims_of(alloc, runs, sites)?;
    lines_of(alloc, form, runs, claims.as_slice())
}
