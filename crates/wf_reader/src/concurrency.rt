ghost use Rattle.std.specs.Prelude.{◌≡◌, [], codes, option_map, string_bytes, unwrap_or};
ghost use Rattle.std.specs.List.{list_all};
ghost use Rattle.serde_json.specs.Find.{get};
ghost use Rattle.serde_json.specs.View.{view};
ghost use Rattle.wf_value.specs.Gives.{Gives};
ghost use Rattle.wf_reader.specs.Job.{concurrency_faults, concurrency_in, group_text, has_its_names, template_faults, template_in};
ghost use Rattle.wf_reader.specs.Job.{is_concurrency, is_concurrency_name, is_truth_or_text};
ghost use Rattle.wf_reader.specs.Faults.{unless_faulty, optional};

use crate::fields::wrong_kind;
use crate::flag::{Flag, read_flag};
use crate::templates::read_template;
use serde_json::{Map, Value};
use std::alloc::Global;
use wf_expr::{ContextSite, Template};
use wf_value::Refusal;

/// The concurrency group of a workflow or of a job. GitHub Docs, "Workflow syntax for GitHub Actions", `concurrency` and
/// `jobs.<job_id>.concurrency`.
#[derive(Drop)]
pub struct Concurrency {
    /// The name of the group.
    pub group: Template,
    /// Whether work in progress in the group is cancelled. Not set if the member is missing.
    pub cancel_in_progress: Flag,
}

/// The text that names the group: the value itself, or its member `group`.
fn group_text(value: &Value) -> Option<&str>
    ensures { option_map (λ t. t.now) result ≡ group_text (view value.now) }
{
    match value.as_str() {
        Some(text) => Some(text),
        None => value.get("group").and_then(Value::as_str),
    }
}

fn is_name(name: &str) -> bool
    ensures { result ≡ is_concurrency_name name.now }
{
    name == "group" || name == "cancel-in-progress"
}

fn are_names(members: &Map<String, Value>) -> bool
    ensures { result ≡ list_all (λ e. is_concurrency_name (string_bytes e.0)) members.now.entries }
{
    for (name, _) in members {
        if !is_name(name.as_str()) {
            return false;
        }
    }
    true
}

/// Whether an object has only the members `group` and `cancel-in-progress`. True for a value that is not an object.
fn has_its_names(value: &Value) -> bool
    ensures { result ≡ has_its_names (view value.now) }
{
    match value.as_object() {
        Some(members) => are_names(members),
        None => true,
    }
}

fn is_truth_or_text(value: &Value) -> bool
    ensures { result ≡ is_truth_or_text (view value.now) }
{
    value.is_boolean() || value.is_string()
}

/// Whether a value has the kinds that a `concurrency` requires, including those of its members.
pub fn is_concurrency(value: &Value) -> bool
    ensures { result ≡ is_concurrency (view value.now) }
{
    if group_text(value).is_none() || !has_its_names(value) {
        return false;
    }
    match value.get("cancel-in-progress") {
        Some(flag) => is_truth_or_text(flag),
        None => true,
    }
}

/// The group of a value of that kind: 17 if its text is not a template, else 18 if the site does not allow one of its contexts.
pub fn read_group(alloc: Global, value: &Value, site: ContextSite) -> Result<Template, Refusal>
    ensures { Gives (λ t. t) result
        (unless_faulty (template_faults site (unwrap_or (group_text (view value.now)) []))
        (template_in site (unwrap_or (group_text (view value.now)) []))) }
{
    read_template(alloc, group_text(value).unwrap_or(""), site)
}

/// The concurrency of a value: 11 if it or one of its members has a wrong kind, then the faults of its templates.
fn concurrency_of(alloc: Global, value: &Value, site: ContextSite) -> Result<Concurrency, Refusal>
    ensures { Gives (λ c. c) result
        (unless_faulty (concurrency_faults site (view value.now)) (concurrency_in site (view value.now))) }
{
    if !is_concurrency(value) {
        return Err(wrong_kind());
    }
    let group = read_group(alloc, value, site)?;
    let cancel_in_progress = read_flag(alloc, value, "cancel-in-progress", site)?;
    Ok(Concurrency {
        group,
        cancel_in_progress,
    })
}

/// The `concurrency` of a workflow or of a job, if any.
pub fn read_concurrency(
    alloc: Global,
    object: &Value,
    site: ContextSite,
) -> Result<Option<Concurrency>, Refusal>
    ensures { Gives (λ c. c) result
        (unless_faulty (optional (concurrency_faults site) (get (codes "concurrency") (view object.now)))
        (option_map (concurrency_in site) (get (codes "concurrency") (view object.now)))) }
{
    match object.get("concurrency") {
        Some(value) => Ok(Some(concurrency_of(alloc, value, site)?)),
        None => Ok(None),
    }
}
