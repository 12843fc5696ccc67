ghost use Rattle.std.specs.Prelude.{codes, map, flat_map};
ghost use Rattle.serde_json.specs.Find.{get};
ghost use Rattle.serde_json.specs.View.{view};
ghost use Rattle.wf_value.specs.Gives.{Gives};
ghost use Rattle.wf_value.specs.declared.code.Code.TheVariants.{NoLabels};
ghost use Rattle.wf_reader.specs.Faults.{unless_faulty, required};
ghost use Rattle.wf_reader.specs.Job.{label_faults, label_in, labels_faults, requested_labels};
ghost use Rattle.wf_reader.specs.Json.{member_at};

use crate::fields::wrong_kind;
use crate::templates::read_template;
use serde_json::Value;
use std::alloc::Global;
use wf_expr::{ContextSite, Template};
use wf_value::{Code, Refusal, Sequence};

/// One label: a text that is a template.
pub fn read_label(alloc: Global, value: &Value) -> Result<Template, Refusal>
    ensures { Gives (λ t. t) result (unless_faulty (label_faults (view value.now)) (label_in (view value.now))) }
{
    match value.as_str() {
        Some(text) => read_template(alloc, text, ContextSite::Job),
        None => Err(wrong_kind()),
    }
}

/// The labels of a list, or the first fault.
fn read_labels(alloc: Global, values: &[Value]) -> Result<Vec<Template>, Refusal>
    ensures { Gives (λ v. v.items) result
        (unless_faulty (flat_map (λ v. label_faults (view v)) values.now)
        (map (λ v. label_in (view v)) values.now)) }
{
    let mut labels = Vec::with_capacity(alloc, values.len())?;
    for value in values {
        labels.push(read_label(alloc, value)?)?;
    }
    Ok(labels)
}

/// The labels that a value of `runs-on` states.
fn labels_in(alloc: Global, value: &Value) -> Result<Vec<Template>, Refusal>
    ensures { Gives (λ v. v.items) result
        (unless_faulty (labels_faults (view value.now)) (requested_labels (view value.now))) }
{
    if let Some(values) = value.as_array() {
        if values.is_empty() {
            return Err(Refusal::Numbered(Code::NoLabels));
        }
        return read_labels(alloc, values.as_slice());
    }
    if value.is_object() {
        return Err(Refusal::Numbered(Code::LeftOut));
    }
    let mut labels = Vec::with_capacity(alloc, 1)?;
    labels.push(read_label(alloc, value)?)?;
    Ok(labels)
}

/// The labels of a job: 15 if `runs-on` is missing or an empty list, 16 if it is an object, 11 if it has another wrong kind, 17 if
/// a text is not a template, and 18 if one has a context that a job may not use.
pub fn read_runs_on(alloc: Global, job: &Value) -> Result<Sequence<Template>, Refusal>
    ensures { Gives (λ t. t) result
        (unless_faulty (required NoLabels labels_faults (get (codes "runs-on") (view job.now)))
        (requested_labels (member_at (codes "runs-on") (view job.now)))) }
{
    match job.get("runs-on") {
        Some(value) => Ok(Sequence::new(labels_in(alloc, value)?)),
        None => Err(Refusal::Numbered(Code::NoLabels)),
    }
}
