ghost use Rattle.serde_json.specs.Find.{get};
ghost use Rattle.serde_json.specs.View.{view};
ghost use Rattle.wf_value.specs.Gives.{Gives};
ghost use Rattle.wf_reader.specs.Faults.{unless_faulty, optional};
ghost use Rattle.wf_reader.specs.Job.{flag_faults, flag_in};
ghost use Rattle.wf_reader.specs.Json.{member_at};

use crate::fields::wrong_kind;
use crate::templates::read_template;
use serde_json::Value;
use std::alloc::Global;
use wf_expr::{ContextSite, Template};
use wf_value::Refusal;

/// A member that sets a flag, such as `continue-on-error` and `cancel-in-progress`: a boolean, or a template whose value decides.
#[derive(Drop)]
pub enum Flag {
    Fixed(bool),
    Template(Template),
}

/// The flag of a value: 11 if it is neither a boolean nor a text, 17 or 18 if the text is not a template that the site allows.
pub fn flag_of(alloc: Global, value: &Value, site: ContextSite) -> Result<Flag, Refusal>
    ensures { Gives (λ f. f) result
        (unless_faulty (flag_faults site (view value.now)) (flag_in site (view value.now))) }
{
    match value {
        Value::Bool(truth) => Ok(Flag::Fixed(*truth)),
        Value::String(text) => Ok(Flag::Template(read_template(alloc, text.as_str(), site)?)),
        _ => Err(wrong_kind()),
    }
}

/// The flag of a member. It is not set if the member is missing.
pub fn read_flag(
    alloc: Global,
    object: &Value,
    name: &str,
    site: ContextSite,
) -> Result<Flag, Refusal>
    ensures { Gives (λ f. f) result
        (unless_faulty (optional (flag_faults site) (get name.now (view object.now)))
        (flag_in site (member_at name.now (view object.now)))) }
{
    match object.get(name) {
        Some(value) => flag_of(alloc, value, site),
        None => Ok(Flag::Fixed(false)),
    }
}
