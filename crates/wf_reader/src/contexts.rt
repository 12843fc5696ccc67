ghost use Rattle.std.specs.Prelude.{◌≡◌, codes, option_map};
ghost use Rattle.serde_json.specs.Data.{object};
ghost use Rattle.serde_json.specs.Find.{get};
ghost use Rattle.serde_json.specs.View.{view, members_view};
ghost use Rattle.wf_expr.specs.ScalarView.{shown};
ghost use Rattle.wf_reader.specs.Contexts.{contexts_in, context_named, scalar_at, sent_value};

use crate::scalars::scalar_of;
use serde_json::{Map, Value};
use std::marker::Model;
use wf_expr::{Context, ScalarView};
use wf_value::Chars;

/// The contexts `github`, `inputs` and `vars` that the sender of an event supplies, as the JSON objects of its body. In contracts
/// it is the record of these. GitHub Docs, "Contexts reference".
/// Promise (Bodies, plans and replies): The sender's context gives a path the value to which its names lead in the body
/// By: `wf_reader::Contexts` as a `wf_expr::Context` (`sent_value`)
#[derive(Drop)]
pub struct Contexts {
    github: Option<Value>,
    inputs: Option<Value>,
    vars: Option<Value>,
}

impl Model for Contexts {
    ghost use Rattle.std.specs.Prelude.{option_map};
    ghost use Rattle.serde_json.specs.View.{view as json};
    ghost use Rattle.wf_reader.specs.Contexts.{ContextObjects, coded_contexts};

    ghost Value = { ContextObjects };

    ghost coded = { coded_contexts };

    ghost view = { λ c. record
        { github = option_map json c.github; inputs = option_map json c.inputs; vars = option_map json c.vars } };
}

impl Contexts {
    /// Moves the contexts and the workflow out of an envelope, without copying them.
    pub fn and_workflow(envelope: Value) -> (Contexts, Option<Value>)
        ensures contexts { result.0 ≡ contexts_in (view envelope) }
        ensures workflow { option_map (λ v. view v) result.1 ≡ get (codes "workflow") (view envelope) }
    {
        match envelope {
            Value::Object(members) => Contexts::and_workflow_of(members),
            _ => {
                let contexts = Contexts {
                    github: None,
                    inputs: None,
                    vars: None,
                };
                (contexts, None)
            }
        }
    }

    /// The same for the members of an envelope.
    fn and_workflow_of(mut members: Map<String, Value>) -> (Contexts, Option<Value>)
        ensures contexts { result.0 ≡ contexts_in (object (members_view members.entries)) }
        ensures workflow { option_map (λ v. view v) result.1 ≡ get (codes "workflow") (object (members_view members.entries)) }
    {
        let github = members.remove("github");
        let inputs = members.remove("inputs");
        let vars = members.remove("vars");
        let contexts = Contexts {
            github,
            inputs,
            vars,
        };
        (contexts, members.remove("workflow"))
    }

    /// The context with this name.
    fn named(&self, name: &str) -> Option<&Value>
        ensures { option_map (λ v. view v.now) result ≡ context_named self.now name.now }
    {
        match name {
            "github" => self.github.as_ref(),
            "inputs" => self.inputs.as_ref(),
            "vars" => self.vars.as_ref(),
            _ => None,
        }
    }
}

/// The scalar at a path in a value. Each name selects a member of an object.
fn scalar_at<'v>(value: &'v Value, path: &[Chars]) -> Option<ScalarView<'v>>
    ensures { option_map shown result ≡ scalar_at path.now (view value.now) }
{
    let mut inner = value;
    for name in path {
        match inner.get(name.as_str()) {
            Some(member) => inner = member,
            None => return None,
        }
    }
    scalar_of(inner)
}

impl Context for Contexts {
    ghost values = { sent_value };

    fn value_of(&self, path: &[Chars]) -> Option<ScalarView<'_>> {
        match path {
            [] => None,
            [name, rest @ ..] => match self.named(name.as_str()) {
                Some(context) => scalar_at(context, rest),
                None => None,
            },
        }
    }
}
