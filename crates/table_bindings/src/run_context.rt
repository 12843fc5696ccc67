//! The context of a run's own templates.

ghost use Rattle.std.specs.Prelude.{◌≡◌, ◌∷◌, [], codes, option_and_then, option_map};
ghost use Rattle.wf_expr.specs.ScalarView.{shown};
ghost use Rattle.table_model.specs.Groups.{value_in_github};
ghost use Rattle.table_model.specs.LegContext.{github_of_run, under};

use crate::github_context::github_member;
use run_plan::Prepared;
use std::marker::Model;
use wf_expr::{Context, ScalarView};
use wf_value::Chars;

/// The values that the workflow's own `concurrency` may use: the service's members of `github`, which take precedence, and the sender's
/// contexts. It borrows all its values, so reading one takes no memory. GitHub Docs, "Contexts reference".
#[derive(Drop)]
pub struct RunContext<'a> {
    pub event: &'a Prepared,
    /// The run's id, in decimal.
    pub run_id: &'a str,
    /// The run's number among those of its workflow, in decimal.
    pub run_number: &'a str,
    /// The run's attempt, in decimal.
    pub run_attempt: &'a str,
}

impl<'a> Model for RunContext<'a> {
    ghost use Rattle.table_model.specs.Groups.{RunFacts};

    ghost Value = { RunFacts };

    ghost view = { λ c. record {
      event = c.event.now;
      run_id = c.run_id.now;
      run_number = c.run_number.now;
      run_attempt = c.run_attempt.now;
    } };
}

impl<'a> Context for RunContext<'a> {
    ghost use Rattle.table_model.specs.Groups.{run_context};

    ghost values = { run_context };

    fn value_of(&self, path: &[Chars]) -> Option<ScalarView<'_>> {
        match self.service_value(path) {
            Some(value) => Some(value),
            None => self.event.contexts().value_of(path),
        }
    }
}

impl<'a> RunContext<'a> {
    /// The service's value of a path: a member of `github`.
    fn service_value(&self, path: &[Chars]) -> Option<ScalarView<'_>>
        ensures { option_map shown result
            ≡ value_in_github (github_of_run self.now.event self.now.run_id self.now.run_number self.now.run_attempt) path.now }
    {
        match path {
            [context, name] => self.member(context.as_str(), name.as_str()),
            _ => None,
        }
    }

    /// A member of `github`, the only context of which the service has members.
    fn member(&self, context: &str, name: &str) -> Option<ScalarView<'_>>
        ensures { let github = github_of_run self.now.event self.now.run_id self.now.run_number self.now.run_attempt in
            option_map shown result ≡ option_and_then (under name.now) (under context.now ((codes "github", github) ∷ [])) }
    {
        match context {
            "github" => github_member(
                self.event,
                self.run_id,
                self.run_number,
                self.run_attempt,
                name,
            ),
            _ => None,
        }
    }
}
