ghost use Rattle.std.specs.Prelude.{◌≡◌, option_and_then, option_map};
ghost use Rattle.std.specs.Option.{option_copied};
ghost use Rattle.wf_value.specs.ScalarValue.{result_word};
ghost use Rattle.wf_value.specs.declared.scalar.Scalar.TheVariants.{Text};
ghost use Rattle.wf_expr.specs.ScalarView.{shown};
ghost use Rattle.table_model.specs.LegContext.{contexts_of, github_of, inner_value, matrix_of, service_value, strategy_of};
ghost use Rattle.table_model.specs.LegContext.{result_of_need, under};

use crate::github_context::github_member;
use run_plan::{PlannedJob, Prepared};
use std::marker::Model;
use table_model::Run;
use table_model::direct_needs::result_of_need;
use wf_expr::{Context, ScalarView};
use wf_value::{Chars, Scalar};

/// The context of a leg. It borrows all its values, so reading one takes no memory. GitHub Docs, "Contexts reference".
#[derive(Drop)]
pub(crate) struct LegContext<'a> {
    pub run: &'a Run,
    /// The run's id, in decimal.
    pub run_id: &'a str,
    /// The run's number among those of its workflow, in decimal.
    pub run_number: &'a str,
    /// The run's attempt, in decimal.
    pub run_attempt: &'a str,
    pub job: &'a PlannedJob,
    /// The job's index in its run.
    pub index: usize,
    /// The leg's index in its job, from 0.
    pub leg: usize,
}

impl<'a> Model for LegContext<'a> {
    ghost use Rattle.std.specs.Prelude.{◌<◌, ◌^◌};
    ghost use Rattle.table_model.specs.Runs.{direct_needs};
    ghost use Rattle.table_model.specs.LegContext.{LegFacts};

    ghost Value = { LegFacts };

    ghost view = { λ c. record {
      event = c.run.now.admitted;
      run_id = c.run_id.now;
      run_number = c.run_number.now;
      run_attempt = c.run_attempt.now;
      job = c.job.now;
      leg = c.leg;
      needs = direct_needs c.run.now c.index;
    } };

    ghost invariant = { λ c. c.leg < 2 ^ 63 };
}

impl<'a> Context for LegContext<'a> {
    ghost use Rattle.table_model.specs.LegContext.{context_of};

    ghost values = { context_of };

    fn value_of(&self, path: &[Chars]) -> Option<ScalarView<'_>> {
        match self.service_value(path) {
            Some(value) => Some(value),
            None => self.event().contexts().value_of(path),
        }
    }
}

impl<'a> LegContext<'a> {
    fn event(&self) -> &Prepared
        ensures { result.now ≡ self.now.event }
    {
        self.run.prepared()
    }

    /// The service's value of a path: a member of one of its contexts, or a member of such a member.
    fn service_value(&self, path: &[Chars]) -> Option<ScalarView<'_>>
        ensures { option_map shown result ≡ service_value self.now path.now }
    {
        match path {
            [context, name] => self.member(context.as_str(), name.as_str()),
            [context, id, name] => self.inner(context.as_str(), id.as_str(), name.as_str()),
            _ => None,
        }
    }

    fn member(&self, context: &str, name: &str) -> Option<ScalarView<'_>>
        ensures { option_map shown result ≡ option_and_then (under name.now) (under context.now (contexts_of self.now)) }
    {
        match context {
            "github" => self.github(name),
            "strategy" => self.strategy(name),
            "matrix" => self.matrix(name),
            _ => None,
        }
    }

    /// A member of a member of a context: the `result` of a job in `needs`.
    fn inner(&self, context: &str, id: &str, name: &str) -> Option<ScalarView<'_>>
        ensures { option_map shown result ≡ inner_value self.now context.now id.now name.now }
    {
        if context == "needs" && name == "result" {
            self.result_of_need(id)
        } else {
            None
        }
    }

    /// The word for the result of a job that the leg's job needs directly.
    fn result_of_need(&self, id: &str) -> Option<ScalarView<'_>>
        ensures { option_map shown result ≡ option_map (λ r. Text (result_word r)) (result_of_need self.now id.now) }
    {
        match result_of_need(self.run, self.index, id) {
            Some(result) => Some(ScalarView::Text(result.word())),
            None => None,
        }
    }

    fn github(&self, name: &str) -> Option<ScalarView<'_>>
        ensures { option_map shown result ≡ under name.now (github_of self.now) }
    {
        github_member(
            self.event(),
            self.run_id,
            self.run_number,
            self.run_attempt,
            name,
        )
    }

    fn strategy(&self, name: &str) -> Option<ScalarView<'_>>
        ensures { option_map shown result ≡ under name.now (strategy_of self.now) }
    {
        let total = self.job.legs.as_slice().len() as i64;
        match name {
            "fail-fast" => Some(ScalarView::Truth(self.job.fail_fast)),
            "job-index" => Some(ScalarView::Whole(self.leg as i64)),
            "job-total" => Some(ScalarView::Whole(total)),
            "max-parallel" => match self.job.max_parallel {
                Some(most) => Some(ScalarView::Whole(i64::from(most))),
                None => Some(ScalarView::Whole(total)),
            },
            _ => None,
        }
    }

    /// A value of the leg's own combination.
    fn matrix(&self, name: &str) -> Option<ScalarView<'_>>
        ensures { option_map shown result ≡ under name.now (matrix_of self.now) }
    {
        let planned = self.job.legs.as_slice().get(self.leg)?;
        match value_under(planned.combo.as_slice(), name) {
            Some(value) => Some(ScalarView::of(value)),
            None => None,
        }
    }
}

/// The value of the first pair with this name.
fn value_under<'c>(pairs: &'c [(Chars, Scalar)], name: &str) -> Option<&'c Scalar>
    ensures { option_copied result ≡ under name.now pairs.now }
{
    match pairs.iter().find(|pair| pair.0.as_str() == name) {
        Some(pair) => Some(&pair.1),
        None => None,
    }
}
