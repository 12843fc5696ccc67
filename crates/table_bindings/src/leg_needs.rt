//! Which paths depend on the results of jobs.

use std::marker::Model;
use table_model::Run;
use table_model::direct_needs::index_of_need;
use wf_expr::Needs;
use wf_value::Chars;

/// No path depends on a result. This is for a run's own templates.
#[derive(Drop)]
pub(crate) struct NoNeeds;

impl Needs for NoNeeds {
    ghost use Rattle.table_bindings.specs.BoundGroups.{no_need};

    ghost need_of = { λ needs. no_need };

    fn need_of(&self, _path: &[Chars]) -> Option<usize> {
        None
    }
}

/// The paths `needs.ID.result` of the jobs that a job of a run needs directly.
#[derive(Drop)]
pub(crate) struct LegNeeds<'a> {
    pub run: &'a Run,
    /// The job's index in its run.
    pub index: usize,
}

impl<'a> Model for LegNeeds<'a> {
    ghost use Rattle.std.specs.Prelude.{ℕ};
    ghost use Rattle.table_model.specs.Runs.{RunState};

    ghost Value = { RunState × ℕ };

    ghost view = { λ n. (n.run.now, n.index) };
}

impl<'a> Needs for LegNeeds<'a> {
    ghost use Rattle.run_plan.specs.PlanOf.{plan_of};
    ghost use Rattle.table_bindings.specs.BoundGroups.{need_of_job};

    ghost need_of = { λ needs. need_of_job (plan_of needs.0.admitted.body) needs.1 };

    fn need_of(&self, path: &[Chars]) -> Option<usize> {
        match path {
            [context, id, name] if context.as_str() == "needs" && name.as_str() == "result" => {
                index_of_need(self.run, self.index, id.as_str())
            }
            _ => None,
        }
    }
}
