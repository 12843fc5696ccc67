ghost use Rattle.std.specs.Prelude.{◌≡◌, Ok};
ghost use Rattle.needs_graph.specs.Needs.{graph_of};
ghost use Rattle.run_plan.specs.PlanOf.{needs_listed, plan_graph};

use crate::same_templates::{same_concurrency, same_flag, same_templates};
use needs_graph::Graph;
use std::marker::Model;
use wf_expr::Template;
use wf_reader::{Concurrency, Flag};
use wf_value::{Chars, Combo, Condition, Same, Sequence};

/// A leg of a planned job: one combination of its matrix.
#[derive(Drop)]
pub struct PlannedLeg {
    pub combo: Combo,
}

/// A job of a plan.
#[derive(Drop)]
pub struct PlannedJob {
    pub id: Chars,
    /// The labels that each leg requires of a runner, once the templates are evaluated.
    pub labels: Sequence<Template>,
    /// The ids of the needed jobs, as listed.
    pub needs: Sequence<Chars>,
    /// When the job runs, as a function of how its ancestors ended.
    pub condition: Condition,
    /// Whether the job's result ignores failing legs.
    pub continue_on_error: Flag,
    /// The concurrency group of each leg, if any.
    pub concurrency: Option<Concurrency>,
    /// Whether a failing leg cancels the others. True if the workflow does not say.
    pub fail_fast: bool,
    /// The maximum number of legs that run at the same time, 1 to 256, if limited.
    pub max_parallel: Option<u16>,
    /// 1 to 256 legs, with indices from 0.
    pub legs: Sequence<PlannedLeg>,
}

/// The plan of a workflow: its jobs in byte order of their ids, and the graph of their needs. In contracts it is the list of the
/// jobs, since the graph is a function of them.
#[derive(Drop)]
pub struct Plan {
    jobs: Sequence<PlannedJob>,
    graph: Graph,
}

impl Model for Plan {
    ghost use Rattle.std.specs.Prelude.{◌≡◌, List, Ok};
    ghost use Rattle.needs_graph.specs.Needs.{graph_of};
    ghost use Rattle.run_plan.specs.PlanOf.{needs_listed};
    ghost use Rattle.run_plan.specs.declared.planned.PlannedJob.{PlannedJob};

    ghost Value = { List PlannedJob };

    ghost view = { λ p. p.jobs };

    ghost invariant = { λ p. graph_of (needs_listed p.jobs) ≡ Ok p.graph };
}

impl Plan {
    /// Makes a plan of jobs and the graph of their needs.
    pub(crate) fn new(jobs: Sequence<PlannedJob>, graph: Graph) -> Self
        requires { graph_of (needs_listed jobs) ≡ Ok graph }
        ensures { result ≡ jobs }
    {
        Plan { jobs, graph }
    }

    pub fn as_slice(&self) -> &[PlannedJob]
        ensures { result.now ≡ self.now }
    {
        self.jobs.as_slice()
    }

    /// Which jobs each job needs, directly and transitively, by the indices of the jobs in the plan.
    /// Promise (Bodies, plans and replies): A plan keeps the graph of its needs, which has no cycle
    /// By: `run_plan::Plan::graph`, `needs`, `whole` (the type's invariant)
    pub fn graph(&self) -> &Graph
        ensures needs { result.now ≡ plan_graph self.now }
        ensures whole { graph_of (needs_listed self.now) ≡ Ok result.now }
    {
        &self.graph
    }
}

impl Same for PlannedLeg {
    fn same(&self, other: &Self) -> bool {
        self.combo.same(&other.combo)
    }
}

impl Same for PlannedJob {
    fn same(&self, other: &Self) -> bool {
        self.id.same(&other.id)
            && same_templates(self.labels.as_slice(), other.labels.as_slice())
            && self.needs.same(&other.needs)
            && self.condition == other.condition
            && same_flag(&self.continue_on_error, &other.continue_on_error)
            && same_concurrency(&self.concurrency, &other.concurrency)
            && self.fail_fast == other.fail_fast
            && self.max_parallel == other.max_parallel
            && self.legs.same(&other.legs)
    }
}

impl Same for Plan {
    fn same(&self, other: &Self) -> bool {
        self.jobs.same(&other.jobs)
    }
}
