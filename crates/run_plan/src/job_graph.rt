ghost use Rattle.std.specs.Prelude.{IsTrue, map};
ghost use Rattle.wf_value.specs.Gives.{Gives};
ghost use Rattle.wf_reader.specs.JobOrder.{ids_rise};
ghost use Rattle.needs_graph.specs.Needs.{graph_of};
ghost use Rattle.run_plan.specs.PlanOf.{needs_of_job};

use needs_graph::{Graph, JobNeeds};
use std::alloc::Global;
use wf_reader::Job;
use wf_value::Refusal;

/// The graph of the needs of a workflow's jobs. The `Err` is 13 if a job needs an unknown job, else 14 if a job is its own
/// ancestor. GitHub Docs, "Workflow syntax for GitHub Actions", `jobs.<job_id>.needs`.
pub fn graph_of(alloc: Global, jobs: &[Job]) -> Result<Graph, Refusal>
    requires { IsTrue (ids_rise jobs.now) }
    ensures { Gives (λ g. g) result (graph_of (map needs_of_job jobs.now)) }
{
    let mut needs = Vec::with_capacity(alloc, jobs.len())?;
    for job in jobs {
        needs.push(JobNeeds::new(&job.id, job.needs.as_slice()))?;
    }
    Graph::build(alloc, needs.as_slice())
}
