//! Which jobs a job needs, directly and transitively, when a job runs, and the results of jobs and runs.
#![tactic(auto)]

mod conditions;
mod ended;
mod graph;
mod id_order;
mod job_needs;
mod job_set;
mod lookup;
mod marks;
mod results;
mod rows;

pub use conditions::decide;
pub use ended::{HasEnd, HasResult, LegEnd};
pub use graph::Graph;
pub use id_order::ids_rise;
pub use job_needs::JobNeeds;
pub use results::{conclude, gather};
