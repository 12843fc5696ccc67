//! Finds all faults of a workflow. Each finding has the path of the faulty member. The findings are in the order in which
//! `wf_reader` checks the members, so the first one is the reader's refusal. The plan is checked only if the workflow itself has no
//! faults.
#![tactic(auto)]

mod check;
mod concurrency;
mod finding;
mod job;
mod lines;
mod matrix;
mod paths;
mod plan;
mod rule;
mod strategy;
mod workflow;

pub use finding::Finding;
pub use lines::finding_line;
pub use workflow::{lint, lint_finds_the_faults};
