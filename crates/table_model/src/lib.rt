//! A run, its jobs and their legs: their phases, the effect of each change, and the parts in which they are stored.
#![tactic(auto)]

mod change;
pub mod direct_needs;
mod holder;
mod job;
mod leg;
pub mod leg_counts;
mod limits;
mod phases;
mod run;
mod run_parts;
mod sites;

pub use change::Change;
pub use holder::{Holder, HolderFilter};
pub use job::Job;
pub use leg::Leg;
pub use limits::{LAST_ATTEMPT, MAX_RUNS};
pub use phases::{JobPhase, LegPhase, RunPhase};
pub use run::Run;
pub use run_parts::{JobParts, RunParts};
pub use sites::{JobSite, LegSite, RuleSite};
