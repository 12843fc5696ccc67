//! The combinations of a job's matrix. GitHub Docs, "Running variations of jobs in a workflow".
#![tactic(auto)]

mod axis;
mod combination;
mod entry;
mod expansion;
mod original;
mod pattern;

pub use expansion::{Expansion, expand};
