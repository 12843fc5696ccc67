//! The holders of concurrency groups, by the names of the groups. GitHub Docs, "Control the concurrency of workflows and jobs".
#![tactic(auto)]

mod book;
mod slot;

pub use book::{Arrival, Book};
pub use slot::Slot;
