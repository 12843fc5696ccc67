//! The commands of `acts` that need no port, each with its streams and its file, and why a command ends.
#![tactic(auto)]

mod failure;
mod reading;
mod storing;
mod streams;

pub use failure::{Failure, ended, status_of};
pub use reading::{check, explain, lint, play, print_message};
pub use storing::{grow, init, show};
pub use streams::output;
