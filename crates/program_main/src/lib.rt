//! Joins the command line of `acts` with its commands, and says the exit status.
#![tactic(auto)]

mod cli;
mod serving;

pub use cli::run;
