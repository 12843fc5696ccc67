//! The runs of a table: how they settle, how each is found, which holders a concurrency group has, and which leg fits a runner.
#![tactic(auto)]

pub mod first_site;
pub mod fit;
mod rows;
pub mod runs;
pub mod walk;

pub use runs::Runs;
