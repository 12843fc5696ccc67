//! Sessions of runner lines: `CLAIM`, `DONE`, `BEAT` and `FETCH`, each answered by a line.
#![tactic(auto)]

pub mod laws;
mod line;
mod protocol;
mod streams;

pub use protocol::RunnerLines;
pub use streams::{Lines, Session};
