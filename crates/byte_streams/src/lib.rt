//! Reads and writes of byte streams. Each call is retried after an interruption by a signal. A failed call is refusal 61.
#![tactic(auto)]

mod input;
mod output;

pub use input::read_some;
pub use output::{flush, write_prefix, write_whole};
