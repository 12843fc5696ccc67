//! Laws of encodings: each command, each batch of 1 to 4,294,967,295 commands and each table of at most 4,294,967,295 runners has exactly
//! one. Its functions take such a value, and their contracts say it of that value. No other crate depends on this one.
#![tactic(auto)]

mod commands;
pub mod laws;
mod lists;
mod tables;
