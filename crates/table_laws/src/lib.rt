//! Laws of the run table: what follows from its step for any commands, and the law of concurrency groups, of one group and of each group of a
//! table over any commands.
#![tactic(auto)]

pub mod group_histories;
pub mod group_laws;
pub mod laws;
