//! The rules of runs, and settling by them to a fixpoint: what the rules keep, laws of settling, and from where settling may go on after a change.
#![tactic(auto)]

pub mod forgetting;
pub mod laws;
