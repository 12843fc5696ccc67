//! Laws that speak of calls of `Table::step`, and rows that are computed from the definitions of a step. No other crate depends on this one.
#![tactic(auto)]

mod calls;
pub mod laws;

pub use calls::carry_out;
