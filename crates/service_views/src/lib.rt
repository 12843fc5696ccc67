//! What a service shows to those that look at it: the answers of its views, from its table and from what is kept of it.
#![tactic(auto)]

mod behind;
mod board;
mod changes;
mod first_run;
mod given_leases;
mod kept;
mod shown;

pub use board::Board;
pub use kept::Kept;
pub use shown::{Made, Seen};
