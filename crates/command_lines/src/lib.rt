//! What the lines of scripts and of runners have in common: fields separated by single spaces, the commands of these fields, and
//! line ends.
#![tactic(auto)]

mod commands;
mod ends;
mod fields;

pub use commands::{
    admit_of, beat_of, cancel_of, claim_of, discharge_of, done_of, fetch_of, forget_of, look_of,
    lost_of, rerun_of, spelled,
};
pub use ends::{line_feed_index, strip_carriage_return};
pub use fields::{at_space, three_fields};
