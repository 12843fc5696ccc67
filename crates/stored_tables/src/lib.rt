//! The table that is stored as given parts: each rule of a table is tested, and the sound one is made.
#![tactic(auto)]

mod leased;
mod parts;
mod runners;
mod sound;
mod table;

pub use parts::{LastParts, RunnerParts, StoredLease, StoredSite, TableParts, do_names_rise};
