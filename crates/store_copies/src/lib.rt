//! A store file that has a table and no record: a copy in memory, and one of another length on a disk.
#![tactic(auto)]

mod copy;
mod growth;

pub use copy::copy_of;
pub use growth::{check_area, grow};
