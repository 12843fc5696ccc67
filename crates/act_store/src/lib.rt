//! The store: a table and its history in memory, and a disk. After a crash at any moment, the disk recovers to the covered entries, or to
//! all.
#![tactic(auto)]

mod apply;
mod area_prefix;
mod begun;
mod check_begin;
mod check_finish;
mod check_slice;
mod commit;
mod decoded_area;
mod entry;
mod init;
mod last_part;
pub mod laws;
mod layout;
mod located_area;
mod open;
mod pending_batch;
mod playing;
mod receipt;
mod replay;
mod step;
mod store;
mod turn_over;

pub use apply::MAX_ENTRIES;
pub use entry::Entry;
pub use init::{MAX_AREA, MIN_AREA};
pub use layout::Layout;
pub use playing::{play, take};
pub use receipt::Receipt;
pub use step::{Played, Step};
pub use store::Store;
