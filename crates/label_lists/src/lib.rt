//! Lists of labels by number, and for each the runs that may have a ready leg with these labels. Marks may be stale, never missing:
//! every run with such a leg is marked, and a stale mark is removed when it is noticed.
#![tactic(auto)]

mod known_lists;
mod label_list;
mod lists;
mod requesting_runs;

pub use label_list::LabelList;
pub use lists::LabelLists;
