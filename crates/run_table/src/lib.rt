//! The run table: one step for each command, and the settling that follows it.
#![tactic(auto)]

mod leases;
mod runner;
mod runner_size;
mod runners;
mod sequence_numbers;
mod table;
mod table_data;
mod view;
mod view_text;

pub use leases::{kept_lease, leg_has_lease};
pub use runner::Runner;
pub use table::Table;
pub use view::RunView;
pub use view_text::{conclusion_word, leg_word, status_word};
