//! The stored bytes of tables: writing, reading, and their lengths. Commands and batches are those of `command_encodings`.
#![tactic(auto)]

mod first;
mod forgotten_at;
mod kept;
pub mod laws;
mod lease_fields;
mod list_at;
mod phases_at;
mod push_forgotten;
mod push_list;
mod push_table;
mod read;
mod runners_at;
mod runs_at;
mod second;
mod table_at;
mod table_lengths;
mod write;

pub use command_encodings::{
    command_length, extend_batch, read_batch, read_command, write_batch, write_command,
};
pub use first::{is_in_first_layout, read_first_batch, read_first_table};
pub use read::{read_parts, read_table};
pub use second::{is_in_second_layout, read_second_batch, read_second_table};
pub use table_lengths::table_length;
pub use write::write_table;
