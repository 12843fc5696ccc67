//! The stored bytes of commands and batches: writing, reading, and their lengths. Tables are written and read by the same parts.
#![tactic(auto)]

mod command_reader;
mod decode_error;
mod extend;
mod fields;
pub mod laws;
mod lengths;
mod list_reader;
mod list_writer;
mod prefix;
mod push;
mod read;
mod write;

pub use command_reader::{admit_at, command_at};
pub use decode_error::DecodeError;
pub use extend::extend_batch;
pub use fields::{is_within, number_at, small_text_at};
pub use lengths::{
    WORD, admit_length, claim_length, command_length, done_length, small_text_length,
};
pub use prefix::{byte_at, text_at, word_at};
pub use push::{
    push_admit, push_claim, push_done, push_number, push_small_text, push_text, push_word,
};
pub use read::{read_batch, read_command};
pub use write::{all_or_none, write_batch, write_command};
