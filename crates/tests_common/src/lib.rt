//! What the tests of several crates share: values and commands, made of constants, images of crashes, and streams that fail. It asserts nothing, since only a test may.
#![tactic(auto)]

pub mod commands;
pub mod crashes;
pub mod long_texts;
pub mod streams;
pub mod values;
