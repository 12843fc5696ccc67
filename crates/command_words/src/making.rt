//! Puts a command together. Each step takes what has come of the step before, so that a command's function has one way out.

use clap::{Arg, Command};
use std::alloc::AllocError;

/// A command, or no memory for it.
pub(crate) type Made<'a> = Result<Command<'a>, AllocError>;

/// Adds an argument.
pub(crate) fn with_arg<'a>(made: Made<'a>, arg: Result<Arg<'a>, AllocError>) -> Made<'a> {
    made?.arg(arg?)
}

/// Adds a subcommand.
pub(crate) fn with_subcommand<'a>(made: Made<'a>, subcommand: Made<'a>) -> Made<'a> {
    made?.subcommand(subcommand?)
}
