//! The standard streams of the commands.

use crate::failure::Failure;
use process_io::{Noted, ResourceFault};
use std::io;
use std::io::{BufWriter, Printer};

const STANDARD_INPUT: &str = "standard input";

const STANDARD_OUTPUT: &str = "standard output";

/// Standard input.
pub(crate) fn input<R: Input>(rt: &R) -> Noted<R::Reader> {
    Noted::new(rt.reader(), STANDARD_INPUT)
}

/// A buffered writer to standard output.
pub fn output<'a, R: Print + AllocGlobal>(
    rt: &'a R,
) -> Result<Noted<BufWriter<Printer<'a, R>>>, Failure<'static>> {
    match BufWriter::new(rt.alloc(), io::writer(rt)) {
        Ok(writer) => Ok(Noted::new(writer, STANDARD_OUTPUT)),
        Err(_) => Err(Failure::no_memory()),
    }
}

/// What has come of a print to standard output.
pub(crate) fn printed(printed: io::Result<()>) -> Result<(), Failure<'static>> {
    printed.map_err(|error| Failure::from(ResourceFault::Stream(STANDARD_OUTPUT, error)))
}
