use clap::Error;
use clap::error::ErrorKind;
use std::alloc::AllocError;
use std::io;

/// What is printed in place of carrying out a command line: a help text, or a usage error.
#[derive(Drop)]
pub struct Message {
    text: Error,
}

/// Why a command line is no request.
#[derive(Drop)]
pub enum Unparsed {
    NoMemory,
    Message(Message),
}

impl Message {
    /// Prints it: a help text on standard output, and a usage error on standard error.
    pub fn print<R: Print + Eprint>(&self, rt: &R) -> io::Result<()> {
        self.text.print(rt)
    }

    /// The exit status: 0 for a help text, and 2 for a usage error.
    pub fn status(&self) -> u8 {
        if self.text.use_stderr() { 2 } else { 0 }
    }
}

impl From<Error> for Unparsed {
    fn from(error: Error) -> Self {
        if error.kind() == ErrorKind::OutOfMemory {
            Unparsed::NoMemory
        } else {
            Unparsed::Message(Message { text: error })
        }
    }
}

impl From<AllocError> for Unparsed {
    fn from(_error: AllocError) -> Self {
        Unparsed::NoMemory
    }
}
