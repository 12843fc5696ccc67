use crate::fault::ResourceFault;
use std::io;
use std::io::{Read, Write};

/// A standard stream that keeps the error of its last call, if that has failed.
#[derive(Drop)]
pub struct Noted<T: Drop> {
    stream: T,
    name: &'static str,
    error: Option<io::Error>,
}

impl<T: Drop> Noted<T> {
    pub fn new(stream: T, name: &'static str) -> Self {
        Noted {
            stream,
            name,
            error: None,
        }
    }

    /// The error of the last call, if that has failed.
    pub fn into_fault<'a>(self) -> Option<ResourceFault<'a>> {
        let Noted { name, error, .. } = self;
        match error {
            Some(error) => Some(ResourceFault::Stream(name, error)),
            None => None,
        }
    }
}

/// The error of an answer, once more.
fn error_of<T>(answer: &io::Result<T>) -> Option<io::Error> {
    match answer {
        Ok(_) => None,
        Err(error) => Some(match error.raw_os_error() {
            Some(number) => io::Error::from_raw_os_error(number),
            None => io::Error::from(error.kind()),
        }),
    }
}

impl<T: Read + Drop> Read for Noted<T> {
    fn read(&mut self, buf: &mut [u8]) -> io::Result<usize> {
        let answer = self.stream.read(buf);
        self.error = error_of(&answer);
        answer
    }
}

impl<T: Write + Drop> Write for Noted<T> {
    fn write(&mut self, buf: &[u8]) -> io::Result<usize> {
        let answer = self.stream.write(buf);
        self.error = error_of(&answer);
        answer
    }

    fn flush(&mut self) -> io::Result<()> {
        let answer = self.stream.flush();
        self.error = error_of(&answer);
        answer
    }
}
