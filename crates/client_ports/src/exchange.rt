//! Reads from a client's stream and writes to it, both without waiting.

use std::io;
use std::io::{ErrorKind, Read, Write};
use std::net::TcpStream;

/// Whether more may be read from a client.
#[derive(Clone, Copy, Debug, PartialEq, Eq)]
pub enum Input {
    /// It has sent nothing more yet.
    Drained,
    /// It may have sent more.
    More,
    /// It has closed its side.
    Ended,
    /// Its stream has failed.
    Failed,
}

/// Whether the error says only that nothing can be read or written yet.
pub fn would_block(e: &io::Error) -> bool {
    matches!(e.kind(), ErrorKind::WouldBlock | ErrorKind::Interrupted)
}

/// What a read says of the client's input. A read that does not fill its buffer has emptied the stream, but if the
/// client has closed its side, the end is still to be read.
fn input_after(read: &io::Result<usize>, room: usize, is_closing: bool) -> Input {
    match read {
        Ok(0) => Input::Ended,
        Ok(count) if *count == room || is_closing => Input::More,
        Ok(_) => Input::Drained,
        Err(e) if would_block(e) => Input::Drained,
        Err(_) => Input::Failed,
    }
}

/// Reads from a client, and keeps what the last read says of its input.
#[derive(Drop)]
pub struct ClientReader<'s> {
    stream: &'s TcpStream,
    /// Whether the client has closed its side.
    is_closing: bool,
    pub input: Input,
}

impl<'s> ClientReader<'s> {
    pub fn new(stream: &'s TcpStream, is_closing: bool) -> ClientReader<'s> {
        ClientReader {
            stream,
            is_closing,
            input: Input::Drained,
        }
    }
}

impl Read for ClientReader<'_> {
    fn read(&mut self, buffer: &mut [u8]) -> io::Result<usize> {
        let mut stream = self.stream;
        let read = stream.read(buffer);
        self.input = input_after(&read, buffer.len(), self.is_closing);
        read
    }
}

/// Writes to a client, and keeps whether its stream has failed.
#[derive(Drop)]
pub struct ClientWriter<'s> {
    stream: &'s TcpStream,
    pub has_failed: bool,
}

impl<'s> ClientWriter<'s> {
    pub fn new(stream: &'s TcpStream) -> ClientWriter<'s> {
        ClientWriter {
            stream,
            has_failed: false,
        }
    }
}

impl Write for ClientWriter<'_> {
    fn write(&mut self, bytes: &[u8]) -> io::Result<usize> {
        let mut stream = self.stream;
        let written = stream.write(bytes);
        if let Err(e) = &written {
            self.has_failed = !would_block(e);
        }
        written
    }

    fn flush(&mut self) -> io::Result<()> {
        Ok(())
    }
}
