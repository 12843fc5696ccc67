//! The stream of a client.

ghost use Rattle.std.specs.Prelude.{◌≤◌, IfSome, None, vec_len};

use byte_streams::{read_some, write_prefix};
use client_loop::Stream;
use client_ports::{ClientReader, ClientWriter, Input};
use std::io;
use std::net::{Shutdown, TcpStream};

/// Where the bytes of a client come from and go to.
#[derive(Drop)]
enum Wire {
    /// A connection, which is non-blocking.
    Connection(TcpStream),
    /// The service itself, which asks this and reads no answer.
    Own(String),
}

/// The stream of a client, and what its last read and its last write say of it.
#[derive(Drop)]
pub(crate) struct ClientStream {
    wire: Wire,
    input: Input,
    has_failed: bool,
}

/// Reads once from a connection. Returns how many bytes came, or `None` if nothing was read, and what that says of its input.
fn read_connection(stream: &TcpStream, buffer: &mut Vec<u8>) -> (Option<usize>, Input)
    ensures bound { IfSome result.0 (λ n. n ≤ vec_len buffer.new) }
{
    let mut reader = ClientReader::new(stream, false);
    let read = read_some(&mut reader, buffer.as_mut_slice());
    match read {
        Ok(count) => (Some(count), reader.input),
        Err(_) => (None, reader.input),
    }
}

/// Reads what is asked, or as much of it as there is room for, and leaves none of it.
fn read_own(asked: &mut String, buffer: &mut Vec<u8>) -> usize
    ensures bound { result ≤ vec_len buffer.new }
{
    let count = asked.len().min(buffer.len());
    buffer.as_mut_slice()[..count].copy_from_slice(&asked.as_bytes()[..count]);
    asked.clear();
    count
}

impl ClientStream {
    /// It disables Nagle's algorithm, so that what is written is sent at once.
    pub(crate) fn new(stream: TcpStream) -> io::Result<ClientStream> {
        stream.set_nodelay(true)?;
        stream.set_nonblocking(true)?;
        Ok(ClientStream {
            wire: Wire::Connection(stream),
            input: Input::Drained,
            has_failed: false,
        })
    }

    /// The stream of the service itself, which asks this.
    pub(crate) fn own(asked: String) -> ClientStream {
        ClientStream {
            wire: Wire::Own(asked),
            input: Input::Drained,
            has_failed: false,
        }
    }

    /// What the last read says of its input.
    pub(crate) fn input(&self) -> Input {
        self.input
    }

    /// Whether the last write failed.
    pub(crate) fn has_failed(&self) -> bool {
        self.has_failed
    }

    /// Shuts down writing. Returns whether it could.
    pub(crate) fn end(&self) -> bool {
        match &self.wire {
            Wire::Connection(stream) => stream.shutdown(Shutdown::Write).is_ok(),
            Wire::Own(_) => false,
        }
    }
}

impl Stream for ClientStream {
    ghost remaining = { λ _. None };

    ghost contents = { λ _. None };

    fn read(&mut self, buffer: &mut Vec<u8>) -> Option<usize> {
        match &mut self.wire {
            Wire::Connection(stream) => {
                let (read, input) = read_connection(stream, buffer);
                self.input = input;
                read
            }
            Wire::Own(asked) => Some(read_own(asked, buffer)),
        }
    }

    fn write(&mut self, bytes: &[u8]) -> usize {
        match &self.wire {
            Wire::Connection(stream) => {
                let mut writer = ClientWriter::new(stream);
                let count = write_prefix(&mut writer, bytes);
                self.has_failed = writer.has_failed;
                count
            }
            Wire::Own(_) => bytes.len(),
        }
    }
}
