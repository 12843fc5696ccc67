//! A reader and a writer that fail after a number of bytes.

use std::alloc::Global;
use std::io;
use std::io::{ErrorKind, Read, Write};

/// Gives pieces of at most `piece` bytes, the first one of another length, and fails once `left` bytes were given.
#[derive(Drop)]
pub struct Pieces<'a> {
    bytes: &'a [u8],
    next: usize,
    piece: usize,
    left: usize,
}

impl<'a> Pieces<'a> {
    pub fn new(bytes: &'a [u8], piece: usize) -> Self {
        Self::failing(bytes, piece, usize::MAX)
    }

    /// Two pieces, the first one of this length.
    pub fn cut(bytes: &'a [u8], first: usize) -> Self {
        Pieces {
            bytes,
            next: first,
            piece: usize::MAX,
            left: usize::MAX,
        }
    }

    pub fn failing(bytes: &'a [u8], piece: usize, left: usize) -> Self {
        Pieces {
            bytes,
            next: piece,
            piece,
            left,
        }
    }
}

impl Read for Pieces<'_> {
    fn read(&mut self, buffer: &mut [u8]) -> io::Result<usize> {
        if self.left == 0 {
            return Err(io::Error::from(ErrorKind::BrokenPipe));
        }
        let room = buffer.len().min(self.next).min(self.left);
        let count = self.bytes.read(&mut buffer[..room])?;
        self.next = self.piece;
        self.left -= count;
        Ok(count)
    }
}

/// Accepts `left` bytes, and then fails. If it is buffered, like output to a full disk, it fails when it is flushed.
#[derive(Drop)]
pub struct Bounded {
    pub bytes: Vec<u8>,
    left: usize,
    is_buffered: bool,
}

impl Bounded {
    pub fn new(alloc: Global, left: usize) -> Self {
        Bounded {
            bytes: Vec::new(alloc),
            left,
            is_buffered: false,
        }
    }

    pub fn buffered(alloc: Global) -> Self {
        Bounded {
            bytes: Vec::new(alloc),
            left: usize::MAX,
            is_buffered: true,
        }
    }
}

impl Write for Bounded {
    fn write(&mut self, bytes: &[u8]) -> io::Result<usize> {
        if self.left == 0 {
            return Err(io::Error::from(ErrorKind::BrokenPipe));
        }
        let room = bytes.len().min(self.left);
        let count = self.bytes.write(&bytes[..room])?;
        self.left -= count;
        Ok(count)
    }

    fn flush(&mut self) -> io::Result<()> {
        if self.is_buffered {
            return Err(io::Error::from(ErrorKind::BrokenPipe));
        }
        Ok(())
    }
}
