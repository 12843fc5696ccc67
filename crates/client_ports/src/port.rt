//! A port: its listener, and the free slots for its clients.

use mio::unix::SourceFd;
use mio::{Interest, Registry, Token};
use std::alloc::{AllocError, Global};
use std::io;
use std::io::ErrorKind;
use std::net::{TcpListener, TcpStream};
use std::os::fd::AsRawFd;

/// The most clients that a port has. Others wait until one of them leaves.
pub const MAX_CLIENTS: usize = 1024;

/// How many connections wait in the system's queue of a port, while all slots are taken or the device takes its time. The system
/// drops others, and their clients try again after one second, then two, four and so on. There are fewer than slots.
const WAITING: i32 = 512;

/// The permanent errors of the system's `accept`: the listener cannot be used.
const EBADF: i32 = 9;

const EINVAL: i32 = 22;

const ENOTSOCK: i32 = 88;

/// Whether a listener cannot be used any more. After any other error it is tried again: a client has gone, or the
/// system is out of descriptors or memory for the moment.
fn is_over(e: &io::Error) -> bool {
    matches!(e.raw_os_error(), Some(EBADF | EINVAL | ENOTSOCK))
}

/// Whether connections wait after a failed `accept`.
fn callers_after(e: &io::Error) -> Callers {
    match e.kind() {
        ErrorKind::WouldBlock => Callers::None,
        ErrorKind::ConnectionAborted | ErrorKind::Interrupted => Callers::Some,
        _ => Callers::Stuck,
    }
}

/// Whether connections wait at a port.
#[derive(Clone, Copy, Debug, PartialEq, Eq)]
enum Callers {
    None,
    Some,
    /// The system has no room for one more at the moment.
    Stuck,
}

/// A port with its free slots.
#[derive(Drop)]
pub struct Port<'a> {
    listener: &'a TcpListener,
    free: Vec<usize>,
    callers: Callers,
}

impl<'a> Port<'a> {
    /// A port whose clients have the slots from `first` on.
    pub fn new(
        alloc: Global,
        listener: &'a TcpListener,
        first: usize,
    ) -> Result<Port<'a>, AllocError> {
        let mut free = Vec::new(alloc);
        for slot in 0..MAX_CLIENTS {
            free.push(first.saturating_add(MAX_CLIENTS - 1 - slot))?;
        }
        Ok(Port {
            listener,
            free,
            callers: Callers::None,
        })
    }

    /// Registers the listener, so that connections are reported.
    pub fn watch(&self, registry: &Registry, token: Token) -> io::Result<()> {
        self.listener.set_nonblocking(true)?;
        let fd = self.listener.as_raw_fd();
        let _ = libc::net::listen(fd, WAITING);
        registry.register(&mut SourceFd(&fd), token, Interest::READABLE)
    }

    /// A connection has come.
    pub fn reports(&mut self) {
        self.callers = Callers::Some;
    }

    /// Whether a connection can be accepted at once.
    pub fn is_busy(&self) -> bool {
        self.callers == Callers::Some && !self.free.is_empty()
    }

    /// How many clients it has.
    pub fn taken(&self) -> usize {
        MAX_CLIENTS.saturating_sub(self.free.len())
    }

    /// Frees a slot.
    pub fn vacate(&mut self, slot: usize) {
        let _ = self.free.push(slot);
    }

    /// The next connection, with a slot for it. If there is no slot, or the system has no room at the moment, it waits
    /// and is tried again in the next turn.
    pub fn accept(&mut self) -> io::Result<Option<(TcpStream, usize)>> {
        if self.callers == Callers::None {
            return Ok(None);
        }
        let Some(slot) = self.free.pop() else {
            return Ok(None);
        };
        match self.listener.accept() {
            Ok((stream, _)) => Ok(Some((stream, slot))),
            Err(e) => {
                self.vacate(slot);
                self.callers = callers_after(&e);
                if is_over(&e) { Err(e) } else { Ok(None) }
            }
        }
    }
}
