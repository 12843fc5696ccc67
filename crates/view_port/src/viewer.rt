//! A client connected to the view port. Its stream is non-blocking.

use client_ports::{ClientReader, ClientWriter, Input, Next, would_block};
use mio::event::Event;
use std::alloc::Global;
use std::io;
use std::io::Read;
use std::net::{Shutdown, TcpStream};
use std::os::fd::{AsRawFd, RawFd};
use std::time::{Duration, Instant};
use view_sessions::{Answer, ChangesQuery, ViewFault, ViewRequest, ViewSession, Writable};

/// How long a client whose session is over may stay silent before its stream is closed, in milliseconds.
const LEAVING: u64 = 250;

/// How long a client may take nothing of an answer, in milliseconds.
const PATIENCE: u64 = 5_000;

/// The most reads that discard what a client sends after its session.
const READS: usize = 128;

/// The most writes to a client in a turn.
const WRITES: usize = 4;

/// What a client that has not taken all of its answer does next.
fn next_writing(writable: Writable) -> Next {
    match writable {
        Writable::Yes => Next::Again,
        Writable::Later => Next::Waits,
        Writable::Failed => Next::Closes,
    }
}

/// A client that waits for changes.
#[derive(Clone, Copy)]
pub(crate) struct Waiting {
    pub(crate) query: ChangesQuery,
    pub(crate) until: Instant,
    pub(crate) closes: bool,
}

/// A connected client.
#[derive(Drop)]
pub(crate) struct Viewer {
    stream: TcpStream,
    session: ViewSession,
    /// When something was last read from it, or taken by it.
    moved: Instant,
    input: Input,
    /// Whether its stream has reported that it has closed its side.
    is_closing: bool,
    /// Whether its session is over, and what it still sends is discarded.
    leaves: bool,
    discarded: usize,
    pub(crate) waiting: Option<Waiting>,
    pub(crate) is_queued: bool,
}

impl Viewer {
    /// A client that has just connected, and may have sent something.
    pub(crate) fn new(alloc: Global, stream: TcpStream, now: Instant) -> io::Result<Viewer> {
        stream.set_nodelay(true)?;
        stream.set_nonblocking(true)?;
        Ok(Viewer {
            stream,
            session: ViewSession::new(alloc),
            moved: now,
            input: Input::More,
            is_closing: false,
            leaves: false,
            discarded: 0,
            waiting: None,
            is_queued: false,
        })
    }

    pub(crate) fn fd(&self) -> RawFd {
        self.stream.as_raw_fd()
    }

    /// Notes what its stream has reported.
    pub(crate) fn note(&mut self, event: &Event) {
        self.is_closing = self.is_closing || event.is_read_closed();
        let may_be_read = event.is_readable() || event.is_error();
        if may_be_read && self.input == Input::Drained {
            self.input = Input::More;
        }
    }

    /// Whether its session is over, or an answer waits for it.
    pub(crate) fn is_restless(&self) -> bool {
        self.leaves || self.session.owes()
    }

    /// Whether it has been silent for too long. One that waits for changes, or to be served, is not silent.
    pub(crate) fn is_idle(&self, now: Instant, idle: Duration) -> bool {
        let limit = if self.session.owes() {
            Duration::from_millis(PATIENCE)
        } else if self.waiting.is_some() || self.is_queued {
            return false;
        } else if self.leaves {
            Duration::from_millis(LEAVING)
        } else {
            idle
        };
        now.saturating_duration_since(self.moved) >= limit
    }

    /// Whether its wait for changes is over: its time has come, or it has closed its side, as one that has gone.
    pub(crate) fn has_waited(&self, now: Instant) -> bool {
        match &self.waiting {
            Some(waiting) => self.is_closing || waiting.until <= now,
            None => false,
        }
    }

    /// Reads once from it. Returns whether something came.
    fn read(&mut self, buffer: &mut Vec<u8>, now: Instant) -> bool {
        let mut reader = ClientReader::new(&self.stream, self.is_closing);
        let count = reader.read(buffer.as_mut_slice());
        self.input = reader.input;
        match count {
            Ok(count) if count > 0 && count <= buffer.len() => {
                self.moved = now;
                if self.session.receive(&buffer.as_slice()[..count]).is_err() {
                    self.input = Input::Failed;
                    return false;
                }
                true
            }
            _ => false,
        }
    }

    /// Its next request, for which something is read if it is needed.
    pub(crate) fn next(
        &mut self,
        alloc: Global,
        buffer: &mut Vec<u8>,
        now: Instant,
    ) -> Option<ViewRequest> {
        if self.leaves || self.waiting.is_some() {
            return None;
        }
        if let Some(request) = self.session.next(alloc) {
            return Some(request);
        }
        if self.input != Input::More || !self.read(buffer, now) {
            return None;
        }
        self.session.next(alloc)
    }

    /// Answers the request that was taken. Without memory its session ends.
    pub(crate) fn answer(&mut self, alloc: Global, answer: &Answer, head_only: bool, closes: bool) {
        if self
            .session
            .answer(alloc, answer, head_only, closes)
            .is_err()
        {
            self.session.end();
        }
    }

    /// Sends it what it takes of its answer. Returns whether it took something, and whether it takes more.
    fn send(&mut self, now: Instant) -> (bool, Writable) {
        let mut writer = ClientWriter::new(&self.stream);
        let (moved, writable) = self.session.send(&mut writer, WRITES);
        if moved {
            self.moved = now;
        }
        (moved, writable)
    }

    /// Sends it more of its answer. Returns whether it took something.
    pub(crate) fn takes_more(&mut self, now: Instant) -> bool {
        self.session.owes() && self.send(now).0
    }

    /// Sends it what it takes of its answer, and says what it does next.
    pub(crate) fn go_on(&mut self, buffer: &mut Vec<u8>, now: Instant) -> Next {
        if self.leaves {
            return self.discard(buffer, now);
        }
        let owed = self.session.owes();
        if owed {
            let (_, writable) = self.send(now);
            if self.session.owes() {
                return next_writing(writable);
            }
        }
        if self.session.is_over() {
            self.leaves = true;
            return match self.stream.shutdown(Shutdown::Write) {
                Ok(()) => Next::Again,
                Err(_) => Next::Closes,
            };
        }
        match &self.waiting {
            Some(_) if self.is_closing => Next::Again,
            Some(_) => Next::Waits,
            None => self.after_sending(owed),
        }
    }

    /// Whether only the head of an answer to what it asks is wanted, if it asks for something.
    fn asks(&mut self, alloc: Global, buffer: &mut Vec<u8>, now: Instant) -> Option<bool> {
        if self.waiting.take().is_some() {
            return Some(false);
        }
        if self.input == Input::Drained {
            self.input = Input::More;
        }
        Some(self.next(alloc, buffer, now)?.head_only)
    }

    /// Answers what it asks with the failure of the device, and has it take the answer as far as it does so at once.
    pub(crate) fn part(&mut self, alloc: Global, buffer: &mut Vec<u8>, now: Instant) {
        if let Some(head_only) = self.asks(alloc, buffer, now) {
            let failed = Err(ViewFault::DeviceFailed);
            self.answer(alloc, &failed, head_only, true);
        }
        for _ in 0..READS {
            if self.go_on(buffer, now) != Next::Again {
                return;
            }
        }
    }

    /// What it does next, once it has taken its answer.
    fn after_sending(&self, owed: bool) -> Next {
        if owed {
            return Next::Again;
        }
        match self.input {
            Input::Drained => Next::Waits,
            Input::More => Next::Again,
            Input::Ended | Input::Failed => Next::Closes,
        }
    }

    /// Discards what it sends after its session.
    fn discard(&mut self, buffer: &mut Vec<u8>, now: Instant) -> Next {
        if self.discarded >= READS {
            return Next::Closes;
        }
        self.discarded = self.discarded.saturating_add(1);
        let mut stream = &self.stream;
        match stream.read(buffer.as_mut_slice()) {
            Ok(0) => Next::Closes,
            Ok(_) => {
                self.moved = now;
                Next::Again
            }
            Err(e) if would_block(&e) => Next::Waits,
            Err(_) => Next::Closes,
        }
    }
}
