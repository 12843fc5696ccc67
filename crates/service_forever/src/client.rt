//! A client connected to a port. Its stream is with its session, in the service.

use crate::stream::ClientStream;
use act_disk::Disk;
use client_loop::{ClientStatus, Service};
use client_ports::{Input, Next};
use mio::event::Event;
use runner_sessions::RunnerLines;
use std::alloc::Global;
use std::mem;
use std::time::{Duration, Instant};
use webhook_sessions::Hooks;

/// How long a client whose session is over may stay silent before its stream is closed, in milliseconds.
const LEAVING: u64 = 250;

/// How long a client may take nothing of the answers that wait for it, in milliseconds.
const PATIENCE: u64 = 1_000;

/// The most reads that discard what a client sends after its session.
const READS: usize = 128;

/// The most of them in one turn.
const READS_OF_TURN: usize = 8;

/// Where a client is in its session.
#[derive(Clone, Copy, Debug, PartialEq, Eq)]
pub(crate) enum Stage {
    /// It is heard when it sends something.
    Talks,
    /// Answers wait for it, and it is not heard until it has taken them.
    Owes,
    /// Its session is over, and what it still sends is discarded.
    Leaves,
}

/// What became of the answers of a client.
#[derive(Clone, Copy)]
pub(crate) struct Released {
    /// How many bytes were sent.
    pub(crate) count: usize,
    pub(crate) next: Next,
}

/// A connected client.
#[derive(Drop)]
pub(crate) struct Client {
    stage: Stage,
    /// When something was last read from it, or taken by it while answers waited.
    moved: Instant,
    input: Input,
    /// Whether its stream has reported that it has closed its side.
    is_closing: bool,
    /// How many bytes were read from it since its last answer.
    unanswered: usize,
    /// The number of reads since its session ended.
    discarded: usize,
    /// Whether it is in the queue of the next turn.
    pub(crate) is_queued: bool,
    /// Whether it was heard in this turn.
    pub(crate) has_spoken: bool,
}

impl Client {
    /// A client that has just connected.
    pub(crate) fn new(now: Instant) -> Client {
        Client {
            stage: Stage::Talks,
            moved: now,
            input: Input::Drained,
            is_closing: false,
            unanswered: 0,
            discarded: 0,
            is_queued: false,
            has_spoken: false,
        }
    }

    pub(crate) fn stage(&self) -> Stage {
        self.stage
    }

    /// Whether it has a turn after its stream has reported this: it has sent something or closed its side, or takes more
    /// of the answers that wait.
    pub(crate) fn is_concerned(&mut self, event: &Event) -> bool {
        self.is_closing = self.is_closing || event.is_read_closed();
        let may_be_read = event.is_readable() || event.is_error();
        if may_be_read && self.input == Input::Drained {
            self.input = Input::More;
        }
        self.stage == Stage::Owes || may_be_read
    }

    /// Whether it has been silent for `idle`, or too long after its session, or has left its answers for too long. One that
    /// waits to be heard is not silent.
    pub(crate) fn is_idle(&self, now: Instant, idle: Duration) -> bool {
        if self.is_queued && self.stage != Stage::Owes {
            return false;
        }
        let limit = match self.stage {
            Stage::Talks => idle,
            Stage::Owes => Duration::from_millis(PATIENCE),
            Stage::Leaves => Duration::from_millis(LEAVING),
        };
        now.saturating_duration_since(self.moved) >= limit
    }

    /// Hears the next part of its session: what was cut off in its last turn, or else one read of its stream. Returns
    /// how many bytes were read.
    pub(crate) fn hear<D: Disk>(
        &mut self,
        alloc: Global,
        service: &mut Service<D, Hooks, RunnerLines, ClientStream>,
        slot: usize,
        buffer: &mut Vec<u8>,
        now: Instant,
    ) -> usize {
        if matches!(service.status(slot), Some(status) if status.more) {
            service.go_on(alloc, slot);
            return 0;
        }
        let count = service.hear_from(alloc, slot, buffer).unwrap_or(0);
        if let Some(stream) = service.stream(slot) {
            self.has_read(stream.input(), count);
        }
        if count > 0 {
            self.moved = now;
            self.unanswered = self.unanswered.saturating_add(count);
        }
        count
    }

    /// A read has given so many bytes, and says this of its input. If it has closed its side, the end is still to be read.
    fn has_read(&mut self, input: Input, count: usize) {
        self.input = if self.is_closing && count > 0 {
            Input::More
        } else {
            input
        };
    }

    /// It was answered. Returns how many bytes were read from it for that.
    pub(crate) fn was_answered(&mut self) -> usize {
        mem::replace(&mut self.unanswered, 0)
    }

    /// Sends what is withheld from it, once that may be sent.
    pub(crate) fn release<D: Disk>(
        &mut self,
        service: &mut Service<D, Hooks, RunnerLines, ClientStream>,
        slot: usize,
        now: Instant,
    ) -> Released {
        let count = service.send_to(slot).unwrap_or(0);
        if count > 0 {
            self.moved = now;
        }
        let has_failed = matches!(service.stream(slot), Some(stream) if stream.has_failed());
        let next = if has_failed {
            Next::Closes
        } else {
            self.next_in(service, slot)
        };
        Released { count, next }
    }

    /// What it does next, once it was sent as much of its answers as it takes.
    pub(crate) fn next_in<D: Disk>(
        &mut self,
        service: &Service<D, Hooks, RunnerLines, ClientStream>,
        slot: usize,
    ) -> Next {
        match (service.status(slot), service.stream(slot)) {
            (Some(status), Some(stream)) => self.next_after(status, stream),
            _ => Next::Closes,
        }
    }

    /// What a client that stands so does next.
    fn next_after(&mut self, status: ClientStatus, stream: &ClientStream) -> Next {
        if status.withheld > 0 {
            self.stage = Stage::Owes;
            return Next::Waits;
        }
        if status.over {
            return self.leave(stream);
        }
        let owed = self.stage == Stage::Owes;
        self.stage = Stage::Talks;
        if status.more || owed {
            return Next::Again;
        }
        match self.input {
            Input::Drained => Next::Waits,
            Input::More => Next::Again,
            Input::Ended | Input::Failed => Next::Closes,
        }
    }

    /// Shuts down writing to it, since its session is over.
    fn leave(&mut self, stream: &ClientStream) -> Next {
        self.stage = Stage::Leaves;
        if stream.end() {
            Next::Again
        } else {
            Next::Closes
        }
    }

    /// Parts with it, since the device has failed, and shuts down writing to it.
    pub(crate) fn part<D: Disk>(
        &mut self,
        alloc: Global,
        service: &mut Service<D, Hooks, RunnerLines, ClientStream>,
        slot: usize,
    ) {
        service.part(alloc, slot);
        if let Some(stream) = service.stream(slot) {
            self.leave(stream);
        }
    }

    /// Discards what it sends after its session. The system resets a stream that is closed while bytes of the client
    /// are unread, and the client may then be unable to read its last answers.
    pub(crate) fn discard<D: Disk>(
        &mut self,
        service: &mut Service<D, Hooks, RunnerLines, ClientStream>,
        slot: usize,
        buffer: &mut Vec<u8>,
        now: Instant,
    ) -> Next {
        for _ in 0..READS_OF_TURN {
            if self.discarded >= READS {
                return Next::Closes;
            }
            self.discarded += 1;
            match service.discard(slot, buffer) {
                Some(0) => return Next::Closes,
                Some(_) => self.moved = now,
                None => return next_unread(service.stream(slot)),
            }
        }
        Next::Again
    }
}

/// What a client does whose stream gave nothing.
fn next_unread(stream: Option<&ClientStream>) -> Next {
    match stream {
        Some(stream) if stream.input() == Input::Drained => Next::Waits,
        _ => Next::Closes,
    }
}
