//! The turns of a service without end. In each one every client that has sent something is heard, all that they asked is
//! committed at once, and then all are answered.

mod answering;
mod hearing;
mod showing;
mod turning;

ghost use Rattle.std.specs.Prelude.{◌≡◌};

use crate::checkpoints::Checkpoints;
use crate::clients::Clients;
use crate::limits::Limits;
use crate::linger::Linger;
use crate::stream::ClientStream;
use act_disk::Disk;
use client_loop::Service;
use client_ports::Next;
use mio::Token;
use mio::event::Event;
use runner_sessions::RunnerLines;
use std::alloc::Global;
use std::time::{Clock, Duration, Instant};
use view_port::{FIRST_TOKEN, Views};
use webhook_sessions::Hooks;

/// How long a silent service waits for an event, in milliseconds.
const LONG_WAIT: u64 = 1_000;

/// How long it waits while clients leave, or answers wait.
const SHORT_WAIT: u64 = 250;

/// All that a turn needs.
#[derive(Drop)]
pub(crate) struct Turns<'a, D: Disk> {
    pub(crate) alloc: Global,
    pub(crate) service: Service<D, Hooks, RunnerLines, ClientStream>,
    pub(crate) clients: Clients<'a>,
    /// The clients of the view port, if there is one.
    views: Option<Views<'a>>,
    /// What is read at a time.
    pub(crate) buffer: Vec<u8>,
    checkpoints: Checkpoints,
    pub(crate) linger: Linger,
    pub(crate) limits: Limits,
    /// The bytes of the requests that were answered in this turn.
    pending: u64,
    /// The bytes that clients have sent and received in this history.
    bytes: u64,
    /// The time of this turn.
    pub(crate) now: Instant,
    /// When its first clients were heard.
    began: Instant,
    /// When the last commit ended, in milliseconds since 1970.
    committed: u64,
    /// When it was last seen what clients have sent and taken.
    looked: Instant,
    /// When silent clients were last looked for.
    swept: Instant,
    /// Whether clients leave, or answers wait.
    is_restless: bool,
}

impl<'a, D: Disk> Turns<'a, D> {
    /// The turns of a service that begins now.
    pub(crate) fn new(
        alloc: Global,
        now: Instant,
        limits: Limits,
        service: Service<D, Hooks, RunnerLines, ClientStream>,
        clients: Clients<'a>,
        views: Option<Views<'a>>,
        buffer: Vec<u8>,
    ) -> Turns<'a, D>
        ensures { result.service ≡ service }
    {
        Turns {
            alloc,
            service,
            clients,
            views,
            buffer,
            checkpoints: Checkpoints::new(),
            linger: Linger::new(),
            limits,
            pending: 0,
            bytes: 0,
            now,
            began: now,
            committed: 0,
            looked: now,
            swept: now,
            is_restless: false,
        }
    }

    /// How long the service may wait for an event.
    pub(crate) fn patience(&self) -> Duration {
        let is_busy = self.clients.are_coming() || !self.clients.is_quiet();
        if is_busy || self.are_looked_at() || self.checkpoints.is_under_way() {
            return Duration::ZERO;
        }
        let since = self.now.saturating_duration_since(self.swept);
        let rest = Duration::from_millis(self.pause()).saturating_sub(since);
        match self.until_due() {
            Some(due) if due < rest => due,
            _ => rest,
        }
    }

    /// How long until a client of the view port has waited for changes for long enough, if one waits.
    fn until_due(&self) -> Option<Duration> {
        let due = self.views.as_ref()?.due()?;
        Some(due.saturating_duration_since(self.now))
    }

    /// Whether a client of the view port is to be served.
    fn are_looked_at(&self) -> bool {
        match &self.views {
            Some(views) => views.is_busy(),
            None => false,
        }
    }

    /// A listener or the stream of a client has reported something.
    pub(crate) fn note(&mut self, event: &Event) {
        let Token(number) = event.token();
        match (number.checked_sub(FIRST_TOKEN), &mut self.views) {
            (Some(number), Some(views)) => views.note(number, event),
            _ => self.clients.note(event),
        }
    }

    /// How often silent clients are looked for, in milliseconds.
    fn pause(&self) -> u64 {
        if self.is_restless || self.checkpoints.is_under_way() {
            SHORT_WAIT
        } else {
            LONG_WAIT
        }
    }

    /// A new turn. If the clock cannot be read, it has the time of the last one.
    pub(crate) fn begin(&mut self, clock: &impl Clock) {
        if let Ok(now) = Instant::now(clock) {
            self.now = now;
        }
    }

    /// What clients have sent and taken by now was seen.
    pub(crate) fn has_looked(&mut self) {
        self.looked = self.now;
    }

    /// The turn has heard its first clients.
    pub(crate) fn has_begun(&mut self) {
        self.began = self.now;
    }

    /// Closes the stream of the client in a slot, and frees the slot.
    pub(crate) fn close(&mut self, slot: usize) {
        self.service.leave(slot);
        self.clients.close(slot);
    }

    /// What happens next to the client in a slot.
    fn go_on(&mut self, slot: usize, next: Next) {
        match next {
            Next::Again => self.clients.enqueue(slot),
            Next::Waits => {}
            Next::Closes => self.close(slot),
        }
    }

    /// How many bytes of answers are withheld from the client in a slot.
    pub(crate) fn withheld(&self, slot: usize) -> usize {
        match self.service.status(slot) {
            Some(status) => status.withheld,
            None => 0,
        }
    }
}
