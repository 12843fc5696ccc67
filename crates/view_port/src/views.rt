//! The clients of the view port, and what they are shown.

mod parting;

use crate::viewer::{Viewer, Waiting};
use act_disk::Disk;
use act_store::Store;
use client_ports::{MAX_CLIENTS, Next, Port};
use mio::event::Event;
use mio::unix::SourceFd;
use mio::{Interest, Registry, Token};
use run_table::Table;
use service_views::{Board, Kept, Made, Seen};
use std::alloc::{AllocError, Global};
use std::collections::VecDeque;
use std::net::{TcpListener, TcpStream};
use std::time::{Duration, Instant};
use std::{io, mem};
use wf_value::{Code, Refusal};

/// The token of the listener. Those of the clients follow it.
pub const FIRST_TOKEN: usize = 3 + 2 * MAX_CLIENTS;

/// The port to look at a service, and the version of the program and the board that it shows.
#[derive(Clone, Copy)]
pub struct ViewPort<'a> {
    pub listener: &'a TcpListener,
    pub version: &'a str,
    pub board: &'a Board,
}

/// The clients of the view port, with what is kept for them.
#[derive(Drop)]
pub struct Views<'a> {
    port: Port<'a>,
    pub version: &'a str,
    pub board: &'a Board,
    registry: Registry,
    slots: Vec<Option<Viewer>>,
    /// The slots of those that are served next.
    queue: VecDeque<usize>,
    /// The slots of those that wait for changes.
    waiting: Vec<usize>,
    /// When the first of them has waited for long enough, or earlier.
    due: Option<Instant>,
    kept: Kept,
}

/// The refusal for a failed system call.
fn refusal_of(_: &io::Error) -> Refusal {
    Refusal::Numbered(Code::StreamFailed)
}

/// Places without clients.
fn empty_slots(alloc: Global) -> Result<Vec<Option<Viewer>>, AllocError> {
    let mut slots: Vec<Option<Viewer>> = Vec::new(alloc);
    for _place in 0..MAX_CLIENTS {
        slots.push(None)?;
    }
    Ok(slots)
}

impl<'a> Views<'a> {
    /// The views of a service that begins now.
    pub fn new(
        alloc: Global,
        port: ViewPort<'a>,
        registry: Registry,
        process: u64,
        now: Instant,
        table: &Table,
    ) -> Result<Views<'a>, AllocError> {
        Ok(Views {
            port: Port::new(alloc, port.listener, 0)?,
            version: port.version,
            board: port.board,
            registry,
            slots: empty_slots(alloc)?,
            queue: VecDeque::with_capacity(alloc, MAX_CLIENTS)?,
            waiting: Vec::with_capacity(alloc, MAX_CLIENTS)?,
            due: None,
            kept: Kept::new(alloc, process, now, table)?,
        })
    }

    /// Registers the listener, so that connections are reported.
    pub fn watch(&self) -> Result<(), Refusal> {
        self.port
            .watch(&self.registry, Token(FIRST_TOKEN))
            .map_err(|e| refusal_of(&e))
    }

    // ---- clients

    /// Whether a client is to be served, or a connection to be accepted.
    pub fn is_busy(&self) -> bool {
        !self.queue.is_empty() || self.port.is_busy()
    }

    fn get(&mut self, slot: usize) -> Option<&mut Viewer> {
        self.slots.get_mut(slot)?.as_mut()
    }

    /// The listener or the stream of a client has reported something. `number` counts from the listener's token.
    pub fn note(&mut self, number: usize, event: &Event) {
        let Some(slot) = number.checked_sub(1) else {
            self.port.reports();
            return;
        };
        if let Some(viewer) = self.get(slot) {
            viewer.note(event);
            self.enqueue(slot);
        }
    }

    /// Queues the client in a slot, if it is not queued yet.
    fn enqueue(&mut self, slot: usize) {
        if let Some(viewer) = self.get(slot) {
            if !viewer.is_queued {
                viewer.is_queued = true;
                let _ = self.queue.push_back(slot);
            }
        }
    }

    /// Accepts a connection, if one has come.
    pub fn accept(&mut self, alloc: Global, now: Instant) -> Result<bool, Refusal> {
        let accepted = self.port.accept().map_err(|e| refusal_of(&e))?;
        let Some((stream, slot)) = accepted else {
            return Ok(false);
        };
        if self.add(alloc, stream, slot, now).is_err() {
            self.port.vacate(slot);
        }
        Ok(true)
    }

    /// Puts a client into its slot, registers its stream, and queues it.
    fn add(
        &mut self,
        alloc: Global,
        stream: TcpStream,
        slot: usize,
        now: Instant,
    ) -> io::Result<()> {
        let viewer = Viewer::new(alloc, stream, now)?;
        let fd = viewer.fd();
        let token = Token(slot.saturating_add(FIRST_TOKEN + 1));
        let interest = Interest::READABLE | Interest::WRITABLE;
        self.registry.register(&mut SourceFd(&fd), token, interest)?;
        if let Some(cell) = self.slots.get_mut(slot) {
            *cell = Some(viewer);
        }
        self.enqueue(slot);
        Ok(())
    }

    /// Closes the stream of the client in a slot, and frees the slot.
    fn close(&mut self, slot: usize) {
        if let Some(cell) = self.slots.get_mut(slot) {
            *cell = None;
        }
        self.waiting.retain(|waiting| *waiting != slot);
        self.port.vacate(slot);
    }

    /// Closes the clients that had been silent for too long when they were last looked at. Returns whether clients leave, or
    /// answers wait.
    pub fn sweep(&mut self, now: Instant, idle: Duration) -> bool {
        let mut is_restless = false;
        for slot in 0..self.slots.len() {
            let Some(viewer) = self.get(slot) else {
                continue;
            };
            if !viewer.is_idle(now, idle) {
                is_restless = is_restless || viewer.is_restless();
            } else if viewer.takes_more(now) {
                self.enqueue(slot);
            } else {
                self.close(slot);
            }
        }
        is_restless
    }

    /// How many clients there are.
    pub fn clients(&self) -> usize {
        self.port.taken()
    }

    /// A commit took so long.
    pub fn committed(&mut self, took: Duration) {
        self.kept.committed(took);
    }

    /// A new history has begun.
    pub fn turn_over(&mut self) {
        self.kept.turn_over();
    }

    // ---- those that wait for changes

    /// When a client that waits for changes is to be served at the latest, if one waits.
    pub fn due(&self) -> Option<Instant> {
        self.due
    }

    /// Whether a client that waits for changes is to be served by a moment.
    fn is_due_by(&self, moment: Instant) -> bool {
        match &self.due {
            Some(due) => *due <= moment,
            None => false,
        }
    }

    /// A client waits for changes until a moment.
    fn note_due(&mut self, until: Instant) {
        if !self.is_due_by(until) {
            self.due = Some(until);
        }
    }

    /// Queues those whose wait is over before all others.
    pub fn call_due(&mut self, now: Instant) {
        if !self.is_due_by(now) {
            return;
        }
        self.due = None;
        for slot in 0..self.slots.len() {
            self.call(slot, now);
        }
    }

    /// Queues the client in a slot before the others if its wait is over.
    fn call(&mut self, slot: usize, now: Instant) {
        let Some(viewer) = self.get(slot) else {
            return;
        };
        let Some(waiting) = viewer.waiting else {
            return;
        };
        if waiting.until > now {
            self.note_due(waiting.until);
        } else if !viewer.is_queued {
            viewer.is_queued = true;
            let _ = self.queue.push_front(slot);
        }
    }

    // ---- what they are shown

    /// Takes up what was made durable since the last time, at a time in milliseconds since 1970, and queues those that wait for it.
    pub fn take_up<D: Disk>(&mut self, alloc: Global, store: &Store<D>, at: u64, now: Instant) {
        if !self.kept.take_up(alloc, store, at, now) {
            return;
        }
        let mut waiting = Vec::new(alloc);
        mem::swap(&mut waiting, &mut self.waiting);
        for slot in &waiting {
            self.enqueue(*slot);
        }
    }

    /// Lets the client in a slot wait for changes, or gives it an answer.
    fn give(
        &mut self,
        alloc: Global,
        slot: usize,
        made: Made,
        head_only: bool,
        closes: bool,
        now: Instant,
    ) {
        let Some(viewer) = self.get(slot) else {
            return;
        };
        match made {
            Made::Answer(answer) => viewer.answer(alloc, &answer, head_only, closes),
            Made::Waits(query) => {
                let until = now
                    .checked_add(Duration::from_secs(query.wait))
                    .unwrap_or(now);
                viewer.waiting = Some(Waiting {
                    query,
                    until,
                    closes,
                });
                let _ = self.waiting.push(slot);
                self.note_due(until);
            }
        }
    }

    /// Gives the client in a slot that waits for changes an answer, if there is one by now.
    fn serve_waiting(&mut self, alloc: Global, slot: usize, waiting: Waiting, is_over: bool) {
        match self.kept.made_later(alloc, waiting.query, is_over) {
            Made::Answer(answer) => {
                self.waiting.retain(|other| *other != slot);
                if let Some(viewer) = self.get(slot) {
                    viewer.waiting = None;
                    viewer.answer(alloc, &answer, false, waiting.closes);
                }
            }
            Made::Waits(_) => {
                if !self.waiting.contains(&slot) {
                    let _ = self.waiting.push(slot);
                }
            }
        }
    }

    /// Serves the client in a slot: takes its next request, answers it, and sends it what it takes of the answer.
    fn serve(&mut self, alloc: Global, slot: usize, seen: Seen<'_>, buffer: &mut Vec<u8>) {
        let now = seen.now;
        let Some(viewer) = self.get(slot) else {
            return;
        };
        viewer.is_queued = false;
        if let Some(waiting) = viewer.waiting {
            let is_over = viewer.has_waited(now);
            self.serve_waiting(alloc, slot, waiting, is_over);
        } else if let Some(request) = viewer.next(alloc, buffer, now) {
            let made = self.kept.made(alloc, seen, &request);
            self.give(alloc, slot, made, request.head_only, request.closes, now);
        }
        let Some(viewer) = self.get(slot) else {
            return;
        };
        match viewer.go_on(buffer, now) {
            Next::Again => self.enqueue(slot),
            Next::Waits => {}
            Next::Closes => self.close(slot),
        }
    }

    /// Serves the client that has waited for the longest. Returns false if there is none.
    pub fn serve_next(&mut self, alloc: Global, seen: Seen<'_>, buffer: &mut Vec<u8>) -> bool {
        let Some(slot) = self.queue.pop_front() else {
            return false;
        };
        self.serve(alloc, slot, seen, buffer);
        true
    }
}
