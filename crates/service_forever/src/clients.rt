//! The clients of both ports, each in its slot, and those that are heard or answered in a turn.

use crate::client::Client;
use crate::stream::ClientStream;
use client_ports::{MAX_CLIENTS, Port};
use mio::event::Event;
use mio::unix::SourceFd;
use mio::{Interest, Registry, Token};
use std::alloc::{AllocError, Global};
use std::net::{TcpListener, TcpStream};
use std::os::fd::AsRawFd;
use std::time::Instant;
use std::{io, mem};

/// The number of ports. The tokens of their listeners come first, then those of the slots.
const PORTS: usize = 2;

/// How many slots the hook port has. One more is the service's own, and then come those of the runner port.
pub(crate) const HOOK_SLOTS: usize = MAX_CLIENTS + 1;

/// The slot in which the service itself is a client of the hook port. The port gives it to no connection.
pub(crate) const OWN_SLOT: usize = MAX_CLIENTS;

/// How many slots there are.
const SLOTS: usize = HOOK_SLOTS + MAX_CLIENTS;

fn token_of(slot: usize) -> Token {
    Token(slot.wrapping_add(PORTS))
}

/// The clients.
#[derive(Drop)]
pub(crate) struct Clients<'a> {
    hooks: Port<'a>,
    runners: Port<'a>,
    registry: Registry,
    slots: Vec<Option<Client>>,
    /// The slots of those that are heard next.
    queue: Vec<usize>,
    /// The slots of those that are being heard.
    batch: Vec<usize>,
    /// The slots of those that were heard in this turn, or whose answers waited.
    spoke: Vec<usize>,
}

/// Places without clients.
fn empty_slots(alloc: Global) -> Result<Vec<Option<Client>>, AllocError> {
    let mut slots: Vec<Option<Client>> = Vec::new(alloc);
    for _place in 0..SLOTS {
        slots.push(None)?;
    }
    Ok(slots)
}

/// An empty list with room for all slots.
fn list(alloc: Global) -> Result<Vec<usize>, AllocError> {
    Vec::with_capacity(alloc, SLOTS)
}

impl<'a> Clients<'a> {
    /// No clients of these ports. What is registered is reported by the poll of the registry.
    pub(crate) fn new(
        alloc: Global,
        hooks: &'a TcpListener,
        runners: &'a TcpListener,
        registry: Registry,
    ) -> Result<Clients<'a>, AllocError> {
        Ok(Clients {
            hooks: Port::new(alloc, hooks, 0)?,
            runners: Port::new(alloc, runners, HOOK_SLOTS)?,
            registry,
            slots: empty_slots(alloc)?,
            queue: list(alloc)?,
            batch: list(alloc)?,
            spoke: list(alloc)?,
        })
    }

    /// Registers both listeners, so that connections are reported.
    pub(crate) fn watch(&self) -> io::Result<()> {
        self.hooks.watch(&self.registry, Token(0))?;
        self.runners.watch(&self.registry, Token(1))
    }

    /// How many slots there are.
    pub(crate) fn len(&self) -> usize {
        self.slots.len()
    }

    /// How many clients the port of hooks and the port of runners have.
    pub(crate) fn taken(&self) -> (usize, usize) {
        (self.hooks.taken(), self.runners.taken())
    }

    /// Whether nobody waits to be heard.
    pub(crate) fn is_quiet(&self) -> bool {
        self.queue.is_empty()
    }

    /// How many are heard next.
    pub(crate) fn queued(&self) -> usize {
        self.queue.len()
    }

    /// How many were heard in this turn.
    pub(crate) fn spoken(&self) -> usize {
        self.spoke.len()
    }

    pub(crate) fn get(&mut self, slot: usize) -> Option<&mut Client> {
        self.slots.get_mut(slot)?.as_mut()
    }

    /// Whether a connection can be accepted at once.
    pub(crate) fn are_coming(&self) -> bool {
        self.hooks.is_busy() || self.runners.is_busy()
    }

    /// Lets connections be accepted that were not reported yet.
    pub(crate) fn call_in(&mut self) {
        self.hooks.reports();
        self.runners.reports();
    }

    /// Accepts a connection to a port, if one has come, and returns the slot of the new client with its stream.
    pub(crate) fn accept(
        &mut self,
        number: usize,
        now: Instant,
    ) -> io::Result<Option<(usize, ClientStream)>> {
        let accepted = if number == 0 {
            self.hooks.accept()?
        } else {
            self.runners.accept()?
        };
        let Some((stream, slot)) = accepted else {
            return Ok(None);
        };
        match self.add(stream, slot, now) {
            Ok(stream) => Ok(Some((slot, stream))),
            Err(_) => {
                self.vacate(slot);
                Ok(None)
            }
        }
    }

    /// Puts a client into its slot, and registers its stream, so that its input is reported, and that it takes more of
    /// its answers.
    fn add(&mut self, stream: TcpStream, slot: usize, now: Instant) -> io::Result<ClientStream> {
        let fd = stream.as_raw_fd();
        let stream = ClientStream::new(stream)?;
        let interest = Interest::READABLE | Interest::WRITABLE;
        self.registry
            .register(&mut SourceFd(&fd), token_of(slot), interest)?;
        if let Some(cell) = self.slots.get_mut(slot) {
            *cell = Some(Client::new(now));
        }
        Ok(stream)
    }

    /// Frees a slot.
    fn vacate(&mut self, slot: usize) {
        if slot < HOOK_SLOTS {
            self.hooks.vacate(slot);
        } else {
            self.runners.vacate(slot);
        }
    }

    /// The client in a slot has left: the slot is free.
    pub(crate) fn close(&mut self, slot: usize) {
        let Some(cell) = self.slots.get_mut(slot) else {
            return;
        };
        if cell.take().is_some() {
            self.vacate(slot);
        }
    }

    /// A listener or the stream of a client has reported something.
    pub(crate) fn note(&mut self, event: &Event) {
        let Token(number) = event.token();
        match number.checked_sub(PORTS) {
            Some(slot) => self.note_client(slot, event),
            None if number == 0 => self.hooks.reports(),
            None => self.runners.reports(),
        }
    }

    fn note_client(&mut self, slot: usize, event: &Event) {
        if let Some(client) = self.get(slot) {
            if client.is_concerned(event) {
                self.enqueue(slot);
            }
        }
    }

    /// Queues the client in a slot, if it is not queued yet.
    pub(crate) fn enqueue(&mut self, slot: usize) {
        if let Some(client) = self.get(slot) {
            if !client.is_queued {
                client.is_queued = true;
                let _ = self.queue.push(slot);
            }
        }
    }

    /// Makes those that are queued the ones that are being heard, and returns how many they are.
    pub(crate) fn call_up(&mut self) -> usize {
        self.batch.clear();
        mem::swap(&mut self.queue, &mut self.batch);
        self.batch.len()
    }

    /// One of those that are being heard, unless it was heard in this turn: then it is queued again.
    pub(crate) fn called(&mut self, index: usize) -> Option<usize> {
        let slot = *self.batch.get(index)?;
        let client = self.get(slot)?;
        client.is_queued = false;
        if client.has_spoken {
            self.enqueue(slot);
            return None;
        }
        Some(slot)
    }

    /// The client in a slot is answered at the end of this turn.
    pub(crate) fn speaks(&mut self, slot: usize) {
        if let Some(client) = self.get(slot) {
            client.has_spoken = true;
            let _ = self.spoke.push(slot);
        }
    }

    /// One of those that are answered in this turn.
    pub(crate) fn spoken_at(&mut self, index: usize) -> Option<usize> {
        let slot = *self.spoke.get(index)?;
        self.get(slot)?.has_spoken = false;
        Some(slot)
    }

    /// All clients were answered.
    pub(crate) fn end_turn(&mut self) {
        self.spoke.clear();
    }
}
