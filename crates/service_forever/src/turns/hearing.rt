//! How a turn hears clients: those that connect, and those that have sent something.

use crate::client::Stage;
use crate::stream::ClientStream;
use crate::turns::Turns;
use act_disk::Disk;
use act_store::MAX_ENTRIES;
use client_loop::MAX_REQUESTS;
use client_ports::MAX_CLIENTS;
use wf_value::{Code, Refusal};

/// The part of the room for records that the requests of a turn may take, as a divisor. A command takes at most five
/// times the bytes of its line.
const PART: u64 = 8;

/// The most entries of a turn: 16 requests of each client.
const TURN: u64 = MAX_REQUESTS * 2 * MAX_CLIENTS as u64;

/// The most connections that a turn accepts on a port.
pub(crate) const ACCEPTED: u64 = 64;

impl<D: Disk> Turns<'_, D> {
    /// Accepts the connections that have come to a port.
    pub(crate) fn accept(&mut self, number: usize) -> Result<(), Refusal> {
        for _ in 0..ACCEPTED {
            match self.clients.accept(number, self.now) {
                Ok(Some((slot, stream))) => self.join(slot, stream),
                Ok(None) => break,
                Err(_) => return Err(Refusal::Numbered(Code::StreamFailed)),
            }
        }
        Ok(())
    }

    /// Accepts all connections that have come, also those of the system's queue that were not reported yet.
    pub(crate) fn accept_all(&mut self) {
        self.clients.call_in();
        for _ in 0..MAX_CLIENTS {
            if self.accept(0).is_err() || self.accept(1).is_err() {
                return;
            }
        }
    }

    /// Begins the session of the client in a slot. It has no place where another one still has the slot.
    fn join(&mut self, slot: usize, stream: ClientStream) {
        if !self.service.join(self.alloc, slot, stream) {
            self.clients.close(slot);
        }
    }

    /// Whether more clients may be heard before a commit: what was asked takes a small part of the room that is left for
    /// its record, and the history has room for a whole turn.
    pub(crate) fn has_room(&self) -> bool {
        let store = self.service.store();
        let is_small = self.pending == 0 || self.pending < store.room() / PART;
        is_small && store.entries() < MAX_ENTRIES as u64 - TURN
    }

    /// Hears those that wait to be heard. For those for whom there is no room this is later.
    pub(crate) fn hear_all(&mut self) {
        for index in 0..self.clients.call_up() {
            if let Some(slot) = self.clients.called(index) {
                if self.has_room() {
                    self.hear(slot);
                } else {
                    self.clients.enqueue(slot);
                }
            }
        }
    }

    /// Hears the client in a slot, or has it take its answers.
    fn hear(&mut self, slot: usize) {
        let Some(client) = self.clients.get(slot) else {
            return;
        };
        match client.stage() {
            Stage::Talks => {
                self.hear_more(slot);
                self.after_hearing(slot);
            }
            Stage::Owes => self.clients.speaks(slot),
            Stage::Leaves => {
                let next = client.discard(&mut self.service, slot, &mut self.buffer, self.now);
                self.go_on(slot, next);
            }
        }
    }

    /// Hears the next part of the session of the client in a slot. Returns how many bytes were read.
    pub(crate) fn hear_more(&mut self, slot: usize) -> usize {
        let Some(client) = self.clients.get(slot) else {
            return 0;
        };
        let count = client.hear(
            self.alloc,
            &mut self.service,
            slot,
            &mut self.buffer,
            self.now,
        );
        self.bytes = self.bytes.saturating_add(count as u64);
        count
    }

    /// A client that was heard is answered at the end of the turn, if there is an answer.
    fn after_hearing(&mut self, slot: usize) {
        let is_answered = self.withheld(slot) > 0;
        let Some(client) = self.clients.get(slot) else {
            return;
        };
        if is_answered {
            self.pending = self.pending.saturating_add(client.was_answered() as u64);
            self.clients.speaks(slot);
        } else {
            let next = client.next_in(&self.service, slot);
            self.is_restless = self.is_restless || client.stage() != Stage::Talks;
            self.go_on(slot, next);
        }
    }
}
