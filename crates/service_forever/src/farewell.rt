//! Ends the clients' sessions after a device failure: every request that has arrived is answered, and all streams are
//! closed.

use crate::client::Stage;
use crate::turns::Turns;
use act_disk::Disk;
use client_ports::Next;

/// How many times waiting connections are accepted. The system's queue holds fewer than a port has slots, so the second
/// round accepts those for which there was no slot in the first.
const ROUNDS: u64 = 2;

/// How many parts of what a client has sent are heard.
const PARTS: u64 = 64;

impl<D: Disk> Turns<'_, D> {
    /// Hears the client in a slot until something is withheld from it, or it has sent nothing more. Returns whether
    /// something is withheld.
    fn hear_out(&mut self, slot: usize) -> bool {
        for _ in 0..PARTS {
            if self.withheld(slot) > 0 {
                return true;
            }
            if self.hear_more(slot) == 0 {
                break;
            }
        }
        self.withheld(slot) > 0
    }

    /// Answers what a client has asked so far. No answer is sent to a command that the device has lost, except that the
    /// device has failed, and that ends its session.
    fn answer(&mut self, slot: usize) {
        if self.service.may_send(slot) {
            self.release(slot);
        } else if let Some(client) = self.clients.get(slot) {
            client.part(self.alloc, &mut self.service, slot);
        }
    }

    /// Discards what a client sends after its last answer, so that it can read that.
    fn see_off(&mut self, slot: usize) {
        for _ in 0..PARTS {
            let Some(client) = self.clients.get(slot) else {
                return;
            };
            if client.discard(&mut self.service, slot, &mut self.buffer, self.now) != Next::Again {
                return;
            }
        }
    }

    /// Whether the client in a slot may be heard.
    fn is_talking(&mut self, slot: usize) -> bool {
        match self.clients.get(slot) {
            Some(client) => client.stage() == Stage::Talks,
            None => false,
        }
    }

    /// Ends the session of the client in a slot: what it has sent is heard and answered, until an answer ends the session.
    fn part_with(&mut self, slot: usize) {
        for _ in 0..PARTS {
            if !self.is_talking(slot) || !self.hear_out(slot) {
                break;
            }
            self.answer(slot);
        }
        self.see_off(slot);
        self.close(slot);
    }
}

/// Ends the sessions of all clients that have connected, including those in the system's queue.
pub(crate) fn part_with_all<D: Disk>(turns: &mut Turns<'_, D>) {
    for _ in 0..ROUNDS {
        turns.accept_all();
        for slot in 0..turns.clients.len() {
            turns.part_with(slot);
        }
    }
    turns.part_with_viewers();
}
