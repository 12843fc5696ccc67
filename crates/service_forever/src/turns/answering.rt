//! How a turn answers clients: all that they asked is made durable at once, and each is sent what it takes.

use crate::client::Stage;
use crate::turns::Turns;
use act_disk::Disk;
use std::time::Duration;
use wf_value::Refusal;

impl<D: Disk> Turns<'_, D> {
    /// Makes all that was asked durable.
    pub(crate) fn commit(&mut self) -> Result<(), Refusal> {
        self.service.commit()?;
        Ok(())
    }

    /// Answers those that were heard.
    pub(crate) fn release_all(&mut self) {
        for index in 0..self.clients.spoken() {
            if let Some(slot) = self.clients.spoken_at(index) {
                self.release(slot);
            }
        }
        self.clients.end_turn();
        self.pending = 0;
    }

    /// Sends the client in a slot its answers, as many as it takes.
    pub(crate) fn release(&mut self, slot: usize) {
        let Some(client) = self.clients.get(slot) else {
            return;
        };
        let released = client.release(&mut self.service, slot, self.now);
        self.is_restless = self.is_restless || client.stage() != Stage::Talks;
        self.bytes = self.bytes.saturating_add(released.count as u64);
        self.go_on(slot, released.next);
    }

    /// Sends the client in a slot more of the answers that wait for it, if it takes more.
    fn send_more(&mut self, slot: usize) {
        if let Some(client) = self.clients.get(slot) {
            if client.stage() == Stage::Owes {
                self.release(slot);
            }
        }
    }

    /// Closes the client in a slot if it had been silent for too long.
    fn look_at(&mut self, slot: usize) {
        self.send_more(slot);
        let Some(client) = self.clients.get(slot) else {
            return;
        };
        if client.is_idle(self.looked, self.limits.idle) {
            self.close(slot);
        } else if client.stage() != Stage::Talks {
            self.is_restless = true;
        }
    }

    /// Closes the clients that had been silent for too long when they were last looked at. What they do while the device takes
    /// its time is seen only later.
    pub(crate) fn sweep(&mut self) {
        let since = self.now.saturating_duration_since(self.swept);
        if since < Duration::from_millis(self.pause()) {
            return;
        }
        self.swept = self.now;
        self.is_restless = false;
        for slot in 0..self.clients.len() {
            self.look_at(slot);
        }
        if let Some(views) = &mut self.views {
            self.is_restless = views.sweep(self.looked, self.limits.idle) || self.is_restless;
        }
    }
}
