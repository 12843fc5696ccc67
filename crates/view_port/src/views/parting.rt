//! Ends the sessions of the view port after a device failure: what clients have asked by then is answered with that.

use crate::views::Views;
use client_ports::MAX_CLIENTS;
use std::alloc::Global;
use std::time::Instant;

impl Views<'_> {
    /// Accepts all connections that have come.
    fn accept_all(&mut self, alloc: Global, now: Instant) {
        self.port.reports();
        for _ in 0..MAX_CLIENTS {
            match self.accept(alloc, now) {
                Ok(true) => {}
                _ => return,
            }
        }
    }

    /// Answers what clients have asked, and closes their streams.
    pub fn part_with_all(&mut self, alloc: Global, buffer: &mut Vec<u8>, now: Instant) {
        self.accept_all(alloc, now);
        for slot in 0..self.slots.len() {
            if let Some(viewer) = self.get(slot) {
                viewer.part(alloc, buffer, now);
                self.close(slot);
            }
        }
    }
}
