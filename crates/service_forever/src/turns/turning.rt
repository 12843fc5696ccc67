//! How a turn ends a history: its checkpoints, and the turn-over.

use crate::turns::Turns;
use act_disk::Disk;
use service_startup::tell_settled;
use std::io::Write;
use wf_value::{Code, Refusal};

/// The number of bytes that clients send and receive before a history turns over: 64 MiB. The history keeps them.
const MAX_BYTES: u64 = 67_108_864;

/// How many slices of a checkpoint a turn writes.
const SLICES: u64 = 4;

/// How many slices a turn writes if it has nothing else to do, or if the history is to turn over.
const MANY_SLICES: u64 = 16;

impl<D: Disk> Turns<'_, D> {
    /// Takes some steps of a checkpoint.
    pub(crate) fn checkpoint(&mut self) -> Result<(), Refusal> {
        let slices = if self.clients.is_quiet() || self.is_due() {
            MANY_SLICES
        } else {
            SLICES
        };
        self.checkpoints
            .advance(self.alloc, &mut self.service, slices)
    }

    /// Whether the history is to turn over.
    fn is_due(&self) -> bool {
        self.service.store().entries() >= self.limits.commands || self.bytes >= MAX_BYTES
    }

    /// Turns the history over if that is due and no checkpoint is in progress, and returns whether it has. Without memory for the next history
    /// it is tried again in the next turn.
    pub(crate) fn turn_over<O: Write>(&mut self, out: &mut O) -> Result<bool, Refusal> {
        if !self.is_due() || self.checkpoints.is_under_way() {
            return Ok(false);
        }
        let entries = self.service.store().entries();
        match self.service.turn_over() {
            Err(Refusal::Numbered(Code::NoMemory)) => Ok(false),
            Err(refusal) => Err(refusal),
            Ok(()) => {
                self.checkpoints.turn_over();
                if let Some(views) = &mut self.views {
                    views.turn_over();
                }
                self.bytes = 0;
                tell_settled(entries, out)?;
                Ok(true)
            }
        }
    }
}
