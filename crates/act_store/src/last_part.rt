ghost use Rattle.std.specs.Prelude.{◌≡◌, ◌+◌, ◌-◌, ◌<◌, ◌≤◌, ◌^◌, [], ◌++◌, drop, length, slice_set, take, IfOk, OnErr, OnOk};
ghost use Rattle.act_store.specs.PendingBatch.{count_length};
ghost use Rattle.act_store.specs.inner.LastPart.{front_bytes, front_of, written_part};

use crate::pending_batch::COUNT;
use gated_journal::OPEN;
use gated_journal::lengths::{GATE, LENGTH};
use std::alloc::{AllocError, Global};
use std::marker::Model;

/// The offset of the command count: after the gate and the length of the record.
const COUNT_AT: usize = (GATE + LENGTH) as usize;

/// The offset of the commands.
const COMMANDS: usize = COUNT_AT + COUNT as usize;

/// The length without commands: what precedes them, and the gate after them.
const EMPTY: usize = COMMANDS + GATE as usize;

/// The last part that a checkpoint writes: one record of the entries since it was begun, and the gate after it. It grows with each of
/// these entries; what precedes their commands is filled in when they are all there.
///
/// Contracts see what precedes the commands, and the encodings.
#[derive(Drop)]
pub struct LastPart {
    bytes: Vec<u8>,
}

impl Model for LastPart {
    ghost use Rattle.act_store.specs.inner.LastPart.{IsLastPart, LastState, last_state};

    ghost Value = { LastState };

    ghost view = { λ part. last_state part.bytes.items };

    ghost invariant = { λ part. IsLastPart part.bytes.items };
}

impl LastPart {
    /// The last part of no entries.
    pub(crate) fn new(alloc: Global) -> Result<LastPart, AllocError>
        ensures { IfOk result (λ part. part.encoded ≡ []) }
    {
        let bytes = vec![in alloc; 0; EMPTY]?;
        Ok(LastPart { bytes })
    }

    /// The length of the encodings in bytes.
    pub(crate) fn encoded_len(&self) -> u64
        ensures length { result ≡ length self.now.encoded }
        ensures most { result < 2 ^ 63 }
    {
        (self.bytes.len() - EMPTY) as u64
    }

    /// Adds the encoding of a command. Running out of memory changes nothing.
    pub(crate) fn add(&mut self, encoded: &[u8]) -> Result<(), AllocError>
        ensures added { OnOk result (self.new ≡ record self.old { encoded = self.old.encoded ++ encoded.now }) }
        ensures unchanged { OnErr result (self.new ≡ self.old) }
    {
        self.bytes.reserve(encoded.len())?;
        // The gate leaves its place to the command, and a new one follows.
        self.bytes.truncate(self.bytes.len() - 1);
        let added = self.bytes.extend_from_slice(encoded);
        self.bytes.push_reserved(0);
        added
    }

    /// Takes the last `count` bytes of the encodings off.
    pub(crate) fn take_off(&mut self, count: usize)
        requires { count ≤ length self.old.encoded }
        ensures { self.new ≡ record self.old { encoded = take (length self.old.encoded - count) self.old.encoded } }
    {
        self.bytes.truncate(self.bytes.len() - count);
        shut_last(self.bytes.as_mut_slice());
    }

    /// Fills in what precedes the commands, whose number is `count`.
    pub(crate) fn fill_in(&mut self, count: usize)
        requires few { count < 2 ^ 32 }
        requires short { count_length + length self.old.encoded < 2 ^ 32 }
        ensures { self.new ≡ record self.old { front = front_of count self.old.encoded } }
    {
        let body = self.bytes.len() - EMPTY + COUNT as usize;
        write_front(self.bytes.as_mut_slice(), body as u32, count as u32);
    }

    /// What is written: without commands the gate alone.
    pub(crate) fn as_slice(&self) -> &[u8]
        ensures { result.now ≡ written_part self.now }
    {
        if self.bytes.len() == EMPTY {
            return &self.bytes[EMPTY - 1..];
        }
        self.bytes.as_slice()
    }
}

/// Makes the last byte a closed gate.
fn shut_last(bytes: &mut [u8])
    requires { 0 < length bytes.old }
    ensures { bytes.new ≡ slice_set bytes.old (length bytes.old - 1) 0 }
{
    let last = bytes.len() - 1;
    bytes[last] = 0;
}

/// Writes an open gate, the length of a body and the number of its commands into the first bytes.
fn write_front(bytes: &mut [u8], body: u32, count: u32)
    requires { 9 ≤ length bytes.old }
    ensures { bytes.new ≡ front_bytes body count ++ drop 9 bytes.old }
{
    bytes[..COMMANDS].copy_from_slice(&front(body, count));
}

/// An open gate, the length of a body and the number of its commands.
fn front(body: u32, count: u32) -> [u8; 9]
    ensures { result ≡ front_bytes body count }
{
    let body = body.to_be_bytes();
    let count = count.to_be_bytes();
    [
        OPEN, body[0], body[1], body[2], body[3], count[0], count[1], count[2], count[3],
    ]
}
