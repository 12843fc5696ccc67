ghost use Rattle.std.specs.Prelude.{◌≡◌, ◌+◌, ◌<◌, ◌≤◌, ◌^◌, length, vec_len};
ghost use Rattle.gated_journal.specs.Appends.{record_of, body_in};
ghost use Rattle.gated_journal.specs.Lengths.{frame_length};

use crate::gate::CLOSED;
use crate::lengths::{FRAME, LENGTH};
use std::marker::Model;

/// A record as an append writes it: a length-prefixed body and a closed gate. Contracts see the body.
#[derive(Drop)]
pub struct Record {
    bytes: Vec<u8>,
}

impl Model for Record {
    ghost use Rattle.std.specs.Prelude.{List, ℕ};
    ghost use Rattle.gated_journal.specs.Appends.{body_in, IsRecord};

    ghost Value = { List ℕ };

    ghost view = { λ r. body_in r.bytes.items };

    ghost invariant = { λ r. IsRecord r.bytes.items };
}

impl Record {
    /// The record whose body lies between the first four bytes and the last one; these five may have any value. Takes no memory.
    /// Promise (Areas and records): A record is a length, the body and a closed gate; making it takes no memory
    /// By: `gated_journal::Record::{of, as_slice, into_bytes}`
    pub fn of(bytes: Vec<u8>) -> Record
        requires long { frame_length ≤ vec_len bytes }
        requires short { vec_len bytes < 2 ^ 32 + frame_length }
        ensures { result ≡ body_in bytes.items }
    {
        let mut bytes = bytes;
        frame(bytes.as_mut_slice());
        Record { bytes }
    }

    /// The encoded bytes.
    pub fn as_slice(&self) -> &[u8]
        ensures bytes { result.now ≡ record_of self.now }
        ensures short { length self.now < 2 ^ 32 }
    {
        self.bytes.as_slice()
    }

    /// Returns the buffer, with its capacity.
    pub fn into_bytes(self) -> Vec<u8>
        ensures { result.items ≡ record_of self }
    {
        let Record { bytes } = self;
        bytes
    }
}

/// Writes the length of the body into the first four bytes, and a closed gate into the last one.
fn frame(bytes: &mut [u8])
    requires long { frame_length ≤ length bytes.old }
    requires short { length bytes.old < 2 ^ 32 + frame_length }
    ensures { bytes.new ≡ record_of (body_in bytes.old) }
{
    let count = bytes.len() - FRAME as usize;
    let number = (count as u32).to_be_bytes();
    bytes[0] = number[0];
    bytes[1] = number[1];
    bytes[2] = number[2];
    bytes[3] = number[3];
    bytes[count + LENGTH as usize] = CLOSED;
}
