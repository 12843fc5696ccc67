ghost use Rattle.std.specs.Prelude.{◌≡◌, ◌+◌, ◌<◌, ◌≤◌, ◌^◌, ◌==◌, List, [], ◌∷◌, ◌++◌, length, take, drop, vec_len, IfErr};
ghost use Rattle.std.specs.Prelude.{IfOk, IfSome, OnErr, OnOk, None};
ghost use Rattle.std.specs.Int.{to_be_bytes, w32};
ghost use Rattle.wf_value.specs.Gives.{no_memory};
ghost use Rattle.gated_journal.specs.Appends.{body_in, record_of};
ghost use Rattle.gated_journal.specs.Lengths.{body_number_length, frame_length};
ghost use Rattle.run_plan.specs.declared.command.Command.{Command};
ghost use Rattle.command_encodings.specs.Commands.{IsEncoded, command_bytes};
ghost use Rattle.act_store.specs.Plain.{batch_length};
ghost use Rattle.act_store.specs.PendingBatch.{batch_state_of, body_of, count_length, with_command};
ghost use Rattle.act_store.specs.inner.PendingRecord.{CountsFew, IsWithCommand, body_held, encoded_between, encoded_in};

use gated_journal::Record;
use gated_journal::lengths::{FRAME, LENGTH};
use run_plan::Command;
use std::alloc::{AllocError, Global};
use std::marker::Model;
use table_text::{command_length, extend_batch};
use wf_value::Refusal;

/// The length of the number that counts a record's commands. It stands before their encodings.
pub(crate) const COUNT: u64 = 4;

/// The offset of the command count in a record: after its length.
const COUNT_AT: usize = LENGTH as usize;

/// The length of a record without commands.
const EMPTY: usize = (FRAME + COUNT) as usize;

/// The pending commands, encoded in their record, which grows in place.
///
/// Contracts see the number of commands and their encodings.
#[derive(Drop)]
pub struct PendingBatch {
    /// The record. There is none before the first command. A record without commands keeps its capacity.
    record: Option<Record>,
    /// The number of commands in it.
    count: u32,
}

impl Model for PendingBatch {
    ghost use Rattle.act_store.specs.PendingBatch.{BatchState};
    ghost use Rattle.act_store.specs.inner.PendingRecord.{IsRecordOf, encoded_in};

    ghost Value = { BatchState };

    ghost view = { λ w. record { count = w.count; encoded = encoded_in w.record } };

    ghost invariant = { λ w. IsRecordOf w.count w.record };
}

impl PendingBatch {
    /// No pending commands. Takes no memory.
    pub(crate) fn new() -> PendingBatch
        ensures { result ≡ batch_state_of [] }
    {
        PendingBatch {
            record: None,
            count: 0,
        }
    }

    pub(crate) fn is_empty(&self) -> bool
        ensures { result ≡ (self.now.count == 0) }
    {
        self.count == 0
    }

    /// The number of pending commands.
    pub(crate) fn count(&self) -> u32
        ensures { result ≡ self.now.count }
    {
        self.count
    }

    /// The length of their encodings in bytes.
    pub(crate) fn encoded_len(&self) -> usize
        ensures length { result ≡ length self.now.encoded }
        ensures most { result < 2 ^ 32 }
    {
        match &self.record {
            Some(record) => record.as_slice().len() - EMPTY,
            None => 0,
        }
    }

    /// The length of the batch of the commands with one more.
    pub(crate) fn batch_length_with(&self, command: &Command) -> u64
        ensures length { (commands : List Command) → self.now ≡ batch_state_of commands
            → result ≡ batch_length (commands ++ command.now ∷ []) }
        ensures most { result < 2 ^ 33 }
    {
        COUNT + self.encoded_len() as u64 + command_length(command)
    }

    /// The record of the commands, if any are pending.
    pub(crate) fn as_slice(&self) -> &[u8]
        ensures bytes { 0 < self.now.count → result.now ≡ record_of (body_of self.now) }
        ensures short { 0 < self.now.count → length (body_of self.now) < 2 ^ 32 }
    {
        match &self.record {
            Some(record) => record.as_slice(),
            None => &[],
        }
    }

    /// The encodings from an offset in them on.
    pub(crate) fn encoded_from(&self, from: usize) -> &[u8]
        requires { from ≤ length self.now.encoded }
        ensures { result.now ≡ drop from self.now.encoded }
    {
        match &self.record {
            Some(record) => {
                let bytes = record.as_slice();
                &bytes[COUNT_AT + COUNT as usize + from..bytes.len() - 1]
            }
            None => &[],
        }
    }

    /// Adds a command. Running out of memory changes nothing.
    pub(crate) fn add(&mut self, alloc: Global, command: &Command) -> Result<(), Refusal>
        requires few { self.old.count + 1 < 2 ^ 32 }
        requires fits { count_length + length self.old.encoded + length (command_bytes command.now) < 2 ^ 32 }
        ensures added { OnOk result (self.new ≡ with_command self.old command.now) }
        ensures encoded { OnOk result (IsEncoded command.now) }
        ensures unchanged { OnErr result (self.new ≡ self.old) }
        ensures refused { IfErr result (λ e. e ≡ no_memory) }
    {
        let mut bytes = bytes_of(alloc, self.record.take())?;
        let added = append(&mut bytes, command);
        self.record = Some(Record::of(bytes));
        added?;
        self.count += 1;
        Ok(())
    }

    /// Drops all commands but the first `count`, whose encodings have `encoded` bytes. The memory is kept.
    pub(crate) fn truncate(&mut self, count: u32, encoded: usize)
        requires count_within { count ≤ self.old.count }
        requires encoded_within { encoded ≤ length self.old.encoded }
        ensures count { self.new.count ≡ count }
        ensures encoded { self.new.encoded ≡ take encoded self.old.encoded }
    {
        let Some(record) = self.record.take() else {
            return;
        };
        let mut bytes = record.into_bytes();
        bytes.truncate(EMPTY + encoded);
        self.record = Some(record_with(bytes, count));
        self.count = count;
    }
}

/// The bytes of a record, or of one without commands if there is none.
fn bytes_of(alloc: Global, held: Option<Record>) -> Result<Vec<u8>, AllocError>
    requires { IfSome held (λ body. count_length ≤ length body) }
    ensures long { IfOk result (λ bytes. vec_len bytes ≡ frame_length + count_length + length (encoded_in held)) }
    ensures body { IfOk result (λ bytes. body_in bytes.items ≡ body_held held) }
    ensures none { OnErr result (held ≡ None) }
{
    match held {
        Some(record) => Ok(record.into_bytes()),
        None => vec![in alloc; 0; EMPTY],
    }
}

/// Adds a command to the batch between a record's length and its gate. Running out of memory changes nothing.
fn append(bytes: &mut Vec<u8>, command: &Command) -> Result<(), Refusal>
    requires long { frame_length + count_length ≤ vec_len bytes.old }
    requires counted { CountsFew (body_in bytes.old.items) }
    ensures longer { OnOk result (vec_len bytes.new ≡ vec_len bytes.old + length (command_bytes command.now)) }
    ensures added { OnOk result (IsWithCommand (body_in bytes.old.items) command.now (body_in bytes.new.items)) }
    ensures encoded { OnOk result (IsEncoded command.now) }
    ensures same_length { OnErr result (vec_len bytes.new ≡ vec_len bytes.old) }
    ensures unchanged { OnErr result (body_in bytes.new.items ≡ body_in bytes.old.items) }
    ensures refused { IfErr result (λ e. e ≡ no_memory) }
{
    bytes.reserve(command_length(command) as usize)?;
    // The gate leaves its place to the command, and a new one follows.
    bytes.truncate(bytes.len() - 1);
    let added = extend_batch(bytes, COUNT_AT, command);
    bytes.push_reserved(0);
    added
}

/// The record with this count whose encodings are the bytes between the count and the gate.
fn record_with(bytes: Vec<u8>, count: u32) -> Record
    requires long { frame_length + count_length ≤ vec_len bytes }
    requires short { vec_len bytes < 2 ^ 32 + frame_length }
    ensures { result ≡ to_be_bytes w32 count ++ encoded_between bytes.items }
{
    let mut bytes = bytes;
    write_count(bytes.as_mut_slice(), count);
    Record::of(bytes)
}

fn write_count(bytes: &mut [u8], count: u32)
    requires { body_number_length + count_length ≤ length bytes.old }
    ensures { bytes.new ≡ take body_number_length bytes.old ++ (to_be_bytes w32 count ++ drop (body_number_length + count_length) bytes.old) }
{
    bytes[COUNT_AT..COUNT_AT + COUNT as usize].copy_from_slice(&count.to_be_bytes());
}
