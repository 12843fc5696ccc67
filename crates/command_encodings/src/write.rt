#![tactic(auto, using(crate::proofs::Keeping::unchanged, crate::proofs::Keeping::longer))]

ghost use Rattle.std.specs.Prelude.{◌≡◌, ◌≤◌, ◌++◌, IfErr, IsOk, OnErr, OnOk, length, take, vec_capacity};
ghost use Rattle.std.specs.List.{AllByRecursion};
ghost use Rattle.wf_value.specs.Gives.{no_memory};
ghost use Rattle.command_encodings.specs.Commands.{IsEncoded, batch, command};
ghost use Rattle.definitions.specs.Format.{Appends};
ghost use Rattle.command_encodings.specs.inner.Writing.{Keeps};

use crate::list_writer::push_list;
use crate::push::{push_command, push_word};
use run_plan::Command;
use std::alloc::AllocError;
use wf_value::Refusal;

/// Appends the encoding of a command. The only error is 50, out of memory, which leaves the bytes unchanged.
/// Promise (Encodings): A command, a batch or a table (of at most 4,294,967,295 runners) is written as its encoding, after what was there; on 50
///   the bytes are as they were
/// By: `command_encodings::{write_command, write_batch}`, `table_text::write_table`, `ok`, `err`, `refused`
pub fn write_command(out: &mut Vec<u8>, requested: &Command) -> Result<(), Refusal>
    ensures ok { OnOk result (Appends command out.old.items requested.now out.new.items) }
    ensures err { OnErr result (out.new.items ≡ out.old.items) }
    ensures refused { IfErr result (λ e. e ≡ no_memory) }
    ensures room { vec_capacity out.old ≤ vec_capacity out.new }
{
    let before = out.len();
    let written = push_command(out, requested);
    all_or_none(out, before, written)
}

/// Appends the encoding of a batch. The only error is 50, out of memory, which leaves the bytes unchanged.
pub fn write_batch(out: &mut Vec<u8>, commands: &[Command]) -> Result<(), Refusal>
    requires some { 1 ≤ length commands.now }
    requires most { length commands.now ≤ 4294967295 }
    ensures ok { OnOk result (Appends batch out.old.items commands.now out.new.items) }
    ensures err { OnErr result (out.new.items ≡ out.old.items) }
    ensures refused { IfErr result (λ e. e ≡ no_memory) }
    ensures room { vec_capacity out.old ≤ vec_capacity out.new }
{
    let before = out.len();
    let written = push_batch(out, commands);
    all_or_none(out, before, written)
}

/// Appends the count and each command.
fn push_batch(out: &mut Vec<u8>, commands: &[Command]) -> Result<(), AllocError>
    requires { length commands.now ≤ 4294967295 }
    ensures takes { OnOk result (AllByRecursion IsEncoded commands.now) }
    ensures bytes { OnOk result (out.new.items ≡ out.old.items ++ batch.encoding commands.now) }
    ensures kept { OnErr result (Keeps out.old.items out.new.items) }
    ensures room { vec_capacity out.old ≤ vec_capacity out.new }
{
    push_word(out, commands.len() as u32)?;
    push_list(out, commands)?;
    Ok(())
}

/// Truncates the bytes to their length `before` if the value was not fully written.
pub fn all_or_none(
    out: &mut Vec<u8>,
    before: usize,
    written: Result<(), AllocError>,
) -> Result<(), Refusal>
    ensures ok { OnOk result (IsOk written × (out.new.items ≡ out.old.items)) }
    ensures err { OnErr result (out.new.items ≡ take before out.old.items) }
    ensures refused { IfErr result (λ e. e ≡ no_memory) }
    ensures room { vec_capacity out.old ≤ vec_capacity out.new }
{
    if written.is_err() {
        out.truncate(before);
    }
    written?;
    Ok(())
}
