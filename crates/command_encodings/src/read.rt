ghost use Rattle.std.specs.Prelude.{◌≡◌, IfErr, IfOk};
ghost use Rattle.std.specs.Option.{option_map};
ghost use Rattle.wf_value.specs.Gives.{no_memory};
ghost use Rattle.command_encodings.specs.Commands.{batch, command};
ghost use Rattle.definitions.specs.Format.{ReadsPrefix};

use crate::command_reader::{batch_at, command_at};
use crate::decode_error::DecodeError;
use run_plan::Command;
use std::alloc::Global;
use wf_value::{Code, Refusal};

/// The command whose encoding is a prefix of the bytes, and the bytes after it; `None` if no prefix encodes one. The
/// only error is 50, out of memory, which says nothing about the bytes.
/// Promise (Encodings): What is read of commands and batches is the value whose encoding is at the front, with the bytes after it, and `None`
///   exactly where no prefix is an encoding
/// By: `command_encodings::{read_command, read_batch}`, `prefix`, `refused`
pub fn read_command(alloc: Global, bytes: &[u8]) -> Result<Option<(Command, &[u8])>, Refusal>
    ensures prefix { IfOk result (λ found. ReadsPrefix command bytes.now (option_map (λ f. (f.0, f.1.now)) found)) }
    ensures refused { IfErr result (λ e. e ≡ no_memory) }
{
    match command_at(alloc, bytes) {
        Ok(found) => Ok(Some(found)),
        Err(DecodeError::NoEncoding) => Ok(None),
        Err(DecodeError::NoMemory) => Err(Refusal::Numbered(Code::NoMemory)),
    }
}

/// The batch whose encoding is a prefix of the bytes, and the bytes after it; `None` if no prefix encodes one. The only
/// error is 50, out of memory, which says nothing about the bytes.
pub fn read_batch(alloc: Global, bytes: &[u8]) -> Result<Option<(Vec<Command>, &[u8])>, Refusal>
    ensures prefix { IfOk result (λ found. ReadsPrefix batch bytes.now (option_map (λ f. (f.0.items, f.1.now)) found)) }
    ensures refused { IfErr result (λ e. e ≡ no_memory) }
{
    match batch_at(alloc, bytes) {
        Ok(found) => Ok(Some(found)),
        Err(DecodeError::NoEncoding) => Ok(None),
        Err(DecodeError::NoMemory) => Err(Refusal::Numbered(Code::NoMemory)),
    }
}
