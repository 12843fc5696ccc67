ghost use Rattle.std.specs.Prelude.{◌≡◌, ◌≢◌, ◌≤◌, ◌<◌, ◌⊎◌, vec_len, IfOk, IfErr, IfSome};
ghost use Rattle.std.specs.Io.KnownBytes.{Consumes, IsAtEnd};
ghost use Rattle.wf_value.specs.Gives.{no_memory};
ghost use Rattle.act_disk.specs.Failed.{device_failed, stream_failed};
ghost use Rattle.program_commands.specs.Input.{IsReadAs, ReadsAtMost, RefusesInput};

use byte_streams::read_some;
use std::alloc::Global;
use std::io::Read;
use wf_value::{Code, Refusal};

/// The longest input that is read, in bytes.
pub const MAX_BYTES: usize = 1_048_576;

/// The most bytes that one read takes.
const CHUNK: usize = 8192;

/// All bytes of a reader, up to `most`. A failed read is 61, and out of memory is 50.
fn read_at_most<R: Read>(alloc: Global, reader: &mut R, most: usize) -> Result<Vec<u8>, Refusal>
    ensures limit { ReadsAtMost most (R.remaining reader.old) (R.remaining reader.new) }
    ensures bytes { IfOk result (λ v. Consumes (R.remaining reader.old) (R.remaining reader.new) v.items) }
    ensures bound { IfOk result (λ v. vec_len v ≤ most) }
    ensures end { IfOk result (λ v. vec_len v < most → IsAtEnd (R.remaining reader.new)) }
    ensures err { IfErr result (λ e. (e ≡ stream_failed) ⊎ (e ≡ no_memory)) }
{
    let mut bytes = Vec::new(alloc);
    let mut buffer = [0; CHUNK];
    while bytes.len() < most {
        let room = (most - bytes.len()).min(CHUNK);
        let count = read_some(reader, &mut buffer[..room])?;
        if count == 0 {
            break;
        }
        bytes.extend_from_slice(&buffer[..count])?;
    }
    Ok(bytes)
}

/// A whole input. An input over 1,048,576 bytes is refused with 76, and at most 1,048,577 bytes are read. A failed read
/// is 61, and out of memory is 50.
/// Refusal (Sessions and programs): `program_commands::{read_input, command_of}`, `program_commands::answer_line`
/// When: 61, 50, 76; 75, 10 to 26, 50; 50
/// Afterwards: a prefix was read; else as it was
/// By: `refused`, `read`; one clause each (`Gives`)
pub fn read_input<R: Read>(alloc: Global, reader: &mut R) -> Result<Vec<u8>, Refusal>
    ensures read { ReadsAtMost 1048577 (R.remaining reader.old) (R.remaining reader.new) }
    ensures whole { IfOk result (λ v. IfSome (R.remaining reader.old) (IsReadAs v.items)) }
    ensures refused { IfErr result (λ e. IfSome (R.remaining reader.old) (RefusesInput e)) }
    ensures no_fault { IfErr result (λ e. e ≢ device_failed) }
{
    let input = read_at_most(alloc, reader, MAX_BYTES + 1)?;
    if input.len() > MAX_BYTES {
        return Err(Refusal::Numbered(Code::InputTooLong));
    }
    Ok(input)
}
