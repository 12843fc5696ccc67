ghost use Rattle.std.specs.Prelude.{◌≡◌, ◌≤◌, ◌<◌, take, length, IfErr, IfOk, OnErr};
ghost use Rattle.std.specs.Io.KnownBytes.{Consumes, IsAtEnd, Keeps};

use std::io::{ErrorKind, Read};
use wf_value::{Code, Refusal};

/// Reads once, and retries after an interruption by a signal. It returns 0 only at the end of the input or for an empty buffer. A failed
/// read is refusal 61.
/// Promise (Sessions): A read gives bytes of the reader; a short write goes on; a failure is 61. That an interrupted call is tried again is in
///   no clause
/// By: `byte_streams::{read_some, write_prefix, write_whole, flush}`
/// Refusal (The layers below): `byte_streams`: `read_some`, `write_prefix`, `write_whole`, `flush`
/// When: 61: a read, write or flush failed: T. `write_prefix` says how far it came
/// Afterwards: nothing was read; a prefix was written
/// By: `kept`, `err`, `prefix`
pub fn read_some<R: Read>(reader: &mut R, buffer: &mut [u8]) -> Result<usize, Refusal>
    ensures bound { IfOk result (λ n. n ≤ length buffer.new) }
    ensures bytes { IfOk result (λ n. Consumes (R.remaining reader.old) (R.remaining reader.new) (take n buffer.new)) }
    ensures end { IfOk result (λ n. n ≡ 0 → 0 < length buffer.old → IsAtEnd (R.remaining reader.new)) }
    ensures kept { OnErr result (Keeps (R.remaining reader.old) (R.remaining reader.new)) }
    ensures err { IfErr result (λ e. e ≡ Refusal.Numbered Code.StreamFailed) }
{
    for _ in 0..u64::MAX {
        match reader.read(buffer) {
            Ok(count) => return Ok(count),
            Err(e) if e.kind() == ErrorKind::Interrupted => {}
            Err(_) => return Err(Refusal::Numbered(Code::StreamFailed)),
        }
    }
    Err(Refusal::Numbered(Code::StreamFailed))
}
