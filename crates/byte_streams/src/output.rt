ghost use Rattle.std.specs.Prelude.{◌≡◌, ◌≤◌, ℕ, take, length, IfErr, IfOk, OnOk, OnErr};
ghost use Rattle.std.specs.Io.KnownBytes.{Appends, Keeps};

use std::io::{ErrorKind, Write};
use wf_value::{Code, Refusal};

/// Writes once, and retries after an interruption by a signal. A failed write is refusal 61.
fn write_some<W: Write>(writer: &mut W, bytes: &[u8]) -> Result<usize, Refusal>
    ensures bound { IfOk result (λ n. n ≤ length bytes.now) }
    ensures bytes { IfOk result (λ n. Appends (W.contents writer.old) (W.contents writer.new) (take n bytes.now)) }
    ensures kept { OnErr result (Keeps (W.contents writer.old) (W.contents writer.new)) }
    ensures err { IfErr result (λ e. e ≡ Refusal.Numbered Code.StreamFailed) }
{
    for _ in 0..u64::MAX {
        match writer.write(bytes) {
            Ok(count) => return Ok(count),
            Err(e) if e.kind() == ErrorKind::Interrupted => {}
            Err(_) => return Err(Refusal::Numbered(Code::StreamFailed)),
        }
    }
    Err(Refusal::Numbered(Code::StreamFailed))
}

/// Writes the bytes in order until a write fails or accepts no byte. Returns how many were written.
pub fn write_prefix<W: Write>(writer: &mut W, bytes: &[u8]) -> usize
    ensures bound { result ≤ length bytes.now }
    ensures prefix { Appends (W.contents writer.old) (W.contents writer.new) (take result bytes.now) }
{
    let mut written = 0;
    while written < bytes.len() {
        match write_some(writer, &bytes[written..]) {
            Ok(count) if count > 0 => written += count,
            _ => break,
        }
    }
    written
}

/// Writes all the bytes. A failed write is refusal 61; a prefix of the bytes has then been written.
pub fn write_whole<W: Write>(writer: &mut W, bytes: &[u8]) -> Result<(), Refusal>
    ensures all { OnOk result (Appends (W.contents writer.old) (W.contents writer.new) bytes.now) }
    ensures prefix { (n : ℕ) × Appends (W.contents writer.old) (W.contents writer.new) (take n bytes.now) }
    ensures err { IfErr result (λ e. e ≡ Refusal.Numbered Code.StreamFailed) }
{
    if write_prefix(writer, bytes) == bytes.len() {
        Ok(())
    } else {
        Err(Refusal::Numbered(Code::StreamFailed))
    }
}

/// Flushes the writer. A failure is refusal 61.
pub fn flush<W: Write>(writer: &mut W) -> Result<(), Refusal>
    ensures kept { Keeps (W.contents writer.old) (W.contents writer.new) }
    ensures err { IfErr result (λ e. e ≡ Refusal.Numbered Code.StreamFailed) }
{
    match writer.flush() {
        Ok(()) => Ok(()),
        Err(_) => Err(Refusal::Numbered(Code::StreamFailed)),
    }
}
