ghost use Rattle.std.specs.Prelude.{◌≡◌, ◌+◌, ◌-◌, ◌^◌, min, ℕ, take, length, IfErr, OnOk};
ghost use Rattle.std.specs.Io.KnownBytes.{Appends};

use crate::error::SessionError;
use crate::transcript::Transcript;
use byte_streams::{flush, write_prefix};
use std::io::Write;

/// Writes and flushes the bytes, and counts those that were written.
pub fn respond<W: Write>(
    writer: &mut W,
    transcript: &mut Transcript,
    bytes: &[u8],
) -> Result<(), SessionError>
    ensures prefix { (n : ℕ) × Appends (W.contents writer.old) (W.contents writer.new) (take n bytes.now)
        × (transcript.new.written ≡ min (transcript.old.written + length (take n bytes.now)) (2 ^ 64 - 1))
        × OnOk result (take n bytes.now ≡ bytes.now) }
    ensures broken { IfErr result (λ e. e ≡ SessionError.Broken) }
    ensures asked { transcript.new.asked ≡ transcript.old.asked }
    ensures ending { transcript.new.ending ≡ transcript.old.ending }
{
    let count = write_prefix(writer, bytes);
    transcript.written = transcript.written.saturating_add(count as u64);
    if count < bytes.len() {
        return Err(SessionError::Broken);
    }
    Ok(flush(writer)?)
}
