//! What a service reports on its output.

ghost use Rattle.std.specs.Prelude.{◌≡◌, OnOk, IfErr};
ghost use Rattle.std.specs.Io.KnownBytes.{Appends};
ghost use Rattle.service_startup.specs.Reports.{ready_line, settled_line};

use byte_streams::{flush, write_whole};
use itoa::Buffer;
use std::io::Write;
use wf_value::{Code, Refusal};

/// Writes a text to the service's output and flushes it. A failure is 61.
fn tell<O: Write>(out: &mut O, text: &[u8]) -> Result<(), Refusal>
    ensures announced { OnOk result (Appends (O.contents out.old) (O.contents out.new) text.now) }
    ensures err { IfErr result (λ e. e ≡ Refusal.Numbered Code.StreamFailed) }
{
    write_whole(out, text)?;
    flush(out)
}

/// Reports that both ports accept clients.
pub fn tell_ready<O: Write>(out: &mut O) -> Result<(), Refusal>
    ensures announced { OnOk result (Appends (O.contents out.old) (O.contents out.new) ready_line) }
    ensures err { IfErr result (λ e. e ≡ Refusal.Numbered Code.StreamFailed) }
{
    tell(out, b"ready\n")
}

/// Reports the number of entries of a reconciled history. It takes no memory.
pub fn tell_settled<O: Write>(entries: u64, out: &mut O) -> Result<(), Refusal>
    ensures announced { OnOk result (Appends (O.contents out.old) (O.contents out.new) (settled_line entries)) }
    ensures err { IfErr result (λ e. e ≡ Refusal.Numbered Code.StreamFailed) }
{
    let mut digits = Buffer::new();
    write_whole(out, b"settled ")?;
    write_whole(out, digits.format(entries).as_bytes())?;
    tell(out, b"\n")
}
