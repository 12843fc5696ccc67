//! Closes a session's stream in stages. The system resets a stream that is closed while bytes of the client are unread
//! or in transit, and the client may then be unable to read its last answers. RFC 9112, section 9.6.
ghost use Rattle.std.specs.Prelude.{◌≤◌, ℕ, List, length};
ghost use Rattle.std.specs.Io.KnownBytes.{Consumes};

use byte_streams::read_some;
use std::io;
use std::io::Read;
use std::net::{Shutdown, TcpStream};
use std::time::Duration;

/// The most bytes that one read takes.
const CHUNK: usize = 16_384;

/// The most reads that a close makes.
const READS: usize = 128;

/// How long each read waits at most, in milliseconds.
const WAIT: u64 = 250;

/// Reads and discards input until it ends or a read fails, at most 128 times.
fn discard<R: Read>(reader: &mut R)
    ensures { (thrown : List ℕ) × Consumes (R.remaining reader.old) (R.remaining reader.new) thrown × (length thrown ≤ 2_097_152) }
{
    let mut chunk = [0; CHUNK];
    for _ in 0..READS {
        match read_some(reader, &mut chunk) {
            Ok(count) if count > 0 => {}
            _ => break,
        }
    }
}

/// Shuts down writing to a stream, and limits how long a read of it waits.
fn end_writing(stream: &TcpStream) -> io::Result<()> {
    stream.shutdown(Shutdown::Write)?;
    stream.set_read_timeout(Some(Duration::from_millis(WAIT)))
}

/// Closes a stream. The client sees the end of the output, and what it still sends is discarded until it closes too,
/// stays silent for a quarter of a second, or was read 128 times. So a close takes at most 32 seconds and 2 MiB.
pub fn close(stream: TcpStream) {
    if end_writing(&stream).is_ok() {
        discard(&mut &stream);
    }
}
