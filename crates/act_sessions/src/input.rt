ghost use Rattle.std.specs.Prelude.{◌≡◌, ◌≤◌, ◌<◌, ◌+◌, ◌++◌, ℕ, List, length, true, false, IfErr, IfOk, OnErr};
ghost use Rattle.std.specs.Io.KnownBytes.{Consumes, IsAtEnd, Keeps};
ghost use Rattle.act_sessions.specs.inner.Hearing.{Awaits};

use crate::error::SessionError;
use crate::held_bytes::HeldBytes;
use crate::protocol::Protocol;
use crate::request::Request;
use byte_streams::read_some;
use std::alloc::Global;
use std::io::Read;

/// How many bytes are read at a time, at most.
const CHUNK: usize = 4096;

/// Appends the next piece, of any length, to held bytes that are fewer than `limit`, without passing the limit. Returns whether a
/// piece came; at the end of the input none does.
fn read_more<P: Protocol, R: Read>(
    reader: &mut R,
    held: &mut HeldBytes<P>,
    limit: usize,
) -> Result<bool, SessionError>
    requires { length held.old < limit }
    ensures ok { IfOk result (λ more. (piece : List ℕ) × Consumes (R.remaining reader.old) (R.remaining reader.new) piece
        × (held.new ≡ held.old ++ piece)) }
    ensures bound { length held.new ≤ limit }
    ensures more { IfOk result (λ more. more ≡ true → length held.old < length held.new) }
    ensures end { IfOk result (λ more. more ≡ false → IsAtEnd (R.remaining reader.new) × (held.new ≡ held.old)) }
    ensures err { OnErr result ((piece : List ℕ) × Consumes (R.remaining reader.old) (R.remaining reader.new) piece
        × (length held.old + length piece ≤ limit)) }
    // A failed read takes nothing.
    ensures broken { IfErr result (λ e. e ≡ SessionError.Broken → Keeps (R.remaining reader.old) (R.remaining reader.new)) }
{
    let mut piece = [0; CHUNK];
    let room = (limit - held.len()).min(CHUNK);
    let count = read_some(reader, &mut piece[..room])?;
    held.append(&piece[..count])?;
    Ok(count > 0)
}

/// Reads until a request is whole and takes it from the bytes that are held. Returns `None` if the input ends before or inside a request.
pub fn await_request<P: Protocol, R: Read>(
    alloc: Global,
    reader: &mut R,
    held: &mut HeldBytes<P>,
) -> Result<Option<Request<P::Fault>>, SessionError>
    requires { length held.old ≤ P.rules.limit }
    ensures { Awaits P.rules (R.remaining reader.old) (R.remaining reader.new) held.old held.new result }
{
    'pieces: loop {
        if let Some(request) = held.next_request(alloc, None)? {
            return Ok(Some(request));
        }
        if !read_more(reader, held, P::limit())? {
            return Ok(None);
        }
    }
}
