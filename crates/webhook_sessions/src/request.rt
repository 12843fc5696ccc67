ghost use Rattle.std.specs.Prelude.{◌≡◌, ◌≤◌, ◌+◌, length};
ghost use Rattle.act_sessions.specs.inner.Held.{Keeps};
ghost use Rattle.act_sessions.specs.Rules.{IsNext};
ghost use Rattle.webhook_sessions.specs.Asking.{request_after, unread};
ghost use Rattle.webhook_sessions.specs.inner.FoundRequest.{IsFound};
ghost use Rattle.webhook_sessions.specs.inner.HeadLines.{HeadKnown};
ghost use Rattle.webhook_sessions.specs.Hooks.{hooks};

use crate::demand::demand_of;
use crate::fault::Fault;
use crate::head::Head;
use crate::head_lines::{MAX_FIELDS, is_unfinished, read_first, read_on};
use act_sessions::{Demand, FoundRequest, Next, Progress, Request};
use httparse::Status;
use httparse::spans::{EMPTY_HEADER_SPAN, parse_request};
use run_plan::Prepared;
use std::alloc::Global;
use wf_value::Refusal;

/// The longest head, in bytes, including the empty lines before it.
pub const MAX_HEAD: usize = 8_192;

/// A request of this length that is refused before its body is read.
fn unread(fault: Fault, length: usize) -> FoundRequest<Fault>
    ensures { result ≡ record { request = unread fault; length = length } }
{
    FoundRequest {
        request: Request {
            demand: Demand::Fault(fault),
            closes: true,
        },
        length,
    }
}

/// The request of a head and the bytes after it. While its body is incomplete, it waits for all of it.
fn request_after(
    alloc: Global,
    latest: Option<&Prepared>,
    head: &Head<'_>,
    head_length: usize,
    after: &[u8],
) -> Result<Next<Fault>, Refusal>
    requires { head_length ≤ MAX_HEAD }
    ensures { IsFound head.now head_length after.now result }
{
    match head.body_length() {
        Err(fault) => Ok(Next::Whole(unread(fault, head_length))),
        Ok(size) if size <= after.len() => {
            let demand = demand_of(alloc, latest, head, &after[..size])?;
            Ok(Next::Whole(FoundRequest {
                request: Request {
                    demand,
                    closes: head.wants_close(),
                },
                length: head_length + size,
            }))
        }
        Ok(size) => Ok(Next::Waits {
            until: head_length + size,
            progress: Progress::none(),
        }),
    }
}

/// Less than a request, which may be one with the next byte.
fn waits_for_a_byte(bytes: &[u8], progress: Progress) -> Next<Fault>
    ensures { result ≡ Next.Waits (length bytes.now + 1) progress }
{
    Next::Waits {
        until: bytes.len() + 1,
        progress,
    }
}

/// What the bytes begin with, from their start.
fn read_request(
    alloc: Global,
    latest: Option<&Prepared>,
    bytes: &[u8],
) -> Result<Next<Fault>, Refusal>
    ensures found { IsNext hooks bytes.now result }
    ensures kept { Keeps (HeadKnown bytes.now) result }
{
    let prefix = &bytes[..bytes.len().min(MAX_HEAD)];
    let mut spans = [EMPTY_HEADER_SPAN; MAX_FIELDS];
    match parse_request(prefix, &mut spans) {
        Ok(Status::Complete(found)) => {
            let head = Head::new(prefix, &found, &spans[..found.headers]);
            request_after(alloc, latest, &head, found.len, &bytes[found.len..])
        }
        Ok(Status::Partial) if bytes.len() < MAX_HEAD => {
            Ok(waits_for_a_byte(bytes, read_first(bytes)))
        }
        Ok(Status::Partial) => Ok(Next::Whole(unread(Fault::BadHead, 0))),
        Err(_) => Ok(Next::Whole(unread(Fault::BadHead, 0))),
    }
}

/// What the bytes begin with. An incomplete head is looked at with each byte that comes, but only at its last line; an incomplete body is
/// looked at once it is whole.
pub fn next_request(
    alloc: Global,
    latest: Option<&Prepared>,
    bytes: &[u8],
    progress: Progress,
) -> Result<Next<Fault>, Refusal>
    requires { HeadKnown bytes.now progress }
    ensures found { IsNext hooks bytes.now result }
    ensures kept { Keeps (HeadKnown bytes.now) result }
{
    if bytes.len() < MAX_HEAD && is_unfinished(bytes, progress) {
        return Ok(waits_for_a_byte(bytes, read_on(bytes, progress)));
    }
    read_request(alloc, latest, bytes)
}
