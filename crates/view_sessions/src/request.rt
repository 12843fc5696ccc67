//! The next request of a client's bytes.

ghost use Rattle.std.specs.Prelude.{◌≡◌, ◌||◌, ◌==◌, All, Ok, false, length, map};
ghost use Rattle.std.specs.List.{list_any};
ghost use Rattle.httparse.specs.Spans.{IsHeaderWithin, IsWithin, header_bytes, span_bytes};
ghost use Rattle.wf_value.specs.Gives.{Gives};
ghost use Rattle.webhook_sessions.specs.Asking.{wants_close};
ghost use Rattle.webhook_sessions.specs.Fields.{lists_close};
ghost use Rattle.webhook_sessions.specs.Heading.{Heading};
ghost use Rattle.view_sessions.specs.Requests.{IsNextView, asks_head, is_body_field, request_of, unread};

use crate::fault::ViewFault;
use crate::target::asked;
use crate::view::View;
use http1::fields::KnownFields;
use http1::text::eq_ignore_case;
use httparse::Status;
use httparse::spans::{EMPTY_HEADER_SPAN, HeaderSpan, RequestSpans, parse_request};
use std::alloc::Global;
use wf_value::Refusal;

/// The longest head, in bytes, including the empty lines before it.
const MAX_HEAD: usize = 8_192;

/// The most fields of a head.
const MAX_FIELDS: usize = 64;

/// A request: what it asks for, or what is wrong with it.
#[derive(Drop)]
pub struct ViewRequest {
    pub asked: Result<View, ViewFault>,
    /// Whether only the head of the answer is wanted.
    pub head_only: bool,
    /// Whether the session ends with it.
    pub closes: bool,
}

/// A request at the start of the bytes, and its length.
#[derive(Drop)]
pub struct FoundView {
    pub request: ViewRequest,
    pub length: usize,
}

fn unread(fault: ViewFault, head_only: bool) -> ViewRequest
    ensures { result ≡ unread fault head_only }
{
    ViewRequest {
        asked: Err(fault),
        head_only,
        closes: true,
    }
}

fn asks_head(method: &[u8]) -> bool
    ensures { result ≡ asks_head method.now }
{
    method == b"HEAD".as_slice()
}

/// Whether a field says that the request has a body.
fn is_body_field(name: &[u8], value: &[u8]) -> bool
    ensures { result ≡ is_body_field (name.now, value.now) }
{
    eq_ignore_case(name, b"transfer-encoding")
        || (eq_ignore_case(name, b"content-length") && value != b"0".as_slice())
}

/// Whether one of the fields says so.
fn has_body(prefix: &[u8], spans: &[HeaderSpan]) -> bool
    requires { All (IsHeaderWithin (length prefix.now)) spans.now }
    ensures { result ≡ list_any is_body_field (map (header_bytes prefix.now) spans.now) }
{
    for span in spans {
        if is_body_field(span.name.of(prefix), span.value.of(prefix)) {
            return true;
        }
    }
    false
}

/// Whether a `Connection` field lists `close`.
fn lists_close(prefix: &[u8], spans: &[HeaderSpan]) -> bool
    requires { All (IsHeaderWithin (length prefix.now)) spans.now }
    ensures { result ≡ lists_close (map (header_bytes prefix.now) spans.now) }
{
    KnownFields::from_spans(prefix, spans).close
}

/// Whether the sender wants the session to end: it uses HTTP/1.0, or lists `close` in `Connection`.
fn wants_close(prefix: &[u8], minor: u8, spans: &[HeaderSpan]) -> bool
    requires { All (IsHeaderWithin (length prefix.now)) spans.now }
    ensures { result ≡ ((minor == 0) || lists_close (map (header_bytes prefix.now) spans.now)) }
{
    minor == 0 || lists_close(prefix, spans)
}

/// The request of a head whose parts were found there.
fn request_of(
    alloc: Global,
    method: &[u8],
    target: &[u8],
    has_body: bool,
    closes: bool,
) -> Result<ViewRequest, Refusal>
    ensures { (head : Heading) → head.method ≡ method.now → head.target ≡ target.now → list_any is_body_field head.fields ≡ has_body
        → wants_close head ≡ closes → Gives (λ r. r) result (Ok (request_of head)) }
{
    let head_only = asks_head(method);
    if has_body {
        return Ok(unread(ViewFault::BodyNotAllowed, head_only));
    }
    Ok(ViewRequest {
        asked: asked(alloc, method, target)?,
        head_only,
        closes,
    })
}

/// The request of a head that was found.
fn found_request(
    alloc: Global,
    prefix: &[u8],
    found: &RequestSpans,
    spans: &[HeaderSpan],
) -> Result<FoundView, Refusal>
    requires method { IsWithin (length prefix.now) found.now.method }
    requires path { IsWithin (length prefix.now) found.now.path }
    requires fields { All (IsHeaderWithin (length prefix.now)) spans.now }
    ensures { Gives (λ f. f) result (Ok (record {
      request = request_of (record {
        method = span_bytes prefix.now found.now.method;
        target = span_bytes prefix.now found.now.path;
        minor = found.now.version;
        fields = map (header_bytes prefix.now) spans.now;
      });
      length = found.now.len;
    })) }
{
    let request = request_of(
        alloc,
        found.method.of(prefix),
        found.path.of(prefix),
        has_body(prefix, spans),
        wants_close(prefix, found.version, spans),
    )?;
    Ok(FoundView {
        request,
        length: found.len,
    })
}

/// The whole request at the start of the bytes. Returns `None` if there is less than one.
/// Promise (Views of a service): The bytes of a client are read as heads of HTTP, as those of a webhook session are; each asks for the view that
///   the definition gives its method and its target, or has its fault, the first in order
/// By: `view_sessions::next_view` (`IsNextView`, `ViewReads`, `asked`)
/// Promise (Views of a service): Bytes that are less than a head, and may become one, wait
/// By: `view_sessions::next_view` (`IsNextView`)
pub fn next_view(alloc: Global, bytes: &[u8]) -> Result<Option<FoundView>, Refusal>
    ensures { IsNextView bytes.now result }
{
    let prefix = &bytes[..bytes.len().min(MAX_HEAD)];
    let mut spans = [EMPTY_HEADER_SPAN; MAX_FIELDS];
    match parse_request(prefix, &mut spans) {
        Ok(Status::Complete(found)) => {
            let spans = &spans[..found.headers];
            Ok(Some(found_request(alloc, prefix, &found, spans)?))
        }
        Ok(Status::Partial) if bytes.len() < MAX_HEAD => Ok(None),
        Ok(Status::Partial) => Ok(Some(bad_request())),
        Err(_) => Ok(Some(bad_request())),
    }
}

/// Bytes that begin with no head.
fn bad_request() -> FoundView
    ensures { result ≡ record { request = unread ViewFault.BadRequest false; length = 0 } }
{
    FoundView {
        request: unread(ViewFault::BadRequest, false),
        length: 0,
    }
}
