ghost use Rattle.std.specs.Prelude.{◌≡◌, ◌||◌, ◌==◌};
ghost use Rattle.webhook_sessions.specs.Asking.{body_length, posts_event, wants_close};

use crate::event_headers::event_headers;
use crate::fault::Fault;
use crate::fields::Fields;
use crate::length::stated_length;
use httparse::spans::{HeaderSpan, RequestSpans};
use std::marker::Model;

/// The head of a request, as slices of its bytes.
#[derive(Drop)]
pub struct Head<'a> {
    method: &'a [u8],
    target: &'a [u8],
    minor: u8,
    fields: Fields<'a>,
}

impl<'a> Model for Head<'a> {
    ghost use Rattle.webhook_sessions.specs.Heading.{Heading, coded_heading};

    ghost Value = { Heading };

    ghost coded = { coded_heading };

    ghost view = { λ h. record { method = h.method.now; target = h.target.now; minor = h.minor; fields = h.fields } };
}

impl<'a> Head<'a> {
    ghost use Rattle.std.specs.Prelude.{All, length, map};
    ghost use Rattle.httparse.specs.Spans.{IsHeaderWithin, IsWithin, header_bytes, span_bytes};

    /// The head whose parts were found there.
    pub fn new(prefix: &'a [u8], found: &RequestSpans, spans: &'a [HeaderSpan]) -> Self
        requires method { IsWithin (length prefix.now) found.now.method }
        requires path { IsWithin (length prefix.now) found.now.path }
        requires fields { All (IsHeaderWithin (length prefix.now)) spans.now }
        ensures { result ≡ record {
          method = span_bytes prefix.now found.now.method;
          target = span_bytes prefix.now found.now.path;
          minor = found.now.version;
          fields = map (header_bytes prefix.now) spans.now;
        } }
    {
        Head {
            method: found.method.of(prefix),
            target: found.path.of(prefix),
            minor: found.version,
            fields: Fields::new(prefix, spans),
        }
    }

    pub fn method(&self) -> &'a [u8]
        ensures { result.now ≡ self.now.method }
    {
        self.method
    }

    pub fn target(&self) -> &'a [u8]
        ensures { result.now ≡ self.now.target }
    {
        self.target
    }

    pub fn fields(&self) -> &Fields<'a>
        ensures { result.now ≡ self.now.fields }
    {
        &self.fields
    }

    /// Whether the sender wants the session to end with this request: it uses HTTP/1.0, or lists `close` in `Connection`.
    pub fn wants_close(&self) -> bool
        ensures { result ≡ wants_close self.now }
    {
        self.minor == 0 || self.fields.list_close()
    }

    fn posts_event(&self) -> bool
        ensures { result ≡ posts_event self.now }
    {
        self.method == b"POST".as_slice() && self.target == b"/events".as_slice()
    }

    /// The length of the body to read, or why the request is refused before that.
    pub fn body_length(&self) -> Result<usize, Fault>
        ensures { result ≡ body_length self.now }
    {
        let stated = stated_length(&self.fields)?;
        if !self.posts_event() {
            return Ok(stated.unwrap_or(0));
        }
        let Some(length) = stated else {
            return Err(Fault::NoLength);
        };
        event_headers(&self.fields)?;
        Ok(length)
    }
}
