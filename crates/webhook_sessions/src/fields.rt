ghost use Rattle.std.specs.Prelude.{◌≡◌, map};
ghost use Rattle.http1.specs.Fields.{values_named};
ghost use Rattle.webhook_sessions.specs.Fields.{OccursAs, lists_close};

use crate::occurrence::{Occurrence, once_more};
use http1::fields::KnownFields;
use http1::text::eq_ignore_case;
use httparse::spans::HeaderSpan;
use std::marker::Model;

/// The fields of a head: names and values as slices of the bytes of the head.
#[derive(Drop)]
pub struct Fields<'a> {
    prefix: &'a [u8],
    spans: &'a [HeaderSpan],
}

impl<'a> Model for Fields<'a> {
    ghost use Rattle.std.specs.Prelude.{List, ℕ, All, length, map};
    ghost use Rattle.httparse.specs.Spans.{IsHeaderWithin, header_bytes};

    ghost Value = { List (List ℕ × List ℕ) };

    ghost view = { λ f. map (header_bytes f.prefix.now) f.spans.now };

    ghost invariant = { λ f. All (IsHeaderWithin (length f.prefix.now)) f.spans.now };
}

impl<'a> Fields<'a> {
    ghost use Rattle.std.specs.Prelude.{All, length};
    ghost use Rattle.httparse.specs.Spans.{IsHeaderWithin, header_bytes};

    pub fn new(prefix: &'a [u8], spans: &'a [HeaderSpan]) -> Self
        requires { All (IsHeaderWithin (length prefix.now)) spans.now }
        ensures { result ≡ map (header_bytes prefix.now) spans.now }
    {
        Fields { prefix, spans }
    }

    /// How often a field with this name occurs, and its value. Names are compared without ASCII case.
    pub fn named(&self, name: &[u8]) -> Occurrence<'a>
        ensures { OccursAs (values_named name.now self.now) result }
    {
        let mut found = Occurrence::Missing;
        for span in self.spans {
            if eq_ignore_case(span.name.of(self.prefix), name) {
                found = once_more(found, span.value.of(self.prefix));
            }
        }
        found
    }

    /// Whether the sender wants the connection closed: a `Connection` field lists `close`.
    pub fn list_close(&self) -> bool
        ensures { result ≡ lists_close self.now }
    {
        KnownFields::from_spans(self.prefix, self.spans).close
    }
}
