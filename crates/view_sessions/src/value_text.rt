//! The text that a value stands for. RFC 3986, section 2.1.

ghost use Rattle.std.specs.Prelude.{◌≡◌, ◌||◌, ◌+◌, ◌==◌, ◌<◌, Ok, drop, length, not, slice_index};
ghost use Rattle.wf_value.specs.Gives.{Gives};
ghost use Rattle.view_sessions.specs.Values.{are_escapes, begins_with_digits, decoded, folded_text, unescaped};

use group_name::GroupKey;
use percent_encoding::percent_decode;
use std::alloc::Global;
use wf_value::{Chars, Refusal};

/// Whether bytes begin with two hexadecimal digits.
fn begins_with_digits(bytes: &[u8]) -> bool
    ensures { result ≡ begins_with_digits bytes.now }
{
    bytes.len() > 1 && bytes[0].is_ascii_hexdigit() && bytes[1].is_ascii_hexdigit()
}

/// Whether the byte at an index is no `%`, or begins an escape.
fn may_stand(value: &[u8], index: usize) -> bool
    requires { index < length value.now }
    ensures { result ≡ (not (slice_index value.now index == 37) || begins_with_digits (drop (index + 1) value.now)) }
{
    value[index] != b'%' || begins_with_digits(&value[index + 1..])
}

/// Whether each `%` begins an escape.
#[tactic(auto, using(crate::proofs::Escapes::escapes_next, crate::proofs::Escapes::escapes_end))]
fn are_escapes(value: &[u8]) -> bool
    ensures { result ≡ are_escapes value.now }
{
    for index in 0..value.len() {
        if !may_stand(value, index) {
            return false;
        }
    }
    true
}

/// The text of bytes whose escapes are read, or `None` if it is not UTF-8.
fn unescaped(alloc: Global, value: &[u8]) -> Result<Option<Chars>, Refusal>
    ensures { Gives (λ text. text) result (Ok (unescaped value.now)) }
{
    let mut bytes = Vec::new(alloc);
    percent_decode(value).append_to(&mut bytes)?;
    match String::from_utf8(bytes) {
        Ok(text) => Ok(Some(Chars::new(text))),
        Err(_) => Ok(None),
    }
}

/// The text that a value stands for, or `None` if a `%` begins no escape or it is not UTF-8.
pub(crate) fn decoded(alloc: Global, value: &[u8]) -> Result<Option<Chars>, Refusal>
    ensures { Gives (λ text. text) result (Ok (decoded value.now)) }
{
    if are_escapes(value) {
        unescaped(alloc, value)
    } else {
        Ok(None)
    }
}

/// The name of a group without its case, as groups compare; empty for the empty name, which no group has.
pub(crate) fn folded_text(alloc: Global, name: &str) -> Result<Chars, Refusal>
    ensures { Gives (λ text. text) result (Ok (folded_text name.now)) }
{
    match GroupKey::of(alloc, "", name)? {
        Some(group) => Chars::from_str(alloc, group.name()),
        None => Ok(Chars::new(String::new(alloc))),
    }
}
