//! The paths of members.

ghost use Rattle.std.specs.Prelude.{◌≡◌, ◌++◌, IfOk, string_bytes};
ghost use Rattle.std.specs.List.{list_all};
ghost use Rattle.json.specs.Print.{quoted};
ghost use Rattle.workflow_lint.specs.Paths.{dotted, is_plain_byte, is_plain_name, item_path, member_path};

use json::Writer;
use std::alloc::{AllocError, Global};

fn is_plain_byte(byte: u8) -> bool
    ensures { result ≡ is_plain_byte byte }
{
    byte.is_ascii_alphabetic() || byte.is_ascii_digit() || byte == b'-' || byte == b'_'
}

fn are_plain(bytes: &[u8]) -> bool
    ensures { result ≡ list_all is_plain_byte bytes.now }
{
    bytes.iter().all(|byte| is_plain_byte(*byte))
}

/// Whether a name appears in a path without quotes.
fn is_plain_name(name: &str) -> bool
    ensures { result ≡ is_plain_name name.now }
{
    match name.as_bytes() {
        [] => false,
        bytes => are_plain(bytes),
    }
}

/// A text as JSON. RFC 8259, section 7.
fn quoted(alloc: Global, text: &str) -> Result<String, AllocError>
    ensures { IfOk result (λ s. string_bytes s ≡ quoted text.now) }
{
    let mut writer = Writer::new(Vec::new(alloc));
    writer.string(text)?;
    Ok(String::from_utf8(writer.into_inner()).unwrap())
}

/// The dot after the path of an object; empty for the whole workflow.
fn dot(path: &str) -> &'static str
    ensures { path.now ++ result.now ≡ dotted path.now }
{
    if path.is_empty() { "" } else { "." }
}

/// The path of a member of the object at a path.
pub(crate) fn member_path(alloc: Global, path: &str, name: &str) -> Result<String, AllocError>
    ensures { IfOk result (λ s. string_bytes s ≡ member_path path.now name.now) }
{
    if is_plain_name(name) {
        let dot = dot(path);
        return format!(in alloc; "{path}{dot}{name}");
    }
    let name = quoted(alloc, name)?;
    format!(in alloc; "{path}[{name}]")
}

/// The path of an item of the list at a path.
pub(crate) fn item_path(alloc: Global, path: &str, i: usize) -> Result<String, AllocError>
    ensures { IfOk result (λ s. string_bytes s ≡ item_path path.now i) }
{
    format!(in alloc; "{path}[{i}]")
}
