ghost use Rattle.std.specs.Prelude.{◌≡◌, IfOk, string_bytes};
ghost use Rattle.view_sessions.specs.Cursors.{cursor_of, cursor_text, long_number, short_number};

use crate::query::{after_byte, before_byte};
use run_plan::decimal_of;
use std::alloc::{AllocError, Global};

/// A place in the changes of one process: the process, and the index of the next line.
#[derive(Clone, Copy, PartialEq, Eq)]
pub struct Cursor {
    pub process: u64,
    pub line: u64,
}

/// A number of up to nine digits without leading zeros.
fn short_number(text: &[u8]) -> Option<u64>
    ensures { result ≡ short_number text.now }
{
    if text.len() > 1 && text[0] == b'0' {
        return None;
    }
    Some(u64::from(decimal_of(text)?))
}

/// A number of a high part and a part below 10^9.
fn long_number(text: &[u8]) -> Option<u64>
    ensures { result ≡ long_number text.now }
{
    let high = short_number(before_byte(text, b'.'))?;
    let low = short_number(after_byte(text, b'.')?)?;
    high.checked_mul(1_000_000_000)?.checked_add(low)
}

impl Cursor {
    /// The cursor of a text.
    pub fn of(text: &str) -> Option<Cursor>
        ensures { result ≡ cursor_of text.now }
    {
        let bytes = text.as_bytes();
        let process = long_number(before_byte(bytes, b'-'))?;
        let line = long_number(after_byte(bytes, b'-')?)?;
        Some(Cursor { process, line })
    }

    /// The text of the cursor.
    /// Promise (Views of a service): The text of a cursor is the definition's, to the byte
    /// By: `view_sessions::Cursor::to_text` (`cursor_text`)
    pub fn to_text(&self, alloc: Global) -> Result<String, AllocError>
        ensures { IfOk result (λ text. string_bytes text ≡ cursor_text self.now) }
    {
        let (high, low) = (self.process / 1_000_000_000, self.process % 1_000_000_000);
        let (line_high, line_low) = (self.line / 1_000_000_000, self.line % 1_000_000_000);
        format!(in alloc; "{high}.{low}-{line_high}.{line_low}")
    }
}
