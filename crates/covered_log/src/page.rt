ghost use Rattle.std.specs.Prelude.{◌≡◌, ◌+◌, ◌≤◌, IfOk, drop, length, min, string_bytes, take};
ghost use Rattle.std.specs.List.{flat_map};
ghost use Rattle.definitions.specs.Limits.{page_lines};

use crate::kept::KeptLines;
use std::alloc::{AllocError, Global};

/// The most lines of a page.
pub const PAGE: usize = 1_000;

/// Lines behind a cursor, and the cursor to go on from: how many lines come before it.
#[derive(Drop)]
pub struct Page {
    pub text: String,
    pub next: u64,
}

/// Where a page ends that begins at an index of the lines that are kept.
pub(crate) fn page_end(kept: &KeptLines, from: usize) -> usize
    requires { from ≤ length kept.now.lines }
    ensures { result ≡ min (from + page_lines) (length kept.now.lines) }
{
    let left = kept.len() - from;
    if left > PAGE { from + PAGE } else { kept.len() }
}

/// The lines from an index to another, of those that are kept.
pub(crate) fn text_between(
    alloc: Global,
    kept: &KeptLines,
    from: usize,
    end: usize,
) -> Result<String, AllocError>
    requires order { from ≤ end }
    requires within { end ≤ length kept.now.lines }
    ensures { IfOk result (λ text. string_bytes text ≡ flat_map (λ line. line) (drop from (take end kept.now.lines))) }
{
    let mut text = String::new(alloc);
    for index in from..end {
        text.push_str(kept.line(index).as_str())?;
    }
    Ok(text)
}
