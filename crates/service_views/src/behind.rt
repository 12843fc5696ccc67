//! What a reader of the changes of a service gets.

ghost use Rattle.std.specs.Prelude.{◌≡◌, ◌++◌, IfOk, length, string_bytes};
ghost use Rattle.service_views.specs.Behind.{IsBehind, cursor_line};

use covered_log::{CoveredLog, Page};
use std::alloc::{AllocError, Global};
use view_sessions::Cursor;

/// What there is behind a cursor.
#[derive(Drop)]
pub(crate) enum Found {
    /// These lines, the cursor among them.
    Lines(String),
    /// There is none yet.
    None,
    /// The cursor is not known any more.
    Unknown,
}

/// The line of the cursor that stands behind so many lines.
fn cursor_line(alloc: Global, log: &CoveredLog, line: u64) -> Result<String, AllocError>
    ensures { IfOk result (λ text. string_bytes text ≡ cursor_line log.now line) }
{
    let process = log.process();
    let cursor = Cursor { process, line }.to_text(alloc)?;
    let mut text = String::from_str(alloc, "{\"cursor\":\"")?;
    text.push_str(cursor.as_str())?;
    text.push_str("\"}\n")?;
    Ok(text)
}

/// The line of the cursor of the present.
pub(crate) fn present(alloc: Global, log: &CoveredLog) -> Result<String, AllocError>
    ensures { IfOk result (λ text. string_bytes text ≡ cursor_line log.now (length log.now.changes)) }
{
    cursor_line(alloc, log, log.end())
}

/// A page of lines, and the line of the cursor behind them.
fn with_cursor(alloc: Global, log: &CoveredLog, page: Page) -> Result<String, AllocError>
    ensures { IfOk result (λ text. string_bytes text ≡ string_bytes page.text ++ cursor_line log.now page.next) }
{
    let Page { mut text, next } = page;
    let end = cursor_line(alloc, log, next)?;
    text.push_str(end.as_str())?;
    Ok(text)
}

/// What there is behind a cursor.
pub(crate) fn behind(alloc: Global, log: &CoveredLog, cursor: Cursor) -> Result<Found, AllocError>
    ensures { IfOk result (IsBehind log.now cursor) }
{
    match log.after(alloc, cursor.process, cursor.line)? {
        None => Ok(Found::Unknown),
        Some(page) if page.next == cursor.line => Ok(Found::None),
        Some(page) => Ok(Found::Lines(with_cursor(alloc, log, page)?)),
    }
}
