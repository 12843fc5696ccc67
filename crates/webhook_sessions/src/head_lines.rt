//! How far an incomplete head was read: its complete lines are not read again.

ghost use Rattle.std.specs.Prelude.{◌≡◌, ◌==◌, true, position};
ghost use Rattle.httparse.specs.Grammar.{HasNoRequest, MayBecomeRequest};
ghost use Rattle.httparse.specs.Pieces.{Stops, is_newline};
ghost use Rattle.webhook_sessions.specs.inner.HeadLines.{AreUnfinishedLines, HeadKnown};

use act_sessions::Progress;
use httparse::Status;
use httparse::spans::{EMPTY_HEADER_SPAN, parse_headers_from};

/// The most fields of a head.
pub const MAX_FIELDS: usize = 64;

fn line_feed_index(bytes: &[u8]) -> Option<usize>
    ensures { result ≡ position (λ b. b == 10) bytes.now }
{
    bytes.iter().position(|b| *b == b'\n')
}

/// Whether the bytes begin with a line that is not empty.
fn begin_a_line(bytes: &[u8]) -> bool
    ensures { result ≡ true → Stops is_newline bytes.now }
{
    match bytes.first() {
        Some(first) => *first != b'\r' && *first != b'\n',
        None => false,
    }
}

/// Reads on to the end of the last complete line.
pub fn read_on(bytes: &[u8], progress: Progress) -> Progress
    requires { AreUnfinishedLines bytes.now progress }
    ensures { HeadKnown bytes.now result }
{
    let mut known = progress;
    'lines: while let Some(offset) = line_feed_index(&bytes[known.read..]) {
        known = Progress {
            read: known.read + offset + 1,
            lines: known.lines + 1,
        };
    }
    known
}

/// Reads less than a head from its start to the end of its last complete line. Where it begins with empty lines, nothing is kept.
pub fn read_first(bytes: &[u8]) -> Progress
    requires none { HasNoRequest bytes.now }
    requires may { MayBecomeRequest bytes.now }
    ensures { HeadKnown bytes.now result }
{
    match line_feed_index(bytes) {
        Some(offset) if begin_a_line(bytes) => {
            let start = Progress {
                read: offset + 1,
                lines: 1,
            };
            read_on(bytes, start)
        }
        _ => Progress::none(),
    }
}

/// Whether a head is incomplete, by its lines after those that were read before.
pub fn is_unfinished(bytes: &[u8], progress: Progress) -> bool
    requires { HeadKnown bytes.now progress }
    ensures { result ≡ true → AreUnfinishedLines bytes.now progress }
{
    if progress.lines == 0 {
        return false;
    }
    let mut spans = [EMPTY_HEADER_SPAN; MAX_FIELDS];
    let fields = (progress.lines - 1).min(MAX_FIELDS);
    match parse_headers_from(bytes, progress.read, &mut spans[fields..]) {
        Ok(Status::Partial) => true,
        _ => false,
    }
}
