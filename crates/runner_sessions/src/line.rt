ghost use Rattle.std.specs.Prelude.{◌≡◌, ◌≤◌, ◌==◌, Ok, length, position, take};
ghost use Rattle.wf_value.specs.Gives.{Gives};
ghost use Rattle.act_sessions.specs.inner.Held.{Keeps};
ghost use Rattle.act_sessions.specs.Rules.{IsNext};
ghost use Rattle.runner_sessions.specs.Line.{HasNoFeed, LineKnown, command_by, command_of, request_in, runner_rules};

use act_sessions::{Demand, FoundRequest, Next, Progress, Request};
use command_lines::{
    at_space, beat_of, claim_of, done_of, fetch_of, line_feed_index, spelled, strip_carriage_return,
};
use run_plan::Command;
use std::alloc::Global;
use wf_value::{Code, Refusal};

/// The longest line with its line feed, in bytes.
pub const MAX_LINE: usize = 512;

fn command_by(alloc: Global, word: &[u8], fields: &[u8]) -> Result<Command, Refusal>
    ensures { Gives (λ c. c) result (command_by word.now fields.now) }
{
    if word == b"CLAIM".as_slice() {
        claim_of(alloc, fields)
    } else if word == b"DONE".as_slice() {
        done_of(alloc, fields)
    } else if word == b"BEAT".as_slice() {
        beat_of(alloc, fields)
    } else if word == b"FETCH".as_slice() {
        fetch_of(fields)
    } else {
        spelled(None)
    }
}

/// The command of a line. Every other line is refused with 75; out of memory is refusal 50.
fn command_of(alloc: Global, line: &[u8]) -> Result<Command, Refusal>
    ensures { Gives (λ c. c) result (command_of line.now) }
{
    let (word, fields) = spelled(at_space(line))?;
    command_by(alloc, word, fields)
}

/// What a line demands. The line may end with a carriage return.
fn request_in(alloc: Global, line: &[u8]) -> Result<Request<Refusal>, Refusal>
    ensures { Gives (λ r. r) result (Ok (request_in line.now)) }
{
    let demand = match command_of(alloc, strip_carriage_return(line)) {
        Ok(command) => Demand::Command(command),
        Err(Refusal::Numbered(Code::NoMemory)) => return Err(Refusal::Numbered(Code::NoMemory)),
        Err(refusal) => Demand::Fault(refusal),
    };
    Ok(Request {
        demand,
        closes: false,
    })
}

/// The index of the first line feed, if the first `read` bytes contain none.
fn feed_index(bytes: &[u8], read: usize) -> Option<usize>
    requires within { read ≤ length bytes.now }
    requires none { HasNoFeed (take read bytes.now) }
    ensures { result ≡ position (λ b. b == 10) bytes.now }
{
    match line_feed_index(&bytes[read..]) {
        Some(offset) => Some(read + offset),
        None => None,
    }
}

/// The whole line at the start of the bytes: a line with its line feed, or as many bytes as the longest line has without one. Bytes that
/// were read before, and contain no line feed, are not read again.
pub fn next_line(alloc: Global, bytes: &[u8], progress: Progress) -> Result<Next<Refusal>, Refusal>
    requires { LineKnown bytes.now progress }
    ensures found { IsNext runner_rules bytes.now result }
    ensures kept { Keeps (LineKnown bytes.now) result }
{
    let prefix = &bytes[..bytes.len().min(MAX_LINE)];
    match feed_index(prefix, progress.read) {
        Some(offset) => Ok(Next::Whole(FoundRequest {
            request: request_in(alloc, &bytes[..offset])?,
            length: offset + 1,
        })),
        None if prefix.len() < MAX_LINE => Ok(Next::Waits {
            until: prefix.len() + 1,
            progress: Progress {
                read: prefix.len(),
                lines: 0,
            },
        }),
        None => Ok(Next::Whole(FoundRequest {
            request: Request {
                demand: Demand::Fault(Refusal::Numbered(Code::Line)),
                closes: true,
            },
            length: MAX_LINE,
        })),
    }
}
