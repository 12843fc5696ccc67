//! The bytes that answer a request.

ghost use Rattle.std.specs.Prelude.{◌≡◌, ◌+◌, ◌<◌, ◌^◌, IfOk, Ok, length, string_bytes};
ghost use Rattle.wf_value.specs.Gives.{Gives};
ghost use Rattle.view_sessions.specs.Answers.{allow_line, answer_bytes, answer_zeros, bytes_of, close_line, head_text, kind_of, status_of, zeros_of};

use crate::board_file::BoardFile;
use crate::fault::ViewFault;
use crate::file_bytes::FileBytes;
use http::StatusCode;
use std::alloc::{AllocError, Global};
use std::fmt::Write;
use wf_value::Refusal;

/// The content of an answer.
#[derive(Drop)]
pub enum Content {
    /// JSON. RFC 8259.
    Json(String),
    /// Lines of JSON.
    Lines(String),
    Plain(String),
    Metrics(String),
    /// A store file.
    Store(FileBytes),
    /// The bytes of a file of the board.
    Board(BoardFile, Vec<u8>),
}

/// An answer: a content, or an error.
pub type Answer = Result<Content, ViewFault>;

/// The bytes of an answer, and how many zeros follow them.
#[derive(Drop)]
pub(crate) struct AnswerBytes {
    pub bytes: Vec<u8>,
    pub zeros: u64,
}

fn kind_of(answer: &Answer) -> &'static str
    ensures { result.now ≡ kind_of answer.now }
{
    match answer {
        Ok(Content::Json(_)) => "application/json",
        Ok(Content::Lines(_)) => "application/x-ndjson",
        Ok(Content::Plain(_)) => "text/plain",
        Ok(Content::Metrics(_)) => "text/plain; version=0.0.4; charset=utf-8",
        Ok(Content::Store(_)) => "application/octet-stream",
        Ok(Content::Board(file, _)) => file.kind(),
        Err(_) => "application/json",
    }
}

fn status_of(answer: &Answer) -> StatusCode
    ensures { result ≡ status_of answer.now }
{
    match answer {
        Ok(_) => StatusCode::OK,
        Err(fault) => fault.status(),
    }
}

/// The bytes of the content.
fn bytes_of(answer: &Answer) -> &[u8]
    ensures { result.now ≡ bytes_of answer.now }
{
    match answer {
        Ok(Content::Json(text) | Content::Lines(text)) => text.as_bytes(),
        Ok(Content::Plain(text) | Content::Metrics(text)) => text.as_bytes(),
        Ok(Content::Store(file)) => file.bytes.as_slice(),
        Ok(Content::Board(_, bytes)) => bytes.as_slice(),
        Err(fault) => fault.content().as_bytes(),
    }
}

/// How many zeros follow the bytes of the content.
fn zeros_of(answer: &Answer) -> u64
    ensures zeros { result ≡ zeros_of answer.now }
    ensures fits { length (bytes_of answer.now) + result < 2 ^ 64 }
{
    match answer {
        Ok(Content::Store(file)) => file.zeros,
        _ => 0,
    }
}

/// The head of an answer whose content has this length.
#[tactic(auto, unfolding(crate::specs::Answers::head_text))]
fn head_text(
    alloc: Global,
    status: StatusCode,
    kind: &str,
    size: u64,
    last: bool,
) -> Result<String, AllocError>
    ensures { IfOk result (λ s. string_bytes s ≡ head_text status kind.now size last) }
{
    let mut text = String::from_str(alloc, "HTTP/1.1 ")?;
    write!(text, "{status}")?;
    text.push_str("\r\nContent-Type: ")?;
    text.push_str(kind)?;
    text.push_str("\r\nContent-Length: ")?;
    write!(text, "{size}")?;
    text.push_str("\r\nCache-Control: no-store\r\n")?;
    text.push_str(allow_line(status))?;
    text.push_str(close_line(last))?;
    text.push_str("\r\n")?;
    Ok(text)
}

fn allow_line(status: StatusCode) -> &'static str
    ensures { result.now ≡ allow_line status }
{
    if status == StatusCode::METHOD_NOT_ALLOWED {
        "Allow: GET, HEAD\r\n"
    } else {
        ""
    }
}

fn close_line(last: bool) -> &'static str
    ensures { result.now ≡ close_line last }
{
    if last { "Connection: close\r\n" } else { "" }
}

/// The bytes of an answer. `last` says that it ends the session.
pub(crate) fn answer_bytes(
    alloc: Global,
    answer: &Answer,
    head_only: bool,
    last: bool,
) -> Result<AnswerBytes, Refusal>
    ensures bytes { Gives (λ a. a.bytes.items) result (Ok (answer_bytes answer.now head_only last)) }
    ensures zeros { IfOk result (λ a. a.zeros ≡ answer_zeros answer.now head_only) }
{
    let content = bytes_of(answer);
    let zeros = zeros_of(answer);
    let size = content.len() as u64 + zeros;
    let head = head_text(alloc, status_of(answer), kind_of(answer), size, last)?;
    let mut bytes = head.into_bytes();
    if head_only {
        return Ok(AnswerBytes { bytes, zeros: 0 });
    }
    bytes.extend_from_slice(content)?;
    Ok(AnswerBytes { bytes, zeros })
}
