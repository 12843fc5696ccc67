ghost use Rattle.std.specs.Prelude.{◌≡◌, ◌++◌, ◌∷◌, [], option_copied, string_bytes, IfOk, Ok, OnOk};
ghost use Rattle.http.specs.StatusCode.{status_text};
ghost use Rattle.wf_value.specs.Gives.{Gives};
ghost use Rattle.run_plan.specs.ReplyText.{reply_text};
ghost use Rattle.webhook_sessions.specs.Answers.{allow_line, answer_text, close_line, fault_text, kind_line, refused, response, size_line, out_of_memory_text};

use crate::fault::Fault;
use crate::statuses::{fault_allows, fault_refusal, fault_status, refusal_status, reply_status};
use http::{Method, StatusCode};
use run_plan::Reply;
use std::alloc::{AllocError, Global};
use std::fmt::Write;
use wf_value::Refusal;

const PLAIN: &str = "text/plain";

const JSON: &str = "application/json";

/// The room that an answer takes for its head: no head is longer.
const HEAD_ROOM: usize = 128;

/// The status and its reason phrase.
fn push_status(text: &mut String, status: StatusCode) -> Result<(), AllocError>
    ensures { OnOk result (string_bytes text.new ≡ string_bytes text.old ++ status_text status) }
{
    write!(text, "{status}")
}

fn push_kind(text: &mut String, kind: &str) -> Result<(), AllocError>
    ensures { OnOk result (string_bytes text.new ≡ string_bytes text.old ++ kind_line kind.now) }
{
    text.push_str("Content-Type: ")?;
    text.push_str(kind)?;
    text.push_str("\r\n")?;
    Ok(())
}

fn push_size(text: &mut String, size: usize) -> Result<(), AllocError>
    ensures { OnOk result (string_bytes text.new ≡ string_bytes text.old ++ size_line size) }
{
    text.push_str("Content-Length: ")?;
    write!(text, "{size}\r\n")
}

fn push_allow(text: &mut String, allowed: Option<&Method>) -> Result<(), AllocError>
    ensures { OnOk result (string_bytes text.new ≡ string_bytes text.old ++ allow_line (option_copied allowed.entry)) }
{
    if let Some(method) = allowed {
        text.push_str("Allow: ")?;
        text.push_str(method.as_str())?;
        text.push_str("\r\n")?;
    }
    Ok(())
}

fn push_close(text: &mut String, last: bool) -> Result<(), AllocError>
    ensures { OnOk result (string_bytes text.new ≡ string_bytes text.old ++ close_line last) }
{
    if last {
        text.push_str("Connection: close\r\n")?;
    }
    Ok(())
}

/// An answer with its content. Its memory is taken at once.
#[tactic(auto, unfolding(crate::specs::Answers::response))]
fn response(
    alloc: Global,
    status: StatusCode,
    kind: &str,
    allowed: Option<&Method>,
    last: bool,
    content: &str,
) -> Result<Vec<u8>, AllocError>
    ensures { IfOk result (λ v. v.items ≡ response status kind.now (option_copied allowed.entry) last content.now) }
{
    let room = content.len().saturating_add(HEAD_ROOM);
    let mut text = String::with_capacity(alloc, room)?;
    text.push_str("HTTP/1.1 ")?;
    push_status(&mut text, status)?;
    text.push_str("\r\n")?;
    push_kind(&mut text, kind)?;
    push_size(&mut text, content.len())?;
    push_allow(&mut text, allowed)?;
    push_close(&mut text, last)?;
    text.push_str("\r\n")?;
    text.push_str(content)?;
    Ok(text.into_bytes())
}

/// The answer of a refusal.
fn refused(
    alloc: Global,
    status: StatusCode,
    allowed: Option<&Method>,
    last: bool,
    refusal: &Refusal,
) -> Result<Vec<u8>, Refusal>
    ensures { Gives (λ v. v.items) result (Ok (refused status (option_copied allowed.entry) last refusal.now)) }
{
    let mut content = refusal.text(alloc)?.into_string();
    content.push_str("\n")?;
    Ok(response(alloc, status, PLAIN, allowed, last, content.as_str())?)
}

/// The text of a reply and a line feed.
fn reply_line(alloc: Global, reply: &Reply) -> Result<String, Refusal>
    ensures { Gives (λ text. string_bytes text) result (Ok (reply_text reply.now ++ 10 ∷ [])) }
{
    let mut line = reply.text(alloc)?.into_string();
    line.push_str("\n")?;
    Ok(line)
}

/// The bytes of a reply: an admitted body is sent alone, every other reply is its text and a line feed.
fn replied(alloc: Global, last: bool, reply: &Reply) -> Result<Vec<u8>, Refusal>
    ensures { Gives (λ v. v.items) result (Ok (answer_text last (Ok reply.now))) }
{
    let status = reply_status(reply);
    match reply {
        Reply::Body(body) => Ok(response(alloc, status, JSON, None, last, body.as_str())?),
        _ => {
            let line = reply_line(alloc, reply)?;
            Ok(response(alloc, status, PLAIN, None, last, line.as_str())?)
        }
    }
}

/// The bytes that answer a command.
pub fn answer_text(
    alloc: Global,
    last: bool,
    answer: &Result<Reply, Refusal>,
) -> Result<Vec<u8>, Refusal>
    ensures { Gives (λ v. v.items) result (Ok (answer_text last answer.now)) }
{
    match answer {
        Ok(reply) => replied(alloc, last, reply),
        Err(refusal) => refused(alloc, refusal_status(refusal), None, last, refusal),
    }
}

/// The bytes that answer a fault.
pub fn fault_text(alloc: Global, last: bool, fault: &Fault) -> Result<Vec<u8>, Refusal>
    ensures { Gives (λ v. v.items) result (Ok (fault_text last fault.now)) }
{
    let refusal = fault_refusal(alloc, fault)?;
    refused(
        alloc,
        fault_status(fault),
        fault_allows(fault),
        last,
        &refusal,
    )
}

/// The out-of-memory response outside a command. It takes no memory.
pub fn out_of_memory_text() -> &'static [u8]
    ensures { result.now ≡ out_of_memory_text }
{
    b"HTTP/1.1 503 Service Unavailable\r\nContent-Type: text/plain\r\nContent-Length: 11\r\nConnection: close\r\n\r\nrefused 50\n"
}
