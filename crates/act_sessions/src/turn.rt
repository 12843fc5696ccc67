//! One turn of a session: whether it is the last, and the bytes that answer its request. Sessions over streams and sessions in memory take
//! their turns here.

ghost use Rattle.std.specs.Prelude.{◌≡◌, ◌<◌, ◌+◌, ◌==◌, ◌||◌, ℕ, List, Ok, IfSome, IsOk, IsSome};
ghost use Rattle.wf_value.specs.Gives.{Gives};
ghost use Rattle.act_sessions.specs.Rules.{Answered, Refused};
ghost use Rattle.act_sessions.specs.Taking.{IsText, Takes};

use crate::last::ends_session;
use crate::protocol::Protocol;
use crate::request::{Demand, Request};
use crate::submit::Submit;
use crate::turn_text::TurnText;
use run_plan::Reply;
use std::alloc::Global;
use wf_value::Refusal;

/// Whether a turn after `count` others is the last.
fn is_last(ends: bool, count: u64, most: u64) -> bool
    requires { count < most }
    ensures { result ≡ (ends || (count + 1 == most)) }
{
    ends || count + 1 == most
}

/// The text of these bytes, or `None` if there was no memory for them.
fn text_of(bytes: Result<Vec<u8>, Refusal>, last: bool) -> Option<TurnText>
    ensures text { (words : List ℕ) → Gives (λ v. v.items) bytes (Ok words) → IfSome result (λ text. (text.last ≡ last) × (text.bytes.items ≡ words)) }
    ensures some { IsOk bytes → IsSome result }
{
    match bytes {
        Ok(bytes) => Some(TurnText { bytes, last }),
        Err(_) => None,
    }
}

/// The text of a command's turn, after `count` others. Returns `None` if it runs out of memory.
pub fn text_of_answer<P: Protocol>(
    alloc: Global,
    answer: &Result<Reply, Refusal>,
    closes: bool,
    count: u64,
) -> Option<TurnText>
    requires { count < P.rules.most }
    ensures { (command : _) → IfSome result (IsText P.rules count (Answered command closes answer.now)) }
{
    let last = is_last(closes || ends_session(answer), count, P::most());
    text_of(P::answer_text(alloc, last, answer), last)
}

/// The text of a turn for which no command is submitted.
fn text_of_fault<P: Protocol>(
    alloc: Global,
    fault: &P::Fault,
    closes: bool,
    count: u64,
) -> Option<TurnText>
    requires { count < P.rules.most }
    ensures { IfSome result (IsText P.rules count (Refused fault.now closes)) }
{
    let last = is_last(closes, count, P::most());
    text_of(P::fault_text(alloc, last, fault), last)
}

/// Takes a turn after `count` others: submits the request's command, if it has one, and returns the text that answers it. Returns `None`
/// if it runs out of memory.
/// Promise (Sessions): In a turn a command is submitted once, a fault submits nothing, and the text is that of the answer, as the last or not.
///   Out of memory, the command was submitted once or not at all
/// By: `act_sessions::take_turn` (`Takes`), `act_sessions::text_of_answer` (`IsText`)
pub fn take_turn<P: Protocol, S: Submit<A>, A>(
    alloc: Global,
    submitter: &mut S,
    answerer: &mut A,
    request: Request<P::Fault>,
    count: u64,
) -> Option<TurnText>
    requires { count < P.rules.most }
    ensures { Takes P.rules S.submits count request submitter.old answerer.old submitter.new answerer.new result }
{
    let Request { demand, closes } = request;
    match demand {
        Demand::Command(command) => {
            submitter.submit::<P>(alloc, answerer, command, closes, count)
        }
        Demand::Fault(fault) => text_of_fault::<P>(alloc, &fault, closes, count),
    }
}
