ghost use Rattle.std.specs.Prelude.{IfErr, IfOk};
ghost use Rattle.act_sessions.specs.Ends.{HasFailed, HasFinished};
ghost use Rattle.webhook_sessions.specs.Hooks.{hooks};

use crate::protocol::Hooks;
use act_sessions::{Answer, SessionFault, Transcript};
use std::alloc::Global;
use std::io::{Read, Write};

/// An HTTP/1.1 session with a sender of events.
pub struct Session;

impl Session {
    /// Reads requests, submits what they demand and writes the answers. The session ends when a request or an answer ends it, the 64th
    /// request is answered, or the input ends before or inside a request. If it runs out of memory outside a command, it answers 503 with
    /// `refused 50` and ends. A failed read or write is a fault with the ending `Broken` (61); its transcript lists each command that was
    /// submitted. RFC 9112; GitHub Docs, "Webhook events and payloads".
    /// Promise (Sessions): HTTP: requests, paths, order of checks, statuses and bytes of answers are the definition's; at most 64 commands, and
    ///   at most 73,728 bytes held
    /// By: `webhook_sessions::Session::run`, `ok`, `err` (`hooks`, `HookReads`, `answer_text`, `fault_text`)
    /// Refusal (Sessions and programs): an HTTP request, by `webhook_sessions::Session::run`
    /// When: Exactly, with memory, in the order of FORMATS: 70, 71, 24, 74 before its body is read
    /// Afterwards: nothing is asked, and the session ends
    /// By: `ok` (`hooks`: `HookReads`, `fault_text`)
    /// Refusal (Sessions and programs): an HTTP request, by `webhook_sessions::Session::run`
    /// When: Exactly, with memory: 72, 73: no such path, another method; 10 to 23, 25, 26: the first fault of an event
    /// Afterwards: nothing is asked
    /// By: `ok` (`hooks`: `HookReads`, `fault_text`); `run_plan::prepare`, `gives`
    pub fn run<R: Read, W: Write, A: Answer>(
        alloc: Global,
        reader: &mut R,
        writer: &mut W,
        answerer: &mut A,
    ) -> Result<Transcript, SessionFault>
        ensures ok { IfOk result (HasFinished hooks (R.remaining reader.old) (R.remaining reader.new) (W.contents writer.old) (W.contents writer.new)
            (A.asked answerer.old) (A.asked answerer.new)) }
        ensures err { IfErr result (λ f. HasFailed hooks (R.remaining reader.old) (R.remaining reader.new) (W.contents writer.old) (W.contents writer.new)
            (A.asked answerer.old) (A.asked answerer.new) f.transcript) }
    {
        act_sessions::run::<Hooks, R, W, A>(alloc, reader, writer, answerer)
    }
}
