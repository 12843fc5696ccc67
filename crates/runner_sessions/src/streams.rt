ghost use Rattle.std.specs.Prelude.{IfErr, IfOk};
ghost use Rattle.act_sessions.specs.Ends.{HasFailed, HasFinished};
ghost use Rattle.runner_sessions.specs.Line.{runner_rules};

use crate::protocol::RunnerLines;
use act_sessions::{Answer, SessionFault, Transcript, Work};
use std::alloc::Global;
use std::io::{Read, Write};

/// A session of runner lines.
pub struct Session;

impl Session {
    /// Reads lines and answers each with a line. The session ends when the input ends, 1,024 lines are answered, 512 bytes come without a
    /// line feed, or an answer is refused with 46, 47, 48, 50, 51, 52, 57 or 60. A line that is not a command is answered with `refused
    /// 75`. An unfinished line at the end of the input is dropped. Running out of memory outside a command, and a failed read or write,
    /// end the session with a fault that contains the transcript so far.
    /// Promise (Sessions): Runner lines: at most 1,024, each at most 512 bytes with its line feed; a line is the command of its word and fields,
    ///   else 75
    /// By: `runner_sessions::Session::run`, `ok`, `err` (`runner_rules`, `LineReads`, `command_of`)
    /// Refusal (Sessions and programs): a runner's line, by `runner_sessions::Session::run`
    /// When: 75: exactly, with memory, if it is no command
    /// Afterwards: nothing is asked. The session ends if 512 bytes came without a line feed
    /// By: `ok` (`runner_rules`: `LineReads`, `command_of`)
    pub fn run<R: Read, W: Write, A: Answer>(
        alloc: Global,
        reader: &mut R,
        writer: &mut W,
        answerer: &mut A,
    ) -> Result<Transcript, SessionFault>
        ensures ok { IfOk result (HasFinished runner_rules (R.remaining reader.old) (R.remaining reader.new) (W.contents writer.old) (W.contents writer.new)
            (A.asked answerer.old) (A.asked answerer.new)) }
        ensures err { IfErr result (λ f. HasFailed runner_rules (R.remaining reader.old) (R.remaining reader.new) (W.contents writer.old) (W.contents writer.new)
            (A.asked answerer.old) (A.asked answerer.new) f.transcript) }
    {
        act_sessions::run::<RunnerLines, R, W, A>(alloc, reader, writer, answerer)
    }
}

/// A session of runner lines still to be run, over a reader and a writer.
/// Promise (Sessions): `Lines` and `Hook` are sessions that are still to be held. That the answers reach the writer that was given is tested
/// By: `runner_sessions::Lines`, `webhook_sessions::Hook`, `act_sessions::Work` (`ends`); the tests `lines_are_answered_to_their_writer` and
///   `requests_are_answered_to_their_writer`
#[derive(Drop)]
pub struct Lines<R, W> {
    pub reader: R,
    pub writer: W,
}

impl<R: Read + Drop, W: Write + Drop> Work for Lines<R, W> {
    ghost use Rattle.act_sessions.specs.Ends.{Ends};
    ghost use Rattle.runner_sessions.specs.Line.{runner_rules};

    ghost ends = { λ lines t. Ends runner_rules (R.remaining lines.reader) t };

    fn work<A: Answer>(self, alloc: Global, answer: &mut A) -> Result<Transcript, SessionFault> {
        let mut lines = self;
        act_sessions::run::<RunnerLines, R, W, A>(
            alloc,
            &mut lines.reader,
            &mut lines.writer,
            answer,
        )
    }
}
