ghost use Rattle.std.specs.Prelude.{◌++◌, ◌∷◌, [], Ok};
ghost use Rattle.std.proofs.Common.{rules as common};
ghost use Rattle.wf_value.specs.Gives.{Gives};
ghost use Rattle.runner_sessions.specs.Line.{response_text};

use crate::line::{MAX_LINE, next_line};
use act_sessions::{Next, Progress, Protocol};
use run_plan::{Prepared, Reply};
use std::alloc::Global;
use wf_value::{Chars, Refusal};

/// The most lines of a session.
const MAX_LINES: u64 = 1024;

/// The protocol of runners.
/// Promise (Sessions): Bytes after a line change nothing, and no bytes are both unfinished and a line
/// By: `runner_sessions::RunnerLines`, the laws `steady` and `one` of `act_sessions::Protocol`;
///   `runner_sessions::laws::an_unfinished_line_is_none` (`IsApart`)
pub struct RunnerLines;

/// A text and a line feed.
fn line_of(text: Chars) -> Result<Vec<u8>, Refusal>
    ensures { Gives (λ v. v.items) result (Ok (text ++ 10 ∷ [])) }
{
    let mut line = text.into_string();
    line.push_str("\n")?;
    Ok(line.into_bytes())
}

/// The line that answers a command.
fn response_text(alloc: Global, answer: &Result<Reply, Refusal>) -> Result<Vec<u8>, Refusal>
    ensures { Gives (λ v. v.items) result (Ok (response_text answer.now)) }
{
    match answer {
        Ok(reply) => line_of(reply.text(alloc)?),
        Err(refusal) => line_of(refusal.text(alloc)?),
    }
}

impl Protocol for RunnerLines {
    ghost use Rattle.runner_sessions.specs.inner.Laws.{line_fresh, line_lasts, lines_one, lines_steady};
    ghost use Rattle.runner_sessions.specs.Line.{LineKnown, runner_rules};

    type Fault = Refusal;

    ghost rules = { runner_rules };

    ghost known = { LineKnown };

    fn most() -> u64 {
        MAX_LINES
    }

    fn limit() -> usize {
        MAX_LINE
    }

    fn next(
        alloc: Global,
        _latest: Option<&Prepared>,
        bytes: &[u8],
        progress: Progress,
    ) -> Result<Next<Refusal>, Refusal> {
        next_line(alloc, bytes, progress)
    }

    fn answer_text(
        alloc: Global,
        _last: bool,
        answer: &Result<Reply, Refusal>,
    ) -> Result<Vec<u8>, Refusal> {
        response_text(alloc, answer)
    }

    fn fault_text(alloc: Global, _last: bool, fault: &Refusal) -> Result<Vec<u8>, Refusal> {
        line_of(fault.text(alloc)?)
    }

    fn out_of_memory_response() -> Option<&'static [u8]> {
        None
    }

    ghost steady = { lines_steady };

    ghost one = { lines_one };

    ghost some = { Prim.search common };

    ghost fresh = { line_fresh };

    ghost lasts = { line_lasts };
}
