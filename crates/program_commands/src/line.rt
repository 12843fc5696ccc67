ghost use Rattle.wf_value.specs.Gives.{Gives};
ghost use Rattle.program_commands.specs.Line.{command_by, command_of};

use command_lines::{
    admit_of, at_space, beat_of, cancel_of, claim_of, discharge_of, done_of, fetch_of, forget_of,
    look_of, lost_of, rerun_of, spelled,
};
use run_plan::{Command, Prepared};
use std::alloc::Global;
use wf_value::Refusal;

fn command_by(
    alloc: Global,
    latest: Option<&Prepared>,
    word: &[u8],
    fields: &[u8],
) -> Result<Command, Refusal>
    ensures { Gives (λ c. c) result (command_by word.now fields.now) }
{
    if word == b"admit".as_slice() {
        admit_of(alloc, latest, fields)
    } else if word == b"claim".as_slice() {
        claim_of(alloc, fields)
    } else if word == b"done".as_slice() {
        done_of(alloc, fields)
    } else if word == b"beat".as_slice() {
        beat_of(alloc, fields)
    } else if word == b"cancel".as_slice() {
        cancel_of(fields)
    } else if word == b"lost".as_slice() {
        lost_of(alloc, fields)
    } else if word == b"look".as_slice() {
        look_of(fields)
    } else if word == b"fetch".as_slice() {
        fetch_of(fields)
    } else if word == b"rerun".as_slice() {
        rerun_of(fields)
    } else if word == b"forget".as_slice() {
        forget_of(fields)
    } else if word == b"discharge".as_slice() {
        discharge_of(alloc, fields)
    } else {
        spelled(None)
    }
}

/// The command of a line: `admit DELIVERY EVENT BODY`, `claim RUNNER NUMBER LABELS`, `done RUNNER NUMBER LEASE RESULT`,
/// `beat RUNNER LEASE`, `cancel RUN`, `lost RUNNER`, `look RUN`, `fetch RUN`, `rerun RUN ATTEMPT`, `forget RUN` or
/// `discharge RUNNER`, separated by single spaces. BODY is everything after the third space. Any other line is refused
/// with 75, and a body with a fault with the number of the first one: 10 to 26. Out of memory is 50.
/// Promise (The program): A line is the command of its word and fields, or is refused 75, or with its body's first fault. A refused line leaves
///   the store as it is; every other line is one step of it
/// By: `program_commands::line::command_of`; `program_commands::answer::answer_to` (`IsAnswer`)
pub fn command_of(alloc: Global, latest: Option<&Prepared>, line: &[u8]) -> Result<Command, Refusal>
    ensures { Gives (λ c. c) result (command_of line.now) }
{
    let (word, fields) = spelled(at_space(line))?;
    command_by(alloc, latest, word, fields)
}
