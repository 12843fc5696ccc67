ghost use Rattle.std.specs.Prelude.{◌≡◌, ◌++◌, ◌∷◌, [], Ok, IfErr, string_bytes};
ghost use Rattle.wf_value.specs.Gives.{Gives};
ghost use Rattle.program_commands.specs.Answers.{counted_as, played_text, step_of};
ghost use Rattle.program_commands.specs.PlainStore.{without_disk};
ghost use Rattle.program_commands.specs.Play.{IsAnswer, IsOfCommand};

use crate::line::command_of;
use act_disk::Disk;
use act_store::{Played, Step, Store, take};
use run_plan::Prepared;
use std::alloc::Global;
use wf_value::Refusal;

/// The answer to a line: the answer of its step, and the word that precedes a count in it.
#[derive(Drop)]
pub struct Answer {
    pub word: &'static str,
    pub played: Played,
}

/// The step of a line: `commit`, `begin`, `slice`, `finish`, or else the apply of its command. Only in the last case can
/// it be refused or take memory.
fn step_of(alloc: Global, latest: Option<&Prepared>, line: &[u8]) -> Result<Step, Refusal>
    ensures step { Gives (λ s. s) result (step_of line.now) }
    ensures refused { IfErr result (λ e. IsOfCommand (step_of line.now)) }
{
    if line == b"commit".as_slice() {
        Ok(Step::Commit)
    } else if line == b"begin".as_slice() {
        Ok(Step::Begin)
    } else if line == b"slice".as_slice() {
        Ok(Step::Slice)
    } else if line == b"finish".as_slice() {
        Ok(Step::Finish)
    } else {
        Ok(Step::Apply(command_of(alloc, latest, line)?))
    }
}

/// The word that precedes the count in the answer to a step.
fn counted_as(step: &Step) -> &'static str
    ensures { result.now ≡ counted_as step.now }
{
    match step {
        Step::Apply(_) => "",
        Step::Commit => "committed ",
        Step::Begin => "begun ",
        Step::Slice => "left ",
        Step::Finish => "checked ",
    }
}

/// Carries out a line as a step of the store and returns the answer. A refused line leaves the store unchanged. The
/// answer is 51 only if a disk call failed in its step.
/// Refusal (Sessions and programs): a line of a script: `program_commands::answer::answer_to`
/// When: 75, 10 to 26, and of a command 40 to 49: exactly, with memory, as line, step and store say
/// Afterwards: as of the call; after a line that is no command the store is as it was
/// By: `program_commands::run_script`, `written` (`IsAnswer`)
/// Refusal (Sessions and programs): a line of a script: `program_commands::answer::answer_to`
/// When: Of a begin, slice or finish 47, 48, 56: exactly as the store
/// Afterwards: as of the call
/// By: `program_commands::run_script`, `written` (`IsAnswer`, `carried_out`)
/// Refusal (Sessions and programs): a line of a script: `program_commands::answer::answer_to`
/// When: 50: of a line that is no command, of a command, and of a begin that is not refused for its cause
/// Afterwards: the store is as it was
/// By: `program_commands::run_script`, `written` (`IsWithoutMemory`)
/// Refusal (Sessions and programs): a line of a script: `program_commands::answer::answer_to`
/// When: 51: of a commit with an uncovered entry, or a step of a checkpoint, only if a call of the disk failed; then 52
/// Afterwards: as of the call
/// By: `program_commands::run_script`, `written` (`IsBreak`)
pub fn answer_to<D: Disk>(alloc: Global, store: &mut Store<D>, line: &[u8]) -> Answer
    ensures { IsAnswer (without_disk store.old) (D.fault_count store.old.disk) line.now (played_text result.word.now result.played)
        (without_disk store.new) (D.fault_count store.new.disk) }
{
    match step_of(alloc, store.table().last_event(), line) {
        Ok(step) => Answer {
            word: counted_as(&step),
            played: take(alloc, store, step),
        },
        Err(refusal) => Answer {
            word: "",
            played: Played::Refused(refusal),
        },
    }
}

fn answer_text(alloc: Global, answer: &Answer) -> Result<String, Refusal>
    ensures { Gives (λ text. string_bytes text) result (Ok (played_text answer.now.word.now answer.now.played)) }
{
    let word = answer.word;
    match &answer.played {
        Played::Replied(reply) => Ok(reply.text(alloc)?.into_string()),
        Played::Count(count) => Ok(format!(in alloc; "{word}{count}")?),
        Played::Refused(refusal) => Ok(refusal.text(alloc)?.into_string()),
    }
}

/// The printed answer to a line, with a line feed.
pub fn answer_line(alloc: Global, answer: &Answer) -> Result<String, Refusal>
    ensures { Gives (λ text. string_bytes text) result (Ok (played_text answer.now.word.now answer.now.played ++ 10 ∷ [])) }
{
    let mut text = answer_text(alloc, answer)?;
    text.push_str("\n")?;
    Ok(text)
}
