//! The commands that read standard input or nothing: `acts play`, `acts check`, `acts lint`, `acts explain`, and the help.

use crate::failure::{Failure, ended};
use crate::streams::{input, output, printed};
use act_disk::MemoryDisk;
use command_words::{Explanation, Unparsed};
use program_commands::{run_check, run_lint, run_script};

/// Plays the script on standard input to standard output.
pub fn play<R: Input + Print + AllocGlobal>(rt: &R) -> Result<(), Failure<'static>> {
    let disk = MemoryDisk::new(rt.alloc());
    let (mut script, mut out) = (input(rt), output(rt)?);
    let played = run_script(rt.alloc(), disk, &mut script, &mut out).1;
    ended(played, script.into_fault(), out.into_fault())
}

/// Checks the workflow on standard input, and prints its legs to standard output.
pub fn check<R: Input + Print + AllocGlobal>(rt: &R) -> Result<(), Failure<'static>> {
    let (mut workflow, mut out) = (input(rt), output(rt)?);
    let checked = run_check(rt.alloc(), &mut workflow, &mut out);
    ended(checked, workflow.into_fault(), out.into_fault())
}

/// Lints the workflow on standard input, and prints its faults to standard output. Returns the exit status: 1 if there
/// is a fault.
pub fn lint<R: Input + Print + AllocGlobal>(rt: &R) -> Result<u8, Failure<'static>> {
    let (mut workflow, mut out) = (input(rt), output(rt)?);
    let linted = run_lint(rt.alloc(), &mut workflow, &mut out);
    let faulty = ended(linted, workflow.into_fault(), out.into_fault())?;
    Ok(if faulty { 1 } else { 0 })
}

/// Prints what a refusal means.
pub fn explain<R: Print>(rt: &R, explanation: &Explanation) -> Result<(), Failure<'static>> {
    printed(rt.println(explanation))
}

/// Prints why the command line is no request, and returns the exit status: 0 for a help text, and 2 for a usage error.
pub fn print_message<R: Print + Eprint>(
    rt: &R,
    unparsed: &Unparsed,
) -> Result<u8, Failure<'static>> {
    let Unparsed::Message(message) = unparsed else {
        return Err(Failure::no_memory());
    };
    printed(message.print(rt))?;
    Ok(message.status())
}
