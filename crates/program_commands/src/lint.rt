ghost use Rattle.std.specs.Prelude.{◌≡◌, ℕ, List, IfOk, IfSome, string_bytes};
ghost use Rattle.std.specs.Io.KnownBytes.{Appends};
ghost use Rattle.workflow_lint.specs.Lines.{finding_lines};
ghost use Rattle.program_commands.specs.Input.{ReadsAtMost};
ghost use Rattle.program_commands.specs.Lint.{Lints, LintsTo, is_any};
ghost use Rattle.program_commands.specs.inner.Writes.{Writes};

use crate::input::read_input;
use byte_streams::{flush, write_whole};
use std::alloc::{AllocError, Global};
use std::io::{Read, Write};
use wf_value::Refusal;
use workflow_lint::{Finding, finding_line, lint};

fn lines_of(alloc: Global, found: &[Finding]) -> Result<String, AllocError>
    ensures { IfOk result (λ text. string_bytes text ≡ finding_lines found.now) }
{
    let mut text = String::new(alloc);
    for finding in found {
        let line = finding_line(alloc, finding)?;
        text.push_str(line.as_str())?;
    }
    Ok(text)
}

fn write_lines<W: Write>(alloc: Global, found: &[Finding], writer: &mut W) -> Result<(), Refusal>
    ensures { Writes (W.contents writer.old) (W.contents writer.new) (finding_lines found.now) result }
{
    let text = lines_of(alloc, found)?;
    write_whole(writer, text.as_bytes())
}

fn is_any(found: &[Finding]) -> bool
    ensures { result ≡ is_any found.now }
{
    match found {
        [] => false,
        [_, ..] => true,
    }
}

/// Writes a line for each fault of the workflow that a text encodes. Returns whether there is one.
fn write_linted<W: Write>(alloc: Global, text: &[u8], writer: &mut W) -> Result<bool, Refusal>
    ensures { (out : List ℕ) × Appends (W.contents writer.old) (W.contents writer.new) out × Lints text.now out result }
{
    let found = lint(alloc, text)?;
    write_lines(alloc, found.as_slice(), writer)?;
    flush(writer)?;
    Ok(is_any(found.as_slice()))
}

/// Lints a workflow, whose text is read without an envelope. It writes a line `NUMBER PATH: MEANING` for each fault, in
/// the order of the checks, and returns whether there is one. A text over 1,048,576 bytes is refused with 76; nothing
/// is written, and at most 1,048,577 bytes are read. A failed read or write is 61, and out of memory is 50.
/// Promise (The program): `acts lint`: a line for each fault, in order, and whether there is one
/// By: `program_commands::run_lint`, `written` (`LintsTo`, `linted`); `workflow_lint::{lint, finding_line}`
pub fn run_lint<R: Read, W: Write>(
    alloc: Global,
    reader: &mut R,
    writer: &mut W,
) -> Result<bool, Refusal>
    ensures read { ReadsAtMost 1048577 (R.remaining reader.old) (R.remaining reader.new) }
    ensures written { IfSome (R.remaining reader.old) (λ text. (out : List ℕ)
        × Appends (W.contents writer.old) (W.contents writer.new) out × LintsTo text out result) }
{
    let text = read_input(alloc, reader)?;
    write_linted(alloc, &text, writer)
}
