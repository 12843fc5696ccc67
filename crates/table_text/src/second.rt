//! Reads the encodings of the second layout of an area: tables that have forgotten no run, and batches without the commands
//! that forget. No table is written in this layout.

ghost use Rattle.std.specs.Prelude.{◌≡◌, IfErr, IfOk};
ghost use Rattle.std.specs.List.{list_all};
ghost use Rattle.std.specs.Option.{option_map};
ghost use Rattle.wf_value.specs.Gives.{no_memory};
ghost use Rattle.table_text.specs.SecondLayout.{is_in_second_layout, second_batch, second_table, whole_second_table};
ghost use Rattle.definitions.specs.Format.{ReadsPrefix};

mod tables;

use command_encodings::{DecodeError, read_batch};
use run_plan::Command;
use run_table::Table;
use std::alloc::Global;
use stored_tables::TableParts;
use tables::second_table_at;
use wf_value::{Code, Refusal};

/// The parts of the table whose encoding in the second layout is a prefix of the bytes, and the bytes after it; `None`
/// if no prefix encodes a table. The only error is 50, out of memory, which says nothing about the bytes.
fn read_second_parts(alloc: Global, bytes: &[u8]) -> Result<Option<(TableParts, &[u8])>, Refusal>
    ensures prefix { IfOk result (λ found. ReadsPrefix second_table bytes.now (option_map (λ f. (f.0, f.1.now)) found)) }
    ensures refused { IfErr result (λ e. e ≡ no_memory) }
{
    match second_table_at(alloc, bytes) {
        Ok(found) => Ok(Some(found)),
        Err(DecodeError::NoEncoding) => Ok(None),
        Err(DecodeError::NoMemory) => Err(Refusal::Numbered(Code::NoMemory)),
    }
}

/// The sound table whose encoding in the second layout is a prefix of the bytes, and the bytes after it; `None` if no
/// prefix encodes one. It has forgotten no run. The only error is 50, out of memory, which says nothing about the bytes.
pub fn read_second_table(alloc: Global, bytes: &[u8]) -> Result<Option<(Table, &[u8])>, Refusal>
    ensures prefix { IfOk result (λ found. ReadsPrefix whole_second_table bytes.now (option_map (λ f. (f.0, f.1.now)) found)) }
    ensures refused { IfErr result (λ e. e ≡ no_memory) }
{
    let Some((parts, rest)) = read_second_parts(alloc, bytes)? else {
        return Ok(None);
    };
    match parts.table(alloc)? {
        Some(table) => Ok(Some((table, rest))),
        None => Ok(None),
    }
}

/// Whether the second layout has an encoding of the command. It has one of every command except those that forget runs or
/// a runner.
pub fn is_in_second_layout(command: &Command) -> bool
    ensures { result ≡ is_in_second_layout command.now }
{
    match command {
        Command::Forget(_) | Command::Discharge(_) => false,
        Command::Admit(_) | Command::Claim(_) | Command::Done(_) | Command::Beat(_) => true,
        Command::Cancel(_) | Command::Lost(_) | Command::Look(_) | Command::Fetch(_) => true,
        Command::Rerun(_) => true,
    }
}

fn are_in_second_layout(commands: &[Command]) -> bool
    ensures { result ≡ list_all is_in_second_layout commands.now }
{
    commands.iter().all(is_in_second_layout)
}

/// The batch whose encoding in the second layout is a prefix of the bytes, and the bytes after it; `None` if no prefix
/// encodes one. The only error is 50, out of memory, which says nothing about the bytes.
#[tactic(auto, using(crate::proofs::WholeSecondTables::none_without_second_batch, crate::proofs::WholeSecondTables::none_of_second_batch, crate::proofs::WholeSecondTables::one_of_second_batch))]
pub fn read_second_batch(
    alloc: Global,
    bytes: &[u8],
) -> Result<Option<(Vec<Command>, &[u8])>, Refusal>
    ensures prefix { IfOk result (λ found. ReadsPrefix second_batch bytes.now (option_map (λ f. (f.0.items, f.1.now)) found)) }
    ensures refused { IfErr result (λ e. e ≡ no_memory) }
{
    let Some((commands, rest)) = read_batch(alloc, bytes)? else {
        return Ok(None);
    };
    if are_in_second_layout(&commands) {
        return Ok(Some((commands, rest)));
    }
    Ok(None)
}
