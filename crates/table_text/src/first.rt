//! Reads the encodings of the first layout of an area: tables whose runs have no attempts and whose kept leases have no
//! places, and batches without the commands of later layouts. No table is written in this layout.

ghost use Rattle.std.specs.Prelude.{◌≡◌, IfErr, IfOk};
ghost use Rattle.std.specs.List.{list_all};
ghost use Rattle.std.specs.Option.{option_map};
ghost use Rattle.wf_value.specs.Gives.{no_memory};
ghost use Rattle.table_text.specs.FirstLayout.{first_batch, first_table, is_in_first_layout, whole_first_table};
ghost use Rattle.definitions.specs.Format.{ReadsPrefix};

mod list;
pub(crate) mod replies;
mod runners;
mod runs;
mod tables;

use command_encodings::{DecodeError, read_batch};
use run_plan::Command;
use run_table::Table;
use std::alloc::Global;
use stored_tables::TableParts;
use tables::first_table_at;
use wf_value::{Code, Refusal};

/// The parts of the table whose encoding in the first layout is a prefix of the bytes, and the bytes after it; `None`
/// if no prefix encodes a table. The only error is 50, out of memory, which says nothing about the bytes.
fn read_first_parts(alloc: Global, bytes: &[u8]) -> Result<Option<(TableParts, &[u8])>, Refusal>
    ensures prefix { IfOk result (λ found. ReadsPrefix first_table bytes.now (option_map (λ f. (f.0, f.1.now)) found)) }
    ensures refused { IfErr result (λ e. e ≡ no_memory) }
{
    match first_table_at(alloc, bytes) {
        Ok(found) => Ok(Some(found)),
        Err(DecodeError::NoEncoding) => Ok(None),
        Err(DecodeError::NoMemory) => Err(Refusal::Numbered(Code::NoMemory)),
    }
}

/// The sound table whose encoding in the first layout is a prefix of the bytes, and the bytes after it; `None` if no
/// prefix encodes one. Each attempt is 1, and each kept lease is that of the leg that has it. The only error is 50, out
/// of memory, which says nothing about the bytes.
pub fn read_first_table(alloc: Global, bytes: &[u8]) -> Result<Option<(Table, &[u8])>, Refusal>
    ensures prefix { IfOk result (λ found. ReadsPrefix whole_first_table bytes.now (option_map (λ f. (f.0, f.1.now)) found)) }
    ensures refused { IfErr result (λ e. e ≡ no_memory) }
{
    let Some((parts, rest)) = read_first_parts(alloc, bytes)? else {
        return Ok(None);
    };
    match parts.table(alloc)? {
        Some(table) => Ok(Some((table, rest))),
        None => Ok(None),
    }
}

/// Whether the first layout has an encoding of the command. It has one of every command except the one that asks for an
/// attempt and those that forget.
pub fn is_in_first_layout(command: &Command) -> bool
    ensures { result ≡ is_in_first_layout command.now }
{
    match command {
        Command::Rerun(_) | Command::Forget(_) | Command::Discharge(_) => false,
        Command::Admit(_) | Command::Claim(_) | Command::Done(_) | Command::Beat(_) => true,
        Command::Cancel(_) | Command::Lost(_) | Command::Look(_) | Command::Fetch(_) => true,
    }
}

fn are_in_first_layout(commands: &[Command]) -> bool
    ensures { result ≡ list_all is_in_first_layout commands.now }
{
    commands.iter().all(is_in_first_layout)
}

/// The batch whose encoding in the first layout is a prefix of the bytes, and the bytes after it; `None` if no prefix
/// encodes one. The only error is 50, out of memory, which says nothing about the bytes.
#[tactic(auto, using(crate::proofs::WholeFirstTables::none_without_batch, crate::proofs::WholeFirstTables::none_of_batch, crate::proofs::WholeFirstTables::one_of_batch))]
pub fn read_first_batch(
    alloc: Global,
    bytes: &[u8],
) -> Result<Option<(Vec<Command>, &[u8])>, Refusal>
    ensures prefix { IfOk result (λ found. ReadsPrefix first_batch bytes.now (option_map (λ f. (f.0.items, f.1.now)) found)) }
    ensures refused { IfErr result (λ e. e ≡ no_memory) }
{
    let Some((commands, rest)) = read_batch(alloc, bytes)? else {
        return Ok(None);
    };
    if are_in_first_layout(&commands) {
        return Ok(Some((commands, rest)));
    }
    Ok(None)
}
