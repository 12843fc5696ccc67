ghost use Rattle.std.specs.Prelude.{◌≡◌, IfErr, IfOk};
ghost use Rattle.std.specs.Option.{option_map};
ghost use Rattle.wf_value.specs.Gives.{no_memory};
ghost use Rattle.definitions.specs.Format.{ReadsPrefix};
ghost use Rattle.table_text.specs.Tables.{table, whole_table};

use crate::table_at::table_at;
use command_encodings::DecodeError;
use run_table::Table;
use std::alloc::Global;
use stored_tables::TableParts;
use wf_value::{Code, Refusal};

/// The parts of the table whose encoding is a prefix of the bytes, and the bytes after it; `None` if no prefix encodes
/// a table. The only error is 50, out of memory, which says nothing about the bytes.
/// Promise (Encodings): What is read of tables, in each layout, is the value whose encoding is at the front, with the bytes after it, and
///   `None` exactly where no prefix is one
/// By: `table_text::{read_parts, read_table, read_first_batch, read_first_table, read_second_batch, read_second_table}`, `prefix`, `refused`
/// Refusal (The layers below): `table_text`: `read_command`, `read_batch`, `read_parts`, `read_table`, `read_first_batch`, `read_first_table`,
///   `read_second_batch`, `read_second_table`
/// When: `None`: exactly, with memory, if no prefix of the bytes is an encoding. 50
/// Afterwards: nothing is made
/// By: `prefix`, `refused`
pub fn read_parts(alloc: Global, bytes: &[u8]) -> Result<Option<(TableParts, &[u8])>, Refusal>
    ensures prefix { IfOk result (λ found. ReadsPrefix table bytes.now (option_map (λ f. (f.0, f.1.now)) found)) }
    ensures refused { IfErr result (λ e. e ≡ no_memory) }
{
    match table_at(alloc, bytes) {
        Ok(found) => Ok(Some(found)),
        Err(DecodeError::NoEncoding) => Ok(None),
        Err(DecodeError::NoMemory) => Err(Refusal::Numbered(Code::NoMemory)),
    }
}

/// The sound table whose encoding is a prefix of the bytes, and the bytes after it; `None` if no prefix encodes one.
/// The only error is 50, out of memory, which says nothing about the bytes.
pub fn read_table(alloc: Global, bytes: &[u8]) -> Result<Option<(Table, &[u8])>, Refusal>
    ensures prefix { IfOk result (λ found. ReadsPrefix whole_table bytes.now (option_map (λ f. (f.0, f.1.now)) found)) }
    ensures refused { IfErr result (λ e. e ≡ no_memory) }
{
    let Some((parts, rest)) = read_parts(alloc, bytes)? else {
        return Ok(None);
    };
    match parts.table(alloc)? {
        Some(table) => Ok(Some((table, rest))),
        None => Ok(None),
    }
}
