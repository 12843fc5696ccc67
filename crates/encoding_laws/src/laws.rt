ghost use Rattle.std.specs.Prelude.{◌≤◌, length};
ghost use Rattle.command_encodings.specs.Commands.{batch, command};
ghost use Rattle.table_text.specs.Tables.{whole_table};
ghost use Rattle.encoding_laws.specs.Encoded.{IsEncodedOnce};

use crate::commands::command_fits;
use crate::lists::all_fit;
use crate::tables::table_fits;
use run_plan::Command;
use run_table::Table;

/// Each command has exactly one encoding.
/// Promise (Encodings): Each command, each batch of 1 to 4,294,967,295 commands and each table of at most 4,294,967,295 runners has exactly one
///   encoding
/// By: `encoding_laws::laws::{a_command_is_encoded_once, a_batch_is_encoded_once, a_table_is_encoded_once}` (`IsEncodedOnce`)
pub fn a_command_is_encoded_once(requested: &Command)
    ensures { IsEncodedOnce command requested.now }
{
    command_fits(requested);
}

/// Each batch has exactly one encoding, if a count can hold its number of commands and it has at least one.
pub fn a_batch_is_encoded_once(commands: &[Command])
    requires some { 1 ≤ length commands.now }
    requires most { length commands.now ≤ 4294967295 }
    ensures { IsEncodedOnce batch commands.now }
{
    all_fit(commands);
}

/// Each table has exactly one encoding, if a count can hold its number of runners.
pub fn a_table_is_encoded_once(table: &Table)
    requires { length table.now.runners ≤ 4294967295 }
    ensures { IsEncodedOnce whole_table table.now }
{
    table_fits(table);
}
