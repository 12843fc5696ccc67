#![tactic(auto, using(command_encodings::proofs::Keeping::unchanged, command_encodings::proofs::Keeping::longer))]

ghost use Rattle.std.specs.Prelude.{◌≡◌, ◌≤◌, IfErr, OnErr, OnOk, length};
ghost use Rattle.stored_tables.specs.Stored.{stored_table};
ghost use Rattle.wf_value.specs.Gives.{no_memory};
ghost use Rattle.definitions.specs.Format.{Appends};
ghost use Rattle.table_text.specs.Tables.{table};

use crate::push_table::push_table;
use command_encodings::all_or_none;
use run_table::Table;
use wf_value::Refusal;

/// Appends the encoding of a table. The only error is 50, out of memory, which leaves the bytes unchanged.
/// Refusal (The layers below): `table_text`: `write_command`, `write_batch`, `write_table`
/// When: 50
/// Afterwards: the bytes are as they were
/// By: `err`, `refused`
pub fn write_table(out: &mut Vec<u8>, stored: &Table) -> Result<(), Refusal>
    requires { length stored.now.runners ≤ 4294967295 }
    ensures ok { OnOk result (Appends table out.old.items (stored_table stored.now) out.new.items) }
    ensures err { OnErr result (out.new.items ≡ out.old.items) }
    ensures refused { IfErr result (λ e. e ≡ no_memory) }
{
    let before = out.len();
    let written = push_table(out, stored);
    all_or_none(out, before, written)
}
