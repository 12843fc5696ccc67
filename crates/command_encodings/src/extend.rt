//! A batch that grows in place.

ghost use Rattle.std.specs.Prelude.{◌≡◌, ◌+◌, ◌<◌, ◌≤◌, List, ℕ, [], ◌∷◌, ◌++◌, IfErr, OnErr, OnOk, drop, length, take, vec_capacity, vec_len};
ghost use Rattle.wf_value.specs.Gives.{no_memory};
ghost use Rattle.run_plan.specs.declared.command.Command.{Command};
ghost use Rattle.command_encodings.specs.Commands.{IsEncoded, batch, command_bytes};
ghost use Rattle.definitions.specs.Format.{word_bytes};

use crate::write::write_command;
use run_plan::Command;
use wf_value::Refusal;

/// Makes the encoding of a batch, the bytes from `start` on, that of the batch with one command more. The bytes before
/// `start` stay. The only error is 50, out of memory, which leaves the bytes unchanged.
///
/// It does not matter whether the bytes after the count are commands: it counts one more, and appends its encoding.
/// Promise (Encodings): The encoding of a batch becomes, in place, that of the batch with one command more; the bytes before it stay, and on 50
///   all do. A store grows its pending record so
/// By: `command_encodings::extend_batch`, `batch`, `counts`, `before`, `unchanged`, `refused`; (`PendingBatch::add` of `act_store`)
pub fn extend_batch(out: &mut Vec<u8>, start: usize, added: &Command) -> Result<(), Refusal>
    requires counted { start + 4 ≤ vec_len out.old }
    ensures before { take start out.new.items ≡ take start out.old.items }
    ensures batch { OnOk result ((commands : List Command) → length commands < 4294967295
        → drop start out.old.items ≡ batch.encoding commands
        → drop start out.new.items ≡ batch.encoding (commands ++ added.now ∷ [])) }
    ensures counts { OnOk result ((count : ℕ) (rest : List ℕ) → count < 4294967295
        → drop start out.old.items ≡ word_bytes count ++ rest
        → drop start out.new.items ≡ word_bytes (count + 1) ++ (rest ++ command_bytes added.now)) }
    ensures encoded { OnOk result (IsEncoded added.now) }
    ensures unchanged { OnErr result (out.new.items ≡ out.old.items) }
    ensures refused { IfErr result (λ e. e ≡ no_memory) }
    ensures room { vec_capacity out.old ≤ vec_capacity out.new }
{
    write_command(out, added)?;
    count_one_more(&mut out.as_mut_slice()[start..]);
    Ok(())
}

/// Adds one to the number in the first four bytes.
fn count_one_more(bytes: &mut [u8])
    requires { 4 ≤ length bytes.old }
    ensures { (count : ℕ) (rest : List ℕ) → count < 4294967295 → bytes.old ≡ word_bytes count ++ rest
        → bytes.new ≡ word_bytes (count + 1) ++ rest }
{
    let count = u32::from_be_bytes([bytes[0], bytes[1], bytes[2], bytes[3]]);
    bytes[..4].copy_from_slice(&count.wrapping_add(1).to_be_bytes());
}
