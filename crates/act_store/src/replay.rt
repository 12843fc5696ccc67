ghost use Rattle.std.specs.Prelude.{◌≡◌, IfErr, IfOk, List, MatchOption};
ghost use Rattle.wf_value.specs.Gives.{no_memory};
ghost use Rattle.run_plan.specs.declared.command.Command.{Command};
ghost use Rattle.table_model.specs.Step.{after};
ghost use Rattle.definitions.specs.Format.{Encodes};
ghost use Rattle.act_store.specs.Layouts.{batch_format};
ghost use Rattle.act_store.specs.inner.Replayed.{IsCarried, IsReplayed};

use crate::layout::Layout;
use gated_journal::record_at;
use run_plan::Command;
use run_table::Table;
use std::alloc::Global;
use wf_value::Refusal;

/// Carries out the commands of the records in a layout, in order. Returns `None` if a body encodes no batch.
#[tactic(auto, using(crate::proofs::Replaying::none_so_far, crate::proofs::Replaying::one_more, gated_journal::proofs::Parting::shorter))]
pub(crate) fn replay(
    alloc: Global,
    layout: Layout,
    first: Table,
    records: &[u8],
) -> Result<Option<Table>, Refusal>
    ensures replayed { IfOk result (λ last. IsReplayed layout records.now first last) }
    ensures refused { IfErr result (λ e. e ≡ no_memory) }
{
    let mut table = first;
    let mut rest = records;
    while let Some((body, suffix)) = record_at(rest) {
        match carry_body(alloc, layout, table, body)? {
            Some(next) => table = next,
            None => return Ok(None),
        }
        rest = suffix;
    }
    Ok(Some(table))
}

/// The commands of a body, or `None` if it encodes no batch.
#[tactic(auto, using(crate::proofs::Replaying::whole_batch, crate::proofs::Replaying::left_over, crate::proofs::Replaying::no_batch))]
fn batch_of(alloc: Global, layout: Layout, body: &[u8]) -> Result<Option<Vec<Command>>, Refusal>
    ensures batch { IfOk result (λ found. MatchOption found ((commands : List Command) → Encodes (batch_format layout) body.now commands → ⊥)
        (λ commands. Encodes (batch_format layout) body.now commands.items)) }
    ensures refused { IfErr result (λ e. e ≡ no_memory) }
{
    let Some((commands, rest)) = layout.read_batch(alloc, body)? else {
        return Ok(None);
    };
    if rest.len() > 0 {
        return Ok(None);
    }
    Ok(Some(commands))
}

/// Carries out the commands of a body. Returns `None` if it encodes no batch.
#[tactic(auto, using(crate::proofs::Replaying::carried_whole))]
fn carry_body(
    alloc: Global,
    layout: Layout,
    table: Table,
    body: &[u8],
) -> Result<Option<Table>, Refusal>
    ensures carried { IfOk result (λ next. IsCarried layout body.now table next) }
    ensures refused { IfErr result (λ e. e ≡ no_memory) }
{
    let Some(commands) = batch_of(alloc, layout, body)? else {
        return Ok(None);
    };
    let next = carry_all(alloc, table, commands.as_slice())?;
    Ok(Some(next))
}

/// Carries out commands in order.
fn carry_all(alloc: Global, first: Table, commands: &[Command]) -> Result<Table, Refusal>
    ensures carried { IfOk result (λ last. last ≡ after first commands.now) }
    ensures refused { IfErr result (λ e. e ≡ no_memory) }
{
    let mut table = first;
    for command in commands {
        table.step(alloc, command)?;
    }
    Ok(table)
}
