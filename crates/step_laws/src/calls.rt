ghost use Rattle.std.specs.Prelude.{◌≡◌, ◌≤◌, ℕ, length, take, IfErr, OnErr, OnOk};
ghost use Rattle.wf_value.specs.Gives.{no_memory};
ghost use Rattle.group_name.specs.Group.{Group};
ghost use Rattle.table_laws.specs.GroupHistories.{all_moves, requests_cancellation};
ghost use Rattle.table_laws.specs.GroupHolders.{SayWhoHolds};
ghost use Rattle.table_model.specs.GroupLaw.{KeepsLaw};
ghost use Rattle.table_laws.specs.Names.{Names};
ghost use Rattle.table_model.specs.Step.{after};

use run_plan::Command;
use run_table::Table;
use std::alloc::Global;
use wf_value::Refusal;

/// Carries out commands, one after another, by `Table::step`. The only error is 50, after some of the first ones.
///
/// The moves of each concurrency group on the way keep the law of groups, and they say exactly who holds the group in the table that the
/// calls leave.
/// Promise (Concurrency groups): The moves of commands that are carried out by calls of `Table::step` keep the law too
/// By: `step_laws::carry_out`, `after`, `law`, `some`
pub fn carry_out(alloc: Global, table: &mut Table, commands: &[Command]) -> Result<(), Refusal>
    ensures after { OnOk result (table.new ≡ after table.old commands.now) }
    ensures law { OnOk result ((names : Names) (g : Group)
        → KeepsLaw (requests_cancellation names g table.old commands.now) (all_moves names g table.old commands.now)) }
    ensures holders { OnOk result ((names : Names) (g : Group)
        → SayWhoHolds names table.new g (all_moves names g table.old commands.now)) }
    ensures refused { IfErr result (λ e. e ≡ no_memory) }
    ensures some { OnErr result ((n : ℕ) × (n ≤ length commands.now) × (table.new ≡ after table.old (take n commands.now))) }
{
    let _ = table.last_lease();
    take_steps(alloc, table, commands)?;
    Ok(())
}

/// Takes the steps of these commands.
fn take_steps(alloc: Global, table: &mut Table, commands: &[Command]) -> Result<(), Refusal>
    ensures after { OnOk result (table.new ≡ after table.old commands.now) }
    ensures refused { IfErr result (λ e. e ≡ no_memory) }
    ensures some { OnErr result ((n : ℕ) × (n ≤ length commands.now) × (table.new ≡ after table.old (take n commands.now))) }
{
    for command in commands {
        table.step(alloc, command)?;
    }
    Ok(())
}
