ghost use Rattle.std.specs.Prelude.{◌≡◌, ◌⊎◌, ◌+◌, ◌<◌, ◌^◌, [], ◌∷◌, ◌++◌, length, option_map, Err, IfErr, IfOk, IfSome, OnErr, OnOk, Some};
ghost use Rattle.std.specs.Prelude.{vec_capacity, vec_len};
ghost use Rattle.wf_value.specs.Gives.{no_memory};
ghost use Rattle.act_disk.specs.Failed.{device_failed};
ghost use Rattle.definitions.specs.Disk.{EachSince};
ghost use Rattle.table_model.specs.Step.{stepped};
ghost use Rattle.command_encodings.specs.Commands.{IsEncoded, command_bytes};
ghost use Rattle.act_store.specs.StoreState.{RecoversToEither};
ghost use Rattle.act_store.specs.Plain.{entered, receipt_of, refusal_of_apply};
ghost use Rattle.act_store.specs.PendingBatch.{count_length, with_command};
ghost use Rattle.act_store.specs.LaterEntries.{with_encoded};

use crate::begun::{Begun, add_encoding, take_off};
use crate::entry::Entry;
use crate::pending_batch::PendingBatch;
use crate::receipt::Receipt;
use crate::store::Store;
use act_disk::Disk;
use gated_journal::lengths::{GATE, LENGTH};
use run_plan::{Command, Reply};
use run_table::Table;
use std::alloc::Global;
use wf_value::{Code, Refusal};

/// The most entries of a history.
pub const MAX_ENTRIES: usize = 100_000;

impl<D: Disk> Store<D> {
    /// Carries out a command and appends it to the history with its reply. It makes no device call.
    ///
    /// It is refused, whether or not memory is available, with 52 if the device has failed; else with 46 if the history has `MAX_ENTRIES`
    /// entries; else with 57 if the layout of the active area has not the command; else with 47 if the record of all entries that are not
    /// covered, including this one, does not fit the area. The only other failure is out of memory, 50. A refused
    /// command is not entered, and the store does not change.
    /// Promise (The store): `apply` enters the command after the others with exactly the reply of the step, and returns reply and position; the
    ///   disk is as it was
    /// By: `act_store::Store::apply`, `entered`, `waits`
    /// Refusal (The store and the desk): `act_store::Store::apply`
    /// When: Exactly, in order: 52: the store has failed. 46: the history has 100,000 entries. 57: the layout of the active
    ///   area has not the command
    /// Afterwards: nothing is entered, and no device is called
    /// By: `refused`, `cause`, `unchanged`
    /// Refusal (The store and the desk): `act_store::Store::apply`
    /// When: Then 47, exactly: the record of all uncovered entries with this one would not fit. 50: else
    /// Afterwards: nothing is entered, and no device is called
    /// By: `refused`, `cause`, `unchanged`
    pub fn apply(&mut self, alloc: Global, seat: u64, command: Command) -> Result<Receipt, Refusal>
        ensures any_moment { D.honest self.old.disk
            → EachSince D.moment D.images_since self.old.disk self.new.disk (RecoversToEither self.old) }
        ensures entered { IfOk result (λ receipt. (self.new ≡ entered self.old seat command) × (receipt ≡ receipt_of self.old command)) }
        // The new entry is pending until a commit.
        ensures waits { OnOk result (self.new.covered < length self.new.history) }
        ensures refused { IfSome (refusal_of_apply self.old command) (λ refusal. result ≡ Err refusal) }
        ensures cause { IfErr result (λ e. (e ≡ no_memory) ⊎ (refusal_of_apply self.old command ≡ Some e)) }
        ensures unchanged { OnErr result (self.new ≡ self.old) }
        ensures no_fault { IfErr result (λ e. e ≡ device_failed → ⊥) }
    {
        if let Some(refusal) = self.refusal_of(&command) {
            return Err(refusal);
        }
        let reply = enter(
            alloc,
            &mut self.table,
            &mut self.history,
            &mut self.pending_batch,
            &mut self.begun,
            seat,
            command,
        )?;
        Ok(Receipt {
            reply,
            place: self.history.len() as u64,
        })
    }

    /// Why a command is not entered, whether or not memory is available.
    fn refusal_of(&self, command: &Command) -> Option<Refusal>
        ensures { result ≡ refusal_of_apply self.now command.now }
    {
        if self.failed {
            return Some(Refusal::Numbered(Code::FailedEarlier));
        }
        if self.history.len() >= MAX_ENTRIES {
            return Some(Refusal::Numbered(Code::HistoryFull));
        }
        if !self.layout.has(command) {
            return Some(Refusal::Numbered(Code::OldLayout));
        }
        let batch = self.pending_batch.batch_length_with(command);
        if self.areas.len < self.used + GATE + LENGTH + batch + GATE {
            return Some(Refusal::Numbered(Code::AreaFull));
        }
        None
    }
}

/// Carries out a command, and appends it to the history, to the pending commands, and to what a checkpoint in progress keeps. Running
/// out of memory changes nothing.
/// Promise (The store): The record behind the text of a checkpoint is kept as its entries come: the encodings of exactly the entries since the
///   begin. An entry that is refused memory leaves them as they were
/// By: `act_store::apply::enter`, `begun`, `same_begun`; the type `act_store::Store` (`IsSnapshot`)
fn enter(
    alloc: Global,
    table: &mut Table,
    history: &mut Vec<Entry>,
    pending_batch: &mut PendingBatch,
    begun: &mut Option<Begun>,
    seat: u64,
    command: Command,
) -> Result<Reply, Refusal>
    requires few { pending_batch.old.count + 1 < 2 ^ 32 }
    requires fits { count_length + length pending_batch.old.encoded + length (command_bytes command) < 2 ^ 32 }
    ensures reply { IfOk result (λ reply. reply ≡ (stepped table.old command).reply) }
    ensures table { IfOk result (λ _. table.new ≡ (stepped table.old command).table) }
    ensures history { IfOk result (λ _. history.new.items ≡ history.old.items
        ++ record { seat = seat; command = command; reply = (stepped table.old command).reply } ∷ []) }
    ensures pending_batch { OnOk result (pending_batch.new ≡ with_command pending_batch.old command) }
    ensures begun { OnOk result (begun.new ≡ option_map (with_encoded (command_bytes command)) begun.old) }
    ensures encoded { OnOk result (IsEncoded command) }
    ensures same_table { OnErr result (table.new ≡ table.old) }
    ensures same_history { OnErr result (history.new.items ≡ history.old.items) }
    ensures same_pending_batch { OnErr result (pending_batch.new ≡ pending_batch.old) }
    ensures same_begun { OnErr result (begun.new ≡ begun.old) }
    ensures refused { IfErr result (λ e. e ≡ no_memory) }
{
    let (count, encoded) = (pending_batch.count(), pending_batch.encoded_len());
    make_room(alloc, history, pending_batch, &command)?;
    let bytes = pending_batch.encoded_from(encoded);
    match keep_and_step(alloc, table, history, begun, bytes, seat, command) {
        Ok(reply) => Ok(reply),
        Err(refusal) => {
            pending_batch.truncate(count, encoded);
            Err(refusal)
        }
    }
}

/// Makes room for an entry, and appends its command to the pending ones.
fn make_room(
    alloc: Global,
    history: &mut Vec<Entry>,
    pending_batch: &mut PendingBatch,
    command: &Command,
) -> Result<(), Refusal>
    requires few { pending_batch.old.count + 1 < 2 ^ 32 }
    requires fits { count_length + length pending_batch.old.encoded + length (command_bytes command.now) < 2 ^ 32 }
    ensures room { OnOk result (vec_len history.new < vec_capacity history.new) }
    ensures pending_batch { OnOk result (pending_batch.new ≡ with_command pending_batch.old command.now) }
    ensures encoded { OnOk result (IsEncoded command.now) }
    ensures same_history { history.new.items ≡ history.old.items }
    ensures same_pending_batch { OnErr result (pending_batch.new ≡ pending_batch.old) }
    ensures refused { IfErr result (λ e. e ≡ no_memory) }
{
    history.reserve(1)?;
    pending_batch.add(alloc, command)
}

/// Carries out a command, and appends it to a history that has room for it, and its encoding to what a checkpoint in progress keeps.
fn keep_and_step(
    alloc: Global,
    table: &mut Table,
    history: &mut Vec<Entry>,
    begun: &mut Option<Begun>,
    encoded: &[u8],
    seat: u64,
    command: Command,
) -> Result<Reply, Refusal>
    requires { vec_len history.old < vec_capacity history.old }
    ensures reply { IfOk result (λ reply. reply ≡ (stepped table.old command).reply) }
    ensures table { IfOk result (λ _. table.new ≡ (stepped table.old command).table) }
    ensures history { IfOk result (λ _. history.new.items ≡ history.old.items
        ++ record { seat = seat; command = command; reply = (stepped table.old command).reply } ∷ []) }
    ensures begun { OnOk result (begun.new ≡ option_map (with_encoded encoded.now) begun.old) }
    ensures same_table { OnErr result (table.new ≡ table.old) }
    ensures same_history { OnErr result (history.new.items ≡ history.old.items) }
    ensures same_begun { OnErr result (begun.new ≡ begun.old) }
    ensures refused { IfErr result (λ e. e ≡ no_memory) }
{
    add_encoding(begun, encoded)?;
    match step_and_push(alloc, table, history, seat, command) {
        Ok(reply) => Ok(reply),
        Err(refusal) => {
            take_off(begun, encoded.len());
            Err(refusal)
        }
    }
}

/// Carries out a command, and appends it to a history that has room for it.
fn step_and_push(
    alloc: Global,
    table: &mut Table,
    history: &mut Vec<Entry>,
    seat: u64,
    command: Command,
) -> Result<Reply, Refusal>
    requires { vec_len history.old < vec_capacity history.old }
    ensures reply { IfOk result (λ reply. reply ≡ (stepped table.old command).reply) }
    ensures table { IfOk result (λ _. table.new ≡ (stepped table.old command).table) }
    ensures history { IfOk result (λ _. history.new.items ≡ history.old.items
        ++ record { seat = seat; command = command; reply = (stepped table.old command).reply } ∷ []) }
    ensures same_table { OnErr result (table.new ≡ table.old) }
    ensures same_history { OnErr result (history.new.items ≡ history.old.items) }
    ensures refused { IfErr result (λ e. e ≡ no_memory) }
{
    let (reply, told) = table.step_with_copy(alloc, &command)?;
    let entry = Entry {
        seat,
        command: table.sharing(command),
        reply,
    };
    push_within(history, entry);
    Ok(told)
}

/// Appends an entry for which there is room.
fn push_within(history: &mut Vec<Entry>, entry: Entry)
    requires { vec_len history.old < vec_capacity history.old }
    ensures { history.new.items ≡ history.old.items ++ entry ∷ [] }
{
    match history.push(entry) {
        Ok(()) => {}
        Err(_) => unreachable!(),
    }
}
