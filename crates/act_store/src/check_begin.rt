ghost use Rattle.std.specs.Prelude.{◌≡◌, ◌⊎◌, ◌↔◌, ◌+◌, ◌≤◌, ◌<◌, ◌^◌, [], is_some, length, nat_lt, not, Err, IfErr, IfOk, IfSome, OnOk, None, Some};
ghost use Rattle.wf_value.specs.Gives.{no_memory};
ghost use Rattle.act_disk.specs.Failed.{device_failed};
ghost use Rattle.definitions.specs.Disk.{EachSince};
ghost use Rattle.definitions.specs.Area.{head_bytes};
ghost use Rattle.gated_journal.specs.Lengths.{gate_length};
ghost use Rattle.table_model.specs.Sound.{IsSound};
ghost use Rattle.table_text.specs.Tables.{whole_table};
ghost use Rattle.act_store.specs.Checkpoints.{begun_at, first_gate, refusal_of_begin, text_length, checkpoint_length};
ghost use Rattle.act_store.specs.Layouts.{current_version, EncodesTable};
ghost use Rattle.act_store.specs.OtherGate.{IsShutBeside};
ghost use Rattle.act_store.specs.StoreState.{RecoversToEither, table_of};
ghost use Rattle.act_store.specs.declared.layout.Layout.TheVariants as layouts;
ghost use Rattle.act_store.specs.Plain.{broken};
ghost use Rattle.act_store.specs.FaultCauses.{TellsFault};

use crate::begun::Begun;
use crate::last_part::LastPart;
use crate::layout::Layout;
use crate::store::Store;
use act_disk::Disk;
use gated_journal::GateState;
use gated_journal::lengths::{GATE, HEAD};
use run_table::Table;
use std::alloc::Global;
use table_text::{table_length, write_table};
use wf_value::{Code, Refusal};

impl<D: Disk> Store<D> {
    /// Begins a checkpoint: encodes the current table, and closes the gate of the other area if it is open; otherwise it makes no device
    /// call. It returns how many bytes are to be written: the head and the text in the third layout.
    ///
    /// It is refused, whether or not memory is available, with 52 if the device has failed; else with 56 if a checkpoint is in progress;
    /// else with 48 if the generation is the last one; else with 47 if the text does not fit an area. The only other failures are 50, and
    /// 51, after which the store has failed. At each moment of the call the disk recovers to the entries that were covered, or to all.
    /// Promise (The store): A checkpoint: at each moment of its calls the disk recovers to the entries covered before, or to all. The calls make
    ///   two, one and four calls of the disk at most
    /// By: `act_store::Store::{check_begin, check_slice, check_finish}`, `any_moment`, `calls`
    /// Promise (The store): The begin of a checkpoint says how many bytes are left, and makes no call of the disk beside a closed gate
    /// By: `act_store::Store::check_begin`, `begun`, `left`, `uncalled` (`IsShutBeside`)
    /// Refusal (The store and the desk): `act_store::Store::check_begin`
    /// When: Exactly, in order: 52; 56: a checkpoint is begun; 48: the generation is the last one; 47: the text does not fit an area. 50
    /// Afterwards: as it was, and no device is called
    /// By: `refused` (`refusal_of_begin`), `unchanged`, `cause`, `uncalled`
    /// Refusal (The store and the desk): `act_store::Store::check_begin`
    /// When: 51: exactly if the device fails
    /// Afterwards: failed
    /// By: `faults`, `broken`
    pub fn check_begin(&mut self, alloc: Global) -> Result<u64, Refusal>
        ensures any_moment { D.honest self.old.disk
            → EachSince D.moment D.images_since self.old.disk self.new.disk (RecoversToEither self.old) }
        ensures begun { OnOk result (self.new ≡ begun_at self.old self.new.disk) }
        ensures left { IfOk result (λ left. left ≡ checkpoint_length self.old) }
        ensures refused { IfSome (refusal_of_begin self.old) (λ refusal. result ≡ Err refusal) }
        ensures cause { IfErr result (λ e. (e ≡ no_memory) ⊎ (e ≡ device_failed) ⊎ (refusal_of_begin self.old ≡ Some e)) }
        ensures broken { result ≡ Err device_failed → self.new ≡ broken self.old self.new.disk }
        ensures unchanged { IfErr result (λ e. (e ≡ device_failed → ⊥) → self.new ≡ self.old) }
        ensures faults { TellsFault result (D.fault_count self.old.disk) (D.fault_count self.new.disk) }
        // If the other gate is closed, no device call is made.
        ensures uncalled { D.honest self.old.disk → IsShutBeside self.old.area (D.seen self.old.disk) → self.new.disk ≡ self.old.disk }
        ensures calls { D.calls self.new.disk ≤ D.calls self.old.disk + 2 }
        ensures honest { D.honest self.new.disk ↔ D.honest self.old.disk }
    {
        let text = self.text_to_take()?;
        let begun = take_text(
            alloc,
            self.generation + 1,
            text,
            &self.table,
            self.history.len(),
        )?;
        let areas = self.areas;
        match areas.close_other(&mut self.disk, self.other) {
            Err(fault) => {
                self.failed = true;
                Err(Refusal::from(fault))
            }
            Ok(()) => {
                let left = begun.head_and_text.len() as u64;
                self.other = GateState::Closed;
                self.begun = Some(begun);
                Ok(left)
            }
        }
    }

    /// The length of the text of the current table, or why no checkpoint is begun, whether or not memory is available.
    fn text_to_take(&self) -> Result<u64, Refusal>
        ensures refused { IfErr result (λ refusal. refusal_of_begin self.now ≡ Some refusal) }
        ensures begins { OnOk result (refusal_of_begin self.now ≡ None) }
        ensures text { IfOk result (λ text. text ≡ text_length (table_of self.now)) }
    {
        if self.failed {
            return Err(Refusal::Numbered(Code::FailedEarlier));
        }
        if self.begun.is_some() {
            return Err(Refusal::Numbered(Code::CheckpointTurn));
        }
        if self.generation == u64::MAX {
            return Err(Refusal::Numbered(Code::LastCounter));
        }
        match self.text_that_fits() {
            Some(text) => Ok(text),
            None => Err(Refusal::Numbered(Code::AreaFull)),
        }
    }

    /// The length of the text of the current table, if it fits an area.
    fn text_that_fits(&self) -> Option<u64>
        ensures fits { is_some result ≡ not (nat_lt self.now.area (first_gate (text_length (table_of self.now)) + gate_length)) }
        ensures text { IfSome result (λ text. text ≡ text_length (table_of self.now)) }
    {
        // More runners cannot be encoded; their text would not fit.
        if self.table.runners().len() > u32::MAX as usize {
            return None;
        }
        let text = table_length(&self.table);
        if text > self.areas.len - (GATE + HEAD + GATE) {
            return None;
        }
        Some(text)
    }
}

/// A checkpoint of a table, with nothing written yet: `place` entries lead to the table, and its text has `text` bytes.
fn take_text(
    alloc: Global,
    generation: u64,
    text: u64,
    table: &Table,
    place: usize,
) -> Result<Begun, Refusal>
    requires few { length table.now.runners ≤ 4294967295 }
    requires sound { IsSound table.now }
    requires text { text ≡ text_length table.now }
    requires short { text < 2 ^ 32 }
    ensures prefix { IfOk result (λ b. b.head_and_text.items
        ≡ head_bytes (record { version = current_version; generation = generation; text = whole_table.encoding table.now })) }
    ensures encodes { OnOk result (EncodesTable layouts.Third table.now (whole_table.encoding table.now)) }
    ensures place { IfOk result (λ b. b.place ≡ place) }
    ensures put { IfOk result (λ b. b.put ≡ 0) }
    ensures none { IfOk result (λ b. b.last.encoded ≡ []) }
    ensures refused { IfErr result (λ e. e ≡ no_memory) }
{
    let head_and_text = area_header(alloc, generation, text, table)?;
    let last = LastPart::new(alloc)?;
    Ok(Begun {
        place,
        head_and_text,
        put: 0,
        last,
    })
}

/// The head of an area of a generation, with the text of a table, which has `text` bytes.
#[tactic(auto, using(crate::proofs::TextOfTable::table_encodes))]
fn area_header(alloc: Global, generation: u64, text: u64, table: &Table) -> Result<Vec<u8>, Refusal>
    requires few { length table.now.runners ≤ 4294967295 }
    requires sound { IsSound table.now }
    requires text { text ≡ text_length table.now }
    requires short { text < 2 ^ 32 }
    ensures prefix { IfOk result (λ bytes. bytes.items
        ≡ head_bytes (record { version = current_version; generation = generation; text = whole_table.encoding table.now })) }
    ensures encodes { OnOk result (EncodesTable layouts.Third table.now (whole_table.encoding table.now)) }
    ensures refused { IfErr result (λ e. e ≡ no_memory) }
{
    let mut bytes = vec![in alloc; Layout::Third.byte(); 1]?;
    bytes.reserve((HEAD + text) as usize)?;
    bytes.extend_from_slice(&generation.to_be_bytes())?;
    bytes.extend_from_slice(&text.to_be_bytes())?;
    write_table(&mut bytes, table)?;
    Ok(bytes)
}
