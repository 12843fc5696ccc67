ghost use Rattle.std.specs.Prelude.{◌≡◌, ◌⊎◌, ◌↔◌, ◌+◌, ◌≤◌, ℕ, List, drop, flat_map, length, not, Err, IfErr, IfOk, IfSome, OnOk, Some};
ghost use Rattle.act_disk.specs.Failed.{device_failed};
ghost use Rattle.definitions.specs.Disk.{EachSince};
ghost use Rattle.gated_journal.specs.Lengths.{head_length};
ghost use Rattle.command_encodings.specs.Commands.{command_bytes};
ghost use Rattle.act_store.specs.Entries.{commands_of};
ghost use Rattle.act_store.specs.Checkpoints.{IsFinished, dropped, has_no_room, refusal_of_finish};
ghost use Rattle.act_store.specs.Images.{RecoversTo};
ghost use Rattle.act_store.specs.StoreState.{RecoversToEither, table_of};
ghost use Rattle.act_store.specs.Plain.{area_full, broken};
ghost use Rattle.act_store.specs.inner.StoreSeen.{as_checkpoint};
ghost use Rattle.act_store.specs.FaultCauses.{TellsFault};

use crate::begun::Begun;
use crate::layout::Layout;
use crate::pending_batch::COUNT;
use crate::store::Store;
use act_disk::Disk;
use gated_journal::lengths::{GATE, HEAD, LENGTH};
use gated_journal::{AreaPair, GateState};
use std::alloc::Global;
use wf_value::{Code, Refusal};

impl<D: Disk> Store<D> {
    /// Finishes a checkpoint: writes one record of the entries since it was begun after its text, syncs, opens the gate of its area, and
    /// syncs. The area that is then active has the third layout. It returns how many entries are covered, which is all of them.
    ///
    /// It takes no memory, so `_alloc` is not used. It is refused with 52 if the device has failed; else with 56 if no checkpoint is in
    /// progress or some of its bytes are not written; else with 47 if the record does not fit. After 47 the checkpoint is dropped, and
    /// nothing else changes. The only other failure is 51, after which the store has failed. At each moment of the call the disk recovers
    /// to the entries that were covered, or to all; after `Ok`, to all.
    /// Promise (The store): After the finish of a checkpoint each image recovers to all entries, by the other area in the third layout
    /// By: `act_store::Store::check_finish`, `recovers`, `finished` (`IsFinished`), `covered`
    /// Refusal (The store and the desk): `act_store::Store::check_finish`
    /// When: Exactly 52; 56: none is begun, or bytes are left
    /// Afterwards: as it was
    /// By: `refused` (`refusal_of_finish`), `unchanged`, `cause`
    /// Refusal (The store and the desk): `act_store::Store::check_finish`
    /// When: 47: exactly if the record of the entries since the begin does not fit after the text
    /// Afterwards: the checkpoint is dropped
    /// By: `refused` (`refusal_of_finish`), `dropped`, `cause`
    /// Refusal (The store and the desk): `act_store::Store::check_finish`
    /// When: 51: exactly if the device fails
    /// Afterwards: failed
    /// By: `faults`, `broken`
    pub fn check_finish(&mut self, _alloc: Global) -> Result<u64, Refusal>
        ensures any_moment { D.honest self.old.disk
            → EachSince D.moment D.images_since self.old.disk self.new.disk (RecoversToEither self.old) }
        ensures recovers { OnOk result (D.honest self.new.disk → (c : List ℕ) → D.images self.new.disk c → RecoversTo (table_of self.old) c) }
        ensures finished { OnOk result (IsFinished self.old self.new) }
        ensures covered { IfOk result (λ count. count ≡ length self.old.history) }
        ensures grows { self.old.covered ≤ self.new.covered }
        ensures refused { IfSome (refusal_of_finish self.old) (λ refusal. result ≡ Err refusal) }
        ensures dropped { result ≡ Err area_full → self.new ≡ dropped self.old }
        ensures broken { result ≡ Err device_failed → self.new ≡ broken self.old self.new.disk }
        ensures unchanged { IfErr result (λ e. (e ≡ device_failed → ⊥) → (e ≡ area_full → ⊥) → self.new ≡ self.old) }
        ensures cause { IfErr result (λ e. (e ≡ device_failed) ⊎ (refusal_of_finish self.old ≡ Some e)) }
        ensures faults { TellsFault result (D.fault_count self.old.disk) (D.fault_count self.new.disk) }
        ensures calls { D.calls self.new.disk ≤ D.calls self.old.disk + 4 }
        ensures honest { D.honest self.new.disk ↔ D.honest self.old.disk }
    {
        match self.refusal_of_finish() {
            Some(Refusal::Numbered(Code::AreaFull)) => {
                self.begun = None;
                return Err(Refusal::Numbered(Code::AreaFull));
            }
            Some(refusal) => return Err(refusal),
            None => {}
        }
        let areas = self.areas;
        let Some(begun) = self.begun.take() else {
            return Err(Refusal::Numbered(Code::CheckpointTurn));
        };
        let mut begun = begun;
        let later = self.history.len() - begun.place;
        begun.last.fill_in(later);
        let at = 1 + begun.head_and_text.len() as u64;
        let last = begun.last.as_slice();
        let end = at + last.len() as u64;
        let switched = areas.switch(&mut self.disk, at, last);
        self.begun = Some(begun);
        match switched {
            Err(fault) => {
                self.failed = true;
                Err(Refusal::from(fault))
            }
            Ok(()) => {
                self.areas = AreaPair {
                    len: areas.len,
                    side: areas.side.other(),
                };
                self.other = GateState::Open;
                self.used = end - 1;
                self.generation += 1;
                self.layout = Layout::Third;
                self.covered = self.history.len();
                self.pending_batch.truncate(0, 0);
                self.begun = None;
                Ok(self.covered as u64)
            }
        }
    }

    /// Why no checkpoint is finished.
    fn refusal_of_finish(&self) -> Option<Refusal>
        ensures { result ≡ refusal_of_finish self.now }
    {
        if self.failed {
            return Some(Refusal::Numbered(Code::FailedEarlier));
        }
        let Some(begun) = &self.begun else {
            return Some(Refusal::Numbered(Code::CheckpointTurn));
        };
        if begun.put < begun.head_and_text.len() {
            return Some(Refusal::Numbered(Code::CheckpointTurn));
        }
        if !self.last_fits(begun) {
            return Some(Refusal::Numbered(Code::AreaFull));
        }
        None
    }

    /// Whether the record of the entries since a checkpoint was begun fits after its text.
    fn last_fits(&self, begun: &Begun) -> bool
        requires place { begun.now.place ≤ length self.now.history }
        requires head { head_length ≤ length begun.now.head_and_text.items }
        requires fits { 2 + length begun.now.head_and_text.items ≤ self.now.area }
        requires later { begun.now.last.encoded ≡ flat_map command_bytes (commands_of (drop begun.now.place self.now.history)) }
        ensures { result ≡ not (has_no_room self.now (as_checkpoint begun.now)) }
    {
        if self.history.len() == begun.place {
            return true;
        }
        let record = GATE + LENGTH + COUNT + begun.last.encoded_len() + GATE;
        begun.head_and_text.len() as u64 + record < self.areas.len
    }
}
