ghost use Rattle.std.specs.Prelude.{◌≡◌, Err, IfErr, IfSome, OnErr, OnOk, Some};
ghost use Rattle.act_store.specs.Plain.{refusal_of_turn_over, turned_over};

use crate::store::Store;
use act_disk::Disk;
use std::snapshot::Snapshot;
use wf_value::{Code, Refusal};

impl<D: Disk> Store<D> {
    /// Restarts the history: it is empty, and begins at the current table. No device call is made, and no memory is taken.
    ///
    /// It is refused with 52 exactly if the device has failed, and otherwise with 56 exactly if a checkpoint is in progress or an entry is
    /// not covered. A refusal changes nothing.
    /// Promise (The store): `turn_over` calls no device: the base is the present table, and the history is empty
    /// By: `act_store::Store::turn_over`, `turned`
    /// Refusal (The store and the desk): `act_store::Store::turn_over`
    /// When: Exactly 52; 56: a checkpoint is begun, or an entry is uncovered
    /// Afterwards: as it was
    /// By: `refused` (`refusal_of_turn_over`), `cause`, `unchanged`
    pub fn turn_over(&mut self) -> Result<(), Refusal>
        ensures turned { OnOk result (self.new ≡ turned_over self.old) }
        ensures refused { IfSome (refusal_of_turn_over self.old) (λ refusal. result ≡ Err refusal) }
        ensures cause { IfErr result (λ e. refusal_of_turn_over self.old ≡ Some e) }
        ensures unchanged { OnErr result (self.new ≡ self.old) }
    {
        if let Some(refusal) = self.refusal_of_turn_over() {
            return Err(refusal);
        }
        self.base = Snapshot::of(&self.table);
        self.history.clear();
        self.covered = 0;
        Ok(())
    }

    /// Why the history is not restarted, whether or not memory is available.
    fn refusal_of_turn_over(&self) -> Option<Refusal>
        ensures { result ≡ refusal_of_turn_over self.now }
    {
        if self.failed {
            return Some(Refusal::Numbered(Code::FailedEarlier));
        }
        if self.begun.is_some() || self.covered < self.history.len() {
            return Some(Refusal::Numbered(Code::CheckpointTurn));
        }
        None
    }
}
