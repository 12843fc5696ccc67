ghost use Rattle.std.specs.Prelude.{◌≡◌, ◌↔◌, ◌+◌, ◌<◌, ◌≤◌, ℕ, List, length, true, false, Err, IfErr, IfOk, IsOk, OnErr, OnOk};
ghost use Rattle.act_disk.specs.Failed.{device_failed};
ghost use Rattle.definitions.specs.Disk.{EachSince, CountsFault};
ghost use Rattle.act_store.specs.Images.{RecoversTo};
ghost use Rattle.act_store.specs.StoreState.{RecoverToCovered, RecoversToEither, table_of};
ghost use Rattle.act_store.specs.Plain.{broken, committed, failed_earlier};

use crate::store::Store;
use act_disk::Disk;
use wf_value::{Code, Refusal};

impl<D: Disk> Store<D> {
    /// Makes all entries durable: writes the record of those that are not covered, syncs, opens its gate, and syncs. It returns how many
    /// entries are covered. If all are covered already, it makes no device call.
    ///
    /// At each moment of the call the disk recovers to the entries that were covered, or to all; after `Ok`, to all. The result is 51
    /// exactly if the device fails, after which the store has failed. It takes no memory, and never fails for lack of space.
    /// Promise (The store): `commit`: at each moment the disk recovers to the entries covered before, or to all; after Ok to all. If nothing is
    ///   pending nothing changes. Four calls of the disk at most, no memory
    /// By: `act_store::Store::commit`, `any_moment`, `recovers`, `covered`, `exact`, `some`, `none`, `calls`, `pending`
    /// Refusal (The store and the desk): `act_store::Store::commit`
    /// When: 52: exactly if the store has failed. 51: exactly if the device fails, which needs an uncovered entry
    /// Afterwards: 52: as it was. 51: failed
    /// By: `failed`, `refused`, `faults`, `pending`, `broken`, `any_moment`
    pub fn commit(&mut self) -> Result<u64, Refusal>
        ensures any_moment { D.honest self.old.disk
            → EachSince D.moment D.images_since self.old.disk self.new.disk (RecoversToEither self.old) }
        ensures recovers { OnOk result (D.honest self.new.disk → (c : List ℕ) → D.images self.new.disk c → RecoversTo (table_of self.old) c) }
        ensures exact { D.honest self.new.disk → RecoverToCovered D.images self.new }
        ensures covered { IfOk result (λ count. (count ≡ length self.old.history) × (self.new.covered ≡ count)) }
        ensures grows { self.old.covered ≤ self.new.covered }
        ensures failed { self.old.failed ≡ true → (result ≡ Err failed_earlier) × (self.new ≡ self.old) }
        ensures none { self.old.failed ≡ false → self.old.covered ≡ length self.old.history → IsOk result × (self.new ≡ self.old) }
        ensures all { OnOk result (length self.old.history ≤ self.old.covered → self.new ≡ self.old) }
        ensures some { OnOk result (self.old.covered < length self.old.history → self.new ≡ committed self.old self.new.disk) }
        ensures broken { OnErr result (self.old.failed ≡ false → self.new ≡ broken self.old self.new.disk) }
        ensures faults { self.old.failed ≡ false → CountsFault result (D.fault_count self.old.disk) (D.fault_count self.new.disk) }
        ensures pending { OnErr result (self.old.failed ≡ false → self.old.covered < length self.old.history) }
        ensures refused { IfErr result (λ e. self.old.failed ≡ false → e ≡ device_failed) }
        ensures calls { D.calls self.new.disk ≤ D.calls self.old.disk + 4 }
        ensures honest { D.honest self.new.disk ↔ D.honest self.old.disk }
    {
        if self.failed {
            return Err(Refusal::Numbered(Code::FailedEarlier));
        }
        if self.pending_batch.is_empty() {
            return Ok(self.covered as u64);
        }
        let bytes = self.pending_batch.as_slice();
        let areas = self.areas;
        match areas.grow(&mut self.disk, self.used, bytes) {
            Err(fault) => {
                self.failed = true;
                Err(Refusal::from(fault))
            }
            Ok(()) => {
                self.used += bytes.len() as u64;
                self.covered = self.history.len();
                self.pending_batch.truncate(0, 0);
                Ok(self.covered as u64)
            }
        }
    }
}
