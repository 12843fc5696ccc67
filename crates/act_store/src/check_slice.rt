ghost use Rattle.std.specs.Prelude.{◌≡◌, ◌⊎◌, ◌↔◌, ◌+◌, ◌-◌, ◌<◌, ◌≤◌, ◌^◌, ℕ, List, length, take, min, Err, IfErr, IfOk, IfSome, OnOk, OnErr, Some};
ghost use Rattle.act_disk.specs.Failed.{device_failed};
ghost use Rattle.definitions.specs.Disk.{CountsFault, EachSince, Holds};
ghost use Rattle.definitions.specs.Area.{Head};
ghost use Rattle.gated_journal.specs.TwoAreas.{other, start_of};
ghost use Rattle.gated_journal.specs.Whole.{RecoversWhole};
ghost use Rattle.gated_journal.specs.declared.gate.GateState.TheVariants.{Closed};
ghost use Rattle.act_store.specs.Checkpoints.{left_of, refusal_of_slice, sliced};
ghost use Rattle.act_store.specs.StoreState.{RecoversToEither};
ghost use Rattle.act_store.specs.Plain.{broken};
ghost use Rattle.act_store.specs.FaultCauses.{TellsFault};
ghost use Rattle.definitions.specs.Limits.{max_slice};

use crate::begun::Begun;
use crate::store::Store;
use act_disk::{Disk, DiskFault};
use gated_journal::AreaPair;
use wf_value::{Code, Refusal};

/// The most bytes of a slice.
const SLICE: usize = 4_096;

impl<D: Disk> Store<D> {
    /// Writes a slice of a checkpoint in progress, up to 4,096 bytes, and returns how many are left. Takes no memory.
    ///
    /// It is refused with 52 if the device has failed; else with 56 if no checkpoint is in progress or nothing of it is left; else with 51
    /// if the device fails, after which the store has failed. At each moment of the call the disk recovers to the entries that were
    /// covered, or to all.
    /// Promise (The store): A slice of a checkpoint says how many bytes are left, and needs no memory
    /// By: `act_store::Store::check_slice`, `sliced`, `left`
    /// Refusal (The store and the desk): `act_store::Store::check_slice`
    /// When: Exactly 52; 56: none is begun, or nothing is left. 51: exactly if the device fails
    /// Afterwards: as it was; after 51 failed
    /// By: `refused` (`refusal_of_slice`), `cause`, `faults`, `broken`
    pub fn check_slice(&mut self) -> Result<u64, Refusal>
        ensures any_moment { D.honest self.old.disk
            → EachSince D.moment D.images_since self.old.disk self.new.disk (RecoversToEither self.old) }
        ensures sliced { OnOk result (self.new ≡ sliced self.old self.new.disk) }
        ensures left { IfOk result (λ left. left ≡ left_of self.new.begun) }
        ensures refused { IfSome (refusal_of_slice self.old) (λ refusal. (result ≡ Err refusal) × (self.new ≡ self.old)) }
        ensures cause { IfErr result (λ e. (e ≡ device_failed) ⊎ (refusal_of_slice self.old ≡ Some e)) }
        ensures broken { result ≡ Err device_failed → self.new ≡ broken self.old self.new.disk }
        ensures faults { TellsFault result (D.fault_count self.old.disk) (D.fault_count self.new.disk) }
        ensures calls { D.calls self.new.disk ≤ D.calls self.old.disk + 1 }
        ensures honest { D.honest self.new.disk ↔ D.honest self.old.disk }
    {
        if let Some(refusal) = self.refusal_of_slice() {
            return Err(refusal);
        }
        let areas = self.areas;
        let Some(begun) = self.begun.take() else {
            return Err(Refusal::Numbered(Code::CheckpointTurn));
        };
        let mut begun = begun;
        match put_slice(areas, &mut self.disk, &mut begun) {
            Err(fault) => {
                self.begun = Some(begun);
                self.failed = true;
                Err(Refusal::from(fault))
            }
            Ok(()) => {
                let left = begun.head_and_text.len() - begun.put;
                self.begun = Some(begun);
                Ok(left as u64)
            }
        }
    }

    /// Why no slice is written.
    fn refusal_of_slice(&self) -> Option<Refusal>
        ensures { result ≡ refusal_of_slice self.now }
    {
        if self.failed {
            return Some(Refusal::Numbered(Code::FailedEarlier));
        }
        match &self.begun {
            Some(begun) if begun.put < begun.head_and_text.len() => None,
            _ => Some(Refusal::Numbered(Code::CheckpointTurn)),
        }
    }
}

/// Writes the next slice of a checkpoint.
fn put_slice<D: Disk>(areas: AreaPair, disk: &mut D, begun: &mut Begun) -> Result<(), DiskFault>
    requires countable { D.fault_count disk.old < u64.MAX }
    requires addressed { areas.len + areas.len < 2 ^ 64 }
    requires put { begun.old.put ≤ length begun.old.head_and_text.items }
    requires fits { 2 + length begun.old.head_and_text.items ≤ areas.len }
    ensures any_moment { (head : Head) (bodies : List (List ℕ)) → D.honest disk.old
        → ((c : List ℕ) → D.images disk.old c → RecoversWhole areas.len areas.side Closed c head bodies)
        → EachSince D.moment D.images_since disk.old disk.new (λ c. RecoversWhole areas.len areas.side Closed c head bodies) }
    ensures held { OnOk result (D.honest disk.old → areas.len + areas.len ≤ length (D.seen disk.old)
        → Holds (D.seen disk.old) (start_of areas.len (other areas.side) + 1) (take begun.old.put begun.old.head_and_text.items)
        → Holds (D.seen disk.new) (start_of areas.len (other areas.side) + 1) (take begun.new.put begun.old.head_and_text.items)) }
    ensures same_text { begun.new.head_and_text.items ≡ begun.old.head_and_text.items }
    ensures same_place { begun.new.place ≡ begun.old.place }
    ensures same_last { begun.new.last ≡ begun.old.last }
    ensures put { OnOk result (begun.new.put ≡ min (begun.old.put + max_slice) (length begun.old.head_and_text.items)) }
    ensures same { OnErr result (begun.new ≡ begun.old) }
    ensures calls { D.calls disk.new ≡ D.calls disk.old + 1 }
    ensures faults { CountsFault result (D.fault_count disk.old) (D.fault_count disk.new) }
    ensures honest { D.honest disk.new ↔ D.honest disk.old }
{
    let from = begun.put;
    let to = begun.head_and_text.len().min(from + SLICE);
    areas.put(disk, 1 + from as u64, &begun.head_and_text[from..to])?;
    begun.put = to;
    Ok(())
}
