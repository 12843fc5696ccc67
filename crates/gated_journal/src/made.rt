ghost use Rattle.std.specs.Prelude.{◌≡◌, ◌↔◌, ◌+◌, ◌<◌, ◌≤◌, ◌^◌, ℕ, List, ◌∷◌, length, OnOk};
ghost use Rattle.definitions.specs.Disk.{CountsFault};
ghost use Rattle.definitions.specs.Area.{Head, Fits};
ghost use Rattle.gated_journal.specs.TwoAreas.{after_gate};
ghost use Rattle.gated_journal.specs.Whole.{RecoversWhole};
ghost use Rattle.gated_journal.specs.declared.gate.GateState.TheVariants.{Closed};
ghost use Rattle.gated_journal.specs.declared.side.Side.TheVariants.{First};

use crate::append::OPEN;
use crate::gate::CLOSED;
use act_disk::{Disk, DiskFault, write_synced};

/// Creates two areas of length `len` on an empty disk. The bytes are the contents of the first one, with a closed gate, which is opened
/// once they are durable. The gate of the second area is closed.
/// Promise (Areas and records): Two areas made on an empty disk: after Ok the first is active and reads as made, the other gate is closed. A
///   crash inside the call is not covered; six calls of the disk at most
/// By: `gated_journal::make_areas`, `made`, `calls`
/// Refusal (The layers below): `gated_journal`: `make_areas`
/// When: a fault: exactly if `faults` rises by one
/// Afterwards: nothing is promised
/// By: `faults`, `honest`
pub fn make_areas<D: Disk>(disk: &mut D, len: u64, prefix: &[u8]) -> Result<(), DiskFault>
    requires countable { D.fault_count disk.old < u64.MAX }
    requires addressed { len + len < 2 ^ 64 }
    requires empty { D.size disk.old ≡ 0 }
    requires fits { length prefix.now ≤ len }
    requires some { 0 < length prefix.now }
    requires long { 2 ≤ len }
    ensures made { OnOk result ((head : Head) (bodies : List (List ℕ)) → D.honest disk.old
        → prefix.now ≡ 0 ∷ after_gate head bodies → Fits head bodies
        → (c : List ℕ) → D.images disk.new c → RecoversWhole len First Closed c head bodies) }
    ensures size { OnOk result (D.size disk.new ≡ len + len) }
    ensures calls { D.calls disk.new ≤ D.calls disk.old + 6 }
    ensures faults { CountsFault result (D.fault_count disk.old) (D.fault_count disk.new) }
    ensures honest { D.honest disk.new ↔ D.honest disk.old }
{
    disk.write_at(0, prefix)?;
    disk.write_at(len, &[CLOSED])?;
    write_synced(disk, len + len - 1, &[CLOSED])?;
    write_synced(disk, 0, &[OPEN])
}
