ghost use Rattle.std.specs.Prelude.{◌↔◌, ◌+◌, ◌<◌, ◌≤◌, ◌^◌, [], ◌∷◌, OnOk};
ghost use Rattle.definitions.specs.Disk.{Holds, From, Only, EachSince, CountsFault};
ghost use Rattle.gated_journal.specs.Appends.{Appends, IsWhole};

use act_disk::{Disk, DiskFault, write_synced};

/// Writes a record after a closed gate and syncs, then opens the gate and syncs.
pub(crate) fn append_after<D: Disk>(disk: &mut D, gate: u64, bytes: &[u8]) -> Result<(), DiskFault>
    requires countable { D.fault_count disk.old < u64.MAX }
    requires fits { gate + 1 < 2 ^ 64 }
    ensures any_moment { D.honest disk.old
        → EachSince D.moment D.images_since disk.old disk.new (From (Appends gate bytes.now) (D.images disk.old)) }
    ensures stable { OnOk result (D.honest disk.old → Only (D.seen disk.new) (D.images disk.new)) }
    ensures whole { OnOk result (D.honest disk.old → IsWhole gate bytes.now (D.seen disk.old) (D.seen disk.new)) }
    ensures gate { OnOk result (D.honest disk.old → Holds (D.seen disk.new) gate (0xA5 ∷ [])) }
    ensures no_shorter { D.size disk.old ≤ D.size disk.new }
    ensures calls { D.calls disk.new ≤ D.calls disk.old + 4 }
    ensures faults { CountsFault result (D.fault_count disk.old) (D.fault_count disk.new) }
    ensures honest { D.honest disk.new ↔ D.honest disk.old }
{
    write_synced(disk, gate + 1, bytes)?;
    write_synced(disk, gate, &[OPEN])
}

/// The byte of an open gate. Any other byte is a closed gate.
pub const OPEN: u8 = 0xA5;
