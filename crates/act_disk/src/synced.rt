ghost use Rattle.std.specs.Prelude.{◌≡◌, ◌↔◌, ◌+◌, ◌<◌, ◌≤◌, max, length, OnOk};
ghost use Rattle.definitions.specs.Disk.{Torn, IsWritten, From, Only, EachSince, CountsFault};

use crate::disk::Disk;
use crate::fault::DiskFault;

/// Writes and syncs.
///
/// A crash at any moment of the call leaves one of the disk's earlier images with a write of this range applied: any bytes in the range,
/// the old bytes outside. After `Ok` it leaves what a read returns, which includes the bytes.
/// Promise (Disks): A write with its sync: at each moment, and after each fault, a crash leaves what a write of the range makes of some earlier
///   image; at Ok the bytes are durable; two calls at most
/// By: `act_disk::write_synced`, `any_moment`, `torn`, `stable`, `written`, `calls`, `faults`
/// Refusal (The layers below): `act_disk`: `write_synced`, `grow_to`
/// When: a fault, which is 51 above: exactly if `faults` rises by one
/// Afterwards: any bytes in the range and past the old end
/// By: `faults`, `any_moment`, `torn`
pub fn write_synced<D: Disk>(disk: &mut D, at: u64, bytes: &[u8]) -> Result<(), DiskFault>
    requires { D.fault_count disk.old < u64.MAX }
    ensures any_moment { D.honest disk.old
        → EachSince D.moment D.images_since disk.old disk.new (From (Torn at (length bytes.now)) (D.images disk.old)) }
    ensures stable { OnOk result (D.honest disk.old → Only (D.seen disk.new) (D.images disk.new)) }
    ensures written { OnOk result (D.honest disk.old → IsWritten at bytes.now (D.seen disk.old) (D.seen disk.new)) }
    ensures torn { D.honest disk.old → Torn at (length bytes.now) (D.seen disk.old) (D.seen disk.new) }
    ensures size { OnOk result (D.size disk.new ≡ max (D.size disk.old) (at + length bytes.now)) }
    ensures no_shorter { D.size disk.old ≤ D.size disk.new }
    ensures calls { D.calls disk.new ≤ D.calls disk.old + 2 }
    ensures faults { CountsFault result (D.fault_count disk.old) (D.fault_count disk.new) }
    ensures honest { D.honest disk.new ↔ D.honest disk.old }
{
    disk.write_at(at, bytes)?;
    disk.sync()
}
