ghost use Rattle.std.specs.Prelude.{◌≡◌, ◌↔◌, ◌-◌, ◌<◌, ◌≤◌, ◌++◌, max, replicate, OnOk};
ghost use Rattle.definitions.specs.Disk.{Torn, From, EachSince, CountsFault};

use crate::disk::Disk;
use crate::fault::DiskFault;

/// How many zeros one write has.
const MAX_ZEROS: usize = 4096;

/// Extends a shorter disk to this length with zeros. They are written, so that a file has its blocks allocated, and nothing is synced. A
/// crash at any moment, also after a fault, leaves below the old end what it might have left before.
/// Promise (Disks): `grow_to` adds zeros, and keeps what lies below
/// By: `act_disk::grow_to`, `size`, `zeros`, `any_moment`
pub fn grow_to<D: Disk>(disk: &mut D, len: u64) -> Result<(), DiskFault>
    requires { D.fault_count disk.old < u64.MAX }
    ensures any_moment { D.honest disk.old → EachSince D.moment D.images_since disk.old disk.new
        (From (Torn (D.size disk.old) (len - D.size disk.old)) (D.images disk.old)) }
    ensures size { OnOk result (D.size disk.new ≡ max (D.size disk.old) len) }
    ensures no_shorter { D.size disk.old ≤ D.size disk.new }
    ensures zeros { OnOk result (D.honest disk.old → D.seen disk.new ≡ D.seen disk.old ++ replicate (len - D.size disk.old) 0) }
    ensures faults { CountsFault result (D.fault_count disk.old) (D.fault_count disk.new) }
    ensures honest { D.honest disk.new ↔ D.honest disk.old }
{
    let zeros = [0; MAX_ZEROS];
    while disk.len() < len {
        let at = disk.len();
        let count = (len - at).min(MAX_ZEROS as u64);
        disk.write_at(at, &zeros[..count as usize])?;
    }
    Ok(())
}
