ghost use Rattle.std.specs.Prelude.{◌≡◌, ◌+◌, ◌<◌, ◌≤◌, length, OnOk};
ghost use Rattle.definitions.specs.Disk.{SameImages, CountsFault};
ghost use Rattle.gated_journal.specs.Choice.{part};
ghost use Rattle.gated_journal.specs.Reading.{OnlyRead};

use crate::area::Area;
use act_disk::{Disk, DiskFault};

impl Area {
    /// Fills the buffer with the area's bytes. The images that a crash may leave do not change.
    /// Promise (Areas and records): An area is read as it is
    /// By: `gated_journal::Area::read`, `bytes`, `only_read`
    pub fn read<D: Disk>(&self, disk: &mut D, bytes: &mut [u8]) -> Result<(), DiskFault>
        requires countable { D.fault_count disk.old < u64.MAX }
        requires whole { length bytes.old ≡ self.now.len }
        requires within { self.now.start + self.now.len ≤ D.size disk.old }
        ensures bytes { OnOk result (D.honest disk.new → bytes.new ≡ part self.now.start self.now.len (D.seen disk.old)) }
        ensures images { D.honest disk.new → SameImages (D.images disk.old) (D.images disk.new) }
        ensures only_read { OnlyRead D.honest D.seen D.size D.moment D.images D.images_since disk.old disk.new }
        ensures calls { D.calls disk.new ≡ D.calls disk.old + 1 }
        ensures faults { CountsFault result (D.fault_count disk.old) (D.fault_count disk.new) }
        ensures length { length bytes.new ≡ length bytes.old }
    {
        disk.read(self.start, bytes)
    }
}
