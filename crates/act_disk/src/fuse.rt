ghost use Rattle.std.specs.Prelude.{◌≡◌, ◌↔◌, ◌+◌, ◌<◌, ◌≤◌, max, length, take, drop, IsTrue, OnOk, OnErr};
ghost use Rattle.act_disk.specs.Fuse.{Passes, fails_now};
ghost use Rattle.definitions.specs.Disk.{Torn, IsWritten, Follows, LeavesAny, SameImages, Only, Elapses, CountsFault};
ghost use Rattle.act_disk.specs.declared.failing.Failing.TheVariants.{Once, From};

use crate::disk::Disk;
use crate::failing::Failing;
use crate::fault::DiskFault;
use crate::tally::CallTally;
use std::marker::Model;

/// A disk that fails one call, or all calls from one on. Its reads, writes and syncs are counted from 0. The other calls go to the inner
/// disk.
///
/// A write that the fuse fails is still made on the inner disk, since a failed write may have done anything in its range. A read or a sync
/// that the fuse fails is not made there.
/// Refusal (The layers below): `act_disk`: `FuseDisk`
/// When: a fault exactly where the fuse or the inner disk fails
/// Afterwards: a read or sync that a fuse fails is not made inside, a write is
/// By: `FuseDisk::{read, write_at, sync}`, `fuse`, `kept`
#[derive(Drop)]
pub struct FuseDisk<D: Disk> {
    disk: D,
    failing: Failing,
    refused: u64,
    tally: CallTally,
}

impl<D: Disk> Model for FuseDisk<D> {
    ghost use Rattle.std.specs.Prelude.{◌+◌, ◌^◌, ◌<◌};
    ghost use Rattle.act_disk.specs.Fuse.{Fused};

    ghost Value = { Fused D };

    ghost view = { λ f. record { disk = f.disk; failing = f.failing; refused = f.refused; made = f.tally } };

    ghost invariant = { λ f. D.Disk.fault_count f.disk + f.refused < 2 ^ 64 };
}

impl<D: Disk> FuseDisk<D> {
    /// Fails the call with this number.
    /// Promise (Disks): A fuse fails the k-th call, or all from there on, and no other
    /// By: `act_disk::FuseDisk::{once, from}`; `act_disk::FuseDisk::{read, write_at, sync}`, `fuse`, `refused`, `kept`
    pub fn once(disk: D, call: u64) -> Self
        ensures { result ≡ record { disk = disk; failing = Once call; refused = 0; made = 0 } }
    {
        FuseDisk::new(disk, Failing::Once(call))
    }

    /// Fails the call with this number and all after it.
    pub fn from(disk: D, call: u64) -> Self
        ensures { result ≡ record { disk = disk; failing = From call; refused = 0; made = 0 } }
    {
        FuseDisk::new(disk, Failing::From(call))
    }

    fn new(disk: D, failing: Failing) -> Self
        ensures { result ≡ record { disk = disk; failing = failing; refused = 0; made = 0 } }
    {
        let _faults = disk.faults();
        FuseDisk {
            disk,
            failing,
            refused: 0,
            tally: CallTally::new(),
        }
    }

    /// The inner disk.
    pub fn into_inner(self) -> D
        ensures { result ≡ self.disk }
    {
        let FuseDisk { disk, .. } = self;
        disk
    }
}

/// Counts a call that the fuse fails.
fn refuse(refused: &mut u64) -> DiskFault
    requires { refused.old < u64.MAX }
    ensures { refused.new ≡ refused.old + 1 }
{
    *refused += 1;
    DiskFault
}

impl<D: Disk> Disk for FuseDisk<D> {
    ghost seen = { λ f. D.Disk.seen f.disk };

    ghost images = { λ f. D.Disk.images f.disk };

    ghost moment = { λ f. D.Disk.moment f.disk };

    ghost images_since = { λ f. D.Disk.images_since f.disk };

    ghost size = { λ f. D.Disk.size f.disk };

    ghost calls = { λ f. f.made };

    ghost fault_count = { λ f. D.Disk.fault_count f.disk + f.refused };

    ghost honest = { λ f. D.Disk.honest f.disk };

    ghost seen_is_image = { λ f. D.Disk.seen_is_image f.disk };

    ghost seen_length = { λ f. D.Disk.seen_length f.disk };

    ghost counts_now = { λ f. D.Disk.counts_now f.disk };

    ghost only_now = { λ f. D.Disk.only_now f.disk };

    fn len(&self) -> u64 {
        self.disk.len()
    }

    fn faults(&self) -> u64 {
        self.disk.faults() + self.refused
    }

    /// As in the trait, through the fuse. A call that the fuse fails leaves the inner disk unchanged.
    fn read(&mut self, at: u64, buf: &mut [u8]) -> Result<(), DiskFault>
        requires within { at + length buf.old ≤ D.size self.old.disk }
        requires countable { D.fault_count self.old.disk + self.old.refused < u64.MAX }
        ensures fuse { Passes result self.old self.new }
        ensures kept { IsTrue (fails_now self.old.failing) → self.new.disk ≡ self.old.disk }
        ensures bytes { OnOk result (D.honest self.new.disk → buf.new ≡ take (length buf.old) (drop at (D.seen self.old.disk))) }
        ensures seen { D.honest self.new.disk → D.seen self.new.disk ≡ D.seen self.old.disk }
        ensures images { D.honest self.new.disk → SameImages (D.images self.old.disk) (D.images self.new.disk) }
        ensures time { D.honest self.new.disk → Elapses (D.moment self.old.disk) (D.moment self.new.disk)
            (D.images_since self.old.disk) (D.images_since self.new.disk) (D.images self.new.disk) }
        ensures size { D.size self.new.disk ≡ D.size self.old.disk }
        ensures calls { self.new.made ≡ self.old.made + 1 }
        ensures faults { CountsFault result (D.fault_count self.old.disk + self.old.refused)
            (D.fault_count self.new.disk + self.new.refused) }
        ensures honest { D.honest self.new.disk → D.honest self.old.disk }
    {
        self.tally.count();
        if self.failing.next_fails() {
            return Err(refuse(&mut self.refused));
        }
        self.disk.read(at, buf)
    }

    /// As in the trait, through the fuse. A call that the fuse fails may leave any bytes in its range.
    fn write_at(&mut self, at: u64, bytes: &[u8]) -> Result<(), DiskFault>
        requires { D.fault_count self.old.disk + self.old.refused < u64.MAX }
        ensures fuse { Passes result self.old self.new }
        ensures written { OnOk result (D.honest self.old.disk → IsWritten at bytes.now (D.seen self.old.disk) (D.seen self.new.disk)) }
        ensures failed { OnErr result (D.honest self.old.disk → Torn at (length bytes.now) (D.seen self.old.disk) (D.seen self.new.disk)) }
        ensures images { D.honest self.old.disk → Follows (Torn at (length bytes.now)) (D.images self.old.disk) (D.images self.new.disk) }
        ensures any { OnOk result (D.honest self.old.disk → LeavesAny (Torn at (length bytes.now))
            (D.images self.old.disk) (D.images self.new.disk)) }
        ensures refused { self.old.refused < self.new.refused → D.honest self.old.disk
            → LeavesAny (Torn at (length bytes.now)) (D.images self.old.disk) (D.images self.new.disk) }
        ensures time { D.honest self.old.disk → Elapses (D.moment self.old.disk) (D.moment self.new.disk)
            (D.images_since self.old.disk) (D.images_since self.new.disk) (D.images self.new.disk) }
        ensures size { OnOk result (D.size self.new.disk ≡ max (D.size self.old.disk) (at + length bytes.now)) }
        ensures no_shorter { D.size self.old.disk ≤ D.size self.new.disk }
        ensures calls { self.new.made ≡ self.old.made + 1 }
        ensures faults { CountsFault result (D.fault_count self.old.disk + self.old.refused)
            (D.fault_count self.new.disk + self.new.refused) }
        ensures honest { D.honest self.new.disk ↔ D.honest self.old.disk }
    {
        self.tally.count();
        let fails = self.failing.next_fails();
        self.disk.write_at(at, bytes)?;
        if fails {
            return Err(refuse(&mut self.refused));
        }
        Ok(())
    }

    /// As in the trait, through the fuse. A call that the fuse fails leaves the inner disk unchanged.
    fn sync(&mut self) -> Result<(), DiskFault>
        requires { D.fault_count self.old.disk + self.old.refused < u64.MAX }
        ensures fuse { Passes result self.old self.new }
        ensures kept { IsTrue (fails_now self.old.failing) → self.new.disk ≡ self.old.disk }
        ensures stable { OnOk result (D.honest self.old.disk → Only (D.seen self.old.disk) (D.images self.new.disk)) }
        ensures failed { OnErr result (D.honest self.old.disk → SameImages (D.images self.old.disk) (D.images self.new.disk)) }
        ensures seen { D.honest self.old.disk → D.seen self.new.disk ≡ D.seen self.old.disk }
        ensures time { D.honest self.old.disk → Elapses (D.moment self.old.disk) (D.moment self.new.disk)
            (D.images_since self.old.disk) (D.images_since self.new.disk) (D.images self.new.disk) }
        ensures size { D.size self.new.disk ≡ D.size self.old.disk }
        ensures calls { self.new.made ≡ self.old.made + 1 }
        ensures faults { CountsFault result (D.fault_count self.old.disk + self.old.refused)
            (D.fault_count self.new.disk + self.new.refused) }
        ensures honest { D.honest self.new.disk ↔ D.honest self.old.disk }
    {
        self.tally.count();
        if self.failing.next_fails() {
            return Err(refuse(&mut self.refused));
        }
        self.disk.sync()
    }
}
