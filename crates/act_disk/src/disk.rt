ghost use Rattle.std.specs.Prelude.{◌≡◌, ◌↔◌, ℕ, ◌+◌, ◌<◌, ◌≤◌, max, List, length, take, drop, OnOk, OnErr};
ghost use Rattle.definitions.specs.Disk.{Torn, IsWritten, Follows, LeavesAny, SameImages, Only, Elapses, CountsFault};

use crate::fault::DiskFault;

/// A disk: a list of bytes. What is synced survives a crash of the machine.
///
/// Between two syncs, a crash may leave any bytes in each range that was written, also by a failed write, and past the old end. Other
/// bytes stay. After a successful sync, a crash leaves what a read returns. A failed sync and a read make nothing durable.
///
/// The clauses on bytes and images hold for an honest disk. A write and a sync keep a disk honest. A read may end that, by returning bytes
/// that the disk never held: the clauses of a read hold if the disk is honest after it. The length and the counts of calls and faults are
/// right for any disk.
pub trait Disk {
    /// The bytes that a read returns.
    ghost seen: { Self → List ℕ };

    /// The images that a crash at this moment may leave.
    ghost images: { Self → List ℕ → Type 0 };

    /// The moment, as a number that never falls.
    ghost moment: { Self → ℕ };

    /// The images that a crash at that moment or later might have left, inside a call or between two.
    ghost images_since: { Self → ℕ → List ℕ → Type 0 };

    /// The length in bytes, as `len` returns it.
    ghost size: { Self → ℕ };

    /// The number of calls of `read`, `write_at` and `sync`, including failed ones.
    ghost calls: { Self → ℕ };

    /// The number of failed calls.
    ghost fault_count: { Self → ℕ };

    /// The disk behaves as this model says.
    ghost honest: { Self → Type 0 };

    /// The length in bytes.
    fn len(&self) -> u64
        ensures { result ≡ size self.now };

    /// The number of failed calls.
    fn faults(&self) -> u64
        ensures { result ≡ fault_count self.now };

    /// Fills `buf` with the bytes from `at` on, which lie within the length. At `Err` the buffer may hold any bytes.
    /// Promise (Disks): A read gives what is there and changes nothing
    /// By: `act_disk::Disk::read`, `bytes`, `seen`, `images`
    /// Promise (Disks): What a crash may have left stays counted, at each moment inside a call
    /// By: `act_disk::Disk::{read, write_at, sync}`, `time`; the trait's laws `act_disk::Disk::{counts_now, only_now}`
    /// Promise (Disks): Calls are counted, and the count of faults rises by one exactly where a call fails. Writes and syncs keep a disk honest
    /// By: `act_disk::Disk::{read, write_at, sync}`, `calls`, `faults`, `honest`
    /// Refusal (The layers below): `act_disk`: `Disk::{read, write_at, sync}`
    /// When: a fault, which is 51 above: exactly if `faults` rises by one
    /// Afterwards: a failed read leaves everything; a failed write any bytes in its range and past the old end; a failed sync nothing durable
    /// By: `faults`, `failed`, `images`, `seen`
    fn read(&mut self, at: u64, buf: &mut [u8]) -> Result<(), DiskFault>
        requires within { at + length buf.old ≤ size self.old }
        requires countable { fault_count self.old < u64.MAX }
        ensures bytes { OnOk result (honest self.new → buf.new ≡ take (length buf.old) (drop at (seen self.old))) }
        ensures seen { honest self.new → seen self.new ≡ seen self.old }
        ensures images { honest self.new → SameImages (images self.old) (images self.new) }
        ensures time { honest self.new → Elapses (moment self.old) (moment self.new)
            (images_since self.old) (images_since self.new) (images self.new) }
        ensures size { size self.new ≡ size self.old }
        ensures calls { calls self.new ≡ calls self.old + 1 }
        ensures faults { CountsFault result (fault_count self.old) (fault_count self.new) }
        ensures honest { honest self.new → honest self.old };

    /// Overwrites bytes, and extends the disk where the range passes its end. The bytes between the old end and `at` may then be any. A
    /// failed write may have done anything in its range and past the old end.
    /// Promise (Disks): After a write that succeeded a read gives its bytes. A write, also a failed one, touches only its range and what lies
    ///   past the old end, in each image; a crash may leave any bytes there
    /// By: `act_disk::Disk::write_at`, `written`, `failed`, `images`, `any`
    fn write_at(&mut self, at: u64, bytes: &[u8]) -> Result<(), DiskFault>
        requires { fault_count self.old < u64.MAX }
        ensures written { OnOk result (honest self.old → IsWritten at bytes.now (seen self.old) (seen self.new)) }
        ensures failed { OnErr result (honest self.old → Torn at (length bytes.now) (seen self.old) (seen self.new)) }
        ensures images { honest self.old → Follows (Torn at (length bytes.now)) (images self.old) (images self.new) }
        ensures any { OnOk result (honest self.old → LeavesAny (Torn at (length bytes.now)) (images self.old) (images self.new)) }
        ensures time { honest self.old → Elapses (moment self.old) (moment self.new)
            (images_since self.old) (images_since self.new) (images self.new) }
        ensures size { OnOk result (size self.new ≡ max (size self.old) (at + length bytes.now)) }
        ensures no_shorter { size self.old ≤ size self.new }
        ensures calls { calls self.new ≡ calls self.old + 1 }
        ensures faults { CountsFault result (fault_count self.old) (fault_count self.new) }
        ensures honest { honest self.new ↔ honest self.old };

    /// After a successful sync, a crash leaves what a read returns. A failed sync makes nothing durable.
    /// Promise (Disks): After a sync that succeeded a crash leaves what a read gives, and nothing else. A failed sync, and a read, make nothing
    ///   durable
    /// By: `act_disk::Disk::sync`, `stable`, `failed`; `act_disk::Disk::read`, `images`
    fn sync(&mut self) -> Result<(), DiskFault>
        requires { fault_count self.old < u64.MAX }
        ensures stable { OnOk result (honest self.old → Only (seen self.old) (images self.new)) }
        ensures failed { OnErr result (honest self.old → SameImages (images self.old) (images self.new)) }
        ensures seen { honest self.old → seen self.new ≡ seen self.old }
        ensures time { honest self.old → Elapses (moment self.old) (moment self.new)
            (images_since self.old) (images_since self.new) (images self.new) }
        ensures size { size self.new ≡ size self.old }
        ensures calls { calls self.new ≡ calls self.old + 1 }
        ensures faults { CountsFault result (fault_count self.old) (fault_count self.new) }
        ensures honest { honest self.new ↔ honest self.old };

    /// What a read returns is one of the images at this moment.
    ghost seen_is_image: { (disk : Self) → honest disk → images disk (seen disk) };

    /// What a read returns has the length that `len` returns.
    ghost seen_length: { (disk : Self) → honest disk → length (seen disk) ≡ size disk };

    /// The images at this moment count as images since an earlier one.
    ghost counts_now: { (disk : Self) → honest disk → (t : ℕ) (c : List ℕ) → t ≤ moment disk → images disk c → images_since disk t c };

    /// The images since this moment are those at this moment.
    ghost only_now: { (disk : Self) → honest disk → (c : List ℕ) → images_since disk (moment disk) c → images disk c };
}
