ghost use Rattle.std.specs.Prelude.{◌≡◌, ◌↔◌, ◌+◌, ◌-◌, ◌<◌, ◌≤◌, [], ◌∷◌};
ghost use Rattle.std.specs.Prelude.{◌++◌, max, length, take, drop, replicate, Ok, OnOk, OnErr, IsOk};
ghost use Rattle.act_disk.specs.declared.call.Call.TheVariants.{Write, Sync as Synced};
ghost use Rattle.definitions.specs.Disk.{Torn, IsWritten, Follows, LeavesAny, SameImages, Only, Elapses, CountsFault};
ghost use Rattle.act_disk.specs.Laid.{laid};
ghost use Rattle.act_disk.specs.Record.{Notes, fresh, bytes_of, MayLeave, MayHaveLeft};
ghost use Rattle.wf_value.specs.Gives.{Gives};

use crate::call::Call;
use crate::disk::Disk;
use crate::fault::{DiskFault, counted};
use crate::tally::CallTally;
use std::alloc::{AllocError, Global};
use std::marker::Model;
use wf_value::{Refusal, Sequence};

/// An in-memory disk, which records its completed writes and syncs. The record contains no reads and no failed calls. A call fails when it
/// is out of memory for the bytes or for the record.
/// Refusal (The layers below): `act_disk`: `MemoryDisk`, `MemoryDisk::{from_slice, image}`
/// When: a fault if memory is refused: T; 50 of `image` and `from_slice`
/// Afterwards: as it was
/// By: `MemoryDisk::write_at`, `noted`; `MemoryDisk::image`, `image`
#[derive(Drop)]
pub struct MemoryDisk {
    alloc: Global,
    first: Vec<u8>,
    bytes: Vec<u8>,
    calls: Vec<Call>,
    faults: u64,
    tally: CallTally,
}

impl Model for MemoryDisk {
    ghost use Rattle.std.specs.Prelude.{◌≡◌, ◌<◌, reverse};
    ghost use Rattle.act_disk.specs.Record.{Record, seen_after};

    ghost Value = { Record };

    ghost view = { λ m. record { first = m.first.items; calls = m.calls.items; faults = m.faults; made = m.tally } };

    ghost invariant = { λ m. m.bytes.items ≡ seen_after m.first.items (reverse m.calls.items) };
}

impl MemoryDisk {
    /// An empty disk.
    pub fn new(alloc: Global) -> Self
        ensures { result ≡ fresh [] }
    {
        MemoryDisk::over(alloc, Vec::new(alloc), Vec::new(alloc))
    }

    /// A disk with these bytes, all of them durable. Out of memory is refusal 50.
    pub fn from_slice(alloc: Global, bytes: &[u8]) -> Result<Self, Refusal>
        ensures { Gives (λ d. d) result (Ok (fresh bytes.now)) }
    {
        let first = Vec::from_slice(alloc, bytes)?;
        let seen = Vec::from_slice(alloc, bytes)?;
        Ok(MemoryDisk::over(alloc, first, seen))
    }

    fn over(alloc: Global, first: Vec<u8>, bytes: Vec<u8>) -> Self
        requires { bytes.items ≡ first.items }
        ensures { result ≡ fresh first.items }
    {
        MemoryDisk {
            alloc,
            first,
            bytes,
            calls: Vec::new(alloc),
            faults: 0,
            tally: CallTally::new(),
        }
    }

    pub(crate) fn first(&self) -> &[u8]
        ensures { result.now ≡ self.now.first }
    {
        self.first.as_slice()
    }

    /// What a read of the whole disk returns.
    pub fn bytes(&self) -> &[u8]
        ensures { result.now ≡ bytes_of self.now }
    {
        self.bytes.as_slice()
    }

    /// The completed writes and syncs, oldest first.
    pub fn calls(&self) -> &[Call]
        ensures { result.now ≡ self.now.calls }
    {
        self.calls.as_slice()
    }
}

/// Extends a file with zeros to a length, if it is shorter.
fn grow(file: &mut Vec<u8>, len: usize) -> Result<(), AllocError>
    ensures ok { OnOk result (file.new.items ≡ file.old.items ++ replicate (len - length file.old.items) 0) }
    ensures err { OnErr result (file.new.items ≡ file.old.items) }
{
    if len <= file.len() {
        return Ok(());
    }
    file.resize(len, 0)
}

/// Overwrites a range with bytes.
fn overwrite(file: &mut [u8], at: usize, bytes: &[u8])
    requires { at + length bytes.now ≤ length file.old }
    ensures { file.new ≡ take at file.old ++ bytes.now ++ drop (at + length bytes.now) file.old }
{
    file[at..at + bytes.len()].copy_from_slice(bytes);
}

/// Writes bytes at `at`, past the end if needed. A shorter file gets zeros up to `at`.
pub(crate) fn lay(file: &mut Vec<u8>, at: u64, bytes: &[u8]) -> Result<(), AllocError>
    ensures ok { OnOk result (file.new.items ≡ laid at bytes.now file.old.items) }
    ensures err { OnErr result (file.new.items ≡ file.old.items) }
{
    let at = at as usize;
    if bytes.len() > usize::MAX - at {
        return Err(AllocError);
    }
    grow(file, at + bytes.len())?;
    overwrite(file, at, bytes);
    Ok(())
}

/// Writes and records the call. Running out of memory changes nothing.
fn write_noted(
    alloc: Global,
    file: &mut Vec<u8>,
    calls: &mut Vec<Call>,
    at: u64,
    bytes: &[u8],
) -> Result<(), AllocError>
    ensures file { OnOk result (file.new.items ≡ laid at bytes.now file.old.items) }
    ensures calls { OnOk result (calls.new.items ≡ calls.old.items ++ Write at bytes.now ∷ []) }
    ensures same_file { OnErr result (file.new.items ≡ file.old.items) }
    ensures same_calls { OnErr result (calls.new.items ≡ calls.old.items) }
{
    let noted = Sequence::new(bytes.to_vec(alloc)?);
    note(calls, Call::Write { at, bytes: noted })?;
    let outcome = lay(file, at, bytes);
    if outcome.is_err() {
        let _ = calls.pop();
    }
    outcome
}

fn note(calls: &mut Vec<Call>, call: Call) -> Result<(), AllocError>
    ensures ok { OnOk result (calls.new.items ≡ calls.old.items ++ call ∷ []) }
    ensures err { OnErr result (calls.new.items ≡ calls.old.items) }
{
    calls.push(call)?;
    Ok(())
}

/// Promise (Disks): A disk in memory meets all that the trait says; each write and sync is done and noted in its record, or fails and is counted
/// By: `impl Disk for act_disk::MemoryDisk`, `noted`, `same`, `ok`
impl Disk for MemoryDisk {
    ghost use Rattle.std.specs.Prelude.{length, refl};
    ghost use Rattle.act_disk.specs.Record.{bytes_of, MayLeave, MayHaveLeft};
    ghost use Rattle.act_disk.specs.inner.RecordLaws.{seen_may_stay, left_now, left_last};

    ghost seen = { bytes_of };

    ghost images = { MayLeave };

    ghost moment = { λ m. length m.calls };

    ghost images_since = { MayHaveLeft };

    ghost size = { λ m. length (bytes_of m) };

    ghost calls = { λ m. m.made };

    ghost fault_count = { λ m. m.faults };

    ghost honest = { λ _. Unit {0} };

    ghost seen_is_image = { λ m _. seen_may_stay m };

    ghost seen_length = { λ _ _. refl };

    ghost counts_now = { λ m _. left_now m };

    ghost only_now = { λ m _. left_last m };

    fn len(&self) -> u64 {
        self.bytes.len() as u64
    }

    fn faults(&self) -> u64 {
        self.faults
    }

    /// As in the trait. It never fails and is not recorded.
    fn read(&mut self, at: u64, buf: &mut [u8]) -> Result<(), DiskFault>
        requires within { at + length buf.old ≤ length (bytes_of self.old) }
        requires countable { self.old.faults < u64.MAX }
        ensures ok { IsOk result }
        ensures same { self.new ≡ record self.old { made = self.old.made + 1 } }
        ensures bytes { OnOk result (buf.new ≡ take (length buf.old) (drop at (bytes_of self.old))) }
        ensures seen { bytes_of self.new ≡ bytes_of self.old }
        ensures images { SameImages (MayLeave self.old) (MayLeave self.new) }
        ensures time { Elapses (length self.old.calls) (length self.new.calls)
            (MayHaveLeft self.old) (MayHaveLeft self.new) (MayLeave self.new) }
        ensures size { length (bytes_of self.new) ≡ length (bytes_of self.old) }
        ensures calls { self.new.made ≡ self.old.made + 1 }
        ensures faults { CountsFault result self.old.faults self.new.faults }
        ensures honest { Unit {0} → Unit {0} }
    {
        self.tally.count();
        let at = at as usize;
        buf.copy_from_slice(&self.bytes[at..at + buf.len()]);
        Ok(())
    }

    /// As in the trait. It is completed and recorded, or fails when out of memory.
    fn write_at(&mut self, at: u64, bytes: &[u8]) -> Result<(), DiskFault>
        requires { self.old.faults < u64.MAX }
        ensures noted { Notes result (Write at bytes.now) self.old self.new }
        ensures written { OnOk result (IsWritten at bytes.now (bytes_of self.old) (bytes_of self.new)) }
        ensures failed { OnErr result (Torn at (length bytes.now) (bytes_of self.old) (bytes_of self.new)) }
        ensures images { Follows (Torn at (length bytes.now)) (MayLeave self.old) (MayLeave self.new) }
        ensures any { OnOk result (LeavesAny (Torn at (length bytes.now)) (MayLeave self.old) (MayLeave self.new)) }
        ensures time { Elapses (length self.old.calls) (length self.new.calls)
            (MayHaveLeft self.old) (MayHaveLeft self.new) (MayLeave self.new) }
        ensures size { OnOk result (length (bytes_of self.new) ≡ max (length (bytes_of self.old)) (at + length bytes.now)) }
        ensures no_shorter { length (bytes_of self.old) ≤ length (bytes_of self.new) }
        ensures calls { self.new.made ≡ self.old.made + 1 }
        ensures faults { CountsFault result self.old.faults self.new.faults }
        ensures honest { Unit {0} ↔ Unit {0} }
    {
        self.tally.count();
        let outcome = write_noted(self.alloc, &mut self.bytes, &mut self.calls, at, bytes);
        counted(outcome, &mut self.faults)
    }

    /// As in the trait. It is recorded, or fails when out of memory.
    fn sync(&mut self) -> Result<(), DiskFault>
        requires { self.old.faults < u64.MAX }
        ensures noted { Notes result Synced self.old self.new }
        ensures stable { OnOk result (Only (bytes_of self.old) (MayLeave self.new)) }
        ensures failed { OnErr result (SameImages (MayLeave self.old) (MayLeave self.new)) }
        ensures seen { bytes_of self.new ≡ bytes_of self.old }
        ensures time { Elapses (length self.old.calls) (length self.new.calls)
            (MayHaveLeft self.old) (MayHaveLeft self.new) (MayLeave self.new) }
        ensures size { length (bytes_of self.new) ≡ length (bytes_of self.old) }
        ensures calls { self.new.made ≡ self.old.made + 1 }
        ensures faults { CountsFault result self.old.faults self.new.faults }
        ensures honest { Unit {0} ↔ Unit {0} }
    {
        self.tally.count();
        let outcome = note(&mut self.calls, Call::Sync);
        counted(outcome, &mut self.faults)
    }
}
