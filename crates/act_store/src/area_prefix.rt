//! How much of an area is read: only as much as determines what it reads as, so that the cost of opening depends on what is stored.

ghost use Rattle.std.specs.Prelude.{◌≡◌, ◌⊎◌, ◌+◌, ◌*◌, ◌^◌, ◌<◌, ◌≤◌, true, false, length, take, vec_len, IfErr, IfOk, OnOk};
ghost use Rattle.wf_value.specs.Gives.{no_memory};
ghost use Rattle.act_disk.specs.Failed.{device_failed};
ghost use Rattle.definitions.specs.Disk.{CountsFault, SameImages};
ghost use Rattle.gated_journal.specs.Choice.{part};
ghost use Rattle.definitions.specs.Area.{ReadsNothing};
ghost use Rattle.gated_journal.specs.Reading.{OnlyRead};
ghost use Rattle.act_store.specs.AreaPrefix.{IsPrefixOf, IsShort, ReadsAlike, ReadsSomething};
ghost use Rattle.act_store.specs.FaultCauses.{TellsFault};
ghost use Rattle.definitions.specs.Limits.{first_read};

use act_disk::{Disk, DiskFault};
use gated_journal::{Area, scan};
use std::alloc::Global;
use wf_value::Refusal;

/// How many bytes of an area are read first.
const FIRST_READ: usize = 65_536;

/// Reads the start of an area, as far as needed to determine what all of it reads as. Each time twice as many bytes are read, until they
/// read as something or are all. So at least half of the bytes read are needed, or at most `FIRST_READ` are read.
/// Promise (The store): An opening reads the first bytes of an area, which read as the whole area does. If these are more than 65,536, half of
///   them would not be enough: they read as nothing
/// By: `act_store::area_prefix::read_prefix`, `alike` (`ReadsAlike`), `short` (`IsShort`)
pub(crate) fn read_prefix<D: Disk>(
    alloc: Global,
    disk: &mut D,
    area: Area,
) -> Result<Vec<u8>, Refusal>
    requires countable { D.fault_count disk.old < u64.MAX }
    requires within { area.start + area.len ≤ D.size disk.old }
    requires addressed { area.start + area.len < 2 ^ 62 }
    ensures alike { IfOk result (λ bytes. D.honest disk.new → ReadsAlike bytes.items (part area.start area.len (D.seen disk.old))) }
    ensures within { IfOk result (λ bytes. vec_len bytes ≤ area.len) }
    ensures short { IfOk result (λ bytes. IsShort bytes.items) }
    ensures images { D.honest disk.new → SameImages (D.images disk.old) (D.images disk.new) }
    ensures only_read { OnlyRead D.honest D.seen D.size D.moment D.images D.images_since disk.old disk.new }
    ensures faults { TellsFault result (D.fault_count disk.old) (D.fault_count disk.new) }
    ensures refused { IfErr result (λ e. (e ≡ no_memory) ⊎ (e ≡ device_failed)) }
{
    let mut bytes = Vec::new(alloc);
    while !is_enough(bytes.as_slice(), area.len) {
        read_on(disk, area, &mut bytes)?;
    }
    Ok(bytes)
}

/// Whether the first bytes of an area are all of it, or read as something.
fn is_enough(bytes: &[u8], len: u64) -> bool
    ensures enough { result ≡ true → (length bytes.now ≡ len) ⊎ ReadsSomething bytes.now }
    ensures all { result ≡ false → length bytes.now ≡ len → ⊥ }
    ensures nothing { result ≡ false → ReadsNothing bytes.now }
{
    bytes.len() as u64 == len || scan(bytes).is_some()
}

/// Reads on after the first bytes of an area: as many again, or `FIRST_READ` if that is more, up to the end of the area.
fn read_on<D: Disk>(disk: &mut D, area: Area, bytes: &mut Vec<u8>) -> Result<(), Refusal>
    requires countable { D.fault_count disk.old < u64.MAX }
    requires within { area.start + area.len ≤ D.size disk.old }
    requires addressed { area.start + area.len < 2 ^ 62 }
    requires more { vec_len bytes.old < area.len }
    ensures bytes { OnOk result (D.honest disk.new → IsPrefixOf area.start bytes.old.items (D.seen disk.old)
        → IsPrefixOf area.start bytes.new.items (D.seen disk.old)) }
    ensures prefix { OnOk result (take (vec_len bytes.old) bytes.new.items ≡ bytes.old.items) }
    ensures longer { OnOk result (vec_len bytes.old < vec_len bytes.new) }
    ensures within { OnOk result (vec_len bytes.new ≤ area.len) }
    ensures at_most { OnOk result ((vec_len bytes.new ≤ first_read) ⊎ (vec_len bytes.new ≤ 2 * vec_len bytes.old)) }
    ensures images { D.honest disk.new → SameImages (D.images disk.old) (D.images disk.new) }
    ensures only_read { OnlyRead D.honest D.seen D.size D.moment D.images D.images_since disk.old disk.new }
    ensures faults { TellsFault result (D.fault_count disk.old) (D.fault_count disk.new) }
    ensures refused { IfErr result (λ e. (e ≡ no_memory) ⊎ (e ≡ device_failed)) }
{
    let from = bytes.len();
    let to = next_length(from, area.len as usize);
    bytes.resize(to, 0)?;
    fill_after(disk, area, bytes.as_mut_slice(), from)?;
    Ok(())
}

/// How many bytes to have after the next read, when `read` bytes of an area have been read.
fn next_length(read: usize, most: usize) -> usize
    requires { (read < most) × (most < 2 ^ 62) }
    ensures longer { read < result }
    ensures within { result ≤ most }
    ensures at_most { (result ≤ first_read) ⊎ (result ≤ 2 * read) }
{
    (2 * read).max(FIRST_READ).min(most)
}

/// Fills the bytes after the first `from` with those of the area.
fn fill_after<D: Disk>(
    disk: &mut D,
    area: Area,
    bytes: &mut [u8],
    from: usize,
) -> Result<(), DiskFault>
    requires countable { D.fault_count disk.old < u64.MAX }
    requires within { area.start + area.len ≤ D.size disk.old }
    requires addressed { area.start + area.len < 2 ^ 62 }
    requires from { from ≤ length bytes.old }
    requires fits { length bytes.old ≤ area.len }
    ensures bytes { OnOk result (D.honest disk.new → IsPrefixOf area.start (take from bytes.old) (D.seen disk.old)
        → IsPrefixOf area.start bytes.new (D.seen disk.old)) }
    ensures prefix { take from bytes.new ≡ take from bytes.old }
    ensures images { D.honest disk.new → SameImages (D.images disk.old) (D.images disk.new) }
    ensures only_read { OnlyRead D.honest D.seen D.size D.moment D.images D.images_since disk.old disk.new }
    ensures faults { CountsFault result (D.fault_count disk.old) (D.fault_count disk.new) }
{
    let suffix = Area {
        start: area.start + from as u64,
        len: (bytes.len() - from) as u64,
    };
    suffix.read(disk, &mut bytes[from..])
}
