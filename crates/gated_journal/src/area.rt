ghost use Rattle.std.specs.Prelude.{◌≡◌, ◌↔◌, ◌+◌, ◌<◌, ◌≤◌, ◌^◌, ℕ, List, [], ◌∷◌, ◌++◌, length, OnOk, IsOk};
ghost use Rattle.definitions.specs.Disk.{Torn, IsWritten, From, Only, EachSince, CountsFault};
ghost use Rattle.gated_journal.specs.Appends.{Appends};
ghost use Rattle.definitions.specs.Area.{Head};
ghost use Rattle.gated_journal.specs.OnDisk.{ReadsAt, MayHaveGrown, Awaits, WouldReadAt, ShutAt, OpenOrShut};

use crate::append::{OPEN, append_after};
use crate::gate::{CLOSED, GateState};
use act_disk::{Disk, DiskFault, write_synced};

/// A range of a disk that holds a head and records.
#[derive(Clone, Copy)]
pub struct Area {
    pub start: u64,
    pub len: u64,
}

impl Area {
    /// Writes a record after the area's first closed gate, which is at `at`, and opens that gate.
    ///
    /// The bytes are a length-prefixed body and a closed gate. After a crash at any moment, the area reads as before, or with the new body
    /// appended. After `Ok` it reads with the new body.
    /// Promise (Areas and records): An append of one area alone touches only its range of each image, and reads before and after as one of a
    ///   pair
    /// By: `gated_journal::Area::append`, `any_moment`, `reads`, `stable`, `grown`
    pub fn append<D: Disk>(&self, disk: &mut D, at: u64, bytes: &[u8]) -> Result<(), DiskFault>
        requires countable { D.fault_count disk.old < u64.MAX }
        requires addressed { self.now.start + self.now.len < 2 ^ 64 }
        requires fits { at + (length bytes.now + 1) ≤ self.now.len }
        // Each image since the start is an earlier one, either with the gate unchanged and any bytes in the record's place, or with the
        // whole record.
        ensures any_moment { D.honest disk.old → EachSince D.moment D.images_since disk.old disk.new
            (From (Appends (self.now.start + at) bytes.now) (D.images disk.old)) }
        ensures stable { OnOk result (D.honest disk.old → Only (D.seen disk.new) (D.images disk.new)) }
        ensures reads { (head : Head) (bodies : List (List ℕ)) (body : List ℕ) → D.honest disk.old
            → Awaits self.now.start self.now.len at bytes.now (D.images disk.old) head bodies body
            → EachSince D.moment D.images_since disk.old disk.new (MayHaveGrown self.now.start self.now.len head bodies body) }
        ensures grown { OnOk result ((head : Head) (bodies : List (List ℕ)) (body : List ℕ) → D.honest disk.old
            → Awaits self.now.start self.now.len at bytes.now (D.images disk.old) head bodies body
            → ReadsAt self.now.start self.now.len (D.seen disk.new) head (bodies ++ body ∷ [])) }
        ensures no_shorter { D.size disk.old ≤ D.size disk.new }
        ensures calls { D.calls disk.new ≤ D.calls disk.old + 4 }
        ensures faults { CountsFault result (D.fault_count disk.old) (D.fault_count disk.new) }
        ensures honest { D.honest disk.new ↔ D.honest disk.old }
    {
        append_after(disk, self.start + at, bytes)
    }

    /// Writes a part of the area's contents after its gate, without a sync.
    /// Promise (Areas and records): The calls of one area alone touch only their range of each image, and read as those of a pair. A checkpoint
    ///   makes `put` and `close_gate`
    /// By: `gated_journal::Area::{put, open_gate, close_gate}`, `any_moment`; `gated_journal::Area::{open_gate, close_gate}`, `reads`, `opened`,
    ///   `shut`, `same`
    pub fn put<D: Disk>(&self, disk: &mut D, at: u64, bytes: &[u8]) -> Result<(), DiskFault>
        requires countable { D.fault_count disk.old < u64.MAX }
        requires addressed { self.now.start + self.now.len < 2 ^ 64 }
        requires after_gate { 0 < at }
        requires fits { at + length bytes.now ≤ self.now.len }
        ensures any_moment { D.honest disk.old → EachSince D.moment D.images_since disk.old disk.new
            (From (Torn (self.now.start + at) (length bytes.now)) (D.images disk.old)) }
        ensures written { OnOk result (D.honest disk.old
            → IsWritten (self.now.start + at) bytes.now (D.seen disk.old) (D.seen disk.new)) }
        ensures no_shorter { D.size disk.old ≤ D.size disk.new }
        ensures calls { D.calls disk.new ≡ D.calls disk.old + 1 }
        ensures faults { CountsFault result (D.fault_count disk.old) (D.fault_count disk.new) }
        ensures honest { D.honest disk.new ↔ D.honest disk.old }
    {
        disk.write_at(self.start + at, bytes)
    }

    /// Opens the area's own gate and syncs.
    ///
    /// After a crash at any moment, the area is unchanged except for its gate. An area that would read as a head and bodies if its gate
    /// were open reads so after `Ok`.
    pub fn open_gate<D: Disk>(&self, disk: &mut D) -> Result<(), DiskFault>
        requires countable { D.fault_count disk.old < u64.MAX }
        ensures any_moment { D.honest disk.old → EachSince D.moment D.images_since disk.old disk.new
            (From (Torn self.now.start 1) (D.images disk.old)) }
        ensures stable { OnOk result (D.honest disk.old → Only (D.seen disk.new) (D.images disk.new)) }
        ensures open { OnOk result (D.honest disk.old → IsWritten self.now.start (0xA5 ∷ []) (D.seen disk.old) (D.seen disk.new)) }
        ensures reads { (head : Head) (bodies : List (List ℕ)) → D.honest disk.old
            → ((c : List ℕ) → D.images disk.old c → WouldReadAt self.now.start self.now.len c head bodies)
            → EachSince D.moment D.images_since disk.old disk.new (OpenOrShut self.now.start self.now.len head bodies) }
        ensures opened { OnOk result ((head : Head) (bodies : List (List ℕ)) → D.honest disk.old
            → WouldReadAt self.now.start self.now.len (D.seen disk.old) head bodies
            → ReadsAt self.now.start self.now.len (D.seen disk.new) head bodies) }
        ensures no_shorter { D.size disk.old ≤ D.size disk.new }
        ensures calls { D.calls disk.new ≤ D.calls disk.old + 2 }
        ensures faults { CountsFault result (D.fault_count disk.old) (D.fault_count disk.new) }
        ensures honest { D.honest disk.new ↔ D.honest disk.old }
    {
        write_synced(disk, self.start, &[OPEN])
    }

    /// Closes the area's own gate and syncs. For a gate that is already closed it makes no call, since a crash inside such a write might
    /// leave the gate open.
    pub fn close_gate<D: Disk>(&self, disk: &mut D, gate: GateState) -> Result<(), DiskFault>
        requires countable { D.fault_count disk.old < u64.MAX }
        ensures same { gate ≡ GateState.Closed → (disk.new ≡ disk.old) × IsOk result }
        ensures any_moment { gate ≡ GateState.Open → D.honest disk.old → EachSince D.moment D.images_since disk.old disk.new
            (From (Torn self.now.start 1) (D.images disk.old)) }
        ensures stable { OnOk result (gate ≡ GateState.Open → D.honest disk.old → Only (D.seen disk.new) (D.images disk.new)) }
        ensures closed { OnOk result (gate ≡ GateState.Open → D.honest disk.old
            → IsWritten self.now.start (0 ∷ []) (D.seen disk.old) (D.seen disk.new)) }
        ensures reads { (head : Head) (bodies : List (List ℕ)) → gate ≡ GateState.Open → D.honest disk.old
            → ((c : List ℕ) → D.images disk.old c → WouldReadAt self.now.start self.now.len c head bodies)
            → EachSince D.moment D.images_since disk.old disk.new (OpenOrShut self.now.start self.now.len head bodies) }
        ensures shut { OnOk result ((head : Head) (bodies : List (List ℕ)) → gate ≡ GateState.Open → D.honest disk.old
            → WouldReadAt self.now.start self.now.len (D.seen disk.old) head bodies
            → ShutAt self.now.start self.now.len (D.seen disk.new) head bodies) }
        ensures no_shorter { D.size disk.old ≤ D.size disk.new }
        ensures calls { D.calls disk.new ≤ D.calls disk.old + 2 }
        ensures faults { CountsFault result (D.fault_count disk.old) (D.fault_count disk.new) }
        ensures honest { D.honest disk.new ↔ D.honest disk.old }
    {
        match gate {
            GateState::Open => write_synced(disk, self.start, &[CLOSED]),
            GateState::Closed => Ok(()),
        }
    }
}
