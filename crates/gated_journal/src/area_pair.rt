ghost use Rattle.std.specs.Prelude.{◌≡◌, ◌↔◌, ◌+◌, ◌<◌, ◌≤◌, ◌^◌, ℕ, List, ◌++◌, length, IsOk, OnOk};
ghost use Rattle.definitions.specs.Disk.{Holds, Only, EachSince, CountsFault};
ghost use Rattle.definitions.specs.Area.{Head};
ghost use Rattle.gated_journal.specs.TwoAreas.{start_of, other, Completes};
ghost use Rattle.gated_journal.specs.Whole.{RecoversWhole, WholeEither, WholeOrSwitched};

use crate::append::OPEN;
use crate::area::Area;
use crate::gate::GateState;
use crate::side::Side;
use act_disk::{Disk, DiskFault, write_synced};

/// Two adjacent areas of a disk, each `len` bytes long. The area of `side` is active.
///
/// The contracts of its calls assume that each image that a crash may leave at the start of the call reads so and ends where its second
/// area does. The calls do not change the length of the disk.
#[derive(Clone, Copy)]
pub struct AreaPair {
    pub len: u64,
    pub side: Side,
}

impl AreaPair {
    /// The area of one side.
    pub fn area(&self, side: Side) -> Area
        ensures start { result.start ≡ start_of self.now.len side }
        ensures within { result.start ≤ self.now.len }
        ensures len { result.len ≡ self.now.len }
    {
        Area {
            start: side.start(self.len),
            len: self.len,
        }
    }

    /// The area that is not active.
    fn other_area(&self) -> Area
        ensures start { result.start ≡ start_of self.now.len (other self.now.side) }
        ensures within { result.start ≤ self.now.len }
        ensures len { result.len ≡ self.now.len }
    {
        self.area(self.side.other())
    }

    /// Closes the gate of the other area, whose state is `gate`, and syncs. For a gate that is already closed it makes no call, since a
    /// crash inside such a write might leave the gate open.
    pub fn close_other<D: Disk>(&self, disk: &mut D, gate: GateState) -> Result<(), DiskFault>
        requires countable { D.fault_count disk.old < u64.MAX }
        requires addressed { self.now.len + self.now.len < 2 ^ 64 }
        ensures any_moment { (head : Head) (bodies : List (List ℕ)) → D.honest disk.old
            → ((c : List ℕ) → D.images disk.old c → RecoversWhole self.now.len self.now.side gate c head bodies)
            → EachSince D.moment D.images_since disk.old disk.new (WholeEither self.now.len self.now.side head bodies) }
        ensures closed { OnOk result ((head : Head) (bodies : List (List ℕ)) → D.honest disk.old
            → ((c : List ℕ) → D.images disk.old c → RecoversWhole self.now.len self.now.side gate c head bodies)
            → (c : List ℕ) → D.images disk.new c → RecoversWhole self.now.len self.now.side GateState.Closed c head bodies) }
        ensures same { gate ≡ GateState.Closed → (disk.new ≡ disk.old) × IsOk result }
        ensures calls { D.calls disk.new ≤ D.calls disk.old + 2 }
        ensures faults { CountsFault result (D.fault_count disk.old) (D.fault_count disk.new) }
        ensures honest { D.honest disk.new ↔ D.honest disk.old }
    {
        self.other_area().close_gate(disk, gate)
    }

    /// Writes a part of the other area's contents after its closed gate, without a sync.
    pub fn put<D: Disk>(&self, disk: &mut D, at: u64, bytes: &[u8]) -> Result<(), DiskFault>
        requires countable { D.fault_count disk.old < u64.MAX }
        requires addressed { self.now.len + self.now.len < 2 ^ 64 }
        requires after_gate { 0 < at }
        requires fits { at + length bytes.now ≤ self.now.len }
        ensures any_moment { (head : Head) (bodies : List (List ℕ)) → D.honest disk.old
            → ((c : List ℕ) → D.images disk.old c → RecoversWhole self.now.len self.now.side GateState.Closed c head bodies)
            → EachSince D.moment D.images_since disk.old disk.new
            (λ c. RecoversWhole self.now.len self.now.side GateState.Closed c head bodies) }
        ensures grown { OnOk result ((prefix : List ℕ) → D.honest disk.old → at ≡ 1 + length prefix
            → self.now.len + self.now.len ≤ length (D.seen disk.old)
            → Holds (D.seen disk.old) (start_of self.now.len (other self.now.side) + 1) prefix
            → Holds (D.seen disk.new) (start_of self.now.len (other self.now.side) + 1) (prefix ++ bytes.now)) }
        ensures calls { D.calls disk.new ≡ D.calls disk.old + 1 }
        ensures faults { CountsFault result (D.fault_count disk.old) (D.fault_count disk.new) }
        ensures honest { D.honest disk.new ↔ D.honest disk.old }
    {
        self.other_area().put(disk, at, bytes)
    }

    /// Switches areas: writes the last part of the other area's contents, syncs, opens its gate, and syncs.
    ///
    /// After a crash at any moment, the disk reads as before, or as the other area does. After `Ok` it reads as the other area does.
    /// Promise (Areas and records): At every moment the switch leaves one area or the other, whole; after Ok it is the latter. What was put
    ///   stays beside appends
    /// By: `gated_journal::AreaPair::switch`, `any_moment`, `switched`; `gated_journal::AreaPair::grow`, `beside`
    pub fn switch<D: Disk>(&self, disk: &mut D, at: u64, bytes: &[u8]) -> Result<(), DiskFault>
        requires countable { D.fault_count disk.old < u64.MAX }
        requires addressed { self.now.len + self.now.len < 2 ^ 64 }
        requires after_gate { 0 < at }
        requires fits { at + length bytes.now ≤ self.now.len }
        ensures any_moment { (head next : Head) (bodies others : List (List ℕ)) → D.honest disk.old
            → ((c : List ℕ) → D.images disk.old c → RecoversWhole self.now.len self.now.side GateState.Closed c head bodies)
            → Completes self.now.len self.now.side (D.seen disk.old) at bytes.now head next others
            → EachSince D.moment D.images_since disk.old disk.new
            (WholeOrSwitched self.now.len self.now.side head bodies next others) }
        ensures stable { OnOk result (D.honest disk.old → Only (D.seen disk.new) (D.images disk.new)) }
        ensures switched { OnOk result ((head next : Head) (bodies others : List (List ℕ)) → D.honest disk.old
            → ((c : List ℕ) → D.images disk.old c → RecoversWhole self.now.len self.now.side GateState.Closed c head bodies)
            → Completes self.now.len self.now.side (D.seen disk.old) at bytes.now head next others
            → (c : List ℕ) → D.images disk.new c → RecoversWhole self.now.len (other self.now.side) GateState.Open c next others) }
        ensures calls { D.calls disk.new ≤ D.calls disk.old + 4 }
        ensures faults { CountsFault result (D.fault_count disk.old) (D.fault_count disk.new) }
        ensures honest { D.honest disk.new ↔ D.honest disk.old }
    {
        let start = self.other_area().start;
        write_synced(disk, start + at, bytes)?;
        write_synced(disk, start, &[OPEN])
    }
}
