ghost use Rattle.std.specs.Prelude.{◌≡◌, ◌↔◌, ◌+◌, ◌<◌, ◌≤◌, ◌^◌, ℕ, List, [], ◌∷◌, ◌++◌, length, OnOk};
ghost use Rattle.definitions.specs.Disk.{Holds, EachSince, CountsFault};
ghost use Rattle.gated_journal.specs.Appends.{record_of};
ghost use Rattle.definitions.specs.Area.{Head, opened};
ghost use Rattle.gated_journal.specs.TwoAreas.{start_of, other};
ghost use Rattle.gated_journal.specs.Whole.{RecoversWhole, WholeOrGrew};

use crate::append::append_after;
use crate::area_pair::AreaPair;
use crate::gate::GateState;
use act_disk::{Disk, DiskFault};

impl AreaPair {
    /// Appends to the active area of a disk of two areas. Its first closed gate is at `at`. The bytes are a record: a length-prefixed body
    /// and a closed gate. The length of the disk does not change.
    /// Promise (Areas and records): At every moment: an append leaves the old bodies, or these and the new one; a close of the other gate leaves
    ///   it open or closed; a put after that gate changes nothing
    /// By: `gated_journal::AreaPair::{grow, close_other, put}`, `any_moment`, `grown`, `closed`
    /// Promise (Areas and records): An append, a close of the other gate, a put and a switch make four, two, one and four calls of the disk at
    ///   most; closing a closed gate makes none
    /// By: `gated_journal::AreaPair::{grow, close_other, put, switch}`, `calls`, `same`
    /// Refusal (The layers below): `gated_journal`: `AreaPair::{grow, close_other, put, switch}`, `Area::{append, put, open_gate, close_gate}`
    /// When: a fault: exactly if `faults` rises by one
    /// Afterwards: at every moment as before or after the call, or changed in its range alone
    /// By: `faults`, `any_moment`, `honest`
    pub fn grow<D: Disk>(&self, disk: &mut D, at: u64, bytes: &[u8]) -> Result<(), DiskFault>
        requires countable { D.fault_count disk.old < u64.MAX }
        requires addressed { self.now.len + self.now.len < 2 ^ 64 }
        requires fits { at + (length bytes.now + 1) ≤ self.now.len }
        ensures any_moment { (gate : GateState) (head : Head) (bodies : List (List ℕ)) (body : List ℕ) → D.honest disk.old
            → ((c : List ℕ) → D.images disk.old c → RecoversWhole self.now.len self.now.side gate c head bodies)
            → at ≡ length (opened head bodies) → bytes.now ≡ record_of body → length body < 2 ^ 32
            → EachSince D.moment D.images_since disk.old disk.new (WholeOrGrew self.now.len self.now.side gate head bodies body) }
        ensures grown { OnOk result ((gate : GateState) (head : Head) (bodies : List (List ℕ)) (body : List ℕ) → D.honest disk.old
            → ((c : List ℕ) → D.images disk.old c → RecoversWhole self.now.len self.now.side gate c head bodies)
            → at ≡ length (opened head bodies) → bytes.now ≡ record_of body → length body < 2 ^ 32
            → (c : List ℕ) → D.images disk.new c → RecoversWhole self.now.len self.now.side gate c head (bodies ++ body ∷ [])) }
        // What was put into the other area is still there.
        ensures beside { OnOk result ((from : ℕ) (put : List ℕ) → D.honest disk.old
            → self.now.len + self.now.len ≤ length (D.seen disk.old) → from + length put ≤ self.now.len
            → Holds (D.seen disk.old) (start_of self.now.len (other self.now.side) + from) put
            → Holds (D.seen disk.new) (start_of self.now.len (other self.now.side) + from) put) }
        ensures calls { D.calls disk.new ≤ D.calls disk.old + 4 }
        ensures faults { CountsFault result (D.fault_count disk.old) (D.fault_count disk.new) }
        ensures honest { D.honest disk.new ↔ D.honest disk.old }
    {
        append_after(disk, self.side.start(self.len) + at, bytes)
    }
}
