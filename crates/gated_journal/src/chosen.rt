ghost use Rattle.std.specs.Prelude.{◌≡◌, ◌+◌, ◌<◌, ◌≤◌, OnOk, IfOk};
ghost use Rattle.definitions.specs.Disk.{Only, CountsFault};
ghost use Rattle.gated_journal.specs.Choice.{newer, open_generation};
ghost use Rattle.gated_journal.specs.Lengths.{prefix_length};
ghost use Rattle.gated_journal.specs.Reading.{OnlyRead};
ghost use Rattle.gated_journal.specs.Whole.{IsChosen, IsChosenFrom, gate_of};

use crate::append::OPEN;
use crate::area::Area;
use crate::gate::GateState;
use crate::lengths::PREFIX_LEN;
use crate::side::Side;
use act_disk::{Disk, DiskFault};

/// The active area of a disk, and the state of the other area's gate.
#[derive(Clone, Copy)]
pub struct Chosen {
    pub side: Side,
    pub other: GateState,
}

/// The generation, if the gate is open.
fn generation_of(prefix: &[u8; PREFIX_LEN as usize]) -> Option<u64>
    ensures { result ≡ open_generation prefix.now }
{
    if prefix[0] != OPEN {
        return None;
    }
    Some(u64::from_be_bytes([
        prefix[2], prefix[3], prefix[4], prefix[5], prefix[6], prefix[7], prefix[8], prefix[9],
    ]))
}

/// Which of two areas is active, from the generation of each that has an open gate.
fn chosen_of(first: Option<u64>, second: Option<u64>) -> Option<Chosen>
    ensures { IsChosenFrom first second result }
{
    let side = Side::newer(first, second)?;
    let other = match side {
        Side::First => gate_of(second),
        Side::Second => gate_of(first),
    };
    Some(Chosen { side, other })
}

/// The gate of an area that has this generation if it is open.
fn gate_of(generation: Option<u64>) -> GateState
    ensures { result ≡ gate_of generation }
{
    match generation {
        Some(_) => GateState::Open,
        None => GateState::Closed,
    }
}

/// Syncs, and finds which of the two areas of a disk is active and the state of the other area's gate. Each area is `len` long.
///
/// From then on a crash leaves what was found. A crash during the call leaves nothing that it might not have left before.
/// Promise (Areas and records): After a sync the active area is found, or that there is none, with the gate of the other one; no image is added;
///   three calls at most
/// By: `gated_journal::choose`, `found`, `stable`, `only_read` (`OnlyRead`), `calls`
/// Refusal (The layers below): `gated_journal`: `choose`, `Area::read`, `scan`
/// When: a fault: exactly if `faults` rises by one. `None`: exactly if no area is active, or the area reads as nothing
/// Afterwards: no image is added
/// By: `faults`, `only_read`, `found`; `gated_journal::scan`, `none`
pub fn choose<D: Disk>(disk: &mut D, len: u64) -> Result<Option<Chosen>, DiskFault>
    requires countable { D.fault_count disk.old < u64.MAX }
    requires within { len + len ≤ D.size disk.old }
    requires long { prefix_length ≤ len }
    ensures found { IfOk result (λ found. D.honest disk.new → IsChosen len found (D.seen disk.old)) }
    ensures stable { OnOk result (D.honest disk.new → Only (D.seen disk.old) (D.images disk.new)) }
    ensures only_read { OnlyRead D.honest D.seen D.size D.moment D.images D.images_since disk.old disk.new }
    ensures calls { D.calls disk.new ≤ D.calls disk.old + 3 }
    ensures faults { CountsFault result (D.fault_count disk.old) (D.fault_count disk.new) }
{
    disk.sync()?;
    let mut prefix = [0; PREFIX_LEN as usize];
    let start = Area {
        start: 0,
        len: PREFIX_LEN,
    };
    start.read(disk, &mut prefix)?;
    let first = generation_of(&prefix);
    let middle = Area {
        start: len,
        len: PREFIX_LEN,
    };
    middle.read(disk, &mut prefix)?;
    let second = generation_of(&prefix);
    Ok(chosen_of(first, second))
}
