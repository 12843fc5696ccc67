ghost use Rattle.std.specs.Prelude.{◌≡◌, ◌⊎◌, ◌<◌, ◌≤◌, ◌+◌, ◌^◌, Err, IfErr, IfOk, IfSome, OnOk};
ghost use Rattle.wf_value.specs.Gives.{no_memory};
ghost use Rattle.act_disk.specs.Failed.{device_failed};
ghost use Rattle.definitions.specs.Disk.{Only, SameImages};
ghost use Rattle.gated_journal.specs.Choice.{part};
ghost use Rattle.gated_journal.specs.Reading.{OnlyRead};
ghost use Rattle.table_model.specs.Sound.{IsSound};
ghost use Rattle.act_store.specs.Images.{HasNoArea, HasNoTable, IsAreaLength};
ghost use Rattle.act_store.specs.inner.Opened.{IsFound};
ghost use Rattle.act_store.specs.Plain.{RefusesOpening, TellsNoArea, no_area, no_table};
ghost use Rattle.act_store.specs.inner.Encoded.{IsHalf, IsEncoded};
ghost use Rattle.act_store.specs.FaultCauses.{TellsFault};

use crate::area_prefix::read_prefix;
use crate::decoded_area::{DecodedArea, encoded_in};
use crate::init::{MAX_AREA, MIN_AREA};
use act_disk::Disk;
use gated_journal::{Area, AreaPair, Chosen, choose};
use std::alloc::Global;
use wf_value::{Code, Refusal};

/// The least and the greatest length of a disk of two areas.
const LEAST: u64 = 2 * MIN_AREA;

const MOST: u64 = 2 * MAX_AREA;

/// Half of a disk's length, if that is the length of an area.
fn area_length(size: u64) -> Option<u64>
    ensures { IsHalf size result }
{
    if size < LEAST || size > MOST || size % 2 != 0 {
        return None;
    }
    Some(size / 2)
}

/// What was found on a disk: the length of its areas, which one is active, the state of the other gate, and what the active area encodes.
#[derive(Drop)]
pub struct LocatedArea {
    pub area: u64,
    pub chosen: Chosen,
    pub encoded: DecodedArea,
}

/// Reads an area as far as needed, and decodes it.
fn encoded_at<D: Disk>(
    alloc: Global,
    disk: &mut D,
    area: Area,
) -> Result<Option<DecodedArea>, Refusal>
    requires countable { D.fault_count disk.old < u64.MAX }
    requires within { area.start + area.len ≤ D.size disk.old }
    requires addressed { area.start + area.len < 2 ^ 62 }
    ensures encoded { IfOk result (λ found. D.honest disk.new → IsEncoded (part area.start area.len (D.seen disk.old)) found) }
    ensures fits { IfOk result (λ found. IfSome found (λ s. s.used < area.len)) }
    ensures sound { IfOk result (λ found. IfSome found (λ s. IsSound s.table)) }
    ensures images { D.honest disk.new → SameImages (D.images disk.old) (D.images disk.new) }
    ensures only_read { OnlyRead D.honest D.seen D.size D.moment D.images D.images_since disk.old disk.new }
    ensures faults { TellsFault result (D.fault_count disk.old) (D.fault_count disk.new) }
    ensures refused { IfErr result (λ e. (e ≡ no_memory) ⊎ (e ≡ device_failed)) }
{
    let bytes = read_prefix(alloc, disk, area)?;
    encoded_in(alloc, bytes.as_slice())
}

/// Syncs, and decodes the active area of a disk. A crash during the call leaves nothing that it might not have left before.
pub(crate) fn find<D: Disk>(alloc: Global, disk: &mut D) -> Result<LocatedArea, Refusal>
    requires { D.fault_count disk.old < u64.MAX }
    ensures found { IfOk result (λ found. D.honest disk.new → IsFound found (D.seen disk.old)) }
    ensures area { IfOk result (λ found. IsAreaLength found.area × (found.encoded.used < found.area)
        × (D.size disk.old ≡ found.area + found.area)) }
    ensures sound { IfOk result (λ found. IsSound found.encoded.table) }
    ensures no_area { result ≡ Err no_area → D.honest disk.new → HasNoArea (D.seen disk.old) }
    ensures no_table { result ≡ Err no_table → D.honest disk.new → HasNoTable (D.seen disk.old) }
    ensures tells_no_area { IfErr result (λ e. D.honest disk.new → HasNoArea (D.seen disk.old) → TellsNoArea e) }
    ensures refused { IfErr result RefusesOpening }
    ensures stable { OnOk result (D.honest disk.new → Only (D.seen disk.old) (D.images disk.new)) }
    ensures only_read { OnlyRead D.honest D.seen D.size D.moment D.images D.images_since disk.old disk.new }
    ensures faults { TellsFault result (D.fault_count disk.old) (D.fault_count disk.new) }
{
    let len = area_length(disk.len()).ok_or(Refusal::Numbered(Code::NoArea))?;
    let chosen = choose(disk, len)?.ok_or(Refusal::Numbered(Code::NoArea))?;
    let areas = AreaPair {
        len,
        side: chosen.side,
    };
    match encoded_at(alloc, disk, areas.area(chosen.side))? {
        Some(encoded) => Ok(LocatedArea {
            area: len,
            chosen,
            encoded,
        }),
        None => Err(Refusal::Numbered(Code::NoTable)),
    }
}
