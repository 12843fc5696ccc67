//! A store that is copied into a file with areas of another length.

ghost use Rattle.std.specs.Prelude.{◌≡◌, ◌⊎◌, ◌↔◌, ◌+◌, ◌<◌, ◌≤◌, ◌∷◌, ℕ, List, [], take, length, Err, IfErr, IfOk, OnOk, false, true};
ghost use Rattle.std.specs.Io.KnownBytes.{Appends};
ghost use Rattle.wf_value.specs.Gives.{ErrsOnlyByMemory, no_memory};
ghost use Rattle.act_disk.specs.Failed.{device_failed, stream_failed};
ghost use Rattle.gated_journal.specs.TwoAreas.{after_gate};
ghost use Rattle.table_model.specs.Sound.{IsSound};
ghost use Rattle.table_text.specs.Tables.{whole_table};
ghost use Rattle.act_store.specs.FaultCauses.{TellsFault};
ghost use Rattle.act_store.specs.Images.{IsAreaLength, RecoversTo};
ghost use Rattle.act_store.specs.Layouts.{EncodesTable};
ghost use Rattle.act_store.specs.Plain.{area_full, disk_not_empty};
ghost use Rattle.act_store.specs.StoreState.{table_of};
ghost use Rattle.act_store.specs.declared.layout.Layout.TheVariants as layouts;
ghost use Rattle.store_copies.specs.Copies.{copy_head, fits};
ghost use Rattle.store_copies.specs.Growth.{IsGrown, RecoverAlike, area_fits, grown_line};

use crate::copy::{fits, front};
use act_disk::Disk;
use act_store::Store;
use byte_streams::{flush, write_whole};
use gated_journal::make_areas;
use run_table::Table;
use std::alloc::Global;
use std::io::Write;
use wf_value::{Code, Refusal};

/// A closed gate.
const CLOSED: u8 = 0;

/// The contents of an area that has a table and no record, with closed gates.
fn closed_area(alloc: Global, table: &Table) -> Result<Vec<u8>, Refusal>
    requires few { length table.now.runners ≤ 4294967295 }
    requires sound { IsSound table.now }
    ensures err { ErrsOnlyByMemory result }
    ensures bytes { IfOk result (λ bytes. bytes.items ≡ 0 ∷ after_gate (copy_head (whole_table.encoding table.now)) []) }
    ensures encodes { OnOk result (EncodesTable layouts.Third table.now (whole_table.encoding table.now)) }
{
    let mut bytes = front(alloc, CLOSED, table)?;
    bytes.push(CLOSED)?;
    Ok(bytes)
}

/// Lays a table on an empty disk, in the first of two areas, which is active once all of it is durable.
fn lay<E: Disk>(alloc: Global, table: &Table, disk: &mut E, area: u64) -> Result<(), Refusal>
    requires few { length table.now.runners ≤ 4294967295 }
    requires sound { IsSound table.now }
    requires area { IsAreaLength area }
    requires room { length (whole_table.encoding table.now) + 19 ≤ area }
    requires empty { E.size disk.old ≡ 0 }
    requires countable { E.fault_count disk.old < u64.MAX }
    ensures recovers { OnOk result (E.honest disk.new → (c : List ℕ) → E.images disk.new c → RecoversTo table.now c) }
    ensures size { OnOk result (E.size disk.new ≡ area + area) }
    ensures refused { IfErr result (λ e. (e ≡ no_memory) ⊎ (e ≡ device_failed)) }
    ensures faults { TellsFault result (E.fault_count disk.old) (E.fault_count disk.new) }
    ensures honest { E.honest disk.new ↔ E.honest disk.old }
{
    let bytes = closed_area(alloc, table)?;
    make_areas(disk, area, bytes.as_slice())?;
    Ok(())
}

/// The table of a store that was just opened. Each image of its disk recovers to it.
fn opened_table<D: Disk>(store: &Store<D>) -> &Table
    requires { store.now.history ≡ [] }
    ensures table { result.now ≡ table_of store.now }
    ensures recovers { D.honest store.now.disk → (c : List ℕ) → D.images store.now.disk c → RecoversTo (table_of store.now) c }
{
    let _covered = store.covered();
    store.table()
}

/// Writes `grown` and a line feed.
fn write_grown<W: Write>(writer: &mut W) -> Result<(), Refusal>
    ensures all { OnOk result (Appends (W.contents writer.old) (W.contents writer.new) grown_line) }
    ensures prefix { (n : ℕ) × Appends (W.contents writer.old) (W.contents writer.new) (take n grown_line) }
    ensures err { IfErr result (λ e. e ≡ stream_failed) }
{
    write_whole(writer, b"grown\n")?;
    flush(writer)
}

/// Copies the table of a store that was just opened to an empty disk, with two areas of `area` bytes each, and writes `grown` and a line feed. It
/// returns that disk with the result.
///
/// A disk that is not empty is refused with 55, and an area that the text of the table does not fit with 47; the disk is unchanged then, and
/// nothing is written. A failure of the device is 51, and out of memory is 50. A failed write is 61; the store is copied all the same.
/// Promise (The program): `acts grow`: once `grown` is written, or only that has failed, each image of the new disk recovers to the table to which
///   each image of the old one recovers
/// By: `store_copies::grow`, `alike` (`RecoverAlike`), `recovers` (`IsGrown`)
/// Promise (The program): `acts grow`: the new disk has two areas of the requested length; the old one is opened, and not written
/// By: `store_copies::grow`, `size`; `act_store::Store::open`, `base`, `any_moment`
/// Refusal (Sessions and programs): `store_copies::grow`
/// When: 55: exactly if the disk is not empty. 47: exactly if it is, and the text of the table does not fit an area
/// Afterwards: the disk is as it was
/// By: `occupied`, `full`, `refused`
/// Refusal (Sessions and programs): `store_copies::grow`
/// When: 51: exactly if a disk call failed. 50, 61: else, out of memory or a failed write
/// Afterwards: after 50 and 51 nothing is promised of its images; after 61 each recovers to the table
/// By: `faults`, `refused`, `recovers` (`IsGrown`)
pub fn grow<D: Disk, E: Disk, W: Write>(
    alloc: Global,
    store: &Store<D>,
    disk: E,
    area: u64,
    writer: &mut W,
) -> (E, Result<(), Refusal>)
    requires opened { store.now.history ≡ [] }
    requires countable { E.fault_count disk < u64.MAX }
    ensures recovers { IsGrown result.1 → E.honest result.0 → (c : List ℕ) → E.images result.0 c → RecoversTo (table_of store.now) c }
    ensures alike { IsGrown result.1 → D.honest store.now.disk → E.honest result.0
        → RecoverAlike (D.images store.now.disk) (E.images result.0) }
    ensures size { IsGrown result.1 → E.size result.0 ≡ area + area }
    ensures occupied { (E.size disk ≡ 0 → ⊥) → result ≡ (disk, Err disk_not_empty) }
    ensures full { E.size disk ≡ 0 → fits area (table_of store.now) ≡ false → result ≡ (disk, Err area_full) }
    ensures refused { E.size disk ≡ 0 → fits area (table_of store.now) ≡ true
        → IfErr result.1 (λ e. (e ≡ no_memory) ⊎ ((e ≡ device_failed) ⊎ (e ≡ stream_failed))) }
    ensures all { OnOk result.1 (Appends (W.contents writer.old) (W.contents writer.new) grown_line) }
    ensures prefix { (n : ℕ) × Appends (W.contents writer.old) (W.contents writer.new) (take n grown_line) }
    ensures faults { TellsFault result.1 (E.fault_count disk) (E.fault_count result.0) }
    ensures honest { E.honest result.0 ↔ E.honest disk }
{
    let mut disk = disk;
    if disk.len() != 0 {
        return (disk, Err(Refusal::Numbered(Code::DiskNotEmpty)));
    }
    let table = opened_table(store);
    if !fits(area, table) {
        return (disk, Err(Refusal::Numbered(Code::AreaFull)));
    }
    match lay(alloc, table, &mut disk, area) {
        Ok(()) => {
            let ended = write_grown(writer);
            (disk, ended)
        }
        Err(refusal) => (disk, Err(refusal)),
    }
}

/// Refuses an area that the text of a store's table does not fit, with 47. So it is known before a file is made.
/// Refusal (Sessions and programs): `store_copies::check_area`
/// When: 47: exactly if the text of the table does not fit an area
/// Afterwards: nothing was read or written, nor made
/// By: its one clause (`area_fits`)
pub fn check_area<D: Disk>(store: &Store<D>, area: u64) -> Result<(), Refusal>
    ensures { result ≡ area_fits area (table_of store.now) }
{
    if fits(area, store.table()) {
        Ok(())
    } else {
        Err(Refusal::Numbered(Code::AreaFull))
    }
}
