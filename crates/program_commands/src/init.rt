//! `acts init`: makes a store on an empty disk.

ghost use Rattle.std.specs.Prelude.{◌≡◌, ◌↔◌, ◌+◌, ◌<◌, ◌≤◌, ℕ, List, take, Err, IfErr, OnOk};
ghost use Rattle.std.specs.Io.KnownBytes.{Appends};
ghost use Rattle.definitions.specs.Limits.{max_area, min_area};
ghost use Rattle.act_disk.specs.Failed.{stream_failed};
ghost use Rattle.table_model.specs.Step.{empty};
ghost use Rattle.act_store.specs.Images.{RecoversTo};
ghost use Rattle.act_store.specs.Plain.{disk_not_empty};
ghost use Rattle.act_store.specs.FaultCauses.{TellsFault};
ghost use Rattle.program_commands.specs.Made.{Makes, made_line};

use act_disk::Disk;
use act_store::Store;
use byte_streams::{flush, write_whole};
use std::alloc::Global;
use std::io::Write;
use wf_value::Refusal;

/// Writes `made` and a line feed.
fn write_made<W: Write>(writer: &mut W) -> Result<(), Refusal>
    ensures all { OnOk result (Appends (W.contents writer.old) (W.contents writer.new) made_line) }
    ensures prefix { (n : ℕ) × Appends (W.contents writer.old) (W.contents writer.new) (take n made_line) }
    ensures err { IfErr result (λ e. e ≡ stream_failed) }
{
    write_whole(writer, b"made\n")?;
    flush(writer)
}

/// Makes a store with two areas of `area` bytes each on an empty disk, and writes `made` and a line feed. It returns
/// the disk with the result. A disk that is not empty is refused with 55; nothing is written and the disk is unchanged.
/// A failure of the device is 51. A failed write is 61; the store is made all the same.
/// Promise (The program): `acts init`: over an empty disk `made` is written, and the disk has two areas of the requested length. If no call of
///   the disk failed, each image recovers to the empty table, even if writing `made` failed
/// By: `program_commands::run_init`, `written` (`Makes`), `size`, `recovers`, `honest`
/// Refusal (Sessions and programs): `program_commands::run_init`
/// When: 55: exactly if the disk is not empty. 51: exactly if a disk call failed. 61: else, a failed write: T
/// Afterwards: after 55 as it was; after 51 of its images nothing is promised; after 61 all recover to the empty table
/// By: `occupied`, `faults`, `written` (`Makes`), `recovers`
pub fn run_init<D: Disk, W: Write>(
    alloc: Global,
    disk: D,
    area: u64,
    writer: &mut W,
) -> (D, Result<(), Refusal>)
    requires countable { D.fault_count disk < u64.MAX }
    requires least { min_area ≤ area }
    requires most { area ≤ max_area }
    ensures written { (out : List ℕ) × Appends (W.contents writer.old) (W.contents writer.new) out × Makes (D.size disk) out result.1 }
    ensures occupied { (D.size disk ≡ 0 → ⊥) → result ≡ (disk, Err disk_not_empty) }
    ensures size { OnOk result.1 (D.size result.0 ≡ area + area) }
    // The error is 51 exactly if a disk call failed. If none failed on an empty disk, the disk recovers to the
    // empty table, whether or not the output was written.
    ensures faults { TellsFault result.1 (D.fault_count disk) (D.fault_count result.0) }
    ensures recovers { D.size disk ≡ 0 → D.fault_count result.0 ≡ D.fault_count disk
        → D.honest result.0 → (c : List ℕ) → D.images result.0 c → RecoversTo empty c }
    ensures honest { D.honest result.0 ↔ D.honest disk }
{
    match Store::init(alloc, disk, area) {
        Ok(store) => {
            let ended = write_made(writer);
            (store.into_disk(), ended)
        }
        Err((disk, refusal)) => (disk, Err(refusal)),
    }
}
