//! `acts show`, `acts runners` and `acts queue`: print the table that a disk recovers to.

ghost use Rattle.std.specs.Prelude.{◌<◌, ℕ, List, IsErrAnd};
ghost use Rattle.std.specs.Io.KnownBytes.{Appends};
ghost use Rattle.definitions.specs.Disk.{EachSince};
ghost use Rattle.act_store.specs.Images.{HasNoArea};
ghost use Rattle.act_store.specs.StoreState.{table_of};
ghost use Rattle.act_store.specs.Plain.{TellsNoArea};
ghost use Rattle.act_store.specs.FaultCauses.{TellsFault};
ghost use Rattle.table_views.specs.QueueLines.{queue_lines};
ghost use Rattle.table_views.specs.RunLines.{run_line};
ghost use Rattle.table_views.specs.RunnerLines.{runner_lines};
ghost use Rattle.program_commands.specs.Show.{Shows, WritesWhat, one_run, run_lines, shown};
ghost use Rattle.program_commands.specs.inner.Writes.{Writes};

use crate::shown::Shown;
use act_disk::Disk;
use act_store::Store;
use byte_streams::{flush, write_whole};
use run_plan::Number;
use run_table::{RunView, Table};
use std::alloc::Global;
use std::io::Write;
use table_views::{Form, queue_text, run_line, runners_text};
use wf_value::{Code, Refusal};

fn write_view<W: Write>(
    alloc: Global,
    form: Form,
    view: &RunView<'_>,
    writer: &mut W,
) -> Result<(), Refusal>
    ensures { Writes (W.contents writer.old) (W.contents writer.new) (run_line form view.now) result }
{
    let text = run_line(alloc, form, view)?;
    write_whole(writer, text.as_bytes())
}

/// Writes the line of each run of a store, in the order of their ids.
fn write_views<D: Disk, W: Write>(
    alloc: Global,
    form: Form,
    store: &Store<D>,
    writer: &mut W,
) -> Result<(), Refusal>
    ensures { Writes (W.contents writer.old) (W.contents writer.new) (run_lines form (table_of store.now)) result }
{
    let runs = store.table().runs();
    for index in 0..runs.len() {
        write_view(alloc, form, &RunView::of(&runs[index]), writer)?;
    }
    Ok(())
}

/// Writes the line of one run. An unknown run is refused with 40.
fn write_run<D: Disk, W: Write>(
    alloc: Global,
    form: Form,
    store: &Store<D>,
    run: Number,
    writer: &mut W,
) -> Result<(), Refusal>
    ensures { WritesWhat (W.contents writer.old) (W.contents writer.new) (one_run form (table_of store.now) run) result }
{
    match store.look(run) {
        Some(view) => write_view(alloc, form, &view, writer),
        None => Err(Refusal::Numbered(Code::NoRun)),
    }
}

fn write_runners<W: Write>(
    alloc: Global,
    form: Form,
    table: &Table,
    writer: &mut W,
) -> Result<(), Refusal>
    ensures { Writes (W.contents writer.old) (W.contents writer.new) (runner_lines form table.now) result }
{
    let text = runners_text(alloc, form, table)?;
    write_whole(writer, text.as_str().as_bytes())
}

fn write_queue<W: Write>(
    alloc: Global,
    form: Form,
    table: &Table,
    writer: &mut W,
) -> Result<(), Refusal>
    ensures { Writes (W.contents writer.old) (W.contents writer.new) (queue_lines form table.now) result }
{
    let text = queue_text(alloc, form, table)?;
    write_whole(writer, text.as_str().as_bytes())
}

fn write_shown<D: Disk, W: Write>(
    alloc: Global,
    form: Form,
    what: Shown,
    store: &Store<D>,
    writer: &mut W,
) -> Result<(), Refusal>
    ensures { WritesWhat (W.contents writer.old) (W.contents writer.new) (shown form what (table_of store.now)) result }
{
    match what {
        Shown::Runs => write_views(alloc, form, store, writer),
        Shown::Run(run) => write_run(alloc, form, store, run, writer),
        Shown::Runners => write_runners(alloc, form, store.table(), writer),
        Shown::Queue => write_queue(alloc, form, store.table(), writer),
    }
}

/// Writes what is shown of a store, and flushes the writer.
fn show_store<D: Disk, W: Write>(
    alloc: Global,
    form: Form,
    what: Shown,
    store: &Store<D>,
    writer: &mut W,
) -> Result<(), Refusal>
    ensures { WritesWhat (W.contents writer.old) (W.contents writer.new) (shown form what (table_of store.now)) result }
{
    write_shown(alloc, form, what, store, writer)?;
    flush(writer)
}

/// Opens a disk and shows its table: a line for each run, for one run, for each runner, or for each entry of the queue.
/// It returns the disk with the result. A disk without an open area is refused with 53, one whose area encodes no table
/// with 54, and one without the requested run with 40; nothing is written. A failure of the device is 51, a failed
/// write is 61, and out of memory is 50.
/// Promise (The program): `acts show`, `acts runners`, `acts queue`: the lines of the table to which the disk recovers, as words or JSON, exact
///   to the byte
/// By: `program_commands::run_show`, `written` (`Shows`, `shown`); `table_views::{run_line, runners_text, queue_text}`
/// Promise (The program): A crash during `acts show`, `acts runners` or `acts queue` leaves no image that it could not have left before
/// By: `program_commands::run_show`, `any_moment`, `honest`
/// Refusal (Sessions and programs): `program_commands::run_show`
/// When: 53, 54 as `Store::open`. 40: only if the run asked for is not there. 51: exactly if a call of the disk failed
/// Afterwards: nothing is written; no image is added
/// By: `written` (`Shows`, `IsMissing`), `tells_no_area`, `faults`, `any_moment`
/// Refusal (Sessions and programs): `program_commands::run_show`
/// When: 50, 61; that 61 has its cause: T
/// Afterwards: a prefix is written; no image is added
/// By: `written` (`Shows`), `any_moment`
pub fn run_show<D: Disk, W: Write>(
    alloc: Global,
    disk: D,
    what: Shown,
    form: Form,
    writer: &mut W,
) -> (D, Result<(), Refusal>)
    requires { D.fault_count disk < u64.MAX }
    ensures written { D.honest result.0 → (out : List ℕ) × Appends (W.contents writer.old) (W.contents writer.new) out
        × Shows (shown form what) (D.seen disk) out result.1 }
    // The error is 51 exactly if a disk call failed. Without an open area it is 53 or 51, even when out of memory.
    ensures faults { TellsFault result.1 (D.fault_count disk) (D.fault_count result.0) }
    ensures tells_no_area { D.honest result.0 → HasNoArea (D.seen disk) → IsErrAnd result.1 TellsNoArea }
    ensures any_moment { D.honest result.0 → EachSince D.moment D.images_since disk result.0 (D.images disk) }
    ensures honest { D.honest result.0 → D.honest disk }
{
    match Store::open(alloc, disk) {
        Ok(store) => {
            let ended = show_store(alloc, form, what, &store, writer);
            (store.into_disk(), ended)
        }
        Err((disk, refusal)) => (disk, Err(refusal)),
    }
}
