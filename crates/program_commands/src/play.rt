ghost use Rattle.std.specs.Prelude.{◌≡◌, ◌≢◌, ◌⊎◌, ◌<◌, ◌+◌, ◌++◌, ◌∷◌, [], ℕ, List, take, IfErr, IfSome, OnOk};
ghost use Rattle.std.specs.Io.KnownBytes.{Appends};
ghost use Rattle.wf_value.specs.Gives.{no_memory};
ghost use Rattle.act_disk.specs.Failed.{device_failed, stream_failed};
ghost use Rattle.program_commands.specs.Input.{ReadsAtMost};
ghost use Rattle.program_commands.specs.PlainStore.{start, without_disk};
ghost use Rattle.program_commands.specs.Play.{IsAnswer, PlaysFrom, Ends};

use crate::answer::{answer_line, answer_to};
use crate::input::read_input;
use crate::lines::first_line;
use act_disk::Disk;
use act_store::Store;
use byte_streams::{flush, write_whole};
use std::alloc::Global;
use std::io::{Read, Write};
use wf_value::Refusal;

/// The length of each of the two areas of a script's store, in bytes.
const AREA: u64 = 8_388_608;

fn play_line<D: Disk, W: Write>(
    alloc: Global,
    store: &mut Store<D>,
    line: &[u8],
    writer: &mut W,
) -> Result<(), Refusal>
    ensures all { OnOk result ((a : List ℕ)
        × IsAnswer (without_disk store.old) (D.fault_count store.old.disk) line.now a (without_disk store.new) (D.fault_count store.new.disk)
        × Appends (W.contents writer.old) (W.contents writer.new) (a ++ 10 ∷ [])) }
    ensures prefix { (a : List ℕ) × (n : ℕ)
        × IsAnswer (without_disk store.old) (D.fault_count store.old.disk) line.now a (without_disk store.new) (D.fault_count store.new.disk)
        × Appends (W.contents writer.old) (W.contents writer.new) (take n (a ++ 10 ∷ [])) }
    ensures err { IfErr result (λ e. (e ≡ stream_failed) ⊎ (e ≡ no_memory)) }
{
    let answer = answer_to(alloc, store, line);
    let text = answer_line(alloc, &answer)?;
    write_whole(writer, text.as_bytes())
}

/// Plays a script over a store.
fn play<D: Disk, W: Write>(
    alloc: Global,
    store: &mut Store<D>,
    script: &[u8],
    writer: &mut W,
) -> Result<(), Refusal>
    ensures all { OnOk result ((out : List ℕ) × Appends (W.contents writer.old) (W.contents writer.new) out
        × PlaysFrom (without_disk store.old) (D.fault_count store.old.disk) script.now out (D.fault_count store.new.disk)) }
    ensures prefix { (out : List ℕ) × (rest : List ℕ) × Appends (W.contents writer.old) (W.contents writer.new) out
        × PlaysFrom (without_disk store.old) (D.fault_count store.old.disk) script.now (out ++ rest) (D.fault_count store.new.disk) }
    ensures err { IfErr result (λ e. (e ≡ stream_failed) ⊎ (e ≡ no_memory)) }
{
    let mut rest = script;
    while let Some((line, after)) = first_line(rest) {
        if !line.is_empty() {
            play_line(alloc, store, line, writer)?;
        }
        rest = after;
    }
    Ok(())
}

/// Reads a script and plays it over an empty store.
fn play_input<D: Disk, R: Read, W: Write>(
    alloc: Global,
    store: &mut Store<D>,
    reader: &mut R,
    writer: &mut W,
) -> Result<(), Refusal>
    requires { without_disk store.old ≡ start }
    ensures no_fault { IfErr result (λ e. e ≢ device_failed) }
    ensures read { ReadsAtMost 1048577 (R.remaining reader.old) (R.remaining reader.new) }
    ensures written { IfSome (R.remaining reader.old) (λ script. (out : List ℕ)
        × Appends (W.contents writer.old) (W.contents writer.new) out
        × Ends (D.fault_count store.old.disk) script out (D.fault_count store.new.disk) result) }
{
    let script = read_input(alloc, reader)?;
    match play(alloc, store, &script, writer) {
        Ok(()) => flush(writer),
        Err(refusal) => Err(refusal),
    }
}

/// Plays a script over a new store on an empty disk: reads it, and writes one answer and a line feed for each line that
/// is not empty. It returns the disk with the result.
///
/// A script over 1,048,576 bytes is refused with 76; nothing is written, and at most 1,048,577 bytes are read. A failed
/// read or write is 61. If memory for a line's command or for the begin of a checkpoint runs out, the answer is
/// `refused 50` and the store is unchanged. If the disk fails, as a disk in memory does when it runs out of memory, the
/// answer to a commit or a step of a checkpoint is 51, and each later step is answered 52. A line is answered 51 only
/// if a disk call failed in its step. A failure while the store is made ends the call with 51 before anything is read.
/// Out of memory elsewhere ends it with 50.
/// Promise (The program): `acts play`: a script of at most 1,048,576 bytes is answered line by line as the definition says, by the steps of a
///   plain store: one answer and a line feed for each line that is not empty
/// By: `program_commands::run_script`, `written` (`Ends`, `Plays`, `IsAnswer`)
/// Promise (The program): If no line of a script is answered 50, 51 or 52, the output is exactly `output_of`
/// By: `program_commands::run_script`, `written` (`Plays`)
/// Promise (The program): At most 1,048,577 bytes are read, however the call ends
/// By: `program_commands::{run_script, run_check, run_lint}`, `read`
/// Refusal (Sessions and programs): `program_commands::run_script`
/// When: 76: only if the script is over 1,048,576 bytes. 51: only if one call of the disk failed; that this was as the store was made: T
/// Afterwards: nothing is written. The disk is given back
/// By: `written` (`Ends`, `PlaysTo`), `read`, `faults`
/// Refusal (Sessions and programs): `program_commands::run_script`
/// When: 61, 50: a stream failed, or out of memory outside a line; that 61 has its cause: T
/// Afterwards: a prefix is written. The disk is given back
/// By: `written` (`Ends`, `PlaysTo`)
pub fn run_script<D: Disk, R: Read, W: Write>(
    alloc: Global,
    disk: D,
    reader: &mut R,
    writer: &mut W,
) -> (D, Result<(), Refusal>)
    requires empty { D.size disk ≡ 0 }
    requires countable { D.fault_count disk < u64.MAX }
    ensures read { ReadsAtMost 1048577 (R.remaining reader.old) (R.remaining reader.new) }
    ensures written { IfSome (R.remaining reader.old) (λ script. (out : List ℕ)
        × Appends (W.contents writer.old) (W.contents writer.new) out
        × Ends (D.fault_count disk) script out (D.fault_count result.0) result.1) }
    // The call ends with 51 only if a disk call failed.
    ensures faults { IfErr result.1 (λ e. e ≡ device_failed → D.fault_count result.0 ≡ D.fault_count disk + 1) }
{
    match Store::init(alloc, disk, AREA) {
        Ok(mut store) => {
            let ended = play_input(alloc, &mut store, reader, writer);
            (store.into_disk(), ended)
        }
        Err((disk, refusal)) => (disk, Err(refusal)),
    }
}
