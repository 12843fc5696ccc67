ghost use Rattle.std.specs.Prelude.{◌≡◌, ◌<◌, ◌≤◌, List, ℕ, length, take, drop, reverse, Ok, OnOk, IfOk};
ghost use Rattle.act_disk.specs.declared.call.Fill.{Fill as Fills};
ghost use Rattle.act_disk.specs.Image.{filled, filled_after, begun, LeftInside, image_of, laid_by};
ghost use Rattle.act_disk.specs.Record.{bytes_of, seen_after, MayHaveLeft};
ghost use Rattle.wf_value.specs.Gives.{Gives};

use crate::call::{Call, Fill};
use crate::memory::{MemoryDisk, lay};
use std::alloc::{AllocError, Global};
use wf_value::Refusal;

/// The byte of `Fill::Gates`.
const GATE: u8 = 0xA5;

impl MemoryDisk {
    /// The disk that a crash inside a recorded call leaves. Calls are counted from 0. The writes since the last sync before that call, and
    /// the call itself if it is a write, are kept as the fill says. Out of memory is refusal 50.
    /// Promise (Disks): The image of a crash inside a call of a disk in memory is one that such a crash may leave
    /// By: `act_disk::MemoryDisk::image`, `image`, `inside`, `since`
    pub fn image(&self, alloc: Global, call: u64, fill: Fill) -> Result<MemoryDisk, Refusal>
        requires { call < length self.now.calls }
        ensures image { Gives (λ d. d) result (Ok (image_of self.now call fill)) }
        ensures inside { IfOk result (λ d. LeftInside self.now call (bytes_of d)) }
        ensures since { IfOk result (λ d. MayHaveLeft self.now call (bytes_of d)) }
    {
        let calls = begun_calls(self.calls(), call as usize);
        let bytes = filled_bytes(alloc, self.first(), calls, fill)?;
        MemoryDisk::from_slice(alloc, &bytes)
    }
}

/// The calls before this one, and the call itself if it is a write.
fn begun_calls(calls: &[Call], call: usize) -> &[Call]
    requires { call < length calls.now }
    ensures { result.now ≡ begun calls.now call }
{
    match &calls[call] {
        Call::Write { .. } => &calls[..call + 1],
        Call::Sync => &calls[..call],
    }
}

/// What the last sync made durable, then each later write as the fill says.
fn filled_bytes(
    alloc: Global,
    first: &[u8],
    calls: &[Call],
    fill: Fill,
) -> Result<Vec<u8>, AllocError>
    ensures { IfOk result (λ bytes. bytes.items ≡ filled_after fill first.now (reverse calls.now)) }
{
    let stable = stable_count(calls);
    let mut bytes = Vec::from_slice(alloc, first)?;
    lay_calls(alloc, &mut bytes, &calls[..stable], Fill::New)?;
    lay_calls(alloc, &mut bytes, &calls[stable..], fill)?;
    Ok(bytes)
}

/// How many calls the last sync made durable, including itself.
fn stable_count(calls: &[Call]) -> usize
    ensures bound { result ≤ length calls.now }
    ensures since { (fill : Fills) (first : List ℕ) → filled_after fill first (reverse calls.now)
        ≡ laid_by fill (drop result calls.now) (seen_after first (reverse (take result calls.now))) }
{
    let mut count = calls.len();
    while count > 0 {
        if let Call::Sync = &calls[count - 1] {
            break;
        }
        count -= 1;
    }
    count
}

/// Applies each write as the fill says.
fn lay_calls(
    alloc: Global,
    file: &mut Vec<u8>,
    calls: &[Call],
    fill: Fill,
) -> Result<(), AllocError>
    ensures { OnOk result (file.new.items ≡ laid_by fill calls.now file.old.items) }
{
    for call in calls {
        if let Call::Write { at, bytes } = call {
            lay_filled(alloc, file, *at, bytes.as_slice(), fill)?;
        }
    }
    Ok(())
}

/// Applies one write as the fill says.
fn lay_filled(
    alloc: Global,
    file: &mut Vec<u8>,
    at: u64,
    bytes: &[u8],
    fill: Fill,
) -> Result<(), AllocError>
    ensures { OnOk result (file.new.items ≡ filled fill at bytes.now file.old.items) }
{
    match fill {
        Fill::Old => Ok(()),
        Fill::New => lay(file, at, bytes),
        Fill::Half => lay(file, at, &bytes[..bytes.len() / 2]),
        Fill::Gates => {
            let gates = vec![in alloc; GATE; bytes.len()]?;
            lay(file, at, &gates)
        }
    }
}
