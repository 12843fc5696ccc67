//! One disk call as system calls: they cover the whole range and are retried after an interruption by a signal.
ghost use Rattle.std.specs.Prelude.{◌≡◌, ◌+◌, ◌<◌, ◌≤◌, ◌^◌, ◌∷◌, true, false, is_err};
ghost use Rattle.std.specs.Prelude.{length, take, drop, IsTrue, MatchResult, IfOk, IfErr, OnOk, OnErr};
ghost use Rattle.act_disk.specs.inner.FileCalls.{MayHaveFailed, Puts, Breaks, Reads};
ghost use Rattle.act_disk.specs.SystemCalls.{Measured, Gave, Wrote, WriteFailed, Grew};
ghost use Rattle.act_disk.specs.SystemCalls.{GrowthFailed, Synced, SyncFailed, is_sound, contents, IsHonest};

use crate::fault::DiskFault;
use crate::system_file::{CallError, SystemFile};

/// More interruptions than any process can see.
const MAX_TRIES: u64 = u64::MAX;

/// The length of a file.
pub(crate) fn measure<F: SystemFile>(file: &mut F) -> Result<u64, DiskFault>
    ensures { MatchResult result
        (λ len. F.calls file.new ≡ Measured len ∷ F.calls file.old)
        (λ _. F.calls file.new ≡ F.calls file.old) }
{
    for _ in 0..MAX_TRIES {
        match file.len() {
            Ok(len) => return Ok(len),
            Err(CallError::Interrupted) => {}
            Err(CallError::Failed) => return Err(DiskFault),
        }
    }
    Err(DiskFault)
}

/// Reads at least one byte.
fn read_some<F: SystemFile>(file: &mut F, at: u64, buf: &mut [u8]) -> Result<usize, DiskFault>
    requires { 0 < length buf.old }
    ensures count { IfOk result (λ count. (0 < count) × (count ≤ length buf.old)) }
    ensures calls { MatchResult result
        (λ count. F.calls file.new ≡ Gave at (take count buf.new) ∷ F.calls file.old)
        (λ _. F.calls file.new ≡ F.calls file.old) }
{
    for _ in 0..MAX_TRIES {
        match file.read_at(at, buf) {
            Ok(count) => return Ok(count),
            Err(CallError::Interrupted) => {}
            Err(CallError::Failed) => return Err(DiskFault),
        }
    }
    Err(DiskFault)
}

/// Writes at least one byte, unless there are none.
fn write_some<F: SystemFile>(file: &mut F, at: u64, bytes: &[u8]) -> Result<usize, DiskFault>
    ensures count { IfOk result (λ count. count ≤ length bytes.now) }
    ensures some { 0 < length bytes.now → IfOk result (λ count. 0 < count) }
    ensures calls { MatchResult result
        (λ count. F.calls file.new ≡ Wrote at bytes.now count ∷ F.calls file.old)
        (λ _. MayHaveFailed (WriteFailed at bytes.now) (F.calls file.old) (F.calls file.new)) }
{
    for _ in 0..MAX_TRIES {
        match file.write_at(at, bytes) {
            Ok(count) => return Ok(count),
            Err(CallError::Interrupted) => {}
            Err(CallError::Failed) => return Err(DiskFault),
        }
    }
    Err(DiskFault)
}

/// Extends a file to that length.
fn grow<F: SystemFile>(file: &mut F, len: u64) -> Result<(), DiskFault>
    ensures { MatchResult result
        (λ _. F.calls file.new ≡ Grew len ∷ F.calls file.old)
        (λ _. MayHaveFailed (GrowthFailed len) (F.calls file.old) (F.calls file.new)) }
{
    for _ in 0..MAX_TRIES {
        match file.set_len(len) {
            Ok(()) => return Ok(()),
            Err(CallError::Interrupted) => {}
            Err(CallError::Failed) => return Err(DiskFault),
        }
    }
    Err(DiskFault)
}

fn sync_again<F: SystemFile>(file: &mut F) -> Result<(), DiskFault>
    ensures { MatchResult result
        (λ _. F.calls file.new ≡ Synced ∷ F.calls file.old)
        (λ _. MayHaveFailed SyncFailed (F.calls file.old) (F.calls file.new)) }
{
    for _ in 0..MAX_TRIES {
        match file.sync_data() {
            Ok(()) => return Ok(()),
            Err(CallError::Interrupted) => {}
            Err(CallError::Failed) => return Err(DiskFault),
        }
    }
    Err(DiskFault)
}

/// Syncs, unless a call has failed.
pub(crate) fn sync_whole<F: SystemFile>(file: &mut F, failed: bool) -> Result<(), DiskFault>
    ensures ok { OnOk result (F.calls file.new ≡ Synced ∷ F.calls file.old) }
    ensures live { OnOk result (failed ≡ false) }
    ensures stopped { failed ≡ true → (is_err result ≡ true) × (F.calls file.new ≡ F.calls file.old) }
    ensures err { OnErr result (MayHaveFailed SyncFailed (F.calls file.old) (F.calls file.new)) }
{
    if failed {
        return Err(DiskFault);
    }
    sync_again(file)
}

/// Fills a buffer, unless a call has failed.
pub(crate) fn read_whole<F: SystemFile>(
    file: &mut F,
    failed: bool,
    at: u64,
    buf: &mut [u8],
) -> Result<(), DiskFault>
    requires { at + length buf.old < 2 ^ 64 }
    ensures bytes { OnOk result ((failed ≡ false → IsTrue (is_sound (F.calls file.old))) → IsHonest F.held (F.calls file.new)
        → buf.new ≡ take (length buf.old) (drop at (contents F.held (F.calls file.old)))) }
    ensures reads { Reads F.left F.held (F.calls file.old) (F.calls file.new) }
    ensures stopped { failed ≡ true → (is_err result ≡ true) × (F.calls file.new ≡ F.calls file.old) }
{
    if failed {
        return Err(DiskFault);
    }
    fill(file, at, buf)
}

fn fill<F: SystemFile>(file: &mut F, at: u64, buf: &mut [u8]) -> Result<(), DiskFault>
    requires { at + length buf.old < 2 ^ 64 }
    ensures bytes { OnOk result (IsTrue (is_sound (F.calls file.old)) → IsHonest F.held (F.calls file.new)
        → buf.new ≡ take (length buf.old) (drop at (contents F.held (F.calls file.old)))) }
    ensures reads { Reads F.left F.held (F.calls file.old) (F.calls file.new) }
{
    let mut count = 0;
    while count < buf.len() {
        count += read_some(file, at + count as u64, &mut buf[count..])?;
    }
    Ok(())
}

/// Writes a whole range to a file of that length, unless a call has failed. A write of no bytes past the end extends the file. `Err` holds
/// how many bytes were written before the failure.
pub(crate) fn put<F: SystemFile>(
    file: &mut F,
    failed: bool,
    len: u64,
    at: u64,
    bytes: &[u8],
) -> Result<(), usize>
    ensures ok { OnOk result (Puts F.left F.held at bytes.now (length bytes.now) (F.calls file.old) (F.calls file.new)) }
    ensures live { OnOk result (failed ≡ false) }
    ensures fits { OnOk result (at + length bytes.now < 2 ^ 64) }
    ensures stopped { failed ≡ true → (is_err result ≡ true) × (F.calls file.new ≡ F.calls file.old) }
    ensures err { IfErr result (λ count. Breaks F.left F.held at bytes.now count (F.calls file.old) (F.calls file.new)) }
{
    if failed || bytes.len() as u64 > u64::MAX - at {
        return Err(0);
    }
    if bytes.is_empty() && at > len {
        return match grow(file, at) {
            Ok(()) => Ok(()),
            Err(_) => Err(0),
        };
    }
    write_whole(file, at, bytes)
}

/// Writes a whole range. `Err` holds how many bytes were written before the failure.
fn write_whole<F: SystemFile>(file: &mut F, at: u64, bytes: &[u8]) -> Result<(), usize>
    requires { at + length bytes.now < 2 ^ 64 }
    ensures ok { OnOk result (Puts F.left F.held at bytes.now (length bytes.now) (F.calls file.old) (F.calls file.new)) }
    ensures err { IfErr result (λ count. Breaks F.left F.held at bytes.now count (F.calls file.old) (F.calls file.new)) }
{
    let mut count = match write_some(file, at, bytes) {
        Ok(count) => count,
        Err(_) => return Err(0),
    };
    while count < bytes.len() {
        match write_some(file, at + count as u64, &bytes[count..]) {
            Ok(more) => count += more,
            Err(_) => return Err(count),
        }
    }
    Ok(())
}
