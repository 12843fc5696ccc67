ghost use Rattle.std.specs.Prelude.{◌≡◌, ◌↔◌, ◌+◌, ◌<◌, ◌≤◌, ◌^◌, ◌∷◌, IsTrue, false, max, length, take, drop, is_err, IfOk, IfErr};
ghost use Rattle.std.specs.Prelude.{OnOk, OnErr};
ghost use Rattle.act_disk.specs.Failed.{stream_failed};
ghost use Rattle.act_disk.specs.inner.FileCalls.{IsLong, IsSoundUntil, length_after};
ghost use Rattle.definitions.specs.Disk.{Torn, IsWritten, Follows, LeavesAny, SameImages, Only, Elapses, CountsFault};

use crate::disk::Disk;
use crate::fault::{DiskFault, counted};
use crate::file_calls::{measure, put, read_whole, sync_whole};
use crate::system_file::SystemFile;
use crate::tally::CallTally;
use wf_value::{Code, Refusal};

/// A disk over a system file, whose calls may be short, interrupted, or fail.
///
/// After a failed write or sync the disk makes no further system call: each read, write and sync fails until the file is opened again. The
/// system may have dropped what it could not write, and would report success for a later sync.
#[derive(Drop)]
pub struct FileDisk<F: SystemFile> {
    file: F,
    len: u64,
    faults: u64,
    failed: bool,
    tally: CallTally,
    ghost known: { IsLong F.SystemFile.held (F.SystemFile.calls file) len },
    ghost sound: { IsSoundUntil failed (F.SystemFile.calls file) },
}

impl<F: SystemFile> FileDisk<F> {
    ghost use Rattle.act_disk.specs.FileDisk.{file_of, len_of, faults_of, failed_of};
    ghost use Rattle.act_disk.specs.SystemCalls.{Measured, is_sound};

    /// A disk over an open file on which no call has failed. It is refused with 61 if the system does not report the length.
    /// Promise (Disks): A disk over a file that was just opened has not failed
    /// By: `act_disk::FileDisk::{over, open, create}`, `live`, `calls`, `faults`
    pub fn over(file: F) -> Result<Self, Refusal>
        requires { IsTrue (is_sound (F.calls file)) }
        ensures calls { IfOk result (λ disk. F.calls (file_of disk) ≡ Measured (len_of disk) ∷ F.calls file) }
        ensures faults { IfOk result (λ disk. faults_of disk ≡ 0) }
        ensures live { IfOk result (λ disk. failed_of disk ≡ false) }
        ensures refused { IfErr result (λ refusal. refusal ≡ stream_failed) }
    {
        let mut file = file;
        match measure(&mut file) {
            Ok(len) => Ok(FileDisk {
                file,
                len,
                faults: 0,
                failed: false,
                tally: CallTally::new(),
            }),
            Err(_) => Err(Refusal::Numbered(Code::StreamFailed)),
        }
    }

    /// The file.
    pub fn into_file(self) -> F
        ensures { result ≡ file_of self }
    {
        let FileDisk {
            file,
            tally: _tally,
            ..
        } = self;
        file
    }
}

/// The length of a file after the first `count` bytes of a write.
fn partly_long(len: u64, at: u64, count: usize) -> u64
    requires { 0 < count → at + count < 2 ^ 64 }
    ensures { result ≡ length_after at count len }
{
    if count == 0 {
        return len;
    }
    len.max(at + count as u64)
}

/// Promise (Disks): A disk over a file meets all that the trait says, with short, interrupted and failed system calls, whole ranges, writes of
///   no bytes, and offsets up to the end of `u64`
/// By: `impl Disk for act_disk::FileDisk`, over any `act_disk::SystemFile`
impl<F: SystemFile> Disk for FileDisk<F> {
    ghost use Rattle.std.specs.Prelude.{length};
    ghost use Rattle.act_disk.specs.FileDisk.{len_of, faults_of, made_of, failed_of, seen_of, images_of, moment_of};
    ghost use Rattle.act_disk.specs.FileDisk.{images_since_of, honest_of, StaysFailed};
    ghost use Rattle.std.proofs.Common.{sym};
    ghost use Rattle.act_disk.specs.inner.Past.{left_now, left_last};
    ghost use Rattle.act_disk.specs.SystemCalls.{contents, MayLeave, MayHaveLeft, IsHonest};
    ghost use Rattle.act_disk.specs.inner.SystemLaws.{contents_left};

    ghost seen = { λ d. contents F.SystemFile.held (F.SystemFile.calls d.file) };

    ghost images = { λ d. MayLeave F.SystemFile.left F.SystemFile.held (F.SystemFile.calls d.file) };

    ghost moment = { λ d. length (F.SystemFile.calls d.file) };

    ghost images_since = { λ d. MayHaveLeft F.SystemFile.left F.SystemFile.held (F.SystemFile.calls d.file) };

    ghost size = { λ d. d.len };

    ghost calls = { λ d. d.tally };

    ghost fault_count = { λ d. d.faults };

    ghost honest = { λ d. IsHonest F.SystemFile.held (F.SystemFile.calls d.file) };

    ghost seen_is_image = { λ d _.
        contents_left F.SystemFile.left F.SystemFile.held F.SystemFile.held_is_left (F.SystemFile.calls d.file) };

    ghost seen_length = { λ d honest. sym (d.known honest) };

    ghost counts_now = { λ d _. left_now (MayLeave F.SystemFile.left F.SystemFile.held) (F.SystemFile.calls d.file) };

    ghost only_now = { λ d _. left_last (MayLeave F.SystemFile.left F.SystemFile.held) (F.SystemFile.calls d.file) };

    fn len(&self) -> u64 {
        self.len
    }

    fn faults(&self) -> u64 {
        self.faults
    }

    /// As in the trait. A failed read does not end the disk's use.
    /// Promise (Disks): After a failed write or sync every further call of a disk over a file fails and asks the system nothing; a failed read
    ///   ends nothing
    /// By: `act_disk::FileDisk::{read, write_at, sync}`, `stopped`, `live`
    fn read(&mut self, at: u64, buf: &mut [u8]) -> Result<(), DiskFault>
        requires within { at + length buf.old ≤ len_of self.old }
        requires countable { faults_of self.old < u64.MAX }
        ensures stopped { StaysFailed result self.old self.new }
        ensures live { failed_of self.new ≡ failed_of self.old }
        ensures bytes { OnOk result (honest_of self.new → buf.new ≡ take (length buf.old) (drop at (seen_of self.old))) }
        ensures seen { honest_of self.new → seen_of self.new ≡ seen_of self.old }
        ensures images { honest_of self.new → SameImages (images_of self.old) (images_of self.new) }
        ensures time { honest_of self.new → Elapses (moment_of self.old) (moment_of self.new)
            (images_since_of self.old) (images_since_of self.new) (images_of self.new) }
        ensures size { len_of self.new ≡ len_of self.old }
        ensures calls { made_of self.new ≡ made_of self.old + 1 }
        ensures faults { CountsFault result (faults_of self.old) (faults_of self.new) }
        ensures honest { honest_of self.new → honest_of self.old }
    {
        self.tally.count();
        let _len = self.len;
        let outcome = read_whole(&mut self.file, self.failed, at, buf);
        counted(outcome, &mut self.faults)
    }

    /// As in the trait. After a failure all further calls fail.
    fn write_at(&mut self, at: u64, bytes: &[u8]) -> Result<(), DiskFault>
        requires { faults_of self.old < u64.MAX }
        ensures stopped { StaysFailed result self.old self.new }
        ensures live { failed_of self.new ≡ is_err result }
        ensures written { OnOk result (honest_of self.old → IsWritten at bytes.now (seen_of self.old) (seen_of self.new)) }
        ensures failed { OnErr result (honest_of self.old → Torn at (length bytes.now) (seen_of self.old) (seen_of self.new)) }
        ensures images { honest_of self.old → Follows (Torn at (length bytes.now)) (images_of self.old) (images_of self.new) }
        ensures any { OnOk result (honest_of self.old → LeavesAny (Torn at (length bytes.now)) (images_of self.old) (images_of self.new)) }
        ensures time { honest_of self.old → Elapses (moment_of self.old) (moment_of self.new)
            (images_since_of self.old) (images_since_of self.new) (images_of self.new) }
        ensures size { OnOk result (len_of self.new ≡ max (len_of self.old) (at + length bytes.now)) }
        ensures no_shorter { len_of self.old ≤ len_of self.new }
        ensures calls { made_of self.new ≡ made_of self.old + 1 }
        ensures faults { CountsFault result (faults_of self.old) (faults_of self.new) }
        ensures honest { honest_of self.new ↔ honest_of self.old }
    {
        self.tally.count();
        match put(&mut self.file, self.failed, self.len, at, bytes) {
            Ok(()) => {
                self.len = self.len.max(at + bytes.len() as u64);
                Ok(())
            }
            Err(count) => {
                self.len = partly_long(self.len, at, count);
                self.failed = true;
                self.faults += 1;
                Err(DiskFault)
            }
        }
    }

    /// As in the trait. After a failure all further calls fail.
    fn sync(&mut self) -> Result<(), DiskFault>
        requires { faults_of self.old < u64.MAX }
        ensures stopped { StaysFailed result self.old self.new }
        ensures live { failed_of self.new ≡ is_err result }
        ensures stable { OnOk result (honest_of self.old → Only (seen_of self.old) (images_of self.new)) }
        ensures failed { OnErr result (honest_of self.old → SameImages (images_of self.old) (images_of self.new)) }
        ensures seen { honest_of self.old → seen_of self.new ≡ seen_of self.old }
        ensures time { honest_of self.old → Elapses (moment_of self.old) (moment_of self.new)
            (images_since_of self.old) (images_since_of self.new) (images_of self.new) }
        ensures size { len_of self.new ≡ len_of self.old }
        ensures calls { made_of self.new ≡ made_of self.old + 1 }
        ensures faults { CountsFault result (faults_of self.old) (faults_of self.new) }
        ensures honest { honest_of self.new ↔ honest_of self.old }
    {
        self.tally.count();
        let outcome = sync_whole(&mut self.file, self.failed);
        self.failed = outcome.is_err();
        counted(outcome, &mut self.faults)
    }
}
