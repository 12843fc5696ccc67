//! A server takes the exclusive advisory lock of its file (`flock(2)`) before it reads or writes it. It holds the lock
//! until the file is closed, at the latest when its process ends. A command that copies a file takes its lock too, and one that shows it none.
//! Neither needs permission to write it.

ghost use Rattle.std.specs.Prelude.{◌≡◌, ◌↔◌, List, length, IfOk};
ghost use Rattle.act_disk.specs.FileDisk.{faults_of, honest_of, len_of, seen_of};
ghost use Rattle.act_disk.specs.SystemCalls.{FileCall, IsHonest};
ghost use Rattle.process_io.specs.Answered.{IsReadFrom};

use crate::fault::ResourceFault;
use crate::length_limit::may_write;
use crate::streams::HeldStreams;
use crate::waiting::Opening;
use act_disk::{Disk, Empty, FileDisk, HostFile, Start, sync_folder};
use std::fs::{File, Files, OpenOptions, TryLockError};
use std::io::ErrorKind;
use std::sync::Wait;
use std::thread::Threads;
use std::time::Clock;
use std::{io, thread};

/// A disk over a file of the system, which held what `B` says as it was opened.
pub type RealDisk<B> = FileDisk<HostFile<B>>;

impl HeldStreams {
    /// Opens an existing file that only this server may read and write. It fails if another server has it. If that takes
    /// over two seconds, standard error says so.
    ///
    /// The disk is honest if the file has as many bytes as `B` says, and it stays so as long as they are what is read.
    /// Promise (Disks): `acts` serves or copies a file as one that held any bytes, which only contracts name: the disk is honest exactly if
    ///   the file is as long as these, and lengths and reads that these answer keep it honest
    /// By: `process_io::HeldStreams::{open_for_server, open_for_copying}`, `seen`, `honest`, `reads`
    /// Refusal (Sessions and programs): `process_io::HeldStreams::{open_for_server, create_for_server, open_for_reading}`
    /// When: 51: the file is or would be longer than the system lets a process write: T
    /// Afterwards: nothing was read or written, nor made: T
    /// By: `process_io::ResourceFault::refusal` (`code_of_fault`): the number; `sweeps/closed_streams`
    /// Refusal (Sessions and programs): `process_io::HeldStreams::{open_for_server, open_for_copying, create_for_server, open_for_reading}`
    /// When: 61: the file, its lock or its folder can't be had: T
    /// Afterwards: nothing was read or written; `create_for_server` may have made the file: T
    /// By: none; `sweeps/closed_streams`, `sweeps/one_server`
    #[tactic(auto, using(crate::proofs::Opened::reads_are_honest))]
    pub fn open_for_server<
        'a,
        B: Start,
        R: Files<File = File>,
        S: Threads + Wait + Clock + Eprint + Sync,
    >(&self, rt: &R, system: &S, path: &'a str) -> Result<RealDisk<B>, ResourceFault<'a>>
        ensures faults { IfOk result (λ disk. faults_of disk ≡ 0) }
        ensures seen { IfOk result (λ disk. seen_of disk ≡ B.Start.held) }
        ensures honest { IfOk result (λ disk. honest_of disk ↔ (len_of disk ≡ length B.Start.held)) }
        ensures reads { (calls : List FileCall) → IsReadFrom B.Start.held calls → IsHonest B.Start.held calls }
    {
        let file = opened_in_time(rt, system, OpenOptions::new().read(true).write(true), path)?;
        let disk = disk_over(file, path)?;
        refuse_beyond_limit(disk.len(), path)?;
        Ok(disk)
    }

    /// Does the same with a file that is created if it does not exist, and that is to be `len` bytes long. It syncs the
    /// file's folder, so that the name is durable. Nothing is created if the system does not let this process write as much.
    pub fn create_for_server<
        'a,
        B: Start,
        R: Files<File = File>,
        S: Threads + Wait + Clock + Eprint + Sync,
    >(&self, rt: &R, system: &S, path: &'a str, len: u64) -> Result<RealDisk<B>, ResourceFault<'a>>
        ensures faults { IfOk result (λ disk. faults_of disk ≡ 0) }
        ensures honest { IfOk result (λ disk. honest_of disk ↔ (len_of disk ≡ length B.Start.held)) }
    {
        let mut options = OpenOptions::new();
        let how = options.read(true).write(true).create(true);
        made_in_time(rt, system, how, path, len)
    }

    /// Makes a file that is not there yet, and that is to be `len` bytes long. No other server may use it. One that is there is refused, and
    /// nothing is made then.
    /// Promise (Disks): `acts` makes a file that was not there as an empty one, and its disk is honest exactly if the file is empty
    /// By: `process_io::HeldStreams::make_for_server`, `honest`
    /// Refusal (Sessions and programs): `process_io::HeldStreams::make_for_server`
    /// When: 55: the file is there. 51, 61: as `create_for_server`: T
    /// Afterwards: after 55 and 51 nothing was made; after 61 the file may be there, and is empty: T
    /// By: `process_io::ResourceFault::refusal` (`code_of_fault`); `sweeps/program`
    pub fn make_for_server<'a, R: Files<File = File>, S: Threads + Wait + Clock + Eprint + Sync>(
        &self,
        rt: &R,
        system: &S,
        path: &'a str,
        len: u64,
    ) -> Result<RealDisk<Empty>, ResourceFault<'a>>
        ensures faults { IfOk result (λ disk. faults_of disk ≡ 0) }
        ensures honest { IfOk result (λ disk. honest_of disk ↔ (len_of disk ≡ 0)) }
    {
        let mut options = OpenOptions::new();
        let how = options.read(true).write(true).create_new(true);
        made_in_time(rt, system, how, path, len)
    }

    /// Opens an existing file for reading only. It fails if a server has it, and no server may use it meanwhile.
    #[tactic(auto, using(crate::proofs::Opened::reads_are_honest))]
    pub fn open_for_copying<
        'a,
        B: Start,
        R: Files<File = File>,
        S: Threads + Wait + Clock + Eprint + Sync,
    >(&self, rt: &R, system: &S, source: &'a str) -> Result<RealDisk<B>, ResourceFault<'a>>
        ensures faults { IfOk result (λ disk. faults_of disk ≡ 0) }
        ensures seen { IfOk result (λ disk. seen_of disk ≡ B.Start.held) }
        ensures honest { IfOk result (λ disk. honest_of disk ↔ (len_of disk ≡ length B.Start.held)) }
        ensures reads { (calls : List FileCall) → IsReadFrom B.Start.held calls → IsHonest B.Start.held calls }
    {
        let file = opened_in_time(rt, system, OpenOptions::new().read(true), source)?;
        disk_over(file, source)
    }

    /// Opens an existing file for reading only, whoever else uses it.
    #[tactic(auto, using(crate::proofs::Opened::reads_are_honest))]
    pub fn open_for_reading<'a, B: Start, R: Files<File = File>>(
        &self,
        rt: &R,
        path: &'a str,
    ) -> Result<RealDisk<B>, ResourceFault<'a>>
        ensures faults { IfOk result (λ disk. faults_of disk ≡ 0) }
        ensures seen { IfOk result (λ disk. seen_of disk ≡ B.Start.held) }
        ensures honest { IfOk result (λ disk. honest_of disk ↔ (len_of disk ≡ length B.Start.held)) }
        ensures reads { (calls : List FileCall) → IsReadFrom B.Start.held calls → IsHonest B.Start.held calls }
    {
        let opened = OpenOptions::new().read(true).open(rt, path);
        disk_over(
            opened.map_err(|error| ResourceFault::File(path, error))?,
            path,
        )
    }
}

/// Opens and locks a file of a store that is made, and syncs its folder. Nothing is made if the system does not let this process write as much.
fn made_in_time<'a, B: Start, R: Files<File = File>, S: Threads + Wait + Clock + Eprint + Sync>(
    rt: &R,
    system: &S,
    how: &OpenOptions,
    path: &'a str,
    len: u64,
) -> Result<RealDisk<B>, ResourceFault<'a>>
    ensures faults { IfOk result (λ disk. faults_of disk ≡ 0) }
    ensures honest { IfOk result (λ disk. honest_of disk ↔ (len_of disk ≡ length B.Start.held)) }
{
    refuse_beyond_limit(len, path)?;
    let file = opened_in_time(rt, system, how, path)?;
    let disk = disk_over(file, path)?;
    sync_folder(rt, path).map_err(|error| ResourceFault::File(path, error))?;
    Ok(disk)
}

/// A disk over an open file.
#[tactic(auto, using(crate::proofs::Opened::honest_at_first))]
fn disk_over<B: Start>(file: File, path: &str) -> Result<RealDisk<B>, ResourceFault<'_>>
    ensures faults { IfOk result (λ disk. faults_of disk ≡ 0) }
    ensures seen { IfOk result (λ disk. seen_of disk ≡ B.Start.held) }
    ensures honest { IfOk result (λ disk. honest_of disk ↔ (len_of disk ≡ length B.Start.held)) }
{
    match FileDisk::opened(Ok(file)) {
        Ok(disk) => Ok(disk),
        Err(_) => Err(ResourceFault::Unmeasured(path)),
    }
}

/// Refuses a length that the system does not let this process write.
fn refuse_beyond_limit(len: u64, path: &str) -> Result<(), ResourceFault<'_>> {
    if may_write(len) {
        Ok(())
    } else {
        Err(ResourceFault::TooLong(path))
    }
}

/// Opens and locks a file. A thread tells if that takes long, unless none can be started.
fn opened_in_time<'a, R: Files<File = File>, S: Threads + Wait + Clock + Eprint + Sync>(
    rt: &R,
    system: &S,
    how: &OpenOptions,
    path: &'a str,
) -> Result<File, ResourceFault<'a>> {
    let opening = Opening::new();
    let shared = &opening;
    thread::scope(thread::scope_env(), system, |scope| {
        let watching = scope.spawn(move || shared.watch(system, path)).ok();
        let opened = opened_and_locked(rt, how, path);
        shared.end(system);
        if let Some(watching) = watching {
            watching.join(system);
        }
        opened
    })
}

/// Why a file is not opened.
fn fault_of(path: &str, error: io::Error) -> ResourceFault<'_> {
    if error.kind() == ErrorKind::AlreadyExists {
        ResourceFault::Exists(path)
    } else {
        ResourceFault::File(path, error)
    }
}

/// Opens and locks a file. If another process holds the lock, it fails at once.
fn opened_and_locked<'a, R: Files<File = File>>(
    rt: &R,
    how: &OpenOptions,
    path: &'a str,
) -> Result<File, ResourceFault<'a>> {
    let file = how.open(rt, path).map_err(|error| fault_of(path, error))?;
    match file.try_lock() {
        Ok(()) => Ok(file),
        Err(TryLockError::WouldBlock) => Err(ResourceFault::Locked(path)),
        Err(TryLockError::Error(error)) => Err(ResourceFault::File(path, error)),
    }
}
