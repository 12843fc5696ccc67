//! Opening a disk over a system file.
ghost use Rattle.std.specs.Prelude.{◌≡◌, [], ◌∷◌, false, IfOk, IfErr};
ghost use Rattle.act_disk.specs.Failed.{stream_failed};
ghost use Rattle.act_disk.specs.FileDisk.{file_of, len_of, faults_of, failed_of};
ghost use Rattle.act_disk.specs.HostFile.{calls_of};
ghost use Rattle.act_disk.specs.SystemCalls.{Measured};

use crate::file::FileDisk;
use crate::host_file::HostFile;
use crate::start::Start;
use std::fs::{File, Files, OpenOptions};
use std::io;
use std::os::fd::AsRawFd;
use std::path::Path;
use wf_value::{Code, Refusal};

impl<S: Start> FileDisk<HostFile<S>> {
    /// Opens an existing file for reading and writing. It is refused with 61 if it cannot be opened.
    /// Refusal (The layers below): `act_disk`: `FileDisk::{open, create, opened, over}`, `sync_folder`
    /// When: 61 if path, folder or length cannot be had: T
    /// Afterwards: as it was; `create` may have made the file: T
    /// By: `FileDisk::open`, `refused`
    pub fn open<R: Files<File = File>>(rt: &R, path: &str) -> Result<Self, Refusal>
        ensures calls { IfOk result (λ disk. calls_of (file_of disk) ≡ Measured (len_of disk) ∷ []) }
        ensures faults { IfOk result (λ disk. faults_of disk ≡ 0) }
        ensures live { IfOk result (λ disk. failed_of disk ≡ false) }
        ensures refused { IfErr result (λ refusal. refusal ≡ stream_failed) }
    {
        let opened = OpenOptions::new().read(true).write(true).open(rt, path);
        FileDisk::opened(opened)
    }

    /// Opens a file, and creates an empty one if there is none. The folder is synced so that the file keeps its name after a crash. It is
    /// refused with 61 if the file cannot be opened or the folder cannot be synced.
    pub fn create<R: Files<File = File>>(rt: &R, path: &str) -> Result<Self, Refusal>
        ensures calls { IfOk result (λ disk. calls_of (file_of disk) ≡ Measured (len_of disk) ∷ []) }
        ensures faults { IfOk result (λ disk. faults_of disk ≡ 0) }
        ensures live { IfOk result (λ disk. failed_of disk ≡ false) }
        ensures refused { IfErr result (λ refusal. refusal ≡ stream_failed) }
    {
        let opened = OpenOptions::new()
            .read(true)
            .write(true)
            .create(true)
            .open(rt, path);
        let disk = FileDisk::opened(opened)?;
        sync_folder(rt, path).map_err(|_| Refusal::Numbered(Code::StreamFailed))?;
        Ok(disk)
    }

    /// Takes a file that was opened, so that a caller can open it in its own way. It is refused with 61 if the file could not be opened.
    pub fn opened(opened: io::Result<File>) -> Result<Self, Refusal>
        ensures calls { IfOk result (λ disk. calls_of (file_of disk) ≡ Measured (len_of disk) ∷ []) }
        ensures faults { IfOk result (λ disk. faults_of disk ≡ 0) }
        ensures live { IfOk result (λ disk. failed_of disk ≡ false) }
        ensures refused { IfErr result (λ refusal. refusal ≡ stream_failed) }
    {
        match opened {
            Ok(file) => {
                drop_clean_pages(&file);
                FileDisk::over(HostFile::new(file))
            }
            Err(_) => Err(Refusal::Numbered(Code::StreamFailed)),
        }
    }
}

/// Asks the kernel to drop its clean pages of a file. After a failed sync these may differ from the device, and a read would return them.
/// The call is advice, and its result is ignored.
fn drop_clean_pages(file: &File) {
    let _ = libc::posix_fadvise(file.as_raw_fd(), 0, 0, libc::POSIX_FADV_DONTNEED);
}

/// Makes the names in a file's folder durable.
pub fn sync_folder<R: Files<File = File>>(rt: &R, path: &str) -> io::Result<()> {
    let folder = match Path::new(path).parent() {
        Some(folder) if !folder.as_str().is_empty() => folder,
        _ => Path::new("."),
    };
    File::open(rt, folder)?.sync_all()
}
