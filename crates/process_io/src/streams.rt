//! The descriptors of the standard streams.

use crate::fault::ResourceFault;
use std::fs::{File, Files};
use std::io;
use std::io::ErrorKind;
use std::os::fd::{AsRawFd, IntoRawFd};

/// The file that takes the place of a closed stream: its end comes at once, and it takes no bytes, since it is opened for reading alone.
const NOTHING: &str = "/dev/null";

/// Shows that each of the descriptors 0 to 2 is open, and stays open until the process ends. The kernel gives the lowest
/// free descriptor to a file, so a file that is opened after this gets another one, and what is written to a standard stream
/// never goes into it.
///
/// Only `HeldStreams::hold` makes this value, and each function that opens the file of a store takes it.
#[derive(Drop)]
pub struct HeldStreams(());

impl HeldStreams {
    /// Opens `/dev/null` for standard input and standard error if they are closed. A closed standard output is a fault, since
    /// no command has anything to say there.
    /// Refusal (Sessions and programs): `process_io::HeldStreams::hold`, `process_io::listener`
    /// When: 61: standard output is closed; `/dev/null` or the port can't be had: T
    /// Afterwards: nothing was read or written: T
    /// By: none; `sweeps/closed_streams`, `sweeps/one_server`
    pub fn hold<'a, R: Files<File = File>>(rt: &R) -> Result<Self, ResourceFault<'a>> {
        for _ in 0..=libc::STDERR_FILENO {
            let file = File::open(rt, NOTHING).map_err(|error| ResourceFault::File(
                NOTHING, error,
            ))?;
            let number = file.as_raw_fd();
            if number > libc::STDERR_FILENO {
                return Ok(HeldStreams(()));
            }
            if number == libc::STDOUT_FILENO {
                let error = io::Error::from_raw_os_error(libc::EBADF);
                return Err(ResourceFault::Stream("standard output", error));
            }
            let _ = file.into_raw_fd();
        }
        Err(ResourceFault::File(NOTHING, io::Error::from(ErrorKind::Other)))
    }
}
