ghost use Rattle.std.specs.Prelude.{◌≡◌};
ghost use Rattle.process_io.specs.Faults.{code_of_fault};

use std::{fmt, io};
use wf_value::{Code, Refusal};

/// What can't be used, and why. Its text is what standard error shows after the refusal.
#[derive(Drop)]
pub enum ResourceFault<'a> {
    /// A file, its lock, or its folder, or `/dev/null`.
    File(&'a str, io::Error),
    /// Another process has the lock of this file.
    Locked(&'a str),
    /// A file that is to be made is there already.
    Exists(&'a str),
    /// The length of this file is not known.
    Unmeasured(&'a str),
    /// This file is longer than the system lets this process write.
    TooLong(&'a str),
    Port(u16, io::Error),
    /// A standard stream.
    Stream(&'static str, io::Error),
}

impl ResourceFault<'_> {
    /// The refusal: 51 for a file that is too long, 55 for one that is there already, and else 61.
    pub fn refusal(&self) -> Refusal
        ensures { result ≡ Refusal.Numbered (code_of_fault self.now) }
    {
        Refusal::Numbered(match self {
            ResourceFault::TooLong(_) => Code::DeviceFailed,
            ResourceFault::Exists(_) => Code::DiskNotEmpty,
            _ => Code::StreamFailed,
        })
    }
}

impl fmt::Display for ResourceFault<'_> {
    fn fmt<W: fmt::Write>(&self, f: &mut fmt::Formatter<W>) -> fmt::Result {
        match self {
            ResourceFault::File(path, error) => write!(f, "{path}: {error}"),
            ResourceFault::Locked(path) => write!(f, "{path}: another process has its lock"),
            ResourceFault::Exists(path) => write!(f, "{path}: it exists already"),
            ResourceFault::Unmeasured(path) => write!(f, "{path}: its length is not known"),
            ResourceFault::TooLong(path) => {
                write!(f, "{path}: longer than this process may write (ulimit -f)")
            }
            ResourceFault::Port(port, error) => write!(f, "port {port}: {error}"),
            ResourceFault::Stream(name, error) => write!(f, "{name}: {error}"),
        }
    }
}
