//! Files of the operating system. Each method makes one system call and records it with its answer.
ghost use Rattle.std.specs.Prelude.{◌≡◌, ◌<◌, [], Ok, IfOk, is_ok};

use crate::call_log::CallLog;
use crate::start::Start;
use crate::system_file::{CallError, SystemFile};
use std::fs::File;
use std::io;
use std::io::ErrorKind;
use std::marker::PhantomData;
use std::os::unix::fs::FileExt;

/// An open system file, which held what `S` says. That the system answers as a file does is an assumption.
#[derive(Drop)]
pub struct HostFile<S: Start> {
    file: File,
    log: CallLog,
    start: PhantomData<S>,
}

impl<S: Start> HostFile<S> {
    ghost use Rattle.act_disk.specs.HostFile.{calls_of};

    /// A newly opened file, on which this process has made no call.
    pub fn new(file: File) -> Self
        ensures { calls_of result ≡ [] }
    {
        HostFile {
            file,
            log: CallLog::new(),
            start: PhantomData,
        }
    }
}

fn length_of(file: &File) -> io::Result<u64> {
    Ok(file.metadata()?.len())
}

/// An answer of the system, with interruptions kept apart from failures.
fn answered<T: Drop>(answer: io::Result<T>) -> Result<T, CallError>
    ensures ok { IfOk result (λ x. answer ≡ Ok x) }
    ensures same { is_ok result ≡ is_ok answer }
{
    match answer {
        Ok(x) => Ok(x),
        Err(error) if error.kind() == ErrorKind::Interrupted => Err(CallError::Interrupted),
        Err(_) => Err(CallError::Failed),
    }
}

/// An answer that counts bytes, of `asked` requested ones. A count of 0 for a request above 0 is a failure.
fn counted(answer: io::Result<usize>, asked: usize) -> Result<usize, CallError>
    ensures ok { IfOk result (λ count. answer ≡ Ok count) }
    ensures some { 0 < asked → IfOk result (λ count. 0 < count) }
{
    let count = answered(answer)?;
    if count == 0 && asked > 0 {
        return Err(CallError::Failed);
    }
    Ok(count)
}

impl<S: Start> SystemFile for HostFile<S> {
    ghost held = { S.Start.held };

    ghost left = { S.Start.left };

    ghost calls = { λ f. f.log.calls };

    ghost held_is_left = { S.Start.held_is_left };

    fn len(&mut self) -> Result<u64, CallError> {
        let answer = answered(length_of(&self.file));
        self.log.measured(answer);
        answer
    }

    fn read_at(&mut self, at: u64, buf: &mut [u8]) -> Result<usize, CallError> {
        let answer = counted(self.file.read_at(buf, at), buf.len());
        self.log.gave(at, buf, answer);
        answer
    }

    fn write_at(&mut self, at: u64, bytes: &[u8]) -> Result<usize, CallError> {
        let answer = counted(self.file.write_at(bytes, at), bytes.len());
        self.log.wrote(at, bytes, answer);
        answer
    }

    fn set_len(&mut self, len: u64) -> Result<(), CallError> {
        let answer = answered(self.file.set_len(len));
        self.log.grew(len, answer);
        answer
    }

    fn sync_data(&mut self) -> Result<(), CallError> {
        let answer = answered(self.file.sync_data());
        self.log.synced(answer);
        answer
    }
}
