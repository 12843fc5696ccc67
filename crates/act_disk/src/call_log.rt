ghost use Rattle.std.specs.Prelude.{◌≡◌, List, [], ◌∷◌, length, IfOk, ◌≤◌};
ghost use Rattle.std.specs.Borrow.{ftrue};
ghost use Rattle.act_disk.specs.inner.Noted.{call_of};
ghost use Rattle.act_disk.specs.SystemCalls.{FileCall, measured, gave, wrote, grew, synced};

use crate::system_call::SystemCall;
use crate::system_file::CallError;
use std::marker::Model;

/// The system calls on a file, as ghost data. It takes no memory.
#[derive(Drop)]
pub(crate) struct CallLog {
    pub ghost calls: { List FileCall },
}

impl Model for CallLog {
    ghost also_owns = { λ _. ftrue };
}

// It owns nothing.
unsafe impl Send for CallLog {}

impl CallLog {
    /// An empty list.
    pub(crate) fn new() -> Self
        ensures { result.calls ≡ [] }
    {
        CallLog {}
    }

    /// Adds a call.
    fn note(&mut self, _call: &SystemCall<'_>)
        ensures { self.new.calls ≡ call_of _call.now ∷ self.old.calls }
    {}

    pub(crate) fn measured(&mut self, answer: Result<u64, CallError>)
        ensures { self.new.calls ≡ measured answer self.old.calls }
    {
        if let Ok(len) = answer {
            self.note(&SystemCall::Measured(len));
        }
    }

    pub(crate) fn gave(&mut self, at: u64, buf: &[u8], answer: Result<usize, CallError>)
        requires { IfOk answer (λ count. count ≤ length buf.now) }
        ensures { self.new.calls ≡ gave at buf.now answer self.old.calls }
    {
        if let Ok(count) = answer {
            let bytes = &buf[..count];
            self.note(&SystemCall::Gave { at, bytes });
        }
    }

    pub(crate) fn wrote(&mut self, at: u64, bytes: &[u8], answer: Result<usize, CallError>)
        ensures { self.new.calls ≡ wrote at bytes.now answer self.old.calls }
    {
        match answer {
            Ok(count) => self.note(&SystemCall::Wrote { at, bytes, count }),
            Err(CallError::Interrupted) => {}
            Err(CallError::Failed) => self.note(&SystemCall::WriteFailed { at, bytes }),
        }
    }

    pub(crate) fn grew(&mut self, len: u64, answer: Result<(), CallError>)
        ensures { self.new.calls ≡ grew len answer self.old.calls }
    {
        match answer {
            Ok(()) => self.note(&SystemCall::Grew(len)),
            Err(CallError::Interrupted) => {}
            Err(CallError::Failed) => self.note(&SystemCall::GrowthFailed(len)),
        }
    }

    pub(crate) fn synced(&mut self, answer: Result<(), CallError>)
        ensures { self.new.calls ≡ synced answer self.old.calls }
    {
        match answer {
            Ok(()) => self.note(&SystemCall::Synced),
            Err(CallError::Interrupted) => {}
            Err(CallError::Failed) => self.note(&SystemCall::SyncFailed),
        }
    }
}
