ghost use Rattle.std.specs.Prelude.{◌≡◌, ℕ, ◌+◌, length};

use crate::call_log::CallLog;
use std::marker::Model;

/// A number of calls, as ghost data: the number of entries of a log, whatever they are. It takes no memory.
#[derive(Drop)]
pub(crate) struct CallTally {
    log: CallLog,
}

impl Model for CallTally {
    ghost Value = { ℕ };

    ghost view = { λ t. length t.log.calls };
}

impl CallTally {
    /// Zero calls.
    pub(crate) fn new() -> Self
        ensures { result ≡ 0 }
    {
        CallTally {
            log: CallLog::new(),
        }
    }

    /// Counts a call.
    pub(crate) fn count(&mut self)
        ensures { self.new ≡ self.old + 1 }
    {
        self.log.synced(Ok(()));
    }
}
