//! A file system that does not answer at once, since another machine has the lock of the file or its servers are away.

use std::sync::{Condvar, CondvarTimeouts, Mutex, Wait};
use std::time::{Clock, Duration};

/// How long nothing is said, in seconds.
const PATIENCE: u64 = 2;

/// Whether the file is open, or can't be opened.
#[derive(Drop)]
pub(crate) struct Opening {
    has_ended: Mutex<bool>,
    signal: Condvar,
}

impl Opening {
    pub(crate) fn new() -> Self {
        Opening {
            has_ended: Mutex::new(false),
            signal: Condvar::new(),
        }
    }

    pub(crate) fn end(&self, rt: &impl Wait) {
        *self.has_ended.lock(rt) = true;
        self.signal.notify_all();
    }

    /// Waits until the opening has ended. If it has not after two seconds, says on standard error that it goes on.
    pub(crate) fn watch<R: Wait + Clock + Eprint>(&self, rt: &R, path: &str) {
        let has_ended = self.has_ended.lock(rt);
        let (has_ended, _) = self.signal.wait_timeout_while(
            rt,
            has_ended,
            Duration::from_secs(PATIENCE),
            |has_ended| !*has_ended,
        );
        if !*has_ended {
            let _ = rt.eprintln(format_args!(
                "acts: {path}: the file system has not answered for 2 seconds; waiting for the file and its lock"
            ));
        }
    }
}
