//! A desk as its flusher has it.

ghost use Rattle.std.specs.Prelude.{◌≡◌, ◌⊎◌, IfErr};
ghost use Rattle.act_disk.specs.Failed.{device_failed};
ghost use Rattle.act_store.specs.Plain.{failed_earlier};

use crate::desk::Desk;
use crate::flush::Flush;
use crate::named::Named;
use act_disk::Disk;
use std::alloc::Global;
use std::sync::ledger::Ledger;
use std::sync::{Mutex, Wait};
use std::time::{Clock, Duration};
use wf_value::Refusal;

/// A desk as its flusher has it, with what tells that one to stop. It gives no seat and takes no command, so a flusher enters nothing and
/// releases no reply.
#[derive(Drop)]
pub struct FlusherDesk<'a, D: Disk, E: Named, T: Ledger> {
    desk: &'a Desk<D, E, T>,
    stop: &'a Mutex<bool>,
}

impl<'a, D: Disk, E: Named, T: Ledger> FlusherDesk<'a, D, E, T> {
    /// The desk of a flusher that ends once `stop` is true.
    pub fn new(desk: &'a Desk<D, E, T>, stop: &'a Mutex<bool>) -> FlusherDesk<'a, D, E, T> {
        FlusherDesk { desk, stop }
    }

    /// Whether the flusher is to stop.
    pub(crate) fn is_stopped(&self, rt: &impl Wait) -> bool {
        *self.stop.lock(rt)
    }

    /// Calls the store at most once, under the lock. Returns whether the store did what it was asked to do.
    pub(crate) fn flush(
        &self,
        rt: &impl Wait,
        alloc: Global,
        flush: &mut Flush,
    ) -> Result<bool, Refusal>
        ensures { IfErr result (λ e. (e ≡ device_failed) ⊎ (e ≡ failed_earlier)) }
    {
        self.desk.flush(rt, alloc, flush)
    }

    /// Waits until the number of covered entries differs from `covered` or the sessions have ended, for at most `most`. Returns true if
    /// neither happened.
    pub(crate) fn rest<R: Wait + Clock>(&self, rt: &R, covered: u64, most: Duration) -> bool {
        self.desk.rest(rt, covered, most)
    }
}
