//! Forgets runs: the service asks for that as a client of its own hook port, in a slot that no connection has.

use crate::clients::OWN_SLOT;
use crate::stream::ClientStream;
use crate::turns::Turns;
use act_disk::Disk;
use run_table::Table;
use std::alloc::{AllocError, Global};
use table_model::RunPhase;

/// Through which id runs are to be forgotten, so that the last `keep` stay: if there are more, and the first one has completed.
fn last_to_forget(table: &Table, keep: u32) -> Option<u32> {
    let runs = table.runs();
    let (first, last) = (runs.first()?, runs.last()?);
    if runs.len() <= keep as usize || !matches!(first.phase(), RunPhase::Ended) {
        return None;
    }
    last.id().get().checked_sub(keep)
}

/// The request that forgets the runs with ids up to this one.
fn request(alloc: Global, run: u32) -> Result<String, AllocError> {
    format!(in alloc; "POST /runs/{run}/forget HTTP/1.1\r\nConnection: close\r\n\r\n")
}

impl<D: Disk> Turns<'_, D> {
    /// Asks to forget runs, if there are more than are to be kept and the first one has completed. What is answered is withheld until that is
    /// durable. Without memory it is asked when the next history begins.
    pub(crate) fn ask_to_forget(&mut self) {
        let Some(keep) = self.limits.keep_runs else {
            return;
        };
        let Some(run) = last_to_forget(self.service.store().table(), keep) else {
            return;
        };
        let Ok(asked) = request(self.alloc, run) else {
            return;
        };
        if self
            .service
            .join(self.alloc, OWN_SLOT, ClientStream::own(asked))
        {
            let _ = self
                .service
                .hear_from(self.alloc, OWN_SLOT, &mut self.buffer);
        }
    }

    /// Takes the answer, and frees the slot.
    pub(crate) fn has_asked(&mut self) {
        let _ = self.service.send_to(OWN_SLOT);
        self.service.leave(OWN_SLOT);
    }
}
