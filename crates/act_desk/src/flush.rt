ghost use Rattle.std.specs.Prelude.{◌≡◌, ◌⊎◌, ◌<◌, Ok, Some, None, false, true, IfErr, IfOk, OnOk};
ghost use Rattle.wf_value.specs.Gives.{no_memory};
ghost use Rattle.act_disk.specs.Failed.{device_failed};
ghost use Rattle.act_store.specs.Plain.{failed_earlier};

use crate::locked::LockedStore;
use crate::named::Named;
use act_disk::Disk;
use std::alloc::Global;
use std::marker::Model;
use std::sync::ledger::Ledger;
use wf_value::{Code, Refusal};

/// The state of a flusher.
#[derive(Drop)]
pub(crate) struct Flush {
    /// How many bytes of the checkpoint in progress are left to write, if there is one.
    left: Option<u64>,
    /// How many entries were covered when it last checked whether to begin one.
    seen: u64,
    /// How many entries were covered when it last tried to begin one.
    tried: Option<u64>,
    /// How many checkpoints it has finished.
    finished: u64,
}

impl Model for Flush {
    ghost use Rattle.act_desk.specs.Flushing.{Flushing};

    ghost Value = { Flushing };

    ghost view = { λ f. record { left = f.left; tried = f.tried; finished = f.finished } };
}

impl Flush {
    ghost use Rattle.act_desk.specs.Flushing.{Begins, Finishes, IsDue, IsOfDevice, Slices, Steps};

    pub(crate) fn new() -> Flush
        ensures { result ≡ record { left = None; tried = None; finished = 0 } }
    {
        Flush {
            left: None,
            seen: 0,
            tried: None,
            finished: 0,
        }
    }

    /// How many checkpoints were finished.
    pub(crate) fn finished(&self) -> u64
        ensures { result ≡ self.now.finished }
    {
        self.finished
    }

    /// Whether a checkpoint is in progress.
    pub(crate) fn is_under_way(&self) -> bool
        ensures none { result ≡ false → self.now.left ≡ None }
        ensures some { result ≡ true → self.now.left ≡ None → ⊥ }
    {
        self.left.is_some()
    }

    /// How many entries were covered when it last checked whether to begin a checkpoint.
    pub(crate) fn seen(&self) -> u64 {
        self.seen
    }

    /// Calls the store at most once: continues the checkpoint in progress, or begins one if that is due. Returns whether the store did
    /// what it was asked to do. A refusal that is not a device failure is ignored. It enters no command and releases no reply.
    /// Promise (One history for all sessions): A flusher begins a checkpoint exactly where less than half of the area is left and more is
    ///   covered than at its last try; else it writes a slice or finishes. It enters and releases nothing
    /// By: `act_desk::flush::Flush::round`, `steps` (`Steps`), `same`, `history`; `act_desk::LockedStore::is_pressed`
    pub(crate) fn round<D: Disk, E: Named, T: Ledger>(
        &mut self,
        alloc: Global,
        locked: &mut LockedStore<D, E, T>,
    ) -> Result<bool, Refusal>
        ensures steps { Steps self.old self.new locked.old.store locked.new.store result }
        ensures same { locked.new ≡ record locked.old { store = locked.new.store } }
        ensures history { (locked.new.store.history ≡ locked.old.store.history) × (locked.new.store.base ≡ locked.old.store.base) }
        ensures cause { IfErr result IsOfDevice }
    {
        match self.left {
            None => self.begin(alloc, locked),
            Some(0) => self.finish(alloc, locked),
            Some(_) => self.slice(locked),
        }
    }

    /// Whether a checkpoint is due.
    fn is_due<D: Disk, E: Named, T: Ledger>(&self, locked: &LockedStore<D, E, T>) -> bool
        ensures due { result ≡ true → IsDue self.now locked.now.store }
        ensures not_due { result ≡ false → IsDue self.now locked.now.store → ⊥ }
    {
        locked.is_pressed() && !self.has_tried(locked.covered())
    }

    /// Whether it has tried to begin a checkpoint at this number of entries.
    fn has_tried(&self, covered: u64) -> bool
        ensures yes { result ≡ true → self.now.tried ≡ Some covered }
        ensures no { result ≡ false → self.now.tried ≡ Some covered → ⊥ }
    {
        match self.tried {
            Some(tried) => tried == covered,
            None => false,
        }
    }

    /// Begins a checkpoint if less than half of the area is left and entries were covered since the last attempt. An attempt that ran out
    /// of memory does not count.
    fn begin<D: Disk, E: Named, T: Ledger>(
        &mut self,
        alloc: Global,
        locked: &mut LockedStore<D, E, T>,
    ) -> Result<bool, Refusal>
        ensures begins { (IsDue self.old locked.old.store × Begins self.old self.new locked.old.store locked.new.store result)
            ⊎ ((IsDue self.old locked.old.store → ⊥) × (self.new ≡ self.old) × (locked.new.store ≡ locked.old.store) × (result ≡ Ok false)) }
        ensures same { locked.new ≡ record locked.old { store = locked.new.store } }
        ensures history { (locked.new.store.history ≡ locked.old.store.history) × (locked.new.store.base ≡ locked.old.store.base) }
        ensures cause { IfErr result IsOfDevice }
    {
        self.seen = locked.covered();
        if self.is_due(locked) {
            self.try_to_begin(alloc, locked)
        } else {
            Ok(false)
        }
    }

    fn try_to_begin<D: Disk, E: Named, T: Ledger>(
        &mut self,
        alloc: Global,
        locked: &mut LockedStore<D, E, T>,
    ) -> Result<bool, Refusal>
        ensures begins { Begins self.old self.new locked.old.store locked.new.store result }
        ensures same { locked.new ≡ record locked.old { store = locked.new.store } }
        ensures history { (locked.new.store.history ≡ locked.old.store.history) × (locked.new.store.base ≡ locked.old.store.base) }
        ensures cause { IfErr result IsOfDevice }
    {
        let covered = locked.covered();
        match locked.check_begin(alloc) {
            Ok(left) => {
                self.tried = Some(covered);
                self.left = Some(left);
                Ok(true)
            }
            Err(refusal) => {
                if lacks_memory(refusal)? {
                    return Ok(false);
                }
                self.tried = Some(covered);
                Ok(false)
            }
        }
    }

    /// Writes a slice. A call out of order means that the checkpoint belongs to another party.
    fn slice<D: Disk, E: Named, T: Ledger>(
        &mut self,
        locked: &mut LockedStore<D, E, T>,
    ) -> Result<bool, Refusal>
        ensures slices { Slices self.old self.new locked.old.store locked.new.store result }
        ensures same { locked.new ≡ record locked.old { store = locked.new.store } }
        ensures history { (locked.new.store.history ≡ locked.old.store.history) × (locked.new.store.base ≡ locked.old.store.base) }
        ensures cause { IfErr result IsOfDevice }
    {
        match locked.check_slice() {
            Ok(left) => {
                self.left = Some(left);
                Ok(true)
            }
            Err(refusal) => {
                lacks_memory(refusal)?;
                self.left = None;
                Ok(false)
            }
        }
    }

    /// Finishes the checkpoint. A refusal ends it.
    fn finish<D: Disk, E: Named, T: Ledger>(
        &mut self,
        alloc: Global,
        locked: &mut LockedStore<D, E, T>,
    ) -> Result<bool, Refusal>
        ensures finishes { Finishes self.old self.new locked.old.store locked.new.store result }
        ensures same { locked.new ≡ record locked.old { store = locked.new.store } }
        ensures history { (locked.new.store.history ≡ locked.old.store.history) × (locked.new.store.base ≡ locked.old.store.base) }
        ensures cause { IfErr result IsOfDevice }
    {
        match locked.check_finish(alloc) {
            Ok(_) => {
                self.left = None;
                self.finished = self.finished.saturating_add(1);
                Ok(true)
            }
            Err(refusal) => {
                lacks_memory(refusal)?;
                self.left = None;
                Ok(false)
            }
        }
    }
}

/// Whether an ignored refusal was out of memory. A device failure, in this call or earlier, is not ignored.
fn lacks_memory(refusal: Refusal) -> Result<bool, Refusal>
    ensures passed { OnOk result ((refusal ≡ device_failed → ⊥) × (refusal ≡ failed_earlier → ⊥)) }
    ensures memory { IfOk result (λ lacks. lacks ≡ true → refusal ≡ no_memory) }
    ensures other { IfOk result (λ lacks. lacks ≡ false → refusal ≡ no_memory → ⊥) }
    ensures cause { IfErr result (λ e. (e ≡ device_failed) ⊎ (e ≡ failed_earlier)) }
{
    match refusal {
        Refusal::Numbered(Code::DeviceFailed) => Err(Refusal::Numbered(Code::DeviceFailed)),
        Refusal::Numbered(Code::FailedEarlier) => Err(Refusal::Numbered(Code::FailedEarlier)),
        Refusal::Numbered(Code::NoMemory) => Ok(true),
        _ => Ok(false),
    }
}
