//! Checkpoints of a service without end, a few slices in each turn.

use crate::stream::ClientStream;
use act_disk::Disk;
use act_store::{Played, Step};
use client_loop::Service;
use runner_sessions::RunnerLines;
use std::alloc::Global;
use webhook_sessions::Hooks;
use wf_value::{Code, Refusal};

/// How far a service is with its checkpoints.
#[derive(Drop)]
pub(crate) struct Checkpoints {
    /// How many bytes of the checkpoint in progress are left to write, if there is one.
    left: Option<u64>,
    /// How many entries of the history were covered when it last tried to begin one.
    tried: Option<u64>,
    /// How many were finished.
    finished: u64,
}

impl Checkpoints {
    pub(crate) fn new() -> Checkpoints {
        Checkpoints {
            left: None,
            tried: None,
            finished: 0,
        }
    }

    /// How many were finished.
    pub(crate) fn finished(&self) -> u64 {
        self.finished
    }

    /// Whether a checkpoint is in progress.
    pub(crate) fn is_under_way(&self) -> bool {
        self.left.is_some()
    }

    /// A new history has begun, so the number of its entries says nothing of the last attempt.
    pub(crate) fn turn_over(&mut self) {
        self.tried = None;
    }

    /// Takes up to `slices` steps of the checkpoint in progress, or begins one if that is due. The only errors are those
    /// of the device: any other refusal ends the checkpoint, and a begin that found no memory is tried again.
    pub(crate) fn advance<D: Disk>(
        &mut self,
        alloc: Global,
        service: &mut Service<D, Hooks, RunnerLines, ClientStream>,
        slices: u64,
    ) -> Result<(), Refusal> {
        if self.left.is_none() {
            return self.begin(alloc, service);
        }
        for _ in 0..slices {
            if !self.is_under_way() {
                break;
            }
            self.step(alloc, service)?;
        }
        Ok(())
    }

    /// Begins a checkpoint if less than half of the area is left and entries were covered since the last attempt.
    fn begin<D: Disk>(
        &mut self,
        alloc: Global,
        service: &mut Service<D, Hooks, RunnerLines, ClientStream>,
    ) -> Result<(), Refusal> {
        let store = service.store();
        let (room, covered) = (store.room(), store.covered());
        let is_pressed = room < store.area().saturating_sub(room);
        if !is_pressed || self.tried == Some(covered) {
            return Ok(());
        }
        self.tried = Some(covered);
        let begun = service.step(alloc, Step::Begin);
        self.note(begun)
    }

    fn step<D: Disk>(
        &mut self,
        alloc: Global,
        service: &mut Service<D, Hooks, RunnerLines, ClientStream>,
    ) -> Result<(), Refusal> {
        if self.left == Some(0) {
            self.finish(alloc, service)
        } else {
            let written = service.step(alloc, Step::Slice);
            self.note(written)
        }
    }

    fn finish<D: Disk>(
        &mut self,
        alloc: Global,
        service: &mut Service<D, Hooks, RunnerLines, ClientStream>,
    ) -> Result<(), Refusal> {
        match service.step(alloc, Step::Finish) {
            Played::Refused(refusal) => self.refused(refusal),
            _ => {
                self.left = None;
                self.finished = self.finished.saturating_add(1);
                Ok(())
            }
        }
    }

    /// Keeps how many bytes are left after a step that was not the last.
    fn note(&mut self, played: Played) -> Result<(), Refusal> {
        match played {
            Played::Count(left) => {
                self.left = Some(left);
                Ok(())
            }
            Played::Refused(refusal) => self.refused(refusal),
            Played::Replied(_) => Ok(()),
        }
    }

    /// Handles the refusal of a step.
    fn refused(&mut self, refusal: Refusal) -> Result<(), Refusal> {
        match refusal {
            Refusal::Numbered(Code::DeviceFailed) => Err(Refusal::Numbered(Code::DeviceFailed)),
            Refusal::Numbered(Code::FailedEarlier) => Err(Refusal::Numbered(Code::FailedEarlier)),
            Refusal::Numbered(Code::NoMemory) => {
                self.left = None;
                self.tried = None;
                Ok(())
            }
            _ => {
                self.left = None;
                Ok(())
            }
        }
    }
}
