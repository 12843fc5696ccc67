//! How a service makes its history durable.

ghost use Rattle.std.specs.Prelude.{◌≡◌, Err, IfErr, IfSome, OnErr, OnOk, Some, length, true, false};
ghost use Rattle.act_disk.specs.Failed.{device_failed};
ghost use Rattle.act_store.specs.Plain.{failed_earlier, refusal_of_turn_over, turned_over};
ghost use Rattle.act_store.specs.Steps.{Takes};
ghost use Rattle.client_loop.specs.Events.{EntersNone, IsBroken, IsQuiet, Survives};
ghost use Rattle.client_loop.specs.Service.{covered_of, history_of};

use crate::service::Service;
use crate::stream::Stream;
use act_disk::Disk;
use act_sessions::Protocol;
use act_store::{Played, Step, take};
use std::alloc::Global;
use wf_value::Refusal;

impl<D: Disk, P: Protocol, Q: Protocol, S: Stream> Service<D, P, Q, S> {
    /// Makes all entries durable, as `Store::commit` does. At each moment of the call the disk recovers to some first entries of the
    /// history, with all that were covered at its start.
    /// Refusal (Sessions and programs): `client_loop::Service::{commit, step, turn_over}`
    /// When: as `Store::commit`, `act_store::take` and `Store::turn_over`
    /// Afterwards: as theirs; the history of the service stays
    /// By: `client_loop::Service::{commit, turn_over}`, `refused`, `broken`, `cause`, `unchanged`, `quiet`; `client_loop::Service::step`, `takes`
    pub fn commit(&mut self) -> Result<u64, Refusal>
        ensures survives { Survives D.honest D.moment D.images_since self.old self.new }
        ensures quiet { IsQuiet self.old self.new }
        ensures covered { OnOk result (covered_of self.new ≡ length (history_of self.new)) }
        ensures failed { OnErr result (self.new.store.failed ≡ true) }
        ensures refused { self.old.store.failed ≡ true → (result ≡ Err failed_earlier) × (self.new ≡ self.old) }
        ensures broken { IfErr result (λ e. self.old.store.failed ≡ false → (e ≡ device_failed) × IsBroken self.old self.new) }
    {
        let _covered = self.store.covered();
        self.store.commit()
    }

    /// Takes a step of the store that enters no command: a commit, or a step of a checkpoint. At each moment of the call the disk recovers
    /// to some first entries of the history, with all that were covered at its start.
    pub fn step(&mut self, alloc: Global, step: Step) -> Played
        requires { EntersNone step }
        ensures takes { Takes self.old.store step result self.new.store }
        ensures quiet { IsQuiet self.old self.new }
        ensures survives { Survives D.honest D.moment D.images_since self.old self.new }
    {
        let _covered = self.store.covered();
        take(alloc, &mut self.store, step)
    }

    /// Restarts the store's history, as `Store::turn_over` does. The history of the service stays.
    pub fn turn_over(&mut self) -> Result<(), Refusal>
        ensures turned { OnOk result (self.new ≡ record self.old { store = turned_over self.old.store; past = history_of self.old }) }
        ensures refused { IfSome (refusal_of_turn_over self.old.store) (λ refusal. result ≡ Err refusal) }
        ensures cause { IfErr result (λ e. refusal_of_turn_over self.old.store ≡ Some e) }
        ensures unchanged { OnErr result (self.new ≡ self.old) }
        ensures survives { Survives D.honest D.moment D.images_since self.old self.new }
        ensures quiet { IsQuiet self.old self.new }
    {
        let past = self.past.with(&self.store);
        let _covered = self.store.covered();
        self.store.turn_over()?;
        self.past = past;
        Ok(())
    }
}
