//! How a service parts with a client whose last entries the device has lost.

ghost use Rattle.std.specs.Prelude.{◌≡◌, ◌≢◌, ℕ, List, [], drop, true, false};
ghost use Rattle.client_loop.specs.Entering.{part_of};
ghost use Rattle.client_loop.specs.Events.{Survives};
ghost use Rattle.client_loop.specs.Clients.{OwesNothing};
ghost use Rattle.client_loop.specs.Service.{IsStuck, ServiceParts};
ghost use Rattle.client_loop.specs.Slots.{OfClient, by_port};

use crate::sending::none_pending;
use crate::service::Service;
use crate::stream::Stream;
use act_disk::Disk;
use act_sessions::Protocol;
use act_store::Store;
use std::alloc::Global;
use wf_value::{Code, Refusal};

/// Whether the device has failed, and an entry under a number is not covered. A store with such an entry does not turn over: it says why.
fn is_stuck<D: Disk>(store: &mut Store<D>, number: u64) -> bool
    ensures failed { result ≡ true → store.old.failed ≡ true }
    ensures pending { result ≡ true → part_of number (drop store.old.covered store.old.history) ≢ [] }
    ensures live { result ≡ false → store.old.failed ≡ true → part_of number (drop store.old.covered store.old.history) ≡ [] }
    ensures same { store.new ≡ store.old }
{
    let _covered = store.covered();
    if none_pending(store, number) {
        return false;
    }
    match store.turn_over() {
        Err(Refusal::Numbered(Code::FailedEarlier)) => true,
        _ => false,
    }
}

impl<D: Disk, P: Protocol, Q: Protocol, S: Stream> Service<D, P, Q, S> {
    /// Parts with the client of a slot once the device has failed while an entry under its number is not covered: its session is over, and
    /// the answers that are withheld are dropped. In their place the refusal 52 is written to its stream, as much of it as that takes, unless
    /// an answer was sent in part. Returns false, and changes nothing, where the device has not failed, every entry under the number is
    /// covered, or nothing is withheld.
    /// Promise (A service in one thread): After a device fault the answers to a client with an entry that is not covered are dropped; in their place,
    ///   and only after whole answers, the refusal 52 or a prefix of it is sent, and its session is over
    /// By: `client_loop::Service::part`, `parted`, `same` (`ServiceParts`, `IsStuck`, `IsParting`)
    /// Promise (A service in one thread): A service that is asked to part with such a client does so, if answers are withheld from it
    /// By: `client_loop::Service::part`, `owed` (`OwesNothing`)
    pub fn part(&mut self, alloc: Global, index: usize) -> bool
        ensures parted { result ≡ true → (farewell : List ℕ)
            × ServiceParts (by_port self.old.slots.hooks P.rules Q.rules) index farewell self.old self.new }
        ensures same { result ≡ false → self.new ≡ self.old }
        ensures owed { result ≡ false → IsStuck index self.old → OfClient OwesNothing self.old.slots index }
        ensures survives { Survives D.honest D.moment D.images_since self.old self.new }
    {
        let _covered = self.store.covered();
        if !self.slots.has(index) {
            return false;
        }
        if !is_stuck(&mut self.store, index as u64) {
            return false;
        }
        self.slots.part(alloc, index)
    }
}
