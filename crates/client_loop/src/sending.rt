//! How a service sends answers.

ghost use Rattle.std.specs.Prelude.{◌≡◌, ◌<◌, ◌↔◌, [], IfNone, IfSome, IsTrue, drop, length};
ghost use Rattle.client_loop.specs.Clients.{IsParted};
ghost use Rattle.client_loop.specs.Entering.{IsUnder, part_of};
ghost use Rattle.client_loop.specs.Events.{Survives};
ghost use Rattle.client_loop.specs.Service.{ServiceSends, pending_of};
ghost use Rattle.client_loop.specs.Slots.{OfClient, by_port};

use crate::service::Service;
use crate::stream::Stream;
use act_disk::Disk;
use act_sessions::Protocol;
use act_store::Store;

/// Whether no entry under a number is pending.
pub(crate) fn none_pending<D: Disk>(store: &Store<D>, number: u64) -> bool
    ensures { IsTrue result ↔ (part_of number (drop store.now.covered store.now.history) ≡ []) }
{
    for position in store.covered()..store.entries() {
        if is_under(store, position, number) {
            return false;
        }
    }
    true
}

/// Whether the entry after so many others is under a number.
fn is_under<D: Disk>(store: &Store<D>, position: u64, number: u64) -> bool
    requires within { position < length store.now.history }
    requires fits { position < u64.MAX }
    ensures { IsUnder number store.now.history position result }
{
    match store.entry(position + 1) {
        Some(entry) => entry.seat == number,
        None => false,
    }
}

impl<D: Disk, P: Protocol, Q: Protocol, S: Stream> Service<D, P, Q, S> {
    /// Whether answers may be sent to the client of a slot: every entry under the slot's number is covered.
    pub fn may_send(&self, index: usize) -> bool
        ensures { IsTrue result ↔ (part_of index (pending_of self.now) ≡ []) }
    {
        none_pending(&self.store, index as u64)
    }

    /// Writes the bytes that are withheld from the client of a slot to its stream, as many as that takes, and returns how many these are.
    /// Nothing is written, and nothing changes, while an entry under the slot's number is not covered, where there is no client, and once the
    /// service has parted with it.
    /// Promise (A service in one thread): Bytes are sent to a client only while every entry under its number is covered: of these the withheld
    ///   ones, in order, each once, by its own stream
    /// By: `client_loop::Service::send_to`, `sent`, `none` (`ServiceSends`, `ClientSends`); `client_loop::Service::may_send`
    /// Promise (A service in one thread): Nothing is written only where an entry under the number is not covered, no client is there, or the
    ///   service has parted with it
    /// By: `client_loop::Service::send_to`, `unsent` (`IsParted`)
    pub fn send_to(&mut self, index: usize) -> Option<usize>
        ensures sent { IfSome result (λ n. ServiceSends (by_port self.old.slots.hooks P.rules Q.rules) index n self.old self.new) }
        ensures none { IfNone result (self.new ≡ self.old) }
        ensures unsent { IfNone result (part_of index (pending_of self.old) ≡ [] → OfClient IsParted self.old.slots index) }
        ensures survives { Survives D.honest D.moment D.images_since self.old self.new }
    {
        let _covered = self.store.covered();
        if !self.slots.has(index) {
            return None;
        }
        if !self.may_send(index) {
            return None;
        }
        self.slots.send_to(index)
    }
}
