//! How a service hears its clients.

ghost use Rattle.std.specs.Prelude.{◌≡◌, ◌≤◌, ◌<◌, [], IfNone, IfSome, IsSomeAnd, length, take, true, false, vec_len};
ghost use Rattle.std.specs.Option.{option_map_or};
ghost use Rattle.client_loop.specs.Clients.{IsDrained, IsOver, IsUnheard, awaits_input};
ghost use Rattle.client_loop.specs.Events.{Survives};
ghost use Rattle.client_loop.specs.Service.{ServiceDiscards, ServiceHears};
ghost use Rattle.client_loop.specs.Slots.{OfClient, by_port, status_at};

use crate::service::Service;
use crate::stream::Stream;
use act_disk::Disk;
use act_sessions::Protocol;
use std::alloc::Global;

impl<D: Disk, P: Protocol, Q: Protocol, S: Stream> Service<D, P, Q, S> {
    /// Reads once from the stream of the client of a slot, and hears what came. Nothing is read unless the client awaits input, and nothing is
    /// heard if nothing was read. At most `MAX_REQUESTS` of its requests are taken; the others are held. No device call is made.
    /// Promise (A service in one thread): At every moment of a call of a service the disk recovers to the table after some first entries, with
    ///   all that were covered when it began
    /// By: `client_loop::Service::{hear_from, go_on, send_to, part, discard, commit, step, turn_over, join, leave}`, `survives`
    /// Promise (A service in one thread): A piece is heard once, by the client that sent it, unless its session is over. At most 16 commands are
    ///   taken at a time, and no device is called
    /// By: `client_loop::Service::{hear_from, go_on}`, `heard` (`ServiceHears`, `Hears`, `full`)
    /// Promise (A service in one thread): No whole request is left without an answer unless the session says that it has more to take, which it
    ///   says only after 16 requests or with 65,536 bytes withheld
    /// By: `client_loop::Service::{hear_from, go_on}`, `heard` (`Hears`, `full`, `Follows`); `client_loop::Service::status` (`ClientStatus`)
    /// Promise (A service in one thread): What waits when a session has no more to take is within the protocol's limit
    /// By: `client_loop::Service::{hear_from, go_on}`, `heard` (`Follows`)
    /// Promise (A service in one thread): Whatever a client sends, and if it takes nothing, fewer than 65,536 bytes are withheld from it beside
    ///   those of one answer, or of one answer and the last text of a session that ran out of memory
    /// By: `client_loop::Service::{hear_from, go_on}`, `heard` (`Follows`, `few_withheld`, `AreFew`)
    /// Promise (A service in one thread): A client is read from only once all that it has asked is answered and sent, and from its own stream; what
    ///   was read is what is heard. Where nothing is read nothing changes
    /// By: `client_loop::Service::hear_from`, `awaited`, `heard`, `none`
    /// Promise (A service in one thread): Nothing is read only where there is no client that may be read from, or its stream gives nothing
    /// By: `client_loop::Service::hear_from`, `unheard` (`IsUnheard`); `client_loop::Stream`, `silent`
    pub fn hear_from(&mut self, alloc: Global, index: usize, buffer: &mut Vec<u8>) -> Option<usize>
        ensures awaited { IfSome result (λ n. IsSomeAnd (status_at self.old.slots index) (λ s. awaits_input s ≡ true)) }
        ensures bound { IfSome result (λ n. n ≤ vec_len buffer.new) }
        ensures heard { IfSome result (λ n. ServiceHears (by_port self.old.slots.hooks P.rules Q.rules) index (take n buffer.new.items) self.old self.new) }
        ensures none { IfNone result (self.new ≡ self.old) }
        ensures unheard { IfNone result (OfClient IsUnheard self.old.slots index) }
        ensures survives { Survives D.honest D.moment D.images_since self.old self.new }
    {
        let _covered = self.store.covered();
        if !self.awaits_input(index) {
            return None;
        }
        self.slots.hear_from(alloc, &mut self.store, index, buffer)
    }

    /// Continues with the requests that the client of a slot has sent before. Returns false, and changes nothing, if its session is over or
    /// there is no client.
    pub fn go_on(&mut self, alloc: Global, index: usize) -> bool
        ensures heard { result ≡ true → ServiceHears (by_port self.old.slots.hooks P.rules Q.rules) index [] self.old self.new }
        ensures same { result ≡ false → self.new ≡ self.old }
        ensures over { result ≡ false → OfClient IsOver self.old.slots index }
        ensures survives { Survives D.honest D.moment D.images_since self.old self.new }
    {
        let _covered = self.store.covered();
        if !self.slots.has(index) {
            return false;
        }
        self.slots.go_on(alloc, &mut self.store, index)
    }

    /// Reads once from the stream of a client whose session is over, and hears nothing of what came.
    pub fn discard(&mut self, index: usize, buffer: &mut Vec<u8>) -> Option<usize>
        ensures bound { IfSome result (λ n. n ≤ vec_len buffer.new) }
        ensures discarded { IfSome result (λ n. ServiceDiscards index self.old self.new) }
        ensures none { IfNone result (self.new ≡ self.old) }
        ensures silent { IfNone result (OfClient IsDrained self.old.slots index) }
        ensures survives { Survives D.honest D.moment D.images_since self.old self.new }
    {
        let _covered = self.store.covered();
        if !self.slots.has(index) {
            return None;
        }
        self.slots.discard(index, buffer)
    }

    /// Whether there is a client in a slot whose next bytes may be read.
    fn awaits_input(&self, index: usize) -> bool
        ensures exact { result ≡ option_map_or awaits_input (status_at self.now.slots index) false }
        ensures slot { result ≡ true → index < length self.now.slots.all }
        ensures awaited { result ≡ true → IsSomeAnd (status_at self.now.slots index) (λ s. awaits_input s ≡ true) }
    {
        if !self.slots.has(index) {
            return false;
        }
        match self.slots.status(index) {
            Some(status) => status.awaits_input(),
            None => false,
        }
    }
}
