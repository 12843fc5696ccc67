ghost use Rattle.std.specs.Prelude.{◌≡◌, ◌≤◌, ◌<◌, ◌↔◌, [], IsSome, IsTrue, length, true, false};
ghost use Rattle.client_loop.specs.Clients.{wire_of};
ghost use Rattle.client_loop.specs.Service.{IsPromised, ServiceJoins, ServiceLeaves, covered_of, history_of, new_service};
ghost use Rattle.client_loop.specs.Slots.{AreFree, by_port, status_at};
ghost use Rattle.client_loop.specs.Events.{Survives};

use crate::entry_history::EntryHistory;
use crate::slots::Slots;
use crate::status::ClientStatus;
use crate::stream::Stream;
use act_disk::Disk;
use act_sessions::Protocol;
use act_store::Store;
use std::alloc::Global;
use std::marker::Model;
use std::snapshot::Snapshot;

/// Many clients over one store, in one thread.
///
/// The clients of hooks and runners have slots under one numbering, each with its own stream, and their commands are entered under the number
/// of the slot. Answers are withheld until their entries are durable. A call that names no slot changes nothing.
#[derive(Drop)]
pub struct Service<D: Disk, P: Protocol, Q: Protocol, S: Stream> {
    pub(crate) store: Store<D>,
    pub(crate) slots: Slots<P, Q, S>,
    /// The store at the start of the service, for contracts only.
    pub(crate) first: Snapshot<Store<D>>,
    pub(crate) past: EntryHistory<D>,
}

impl<D: Disk, P: Protocol, Q: Protocol, S: Stream> Model for Service<D, P, Q, S> {
    ghost use Rattle.client_loop.specs.Service.{IsService, ServiceState};
    ghost use Rattle.client_loop.specs.Slots.{by_port};

    ghost Value = { ServiceState D };

    ghost view = { λ s. record { store = s.store; origin = s.first.value.base; past = s.past; slots = s.slots } };

    ghost invariant = { λ s. IsService {D = D} (by_port s.slots.hooks P.Protocol.rules Q.Protocol.rules)
        (record { store = s.store; origin = s.first.value.base; past = s.past; slots = s.slots }) };
}

impl<D: Disk, P: Protocol, Q: Protocol, S: Stream> Service<D, P, Q, S> {
    /// A service over a store with an empty history, with slots that no client has had.
    pub fn new(store: Store<D>, slots: Slots<P, Q, S>) -> Service<D, P, Q, S>
        requires empty { store.history ≡ [] }
        requires free { AreFree slots.all }
        ensures { result ≡ new_service store slots }
    {
        let _covered = store.covered();
        let first = Snapshot::of(&store);
        Service {
            store,
            slots,
            first,
            past: EntryHistory::new(),
        }
    }

    /// Whether every entry is covered. The clause `promise` says what every service promises.
    /// Promise (A service in one thread): A command refused with 46, 47, 50, 52 or 57 is no entry, and changed nothing
    /// By: `client_loop::Service::is_covered`, `promise` (`Enters`)
    /// Promise (A service in one thread): The commands of a client are those that its bytes spell by its protocol, and the bytes sent to it and
    ///   those withheld are, together, the protocol's answers
    /// By: `client_loop::Service::is_covered`, `promise` (`IsClient`, `Follows`, `AreAnswers`)
    /// Promise (A service in one thread): A session that runs out of memory outside a command ends with the protocol's response or nothing; the
    ///   last answer may then be missing, and if its command was entered the session ends with nothing
    /// By: `client_loop::Service::is_covered`, `promise` (`IsCutShort`, `IsTrueLast`)
    /// Promise (A service in one thread): What a client was heard of was read from its own stream, and all that was sent to it was written there, and
    ///   nothing else
    /// By: `client_loop::Service::is_covered`, `promise` (`IsClient`, `HasOwnStream`); `client_loop::Stream`
    pub fn is_covered(&self) -> bool
        ensures covered { IsTrue result ↔ (length (history_of self.now) ≤ covered_of self.now) }
        ensures promise { IsPromised (by_port self.now.slots.hooks P.rules Q.rules) D.honest D.images self.now }
    {
        self.store.covered() == self.store.entries()
    }

    /// The store. Between two calls it may be read.
    pub fn store(&self) -> &Store<D>
        ensures { result.now ≡ self.now.store }
    {
        &self.store
    }

    /// How the client of a slot stands, if one has it.
    pub fn status(&self, index: usize) -> Option<ClientStatus>
        ensures { result ≡ status_at self.now.slots index }
    {
        if !self.slots.has(index) {
            return None;
        }
        self.slots.status(index)
    }

    /// The stream of the client of a slot, to look at.
    pub fn stream(&self, index: usize) -> Option<&S> {
        if !self.slots.has(index) {
            return None;
        }
        self.slots.stream(index)
    }

    /// Gives a slot to a new client with its stream. Returns false if it is taken or there is no such slot, and closes the stream.
    /// Promise (A service in one thread): A slot is given to one client at a time, with its own stream, and a service begins with no client
    /// By: `client_loop::Service::join`, `joined`, `taken`; `client_loop::Service::leave`, `leaves`; `client_loop::Service::new`; `client_loop::Slots::new`
    pub fn join(&mut self, alloc: Global, index: usize, stream: S) -> bool
        ensures joined { result ≡ true → ServiceJoins index (wire_of S.remaining S.contents stream) self.old self.new }
        ensures taken { result ≡ false → (self.new ≡ self.old) × (index < length self.old.slots.all → IsSome (status_at self.old.slots index)) }
        ensures survives { Survives D.honest D.moment D.images_since self.old self.new }
    {
        let _covered = self.store.covered();
        if !self.slots.has(index) {
            return false;
        }
        self.slots.join(alloc, index, stream)
    }

    /// Frees a slot, closes its client's stream, and frees the memory of its session. What is withheld from the client is never sent.
    pub fn leave(&mut self, index: usize)
        ensures leaves { index < length self.old.slots.all → ServiceLeaves index self.old self.new }
        ensures same { length self.old.slots.all ≤ index → self.new ≡ self.old }
        ensures survives { Survives D.honest D.moment D.images_since self.old self.new }
    {
        let _covered = self.store.covered();
        if self.slots.has(index) {
            self.slots.leave(index);
        }
    }
}
