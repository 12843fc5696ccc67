ghost use Rattle.std.specs.Prelude.{◌≡◌, ◌≢◌, ◌≤◌, ℕ, List, [], IfNone, IfSome, None, is_some, length, take, true, false, vec_len};
ghost use Rattle.client_loop.specs.Clients.{ClientDiscards, ClientHears, ClientParts, ClientSends, new_client, status_of, wire_of};
ghost use Rattle.client_loop.specs.Conversation.{Follows};
ghost use Rattle.client_loop.specs.Streams.{GivesNothing};

use crate::session::Session;
use crate::status::ClientStatus;
use crate::stream::Stream;
use act_disk::Disk;
use act_sessions::Protocol;
use act_store::Store;
use std::alloc::Global;
use std::marker::Model;
use std::snapshot::Snapshot;

/// A client with its session and its own stream. For contracts only it has the session as it was when bytes were last sent, and the stream as
/// it was when the client came.
#[derive(Drop)]
pub(crate) struct Client<P: Protocol, S: Stream> {
    session: Session<P>,
    released: Snapshot<Session<P>>,
    stream: S,
    began: Snapshot<S>,
}

impl<P: Protocol, S: Stream> Model for Client<P, S> {
    ghost use Rattle.std.specs.Prelude.{⊤};
    ghost use Rattle.client_loop.specs.Clients.{ClientState, wire_of};

    ghost Value = { ClientState };

    ghost view = { λ c. record { now = c.session; released = c.released.value; wire = wire_of S.Stream.remaining S.Stream.contents c.stream; began = wire_of S.Stream.remaining S.Stream.contents c.began.value } };

    ghost invariant = { λ c. ⊤ };
}

impl<P: Protocol, S: Stream> Client<P, S> {
    /// A client that has just come, with its stream.
    pub(crate) fn new(alloc: Global, stream: S) -> Client<P, S>
        ensures { result ≡ new_client (wire_of S.remaining S.contents stream) }
    {
        let session = Session::new(alloc);
        let released = Snapshot::of(&session);
        let began = Snapshot::of(&stream);
        Client {
            session,
            released,
            stream,
            began,
        }
    }

    pub(crate) fn status(&self) -> ClientStatus
        ensures { result ≡ status_of self.now }
    {
        ClientStatus {
            over: self.session.is_over(),
            more: self.session.has_more(),
            withheld: self.session.withheld().len(),
        }
    }

    /// Whether the service has parted with it.
    pub(crate) fn is_parted(&self) -> bool
        ensures { result ≡ is_some self.now.now.parted }
    {
        self.session.is_parted()
    }

    /// Its stream.
    pub(crate) fn stream(&self) -> &S {
        &self.stream
    }

    /// Reads once from its stream, and hears what came.
    pub(crate) fn hear_from<D: Disk>(
        &mut self,
        alloc: Global,
        store: &mut Store<D>,
        number: u64,
        buffer: &mut Vec<u8>,
    ) -> Option<usize>
        requires { self.old.now.over ≡ false }
        ensures bound { IfSome result (λ n. n ≤ vec_len buffer.new) }
        ensures heard { IfSome result (λ n. ClientHears (Follows P.rules) number (take n buffer.new.items) store.old store.new self.old self.new) }
        ensures none { IfNone result ((self.new ≡ self.old) × (store.new ≡ store.old)) }
        ensures silent { IfNone result (GivesNothing self.old.wire.remaining) }
    {
        let Some(count) = self.stream.read(buffer) else {
            return None;
        };
        self.session.hear(alloc, store, number, buffer, count);
        Some(count)
    }

    /// Continues with what it has sent before.
    pub(crate) fn go_on<D: Disk>(&mut self, alloc: Global, store: &mut Store<D>, number: u64)
        requires { self.old.now.over ≡ false }
        ensures { ClientHears (Follows P.rules) number [] store.old store.new self.old self.new }
    {
        let none = Vec::new(alloc);
        self.session.hear(alloc, store, number, &none, 0);
    }

    /// Writes the withheld bytes to its stream, as many as it takes, and returns how many these are.
    pub(crate) fn send_to(&mut self) -> usize
        requires { self.old.now.parted ≡ None }
        ensures { ClientSends (Follows P.rules) result self.old self.new }
    {
        let count = self.stream.write(self.session.withheld());
        self.session.send(count);
        self.released = Snapshot::of(&self.session);
        count
    }

    /// Parts with it, as `Session::part` does.
    pub(crate) fn part(&mut self, alloc: Global)
        requires { self.old.now.withheld ≢ [] }
        ensures { (farewell : List ℕ) × ClientParts (Follows P.rules) farewell self.old self.new }
    {
        self.session.part(alloc, &mut self.stream);
    }

    /// Reads once from its stream, and hears nothing of what came.
    pub(crate) fn discard(&mut self, buffer: &mut Vec<u8>) -> Option<usize>
        requires { self.old.now.over ≡ true }
        ensures bound { IfSome result (λ n. n ≤ vec_len buffer.new) }
        ensures discarded { IfSome result (λ n. ClientDiscards self.old self.new) }
        ensures none { IfNone result (self.new ≡ self.old) }
        ensures silent { IfNone result (GivesNothing self.old.wire.remaining) }
    {
        self.stream.read(buffer)
    }
}
