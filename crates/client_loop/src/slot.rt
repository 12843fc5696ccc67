ghost use Rattle.std.specs.Prelude.{◌≡◌, ◌≤◌, ℕ, List, [], IfNone, IfSome, IsSome, None, option_map, take, true, false, vec_len};
ghost use Rattle.client_loop.specs.Clients.{IsDrained, IsOver, IsParted, IsSilent, OwesNothing};
ghost use Rattle.client_loop.specs.Clients.{SlotDiscards, SlotHears, SlotJoins, SlotLeaves, SlotParts, SlotSends, free_slot, status_of, wire_of};
ghost use Rattle.client_loop.specs.Conversation.{Follows};

use crate::client::Client;
use crate::status::ClientStatus;
use crate::stream::Stream;
use act_disk::Disk;
use act_sessions::Protocol;
use act_store::Store;
use http_server::Log;
use std::alloc::Global;
use std::marker::Model;

/// A slot for one client at a time, and, for contracts only, the clients that had it before.
#[derive(Drop)]
pub(crate) struct Slot<P: Protocol, S: Stream> {
    client: Option<Client<P, S>>,
    earlier: Log<Client<P, S>, bool>,
}

impl<P: Protocol, S: Stream> Model for Slot<P, S> {
    ghost use Rattle.std.specs.Prelude.{map, ⊤};
    ghost use Rattle.client_loop.specs.Clients.{SlotState};

    ghost Value = { SlotState };

    ghost view = { λ s. record { earlier = map (λ x. x.0) s.earlier.items; client = s.client } };

    ghost invariant = { λ s. ⊤ };
}

impl<P: Protocol, S: Stream> Slot<P, S> {
    /// A slot that no client has had.
    pub(crate) fn new() -> Slot<P, S>
        ensures { result ≡ free_slot }
    {
        Slot {
            client: None,
            earlier: Log::new(),
        }
    }

    /// How its client stands.
    pub(crate) fn status(&self) -> Option<ClientStatus>
        ensures { result ≡ option_map status_of self.now.client }
    {
        match &self.client {
            Some(client) => Some(client.status()),
            None => None,
        }
    }

    /// The stream of its client.
    pub(crate) fn stream(&self) -> Option<&S> {
        match &self.client {
            Some(client) => Some(client.stream()),
            None => None,
        }
    }

    /// Gives the slot to a new client with its stream, unless it is taken.
    pub(crate) fn join(&mut self, alloc: Global, stream: S) -> bool
        ensures joined { result ≡ true → SlotJoins (wire_of S.remaining S.contents stream) self.old self.new }
        ensures taken { result ≡ false → IsSome self.old.client × (self.new ≡ self.old) }
    {
        if self.client.is_some() {
            return false;
        }
        self.client = Some(Client::new(alloc, stream));
        true
    }

    /// Frees the slot, closes its client's stream, and frees the memory of its session.
    pub(crate) fn leave(&mut self)
        ensures { SlotLeaves self.old self.new }
    {
        match self.client.take() {
            Some(client) => {
                self.earlier = self.earlier.and(&client, &true);
            }
            None => {}
        }
    }

    /// Reads once from the stream of its client, and hears what came, if its session goes on.
    pub(crate) fn hear_from<D: Disk>(
        &mut self,
        alloc: Global,
        store: &mut Store<D>,
        number: u64,
        buffer: &mut Vec<u8>,
    ) -> Option<usize>
        ensures bound { IfSome result (λ n. n ≤ vec_len buffer.new) }
        ensures heard { IfSome result (λ n. SlotHears (Follows P.rules) number (take n buffer.new.items) store.old store.new self.old self.new) }
        ensures none { IfNone result ((self.new ≡ self.old) × (store.new ≡ store.old)) }
        ensures silent { IfNone result (IfSome self.old.client IsSilent) }
    {
        let Some(client) = &mut self.client else {
            return None;
        };
        if client.status().over {
            return None;
        }
        client.hear_from(alloc, store, number, buffer)
    }

    /// Continues with what its client has sent before, if its session goes on. Returns whether it does.
    pub(crate) fn go_on<D: Disk>(
        &mut self,
        alloc: Global,
        store: &mut Store<D>,
        number: u64,
    ) -> bool
        ensures heard { result ≡ true → SlotHears (Follows P.rules) number [] store.old store.new self.old self.new }
        ensures same { result ≡ false → (self.new ≡ self.old) × (store.new ≡ store.old) }
        ensures over { result ≡ false → IfSome self.old.client IsOver }
    {
        let Some(client) = &mut self.client else {
            return false;
        };
        if client.status().over {
            return false;
        }
        client.go_on(alloc, store, number);
        true
    }

    /// Writes the bytes that are withheld from its client to its stream, and returns how many of them were sent; `None` if there is no client,
    /// or the service has parted with it.
    pub(crate) fn send_to(&mut self) -> Option<usize>
        ensures sent { IfSome result (λ n. SlotSends (Follows P.rules) n self.old self.new) }
        ensures none { IfNone result (self.new ≡ self.old) }
        ensures parted { IfNone result (IfSome self.old.client IsParted) }
    {
        let Some(client) = &mut self.client else {
            return None;
        };
        if client.is_parted() {
            return None;
        }
        Some(client.send_to())
    }

    /// Parts with its client, if bytes are withheld from it. Returns whether it did.
    pub(crate) fn part(&mut self, alloc: Global) -> bool
        ensures parted { result ≡ true → (farewell : List ℕ) × SlotParts (Follows P.rules) farewell self.old self.new }
        ensures same { result ≡ false → self.new ≡ self.old }
        ensures owes { result ≡ false → IfSome self.old.client OwesNothing }
    {
        let Some(client) = &mut self.client else {
            return false;
        };
        if client.status().withheld == 0 {
            return false;
        }
        client.part(alloc);
        true
    }

    /// Reads once from the stream of its client, whose session has to be over, and hears nothing of what came.
    pub(crate) fn discard(&mut self, buffer: &mut Vec<u8>) -> Option<usize>
        ensures bound { IfSome result (λ n. n ≤ vec_len buffer.new) }
        ensures discarded { IfSome result (λ n. SlotDiscards self.old self.new) }
        ensures none { IfNone result (self.new ≡ self.old) }
        ensures silent { IfNone result (IfSome self.old.client IsDrained) }
    {
        let Some(client) = &mut self.client else {
            return None;
        };
        if !client.status().over {
            return None;
        }
        client.discard(buffer)
    }
}
