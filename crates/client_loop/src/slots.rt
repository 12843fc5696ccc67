ghost use Rattle.std.specs.Prelude.{◌≡◌, ◌≤◌, ◌<◌, ◌↔◌, ◌+◌, ℕ, List, [], IfNone, IfOk, IfSome, IsSome, IsTrue, length, replicate, take, true, false, vec_len};
ghost use Rattle.client_loop.specs.Clients.{IsDrained, IsOver, IsParted, IsSilent, OwesNothing};
ghost use Rattle.client_loop.specs.Clients.{SlotDiscards, SlotHears, SlotJoins, SlotLeaves, SlotParts, SlotSends, free_slot, wire_of};
ghost use Rattle.client_loop.specs.Slots.{AreFree, ChangesSlot, OfClient, by_port, status_at};

use crate::slot::Slot;
use crate::status::ClientStatus;
use crate::stream::Stream;
use act_disk::Disk;
use act_sessions::Protocol;
use act_store::Store;
use std::alloc::{AllocError, Global};
use std::marker::Model;

/// The slots of two ports under one numbering: first those of hooks, then those of runners. The number of a slot is that of its clients'
/// entries.
#[derive(Drop)]
pub struct Slots<P: Protocol, Q: Protocol, S: Stream> {
    hooks: Vec<Slot<P, S>>,
    runners: Vec<Slot<Q, S>>,
}

impl<P: Protocol, Q: Protocol, S: Stream> Model for Slots<P, Q, S> {
    ghost use Rattle.std.specs.Prelude.{◌++◌, length, ⊤};
    ghost use Rattle.client_loop.specs.Slots.{SlotsState};

    ghost Value = { SlotsState };

    ghost view = { λ s. record { hooks = length s.hooks.items; all = s.hooks.items ++ s.runners.items } };

    ghost invariant = { λ s. ⊤ };
}

/// Slots that no client has had.
fn free_slots<P: Protocol, S: Stream>(
    alloc: Global,
    count: usize,
) -> Result<Vec<Slot<P, S>>, AllocError>
    ensures { IfOk result (λ slots. slots.items ≡ replicate count free_slot) }
{
    let mut slots = Vec::new(alloc);
    for _i in 0..count {
        slots.push(Slot::new())?;
    }
    Ok(slots)
}

impl<P: Protocol, Q: Protocol, S: Stream> Slots<P, Q, S> {
    /// So many slots of each port that no client has had.
    pub fn new(alloc: Global, hooks: usize, runners: usize) -> Result<Slots<P, Q, S>, AllocError>
        ensures hooks { IfOk result (λ slots. slots.hooks ≡ hooks) }
        ensures all { IfOk result (λ slots. length slots.all ≡ hooks + runners) }
        ensures free { IfOk result (λ slots. AreFree slots.all) }
    {
        let hooks = free_slots(alloc, hooks)?;
        let runners = free_slots(alloc, runners)?;
        Ok(Slots { hooks, runners })
    }

    /// Whether there is a slot with this number.
    pub(crate) fn has(&self, index: usize) -> bool
        ensures { IsTrue result ↔ (index < length self.now.all) }
    {
        index < self.hooks.len() || index - self.hooks.len() < self.runners.len()
    }

    /// How the client of a slot stands.
    pub(crate) fn status(&self, index: usize) -> Option<ClientStatus>
        requires { index < length self.now.all }
        ensures { result ≡ status_at self.now index }
    {
        if index < self.hooks.len() {
            self.hooks[index].status()
        } else {
            self.runners[index - self.hooks.len()].status()
        }
    }

    /// The stream of the client of a slot.
    pub(crate) fn stream(&self, index: usize) -> Option<&S>
        requires { index < length self.now.all }
    {
        if index < self.hooks.len() {
            self.hooks[index].stream()
        } else {
            self.runners[index - self.hooks.len()].stream()
        }
    }

    /// Gives a slot to a new client with its stream, unless it is taken.
    pub(crate) fn join(&mut self, alloc: Global, index: usize, stream: S) -> bool
        requires { index < length self.old.all }
        ensures joined { result ≡ true → ChangesSlot (SlotJoins (wire_of S.remaining S.contents stream)) index self.old self.new }
        ensures taken { result ≡ false → IsSome (status_at self.old index) × (self.new ≡ self.old) }
    {
        if index < self.hooks.len() {
            self.hooks[index].join(alloc, stream)
        } else {
            let runner = index - self.hooks.len();
            self.runners[runner].join(alloc, stream)
        }
    }

    /// Frees a slot, closes its client's stream, and frees the memory of its session.
    pub(crate) fn leave(&mut self, index: usize)
        requires { index < length self.old.all }
        ensures { ChangesSlot SlotLeaves index self.old self.new }
    {
        if index < self.hooks.len() {
            self.hooks[index].leave();
        } else {
            let runner = index - self.hooks.len();
            self.runners[runner].leave();
        }
    }

    /// Reads once from the stream of the client of a slot, and hears what came, if its session goes on.
    pub(crate) fn hear_from<D: Disk>(
        &mut self,
        alloc: Global,
        store: &mut Store<D>,
        index: usize,
        buffer: &mut Vec<u8>,
    ) -> Option<usize>
        requires { index < length self.old.all }
        ensures bound { IfSome result (λ n. n ≤ vec_len buffer.new) }
        ensures heard { IfSome result (λ n. ChangesSlot
            (SlotHears (by_port self.old.hooks P.rules Q.rules index) index (take n buffer.new.items) store.old store.new) index self.old self.new) }
        ensures none { IfNone result ((self.new ≡ self.old) × (store.new ≡ store.old)) }
        ensures silent { IfNone result (OfClient IsSilent self.old index) }
    {
        if index < self.hooks.len() {
            self.hooks[index].hear_from(alloc, store, index as u64, buffer)
        } else {
            let runner = index - self.hooks.len();
            self.runners[runner].hear_from(alloc, store, index as u64, buffer)
        }
    }

    /// Continues with what the client of a slot has sent before, if its session goes on. Returns whether it does.
    pub(crate) fn go_on<D: Disk>(
        &mut self,
        alloc: Global,
        store: &mut Store<D>,
        index: usize,
    ) -> bool
        requires { index < length self.old.all }
        ensures heard { result ≡ true → ChangesSlot (SlotHears (by_port self.old.hooks P.rules Q.rules index) index [] store.old store.new)
            index self.old self.new }
        ensures same { result ≡ false → (self.new ≡ self.old) × (store.new ≡ store.old) }
        ensures over { result ≡ false → OfClient IsOver self.old index }
    {
        if index < self.hooks.len() {
            self.hooks[index].go_on(alloc, store, index as u64)
        } else {
            let runner = index - self.hooks.len();
            self.runners[runner].go_on(alloc, store, index as u64)
        }
    }

    /// Writes the bytes that are withheld from the client of a slot to its stream, and returns how many of them were sent; `None` if there is
    /// no client, or the service has parted with it.
    pub(crate) fn send_to(&mut self, index: usize) -> Option<usize>
        requires { index < length self.old.all }
        ensures sent { IfSome result (λ n. ChangesSlot (SlotSends (by_port self.old.hooks P.rules Q.rules index) n) index self.old self.new) }
        ensures none { IfNone result (self.new ≡ self.old) }
        ensures parted { IfNone result (OfClient IsParted self.old index) }
    {
        if index < self.hooks.len() {
            self.hooks[index].send_to()
        } else {
            let runner = index - self.hooks.len();
            self.runners[runner].send_to()
        }
    }

    /// Parts with the client of a slot, if bytes are withheld from it. Returns whether it did.
    pub(crate) fn part(&mut self, alloc: Global, index: usize) -> bool
        requires { index < length self.old.all }
        ensures parted { result ≡ true → (farewell : List ℕ)
            × ChangesSlot (SlotParts (by_port self.old.hooks P.rules Q.rules index) farewell) index self.old self.new }
        ensures same { result ≡ false → self.new ≡ self.old }
        ensures owes { result ≡ false → OfClient OwesNothing self.old index }
    {
        if index < self.hooks.len() {
            self.hooks[index].part(alloc)
        } else {
            let runner = index - self.hooks.len();
            self.runners[runner].part(alloc)
        }
    }

    /// Reads once from the stream of the client of a slot, whose session has to be over, and hears nothing of what came.
    pub(crate) fn discard(&mut self, index: usize, buffer: &mut Vec<u8>) -> Option<usize>
        requires { index < length self.old.all }
        ensures bound { IfSome result (λ n. n ≤ vec_len buffer.new) }
        ensures discarded { IfSome result (λ n. ChangesSlot SlotDiscards index self.old self.new) }
        ensures none { IfNone result (self.new ≡ self.old) }
        ensures silent { IfNone result (OfClient IsDrained self.old index) }
    {
        if index < self.hooks.len() {
            self.hooks[index].discard(buffer)
        } else {
            let runner = index - self.hooks.len();
            self.runners[runner].discard(buffer)
        }
    }
}
