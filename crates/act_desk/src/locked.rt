ghost use Rattle.std.specs.Prelude.{◌≡◌, ◌⊎◌, ◌+◌, ◌-◌, ◌*◌, ◌<◌, ◌≤◌, ◌^◌, ℕ, List, [], ◌∷◌, ◌++◌, length, true, false, Err, IfErr, IfOk, IfSome, OnErr, OnOk};
ghost use mathlib.Core.List.{IsPrefix};
ghost use Rattle.wf_value.specs.Gives.{no_memory};
ghost use Rattle.act_disk.specs.Failed.{device_failed};
ghost use Rattle.definitions.specs.Disk.{EachSince};
ghost use Rattle.act_store.specs.Checkpoints.{IsFinished, begun_at, dropped, left_of, refusal_of_begin, refusal_of_finish, refusal_of_slice, sliced};
ghost use Rattle.act_store.specs.Entries.{IsLegal};
ghost use Rattle.act_store.specs.GroupsOfHistory.{KeepsGroups};
ghost use Rattle.act_store.specs.Images.{RecoversTo};
ghost use Rattle.act_store.specs.StoreState.{RecoversToEither, table_of};
ghost use Rattle.act_store.specs.declared.entry.Entry.{Entry};
ghost use Rattle.act_desk.specs.Answered.{unsettled};
ghost use Rattle.act_store.specs.Plain.{area_full, broken, committed, entered, failed_earlier, history_full, old_layout, refusal_of_apply};
ghost use Rattle.act_store.specs.FaultCauses.{TellsFault};
ghost use Rattle.act_store.specs.Checkpoints.{checkpoint_length};
ghost use Rattle.act_store.specs.Plain.{room_in};
ghost use Rattle.act_desk.specs.Events.{covered_in, entries_in, told_in};
ghost use Rattle.act_desk.specs.Shown.{IsReplyTo, IsAnsweredBy, Shows};

use crate::event::Event;
use crate::marks::{mark, tell_one};
use crate::named::Named;
use crate::pending::Pending;
use crate::prefix::{HistoryPrefix, HistoryWriter};
use crate::seat::Seat;
use act_disk::Disk;
use act_store::{Receipt, Store};
use run_plan::{Command, Reply};
use std::alloc::Global;
use std::marker::Model;
use std::snapshot::Snapshot;
use std::sync::ledger::{Book, Ledger};
use wf_value::{Code, Refusal};

/// The value under the lock of a desk: the store, the number of released replies, the books of two ledgers, and the history that seats see.
/// The seats' shares of entries add up to the length of the store's history. Their shares of replies add up to the number of released
/// replies, which is at most the number of covered entries.
#[derive(Drop)]
pub struct LockedStore<D: Disk, E: Named, T: Ledger> {
    store: Store<D>,
    released: u64,
    entries: Book<E>,
    replies: Book<T>,
    history: HistoryWriter<E>,
    /// How many covered entries the history knows of.
    marked: u64,
}

impl<D: Disk, E: Named, T: Ledger> Model for LockedStore<D, E, T> {
    ghost use Rattle.std.specs.Prelude.{◌≡◌, ◌+◌, ◌≤◌, length};
    ghost use Rattle.definitions.specs.Limits.{max_entries};
    ghost use Rattle.act_desk.specs.Events.{covered_in, entries_in, told_in};
    ghost use Rattle.act_desk.specs.Shown.{Shown};

    ghost Value = { Shown D };

    ghost view = { λ d. record { store = d.store; entered = d.entries.total; answered = d.replies.total; released = d.released } };

    ghost invariant = { λ d. (d.entries.total ≡ length d.store.history) × (d.replies.total ≡ d.released) × (d.released ≤ d.store.covered)
        × (length d.store.history ≤ max_entries) × (d.store.base ≡ E.base)
        × (entries_in d.history ≡ d.store.history) × (covered_in d.history ≡ d.marked) × (d.marked ≤ d.store.covered) × (told_in d.history ≡ d.released)
        × (length d.history ≤ length d.store.history + d.marked + d.released) };
}

impl<D: Disk, E: Named, T: Ledger> LockedStore<D, E, T> {
    pub(crate) fn new(
        store: Store<D>,
        entries: Book<E>,
        replies: Book<T>,
        history: HistoryWriter<E>,
    ) -> LockedStore<D, E, T>
        requires store { (store.history ≡ []) × (store.base ≡ E.base) }
        requires books { (entries.total ≡ 0) × (replies.total ≡ 0) }
        requires history { history ≡ [] }
        ensures { result ≡ record { store = store; entered = 0; answered = 0; released = 0 } }
    {
        LockedStore {
            store,
            released: 0,
            entries,
            replies,
            history,
            marked: 0,
        }
    }

    /// The store, and the whole history.
    pub fn into_parts(self) -> (Store<D>, HistoryPrefix<E>)
        ensures store { result.0 ≡ self.store }
        ensures base { result.0.base ≡ E.base }
        ensures entries { entries_in result.1 ≡ self.store.history }
        ensures covered { covered_in result.1 ≤ self.store.covered }
        ensures told { told_in result.1 ≡ self.released }
    {
        let LockedStore { store, history, .. } = self;
        let whole = history.so_far();
        (store, whole)
    }

    /// How many entries are covered. The clauses are the invariant of the lock.
    /// Promise (One history for all sessions): Under the lock: the history is legal, groups are lawful, and each image recovers to the covered
    ///   entries or to all
    /// By: `act_desk::LockedStore::covered`, `legal`, `groups`, `promise`
    /// Promise (One history for all sessions): The shares of all seats add up to the length of the history and to the number of released
    ///   replies, which is at most that of covered entries
    /// By: `act_desk::LockedStore::covered`, `entered`, `answered`, `released`
    pub fn covered(&self) -> u64
        ensures value { result ≡ self.now.store.covered }
        ensures within { self.now.store.covered ≤ length self.now.store.history }
        ensures base { self.now.store.base ≡ E.base }
        ensures legal { IsLegal self.now.store.base self.now.store.history }
        ensures groups { KeepsGroups self.now.store.base self.now.store.history }
        ensures promise { D.honest self.now.store.disk → (c : List ℕ) → D.images self.now.store.disk c → RecoversToEither self.now.store c }
        ensures entered { self.now.entered ≡ length self.now.store.history }
        ensures answered { self.now.answered ≡ self.now.released }
        ensures released { self.now.released ≤ self.now.store.covered }
    {
        self.store.covered()
    }

    /// Whether less than half of an area is left for the next record.
    pub fn is_pressed(&self) -> bool
        ensures pressed { result ≡ true → 2 * room_in self.now.store < self.now.store.area }
        ensures free { result ≡ false → self.now.store.area ≤ 2 * room_in self.now.store }
    {
        let (area, room) = (self.store.area(), self.store.room());
        room < area - room
    }

    /// Begins a checkpoint of the store, as `Store::check_begin` does. It enters no command and releases no reply.
    /// Promise (One history for all sessions): The steps of a checkpoint under the lock are the store's, and leave history, seats and replies as
    ///   they were
    /// By: `act_desk::LockedStore::{check_begin, check_slice, check_finish}`, `any_moment`, `begun`, `sliced`, `finished`, `refused`, `cause`,
    ///   `faults`, `same`, `history`
    /// Refusal (The store and the desk): `act_desk::LockedStore::{check_begin, check_slice, check_finish}`
    /// When: as the call of the store
    /// Afterwards: as of that call; history, seats and replies are as they were
    /// By: `refused`, `cause`, `faults`, `unchanged`, `dropped`, `broken`, `same`, `history`
    pub fn check_begin(&mut self, alloc: Global) -> Result<u64, Refusal>
        ensures any_moment { D.honest self.old.store.disk
            → EachSince D.moment D.images_since self.old.store.disk self.new.store.disk (RecoversToEither self.old.store) }
        ensures begun { OnOk result (self.new.store ≡ begun_at self.old.store self.new.store.disk) }
        ensures left { IfOk result (λ left. left ≡ checkpoint_length self.old.store) }
        ensures faults { TellsFault result (D.fault_count self.old.store.disk) (D.fault_count self.new.store.disk) }
        ensures refused { IfSome (refusal_of_begin self.old.store) (λ refusal. result ≡ Err refusal) }
        ensures cause { IfErr result (λ e. (e ≡ no_memory) ⊎ (e ≡ device_failed) ⊎ (refusal_of_begin self.old.store ≡ Some e)) }
        ensures broken { result ≡ Err device_failed → self.new.store ≡ broken self.old.store self.new.store.disk }
        ensures unchanged { IfErr result (λ e. (e ≡ device_failed → ⊥) → self.new ≡ self.old) }
        ensures same { self.new ≡ record self.old { store = self.new.store } }
        ensures history { (self.new.store.history ≡ self.old.store.history) × (self.new.store.base ≡ self.old.store.base) }
    {
        self.store.check_begin(alloc)
    }

    /// Writes a slice of the checkpoint in progress, as `Store::check_slice` does.
    pub fn check_slice(&mut self) -> Result<u64, Refusal>
        ensures any_moment { D.honest self.old.store.disk
            → EachSince D.moment D.images_since self.old.store.disk self.new.store.disk (RecoversToEither self.old.store) }
        ensures sliced { OnOk result (self.new.store ≡ sliced self.old.store self.new.store.disk) }
        ensures left { IfOk result (λ left. left ≡ left_of self.new.store.begun) }
        ensures faults { TellsFault result (D.fault_count self.old.store.disk) (D.fault_count self.new.store.disk) }
        ensures refused { IfSome (refusal_of_slice self.old.store) (λ refusal. (result ≡ Err refusal) × (self.new ≡ self.old)) }
        ensures cause { IfErr result (λ e. (e ≡ device_failed) ⊎ (refusal_of_slice self.old.store ≡ Some e)) }
        ensures broken { result ≡ Err device_failed → self.new.store ≡ broken self.old.store self.new.store.disk }
        ensures same { self.new ≡ record self.old { store = self.new.store } }
        ensures history { (self.new.store.history ≡ self.old.store.history) × (self.new.store.base ≡ self.old.store.base) }
    {
        self.store.check_slice()
    }

    /// Finishes the checkpoint in progress, as `Store::check_finish` does. The replies of the entries that it covers are still withheld.
    pub fn check_finish(&mut self, alloc: Global) -> Result<u64, Refusal>
        ensures any_moment { D.honest self.old.store.disk
            → EachSince D.moment D.images_since self.old.store.disk self.new.store.disk (RecoversToEither self.old.store) }
        ensures stands { OnOk result (D.honest self.new.store.disk → (c : List ℕ) → D.images self.new.store.disk c → RecoversTo (table_of self.old.store) c) }
        ensures finished { OnOk result (IsFinished self.old.store self.new.store) }
        ensures count { IfOk result (λ count. count ≡ length self.old.store.history) }
        ensures covered { OnOk result (self.new.store.covered ≡ length self.old.store.history) }
        ensures faults { TellsFault result (D.fault_count self.old.store.disk) (D.fault_count self.new.store.disk) }
        ensures refused { IfSome (refusal_of_finish self.old.store) (λ refusal. result ≡ Err refusal) }
        ensures dropped { result ≡ Err area_full → self.new.store ≡ dropped self.old.store }
        ensures broken { result ≡ Err device_failed → self.new.store ≡ broken self.old.store self.new.store.disk }
        ensures unchanged { IfErr result (λ e. (e ≡ device_failed → ⊥) → (e ≡ area_full → ⊥) → self.new ≡ self.old) }
        ensures cause { IfErr result (λ e. (e ≡ device_failed) ⊎ (refusal_of_finish self.old.store ≡ Some e)) }
        ensures same { self.new ≡ record self.old { store = self.new.store } }
        ensures history { (self.new.store.history ≡ self.old.store.history) × (self.new.store.base ≡ self.old.store.base) }
    {
        self.store.check_finish(alloc)
    }

    /// Enters a command for a seat and withholds its reply. It makes no device call. The seat sees the whole history, which ends with the
    /// entry.
    ///
    /// It is refused as by `Store::apply`, with 52, 46, 57, 47 or 50; then nothing changes.
    /// Promise (One history for all sessions): Entering changes the store as `Store::apply` does
    /// By: `act_desk::LockedStore::enter`, `entered`
    /// Promise (One history for all sessions): Only the value under the lock adds to what seats can see
    /// By: `act_desk::LockedStore::{enter, cover}`, `whole` (`Shows`)
    #[tactic(auto, using(crate::proofs::Causes::causes))]
    pub fn enter(
        &mut self,
        alloc: Global,
        seat: &mut Seat<E, T>,
        command: Command,
    ) -> Result<Pending<E>, Refusal>
        ensures entered { OnOk result (self.new.store ≡ entered self.old.store seat.old.number command) }
        ensures pending { IfOk result (λ p. (p.seat ≡ seat.old.number) × (p.command ≡ command) × (p.place ≡ length self.new.store.history)) }
        ensures seen { IfOk result (λ p. p.seen ≡ seat.new.seen) }
        ensures after { IfOk result (λ p. length (entries_in seat.old.seen) < p.place) }
        ensures whole { OnOk result (Shows seat.new.seen self.new.store self.new.released) }
        ensures counted { OnOk result (seat.new.entered ≡ seat.old.entered + 1) }
        ensures same { (seat.new.released ≡ seat.old.released) × (seat.new.number ≡ seat.old.number) × IsPrefix seat.old.seen seat.new.seen }
        ensures released { self.new.released ≡ self.old.released }
        ensures refused { IfSome (refusal_of_apply self.old.store command) (λ refusal. OnOk result ⊥ × IfErr result (λ e. e ≡ refusal)) }
        ensures cause { IfErr result (λ e. (e ≡ no_memory) ⊎ (refusal_of_apply self.old.store command ≡ Some e)) }
        ensures kind { IfErr result (λ e. (e ≡ no_memory) ⊎ (e ≡ history_full) ⊎ (e ≡ old_layout) ⊎ (e ≡ area_full) ⊎ (e ≡ failed_earlier)) }
        ensures unchanged { OnErr result ((self.new ≡ self.old) × (seat.new ≡ seat.old)) }
    {
        let asked = Snapshot::of(&command);
        let number = seat.number();
        let covered = self.store.covered();
        let LockedStore {
            store,
            entries,
            history,
            marked,
            ..
        } = self;
        let receipt = store.apply(alloc, number, command)?;
        seat.count_entry(entries);
        history.recall(seat.prefix());
        mark(history, marked, covered);
        note_last(history, store);
        seat.see(history);
        Ok(Pending {
            seat: number,
            command: asked,
            receipt,
            prefix: history.so_far(),
        })
    }

    /// Makes the entry of a pending command durable, unless it is covered, and releases its reply. For a covered entry it makes no device
    /// call. At each moment of the call the disk recovers to the entries that were covered, or to all.
    ///
    /// The result is 52 if the device failed earlier and the entry is not covered, 51 if it fails in this call, and 60 if as many replies
    /// are released as entries are covered, which no history of this desk reaches. A refusal counts no reply.
    /// Promise (One history for all sessions): A released reply is the one with which the entry of this seat and command is in the history, and
    ///   the entry is covered
    /// By: `act_desk::LockedStore::cover`, `stands`, `covered`
    /// Promise (One history for all sessions): If an entry was covered before its reply is released, no device is called; else the store is
    ///   committed, or broken. At each moment the disk recovers to the entries covered before, or to all
    /// By: `act_desk::LockedStore::cover`, `no_call`, `committed`, `broken`, `any_moment`
    /// Refusal (The store and the desk): `act_desk::LockedStore::cover`
    /// When: 51: only if the device failed in this call. 52: only if it had failed before
    /// Afterwards: the entry may be in the file or not
    /// By: `fault`, `failed`, `history`; `act_store::Store::commit`, `broken`, `failed`
    /// Refusal (The store and the desk): `act_desk::LockedStore::cover`
    /// When: 60: only if as many replies are released as entries are covered, which the seat has then seen
    /// Afterwards: the entry is as far as it is covered
    /// By: `excess`, `history`
    pub fn cover(&mut self, seat: &mut Seat<E, T>, pending: Pending<E>) -> Result<Reply, Refusal>
        ensures any_moment { D.honest self.old.store.disk
            → EachSince D.moment D.images_since self.old.store.disk self.new.store.disk (RecoversToEither self.old.store) }
        ensures reply { IfOk result (λ reply. IsReplyTo pending.command reply × IsAnsweredBy (entries_in pending.seen) pending reply) }
        ensures stands { IfOk result (λ reply. IsAnsweredBy self.new.store.history pending reply) }
        ensures covered { OnOk result (pending.place ≤ self.new.store.covered) }
        ensures released { OnOk result ((seat.new.released ≡ seat.old.released + 1) × (self.new.released ≡ self.old.released + 1)) }
        ensures unreleased { OnErr result ((seat.new.released ≡ seat.old.released) × (self.new.released ≡ self.old.released)) }
        ensures same { (seat.new.entered ≡ seat.old.entered) × (seat.new.number ≡ seat.old.number) × IsPrefix seat.old.seen seat.new.seen }
        ensures whole { OnOk result (Shows seat.new.seen self.new.store self.new.released) }
        ensures later { OnOk result (IsPrefix pending.seen seat.new.seen) }
        ensures history { (self.new.store.history ≡ self.old.store.history) × (self.new.store.base ≡ self.old.store.base) }
        ensures no_call { pending.place ≤ self.old.store.covered → self.new.store ≡ self.old.store }
        ensures committed { OnOk result (self.old.store.covered < pending.place → self.new.store ≡ committed self.old.store self.new.store.disk) }
        ensures broken { result ≡ Err device_failed → self.new.store ≡ broken self.old.store self.new.store.disk }
        ensures cause { IfErr result (λ e. (e ≡ failed_earlier) ⊎ (e ≡ device_failed) ⊎ (e ≡ unsettled)) }
        ensures failed { IfErr result (λ e. e ≡ failed_earlier → (self.old.store.failed ≡ true) × (self.new.store ≡ self.old.store)) }
        ensures fault { IfErr result (λ e. e ≡ device_failed → D.fault_count self.new.store.disk ≡ D.fault_count self.old.store.disk + 1) }
        ensures shown { OnOk result (pending.place ≤ covered_in seat.new.seen) }
        ensures excess { IfErr result (λ e. e ≡ unsettled → self.new.store.covered ≤ self.new.released) }
        ensures excess_shown { IfErr result (λ e. e ≡ unsettled → covered_in seat.new.seen ≤ told_in seat.new.seen) }
    {
        let place = pending.place();
        self.recall(&pending.prefix);
        if let Err(refusal) = self.reach(place) {
            pending.spend();
            return Err(refusal);
        }
        self.tell(seat, pending)
    }

    /// Whatever was seen of the history still holds: its entries are the first ones of the store, as many as were covered are covered, and
    /// as many replies as were released are released.
    /// Promise (One history for all sessions): At any later moment what was seen is true of that value: the entries are its first ones, and at
    ///   least as many are covered and at least as many replies released
    /// By: `act_desk::LockedStore::recall`, `entries`, `covered`, `released`
    pub fn recall(&mut self, seen: &HistoryPrefix<E>)
        ensures same { self.new ≡ self.old }
        ensures entries { IsPrefix (entries_in seen.now) self.old.store.history }
        ensures len { length (entries_in seen.now) ≤ length self.old.store.history }
        ensures covered { covered_in seen.now ≤ self.old.store.covered }
        ensures released { told_in seen.now ≤ self.old.released }
    {
        self.history.recall(seen);
    }

    /// Makes all entries durable, unless those up to a position are covered.
    fn reach(&mut self, place: u64) -> Result<(), Refusal>
        requires { place ≤ length self.old.store.history }
        ensures any_moment { D.honest self.old.store.disk
            → EachSince D.moment D.images_since self.old.store.disk self.new.store.disk (RecoversToEither self.old.store) }
        ensures covered { OnOk result (place ≤ self.new.store.covered) }
        ensures same { self.new ≡ record self.old { store = self.new.store } }
        ensures history { (self.new.store.history ≡ self.old.store.history) × (self.new.store.base ≡ self.old.store.base) }
        ensures no_call { place ≤ self.old.store.covered → self.new.store ≡ self.old.store }
        ensures committed { OnOk result (self.old.store.covered < place → self.new.store ≡ committed self.old.store self.new.store.disk) }
        ensures broken { result ≡ Err device_failed → self.new.store ≡ broken self.old.store self.new.store.disk }
        ensures cause { IfErr result (λ e. ((e ≡ failed_earlier) × (self.old.store.failed ≡ true) × (self.new.store ≡ self.old.store))
            ⊎ ((e ≡ device_failed) × (D.fault_count self.new.store.disk ≡ D.fault_count self.old.store.disk + 1))) }
    {
        if self.store.covered() < place {
            self.store.commit()?;
        } else {
            stays(&self.store);
        }
        Ok(())
    }

    /// Releases the reply of a pending command whose entry is covered. It is refused with 60 if as many replies are released as entries are
    /// covered. The seat sees the whole history.
    #[tactic(auto, using(crate::proofs::Prefixes::prefix_get))]
    fn tell(&mut self, seat: &mut Seat<E, T>, pending: Pending<E>) -> Result<Reply, Refusal>
        requires { pending.place ≤ self.old.store.covered }
        ensures reply { IfOk result (λ reply. IsReplyTo pending.command reply × IsAnsweredBy (entries_in pending.seen) pending reply) }
        ensures stands { IfOk result (λ reply. IsAnsweredBy self.old.store.history pending reply) }
        ensures released { OnOk result ((seat.new.released ≡ seat.old.released + 1)
            × (self.new ≡ record self.old { released = self.old.released + 1; answered = self.old.answered + 1 })) }
        ensures unreleased { OnErr result ((seat.new.released ≡ seat.old.released) × (self.new ≡ self.old)) }
        ensures same { (seat.new.entered ≡ seat.old.entered) × (seat.new.number ≡ seat.old.number) × IsPrefix seat.old.seen seat.new.seen }
        ensures whole { Shows seat.new.seen self.new.store self.new.released }
        ensures later { OnOk result (IsPrefix pending.seen seat.new.seen) }
        ensures refused { IfErr result (λ e. e ≡ unsettled) }
        ensures shown { OnOk result (pending.place ≤ covered_in seat.new.seen) }
        ensures excess { OnErr result (self.old.store.covered ≤ self.old.released) }
        ensures excess_shown { OnErr result (covered_in seat.new.seen ≤ told_in seat.new.seen) }
    {
        let covered = self.store.covered();
        let is_excess = self.released >= covered;
        let LockedStore {
            released,
            replies,
            history,
            marked,
            ..
        } = self;
        mark(history, marked, covered);
        if is_excess {
            pending.spend();
            seat.see(history);
            return Err(Refusal::Numbered(Code::Unsettled));
        }
        seat.count_reply(replies);
        *released += 1;
        tell_one(history);
        history.recall(&pending.prefix);
        seat.see(history);
        let Pending {
            seat: _,
            command: _,
            receipt: Receipt { reply, .. },
            prefix: _,
        } = pending;
        Ok(reply)
    }
}

/// Between two calls of the device the images are those of this moment.
fn stays<D: Disk>(store: &Store<D>)
    ensures { D.honest store.now.disk → EachSince D.moment D.images_since store.now.disk store.now.disk (RecoversToEither store.now) }
{
    store.covered();
}

/// Notes the last entry of a store in the history that has all entries before it.
#[tactic(auto, using(crate::proofs::Eventful::entries_more, crate::proofs::Eventful::covered_more, crate::proofs::Eventful::told_more))]
fn note_last<D: Disk, E: Named>(history: &mut HistoryWriter<E>, store: &Store<D>)
    requires last { (e : Entry) × (store.now.history ≡ entries_in history.old ++ e ∷ []) }
    requires few { length history.old < 2 ^ 62 }
    ensures entries { entries_in history.new ≡ store.now.history }
    ensures covered { covered_in history.new ≡ covered_in history.old }
    ensures told { told_in history.new ≡ told_in history.old }
    ensures len { length history.new ≡ length history.old + 1 }
{
    if let Some(entry) = store.entry(store.entries()) {
        history.add(Event::Entered(Snapshot::of(entry)));
    }
}
