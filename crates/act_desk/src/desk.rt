ghost use Rattle.std.specs.Prelude.{◌≡◌, ◌⊎◌, ◌+◌, ◌<◌, ◌≤◌, [], length, IfErr, IfOk, IfSome, OnErr, OnOk};
ghost use mathlib.Core.List.{IsPrefix};
ghost use Rattle.wf_value.specs.Gives.{no_memory};
ghost use Rattle.act_disk.specs.Failed.{device_failed};
ghost use Rattle.act_store.specs.Plain.{area_full, failed_earlier, history_full, old_layout};
ghost use Rattle.act_desk.specs.Answered.{unsettled};
ghost use Rattle.act_desk.specs.Begins.{IsCoveredAfter};
ghost use Rattle.act_desk.specs.Events.{covered_in, entries_in, told_in};
ghost use Rattle.act_desk.specs.Shown.{IsReplyTo, IsAnsweredBy};

use crate::desk_state::{DeskState, WakeReason};
use crate::flush::Flush;
use crate::ledgers::Ledgers;
use crate::locked::LockedStore;
use crate::named::Named;
use crate::pending::Pending;
use crate::prefix::HistoryPrefix;
use crate::seat::Seat;
use crate::seats::Seats;
use act_disk::Disk;
use act_store::Store;
use run_plan::{Command, Reply};
use std::alloc::Global;
use std::sync::ledger::Ledger;
use std::sync::{Condvar, CondvarTimeouts, Mutex, MutexGuard, Wait};
use std::time::{Clock, Duration, Instant};
use wf_value::Refusal;

/// A store under a lock, and seats that share it: many threads, one history.
///
/// One commit makes the entries of many seats durable. A seat whose entry is not covered becomes the leader if there is none. The leader
/// waits until no seat is entering a command or leaving with a covered reply, and then commits for all. The others sleep until then.
#[derive(Drop)]
pub struct Desk<D: Disk, E: Named, T: Ledger> {
    desk_state: Mutex<DeskState<D, E, T>>,
    /// A leader is done.
    signal: Condvar,
    /// As many seats as the leader waits for are back.
    gathered: Condvar,
    /// How many seats are in flight: entering a command, or leaving with a reply.
    in_flight: Mutex<u64>,
    /// No seat is in flight.
    quiesced: Condvar,
}

impl<D: Disk, E: Named, T: Ledger> Desk<D, E, T> {
    /// A desk over a store with an empty history. The ledgers get the names `E` and `T`, so it is called in a function that is generic
    /// over these. Takes no memory.
    pub fn new(store: Store<D>, ledgers: Ledgers) -> Desk<D, E, T>
        requires empty { store.history ≡ [] }
        requires base { store.base ≡ E.base }
        requires entries { (ledgers.entries.name ≡ E.name) × (E.parts ≡ 64) }
        requires replies { (ledgers.replies.name ≡ T.name) × (T.parts ≡ 64) }
        requires history { (ledgers.history.seen.book ≡ E.book) × (ledgers.history.token.nib.key ≡ E.first) }
    {
        let Ledgers {
            entries,
            replies,
            history,
        } = ledgers;
        let (entry_book, entry_shares) = entries.open::<E>();
        let (reply_book, reply_shares) = replies.open::<T>();
        let history = history.named::<E>();
        let seats = Seats::new(entry_shares, reply_shares, history.so_far());
        let locked = LockedStore::new(store, entry_book, reply_book, history);
        Desk {
            desk_state: Mutex::new(DeskState::new(locked, seats)),
            signal: Condvar::new(),
            gathered: Condvar::new(),
            in_flight: Mutex::new(0),
            quiesced: Condvar::new(),
        }
    }

    /// The store, with all its entries.
    pub fn into_store(self) -> Store<D>
        ensures { result.base ≡ E.base }
    {
        let (store, _whole) = self.into_parts();
        store
    }

    /// The store and the whole history, of which each seat's history is a prefix (`HistoryPrefix::begins`).
    pub fn into_parts(self) -> (Store<D>, HistoryPrefix<E>)
        ensures base { result.0.base ≡ E.base }
        ensures entries { entries_in result.1 ≡ result.0.history }
        ensures covered { covered_in result.1 ≤ result.0.covered }
    {
        let Desk { desk_state, .. } = self;
        let DeskState { locked, .. } = desk_state.into_inner();
        locked.into_parts()
    }

    /// A fresh seat, with a number from 0 to 63. `None` after 64 seats.
    /// Refusal (The store and the desk): `act_desk::Desk::seat`
    /// When: `None` after 64 seats; not earlier: T
    /// Afterwards: the desk is as it was: T
    /// By: none; the test `a_desk_has_64_seats`
    pub fn seat(&self, rt: &impl Wait) -> Option<Seat<E, T>>
        ensures { IfSome result (λ seat. (seat.number < 64) × (seat.entered ≡ 0) × (seat.released ≡ 0)) }
    {
        self.desk_state.lock(rt).seats.take()
    }

    /// Takes a seat back and returns its two shares: how many entries it has made, and how many replies it got. They stay counted, and its
    /// number is not reused.
    pub fn give_back(&self, seat: Seat<E, T>) -> (u64, u64)
        ensures { result ≡ (seat.entered, seat.released) }
    {
        (seat.entered(), seat.released())
    }

    /// Enters a command and withholds its reply. It is refused with 46, 47, 50, 52 or 57, as by `Store::apply`; then nothing was entered.
    ///
    /// The entry comes after every one that the seat had seen. To let it come after those that another seat was told of, call `Seat::learn`
    /// first.
    /// Refusal (The store and the desk): `act_desk::Desk::enter`, `act_desk::LockedStore::enter`
    /// When: 52, 46, 57, 47, 50 as `Store::apply`
    /// Afterwards: seat and store are as they were
    /// By: `refused`, `kind`, `cause`, `unchanged`
    pub fn enter(
        &self,
        rt: &impl Wait,
        alloc: Global,
        seat: &mut Seat<E, T>,
        command: Command,
    ) -> Result<Pending<E>, Refusal>
        ensures pending { IfOk result (λ p. (p.seat ≡ seat.old.number) × (p.command ≡ command) × (p.seen ≡ seat.new.seen)) }
        ensures after { IfOk result (λ p. length (entries_in seat.old.seen) < p.place) }
        ensures entered { OnOk result (seat.new.entered ≡ seat.old.entered + 1) }
        ensures unchanged { OnErr result (seat.new ≡ seat.old) }
        ensures cause { IfErr result (λ e. (e ≡ no_memory) ⊎ (e ≡ history_full) ⊎ (e ≡ old_layout) ⊎ (e ≡ area_full) ⊎ (e ≡ failed_earlier)) }
        ensures same { (seat.new.released ≡ seat.old.released) × (seat.new.number ≡ seat.old.number) × IsPrefix seat.old.seen seat.new.seen }
    {
        let _ = self.moves(rt, 1);
        let mut guard = self.desk_state.lock(rt);
        let desk_state = &mut *guard;
        let entered = desk_state.locked.enter(alloc, seat, command);
        drop(guard);
        self.moved(rt);
        entered
    }

    /// Returns the reply of an entered command once its entry is covered: it is covered already, or a leader covers it, or this seat
    /// leads.
    ///
    /// It is refused with 51 if this seat led and the device failed in its commit; with 52 if the device had failed before, as it had for
    /// each seat that slept while a leader failed with 51; and with 60 if as many replies are released as entries are covered. It is then
    /// unknown whether the entry exists, and no reply is released.
    ///
    /// What the seat has seen then says how many entries are covered and how many replies are released (`HistoryPrefix`). Only the value
    /// under the lock adds to that history, and what was seen of it holds of that value at any later moment (`LockedStore::recall`).
    /// Refusal (The store and the desk): `act_desk::Desk::cover`
    /// When: 51, 52, 60: of 51 and 52 the numbers alone, the rest under the lock. No seat causes 60: T
    /// Afterwards: the pending command is spent and its reply withheld; after 51, 52 the entry may be in the file
    /// By: `cause`, `unreleased`, `excess`; test `a_desk_keeps_a_history_of_20000_entries`
    pub fn cover<R: Wait + Clock>(
        &self,
        rt: &R,
        seat: &mut Seat<E, T>,
        pending: Pending<E>,
    ) -> Result<Reply, Refusal>
        ensures reply { IfOk result (λ reply. IsReplyTo pending.command reply × IsAnsweredBy (entries_in pending.seen) pending reply) }
        ensures covered { OnOk result (pending.place ≤ covered_in seat.new.seen) }
        ensures later { OnOk result (IsPrefix pending.seen seat.new.seen) }
        ensures released { OnOk result (seat.new.released ≡ seat.old.released + 1) }
        ensures unreleased { OnErr result (seat.new.released ≡ seat.old.released) }
        ensures cause { IfErr result (λ e. (e ≡ failed_earlier) ⊎ (e ≡ device_failed) ⊎ (e ≡ unsettled)) }
        ensures excess { IfErr result (λ e. e ≡ unsettled → covered_in seat.new.seen ≤ told_in seat.new.seen) }
        ensures same { (seat.new.entered ≡ seat.old.entered) × (seat.new.number ≡ seat.old.number) × IsPrefix seat.old.seen seat.new.seen }
    {
        let (mut guard, turn) = self.turn(rt, pending.place());
        let desk_state = &mut *guard;
        let began = Instant::now(rt).ok();
        let (answer, woken) = desk_state.finish(seat, pending, turn);
        let came = self.moves(rt, woken);
        if turn == WakeReason::Leads && answer.is_ok() {
            desk_state.linger.has_committed(since(rt, began), came);
        }
        drop(guard);
        match turn {
            WakeReason::Leads => self.signal.notify_all(),
            WakeReason::Woke => self.moved(rt),
            WakeReason::Found => {}
        }
        answer
    }

    /// Waits until the entry at a position is covered, or until its seat leads and no seat is in flight.
    fn turn<R: Wait + Clock>(
        &self,
        rt: &R,
        place: u64,
    ) -> (MutexGuard<'_, DeskState<D, E, T>>, WakeReason) {
        let mut guard = self.desk_state.lock(rt);
        if guard.is_covered(place) {
            return (guard, WakeReason::Found);
        }
        for _ in rt.forever() {
            if !guard.leading {
                break;
            }
            let turn = guard.sleeps();
            if guard.linger.is_over() {
                self.gathered.notify_one();
            }
            guard = self.signal.wait(rt, guard);
            let counted = guard.wakes(turn);
            if guard.is_covered(place) {
                return (
                    guard,
                    if counted {
                        WakeReason::Woke
                    } else {
                        WakeReason::Found
                    },
                );
            }
            if counted {
                self.moved(rt);
            }
        }
        guard.leads();
        self.linger(rt, guard);
        self.wait_until_quiesced(rt);
        (self.desk_state.lock(rt), WakeReason::Leads)
    }

    /// Waits until as many seats are back as expected, for at most half the duration of a commit.
    fn linger<R: Wait + Clock>(&self, rt: &R, guard: MutexGuard<'_, DeskState<D, E, T>>) {
        let mut guard = guard;
        if let Some(limit) = guard.linger.begins() {
            (guard, _) = self.gathered.wait_timeout(rt, guard, limit);
            guard.linger.ends();
        }
        drop(guard);
    }

    fn wait_until_quiesced(&self, rt: &impl Wait) {
        drop(
            self.quiesced
                .wait_while(rt, self.in_flight.lock(rt), |in_flight| *in_flight > 0),
        );
    }

    /// Adds `count` seats in flight. Returns how many there were before.
    fn moves(&self, rt: &impl Wait, count: u64) -> u64 {
        let mut in_flight = self.in_flight.lock(rt);
        let before = *in_flight;
        *in_flight = before.saturating_add(count);
        before
    }

    /// A seat has arrived.
    fn moved(&self, rt: &impl Wait) {
        let mut in_flight = self.in_flight.lock(rt);
        *in_flight = in_flight.saturating_sub(1);
        if *in_flight == 0 {
            self.quiesced.notify_one();
        }
    }

    /// Calls the store at most once, under the lock, for a flusher. Returns whether the store did what it was asked to do.
    ///
    /// Seats that wait for entries that this covers find them covered: their leader commits the rest and wakes all.
    pub(crate) fn flush(
        &self,
        rt: &impl Wait,
        alloc: Global,
        flush: &mut Flush,
    ) -> Result<bool, Refusal>
        ensures { IfErr result (λ e. (e ≡ device_failed) ⊎ (e ≡ failed_earlier)) }
    {
        let mut guard = self.desk_state.lock(rt);
        let desk_state = &mut *guard;
        flush.round(alloc, &mut desk_state.locked)
    }

    /// Waits until the number of covered entries differs from `covered` or the sessions have ended, for at most `most`. Returns true if
    /// neither happened.
    pub(crate) fn rest<R: Wait + Clock>(&self, rt: &R, covered: u64, most: Duration) -> bool {
        let mut guard = self.desk_state.lock(rt);
        if guard.has_news(covered) {
            return false;
        }
        (guard, _) = self.signal.wait_timeout(rt, guard, most);
        !guard.has_news(covered)
    }

    /// Wakes a waiting flusher to check whether it has to stop, once the sessions have ended.
    pub(crate) fn wake_flusher(&self, rt: &impl Wait) {
        self.desk_state.lock(rt).ended = true;
        self.signal.notify_all();
    }

    /// Enters a command, and returns its reply once its entry is covered.
    ///
    /// A refusal with 46, 47, 50 or 57 has entered nothing. After 51, 52 or 60 it is unknown whether the entry exists, and no reply was
    /// released. A reply means that the entry is covered, and that it comes after every one that the seat had seen before.
    /// Promise (One history for all sessions): `submit`: the reply is one that a step of this command gives; one entry and one reply more are
    ///   counted
    /// By: `act_desk::Desk::submit`, `reply`, `entered`, `released`
    /// Promise (One history for all sessions): After `submit` the entry of seat, command and reply is at a covered position of the history,
    ///   after all that the seat had seen or learned of from others
    /// By: `act_desk::Desk::submit`, `in_history` (`IsCoveredAfter`); `act_desk::Desk::enter`, `after`; `act_desk::Desk::cover`, `covered`,
    ///   `later`
    /// Refusal (The store and the desk): `act_desk::Desk::submit`
    /// When: 46, 47, 50, 57 as `enter`; 51, 52, 60 as `enter` and `cover`
    /// Afterwards: the first: nothing is entered. The others: the reply is withheld, and the entry may be in the history and in the file or not
    /// By: `refused`, `unreleased`, `may_enter`, `cause`, `excess`
    pub fn submit<R: Wait + Clock>(
        &self,
        rt: &R,
        alloc: Global,
        seat: &mut Seat<E, T>,
        command: Command,
    ) -> Result<Reply, Refusal>
        ensures reply { IfOk result (λ reply. IsReplyTo command reply) }
        ensures in_history { IfOk result (λ reply. IsCoveredAfter seat.old.seen seat.new.seen (record { seat = seat.old.number; command = command; reply = reply })) }
        ensures entered { OnOk result (seat.new.entered ≡ seat.old.entered + 1) }
        ensures released { OnOk result (seat.new.released ≡ seat.old.released + 1) }
        ensures unreleased { OnErr result (seat.new.released ≡ seat.old.released) }
        ensures may_enter { OnErr result ((seat.new.entered ≡ seat.old.entered) ⊎ (seat.new.entered ≡ seat.old.entered + 1)) }
        ensures refused { IfErr result (λ e. (e ≡ no_memory) ⊎ (e ≡ history_full) ⊎ (e ≡ old_layout) ⊎ (e ≡ area_full) → seat.new ≡ seat.old) }
        ensures cause { IfErr result (λ e. (e ≡ no_memory) ⊎ (e ≡ history_full) ⊎ (e ≡ old_layout) ⊎ (e ≡ area_full) ⊎ (e ≡ failed_earlier) ⊎ (e ≡ device_failed) ⊎ (e ≡ unsettled)) }
        ensures excess { IfErr result (λ e. e ≡ unsettled → covered_in seat.new.seen ≤ told_in seat.new.seen) }
        ensures seen { (seat.new.number ≡ seat.old.number) × IsPrefix seat.old.seen seat.new.seen }
    {
        let pending = self.enter(rt, alloc, seat, command)?;
        self.cover(rt, seat, pending)
    }
}

/// The time since then, or zero if no clock can be read.
fn since(clock: &impl Clock, began: Option<Instant>) -> Duration {
    match began {
        Some(began) => began.elapsed(clock).unwrap_or(Duration::ZERO),
        None => Duration::ZERO,
    }
}
