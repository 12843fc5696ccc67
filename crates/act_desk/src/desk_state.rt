ghost use Rattle.std.specs.Prelude.{◌≡◌, ◌⊎◌, ◌+◌, ◌≤◌, IfErr, IfOk, OnErr, OnOk};
ghost use mathlib.Core.List.{IsPrefix};
ghost use Rattle.act_disk.specs.Failed.{device_failed};
ghost use Rattle.act_store.specs.Plain.{failed_earlier};
ghost use Rattle.act_desk.specs.Answered.{unsettled};
ghost use Rattle.act_desk.specs.Events.{covered_in, entries_in, told_in};
ghost use Rattle.act_desk.specs.Shown.{IsReplyTo, IsAnsweredBy};

use crate::linger::Linger;
use crate::locked::LockedStore;
use crate::named::Named;
use crate::pending::Pending;
use crate::seat::Seat;
use crate::seats::Seats;
use act_disk::Disk;
use run_plan::Reply;
use std::sync::ledger::Ledger;
use wf_value::Refusal;

/// How a seat came to hold the lock for its reply.
#[derive(Clone, Copy, Debug, PartialEq, Eq)]
pub(crate) enum WakeReason {
    /// Its entry was covered.
    Found,
    /// It slept, and a leader that covered its entry counted it as in flight.
    Woke,
    /// It commits for all.
    Leads,
}

/// The state under the lock of a desk: the value that contracts see, the remaining seats, and whether a seat leads.
#[derive(Drop)]
pub(crate) struct DeskState<D: Disk, E: Named, T: Ledger> {
    pub(crate) locked: LockedStore<D, E, T>,
    pub(crate) seats: Seats<E, T>,
    pub(crate) leading: bool,
    /// How many seats sleep until a leader has committed.
    waiting: u64,
    /// How often a leader has counted the sleeping seats.
    turns: u64,
    /// The sessions have ended, so a flusher no longer waits.
    pub(crate) ended: bool,
    pub(crate) linger: Linger,
}

impl<D: Disk, E: Named, T: Ledger> DeskState<D, E, T> {
    pub(crate) fn new(locked: LockedStore<D, E, T>, seats: Seats<E, T>) -> DeskState<D, E, T> {
        DeskState {
            locked,
            seats,
            leading: false,
            waiting: 0,
            turns: 0,
            ended: false,
            linger: Linger::new(),
        }
    }

    pub(crate) fn is_covered(&self, place: u64) -> bool {
        self.locked.covered() >= place
    }

    /// Whether the number of covered entries differs from `covered`, or the sessions have ended.
    pub(crate) fn has_news(&self, covered: u64) -> bool {
        self.ended || self.locked.covered() != covered
    }

    /// A seat goes to sleep. Returns the current number of `turns`.
    pub(crate) fn sleeps(&mut self) -> u64 {
        self.waiting = self.waiting.saturating_add(1);
        self.linger.comes();
        self.turns
    }

    /// A seat wakes from a sleep that began at this number of `turns`. Returns whether a leader has counted it as in flight.
    pub(crate) fn wakes(&mut self, turn: u64) -> bool {
        if self.turns != turn {
            return true;
        }
        self.waiting = self.waiting.saturating_sub(1);
        self.linger.goes();
        false
    }

    /// A seat becomes the leader.
    pub(crate) fn leads(&mut self) {
        self.leading = true;
        self.linger.comes();
    }

    /// Covers the entry, unless it is covered, and returns its reply. A leader stops leading; after a commit it also returns how many
    /// sleeping seats are now covered.
    pub(crate) fn finish(
        &mut self,
        seat: &mut Seat<E, T>,
        pending: Pending<E>,
        turn: WakeReason,
    ) -> (Result<Reply, Refusal>, u64)
        ensures reply { IfOk result.0 (λ reply. IsReplyTo pending.command reply × IsAnsweredBy (entries_in pending.seen) pending reply) }
        ensures covered { OnOk result.0 (pending.place ≤ covered_in seat.new.seen) }
        ensures later { OnOk result.0 (IsPrefix pending.seen seat.new.seen) }
        ensures released { OnOk result.0 (seat.new.released ≡ seat.old.released + 1) }
        ensures unreleased { OnErr result.0 (seat.new.released ≡ seat.old.released) }
        ensures cause { IfErr result.0 (λ e. (e ≡ failed_earlier) ⊎ (e ≡ device_failed) ⊎ (e ≡ unsettled)) }
        ensures excess { IfErr result.0 (λ e. e ≡ unsettled → covered_in seat.new.seen ≤ told_in seat.new.seen) }
        ensures same { (seat.new.entered ≡ seat.old.entered) × (seat.new.number ≡ seat.old.number) × IsPrefix seat.old.seen seat.new.seen }
    {
        let answer = self.locked.cover(seat, pending);
        if turn != WakeReason::Leads {
            return (answer, 0);
        }
        self.leading = false;
        let woken = if answer.is_ok() { self.counts() } else { 0 };
        (answer, woken)
    }

    /// Counts the sleeping seats, which are in flight from this moment.
    fn counts(&mut self) -> u64 {
        let woken = self.waiting;
        self.waiting = 0;
        self.turns = self.turns.wrapping_add(1);
        woken
    }
}
