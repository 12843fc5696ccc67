ghost use Rattle.std.specs.Prelude.{◌≡◌, ◌+◌, ◌<◌, ◌≤◌, MatchOption};

use crate::ledgers::MAX_SEATS;
use crate::named::Named;
use crate::prefix::HistoryPrefix;
use crate::seat::Seat;
use std::marker::Model;
use std::sync::ledger::{Ledger, Share};

/// The remaining seats. Contracts see the number of the next one.
#[derive(Drop)]
pub(crate) struct Seats<E: Named, T: Ledger> {
    next: u64,
    /// A share for each remaining seat.
    entries: Share<E>,
    replies: Share<T>,
    /// What a new seat knows of the history.
    prefix: HistoryPrefix<E>,
}

impl<E: Named, T: Ledger> Model for Seats<E, T> {
    ghost use Rattle.std.specs.Prelude.{◌≡◌, ◌+◌, ℕ};

    ghost Value = { ℕ };

    ghost view = { λ s. s.next };

    ghost invariant = { λ s. (s.next + s.entries.parts ≡ 64) × (s.entries.amount ≡ 0) × (s.next + s.replies.parts ≡ 64) × (s.replies.amount ≡ 0) };
}

impl<E: Named, T: Ledger> Seats<E, T> {
    pub(crate) fn new(entries: Share<E>, replies: Share<T>, prefix: HistoryPrefix<E>) -> Seats<E, T>
        requires entries { (entries.parts ≡ 64) × (entries.amount ≡ 0) }
        requires replies { (replies.parts ≡ 64) × (replies.amount ≡ 0) }
        ensures { result ≡ 0 }
    {
        Seats {
            next: 0,
            entries,
            replies,
            prefix,
        }
    }

    /// The next seat, which has entered nothing, or `None` after 64 seats.
    pub(crate) fn take(&mut self) -> Option<Seat<E, T>>
        ensures { MatchOption result
            ((64 ≤ self.old) × (self.new ≡ self.old))
            (λ seat. (self.old < 64) × (self.new ≡ self.old + 1) × (seat.number ≡ self.old) × (seat.entered ≡ 0) × (seat.released ≡ 0)) }
    {
        if self.next >= MAX_SEATS {
            return None;
        }
        let number = self.next;
        self.next += 1;
        let entries = self.entries.split_off(1, 0);
        let replies = self.replies.split_off(1, 0);
        Some(Seat::new(number, entries, replies, self.prefix.again()))
    }
}
