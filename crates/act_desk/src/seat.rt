ghost use Rattle.std.specs.Prelude.{◌≡◌, ◌+◌, ◌<◌, ◌^◌};
ghost use mathlib.Core.List.{IsPrefix};

use crate::named::Named;
use crate::prefix::{HistoryPrefix, HistoryWriter};
use std::marker::Model;
use std::sync::ledger::{Book, Ledger, Share};

/// A seat at a desk. It has a number, counts its entries and its replies, and knows the prefix of the history that it has seen.
#[derive(Drop)]
pub struct Seat<E: Named, T: Ledger> {
    number: u64,
    entered: u64,
    released: u64,
    /// Its shares of the two ledgers: the number of its entries and of its replies.
    entries: Share<E>,
    replies: Share<T>,
    prefix: HistoryPrefix<E>,
}

impl<E: Named, T: Ledger> Model for Seat<E, T> {
    ghost use Rattle.std.specs.Prelude.{◌≡◌};
    ghost use Rattle.act_desk.specs.Shown.{SeatView};

    ghost Value = { SeatView };

    ghost view = { λ s. record { number = s.number; entered = s.entered; released = s.released; seen = s.prefix } };

    ghost invariant = { λ s. (s.entries.parts ≡ 1) × (s.entries.amount ≡ s.entered) × (s.replies.parts ≡ 1) × (s.replies.amount ≡ s.released) };
}

impl<E: Named, T: Ledger> Seat<E, T> {
    /// A seat that has entered nothing.
    pub(crate) fn new(
        number: u64,
        entries: Share<E>,
        replies: Share<T>,
        prefix: HistoryPrefix<E>,
    ) -> Seat<E, T>
        requires entries { (entries.parts ≡ 1) × (entries.amount ≡ 0) }
        requires replies { (replies.parts ≡ 1) × (replies.amount ≡ 0) }
        ensures { result ≡ record { number = number; entered = 0; released = 0; seen = prefix } }
    {
        Seat {
            number,
            entered: 0,
            released: 0,
            entries,
            replies,
            prefix,
        }
    }

    pub fn number(&self) -> u64
        ensures { result ≡ self.now.number }
    {
        self.number
    }

    /// How many entries it has made.
    pub fn entered(&self) -> u64
        ensures { result ≡ self.now.entered }
    {
        self.entered
    }

    /// How many replies it got.
    pub fn released(&self) -> u64
        ensures { result ≡ self.now.released }
    {
        self.released
    }

    /// The prefix of the history that it has seen. It contains all its replies.
    pub fn prefix(&self) -> &HistoryPrefix<E>
        ensures { result.now ≡ self.now.seen }
    {
        &self.prefix
    }

    /// Sees the whole history.
    pub(crate) fn see(&mut self, history: &mut HistoryWriter<E>)
        ensures before { IsPrefix self.old.seen self.new.seen }
        ensures whole { self.new.seen ≡ history.old }
        ensures history { history.new ≡ history.old }
        ensures same { (self.new.number ≡ self.old.number) × (self.new.entered ≡ self.old.entered) × (self.new.released ≡ self.old.released) }
    {
        self.prefix = history.whole(&self.prefix);
    }

    /// Sees what another seat of the same history has seen.
    pub fn learn(&mut self, other: &HistoryPrefix<E>)
        ensures before { IsPrefix self.old.seen self.new.seen }
        ensures other { IsPrefix other.now self.new.seen }
        ensures same { (self.new.number ≡ self.old.number) × (self.new.entered ≡ self.old.entered) × (self.new.released ≡ self.old.released) }
    {
        self.prefix = self.prefix.longer(other);
    }

    /// Counts an entry of this seat.
    pub(crate) fn count_entry(&mut self, book: &mut Book<E>)
        requires { book.old.total < 2 ^ 63 }
        ensures book { book.new.total ≡ book.old.total + 1 }
        ensures counted { self.new ≡ record self.old { entered = self.old.entered + 1 } }
    {
        let Seat {
            entered,
            entries,
            ..
        } = self;
        book.audit(entries);
        book.add(entries, 1);
        *entered += 1;
    }

    /// Counts a reply to this seat.
    pub(crate) fn count_reply(&mut self, book: &mut Book<T>)
        requires { book.old.total < 2 ^ 63 }
        ensures book { book.new.total ≡ book.old.total + 1 }
        ensures counted { self.new ≡ record self.old { released = self.old.released + 1 } }
    {
        let Seat {
            released,
            replies,
            ..
        } = self;
        book.audit(replies);
        book.add(replies, 1);
        *released += 1;
    }
}
