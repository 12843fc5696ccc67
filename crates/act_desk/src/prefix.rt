ghost use Rattle.std.specs.Prelude.{◌≡◌, ◌+◌, ◌<◌, ◌≤◌, ◌^◌, ◌++◌, ◌∷◌, ◌⊎◌, [], length, false, true};
ghost use mathlib.Core.List.{IsPrefix};
ghost use Rattle.logbook.specs.Pages.{may_write};
ghost use Rattle.act_desk.specs.Events.{covered_in, entries_in, entry_of_event, told_in};
ghost use Rattle.act_desk.specs.inner.Lines.{head_of, line, next_of};

use crate::book::{BookWord, SeenBook, look, reserve};
use crate::book_rules::{Append, BookRule, Next, NoResource};
use crate::event::{Event, Note};
use crate::named::Named;
use logbook::{Offer, Pen, Seen, Start, Word};
use std::marker::{Model, PhantomData};

/// An empty history without a name.
#[derive(Drop)]
pub struct Unnamed {
    word: BookWord,
    token: Pen,
    seen: SeenBook,
    pub ghost word_is: { word ≡ head_of seen.book },
    pub ghost token_is: { (token.book ≡ seen.book) × (token.nib.right ≡ may_write) },
    pub ghost empty: { line token.nib.key seen.log ≡ [] },
    pub ghost next: { next_of token.nib.key seen.log ≡ token.nib.key },
}

impl Unnamed {
    pub fn new() -> Unnamed {
        let (mut seen, mut first, _second) = Seen::open(Start::alone(), 0, 0);
        let word: BookWord = Word::tracked(0, &mut first);
        let token = reserve(&word, &mut seen);
        Unnamed { word, token, seen }
    }

    /// Gives the history a name. Only the writer adds to it.
    pub fn named<E: Named>(self) -> HistoryWriter<E>
        requires { (self.seen.book ≡ E.book) × (self.token.nib.key ≡ E.first) }
        ensures { result ≡ [] }
    {
        let Unnamed { word, token, seen } = self;
        HistoryWriter {
            word,
            token,
            events: 0,
            entries: 0,
            seen,
            of: PhantomData,
        }
    }
}

/// The right to write a history, and the whole history. Contracts see its events.
#[derive(Drop)]
pub struct HistoryWriter<E: Named> {
    word: BookWord,
    token: Pen,
    events: u64,
    entries: u64,
    seen: SeenBook,
    of: PhantomData<E>,
}

impl<E: Named> Model for HistoryWriter<E> {
    ghost use Rattle.std.specs.Prelude.{◌≡◌, List, length};
    ghost use Rattle.logbook.specs.Pages.{may_write};
    ghost use Rattle.act_desk.specs.Events.{entries_in};
    ghost use Rattle.act_desk.specs.inner.Lines.{head_of, line, next_of};
    ghost use Rattle.act_desk.specs.declared.event.Event.{Event};

    ghost Value = { List Event };

    ghost view = { λ a. line E.first a.seen.log };

    ghost invariant = { λ a. (a.events ≡ length (line E.first a.seen.log)) × (a.entries ≡ length (entries_in (line E.first a.seen.log)))
        × (a.seen.book ≡ E.book) × (a.word ≡ head_of E.book)
        × (a.token.book ≡ E.book) × (a.token.nib.right ≡ may_write) × (next_of E.first a.seen.log ≡ a.token.nib.key) };
}

impl<E: Named> HistoryWriter<E> {
    /// What was written so far.
    pub fn so_far(&self) -> HistoryPrefix<E>
        ensures { result ≡ self.now }
    {
        HistoryPrefix {
            events: self.events,
            entries: self.entries,
            seen: self.seen.again(),
            of: PhantomData,
        }
    }

    /// The whole history, of which each one that was seen is a prefix.
    pub(crate) fn whole(&mut self, seen: &HistoryPrefix<E>) -> HistoryPrefix<E>
        ensures whole { result ≡ self.old }
        ensures same { self.new ≡ self.old }
        ensures prefix { IsPrefix seen.now self.old }
    {
        self.seen.learn(&seen.seen);
        look(&self.word, &mut self.seen, &mut self.token);
        self.so_far()
    }

    /// Whatever was seen is still so: the entries are the first ones, as many are covered, and as many replies are released.
    pub(crate) fn recall(&mut self, seen: &HistoryPrefix<E>)
        ensures same { self.new ≡ self.old }
        ensures prefix { IsPrefix seen.now self.old }
        ensures entries { IsPrefix (entries_in seen.now) (entries_in self.old) }
        ensures len { length (entries_in seen.now) ≤ length (entries_in self.old) }
        ensures covered { covered_in seen.now ≤ covered_in self.old }
        ensures told { told_in seen.now ≤ told_in self.old }
    {
        drop(self.whole(seen));
    }

    /// Appends an event to the history.
    pub(crate) fn add(&mut self, event: Event)
        requires { length self.old < 2 ^ 62 }
        ensures { self.new ≡ self.old ++ event ∷ [] }
    {
        let entries = count(&event);
        let next = Next {
            event,
            token: reserve(&self.word, &mut self.seen),
        };
        let mut offer: Offer<Note, u64, BookRule, NoResource> = self
            .seen
            .plain::<NoResource, Next, Append>(&next);
        self.word
            .compare_exchange::<Append, NoResource>(
                0,
                0,
                &mut self.seen,
                &mut offer,
                &mut self.token,
            );
        let Next { event: _, token } = next;
        self.token = token;
        self.events += 1;
        self.entries += entries;
    }
}

/// How many entries an event makes.
fn count(event: &Event) -> u64
    ensures { result ≡ length (entry_of_event event.now) }
{
    match event {
        Event::Entered(_) => 1,
        Event::Covered(_) | Event::Told => 0,
    }
}

/// A prefix of a history that was seen. Contracts see its events.
#[derive(Drop)]
pub struct HistoryPrefix<E: Named> {
    events: u64,
    entries: u64,
    seen: SeenBook,
    of: PhantomData<E>,
}

impl<E: Named> Model for HistoryPrefix<E> {
    ghost use Rattle.std.specs.Prelude.{◌≡◌, List, length};
    ghost use Rattle.act_desk.specs.Events.{entries_in};
    ghost use Rattle.act_desk.specs.inner.Lines.{line};
    ghost use Rattle.act_desk.specs.declared.event.Event.{Event};

    ghost Value = { List Event };

    ghost view = { λ f. line E.first f.seen.log };

    ghost invariant = { λ f. (f.events ≡ length (line E.first f.seen.log)) × (f.entries ≡ length (entries_in (line E.first f.seen.log))) × (f.seen.book ≡ E.book) };
}

impl<E: Named> HistoryPrefix<E> {
    /// The number of its entries.
    pub fn entries(&self) -> u64
        ensures { result ≡ length (entries_in self.now) }
    {
        self.entries
    }

    /// A copy of the prefix.
    pub fn again(&self) -> HistoryPrefix<E>
        ensures { result ≡ self.now }
    {
        HistoryPrefix {
            events: self.events,
            entries: self.entries,
            seen: self.seen.again(),
            of: PhantomData,
        }
    }

    /// The longer of two prefixes of one history. The other is a prefix of it.
    /// Promise (One history for all sessions): What seats see of the history: its entries, how many of them are covered, and how many replies
    ///   are released, in the order in which it happened (`Event`)
    /// By: `act_desk::HistoryPrefix::{longer, begins}`; `act_desk::Seat::learn`
    pub fn longer(&self, other: &HistoryPrefix<E>) -> HistoryPrefix<E>
        ensures either { (result ≡ self.now) ⊎ (result ≡ other.now) }
        ensures this { IsPrefix self.now result }
        ensures that { IsPrefix other.now result }
    {
        let mut both = self.seen.again();
        both.learn(&other.seen);
        if self.events < other.events {
            other.again()
        } else {
            self.again()
        }
    }

    /// Whether the other one is as long or longer. Then this one is a prefix of it.
    /// Promise (One history for all sessions): The prefix that a seat has seen begins the whole history, whose entries are the store's. A seat
    ///   has a number from 0 to 63. That no two have the same is in no clause: `serve_all` compares in the end
    /// By: `act_desk::HistoryPrefix::begins`; `act_desk::Desk::{into_parts, seat, give_back}`
    pub fn begins(&self, other: &HistoryPrefix<E>) -> bool
        ensures begins { result ≡ true → IsPrefix self.now other.now }
        ensures longer { result ≡ false → length other.now < length self.now }
    {
        let longer = self.longer(other);
        longer.events == other.events
    }
}
