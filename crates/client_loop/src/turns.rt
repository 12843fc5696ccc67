ghost use Rattle.std.specs.Prelude.{◌≡◌, ◌<◌, ◌+◌, ℕ, List, length, min};
ghost use Rattle.definitions.specs.Limits.{max_withheld};
ghost use Rattle.client_loop.specs.inner.Turns.{Appended, EndsRound, Goes, Moment, TakesTurn, TakesTurns, pause_after};

use crate::author::Author;
use crate::exchange_history::ExchangeHistory;
use crate::pause::Pause;
use act_disk::Disk;
use act_sessions::{HeldBytes, Protocol, Request, TurnText, take_turn};
use act_store::Store;
use std::alloc::Global;
use std::mem;

/// A client's next request is taken only while fewer bytes of answers than this are withheld from it.
pub const MAX_WITHHELD: usize = 65_536;

/// Appends a text, and returns whether it is the last; or `None` if there is no text, or no memory to append it.
fn append(out: &mut Vec<u8>, text: Option<TurnText>) -> Option<bool>
    ensures { Appended text out.old.items out.new.items result }
{
    let text = text?;
    out.extend_from_slice(&text.bytes).ok()?;
    Some(text.last)
}

/// Takes a turn after `count` others, and appends its text. Returns whether it is the last of the session, or `None` if there is no memory
/// for the text.
fn append_turn<P: Protocol, D: Disk>(
    alloc: Global,
    store: &mut Store<D>,
    number: u64,
    request: Request<P::Fault>,
    count: u64,
    exchanges: &mut ExchangeHistory,
    out: &mut Vec<u8>,
) -> Option<bool>
    requires { count < P.rules.most }
    ensures { TakesTurn P.rules number count request
        (record { store = store.old; exchanges = exchanges.old; out = out.old.items })
        (record { store = store.new; exchanges = exchanges.new; out = out.new.items }) result }
{
    let mut author = Author {
        number,
        exchanges: mem::replace(exchanges, ExchangeHistory::new()),
    };
    let text = take_turn::<P, Author, Store<D>>(alloc, &mut author, store, request, count);
    *exchanges = author.exchanges;
    append(out, text)
}

/// Why there is no further turn after one, whose command was entered or not.
fn pause_after(last: Option<bool>, entered: bool) -> Option<Pause>
    ensures { result ≡ pause_after last entered }
{
    match last {
        Some(false) => None,
        Some(true) => Some(Pause::Over),
        None if entered => Some(Pause::Unanswered),
        None => Some(Pause::Memory),
    }
}

/// Takes the next turn, if its request is whole. Returns why there is no further turn.
fn take_round<P: Protocol, D: Disk>(
    alloc: Global,
    store: &mut Store<D>,
    number: u64,
    held: &mut HeldBytes<P>,
    count: u64,
    exchanges: &mut ExchangeHistory,
    out: &mut Vec<u8>,
) -> Option<Pause>
    requires { count < P.rules.most }
    ensures { (n most : ℕ) (bytes : List ℕ) (begin : Moment D) → count < n + most → length out.old.items < max_withheld
        → Goes P.rules number n bytes begin (record { store = store.old; exchanges = exchanges.old; out = out.old.items }) count held.old
        → EndsRound P.rules number n most bytes begin (record { store = store.new; exchanges = exchanges.new; out = out.new.items }) count held.new result }
{
    match held.next_request(alloc, store.table().last_event()) {
        Err(_) => Some(Pause::Memory),
        Ok(None) => Some(Pause::Waits),
        Ok(Some(request)) => {
            let before = store.entries();
            let last = append_turn::<P, D>(alloc, store, number, request, count, exchanges, out);
            pause_after(last, before < store.entries())
        }
    }
}

/// Takes up to `most` turns, until the bytes are no whole request, the session is over, or many bytes are withheld.
pub(crate) fn take_turns<P: Protocol, D: Disk>(
    alloc: Global,
    store: &mut Store<D>,
    number: u64,
    most: u64,
    held: &mut HeldBytes<P>,
    count: &mut u64,
    exchanges: &mut ExchangeHistory,
    out: &mut Vec<u8>,
) -> Pause
    requires { count.old < P.rules.most }
    ensures { TakesTurns P.rules number count.old most held.old
        (record { store = store.old; exchanges = exchanges.old; out = out.old.items })
        (record { store = store.new; exchanges = exchanges.new; out = out.new.items }) count.new held.new result }
{
    let end = last_turn(*count, most, P::most());
    'rounds: for turns in *count..end {
        if out.len() >= MAX_WITHHELD {
            *count = turns;
            return Pause::More;
        }
        if let Some(pause) = take_round::<P, D>(alloc, store, number, held, turns, exchanges, out) {
            *count = turns;
            return pause;
        }
    }
    *count = end;
    Pause::More
}

/// The number of turns after which a session pauses: `most` more, or all that it may have.
fn last_turn(count: u64, most: u64, all: u64) -> u64
    requires { count < all }
    ensures { result ≡ min (count + most) all }
{
    if most < all - count {
        count + most
    } else {
        all
    }
}
