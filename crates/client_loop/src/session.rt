ghost use Rattle.std.specs.Prelude.{◌≡◌, ◌≢◌, ◌⊎◌, ◌≤◌, ◌<◌, ◌++◌, ℕ, List, [], None, is_some, length, take, true, false, vec_len};
ghost use Rattle.std.specs.Io.KnownBytes.{Appends};
ghost use Rattle.client_loop.specs.Clients.{parted_of, sent_of};
ghost use Rattle.client_loop.specs.Conversation.{Follows, IsLastText, farewell_text, no_conversation};
ghost use Rattle.client_loop.specs.Hearing.{Hears};
ghost use Rattle.definitions.specs.Limits.{max_taken};
ghost use Rattle.client_loop.specs.inner.Turns.{TakesTurns};

use crate::byte_history::ByteHistory;
use crate::exchange_history::ExchangeHistory;
use crate::pause::Pause;
use crate::stream::Stream;
use crate::turns::take_turns;
use act_disk::Disk;
use act_sessions::{HeldBytes, Protocol, take_first_off};
use act_store::Store;
use std::alloc::Global;
use std::marker::Model;
use wf_value::{Code, Refusal};

/// How many requests of a client are taken at a time. The next ones wait, so that other clients are heard between.
pub const MAX_REQUESTS: u64 = 16;

/// The session of one client in memory: the bytes that are no answered request yet, and the answers that are withheld.
#[derive(Drop)]
pub(crate) struct Session<P: Protocol> {
    count: u64,
    held: HeldBytes<P>,
    out: Vec<u8>,
    more: bool,
    over: bool,
    /// Whether an answer may have been sent in part: more was withheld when bytes were last sent.
    cut: bool,
    received: ByteHistory,
    exchanges: ExchangeHistory,
    sent: ByteHistory,
    /// What was sent in place of answers when the service parted with the client, if it has.
    farewell: Option<ByteHistory>,
}

impl<P: Protocol> Model for Session<P> {
    ghost use Rattle.client_loop.specs.Conversation.{Conversation, IsInMemory};

    ghost Value = { Conversation };

    ghost view = { λ s. record { received = s.received; requests = s.count; exchanges = s.exchanges; sent = s.sent; withheld = s.out.items; more = s.more; over = s.over; parted = s.farewell } };

    ghost invariant = { λ s. IsInMemory P.Protocol.rules
        (record { received = s.received; requests = s.count; exchanges = s.exchanges; sent = s.sent; withheld = s.out.items; more = s.more; over = s.over; parted = s.farewell })
        s.held s.cut };
}

/// Appends the protocol's response to an out-of-memory condition, or nothing.
fn append_last_text<P: Protocol>(out: &mut Vec<u8>)
    ensures { (last : List ℕ) × IsLastText P.rules last × (out.new.items ≡ out.old.items ++ last) }
{
    if let Some(text) = P::out_of_memory_response() {
        let _ = out.extend_from_slice(text);
    }
}

/// The refusal after a device fault, as the last answer of a session; or no bytes, if an answer was cut or there is no memory for it.
fn refusal_text<P: Protocol>(alloc: Global, cut: bool) -> Vec<u8>
    ensures { (result.items ≡ []) ⊎ ((cut ≡ false) × (result.items ≡ farewell_text P.rules)) }
{
    if cut {
        return Vec::new(alloc);
    }
    match P::answer_text(alloc, true, &Err(Refusal::Numbered(Code::FailedEarlier))) {
        Ok(text) => text,
        Err(_) => Vec::new(alloc),
    }
}

/// Takes turns of the bytes held and the first `n` of these.
fn take_piece<P: Protocol, D: Disk>(
    alloc: Global,
    store: &mut Store<D>,
    number: u64,
    bytes: &Vec<u8>,
    n: usize,
    held: &mut HeldBytes<P>,
    count: &mut u64,
    exchanges: &mut ExchangeHistory,
    out: &mut Vec<u8>,
) -> Pause
    requires room { count.old < P.rules.most }
    requires within { n ≤ vec_len bytes.now }
    ensures { TakesTurns P.rules number count.old max_taken (held.old ++ take n bytes.now.items)
        (record { store = store.old; exchanges = exchanges.old; out = out.old.items })
        (record { store = store.new; exchanges = exchanges.new; out = out.new.items }) count.new held.new result }
{
    if held.append(&bytes[..n]).is_err() {
        return Pause::Memory;
    }
    take_turns::<P, D>(
        alloc,
        store,
        number,
        MAX_REQUESTS,
        held,
        count,
        exchanges,
        out,
    )
}

impl<P: Protocol> Session<P> {
    /// The session of a client that has just come.
    pub(crate) fn new(alloc: Global) -> Session<P>
        ensures { result ≡ no_conversation }
    {
        Session {
            count: 0,
            held: HeldBytes::new(alloc),
            out: Vec::new(alloc),
            more: false,
            over: false,
            cut: false,
            received: ByteHistory::new(),
            exchanges: ExchangeHistory::new(),
            sent: ByteHistory::new(),
            farewell: None,
        }
    }

    /// Whether the session is over. The clause says what every session guarantees: the commands and the answers are those that the bytes
    /// spell.
    pub(crate) fn is_over(&self) -> bool
        ensures over { result ≡ self.now.over }
        ensures follows { Follows P.rules self.now }
    {
        self.over
    }

    /// Whether a turn ended before all whole requests were answered.
    pub(crate) fn has_more(&self) -> bool
        ensures { result ≡ self.now.more }
    {
        self.more
    }

    /// The answers that are withheld.
    pub(crate) fn withheld(&self) -> &[u8]
        ensures { result.now ≡ self.now.withheld }
    {
        &self.out
    }

    /// Hears the first `n` of these bytes: enters commands under a number, and withholds the answers. A session that is over hears nothing.
    pub(crate) fn hear<D: Disk>(
        &mut self,
        alloc: Global,
        store: &mut Store<D>,
        number: u64,
        bytes: &Vec<u8>,
        n: usize,
    )
        requires { n ≤ vec_len bytes.now }
        ensures over { self.old.over ≡ true → (self.new ≡ self.old) × (store.new ≡ store.old) }
        ensures follows { Follows P.rules self.new }
        ensures heard { self.old.over ≡ false → Hears number (take n bytes.now.items) store.old self.old store.new self.new }
    {
        if self.over {
            return;
        }
        self.received.add(bytes, n);
        let pause = take_piece::<P, D>(
            alloc,
            store,
            number,
            bytes,
            n,
            &mut self.held,
            &mut self.count,
            &mut self.exchanges,
            &mut self.out,
        );
        match pause {
            Pause::Waits => {
                self.more = false;
            }
            Pause::More => {
                self.more = true;
            }
            Pause::Over => {
                self.over = true;
            }
            // The protocol's response would say that nothing was done.
            Pause::Unanswered => {
                self.over = true;
            }
            Pause::Memory => {
                self.over = true;
                append_last_text::<P>(&mut self.out);
            }
        }
    }

    /// Notes that the first `n` of the withheld bytes were sent.
    pub(crate) fn send(&mut self, n: usize)
        requires { n ≤ length self.old.withheld }
        ensures follows { Follows P.rules self.new }
        ensures sent { self.new ≡ sent_of self.old n }
    {
        self.sent.add(&self.out, n);
        take_first_off(&mut self.out, n);
        self.cut = !self.out.as_slice().is_empty();
    }

    /// Whether the service has parted with the client.
    pub(crate) fn is_parted(&self) -> bool
        ensures { result ≡ is_some self.now.parted }
    {
        self.farewell.is_some()
    }

    /// Ends the session after a device fault: the answers that are withheld are dropped. After whole answers the refusal is written in their
    /// place, as much of it as the stream takes.
    pub(crate) fn part<S: Stream>(&mut self, alloc: Global, stream: &mut S)
        requires { self.old.withheld ≢ [] }
        ensures follows { Follows P.rules self.new }
        ensures unparted { self.old.parted ≡ None }
        ensures parted { (farewell : List ℕ) × (self.new ≡ parted_of self.old farewell) × Appends (S.contents stream.old) (S.contents stream.new) farewell }
        ensures kept { S.remaining stream.new ≡ S.remaining stream.old }
    {
        let text = refusal_text::<P>(alloc, self.cut);
        let count = stream.write(&text);
        self.farewell = Some(ByteHistory::of(&text, count));
        self.over = true;
        self.out.clear();
    }
}
