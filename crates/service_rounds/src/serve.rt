ghost use Rattle.std.specs.Prelude.{◌≡◌, ◌⊎◌, ◌<◌, ◌≤◌, ◌+◌, ◌∷◌, List, [], length, true, false, IfErr, IfOk};
ghost use Rattle.std.specs.Io.KnownBytes.{Appends};
ghost use Rattle.act_store.specs.StoreState.{table_of};
ghost use Rattle.act_store.specs.declared.entry.Entry.{Entry};
ghost use Rattle.service_rounds.specs.Rounds.{AreHeld, HasServed, IsRound};
ghost use Rattle.service_startup.specs.Reports.{line_of_history, service_lines};
ghost use Rattle.service_rounds.specs.Connections.{Alternate};

use crate::connection::Connection;
use act_desk::{Fault, Free, Settled, serve_all};
use act_disk::Disk;
use act_sessions::{Ending, Transcript};
use act_store::Store;
use service_startup::{brought_up, tell_ready, tell_settled};
use std::alloc::Global;
use std::io::Write;
use std::net::TcpListener;
use std::sync::Wait;
use std::thread::Threads;
use std::time::Clock;
use wf_value::{Code, Refusal};

/// The sessions of a round, equally many on each port, alternately.
fn connections<'a>(
    alloc: Global,
    hooks: &'a TcpListener,
    runners: &'a TcpListener,
    sessions: u64,
) -> Result<Vec<Connection<'a>>, Refusal>
    requires { (0 < sessions) × (sessions ≤ 32) }
    ensures count { IfOk result (λ v. length v.items ≡ sessions + sessions) }
    ensures alternate { IfOk result (λ v. Alternate hooks.now runners.now v.items) }
{
    let mut connections = Vec::new(alloc);
    for _ in 0..sessions {
        connections.push(Connection::Hook(hooks))?;
        connections.push(Connection::Runner(runners))?;
    }
    Ok(connections)
}

/// A round whose sessions have ended.
#[derive(Drop)]
struct Round<D: Disk> {
    store: Store<D>,
    /// Whether a stream failed in it, or could not be accepted.
    broken: bool,
    /// Whether no session wrote anything, because memory or threads ran out.
    unserved: bool,
}

/// Whether no session wrote anything, because memory or threads ran out.
fn are_unserved(transcripts: &[Transcript]) -> bool {
    transcripts.iter().all(|transcript| transcript.ending == Ending::Memory
        && transcript.written == 0)
}

/// Serves sessions over a store without entries, concurrently, each in its own thread. Also returns whether a stream
/// failed in one of them, or could not be accepted.
fn serve_connections<'a, D: Disk + Drop + Send, R: Threads + Wait + Clock + Sync>(
    rt: &R,
    alloc: Global,
    store: Store<D>,
    connections: Vec<Connection<'a>>,
) -> Result<(Settled<D>, bool), Refusal>
    requires fresh { store.history ≡ [] }
    requires connections { (0 < length connections.items) × (length connections.items ≤ 64) }
    ensures held { IfOk result (λ held. AreHeld connections.entry.items held.1 held.0.store.history) }
    ensures base { IfOk result (λ held. held.0.store.base ≡ store.base) }
{
    match serve_all(rt, alloc, store, connections, &Free) {
        Ok(settled) => Ok((settled, false)),
        Err(Fault::Broken(settled)) => Ok((settled, true)),
        Err(Fault::Unsettled(_)) => Err(Refusal::Numbered(Code::Unsettled)),
        Err(Fault::Memory(..)) => Err(Refusal::Numbered(Code::NoMemory)),
    }
}

/// Serves sessions as above, and reports how many entries they made.
fn serve_round<'a, D: Disk + Drop + Send, R: Threads + Wait + Clock + Sync, O: Write>(
    rt: &R,
    alloc: Global,
    store: Store<D>,
    connections: Vec<Connection<'a>>,
    out: &mut O,
) -> Result<Round<D>, Refusal>
    requires fresh { store.history ≡ [] }
    requires connections { (0 < length connections.items) × (length connections.items ≤ 64) }
    ensures announced { IfOk result (λ round. Appends (O.contents out.old) (O.contents out.new) (line_of_history round.store.history)) }
    ensures held { IfOk result (λ round. AreHeld connections.entry.items round.broken round.store.history) }
    ensures base { IfOk result (λ round. round.store.base ≡ store.base) }
{
    let (settled, broken) = serve_connections(rt, alloc, store, connections)?;
    tell_settled(settled.store.entries(), out)?;
    let unserved = are_unserved(settled.transcripts.as_slice());
    Ok(Round {
        store: settled.store,
        broken,
        unserved,
    })
}

/// A reconciled store with a new history, which begins at the table of the last one.
fn turned_over<D: Disk + Drop>(store: Store<D>) -> Result<Store<D>, Refusal>
    ensures empty { IfOk result (λ restarted. restarted.history ≡ []) }
    ensures base { IfOk result (λ restarted. restarted.base ≡ table_of store) }
{
    let mut store = store;
    store.turn_over()?;
    Ok(store)
}

/// Serves a round over the table that the last one left, unless no session of the last one could be started.
fn serve_next<D: Disk + Drop + Send, R: Threads + Wait + Clock + Sync, O: Write>(
    rt: &R,
    alloc: Global,
    last: Round<D>,
    hooks: &TcpListener,
    runners: &TcpListener,
    sessions: u64,
    out: &mut O,
) -> Result<Round<D>, Refusal>
    requires { (0 < sessions) × (sessions ≤ 32) }
    ensures announced { IfOk result (λ round. Appends (O.contents out.old) (O.contents out.new) (line_of_history round.store.history)) }
    ensures ended { IfOk result (λ round. IsRound hooks.now runners.now sessions round.broken round.store.history) }
    ensures base { IfOk result (λ round. round.store.base ≡ table_of last.store) }
{
    if last.unserved {
        return Err(Refusal::Numbered(Code::NoMemory));
    }
    let next = connections(alloc, hooks, runners, sessions)?;
    let restarted = turned_over(last.store)?;
    serve_round(rt, alloc, restarted, next, out)
}

/// The result of a service after its last round. The error is 50 if there were several rounds and no session of the last
/// one could be started, and 61 if a stream failed in any round.
fn ended<D: Disk + Drop>(last: Round<D>, broken: bool, rounds: u64) -> Result<Store<D>, Refusal>
    ensures ok { IfOk result (λ store. (broken ≡ false) × (store ≡ last.store)) }
    ensures err { IfErr result (λ e. ((e ≡ Refusal.Numbered Code.NoMemory) × (last.unserved ≡ true) × (1 < rounds))
        ⊎ ((e ≡ Refusal.Numbered Code.StreamFailed) × (broken ≡ true))) }
{
    if last.unserved && rounds > 1 {
        return Err(Refusal::Numbered(Code::NoMemory));
    }
    if broken {
        return Err(Refusal::Numbered(Code::StreamFailed));
    }
    Ok(last.store)
}

/// Serves a store without entries: `sessions` sessions on each of two ports, concurrently, each in its own thread, with
/// HTTP on one port and runner lines on the other. It writes `ready` before the first session and `settled COUNT` once
/// all have ended, where COUNT is the number of the history's entries, which it also returns.
///
/// The answers of each session are compared with the history: if they differ, the error is 60 and no line `settled` is
/// written. If a stream failed or could not be accepted, the error is 61, after that line. It is 61 too if the output
/// cannot be written. Out of memory before the first session is 50; later on it ends a session.
/// Promise (The program): `acts serve` in rounds, if it ends well: `ready` was written, and a line `settled COUNT` for each round with the
///   length of its history. No stream failed. Each round held as many HTTP sessions as sessions of lines
/// By: `service_rounds::{serve_on, serve_rounds}`, `served` (`HasServed`, `IsRound`)
/// Promise (The program): For each session of a round that was started there are bytes of its protocol of which its transcript is a session, and
///   the history of each round is what its sessions asked, command by command
/// By: `service_rounds::{serve_on, serve_rounds}`, `served` (`IsRound`, `IsHeard`)
/// Promise (The program): The first history begins at the table of the store that was given, and each other one at the table where the one
///   before ended
/// By: `service_rounds::{serve_on, serve_rounds}`, `served` (`table_after_all`); `service_startup::brought_up`, `same`
/// Refusal (Sessions and programs): `service_rounds::{serve_on, serve_rounds}`
/// When: 50: no memory for the sessions, or a round without a thread for any: T. 52, 56 as `Store::turn_over`: T
/// Afterwards: the file has everything acknowledged: T
/// By: `served` (`HasServed`); `act_store::Store::turn_over`, `refused`
/// Refusal (Sessions and programs): `service_rounds::{serve_on, serve_rounds}`
/// When: 60, 61 as `serve_all`, 61 once the last round has ended, or if a line cannot be written: T
/// Afterwards: the file has everything acknowledged: T. After 60 no line `settled` is written
/// By: `served` (`HasServed`); `act_desk::serve_all`, `cause`
pub fn serve_on<D: Disk + Drop + Send, R: Threads + Wait + Clock + Sync, O: Write>(
    rt: &R,
    alloc: Global,
    store: Store<D>,
    hooks: &TcpListener,
    runners: &TcpListener,
    sessions: u64,
    out: &mut O,
) -> Result<u64, Refusal>
    requires fresh { store.history ≡ [] }
    requires sessions { (0 < sessions) × (sessions ≤ 32) }
    // On success no stream failed: each session followed its port's protocol, and the history is what they asked.
    ensures served { IfOk result (λ count. (history : List Entry) × (count ≡ length history)
        × IsRound hooks.now runners.now sessions false history
        × Appends (O.contents out.old) (O.contents out.new) (service_lines (history ∷ []))) }
{
    let store = serve_rounds(rt, alloc, store, hooks, runners, sessions, 1, out)?;
    Ok(store.entries())
}

/// Serves a store as `serve_on` does, in `rounds` rounds, but at least one. Once all sessions of a round have ended and
/// `settled COUNT` is written for it, a new history begins at the table that they left, and the next round serves as
/// many sessions on the same ports.
///
/// A store in an earlier layout is first upgraded to the third. `ready` is written once. A failed stream ends no round
/// early; after the last round the service is refused with 61. If there are several rounds, one in which no session
/// could be started ends the service with 50. Any other refusal of a round ends the service. So does a store that
/// cannot begin a new history: with 52 if the device has failed, and with 56 if memory ran out for the end of a
/// checkpoint.
pub fn serve_rounds<D: Disk + Drop + Send, R: Threads + Wait + Clock + Sync, O: Write>(
    rt: &R,
    alloc: Global,
    store: Store<D>,
    hooks: &TcpListener,
    runners: &TcpListener,
    sessions: u64,
    rounds: u64,
    out: &mut O,
) -> Result<Store<D>, Refusal>
    requires fresh { store.history ≡ [] }
    requires sessions { (0 < sessions) × (sessions ≤ 32) }
    // On success no stream failed in any round, and the store has the history of the last one. Each history begins at the table where the
    // one before ended, and the first one at the table of the given store.
    ensures served { IfOk result (λ last. HasServed hooks.now runners.now sessions rounds (O.contents out.old) (O.contents out.new)
        store.base last.base last.history) }
{
    let first = connections(alloc, hooks, runners, sessions)?;
    let store = brought_up(alloc, store)?;
    tell_ready(out)?;
    let mut round = serve_round(rt, alloc, store, first, out)?;
    let mut broken = round.broken;
    for _ in 1..rounds {
        round = serve_next(rt, alloc, round, hooks, runners, sessions, out)?;
        broken = broken || round.broken;
    }
    ended(round, broken, rounds)
}
