ghost use Rattle.std.specs.Prelude.{◌≡◌, ◌<◌, ◌≤◌, ℕ, List, [], IfErr, IfOk, take, vec_capacity, vec_len};
ghost use Rattle.act_store.specs.StoreState.{RecoversToEither};
ghost use Rattle.act_desk.specs.Faults.{IsCause, IsServed, IsUnsettledOrBroken};
ghost use Rattle.act_desk.specs.Settled.{AreCovered, HaveEnded, IsSettled, NoneBroken};

use crate::desk::Desk;
use crate::gate::Gate;
use crate::host::DeskHost;
use crate::ledgers::Ledgers;
use crate::named::Named;
use crate::running::Running;
use crate::settle::{any_broken, is_settled};
use crate::settled::{Fault, Settled};
use crate::starting::hold_all;
use act_disk::Disk;
use act_sessions::{Transcript, Work};
use act_store::Store;
use std::alloc::Global;
use std::marker::Brand;
use std::sync::Wait;
use std::sync::ledger::Ledger;
use std::thread::Threads;
use std::time::Clock;

/// Runs 1 to 64 sessions over one store with an empty history, each in its own thread, and compares the history with what they submitted.
/// The session with number `k`, counted from 0, has seat `k`. A flusher runs beside them (`flusher`), unless no thread can be started for
/// it: then no checkpoints are made and the area fills up.
///
/// After `Ok` each session has ended as its bytes say, or, if no thread could be started for it, with `Ending::Memory` and nothing read.
/// The part of each seat in the history is what the session of that number submitted, in order, each command once, with the replies; there
/// is no other part. A command refused with 46, 47 or 57 is not in the history. It is unknown whether the last command of a session is, if
/// its answer was 50, 51, 52 or 60. There were no other answers. The history begins at the same table as before, and each command with a
/// reply is among the covered entries, to which, or to all of them, each image of an honest disk recovers.
///
/// It is refused with 50 only before a session is started, and then returns everything; with 60 exactly if that comparison fails; and with 61 if
/// all sessions have ended, the comparison holds, and a session was ended by its reader or writer.
/// Promise (One history for all sessions): Sessions in threads, if `serve_all` ends with Ok: no stream failed; each session has ended as its
///   bytes say, or was not started
/// By: `act_desk::serve_all`, `served` (`IsServed`)
/// Promise (One history for all sessions): Then the entries of each seat are what its session asked, in order, each once, with the replies, and
///   there are no others. The history begins at the table of the store that was given
/// By: `act_desk::serve_all`, `served` (`IsServed`, `IsSettled`)
/// Promise (One history for all sessions): A command of a session that was refused with 46, 47 or 57 is nowhere; the last one of a session may
///   be there or not after 50, 51, 52 or 60
/// By: `act_desk::serve_all`, `served` (`AreDefinite`)
/// Promise (One history for all sessions): Each command that got a reply is among the covered entries, and each image of an honest disk recovers
///   to these, or to all
/// By: `act_desk::serve_all`, `served` (`AreCovered`), `recovers`
/// Refusal (The store and the desk): `act_desk::serve_all`
/// When: 50: before any session is started. 61: only if a session was ended by its reader or writer
/// Afterwards: after 50 store and sessions are given back; after 61 store and transcripts: over the same base, as asked, each reply covered
/// By: `cause` (`IsCause`, `IsReconciled`), `served`
/// Refusal (The store and the desk): `act_desk::serve_all`
/// When: 60: exactly if the sessions have ended and history and transcripts differ, an answer is none that is allowed, or a reply is not among
///   the covered entries
/// Afterwards: store and transcripts are given back, over the same base
/// By: `cause` (`IsCause`, `IsReconciled`)
pub fn serve_all<D: Disk + Send, W: Work + Send, G: Gate + Sync, R: Threads + Wait + Clock + Sync>(
    rt: &R,
    alloc: Global,
    store: Store<D>,
    works: Vec<W>,
    gate: &G,
) -> Result<Settled<D>, Fault<D, W>>
    requires empty { store.history ≡ [] }
    requires some { 0 < vec_len works }
    requires most { vec_len works ≤ 64 }
    ensures served { IfOk result (λ settled. IsServed W.ends store works.items settled) }
    ensures recovers { IfOk result (λ settled. D.honest settled.store.disk → (c : List ℕ) → D.images settled.store.disk c → RecoversToEither settled.store c) }
    ensures cause { IfErr result (IsCause W.ends store works.items) }
{
    let count = works.len();
    let Ok(running) = Vec::with_capacity(alloc, count) else {
        return Err(Fault::Memory(store, works));
    };
    let Ok(transcripts) = Vec::with_capacity(alloc, count) else {
        return Err(Fault::Memory(store, works));
    };
    let ledgers = Ledgers::new();
    judge(hold_named::<D, Brand, Brand, W, G, R>(
        rt,
        alloc,
        store,
        ledgers,
        works,
        gate,
        running,
        transcripts,
    ))
}

/// Holds all sessions at a desk whose ledgers have these names.
fn hold_named<
    D: Disk + Send,
    E: Named + Send + Sync,
    T: Ledger + Send + Sync,
    W: Work + Send,
    G: Gate + Sync,
    R: Threads + Wait + Clock + Sync,
>(
    rt: &R,
    alloc: Global,
    store: Store<D>,
    ledgers: Ledgers,
    works: Vec<W>,
    gate: &G,
    running: Vec<Running<W>>,
    transcripts: Vec<Transcript>,
) -> Settled<D>
    requires empty { store.history ≡ [] }
    requires base { store.base ≡ E.base }
    requires entries { (ledgers.entries.name ≡ E.name) × (E.parts ≡ 64) }
    requires replies { (ledgers.replies.name ≡ T.name) × (T.parts ≡ 64) }
    requires history { (ledgers.history.seen.book ≡ E.book) × (ledgers.history.token.nib.key ≡ E.first) }
    requires running { (running.items ≡ []) × (vec_len works ≤ vec_capacity running) }
    requires transcripts { (transcripts.items ≡ []) × (vec_len works ≤ vec_capacity transcripts) }
    ensures ended { HaveEnded W.ends works.items result.transcripts.items }
    ensures base { result.store.base ≡ E.base }
{
    let desk: Desk<D, E, T> = Desk::new(store, ledgers);
    let table = DeskHost {
        rt,
        alloc,
        desk: &desk,
        gate,
    };
    let transcripts = hold_all(rt, alloc, &table, works, running, transcripts);
    Settled {
        store: desk.into_store(),
        transcripts,
    }
}

/// Compares the history with what the sessions submitted.
fn judge<D: Disk, W: Work>(settled: Settled<D>) -> Result<Settled<D>, Fault<D, W>>
    ensures served { IfOk result (λ s. (s ≡ settled) × IsSettled s.transcripts.items s.store.history
        × AreCovered s.transcripts.items (take s.store.covered s.store.history) × NoneBroken s.transcripts.items) }
    ensures recovers { IfOk result (λ s. D.honest s.store.disk → (c : List ℕ) → D.images s.store.disk c → RecoversToEither s.store c) }
    ensures cause { IfErr result (IsUnsettledOrBroken settled) }
{
    let covered = settled.store.covered();
    if !is_settled(&settled.store, covered, settled.transcripts.as_slice()) {
        return Err(Fault::Unsettled(settled));
    }
    if any_broken(settled.transcripts.as_slice()) {
        return Err(Fault::Broken(settled));
    }
    Ok(settled)
}
