ghost use Rattle.std.specs.Prelude.{◌≡◌, ◌<◌, ◌≤◌, ℕ, [], get_or, vec_capacity, vec_len};
ghost use Rattle.act_desk.specs.Settled.{HaveEnded};

use crate::host::Host;
use crate::running::Running;
use act_sessions::{Transcript, Work};
use std::alloc::Global;
use std::sync::{Mutex, Wait};
use std::thread::{self, JoinHandle, Scope, Threads};

/// Starts the sessions, in order. It takes no memory, since there is room for all.
fn start_all<'s, 'e, S: Send + Drop + 's, H: Host<S> + Sync + 's, W: Work + Send + 's>(
    scope: &'s Scope<'s, &'e ()>,
    host: &'s H,
    works: Vec<W>,
    room: Vec<Running<W>>,
) -> Vec<Running<W>>
    requires { (room.items ≡ []) × (vec_len works ≤ vec_capacity room) }
    ensures len { vec_len result ≡ vec_len works }
    ensures each { (i : ℕ) (r w : W) → i < vec_len works → get_or result.items i r ≡ get_or works.items i w }
{
    let mut running = room;
    for work in works {
        running.push_reserved(Running::start(scope, host, work));
    }
    running
}

/// Joins the sessions, in order. It takes no memory, since there is room for all.
fn join_all<W: Work>(
    rt: &impl Threads,
    alloc: Global,
    running: Vec<Running<W>>,
    room: Vec<Transcript>,
) -> Vec<Transcript>
    requires { (room.items ≡ []) × (vec_len running ≤ vec_capacity room) }
    ensures { HaveEnded W.ends running.items result.items }
{
    let mut transcripts = room;
    for session in running {
        transcripts.push_reserved(session.join(rt, alloc));
    }
    transcripts
}

/// Tells the flusher to stop, and waits for it if its thread was started.
fn end_flusher<S, H: Host<S>>(
    rt: &impl Threads,
    host: &H,
    stop: &Mutex<bool>,
    flushing: Option<JoinHandle<()>>,
) {
    host.stop_flushing(stop);
    if let Some(handle) = flushing {
        handle.join(rt);
    }
}

/// Holds all sessions at the seats of a host, each in its own thread, until they end. A flusher runs beside them, if a thread can be
/// started for it.
pub(crate) fn hold_all<S: Send + Drop, H: Host<S> + Sync, W: Work + Send, R: Threads + Wait + Sync>(
    rt: &R,
    alloc: Global,
    host: &H,
    works: Vec<W>,
    running: Vec<Running<W>>,
    transcripts: Vec<Transcript>,
) -> Vec<Transcript>
    requires running { (running.items ≡ []) × (vec_len works ≤ vec_capacity running) }
    requires transcripts { (transcripts.items ≡ []) × (vec_len works ≤ vec_capacity transcripts) }
    ensures { HaveEnded W.ends works.items result.items }
{
    let stop = Mutex::new(false);
    let shared = &stop;
    thread::scope(
        thread::scope_env(),
        rt,
        |scope| -> Vec<Transcript>
            requires running { (running.items ≡ []) × (vec_len works ≤ vec_capacity running) }
            requires transcripts { (transcripts.items ≡ []) × (vec_len works ≤ vec_capacity transcripts) }
            ensures { HaveEnded W.ends works.items result.items }
        {
            let flushing = scope.spawn(move || host.flush(shared)).ok();
            let started = start_all(scope, host, works, running);
            let ended = join_all(rt, alloc, started, transcripts);
            end_flusher(rt, host, shared, flushing);
            ended
        },
    )
}
