//! A service without end: one loop in one thread over all clients of both ports.

ghost use Rattle.std.specs.Prelude.{◌≡◌, [], IfOk};
ghost use Rattle.act_store.specs.Images.{RecoversTo};
ghost use Rattle.client_loop.specs.Service.{history_of};

use crate::clients::{Clients, HOOK_SLOTS};
use crate::farewell::part_with_all;
use crate::limits::Limits;
use crate::turns::Turns;
use act_disk::Disk;
use act_store::Store;
use client_loop::{Service, Slots};
use client_ports::MAX_CLIENTS;
use mio::{Events, Poll};
use run_table::Table;
use service_startup::{Opened, brought_up, tell_ready};
use std::alloc::Global;
use std::io;
use std::io::{ErrorKind, Write};
use std::net::{Net, TcpListener};
use std::sync::Wait;
use std::time::{Clock, Duration, Instant, SystemTime, UNIX_EPOCH};
use view_port::{ViewPort, Views};
use wf_value::{Code, Refusal};

/// The most events that are taken at once. There are fewer clients and listeners, so one look sees what all of them have done.
const EVENTS: usize = 4 * MAX_CLIENTS;

/// The most bytes that one read takes from a client.
const PIECE: usize = 16_384;

/// How many times at most the service waits for clients before a commit, also if the clock cannot be read.
const WAITS: u64 = 4 * MAX_CLIENTS as u64;

/// The refusal for a failed system call: 50 if it ran out of memory, else 61.
fn refusal_of(e: &io::Error) -> Refusal {
    match e.kind() {
        ErrorKind::OutOfMemory => Refusal::Numbered(Code::NoMemory),
        _ => Refusal::Numbered(Code::StreamFailed),
    }
}

/// What the number of a process is below, so that a cursor can name it.
const CURSORS: u128 = 1_000_000_000_000_000_000;

/// A number that no other process over the file has: the last digits of the nanoseconds since 1970.
fn process_number<R: Clock>(rt: &R) -> u64 {
    let Ok(now) = SystemTime::now(rt) else {
        return 0;
    };
    match now.duration_since(UNIX_EPOCH) {
        Ok(since) => u64::try_from(since.as_nanos() % CURSORS).unwrap_or(0),
        Err(_) => 0,
    }
}

/// The ports of a service: those of its clients, and one to look at it.
#[derive(Clone, Copy)]
pub struct Ports<'a> {
    pub hooks: &'a TcpListener,
    pub runners: &'a TcpListener,
    pub views: Option<ViewPort<'a>>,
}

/// What reports that a connection has come, or a client has sent something.
#[derive(Drop)]
struct Watch {
    poll: Poll,
    events: Events,
}

impl Watch {
    fn new<R: Net>(rt: &R, alloc: Global) -> Result<Watch, Refusal> {
        let events = Events::with_capacity(alloc, EVENTS)?;
        match Poll::new(rt) {
            Ok(poll) => Ok(Watch { poll, events }),
            Err(e) => Err(refusal_of(&e)),
        }
    }

    /// The clients of two ports, of which this reports.
    fn clients<'a>(
        &self,
        alloc: Global,
        hooks: &'a TcpListener,
        runners: &'a TcpListener,
    ) -> Result<Clients<'a>, Refusal> {
        let registry = self
            .poll
            .registry()
            .try_clone()
            .map_err(|e| refusal_of(&e))?;
        let clients = Clients::new(alloc, hooks, runners, registry)?;
        clients.watch().map_err(|e| refusal_of(&e))?;
        Ok(clients)
    }

    /// The clients of the view port, of which this reports, if there is one.
    fn views<'a, R: Clock>(
        &self,
        rt: &R,
        alloc: Global,
        port: Option<ViewPort<'a>>,
        now: Instant,
        table: &Table,
    ) -> Result<Option<Views<'a>>, Refusal> {
        let Some(port) = port else {
            return Ok(None);
        };
        let registry = self
            .poll
            .registry()
            .try_clone()
            .map_err(|e| refusal_of(&e))?;
        let views = Views::new(alloc, port, registry, process_number(rt), now, table)?;
        views.watch()?;
        Ok(Some(views))
    }

    /// Waits for events and notes them. The system waits in whole milliseconds, so up to one more.
    fn look<D: Disk>(&mut self, turns: &mut Turns<'_, D>, wait: Duration) -> Result<(), Refusal> {
        match self.poll.poll(&mut self.events, Some(wait)) {
            Err(e) if e.kind() != ErrorKind::Interrupted => return Err(refusal_of(&e)),
            _ => {}
        }
        for event in self.events.iter() {
            turns.note(event);
        }
        Ok(())
    }
}

/// Waits for events, accepts the clients that have connected, and hears those that have sent something.
fn gather<D: Disk, R: Clock>(
    rt: &R,
    watch: &mut Watch,
    turns: &mut Turns<'_, D>,
    wait: Duration,
) -> Result<(), Refusal> {
    watch.look(turns, wait)?;
    turns.begin(rt);
    turns.has_looked();
    turns.accept(0)?;
    turns.accept(1)?;
    turns.hear_all();
    Ok(())
}

/// Hears the clients that come until as many have spoken as are expected, or the wait has been long enough.
fn linger<D: Disk, R: Clock>(
    rt: &R,
    watch: &mut Watch,
    turns: &mut Turns<'_, D>,
) -> Result<(), Refusal> {
    if turns.service.is_covered() || !turns.has_room() {
        return Ok(());
    }
    if !turns.linger.begins(turns.clients.spoken()) {
        return Ok(());
    }
    let begin = turns.now;
    for _ in 0..WAITS {
        let waited = turns.now.saturating_duration_since(begin);
        match turns.linger.left(turns.clients.spoken(), waited) {
            Some(left) if turns.has_room() => gather(rt, watch, turns, left)?,
            _ => break,
        }
    }
    turns.linger.ends(turns.clients.spoken());
    Ok(())
}

/// Makes all that was asked durable. Returns how long that took.
fn make_durable<D: Disk, R: Clock>(rt: &R, turns: &mut Turns<'_, D>) -> Result<Duration, Refusal> {
    turns.begin(rt);
    let begin = turns.now;
    turns.commit()?;
    turns.begin(rt);
    let took = turns.now.saturating_duration_since(begin);
    turns.has_committed(rt, took);
    Ok(took)
}

/// Makes all that was asked durable, and notes how long that took and how many clients came meanwhile.
fn commit<D: Disk, R: Clock>(
    rt: &R,
    watch: &mut Watch,
    turns: &mut Turns<'_, D>,
) -> Result<(), Refusal> {
    if turns.service.is_covered() {
        return Ok(());
    }
    let took = make_durable(rt, turns)?;
    let came = coming(watch, turns)?;
    turns
        .linger
        .has_committed(took, turns.clients.spoken(), came);
    Ok(())
}

/// Forgets runs, if more are kept than are to be. That is durable before the next turn.
fn forget<D: Disk, R: Clock>(rt: &R, turns: &mut Turns<'_, D>) -> Result<(), Refusal> {
    turns.ask_to_forget();
    if !turns.service.is_covered() {
        make_durable(rt, turns)?;
    }
    turns.has_asked();
    Ok(())
}

/// How many clients have come since the last look. Where that is of no use, it is not asked.
fn coming<D: Disk>(watch: &mut Watch, turns: &mut Turns<'_, D>) -> Result<usize, Refusal> {
    if !turns.linger.helps() {
        return Ok(0);
    }
    let before = turns.clients.queued();
    watch.look(turns, Duration::ZERO)?;
    Ok(turns.clients.queued().saturating_sub(before))
}

/// One turn.
fn take_turn<D: Disk, R: Clock, O: Write>(
    rt: &R,
    watch: &mut Watch,
    turns: &mut Turns<'_, D>,
    out: &mut O,
) -> Result<(), Refusal> {
    let wait = turns.patience();
    gather(rt, watch, turns, wait)?;
    turns.has_begun();
    linger(rt, watch, turns)?;
    commit(rt, watch, turns)?;
    turns.release_all();
    turns.show(rt)?;
    turns.checkpoint()?;
    if turns.turn_over(out)? {
        forget(rt, turns)?;
    }
    turns.sweep();
    Ok(())
}

/// Takes turns until the service cannot go on. Returns why. Before the first one it forgets runs, if more are kept than are to be.
fn take_turns<D: Disk, R: Wait + Clock, O: Write>(
    rt: &R,
    watch: &mut Watch,
    turns: &mut Turns<'_, D>,
    out: &mut O,
) -> Result<(), Refusal> {
    forget(rt, turns)?;
    for _ in rt.forever() {
        take_turn(rt, watch, turns, out)?;
    }
    unreachable!()
}

/// The turns of a service over a store, before its first client. Its history begins at the table of the store.
fn first_turn<'a, D: Disk + Drop>(
    alloc: Global,
    now: Instant,
    limits: Limits,
    store: Store<D>,
    clients: Clients<'a>,
    views: Option<Views<'a>>,
) -> Result<Turns<'a, D>, Refusal>
    requires fresh { store.history ≡ [] }
    ensures base { IfOk result (λ turns. turns.service.origin ≡ store.base) }
    ensures fresh { IfOk result (λ turns. history_of turns.service ≡ []) }
    ensures disk { IfOk result (λ turns. turns.service.store.disk ≡ store.disk) }
{
    let buffer = vec![in alloc; 0u8; PIECE]?;
    let slots = Slots::new(alloc, HOOK_SLOTS, MAX_CLIENTS)?;
    let service = Service::new(store, slots);
    Ok(Turns::new(alloc, now, limits, service, clients, views, buffer))
}

/// Takes turns until the service cannot go on. If that is since the device has failed, the clients are answered. The history begins at the
/// table to which the bytes recover that were opened.
fn serve<D: Opened, R: Wait + Clock, O: Write>(
    rt: &R,
    watch: &mut Watch,
    turns: &mut Turns<'_, D>,
    out: &mut O,
) -> Result<(), Refusal>
    requires fresh { history_of turns.old.service ≡ [] }
    requires base { D.honest turns.old.service.store.disk → RecoversTo turns.old.service.origin D.opened }
{
    tell_ready(out)?;
    let ended = take_turns(rt, watch, turns, out);
    if let Err(Refusal::Numbered(Code::DeviceFailed | Code::FailedEarlier)) = ended {
        part_with_all(turns);
    }
    ended
}

/// Serves a store without entries on two ports, without end: clients of HTTP on one port, and clients of runner lines on
/// the other. A store in an earlier layout is first upgraded to the third. Then it writes `ready`, before the first
/// client.
///
/// Each turn hears every client that has sent something, for at most 16 requests, commits all that they asked, and
/// answers them. After `limits.commands` commands, or 64 MiB that clients have sent or received, the history turns over:
/// `settled COUNT` is written, and the next history begins at the current table. The clients' sessions continue in it.
///
/// With `limits.keep_runs` the service itself asks to forget the runs before the last so many, before the first turn and whenever the history
/// has turned over, if there are more and the first one has completed. It does so as a client of the hook port, in a slot that no connection has.
///
/// It ends with a refusal: 50 if memory runs out before the first client, 51 or 52 if the device has failed, and 61 if
/// the output cannot be written or a port fails. A stream that fails ends one session, and so does running out of memory
/// later on.
/// Refusal (Sessions and programs): `service_forever::serve_forever`
/// When: 50: before the first client: T. 51, 52: the device failed: T. 61: a line can't be written, or a port can't go on: T
/// Afterwards: the file has all acknowledged; after 51 and 52 clients that asked are answered 52: T
/// By: none; `client_loop::Service::{commit, step, turn_over}`
pub fn serve_forever<D: Opened + Drop, R: Wait + Clock + Net, O: Write>(
    rt: &R,
    alloc: Global,
    store: Store<D>,
    ports: Ports<'_>,
    limits: Limits,
    out: &mut O,
) -> Result<(), Refusal>
    requires fresh { store.history ≡ [] }
    requires base { D.honest store.disk → RecoversTo store.base D.opened }
{
    let now = Instant::now(rt).map_err(|e| refusal_of(&e))?;
    let store = brought_up(alloc, store)?;
    let mut watch = Watch::new(rt, alloc)?;
    let clients = watch.clients(alloc, ports.hooks, ports.runners)?;
    let views = watch.views(rt, alloc, ports.views, now, store.table())?;
    let mut turns = Box::new(
        alloc,
        first_turn(alloc, now, limits, store, clients, views)?,
    )?;
    serve(rt, &mut watch, &mut turns, out)
}
