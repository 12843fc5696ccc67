//! Serves a store: `acts serve`.

ghost use Rattle.std.specs.Prelude.{◌≡◌, [], IfOk};
ghost use Rattle.act_disk.specs.FileDisk.{honest_of};
ghost use Rattle.act_store.specs.Images.{RecoversTo};

use act_disk::Start;
use act_store::Store;
use command_words::{Serving, Span, VERSION};
use local_commands::{Failure, ended, output};
use process_io::{HeldStreams, RealDisk, ResourceFault, file_in, listener};
use service_forever::{Board, Limits, Ports, ViewPort, serve_forever};
use service_rounds::serve_rounds;
use std::alloc::Global;
use std::fs::{File, Files};
use std::io::{ErrorKind, Write};
use std::net::{Net, TcpListener, TcpStream};
use std::sync::Wait;
use std::thread::Threads;
use std::time::{Clock, Duration};
use wf_value::Refusal;

/// The longest file of a board, in bytes.
const MAX_BOARD_FILE: u64 = 1_048_576;

/// Opens the store in a file. No other server may use it. It begins at the table to which the file recovers.
/// Promise (The program): `acts serve` begins at the table to which the bytes of the file recover, as it was opened, with an empty history
/// By: `program_main::serving::open_store`, `base`, `fresh`; `service_forever::serve_forever`, `service_rounds::serve_rounds`: what they require
fn open_store<
    'a,
    B: Start,
    R: Files<File = File> + AllocGlobal,
    S: Threads + Wait + Clock + Eprint + Sync,
>(rt: &R, system: &S, file: &'a str) -> Result<Store<RealDisk<B>>, Failure<'a>>
    ensures fresh { IfOk result (λ store. store.history ≡ []) }
    ensures base { IfOk result (λ store. honest_of store.disk → RecoversTo store.base B.Start.held) }
{
    let streams = HeldStreams::hold(rt)?;
    let disk = streams.open_for_server::<B, R, S>(rt, system, file)?;
    match Store::open(rt.alloc(), disk) {
        Ok(store) => Ok(store),
        Err((_, refusal)) => Err(Failure::from(refusal)),
    }
}

/// The listeners on the ports.
#[derive(Drop)]
struct Listeners {
    hooks: TcpListener,
    runners: TcpListener,
    views: Option<TcpListener>,
}

/// The port to look at a service, if one is asked for.
fn view_port(span: &Span<'_>) -> Option<u16> {
    match span {
        Span::Rounds(_) => None,
        Span::Forever { view_port, .. } => *view_port,
    }
}

fn view_listener<'a, S: Net<Listener = TcpListener, Stream = TcpStream>>(
    system: &S,
    port: Option<u16>,
) -> Result<Option<TcpListener>, ResourceFault<'a>> {
    match port {
        Some(port) => Ok(Some(listener(system, port)?)),
        None => Ok(None),
    }
}

fn bound_listeners<'a, S: Net<Listener = TcpListener, Stream = TcpStream>>(
    system: &S,
    serving: &Serving<'_>,
) -> Result<Listeners, ResourceFault<'a>> {
    Ok(Listeners {
        hooks: listener(system, serving.hook_port)?,
        runners: listener(system, serving.runner_port)?,
        views: view_listener(system, view_port(&serving.span))?,
    })
}

/// A file of the board in a folder, if it is there.
fn board_file<'a, R: Files<File = File> + AllocGlobal>(
    rt: &R,
    folder: &'a str,
    name: &str,
) -> Result<Option<Vec<u8>>, Failure<'a>> {
    match file_in(rt, folder, name, MAX_BOARD_FILE) {
        Ok(bytes) => Ok(bytes),
        Err(error) if error.kind() == ErrorKind::OutOfMemory => Err(Failure::no_memory()),
        Err(error) => Err(Failure::from(ResourceFault::File(folder, error))),
    }
}

/// The board of a service, without a file if none is asked for.
fn board<'a, R: Files<File = File> + AllocGlobal>(
    rt: &R,
    span: Span<'a>,
) -> Result<Board, Failure<'a>> {
    let Span::Forever {
        board: Some(folder),
        ..
    } = span
    else {
        return Ok(Board::none());
    };
    Ok(Board {
        page: board_file(rt, folder, "board.html")?,
        script: board_file(rt, folder, "board.js")?,
        style: board_file(rt, folder, "board.css")?,
    })
}

/// The ports of a service.
fn ports<'a>(listeners: &'a Listeners, board: &'a Board) -> Ports<'a> {
    let views = match &listeners.views {
        Some(listener) => Some(ViewPort {
            listener,
            version: VERSION,
            board,
        }),
        None => None,
    };
    Ports {
        hooks: &listeners.hooks,
        runners: &listeners.runners,
        views,
    }
}

/// Serves a store on its ports, in rounds or without end.
fn serve_on<
    B: Start + Send,
    S: Threads + Wait + Clock + Sync + Net<Listener = TcpListener, Stream = TcpStream>,
    O: Write,
>(
    system: &S,
    alloc: Global,
    store: Store<RealDisk<B>>,
    ports: Ports<'_>,
    serving: &Serving<'_>,
    out: &mut O,
) -> Result<(), Refusal>
    requires fresh { store.history ≡ [] }
    requires base { honest_of store.disk → RecoversTo store.base B.Start.held }
{
    match serving.span {
        Span::Rounds(rounds) => {
            let sessions = serving.sessions.count;
            let (hooks, runners) = (ports.hooks, ports.runners);
            serve_rounds(system, alloc, store, hooks, runners, sessions, rounds, out)?;
            Ok(())
        }
        Span::Forever {
            commands,
            idle,
            keep_runs,
            ..
        } => {
            let limits = Limits {
                commands,
                idle: Duration::from_secs(idle),
                keep_runs,
            };
            serve_forever(system, alloc, store, ports, limits, out)
        }
    }
}

/// Serves the store in a file.
pub(crate) fn serve<
    'a,
    B: Start + Send,
    R: Print + Files<File = File> + AllocGlobal,
    S: Threads + Wait + Clock + Eprint + Sync + Net<Listener = TcpListener, Stream = TcpStream>,
>(rt: &R, system: &S, serving: &Serving<'a>) -> Result<(), Failure<'a>> {
    let store = open_store::<B, R, S>(rt, system, serving.file)?;
    let listeners = bound_listeners(system, serving)?;
    let board = board(rt, serving.span)?;
    let mut out = output(rt)?;
    let ports = ports(&listeners, &board);
    let served = serve_on(system, rt.alloc(), store, ports, serving, &mut out);
    ended(served, out.into_fault(), None)
}
