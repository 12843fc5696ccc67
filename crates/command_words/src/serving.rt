//! The words of the subcommand that serves a store: `acts serve`.

ghost use Rattle.std.specs.Prelude.{◌<◌, ◌≤◌};

use crate::making::{Made, with_arg};
use clap::builder::ValueParser;
use clap::{Arg, ArgAction, ArgMatches, Command};
use std::alloc::{AllocError, Global};

/// The largest port number.
const MAX_PORT: u64 = 65_535;

const HOOK_PORT_HELP: &str =
    "The port of 127.0.0.1 for events, looks and cancels over HTTP, 1 to 65535";

const RUNNER_PORT_HELP: &str = "The port of 127.0.0.1 for the lines of runners, 1 to 65535";

/// The most sessions of a port.
const MAX_SESSIONS: u64 = 32;

/// The longest time that a client may stay silent, in seconds: a day.
const MAX_IDLE: u64 = 86_400;

/// The largest number of commands after which a history turns over.
const MAX_COMMANDS: u64 = 50_000;

/// The most runs of which `--keep-runs` keeps no more.
const MAX_KEPT_RUNS: u64 = 50_000;

/// The number of sessions of a round on each port.
#[derive(Drop)]
pub struct Sessions {
    pub count: u64,
    pub ghost some: { 0 < count },
    pub ghost most: { count ≤ 32 },
}

impl Sessions {
    fn of(count: u64) -> Option<Self> {
        if count == 0 || count > MAX_SESSIONS {
            return None;
        }
        Some(Sessions { count })
    }
}

/// How long a store is served.
#[derive(Clone, Copy)]
pub enum Span<'a> {
    /// For this number of rounds.
    Rounds(u64),
    /// Without end.
    Forever {
        /// The number of commands after which a history turns over.
        commands: u64,
        /// How long a client may stay silent, in seconds.
        idle: u64,
        /// How many runs are kept, the last ones, if the others are forgotten once they have completed.
        keep_runs: Option<u32>,
        /// The port to look at the service, if there is one.
        view_port: Option<u16>,
        /// The folder of the board that this port shows, if it shows one.
        board: Option<&'a str>,
    },
}

/// A store's file, the ports on which it is served, the number of sessions of a round on each, and how long it is
/// served.
#[derive(Drop)]
pub struct Serving<'a> {
    pub file: &'a str,
    pub hook_port: u16,
    pub runner_port: u16,
    pub sessions: Sessions,
    pub span: Span<'a>,
}

/// A port of this machine, from 1 to 65,535.
fn port_option<'a>(alloc: Global, name: &'a str, help: &'a str) -> Arg<'a> {
    Arg::new(alloc, name)
        .long(name)
        .required(true)
        .value_name("PORT")
        .value_parser(ValueParser::unsigned(1, MAX_PORT))
        .help(help)
}

/// The number of rounds of sessions, 1 by default.
fn rounds_option<'a>(alloc: Global) -> Arg<'a> {
    Arg::new(alloc, "rounds")
        .long("rounds")
        .value_name("ROUNDS")
        .help("Ends after ROUNDS rounds, 1 to 18446744073709551615, each with a history of its own")
        .default_value("1")
        .value_parser(ValueParser::unsigned(1, u64::MAX))
}

/// Whether the service runs without end.
fn forever_option<'a>(alloc: Global) -> Result<Arg<'a>, AllocError> {
    Arg::new(alloc, "forever")
        .long("forever")
        .help("Serves without end, up to 1024 clients on each port at a time")
        .action(ArgAction::SetTrue)
        .conflicts_with("rounds")
}

/// How long a client of a service without end may stay silent.
fn idle_option<'a>(alloc: Global) -> Result<Arg<'a>, AllocError> {
    Arg::new(alloc, "idle")
        .long("idle")
        .value_name("SECONDS")
        .help("With --forever: disconnects a client that says nothing for SECONDS, 1 to 86400")
        .default_value("300")
        .value_parser(ValueParser::unsigned(1, MAX_IDLE))
        .requires_arg("forever")
}

/// The port to look at a service without end.
fn view_port_option<'a>(alloc: Global) -> Result<Arg<'a>, AllocError> {
    Arg::new(alloc, "view-port")
        .long("view-port")
        .value_name("PORT")
        .help("With --forever: the port of 127.0.0.1 to look at the service over HTTP, 1 to 65535")
        .value_parser(ValueParser::unsigned(1, MAX_PORT))
        .requires_arg("forever")
}

/// The folder of the board of a service without end.
fn board_option<'a>(alloc: Global) -> Result<Arg<'a>, AllocError> {
    Arg::new(alloc, "board")
        .long("board")
        .value_name("FOLDER")
        .help(
            "With --view-port: shows the board in FOLDER there, its files board.html, board.js and board.css, each of at most 1048576 bytes",
        )
        .requires_arg("view-port")
}

/// The number of commands after which the history of a service without end turns over.
fn turn_over_option<'a>(alloc: Global) -> Result<Arg<'a>, AllocError> {
    Arg::new(alloc, "turn-over")
        .long("turn-over")
        .value_name("COMMANDS")
        .help(
            "With --forever: begins a new history after COMMANDS commands, 1 to 50000, or 64 MiB that clients have sent or received",
        )
        .default_value("50000")
        .value_parser(ValueParser::unsigned(1, MAX_COMMANDS))
        .requires_arg("forever")
}

/// How many runs a service without end keeps.
fn keep_runs_option<'a>(alloc: Global) -> Result<Arg<'a>, AllocError> {
    Arg::new(alloc, "keep-runs")
        .long("keep-runs")
        .value_name("RUNS")
        .help(
            "With --forever: forgets completed runs but the last RUNS, 1 to 50000, at the start and whenever a new history begins",
        )
        .value_parser(ValueParser::unsigned(1, MAX_KEPT_RUNS))
        .requires_arg("forever")
}

/// `acts serve FILE --hook-port PORT --runner-port PORT --sessions COUNT`, with `--rounds ROUNDS`, or with `--forever`
/// and its options.
pub(crate) fn serve_command<'a>(alloc: Global) -> Made<'a> {
    let file = Arg::new(alloc, "FILE")
        .required(true)
        .help("The file of the store, which no other server may use");
    let sessions = Arg::new(alloc, "sessions")
        .long("sessions")
        .required(true)
        .value_name("COUNT")
        .value_parser(ValueParser::unsigned(1, MAX_SESSIONS))
        .help(
            "The number of sessions of a round on each port, 1 to 32; it bounds nothing with --forever",
        );
    let serve = Command::new(alloc, "serve").about(
        "Serves the store in FILE on 127.0.0.1, with HTTP on one port and runner lines on the other: in rounds of COUNT sessions on each, or without end",
    );
    let serve = with_arg(Ok(serve), Ok(file));
    let serve = with_arg(serve, Ok(port_option(alloc, "hook-port", HOOK_PORT_HELP)));
    let serve = with_arg(
        serve,
        Ok(port_option(alloc, "runner-port", RUNNER_PORT_HELP)),
    );
    with_span(alloc, with_arg(serve, Ok(sessions)))
}

/// Adds the options that say how long a store is served.
fn with_span<'a>(alloc: Global, serve: Made<'a>) -> Made<'a> {
    let serve = with_arg(serve, Ok(rounds_option(alloc)));
    let serve = with_arg(serve, forever_option(alloc));
    let serve = with_arg(serve, idle_option(alloc));
    let serve = with_arg(serve, turn_over_option(alloc));
    let serve = with_arg(serve, keep_runs_option(alloc));
    let serve = with_arg(serve, view_port_option(alloc));
    with_arg(serve, board_option(alloc))
}

/// The port that an option names.
fn port_of(matches: &ArgMatches<'_>, name: &str) -> Option<u16> {
    u16::try_from(matches.get_one::<u64>(name)?).ok()
}

/// How many runs are to be kept, if not all.
fn keep_runs_of(matches: &ArgMatches<'_>) -> Option<u32> {
    u32::try_from(matches.get_one::<u64>("keep-runs")?).ok()
}

/// How long `acts serve` is to serve.
fn span_of<'a>(matches: &ArgMatches<'a>) -> Option<Span<'a>> {
    if !matches.get_flag("forever") {
        return Some(Span::Rounds(matches.get_one::<u64>("rounds")?));
    }
    Some(Span::Forever {
        commands: matches.get_one::<u64>("turn-over")?,
        idle: matches.get_one::<u64>("idle")?,
        keep_runs: keep_runs_of(matches),
        view_port: port_of(matches, "view-port"),
        board: matches.get_str("board"),
    })
}

/// The store, the ports and the sessions that the command line asks for.
pub(crate) fn serving_of<'a>(matches: &ArgMatches<'a>) -> Option<Serving<'a>> {
    Some(Serving {
        file: matches.get_str("FILE")?,
        hook_port: port_of(matches, "hook-port")?,
        runner_port: port_of(matches, "runner-port")?,
        sessions: Sessions::of(matches.get_one::<u64>("sessions")?)?,
        span: span_of(matches)?,
    })
}
