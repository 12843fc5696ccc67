//! The words of the subcommands that show a store: `acts show`, `acts runners` and `acts queue`.

ghost use Rattle.std.specs.Prelude.{◌≤◌};
ghost use Rattle.definitions.specs.Limits.{last_number};

use crate::making::{Made, with_arg, with_subcommand};
use clap::builder::ValueParser;
use clap::{Arg, ArgAction, ArgMatches, Command};
use std::alloc::Global;

/// The largest run id that can be requested.
const MAX_RUN: u64 = 999_999_999;

/// The id of a run.
#[derive(Clone, Copy)]
pub struct RunId {
    pub number: u32,
    pub ghost least: { 1 ≤ number },
    pub ghost most: { number ≤ last_number },
}

impl RunId {
    fn of(run: u64) -> Option<Self> {
        if run == 0 || run > MAX_RUN {
            return None;
        }
        Some(RunId { number: run as u32 })
    }
}

/// What to show of a store.
#[derive(Clone, Copy)]
pub enum Shown {
    Runs,
    Run(RunId),
    Runners,
    Queue,
}

/// What to show of the store in a file, and whether each line is a JSON object.
#[derive(Drop)]
pub struct View<'a> {
    pub file: &'a str,
    pub what: Shown,
    pub json: bool,
}

fn json_option<'a>(alloc: Global) -> Arg<'a> {
    Arg::new(alloc, "json")
        .long("json")
        .action(ArgAction::SetTrue)
        .help("Prints a JSON object in each line, with the same values")
}

fn file_argument<'a>(alloc: Global) -> Arg<'a> {
    Arg::new(alloc, "FILE")
        .required(true)
        .help("The file of the store, which is only read")
}

/// `acts show FILE [RUN]`.
fn show_command<'a>(alloc: Global) -> Made<'a> {
    let run = Arg::new(alloc, "RUN")
        .value_parser(ValueParser::unsigned(1, MAX_RUN))
        .help("The id of one run, 1 to 999999999; without it all runs are shown");
    let show = Command::new(alloc, "show").about(
        "Prints the view of each run of the store in FILE, or of one run",
    );
    let show = with_arg(Ok(show), Ok(file_argument(alloc)));
    with_arg(with_arg(show, Ok(run)), Ok(json_option(alloc)))
}

/// Adds FILE and the form of the lines.
fn with_form<'a>(alloc: Global, view: Command<'a>) -> Made<'a> {
    let view = with_arg(Ok(view), Ok(file_argument(alloc)));
    with_arg(view, Ok(json_option(alloc)))
}

/// `acts runners FILE`.
fn runners_command<'a>(alloc: Global) -> Made<'a> {
    let runners = Command::new(alloc, "runners").about(
        "Prints a line for each runner of the store in FILE, with its last number and the lease that it holds",
    );
    with_form(alloc, runners)
}

/// `acts queue FILE`.
fn queue_command<'a>(alloc: Global) -> Made<'a> {
    let queue = Command::new(alloc, "queue").about(
        "Prints a line for each leg of the store in FILE that is ready, and for each concurrency group that is in use",
    );
    with_form(alloc, queue)
}

/// Adds the subcommands that show a store.
pub(crate) fn with_views<'a>(alloc: Global, acts: Made<'a>) -> Made<'a> {
    let acts = with_subcommand(acts, show_command(alloc));
    let acts = with_subcommand(acts, runners_command(alloc));
    with_subcommand(acts, queue_command(alloc))
}

/// All runs, or the one whose id is given.
pub(crate) fn runs_of(matches: &ArgMatches<'_>) -> Option<Shown> {
    match matches.get_one::<u64>("RUN") {
        Some(run) => Some(Shown::Run(RunId::of(run)?)),
        None => Some(Shown::Runs),
    }
}

/// The view that the command line asks for.
pub(crate) fn view_of<'a>(matches: &ArgMatches<'a>, what: Shown) -> Option<View<'a>> {
    Some(View {
        file: matches.get_str("FILE")?,
        what,
        json: matches.get_flag("json"),
    })
}
