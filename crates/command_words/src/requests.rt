//! The requests of the command line, and the words that `clap` accepts for each.

use crate::commit::VERSION;
use crate::explain::{Explanation, explanation_of};
use crate::making::{Made, with_arg, with_subcommand};
use crate::message::Unparsed;
use crate::serving::{Serving, serve_command, serving_of};
use crate::storing::{AreaLength, Growth, area_of, grow_command, growth_of, init_command};
use crate::viewing::{Shown, View, runs_of, view_of, with_views};
use clap::error::ErrorKind;
use clap::{Arg, ArgMatches, Command, Error};
use std::alloc::{AllocError, Global};

/// What is said of a run's id that has a sign or begins with a zero.
const RUN_FORM: &str =
    "invalid value for '[RUN]': the id of a run has no sign, and no zero before it";

/// What is said of words that are not UTF-8.
const NOT_TEXT: &str = "a word of the command line is not UTF-8";

/// A request of the command line.
#[derive(Drop)]
pub enum Request<'a> {
    Play,
    Check,
    Lint,
    /// Make a store in this file.
    Init(&'a str, AreaLength),
    /// Copy a store into a new file.
    Grow(Growth<'a>),
    /// Show a store.
    Show(View<'a>),
    Serve(Serving<'a>),
    Explain(&'static Explanation),
}

/// `acts play`.
fn play_command<'a>(alloc: Global) -> Command<'a> {
    Command::new(alloc, "play").about(
        "Plays the script on standard input, and prints one answer for each line",
    )
}

/// `acts check`.
fn check_command<'a>(alloc: Global) -> Command<'a> {
    Command::new(alloc, "check").about(
        "Reads the JSON of a workflow on standard input, and prints a line JOB LEG COMBO for each leg",
    )
}

/// `acts lint`.
fn lint_command<'a>(alloc: Global) -> Command<'a> {
    Command::new(alloc, "lint").about(
        "Reads the JSON of a workflow on standard input, and prints a line NUMBER PATH: MEANING for each fault",
    )
}

/// `acts explain NUMBER`, where NUMBER is one of `numbers`.
fn explain_command<'a>(alloc: Global, numbers: &'a [&'a str]) -> Made<'a> {
    let number = Arg::new(alloc, "NUMBER")
        .required(true)
        .value_parser(numbers)
        .help("The number of a refusal, which follows the word refused");
    let explain = Command::new(alloc, "explain").about(
        "Says what the refusal with this number means, and what helps",
    );
    with_arg(Ok(explain), Ok(number))
}

/// Adds the subcommands that read standard input.
fn with_readers<'a>(alloc: Global, acts: Made<'a>) -> Made<'a> {
    let acts = with_subcommand(acts, Ok(play_command(alloc)));
    let acts = with_subcommand(acts, Ok(check_command(alloc)));
    with_subcommand(acts, Ok(lint_command(alloc)))
}

/// Adds the subcommands on a store in a file.
fn with_stores<'a>(alloc: Global, acts: Made<'a>) -> Made<'a> {
    let acts = with_subcommand(acts, init_command(alloc));
    let acts = with_subcommand(acts, grow_command(alloc));
    with_subcommand(with_views(alloc, acts), serve_command(alloc))
}

/// The program without its subcommands.
fn program<'a>(alloc: Global) -> Command<'a> {
    Command::new(alloc, "acts")
        .about("The coordinating half of GitHub Actions")
        .version(VERSION)
        .subcommand_required(true)
}

/// The command line of `acts`. Its `explain` takes one of these numbers.
fn command<'a>(alloc: Global, numbers: &'a [&'a str]) -> Made<'a> {
    let acts = with_readers(alloc, Ok(program(alloc)));
    let acts = with_stores(alloc, acts);
    with_subcommand(acts, explain_command(alloc, numbers))
}

/// The request of `acts init`.
fn init_of<'a>(matches: &ArgMatches<'a>) -> Option<Request<'a>> {
    Some(Request::Init(matches.get_str("FILE")?, area_of(matches)?))
}

/// The request of `acts explain`.
fn explain_of<'a>(matches: &ArgMatches<'a>) -> Option<Request<'a>> {
    let explanation = explanation_of(matches.get_str("NUMBER")?)?;
    Some(Request::Explain(explanation))
}

/// The request of the subcommand with this name, if it shows a store.
fn view_request<'a>(name: &str, matches: &ArgMatches<'a>) -> Option<Request<'a>> {
    match name {
        "show" => Some(Request::Show(view_of(matches, runs_of(matches)?)?)),
        "runners" => Some(Request::Show(view_of(matches, Shown::Runners)?)),
        "queue" => Some(Request::Show(view_of(matches, Shown::Queue)?)),
        _ => None,
    }
}

/// The request of the command line that `clap` accepted.
fn request_of<'a>(matches: &ArgMatches<'a>) -> Option<Request<'a>> {
    match matches.subcommand() {
        Some(("play", _)) => Some(Request::Play),
        Some(("check", _)) => Some(Request::Check),
        Some(("lint", _)) => Some(Request::Lint),
        Some(("init", matches)) => init_of(matches),
        Some(("grow", matches)) => Some(Request::Grow(growth_of(matches)?)),
        Some(("serve", matches)) => Some(Request::Serve(serving_of(matches)?)),
        Some(("explain", matches)) => explain_of(matches),
        Some((name, matches)) => view_request(name, matches),
        None => None,
    }
}

/// Parses the words of the command line. Its `explain` takes one of these numbers.
pub fn parse<'a>(
    alloc: Global,
    numbers: &'a [&'a str],
    words: &'a [String],
) -> Result<Request<'a>, Unparsed> {
    let mut command = command(alloc, numbers)?;
    Ok(parse_by(&mut command, words)?)
}

/// Whether the command line names a run by more than its number, as `01` and `+1` do.
fn misspells_run(matches: &ArgMatches<'_>) -> bool {
    let Some(("show", matches)) = matches.subcommand() else {
        return false;
    };
    match matches.get_str("RUN") {
        Some(run) => run.starts_with('0') || run.starts_with('+'),
        None => false,
    }
}

fn parse_by<'a>(command: &mut Command<'a>, words: &'a [String]) -> Result<Request<'a>, Error> {
    let matches = command.try_get_matches_from_mut(words)?;
    if misspells_run(&matches) {
        return Err(command.error(ErrorKind::ValueValidation, RUN_FORM)?);
    }
    match request_of(&matches) {
        Some(request) => Ok(request),
        None => Err(command.error(ErrorKind::InvalidSubcommand, "no such subcommand")?),
    }
}

/// The usage error of a command line with a word that is not UTF-8.
pub fn not_text(alloc: Global, numbers: &[&str]) -> Unparsed {
    match error_of(alloc, numbers, NOT_TEXT) {
        Ok(error) => Unparsed::from(error),
        Err(_) => Unparsed::NoMemory,
    }
}

fn error_of(alloc: Global, numbers: &[&str], text: &str) -> Result<Error, AllocError> {
    let mut command = command(alloc, numbers)?;
    command.error(ErrorKind::InvalidValue, text)
}
