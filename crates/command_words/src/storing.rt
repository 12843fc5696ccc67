//! The words of the subcommands that make a store: `acts init` and `acts grow`.

ghost use Rattle.std.specs.Prelude.{◌≤◌};
ghost use Rattle.definitions.specs.Limits.{max_area, min_area};

use crate::making::{Made, with_arg};
use clap::builder::ValueParser;
use clap::{Arg, ArgMatches, Command};
use std::alloc::Global;

/// The least length of an area, in bytes.
const MIN_AREA: u64 = 4_096;

/// The greatest length of an area, in bytes.
const MAX_AREA: u64 = 1_073_741_824;

/// The length of each area of a new store, in bytes.
#[derive(Drop)]
pub struct AreaLength {
    pub bytes: u64,
    pub ghost least: { min_area ≤ bytes },
    pub ghost most: { bytes ≤ max_area },
}

impl AreaLength {
    fn of(bytes: u64) -> Option<Self> {
        if bytes < MIN_AREA || bytes > MAX_AREA {
            return None;
        }
        Some(AreaLength { bytes })
    }
}

/// The file of a store, the new one into which it is copied, and the length of each area there.
#[derive(Drop)]
pub struct Growth<'a> {
    pub file: &'a str,
    pub new: &'a str,
    pub area: AreaLength,
}

/// An argument that is a path.
fn path_argument<'a>(alloc: Global, name: &'a str, help: &'a str) -> Arg<'a> {
    Arg::new(alloc, name).required(true).help(help)
}

fn area_argument<'a>(alloc: Global) -> Arg<'a> {
    Arg::new(alloc, "AREA")
        .required(true)
        .value_parser(ValueParser::unsigned(MIN_AREA, MAX_AREA))
        .help("The length of each of the two areas, 4096 to 1073741824 bytes")
}

/// `acts init FILE AREA`.
pub(crate) fn init_command<'a>(alloc: Global) -> Made<'a> {
    let file = path_argument(
        alloc,
        "FILE",
        "The file to create; if it exists, it has to be empty",
    );
    let init = Command::new(alloc, "init").about(
        "Makes an empty store of two areas of AREA bytes in FILE, which is created if it does not exist",
    );
    with_arg(with_arg(Ok(init), Ok(file)), Ok(area_argument(alloc)))
}

/// `acts grow FILE NEW AREA`.
pub(crate) fn grow_command<'a>(alloc: Global) -> Made<'a> {
    let file = path_argument(
        alloc,
        "FILE",
        "The file of the store, which is only read, and which no server may use meanwhile",
    );
    let new = path_argument(alloc, "NEW", "The file to create, which must not exist");
    let grow = Command::new(alloc, "grow").about(
        "Copies the store in FILE, with all that it holds, into NEW, a new file of two areas of AREA bytes",
    );
    let grow = with_arg(with_arg(Ok(grow), Ok(file)), Ok(new));
    with_arg(grow, Ok(area_argument(alloc)))
}

/// The length of each area that the command line asks for.
pub(crate) fn area_of(matches: &ArgMatches<'_>) -> Option<AreaLength> {
    AreaLength::of(matches.get_one::<u64>("AREA")?)
}

/// The growth that the command line asks for.
pub(crate) fn growth_of<'a>(matches: &ArgMatches<'a>) -> Option<Growth<'a>> {
    Some(Growth {
        file: matches.get_str("FILE")?,
        new: matches.get_str("NEW")?,
        area: area_of(matches)?,
    })
}
