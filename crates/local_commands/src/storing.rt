//! Makes a store in a file, copies one into a larger file, and shows one: `acts init`, `acts grow`, `acts show`, `acts runners` and `acts queue`.

use crate::failure::{Failure, ended};
use crate::streams::output;
use act_disk::Start;
use act_store::Store;
use command_words::{AreaLength, Growth, Shown as Asked, View};
use process_io::HeldStreams;
use program_commands::{Form, Shown, run_init, run_show};
use run_plan::Number;
use std::fs::{File, Files};
use std::sync::Wait;
use std::thread::Threads;
use std::time::Clock;
use store_copies::check_area;

/// Makes a store in a file, which is created if it does not exist. No other server may use it.
pub fn init<
    'a,
    B: Start,
    R: Print + Files<File = File> + AllocGlobal,
    S: Threads + Wait + Clock + Eprint + Sync,
>(rt: &R, system: &S, file: &'a str, area: &AreaLength) -> Result<(), Failure<'a>> {
    let streams = HeldStreams::hold(rt)?;
    let disk = streams.create_for_server::<B, R, S>(rt, system, file, 2 * area.bytes)?;
    let mut out = output(rt)?;
    let made = run_init(rt.alloc(), disk, area.bytes, &mut out).1;
    ended(made, out.into_fault(), None)
}

/// Copies the store in a file into a new one, whose areas have another length. No other server may use either. The new file is made once
/// it is known that the table fits.
pub fn grow<
    'a,
    B: Start,
    R: Print + Files<File = File> + AllocGlobal,
    S: Threads + Wait + Clock + Eprint + Sync,
>(rt: &R, system: &S, growth: &Growth<'a>) -> Result<(), Failure<'a>> {
    let streams = HeldStreams::hold(rt)?;
    let disk = streams.open_for_copying::<B, R, S>(rt, system, growth.file)?;
    let store = match Store::open(rt.alloc(), disk) {
        Ok(store) => store,
        Err((_, refusal)) => return Err(Failure::from(refusal)),
    };
    let area = growth.area.bytes;
    check_area(&store, area)?;
    let mut out = output(rt)?;
    let new = streams.make_for_server(rt, system, growth.new, 2 * area)?;
    let grown = store_copies::grow(rt.alloc(), &store, new, area, &mut out).1;
    ended(grown, out.into_fault(), None)
}

/// What is asked for, as the store's views know it.
fn shown_of(what: Asked) -> Shown {
    match what {
        Asked::Runs => Shown::Runs,
        Asked::Run(id) => Shown::Run(Number::new(id.number)),
        Asked::Runners => Shown::Runners,
        Asked::Queue => Shown::Queue,
    }
}

/// Shows a store.
pub fn show<'a, B: Start, R: Print + Files<File = File> + AllocGlobal>(
    rt: &R,
    view: &View<'a>,
) -> Result<(), Failure<'a>> {
    let streams = HeldStreams::hold(rt)?;
    let disk = streams.open_for_reading::<B, R>(rt, view.file)?;
    let form = if view.json { Form::Json } else { Form::Lines };
    let mut out = output(rt)?;
    let shown = run_show(rt.alloc(), disk, shown_of(view.what), form, &mut out).1;
    ended(shown, out.into_fault(), None)
}
