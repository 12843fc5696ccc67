//! Carries out the command line, and says its exit status.

use crate::serving::serve;
use act_disk::Start;
use command_words::{Request, not_text, numbers, parse};
use local_commands::{
    Failure, check, explain, grow, init, lint, play, print_message, show, status_of,
};
use std::fs::{File, Files};
use std::net::{Net, TcpListener, TcpStream};
use std::process::ExitCode;
use std::rt::Env;
use std::sync::Wait;
use std::thread::Threads;
use std::time::Clock;
use std::{env, io};

/// The words of the command line. One that is not UTF-8 gives an error of kind `InvalidData`.
fn words<R: Env + AllocGlobal>(rt: &R) -> io::Result<Vec<String>> {
    Ok(env::args(rt)?.collect(rt.alloc())?)
}

/// Carries out a request, and returns the exit status.
fn perform<
    'a,
    B: Start + Send,
    R: Input + Print + Files<File = File> + AllocGlobal,
    S: Threads + Wait + Clock + Eprint + Sync + Net<Listener = TcpListener, Stream = TcpStream>,
>(rt: &R, system: &S, request: Request<'a>) -> Result<u8, Failure<'a>> {
    match request {
        Request::Play => play(rt)?,
        Request::Check => check(rt)?,
        Request::Lint => return lint(rt),
        Request::Init(file, area) => init::<B, R, S>(rt, system, file, &area)?,
        Request::Grow(growth) => grow::<B, R, S>(rt, system, &growth)?,
        Request::Show(view) => show::<B, R>(rt, &view)?,
        Request::Serve(serving) => serve::<B, R, S>(rt, system, &serving)?,
        Request::Explain(explanation) => explain(rt, explanation)?,
    }
    Ok(0)
}

/// Carries out the command line with these words, and returns the exit status.
fn perform_words<
    B: Start + Send,
    R: Input + Print + Eprint + Files<File = File> + AllocGlobal,
    S: Threads + Wait + Clock + Eprint + Sync + Net<Listener = TcpListener, Stream = TcpStream>,
>(rt: &R, system: &S, numbers: &[&str], words: &[String]) -> u8 {
    match parse(rt.alloc(), numbers, words) {
        Ok(request) => status_of(rt, perform::<B, R, S>(rt, system, request)),
        Err(unparsed) => status_of(rt, print_message(rt, &unparsed)),
    }
}

fn execute<
    B: Start + Send,
    R: Input + Print + Eprint + Env + Files<File = File> + AllocGlobal,
    S: Threads + Wait + Clock + Eprint + Sync + Net<Listener = TcpListener, Stream = TcpStream>,
>(rt: &R, system: &S) -> Result<u8, Failure<'static>> {
    let numbers = numbers(rt.alloc())?;
    match words(rt) {
        Ok(words) => Ok(perform_words::<B, R, S>(rt, system, numbers.as_slice(), words.as_slice())),
        Err(error) if error.kind() == io::ErrorKind::InvalidData => {
            print_message(rt, &not_text(rt.alloc(), numbers.as_slice()))
        }
        Err(_) => Err(Failure::no_memory()),
    }
}

/// Carries out the command line. Its words, streams and files are those of `rt`; its threads and ports are those of
/// `system`. The exit status is 0, also after a help text. It is 1 after a refusal, which is printed on standard error
/// as `acts: refused N`, with a line on the file, the port or the stream that is the reason, and 2 after a usage error,
/// which is printed there too.
///
/// `B` says what a file held as it was opened. It is used in contracts alone, and nothing is assumed of it, so what is
/// proved holds for each file.
/// Refusal (Sessions and programs): `program_main::run`, and so `acts`
/// When: status 1 with `acts: refused N`: standard output closed, FILE or its lock, a port: 61; FILE over the limit of a file's length: 51; out
///   of memory: 50; the calls above: T
/// Afterwards: as of the call: T
/// By: none; `sweeps/program` (`command_lines`), `sweeps/closed_streams`
/// Refusal (Sessions and programs): `program_main::run`, and so `acts`
/// When: status 2: an error in the command line: T
/// Afterwards: nothing was opened: T
/// By: none; `sweeps/program` (`command_lines`)
pub fn run<
    B: Start + Send,
    R: Input + Print + Eprint + Env + Files<File = File> + AllocGlobal,
    S: Threads + Wait + Clock + Eprint + Sync + Net<Listener = TcpListener, Stream = TcpStream>,
>(rt: &R, system: &S) -> ExitCode {
    ExitCode::from(status_of(rt, execute::<B, R, S>(rt, system)))
}
