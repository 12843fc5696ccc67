//! The first run on a new machine: it plays the script on standard input over an empty table, a command a line, and
//! prints each answer.
#![tactic(auto)]

use command_lines::{admit_of, at_space, claim_of, done_of, look_of, spelled};
use run_plan::{Command, Reply};
use run_table::Table;
use std::alloc::Global;
use std::io::Read;
use std::process::ExitCode;
use wf_value::Refusal;

fn command_of(alloc: Global, table: &Table, line: &[u8]) -> Result<Command, Refusal> {
    let (word, fields) = spelled(at_space(line))?;
    if word == b"admit".as_slice() {
        admit_of(alloc, table.last_event(), fields)
    } else if word == b"claim".as_slice() {
        claim_of(alloc, fields)
    } else if word == b"done".as_slice() {
        done_of(alloc, fields)
    } else if word == b"look".as_slice() {
        look_of(fields)
    } else {
        spelled(None)
    }
}

fn played(alloc: Global, table: &mut Table, line: &[u8]) -> Result<Reply, Refusal> {
    let command = command_of(alloc, table, line)?;
    table.step(alloc, &command)
}

fn is_line_feed(byte: &u8) -> bool {
    *byte == b'\n'
}

fn main(rt: HostRuntime) -> ExitCode {
    let alloc = rt.alloc();
    let mut script = Vec::new(alloc);
    if rt.reader().read_to_end(&mut script).is_err() {
        return ExitCode::from(1);
    }
    let mut table = Table::new(alloc);
    for line in script.as_slice().split(is_line_feed) {
        if line.is_empty() {
            continue;
        }
        let answer = match played(alloc, &mut table, line) {
            Ok(reply) => reply.text(alloc),
            Err(refusal) => refusal.text(alloc),
        };
        if let Ok(text) = answer {
            let _ = rt.println(format_args!("{}", text.as_str()));
        }
    }
    ExitCode::from(0)
}
