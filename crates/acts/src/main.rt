//! The program `acts`: the coordinating half of GitHub Actions.
#![tactic(auto)]

use act_disk::Empty;
use std::process::ExitCode;

fn main(rt: HostRuntime) -> ExitCode {
    program_main::run::<Empty, _, _>(&rt, &rt)
}
