//! The program `ira`.
#![tactic(auto)]

use ira_main::start;
use std::process::ExitCode;

fn main(rt: HostRuntime) -> ExitCode {
    start(&rt, rt.stdin(), rt.stdout(), rt.stderr())
}
