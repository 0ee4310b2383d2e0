//! The program `wfarm`: calls `wf_commands`, which has all of its code.
#![tactic(auto)]

use std::process::ExitCode;
use wf_commands::run_process;

fn main(rt: HostRuntime) -> ExitCode {
    run_process(&rt)
}
