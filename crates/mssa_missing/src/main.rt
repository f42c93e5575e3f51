//! The program on a file that is not there.
#![tactic(auto)]

use std::process::ExitCode;

fn main(rt: HostRuntime) -> ExitCode {
    ms_program::run(rt)
}
