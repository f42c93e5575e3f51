//! The program on a file that it refuses: a name in it stands for nothing.
#![tactic(auto)]

use std::process::ExitCode;

fn main(rt: HostRuntime) -> ExitCode {
    ms_program::run(rt)
}
