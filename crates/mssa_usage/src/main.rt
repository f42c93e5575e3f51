//! The program on words that are not those of the command: no file is named.
#![tactic(auto)]

use std::process::ExitCode;

fn main(rt: HostRuntime) -> ExitCode {
    ms_program::run(rt)
}
