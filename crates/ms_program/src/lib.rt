//! The program on the machine's files and streams: words from the machine, the top call, an exit code. No contract can
//! say what a machine's words, files and streams are, so what a run does is said at the top call, and what the exit code is
//! at the status.
#![tactic(auto)]

use ms_cli::{Status, Words, mssa, tell};
use ms_io::{FileFault, HostFiles, HostSink, Items, Str};
use std::alloc::Global;
use std::env;
use std::io::ErrorKind;
use std::process::ExitCode;

// Copies the words after the program's name.
fn copied(alloc: Global, args: env::Args) -> Result<Words, FileFault> {
    let mut words = Items::new(alloc);
    for arg in args.skip(1) {
        words.push(Str::new(alloc, arg.as_str())?)?;
    }
    Ok(words)
}

// The words after the program's name. Words that are not text are not those of the command.
fn words_of(rt: &HostRuntime, alloc: Global) -> Result<Words, Status> {
    match env::args(rt) {
        Ok(args) => copied(alloc, args).map_err(|_| Status::Memory),
        Err(error) if error.kind() == ErrorKind::OutOfMemory => Err(Status::Memory),
        Err(_) => Err(Status::Usage),
    }
}

/// Runs the program on the words that it was started with, and gives the code to exit with.
pub fn run(rt: HostRuntime) -> ExitCode {
    let alloc = rt.alloc();
    let mut out = HostSink::new(rt.stdout());
    let mut err = HostSink::new(rt.stderr());
    let status = match words_of(&rt, alloc) {
        Ok(words) => {
            let mut files = HostFiles::new(rt);
            mssa(alloc, &words, &mut files, &mut out, &mut err)
        }
        Err(status) => {
            tell(&mut err, &Items::new(alloc), b"", status);
            status
        }
    };
    ExitCode::from(status.exit_code())
}
