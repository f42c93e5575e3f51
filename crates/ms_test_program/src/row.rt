// One run over one file in memory.
ghost use Rattle.std.specs.Prelude.{◌≤◌};

use ms_cli::{Refusal, Status, Words, mssa};
use ms_io::{Bytes, CallNos, FileFault, Held, Items, MemFiles, MemSink, Str};
use std::alloc::Global;
use std::process::Abort;

/// The word for one printing pass.
pub const PRINT: &str = "--passes=print<memoryssa>";

/// The bytes that a sink has room for.
pub const ROOM: usize = 400_000;

/// The most that a sink takes in a call.
pub const MOST: usize = 10_000;

/// What a run is given: its words, the one file that there is, and the numbers of the calls that fail.
#[derive(Clone, Copy)]
pub struct Row<'a> {
    pub words: &'a [&'a str],
    pub name: &'a str,
    pub bytes: &'a [u8],
    pub reads_that_fail: &'a [u64],
    pub most: usize,
    pub writes_that_fail: &'a [u64],
    pub tells_that_fail: &'a [u64],
}

/// What a run left.
#[derive(Drop)]
pub struct Left {
    pub status: Status,
    pub out: MemSink,
    pub err: MemSink,
}

fn words_of(alloc: Global, words: &[&str]) -> Result<Words, FileFault> {
    let mut copied = Items::new(alloc);
    for word in words {
        copied.push(Str::new(alloc, word)?)?;
    }
    Ok(copied)
}

fn held(alloc: Global, name: &str, bytes: &[u8]) -> Result<Held, FileFault> {
    let mut held = Items::new(alloc);
    let bytes: Bytes = Items::from_slice(alloc, bytes)?;
    held.push((Str::new(alloc, name)?, bytes))?;
    Ok(held)
}

fn calls(alloc: Global, numbers: &[u64]) -> Result<CallNos, FileFault> {
    Items::from_slice(alloc, numbers)
}

/// Runs the program.
pub fn run(alloc: Global, row: &Row) -> Result<Left, FileFault>
    requires { 1 ≤ row.now.most }
{
    let words = words_of(alloc, row.words)?;
    let held = held(alloc, row.name, row.bytes)?;
    let mut files = MemFiles::new(alloc, held, calls(alloc, row.reads_that_fail)?);
    let mut out = MemSink::new(alloc, ROOM, row.most, calls(alloc, row.writes_that_fail)?)?;
    let mut err = MemSink::new(alloc, ROOM, MOST, calls(alloc, row.tells_that_fail)?)?;
    let status = mssa(alloc, &words, &mut files, &mut out, &mut err);
    Ok(Left { status, out, err })
}

/// Runs the program with these words on a file with these bytes. Nothing fails.
pub fn run_on(alloc: Global, words: &[&str], name: &str, bytes: &[u8]) -> Result<Left, FileFault> {
    run(
        alloc,
        &Row {
            words,
            name,
            bytes,
            reads_that_fail: &[],
            most: MOST,
            writes_that_fail: &[],
            tells_that_fail: &[],
        },
    )
}

/// The status of a module that is refused with this number at this place.
pub fn refused(number: u32, place: u32) -> Status {
    Status::Refused(Refusal { number, place })
}

/// Expects what a run left: its status, and what was written to both sinks.
pub fn expect(rt: &impl Abort, left: &Left, status: Status, out: &[u8], err: &[u8]) {
    assert_eq!(rt; left.status, status);
    assert_eq!(rt; left.out.bytes(), out);
    assert_eq!(rt; left.err.bytes(), err);
}
