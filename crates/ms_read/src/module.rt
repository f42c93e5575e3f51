// Reading the text of a module, line by line.
ghost use Rattle.std.specs.Prelude.{◌≡◌, ◌<◌, ◌^◌, length, ◌++◌, IfOk, IfErr, OnOk};
ghost use Rattle.ms_line.specs.Sorts as sorts;
ghost use Rattle.ms_line.specs.Cause.{IsPast};
ghost use Rattle.ms_read.specs.Draft.{said, IsDraft, IsModuleCause};
ghost use Rattle.ms_read.specs.Places.{AreFew};
ghost use Rattle.ms_read.specs.Next.{Goes, FailsThere, IsTaken, FailsSo};

use crate::fault::ReadFault;
use crate::place::Progress;
use crate::rows::next_row;
use ms_ir::{Items, NoMemory};
use ms_line::{Line, LineFault, Sort, read_line, sort_of, sort_of_line};
use std::alloc::Global;

/// The lines of a module's text that say something, in order, each with its number, counted from 1.
pub type Draft = Items<(u32, Line)>;

// Why a row that passes a limit of its own fails.
fn fault_of_long(alloc: Global, at: Progress, number: u32, row: &[u8]) -> ReadFault
    requires short { length row.now < 2 ^ 32 }
    requires few { AreFew at }
    requires long { IsPast row.now }
    ensures { FailsSo at number row.now result }
{
    match sort_of(alloc, row) {
        Ok(sort) => match at.behind(sort) {
            Some(_) => ReadFault::Limit(number),
            None => ReadFault::Text(number),
        },
        Err(LineFault::NotOfProfile) => ReadFault::Text(number),
        Err(LineFault::TooLong) | Err(LineFault::Memory) => ReadFault::Memory,
    }
}

// How far the text is behind a line of a sort, or why the line fails.
fn next_of(at: Progress, number: u32, sort: Sort) -> Result<Progress, ReadFault>
    requires { AreFew at }
    ensures ok { IfOk result (λ next. Goes at sort next) }
    ensures err { IfErr result (FailsThere at number sort) }
{
    match at.behind(sort) {
        Some(next) => {
            if next.are_few() {
                Ok(next)
            } else {
                Err(ReadFault::Limit(number))
            }
        }
        None => Err(ReadFault::Text(number)),
    }
}

// Appends a line with its number, where it says something.
fn push_said(draft: &mut Draft, number: u32, line: Line) -> Result<(), NoMemory>
    ensures { OnOk result (draft.new ≡ draft.old ++ said number line) }
{
    match line {
        Line::Empty => Ok(()),
        line => draft.push((number, line)),
    }
}

// Appends what a row says, and tells how far the text is behind it. A line may be appended although it fails.
fn take_row(
    alloc: Global,
    draft: &mut Draft,
    at: Progress,
    number: u32,
    row: &[u8],
) -> Result<Progress, ReadFault>
    requires short { length row.now < 2 ^ 32 }
    requires few { AreFew at }
    ensures ok { IfOk result (λ next. IsTaken at number row.now draft.old draft.new next) }
    ensures err { IfErr result (FailsSo at number row.now) }
{
    let line = match read_line(alloc, row) {
        Ok(line) => line,
        Err(LineFault::NotOfProfile) => return Err(ReadFault::Text(number)),
        Err(LineFault::TooLong) => return Err(fault_of_long(alloc, at, number, row)),
        Err(LineFault::Memory) => return Err(ReadFault::Memory),
    };
    let sort = sort_of_line(&line);
    push_said(draft, number, line)?;
    next_of(at, number, sort)
}

/// The draft of a module's text.
///
/// `Text` and `Limit` name the first line that fails. `Text` comes exactly where that line is in no grammar
/// or may not stand where it stands, and, at the number behind the last, where the text ends inside a
/// function; `Limit` exactly where it may stand there and passes a limit: one of a line, or more than 256
/// functions, 1,024 blocks in a function or 4,096 instructions in a function. `Memory` comes where memory
/// runs out. The last line need not end in a line feed.
pub fn read_module(alloc: Global, bytes: &[u8]) -> Result<Draft, ReadFault>
    requires { length bytes.now < 2 ^ 32 }
    ensures ok { IfOk result (λ d. IsDraft bytes.now d) }
    ensures err { IfErr result (λ fault. IsModuleCause bytes.now fault) }
{
    let mut draft = Items::new(alloc);
    let mut at = Progress::outset();
    let mut read: u32 = 0;
    let mut rest = bytes;
    while let Some((row, after)) = next_row(rest) {
        let number = read + 1;
        at = take_row(alloc, &mut draft, at, number, row)?;
        read = number;
        rest = after;
    }
    if at.is_outside() {
        Ok(draft)
    } else {
        Err(ReadFault::Text(read + 1))
    }
}
