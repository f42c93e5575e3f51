ghost use Rattle.std.specs.Prelude.{◌≡◌, ◌<◌, ◌^◌, length, IfOk, IfErr};
ghost use Rattle.ms_line.specs.Cause.{IsRead, IsReadAgain, IsLineCause};
ghost use Rattle.ms_line.specs.Sorts.{IsOfSort, IsSortCause, sort_of, sort_of_inst};

use crate::fault::LineFault;
use crate::found::Said;
use crate::keep::kept_line;
use crate::measure::is_short_line;
use crate::said::said;
use crate::sort::Sort;
use ms_grammar::{Line, RawInst};
use std::alloc::Global;

/// What a line says. The parameters of a declared function lose their names. What is printed for the
/// answer is read as the same line.
///
/// The line has fewer than 2^32 bytes. The time is linear in its length.
///
/// `NotOfProfile` comes exactly where the line is in no grammar, `TooLong` exactly where it is in the
/// grammar and a name has more than 255 bytes, an alloca more than 65,536, a memcpy more than 4,096, an
/// offset is more than 2^31 either way, or a local among indices counts by more than 2^31 bytes.
pub fn read_line(alloc: Global, line: &[u8]) -> Result<Line, LineFault>
    requires { length line.now < 2 ^ 32 }
    ensures ok { IfOk result (λ l. IsRead line.now l) }
    ensures again { IfOk result (λ l. IsReadAgain l) }
    ensures err { IfErr result (λ fault. IsLineCause line.now fault) }
{
    ms_reread::laws::said_again();
    match said(alloc, line) {
        Ok(Said::Whole(found)) => {
            if is_short_line(&found) {
                Ok(kept_line(found))
            } else {
                Err(LineFault::TooLong)
            }
        }
        Ok(Said::Past(_)) => Err(LineFault::TooLong),
        Err(fault) => Err(fault),
    }
}

fn sort_of_instruction(inst: &RawInst) -> Sort
    ensures { result ≡ sort_of_inst inst.now }
{
    match inst {
        RawInst::Alloca { .. } => Sort::Alloca,
        RawInst::Phi { .. } => Sort::Phi,
        _ => Sort::Other,
    }
}

/// The sort of what a line says.
pub fn sort_of_line(line: &Line) -> Sort
    ensures { result ≡ sort_of line.now }
{
    match line {
        Line::Empty => Sort::Blank,
        Line::Close => Sort::Close,
        Line::Kept(_) | Line::Group(_, _) | Line::GlobalVar(_, _) | Line::Declare(_) => Sort::Item,
        Line::Label(_) => Sort::Label,
        Line::Define(_) => Sort::Define,
        Line::Inst(_, inst) => sort_of_instruction(inst),
        Line::Term(_) => Sort::Term,
    }
}

/// The sort of a line, whether or not it passes a limit.
///
/// `NotOfProfile` comes exactly where the line is in no grammar; `TooLong` never comes. The line has fewer
/// than 2^32 bytes. The time is linear in its length.
pub fn sort_of(alloc: Global, line: &[u8]) -> Result<Sort, LineFault>
    requires { length line.now < 2 ^ 32 }
    ensures ok { IfOk result (λ sort. IsOfSort line.now sort) }
    ensures err { IfErr result (λ fault. IsSortCause line.now fault) }
{
    match said(alloc, line) {
        Ok(Said::Whole(found)) => Ok(sort_of_line(&found)),
        Ok(Said::Past(sort)) => Ok(sort),
        Err(fault) => Err(fault),
    }
}
