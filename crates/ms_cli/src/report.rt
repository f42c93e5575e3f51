// The line that tells of a run that was not done. It takes no memory.
ghost use Rattle.std.specs.Prelude.{◌≡◌, ◌++◌};
ghost use Rattle.ms_cli.specs.Line.{
  usage_line,
  cannot_read,
  cannot_write,
  out_of_memory,
  program_part,
  line_feed,
  colon,
  reason,
  irreducible,
  too_long,
  named_file,
  refused_line,
  line_for,
};
ghost use Rattle.ms_cli.specs.Taken.{TakesAll, TakesFront};

use crate::sink::write_all;
use crate::status::{Refusal, Status};
use crate::words::{Words, name_or_nothing};
use itoa::Buffer;
use ms_io::{Sink, SinkFault};

#[tactic(auto, unfolding(crate::specs::Line::usage_line))]
fn usage_text() -> &'static [u8]
    ensures { result.now ≡ usage_line }
{
    b"mssa: usage: mssa --passes=LIST [--edits=FILE] [--stats] [--disable-output] (FILE or --gen=SEED)\n"
}

#[tactic(auto, unfolding(crate::specs::Line::cannot_read))]
fn cannot_read_text() -> &'static [u8]
    ensures { result.now ≡ cannot_read }
{
    b"mssa: cannot read "
}

#[tactic(auto, unfolding(crate::specs::Line::cannot_write))]
fn cannot_write_text() -> &'static [u8]
    ensures { result.now ≡ cannot_write }
{
    b"mssa: cannot write output\n"
}

#[tactic(auto, unfolding(crate::specs::Line::out_of_memory))]
fn out_of_memory_text() -> &'static [u8]
    ensures { result.now ≡ out_of_memory }
{
    b"mssa: out of memory\n"
}

#[tactic(auto, unfolding(crate::specs::Line::program_part))]
fn program_text() -> &'static [u8]
    ensures { result.now ≡ program_part }
{
    b"mssa: "
}

#[tactic(auto, unfolding(crate::specs::Line::line_feed))]
fn line_feed_text() -> &'static [u8]
    ensures { result.now ≡ line_feed }
{
    b"\n"
}

#[tactic(auto, unfolding(crate::specs::Line::colon))]
fn colon_text() -> &'static [u8]
    ensures { result.now ≡ colon }
{
    b":"
}

// The end of a line that names a line of the file.
#[tactic(auto, unfolding(crate::specs::Line::reason))]
fn reason_text(number: u32) -> &'static [u8]
    ensures { result.now ≡ reason number }
{
    if number == 2 {
        b": refusal 2: limit passed\n"
    } else if number == 3 {
        b": refusal 3: name\n"
    } else if number == 4 {
        b": refusal 4: type\n"
    } else if number == 5 {
        b": refusal 5: edges\n"
    } else if number == 6 {
        b": refusal 6: order\n"
    } else {
        b": refusal 1: not of the profile\n"
    }
}

#[tactic(auto, unfolding(crate::specs::Line::irreducible))]
fn irreducible_text() -> &'static [u8]
    ensures { result.now ≡ irreducible }
{
    b": refusal 7: irreducible loop in @"
}

#[tactic(auto, unfolding(crate::specs::Line::too_long))]
fn too_long_text() -> &'static [u8]
    ensures { result.now ≡ too_long }
{
    b": refusal 10: longer than 1048576 bytes\n"
}

// The file's name between two texts.
fn tell_name<E: Sink>(
    err: &mut E,
    before: &[u8],
    words: &Words,
    after: &[u8],
) -> Result<(), SinkFault>
    ensures { TakesAll (before.now ++ named_file words.now ++ after.now) (E.written err.old) (E.written err.new) (E.faults err.old) (E.faults err.new) result }
{
    write_all(err, before)?;
    write_all(err, name_or_nothing(words).as_bytes())?;
    write_all(err, after)?;
    Ok(())
}

// The line for a file in which something is told: a line or a function.
fn tell_place<E: Sink>(
    err: &mut E,
    words: &Words,
    before: &[u8],
    place: &[u8],
    after: &[u8],
) -> Result<(), SinkFault>
    ensures { TakesAll (program_part ++ named_file words.now ++ before.now ++ place.now ++ after.now) (E.written err.old) (E.written err.new) (E.faults err.old) (E.faults err.new) result }
{
    tell_name(err, program_text(), words, before)?;
    write_all(err, place)?;
    write_all(err, after)?;
    Ok(())
}

// The line for a file that is refused.
fn tell_refusal<E: Sink>(
    err: &mut E,
    words: &Words,
    func: &[u8],
    refusal: Refusal,
) -> Result<(), SinkFault>
    ensures { TakesAll (refused_line (named_file words.now) func.now refusal) (E.written err.old) (E.written err.new) (E.faults err.old) (E.faults err.new) result }
{
    let Refusal { number, place } = refusal;
    if number == 10 {
        tell_name(err, program_text(), words, too_long_text())
    } else if number == 7 {
        tell_place(err, words, irreducible_text(), func, line_feed_text())
    } else {
        let mut digits = Buffer::new();
        let line = digits.format(place).as_bytes();
        tell_place(err, words, colon_text(), line, reason_text(number))
    }
}

// The line for a status.
fn write_line<E: Sink>(
    err: &mut E,
    words: &Words,
    func: &[u8],
    status: Status,
) -> Result<(), SinkFault>
    ensures { TakesAll (line_for words.now func.now status) (E.written err.old) (E.written err.new) (E.faults err.old) (E.faults err.new) result }
{
    match status {
        Status::Done => Ok(()),
        Status::Usage => write_all(err, usage_text()),
        Status::ReadFault => tell_name(err, cannot_read_text(), words, line_feed_text()),
        Status::WriteFault => write_all(err, cannot_write_text()),
        Status::Memory => write_all(err, out_of_memory_text()),
        Status::Refused(refusal) => tell_refusal(err, words, func, refusal),
    }
}

/// Writes the line for a status to `err`: nothing where all was done. Where a function is refused, it is told by its
/// name. It stops at the first fault.
pub fn tell<E: Sink>(err: &mut E, words: &Words, func: &[u8], status: Status)
    ensures { TakesFront (line_for words.now func.now status) (E.written err.old) (E.written err.new) (E.faults err.old) (E.faults err.new) }
{
    let _ = write_line(err, words, func, status);
}
