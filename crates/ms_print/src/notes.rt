// Lines of one's own that a function's text has at its blocks and before its instructions.
ghost use Rattle.std.specs.Prelude.{◌≡◌, ◌<◌, ℕ, length, vec_len, slice_index_or, IfOk};
ghost use Rattle.ms_print.specs.Text.{note_at};
ghost use Rattle.ms_print.specs.Notes.{note_by, note_before, no_note};

use ms_ir::{Items, NoMemory, Text};
use std::alloc::Global;

/// A line at the block or instruction of a number. `line` is written byte for byte, with a line end behind it.
#[derive(Drop)]
pub struct Note {
    pub at: u32,
    pub line: Text,
}

/// Notes in rising order of their numbers. Of several with one number only the first is written.
pub type NoteList = Items<Note>;

/// The notes of a function: `phis` by the number of a block, `insts` by that of an instruction.
#[derive(Drop)]
pub struct Notes {
    pub phis: NoteList,
    pub insts: NoteList,
}

// The note at a place is found under its number from now on.
fn place_note(table: &mut Vec<Option<usize>>, notes: &[Note], place: usize)
    requires { place < length notes.now }
    ensures len { vec_len table.new ≡ vec_len table.old }
    ensures lines { (n : ℕ) → n < vec_len table.old
        → note_by notes.now table.new.items n ≡ note_before (slice_index_or notes.now place no_note) n (note_by notes.now table.old.items n) }
{
    let at = notes[place].at as usize;
    if at < table.len() {
        table[at] = Some(place);
    }
}

// Of each number below `count`, the place of its first note.
pub fn note_table(alloc: Global, notes: &[Note], count: u32) -> Result<Vec<Option<usize>>, NoMemory>
    ensures { IfOk result (λ t. (n : ℕ) → n < count → note_by notes.now t.items n ≡ note_at notes.now n) }
{
    let mut table = vec![in alloc; None; count as usize]?;
    let total = notes.len();
    for done in 0..total {
        place_note(&mut table, notes, total - 1 - done);
    }
    Ok(table)
}
