// The annotations of a function.
ghost use Rattle.std.specs.Prelude.{◌≡◌, ◌<◌, ◌≤◌, [], ℕ, length, Some, slice_get, IfOk, OnOk};
ghost use Rattle.ms_ir.specs.Inst.{kind_of_inst};
ghost use Rattle.ms_ir.specs.Func.{Placed, insts_at};
ghost use Rattle.ms_build.specs.Accesses.{defining_at};
ghost use Rattle.ms_print.specs.Text.{note_at};
ghost use Rattle.ms_walk.specs.Pointed.{IsPointed};
ghost use Rattle.ms_session.specs.Annotated.{IsAnnotated};
ghost use Rattle.ms_session.specs.Shown.{IsShownLine, shown_phi, with_line};

use crate::lines::{inst_line, phi_line};
use crate::numbers::{Numbers, number_all};
use ms_flow::Flow;
use ms_form::Form;
use ms_ir::{BlockNo, InstNo, Name, Names, NoMemory, Text};
use ms_print::{Note, NoteList, Notes, block_labels, print_func};
use ms_walk::Pointed;
use std::alloc::Global;

// A line behind the others, if there is one.
fn push_line(notes: &mut NoteList, at: u32, line: Option<Text>) -> Result<(), NoMemory>
    ensures { OnOk result (notes.new ≡ with_line notes.old at line) }
{
    if let Some(line) = line {
        notes.push(Note { at, line })?;
    }
    Ok(())
}

// The lines at blocks.
fn phi_notes(
    alloc: Global,
    labels: &[Name],
    numbers: &Numbers,
    flow: &Flow,
    form: &Form,
) -> Result<NoteList, NoMemory>
    ensures { IfOk result (λ notes. (b : ℕ) → b < length flow.now.graph →
        note_at notes b ≡ shown_phi labels.now numbers.now.all flow.now.graph form.now b) }
{
    let mut notes = NoteList::new(alloc);
    for b in 0..flow.block_count() {
        let line = phi_line(alloc, labels, numbers, flow, form, BlockNo(b))?;
        push_line(&mut notes, b, line)?;
    }
    Ok(notes)
}

// The lines before instructions, in rising order of their numbers.
fn inst_notes(alloc: Global, of: &Pointed, numbers: &Numbers) -> Result<NoteList, NoMemory>
    requires { IsPointed of.now.func.now of.now.flow.now.graph of.now.form.now of.now.alias.now }
    ensures { IfOk result (λ notes. (b k : ℕ) (x : Placed) → slice_get (insts_at of.now.func.now.blocks b) k ≡ Some x →
        IsShownLine of.now.func.now numbers.now.all b k x (defining_at of.now.form.now x.number) (kind_of_inst x.inst) (note_at notes x.number)) }
{
    of.func.numbered();
    let mut notes = NoteList::new(alloc);
    for i in 0..of.func.made() {
        let line = inst_line(alloc, of, numbers, InstNo(i))?;
        push_line(&mut notes, i, line)?;
    }
    Ok(notes)
}

/// The text of a function with its annotations. One walk is made for each use in
/// a reached block.
pub fn annotated(alloc: Global, names: &Names, of: &Pointed) -> Result<Text, NoMemory>
    requires { IsPointed of.now.func.now of.now.flow.now.graph of.now.form.now of.now.alias.now }
    ensures { IfOk result (λ text. IsAnnotated names.now of.now.func.now text) }
{
    of.func.numbered();
    ms_paths::laws::one_answer();
    ms_flow::laws::same_paths();
    ms_flow::laws::order_told();
    ms_flow::laws::sources_told();
    let numbers = number_all(alloc, of.func, of.flow, of.form)?;
    let labels = block_labels(alloc, of.func)?;
    let notes = Notes {
        phis: phi_notes(alloc, labels.as_slice(), &numbers, of.flow, of.form)?,
        insts: inst_notes(alloc, of, &numbers)?,
    };
    Ok(print_func(alloc, of.func, names, &notes)?)
}
