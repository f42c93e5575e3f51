// The text of a function.
ghost use Rattle.std.specs.Prelude.{◌≡◌, ◌<◌, ◌++◌, [], ℕ, length, drop, slice_index_or, OnOk, IfOk};
ghost use Rattle.ms_ir.specs.Func.{insts_at, no_block, placed_as};
ghost use Rattle.ms_print.specs.Lines.{shown_by, define_with, inst_line, label_line, term_line};
ghost use Rattle.ms_print.specs.Notes.{note_by};
ghost use Rattle.ms_print.specs.Text.{ended, line_text, note_at, insts_text, label_text, block_text, blocks_text, func_text};

use crate::lines::{label, raw_inst, raw_term, result_name};
use crate::notes::{Note, Notes, note_table};
use crate::numbering::{Tables, shown_params, tables_of};
use crate::walk::{first_of, step};
use ms_grammar::{Head, Line, write_line};
use ms_ir::{BlockNo, Func, InstNo, Name, Names, NoMemory, Node, Params, Steps, Term, Text};
use std::alloc::Global;

// What is looked up while a function is printed: names, and the places of the notes.
#[derive(Drop)]
struct Page {
    tables: Tables,
    phis: Vec<Option<usize>>,
    insts: Vec<Option<usize>>,
}

// A text with a line's end behind it.
pub fn push_text(out: &mut Vec<u8>, text: &Text) -> Result<(), NoMemory>
    ensures { OnOk result (out.new.items ≡ out.old.items ++ ended text.now) }
{
    out.extend_from_slice(text.bytes())?;
    out.push(b'\n')?;
    Ok(())
}

#[tactic(auto, unfolding(crate::specs::Text::line_text))]
fn push_line(out: &mut Vec<u8>, line: &Line) -> Result<(), NoMemory>
    ensures { OnOk result (out.new.items ≡ out.old.items ++ line_text line.now) }
{
    let mut text = Text::new(*out.allocator());
    write_line(line, &mut text)?;
    push_text(out, &text)?;
    Ok(())
}

// The same, for a line that is made for it. It is dropped by a call, since the steps of a line's drop, over each form of a line, would
// otherwise stand in this function's proof once for each exit, and in the proof of each function that makes a line.
fn push_made(out: &mut Vec<u8>, line: Line) -> Result<(), NoMemory>
    ensures { OnOk result (out.new.items ≡ out.old.items ++ line_text line) }
{
    let pushed = push_line(out, &line);
    drop(line);
    pushed
}

// The place of the note for a number.
fn place_in(table: &[Option<usize>], n: u32) -> Option<usize>
    ensures { result ≡ slice_index_or table.now n None }
{
    if (n as usize) < table.len() {
        table[n as usize]
    } else {
        None
    }
}

fn push_note(
    out: &mut Vec<u8>,
    notes: &[Note],
    table: &[Option<usize>],
    n: u32,
) -> Result<(), NoMemory>
    ensures { OnOk result (out.new.items ≡ out.old.items ++ note_by notes.now table.now n) }
{
    match place_in(table, n) {
        Some(place) => match notes.get(place) {
            Some(note) => {
                push_text(out, &note.line)?;
                Ok(())
            }
            None => Ok(()),
        },
        None => Ok(()),
    }
}

// The line of an instruction.
fn push_inst_line(
    out: &mut Vec<u8>,
    names: &Names,
    tables: &Tables,
    number: InstNo,
    node: &Node,
) -> Result<(), NoMemory>
    ensures { OnOk result (out.new.items ≡ out.old.items
        ++ line_text (inst_line (shown_by names.now tables.now) (placed_as number.0 node.now))) }
{
    let alloc = *out.allocator();
    let name = result_name(alloc, tables, node.result)?;
    let inst = raw_inst(alloc, names, tables, &node.inst)?;
    push_made(out, Line::Inst(name, inst))
}

// The note and the line of each instruction of a block.
fn push_insts(
    out: &mut Vec<u8>,
    func: &Func,
    names: &Names,
    notes: &Notes,
    page: &Page,
    b: BlockNo,
) -> Result<(), NoMemory>
    requires block { b.0 < length func.now.blocks }
    requires notes { (n : ℕ) → n < func.now.made → note_by notes.now.insts page.now.insts.items n ≡ note_at notes.now.insts n }
    ensures { OnOk result (out.new.items ≡ out.old.items
        ++ insts_text (shown_by names.now page.now.tables) notes.now.insts (insts_at func.now.blocks b.0)) }
{
    func.numbered();
    let mut walk = first_of(func, b);
    for place in 0..func.count(b) {
        let (number, node, after) = step(func, walk);
        push_note(out, notes.insts.as_slice(), page.insts.as_slice(), number.0)?;
        push_inst_line(out, names, &page.tables, number, node)?;
        walk = after;
    }
    Ok(())
}

fn push_label_line(out: &mut Vec<u8>, tables: &Tables, b: BlockNo) -> Result<(), NoMemory>
    ensures { OnOk result (out.new.items ≡ out.old.items ++ line_text (label_line tables.now.labels.items b.0)) }
{
    let name = label(*out.allocator(), tables, b)?;
    push_made(out, Line::Label(name))
}

// An empty line before each block but the first, and the label line.
fn push_label(out: &mut Vec<u8>, tables: &Tables, b: BlockNo, name: &Name) -> Result<(), NoMemory>
    ensures { OnOk result (out.new.items ≡ out.old.items ++ label_text tables.now.labels.items b.0 name.now) }
{
    if b.0 == 0 {
        match name {
            Name::Word(_) => push_label_line(out, tables, b)?,
            Name::Number(_) | Name::Absent => {}
        }
    } else {
        out.push(b'\n')?;
        push_label_line(out, tables, b)?;
    }
    Ok(())
}

fn push_term(out: &mut Vec<u8>, names: &Names, tables: &Tables, term: &Term) -> Result<(), NoMemory>
    ensures { OnOk result (out.new.items ≡ out.old.items ++ line_text (term_line (shown_by names.now tables.now) term.now)) }
{
    let term = raw_term(*out.allocator(), names, tables, term)?;
    push_made(out, Line::Term(term))
}

fn push_block(
    out: &mut Vec<u8>,
    func: &Func,
    names: &Names,
    notes: &Notes,
    page: &Page,
    b: BlockNo,
    steps: &mut Steps,
) -> Result<(), NoMemory>
    requires block { b.0 < length func.now.blocks }
    requires phis { (n : ℕ) → n < length func.now.blocks → note_by notes.now.phis page.now.phis.items n ≡ note_at notes.now.phis n }
    requires insts { (n : ℕ) → n < func.now.made → note_by notes.now.insts page.now.insts.items n ≡ note_at notes.now.insts n }
    ensures { OnOk result (out.new.items ≡ out.old.items
        ++ block_text (shown_by names.now page.now.tables) notes.now b.0 (slice_index_or func.now.blocks b.0 no_block)) }
{
    let name = match func.block_name(b) {
        Some(name) => name,
        None => unreachable!(),
    };
    push_label(out, &page.tables, b, name)?;
    push_note(out, notes.phis.as_slice(), page.phis.as_slice(), b.0)?;
    push_insts(out, func, names, notes, page, b)?;
    push_term(out, names, &page.tables, func.term(b, steps))?;
    Ok(())
}

fn push_blocks(
    out: &mut Vec<u8>,
    func: &Func,
    names: &Names,
    notes: &Notes,
    page: &Page,
) -> Result<(), NoMemory>
    requires phis { (n : ℕ) → n < length func.now.blocks → note_by notes.now.phis page.now.phis.items n ≡ note_at notes.now.phis n }
    requires insts { (n : ℕ) → n < func.now.made → note_by notes.now.insts page.now.insts.items n ≡ note_at notes.now.insts n }
    ensures { OnOk result (out.new.items ≡ out.old.items
        ++ blocks_text (shown_by names.now page.now.tables) notes.now 0 func.now.blocks) }
{
    let mut steps = Steps::new(*out.allocator())?;
    for b in 0..func.block_count() {
        push_block(out, func, names, notes, page, BlockNo(b), &mut steps)?;
    }
    Ok(())
}

// A function's first line, with these parameters.
fn push_define(out: &mut Vec<u8>, func: &Func, params: Params) -> Result<(), NoMemory>
    ensures { OnOk result (out.new.items ≡ out.old.items ++ line_text (define_with func.now params)) }
{
    let alloc = *out.allocator();
    let head = Head {
        attrs: Text::from_bytes(alloc, func.head().bytes())?,
        ret: func.ret(),
        name: Text::from_bytes(alloc, func.name().bytes())?,
        params,
        variadic: false,
        post: Text::from_bytes(alloc, func.tail().bytes())?,
    };
    push_made(out, Line::Define(head))
}

// The text of a function with notes.
pub fn push_func(
    out: &mut Vec<u8>,
    func: &Func,
    names: &Names,
    notes: &Notes,
) -> Result<(), NoMemory>
    ensures { OnOk result (out.new.items ≡ out.old.items ++ func_text names.now func.now notes.now) }
{
    let alloc = *out.allocator();
    func.numbered();
    let (params, next) = shown_params(alloc, func.params().as_slice())?;
    let page = Page {
        tables: tables_of(alloc, func, params.as_slice(), next)?,
        phis: note_table(alloc, notes.phis.as_slice(), func.block_count())?,
        insts: note_table(alloc, notes.insts.as_slice(), func.made())?,
    };
    push_define(out, func, params)?;
    push_blocks(out, func, names, notes, &page)?;
    push_made(out, Line::Close)?;
    Ok(())
}

/// The text of a function, in which each line ends with 0x0A: its first line, its blocks with an
/// empty line before each but the first, and `}`. A block's label line is left out where the first
/// block has no word for a name. The names of parameters, blocks and results are their words; those
/// without a word are numbered from 0 in the order of the text, whatever numbers were read.
///
/// A note at a block stands directly behind the block's label line, or behind the first line where
/// the block has none, and a note at an instruction directly before that instruction's line. Notes
/// for other numbers are not written. `names` are those of the function's module.
///
/// The only fault is want of memory.
pub fn print_func(
    alloc: Global,
    func: &Func,
    names: &Names,
    notes: &Notes,
) -> Result<Text, NoMemory>
    ensures { IfOk result (λ t. t ≡ func_text names.now func.now notes.now) }
{
    let mut out = Vec::new(alloc);
    push_func(&mut out, func, names, notes)?;
    Ok(Text::from_vec(out))
}
