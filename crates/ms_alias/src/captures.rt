// Which allocas are captured, by column.
ghost use Rattle.std.specs.Prelude.{◌≡◌, ◌<◌, ◌↔◌, ℕ, IsTrue, length, true};
ghost use Rattle.ms_alias.specs.declared.sets.Set.TheVariants.{Alloca, Brought};
ghost use Rattle.ms_alias.specs.Captured.{args_of, skips};
ghost use Rattle.ms_alias.specs.Tables.{caught_at, val_set};
ghost use Rattle.ms_alias.specs.Building.{Adds, IsCountedAs, IsKeptBy, AreCounted, HaveColumns, IsAllocaOf, IsKeptAt, MarkOthers};

use crate::loc::Root;
use crate::maker::pointer_of;
use crate::marks::Marks;
use crate::sets::{Bases, Set};
use ms_ir::{Arg, Func, Inst, InstNo, LocalNo, Val};

// What is known of the bases of a value.
fn val_set(bases: &Bases, val: Val) -> Set
    ensures { result ≡ val_set bases.now val }
{
    match pointer_of(val) {
        Some(p) => bases.set_of(p),
        None => Set::Nothing,
    }
}

// Whether the column of a row is marked and is an alloca.
fn is_alloca_at(bases: &Bases, l: u32, column: usize) -> bool
    requires { column < length bases.now.columns }
    ensures { (result ≡ true) ↔ IsAllocaOf bases.now (Brought l) column }
{
    match bases.columns[column] {
        Root::Local(_) => bases.bit(l, column),
        Root::Global(_) => false,
    }
}

// The allocas of a row are marked.
fn add_row(bases: &Bases, l: u32, marks: &mut Marks)
    requires { length marks.old ≡ length bases.now.columns }
    ensures { Adds (IsAllocaOf bases.now (Brought l)) marks.old marks.new }
{
    for column in 0..bases.columns.len() {
        if is_alloca_at(bases, l, column) {
            marks.put(column as u64, true);
        }
    }
}

// The allocas of a set are marked.
fn add_set(bases: &Bases, set: Set, marks: &mut Marks)
    requires len { length marks.old ≡ length bases.now.columns }
    requires columns { (c : ℕ) → set ≡ Alloca c → c < length bases.now.columns }
    ensures { Adds (IsAllocaOf bases.now set) marks.old marks.new }
{
    match set {
        Set::Alloca(c) => marks.put(c as u64, true),
        Set::Brought(l) => add_row(bases, l, marks),
        _ => {}
    }
}

// The allocas that an argument leads to are marked, where the callee may keep it.
fn add_arg(bases: &Bases, arg: &Arg, marks: &mut Marks)
    requires len { length marks.old ≡ length bases.now.columns }
    requires columns { HaveColumns bases.now }
    ensures { Adds (IsKeptBy bases.now arg.now) marks.old marks.new }
{
    if arg.keeps {
        add_set(bases, val_set(bases, arg.val), marks);
    }
}

// The allocas that arguments lead to are marked, where the callee may keep the argument.
fn add_args(bases: &Bases, args: &[Arg], marks: &mut Marks)
    requires len { length marks.old ≡ length bases.now.columns }
    requires columns { HaveColumns bases.now }
    ensures { Adds (IsKeptAt bases.now args.now) marks.old marks.new }
{
    for k in 0..args.len() {
        add_arg(bases, &args[k], marks);
    }
}

// The allocas that an instruction keeps are marked.
fn add_inst(bases: &Bases, inst: &Inst, marks: &mut Marks)
    requires len { length marks.old ≡ length bases.now.columns }
    requires columns { HaveColumns bases.now }
    ensures { Adds (IsKeptAt bases.now (args_of inst.now)) marks.old marks.new }
{
    if let Inst::Call { args, .. } = inst {
        add_args(bases, args.as_slice(), marks);
    }
}

// Whether a number is the one that is left out.
fn skips(skip: Option<InstNo>, i: u32) -> bool
    ensures { result ≡ skips skip i }
{
    match skip {
        Some(s) => s.0 == i,
        None => false,
    }
}

// The allocas that the instruction of a number keeps are marked, unless it is the one that is left out.
fn add_number(bases: &Bases, func: &Func, skip: Option<InstNo>, i: u32, marks: &mut Marks)
    requires len { length marks.old ≡ length bases.now.columns }
    requires columns { HaveColumns bases.now }
    ensures { Adds (IsCountedAs bases.now func.now skip i) marks.old marks.new }
{
    if skips(skip, i) {
        return;
    }
    if let Some(inst) = func.inst(InstNo(i)) {
        add_inst(bases, inst, marks);
    }
}

/// Marks the columns of the captured allocas, where one instruction may be left out.
pub fn recount(bases: &Bases, func: &Func, skip: Option<InstNo>, marks: &mut Marks)
    requires len { length marks.old ≡ length bases.now.columns }
    requires columns { HaveColumns bases.now }
    ensures { AreCounted bases.now func.now skip marks.new }
{
    func.numbered();
    marks.clear();
    for i in 0..func.made() {
        add_number(bases, func, skip, i, marks);
    }
}

/// Whether the alloca of a set is marked.
pub fn caught_at(marks: &Marks, set: Set) -> bool
    ensures { result ≡ caught_at marks.now set }
{
    match set {
        Set::Alloca(c) => {
            if c as u64 >= marks.len() {
                return false;
            }
            marks.has(c as u64)
        }
        _ => false,
    }
}

/// Whether an alloca is marked in one list and not in the other.
pub fn mark_others(bases: &Bases, old: &Marks, new: &Marks) -> bool
    ensures { IsTrue result ↔ MarkOthers bases.now old.now new.now }
{
    for l in 0..bases.count() {
        let set = bases.set_of(Root::Local(LocalNo(l)));
        if caught_at(old, set) != caught_at(new, set) {
            return true;
        }
    }
    false
}
