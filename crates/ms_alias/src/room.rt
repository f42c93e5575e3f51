// Room for the bases of a function's pointers.
ghost use Rattle.std.specs.Prelude.{◌≡◌, ◌<◌, ◌≤◌, ◌^◌, ◌↔◌, ◌++◌, ◌∷◌, [], IsTrue, IfOk, OnOk, IfSome, MatchOption, length, map, position, slice_get, Some};
ghost use Rattle.ms_ir.specs.declared.names.LocalNo.{LocalNo as LocalNumber};
ghost use Rattle.ms_ir.specs.declared.inst.Entry.{Entry as PhiEntry};
ghost use Rattle.ms_alias.specs.declared.loc.Root.TheVariants.{Local, Global as GlobalRoot};
ghost use Rattle.ms_alias.specs.Roots.{pointer_of};
ghost use Rattle.ms_alias.specs.Bases.{IsArgument, pointers_in, sources_in, with_pointer, leads_of};
ghost use Rattle.ms_alias.specs.Tables.{HasRoom, same_root};
ghost use Rattle.ms_alias.specs.Building.{AreKinds, HaveFirst, HaveGlobals, HaveRows, IsKindAt, IsLonger, row_len};

use crate::loc::Root;
use crate::maker::{is_alloca, is_pointer, maker, pointer_of};
use crate::sets::{Bases, Row, Set, same_root};
use ms_ir::{Entry, Func, GlobalNo, Inst, LocalNo, NoMemory, Val};
use std::alloc::Global;

// Whether a local is an argument that is a pointer.
fn is_argument(func: &Func, l: u64) -> bool
    ensures { IsTrue result ↔ IsArgument func.now (record { 0 = l }) }
{
    match func.params().get(l as usize) {
        Some(param) => is_pointer(param.ty),
        None => false,
    }
}

// What kind of bases a local has. The column is for an alloca.
fn set_for(func: &Func, l: u64, column: u32) -> Set
    requires { l < 2 ^ 32 }
    ensures { IsKindAt column func.now (record { 0 = l }) result }
{
    func.numbered();
    let argument = is_argument(func, l);
    match maker(func, LocalNo(l)) {
        Some(inst) => {
            if is_alloca(inst) {
                Set::Alloca(column)
            } else {
                Set::Brought(l as u32)
            }
        }
        None => {
            if argument {
                Set::Argument
            } else {
                Set::Nothing
            }
        }
    }
}

// The set of each local, and a column for each alloca.
fn find_sets(
    alloc: Global,
    func: &Func,
    count: u64,
    columns: &mut Vec<Root>,
) -> Result<Vec<Set>, NoMemory>
    requires few { count < 2 ^ 32 }
    requires none { columns.old.items ≡ [] }
    ensures { IfOk result (λ v. AreKinds func.now count columns.new.items v.items) }
{
    let mut sets = Vec::new(alloc);
    for l in 0..count {
        let set = set_for(func, l, columns.len() as u32);
        if let Set::Alloca(_) = set {
            columns.push(Root::Local(LocalNo(l)))?;
        }
        sets.push(set)?;
    }
    Ok(sets)
}

// The column of a global.
fn column_of(columns: &[Root], g: GlobalNo) -> Option<usize>
    ensures { result ≡ position (same_root (GlobalRoot g)) columns.now }
{
    columns.iter().position(|q| same_root(Root::Global(g), *q))
}

// A column for a value that is a global, where there is none.
fn add_val(columns: &mut Vec<Root>, val: Val) -> Result<(), NoMemory>
    ensures longer { OnOk result (IsLonger columns.old.items columns.new.items) }
    ensures globals { OnOk result (HaveGlobals columns.new.items (with_pointer (pointer_of val) [])) }
{
    if let Some(Root::Global(g)) = pointer_of(val) {
        if column_of(columns.as_slice(), g).is_none() {
            columns.push(Root::Global(g))?;
        }
    }
    Ok(())
}

// The entry at a place.
fn entry_at(entries: &[Entry], k: usize) -> Entry
    requires { k < length entries.now }
    ensures { slice_get entries.now k ≡ Some result }
{
    entries[k]
}

// A column for each global that comes into a phi.
fn add_entries(columns: &mut Vec<Root>, entries: &[Entry]) -> Result<(), NoMemory>
    ensures longer { OnOk result (IsLonger columns.old.items columns.new.items) }
    ensures globals { OnOk result (HaveGlobals columns.new.items (pointers_in (map (λ (e : PhiEntry). e.val) entries.now))) }
{
    for k in 0..entries.len() {
        add_val(columns, entry_at(entries, k).val)?;
    }
    Ok(())
}

// A column for each global that an instruction makes into its pointer.
fn add_inst(columns: &mut Vec<Root>, inst: &Inst) -> Result<(), NoMemory>
    ensures longer { OnOk result (IsLonger columns.old.items columns.new.items) }
    ensures globals { OnOk result (HaveGlobals columns.new.items (pointers_in (sources_in inst.now))) }
{
    match inst {
        Inst::Gep { base, .. } | Inst::Step { base, .. } => add_val(columns, *base)?,
        Inst::Select { a, b, .. } => {
            add_val(columns, *a)?;
            add_val(columns, *b)?;
        }
        Inst::Phi { entries, .. } => add_entries(columns, entries.as_slice())?,
        Inst::Alloca { .. }
        | Inst::Load { .. }
        | Inst::Store { .. }
        | Inst::Copy { .. }
        | Inst::Call { .. }
        | Inst::Bin { .. }
        | Inst::Cmp { .. }
        | Inst::Cast { .. } => {}
    }
    Ok(())
}

// A column for each global that comes into a local.
fn add_local(columns: &mut Vec<Root>, func: &Func, l: u64) -> Result<(), NoMemory>
    ensures longer { OnOk result (IsLonger columns.old.items columns.new.items) }
    ensures globals { OnOk result (HaveGlobals columns.new.items (leads_of func.now (Local (record { 0 = l })))) }
{
    match maker(func, LocalNo(l)) {
        Some(inst) => add_inst(columns, inst),
        None => Ok(()),
    }
}

// A column for each global that comes into one of the first locals.
fn add_locals(columns: &mut Vec<Root>, func: &Func, count: u64) -> Result<(), NoMemory>
    ensures longer { OnOk result (IsLonger columns.old.items columns.new.items) }
    ensures globals { OnOk result (HaveFirst func.now count columns.new.items) }
{
    for l in 0..count {
        add_local(columns, func, l)?;
    }
    Ok(())
}

// How many columns the row of a local has.
fn row_len(set: Set, columns: usize) -> usize
    ensures { result ≡ row_len columns set }
{
    match set {
        Set::Brought(_) => columns,
        _ => 0,
    }
}

// A row for each local.
fn make_rows(alloc: Global, sets: &[Set], columns: usize) -> Result<Vec<Row>, NoMemory>
    ensures { IfOk result (λ v. HaveRows sets.now columns v.items) }
{
    let mut rows = Vec::new(alloc);
    for k in 0..sets.len() {
        rows.push(Row::new(alloc, row_len(sets[k], columns))?)?;
    }
    Ok(rows)
}

/// Room for the bases of a function's pointers. `Err` comes only where memory is wanting.
pub fn room(alloc: Global, func: &Func) -> Result<Bases, NoMemory>
    requires { func.now.locals < 2 ^ 32 }
    ensures room { IfOk result (λ t. HasRoom t func.now) }
    ensures count { IfOk result (λ t. length t.sets ≡ func.now.locals) }
{
    func.numbered();
    let count = func.local_count();
    let mut columns = Vec::new(alloc);
    let sets = find_sets(alloc, func, count, &mut columns)?;
    add_locals(&mut columns, func, count)?;
    let rows = make_rows(alloc, sets.as_slice(), columns.len())?;
    Ok(Bases {
        sets,
        columns,
        rows,
    })
}
