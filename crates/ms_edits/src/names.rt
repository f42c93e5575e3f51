// Blocks, locals and names that an edit names.
ghost use Rattle.std.specs.Prelude.{◌≡◌, ◌↔◌, ◌⊎◌, IsTrue, true};
ghost use Rattle.ms_ir.specs.Inst.{has_result};
ghost use Rattle.ms_ir.specs.Edits.{HasBadName, IsNameTaken, IsNoBlock, NamesNoBlock, NamesNoLocal};
ghost use Rattle.ms_edits.specs.Told.{AtPlace, HasIn};

use crate::operands::{Ask, has_operand};
use ms_ir::{BlockNo, Edit, Entries, Func, Inst, Name, result_type};

// Whether the function has no such block.
fn is_no_block(func: &Func, b: BlockNo) -> bool
    ensures { IsTrue result ↔ IsNoBlock func.now b.0 }
{
    b.0 >= func.block_count()
}

// Whether the entry at a place is for a block that the function does not have.
fn is_from_none(func: &Func, entries: &Entries, k: usize) -> bool
    ensures { IsTrue result ↔ AtPlace entries.now (λ e. IsNoBlock func.now e.from.0) k }
{
    match entries.get(k) {
        Some(entry) => is_no_block(func, entry.from),
        None => false,
    }
}

// Whether an entry is for a block that the function does not have.
fn has_from_none(func: &Func, entries: &Entries) -> bool
    ensures { IsTrue result ↔ HasIn entries.now (λ e. IsNoBlock func.now e.from.0) }
{
    for k in 0..entries.len() {
        if is_from_none(func, entries, k) {
            return true;
        }
    }
    false
}

// Whether an instruction has an entry for a block that the function does not have.
fn names_no_block(func: &Func, inst: &Inst) -> bool
    ensures { IsTrue result ↔ NamesNoBlock func.now inst.now }
{
    match inst {
        Inst::Phi { entries, .. } => has_from_none(func, entries),
        Inst::Alloca { .. }
        | Inst::Gep { .. }
        | Inst::Step { .. }
        | Inst::Load { .. }
        | Inst::Store { .. }
        | Inst::Copy { .. }
        | Inst::Call { .. }
        | Inst::Bin { .. }
        | Inst::Cmp { .. }
        | Inst::Select { .. }
        | Inst::Cast { .. } => false,
    }
}

// Whether an operand is a local that the function does not have.
fn names_no_local(func: &Func, inst: &Inst) -> bool
    ensures { IsTrue result ↔ NamesNoLocal func.now inst.now }
{
    has_operand(func, Ask::Missing, inst)
}

// Whether a local or a label has the name.
fn is_taken(func: &Func, name: &Name) -> bool
    ensures { IsTrue result ↔ IsNameTaken func.now name.now }
{
    match func.find_local(name) {
        Some(_) => true,
        None => match func.find_block(name) {
            Some(_) => true,
            None => false,
        },
    }
}

// Whether an instruction gives a result, the name of which is taken.
fn takes_name(func: &Func, inst: &Inst, name: &Name) -> bool
    ensures { IsTrue result ↔ ((has_result inst.now ≡ true) × IsNameTaken func.now name.now) }
{
    match result_type(inst) {
        Some(_) => is_taken(func, name),
        None => false,
    }
}

// Whether what an insert names is not there, or is taken.
fn bad_in_insert(func: &Func, b: BlockNo, inst: &Inst, name: &Name) -> bool
    ensures { IsTrue result ↔ (IsNoBlock func.now b.0 ⊎ NamesNoBlock func.now inst.now ⊎ NamesNoLocal func.now inst.now ⊎ ((has_result inst.now ≡ true) × IsNameTaken func.now name.now)) }
{
    if is_no_block(func, b) {
        return true;
    }
    if names_no_block(func, inst) {
        return true;
    }
    if names_no_local(func, inst) {
        return true;
    }
    takes_name(func, inst, name)
}

/// Whether a block or local that the edit names is not there, or the name of its result is taken.
pub fn bad_name(func: &Func, edit: &Edit) -> bool
    ensures { IsTrue result ↔ HasBadName func.now edit.now }
{
    match edit {
        Edit::Insert {
            block,
            inst,
            name,
            ..
        } => bad_in_insert(func, *block, inst, name),
        Edit::Remove { block, .. } | Edit::Unlink { block, .. } => is_no_block(func, *block),
        Edit::Move {
            block,
            to_block,
            ..
        } => is_no_block(func, *block) || is_no_block(func, *to_block),
    }
}
