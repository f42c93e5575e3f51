// From an edit by names to the edit of a function.
ghost use Rattle.std.specs.Prelude.{◌≡◌, IfOk, IfErr};
ghost use Rattle.ms_ir.specs.declared.inst.Edit.TheVariants.{Insert as Put};
ghost use Rattle.ms_resolve.specs.Scope.{inst_of};
ghost use Rattle.ms_script.specs.Names.{KnowsInsert, IsResolved, KnowsEdit, Refuses, scope_of};
ghost use Rattle.ms_script.specs.declared.edit.RawEdit.TheVariants.{Insert, Remove, Move, Unlink};

use crate::edit::{RawEdit, Step};
use crate::lookup::{Lookup, block_at, copy_name, is_taken};
use ms_grammar::RawInst;
use ms_ir::{BlockNo, Edit, EditFault, Func, Module, Name, NoMemory};
use std::alloc::Global;

// An instruction that is put at a place of a block.
fn made(
    alloc: Global,
    block: BlockNo,
    place: u32,
    inst: &RawInst,
    name: &Name,
    m: &Module,
    func: &Func,
) -> Result<Edit, NoMemory>
    ensures { IfOk result (λ e. e ≡ Put block place (inst_of (scope_of m.now func.now) inst.now) name.now) }
{
    let lookup = Lookup { alloc, m, func };
    Ok(Edit::Insert {
        block,
        place,
        name: copy_name(alloc, name)?,
        inst: lookup.inst(inst)?,
    })
}

fn insert(
    alloc: Global,
    block: &Name,
    place: u32,
    inst: &RawInst,
    name: &Name,
    m: &Module,
    func: &Func,
) -> Result<Edit, EditFault>
    ensures ok { IfOk result (λ e. IsResolved m.now func.now (Insert block.now place inst.now name.now) e) }
    ensures err { IfErr result (λ fault. Refuses (KnowsInsert m.now func.now block.now inst.now name.now) fault) }
{
    let Some(at) = block_at(func, block) else {
        return Err(EditFault::Name);
    };
    let lookup = Lookup { alloc, m, func };
    if !lookup.knows_inst(inst) {
        return Err(EditFault::Name);
    }
    if is_taken(func, name) {
        return Err(EditFault::Name);
    }
    match made(alloc, at, place, inst, name, m, func) {
        Ok(edit) => Ok(edit),
        Err(_) => Err(EditFault::Memory),
    }
}

fn remove(block: &Name, place: u32, m: &Module, func: &Func) -> Result<Edit, EditFault>
    ensures ok { IfOk result (λ e. IsResolved m.now func.now (Remove block.now place) e) }
    ensures err { IfErr result (λ fault. Refuses (KnowsEdit m.now func.now (Remove block.now place)) fault) }
{
    match block_at(func, block) {
        Some(block) => Ok(Edit::Remove { block, place }),
        None => Err(EditFault::Name),
    }
}

fn shift(
    block: &Name,
    place: u32,
    to_block: &Name,
    to_place: u32,
    m: &Module,
    func: &Func,
) -> Result<Edit, EditFault>
    ensures ok { IfOk result (λ e. IsResolved m.now func.now (Move block.now place to_block.now to_place) e) }
    ensures err { IfErr result (λ fault. Refuses (KnowsEdit m.now func.now (Move block.now place to_block.now to_place)) fault) }
{
    let Some(from) = block_at(func, block) else {
        return Err(EditFault::Name);
    };
    match block_at(func, to_block) {
        Some(to) => Ok(Edit::Move {
            block: from,
            place,
            to_block: to,
            to_place,
        }),
        None => Err(EditFault::Name),
    }
}

fn unlink(block: &Name, slot: u32, m: &Module, func: &Func) -> Result<Edit, EditFault>
    ensures ok { IfOk result (λ e. IsResolved m.now func.now (Unlink block.now slot) e) }
    ensures err { IfErr result (λ fault. Refuses (KnowsEdit m.now func.now (Unlink block.now slot)) fault) }
{
    match block_at(func, block) {
        Some(block) => Ok(Edit::Unlink { block, slot }),
        None => Err(EditFault::Name),
    }
}

/// The edit of a step in its function as it stands: names become numbers, each the first thing of that name, and an inserted
/// instruction is what its line says under the function's names. A `Number` is the one in the module's text as read.
///
/// `Name` comes exactly where a block, a local or a global variable that the step names is not in the function or module, or the
/// name of the step's result is a local or block of the function already. `Memory` comes where memory runs out, and no other fault
/// does. What a call names is looked at where the script is read.
pub fn resolve(alloc: Global, step: &Step, m: &Module, func: &Func) -> Result<Edit, EditFault>
    ensures ok { IfOk result (λ e. IsResolved m.now func.now step.now.edit e) }
    ensures err { IfErr result (λ fault. Refuses (KnowsEdit m.now func.now step.now.edit) fault) }
{
    match &step.edit {
        RawEdit::Insert {
            block,
            place,
            inst,
            name,
        } => insert(alloc, block, *place, inst, name, m, func),
        RawEdit::Remove { block, place } => remove(block, *place, m, func),
        RawEdit::Move {
            block,
            place,
            to_block,
            to_place,
        } => shift(block, *place, to_block, *to_place, m, func),
        RawEdit::Unlink { block, slot } => unlink(block, *slot, m, func),
    }
}
