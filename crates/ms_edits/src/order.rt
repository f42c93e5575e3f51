// Uses of a local that a path would come to before its definition.
ghost use Rattle.std.specs.Prelude.{◌≡◌, ◌<◌, ◌↔◌, IfOk, IsTrue, false, length, slice_index_or};
ghost use Rattle.ms_paths.specs.Flow.{IsClosed};
ghost use Rattle.ms_ir.specs.Graph.{graph_of};
ghost use Rattle.ms_ir.specs.Uses.{operands_of};
ghost use Rattle.ms_ir.specs.declared.inst.Edit.TheVariants.{Insert};
ghost use Rattle.ms_ir.specs.Edits.{HasBadKind, HasBadName, HasBadOrder, HasBadPlace};
ghost use Rattle.ms_ir.specs.SoundFunc.{IsSoundFunc};
ghost use Rattle.ms_flow.specs.Flow.{AreBehind};
ghost use Rattle.ms_flow.specs.Table.{edges_of};
ghost use Rattle.ms_edits.specs.Moved.{CanBeAfter, func_after};
ghost use Rattle.ms_edits.specs.Told.{AtPlace, HasIn, IsLate, IsLateAt, IsMissed};

use crate::moves::bad_in_move;
use crate::operands::{more_operands, operand_at};
use crate::spots::{After, Spot, spot_after};
use ms_flow::Flow;
use ms_ir::{BlockNo, Edit, Func, Inst, Name, NoMemory, Val};
use std::alloc::Global;

/// What a table tells of a block.
pub fn told_of(behind: &[bool], b: u32) -> bool
    requires { b < length behind.now }
    ensures { result ≡ slice_index_or behind.now b false }
{
    behind[b as usize]
}

/// Whether some path comes to a place without passing another one first; of each block it is told whether every path to it passes that one's.
pub fn is_missed(flow: &Flow, behind: &[bool], first: Spot, at: Spot) -> bool
    requires closed { IsClosed flow.now.graph }
    requires behind { AreBehind flow.now.graph first.block behind.now }
    requires there { at.block < length flow.now.graph }
    ensures { IsTrue result ↔ IsMissed flow.now.graph first.block first.place at.block at.place }
{
    ms_flow::laws::order_told();
    if !flow.reached(BlockNo(at.block)) {
        return false;
    }
    if first.block == at.block {
        return at.place <= first.place;
    }
    !told_of(behind, at.block)
}

// Whether some path comes to a place without passing another one first.
fn comes_without(alloc: Global, flow: &Flow, first: Spot, at: Spot) -> Result<bool, NoMemory>
    requires closed { IsClosed flow.now.graph }
    requires first { first.block < length flow.now.graph }
    requires there { at.block < length flow.now.graph }
    ensures { IfOk result (λ t. IsTrue t ↔ IsMissed flow.now.graph first.block first.place at.block at.place) }
{
    let behind = flow.behind(alloc, BlockNo(first.block))?;
    Ok(is_missed(flow, behind.as_slice(), first, at))
}

// Whether some path comes to a place before the definition of a value, in the function that is looked at.
fn is_late(
    alloc: Global,
    func: &Func,
    flow: &Flow,
    after: After,
    val: Val,
    at: Spot,
) -> Result<bool, NoMemory>
    requires closed { IsClosed (graph_of func.now.blocks) }
    requires graph { flow.now.graph ≡ edges_of func.now.blocks }
    requires after { CanBeAfter func.now after }
    requires there { at.block < length func.now.blocks }
    ensures { IfOk result (λ t. IsTrue t ↔ IsLate (func_after func.now after) val at.block at.place) }
{
    ms_flow::laws::same_paths();
    func.numbered();
    match val {
        Val::Local(l) => match func.def_of(l) {
            Some(i) => match func.place_of(i) {
                Some((b, place)) => {
                    let first = spot_after(func, after, Spot { block: b.0, place });
                    comes_without(alloc, flow, first, at)
                }
                None => Ok(false),
            },
            None => Ok(false),
        },
        Val::Num(..) | Val::Global(_) => Ok(false),
    }
}

// The same of the operand at a place of an instruction's line.
fn is_late_at(
    alloc: Global,
    func: &Func,
    flow: &Flow,
    after: After,
    inst: &Inst,
    k: usize,
    at: Spot,
) -> Result<bool, NoMemory>
    requires closed { IsClosed (graph_of func.now.blocks) }
    requires graph { flow.now.graph ≡ edges_of func.now.blocks }
    requires after { CanBeAfter func.now after }
    requires there { at.block < length func.now.blocks }
    ensures { IfOk result (λ t. IsTrue t ↔ AtPlace (operands_of inst.now) (IsLateAt (func_after func.now after) at.block at.place) k) }
{
    match operand_at(inst, k) {
        Some(o) => is_late(alloc, func, flow, after, o.val, at),
        None => Ok(false),
    }
}

/// Whether some path comes to a place before the definition of an operand of an instruction, in the function that is looked at.
pub fn has_late(
    alloc: Global,
    func: &Func,
    flow: &Flow,
    after: After,
    inst: &Inst,
    at: Spot,
) -> Result<bool, NoMemory>
    requires closed { IsClosed (graph_of func.now.blocks) }
    requires graph { flow.now.graph ≡ edges_of func.now.blocks }
    requires after { CanBeAfter func.now after }
    requires there { at.block < length func.now.blocks }
    ensures { IfOk result (λ t. IsTrue t ↔ HasIn (operands_of inst.now) (IsLateAt (func_after func.now after) at.block at.place)) }
{
    if is_late_at(alloc, func, flow, after, inst, 0, at)? {
        return Ok(true);
    }
    for k in 0..more_operands(inst) {
        if is_late_at(alloc, func, flow, after, inst, k + 1, at)? {
            return Ok(true);
        }
    }
    Ok(false)
}

// Whether some path would come to an operand of an instruction that is inserted before its definition. All other uses stay behind theirs.
fn bad_in_insert(
    alloc: Global,
    func: &Func,
    flow: &Flow,
    block: BlockNo,
    place: u32,
    inst: &Inst,
    name: &Name,
) -> Result<bool, NoMemory>
    requires sound { IsSoundFunc func.now }
    requires graph { flow.now.graph ≡ edges_of func.now.blocks }
    requires names { HasBadName func.now (Insert block place inst.now name.now) → ⊥ }
    requires places { HasBadPlace func.now (Insert block place inst.now name.now) → ⊥ }
    requires kind { HasBadKind func.now (Insert block place inst.now name.now) → ⊥ }
    ensures { IfOk result (λ t. IsTrue t ↔ HasBadOrder func.now (Insert block place inst.now name.now)) }
{
    func.numbered();
    has_late(
        alloc,
        func,
        flow,
        After::Same,
        inst,
        Spot {
            block: block.0,
            place,
        },
    )
}

/// Whether some path would come to a use before its definition.
pub fn bad_order(alloc: Global, func: &Func, flow: &Flow, edit: &Edit) -> Result<bool, NoMemory>
    requires sound { IsSoundFunc func.now }
    requires graph { flow.now.graph ≡ edges_of func.now.blocks }
    requires names { HasBadName func.now edit.now → ⊥ }
    requires places { HasBadPlace func.now edit.now → ⊥ }
    requires kind { HasBadKind func.now edit.now → ⊥ }
    ensures { IfOk result (λ t. IsTrue t ↔ HasBadOrder func.now edit.now) }
{
    match edit {
        Edit::Insert {
            block,
            place,
            inst,
            name,
        } => bad_in_insert(alloc, func, flow, *block, *place, inst, name),
        Edit::Move {
            block,
            place,
            to_block,
            to_place,
        } => bad_in_move(
            alloc,
            func,
            flow,
            Spot {
                block: block.0,
                place: *place,
            },
            Spot {
                block: to_block.0,
                place: *to_place,
            },
        ),
        Edit::Remove { .. } | Edit::Unlink { .. } => Ok(false),
    }
}
