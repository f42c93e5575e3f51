// Kinds of instructions that are edited, phis that would be left without an edge, edges that are not there, and types.
ghost use Rattle.std.specs.Prelude.{◌≡◌, ◌<◌, ◌≤◌, ◌↔◌, ◌⊎◌, Contains, IfOk, IsTrue, MatchOption, length};
ghost use Rattle.ms_ir.specs.Func.{insts_at};
ghost use Rattle.ms_ir.specs.Changes.{IsCondBr, cut_target, with_edge_cut};
ghost use Rattle.ms_ir.specs.Uses.{Operand, operands_of};
ghost use Rattle.ms_ir.specs.Sound.{HasOtherType};
ghost use Rattle.ms_ir.specs.SoundFunc.{IsSoundFunc};
ghost use Rattle.ms_ir.specs.Edits.{HasBadKind, HasBadName, HasBadTypes, HasIdlePhis, HasNoEdge, HasNoSlot, IsNotMovable, is_movable as movable_test, term_at};
ghost use Rattle.ms_edits.specs.Told.{HasOneEntry, IsOnlyEntered};

use crate::operands::{Ask, has_operand};
use ms_ir::{BlockNo, Edit, Func, Inst, NoMemory, Steps, Term};
use std::alloc::Global;

// Whether an instruction of this kind is inserted, removed and moved.
fn is_movable(inst: &Inst) -> bool
    ensures { result ≡ movable_test inst.now }
{
    match inst {
        Inst::Load { .. } | Inst::Store { .. } | Inst::Copy { .. } | Inst::Call { .. } => true,
        Inst::Alloca { .. }
        | Inst::Gep { .. }
        | Inst::Step { .. }
        | Inst::Bin { .. }
        | Inst::Cmp { .. }
        | Inst::Select { .. }
        | Inst::Cast { .. }
        | Inst::Phi { .. } => false,
    }
}

// Whether an instruction of another kind stands at a place.
fn is_not_movable(func: &Func, b: BlockNo, place: u32) -> bool
    requires { b.0 < length func.now.blocks }
    ensures { IsTrue result ↔ IsNotMovable func.now b.0 place }
{
    match func.node_at(b, place) {
        Some(node) => !is_movable(&node.inst),
        None => false,
    }
}

// The target at a slot of a terminator. `None` exactly where it is no conditional branch, or has no such slot.
fn target_in(term: &Term, slot: u32) -> Option<BlockNo>
    ensures { MatchOption result ((IsCondBr term.now → ⊥) ⊎ (2 ≤ slot)) (λ t. IsCondBr term.now × (slot < 2) × (cut_target term.now slot ≡ t)) }
{
    match term {
        Term::CondBr(_, if_true, if_false, _) => {
            if slot == 0 {
                Some(*if_true)
            } else if slot == 1 {
                Some(*if_false)
            } else {
                None
            }
        }
        Term::Br(..) | Term::Ret(..) | Term::Unreachable(..) => None,
    }
}

// The target at a slot of a block's conditional branch. `None` exactly where the block has no such slot.
fn target_of(alloc: Global, func: &Func, b: BlockNo, slot: u32) -> Result<Option<BlockNo>, NoMemory>
    requires { b.0 < length func.now.blocks }
    ensures { IfOk result (λ o. MatchOption o (HasNoSlot func.now b.0 slot)
        (λ t. IsCondBr (term_at func.now.blocks b.0) × (slot < 2) × (cut_target (term_at func.now.blocks b.0) slot ≡ t))) }
{
    let mut steps = Steps::new(alloc)?;
    Ok(target_in(func.term(b, &mut steps), slot))
}

// Whether an instruction is a phi with one entry.
fn has_one_entry(inst: &Inst) -> bool
    ensures { IsTrue result ↔ HasOneEntry inst.now }
{
    match inst {
        Inst::Phi { entries, .. } => entries.len() == 1,
        Inst::Alloca { .. }
        | Inst::Gep { .. }
        | Inst::Step { .. }
        | Inst::Load { .. }
        | Inst::Store { .. }
        | Inst::Copy { .. }
        | Inst::Call { .. }
        | Inst::Bin { .. }
        | Inst::Cmp { .. }
        | Inst::Select { .. }
        | Inst::Cast { .. } => false,
    }
}

// Whether a block begins with a phi that has one entry.
fn is_only_entered(func: &Func, b: BlockNo) -> bool
    requires { b.0 < length func.now.blocks }
    ensures { IsTrue result ↔ IsOnlyEntered (insts_at func.now.blocks b.0) }
{
    match func.node_at(b, 0) {
        Some(node) => has_one_entry(&node.inst),
        None => false,
    }
}

// Whether a block would have phis and no edge to it. In a sound function a phi has an entry for each edge.
fn leaves_phis(func: &Func, b: BlockNo, slot: u32, target: BlockNo) -> bool
    requires sound { IsSoundFunc func.now }
    requires branch { IsCondBr (term_at func.now.blocks b.0) }
    requires slot { slot < 2 }
    requires target { cut_target (term_at func.now.blocks b.0) slot ≡ target }
    requires block { b.0 < length func.now.blocks }
    requires there { target.0 < length func.now.blocks }
    ensures { IsTrue result ↔ HasIdlePhis (with_edge_cut func.now b.0 slot).blocks target.0 }
{
    is_only_entered(func, target)
}

// Whether an edge is there without which its target would have phis and no edge to it.
fn is_bad_unlink(alloc: Global, func: &Func, b: BlockNo, slot: u32) -> Result<bool, NoMemory>
    requires sound { IsSoundFunc func.now }
    requires block { b.0 < length func.now.blocks }
    ensures { IfOk result (λ t. IsTrue t ↔ (IsCondBr (term_at func.now.blocks b.0) × (slot < 2)
        × HasIdlePhis (with_edge_cut func.now b.0 slot).blocks (cut_target (term_at func.now.blocks b.0) slot).0)) }
{
    match target_of(alloc, func, b, slot)? {
        Some(target) => Ok(leaves_phis(func, b, slot, target)),
        None => Ok(false),
    }
}

/// Whether instructions of this kind are not edited so.
pub fn bad_kind(alloc: Global, func: &Func, edit: &Edit) -> Result<bool, NoMemory>
    requires sound { IsSoundFunc func.now }
    requires names { HasBadName func.now edit.now → ⊥ }
    ensures { IfOk result (λ t. IsTrue t ↔ HasBadKind func.now edit.now) }
{
    match edit {
        Edit::Insert { inst, .. } => Ok(!is_movable(inst)),
        Edit::Remove { block, place } | Edit::Move { block, place, .. } => Ok(is_not_movable(
            func, *block, *place,
        )),
        Edit::Unlink { block, slot } => is_bad_unlink(alloc, func, *block, *slot),
    }
}

// Whether an operand of an instruction is a local of another type than the one written.
fn has_other_type(func: &Func, inst: &Inst) -> bool
    ensures { IsTrue result ↔ ((o : Operand) × Contains (operands_of inst.now) o × HasOtherType func.now o) }
{
    has_operand(func, Ask::Other, inst)
}

/// Whether a local operand has another type than the one written.
pub fn bad_types(func: &Func, edit: &Edit) -> bool
    ensures { IsTrue result ↔ HasBadTypes func.now edit.now }
{
    match edit {
        Edit::Insert { inst, .. } => has_other_type(func, inst),
        Edit::Remove { .. } | Edit::Move { .. } | Edit::Unlink { .. } => false,
    }
}

/// Whether there is no such edge.
pub fn no_edge(alloc: Global, func: &Func, edit: &Edit) -> Result<bool, NoMemory>
    requires { HasBadName func.now edit.now → ⊥ }
    ensures { IfOk result (λ t. IsTrue t ↔ HasNoEdge func.now edit.now) }
{
    match edit {
        Edit::Unlink { block, slot } => has_no_slot(alloc, func, *block, *slot),
        Edit::Insert { .. } | Edit::Remove { .. } | Edit::Move { .. } => Ok(false),
    }
}

// Whether a block has no such slot.
fn has_no_slot(alloc: Global, func: &Func, b: BlockNo, slot: u32) -> Result<bool, NoMemory>
    requires { b.0 < length func.now.blocks }
    ensures { IfOk result (λ t. IsTrue t ↔ HasNoSlot func.now b.0 slot) }
{
    match target_of(alloc, func, b, slot)? {
        Some(_) => Ok(false),
        None => Ok(true),
    }
}
