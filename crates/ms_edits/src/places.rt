// Places at which no instruction can be put or taken.
ghost use Rattle.std.specs.Prelude.{◌≡◌, ◌≤◌, ◌<◌, ◌+◌, ◌-◌, ◌^◌, ◌↔◌, ◌⊎◌, IsTrue, length};
ghost use Rattle.ms_ir.specs.Func.{cut_at, insts_at};
ghost use Rattle.ms_ir.specs.SoundFunc.{IsSoundFunc};
ghost use Rattle.ms_ir.specs.Types.{is_phi as phi_test};
ghost use Rattle.ms_ir.specs.Edits.{HasBadName, HasBadPlace, IsNoTarget};
ghost use Rattle.ms_edits.specs.Told.{IsPhiAt};

use ms_ir::{BlockNo, Edit, Func, Inst};

// Whether an instruction is a phi.
fn is_phi(inst: &Inst) -> bool
    ensures { result ≡ phi_test inst.now }
{
    match inst {
        Inst::Phi { .. } => true,
        Inst::Alloca { .. }
        | Inst::Gep { .. }
        | Inst::Step { .. }
        | Inst::Load { .. }
        | Inst::Store { .. }
        | Inst::Copy { .. }
        | Inst::Call { .. }
        | Inst::Bin { .. }
        | Inst::Cmp { .. }
        | Inst::Select { .. }
        | Inst::Cast { .. } => false,
    }
}

// Whether a phi stands at a place.
fn is_phi_at(func: &Func, b: BlockNo, place: u32) -> bool
    requires { b.0 < length func.now.blocks }
    ensures { IsTrue result ↔ IsPhiAt (insts_at func.now.blocks b.0) place }
{
    match func.node_at(b, place) {
        Some(node) => is_phi(&node.inst),
        None => false,
    }
}

// Whether none can be put at a place: the phis of a sound function come first, so one stands there if one stands there or behind.
fn is_no_target(func: &Func, b: BlockNo, place: u32) -> bool
    requires block { b.0 < length func.now.blocks }
    requires sound { IsSoundFunc func.now }
    ensures { IsTrue result ↔ IsNoTarget (insts_at func.now.blocks b.0) place }
{
    if place > func.count(b) {
        return true;
    }
    is_phi_at(func, b, place)
}

// How many instructions a block has once the one at a place of block b is taken out.
fn count_without(func: &Func, b: BlockNo, place: u32, c: BlockNo) -> u32
    requires block { b.0 < length func.now.blocks }
    requires place { place < length (insts_at func.now.blocks b.0) }
    requires other { c.0 < length func.now.blocks }
    ensures { result ≡ length (insts_at (cut_at func.now.blocks b.0 place) c.0) }
{
    if b.0 == c.0 {
        func.count(c) - 1
    } else {
        func.count(c)
    }
}

// Where something stands that is at place k of block c once the instruction at a place of block b is taken out.
fn place_with(b: BlockNo, place: u32, c: BlockNo, k: u32) -> u32
    requires { k < 2 ^ 32 - 1 }
    ensures behind { b.0 ≡ c.0 → place ≤ k → result ≡ k + 1 }
    ensures before { b.0 ≡ c.0 → k < place → result ≡ k }
    ensures other { (b.0 ≡ c.0 → ⊥) → result ≡ k }
{
    if b.0 == c.0 && place <= k { k + 1 } else { k }
}

// Whether none can be put at place k of block c once the instruction at a place of block b is taken out.
fn is_no_target_without(func: &Func, b: BlockNo, place: u32, c: BlockNo, k: u32) -> bool
    requires block { b.0 < length func.now.blocks }
    requires place { place < length (insts_at func.now.blocks b.0) }
    requires other { c.0 < length func.now.blocks }
    requires sound { IsSoundFunc func.now }
    ensures { IsTrue result ↔ IsNoTarget (insts_at (cut_at func.now.blocks b.0 place) c.0) k }
{
    let count = count_without(func, b, place, c);
    if k > count {
        return true;
    }
    if k == count {
        return false;
    }
    is_phi_at(func, c, place_with(b, place, c, k))
}

// Whether a block has no instruction at a place.
fn is_past(func: &Func, b: BlockNo, place: u32) -> bool
    requires { b.0 < length func.now.blocks }
    ensures { IsTrue result ↔ (length (insts_at func.now.blocks b.0) ≤ place) }
{
    place >= func.count(b)
}

fn bad_in_move(func: &Func, b: BlockNo, place: u32, c: BlockNo, k: u32) -> bool
    requires block { b.0 < length func.now.blocks }
    requires other { c.0 < length func.now.blocks }
    requires sound { IsSoundFunc func.now }
    ensures { IsTrue result ↔ ((length (insts_at func.now.blocks b.0) ≤ place) ⊎ IsNoTarget (insts_at (cut_at func.now.blocks b.0 place) c.0) k) }
{
    if is_past(func, b, place) {
        return true;
    }
    is_no_target_without(func, b, place, c, k)
}

/// Whether no instruction can stand or be taken at a place of the edit.
pub fn bad_place(func: &Func, edit: &Edit) -> bool
    requires names { HasBadName func.now edit.now → ⊥ }
    requires sound { IsSoundFunc func.now }
    ensures { IsTrue result ↔ HasBadPlace func.now edit.now }
{
    match edit {
        Edit::Insert { block, place, .. } => is_no_target(func, *block, *place),
        Edit::Remove { block, place } => is_past(func, *block, *place),
        Edit::Move {
            block,
            place,
            to_block,
            to_place,
        } => bad_in_move(func, *block, *place, *to_block, *to_place),
        Edit::Unlink { .. } => false,
    }
}
