// Uses of a local that a path comes to before its definition.
ghost use Rattle.std.specs.Prelude.{◌≡◌, ◌↔◌, ◌<◌, ℕ, List, Some, IsTrue, length, map, option_map, slice_get};
ghost use Rattle.ms_paths.specs.Flow.{IsClosed, IsPath};
ghost use Rattle.ms_ir.specs.Func.{insts_at};
ghost use Rattle.ms_ir.specs.Graph.{graph_of};
ghost use Rattle.ms_ir.specs.Sound.{IsUsedBefore};
ghost use Rattle.ms_ir.specs.Uses.{Use, entry_use, operands_of, term_uses_at, used_at, uses_at};
ghost use Rattle.ms_flow.specs.Table.{edges_of};
ghost use Rattle.ms_validity.specs.Tables.{AreSpots};
ghost use Rattle.ms_validity.specs.Told.{HasUseBefore, as_use, IsPassed};

use crate::operands::{operand_at, operand_count, term_operand};
use crate::spots::Spot;
use ms_flow::Flow;
use ms_ir::{BlockNo, Entries, Func, Inst, InstNo, Term, Val};

/// A value that is used before the instruction of a place of a block runs, or at the block's end.
#[derive(Clone, Copy)]
pub struct Used {
    pub at: Spot,
    pub val: Val,
}

// Whether some path comes to a place without passing another one first.
fn comes_without(flow: &mut Flow, first: Spot, at: Spot) -> bool
    requires closed { IsClosed flow.old.graph }
    requires first { first.block < length flow.old.graph }
    ensures told { IsTrue result ↔ ((p : List ℕ) × IsPath flow.old.graph at.block p × (IsPassed first at p → ⊥)) }
    ensures same { flow.new ≡ flow.old }
{
    ms_flow::laws::order_told();
    if at.block >= flow.block_count() {
        return false;
    }
    if !flow.reached(BlockNo(at.block)) {
        return false;
    }
    if first.block == at.block {
        return at.place <= first.place;
    }
    !flow.cuts(BlockNo(first.block), BlockNo(at.block))
}

// Where an instruction stands, by its number.
pub fn spot_of(spots: &[Spot], i: InstNo) -> Option<Spot>
    ensures { result ≡ slice_get spots.now i.0 }
{
    spots.get(i.0 as usize).copied()
}

// Whether a path comes to the use of a local before the local's definition.
fn is_before(func: &Func, flow: &mut Flow, spots: &[Spot], used: Used) -> bool
    requires closed { IsClosed (graph_of func.now.blocks) }
    requires flow { flow.old.graph ≡ edges_of func.now.blocks }
    requires spots { AreSpots func.now.blocks spots.now }
    ensures told { IsTrue result ↔ IsUsedBefore func.now (as_use used) }
    ensures same { flow.new ≡ flow.old }
{
    ms_flow::laws::same_paths();
    func.numbered();
    match used.val {
        Val::Local(l) => match func.def_of(l) {
            Some(i) => match spot_of(spots, i) {
                Some(first) => comes_without(flow, first, used.at),
                None => false,
            },
            None => false,
        },
        Val::Num(..) | Val::Global(_) => false,
    }
}

// The end of a block.
fn end_of(func: &Func, b: BlockNo) -> Spot
    ensures block { result.block ≡ b.0 }
    ensures place { result.place ≡ length (insts_at func.now.blocks b.0) }
{
    let place = if b.0 < func.block_count() {
        func.count(b)
    } else {
        0
    };
    Spot { block: b.0, place }
}

// The use of the entry at a place of a phi.
fn entry_used(func: &Func, entries: &Entries, k: usize) -> Option<Used>
    ensures { option_map as_use result ≡ slice_get (map (entry_use func.now.blocks) entries.now) k }
{
    match entries.get(k) {
        Some(entry) => Some(Used {
            at: end_of(func, entry.from),
            val: entry.val,
        }),
        None => None,
    }
}

// The use of the operand at a place of an instruction's line.
fn operand_used(inst: &Inst, at: Spot, k: usize) -> Option<Used>
    ensures { option_map as_use result ≡ slice_get (map (used_at at.block at.place) (operands_of inst.now)) k }
{
    match operand_at(inst, k) {
        Some(o) => Some(Used { at, val: o.val }),
        None => None,
    }
}

// The use at a place of the line of an instruction that stands at this spot.
fn used_in(func: &Func, at: Spot, inst: &Inst, k: usize) -> Option<Used>
    ensures { option_map as_use result ≡ slice_get (uses_at func.now.blocks at.block at.place inst.now) k }
{
    match inst {
        Inst::Phi { entries, .. } => entry_used(func, entries, k),
        _ => operand_used(inst, at, k),
    }
}

// Whether a path comes to the use at a place of an instruction's line before the definition of what is used.
fn is_before_at(
    func: &Func,
    flow: &mut Flow,
    spots: &[Spot],
    at: Spot,
    inst: &Inst,
    k: usize,
) -> bool
    requires closed { IsClosed (graph_of func.now.blocks) }
    requires flow { flow.old.graph ≡ edges_of func.now.blocks }
    requires spots { AreSpots func.now.blocks spots.now }
    ensures told { IsTrue result ↔ ((u : Use) × (slice_get (uses_at func.now.blocks at.block at.place inst.now) k ≡ Some u) × IsUsedBefore func.now u) }
    ensures same { flow.new ≡ flow.old }
{
    match used_in(func, at, inst, k) {
        Some(used) => is_before(func, flow, spots, used),
        None => false,
    }
}

/// Whether a path comes to a use of an instruction before the definition of what is used.
pub fn inst_order(func: &Func, flow: &mut Flow, spots: &[Spot], at: Spot, inst: &Inst) -> bool
    requires closed { IsClosed (graph_of func.now.blocks) }
    requires flow { flow.old.graph ≡ edges_of func.now.blocks }
    requires spots { AreSpots func.now.blocks spots.now }
    ensures told { IsTrue result ↔ HasUseBefore func.now (uses_at func.now.blocks at.block at.place inst.now) }
    ensures same { flow.new ≡ flow.old }
{
    for k in 0..operand_count(inst) {
        if is_before_at(func, flow, spots, at, inst, k) {
            return true;
        }
    }
    false
}

/// Whether a path comes to the use of a block's terminator before the definition of what is used.
pub fn term_order(func: &Func, flow: &mut Flow, spots: &[Spot], b: BlockNo, term: &Term) -> bool
    requires closed { IsClosed (graph_of func.now.blocks) }
    requires flow { flow.old.graph ≡ edges_of func.now.blocks }
    requires spots { AreSpots func.now.blocks spots.now }
    ensures told { IsTrue result ↔ HasUseBefore func.now (term_uses_at func.now.blocks b.0 term.now) }
    ensures same { flow.new ≡ flow.old }
{
    match term_operand(term) {
        Some(o) => {
            let at = end_of(func, b);
            is_before(func, flow, spots, Used { at, val: o.val })
        }
        None => false,
    }
}
