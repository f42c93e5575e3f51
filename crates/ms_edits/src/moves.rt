// Uses of a result that some path would come to before the instruction, once it is moved.
ghost use Rattle.std.specs.Prelude.{◌≡◌, ◌<◌, ◌↔◌, ℕ, IfOk, IsTrue, List, MatchOption, Some, false, length, map, slice_get, slice_index_or};
ghost use Rattle.ms_paths.specs.Flow.{IsClosed};
ghost use Rattle.ms_ir.specs.declared.inst.Val.TheVariants.{Local};
ghost use Rattle.ms_ir.specs.declared.inst.Inst.TheVariants.{Phi};
ghost use Rattle.ms_ir.specs.declared.names.Ty.{Ty};
ghost use Rattle.ms_ir.specs.Types.{is_phi};
ghost use Rattle.ms_ir.specs.Func.{IsAt, Placed, insts_at, no_block};
ghost use Rattle.ms_ir.specs.SoundFunc.{IsSoundFunc};
ghost use Rattle.ms_ir.specs.Graph.{graph_of};
ghost use Rattle.ms_ir.specs.Uses.{entry_use, operands_of, used_at, uses_at};
ghost use Rattle.ms_flow.specs.Flow.{AreBehind};
ghost use Rattle.ms_flow.specs.Table.{edges_of};
ghost use Rattle.ms_edits.specs.declared.spots.After.TheVariants.{Moved};
ghost use Rattle.ms_edits.specs.Told.{AtPlace, HasIn, InstHas, IsMissed};
ghost use Rattle.ms_edits.specs.Moved.{EndMisses, EndsMiss, IsBadAfter, IsGivenMissed, InstsMiss, IsMove, IsSomeMissed, IsUseMissed, NumberMisses, func_after};

use crate::operands::{Ask, has_operand};
use crate::order::{has_late, is_missed, told_of};
use crate::spots::{After, Spot, spot_after};
use crate::uses::is_term_operand;
use ms_flow::Flow;
use ms_ir::{BlockNo, Entries, Func, Inst, InstNo, LocalNo, NoMemory, Steps, Term, Val};
use std::alloc::Global;

// Whether some path comes to the end of a block without passing a place; of each block it is told whether every path to it passes
// that place's.
fn is_end_missed(flow: &Flow, behind: &[bool], first: Spot, c: u32) -> bool
    requires closed { IsClosed flow.now.graph }
    requires behind { AreBehind flow.now.graph first.block behind.now }
    ensures { (k : ℕ) → (first.block ≡ c → first.place < k) → IsTrue result ↔ IsMissed flow.now.graph first.block first.place c k }
{
    ms_flow::laws::order_told();
    if c >= flow.block_count() {
        return false;
    }
    if first.block == c {
        return false;
    }
    !told_of(behind, c)
}

fn is_local(val: Val, l: LocalNo) -> bool
    ensures { IsTrue result ↔ (val ≡ Local l) }
{
    match val {
        Val::Local(k) => k == l,
        Val::Num(..) | Val::Global(_) => false,
    }
}

// Whether the entry at a place of a phi has such a use.
fn is_entry_missed(
    func: &Func,
    flow: &Flow,
    behind: &[bool],
    from: Spot,
    to: Spot,
    l: LocalNo,
    entries: &Entries,
    k: usize,
) -> bool
    requires closed { IsClosed (graph_of func.now.blocks) }
    requires graph { flow.now.graph ≡ edges_of func.now.blocks }
    requires moves { IsMove func.now from to }
    requires behind { AreBehind flow.now.graph to.block behind.now }
    ensures { IsTrue result ↔ AtPlace (map (entry_use (func_after func.now (Moved from to)).blocks) entries.now) (IsUseMissed (func_after func.now (Moved from to)).blocks to l) k }
{
    ms_flow::laws::same_paths();
    func.numbered();
    match entries.get(k) {
        Some(entry) => {
            if is_local(entry.val, l) {
                is_end_missed(flow, behind, to, entry.from.0)
            } else {
                false
            }
        }
        None => false,
    }
}

// Whether an entry of a phi has such a use.
fn is_phi_missed(
    func: &Func,
    flow: &Flow,
    behind: &[bool],
    from: Spot,
    to: Spot,
    l: LocalNo,
    entries: &Entries,
) -> bool
    requires closed { IsClosed (graph_of func.now.blocks) }
    requires graph { flow.now.graph ≡ edges_of func.now.blocks }
    requires moves { IsMove func.now from to }
    requires behind { AreBehind flow.now.graph to.block behind.now }
    ensures { IsTrue result ↔ HasIn (map (entry_use (func_after func.now (Moved from to)).blocks) entries.now) (IsUseMissed (func_after func.now (Moved from to)).blocks to l) }
{
    for k in 0..entries.len() {
        if is_entry_missed(func, flow, behind, from, to, l, entries, k) {
            return true;
        }
    }
    false
}

// Whether an instruction that has the local as an operand, and is no phi, has such a use at a place.
fn is_operand_missed(
    func: &Func,
    flow: &Flow,
    behind: &[bool],
    from: Spot,
    to: Spot,
    l: LocalNo,
    inst: &Inst,
    at: Spot,
) -> bool
    requires closed { IsClosed (graph_of func.now.blocks) }
    requires graph { flow.now.graph ≡ edges_of func.now.blocks }
    requires moves { IsMove func.now from to }
    requires behind { AreBehind flow.now.graph to.block behind.now }
    requires there { at.block < length func.now.blocks }
    requires has { InstHas inst.now l }
    ensures { IsTrue result ↔ HasIn (map (used_at at.block at.place) (operands_of inst.now)) (IsUseMissed (func_after func.now (Moved from to)).blocks to l) }
{
    ms_flow::laws::same_paths();
    func.numbered();
    is_missed(flow, behind, to, at)
}

// The entries of a phi. `None` exactly where it is none.
fn entries_of(inst: &Inst) -> Option<&Entries>
    ensures { MatchOption result (is_phi inst.now ≡ false) (λ entries. (ty : Ty) × (tail : List ℕ) × (inst.now ≡ Phi ty entries.now tail)) }
{
    match inst {
        Inst::Phi { entries, .. } => Some(entries),
        Inst::Alloca { .. }
        | Inst::Gep { .. }
        | Inst::Step { .. }
        | Inst::Load { .. }
        | Inst::Store { .. }
        | Inst::Copy { .. }
        | Inst::Call { .. }
        | Inst::Bin { .. }
        | Inst::Cmp { .. }
        | Inst::Select { .. }
        | Inst::Cast { .. } => None,
    }
}

// Whether an instruction that has the local as an operand has such a use at a place.
fn is_inst_missed(
    func: &Func,
    flow: &Flow,
    behind: &[bool],
    from: Spot,
    to: Spot,
    l: LocalNo,
    inst: &Inst,
    at: Spot,
) -> bool
    requires closed { IsClosed (graph_of func.now.blocks) }
    requires graph { flow.now.graph ≡ edges_of func.now.blocks }
    requires moves { IsMove func.now from to }
    requires behind { AreBehind flow.now.graph to.block behind.now }
    requires there { at.block < length func.now.blocks }
    requires has { InstHas inst.now l }
    ensures { IsTrue result ↔ HasIn (uses_at (func_after func.now (Moved from to)).blocks at.block at.place inst.now) (IsUseMissed (func_after func.now (Moved from to)).blocks to l) }
{
    match entries_of(inst) {
        Some(entries) => is_phi_missed(func, flow, behind, from, to, l, entries),
        None => is_operand_missed(func, flow, behind, from, to, l, inst, at),
    }
}

// Whether the instruction of a number, which has the local as an operand, has such a use.
fn is_user_missed(
    func: &Func,
    flow: &Flow,
    behind: &[bool],
    from: Spot,
    to: Spot,
    l: LocalNo,
    inst: &Inst,
    i: InstNo,
) -> bool
    requires closed { IsClosed (graph_of func.now.blocks) }
    requires graph { flow.now.graph ≡ edges_of func.now.blocks }
    requires moves { IsMove func.now from to }
    requires behind { AreBehind flow.now.graph to.block behind.now }
    requires has { InstHas inst.now l }
    requires each { (b place : ℕ) (x : Placed) → IsAt func.now.blocks i.0 b place x → x.inst ≡ inst.now }
    ensures { IsTrue result ↔ NumberMisses (func_after func.now (Moved from to)).blocks to l i.0 }
{
    func.numbered();
    match func.place_of(i) {
        Some((b, place)) => {
            let at = spot_after(func, After::Moved(from, to), Spot { block: b.0, place });
            is_inst_missed(func, flow, behind, from, to, l, inst, at)
        }
        None => false,
    }
}

// Whether the instruction of a number has such a use.
fn is_number_missed(
    func: &Func,
    flow: &Flow,
    behind: &[bool],
    from: Spot,
    to: Spot,
    l: LocalNo,
    i: InstNo,
) -> bool
    requires closed { IsClosed (graph_of func.now.blocks) }
    requires graph { flow.now.graph ≡ edges_of func.now.blocks }
    requires moves { IsMove func.now from to }
    requires behind { AreBehind flow.now.graph to.block behind.now }
    ensures { IsTrue result ↔ NumberMisses (func_after func.now (Moved from to)).blocks to l i.0 }
{
    func.numbered();
    match func.inst(i) {
        Some(inst) => {
            if has_operand(func, Ask::Is(l), inst) {
                is_user_missed(func, flow, behind, from, to, l, inst, i)
            } else {
                false
            }
        }
        None => false,
    }
}

// Whether an instruction has such a use.
fn are_insts_missed(
    func: &Func,
    flow: &Flow,
    behind: &[bool],
    from: Spot,
    to: Spot,
    l: LocalNo,
) -> bool
    requires closed { IsClosed (graph_of func.now.blocks) }
    requires graph { flow.now.graph ≡ edges_of func.now.blocks }
    requires moves { IsMove func.now from to }
    requires behind { AreBehind flow.now.graph to.block behind.now }
    ensures { IsTrue result ↔ InstsMiss (func_after func.now (Moved from to)).blocks to l }
{
    func.numbered();
    for i in 0..func.made() {
        if is_number_missed(func, flow, behind, from, to, l, InstNo(i)) {
            return true;
        }
    }
    false
}

// Whether the terminator of a block has such a use.
fn is_term_missed(
    func: &Func,
    flow: &Flow,
    behind: &[bool],
    from: Spot,
    to: Spot,
    l: LocalNo,
    term: &Term,
    c: BlockNo,
) -> bool
    requires closed { IsClosed (graph_of func.now.blocks) }
    requires graph { flow.now.graph ≡ edges_of func.now.blocks }
    requires moves { IsMove func.now from to }
    requires behind { AreBehind flow.now.graph to.block behind.now }
    requires block { c.0 < length func.now.blocks }
    requires term { term.now ≡ (slice_index_or func.now.blocks c.0 no_block).term }
    ensures { IsTrue result ↔ EndMisses (func_after func.now (Moved from to)).blocks to l c.0 }
{
    ms_flow::laws::same_paths();
    func.numbered();
    if is_term_operand(func, term, l) {
        is_end_missed(flow, behind, to, c.0)
    } else {
        false
    }
}

// Whether some terminator has such a use.
fn are_ends_missed(
    func: &Func,
    flow: &Flow,
    behind: &[bool],
    from: Spot,
    to: Spot,
    l: LocalNo,
    steps: &mut Steps,
) -> bool
    requires closed { IsClosed (graph_of func.now.blocks) }
    requires graph { flow.now.graph ≡ edges_of func.now.blocks }
    requires moves { IsMove func.now from to }
    requires behind { AreBehind flow.now.graph to.block behind.now }
    ensures { IsTrue result ↔ EndsMiss (func_after func.now (Moved from to)).blocks to l }
{
    func.numbered();
    for c in 0..func.block_count() {
        if is_term_missed(
            func,
            flow,
            behind,
            from,
            to,
            l,
            func.term(BlockNo(c), steps),
            BlockNo(c),
        ) {
            return true;
        }
    }
    false
}

/// Whether some path would come to a use of a local without passing the place to which the instruction that gives it is moved.
pub fn is_some_missed(
    alloc: Global,
    func: &Func,
    flow: &Flow,
    from: Spot,
    to: Spot,
    l: LocalNo,
) -> Result<bool, NoMemory>
    requires closed { IsClosed (graph_of func.now.blocks) }
    requires graph { flow.now.graph ≡ edges_of func.now.blocks }
    requires moves { IsMove func.now from to }
    ensures { IfOk result (λ t. IsTrue t ↔ IsSomeMissed (func_after func.now (Moved from to)).blocks to l) }
{
    ms_flow::laws::same_paths();
    let behind = flow.behind(alloc, BlockNo(to.block))?;
    let mut steps = Steps::new(alloc)?;
    if are_insts_missed(func, flow, behind.as_slice(), from, to, l) {
        return Ok(true);
    }
    Ok(are_ends_missed(func, flow, behind.as_slice(), from, to, l, &mut steps))
}

// Whether some path would come to a use of a result, where there is one, without passing the place to which its instruction is moved.
fn is_result_missed(
    alloc: Global,
    func: &Func,
    flow: &Flow,
    from: Spot,
    to: Spot,
    given: Option<LocalNo>,
) -> Result<bool, NoMemory>
    requires closed { IsClosed (graph_of func.now.blocks) }
    requires graph { flow.now.graph ≡ edges_of func.now.blocks }
    requires moves { IsMove func.now from to }
    ensures { IfOk result (λ t. IsTrue t ↔ IsGivenMissed (func_after func.now (Moved from to)).blocks to given) }
{
    match given {
        Some(l) => is_some_missed(alloc, func, flow, from, to, l),
        None => Ok(false),
    }
}

/// Whether some path would come to a use before its definition once an instruction is moved that is no phi: to a use of its result, or to
/// the instruction before the definition of an operand. All other uses stay behind their definitions.
pub fn bad_in_move(
    alloc: Global,
    func: &Func,
    flow: &Flow,
    from: Spot,
    to: Spot,
) -> Result<bool, NoMemory>
    requires sound { IsSoundFunc func.now }
    requires graph { flow.now.graph ≡ edges_of func.now.blocks }
    requires moves { IsMove func.now from to }
    requires plain { (x : Placed) → slice_get (insts_at func.now.blocks from.block) from.place ≡ Some x → is_phi x.inst ≡ false }
    ensures { IfOk result (λ t. IsTrue t ↔ IsBadAfter (func_after func.now (Moved from to))) }
{
    func.numbered();
    match func.node_at(BlockNo(from.block), from.place) {
        Some(node) => {
            if has_late(alloc, func, flow, After::Moved(from, to), &node.inst, to)? {
                return Ok(true);
            }
            is_result_missed(alloc, func, flow, from, to, node.result)
        }
        None => Ok(false),
    }
}
