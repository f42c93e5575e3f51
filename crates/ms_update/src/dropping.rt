// An edge is cut.
ghost use Rattle.std.specs.Prelude.{◌≡◌, ◌<◌, ◌≤◌, ◌+◌, ◌-◌, ◌^◌, ℕ, [], Some, length, min, slice_index_or};
ghost use Rattle.ms_paths.specs.Flow.{IsClosed, IsReached, IsReducible};
ghost use Rattle.ms_ir.specs.Changes.{IsCondBr, with_edge_cut};
ghost use Rattle.ms_ir.specs.Func.{no_block};
ghost use Rattle.ms_ir.specs.Graph.{graph_of};
ghost use Rattle.ms_ir.specs.Locals.{IsNumbered};
ghost use Rattle.ms_flow.specs.Cut.{edges_left, place_before};
ghost use Rattle.ms_flow.specs.Flow.{sources_of};
ghost use Rattle.ms_flow.specs.Table.{edges_of};
ghost use Rattle.ms_form.specs.Form.{HasEntry, HasList, HasPlaces, KeepsPlaces};
ghost use Rattle.ms_form.specs.Counts.{pred_counts};
ghost use Rattle.ms_build.specs.Built.{IsFormOf};
ghost use Rattle.ms_build.specs.Changes.{IsChanged, one_set};
ghost use Rattle.ms_build.specs.Filled.{OfBlock};
ghost use Rattle.ms_build.specs.Settled.{slot_count};
ghost use Rattle.ms_update.specs.Dropped.{AreCleared, IsLost, StoodBefore, all_moved, one_moved, operand_over};

use crate::finishing::finish;
use ms_build::{link, unlink};
use ms_flow::Flow;
use ms_form::{Access, Form, User};
use ms_ir::{BlockNo, Func, Steps};

// What comes over the edge at a slot: the operand of the slot where it stood before. None past the edges.
fn operand_now(form: &Form, flow: &Flow, b: BlockNo, slot: u32) -> Option<Access>
    requires { b.0 < length flow.now.graph }
    ensures is { result ≡ operand_over flow.now.graph (place_before flow.now.before) form.now b.0 slot }
    ensures named { (a : Access) → result ≡ Some a → HasList form.now a }
{
    form.uses();
    if slot < flow.pred_count(b) {
        form.operand(b, flow.slot_before(b, slot))
    } else {
        None
    }
}

// The user names this access from now on, or none.
fn set_entry(form: &mut Form, u: User, to: Option<Access>)
    requires user { HasEntry form.old u }
    requires access { (a : Access) → to ≡ Some a → HasList form.old a }
    ensures { IsChanged (one_set u to) form.old form.new }
{
    match to {
        Some(a) => link(form, u, a),
        None => unlink(form, u),
    }
}

// The operands of a block move to where their edges stand now, from the front to the back: each edge stood there or behind. All
// other slots are empty.
fn move_block(form: &mut Form, flow: &Flow, b: BlockNo)
    requires block { b.0 < length flow.now.graph }
    requires slots { length (sources_of flow.now.graph b.0) ≤ slot_count form.old b.0 }
    requires behind { (slot : ℕ) → slot < length (sources_of flow.now.graph b.0) → slot ≤ place_before flow.now.before b.0 slot }
    ensures { IsChanged (one_moved flow.now.graph (place_before flow.now.before) form.old b.0) form.old form.new }
{
    for slot in 0..form.slots(b) {
        let operand = operand_now(form, flow, b, slot);
        set_entry(form, User::Operand(b, slot), operand);
    }
}

// The same for each block.
fn move_all(form: &mut Form, flow: &Flow)
    requires places { HasPlaces (pred_counts flow.now) 0 form.old }
    requires behind { (b slot : ℕ) → b < length flow.now.graph → slot < length (sources_of flow.now.graph b) → slot ≤ place_before flow.now.before b slot }
    ensures { IsChanged (all_moved flow.now.graph (place_before flow.now.before) form.old (length flow.now.graph)) form.old form.new }
{
    for b in 0..flow.block_count() {
        move_block(form, flow, BlockNo(b));
    }
}

// The instructions of a block name no access any more.
fn forget(form: &mut Form, func: &Func, b: BlockNo)
    requires block { b.0 < length func.now.blocks }
    requires numbers { func.now.made ≤ length form.old.defs }
    ensures { AreCleared func.now.blocks (OfBlock b.0) (λ c. ⊥) form.old form.new }
{
    func.numbered();
    let mut at = func.first_inst(b);
    for place in 0..func.count(b) {
        if let Some(i) = at {
            unlink(form, User::Inst(i));
            at = func.next_inst(i);
        }
    }
}

// A block is not reached any more.
fn clear_block(form: &mut Form, func: &Func, b: BlockNo)
    requires block { b.0 < length func.now.blocks }
    requires there { b.0 < length form.old.phis }
    requires numbers { func.now.made ≤ length form.old.defs }
    ensures { AreCleared func.now.blocks (OfBlock b.0) (λ c. c ≡ b.0) form.old form.new }
{
    form.set_phi(b, false);
    unlink(form, User::Entering(b));
    forget(form, func, b);
}

// Of blocks that are not reached nothing is told any more.
fn clear_lost(form: &mut Form, func: &Func, flow: &Flow)
    requires graph { flow.now.graph ≡ edges_of func.now.blocks }
    requires places { HasPlaces (pred_counts flow.now) func.now.made form.old }
    ensures cleared { AreCleared func.now.blocks (λ c k. IsLost flow.now.graph c) (IsLost flow.now.graph) form.old form.new }
    ensures numbered { IsNumbered func.now }
{
    func.numbered();
    ms_flow::laws::same_paths();
    for b in 0..flow.block_count() {
        if !flow.reached(BlockNo(b)) {
            clear_block(form, func, BlockNo(b));
        }
    }
}

// The function and its flow graph lose an edge.
fn cut(func: &mut Func, flow: &mut Flow, b: BlockNo, slot: u32, steps: &mut Steps)
    requires graph { flow.old.graph ≡ edges_of func.old.blocks }
    requires closed { IsClosed (graph_of func.old.blocks) }
    requires reducible { IsReducible flow.old.graph }
    requires block { b.0 < length func.old.blocks }
    requires branch { IsCondBr (slice_index_or func.old.blocks b.0 no_block).term }
    requires slot { slot < 2 }
    ensures func { func.new ≡ with_edge_cut func.old b.0 slot }
    ensures graph { flow.new.graph ≡ edges_of func.new.blocks }
    ensures closed { IsClosed (graph_of func.new.blocks) }
    ensures reducible { IsReducible flow.new.graph }
    ensures blocks { length flow.new.graph ≡ length flow.old.graph }
    ensures less { (x : ℕ) → IsReached flow.new.graph x → IsReached flow.old.graph x }
    ensures stood { StoodBefore flow.old.graph flow.new.graph (place_before flow.new.before) }
    ensures steps { steps.new ≡ min (steps.old + edges_left flow.new.graph) (2 ^ 64 - 1) }
{
    ms_flow::laws::cut_is_told();
    ms_flow::laws::same_paths();
    ms_flow::laws::sources_told();
    func.cut_edge(b, slot);
    flow.drop_edge(b, slot, steps);
}

/// The edge at a slot of a block's conditional branch is cut: the function loses it, and its flow graph and form become those of
/// the function without it. It takes no memory, and counts the edges that `Flow::drop_edge` reads: those that leave blocks that
/// are still reached.
pub fn drop_edge(
    form: &mut Form,
    func: &mut Func,
    flow: &mut Flow,
    b: BlockNo,
    slot: u32,
    steps: &mut Steps,
)
    requires graph { flow.old.graph ≡ edges_of func.old.blocks }
    requires closed { IsClosed (graph_of func.old.blocks) }
    requires reducible { IsReducible flow.old.graph }
    requires block { b.0 < length func.old.blocks }
    requires branch { IsCondBr (slice_index_or func.old.blocks b.0 no_block).term }
    requires slot { slot < 2 }
    requires form { IsFormOf func.old form.old }
    requires places { HasPlaces (pred_counts flow.old) func.old.made form.old }
    ensures func { func.new ≡ with_edge_cut func.old b.0 slot }
    ensures graph { flow.new.graph ≡ edges_of func.new.blocks }
    ensures closed { IsClosed (graph_of func.new.blocks) }
    ensures reducible { IsReducible flow.new.graph }
    ensures form { IsFormOf func.new form.new }
    ensures steps { steps.new ≡ min (steps.old + edges_left flow.new.graph) (2 ^ 64 - 1) }
    ensures places { HasPlaces (pred_counts flow.new) func.new.made form.new }
    ensures spare { form.new.spare ≡ form.old.spare }
    ensures waiting { form.new.waiting ≡ [] }
{
    func.numbered();
    ms_flow::laws::order_told();
    ms_flow::laws::same_paths();
    ms_flow::laws::sources_told();
    ms_paths::laws::one_answer();
    cut(func, flow, b, slot, steps);
    move_all(form, flow);
    clear_lost(form, func, flow);
    finish(form, func, flow);
}
