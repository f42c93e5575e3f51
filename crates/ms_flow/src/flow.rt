// The flow graph of a function.
ghost use Rattle.std.specs.Prelude.{◌≡◌, ◌≤◌, ◌<◌, ◌+◌, ◌-◌, ◌^◌, ◌↔◌, ℕ, List, IfOk, IsTrue, MatchOption, Some, length, min, slice_get, slice_index};
ghost use Rattle.ms_paths.specs.Flow.{IsClosed, IsOnEveryPath, IsReached, IsReducible};
ghost use Rattle.ms_ir.specs.Graph.{graph_of};
ghost use Rattle.ms_flow.specs.Flow.{AreCycles, AreListed, AreOrdered, has_reached, walked};
ghost use Rattle.ms_flow.specs.Table.{edges_of, next_of};

use crate::laws::cut_is_told;
use crate::loops::loop_table;
use crate::order::{is_reducible, order_again, order_table};
use crate::search::{behind, count_left, cuts, cycles, first_walk, walk_again};
use crate::sources::Sources;
use crate::table::Table;
use crate::walker::Walker;
use ms_ir::{BlockNo, Func, NoMemory, Steps};
use std::alloc::Global;
use std::marker::Model;

/// An edge: the block that it leaves and its slot among that block's targets, the block that it leads to and its slot among
/// the edges to that block.
#[derive(Clone, Copy)]
pub struct Edge {
    pub from: BlockNo,
    pub to: BlockNo,
    pub out_slot: u32,
    pub in_slot: u32,
}

/// The flow graph of a function: the targets of each block by slot, and the edges that lead to each block from reached blocks.
/// A block is reached where a path from block 0 leads to it. Contracts see it as the graph, and the places that edges had before
/// the last cut.
#[derive(Drop)]
pub struct Flow {
    table: Table,
    sources: Sources,
    order: Vec<Option<u32>>,
    cyclic: Vec<bool>,
    reducible: bool,
    // for `cuts` and `drop_edge`
    walker: Walker,
    // for `drop_edge`
    lows: Vec<u32>,
}

impl Model for Flow {
    ghost use Rattle.ms_flow.specs.Flow.{FlowState, IsFlow};

    ghost Value = { FlowState };

    ghost view = { λ f. record { graph = f.table; before = f.sources.before.items } };

    ghost invariant = { λ f. IsFlow f.table f.walker f.sources.lists.items f.sources.in_slots.items f.sources.before.items f.order.items f.lows.items f.cyclic.items f.reducible };
}

// Counts one edge that is answered.
fn count_edge(steps: &mut Steps)
    ensures { steps.new ≡ min (steps.old + 1) (2 ^ 64 - 1) }
{
    steps.add(1);
}

// Tells which blocks are on a cycle of reached blocks, and whether the graph is reducible. That it is may be known.
fn tell_cycles(
    table: &Table,
    walker: &mut Walker,
    sources: &Sources,
    order: &[Option<u32>],
    lows: &mut Vec<u32>,
    cyclic: &mut Vec<bool>,
    known: bool,
) -> bool
    requires closed { IsClosed table.now }
    requires walked { walker.old ≡ walked table.now }
    requires blocks { length walker.old.seen ≡ length table.now }
    requires listed { AreListed (has_reached table.now) table.now (length table.now) sources.now.lists.items sources.now.in_slots.items }
    requires ordered { AreOrdered table.now order.now }
    requires low { length lows.old.items ≡ length table.now }
    requires sized { length cyclic.old.items ≡ length table.now }
    requires known { IsTrue known → IsReducible table.now }
    ensures told { IsTrue result ↔ IsReducible table.now }
    ensures cycles { AreCycles table.now cyclic.new.items }
    ensures blocks { length walker.new.seen ≡ length table.now }
    ensures low { length lows.new.items ≡ length table.now }
{
    loop_table(table, walker, order, lows, cyclic);
    if known {
        return true;
    }
    if is_reducible(table, walker, order, sources) {
        return true;
    }
    cycles(table, walker, order, cyclic);
    false
}

impl Flow {
    ghost use Rattle.ms_flow.specs.Cut.{AreBefore, AreOwn, cut_graph, edges_left, place_before};
    ghost use Rattle.ms_flow.specs.Flow.{AreBehind, IsOnCycle, order_of, sources_of};

    /// The flow graph of a function, which has a block and whose terminators name its own blocks. It takes all the memory that
    /// the graph needs; of the other calls only `behind` takes any. `Err` comes only where memory is wanting, or for 2^31 blocks
    /// and more.
    pub fn of(alloc: Global, func: &Func) -> Result<Flow, NoMemory>
        requires { IsClosed (graph_of func.now.blocks) }
        ensures graph { IfOk result (λ f. f.graph ≡ edges_of func.now.blocks) }
        ensures before { IfOk result (λ f. AreOwn f.graph f.before) }
    {
        let table = Table::of(alloc, func)?;
        let mut walker = first_walk(alloc, &table)?;
        let sources = Sources::of(alloc, &table, &walker)?;
        let order = order_table(alloc, &table, &walker)?;
        let mut lows = Vec::from_elem(alloc, 0u32, table.len() as usize)?;
        let mut cyclic = Vec::from_elem(alloc, false, table.len() as usize)?;
        let reducible = tell_cycles(
            &table,
            &mut walker,
            &sources,
            order.as_slice(),
            &mut lows,
            &mut cyclic,
            false,
        );
        Ok(Flow {
            table,
            sources,
            order,
            cyclic,
            reducible,
            walker,
            lows,
        })
    }

    /// The edge at a slot of a block that has two targets is cut: 0 is the slot of the target for true, 1 of the one for false. The
    /// other edge has slot 0 afterwards. Each edge from a block that is still reached is counted as a step. It takes no memory.
    pub fn drop_edge(&mut self, b: BlockNo, slot: u32, steps: &mut Steps)
        requires two { length (next_of self.old.graph b.0) ≡ 2 }
        requires slot { slot < 2 }
        ensures graph { self.new.graph ≡ cut_graph self.old.graph b.0 slot }
        ensures before { AreBefore self.old.graph b.0 slot self.new.before }
        ensures steps { steps.new ≡ min (steps.old + edges_left (cut_graph self.old.graph b.0 slot)) (2 ^ 64 - 1) }
    {
        cut_is_told();
        self.table.bounded();
        self.table.cut(b.0, slot);
        walk_again(&self.table, &mut self.walker);
        steps.add(count_left(&self.table, &self.walker));
        self.sources.keep(&self.walker, b.0, slot);
        self.sources.number();
        order_again(&self.table, &self.walker, &mut self.order);
        self.reducible = tell_cycles(
            &self.table,
            &mut self.walker,
            &self.sources,
            self.order.as_slice(),
            &mut self.lows,
            &mut self.cyclic,
            self.reducible,
        );
    }

    /// The place that an edge to a block had among the edges to that block before the last `drop_edge`; its own place where none
    /// was made on this graph.
    pub fn slot_before(&self, b: BlockNo, slot: u32) -> u32
        requires block { b.0 < length self.now.graph }
        requires slot { slot < length (sources_of self.now.graph b.0) }
        ensures { result ≡ place_before self.now.before b.0 slot }
    {
        self.sources.place_before(b.0, slot)
    }

    /// How many blocks the function has.
    pub fn block_count(&self) -> u32
        ensures { result ≡ length self.now.graph }
    {
        self.table.len()
    }

    /// How many targets a block has. They are two where both are one block.
    pub fn succ_count(&self, b: BlockNo) -> u32
        requires { b.0 < length self.now.graph }
        ensures { result ≡ length (next_of self.now.graph b.0) }
    {
        self.table.count(b.0)
    }

    /// How many edges lead to a block from reached blocks.
    pub fn pred_count(&self, b: BlockNo) -> u32
        requires { b.0 < length self.now.graph }
        ensures { result ≡ length (sources_of self.now.graph b.0) }
    {
        self.table.bounded();
        self.sources.count(b.0)
    }

    /// Whether a path from block 0 leads to a block.
    pub fn reached(&self, b: BlockNo) -> bool
        requires { b.0 < length self.now.graph }
        ensures { IsTrue result ↔ IsReached self.now.graph b.0 }
    {
        self.order[b.0 as usize].is_some()
    }

    /// Whether a block is reached and a walk of at least one edge leads from it back to it.
    pub fn on_cycle(&self, b: BlockNo) -> bool
        requires { b.0 < length self.now.graph }
        ensures { IsTrue result ↔ IsOnCycle self.now.graph b.0 }
    {
        self.cyclic[b.0 as usize]
    }

    /// The place of a block in the reverse postorder of the walk from block 0 that goes depth first and takes slot 0 first.
    /// Places are counted from 0. `None` exactly where the block is not reached.
    pub fn order(&self, b: BlockNo) -> Option<u32>
        requires { b.0 < length self.now.graph }
        ensures place { result ≡ order_of self.now.graph b.0 }
        ensures reached { MatchOption result (IsReached self.now.graph b.0 → ⊥) (λ _. IsReached self.now.graph b.0) }
    {
        self.order[b.0 as usize]
    }

    /// Whether each cycle of reached blocks has a block through which every path to a block of the cycle passes.
    pub fn reducible(&self) -> bool
        ensures { IsTrue result ↔ IsReducible self.now.graph }
    {
        self.reducible
    }

    /// The edge at a slot of a reached block's targets. It is counted as one step.
    pub fn succ(&self, b: BlockNo, slot: u32, steps: &mut Steps) -> Edge
        requires block { IsReached self.now.graph b.0 }
        requires slot { slot < length (next_of self.now.graph b.0) }
        ensures from { result.from ≡ b }
        ensures to { result.to.0 ≡ slice_index (next_of self.now.graph b.0) slot }
        ensures out_slot { result.out_slot ≡ slot }
        ensures in_slot { slice_get (sources_of self.now.graph result.to.0) result.in_slot ≡ Some (record { from = b.0; slot = slot }) }
        ensures steps { steps.new ≡ min (steps.old + 1) (2 ^ 64 - 1) }
    {
        count_edge(steps);
        self.table.bounded();
        Edge {
            from: b,
            to: BlockNo(self.table.at(b.0, slot)),
            out_slot: slot,
            in_slot: self.sources.in_slots[2 * b.0 as usize + slot as usize],
        }
    }

    /// The edge at a slot of the edges that lead to a reached block from reached blocks: in text order of the blocks that they
    /// leave, then by their slots there. It is counted as one step.
    pub fn pred(&self, b: BlockNo, slot: u32, steps: &mut Steps) -> Edge
        requires block { IsReached self.now.graph b.0 }
        requires slot { slot < length (sources_of self.now.graph b.0) }
        ensures edge { slice_get (sources_of self.now.graph b.0) slot ≡ Some (record { from = result.from.0; slot = result.out_slot }) }
        ensures to { result.to ≡ b }
        ensures in_slot { result.in_slot ≡ slot }
        ensures steps { steps.new ≡ min (steps.old + 1) (2 ^ 64 - 1) }
    {
        count_edge(steps);
        let source = self.sources.at(b.0, slot);
        Edge {
            from: BlockNo(source.from),
            to: b,
            out_slot: source.slot,
            in_slot: slot,
        }
    }

    /// Whether every path to b passes h. Each does where b is not reached. The graph stays as it is.
    pub fn cuts(&mut self, h: BlockNo, b: BlockNo) -> bool
        requires h { h.0 < length self.old.graph }
        requires b { b.0 < length self.old.graph }
        ensures cuts { IsTrue result ↔ IsOnEveryPath self.old.graph h.0 b.0 }
        ensures same { self.new ≡ self.old }
    {
        cuts(&self.table, &mut self.walker, h.0, b.0)
    }

    /// For each block, by number, whether every path to it passes h: what `cuts` answers, for all blocks by one walk, which passes
    /// no edge twice. It takes the memory that it needs, so that the graph may be shared. `Err` comes only where memory is
    /// wanting.
    pub fn behind(&self, alloc: Global, h: BlockNo) -> Result<Vec<bool>, NoMemory>
        requires { h.0 < length self.now.graph }
        ensures { IfOk result (λ t. AreBehind self.now.graph h.0 t.items) }
    {
        behind(alloc, &self.table, h.0)
    }
}
