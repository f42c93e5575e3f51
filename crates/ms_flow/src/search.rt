// What walks tell of the blocks.
ghost use Rattle.std.specs.Prelude.{◌≡◌, ◌<◌, ◌↔◌, ◌⊎◌, ℕ, false, List, ◌∷◌, IfOk, IsTrue, Option, Some, None, is_some, length, slice_index_or};
ghost use Rattle.ms_paths.specs.Flow.{IsClosed, IsOnEveryPath, IsReached, IsWalk};
ghost use Rattle.ms_flow.specs.Cut.{edges_left};
ghost use Rattle.ms_flow.specs.Flow.{AreBehind, AreCycles, AreOrdered, IsOnCycle, walked};
ghost use Rattle.ms_flow.specs.Walk.{is_seen};

use crate::table::Table;
use crate::walker::Walker;
use ms_ir::NoMemory;
use std::alloc::Global;

/// The walk from block 0.
pub fn first_walk(alloc: Global, table: &Table) -> Result<Walker, NoMemory>
    requires { IsClosed table.now }
    ensures walk { IfOk result (λ w. w ≡ walked table.now) }
    ensures blocks { IfOk result (λ w. length w.seen ≡ length table.now) }
{
    let mut walker = Walker::new(alloc, table.len())?;
    walker.visit(table, 0);
    Ok(walker)
}

/// The same, with a walker that is there.
pub fn walk_again(table: &Table, walker: &mut Walker)
    requires closed { IsClosed table.now }
    requires blocks { length walker.old.seen ≡ length table.now }
    ensures walk { walker.new ≡ walked table.now }
    ensures blocks { length walker.new.seen ≡ length table.now }
{
    walker.clear();
    walker.visit(table, 0);
}

/// How many edges leave the blocks that the walk from block 0 has left.
pub fn count_left(table: &Table, walker: &Walker) -> u64
    requires closed { IsClosed table.now }
    requires walked { walker.now ≡ walked table.now }
    ensures { result ≡ edges_left table.now }
{
    table.bounded();
    let left = walker.left();
    let mut count = 0;
    for k in 0..left.len() {
        count += table.count(left[k]) as u64;
    }
    count
}

// Whether every path to b passes h, where the walk was one without h.
fn is_cut(walker: &Walker, h: u32, b: u32) -> bool
    requires { b < length walker.now.seen }
    ensures { IsTrue result ↔ ((h ≡ b) ⊎ (is_seen walker.now b ≡ false)) }
{
    h == b || !walker.has_seen(b)
}

/// Whether every path to b passes h.
pub fn cuts(table: &Table, walker: &mut Walker, h: u32, b: u32) -> bool
    requires closed { IsClosed table.now }
    requires blocks { length walker.old.seen ≡ length table.now }
    requires h { h < length table.now }
    requires b { b < length table.now }
    ensures cuts { IsTrue result ↔ IsOnEveryPath table.now h b }
    ensures blocks { length walker.new.seen ≡ length table.now }
{
    walker.visit_without(table, h);
    is_cut(walker, h, b)
}

/// For each block whether every path to it passes h, by one walk.
pub fn behind(alloc: Global, table: &Table, h: u32) -> Result<Vec<bool>, NoMemory>
    requires closed { IsClosed table.now }
    requires h { h < length table.now }
    ensures { IfOk result (λ t. AreBehind table.now h t.items) }
{
    let mut walker = Walker::new(alloc, table.len())?;
    walker.visit_without(table, h);
    let mut passes = Vec::from_elem(alloc, false, table.len() as usize)?;
    for b in 0..table.len() {
        passes[b as usize] = is_cut(&walker, h, b);
    }
    Ok(passes)
}

// Whether a walk of at least one edge leads from a block back to it.
fn comes_back(table: &Table, walker: &mut Walker, b: u32) -> bool
    requires closed { IsClosed table.now }
    requires blocks { length walker.old.seen ≡ length table.now }
    requires b { b < length table.now }
    ensures cycle { IsTrue result ↔ ((c : ℕ) × (w : List ℕ) × IsWalk table.now b b (c ∷ w)) }
    ensures blocks { length walker.new.seen ≡ length table.now }
{
    walker.visit_beyond(table, b);
    walker.has_seen(b)
}

// Whether a block is reached and on a cycle.
fn is_on_cycle(table: &Table, walker: &mut Walker, order: &[Option<u32>], b: u32) -> bool
    requires closed { IsClosed table.now }
    requires blocks { length walker.old.seen ≡ length table.now }
    requires ordered { AreOrdered table.now order.now }
    requires b { b < length table.now }
    ensures cycle { IsTrue result ↔ IsOnCycle table.now b }
    ensures blocks { length walker.new.seen ≡ length table.now }
{
    if order[b as usize].is_none() {
        return false;
    }
    comes_back(table, walker, b)
}

/// Writes for each block whether it is on a cycle of reached blocks, by a walk from each.
pub fn cycles(table: &Table, walker: &mut Walker, order: &[Option<u32>], cyclic: &mut Vec<bool>)
    requires closed { IsClosed table.now }
    requires blocks { length walker.old.seen ≡ length table.now }
    requires ordered { AreOrdered table.now order.now }
    requires sized { length cyclic.old.items ≡ length table.now }
    ensures cycles { AreCycles table.now cyclic.new.items }
    ensures blocks { length walker.new.seen ≡ length table.now }
{
    for b in 0..table.len() {
        cyclic[b as usize] = is_on_cycle(table, walker, order, b);
    }
}
