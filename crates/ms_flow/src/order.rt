// The order in which the walk from the entry has left the blocks, and what it tells.
ghost use Rattle.std.specs.Prelude.{Contains, ◌≡◌, ◌≤◌, ◌<◌, ◌^◌, ◌↔◌, ℕ, List, ◌∷◌, IfOk, IsTrue, Option, Some, None, length, reverse, slice_index, slice_index_or, vec_len};
ghost use Rattle.ms_paths.specs.Flow.{HasEdge, IsClosed, IsReached, IsReducible};
ghost use Rattle.ms_flow.specs.declared.sources.Source.{Source};
ghost use Rattle.ms_flow.specs.Flow.{AreListed, AreOrdered, IsFine, has_reached, place_in, place_of, sources_of, walked};

use crate::search::cuts;
use crate::sources::{Source, Sources};
use crate::table::Table;
use crate::walker::Walker;
use ms_ir::{Items, NoMemory};
use std::alloc::Global;

// Writes for each block its place among those that were left, the last one first.
fn places(left: &[u32], order: &mut Vec<Option<u32>>)
    requires few { length left.now < 2 ^ 32 }
    requires fits { length left.now ≤ length order.old.items }
    requires below { (k : ℕ) → k < length left.now → slice_index left.now k < length order.old.items }
    ensures len { length order.new.items ≡ length order.old.items }
    ensures places { (b : ℕ) → b < length order.old.items → slice_index_or order.new.items b None ≡ place_in (reverse left.now) b }
{
    order.fill(None);
    let count = left.len();
    for k in 0..count {
        order[left[k] as usize] = Some((count - 1 - k) as u32);
    }
}

/// Writes for each block its place in the order of the walk from block 0.
pub fn order_again(table: &Table, walker: &Walker, order: &mut Vec<Option<u32>>)
    requires closed { IsClosed table.now }
    requires walked { walker.now ≡ walked table.now }
    requires sized { length order.old.items ≡ length table.now }
    ensures { AreOrdered table.now order.new.items }
{
    table.bounded();
    places(walker.left(), order);
}

/// For each block its place in the order of the walk from block 0.
pub fn order_table(
    alloc: Global,
    table: &Table,
    walker: &Walker,
) -> Result<Vec<Option<u32>>, NoMemory>
    requires closed { IsClosed table.now }
    requires walked { walker.now ≡ walked table.now }
    ensures { IfOk result (λ v. AreOrdered table.now v.items) }
{
    let mut order = Vec::from_elem(alloc, None, table.len() as usize)?;
    order_again(table, walker, &mut order);
    Ok(order)
}

// Whether an edge goes up, or leads to a block that every path to its beginning passes.
fn is_fine(table: &Table, walker: &mut Walker, order: &[Option<u32>], from: u32, to: u32) -> bool
    requires closed { IsClosed table.now }
    requires blocks { length walker.old.seen ≡ length table.now }
    requires ordered { AreOrdered table.now order.now }
    requires from { from < length table.now }
    requires to { to < length table.now }
    ensures fine { IsTrue result ↔ IsFine table.now from to }
    ensures blocks { length walker.new.seen ≡ length table.now }
{
    if order[from as usize].unwrap_or(0) < order[to as usize].unwrap_or(0) {
        return true;
    }
    cuts(table, walker, to, from)
}

// Whether each of these edges to a block is fine.
fn are_fine(
    table: &Table,
    walker: &mut Walker,
    order: &[Option<u32>],
    list: &[Source],
    to: u32,
) -> bool
    requires closed { IsClosed table.now }
    requires blocks { length walker.old.seen ≡ length table.now }
    requires ordered { AreOrdered table.now order.now }
    requires within { (e : Source) → Contains list.now e → e.from < length table.now }
    requires to { to < length table.now }
    ensures fine { IsTrue result ↔ ((e : Source) → Contains list.now e → IsFine table.now e.from to) }
    ensures blocks { length walker.new.seen ≡ length table.now }
{
    for k in 0..list.len() {
        if !is_fine(table, walker, order, list[k].from, to) {
            return false;
        }
    }
    true
}

/// Whether each cycle of reached blocks has a block that every path to a block of the cycle passes.
pub fn is_reducible(
    table: &Table,
    walker: &mut Walker,
    order: &[Option<u32>],
    sources: &Sources,
) -> bool
    requires closed { IsClosed table.now }
    requires blocks { length walker.old.seen ≡ length table.now }
    requires ordered { AreOrdered table.now order.now }
    requires listed { AreListed (has_reached table.now) table.now (length table.now) sources.now.lists.items sources.now.in_slots.items }
    ensures told { IsTrue result ↔ IsReducible table.now }
    ensures blocks { length walker.new.seen ≡ length table.now }
{
    ms_paths::laws::order_told();
    for b in 0..table.len() {
        let list = &sources.lists[b as usize];
        if !are_fine(table, walker, order, list.as_slice(), b) {
            return false;
        }
    }
    true
}
