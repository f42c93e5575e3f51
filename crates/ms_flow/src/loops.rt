// Which blocks of a reducible graph are on a cycle, by one pass over its edges. There an edge that does not go up in the order
// leads to a block that every path to its beginning passes, so a block is on a cycle exactly where edges that go up lead from it to
// a block with an edge back to it or to one before it.
ghost use Rattle.std.specs.Prelude.{◌≡◌, ◌<◌, ◌+◌, length, reverse, slice_index};
ghost use Rattle.ms_paths.specs.Flow.{IsClosed, IsReached, IsReducible};
ghost use Rattle.ms_flow.specs.Table.{next_of};
ghost use Rattle.ms_flow.specs.Flow.{AreCycles, AreOrdered, place_of, walked};
ghost use Rattle.ms_flow.specs.Loops.{AreLow, FallsOver, IsLeast, IsLow};

use crate::laws::order_told;
use crate::table::Table;
use crate::walker::Walker;

// The least place to which a block falls over the edge at a slot, where the block that it leads to has its low.
fn low_over(table: &Table, order: &[Option<u32>], lows: &[u32], b: u32, slot: u32) -> u32
    requires ordered { AreOrdered table.now order.now }
    requires blocks { length lows.now ≡ length table.now }
    requires b { b < length table.now }
    requires slot { slot < length (next_of table.now b) }
    requires low { let to = slice_index (next_of table.now b) slot in place_of table.now b < place_of table.now to → IsLow table.now to (slice_index lows.now to) }
    ensures { IsLeast table.now (FallsOver table.now b (slice_index (next_of table.now b) slot)) result }
{
    let to = table.at(b, slot);
    let place = order[to as usize].unwrap_or(0);
    if place <= order[b as usize].unwrap_or(0) {
        place
    } else {
        lows[to as usize]
    }
}

// The low of a block, where the blocks behind it in the order have theirs.
fn low_of(table: &Table, order: &[Option<u32>], lows: &[u32], b: u32) -> u32
    requires closed { IsClosed table.now }
    requires ordered { AreOrdered table.now order.now }
    requires b { b < length table.now }
    requires reached { IsReached table.now b }
    requires behind { AreLow table.now (place_of table.now b + 1) lows.now }
    ensures { IsLow table.now b result }
{
    let mut low = table.len();
    for slot in 0..table.count(b) {
        low = low.min(low_over(table, order, lows, b, slot));
    }
    low
}

// The lows of all reached blocks, from the blocks that the walk from block 0 has left, the first one first. These have falling
// places, so each target that goes up has its low before.
fn lows(table: &Table, order: &[Option<u32>], left: &[u32], lows: &mut Vec<u32>)
    requires closed { IsClosed table.now }
    requires ordered { AreOrdered table.now order.now }
    requires left { reverse left.now ≡ (walked table.now).left }
    requires sized { length lows.old.items ≡ length table.now }
    ensures { AreLow table.now 0 lows.new.items }
{
    for k in 0..left.len() {
        let b = left[k];
        lows[b as usize] = low_of(table, order, lows.as_slice(), b);
    }
}

/// Writes for each block whether it is on a cycle of reached blocks, where the graph is reducible. The lows are made on the way.
pub fn loop_table(
    table: &Table,
    walker: &Walker,
    order: &[Option<u32>],
    low: &mut Vec<u32>,
    cyclic: &mut Vec<bool>,
)
    requires closed { IsClosed table.now }
    requires walked { walker.now ≡ walked table.now }
    requires ordered { AreOrdered table.now order.now }
    requires low { length low.old.items ≡ length table.now }
    requires sized { length cyclic.old.items ≡ length table.now }
    ensures low { length low.new.items ≡ length table.now }
    ensures blocks { length cyclic.new.items ≡ length table.now }
    ensures cycles { IsReducible table.now → AreCycles table.now cyclic.new.items }
{
    order_told();
    lows(table, order, walker.left(), low);
    for b in 0..table.len() {
        cyclic[b as usize] = match order[b as usize] {
            Some(place) => low[b as usize] <= place,
            None => false,
        };
    }
}
