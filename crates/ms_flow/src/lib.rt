//! The flow graph of a function: which blocks follow which, and what paths tell of them.
//!
//! A function of five blocks, and what is answered of it:
//!
//! ```text
//! define void @f(i1 %c, i1 %d) {
//! entry:
//!   br label %head
//!
//! head:
//!   br i1 %c, label %body, label %exit
//!
//! body:
//!   br i1 %d, label %head, label %head
//!
//! exit:
//!   ret void
//!
//! lost:
//!   br label %head
//! }
//!
//! block      targets by slot    edges to it, as block and slot    order    on a cycle
//! 0 entry    1                  none                              0        no
//! 1 head     2, 3               0 slot 0, 2 slot 0, 2 slot 1      1        yes
//! 2 body     1, 1               1 slot 0                          3        yes
//! 3 exit     none               1 slot 1                          2        no
//! 4 lost     1                  none                              none     no
//! ```
//!
//! `cuts(BlockNo(1), BlockNo(3))` is true, since every path to `exit` passes `head`; `cuts(BlockNo(2), BlockNo(3))` is false. The graph is reducible:
//! every path to a block of its cycle passes `head`. `behind(alloc, BlockNo(1))` has true for the blocks 1 to 4, the last of them not reached.
//!
//! After `drop_edge(BlockNo(2), 0, steps)` the block `body` has the one target 1, at slot 0, and `steps` has risen by 4, the edges from blocks that
//! are still reached. To `head` lead 0 slot 0 and 2 slot 0; these stood at the places 0 and 2 before, which is what `slot_before(BlockNo(1), 0)` and
//! `slot_before(BlockNo(1), 1)` answer. After `drop_edge(BlockNo(1), 0, steps)` in its place `body` is not reached, and to `head` leads 0 slot 0 alone.
//!
//! **What it is.** Block 0 is the entry, and a block is reached where a path leads from there to it. Targets have slots: 0 for true and 1 for false,
//! or 0 alone; a branch whose two targets are one block has two edges. An [`Edge`] is known by its slot at both ends: `out_slot` among the targets of
//! the block that it leaves, `in_slot` among the edges to the block that it leads to. The edges to a block are those from reached blocks, in the
//! order of the text, then by slot; the entries of a memory phi stand in this order. The order of the blocks is the reverse postorder of the walk
//! from block 0 that goes depth first and takes slot 0 first.
//!
//! **Why it is so.** What is elsewhere asked of a tree of dominators is asked of paths here: whether every path to one block passes another (`cuts`)
//! is a search that goes around the other, and one such search tells it of all blocks (`behind`). It can be read off the definition, and no tree has
//! to be kept up to date where an edge is cut. Contracts see the edges without the instructions, so the graph stays what it is when an instruction
//! comes or goes. `of` takes all memory that is needed, so that what stands on a flow graph can be kept up to date without any: behind a cut edge the
//! edges to a block are those of before without some, so all tables are made again where they stand. `succ` and `pred` count each edge that they answer
//! on [`ms_ir::Steps`], and `drop_edge` each edge from a block that is still reached, so that a call above can say how many edges it reads. `slot_before`
//! tells what stands on the edges to a block where to find what belongs to an edge: from there it can be moved, the first place first, without any room,
//! since no edge stands later than before.
//!
//! **What a caller may assume.** Each answer is exact, by the clause of its call. `order` is none exactly where the block is not reached. What `succ`
//! gives is found again by `pred` at its `in_slot`. The laws say what the answers are good for. [`laws::same_paths`]: the paths are those of the function's
//! graph with its instructions. [`laws::order_told`]: each edge goes up in the order, or back to a block on a path to its beginning; where the graph is
//! reducible, back to one that every path to its beginning passes. [`laws::sources_told`]: the edges to a block are exactly those from reached blocks, in
//! that order, each once. [`laws::cut_is_told`]: the graph behind `drop_edge` is that of the function with the edge cut, it has no edge, path or reached
//! block that was not there, and a reducible graph stays reducible.
//!
//! **What a caller may not assume.** `of` asks for a function that has a block and whose terminators name its own blocks. `succ` and `pred` ask for a
//! reached block and a slot below the count, `slot_before` for a slot below `pred_count`, `drop_edge` for a block with two targets, all other calls for a
//! block of the function. Edges from blocks that are not reached are not listed, and
//! of such a block `cuts` says that every path to it passes everything. A graph need not be reducible: what needs that asks `reducible`. A flow graph
//! does not follow its function: where a terminator changes, it is still that of the function before. `slot_before` tells of the last `drop_edge` alone. `cuts` and `behind` walk anew at each call, and
//! no clause bounds their time.
#![tactic(auto)]

mod flow;
pub mod laws;
mod loops;
mod order;
mod search;
mod sources;
mod table;
mod walker;

pub use flow::{Edge, Flow};
