//! Whether an edit of a function is let through, and if not, why: the fault with the least number.
//!
//! A function, and what is answered of edits of it (places count from 0, and the terminator has none):
//!
//! ```text
//! define void @f(i1 %c, ptr %p) {
//! entry:
//!   br i1 %c, label %a, label %b
//!
//! a:
//!   %x = load i32, ptr %p
//!   store i32 %x, ptr %p
//!   br label %b
//!
//! b:
//!   ret void
//! }
//!
//! Insert { block: 1, place: 3, .. }                                 Err(Place)     %a has two instructions, so the last place is 2
//! Insert { block: 2, place: 0, inst: store i32 %x, ptr %p, .. }     Err(Order)     a path comes to %b past %a
//! Move { block: 1, place: 0, to_block: 1, to_place: 1 }             Err(Order)     the store would come before %x
//! Move { block: 1, place: 1, to_block: 2, to_place: 0 }             Err(Order)     as with the insert
//! Remove { block: 1, place: 0 }                                     Err(Used)      the store uses %x
//! Unlink { block: 0, slot: 1 }                                      Ok(())
//! Unlink { block: 0, slot: 2 }                                      Err(NoEdge)
//! ```
//!
//! **What it is.** An edit inserts, removes or moves a load, store, copy or call, or cuts an edge of a conditional branch. [`accept_edit`] asks, in
//! the order of the numbers: are the blocks and locals there that the edit names, and is the name of its result free (`Name`); can an instruction
//! stand or be taken at the place (`Place`); is the instruction of a kind that is edited, and does no block keep phis without an edge (`Kind`); do
//! the locals have the types that are written (`Types`); would no path come to a use before its definition (`Order`); is the result of what is
//! removed unused (`Used`); is the edge there (`NoEdge`). It answers the first that is not so. The definitions stand with those of a function,
//! in `ms_ir`: what becomes of a function by an edit, and each fault, by the function behind the edit.
//!
//! **Why it is so.** A fault is told by the function and its flow graph as they are: nothing is changed to see whether it may be, so an edit that is
//! refused leaves no trace. What the function is sound for already is not asked again. Of the uses behind an insert only those of the new
//! instruction's operands can be before their definitions, and behind a move only those and the uses of its result; all other instructions shift
//! together. Where phis come first, one look tells whether some stand behind a place, and where each phi has an entry for each edge, the count of
//! its entries tells how many edges there are. One walk of the graph for each operand, or for a result, tells of all blocks whether every path to
//! them passes its definition's.
//!
//! **What a caller may assume.** `Ok` comes exactly where the edit has no fault, and an `Err` is the fault of those that it has with the least number;
//! want of memory alone (`Memory`) may come in place of either. An edit without a fault keeps a sound function sound and its numbers single: these
//! are the laws of `ms_edited`.
//!
//! **What a caller may not assume.** The flow graph has to be the function's, and the function sound; of another nothing is said. That the types of an
//! instruction that is put can stand, and that its numbers are within their ranges, is not asked here. Nothing is changed, and no room is taken. No
//! clause bounds a time: names and uses are found by a scan of the function, and where an instruction stands by a walk of its block.
#![tactic(auto)]

mod accept;
mod kinds;
mod moves;
mod names;
mod operands;
mod order;
mod places;
mod spots;
mod uses;

pub use accept::accept_edit;
