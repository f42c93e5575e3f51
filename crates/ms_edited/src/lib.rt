//! Laws of edits: behind an edit that has no fault a sound function is sound, and each number stands for one thing.
//!
//! A function, and what becomes of edits of it:
//!
//! ```text
//! define i32 @f(i1 %c, ptr %p) {                 block 0
//!   store i32 1, ptr %p
//!   %v = load i32, ptr %p
//!   br i1 %c, label %5, label %end
//! 5:                                             block 1
//!   store i32 2, ptr %p
//!   br label %end
//! end:                                           block 2
//!   %r = phi i32 [ %v, %0 ], [ 0, %5 ]
//!   ret i32 %r
//! }
//!
//! insert a store at place 1 of block 2           it stands behind the phi
//! insert it at place 0 of block 2                refused, 12: the phi would not come first
//! remove place 0 of block 1                      the store of 2 is gone
//! remove place 1 of block 0                      refused, 16: %v is used
//! move place 0 of block 0 to place 1 of block 0  the store of 1 stands behind the load: places count without it
//! move place 1 of block 0 to place 0 of block 1  refused, 15: %v would come into the phi from block 0, before its definition
//! unlink slot 1 of block 0                       br label %5, and the phi is [ 0, %5 ]
//! unlink slot 0 of block 1                       refused, 17: block 1 does not end in a conditional branch
//! ```
//!
//! All of these are clauses of [`laws::samples`], with a refusal for each number.
//!
//! **What it is.** `edited f e` is what becomes of the function `f` behind the edit `e`, and `HasFault f e why` says which faults the edit has; both are
//! definitions of `ms_ir` (`specs/Edits.antt`). An edit is refused for the fault with the least number (`IsRefused`), and `IsFaultless` says that it has
//! none. The laws say that the faults are enough: with none of them, [`laws::edits_keep_sound`] and [`laws::edits_keep_numbers`] hold. Each law is the contract of a
//! function that does nothing; a call of it brings the law into a proof.
//!
//! **Why it is so.** What a fault is has to be said before a program tests for it, and in the words of the function: that an operand is used before its
//! definition is asked of the paths of the edited function, not of a tree of dominators that some code keeps. The four edits are the least with which a
//! pass on memory can do its work: only loads, stores, copies and calls come, go or move, so no alloca leaves the first block and no phi changes but by
//! the edge that is cut. A remove and an unlink are never refused for the order of definitions and uses, and need not be: a path on which a definition
//! that stays is not met is one of the old function too ([`laws::removes_keep_order`]). An edge is not cut where a phi would be left with no edge to its block, since a phi has an entry.
//!
//! **What a caller may assume.** For a function that is numbered and sound, and an edit that has no fault: what is left is sound ([`laws::edits_keep_sound`];
//! an inserted instruction has types that can stand and numbers within their ranges, `IsFittingEdit`, as each line of the grammar has), and numbered where
//! there is one instruction's number left ([`laws::edits_keep_numbers`]). So edits can be made one after another.
//!
//! **What a caller may not assume.** That the function does the same as before: an edit may change each result. That an inserted call fits its callee, or
//! that a global is there: these are asked of the module, and are no faults here. That a name which is given to an instruction without a result is looked
//! at. That a test for a fault is given by these laws: whether some path comes to a use too early is for code to find out, and want of memory, which has
//! the last number, is no fault of an edit at all.
#![tactic(auto)]

pub mod laws;
