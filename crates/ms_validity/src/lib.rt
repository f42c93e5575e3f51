//! Which modules are accepted, and why others are not.
//!
//! A module with one fault, and what [`accept`] answers for its lines:
//!
//! ```text
//!  1  define i32 @f(i1 %c, ptr %p) {
//!  2  entry:
//!  3    br i1 %c, label %a, label %b
//!  4
//!  5  a:
//!  6    store i32 %x, ptr %p
//!  7    br label %b
//!  8
//!  9  b:
//! 10    %x = load i32, ptr %p
//! 11    ret i32 %x
//! 12  }
//! ```
//!
//! It is `Order(6)`: the path from `entry` to `a` comes to a use of `%x` before its definition. With `ret i8 %x` in line 11 it is `Types(11)`, though
//! 6 is less: types are looked at before order. With `ret i32 %y` it is `Name(11)`. With the load in `entry`, before line 3, the module is accepted.
//!
//! **What it is.** The lines of a draft, each in its place, become a module where nothing is at fault: names are made once and used as what they are;
//! operands have the types that are written, calls those of their function's line, returns that of the function; no branch leads to the first block,
//! and a phi has one entry for each edge to its block, with one value for each block; on every path a local is defined before it is used; each cycle
//! of reached blocks has a block that every path to a block of the cycle passes. A [`ValidFault`] is the least line with a fault in names; where
//! there is none, in types; then in edges; then in order; then the first function with an irreducible loop.
//!
//! **Why it is so.** Each phase may rest on the ones before: a type is asked of a name that is there, an order of edges that fit. So each is a
//! definition of its own, and the whole is their sequence. The rules are those of the Language Reference in this profile, but for loops: they are
//! reducible so that phis are exactly where paths need them, and a search that leaves trivial phis out finds the answer. The order of definitions and
//! uses is asked of paths and not of dominators: no use in a block that no path reaches is at fault.
//!
//! **What a caller may assume.** `Ok` comes with the module of the draft's lines, and it is accepted (`IsAccepted`); each fault but `Memory` is the
//! cause, and no other (`IsValidCause`). No draft has both (`ms_output::laws::one_output`), so one that has a module is not refused. `ms_valid` gives
//! this on, with what it means for the module as it stands; its allocas stand in first blocks (`ms_output::laws::accepted_begin_once`), its printed
//! text, where it is shorter than 10^9 bytes, is read and accepted as the same module (`ms_again`).
//!
//! **What a caller may not assume.** Whether an edit of one function is accepted is asked of `ms_edits::accept_edit`. `accept` asks for a
//! draft whose lines stand where they may, as `ms_read::read_module` gives it. It does not look at limits, which were looked at there, nor at what kept text says, attributes apart that have a meaning. `Memory` says nothing of the draft. That
//! a module is accepted does not say that its runs are not wrong.
#![tactic(auto)]

mod bodies;
mod body;
mod edges;
mod fault;
mod module;
mod operands;
mod order;
mod phase;
mod raw;
mod same;
mod sources;
mod spots;
mod types;
mod view;

pub use fault::ValidFault;
pub use module::accept;
