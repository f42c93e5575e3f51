//! The memory form of a function: which state of memory each instruction meets, as one table with the users of each state.
//!
//! A function that stores before a loop and in it:
//!
//! ```text
//! define void @f(ptr %0) {
//!   store i32 0, ptr %0
//!   br label %2
//!
//! 2:
//!   %3 = load i32, ptr %0
//!   store i32 1, ptr %0
//!   br i1 true, label %2, label %4
//!
//! 4:
//!   ret void
//! }
//! ```
//!
//! The same with its form, as the program prints it:
//!
//! ```text
//! define void @f(ptr %0) {
//! ; 1 = MemoryDef(liveOnEntry)
//!   store i32 0, ptr %0
//!   br label %2
//!
//! 2:
//! ; 2 = MemoryPhi({%1,1},{%2,3})
//! ; MemoryUse(2)
//!   %3 = load i32, ptr %0
//! ; 3 = MemoryDef(2)
//!   store i32 1, ptr %0
//!   br i1 true, label %2, label %4
//!
//! 4:
//!   ret void
//! }
//! ```
//!
//! # Accesses
//!
//! All of memory is taken as one variable, and the form is its SSA form. An `Access` is one of its values: `Entry`, memory as it was
//! when the function was called (`liveOnEntry`); `Of(i)`, memory after the Def i, that is after a store, a memcpy or a call that may
//! write; `Phi(b)`, memory at the start of the block b, where the edges to b bring different ones. In the example block `2` is
//! entered with Def 1 or with Def 3, so it has a phi with both as operands, one for each predecessor entry.
//!
//! Each instruction that touches memory names one access: the last one before it, whatever path led there. A Def names the Def before
//! it also where the two touch different bytes; it begins a new value of all memory. A Use, which only reads, names one and begins
//! none, so nothing names it. Instructions that touch no memory name none.
//!
//! Which of these accesses wrote the bytes that a Use reads is another question, that of its clobber. The printed form shows the
//! answer for Uses. Defs keep the name of the Def before them: the chain of Defs is what a search for a clobber climbs, and where a
//! Def named its own clobber, the Defs that were left out would be missed by a search for other bytes. Here not even a Use is changed
//! in the table; `ms_walk` answers clobbers from it. So an edit of the function has no refined name to find and undo.
//!
//! # The table
//!
//! A block has a phi or none (`phi_at`), an access that enters it (`entering`), one operand for each predecessor entry (`operand`),
//! and a last Def or none; `leaving` is that last Def, or else what enters. An instruction has the access that it names (`defining`).
//! What names an access is its `User`: an instruction, an operand of a block, or a block that it enters. The last kind is there so
//! that what a block remembers of the blocks before it is found and changed like any other use.
//!
//! For each access the form keeps the list of its users (`first_use`, `next_use`). A list is linked both ways, and the link of each
//! user has its own place, so every change takes constant time and no memory. Only `Form::empty` and `Form::reserve` take memory:
//! the one makes a place for each block, slot and instruction number, the other for numbers to come.
//!
//! # What a caller may assume
//!
//! - Look-ups are total: `None` or `false` where there is no such block, slot or instruction, or where its entry is empty. `leaving`
//!   alone has a condition, that the block has a last Def or is entered.
//! - `relink`, `clear`, `set_phi` and `set_last` change one entry each, and the two lists that it leaves and joins; all else stays,
//!   and no place goes away.
//! - A list has each user of its access exactly once, and no other. `uses` is that law.
//! - A block has a slot for each edge to it from a reached block. It may have more, where edges went away since the form was made.
//!
//! # What a caller may not assume
//!
//! - An order of a list's users, or that it stays over a change.
//! - That an entry is right. The table holds what it was told; that it is the form of a function is promised by `build` of `ms_build`
//!   and by the calls of `ms_update`, and no other.
//! - In the form of a function, anything of blocks that are not reached but their last Defs: all their entries are empty.
//! - That the access that an instruction names writes what it touches.
#![tactic(auto)]

mod access;
mod chains;
mod form;
mod places;
mod waiting;

pub use access::{Access, User};
pub use form::Form;
