//! The search for the last Def that counts, over any set of Defs.
//!
//! The accesses of a loop with two arms, where 1 stores to the alloca `%a`, 3 to the alloca `%b`, and 4 to where the argument `%p` points:
//!
//! ```text
//! entry:    1 = MemoryDef(liveOnEntry)
//! head:     2 = MemoryPhi({entry,1},{latch,5})
//! left:     3 = MemoryDef(2)
//! right:    4 = MemoryDef(2)
//! latch:    5 = MemoryPhi({left,3},{right,4})
//! ```
//!
//! Before the first instruction of `latch`, where 4 alone counts, the answer is 5: one way into 5 leads over 3 to 2, the other to 4. Where 1 alone
//! counts, the answer is 1: both ways into 5 lead to 2, so 5 is left out; then the ways into 2 lead to 1 and to 2 itself, so 2 is left out.
//!
//! **What it is.** A memory form names, at each place, the last Def before it on every path. Where only some Defs count, the search goes up that
//! form: it passes each Def that does not count, opens the operands of each phi that it meets, and leaves out the phis whose ways all lead to one
//! access. Which Defs count is told by a test, [`Writes`]: for a clobber, those that may write a location. [`last_before`] answers before an
//! instruction, [`last_at_end`] at the end of a block.
//!
//! **Why it is so.** The answer is defined by paths: the last counted Def on every path, with phis at the blocks that need one for these Defs. That
//! set of phis is another one for each test, and no table of it is made: fewer Defs need phis at fewer blocks, so all that are needed are among those
//! of the form, and it is enough to leave some out. On a reducible graph those that stay are exactly the needed ones (`ms_paths::laws::walk_answers`). For
//! one query each access is visited once at most: each Def is asked once whether it counts, and each phi is opened once. The first chain is climbed
//! without tables; where it is left before its stop, the Defs that it passed are handed on and marked, and the search goes on behind them. From then
//! on each Def is marked as it is asked, and a marked one is not asked again, on whatever way it is met. A phi is listed as it is first met, and the
//! list is opened from front to back. To leave phis out, only what was found so far is looked at.
//!
//! **What a caller may assume.** The answer is the one that paths define, for the test that was given, and one place has one answer at most
//! (`ms_paths::laws::one_answer`). The instruction at which the search begins need not touch memory. Only Defs of the function are asked. Want of memory is
//! the only fault.
//!
//! **What a caller may not assume.** The test has to hold of Defs of the function alone; the flow graph and the form have to be the function's, the
//! graph reducible, the instruction or block reached. In which order Defs are asked is not said; that each is asked once at most is shown by tests,
//! not by a clause. There is no limit behind which the search gives up: it takes memory, at worst for each instruction and block of the function, and
//! answers only when it is through.
#![tactic(auto)]

mod chains;
mod near;
mod search;
mod skips;
mod start;
mod walk;
mod writes;

pub use search::{last_at_end, last_before};
pub use writes::Writes;
