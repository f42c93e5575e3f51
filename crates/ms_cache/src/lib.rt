//! Answers to clobber queries, kept while the function changes, for as long as they are right.
//!
//! ```text
//! ; 1 = MemoryDef(liveOnEntry)
//!   store i32 1, ptr %a
//! ; 2 = MemoryDef(1)
//!   store i32 2, ptr %b
//! ; MemoryUse(1)
//!   %x = load i32, ptr %a                                      kept: (%x, four bytes of %a) is answered by 1
//! ; MemoryUse(2)
//!   %y = load i32, ptr %b                                      kept: (%y, four bytes of %b) is answered by 2
//! ```
//!
//! A third store to `%a` is put. It may write the bytes of the first answer, which goes, be the store before `%x` or behind it: no path is looked
//! at. It may not write those of the second, which stays: `%y` need not be walked for again.
//!
//! ```text
//! let mut cache = Cache::new(alloc);
//! cache.put(y, loc, access)?;                                  // the pair of y and loc was not kept
//! let change = Change { inst: Some(i), def: true, own_only: false, captured: false, unlinked: false };
//! cache.after(func, alias, &change);                           // func and its pointers with i in it
//! let kept = cache.get(y, &loc);                               // still that access, for i may not write loc
//! ```
//!
//! **What it is.** A list of pairs of a [`Query`], which is an instruction and a location, and the access that answers it, in the order in which they
//! were kept. [`Cache::after`] drops from it by one rule, `Stays` in the specs: an answer stays where its instruction is not the one that was put,
//! taken, moved or given another source, no Def that may write its location was put, taken or moved, the captured allocas are the same, and no edge
//! was cut. Where a memcpy got another source nothing else can have another answer, so there `own_only` asks the first alone.
//!
//! **Why it is so.** The rule has to be cheap, and right: no walk for a location stops at a Def that may not write it. Captures change what calls may
//! write, and a cut edge changes the paths; then all answers go. That what stays is the clobber in the changed function is not said here, where no
//! path is known. Answers stand in a hash table: `get` and `put` do not go through the list, `after` does once.
//!
//! **Pointers behind edits.** The tables of a function's pointers are those of the edited function with no call of `ms_alias`, roots and locations are
//! the same, and so is what each other instruction may write and read: where an instruction that makes no pointer stands elsewhere
//! ([`laws::shift_kept`]), a memcpy took another source ([`laws::source_kept`]), a local that holds numbers gave way to a value of its type
//! ([`laws::replace_kept`]), an instruction that makes no pointer and passes no arguments was taken ([`laws::take_kept`]), or a load gave way and was
//! taken ([`laws::load_gone`]). Where an edge was cut the tables are ready to be renewed ([`laws::cut_kept`]).
//!
//! **What a caller may assume.** `get` is exact, and no query stands twice. `after` keeps the order and drops nothing else ([`laws::stays_told`]); it takes
//! no memory, nor do `new`, `get` and `count`. After `put` found no memory the list is as it was.
//!
//! **What a caller may not assume.** That an answer is right: the list holds what was put. `after` does not find out what the change was. The function
//! that it is given is the one in which the instruction stands, so behind a put and before a take, and its pointers are that function's.
#![tactic(auto)]

mod cache;
mod change;
pub mod laws;
mod query;

pub use cache::Cache;
pub use change::Change;
pub use query::Query;
