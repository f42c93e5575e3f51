//! A function with all that is told of it, changed as one.
//!
//! [`Whole`] takes a sound function and holds with it its flow graph, its memory form, the tables of its pointers, and the clobbers that were asked for. An
//! edit is made in all of them at once, so they are one another's at every moment, and no call asks for that.
//!
//! ```text
//! let mut whole = Whole::start(alloc, func)?;
//! let Found { access, walked } = whole.clobber(alloc, i, &loc)?;   // walked for, and kept
//! whole.reserve(1)?;                                               // room for one insert, and for any number of other edits
//! whole.check(alloc, &edit)?;                                      // the least fault of the edit, if it has one
//! whole.make(edit, &mut steps);                                    // cannot fail, and takes no memory
//! let again = whole.clobber(alloc, i, &loc)?;                      // `walked` is false where the answer stayed
//! ```
//!
//! **How an edit is made.** In this order, where no call may see what is not yet, or no longer, the function's:
//!
//! | Edit | Before the function changes | With it | Behind it |
//! |---|---|---|---|
//! | insert | | `Func::put_inst` | `ms_update::insert`, `Alias::note_put`, `Cache::after` |
//! | remove | `Alias::note_take`, `Cache::after`, `ms_update::remove` | `Func::take_inst` | |
//! | move | `Cache::after` | `ms_update::shift` | |
//! | unlink | `Cache::after` | `ms_update::drop_edge` | `Alias::renew` |
//! | another source | `Cache::after` | `Func::set_copy_source` | |
//! | a load gives way | `Cache::after` | `Func::replace_local`, `ms_update::remove`, `Func::take_inst` | |
//!
//! An answer is kept or dropped by what the instruction of the edit may write in the function in which it stands: behind an insert, and before all else. A move
//! and what is replaced leave the tables of pointers as they are.
//!
//! **Room.** `spare` is for how many inserts there is room, in the function and in the form. An insert takes one at most, and no other edit takes any; `reserve` adds room and takes
//! none away. So behind `reserve(n)` every list of edits that are let through, with n inserts among them at most, is made without memory.
//!
//! **What a caller may assume.**
//! - `make` leaves exactly the edited function (`ms_ir/specs/Edits.antt`) and exactly those answers that stay (`KeepsBehind` in `ms_kept/specs/Answers.antt`), in the order in which
//!   they stood. `steps` rises by the edges that the edit reads (`specs/Cost.antt`), which is one number ([`laws::one_number_of_reads`]): by the function before and behind
//!   alone, for the form is brought up to date and not made afresh. Neither `make`, `source` nor `replace` is handed an allocator, and none is held. The counter that
//!   `replace` hands on counts for no one and stands at 0 always, so nothing is read with it.
//! - `source` and `replace` ask that the function behind them is sound; only the answers of the memcpy or of the load go.
//! - Each answer that is kept is the clobber in the function as it stands. `clobber` walks exactly where none is kept; a pair that is kept always gets its answer. After
//!   want of memory nothing has changed. What may be asked: bytes at the root of a pointer, or what a call itself reads.
//! - `check` gives the least fault. `reserve`, also where memory is wanting, changes nothing but the room.
//!
//! **What a caller may not assume.** That an edit may be made that was not checked: `make` asks that it has no fault. How much memory `clobber` takes, or how long a walk is.
//! Which number an inserted instruction has is `Func::made` before the insert.
#![tactic(auto)]

mod editing;
pub mod laws;
mod parts;
mod replacing;
mod whole;

pub use whole::{Found, Whole};
