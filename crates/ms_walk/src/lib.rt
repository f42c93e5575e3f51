//! The walker: the clobber of a location before an instruction, which is the last Def on every path that may write the location.
//!
//! A loop, with what its use names:
//!
//! ```text
//! define void @last(i1 %c) {
//! entry:
//!   %a = alloca i8
//!   %b = alloca i8
//! ; 1 = MemoryDef(liveOnEntry)
//!   store i8 1, ptr %a
//!   br label %loop
//!
//! loop:
//! ; 2 = MemoryPhi({entry,1},{loop,3})
//! ; MemoryUse(1)
//!   %x = load i8, ptr %a
//! ; 3 = MemoryDef(2)
//!   store i8 %x, ptr %b
//!   br i1 %c, label %loop, label %exit
//!
//! exit:
//!   ret void
//! }
//! ```
//!
//! ```text
//! let access = walk(alloc, &func, &flow, &form, &alias, x, &loc)?;    // x: the load's number; loc: the byte of %a; the answer: 1
//! ```
//!
//! A loop that goes along some bytes, two at a time:
//!
//! ```text
//! define void @along(ptr %a, i1 %c) {
//! entry:
//!   br label %loop
//!
//! loop:
//! ; 1 = MemoryPhi({entry,liveOnEntry},{loop,3})
//!   %p = phi ptr [ %a, %entry ], [ %n, %loop ]
//!   %q = getelementptr i8, ptr %p, i64 1
//! ; MemoryUse(1)
//!   %x = load i8, ptr %p
//! ; 2 = MemoryDef(1)
//!   store i8 1, ptr %p
//! ; 3 = MemoryDef(2)
//!   store i8 2, ptr %q
//! ; MemoryUse(2)
//!   %y = load i8, ptr %p
//!   %n = getelementptr i8, ptr %p, i64 2
//!   br i1 %c, label %loop, label %exit
//!
//! exit:
//!   ret void
//! }
//! ```
//!
//! **What it is.** A walk is a clobber query. Of the Defs that may write the location, the clobber is the last on every path to the instruction, with
//! phis where those Defs alone need one; it is the entry where none is before. The location is so many bytes from an offset of a root, or what some
//! instruction reads; it need not be what the instruction at hand reads. A root that a loop makes anew in each turn, as `%p`, keeps its value until
//! its own instruction runs again. Of bytes at such a root, where that instruction is on every path, the clobber is the last of it and of the Defs that
//! may write the bytes in its turn; and where that is the instruction itself, so that nothing in the turn wrote them, the last before it of all Defs
//! that may write them. For `%y` that is 2, as 3 writes the byte behind. Before `%x` nothing in the turn writes the byte; 2 and 3 of a turn before may
//! have written it, and 1 is where they come in.
//!
//! **Why it is so.** The memory form names the last access before each place for all Defs together; a clobber asks for some of them. The definition
//! does not say how it is found: it is the access that a memory form of that location alone would have there. Such a form has no phi at `loop` of the
//! first function, since 3 does not write `%a`. The walk comes to the same on the form that is there: it goes up from the access before the
//! instruction, asks of each Def that it meets whether it may write the location, opens the phis, and leaves out those whose ways all lead to one
//! access (`ms_climb`); what may write is told by the pointers (`ms_alias`). At that `loop` one way leads to 1, the other over 3 to the phi itself, so
//! the phi is left out. Offsets from a root that turns say nothing across turns: byte 1 of one turn may be byte 0 of another. Within a turn they say as
//! much as those from an alloca. So the walk first takes the turn alone: it asks Defs behind the root's instruction, and stops at any other. What it
//! came to is the answer where every path to that passes the root's instruction (`ms_paths::laws::answer_behind`); else nothing in the turn is, and the walk
//! goes up once more, from the root's instruction, with all Defs that may write.
//!
//! **What a caller may assume.** The answer is the clobber, by the clause `clobber`; there is one at most ([`laws::one_clobber`]). It holds on every run of a
//! sound function, by the clause `sound`: from when it took place last up to the instruction, no step writes a byte of the location, which are counted
//! from where its root points to when the instruction is about to run; [`laws::clobber_holds`] says the same of any clobber, however it was found. An
//! instruction that is the answer lies on every path (`ms_paths::laws::answer_lies_on_every`). Want of memory is the only fault.
//!
//! **What a caller may not assume.** A clobber may write the location, and may also leave it as it is; what must be written is told by
//! `Alias::must_write`. No location is carried over a phi of pointers: at a pointer that a phi gives, the root is the phi, whichever way was taken. What
//! some instruction reads (`Loc::ReadBy`) is never taken turn by turn, since that instruction's pointers may be those of a turn before. A walk has no
//! limit behind which it would answer something nearer, and no clause bounds its time. Nothing is kept from one walk to the next. The flow graph, the
//! form and the pointers have to be the function's, its loops reducible, and the instruction in a reached block.
#![tactic(auto)]

pub mod laws;
mod pointed;
mod search;
mod turn;
mod writers;

pub use pointed::Pointed;
pub use search::walk;
