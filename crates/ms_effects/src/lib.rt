//! What an instruction does to the bytes of a pointer's root: which it may read, and which it must write.
//!
//! ```text
//! define void @f(ptr %p, ptr %q) {                  on %p                  on %q
//!   %r = getelementptr i8, ptr %p, i64 4
//!   store i64 1, ptr %p                             writes 0 to 7          -
//!   store i32 2, ptr %r                             writes 4 to 7          -
//!   %x = load i8, ptr %p                            reads 0                reads all
//!   call void @llvm.memcpy.p0.p0.i64(ptr %q, ptr %r, i64 2, i1 false)
//!                                                   reads 4 to 5           reads all, writes 0 to 1
//!   call void @g()                                  reads all              reads all
//!   ret void
//! }                                                 columns 0, 4, 8        columns 0, 2
//! ```
//!
//! [`effect_of`] tells it of one instruction and one root, by one query of the pointers for each half, and one more where what is read is no range of
//! the root. Bytes are counted from where the root points to. Through the root itself, or a getelementptr of it, the bytes are a range ([`Span`]).
//! What reaches the root in any other way has no offset from it: a load through another argument, which may point to the same object, or through a
//! select of it, or a call. Then every byte may be read, or none, so it is enough to ask of one. A memcpy has both halves.
//!
//! Why reading and writing are told so differently: a search for dead stores goes backwards, keeps a byte where it *may* be read, and lets it go where
//! it *must* be written. So all that may alias counts as a read, and only a store or memcpy through this very root as a write; a call never does.
//! Why the root has to be fixed: one that a loop makes anew is another pointer in each turn, so its offsets cannot be compared.
//!
//! [`columns_of`] gives, in their order and each once, the bytes where those ranges begin, and where those end that are written. By
//! `ms_live::laws::columns_stand_for_bytes` they stand for all other bytes, so a search need not look at each byte of an object.
//!
//! A caller may assume that all of this is exact: a byte is among those that are read where `MayRead` says so of it alone, and among those that are
//! written where `MustWrite` does, and nowhere else; a number is a column where some range makes it one, and nowhere else. A range of length 0 holds no
//! byte, though it begins at a column. An instruction that is not there does nothing.
//!
//! It may not assume that a range ends within 64 bits: ends are summed in 128. Nor is each byte of a range one of the object, since lengths of objects
//! are not looked at; and nothing is said of what a call or another pointer may write.
#![tactic(auto)]

mod columns;
mod effect;

pub use columns::columns_of;
pub use effect::{Effect, Reads, Span, Writes, effect_of};
