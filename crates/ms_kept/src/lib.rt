//! Laws of kept answers: what is kept of clobber queries is right behind each edit.
//!
//! ```text
//! ; 1 = MemoryDef(liveOnEntry)
//!   store i32 1, ptr %a
//! ; MemoryUse(1)
//!   %x = load i32, ptr %a                                      kept: (%x, four bytes of %a) is answered by 1
//!   store i32 2, ptr %b                                        put, taken or moved, wherever it stands: the answer stays, and is right
//! ```
//!
//! An answer is right (`IsRight` in `specs/Answers.antt`) where its access is the clobber of its query, and the query asks for bytes at the root of a pointer, or
//! for what its own instruction reads. The rule by which answers stay (`StaysBehind`) asks four things: that the instruction of the query was not removed or
//! moved, that no Def that may write the location was inserted, removed or moved, that the captured allocas are the same, and that the edit is no unlink.
//! What stays by it is right in the edited function ([`laws::edits_keep_right`]); so is what stays by a `Change` of `ms_cache` that tells what became of a
//! function ([`laws::answers_stay`]), which serves other sources of a memcpy and loads that give way, too. [`laws::captures_told`] says what the calls of
//! `ms_alias` tell of captured allocas, [`laws::answers_may_be_kept`] that one more right answer may be kept, [`laws::rights_need_no_room`] that room does not count.
//!
//! **Why it is so.** A clobber is an answer by paths for a set of instructions, and a set without the one that changed sees no difference: the same events
//! stand in each block, so the same blocks need a phi, and the same event comes last on each path ([`laws::spared_clobbers_stay`]). The others write what they did, since
//! roots, bases and captures are the same. The rule asks what an instruction may write at all, and that is enough where the location's root is made anew in
//! a loop: its instruction lies on every path to a reached block, and in a sound function a pointer that is made in a reached block has a base, which a range at the same
//! root shares.
//!
//! **What a caller may assume.** Nothing is asked of the edited function but that it is sound and its numbers stand for one thing, as behind each accepted edit, and of
//! tables but that they are the pointers' before and behind. An insert is judged in the function behind it, a remove and a move in the one before.
//!
//! **What a caller may not assume.** That other instructions write a location in both functions or in neither does not follow from where they stand: a call that comes or
//! goes may capture an alloca, and then others write other memory. What another instruction than the asking one reads is not asked.
#![tactic(auto)]

pub mod laws;
