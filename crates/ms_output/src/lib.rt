//! From the bytes of a file to what is written for them, or to their refusal.
//!
//! A file, and the text that [`render`] gives for `Wanted { prints: 1, shows_module: true }`:
//!
//! ```text
//! @g = global i32 0
//! declare i32 @ask() memory(none)
//! define void @f(ptr %p) {
//!   store i32 7, ptr %p
//!   ret void
//! }
//! ```
//!
//! ```text
//! MemorySSA for function: f
//! define void @f(ptr %p) {
//! ; 1 = MemoryDef(liveOnEntry)
//!   store i32 7, ptr %p
//!   ret void
//! }
//!
//! @g = global i32 0
//! declare i32 @ask() memory(none)
//!
//! define void @f(ptr %p) {
//!   store i32 7, ptr %p
//!   ret void
//! }
//! ```
//!
//! With `call void @h(ptr %p)` in place of the store it would be refused: `Refusal { number: 3, place: 4 }`, since line 4 uses a name that is made
//! nowhere.
//!
//! **What it is.** Bytes are read as a draft (`ms_read`), the draft is accepted as a module (`ms_validity`), and of the module are written the printed
//! forms of its functions with a body, in its order and each as often as is wanted, then the module's text where it is wanted. A printed form is a
//! header line, the annotated text (`ms_session`), and an empty line. Where bytes are not read or not accepted they are refused: 1 and 2 by the first
//! line that is not of the profile, or passes a limit; then 3 names, 4 types, 5 edges, 6 the order of definitions and uses, each by its least line
//! where the ones before have no fault; then 7 by the first function with an irreducible loop, of which the name is told.
//!
//! **Why it is so.** This is the whole of the program but its outside: no file, no sink, no word. So what is written is a definition over bytes alone
//! (`IsOutput`, `IsRefusal`), which the top call cites, and `ms_cli` is proved without knowing what a module is. A function is opened as a session,
//! printed and given back, one after another; its form is made once and written as often as is wanted, since printing changes nothing.
//!
//! **What a caller may assume.** `Ok` comes with the output of the bytes, `Refused` with their refusal. Bytes have one output or one refusal, and
//! never both ([`laws::one_output`]); so where they have an output it is given, unless memory is wanting. Each function of a module that was read and accepted
//! is sound, and its allocas stand in the first block, to which no edge leads ([`laws::accepted_begin_once`]): what is said of clobbers on runs holds of each.
//!
//! **What a caller may not assume.** `render` asks for at most 1,048,576 bytes; a longer file is refused by the caller, with number 10. `Memory` says
//! nothing of the bytes. Nothing is given for a part of a file: a fault in one function refuses all of it. The place of refusal 7 is the number of
//! the function, counted over declared ones too, and not a line.
#![tactic(auto)]

mod forms;
mod funcs;
pub mod laws;
mod output;
mod refusal;
mod unwritten;
mod wanted;

pub use output::render;
pub use refusal::Refusal;
pub use unwritten::Unwritten;
pub use wanted::Wanted;
