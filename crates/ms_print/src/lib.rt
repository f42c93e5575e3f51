//! The texts of functions and modules: every line in its one form, and what has no name numbered afresh.
//!
//! What is read, and what [`print_module`] writes for it:
//!
//! ```text
//! ; a comment
//! define i32 @f( ptr %0,i1 %c ) {
//!   %2=load i32,ptr %0, align 4   ; the first block has number 1
//!   br i1 %c,label %7, label %done
//! 7:
//!   %9 = add nsw i32 %2,1
//!   store i32 %9, ptr %0, align 4
//!   br label %done
//! done:
//!   ret i32 %2
//! }
//! ```
//!
//! ```text
//! define i32 @f(ptr %0, i1 %c) {
//!   %2 = load i32, ptr %0, align 4
//!   br i1 %c, label %3, label %done
//!
//! 3:
//!   %4 = add nsw i32 %2, 1
//!   store i32 %4, ptr %0, align 4
//!   br label %done
//!
//! done:
//!   ret i32 %2
//! }
//! ```
//!
//! [`print_func`] with a note `; 1 = MemoryDef(liveOnEntry)` at the number of the store writes the same lines and that one, in column 0, before the
//! store.
//!
//! **What it is.** The text of a module is its items in order: kept lines, globals and declarations byte for byte as they were kept, functions as
//! their lines. Between two items stands an empty line exactly where one of them is a function with a body, and between two blocks always. Each line
//! is printed in the one form that the grammar gives it (`ms_grammar`), one space between parts, and ends with a line feed. Words stay; parameters,
//! blocks and results without a word get the numbers from 0 on in the order of the text, whatever numbers were read. [`Notes`] are lines of one's own
//! at blocks and before instructions, by their numbers.
//!
//! **Why it is so.** A module has one text, so that texts can be compared, and reading a printed text gives the module again (`ms_again`). Numbers
//! that were written can come out of order once an instruction is put or moved, and would then be refused when they are read; given afresh they are
//! always the next free ones. Notes are kept apart from lines, so that a text with them is the function's text with whole lines put in: that which
//! explains memory never changes what is explained. They go by numbers and not by places, since the number of an instruction stays when others come
//! and go.
//!
//! **What a caller may assume.** The text is the one that `module_text` or `func_text` of the specs computes, byte for byte. [`block_labels`] gives
//! the names under which the blocks are printed, for notes that name blocks. Nothing is changed, and want of memory is the only fault.
//!
//! **What a caller may not assume.** The text is not what was read: comments, spaces and old numbers are gone. A function whose body is taken out of
//! its module has no lines. Of several notes with one number the first is written, and notes for numbers that the function does not have are not; a
//! note is not looked at, so it is the caller's to keep it a comment. `print_func` writes the names that it is given, which have to be those of the
//! function's module to mean the same; a local that nothing gives is printed as `%`. That a text is accepted when it is read is said of accepted
//! modules alone.
#![tactic(auto)]

mod labels;
mod lines;
mod module;
mod notes;
mod numbering;
mod text;
mod walk;

pub use labels::block_labels;
pub use module::print_module;
pub use notes::{Note, NoteList, Notes};
pub use text::print_func;
