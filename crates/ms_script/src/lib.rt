//! Edit scripts: lines of edits by names, read from bytes.
//!
//! ```text
//! ; one edit a line; empty lines and comments are counted too
//! insert @f %entry 0: %x = load i32, ptr %p, align 4
//! remove @f %entry 2
//! move @f %a 0 to %b 1
//! unlink @f %b 0
//! ```
//!
//! [`read_script`] answers the steps of a script's lines, or the first line that fails and why. The instruction of an insert is one of
//! a module's lines, by the same grammar. [`resolve`] answers the edit of a step in its function as it stands then, or that a name is not
//! there: edits before it may have made or taken what it names.
#![tactic(auto)]

mod build;
mod call;
mod cut;
mod edit;
mod fault;
mod front;
mod inserted;
pub mod laws;
mod line;
mod lookup;
mod past;
mod read;
mod resolving;
mod rows;
mod verb;

pub use edit::{RawEdit, Script, Step};
pub use fault::ScriptFault;
pub use read::read_script;
pub use resolving::resolve;
