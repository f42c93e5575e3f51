//! Instructions and terminators, read from the tokens of a line.
//!
//! What is answered is exactly what the grammar of lines says: an instruction exactly where the tokens
//! spell one, and as the one that they spell.
#![tactic(auto)]

mod args;
mod calls;
mod cuts;
mod flags;
mod found;
mod groups;
mod joins;
mod memory;
mod phi;
mod read;
mod simple;
mod steps;
mod terms;

pub use found::FoundInst;
pub use read::{read_inst, read_term};
