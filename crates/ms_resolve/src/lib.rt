//! From the lines of a module to the module: names become numbers.
//!
//! The lines have their places already. What is told is the least line with a fault in its names, or the
//! module, with the line of each instruction and terminator for what is looked at later.
#![tactic(auto)]

mod body;
mod draft;
mod fault;
mod items;
mod meaning;
mod reader;
mod resolved;

pub use draft::resolve;
pub use fault::NameFault;
pub use resolved::{BodyLines, Resolved};
