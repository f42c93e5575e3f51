//! The names of a module's lines: what they make, and the least line with a fault in them.
//!
//! The names of functions and globals are one table for the module ([`symbols_of`]), those of locals and blocks one for each function
//! ([`register_of`]), where a name that is made again names what is made first. A line has a fault where it makes a name again, writes a
//! number that is less than the next free one, or uses a name that names nothing of the wanted kind ([`least_in_functions`]).
#![tactic(auto)]

mod faults;
mod register;
mod symbols;
mod table;
mod uses;

pub use faults::earlier;
pub use register::{Register, makes, register_of};
pub use symbols::{Symbols, symbols_of};
pub use table::{NameTable, Words};
pub use uses::{body_of, least_in_functions, symbol_place};
