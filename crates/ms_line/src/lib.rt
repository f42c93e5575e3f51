//! Lines, read and written: the bytes of a line to what it says, and back to its printed form.
//!
//! The grammar stands in the crate below, whose types and writer are given on here. [`read_line`] answers
//! what a line says, and [`sort_of`] only its sort, which decides where the line may stand. Both are exact:
//! an answer comes exactly where the grammar has the line, and a fault tells whether the grammar or a limit
//! refuses it.
//!
//! - A line has fewer than 2^32 bytes.
//! - A name is a word, or digits with no zero in front of others, nine at most. Of more than 255 bytes it
//!   passes its limit, also where it is the name of a parameter that is not kept.
//! - A number stands from -2^127 to 2^128 - 1; as a value of a type of M bits from -2^(M-1) to 2^M - 1, and
//!   is held modulo 2^M.
//! - An alloca takes at most 65,536 bytes, a memcpy at most 4,096, an offset is at most 2^31 either way, and a local
//!   among the indices of a getelementptr counts by at most 2^31.
//!
//! The time is linear in the length of the line.
#![tactic(auto)]

mod cut;
mod fault;
mod found;
mod heads;
mod insts;
mod keep;
mod measure;
mod params;
mod read;
mod readable;
mod said;
mod shape;
mod small;
mod sort;

pub use fault::LineFault;
pub use ms_grammar::{
    Head, Line, RawArg, RawArgs, RawEntries, RawEntry, RawIndex, RawInst, RawTerm, RawTerms,
    RawVal, effects_by, keeps_by, write_line,
};
pub use read::{read_line, sort_of, sort_of_line};
pub use sort::Sort;
