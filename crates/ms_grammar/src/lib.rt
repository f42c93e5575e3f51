//! The lines of the language: what each line says, and the one form in which it is printed.
//!
//! The grammar is one definition, `form` of the crate's specs: the parts of each line in order, what
//! is printed for a part, and which tokens spell it. [`write_line`] prints by it. A line says one
//! thing at most ([`laws::one_line`]). What the attributes of a line mean is told by [`effects_by`] and
//! [`keeps_by`], which stand in a crate below.
#![tactic(auto)]

mod keyword;
pub mod laws;
mod line;
mod write;

pub use keyword::{Keyword, cast_bytes, keyword_bytes, op_bytes, pred_bytes, ty_bytes};
pub use line::{
    Head, Line, RawArg, RawArgs, RawEntries, RawEntry, RawIndex, RawInst, RawTerm, RawTerms, RawVal,
};
pub use ms_attrs::{effects_by, keeps_by};
pub use write::write_line;
