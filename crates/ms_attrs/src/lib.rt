//! What attributes mean: the memory that a function or a call may read and write, and whether a pointer argument may be kept.
//!
//! Of all attributes `memory(..)`, `nocapture`, `captures(none)` and the groups of a function or call have a meaning; the others say
//! nothing. Both calls answer for every text, so no caller has to show that its text is one of attributes.
#![tactic(auto)]

mod captures;
mod effects;
pub mod laws;
mod memory;
mod outer;
mod part;
mod texts;

pub use captures::keeps_by;
pub use effects::effects_by;
