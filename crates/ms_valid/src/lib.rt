//! Accepted modules and their functions: [`accept`], and what it means for a function and a module as they stand. Whether a module is accepted is told of
//! its draft, by faults at lines (`ms_validity`). The laws say what that gives with no text beside it, and [`accept`] says so of its module. A function is sound (`accepted_are_sound`), which is what
//! runs, edits and passes ask of it; and it is accepted by itself (`functions_are_accepted`): besides, lines of the grammar give its parts, its
//! names are words that stand once, and its calls and returns have the types of their functions. The module is accepted by itself
//! (`modules_are_accepted`): lines of the grammar give its items, its names stand once, and its functions are accepted. It is within the limits of reading
//! (`modules_are_within_limits`). Behind an edit that has no fault an
//! accepted function is accepted (`edits_keep_accepted`); an insert has to put an instruction that some line says in the module (`specs/Edits.antt`).
//!
//! A caller may assume all but the last of each module that came from a draft which was read and accepted. Not said: that written numbers
//! rise; of a function that was edited it is neither said that limits hold. An unlink leaves a branch without kept text, and phis with an entry less: such lines are
//! said where the old ones are.
#![tactic(auto)]

mod draft;
pub mod laws;

pub use draft::accept;
pub use ms_edits::accept_edit;
pub use ms_validity::ValidFault;
