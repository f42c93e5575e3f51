//! What is printed for a line says the same again.
//!
//! The laws of this crate tie the two halves of the grammar together. Whatever a line says, its printed form says what
//! is kept of it ([`laws::said_again`]); and where numbers came into the places of locals among the indices of a
//! getelementptr, its printed form says it with the numbers summed up ([`laws::said_with_numbers`]).
#![tactic(auto)]

pub mod laws;
