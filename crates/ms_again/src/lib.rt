//! An accepted module that is printed is read and accepted as the same module, and prints the same text.
//!
//! The law of this crate, [`laws::read_again`], ties the whole way of a text together: from its bytes to a module, and back to
//! a text. With [`laws::same_text`] and [`laws::one_module`] it says so of every draft and module that the text is read as.
#![tactic(auto)]

pub mod laws;
