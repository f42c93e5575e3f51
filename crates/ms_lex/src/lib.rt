//! The tokens of a line.
//!
//! A line of the textual form is cut into tokens: each is the longest one at its place, and spaces,
//! tabs and carriage returns stand between them. A `;` outside a string begins a comment, which runs
//! to the line's end. [`tokens`] answers the tokens with their spans, or the first byte that begins
//! none. A line has one of the two, and only one list or byte ([`laws::at_most_one_list`],
//! [`laws::list_or_bad_byte`]).
#![tactic(auto)]

mod bytes;
mod fault;
mod front;
pub mod laws;
mod lex;
mod token;

pub use fault::LexFault;
pub use lex::tokens;
pub use token::{Token, TokenKind, Tokens};
