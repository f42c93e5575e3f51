//! The parts of a line, read from its tokens.
//!
//! Words, names, values, and the fronts of a list of tokens that are attributes, types of objects or
//! indices: each answer is exactly what the grammar of lines says of these tokens. `line` is always
//! the line to which the tokens belong. What is called a front is a number of tokens, counted from the
//! first on.
#![tactic(auto)]

mod attributes;
mod brackets;
mod fronts;
mod objects;
mod terms;
mod wholes;
mod words;

pub use fronts::{attributes_front, call_mark_front, call_type_front, member_front, post_front};
pub use objects::{indices_front, object_front, object_size};
pub use terms::{cut_text, index_terms, small_offset};
pub use wholes::{global_line, group_line, is_kept_line, is_tail};
pub use words::{
    bytes_of, cast_at, count_at, global_at, is_keyword, kept, local_at, name_of, number_at, op_at,
    pred_at, type_at, value_at,
};
