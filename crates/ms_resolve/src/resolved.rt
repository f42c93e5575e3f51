use ms_ir::{Items, Module};

/// The lines of a function's instructions, by their numbers, and of its blocks' terminators.
#[derive(Drop)]
pub struct BodyLines {
    pub insts: Items<u32>,
    pub terms: Items<u32>,
}

/// A module, and the lines of each function that has a body, in the order of the text.
#[derive(Drop)]
pub struct Resolved {
    pub module: Module,
    pub lines: Items<BodyLines>,
}
