use ms_grammar::RawInst;
use ms_ir::{FuncNo, Items, Name};

/// An edit as a line of a script names it. Places count the instructions of a block from 0, the terminator not; a moved instruction's
/// target place is counted without it. Slot 0 of a conditional branch is the target for true, slot 1 the one for false. Places and slots
/// are any numbers below 2^32. The name of an inserted instruction's result is a word, or `Absent` where the line gives none.
#[derive(Drop)]
pub enum RawEdit {
    Insert {
        block: Name,
        place: u32,
        inst: RawInst,
        name: Name,
    },
    Remove {
        block: Name,
        place: u32,
    },
    Move {
        block: Name,
        place: u32,
        to_block: Name,
        to_place: u32,
    },
    Unlink {
        block: Name,
        slot: u32,
    },
}

/// An edit of a function, and the line that gives it, counted from 1.
#[derive(Drop)]
pub struct Step {
    pub line: u32,
    pub func: FuncNo,
    pub edit: RawEdit,
}

/// The steps of a script, in the order of its lines.
pub type Script = Items<Step>;
