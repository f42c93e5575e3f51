use ms_ir::{BlockNo, InstNo};

/// A version of memory: that at the entry, that after a Def, or that of a block's phi.
#[derive(Clone, Copy, PartialEq, Eq)]
pub enum Access {
    Entry,
    Of(InstNo),
    Phi(BlockNo),
}

/// What names an access: an instruction, the operand of a block for one of its predecessor slots, or the entry of a
/// block, which names the access that enters it.
#[derive(Clone, Copy, PartialEq, Eq)]
pub enum User {
    Inst(InstNo),
    Operand(BlockNo, u32),
    Entering(BlockNo),
}
