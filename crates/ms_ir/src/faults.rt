// Why an edit of a function is refused.
ghost use Rattle.std.specs.Prelude.{◌≡◌};
ghost use Rattle.ms_ir.specs.declared.faults.EditFault.TheVariants.{Memory};

use crate::items::NoMemory;
use thiserror::Error;

/// Why an edit is refused. Where several causes hold, the first of them in this order counts, and `Memory` comes at any time.
#[derive(Clone, Copy, Debug, PartialEq, Eq, Error)]
pub enum EditFault {
    /// A block or local that the edit names is not in the function, an operand names a label, or the name of its result is taken.
    #[error("a name is not there, or is taken already")]
    Name,
    /// A place is past the end of its block, or at or before the block's last phi.
    #[error("no instruction can stand or be taken at that place")]
    Place,
    /// The instruction is no load, store, copy or call, or a block would keep phis without an incoming edge.
    #[error("no instruction of this kind can be edited so")]
    Kind,
    /// A local operand has another type than the one written for it.
    #[error("an operand has another type")]
    Types,
    /// Some path would come to a use of a local before its definition.
    #[error("a local would be used before its definition")]
    Order,
    /// The result of a removed instruction is used.
    #[error("the result is used")]
    Used,
    /// The block does not end in a conditional branch, or the slot is neither 0 nor 1.
    #[error("there is no such edge")]
    NoEdge,
    /// No memory is left.
    #[error("no memory is left")]
    Memory,
}

impl From<NoMemory> for EditFault {
    ghost from_gives = { λ _ fault. fault ≡ Memory };

    fn from(_: NoMemory) -> EditFault {
        EditFault::Memory
    }
}
