ghost use Rattle.std.specs.Prelude.{◌≡◌};
ghost use Rattle.ms_read.specs.declared.fault.ReadFault.TheVariants.{Memory};

use ms_ir::NoMemory;
use thiserror::Error;

/// Why a module's text is not read. Lines are counted from 1. `Memory` says nothing of the text.
#[derive(Clone, Copy, Debug, PartialEq, Eq, Error)]
pub enum ReadFault {
    /// The first line that fails is in no grammar or may not stand where it stands, or it is the one
    /// behind the last, where the text ends inside a function.
    #[error("line {0} is not of the profile")]
    Text(u32),
    /// The first line that fails may stand there and passes a limit.
    #[error("line {0} passes a limit")]
    Limit(u32),
    #[error("out of memory")]
    Memory,
}

impl From<NoMemory> for ReadFault {
    ghost from_gives = { λ _ e. e ≡ Memory };

    fn from(_: NoMemory) -> Self {
        ReadFault::Memory
    }
}
