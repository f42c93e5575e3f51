ghost use Rattle.std.specs.Prelude.{◌≡◌};
ghost use Rattle.ms_script.specs.declared.fault.ScriptFault.TheVariants.{Memory};

use ms_ir::NoMemory;
use thiserror::Error;

/// Why a script is not read. Lines are counted from 1. `Memory` says nothing of the script.
#[derive(Clone, Copy, Debug, PartialEq, Eq, Error)]
pub enum ScriptFault {
    /// The first line that fails is of no script grammar: its function has no body, or its call is not one of the module's functions.
    #[error("line {0} is no edit")]
    ScriptText(u32),
    /// The first line that fails is of the grammar and passes a limit, or it is line 4,097.
    #[error("line {0} passes a limit")]
    ScriptLimit(u32),
    #[error("out of memory")]
    Memory,
}

impl From<NoMemory> for ScriptFault {
    ghost from_gives = { λ _ e. e ≡ Memory };

    fn from(_: NoMemory) -> Self {
        ScriptFault::Memory
    }
}
