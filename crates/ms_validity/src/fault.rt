ghost use Rattle.std.specs.Prelude.{◌≡◌};
ghost use Rattle.ms_validity.specs.declared.fault.ValidFault.TheVariants.{Memory};
ghost use Rattle.ms_validity.specs.Cause.{fault_of};

use ms_ir::{FuncNo, NoMemory};
use ms_resolve::NameFault;

/// Why a draft is not accepted: the least line with a fault in its names; where there is none, in its types; then in its edges; then
/// in the order of definitions and uses; then the first function with an irreducible loop. `Memory` says nothing of the draft.
#[derive(Clone, Copy, PartialEq, Eq)]
pub enum ValidFault {
    Name(u32),
    Types(u32),
    Edges(u32),
    Order(u32),
    Irreducible(FuncNo),
    Memory,
}

impl From<NoMemory> for ValidFault {
    ghost from_gives = { λ _ fault. fault ≡ Memory };

    fn from(_: NoMemory) -> ValidFault {
        ValidFault::Memory
    }
}

impl From<NameFault> for ValidFault {
    ghost from_gives = { λ name fault. fault ≡ fault_of name };

    fn from(fault: NameFault) -> ValidFault {
        match fault {
            NameFault::Name(line) => ValidFault::Name(line),
            NameFault::Memory => ValidFault::Memory,
        }
    }
}
