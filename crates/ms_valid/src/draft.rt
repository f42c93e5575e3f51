// From a draft to an accepted module.
ghost use Rattle.std.specs.Prelude.{◌≡◌, List, ℕ, Some, slice_get, IfOk, IfErr};
ghost use Rattle.ms_ir.specs.Func.{FuncState};
ghost use Rattle.ms_ir.specs.SoundFunc.{IsSoundFunc};
ghost use Rattle.ms_read.specs.Draft.{IsDraft};
ghost use Rattle.ms_resolve.specs.Shape.{ItemLines, IsShape};
ghost use Rattle.ms_validity.specs.Cause.{IsAccepted, IsValidCause};
ghost use Rattle.ms_valid.specs.Limits.{IsModuleWithin};
ghost use Rattle.ms_valid.specs.Module.{IsAcceptedModule};

use crate::laws;
use ms_ir::{Items, Module};
use ms_line::Line;
use ms_validity::ValidFault;
use std::alloc::Global;

/// The module of a draft's lines, where it is accepted; of a draft that was read it is an accepted module as it stands, within the limits of reading,
/// whose functions are sound. A draft of 2^31 - 1 lines and more is `Memory`.
pub fn accept(alloc: Global, draft: &Items<(u32, Line)>) -> Result<Module, ValidFault>
    requires shape { (items : List ItemLines) × IsShape draft.now items }
    ensures ok { IfOk result (λ m. IsAccepted draft.now m) }
    ensures err { IfErr result (λ fault. IsValidCause draft.now fault) }
    ensures module { IfOk result (λ m. (bytes : List ℕ) → IsDraft bytes draft.now → IsAcceptedModule m) }
    ensures limits { IfOk result (λ m. (bytes : List ℕ) → IsDraft bytes draft.now → IsModuleWithin m) }
    ensures sound { IfOk result (λ m. (bytes : List ℕ) → IsDraft bytes draft.now →
        (n : ℕ) (f : FuncState) → slice_get m.bodies n ≡ Some (Some f) → IsSoundFunc f) }
{
    laws::accepted_are_sound();
    laws::modules_are_accepted();
    laws::modules_are_within_limits();
    ms_validity::accept(alloc, draft)
}
