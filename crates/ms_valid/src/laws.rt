// Laws of accepted modules. Each is the contract of a function that does nothing.
ghost use Rattle.std.specs.Prelude.{◌≡◌, List, ℕ, Some, slice_get};
ghost use Rattle.ms_ir.specs.Func.{FuncState};
ghost use Rattle.ms_ir.specs.Module.{ModuleState};
ghost use Rattle.ms_ir.specs.SoundFunc.{IsSoundFunc};
ghost use Rattle.ms_ir.specs.Locals.{IsNumbered};
ghost use Rattle.ms_ir.specs.Edits.{edited, IsFaultless};
ghost use Rattle.ms_ir.specs.declared.inst.Edit.{Edit};
ghost use Rattle.ms_grammar.specs.declared.line.Line.{Line};
ghost use Rattle.ms_read.specs.Draft.{IsDraft};
ghost use Rattle.ms_validity.specs.Cause.{IsAccepted};
ghost use Rattle.ms_valid.specs.Func.{IsAcceptedFunc};
ghost use Rattle.ms_valid.specs.Edits.{IsEditIn};
ghost use Rattle.ms_valid.specs.Limits.{IsModuleWithin};
ghost use Rattle.ms_valid.specs.Module.{IsAcceptedModule};

/// Each function of a module that is accepted is sound.
pub fn accepted_are_sound()
    ensures { (bytes : List ℕ) (draft : List (ℕ × Line)) (m : ModuleState) → IsDraft bytes draft → IsAccepted draft m →
        (n : ℕ) (f : FuncState) → slice_get m.bodies n ≡ Some (Some f) → IsSoundFunc f }
{
    ms_read::laws::draft_told();
    ms_read::laws::places_told();
}

/// Each function of a module that is accepted is accepted by itself: it is sound, lines of the grammar give its parts, its names are words that stand
/// once, and its calls and returns have the types of their functions.
pub fn functions_are_accepted()
    ensures { (bytes : List ℕ) (draft : List (ℕ × Line)) (m : ModuleState) → IsDraft bytes draft → IsAccepted draft m →
        (n : ℕ) (f : FuncState) → slice_get m.bodies n ≡ Some (Some f) → IsAcceptedFunc m f }
{
    ms_read::laws::draft_told();
    ms_read::laws::places_told();
}

/// What is accepted for a draft that was read is an accepted module as it stands: lines of the grammar give its items, its groups are those of its group
/// lines, each function has the name and the signature that its line gives, each name stands once, and each body is there and accepted.
pub fn modules_are_accepted()
    ensures { (bytes : List ℕ) (draft : List (ℕ × Line)) (m : ModuleState) → IsDraft bytes draft → IsAccepted draft m → IsAcceptedModule m }
{
    ms_read::laws::draft_told();
    ms_read::laws::places_told();
}

/// What is accepted for a draft that was read is within the limits of reading: the bytes of its words, the numbers of its functions, blocks and
/// instructions, the bytes of its allocas and memcpys, and the offsets of its getelementptrs.
pub fn modules_are_within_limits()
    ensures { (bytes : List ℕ) (draft : List (ℕ × Line)) (m : ModuleState) → IsDraft bytes draft → IsAccepted draft m → IsModuleWithin m }
{
    ms_read::laws::draft_told();
    ms_read::laws::counts_told();
}

/// An accepted function is accepted behind an edit that has no fault, where an inserted instruction is one that a line says in the module. That each
/// number stands for one thing is asked, as of a function whose soundness is to stay.
pub fn edits_keep_accepted()
    ensures { (m : ModuleState) (f : FuncState) (e : Edit) → IsNumbered f → IsAcceptedFunc m f → IsEditIn m e → IsFaultless f e → IsAcceptedFunc m (edited f e) }
{
    ms_edited::laws::edits_keep_sound();
}
