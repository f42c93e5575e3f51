// Laws of outputs. Each is the contract of a function that does nothing.
ghost use Rattle.std.specs.Prelude.{◌≡◌, List, ℕ, Some, slice_get};
ghost use Rattle.ms_ir.specs.Func.{FuncState};
ghost use Rattle.ms_ir.specs.Module.{ModuleState};
ghost use Rattle.ms_grammar.specs.declared.line.Line.{Line};
ghost use Rattle.ms_read.specs.Draft.{IsDraft};
ghost use Rattle.ms_validity.specs.Cause.{IsAccepted};
ghost use Rattle.ms_sound.specs.Bytes.{BeginsOnce};
ghost use Rattle.ms_valid.specs.Func.{IsAcceptedFunc};
ghost use Rattle.ms_output.specs.Output.{IsOutput, IsRefusal};
ghost use Rattle.ms_output.specs.declared.refusal.Refusal.{Refusal};
ghost use Rattle.ms_output.specs.declared.wanted.Wanted.{Wanted};

/// Bytes have one output or one refusal at most.
pub fn one_output()
    ensures text { (wanted : Wanted) (bytes t u : List ℕ) → IsOutput wanted bytes t → IsOutput wanted bytes u → t ≡ u }
    ensures refusal { (bytes : List ℕ) (r s : Refusal) → IsRefusal bytes r → IsRefusal bytes s → r ≡ s }
    ensures apart { (wanted : Wanted) (bytes t : List ℕ) (r : Refusal) → IsOutput wanted bytes t → IsRefusal bytes r → ⊥ }
{
    ms_read::laws::one_draft();
    ms_session::laws::one_annotated();
}

/// In the functions of an accepted module allocas stand in the first block, to which no edge leads. And each is accepted by itself, so it is
/// sound: what is said of clobbers on every run, and of runs of sound functions, holds of it.
pub fn accepted_begin_once()
    ensures once { (bytes : List ℕ) (draft : List (ℕ × Line)) (m : ModuleState) → IsDraft bytes draft → IsAccepted draft m →
        (n : ℕ) (f : FuncState) → slice_get m.bodies n ≡ Some (Some f) → BeginsOnce f }
    ensures accepted { (bytes : List ℕ) (draft : List (ℕ × Line)) (m : ModuleState) → IsDraft bytes draft → IsAccepted draft m →
        (n : ℕ) (f : FuncState) → slice_get m.bodies n ≡ Some (Some f) → IsAcceptedFunc m f }
{
    ms_valid::laws::accepted_are_sound();
    ms_valid::laws::functions_are_accepted();
    ms_sound::laws::sound_functions_begin_once();
}
