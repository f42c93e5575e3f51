// Laws of annotated texts. Each is the contract of a function that does nothing.
ghost use Rattle.std.specs.Prelude.{◌≡◌, List, ℕ};
ghost use Rattle.ms_ir.specs.Func.{FuncState};
ghost use Rattle.ms_ir.specs.Symbols.{NamesState};
ghost use Rattle.ms_session.specs.Annotated.{IsAnnotated};

/// A function has one annotated text at most.
pub fn one_annotated()
    ensures { (names : NamesState) (f : FuncState) (t u : List ℕ) → IsAnnotated names f t → IsAnnotated names f u → t ≡ u }
{
    ms_paths::laws::one_answer();
}
