// The laws that printing and reading fit, each the contract of a function that does nothing.
ghost use Rattle.std.specs.Prelude.{ℕ, ℤ, List};
ghost use Rattle.ms_ir.specs.declared.names.Ty.TheVariants.{Ptr};
ghost use Rattle.ms_ir.specs.declared.names.Name.{Name};
ghost use Rattle.ms_grammar.specs.Form.{printed};
ghost use Rattle.ms_grammar.specs.Fits.{IsNamed, IsValue};
ghost use Rattle.ms_grammar.specs.Grammar.{Says, kept_of};
ghost use Rattle.ms_grammar.specs.declared.line.RawVal.{RawVal};
ghost use Rattle.ms_grammar.specs.declared.line.RawIndex.{RawIndex};
ghost use Rattle.ms_grammar.specs.declared.line.RawInst.TheVariants.{Step};
ghost use Rattle.ms_grammar.specs.declared.line.Line.{Line};
ghost use Rattle.ms_grammar.specs.declared.line.Line.TheVariants.{Inst};
ghost use Rattle.ms_reread.specs.Terms.{AreRenewed, raw_joined};

/// What is printed for a line says the same again.
pub fn said_again()
    ensures { (bytes : List ℕ) (w : Line) → Says bytes w → Says (printed (kept_of w)) (kept_of w) }
{}

/// A getelementptr with locals among its indices, of which some have become numbers of their types and the others may have other names, is printed as a
/// line that says it with the numbers summed up: they count in its offset and stand in its kept indices. Its base and its own name may be others too.
pub fn said_with_numbers()
    ensures { (bytes : List ℕ) (n m : Name) (base other : RawVal) (offset : ℤ) (was terms : List RawIndex) (head index tail : List ℕ) →
        Says bytes (Inst n (Step base offset was head index tail)) → IsNamed m → IsValue Ptr other → AreRenewed was terms →
        Says (printed (Inst m (Step other offset terms head index tail))) (Inst m (raw_joined other offset terms head index tail)) }
{}
