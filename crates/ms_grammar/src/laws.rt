// Laws of the grammar, each the contract of a function that does nothing.
ghost use Rattle.std.specs.Prelude.{◌≡◌, ℕ, List};
ghost use Rattle.ms_grammar.specs.Grammar.{Says};
ghost use Rattle.ms_grammar.specs.declared.line.Line.{Line};

/// A line says one thing at most: however its tokens are cut into parts, and whatever sizes and
/// indices it is read with, what it says is the same.
pub fn one_line()
    ensures { (line : List ℕ) (a b : Line) → Says line a → Says line b → a ≡ b }
{}
