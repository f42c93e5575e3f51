// What the definitions of tokens determine, each the contract of a function that does nothing.
ghost use Rattle.std.specs.Prelude.{◌≡◌, ℕ, List, ◌⊎◌, ◌↔◌};
ghost use Rattle.ms_lex.specs.Line.{IsTokens, IsBad};
ghost use Rattle.ms_lex.specs.declared.token.Token.{Token};

/// A line has at most one list of tokens, and at most one first byte that begins none.
pub fn at_most_one_list()
    ensures list { (line : List ℕ) (a b : List Token) → IsTokens line a → IsTokens line b → a ≡ b }
    ensures place { (line : List ℕ) (a b : ℕ) → IsBad line a → IsBad line b → a ≡ b }
{}

/// A line has a list of tokens exactly where no byte is the first that begins none; which of the two
/// holds can be told.
pub fn list_or_bad_byte()
    ensures told { (line : List ℕ) →
        ((tokens : List Token) × IsTokens line tokens) ⊎ ((at : ℕ) × IsBad line at) }
    ensures exactly { (line : List ℕ) →
        ((tokens : List Token) × IsTokens line tokens) ↔ ((at : ℕ) → IsBad line at → ⊥) }
{}
