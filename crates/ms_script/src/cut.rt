// The tokens of a line one by one.
ghost use Rattle.std.specs.Prelude.{◌≡◌, ◌↔◌, [], ◌∷◌, All, IsTrue, IfSome, MatchOption};
ghost use Rattle.ms_lex.specs.Line.{IsTokenOf};

use ms_lex::Token;

// The first token, and those behind it.
pub fn cut<'a>(line: &[u8], tokens: &'a [Token]) -> Option<(Token, &'a [Token])>
    requires { All (IsTokenOf line.now) tokens.now }
    ensures cells { MatchOption result (tokens.now ≡ []) (λ cut. tokens.now ≡ cut.0 ∷ cut.1.now) }
    ensures first { IfSome result (λ cut. IsTokenOf line.now cut.0) }
    ensures rest { IfSome result (λ cut. All (IsTokenOf line.now) cut.1.now) }
{
    match tokens {
        [] => None,
        [first, rest @ ..] => Some((*first, rest)),
    }
}

pub fn is_end(tokens: &[Token]) -> bool
    ensures { IsTrue result ↔ (tokens.now ≡ []) }
{
    tokens.is_empty()
}
