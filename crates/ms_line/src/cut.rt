// The tokens of a line one by one.
ghost use Rattle.std.specs.Prelude.{◌≡◌, ◌≤◌, ◌↔◌, ℕ, [], ◌∷◌, ◌≢◌, true, ◌<◌, length, drop, take, IsTrue, All, IfOk, IfSome, MatchOption, List};
ghost use Rattle.ms_lex.specs.Kinds.{is_word};
ghost use Rattle.ms_lex.specs.Line.{IsTokenOf};
ghost use Rattle.ms_grammar.specs.Words.{spelling};
ghost use Rattle.ms_grammar.specs.Parts.{bytes_at, texts};

use ms_grammar::Keyword;
use ms_ir::{NoMemory, Text};
use ms_lex::Token;
use ms_line_parts::{bytes_of, is_keyword};
use std::alloc::Global;

// The first token, and those behind it.
pub fn cut<'a>(line: &[u8], tokens: &'a [Token]) -> Option<(Token, &'a [Token])>
    requires { All (IsTokenOf line.now) tokens.now }
    ensures cells { MatchOption result (tokens.now ≡ []) (λ cut. tokens.now ≡ cut.0 ∷ cut.1.now) }
    ensures first { IfSome result (λ cut. IsTokenOf line.now cut.0) }
    ensures rest { IfSome result (λ cut. All (IsTokenOf line.now) cut.1.now) }
{
    match tokens {
        [] => None,
        [first, rest @ ..] => Some((*first, rest)),
    }
}

// The first tokens.
pub fn before<'a>(line: &[u8], tokens: &'a [Token], count: usize) -> &'a [Token]
    requires each { All (IsTokenOf line.now) tokens.now }
    requires within { count ≤ length tokens.now }
    ensures value { result.now ≡ take count tokens.now }
    ensures each { All (IsTokenOf line.now) result.now }
{
    &tokens[..count]
}

// What stands behind the first tokens.
pub fn behind<'a>(line: &[u8], tokens: &'a [Token], count: usize) -> &'a [Token]
    requires each { All (IsTokenOf line.now) tokens.now }
    requires within { count ≤ length tokens.now }
    ensures value { result.now ≡ drop count tokens.now }
    ensures each { All (IsTokenOf line.now) result.now }
{
    &tokens[count..]
}

pub fn is_end(tokens: &[Token]) -> bool
    ensures { IsTrue result ↔ (tokens.now ≡ []) }
{
    tokens.is_empty()
}

// Whether this word or mark stands first.
pub fn starts_with(line: &[u8], tokens: &[Token], keyword: Keyword) -> bool
    requires { All (IsTokenOf line.now) tokens.now }
    ensures some { IsTrue result → 0 < length tokens.now }
    ensures is { IsTrue result ↔ ((ts : List (List ℕ)) × (texts line.now tokens.now ≡ spelling keyword ∷ ts)) }
{
    match cut(line, tokens) {
        Some((first, _)) => is_keyword(line, first, keyword),
        None => false,
    }
}

// The first byte, and those behind it.
pub fn cut_bytes(bytes: &[u8]) -> Option<(u8, &[u8])>
    ensures { MatchOption result (bytes.now ≡ []) (λ cut. bytes.now ≡ cut.0 ∷ cut.1.now) }
{
    match bytes {
        [] => None,
        [first, rest @ ..] => Some((*first, rest)),
    }
}

// The word behind the mark of a global.
pub fn global_text(alloc: Global, line: &[u8], token: Token) -> Result<Option<Text>, NoMemory>
    requires { IsTokenOf line.now token }
    ensures { IfOk result (λ found. MatchOption found ((name : List ℕ) → bytes_at line.now token ≢ 64 ∷ name)
        (λ name. (bytes_at line.now token ≡ 64 ∷ name) × (is_word name ≡ true))) }
{
    let Some((mark, name)) = cut_bytes(bytes_of(line, token)) else {
        return Ok(None);
    };
    if mark != b'@' {
        return Ok(None);
    }
    Ok(Some(Text::from_bytes(alloc, name)?))
}
