// How far attributes reach, and where the members of a list are cut.
ghost use Rattle.std.specs.Prelude.{◌≡◌, ℕ, true, false, ◌<◌, ◌≤◌, ◌+◌, ◌++◌, ◌∷◌, List, All, MatchOption, IfSome, Some, None, IfOk, IsTrue, ◌↔◌, length, take};
ghost use Rattle.ms_lex.specs.Line.{IsTokenOf};
ghost use Rattle.ms_lex.specs.declared.token.Token.{Token};
ghost use Rattle.ms_grammar.specs.Kept.{AreMany, IsAttribute, IsPostItem, IsCallMark, IsCallType};
ghost use Rattle.ms_grammar.specs.Scan.{Stops, IsMember, IsListMark};
ghost use Rattle.ms_grammar.specs.Parts.{bytes_at, texts};
ghost use Rattle.ms_line_parts.specs.Reach.{call_behind, call_mark_length};

use crate::attributes::items_front;
use crate::brackets::bracketed_front;
use crate::words::is_keyword;
use ms_grammar::Keyword;
use ms_ir::NoMemory;
use ms_lex::Token;
use std::alloc::Global;

/// The front of attributes.
pub fn attributes_front(alloc: Global, line: &[u8], tokens: &[Token]) -> Result<usize, NoMemory>
    requires { All (IsTokenOf line.now) tokens.now }
    ensures within { IfOk result (λ n. n ≤ length tokens.now) }
    ensures are { IfOk result (λ n. AreMany IsAttribute (texts line.now (take n tokens.now))) }
    ensures whole { IfOk result (λ n. (run rest : List Token) → tokens.now ≡ run ++ rest → AreMany IsAttribute (texts line.now run)
        → Stops false (texts line.now rest) → n ≡ length run) }
{
    Ok(items_front(alloc, line, tokens, false)?)
}

/// The front of attributes and pairs of metadata, as they stand behind arguments.
pub fn post_front(alloc: Global, line: &[u8], tokens: &[Token]) -> Result<usize, NoMemory>
    requires { All (IsTokenOf line.now) tokens.now }
    ensures within { IfOk result (λ n. n ≤ length tokens.now) }
    ensures are { IfOk result (λ n. AreMany IsPostItem (texts line.now (take n tokens.now))) }
    ensures whole { IfOk result (λ n. (run rest : List Token) → tokens.now ≡ run ++ rest → AreMany IsPostItem (texts line.now run)
        → Stops true (texts line.now rest) → n ≡ length run) }
{
    Ok(items_front(alloc, line, tokens, true)?)
}

fn is_list_mark(line: &[u8], token: Token) -> bool
    requires { IsTokenOf line.now token }
    ensures { IsTrue result ↔ IsListMark (bytes_at line.now token) }
{
    is_keyword(line, token, Keyword::Comma) || is_keyword(line, token, Keyword::Close)
}

/// The attributes in front of the value of a list's member, where behind the value stands a comma or closing parenthesis: the last
/// token of the member is the value.
pub fn member_front(alloc: Global, line: &[u8], tokens: &[Token]) -> Result<Option<usize>, NoMemory>
    requires { All (IsTokenOf line.now) tokens.now }
    ensures are { IfOk result (λ found. IfSome found (λ n. (n < length tokens.now) × AreMany IsAttribute (texts line.now (take n tokens.now)))) }
    ensures whole { IfOk result (λ found. (run left : List Token) (value mark : Token) → tokens.now ≡ run ++ value ∷ mark ∷ left
        → AreMany IsAttribute (texts line.now run) → IsMember (bytes_at line.now value) → IsListMark (bytes_at line.now mark)
        → found ≡ Some (length run)) }
{
    let n = items_front(alloc, line, tokens, false)?;
    if n == tokens.len() {
        return Ok(None);
    }
    if !is_list_mark(line, tokens[n]) {
        return Ok(Some(n));
    }
    if n == 0 {
        return Ok(None);
    }
    let before = attributes_front(alloc, line, &tokens[..n - 1])?;
    if before == n - 1 {
        Ok(Some(before))
    } else {
        Ok(None)
    }
}

fn call_behind(line: &[u8], tokens: &[Token]) -> usize
    requires { All (IsTokenOf line.now) tokens.now }
    ensures is { result ≡ call_behind (texts line.now tokens.now) }
    ensures within { result ≤ length tokens.now + 1 }
{
    match tokens {
        [first, ..] if is_keyword(line, *first, Keyword::Call) => 2,
        _ => 0,
    }
}

fn call_mark(line: &[u8], tokens: &[Token]) -> usize
    requires { All (IsTokenOf line.now) tokens.now }
    ensures is { result ≡ call_mark_length (texts line.now tokens.now) }
    ensures within { result ≤ length tokens.now }
{
    let (first, rest) = match tokens {
        [] => return 0,
        [first, rest @ ..] => (*first, rest),
    };
    if is_keyword(line, first, Keyword::Call) {
        return 1;
    }
    if is_keyword(line, first, Keyword::Tail) || is_keyword(line, first, Keyword::NoTail) {
        return call_behind(line, rest);
    }
    0
}

/// The front of the words that begin a call; none has no token.
pub fn call_mark_front(line: &[u8], tokens: &[Token]) -> usize
    requires { All (IsTokenOf line.now) tokens.now }
    ensures within { result ≤ length tokens.now }
    ensures is { 0 < result → IsCallMark (texts line.now (take result tokens.now)) }
    ensures whole { (run rest : List Token) → tokens.now ≡ run ++ rest → IsCallMark (texts line.now run) → result ≡ length run }
{
    call_mark(line, tokens)
}

/// The front of the type of a callee that stands in parentheses, perhaps none.
pub fn call_type_front(alloc: Global, line: &[u8], tokens: &[Token]) -> Result<usize, NoMemory>
    requires { All (IsTokenOf line.now) tokens.now }
    ensures within { IfOk result (λ n. n ≤ length tokens.now) }
    ensures is { IfOk result (λ n. IsCallType (texts line.now (take n tokens.now))) }
    ensures whole { IfOk result (λ n. (run rest : List Token) (callee : Token) (name : List ℕ) → tokens.now ≡ run ++ callee ∷ rest
        → IsCallType (texts line.now run) → bytes_at line.now callee ≡ 64 ∷ name → n ≡ length run) }
{
    Ok(bracketed_front(alloc, line, tokens, Keyword::Open, Keyword::Close)?)
}
