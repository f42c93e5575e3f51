// Single tokens in front of others.
ghost use Rattle.std.specs.Prelude.{◌≡◌, ◌∷◌, [], All, IfOk, MatchOption};
ghost use Rattle.ms_lex.specs.Line.{IsTokenOf};
ghost use Rattle.ms_grammar.specs.Form.{word_part, type_part, value_part, local_part};
ghost use Rattle.ms_grammar.specs.Fits.{IsNamed, IsValue};
ghost use Rattle.ms_line_insts.specs.Front.{NoLead, Leads, NoFront, Front, Always};

use ms_grammar::{Keyword, RawVal};
use ms_ir::{Name, NoMemory, Ty};
use ms_lex::Token;
use ms_line_parts::{is_keyword, local_at, type_at, value_at};
use std::alloc::Global;

// The first token, and those behind it.
pub fn split<'a>(line: &[u8], tokens: &'a [Token]) -> Option<(Token, &'a [Token])>
    requires { All (IsTokenOf line.now) tokens.now }
    ensures cells { MatchOption result (tokens.now ≡ []) (λ f. tokens.now ≡ f.0 ∷ f.1.now) }
    ensures first { MatchOption result (tokens.now ≡ []) (λ f. IsTokenOf line.now f.0) }
    ensures behind { MatchOption result (tokens.now ≡ []) (λ f. All (IsTokenOf line.now) f.1.now) }
{
    match tokens {
        [first, rest @ ..] => Some((*first, rest)),
        [] => None,
    }
}

// What is behind a word or mark.
pub fn behind_word<'a>(line: &[u8], tokens: &'a [Token], keyword: Keyword) -> Option<&'a [Token]>
    requires { All (IsTokenOf line.now) tokens.now }
    ensures { MatchOption result (NoLead (word_part keyword ∷ []) line.now tokens.now)
        (λ rest. Leads (word_part keyword ∷ []) line.now tokens.now rest.now) }
{
    let Some((first, rest)) = split(line, tokens) else {
        return None;
    };
    if is_keyword(line, first, keyword) {
        Some(rest)
    } else {
        None
    }
}

// A type.
pub fn type_front<'a>(line: &[u8], tokens: &'a [Token]) -> Option<(Ty, &'a [Token])>
    requires { All (IsTokenOf line.now) tokens.now }
    ensures { MatchOption result (NoFront Always (λ ty. type_part ty ∷ []) line.now tokens.now)
        (λ f. Front Always (λ ty. type_part ty ∷ []) line.now tokens.now f.0 f.1.now) }
{
    let Some((first, rest)) = split(line, tokens) else {
        return None;
    };
    match type_at(line, first) {
        Some(ty) => Some((ty, rest)),
        None => None,
    }
}

// A value of a type.
pub fn value_front<'a>(
    alloc: Global,
    line: &[u8],
    tokens: &'a [Token],
    ty: Ty,
) -> Result<Option<(RawVal, &'a [Token])>, NoMemory>
    requires { All (IsTokenOf line.now) tokens.now }
    ensures { IfOk result (λ found. MatchOption found (NoFront (IsValue ty) (λ v. value_part v ∷ []) line.now tokens.now)
        (λ f. Front (IsValue ty) (λ v. value_part v ∷ []) line.now tokens.now f.0 f.1.now)) }
{
    let Some((first, rest)) = split(line, tokens) else {
        return Ok(None);
    };
    match value_at(alloc, line, first, ty)? {
        Some(val) => Ok(Some((val, rest))),
        None => Ok(None),
    }
}

// The name of a local.
pub fn local_front<'a>(
    alloc: Global,
    line: &[u8],
    tokens: &'a [Token],
) -> Result<Option<(Name, &'a [Token])>, NoMemory>
    requires { All (IsTokenOf line.now) tokens.now }
    ensures { IfOk result (λ found. MatchOption found (NoFront IsNamed (λ n. local_part n ∷ []) line.now tokens.now)
        (λ f. Front IsNamed (λ n. local_part n ∷ []) line.now tokens.now f.0 f.1.now)) }
{
    let Some((first, rest)) = split(line, tokens) else {
        return Ok(None);
    };
    match local_at(alloc, line, first)? {
        Some(name) => Ok(Some((name, rest))),
        None => Ok(None),
    }
}
