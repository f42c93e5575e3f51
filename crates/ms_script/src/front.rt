// Blocks and numbers, and what stands in front of them.
ghost use Rattle.std.specs.Prelude.{◌≡◌, ◌≤◌, ◌<◌, ◌^◌, ◌∷◌, ℕ, List, All, IfOk, IfSome, MatchOption};
ghost use Rattle.ms_lex.specs.Line.{IsTokenOf};
ghost use Rattle.ms_lex.specs.declared.token.Token.{Token as Cell};
ghost use Rattle.ms_ir.specs.declared.names.Name.{Name as Named};
ghost use Rattle.ms_grammar.specs.Parts.{bytes_at};
ghost use Rattle.ms_grammar.specs.Numbers.{is_negative};
ghost use Rattle.ms_script.specs.Lines.{IsPlace, IsSpot, IsTarget};
ghost use Rattle.ms_script.specs.Found.{NoFunc, IsFunc, NoFront, IsFront};

use crate::cut::{cut, is_end};
use crate::verb::{Verb, verb_of};
use ms_grammar::Keyword;
use ms_ir::{FuncNo, Module, Name, NoMemory};
use ms_lex::Token;
use ms_line_parts::{bytes_of, count_at, is_keyword, local_at};
use std::alloc::Global;

// A block, a number, and the tokens behind them.
#[derive(Drop)]
pub struct Spot<'a> {
    pub block: Name,
    pub number: u32,
    pub rest: &'a [Token],
}

// What stands in front of a block and a number, and the tokens from these on.
#[derive(Drop)]
pub struct Front<'a> {
    pub verb: Verb,
    pub func: FuncNo,
    pub rest: &'a [Token],
}

fn has_minus(text: &[u8]) -> bool
    ensures { result ≡ is_negative text.now }
{
    match text {
        [first, ..] => *first == b'-',
        [] => false,
    }
}

// The number without a sign that a token says, below 2^32.
fn place_at(line: &[u8], token: Token) -> Option<u32>
    requires { IsTokenOf line.now token }
    ensures { MatchOption result ((n : ℕ) → IsPlace n (bytes_at line.now token) → ⊥) (λ n. IsPlace n (bytes_at line.now token)) }
{
    if has_minus(bytes_of(line, token)) {
        return None;
    }
    match count_at(line, token, u32::MAX) {
        Some(Some(n)) => Some(n),
        Some(None) => None,
        None => None,
    }
}

// The block and the number that stand first.
pub fn spot_at<'a>(
    alloc: Global,
    line: &[u8],
    tokens: &'a [Token],
) -> Result<Option<Spot<'a>>, NoMemory>
    requires { All (IsTokenOf line.now) tokens.now }
    ensures spot { IfOk result (λ found. MatchOption found ((block : Named) (n : ℕ) (rest : List Cell) → IsSpot line.now block n tokens.now rest → ⊥)
        (λ s. IsSpot line.now s.block s.number tokens.now s.rest.now)) }
    ensures each { IfOk result (λ found. IfSome found (λ s. All (IsTokenOf line.now) s.rest.now)) }
{
    let Some((local, behind)) = cut(line, tokens) else {
        return Ok(None);
    };
    let Some((numeral, rest)) = cut(line, behind) else {
        return Ok(None);
    };
    let Some(number) = place_at(line, numeral) else {
        return Ok(None);
    };
    match local_at(alloc, line, local)? {
        Some(block) => Ok(Some(Spot {
            block,
            number,
            rest,
        })),
        None => Ok(None),
    }
}

// The word to, a block and a number, and nothing behind them.
pub fn target_at(
    alloc: Global,
    line: &[u8],
    tokens: &[Token],
) -> Result<Option<(Name, u32)>, NoMemory>
    requires { All (IsTokenOf line.now) tokens.now }
    ensures { IfOk result (λ found. MatchOption found ((block : Named) (n : ℕ) → IsTarget line.now block n tokens.now → ⊥)
        (λ t. IsTarget line.now t.0 t.1 tokens.now)) }
{
    let Some((to, spot)) = cut(line, tokens) else {
        return Ok(None);
    };
    if !is_keyword(line, to, Keyword::To) {
        return Ok(None);
    }
    match spot_at(alloc, line, spot)? {
        Some(
            Spot {
                block,
                number,
                rest,
            },
        ) => {
            if is_end(rest) {
                Ok(Some((block, number)))
            } else {
                Ok(None)
            }
        }
        None => Ok(None),
    }
}

// The function with a body that a token names.
fn func_at(line: &[u8], token: Token, m: &Module) -> Option<FuncNo>
    requires { IsTokenOf line.now token }
    ensures { MatchOption result (NoFunc m.now (bytes_at line.now token)) (λ f. IsFunc m.now (bytes_at line.now token) f) }
{
    match bytes_of(line, token) {
        [b'@', name @ ..] => match m.names().find_func(name) {
            Some(f) => match m.func(f) {
                Some(_) => Some(f),
                None => None,
            },
            None => None,
        },
        _ => None,
    }
}

// The word of an edit and the function, which stand first.
pub fn front_at<'a>(line: &[u8], tokens: &'a [Token], m: &Module) -> Option<Front<'a>>
    requires { All (IsTokenOf line.now) tokens.now }
    ensures front { MatchOption result (NoFront m.now line.now tokens.now) (λ f. IsFront m.now line.now tokens.now f.verb f.func f.rest.now) }
    ensures each { IfSome result (λ f. All (IsTokenOf line.now) f.rest.now) }
{
    let Some((first, behind)) = cut(line, tokens) else {
        return None;
    };
    let Some((second, rest)) = cut(line, behind) else {
        return None;
    };
    let Some(verb) = verb_of(bytes_of(line, first)) else {
        return None;
    };
    match func_at(line, second, m) {
        Some(func) => Some(Front { verb, func, rest }),
        None => None,
    }
}
