// The parameters of a function's line.
ghost use Rattle.std.specs.Prelude.{◌≡◌, All, IfOk, MatchOption};
ghost use Rattle.ms_lex.specs.Line.{IsTokenOf};
ghost use Rattle.ms_line.specs.Params.{taken_by, IsNameFirst, NoParam, IsParamFirst, NoNext, IsNext, NoParams, AreParams};

use crate::cut::{before, behind, cut, starts_with};
use ms_grammar::Keyword;
use ms_ir::{Name, NoMemory, Param, Params};
use ms_lex::Token;
use ms_line_parts::{attributes_front, kept, local_at, type_at};
use std::alloc::Global;

// A parameter, and how many tokens spell it.
#[derive(Drop)]
pub struct FoundParam {
    pub param: Param,
    pub taken: usize,
}

// A member of the list with the mark behind it, and how many tokens spell it.
#[derive(Drop)]
pub enum Next {
    // The dots, which end the list with two tokens.
    Dots,
    More(Param, usize),
    Last(Param, usize),
}

// The parameters up to the closing parenthesis, whether dots stand behind them, and how many tokens spell all that.
#[derive(Drop)]
pub struct FoundParams {
    pub params: Params,
    pub variadic: bool,
    pub taken: usize,
}

// The local that stands first, or no name.
fn name_first(alloc: Global, line: &[u8], tokens: &[Token]) -> Result<Name, NoMemory>
    requires { All (IsTokenOf line.now) tokens.now }
    ensures { IfOk result (λ name. IsNameFirst line.now tokens.now name) }
{
    match cut(line, tokens) {
        Some((first, _)) => match local_at(alloc, line, first)? {
            Some(name) => Ok(name),
            None => Ok(Name::Absent),
        },
        None => Ok(Name::Absent),
    }
}

// How many tokens spell a name that may be absent.
fn tokens_of(name: &Name) -> usize
    ensures { result ≡ taken_by name.now }
{
    match name {
        Name::Absent => 0,
        _ => 1,
    }
}

// The parameter that stands first, where a comma or a closing parenthesis follows it.
fn param_at(alloc: Global, line: &[u8], tokens: &[Token]) -> Result<Option<FoundParam>, NoMemory>
    requires { All (IsTokenOf line.now) tokens.now }
    ensures { IfOk result (λ found. MatchOption found (NoParam line.now tokens.now) (IsParamFirst line.now tokens.now)) }
{
    let Some((first, rest)) = cut(line, tokens) else {
        return Ok(None);
    };
    let Some(ty) = type_at(line, first) else {
        return Ok(None);
    };
    let attributes = attributes_front(alloc, line, rest)?;
    let text = kept(alloc, line, before(line, rest, attributes))?;
    let name = name_first(alloc, line, behind(line, rest, attributes))?;
    let taken = 1 + attributes + tokens_of(&name);
    Ok(Some(FoundParam {
        param: Param { ty, text, name },
        taken,
    }))
}

// The next member of the list.
fn next_at(alloc: Global, line: &[u8], tokens: &[Token]) -> Result<Option<Next>, NoMemory>
    requires { All (IsTokenOf line.now) tokens.now }
    ensures { IfOk result (λ found. MatchOption found (NoNext line.now tokens.now) (IsNext line.now tokens.now)) }
{
    if starts_with(line, tokens, Keyword::Dots) {
        if starts_with(line, behind(line, tokens, 1), Keyword::Close) {
            return Ok(Some(Next::Dots));
        }
        return Ok(None);
    }
    let Some(found) = param_at(alloc, line, tokens)? else {
        return Ok(None);
    };
    let FoundParam { param, taken } = found;
    let rest = behind(line, tokens, taken);
    if starts_with(line, rest, Keyword::Comma) {
        return Ok(Some(Next::More(param, taken + 1)));
    }
    if starts_with(line, rest, Keyword::Close) {
        return Ok(Some(Next::Last(param, taken + 1)));
    }
    Ok(None)
}

// The parameters behind the opening parenthesis, with the closing one.
pub fn params(alloc: Global, line: &[u8], tokens: &[Token]) -> Result<Option<FoundParams>, NoMemory>
    requires { All (IsTokenOf line.now) tokens.now }
    ensures { IfOk result (λ found. MatchOption found (NoParams line.now tokens.now) (AreParams line.now tokens.now)) }
{
    let mut params = Params::new(alloc);
    if starts_with(line, tokens, Keyword::Close) {
        return Ok(Some(FoundParams {
            params,
            variadic: false,
            taken: 1,
        }));
    }
    let mut at = 0;
    loop {
        match next_at(alloc, line, behind(line, tokens, at))? {
            Some(Next::More(param, taken)) => {
                params.push(param)?;
                at += taken;
            }
            Some(Next::Last(param, taken)) => {
                params.push(param)?;
                return Ok(Some(FoundParams {
                    params,
                    variadic: false,
                    taken: at + taken,
                }));
            }
            Some(Next::Dots) => {
                return Ok(Some(FoundParams {
                    params,
                    variadic: true,
                    taken: at + 2,
                }));
            }
            None => return Ok(None),
        }
    }
}
