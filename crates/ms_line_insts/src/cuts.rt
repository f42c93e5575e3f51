// Fronts of several tokens, cut off.
ghost use Rattle.std.specs.Prelude.{◌≡◌, ◌≤◌, ◌++◌, All, IfOk, MatchOption, length, take};
ghost use Rattle.ms_lex.specs.Line.{IsTokenOf};
ghost use Rattle.ms_line_insts.specs.Cuts.{NoCut, Cut, TypesObject, HasAttributes, HasPost, HasIndices, HasTail, StopsAttributes, StopsPost, BeginsCall, TypesCallee, NamesCallee, StartsMember};
ghost use Rattle.ms_line_insts.specs.Front.{Always};

use ms_ir::NoMemory;
use ms_lex::Token;
use std::alloc::Global;

// The first tokens, and those behind them.
pub fn cut<'a>(line: &[u8], tokens: &'a [Token], count: usize) -> (&'a [Token], &'a [Token])
    requires owned { All (IsTokenOf line.now) tokens.now }
    requires within { count ≤ length tokens.now }
    ensures whole { tokens.now ≡ result.0.now ++ result.1.now }
    ensures many { length result.0.now ≡ count }
    ensures front { result.0.now ≡ take count tokens.now }
    ensures owned { All (IsTokenOf line.now) result.0.now }
    ensures behind { All (IsTokenOf line.now) result.1.now }
{
    (&tokens[..count], &tokens[count..])
}

// The type of an object.
pub fn object_cut<'a>(line: &[u8], tokens: &'a [Token]) -> Option<(&'a [Token], &'a [Token])>
    requires { All (IsTokenOf line.now) tokens.now }
    ensures { MatchOption result (NoCut (TypesObject line.now) Always tokens.now)
        (λ f. Cut (TypesObject line.now) Always line.now tokens.now f.0.now f.1.now) }
{
    match ms_line_parts::object_front(line, tokens) {
        Some(count) => Some(cut(line, tokens, count)),
        None => None,
    }
}

// A list of indices.
pub fn indices_cut<'a>(line: &[u8], tokens: &'a [Token]) -> Option<(&'a [Token], &'a [Token])>
    requires { All (IsTokenOf line.now) tokens.now }
    ensures { MatchOption result (NoCut (HasIndices line.now) (HasTail line.now) tokens.now)
        (λ f. Cut (HasIndices line.now) (HasTail line.now) line.now tokens.now f.0.now f.1.now) }
{
    let count = ms_line_parts::indices_front(line, tokens);
    if 0 < count {
        Some(cut(line, tokens, count))
    } else {
        None
    }
}

// Attributes.
pub fn attributes_cut<'a>(
    alloc: Global,
    line: &[u8],
    tokens: &'a [Token],
) -> Result<(&'a [Token], &'a [Token]), NoMemory>
    requires { All (IsTokenOf line.now) tokens.now }
    ensures { IfOk result (λ f. Cut (HasAttributes line.now) (StopsAttributes line.now) line.now tokens.now f.0.now f.1.now) }
{
    let count = ms_line_parts::attributes_front(alloc, line, tokens)?;
    Ok(cut(line, tokens, count))
}

// Attributes behind arguments.
pub fn post_cut<'a>(
    alloc: Global,
    line: &[u8],
    tokens: &'a [Token],
) -> Result<(&'a [Token], &'a [Token]), NoMemory>
    requires { All (IsTokenOf line.now) tokens.now }
    ensures { IfOk result (λ f. Cut (HasPost line.now) (StopsPost line.now) line.now tokens.now f.0.now f.1.now) }
{
    let count = ms_line_parts::post_front(alloc, line, tokens)?;
    Ok(cut(line, tokens, count))
}

// The words that begin a call.
pub fn mark_cut<'a>(line: &[u8], tokens: &'a [Token]) -> Option<(&'a [Token], &'a [Token])>
    requires { All (IsTokenOf line.now) tokens.now }
    ensures { MatchOption result (NoCut (BeginsCall line.now) Always tokens.now)
        (λ f. Cut (BeginsCall line.now) Always line.now tokens.now f.0.now f.1.now) }
{
    let count = ms_line_parts::call_mark_front(line, tokens);
    if 0 < count {
        Some(cut(line, tokens, count))
    } else {
        None
    }
}

// The type of a callee in its parentheses, perhaps none, before the callee's name.
pub fn written_cut<'a>(
    alloc: Global,
    line: &[u8],
    tokens: &'a [Token],
) -> Result<(&'a [Token], &'a [Token]), NoMemory>
    requires { All (IsTokenOf line.now) tokens.now }
    ensures { IfOk result (λ f. Cut (TypesCallee line.now) (NamesCallee line.now) line.now tokens.now f.0.now f.1.now) }
{
    let count = ms_line_parts::call_type_front(alloc, line, tokens)?;
    Ok(cut(line, tokens, count))
}

// The attributes before the value of a list's member.
pub fn member_cut<'a>(
    alloc: Global,
    line: &[u8],
    tokens: &'a [Token],
) -> Result<Option<(&'a [Token], &'a [Token])>, NoMemory>
    requires { All (IsTokenOf line.now) tokens.now }
    ensures { IfOk result (λ found. MatchOption found (NoCut (HasAttributes line.now) (StartsMember line.now) tokens.now)
        (λ f. Cut (HasAttributes line.now) (StartsMember line.now) line.now tokens.now f.0.now f.1.now)) }
{
    match ms_line_parts::member_front(alloc, line, tokens)? {
        Some(count) => Ok(Some(cut(line, tokens, count))),
        None => Ok(None),
    }
}
