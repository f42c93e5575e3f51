// The arguments of calls.
ghost use Rattle.std.specs.Prelude.{◌≡◌, ◌≤◌, ◌<◌, ℕ, ◌∷◌, [], List, All, IfOk, MatchOption};
ghost use Rattle.ms_lex.specs.Line.{IsTokenOf};
ghost use Rattle.ms_grammar.specs.Kept.{Each};
ghost use Rattle.ms_grammar.specs.Parts.{count};
ghost use Rattle.ms_grammar.specs.Form.{arg_parts, end_parts};
ghost use Rattle.ms_grammar.specs.Fits.{IsArg};
ghost use Rattle.ms_line_insts.specs.Front.{Spelt, NoFront, Front, Always, NoFrontIf, FrontIf};
ghost use Rattle.ms_line_insts.specs.ListFronts.{NoList, ListFront, behind_comma};
ghost use Rattle.ms_line_insts.specs.CallFronts.{BeginsMark, IsPointerArg, EndsClosed, closed_args};

use crate::cuts::{member_cut, post_cut};
use crate::groups::{behind_lead, end_tail, same_type};
use crate::steps::{behind_word, split, type_front, value_front};
use ms_grammar::{Keyword, RawArg, RawArgs};
use ms_ir::{NoMemory, Text, Ty};
use ms_lex::Token;
use std::alloc::Global;

// An argument, which a mark of its list has to follow.
pub fn arg_front<'a>(
    alloc: Global,
    line: &[u8],
    tokens: &'a [Token],
) -> Result<Option<(RawArg, &'a [Token])>, NoMemory>
    requires { All (IsTokenOf line.now) tokens.now }
    ensures { IfOk result (λ found. MatchOption found (NoFrontIf (BeginsMark line.now) IsArg arg_parts line.now tokens.now)
        (λ f. FrontIf (BeginsMark line.now) IsArg arg_parts line.now tokens.now f.0 f.1.now)) }
{
    let Some((ty, at_attributes)) = type_front(line, tokens) else {
        return Ok(None);
    };
    let Some((attributes, at_value)) = member_cut(alloc, line, at_attributes)? else {
        return Ok(None);
    };
    let Some((val, rest)) = value_front(alloc, line, at_value, ty)? else {
        return Ok(None);
    };
    let text = ms_line_parts::kept(alloc, line, attributes)?;
    Ok(Some((RawArg { ty, val, text }, rest)))
}

// An argument that is a pointer.
pub fn pointer_front<'a>(
    alloc: Global,
    line: &[u8],
    tokens: &'a [Token],
) -> Result<Option<(RawArg, &'a [Token])>, NoMemory>
    requires { All (IsTokenOf line.now) tokens.now }
    ensures { IfOk result (λ found. MatchOption found (NoFrontIf (BeginsMark line.now) IsPointerArg arg_parts line.now tokens.now)
        (λ f. FrontIf (BeginsMark line.now) IsPointerArg arg_parts line.now tokens.now f.0 f.1.now)) }
{
    let Some((arg, rest)) = arg_front(alloc, line, tokens)? else {
        return Ok(None);
    };
    if same_type(arg.ty, Ty::Ptr) {
        Ok(Some((arg, rest)))
    } else {
        Ok(None)
    }
}

// An argument behind a comma.
fn further_arg<'a>(
    alloc: Global,
    line: &[u8],
    tokens: &'a [Token],
) -> Result<Option<(RawArg, &'a [Token])>, NoMemory>
    requires { All (IsTokenOf line.now) tokens.now }
    ensures { IfOk result (λ found. MatchOption found (NoFrontIf (BeginsMark line.now) IsArg (behind_comma arg_parts) line.now tokens.now)
        (λ f. FrontIf (BeginsMark line.now) IsArg (behind_comma arg_parts) line.now tokens.now f.0 f.1.now)) }
{
    let Some(behind) = behind_lead(line, tokens, Keyword::Comma) else {
        return Ok(None);
    };
    arg_front(alloc, line, behind)
}

// Arguments, at least one, up to a closing parenthesis.
fn some_args<'a>(
    alloc: Global,
    line: &[u8],
    tokens: &'a [Token],
) -> Result<Option<(RawArgs, &'a [Token])>, NoMemory>
    requires { All (IsTokenOf line.now) tokens.now }
    ensures { IfOk result (λ found. MatchOption found (NoList EndsClosed IsArg arg_parts line.now tokens.now)
        (λ f. ListFront EndsClosed IsArg arg_parts line.now tokens.now f.0 f.1.now)) }
{
    let Some((first, behind)) = arg_front(alloc, line, tokens)? else {
        return Ok(None);
    };
    let mut args = RawArgs::new(alloc);
    args.push(first)?;
    let mut at = behind;
    while let Some((arg, rest)) = further_arg(alloc, line, at)? {
        args.push(arg)?;
        at = rest;
    }
    Ok(Some((args, at)))
}

// All arguments with the closing parenthesis.
pub fn args_front<'a>(
    alloc: Global,
    line: &[u8],
    tokens: &'a [Token],
) -> Result<Option<(RawArgs, &'a [Token])>, NoMemory>
    requires { All (IsTokenOf line.now) tokens.now }
    ensures { IfOk result (λ found. MatchOption found (NoFront (Each IsArg) closed_args line.now tokens.now)
        (λ f. Front (Each IsArg) closed_args line.now tokens.now f.0 f.1.now)) }
{
    if let Some(rest) = behind_word(line, tokens, Keyword::Close) {
        return Ok(Some((RawArgs::new(alloc), rest)));
    }
    let Some((args, at_close)) = some_args(alloc, line, tokens)? else {
        return Ok(None);
    };
    match behind_word(line, at_close, Keyword::Close) {
        Some(rest) => Ok(Some((args, rest))),
        None => Ok(None),
    }
}

// A number of 0 or more, and nothing in its place where it is above 4,096.
pub fn count_front<'a>(line: &[u8], tokens: &'a [Token]) -> Option<(Option<u32>, &'a [Token])>
    requires { All (IsTokenOf line.now) tokens.now }
    ensures { MatchOption result (NoFront Always (λ n. count n ∷ []) line.now tokens.now)
        (λ f. (n : ℕ) × Front Always (λ m. count m ∷ []) line.now tokens.now n f.1.now × MatchOption f.0 (4096 < n) (λ m. (m ≡ n) × (m ≤ 4096))) }
{
    let Some((first, rest)) = split(line, tokens) else {
        return None;
    };
    match ms_line_parts::count_at(line, first, 4096) {
        Some(found) => Some((found, rest)),
        None => None,
    }
}

// What is kept behind arguments: attributes, and the tail.
pub fn call_end(
    alloc: Global,
    line: &[u8],
    tokens: &[Token],
) -> Result<Option<(Text, Text)>, NoMemory>
    requires { All (IsTokenOf line.now) tokens.now }
    ensures { IfOk result (λ found. MatchOption found ((post rest : List ℕ) → Spelt line.now tokens.now (end_parts post rest) → ⊥)
        (λ f. Spelt line.now tokens.now (end_parts f.0 f.1))) }
{
    let (behind, at_tail) = post_cut(alloc, line, tokens)?;
    let Some(tail) = end_tail(alloc, line, at_tail)? else {
        return Ok(None);
    };
    let post = ms_line_parts::kept(alloc, line, behind)?;
    Ok(Some((post, tail)))
}
