// Phis.
ghost use Rattle.std.specs.Prelude.{◌≡◌, ℕ, List, All, IfOk, MatchOption};
ghost use Rattle.ms_lex.specs.Line.{IsTokenOf};
ghost use Rattle.ms_ir.specs.declared.names.Ty.{Ty};
ghost use Rattle.ms_grammar.specs.Form.{entry_parts};
ghost use Rattle.ms_grammar.specs.Fits.{IsNamed, IsValue, IsEntryOf};
ghost use Rattle.ms_grammar.specs.declared.line.RawEntry.{RawEntry};
ghost use Rattle.ms_grammar.specs.declared.line.RawInst.{RawInst};
ghost use Rattle.ms_line_insts.specs.Found.{IsFound, SpellInst};
ghost use Rattle.ms_line_insts.specs.Front.{NoFront, Front};
ghost use Rattle.ms_line_insts.specs.Ends.{NoEnd, End};
ghost use Rattle.ms_line_insts.specs.ListFronts.{NoList, ListFront, IsTail, behind_comma, entry_value_parts, entry_block_parts, entry_close_parts, AreEntries, entries_end_parts};

use crate::found::FoundInst;
use crate::groups::{behind_lead, end_tail, type_lead};
use crate::steps::{behind_word, local_front, value_front};
use ms_grammar::{Keyword, RawEntries, RawEntry, RawInst, RawVal};
use ms_ir::{Name, NoMemory, Text, Ty};
use ms_lex::Token;
use std::alloc::Global;

// The value of an entry, behind its bracket.
fn entry_value<'a>(
    alloc: Global,
    line: &[u8],
    tokens: &'a [Token],
    ty: Ty,
) -> Result<Option<(RawVal, &'a [Token])>, NoMemory>
    requires { All (IsTokenOf line.now) tokens.now }
    ensures { IfOk result (λ found. MatchOption found (NoFront (IsValue ty) entry_value_parts line.now tokens.now)
        (λ f. Front (IsValue ty) entry_value_parts line.now tokens.now f.0 f.1.now)) }
{
    let Some(behind) = behind_lead(line, tokens, Keyword::OpenSquare) else {
        return Ok(None);
    };
    value_front(alloc, line, behind, ty)
}

// The block of an entry, behind a comma.
fn entry_block<'a>(
    alloc: Global,
    line: &[u8],
    tokens: &'a [Token],
) -> Result<Option<(Name, &'a [Token])>, NoMemory>
    requires { All (IsTokenOf line.now) tokens.now }
    ensures { IfOk result (λ found. MatchOption found (NoFront IsNamed entry_block_parts line.now tokens.now)
        (λ f. Front IsNamed entry_block_parts line.now tokens.now f.0 f.1.now)) }
{
    let Some(behind) = behind_lead(line, tokens, Keyword::Comma) else {
        return Ok(None);
    };
    local_front(alloc, line, behind)
}

// The same with the closing bracket.
fn entry_close<'a>(
    alloc: Global,
    line: &[u8],
    tokens: &'a [Token],
) -> Result<Option<(Name, &'a [Token])>, NoMemory>
    requires { All (IsTokenOf line.now) tokens.now }
    ensures { IfOk result (λ found. MatchOption found (NoFront IsNamed entry_close_parts line.now tokens.now)
        (λ f. Front IsNamed entry_close_parts line.now tokens.now f.0 f.1.now)) }
{
    let Some((from, at_close)) = entry_block(alloc, line, tokens)? else {
        return Ok(None);
    };
    match behind_word(line, at_close, Keyword::CloseSquare) {
        Some(rest) => Ok(Some((from, rest))),
        None => Ok(None),
    }
}

// An entry, in its brackets.
fn entry_front<'a>(
    alloc: Global,
    line: &[u8],
    tokens: &'a [Token],
    ty: Ty,
) -> Result<Option<(RawEntry, &'a [Token])>, NoMemory>
    requires { All (IsTokenOf line.now) tokens.now }
    ensures { IfOk result (λ found. MatchOption found (NoFront (IsEntryOf ty) entry_parts line.now tokens.now)
        (λ f. Front (IsEntryOf ty) entry_parts line.now tokens.now f.0 f.1.now)) }
{
    let Some((val, at_block)) = entry_value(alloc, line, tokens, ty)? else {
        return Ok(None);
    };
    match entry_close(alloc, line, at_block)? {
        Some((from, rest)) => Ok(Some((RawEntry { val, from }, rest))),
        None => Ok(None),
    }
}

// An entry behind a comma.
fn further_entry<'a>(
    alloc: Global,
    line: &[u8],
    tokens: &'a [Token],
    ty: Ty,
) -> Result<Option<(RawEntry, &'a [Token])>, NoMemory>
    requires { All (IsTokenOf line.now) tokens.now }
    ensures { IfOk result (λ found. MatchOption found (NoFront (IsEntryOf ty) (behind_comma entry_parts) line.now tokens.now)
        (λ f. Front (IsEntryOf ty) (behind_comma entry_parts) line.now tokens.now f.0 f.1.now)) }
{
    let Some(behind) = behind_lead(line, tokens, Keyword::Comma) else {
        return Ok(None);
    };
    entry_front(alloc, line, behind, ty)
}

// All entries: the tail behind them does not go on like a further one.
fn entries<'a>(
    alloc: Global,
    line: &[u8],
    tokens: &'a [Token],
    ty: Ty,
) -> Result<Option<(RawEntries, &'a [Token])>, NoMemory>
    requires { All (IsTokenOf line.now) tokens.now }
    ensures { IfOk result (λ found. MatchOption found (NoList IsTail (IsEntryOf ty) entry_parts line.now tokens.now)
        (λ f. ListFront IsTail (IsEntryOf ty) entry_parts line.now tokens.now f.0 f.1.now)) }
{
    let Some((first, behind)) = entry_front(alloc, line, tokens, ty)? else {
        return Ok(None);
    };
    let mut entries = RawEntries::new(alloc);
    entries.push(first)?;
    let mut at = behind;
    while let Some((entry, rest)) = further_entry(alloc, line, at, ty)? {
        entries.push(entry)?;
        at = rest;
    }
    Ok(Some((entries, at)))
}

// All entries, up to the line's end.
fn entries_end(
    alloc: Global,
    line: &[u8],
    tokens: &[Token],
    ty: Ty,
) -> Result<Option<(RawEntries, Text)>, NoMemory>
    requires { All (IsTokenOf line.now) tokens.now }
    ensures { IfOk result (λ found. MatchOption found (NoEnd (AreEntries ty) entries_end_parts line.now tokens.now)
        (End (AreEntries ty) entries_end_parts line.now tokens.now)) }
{
    let Some((list, at_tail)) = entries(alloc, line, tokens, ty)? else {
        return Ok(None);
    };
    match end_tail(alloc, line, at_tail)? {
        Some(tail) => Ok(Some((list, tail))),
        None => Ok(None),
    }
}

// `phi TYPE [ VALUE, BLOCK ], ..`.
pub fn phi(alloc: Global, line: &[u8], tokens: &[Token]) -> Result<Option<FoundInst>, NoMemory>
    requires { All (IsTokenOf line.now) tokens.now }
    ensures { IfOk result (λ found. MatchOption found
        ((ty : Ty) (entries : List RawEntry) (rest : List ℕ) → SpellInst line.now tokens.now (RawInst.Phi ty entries rest) → ⊥)
        (IsFound line.now tokens.now)) }
{
    let Some((ty, at_entries)) = type_lead(line, tokens, Keyword::Phi) else {
        return Ok(None);
    };
    match entries_end(alloc, line, at_entries, ty)? {
        Some((entries, tail)) => Ok(Some(FoundInst::Whole(RawInst::Phi { ty, entries, tail }))),
        None => Ok(None),
    }
}
