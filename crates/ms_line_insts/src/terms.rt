// Terminators, each read from its first word on.
ghost use Rattle.std.specs.Prelude.{◌≡◌, ℕ, List, All, IfOk, MatchOption};
ghost use Rattle.ms_lex.specs.Line.{IsTokenOf};
ghost use Rattle.ms_ir.specs.declared.names.Ty.{Ty};
ghost use Rattle.ms_ir.specs.declared.names.Name.{Name};
ghost use Rattle.ms_grammar.specs.Fits.{IsNamed};
ghost use Rattle.ms_grammar.specs.declared.line.RawVal.{RawVal};
ghost use Rattle.ms_line_insts.specs.Found.{SpellTerm};
ghost use Rattle.ms_line_insts.specs.Front.{NoLead, Leads, NoFront, Front};
ghost use Rattle.ms_line_insts.specs.Ends.{NoEnd, End, IsNumber};
ghost use Rattle.ms_line_insts.specs.TermFronts.{jump_parts, AreTargets, target_end_parts, ret_void_parts, ret_value_parts};

use crate::groups::{
    behind_lead, condition_front, end_tail, further_target, number_front, target_front,
};
use crate::steps::behind_word;
use ms_grammar::{Keyword, RawTerm, RawVal};
use ms_ir::{Name, NoMemory, Text, Ty};
use ms_lex::Token;
use std::alloc::Global;

// A block to branch to, behind the word of a branch.
fn jump_front<'a>(
    alloc: Global,
    line: &[u8],
    tokens: &'a [Token],
) -> Result<Option<(Name, &'a [Token])>, NoMemory>
    requires { All (IsTokenOf line.now) tokens.now }
    ensures { IfOk result (λ found. MatchOption found (NoFront IsNamed jump_parts line.now tokens.now)
        (λ f. Front IsNamed jump_parts line.now tokens.now f.0 f.1.now)) }
{
    let Some(behind) = behind_lead(line, tokens, Keyword::Br) else {
        return Ok(None);
    };
    target_front(alloc, line, behind)
}

// A branch to one block.
pub fn jump(alloc: Global, line: &[u8], tokens: &[Token]) -> Result<Option<RawTerm>, NoMemory>
    requires { All (IsTokenOf line.now) tokens.now }
    ensures { IfOk result (λ found. MatchOption found ((target : Name) (rest : List ℕ) → SpellTerm line.now tokens.now (RawTerm.Br target rest) → ⊥)
        (λ term. SpellTerm line.now tokens.now term)) }
{
    let Some((target, at_tail)) = jump_front(alloc, line, tokens)? else {
        return Ok(None);
    };
    match end_tail(alloc, line, at_tail)? {
        Some(tail) => Ok(Some(RawTerm::Br(target, tail))),
        None => Ok(None),
    }
}

// Two blocks to branch to, up to the line's end.
fn targets_end(
    alloc: Global,
    line: &[u8],
    tokens: &[Token],
) -> Result<Option<(Name, Name, Text)>, NoMemory>
    requires { All (IsTokenOf line.now) tokens.now }
    ensures { IfOk result (λ found. MatchOption found (NoEnd AreTargets target_end_parts line.now tokens.now)
        (End AreTargets target_end_parts line.now tokens.now)) }
{
    let Some((if_true, at_false)) = further_target(alloc, line, tokens)? else {
        return Ok(None);
    };
    let Some((if_false, at_tail)) = further_target(alloc, line, at_false)? else {
        return Ok(None);
    };
    match end_tail(alloc, line, at_tail)? {
        Some(tail) => Ok(Some((if_true, if_false, tail))),
        None => Ok(None),
    }
}

// A branch to one of two blocks.
pub fn branch(alloc: Global, line: &[u8], tokens: &[Token]) -> Result<Option<RawTerm>, NoMemory>
    requires { All (IsTokenOf line.now) tokens.now }
    ensures { IfOk result (λ found. MatchOption found
        ((cond : RawVal) (if_true if_false : Name) (rest : List ℕ) → SpellTerm line.now tokens.now (RawTerm.CondBr cond if_true if_false rest) → ⊥)
        (λ term. SpellTerm line.now tokens.now term)) }
{
    let Some((cond, at_true)) = condition_front(alloc, line, tokens, Keyword::Br)? else {
        return Ok(None);
    };
    match targets_end(alloc, line, at_true)? {
        Some((if_true, if_false, tail)) => Ok(Some(RawTerm::CondBr(cond, if_true, if_false, tail))),
        None => Ok(None),
    }
}

// What is behind the words of a return of nothing.
fn behind_return<'a>(line: &[u8], tokens: &'a [Token]) -> Option<&'a [Token]>
    requires { All (IsTokenOf line.now) tokens.now }
    ensures { MatchOption result (NoLead ret_void_parts line.now tokens.now) (λ rest. Leads ret_void_parts line.now tokens.now rest.now) }
{
    let Some(at_void) = behind_lead(line, tokens, Keyword::Ret) else {
        return None;
    };
    behind_word(line, at_void, Keyword::Void)
}

// A return of nothing.
pub fn return_nothing(
    alloc: Global,
    line: &[u8],
    tokens: &[Token],
) -> Result<Option<RawTerm>, NoMemory>
    requires { All (IsTokenOf line.now) tokens.now }
    ensures { IfOk result (λ found. MatchOption found ((rest : List ℕ) → SpellTerm line.now tokens.now (RawTerm.Ret None rest) → ⊥)
        (λ term. SpellTerm line.now tokens.now term)) }
{
    let Some(at_tail) = behind_return(line, tokens) else {
        return Ok(None);
    };
    match end_tail(alloc, line, at_tail)? {
        Some(tail) => Ok(Some(RawTerm::Ret(None, tail))),
        None => Ok(None),
    }
}

// A number behind the word of a return.
fn returned_front<'a>(
    alloc: Global,
    line: &[u8],
    tokens: &'a [Token],
) -> Result<Option<((Ty, RawVal), &'a [Token])>, NoMemory>
    requires { All (IsTokenOf line.now) tokens.now }
    ensures { IfOk result (λ found. MatchOption found (NoFront IsNumber ret_value_parts line.now tokens.now)
        (λ f. Front IsNumber ret_value_parts line.now tokens.now f.0 f.1.now)) }
{
    let Some(behind) = behind_lead(line, tokens, Keyword::Ret) else {
        return Ok(None);
    };
    number_front(alloc, line, behind)
}

// A return of a value.
pub fn return_value(
    alloc: Global,
    line: &[u8],
    tokens: &[Token],
) -> Result<Option<RawTerm>, NoMemory>
    requires { All (IsTokenOf line.now) tokens.now }
    ensures { IfOk result (λ found. MatchOption found
        ((ty : Ty) (val : RawVal) (rest : List ℕ) → SpellTerm line.now tokens.now (RawTerm.Ret (Some (ty, val)) rest) → ⊥)
        (λ term. SpellTerm line.now tokens.now term)) }
{
    let Some((given, at_tail)) = returned_front(alloc, line, tokens)? else {
        return Ok(None);
    };
    match end_tail(alloc, line, at_tail)? {
        Some(tail) => Ok(Some(RawTerm::Ret(Some(given), tail))),
        None => Ok(None),
    }
}

// The end of a block that is not reached.
pub fn unreachable_end(
    alloc: Global,
    line: &[u8],
    tokens: &[Token],
) -> Result<Option<RawTerm>, NoMemory>
    requires { All (IsTokenOf line.now) tokens.now }
    ensures { IfOk result (λ found. MatchOption found ((rest : List ℕ) → SpellTerm line.now tokens.now (RawTerm.Unreachable rest) → ⊥)
        (λ term. SpellTerm line.now tokens.now term)) }
{
    let Some(at_tail) = behind_word(line, tokens, Keyword::Unreachable) else {
        return Ok(None);
    };
    match end_tail(alloc, line, at_tail)? {
        Some(tail) => Ok(Some(RawTerm::Unreachable(tail))),
        None => Ok(None),
    }
}
