ghost use Rattle.std.specs.Prelude.{All, IfOk, MatchOption};
ghost use Rattle.ms_lex.specs.Line.{IsTokenOf};
ghost use Rattle.ms_grammar.specs.declared.line.RawInst.{RawInst};
ghost use Rattle.ms_grammar.specs.declared.line.RawTerm.{RawTerm};
ghost use Rattle.ms_line_insts.specs.Found.{SpellInst, SpellTerm, Tells};

use crate::calls::{call, copy};
use crate::found::FoundInst;
use crate::memory::{alloca, element_pointer};
use crate::phi::phi;
use crate::simple::{binary, cast, compare, load, select, store};
use crate::terms::{branch, jump, return_nothing, return_value, unreachable_end};
use ms_grammar::RawTerm;
use ms_ir::NoMemory;
use ms_lex::Token;
use std::alloc::Global;

/// The instruction that these tokens of a line spell, all of them, from its first word on: without
/// the local that it makes.
pub fn read_inst(
    alloc: Global,
    line: &[u8],
    tokens: &[Token],
) -> Result<Option<FoundInst>, NoMemory>
    requires { All (IsTokenOf line.now) tokens.now }
    ensures { IfOk result (λ found. MatchOption found ((inst : RawInst) → SpellInst line.now tokens.now inst → ⊥)
        (λ f. (inst : RawInst) × SpellInst line.now tokens.now inst × Tells inst f)) }
{
    if let Some(found) = alloca(alloc, line, tokens)? {
        return Ok(Some(found));
    }
    if let Some(found) = element_pointer(alloc, line, tokens)? {
        return Ok(Some(found));
    }
    if let Some(found) = load(alloc, line, tokens)? {
        return Ok(Some(found));
    }
    if let Some(found) = store(alloc, line, tokens)? {
        return Ok(Some(found));
    }
    if let Some(found) = copy(alloc, line, tokens)? {
        return Ok(Some(found));
    }
    if let Some(found) = call(alloc, line, tokens)? {
        return Ok(Some(found));
    }
    if let Some(found) = binary(alloc, line, tokens)? {
        return Ok(Some(found));
    }
    if let Some(found) = compare(alloc, line, tokens)? {
        return Ok(Some(found));
    }
    if let Some(found) = select(alloc, line, tokens)? {
        return Ok(Some(found));
    }
    if let Some(found) = cast(alloc, line, tokens)? {
        return Ok(Some(found));
    }
    phi(alloc, line, tokens)
}

/// The terminator that these tokens of a line spell, all of them.
pub fn read_term(alloc: Global, line: &[u8], tokens: &[Token]) -> Result<Option<RawTerm>, NoMemory>
    requires { All (IsTokenOf line.now) tokens.now }
    ensures { IfOk result (λ found. MatchOption found ((term : RawTerm) → SpellTerm line.now tokens.now term → ⊥)
        (λ term. SpellTerm line.now tokens.now term)) }
{
    if let Some(term) = jump(alloc, line, tokens)? {
        return Ok(Some(term));
    }
    if let Some(term) = branch(alloc, line, tokens)? {
        return Ok(Some(term));
    }
    if let Some(term) = return_nothing(alloc, line, tokens)? {
        return Ok(Some(term));
    }
    if let Some(term) = return_value(alloc, line, tokens)? {
        return Ok(Some(term));
    }
    unreachable_end(alloc, line, tokens)
}
