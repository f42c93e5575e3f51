// Lines of instructions and terminators.
ghost use Rattle.std.specs.Prelude.{◌≡◌, ◌↔◌, IsTrue, All, IfOk, MatchOption};
ghost use Rattle.ms_lex.specs.Line.{IsTokenOf};
ghost use Rattle.ms_ir.specs.declared.names.Name.TheVariants.{Absent};
ghost use Rattle.ms_grammar.specs.Fits.{IsMade, MayBeNamed, IsNamed};
ghost use Rattle.ms_grammar.specs.declared.line.RawInst.{RawInst};
ghost use Rattle.ms_line_insts.specs.Found.{SpellInst, Tells};
ghost use Rattle.ms_line_insts.specs.declared.found.FoundInst.TheVariants.{Past as FoundPast};
ghost use Rattle.ms_line.specs.declared.found.Said.TheVariants.{Whole, Past};
ghost use Rattle.ms_grammar.specs.declared.line.Line.TheVariants.{Inst};
ghost use Rattle.ms_line.specs.Sorts.{sort_of_inst};
ghost use Rattle.ms_line.specs.Spelled.{Finds, FindsMade, FindsNamed};

use crate::cut::{behind, cut, starts_with};
use crate::found::Said;
use crate::shape::Shape;
use crate::sort::Sort;
use ms_grammar::{Keyword, Line, RawInst};
use ms_ir::{Name, NoMemory};
use ms_lex::Token;
use ms_line_insts::{FoundInst, read_inst, read_term};
use ms_line_parts::local_at;
use std::alloc::Global;

fn is_absent(name: &Name) -> bool
    ensures { IsTrue result ↔ (name.now ≡ Absent) }
{
    match name {
        Name::Absent => true,
        _ => false,
    }
}

// Whether an instruction may have this for the name of its result.
fn is_made(name: &Name, inst: &RawInst) -> bool
    requires { MayBeNamed name.now }
    ensures { IsTrue result ↔ IsMade name.now inst.now }
{
    match inst {
        RawInst::Store { .. } | RawInst::Copy { .. } | RawInst::Call { ret: None, .. } => {
            is_absent(name)
        }
        RawInst::Call { .. } => true,
        _ => !is_absent(name),
    }
}

// An instruction of which all is known, if it may have this for the name of its result.
fn whole(name: Name, inst: RawInst) -> Option<Said>
    requires { MayBeNamed name }
    ensures { MatchOption result (IsMade name inst → ⊥) (λ said. IsMade name inst × (said ≡ Whole (Inst name inst))) }
{
    if is_made(&name, &inst) {
        Some(Said::Whole(Line::Inst(name, inst)))
    } else {
        None
    }
}

// An instruction that passes a limit, if it may have this for the name of its result: only allocas, getelementptrs and memcpys
// have limits, and a memcpy has no name.
fn past(line: &[u8], tokens: &[Token], name: &Name, alloca: bool) -> Option<Said>
    requires each { All (IsTokenOf line.now) tokens.now }
    requires named { MayBeNamed name.now }
    ensures { (inst : RawInst) → SpellInst line.now tokens.now inst → Tells inst (FoundPast alloca)
        → MatchOption result (IsMade name.now inst → ⊥) (λ said. IsMade name.now inst × (said ≡ Past (sort_of_inst inst))) }
{
    if alloca {
        if is_absent(name) {
            return None;
        }
        return Some(Said::Past(Sort::Alloca));
    }
    if starts_with(line, tokens, Keyword::Getelementptr) {
        if is_absent(name) {
            return None;
        }
        return Some(Said::Past(Sort::Other));
    }
    if is_absent(name) {
        return Some(Said::Past(Sort::Other));
    }
    None
}

// What an instruction says whose result has this name.
fn made(alloc: Global, line: &[u8], name: Name, tokens: &[Token]) -> Result<Option<Said>, NoMemory>
    requires each { All (IsTokenOf line.now) tokens.now }
    requires named { MayBeNamed name }
    ensures { IfOk result (λ found. FindsMade name line.now tokens.now found) }
{
    match read_inst(alloc, line, tokens)? {
        Some(FoundInst::Whole(inst)) => Ok(whole(name, inst)),
        Some(FoundInst::Past(alloca)) => Ok(past(line, tokens, &name, alloca)),
        None => Ok(None),
    }
}

// What stands behind the name of a result: an equals sign and an instruction.
fn named(alloc: Global, line: &[u8], name: Name, tokens: &[Token]) -> Result<Option<Said>, NoMemory>
    requires each { All (IsTokenOf line.now) tokens.now }
    requires named { IsNamed name }
    ensures { IfOk result (λ found. FindsNamed name line.now tokens.now found) }
{
    if !starts_with(line, tokens, Keyword::Equals) {
        return Ok(None);
    }
    Ok(made(alloc, line, name, behind(line, tokens, 1))?)
}

pub fn inst(alloc: Global, line: &[u8], tokens: &[Token]) -> Result<Option<Said>, NoMemory>
    requires { All (IsTokenOf line.now) tokens.now }
    ensures { IfOk result (λ found. Finds Shape.Inst line.now tokens.now found) }
{
    let Some((first, rest)) = cut(line, tokens) else {
        return Ok(None);
    };
    match local_at(alloc, line, first)? {
        Some(name) => Ok(named(alloc, line, name, rest)?),
        None => Ok(made(alloc, line, Name::Absent, tokens)?),
    }
}

pub fn term(alloc: Global, line: &[u8], tokens: &[Token]) -> Result<Option<Said>, NoMemory>
    requires { All (IsTokenOf line.now) tokens.now }
    ensures { IfOk result (λ found. Finds Shape.Term line.now tokens.now found) }
{
    match read_term(alloc, line, tokens)? {
        Some(term) => Ok(Some(Said::Whole(Line::Term(term)))),
        None => Ok(None),
    }
}
