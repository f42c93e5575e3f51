// Lines that pass a limit, where an instruction is wanted.
ghost use Rattle.std.specs.Prelude.{◌≡◌, ◌↔◌, ◌<◌, ◌^◌, IsTrue, All, IfOk, length};
ghost use Rattle.ms_lex.specs.Line.{IsTokenOf};
ghost use Rattle.ms_grammar.specs.Parts.{Spells};
ghost use Rattle.ms_grammar.specs.Form.{Scale};
ghost use Rattle.ms_grammar.specs.Fits.{FitsInst, IsNamed};
ghost use Rattle.ms_grammar.specs.declared.line.RawInst.{RawInst};
ghost use Rattle.ms_line_insts.specs.Found.{SpellInst, Tells};
ghost use Rattle.ms_line.specs.Cause.{IsPast};
ghost use Rattle.ms_line.specs.Spelled.{named_inst_parts};
ghost use Rattle.ms_line.proofs.InstLines.{OnlyInst};
ghost use Rattle.ms_read.specs.Places.{is_inst};
ghost use Rattle.ms_script.specs.Calls.{CallsAsThere};
ghost use Rattle.ms_script.specs.Lines.{IsResultName};
ghost use Rattle.ms_script.specs.Found.{SaysFitting};

use crate::call::calls_as_there;
use crate::cut::cut;
use ms_ir::{Module, Name, NoMemory};
use ms_lex::{LexFault, Token, tokens};
use ms_line::{LineFault, Sort, sort_of};
use ms_line_insts::{FoundInst, read_inst};
use ms_line_parts::local_at;
use std::alloc::Global;

fn is_inst(sort: Sort) -> bool
    ensures { result ≡ is_inst sort }
{
    match sort {
        Sort::Phi | Sort::Alloca | Sort::Other => true,
        _ => false,
    }
}

// Whether what is found of an instruction calls as it is in the module. What passes a limit of its own calls nothing.
fn found_fits(found: &FoundInst, m: &Module) -> bool
    ensures { (i : RawInst) → Tells i found.now → (IsTrue result ↔ CallsAsThere m.now i) }
{
    match found {
        FoundInst::Whole(inst) => calls_as_there(m, inst),
        FoundInst::Past(_) => true,
    }
}

// Whether the instruction that tokens spell does.
fn fits_there(alloc: Global, line: &[u8], tokens: &[Token], m: &Module) -> Result<bool, NoMemory>
    requires { All (IsTokenOf line.now) tokens.now }
    ensures { IfOk result (λ fits. (i : RawInst) → SpellInst line.now tokens.now i → (IsTrue fits ↔ CallsAsThere m.now i)) }
{
    match read_inst(alloc, line, tokens)? {
        Some(found) => Ok(found_fits(&found, m)),
        None => Ok(false),
    }
}

// The same behind an equals sign.
fn fits_behind(alloc: Global, line: &[u8], tokens: &[Token], m: &Module) -> Result<bool, NoMemory>
    requires { All (IsTokenOf line.now) tokens.now }
    ensures { IfOk result (λ fits. (s : Scale) (i : RawInst) → Spells line.now tokens.now (named_inst_parts s i) → FitsInst s i → (IsTrue fits ↔ CallsAsThere m.now i)) }
{
    match cut(line, tokens) {
        Some((_, rest)) => Ok(fits_there(alloc, line, rest, m)?),
        None => Ok(false),
    }
}

// Whether a name of the language is no word.
fn is_number(name: &Name) -> bool
    requires { IsNamed name.now }
    ensures { IsTrue result ↔ (IsResultName name.now → ⊥) }
{
    match name {
        Name::Word(_) => false,
        _ => true,
    }
}

// Whether a script may have the instruction of a line with these tokens.
fn fits_by_tokens(
    alloc: Global,
    line: &[u8],
    tokens: &[Token],
    m: &Module,
) -> Result<bool, NoMemory>
    requires { All (IsTokenOf line.now) tokens.now }
    ensures { IfOk result (λ fits. (h : OnlyInst line.now tokens.now) → (IsTrue fits ↔ (IsResultName h.name × CallsAsThere m.now h.inst))) }
{
    let Some((first, rest)) = cut(line, tokens) else {
        return Ok(false);
    };
    match local_at(alloc, line, first)? {
        Some(name) => {
            if is_number(&name) {
                return Ok(false);
            }
            Ok(fits_behind(alloc, line, rest, m)?)
        }
        None => Ok(fits_there(alloc, line, tokens, m)?),
    }
}

// Whether a line that passes a limit is an instruction that a script may have.
pub fn fits_past(alloc: Global, line: &[u8], m: &Module) -> Result<bool, NoMemory>
    requires short { length line.now < 2 ^ 32 }
    requires past { IsPast line.now }
    ensures { IfOk result (λ fits. IsTrue fits ↔ SaysFitting m.now line.now) }
{
    let sort = match sort_of(alloc, line) {
        Ok(sort) => sort,
        Err(LineFault::NotOfProfile) => return Ok(false),
        Err(LineFault::TooLong) => return Ok(false),
        Err(LineFault::Memory) => return Err(NoMemory),
    };
    if !is_inst(sort) {
        return Ok(false);
    }
    let list = match tokens(alloc, line) {
        Ok(list) => list,
        Err(LexFault::Bad(_)) => return Ok(false),
        Err(LexFault::Memory) => return Err(NoMemory),
    };
    Ok(fits_by_tokens(alloc, line, list.as_slice(), m)?)
}
