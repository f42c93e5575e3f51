// Instructions that a script inserts.
ghost use Rattle.std.specs.Prelude.{◌≡◌, ◌↔◌, ◌<◌, ◌≤◌, ◌^◌, IsTrue, All, IfOk, IfErr, MatchOption, drop, length};
ghost use Rattle.ms_lex.specs.Line.{IsTokenOf};
ghost use Rattle.ms_grammar.specs.Grammar.{Says};
ghost use Rattle.ms_grammar.specs.Limits.{IsWithinLimits};
ghost use Rattle.ms_grammar.specs.declared.line.Line.TheVariants.{Inst};
ghost use Rattle.ms_line.specs.declared.fault.LineFault.TheVariants.{NotOfProfile};
ghost use Rattle.ms_script.specs.Lines.{IsResultName, IsInserted};
ghost use Rattle.ms_script.specs.Calls.{CallsAsThere};
ghost use Rattle.ms_script.specs.Found.{IsFittingInst, IsNoInst, InstCause, InsertedCause};

use crate::call::calls_as_there;
use crate::cut::cut;
use crate::past::fits_past;
use ms_grammar::{Keyword, Line, RawInst};
use ms_ir::{Module, Name, NoMemory};
use ms_lex::Token;
use ms_line::{LineFault, read_line};
use ms_line_parts::is_keyword;
use std::alloc::Global;

// An instruction, with the name of its result.
#[derive(Drop)]
pub struct Made {
    pub name: Name,
    pub inst: RawInst,
}

fn is_result_name(name: &Name) -> bool
    ensures { IsTrue result ↔ IsResultName name.now }
{
    match name {
        Name::Word(_) | Name::Absent => true,
        Name::Number(_) => false,
    }
}

// Whether a line is an instruction that a script may have.
fn is_fitting(line: &Line, m: &Module) -> bool
    ensures { IsTrue result ↔ IsFittingInst m.now line.now }
{
    match line {
        Line::Inst(name, inst) => is_result_name(name) && calls_as_there(m, inst),
        _ => false,
    }
}

// The instruction of a line.
fn made_of(line: Line) -> Option<Made>
    ensures { MatchOption result (IsNoInst line) (λ made. line ≡ Inst made.name made.inst) }
{
    match line {
        Line::Inst(name, inst) => Some(Made { name, inst }),
        _ => None,
    }
}

// The instruction of a line that is read, where a script may have it.
fn fitting_of(line: Line, m: &Module) -> Result<Made, LineFault>
    ensures ok { IfOk result (λ made. IsFittingInst m.now line × (line ≡ Inst made.name made.inst)) }
    ensures err { IfErr result (λ fault. (fault ≡ NotOfProfile) × (IsFittingInst m.now line → ⊥)) }
{
    if !is_fitting(&line, m) {
        return Err(LineFault::NotOfProfile);
    }
    match made_of(line) {
        Some(made) => Ok(made),
        None => Err(LineFault::NotOfProfile),
    }
}

// What a line says, where it is an instruction that a script may have.
fn inst_of(alloc: Global, line: &[u8], m: &Module) -> Result<Made, LineFault>
    requires { length line.now < 2 ^ 32 }
    ensures ok { IfOk result (λ made. Says line.now (Inst made.name made.inst) × IsFittingInst m.now (Inst made.name made.inst) × IsWithinLimits (Inst made.name made.inst)) }
    ensures err { IfErr result (λ fault. InstCause m.now line.now fault) }
{
    match read_line(alloc, line) {
        Ok(said) => fitting_of(said, m),
        Err(LineFault::NotOfProfile) => Err(LineFault::NotOfProfile),
        Err(LineFault::Memory) => Err(LineFault::Memory),
        Err(LineFault::TooLong) => match fits_past(alloc, line, m) {
            Ok(true) => Err(LineFault::TooLong),
            Ok(false) => Err(LineFault::NotOfProfile),
            Err(_) => Err(LineFault::Memory),
        },
    }
}

// The bytes of a line behind a token.
fn behind(line: &[u8], token: Token) -> &[u8]
    requires { IsTokenOf line.now token }
    ensures value { result.now ≡ drop token.to line.now }
    ensures shorter { length result.now ≤ length line.now }
{
    &line[token.to as usize..]
}

/// The instruction behind a colon.
pub fn inserted(alloc: Global, line: &[u8], tokens: &[Token], m: &Module) -> Result<Made, LineFault>
    requires short { length line.now < 2 ^ 32 }
    requires each { All (IsTokenOf line.now) tokens.now }
    ensures ok { IfOk result (λ made. IsInserted m.now line.now tokens.now made.inst made.name × IsWithinLimits (Inst made.name made.inst)) }
    ensures err { IfErr result (λ fault. InsertedCause m.now line.now tokens.now fault) }
{
    let Some((colon, _)) = cut(line, tokens) else {
        return Err(LineFault::NotOfProfile);
    };
    if !is_keyword(line, colon, Keyword::Colon) {
        return Err(LineFault::NotOfProfile);
    }
    inst_of(alloc, behind(line, colon), m)
}
