// What a line says, by the form that its first tokens tell.
ghost use Rattle.std.specs.Prelude.{◌≡◌, ◌<◌, ◌^◌, All, IfOk, IfErr, length};
ghost use Rattle.ms_lex.specs.Line.{IsTokenOf};
ghost use Rattle.ms_line.specs.Sorts.{IsSortCause};
ghost use Rattle.ms_line.specs.Spelled.{IsFound, AreReadable, IsSaid};

use crate::fault::LineFault;
use crate::found::Said;
use crate::heads::{declare, define};
use crate::insts::{inst, term};
use crate::readable::are_readable;
use crate::shape::{Shape, shape_by_tokens};
use crate::small::{close, empty, global_var, group, kept_text_line, label};
use ms_ir::NoMemory;
use ms_lex::{LexFault, Token, tokens};
use std::alloc::Global;

// What tokens of a line say that may be read.
fn said_by_tokens(alloc: Global, line: &[u8], tokens: &[Token]) -> Result<Option<Said>, NoMemory>
    requires each { All (IsTokenOf line.now) tokens.now }
    requires readable { AreReadable line.now tokens.now }
    ensures { IfOk result (λ found. IsFound line.now tokens.now found) }
{
    match shape_by_tokens(line, tokens) {
        Shape::Empty => Ok(empty(line, tokens)),
        Shape::Close => Ok(close(line, tokens)),
        Shape::Kept => Ok(kept_text_line(alloc, line, tokens)?),
        Shape::Group => Ok(group(alloc, line, tokens)?),
        Shape::GlobalVar => Ok(global_var(alloc, line, tokens)?),
        Shape::Label => Ok(label(alloc, line, tokens)?),
        Shape::Declare => Ok(declare(alloc, line, tokens)?),
        Shape::Define => Ok(define(alloc, line, tokens)?),
        Shape::Inst => Ok(inst(alloc, line, tokens)?),
        Shape::Term => Ok(term(alloc, line, tokens)?),
    }
}

// What a line says, its names not measured.
pub fn said(alloc: Global, line: &[u8]) -> Result<Said, LineFault>
    requires { length line.now < 2 ^ 32 }
    ensures ok { IfOk result (λ said. IsSaid line.now said) }
    ensures err { IfErr result (λ fault. IsSortCause line.now fault) }
{
    let list = match tokens(alloc, line) {
        Ok(list) => list,
        Err(LexFault::Bad(_)) => return Err(LineFault::NotOfProfile),
        Err(LexFault::Memory) => return Err(LineFault::Memory),
    };
    if !are_readable(line, list.as_slice()) {
        return Err(LineFault::NotOfProfile);
    }
    match said_by_tokens(alloc, line, list.as_slice()) {
        Ok(Some(found)) => Ok(found),
        Ok(None) => Err(LineFault::NotOfProfile),
        Err(_) => Err(LineFault::Memory),
    }
}
