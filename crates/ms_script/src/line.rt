// What a line of a script says.
ghost use Rattle.std.specs.Prelude.{◌≡◌, ◌<◌, ◌^◌, ◌↔◌, IsTrue, All, IfOk, IfErr, length};
ghost use Rattle.ms_lex.specs.Line.{IsTokenOf, IsTokens};
ghost use Rattle.ms_grammar.specs.Form.{name_text};
ghost use Rattle.ms_line.specs.Short.{is_short};
ghost use Rattle.ms_line.specs.declared.fault.LineFault.TheVariants.{TooLong};
ghost use Rattle.ms_script.specs.Lines.{SaysEdit, IsSmall, IsSmallEdit};
ghost use Rattle.ms_script.specs.Ends.{IsEnded, IsSmallInside, AreShortBlocks, EndCause, IsSpotted, SpotCause, LineCause};

use crate::cut::is_end;
use crate::edit::RawEdit;
use crate::front::{Spot, front_at, spot_at, target_at};
use crate::inserted::{Made, inserted};
use crate::verb::Verb;
use ms_ir::{FuncNo, Module, Name};
use ms_lex::{LexFault, Token, tokens};
use ms_line::LineFault;
use std::alloc::Global;

const MOST_BYTES: usize = 255;

// A number is printed with few digits.
#[tactic(auto, using(ms_line::proofs::ShortLemmas::short_number))]
fn is_short_name(name: &Name) -> bool
    ensures { result ≡ is_short (name_text name.now) }
{
    match name {
        Name::Word(text) => text.len() <= MOST_BYTES,
        Name::Number(_) | Name::Absent => true,
    }
}

fn are_short_blocks(edit: &RawEdit) -> bool
    ensures { IsTrue result ↔ AreShortBlocks edit.now }
{
    match edit {
        RawEdit::Insert { block, .. } => is_short_name(block),
        RawEdit::Remove { block, .. } => is_short_name(block),
        RawEdit::Move {
            block,
            to_block,
            ..
        } => is_short_name(block) && is_short_name(to_block),
        RawEdit::Unlink { block, .. } => is_short_name(block),
    }
}

fn insert_at(
    alloc: Global,
    line: &[u8],
    block: Name,
    number: u32,
    rest: &[Token],
    m: &Module,
) -> Result<RawEdit, LineFault>
    requires short { length line.now < 2 ^ 32 }
    requires each { All (IsTokenOf line.now) rest.now }
    ensures ok { IfOk result (λ e. IsEnded m.now line.now Verb.Insert block number rest.now e × IsSmallInside e) }
    ensures err { IfErr result (λ fault. EndCause m.now line.now Verb.Insert block number rest.now fault) }
{
    match inserted(alloc, line, rest, m) {
        Ok(Made { name, inst }) => Ok(RawEdit::Insert {
            block,
            place: number,
            inst,
            name,
        }),
        Err(fault) => Err(fault),
    }
}

fn remove_at(
    line: &[u8],
    block: Name,
    number: u32,
    rest: &[Token],
    m: &Module,
) -> Result<RawEdit, LineFault>
    ensures ok { IfOk result (λ e. IsEnded m.now line.now Verb.Remove block number rest.now e × IsSmallInside e) }
    ensures err { IfErr result (λ fault. EndCause m.now line.now Verb.Remove block number rest.now fault) }
{
    if is_end(rest) {
        Ok(RawEdit::Remove {
            block,
            place: number,
        })
    } else {
        Err(LineFault::NotOfProfile)
    }
}

fn move_at(
    alloc: Global,
    line: &[u8],
    block: Name,
    number: u32,
    rest: &[Token],
    m: &Module,
) -> Result<RawEdit, LineFault>
    requires { All (IsTokenOf line.now) rest.now }
    ensures ok { IfOk result (λ e. IsEnded m.now line.now Verb.Move block number rest.now e × IsSmallInside e) }
    ensures err { IfErr result (λ fault. EndCause m.now line.now Verb.Move block number rest.now fault) }
{
    match target_at(alloc, line, rest) {
        Ok(Some((to_block, to_place))) => Ok(RawEdit::Move {
            block,
            place: number,
            to_block,
            to_place,
        }),
        Ok(None) => Err(LineFault::NotOfProfile),
        Err(_) => Err(LineFault::Memory),
    }
}

fn unlink_at(
    line: &[u8],
    block: Name,
    number: u32,
    rest: &[Token],
    m: &Module,
) -> Result<RawEdit, LineFault>
    ensures ok { IfOk result (λ e. IsEnded m.now line.now Verb.Unlink block number rest.now e × IsSmallInside e) }
    ensures err { IfErr result (λ fault. EndCause m.now line.now Verb.Unlink block number rest.now fault) }
{
    if is_end(rest) {
        Ok(RawEdit::Unlink {
            block,
            slot: number,
        })
    } else {
        Err(LineFault::NotOfProfile)
    }
}

// The edit of this word, block and number, its blocks not measured.
fn end_at(
    alloc: Global,
    line: &[u8],
    verb: Verb,
    block: Name,
    number: u32,
    rest: &[Token],
    m: &Module,
) -> Result<RawEdit, LineFault>
    requires short { length line.now < 2 ^ 32 }
    requires each { All (IsTokenOf line.now) rest.now }
    ensures ok { IfOk result (λ e. IsEnded m.now line.now verb block number rest.now e × IsSmallInside e) }
    ensures err { IfErr result (λ fault. EndCause m.now line.now verb block number rest.now fault) }
{
    match verb {
        Verb::Insert => insert_at(alloc, line, block, number, rest, m),
        Verb::Remove => remove_at(line, block, number, rest, m),
        Verb::Move => move_at(alloc, line, block, number, rest, m),
        Verb::Unlink => unlink_at(line, block, number, rest, m),
    }
}

// An edit, where the names of its blocks are short.
fn measured(edit: RawEdit) -> Result<RawEdit, LineFault>
    ensures ok { IfOk result (λ e. (e ≡ edit) × AreShortBlocks edit) }
    ensures err { IfErr result (λ fault. (fault ≡ TooLong) × (AreShortBlocks edit → ⊥)) }
{
    if are_short_blocks(&edit) {
        Ok(edit)
    } else {
        Err(LineFault::TooLong)
    }
}

// The edit of this word, block and number.
fn small_end_at(
    alloc: Global,
    line: &[u8],
    verb: Verb,
    block: Name,
    number: u32,
    rest: &[Token],
    m: &Module,
) -> Result<RawEdit, LineFault>
    requires short { length line.now < 2 ^ 32 }
    requires each { All (IsTokenOf line.now) rest.now }
    ensures ok { IfOk result (λ e. IsEnded m.now line.now verb block number rest.now e × IsSmallEdit e) }
    ensures err { IfErr result (λ fault. EndCause m.now line.now verb block number rest.now fault) }
{
    match end_at(alloc, line, verb, block, number, rest, m) {
        Ok(edit) => measured(edit),
        Err(fault) => Err(fault),
    }
}

// The edit of this word, whose block and number stand first.
fn edit_at(
    alloc: Global,
    line: &[u8],
    verb: Verb,
    tokens: &[Token],
    m: &Module,
) -> Result<RawEdit, LineFault>
    requires short { length line.now < 2 ^ 32 }
    requires each { All (IsTokenOf line.now) tokens.now }
    ensures ok { IfOk result (λ e. IsSpotted m.now line.now verb tokens.now e × IsSmallEdit e) }
    ensures err { IfErr result (λ fault. SpotCause m.now line.now verb tokens.now fault) }
{
    match spot_at(alloc, line, tokens) {
        Ok(
            Some(
                Spot {
                    block,
                    number,
                    rest,
                },
            ),
        ) => small_end_at(alloc, line, verb, block, number, rest, m),
        Ok(None) => Err(LineFault::NotOfProfile),
        Err(_) => Err(LineFault::Memory),
    }
}

// What tokens of a line say.
fn said_by(
    alloc: Global,
    line: &[u8],
    tokens: &[Token],
    m: &Module,
) -> Result<Option<(FuncNo, RawEdit)>, LineFault>
    requires short { length line.now < 2 ^ 32 }
    requires each { All (IsTokenOf line.now) tokens.now }
    requires all { IsTokens line.now tokens.now }
    ensures ok { IfOk result (λ one. SaysEdit m.now line.now one × IsSmall one) }
    ensures err { IfErr result (λ fault. LineCause m.now line.now fault) }
{
    if is_end(tokens) {
        return Ok(None);
    }
    match front_at(line, tokens, m) {
        Some(front) => match edit_at(alloc, line, front.verb, front.rest, m) {
            Ok(edit) => Ok(Some((front.func, edit))),
            Err(fault) => Err(fault),
        },
        None => Err(LineFault::NotOfProfile),
    }
}

/// What a line of a script says: nothing, or an edit of a function. `NotOfProfile` comes exactly where it is no line of a script,
/// `TooLong` exactly where it is one and passes a limit.
pub fn said(alloc: Global, line: &[u8], m: &Module) -> Result<Option<(FuncNo, RawEdit)>, LineFault>
    requires { length line.now < 2 ^ 32 }
    ensures ok { IfOk result (λ one. SaysEdit m.now line.now one × IsSmall one) }
    ensures err { IfErr result (λ fault. LineCause m.now line.now fault) }
{
    let list = match tokens(alloc, line) {
        Ok(list) => list,
        Err(LexFault::Bad(_)) => return Err(LineFault::NotOfProfile),
        Err(LexFault::Memory) => return Err(LineFault::Memory),
    };
    said_by(alloc, line, list.as_slice(), m)
}
