// Lines without values: empty, closing, kept, groups, global variables and labels.
ghost use Rattle.std.specs.Prelude.{◌≡◌, ◌≢◌, ◌∷◌, ℕ, true, List, All, IfOk, MatchOption};
ghost use Rattle.ms_lex.specs.Kinds.{is_word};
ghost use Rattle.ms_grammar.specs.Parts.{texts};
ghost use Rattle.ms_lex.specs.Line.{IsTokenOf};
ghost use Rattle.ms_line.specs.Spelled.{Finds, AreReadable};

use crate::cut::{behind, cut, global_text, is_end, starts_with};
use crate::found::Said;
use crate::shape::Shape;
use ms_grammar::{Keyword, Line};
use ms_ir::{NoMemory, Text};
use ms_lex::Token;
use ms_line_parts::{bytes_of, global_line, group_line, is_kept_line, kept, name_of};
use std::alloc::Global;

pub fn empty(line: &[u8], tokens: &[Token]) -> Option<Said>
    ensures { Finds Shape.Empty line.now tokens.now result }
{
    if is_end(tokens) {
        Some(Said::Whole(Line::Empty))
    } else {
        None
    }
}

pub fn close(line: &[u8], tokens: &[Token]) -> Option<Said>
    requires { All (IsTokenOf line.now) tokens.now }
    ensures { Finds Shape.Close line.now tokens.now result }
{
    if !starts_with(line, tokens, Keyword::CloseBrace) {
        return None;
    }
    if !is_end(behind(line, tokens, 1)) {
        return None;
    }
    Some(Said::Whole(Line::Close))
}

pub fn kept_text_line(
    alloc: Global,
    line: &[u8],
    tokens: &[Token],
) -> Result<Option<Said>, NoMemory>
    requires { All (IsTokenOf line.now) tokens.now }
    ensures { IfOk result (λ found. Finds Shape.Kept line.now tokens.now found) }
{
    if !is_kept_line(alloc, line, tokens)? {
        return Ok(None);
    }
    let text = kept(alloc, line, tokens)?;
    Ok(Some(Said::Whole(Line::Kept(text))))
}

pub fn group(alloc: Global, line: &[u8], tokens: &[Token]) -> Result<Option<Said>, NoMemory>
    requires each { All (IsTokenOf line.now) tokens.now }
    requires readable { AreReadable line.now tokens.now }
    ensures { IfOk result (λ found. Finds Shape.Group line.now tokens.now found) }
{
    match group_line(alloc, line, tokens)? {
        Some(number) => {
            let text = kept(alloc, line, tokens)?;
            Ok(Some(Said::Whole(Line::Group(number, text))))
        }
        None => Ok(None),
    }
}

// The name that stands first, behind its mark.
fn first_global(alloc: Global, line: &[u8], tokens: &[Token]) -> Result<Option<Text>, NoMemory>
    requires { All (IsTokenOf line.now) tokens.now }
    ensures { IfOk result (λ found. MatchOption found ((name : List ℕ) (ts : List (List ℕ)) → texts line.now tokens.now ≢ (64 ∷ name) ∷ ts)
        (λ name. ((ts : List (List ℕ)) × (texts line.now tokens.now ≡ (64 ∷ name) ∷ ts)) × (is_word name ≡ true))) }
{
    match cut(line, tokens) {
        Some((first, _)) => Ok(global_text(alloc, line, first)?),
        None => Ok(None),
    }
}

pub fn global_var(alloc: Global, line: &[u8], tokens: &[Token]) -> Result<Option<Said>, NoMemory>
    requires { All (IsTokenOf line.now) tokens.now }
    ensures { IfOk result (λ found. Finds Shape.GlobalVar line.now tokens.now found) }
{
    if !global_line(alloc, line, tokens)? {
        return Ok(None);
    }
    match first_global(alloc, line, tokens)? {
        Some(name) => {
            let text = kept(alloc, line, tokens)?;
            Ok(Some(Said::Whole(Line::GlobalVar(name, text))))
        }
        None => Ok(None),
    }
}

pub fn label(alloc: Global, line: &[u8], tokens: &[Token]) -> Result<Option<Said>, NoMemory>
    requires { All (IsTokenOf line.now) tokens.now }
    ensures { IfOk result (λ found. Finds Shape.Label line.now tokens.now found) }
{
    let Some((first, rest)) = cut(line, tokens) else {
        return Ok(None);
    };
    if !starts_with(line, rest, Keyword::Colon) {
        return Ok(None);
    }
    if !is_end(behind(line, rest, 1)) {
        return Ok(None);
    }
    match name_of(alloc, bytes_of(line, first))? {
        Some(name) => Ok(Some(Said::Whole(Line::Label(name)))),
        None => Ok(None),
    }
}
