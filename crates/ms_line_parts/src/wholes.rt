// Whole rests of lines that are kept.
ghost use Rattle.std.specs.Prelude.{◌≡◌, ℕ, ◌<◌, ◌≤◌, ◌^◌, ◌↔◌, List, All, MatchOption, Some, None, IfOk, IfSome, IsTrue, true, false, length};
ghost use Rattle.ms_lex.specs.Line.{IsTokenOf};
ghost use Rattle.ms_grammar.specs.Kept.{AreMany, IsTailItem, IsKeptLine, IsGroupLine, IsGlobalLine};
ghost use Rattle.ms_grammar.specs.Parts.{bytes_at, texts};
ghost use Rattle.ms_line_parts.specs.Rests.{tail_length, source_line, target_line, starts_with, comdat_line, metadata_line, named_line, kept_line, group_shape, IsGlobalKind, IsKindPlace, IsVariable, global_head};

use crate::attributes::item_front;
use crate::brackets::{bracketed_front, is_balanced};
use crate::words::{bytes_of, group_at, has_kind, is_keyword};
use ms_grammar::Keyword;
use ms_ir::NoMemory;
use ms_lex::{Token, TokenKind};
use std::alloc::Global;

// How many tokens the item in front has that may stand behind an instruction.
fn tail_item(alloc: Global, line: &[u8], tokens: &[Token]) -> Result<usize, NoMemory>
    requires { All (IsTokenOf line.now) tokens.now }
    ensures is { IfOk result (λ n. n ≡ tail_length (texts line.now tokens.now)) }
    ensures within { IfOk result (λ n. n ≤ length tokens.now) }
{
    let (comma, first, second, rest) = match tokens {
        [comma, first, second, rest @ ..] => (*comma, *first, *second, rest),
        _ => return Ok(0),
    };
    if !is_keyword(line, comma, Keyword::Comma) {
        return Ok(0);
    }
    if is_keyword(line, first, Keyword::Align) && has_kind(line, second, TokenKind::Number) {
        return Ok(3);
    }
    if has_kind(line, first, TokenKind::Meta) && has_kind(line, second, TokenKind::Meta) {
        return Ok(3 + bracketed_front(alloc, line, rest, Keyword::OpenBrace, Keyword::CloseBrace)?);
    }
    Ok(0)
}

/// Whether tokens are what may stand behind an instruction.
pub fn is_tail(alloc: Global, line: &[u8], tokens: &[Token]) -> Result<bool, NoMemory>
    requires { All (IsTokenOf line.now) tokens.now }
    ensures yes { IfOk result (λ is. is ≡ true → AreMany IsTailItem (texts line.now tokens.now)) }
    ensures no { IfOk result (λ is. is ≡ false → AreMany IsTailItem (texts line.now tokens.now) → ⊥) }
{
    let mut at = 0;
    while at < tokens.len() {
        let n = tail_item(alloc, line, &tokens[at..])?;
        if n == 0 {
            return Ok(false);
        }
        at += n;
    }
    Ok(true)
}

fn is_source_line(line: &[u8], tokens: &[Token]) -> bool
    requires { All (IsTokenOf line.now) tokens.now }
    ensures { result ≡ source_line (texts line.now tokens.now) }
{
    match tokens {
        [source, equals, name] => {
            is_keyword(line, *source, Keyword::SourceFilename)
                && is_keyword(line, *equals, Keyword::Equals)
                && has_kind(line, *name, TokenKind::Quoted)
        }
        _ => false,
    }
}

fn is_target_line(line: &[u8], tokens: &[Token]) -> bool
    requires { All (IsTokenOf line.now) tokens.now }
    ensures { result ≡ target_line (texts line.now tokens.now) }
{
    match tokens {
        [target, what, equals, value] => {
            is_keyword(line, *target, Keyword::Target)
                && has_kind(line, *what, TokenKind::Word)
                && is_keyword(line, *equals, Keyword::Equals)
                && has_kind(line, *value, TokenKind::Quoted)
        }
        _ => false,
    }
}

fn starts_with(line: &[u8], token: Token, mark: u8) -> bool
    requires { IsTokenOf line.now token }
    ensures { result ≡ starts_with mark (bytes_at line.now token) }
{
    match bytes_of(line, token) {
        [first, ..] => *first == mark,
        [] => false,
    }
}

fn is_comdat_line(line: &[u8], tokens: &[Token]) -> bool
    requires { All (IsTokenOf line.now) tokens.now }
    ensures { result ≡ comdat_line (texts line.now tokens.now) }
{
    match tokens {
        [name, equals, comdat, kind] => {
            starts_with(line, *name, b'$')
                && has_kind(line, *name, TokenKind::Word)
                && is_keyword(line, *equals, Keyword::Equals)
                && is_keyword(line, *comdat, Keyword::Comdat)
                && has_kind(line, *kind, TokenKind::Word)
        }
        _ => false,
    }
}

fn is_metadata_line(alloc: Global, line: &[u8], tokens: &[Token]) -> Result<bool, NoMemory>
    requires { All (IsTokenOf line.now) tokens.now }
    ensures { IfOk result (λ is. is ≡ metadata_line (texts line.now tokens.now)) }
{
    match tokens {
        [name, equals, rest @ ..]
            if has_kind(line, *name, TokenKind::Meta)
                && is_keyword(line, *equals, Keyword::Equals) => {
            Ok(is_balanced(alloc, line, rest)?)
        }
        _ => Ok(false),
    }
}

fn is_named_line(alloc: Global, line: &[u8], tokens: &[Token]) -> Result<bool, NoMemory>
    requires { All (IsTokenOf line.now) tokens.now }
    ensures { IfOk result (λ is. is ≡ named_line (texts line.now tokens.now)) }
{
    match tokens {
        [name, equals, ty, rest @ ..]
            if has_kind(line, *name, TokenKind::Local)
                && is_keyword(line, *equals, Keyword::Equals)
                && is_keyword(line, *ty, Keyword::TypeOf) => { Ok(is_balanced(alloc, line, rest)?) }
        _ => Ok(false),
    }
}

fn is_kept(alloc: Global, line: &[u8], tokens: &[Token]) -> Result<bool, NoMemory>
    requires { All (IsTokenOf line.now) tokens.now }
    ensures { IfOk result (λ is. is ≡ kept_line (texts line.now tokens.now)) }
{
    if is_source_line(line, tokens)
        || is_target_line(line, tokens)
        || is_comdat_line(line, tokens)
    {
        return Ok(true);
    }
    if is_metadata_line(alloc, line, tokens)? {
        return Ok(true);
    }
    Ok(is_named_line(alloc, line, tokens)?)
}

/// Whether tokens are a line that says nothing of memory.
pub fn is_kept_line(alloc: Global, line: &[u8], tokens: &[Token]) -> Result<bool, NoMemory>
    requires { All (IsTokenOf line.now) tokens.now }
    ensures yes { IfOk result (λ is. is ≡ true → IsKeptLine (texts line.now tokens.now)) }
    ensures no { IfOk result (λ is. is ≡ false → IsKeptLine (texts line.now tokens.now) → ⊥) }
{
    Ok(is_kept(alloc, line, tokens)?)
}

// Whether tokens are a group's line but for its name, the second of them.
fn has_group_shape(alloc: Global, line: &[u8], tokens: &[Token]) -> Result<bool, NoMemory>
    requires { All (IsTokenOf line.now) tokens.now }
    ensures { IfOk result (λ is. is ≡ group_shape (texts line.now tokens.now)) }
{
    match tokens {
        [attributes, _, equals, rest @ ..]
            if is_keyword(line, *attributes, Keyword::Attributes)
                && is_keyword(line, *equals, Keyword::Equals) => {
            let n = bracketed_front(alloc, line, rest, Keyword::OpenBrace, Keyword::CloseBrace)?;
            Ok(n > 0 && n == rest.len())
        }
        _ => Ok(false),
    }
}

/// The number of the attribute group whose line these tokens are. Numbers of groups have at most nine digits.
pub fn group_line(alloc: Global, line: &[u8], tokens: &[Token]) -> Result<Option<u32>, NoMemory>
    requires { All (IsTokenOf line.now) tokens.now }
    ensures { IfOk result (λ found. MatchOption found ((n : ℕ) → n < 10 ^ 9 → IsGroupLine n (texts line.now tokens.now) → ⊥)
        (λ n. (n < 10 ^ 9) × IsGroupLine n (texts line.now tokens.now))) }
{
    if !has_group_shape(alloc, line, tokens)? {
        return Ok(None);
    }
    match tokens {
        [_, group, ..] => Ok(group_at(line, *group)),
        _ => Ok(None),
    }
}

// Whether a token is the word `global` or `constant`.
fn is_kind(line: &[u8], token: Token) -> bool
    requires { IsTokenOf line.now token }
    ensures { IsTrue result ↔ IsGlobalKind (bytes_at line.now token) }
{
    is_keyword(line, token, Keyword::Global) || is_keyword(line, token, Keyword::Constant)
}

// The place of the first `global` or `constant` behind attributes.
fn kind_place(alloc: Global, line: &[u8], tokens: &[Token]) -> Result<Option<usize>, NoMemory>
    requires { All (IsTokenOf line.now) tokens.now }
    ensures is { IfOk result (λ found. IsKindPlace (texts line.now tokens.now) found) }
    ensures within { IfOk result (λ found. IfSome found (λ at. at < length tokens.now)) }
{
    let mut at = 0;
    while at < tokens.len() {
        if is_kind(line, tokens[at]) {
            return Ok(Some(at));
        }
        let n = item_front(alloc, line, &tokens[at..], false)?;
        if n == 0 {
            return Ok(None);
        }
        at += n;
    }
    Ok(None)
}

// Whether tokens are what stands behind the equals sign of a global variable.
fn is_variable(alloc: Global, line: &[u8], tokens: &[Token]) -> Result<bool, NoMemory>
    requires { All (IsTokenOf line.now) tokens.now }
    ensures yes { IfOk result (λ is. is ≡ true → IsVariable (texts line.now tokens.now)) }
    ensures no { IfOk result (λ is. is ≡ false → IsVariable (texts line.now tokens.now) → ⊥) }
{
    match kind_place(alloc, line, tokens)? {
        Some(at) if at + 1 < tokens.len() => Ok(is_balanced(alloc, line, &tokens[at + 1..])?),
        _ => Ok(false),
    }
}

// Whether a global's name and an equals sign stand in front.
fn has_global_head(line: &[u8], tokens: &[Token]) -> bool
    requires { All (IsTokenOf line.now) tokens.now }
    ensures is { result ≡ global_head (texts line.now tokens.now) }
    ensures long { result ≡ true → 2 ≤ length tokens.now }
{
    match tokens {
        [name, equals, ..] => {
            starts_with(line, *name, b'@') && is_keyword(line, *equals, Keyword::Equals)
        }
        _ => false,
    }
}

/// Whether tokens are the line of a global variable; its name stands in the first token, behind its mark.
pub fn global_line(alloc: Global, line: &[u8], tokens: &[Token]) -> Result<bool, NoMemory>
    requires { All (IsTokenOf line.now) tokens.now }
    ensures yes { IfOk result (λ is. is ≡ true → (name : List ℕ) × IsGlobalLine name (texts line.now tokens.now)) }
    ensures no { IfOk result (λ is. is ≡ false → (name : List ℕ) → IsGlobalLine name (texts line.now tokens.now) → ⊥) }
{
    match tokens {
        [_, _, rest @ ..] if has_global_head(line, tokens) => Ok(is_variable(alloc, line, rest)?),
        _ => Ok(false),
    }
}
