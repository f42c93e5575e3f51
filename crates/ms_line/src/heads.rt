// The lines of functions.
ghost use Rattle.std.specs.Prelude.{◌≡◌, ◌≢◌, ◌↔◌, false, All, IfOk, IsTrue, MatchOption, Option};
ghost use Rattle.ms_lex.specs.Line.{IsTokenOf};
ghost use Rattle.ms_ir.specs.declared.names.Ty.{Ty};
ghost use Rattle.ms_grammar.specs.Parts.{bytes_at, result_word};
ghost use Rattle.ms_grammar.specs.Fits.{IsResult};
ghost use Rattle.ms_line.specs.Spelled.{Finds};
ghost use Rattle.ms_line.specs.Heads.{NoSignature, IsSignature, NoFront, IsFront, NoHead, IsHead};

use crate::cut::{before, behind, cut, global_text, is_end, starts_with};
use crate::found::Said;
use crate::params::{FoundParams, params};
use crate::shape::Shape;
use ms_grammar::{Head, Keyword, Line};
use ms_ir::{NoMemory, Text, Ty};
use ms_lex::Token;
use ms_line_parts::{attributes_front, is_keyword, kept, post_front, type_at};
use std::alloc::Global;

// What a function gives, and its name.
#[derive(Drop)]
pub struct Signature {
    pub ret: Option<Ty>,
    pub name: Text,
}

// The line of a function up to its opening parenthesis, and how many tokens spell that.
#[derive(Drop)]
pub struct Front {
    pub attrs: Text,
    pub signature: Signature,
    pub taken: usize,
}

// The line of a function up to its last attribute, and how many tokens spell that.
#[derive(Drop)]
pub struct FoundHead {
    pub head: Head,
    pub taken: usize,
}

// What a function gives by the word for it.
fn result_at(line: &[u8], token: Token) -> Option<Option<Ty>>
    requires { IsTokenOf line.now token }
    ensures { MatchOption result ((ret : Option Ty) → bytes_at line.now token ≢ result_word ret) (λ ret. bytes_at line.now token ≡ result_word ret) }
{
    if is_keyword(line, token, Keyword::Void) {
        return Some(None);
    }
    match type_at(line, token) {
        Some(ty) => Some(Some(ty)),
        None => None,
    }
}

// The three tokens from the word for what a function gives to its opening parenthesis.
fn signature_at(alloc: Global, line: &[u8], tokens: &[Token]) -> Result<Option<Signature>, NoMemory>
    requires { All (IsTokenOf line.now) tokens.now }
    ensures { IfOk result (λ found. MatchOption found (NoSignature line.now tokens.now) (IsSignature line.now tokens.now)) }
{
    let Some((first, rest)) = cut(line, tokens) else {
        return Ok(None);
    };
    let Some(ret) = result_at(line, first) else {
        return Ok(None);
    };
    let Some((second, behind)) = cut(line, rest) else {
        return Ok(None);
    };
    if !starts_with(line, behind, Keyword::Open) {
        return Ok(None);
    }
    match global_text(alloc, line, second)? {
        Some(name) => Ok(Some(Signature { ret, name })),
        None => Ok(None),
    }
}

// The line of a function up to its opening parenthesis.
fn front_at(
    alloc: Global,
    line: &[u8],
    tokens: &[Token],
    keyword: Keyword,
) -> Result<Option<Front>, NoMemory>
    requires { All (IsTokenOf line.now) tokens.now }
    ensures { IfOk result (λ found. MatchOption found (NoFront keyword line.now tokens.now) (IsFront keyword line.now tokens.now)) }
{
    if !starts_with(line, tokens, keyword) {
        return Ok(None);
    }
    let rest = behind(line, tokens, 1);
    let attributes = attributes_front(alloc, line, rest)?;
    let attrs = kept(alloc, line, before(line, rest, attributes))?;
    match signature_at(alloc, line, behind(line, rest, attributes))? {
        Some(signature) => Ok(Some(Front {
            attrs,
            signature,
            taken: attributes + 4,
        })),
        None => Ok(None),
    }
}

// The line of a function up to its last attribute.
fn head_at(
    alloc: Global,
    line: &[u8],
    tokens: &[Token],
    keyword: Keyword,
) -> Result<Option<FoundHead>, NoMemory>
    requires { All (IsTokenOf line.now) tokens.now }
    ensures { IfOk result (λ found. MatchOption found (NoHead keyword line.now tokens.now) (IsHead keyword line.now tokens.now)) }
{
    let Some(front) = front_at(alloc, line, tokens, keyword)? else {
        return Ok(None);
    };
    let inner = behind(line, tokens, front.taken);
    let Some(list) = params(alloc, line, inner)? else {
        return Ok(None);
    };
    let rest = behind(line, inner, list.taken);
    let attributes = post_front(alloc, line, rest)?;
    let post = kept(alloc, line, before(line, rest, attributes))?;
    let Front {
        attrs,
        signature,
        taken: before,
    } = front;
    let Signature { ret, name } = signature;
    let FoundParams {
        params,
        variadic,
        taken: among,
    } = list;
    Ok(Some(FoundHead {
        head: Head {
            attrs,
            ret,
            name,
            params,
            variadic,
            post,
        },
        taken: before + among + attributes,
    }))
}

pub fn declare(alloc: Global, line: &[u8], tokens: &[Token]) -> Result<Option<Said>, NoMemory>
    requires { All (IsTokenOf line.now) tokens.now }
    ensures { IfOk result (λ found. Finds Shape.Declare line.now tokens.now found) }
{
    let Some(found) = head_at(alloc, line, tokens, Keyword::Declare)? else {
        return Ok(None);
    };
    let FoundHead { head, taken } = found;
    if !is_end(behind(line, tokens, taken)) {
        return Ok(None);
    }
    Ok(Some(Said::Whole(Line::Declare(head))))
}

// Whether a function with this line may have blocks: it gives no pointer, and has no dots.
fn may_be_defined(head: &Head) -> bool
    ensures { IsTrue result ↔ (IsResult head.now.ret × (head.now.variadic ≡ false)) }
{
    match head.ret {
        Some(Ty::Ptr) => false,
        _ => !head.variadic,
    }
}

pub fn define(alloc: Global, line: &[u8], tokens: &[Token]) -> Result<Option<Said>, NoMemory>
    requires { All (IsTokenOf line.now) tokens.now }
    ensures { IfOk result (λ found. Finds Shape.Define line.now tokens.now found) }
{
    let Some(found) = head_at(alloc, line, tokens, Keyword::Define)? else {
        return Ok(None);
    };
    let FoundHead { head, taken } = found;
    let rest = behind(line, tokens, taken);
    if !starts_with(line, rest, Keyword::OpenBrace) {
        return Ok(None);
    }
    if !is_end(behind(line, rest, 1)) {
        return Ok(None);
    }
    if !may_be_defined(&head) {
        return Ok(None);
    }
    Ok(Some(Said::Whole(Line::Define(head))))
}
