// Groups of parts that several forms share.
ghost use Rattle.std.specs.Prelude.{◌≡◌, ◌∷◌, ◌++◌, [], ℕ, List, true, false, All, IfOk, MatchOption};
ghost use Rattle.ms_lex.specs.Line.{IsTokenOf};
ghost use Rattle.ms_ir.specs.declared.names.Ty.TheVariants.{I1};
ghost use Rattle.ms_grammar.specs.Form.{word_part, type_part, value_part, local_part, typed_parts, comma_parts, target_parts};
ghost use Rattle.ms_grammar.specs.Parts.{blank, kept, tail};
ghost use Rattle.ms_grammar.specs.Fits.{IsInt, IsNamed, IsValue};
ghost use Rattle.ms_line_insts.specs.Front.{Spelt, NoLead, Leads, NoFront, Front, Always, IsTyped, typed, further_typed_parts};
ghost use Rattle.ms_line_insts.specs.Ends.{NoEnd, End, Tailed, tailed, IsNumber, IsPair, further_value_parts, further_given_parts, pair_end_parts, type_lead_parts, condition_parts};

use crate::steps::{behind_word, local_front, type_front, value_front};
use ms_grammar::{Keyword, RawVal};
use ms_ir::{Name, NoMemory, Text, Ty};
use ms_lex::Token;
use std::alloc::Global;

// What is behind a word that a blank follows where it is printed.
pub fn behind_lead<'a>(line: &[u8], tokens: &'a [Token], keyword: Keyword) -> Option<&'a [Token]>
    requires { All (IsTokenOf line.now) tokens.now }
    ensures { MatchOption result (NoLead (word_part keyword ∷ blank ∷ []) line.now tokens.now)
        (λ rest. Leads (word_part keyword ∷ blank ∷ []) line.now tokens.now rest.now) }
{
    behind_word(line, tokens, keyword)
}

pub fn same_type(a: Ty, b: Ty) -> bool
    ensures yes { result ≡ true → a ≡ b }
    ensures no { result ≡ false → a ≡ b → ⊥ }
{
    a == b
}

// Whether a type is one of numbers.
pub fn is_number(ty: Ty) -> bool
    ensures yes { result ≡ true → IsInt ty }
    ensures no { result ≡ false → IsInt ty → ⊥ }
{
    match ty {
        Ty::Ptr => false,
        _ => true,
    }
}

// What is behind a type that is known.
pub fn behind_type<'a>(line: &[u8], tokens: &'a [Token], ty: Ty) -> Option<&'a [Token]>
    requires { All (IsTokenOf line.now) tokens.now }
    ensures { MatchOption result (NoLead (type_part ty ∷ blank ∷ []) line.now tokens.now)
        (λ rest. Leads (type_part ty ∷ blank ∷ []) line.now tokens.now rest.now) }
{
    let Some((found, rest)) = type_front(line, tokens) else {
        return None;
    };
    if same_type(found, ty) {
        Some(rest)
    } else {
        None
    }
}

// A value behind its type.
pub fn typed_front<'a>(
    alloc: Global,
    line: &[u8],
    tokens: &'a [Token],
) -> Result<Option<((Ty, RawVal), &'a [Token])>, NoMemory>
    requires { All (IsTokenOf line.now) tokens.now }
    ensures { IfOk result (λ found. MatchOption found (NoFront IsTyped typed line.now tokens.now)
        (λ f. Front IsTyped typed line.now tokens.now f.0 f.1.now)) }
{
    let Some((ty, behind)) = type_front(line, tokens) else {
        return Ok(None);
    };
    match value_front(alloc, line, behind, ty)? {
        Some((val, rest)) => Ok(Some(((ty, val), rest))),
        None => Ok(None),
    }
}

// A value behind a type that is known.
pub fn given_front<'a>(
    alloc: Global,
    line: &[u8],
    tokens: &'a [Token],
    ty: Ty,
) -> Result<Option<(RawVal, &'a [Token])>, NoMemory>
    requires { All (IsTokenOf line.now) tokens.now }
    ensures { IfOk result (λ found. MatchOption found (NoFront (IsValue ty) (λ v. typed_parts ty v) line.now tokens.now)
        (λ f. Front (IsValue ty) (λ v. typed_parts ty v) line.now tokens.now f.0 f.1.now)) }
{
    let Some(behind) = behind_type(line, tokens, ty) else {
        return Ok(None);
    };
    value_front(alloc, line, behind, ty)
}

// A further value behind a type that is known.
pub fn further_given<'a>(
    alloc: Global,
    line: &[u8],
    tokens: &'a [Token],
    ty: Ty,
) -> Result<Option<(RawVal, &'a [Token])>, NoMemory>
    requires { All (IsTokenOf line.now) tokens.now }
    ensures { IfOk result (λ found. MatchOption found (NoFront (IsValue ty) (λ v. comma_parts ++ typed_parts ty v) line.now tokens.now)
        (λ f. Front (IsValue ty) (λ v. comma_parts ++ typed_parts ty v) line.now tokens.now f.0 f.1.now)) }
{
    let Some(behind) = behind_lead(line, tokens, Keyword::Comma) else {
        return Ok(None);
    };
    given_front(alloc, line, behind, ty)
}

// A further value behind its type.
pub fn further_typed<'a>(
    alloc: Global,
    line: &[u8],
    tokens: &'a [Token],
) -> Result<Option<((Ty, RawVal), &'a [Token])>, NoMemory>
    requires { All (IsTokenOf line.now) tokens.now }
    ensures { IfOk result (λ found. MatchOption found (NoFront IsTyped further_typed_parts line.now tokens.now)
        (λ f. Front IsTyped further_typed_parts line.now tokens.now f.0 f.1.now)) }
{
    let Some(behind) = behind_lead(line, tokens, Keyword::Comma) else {
        return Ok(None);
    };
    typed_front(alloc, line, behind)
}

// A further value of a type that was named before.
pub fn further_value<'a>(
    alloc: Global,
    line: &[u8],
    tokens: &'a [Token],
    ty: Ty,
) -> Result<Option<(RawVal, &'a [Token])>, NoMemory>
    requires { All (IsTokenOf line.now) tokens.now }
    ensures { IfOk result (λ found. MatchOption found (NoFront (IsValue ty) (λ v. comma_parts ++ value_part v ∷ []) line.now tokens.now)
        (λ f. Front (IsValue ty) (λ v. comma_parts ++ value_part v ∷ []) line.now tokens.now f.0 f.1.now)) }
{
    let Some(behind) = behind_lead(line, tokens, Keyword::Comma) else {
        return Ok(None);
    };
    value_front(alloc, line, behind, ty)
}

// A block to branch to.
pub fn target_front<'a>(
    alloc: Global,
    line: &[u8],
    tokens: &'a [Token],
) -> Result<Option<(Name, &'a [Token])>, NoMemory>
    requires { All (IsTokenOf line.now) tokens.now }
    ensures { IfOk result (λ found. MatchOption found (NoFront IsNamed (λ n. target_parts n) line.now tokens.now)
        (λ f. Front IsNamed (λ n. target_parts n) line.now tokens.now f.0 f.1.now)) }
{
    let Some(behind) = behind_lead(line, tokens, Keyword::Label) else {
        return Ok(None);
    };
    local_front(alloc, line, behind)
}

// A further block to branch to.
pub fn further_target<'a>(
    alloc: Global,
    line: &[u8],
    tokens: &'a [Token],
) -> Result<Option<(Name, &'a [Token])>, NoMemory>
    requires { All (IsTokenOf line.now) tokens.now }
    ensures { IfOk result (λ found. MatchOption found (NoFront IsNamed (λ n. comma_parts ++ target_parts n) line.now tokens.now)
        (λ f. Front IsNamed (λ n. comma_parts ++ target_parts n) line.now tokens.now f.0 f.1.now)) }
{
    let Some(behind) = behind_lead(line, tokens, Keyword::Comma) else {
        return Ok(None);
    };
    target_front(alloc, line, behind)
}

// A number behind its type.
pub fn number_front<'a>(
    alloc: Global,
    line: &[u8],
    tokens: &'a [Token],
) -> Result<Option<((Ty, RawVal), &'a [Token])>, NoMemory>
    requires { All (IsTokenOf line.now) tokens.now }
    ensures { IfOk result (λ found. MatchOption found (NoFront IsNumber typed line.now tokens.now)
        (λ f. Front IsNumber typed line.now tokens.now f.0 f.1.now)) }
{
    let Some((ty, behind)) = type_front(line, tokens) else {
        return Ok(None);
    };
    if !is_number(ty) {
        return Ok(None);
    }
    match value_front(alloc, line, behind, ty)? {
        Some((val, rest)) => Ok(Some(((ty, val), rest))),
        None => Ok(None),
    }
}

// A type behind a word.
pub fn type_lead<'a>(
    line: &[u8],
    tokens: &'a [Token],
    keyword: Keyword,
) -> Option<(Ty, &'a [Token])>
    requires { All (IsTokenOf line.now) tokens.now }
    ensures { MatchOption result (NoFront Always (type_lead_parts keyword) line.now tokens.now)
        (λ f. Front Always (type_lead_parts keyword) line.now tokens.now f.0 f.1.now) }
{
    let Some(behind) = behind_lead(line, tokens, keyword) else {
        return None;
    };
    type_front(line, behind)
}

// A condition behind a word.
pub fn condition_front<'a>(
    alloc: Global,
    line: &[u8],
    tokens: &'a [Token],
    keyword: Keyword,
) -> Result<Option<(RawVal, &'a [Token])>, NoMemory>
    requires { All (IsTokenOf line.now) tokens.now }
    ensures { IfOk result (λ found. MatchOption found (NoFront (IsValue I1) (condition_parts keyword) line.now tokens.now)
        (λ f. Front (IsValue I1) (condition_parts keyword) line.now tokens.now f.0 f.1.now)) }
{
    let Some(behind) = behind_lead(line, tokens, keyword) else {
        return Ok(None);
    };
    given_front(alloc, line, behind, Ty::I1)
}

// A further value behind a type that is known, up to the line's end.
pub fn given_end(
    alloc: Global,
    line: &[u8],
    tokens: &[Token],
    ty: Ty,
) -> Result<Option<(RawVal, Text)>, NoMemory>
    requires { All (IsTokenOf line.now) tokens.now }
    ensures { IfOk result (λ found. MatchOption found (NoEnd (Tailed (IsValue ty)) (tailed (further_given_parts ty)) line.now tokens.now)
        (End (Tailed (IsValue ty)) (tailed (further_given_parts ty)) line.now tokens.now)) }
{
    let Some((val, at_tail)) = further_given(alloc, line, tokens, ty)? else {
        return Ok(None);
    };
    match end_tail(alloc, line, at_tail)? {
        Some(tail) => Ok(Some((val, tail))),
        None => Ok(None),
    }
}

// A further value of a type that was named before, up to the line's end.
fn value_end(
    alloc: Global,
    line: &[u8],
    tokens: &[Token],
    ty: Ty,
) -> Result<Option<(RawVal, Text)>, NoMemory>
    requires { All (IsTokenOf line.now) tokens.now }
    ensures { IfOk result (λ found. MatchOption found (NoEnd (Tailed (IsValue ty)) (tailed further_value_parts) line.now tokens.now)
        (End (Tailed (IsValue ty)) (tailed further_value_parts) line.now tokens.now)) }
{
    let Some((val, at_tail)) = further_value(alloc, line, tokens, ty)? else {
        return Ok(None);
    };
    match end_tail(alloc, line, at_tail)? {
        Some(tail) => Ok(Some((val, tail))),
        None => Ok(None),
    }
}

// Two numbers of a type, up to the line's end.
pub fn pair_end(
    alloc: Global,
    line: &[u8],
    tokens: &[Token],
) -> Result<Option<((Ty, RawVal), (RawVal, Text))>, NoMemory>
    requires { All (IsTokenOf line.now) tokens.now }
    ensures { IfOk result (λ found. MatchOption found (NoEnd IsPair pair_end_parts line.now tokens.now)
        (End IsPair pair_end_parts line.now tokens.now)) }
{
    let Some((first, at_second)) = number_front(alloc, line, tokens)? else {
        return Ok(None);
    };
    match value_end(alloc, line, at_second, first.0)? {
        Some(second) => Ok(Some((first, second))),
        None => Ok(None),
    }
}

// What is kept up to the line's end.
pub fn end_tail(alloc: Global, line: &[u8], tokens: &[Token]) -> Result<Option<Text>, NoMemory>
    requires { All (IsTokenOf line.now) tokens.now }
    ensures { IfOk result (λ found. MatchOption found ((text : List ℕ) → Spelt line.now tokens.now (kept tail text ∷ []) → ⊥)
        (λ text. Spelt line.now tokens.now (kept tail text ∷ []))) }
{
    if ms_line_parts::is_tail(alloc, line, tokens)? {
        Ok(Some(ms_line_parts::kept(alloc, line, tokens)?))
    } else {
        Ok(None)
    }
}
