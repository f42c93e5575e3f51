// Allocas and getelementptrs, each read from its first word on.
ghost use Rattle.std.specs.Prelude.{◌≡◌, ℕ, ◌∷◌, [], List, All, IfOk, MatchOption};
ghost use Rattle.ms_lex.specs.Line.{IsTokenOf};
ghost use Rattle.ms_grammar.specs.Parts.{joined, kept_text};
ghost use Rattle.ms_grammar.specs.declared.line.RawInst.{RawInst};
ghost use Rattle.ms_line_insts.specs.Found.{IsFound, SpellInst};
ghost use Rattle.ms_line_insts.specs.GepFronts.{NoGepHead, GepCut, NoIndices, Indices, NoPointer};

use crate::cuts::{attributes_cut, indices_cut, object_cut};
use crate::found::FoundInst;
use crate::groups::{behind_lead, end_tail, further_given};
use crate::joins::join_kept;
use ms_grammar::{Keyword, RawInst};
use ms_ir::{NoMemory, Text, Ty};
use ms_lex::Token;
use std::alloc::Global;

// `alloca TYPE`. It is past its limit where the type has more than 65,536 bytes.
pub fn alloca(alloc: Global, line: &[u8], tokens: &[Token]) -> Result<Option<FoundInst>, NoMemory>
    requires { All (IsTokenOf line.now) tokens.now }
    ensures { IfOk result (λ found. MatchOption found
        ((size : ℕ) (head rest : List ℕ) → SpellInst line.now tokens.now (RawInst.Alloca size head rest) → ⊥)
        (IsFound line.now tokens.now)) }
{
    let Some(at_type) = behind_lead(line, tokens, Keyword::Alloca) else {
        return Ok(None);
    };
    let Some((object, at_tail)) = object_cut(line, at_type) else {
        return Ok(None);
    };
    let Some(tail) = end_tail(alloc, line, at_tail)? else {
        return Ok(None);
    };
    let Some(size) = ms_line_parts::object_size(line, object) else {
        return Ok(Some(FoundInst::Past(true)));
    };
    let head = ms_line_parts::kept(alloc, line, object)?;
    Ok(Some(FoundInst::Whole(RawInst::Alloca { size, head, tail })))
}

// The kept text of a getelementptr's attributes and type.
fn head_text(
    alloc: Global,
    line: &[u8],
    before: &[Token],
    object: &[Token],
) -> Result<Text, NoMemory>
    requires before { All (IsTokenOf line.now) before.now }
    requires object { All (IsTokenOf line.now) object.now }
    ensures { IfOk result (λ text. text ≡ joined (kept_text line.now before.now ∷ kept_text line.now object.now ∷ [])) }
{
    let mut text = ms_line_parts::kept(alloc, line, before)?.into_vec();
    join_kept(alloc, line, &mut text, object)?;
    Ok(Text::from_vec(text))
}

// The attributes and the type of a getelementptr, cut off.
fn head_cut<'a>(
    alloc: Global,
    line: &[u8],
    tokens: &'a [Token],
) -> Result<Option<((&'a [Token], &'a [Token]), &'a [Token])>, NoMemory>
    requires { All (IsTokenOf line.now) tokens.now }
    ensures { IfOk result (λ found. MatchOption found (NoGepHead line.now tokens.now)
        (λ f. GepCut line.now tokens.now f.0.0.now f.0.1.now f.1.now)) }
{
    let Some(at_head) = behind_lead(line, tokens, Keyword::Getelementptr) else {
        return Ok(None);
    };
    let (before, at_object) = attributes_cut(alloc, line, at_head)?;
    match object_cut(line, at_object) {
        Some((object, rest)) => Ok(Some(((before, object), rest))),
        None => Ok(None),
    }
}

// The indices of a getelementptr, cut off, and what is kept behind them.
fn indices_end<'a>(
    alloc: Global,
    line: &[u8],
    tokens: &'a [Token],
) -> Result<Option<(&'a [Token], Text)>, NoMemory>
    requires { All (IsTokenOf line.now) tokens.now }
    ensures { IfOk result (λ found. MatchOption found (NoIndices line.now tokens.now) (λ f. Indices line.now tokens.now f.0.now f.1)) }
{
    let Some(at_index) = behind_lead(line, tokens, Keyword::Comma) else {
        return Ok(None);
    };
    let Some((indices, at_tail)) = indices_cut(line, at_index) else {
        return Ok(None);
    };
    match end_tail(alloc, line, at_tail)? {
        Some(tail) => Ok(Some((indices, tail))),
        None => Ok(None),
    }
}

// `getelementptr ATTRIBUTES TYPE, ptr BASE, INDICES`. It is past its limit where the numbers among the indices come to
// more than 2^31 bytes either way, or a local counts by more.
pub fn element_pointer(
    alloc: Global,
    line: &[u8],
    tokens: &[Token],
) -> Result<Option<FoundInst>, NoMemory>
    requires { All (IsTokenOf line.now) tokens.now }
    ensures { IfOk result (λ found. MatchOption found (NoPointer line.now tokens.now) (IsFound line.now tokens.now)) }
{
    let Some(((before, object), at_base)) = head_cut(alloc, line, tokens)? else {
        return Ok(None);
    };
    let Some((base, at_index)) = further_given(alloc, line, at_base, Ty::Ptr)? else {
        return Ok(None);
    };
    let Some((indices, tail)) = indices_end(alloc, line, at_index)? else {
        return Ok(None);
    };
    let Some(terms) = ms_line_parts::index_terms(alloc, line, object, indices)? else {
        return Ok(None);
    };
    let Some(offset) = ms_line_parts::small_offset(line, object, indices, &terms) else {
        return Ok(Some(FoundInst::Past(false)));
    };
    let head = head_text(alloc, line, before, object)?;
    if terms.len() == 0 {
        let index = ms_line_parts::kept(alloc, line, indices)?;
        return Ok(Some(FoundInst::Whole(RawInst::Gep {
            base,
            offset,
            head,
            index,
            tail,
        })));
    }
    let index = ms_line_parts::cut_text(alloc, line, indices)?;
    Ok(Some(FoundInst::Whole(RawInst::Step {
        base,
        offset,
        terms,
        head,
        index,
        tail,
    })))
}
