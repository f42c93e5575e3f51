// The locals among the indices of a getelementptr.
ghost use Rattle.std.specs.Prelude.{◌≡◌, ℕ, ◌<◌, ◌≤◌, ◌++◌, ◌∷◌, [], List, All, MatchOption, IfOk, OnOk, Some, None, true, false, length, drop, map, min, ◌-◌, ◌^◌, reverse};
ghost use Rattle.std.specs.List.{list_all};
ghost use Rattle.ms_lex.specs.Line.{IsTokenOf};
ghost use Rattle.ms_lex.specs.Kinds.{is_token};
ghost use Rattle.ms_lex.specs.declared.token.Token.{Token};
ghost use Rattle.ms_lex.specs.declared.token.TokenKind.TheVariants as TokenKind;
ghost use Rattle.ms_grammar.specs.Kept.{Each, IsObject, IndexItem, AreWoven};
ghost use Rattle.ms_grammar.specs.Form.{index_text};
ghost use Rattle.ms_grammar.specs.Fits.{AreTerms, offset_of_items};
ghost use Rattle.ms_grammar.specs.Limits.{IsNearOffset, IsSmallTerm};
ghost use Rattle.ms_grammar.specs.Parts.{bytes_at, texts, gap_or_blank, is_local, cut_token, cut_behind, cut_text};
ghost use Rattle.ms_grammar.specs.declared.line.RawIndex.{RawIndex};
ghost use Rattle.ms_line_parts.specs.Sizes.{cut, array_counts, member_bytes, scales};
ghost use Rattle.ms_line_parts.specs.Terms.{held, is_small, IsTermAt, IsPut};

use crate::objects::{array_count, first_bytes, offset, stored_type};
use crate::words::{between, bytes_of, has_kind, local_at};
use ms_grammar::{RawIndex, RawTerms, RawVal};
use ms_ir::{NoMemory, Text};
use ms_lex::{Token, TokenKind};
use std::alloc::Global;

// Puts down the counts of the arrays that open in front, and gives the bytes of the type behind them.
fn put_counts(counts: &mut Vec<u128>, line: &[u8], object: &[Token]) -> Result<u128, NoMemory>
    requires { All (IsTokenOf line.now) object.now }
    ensures counts { OnOk result (counts.new.items ≡ counts.old.items ++ array_counts (texts line.now object.now)) }
    ensures bytes { IfOk result (λ bytes. bytes ≡ member_bytes (texts line.now object.now)) }
{
    let mut at = 0;
    while let Some(count) = array_count(line, &object[at..]) {
        counts.push(count)?;
        at += 3;
    }
    Ok(first_bytes(line, &object[at..]))
}

// The bytes of each level, the innermost first. It takes the counts off.
fn scales(alloc: Global, counts: &mut Vec<u128>, bytes: u128) -> Result<Vec<u128>, NoMemory>
    ensures { IfOk result (λ sizes. reverse sizes.items ≡ scales bytes counts.old.items) }
{
    let mut sizes = Vec::new(alloc);
    sizes.push(bytes)?;
    let mut size = bytes;
    while let Some(count) = counts.pop() {
        size = size.saturating_mul(count);
        sizes.push(size)?;
    }
    Ok(sizes)
}

// The same of the type of an object.
fn level_sizes(alloc: Global, line: &[u8], object: &[Token]) -> Result<Vec<u128>, NoMemory>
    requires { All (IsTokenOf line.now) object.now }
    ensures { IfOk result (λ levels. (sizes : List ℕ) → IsObject sizes (texts line.now object.now) → reverse levels.items ≡ map cut sizes) }
{
    let mut counts = Vec::new(alloc);
    let bytes = put_counts(&mut counts, line, object)?;
    scales(alloc, &mut counts, bytes)
}

// What an index counts by, as it can be held.
fn scale_of(size: u128) -> u64
    ensures { (n : ℕ) → size ≡ cut n → result ≡ min n (2 ^ 64 - 1) }
{
    if size <= u64::MAX as u128 {
        size as u64
    } else {
        u64::MAX
    }
}

// The term that a type and a local are.
fn term_at(
    alloc: Global,
    line: &[u8],
    ty: Token,
    name: Token,
    size: u128,
) -> Result<Option<RawIndex>, NoMemory>
    requires ty { IsTokenOf line.now ty }
    requires name { IsTokenOf line.now name }
    ensures { IfOk result (λ found. (n : ℕ) → size ≡ cut n → MatchOption found
        ((t : RawIndex) → IsTermAt n (bytes_at line.now ty) (bytes_at line.now name) t → ⊥)
        (λ t. (whole : RawIndex) × IsTermAt n (bytes_at line.now ty) (bytes_at line.now name) whole × (t ≡ held whole))) }
{
    let Some(known) = stored_type(line, ty) else {
        return Ok(None);
    };
    match local_at(alloc, line, name)? {
        Some(local) => Ok(Some(RawIndex {
            val: RawVal::Local(local),
            ty: known,
            scale: scale_of(size),
        })),
        None => Ok(None),
    }
}

// Puts down the term that an index is, where it is none of the numbers. False where its local has no name.
fn put_term(
    alloc: Global,
    terms: &mut RawTerms,
    line: &[u8],
    ty: Token,
    name: Token,
    size: u128,
) -> Result<bool, NoMemory>
    requires ty { IsTokenOf line.now ty }
    requires name { IsTokenOf line.now name }
    ensures yes { IfOk result (λ put. put ≡ true → (n : ℕ) → size ≡ cut n → IsPut n (bytes_at line.now ty) (bytes_at line.now name) terms.old terms.new) }
    ensures no { IfOk result (λ put. put ≡ false → is_token TokenKind.Local (bytes_at line.now name) ≡ true) }
    ensures none { IfOk result (λ put. put ≡ false → (n : ℕ) → size ≡ cut n → (t : RawIndex) → IsTermAt n (bytes_at line.now ty) (bytes_at line.now name) t → ⊥) }
{
    if !has_kind(line, name, TokenKind::Local) {
        return Ok(true);
    }
    match term_at(alloc, line, ty, name, size)? {
        Some(term) => {
            terms.push(term)?;
            Ok(true)
        }
        None => Ok(false),
    }
}

// All but the first token, which is a comma or is not there.
fn behind_one<'a>(line: &[u8], tokens: &'a [Token]) -> &'a [Token]
    requires { All (IsTokenOf line.now) tokens.now }
    ensures is { result.now ≡ drop 1 tokens.now }
    ensures owned { All (IsTokenOf line.now) result.now }
    ensures within { length result.now ≤ length tokens.now }
{
    match tokens {
        [_, rest @ ..] => rest,
        [] => tokens,
    }
}

// The first index, and those behind its comma.
fn next_pair<'a>(line: &[u8], tokens: &'a [Token]) -> Option<((Token, Token), &'a [Token])>
    requires { All (IsTokenOf line.now) tokens.now }
    ensures is { MatchOption result (length tokens.now < 2) (λ f. (rest : List Token) × (tokens.now ≡ f.0.0 ∷ f.0.1 ∷ rest) × (f.1.now ≡ drop 1 rest)) }
    ensures owned { MatchOption result (length tokens.now < 2) (λ f. IsTokenOf line.now f.0.0 × IsTokenOf line.now f.0.1 × All (IsTokenOf line.now) f.1.now) }
    ensures shorter { MatchOption result (length tokens.now < 2) (λ f. length f.1.now < length tokens.now) }
{
    match tokens {
        [ty, name, rest @ ..] => Some(((*ty, *name), behind_one(line, rest))),
        _ => None,
    }
}

/// The locals among indices into a type, each with the bytes of its level; what is more than 64 bits hold is the largest number of them.
/// `None` where there are more indices than levels, or some local has no name.
pub fn index_terms(
    alloc: Global,
    line: &[u8],
    object: &[Token],
    indices: &[Token],
) -> Result<Option<RawTerms>, NoMemory>
    requires object { All (IsTokenOf line.now) object.now }
    requires indices { All (IsTokenOf line.now) indices.now }
    ensures { IfOk result (λ found. (sizes : List ℕ) (items : List IndexItem) (names : List (List ℕ)) → IsObject sizes (texts line.now object.now)
        → AreWoven items names (texts line.now indices.now)
        → MatchOption found ((terms : List RawIndex) → AreTerms sizes items terms → names ≡ map index_text terms → ⊥)
        (λ terms. (whole : List RawIndex) × AreTerms sizes items whole × (names ≡ map index_text whole) × (terms ≡ map held whole))) }
{
    let mut levels = level_sizes(alloc, line, object)?;
    let mut terms = RawTerms::new(alloc);
    let mut left = indices;
    while let Some(((ty, name), rest)) = next_pair(line, left) {
        let Some(size) = levels.pop() else {
            return Ok(None);
        };
        if !put_term(alloc, &mut terms, line, ty, name, size)? {
            return Ok(None);
        }
        left = rest;
    }
    Ok(Some(terms))
}

fn is_small(term: &RawIndex) -> bool
    ensures { result ≡ is_small term.now }
{
    term.scale < 2147483649
}

fn are_small(terms: &[RawIndex]) -> bool
    ensures { result ≡ list_all is_small terms.now }
{
    terms.iter().all(|term| is_small(term))
}

/// What the numbers among indices into a type come to in bytes; `None` where that is more than 2^31 either way, or one of the locals
/// counts by more.
pub fn small_offset(
    line: &[u8],
    object: &[Token],
    indices: &[Token],
    terms: &RawTerms,
) -> Option<i64>
    requires object { All (IsTokenOf line.now) object.now }
    requires indices { All (IsTokenOf line.now) indices.now }
    ensures { (sizes : List ℕ) (items : List IndexItem) (names : List (List ℕ)) (whole : List RawIndex) → IsObject sizes (texts line.now object.now)
        → AreWoven items names (texts line.now indices.now) → AreTerms sizes items whole → terms.now ≡ map held whole
        → MatchOption result (IsNearOffset (offset_of_items sizes items) → Each IsSmallTerm whole → ⊥)
        (λ n. (n ≡ offset_of_items sizes items) × IsNearOffset n × Each IsSmallTerm whole × (terms.now ≡ whole)) }
{
    if are_small(terms.as_slice()) {
        offset(line, object, indices)
    } else {
        None
    }
}

// A token with what stands before it, cut to a percent sign where it is a local.
fn push_cut(out: &mut Vec<u8>, gap: &[u8], text: &[u8]) -> Result<(), NoMemory>
    ensures { OnOk result (out.new.items ≡ out.old.items ++ cut_token gap.now text.now) }
{
    out.extend_from_slice(gap)?;
    match text {
        [b'%', ..] => {
            if gap.is_empty() {
                out.push(b' ')?;
            }
            out.push(b'%')?;
        }
        _ => out.extend_from_slice(text)?,
    }
    Ok(())
}

// Tokens behind a place, each with what stands before it.
fn push_behind(out: &mut Vec<u8>, line: &[u8], from: u32, tokens: &[Token]) -> Result<(), NoMemory>
    requires { All (IsTokenOf line.now) tokens.now }
    ensures { OnOk result (out.new.items ≡ out.old.items ++ cut_behind line.now from tokens.now) }
{
    let mut at = from;
    for token in tokens {
        push_cut(out, between(line, at, token.from), bytes_of(line, *token))?;
        at = token.to;
    }
    Ok(())
}

/// The kept text of indices, each local among them cut to its percent sign.
pub fn cut_text(alloc: Global, line: &[u8], tokens: &[Token]) -> Result<Text, NoMemory>
    requires { All (IsTokenOf line.now) tokens.now }
    ensures { IfOk result (λ text. text ≡ cut_text line.now tokens.now) }
{
    let mut out = Vec::new(alloc);
    if let [first, rest @ ..] = tokens {
        out.extend_from_slice(bytes_of(line, *first))?;
        push_behind(&mut out, line, first.to, rest)?;
    }
    Ok(Text::from_vec(out))
}
