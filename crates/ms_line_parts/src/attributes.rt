// Single attributes, and what may stand among them.
ghost use Rattle.std.specs.Prelude.{◌≡◌, ◌+◌, ◌≤◌, All, IfOk, length};
ghost use Rattle.std.specs.List.{list_any};
ghost use Rattle.std.specs.Str.{bytes_eq};
ghost use Rattle.ms_lex.specs.Line.{IsTokenOf};
ghost use Rattle.ms_grammar.specs.Kept.{reserved};
ghost use Rattle.ms_grammar.specs.Scan.{is_free};
ghost use Rattle.ms_grammar.specs.Parts.{bytes_at, texts};
ghost use Rattle.ms_line_parts.specs.Reach.{number_joins, word_joins, string_joins, meta_joins, item_length, AreLongest};

use crate::brackets::bracketed_front;
use crate::words::{bytes_of, has_kind, is_keyword};
use ms_grammar::Keyword;
use ms_ir::NoMemory;
use ms_lex::{Token, TokenKind};
use std::alloc::Global;

fn is(text: &[u8], word: &[u8]) -> bool
    ensures { result ≡ bytes_eq text.now word.now }
{
    text == word
}

// The words that begin no attribute.
#[tactic(auto, unfolding(ms_grammar::specs::Kept::reserved))]
fn is_reserved(text: &[u8]) -> bool
    ensures { result ≡ list_any (bytes_eq text.now) reserved }
{
    is(text, b"void")
        || is(text, b"ptr")
        || is(text, b"label")
        || is(text, b"i1")
        || is(text, b"i8")
        || is(text, b"i16")
        || is(text, b"i32")
        || is(text, b"i64")
        || is(text, b"byval")
        || is(text, b"inalloca")
        || is(text, b"preallocated")
        || is(text, b"swifterror")
        || is(text, b"musttail")
        || is(text, b"addrspace")
        || is(text, b"volatile")
        || is(text, b"atomic")
        || is(text, b"asm")
}

// Whether a token may begin an attribute as its word.
fn is_free_word(line: &[u8], token: Token) -> bool
    requires { IsTokenOf line.now token }
    ensures { result ≡ is_free (bytes_at line.now token) }
{
    has_kind(line, token, TokenKind::Word) && !is_reserved(bytes_of(line, token))
}

// How many tokens join the word before them.
fn joined_number(line: &[u8], tokens: &[Token], aligned: bool) -> usize
    requires { All (IsTokenOf line.now) tokens.now }
    ensures is { result ≡ number_joins aligned (texts line.now tokens.now) }
    ensures within { result ≤ length tokens.now }
{
    match tokens {
        [first, ..] if aligned && has_kind(line, *first, TokenKind::Number) => 1,
        _ => 0,
    }
}

fn joined_to_word(
    alloc: Global,
    line: &[u8],
    tokens: &[Token],
    aligned: bool,
) -> Result<usize, NoMemory>
    requires { All (IsTokenOf line.now) tokens.now }
    ensures is { IfOk result (λ n. n ≡ word_joins aligned (texts line.now tokens.now)) }
    ensures within { IfOk result (λ n. n ≤ length tokens.now) }
{
    let n = bracketed_front(alloc, line, tokens, Keyword::Open, Keyword::Close)?;
    if n == 0 {
        Ok(joined_number(line, tokens, aligned))
    } else {
        Ok(n)
    }
}

fn joined_to_string(line: &[u8], tokens: &[Token]) -> usize
    requires { All (IsTokenOf line.now) tokens.now }
    ensures is { result ≡ string_joins (texts line.now tokens.now) }
    ensures within { result ≤ length tokens.now }
{
    match tokens {
        [equals, value, ..]
            if is_keyword(line, *equals, Keyword::Equals)
                && has_kind(line, *value, TokenKind::Quoted) => { 2 }
        _ => 0,
    }
}

// How many tokens the pair has whose first token stands before these.
fn metadata_pair(line: &[u8], tokens: &[Token]) -> usize
    requires { All (IsTokenOf line.now) tokens.now }
    ensures is { result ≡ meta_joins (texts line.now tokens.now) }
    ensures within { result ≤ length tokens.now + 1 }
{
    match tokens {
        [second, ..] if has_kind(line, *second, TokenKind::Meta) => 2,
        _ => 0,
    }
}

// How many tokens the longest attribute in front has, or pair of metadata where it may stand.
pub fn item_front(
    alloc: Global,
    line: &[u8],
    tokens: &[Token],
    metadata: bool,
) -> Result<usize, NoMemory>
    requires { All (IsTokenOf line.now) tokens.now }
    ensures is { IfOk result (λ n. n ≡ item_length metadata (texts line.now tokens.now)) }
    ensures within { IfOk result (λ n. n ≤ length tokens.now) }
{
    let (first, rest) = match tokens {
        [] => return Ok(0),
        [first, rest @ ..] => (*first, rest),
    };
    if is_free_word(line, first) {
        let aligned = is_keyword(line, first, Keyword::Align);
        return Ok(1 + joined_to_word(alloc, line, rest, aligned)?);
    }
    if has_kind(line, first, TokenKind::Quoted) {
        return Ok(1 + joined_to_string(line, rest));
    }
    if has_kind(line, first, TokenKind::Group) {
        return Ok(1);
    }
    if metadata && has_kind(line, first, TokenKind::Meta) {
        return Ok(metadata_pair(line, rest));
    }
    Ok(0)
}

// How many tokens the longest items in front have, one behind another.
pub fn items_front(
    alloc: Global,
    line: &[u8],
    tokens: &[Token],
    metadata: bool,
) -> Result<usize, NoMemory>
    requires { All (IsTokenOf line.now) tokens.now }
    ensures are { IfOk result (λ n. AreLongest metadata (texts line.now tokens.now) n) }
    ensures within { IfOk result (λ n. n ≤ length tokens.now) }
{
    let mut at = 0;
    loop {
        let n = item_front(alloc, line, &tokens[at..], metadata)?;
        if n == 0 {
            return Ok(at);
        }
        at += n;
    }
}
