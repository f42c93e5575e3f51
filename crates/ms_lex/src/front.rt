// The token in front of some bytes.
ghost use Rattle.std.specs.Prelude.{◌≡◌, ◌<◌, ◌∷◌, List, ℕ, length, Some, None, MatchOption};
ghost use Rattle.std.specs.List.{list_all};
ghost use Rattle.ms_lex.specs.Bytes.{continues_word};
ghost use Rattle.ms_lex.specs.Kinds.{behind, is_word, is_digits, is_name, is_number, is_quotation, is_one_mark, is_token};
ghost use Rattle.ms_lex.specs.Front.{FrontIs, TokenIs};
ghost use Rattle.ms_lex.specs.First.{first_kind, StartsNot};

use crate::bytes::{digit_run, is_mark, quotable_run, starts_word, word_run};
use crate::token::TokenKind;

// What stands behind a first byte.
fn behind(bytes: &[u8], first: u8) -> Option<&[u8]>
    ensures { MatchOption result (StartsNot first bytes.now) (λ rest. bytes.now ≡ first ∷ rest.now) }
{
    match bytes {
        [byte, rest @ ..] if *byte == first => Some(rest),
        _ => None,
    }
}

fn word_length(bytes: &[u8]) -> Option<usize>
    ensures { FrontIs is_word bytes.now result }
{
    match bytes {
        [first, rest @ ..] if starts_word(*first) => Some(1 + word_run(rest)),
        _ => None,
    }
}

fn digits_length(bytes: &[u8]) -> Option<usize>
    ensures { FrontIs is_digits bytes.now result }
{
    match bytes {
        [first, rest @ ..] if first.is_ascii_digit() => Some(1 + digit_run(rest)),
        _ => None,
    }
}

fn name_length(bytes: &[u8]) -> Option<usize>
    ensures { FrontIs is_name bytes.now result }
{
    match word_length(bytes) {
        Some(length) => Some(length),
        None => Some(digits_length(bytes)?),
    }
}

#[tactic(auto, using(crate::proofs::Fronts::prefixed))]
fn local_length(bytes: &[u8]) -> Option<usize>
    ensures { FrontIs (behind 37 is_name) bytes.now result }
{
    Some(1 + name_length(behind(bytes, b'%')?)?)
}

#[tactic(auto, using(crate::proofs::Fronts::prefixed))]
fn global_length(bytes: &[u8]) -> Option<usize>
    ensures { FrontIs (behind 64 is_word) bytes.now result }
{
    Some(1 + word_length(behind(bytes, b'@')?)?)
}

#[tactic(auto, using(crate::proofs::Fronts::prefixed))]
fn group_length(bytes: &[u8]) -> Option<usize>
    ensures { FrontIs (behind 35 is_digits) bytes.now result }
{
    Some(1 + digits_length(behind(bytes, b'#')?)?)
}

#[tactic(auto, using(crate::proofs::Fronts::prefixed))]
fn meta_length(bytes: &[u8]) -> Option<usize>
    ensures { FrontIs (behind 33 (list_all continues_word)) bytes.now result }
{
    Some(1 + word_run(behind(bytes, b'!')?))
}

#[tactic(auto, using(crate::proofs::Fronts::prefixed))]
fn negative_length(bytes: &[u8]) -> Option<usize>
    ensures { FrontIs (behind 45 is_digits) bytes.now result }
{
    Some(1 + digits_length(behind(bytes, b'-')?)?)
}

fn number_length(bytes: &[u8]) -> Option<usize>
    ensures { FrontIs is_number bytes.now result }
{
    match digits_length(bytes) {
        Some(length) => Some(length),
        None => Some(negative_length(bytes)?),
    }
}

fn quotation_length(bytes: &[u8]) -> Option<usize>
    ensures { FrontIs is_quotation bytes.now result }
{
    let run = quotable_run(bytes);
    if run < bytes.len() && bytes[run] == b'"' {
        Some(run + 1)
    } else {
        None
    }
}

#[tactic(auto, using(crate::proofs::Fronts::prefixed))]
fn quoted_length(bytes: &[u8]) -> Option<usize>
    ensures { FrontIs (behind 34 is_quotation) bytes.now result }
{
    Some(1 + quotation_length(behind(bytes, b'"')?)?)
}

fn mark_length(bytes: &[u8]) -> Option<usize>
    ensures { FrontIs is_one_mark bytes.now result }
{
    match bytes {
        [first, ..] if is_mark(*first) => Some(1),
        _ => None,
    }
}

// The only kind whose tokens may begin with a byte.
fn kind_of_first(byte: u8) -> Option<TokenKind>
    ensures { result ≡ first_kind byte }
{
    if starts_word(byte) {
        return Some(TokenKind::Word);
    }
    if byte.is_ascii_digit() {
        return Some(TokenKind::Number);
    }
    if is_mark(byte) {
        return Some(TokenKind::Punct);
    }
    match byte {
        b'-' => Some(TokenKind::Number),
        b'%' => Some(TokenKind::Local),
        b'@' => Some(TokenKind::Global),
        b'"' => Some(TokenKind::Quoted),
        b'#' => Some(TokenKind::Group),
        b'!' => Some(TokenKind::Meta),
        _ => None,
    }
}

// The length of the longest token of a kind in front.
fn length_of(kind: TokenKind, bytes: &[u8]) -> Option<usize>
    ensures { FrontIs (is_token kind) bytes.now result }
{
    match kind {
        TokenKind::Word => Some(word_length(bytes)?),
        TokenKind::Local => Some(local_length(bytes)?),
        TokenKind::Global => Some(global_length(bytes)?),
        TokenKind::Number => Some(number_length(bytes)?),
        TokenKind::Quoted => Some(quoted_length(bytes)?),
        TokenKind::Group => Some(group_length(bytes)?),
        TokenKind::Meta => Some(meta_length(bytes)?),
        TokenKind::Punct => Some(mark_length(bytes)?),
    }
}

// The longest token in front of some bytes, and its length.
pub fn first_token(bytes: &[u8]) -> Option<(TokenKind, usize)>
    requires { 0 < length bytes.now }
    ensures { TokenIs bytes.now result }
{
    let kind = kind_of_first(bytes[0])?;
    let length = length_of(kind, bytes)?;
    Some((kind, length))
}
