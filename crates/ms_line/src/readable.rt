// Digits of names and numbers that may be read.
ghost use Rattle.std.specs.Prelude.{◌≡◌, ◌↔◌, ◌≤◌, ◌^◌, IsTrue, true, false, All, length};
ghost use Rattle.std.specs.List.{list_all};
ghost use Rattle.ms_grammar.specs.Parts.{bytes_at};
ghost use Rattle.std.specs.Char.{is_ascii_digit};
ghost use Rattle.std.specs.Str.Parse.{digits_value};
ghost use Rattle.ms_lex.specs.Kinds.{is_digits, is_number, is_token};
ghost use Rattle.ms_lex.specs.Line.{IsTokenOf};
ghost use Rattle.ms_grammar.specs.Grammar.{StartsPlain, IsPlainNumber, IsReadable, IsReadableToken, behind_mark};
ghost use Rattle.ms_line.specs.Spelled.{AreReadable};

use crate::cut::cut_bytes;
use ms_lex::{Token, TokenKind};
use ms_line_parts::bytes_of;

// The least and the greatest number of a line, without their signs.
const MOST_BELOW_ZERO: u128 = 1 << 127;

const MOST: u128 = u128::MAX;

fn are_digits(bytes: &[u8]) -> bool
    ensures { result ≡ list_all is_ascii_digit bytes.now }
{
    bytes.iter().all(|byte| byte.is_ascii_digit())
}

fn is_digits(bytes: &[u8]) -> bool
    ensures { result ≡ is_digits bytes.now }
{
    let Some((first, rest)) = cut_bytes(bytes) else {
        return false;
    };
    first.is_ascii_digit() && are_digits(rest)
}

// Whether no zero stands in front of other digits.
fn starts_plain(digits: &[u8]) -> bool
    ensures { IsTrue result ↔ StartsPlain digits.now }
{
    match digits {
        [first, _, ..] => *first != b'0',
        _ => true,
    }
}

// Whether bytes are no digits, or digits of a name.
fn is_plain_number(bytes: &[u8]) -> bool
    ensures { IsTrue result ↔ IsPlainNumber bytes.now }
{
    !is_digits(bytes) || (starts_plain(bytes) && bytes.len() <= 9)
}

fn without_mark(bytes: &[u8]) -> &[u8]
    ensures { result.now ≡ behind_mark bytes.now }
{
    match bytes {
        [] => &[],
        [_, rest @ ..] => rest,
    }
}

// Whether digits write a number of at most this.
fn is_at_most(digits: &[u8], most: u128) -> bool
    requires { IsTrue (list_all is_ascii_digit digits.now) }
    ensures { IsTrue result ↔ (digits_value 10 digits.now ≤ most) }
{
    let mut value: u128 = 0;
    for byte in digits {
        let digit = u128::from(*byte - b'0');
        if value > most / 10 {
            return false;
        }
        if digit > most - value * 10 {
            return false;
        }
        value = value * 10 + digit;
    }
    true
}

// Whether a number is not too far from 0.
fn is_readable_number(bytes: &[u8]) -> bool
    requires { is_number bytes.now ≡ true }
    ensures { IsTrue result ↔ IsReadable bytes.now }
{
    // A number has a first byte.
    let Some((first, rest)) = cut_bytes(bytes) else {
        return true;
    };
    if first == b'-' {
        return is_at_most(rest, MOST_BELOW_ZERO);
    }
    is_at_most(bytes, MOST)
}

fn is_readable(line: &[u8], token: Token) -> bool
    requires { IsTokenOf line.now token }
    ensures { IsTrue result ↔ IsReadableToken token.kind (bytes_at line.now token) }
{
    let bytes = bytes_of(line, token);
    match token.kind {
        TokenKind::Local | TokenKind::Group => is_plain_number(without_mark(bytes)),
        TokenKind::Number => is_readable_number(bytes),
        _ => true,
    }
}

// Whether each token may be read.
pub fn are_readable(line: &[u8], tokens: &[Token]) -> bool
    requires { All (IsTokenOf line.now) tokens.now }
    ensures { IsTrue result ↔ AreReadable line.now tokens.now }
{
    for token in tokens {
        if !is_readable(line, *token) {
            return false;
        }
    }
    true
}
