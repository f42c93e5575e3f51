// Types of objects, indices, and what they come to in bytes.
ghost use Rattle.std.specs.Prelude.{◌≡◌, ℕ, ◌<◌, ◌≤◌, ◌≤ℤ◌, ◌-ℤ◌, ◌+ℤ◌, ◌*ℤ◌, ◌^◌, ◌++◌, ◌∷◌, ◌+◌, ◌*◌, ◌==◌, pos, ℤ, List, All, MatchOption, IfSome, Some, None, IsTrue, true, if◌then◌else◌, length, take, drop};
ghost use Rattle.ms_lex.specs.Kinds.{is_number};
ghost use Rattle.ms_lex.specs.Line.{IsTokenOf};
ghost use Rattle.ms_lex.specs.declared.token.Token.{Token};
ghost use Rattle.ms_grammar.specs.Numbers.{is_negative, magnitude};
ghost use Rattle.ms_grammar.specs.Kept.{AreMany, IsTailItem, IsObject, IndexItem, AreWoven};
ghost use Rattle.ms_grammar.specs.Fits.{offset_of_items};
ghost use Rattle.ms_grammar.specs.Limits.{IsNearOffset};
ghost use Rattle.ms_grammar.specs.Parts.{bytes_at, texts};
ghost use Rattle.ms_line_parts.specs.Sizes.{is_count, starts_array, counts_of, stored_type, closes, ends_object, index_value, is_index, starts_more, more_length, index_length, bytes_with, size_times, cut, array_count, first_bytes};
ghost use Rattle.ms_line_parts.specs.Sums.{far, IsSum, zero_or, first_index, next_index, taken, sum_over};

use crate::words::{
    bytes_of, has_kind, has_minus, is_keyword, known_type, magnitude_of, signed_numeral,
};
use ms_grammar::Keyword;
use ms_ir::Ty;
use ms_lex::{Token, TokenKind};

// Whether a token is a number of 0 or more.
fn is_a_count(line: &[u8], token: Token) -> bool
    requires { IsTokenOf line.now token }
    ensures { result ≡ is_count (bytes_at line.now token) }
{
    has_kind(line, token, TokenKind::Number) && is_zero_or_more(bytes_of(line, token))
}

fn is_zero_or_more(text: &[u8]) -> bool
    requires { is_number text.now ≡ true }
    ensures { result ≡ (if is_negative text.now then magnitude text.now == 0 else true) }
{
    if !has_minus(text) {
        return true;
    }
    match magnitude_of(text) {
        Some(size) => size == 0,
        None => false,
    }
}

// Whether an array opens in front.
fn starts_array(line: &[u8], tokens: &[Token]) -> bool
    requires { All (IsTokenOf line.now) tokens.now }
    ensures is { result ≡ starts_array (texts line.now tokens.now) }
    ensures long { result ≡ true → 3 ≤ length tokens.now }
{
    match tokens {
        [open, count, times, ..] => {
            is_keyword(line, *open, Keyword::OpenSquare)
                && is_a_count(line, *count)
                && is_keyword(line, *times, Keyword::Times)
        }
        _ => false,
    }
}

// How many arrays open in front, one in another.
fn levels(line: &[u8], tokens: &[Token]) -> usize
    requires { All (IsTokenOf line.now) tokens.now }
    ensures is { result ≡ length (counts_of (texts line.now tokens.now)) }
    ensures within { 3 * result ≤ length tokens.now }
{
    let mut k = 0;
    while starts_array(line, &tokens[3 * k..]) {
        k += 1;
    }
    k
}

// The type with a place in memory that a token names.
pub fn stored_type(line: &[u8], token: Token) -> Option<Ty>
    requires { IsTokenOf line.now token }
    ensures { result ≡ stored_type (bytes_at line.now token) }
{
    match known_type(bytes_of(line, token)) {
        None | Some(Ty::I1) | Some(Ty::Ptr) => None,
        Some(ty) => Some(ty),
    }
}

// Whether so many closing brackets stand in front.
fn closes(line: &[u8], tokens: &[Token], k: usize) -> bool
    requires { All (IsTokenOf line.now) tokens.now }
    ensures is { result ≡ closes k (texts line.now tokens.now) }
    ensures within { result ≡ true → k ≤ length tokens.now }
{
    for i in 0..k {
        if i >= tokens.len() || !is_keyword(line, tokens[i], Keyword::CloseSquare) {
            return false;
        }
    }
    true
}

// Whether the member of so many arrays stands in front, with the brackets that close them.
fn ends_object(line: &[u8], tokens: &[Token], k: usize) -> bool
    requires { All (IsTokenOf line.now) tokens.now }
    ensures is { result ≡ ends_object k (texts line.now tokens.now) }
    ensures within { result ≡ true → k + 1 ≤ length tokens.now }
{
    match tokens {
        [ty, rest @ ..] => stored_type(line, *ty).is_some() && closes(line, rest, k),
        [] => false,
    }
}

/// The front that is the type of an object.
pub fn object_front(line: &[u8], tokens: &[Token]) -> Option<usize>
    requires { All (IsTokenOf line.now) tokens.now }
    ensures is { IfSome result (λ n. (n ≤ length tokens.now) × (sizes : List ℕ) × IsObject sizes (texts line.now (take n tokens.now))) }
    ensures whole { (run rest : List Token) (sizes : List ℕ) → tokens.now ≡ run ++ rest → IsObject sizes (texts line.now run)
        → result ≡ Some (length run) }
{
    let k = levels(line, tokens);
    if ends_object(line, &tokens[3 * k..], k) {
        Some(4 * k + 1)
    } else {
        None
    }
}

// The value of an index of a type.
fn index_value(line: &[u8], ty: Token, number: Token) -> Option<i64>
    requires ty { IsTokenOf line.now ty }
    requires number { IsTokenOf line.now number }
    ensures { result ≡ index_value (bytes_at line.now ty) (bytes_at line.now number) }
{
    match stored_type(line, ty) {
        Some(ty) if has_kind(line, number, TokenKind::Number) => signed_numeral(
            bytes_of(line, number),
            ty,
        ),
        _ => None,
    }
}

// Whether a type and what stands behind it are an index: a number of the type, or a local.
fn is_index(line: &[u8], ty: Token, number: Token) -> bool
    requires ty { IsTokenOf line.now ty }
    requires number { IsTokenOf line.now number }
    ensures { result ≡ is_index (bytes_at line.now ty) (bytes_at line.now number) }
{
    index_value(line, ty, number).is_some()
        || (stored_type(line, ty).is_some() && has_kind(line, number, TokenKind::Local))
}

// Whether a comma and an index stand in front.
fn starts_more(line: &[u8], tokens: &[Token]) -> bool
    requires { All (IsTokenOf line.now) tokens.now }
    ensures is { result ≡ starts_more (texts line.now tokens.now) }
    ensures long { result ≡ true → 3 ≤ length tokens.now }
{
    match tokens {
        [comma, ty, number, ..] => {
            is_keyword(line, *comma, Keyword::Comma) && is_index(line, *ty, *number)
        }
        _ => false,
    }
}

// How many tokens the further indices in front have, with their commas.
fn more_front(line: &[u8], tokens: &[Token]) -> usize
    requires { All (IsTokenOf line.now) tokens.now }
    ensures is { result ≡ more_length (texts line.now tokens.now) }
    ensures within { result ≤ length tokens.now }
{
    let mut at = 0;
    while starts_more(line, &tokens[at..]) {
        at += 3;
    }
    at
}

// How many tokens the indices in front have.
fn index_front(line: &[u8], tokens: &[Token]) -> usize
    requires { All (IsTokenOf line.now) tokens.now }
    ensures is { result ≡ index_length (texts line.now tokens.now) }
    ensures within { result ≤ length tokens.now }
{
    match tokens {
        [ty, number, rest @ ..] if is_index(line, *ty, *number) => 2 + more_front(line, rest),
        _ => 0,
    }
}

/// The front that is a list of indices; none has no token. What follows is kept to the line's end.
pub fn indices_front(line: &[u8], tokens: &[Token]) -> usize
    requires { All (IsTokenOf line.now) tokens.now }
    ensures within { result ≤ length tokens.now }
    ensures is { 0 < result → (items : List IndexItem) × (names : List (List ℕ)) × AreWoven items names (texts line.now (take result tokens.now)) }
    ensures whole { (run rest : List Token) (items : List IndexItem) (names : List (List ℕ)) → tokens.now ≡ run ++ rest
        → AreWoven items names (texts line.now run) → AreMany IsTailItem (texts line.now rest) → result ≡ length run }
{
    index_front(line, tokens)
}

// The bytes of the type with a place in memory that a token names; 0 where it names none.
fn bytes_of_type(line: &[u8], token: Token) -> u128
    requires { IsTokenOf line.now token }
    ensures is { result ≡ bytes_with (stored_type (bytes_at line.now token)) }
    ensures small { result ≤ 8 }
{
    match stored_type(line, token) {
        Some(Ty::I8) => 1,
        Some(Ty::I16) => 2,
        Some(Ty::I32) => 4,
        Some(Ty::I64) => 8,
        _ => 0,
    }
}

// The size of a number, or the largest number of 128 bits.
fn largest_or(text: &[u8]) -> u128
    requires { is_number text.now ≡ true }
    ensures { result ≡ cut (magnitude text.now) }
{
    match magnitude_of(text) {
        Some(size) => size,
        None => u128::MAX,
    }
}

// The count of the array that opens in front.
pub fn array_count(line: &[u8], tokens: &[Token]) -> Option<u128>
    requires { All (IsTokenOf line.now) tokens.now }
    ensures is { result ≡ array_count (texts line.now tokens.now) }
    ensures long { IfSome result (λ _. 3 ≤ length tokens.now) }
{
    if !starts_array(line, tokens) {
        return None;
    }
    match tokens {
        [_, count, ..] if has_kind(line, *count, TokenKind::Number) => Some(largest_or(bytes_of(
            line, *count,
        ))),
        _ => None,
    }
}

// The bytes of the type in front.
pub fn first_bytes(line: &[u8], tokens: &[Token]) -> u128
    requires { All (IsTokenOf line.now) tokens.now }
    ensures is { result ≡ first_bytes (texts line.now tokens.now) }
    ensures small { result ≤ 8 }
{
    match tokens {
        [ty, ..] => bytes_of_type(line, *ty),
        [] => 0,
    }
}

// The bytes of the type in front, or the largest number of 128 bits.
fn total_size(line: &[u8], tokens: &[Token]) -> u128
    requires { All (IsTokenOf line.now) tokens.now }
    ensures { result ≡ cut (size_times 1 (texts line.now tokens.now)) }
{
    let mut size: u128 = 1;
    let mut at = 0;
    while let Some(count) = array_count(line, &tokens[at..]) {
        size = size.saturating_mul(count);
        at += 3;
    }
    size.saturating_mul(first_bytes(line, &tokens[at..]))
}

/// The bytes of the type of an object; `None` where they are more than 65,536.
pub fn object_size(line: &[u8], tokens: &[Token]) -> Option<u32>
    requires { All (IsTokenOf line.now) tokens.now }
    ensures { (size : ℕ) (sizes : List ℕ) → IsObject (size ∷ sizes) (texts line.now tokens.now)
        → MatchOption result (65536 < size) (λ n. (n ≡ size) × (n ≤ 65536)) }
{
    let size = total_size(line, tokens);
    if size <= 65536 {
        Some(size as u32)
    } else {
        None
    }
}

// A sum that is known, or one that is too far above or below 0 to come back.
#[derive(Clone, Copy)]
enum Sum {
    Known(i128),
    Above,
    Below,
}

fn far(is_below: bool) -> Sum
    ensures { result ≡ far is_below }
{
    if is_below { Sum::Below } else { Sum::Above }
}

// A sum so many times.
fn times(sum: Sum, count: u128) -> Sum
    ensures { (z : ℤ) (n m : ℕ) → n < 2 ^ 127 → count ≡ cut m → IsSum n z sum → IsSum n (z *ℤ pos m) result }
{
    if count == 0 {
        return Sum::Known(0);
    }
    match sum {
        Sum::Known(0) => Sum::Known(0),
        Sum::Known(n) if count < 1 << 127 => match n.checked_mul(count as i128) {
            Some(product) => Sum::Known(product),
            None => far(n < 0),
        },
        Sum::Known(n) => far(n < 0),
        Sum::Above => Sum::Above,
        Sum::Below => Sum::Below,
    }
}

// A sum and an index.
fn plus(sum: Sum, index: i64) -> Sum
    ensures { (z : ℤ) (n : ℕ) → n + 2 ^ 63 < 2 ^ 127 → IsSum (n + 2 ^ 63) z sum → IsSum n (z +ℤ index) result }
{
    match sum {
        Sum::Known(n) => match n.checked_add(index as i128) {
            Some(total) => Sum::Known(total),
            None => far(index < 0),
        },
        Sum::Above => Sum::Above,
        Sum::Below => Sum::Below,
    }
}

// The value of an index; 0 for a local, which no number of the offset stands for.
fn number_or_zero(line: &[u8], ty: Token, number: Token) -> i64
    requires ty { IsTokenOf line.now ty }
    requires number { IsTokenOf line.now number }
    ensures { result ≡ zero_or (index_value (bytes_at line.now ty) (bytes_at line.now number)) }
{
    match index_value(line, ty, number) {
        Some(value) => value,
        None => 0,
    }
}

fn first_index(line: &[u8], tokens: &[Token]) -> Option<i64>
    requires { All (IsTokenOf line.now) tokens.now }
    ensures is { result ≡ first_index (texts line.now tokens.now) }
    ensures long { IfSome result (λ _. 2 ≤ length tokens.now) }
{
    match tokens {
        [ty, number, ..] => Some(number_or_zero(line, *ty, *number)),
        _ => None,
    }
}

// The index in front behind its comma; 0 where there is none.
fn next_index(line: &[u8], tokens: &[Token]) -> i64
    requires { All (IsTokenOf line.now) tokens.now }
    ensures { result ≡ next_index (texts line.now tokens.now) }
{
    match tokens {
        [comma, ty, number, ..] if is_keyword(line, *comma, Keyword::Comma) => {
            number_or_zero(line, *ty, *number)
        }
        _ => 0,
    }
}

// How many tokens that index has, with its comma.
fn taken(line: &[u8], tokens: &[Token]) -> usize
    requires { All (IsTokenOf line.now) tokens.now }
    ensures is { result ≡ taken (texts line.now tokens.now) }
    ensures within { result ≤ length tokens.now }
{
    if starts_more(line, tokens) { 3 } else { 0 }
}

// What the levels of a type and a list of indices come to in bytes, the outermost first.
fn sum_over(line: &[u8], object: &[Token], indices: &[Token], first: i64) -> Sum
    requires object { All (IsTokenOf line.now) object.now }
    requires indices { All (IsTokenOf line.now) indices.now }
    requires some { 2 ≤ length indices.now }
    ensures { IsSum (2 ^ 126) (sum_over first (texts line.now object.now) (drop 2 (texts line.now indices.now))) result }
{
    let mut sum = Sum::Known(first as i128);
    let mut at = 0;
    let mut place = 2;
    while let Some(count) = array_count(line, &object[at..]) {
        at += 3;
        let index = next_index(line, &indices[place..]);
        sum = plus(times(sum, count), index);
        place += taken(line, &indices[place..]);
    }
    times(sum, first_bytes(line, &object[at..]))
}

// A sum of at most 2^31 either way.
fn small(sum: Sum) -> Option<i64>
    ensures { (z : ℤ) → IsSum (2 ^ 126) z sum → MatchOption result (IsNearOffset z → ⊥) (λ n. (n ≡ z) × IsNearOffset n) }
{
    match sum {
        Sum::Known(n) if -2147483648 <= n && n <= 2147483648 => Some(n as i64),
        _ => None,
    }
}

/// What the numbers among indices into a type come to in bytes; `None` where that is more than 2^31 either way.
pub fn offset(line: &[u8], object: &[Token], indices: &[Token]) -> Option<i64>
    requires object { All (IsTokenOf line.now) object.now }
    requires indices { All (IsTokenOf line.now) indices.now }
    ensures { (sizes : List ℕ) (items : List IndexItem) (names : List (List ℕ)) → IsObject sizes (texts line.now object.now)
        → AreWoven items names (texts line.now indices.now) → length items ≤ length sizes
        → MatchOption result (IsNearOffset (offset_of_items sizes items) → ⊥) (λ n. (n ≡ offset_of_items sizes items) × IsNearOffset n) }
{
    match first_index(line, indices) {
        Some(first) => small(sum_over(line, object, indices, first)),
        None => None,
    }
}
