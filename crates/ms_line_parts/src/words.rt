// Single tokens: words of the grammar, names, numbers and values.
ghost use Rattle.std.specs.Prelude.{◌≡◌, ℕ, ◌≢◌, ◌<◌, ◌≤◌, ◌^◌, ◌-◌, ◌∷◌, [], ◌↔◌, true, All, MatchOption, IfOk, Some, None, IsTrue, decimal, length, slice_range};
ghost use Rattle.std.specs.List.{list_all};
ghost use Rattle.std.specs.Str.{bytes_eq};
ghost use Rattle.std.specs.Str.Parse.{digits_value};
ghost use Rattle.ms_lex.specs.Bytes.{starts_word, continues_word};
ghost use Rattle.ms_lex.specs.Kinds.{is_token, is_word, is_digits, is_number};
ghost use Rattle.ms_lex.specs.Line.{IsTokenOf};
ghost use Rattle.ms_ir.specs.declared.names.Ty.{Ty};
ghost use Rattle.ms_ir.specs.declared.names.Ty.TheVariants as Ty;
ghost use Rattle.ms_ir.specs.declared.names.Name.{Name};
ghost use Rattle.ms_ir.specs.declared.inst.Op.{Op};
ghost use Rattle.ms_ir.specs.declared.inst.Pred.{Pred};
ghost use Rattle.ms_ir.specs.declared.inst.CastOp.{CastOp};
ghost use Rattle.ms_grammar.specs.declared.line.RawVal.{RawVal};
ghost use Rattle.ms_grammar.specs.Words.{spelling, type_word, op_word, predicate_word, cast_word};
ghost use Rattle.ms_grammar.specs.Numbers.{Means, IsCount, bits, is_negative, magnitude, modulo, signed};
ghost use Rattle.ms_grammar.specs.Reading.{truth_of, type_of};
ghost use Rattle.ms_grammar.specs.Parts.{bytes_at, kept_text, SpellsPart};
ghost use Rattle.ms_grammar.specs.Form.{name_text, value_part};
ghost use Rattle.ms_grammar.specs.Fits.{IsNamed, IsWordName, IsValue, IsInt};

use itoa::Buffer;
use ms_grammar::{Keyword, RawVal, cast_bytes, keyword_bytes, op_bytes, pred_bytes, ty_bytes};
use ms_ir::{CastOp, Name, NoMemory, Op, Pred, Text, Ty};
use ms_lex::{Token, TokenKind};
use std::alloc::Global;
use std::str::from_utf8;

/// The bytes of a token.
pub fn bytes_of<'a>(line: &'a [u8], token: Token) -> &'a [u8]
    requires { IsTokenOf line.now token }
    ensures bytes { result.now ≡ bytes_at line.now token }
    ensures kind { is_token token.kind result.now ≡ true }
{
    &line[token.from as usize..token.to as usize]
}

// Whether a token is of a kind.
pub fn has_kind(line: &[u8], token: Token, kind: TokenKind) -> bool
    requires { IsTokenOf line.now token }
    ensures { result ≡ is_token kind (bytes_at line.now token) }
{
    token.kind == kind
}

/// Whether a token is this word or mark.
pub fn is_keyword(line: &[u8], token: Token, keyword: Keyword) -> bool
    requires { IsTokenOf line.now token }
    ensures { result ≡ bytes_eq (bytes_at line.now token) (spelling keyword) }
{
    bytes_of(line, token) == keyword_bytes(keyword)
}

// The type that a word names.
#[tactic(auto, unfolding(ms_grammar::specs::Reading::type_of))]
pub fn known_type(text: &[u8]) -> Option<Ty>
    ensures { result ≡ type_of text.now }
{
    if text == ty_bytes(Ty::I1) {
        return Some(Ty::I1);
    }
    if text == ty_bytes(Ty::I8) {
        return Some(Ty::I8);
    }
    if text == ty_bytes(Ty::I16) {
        return Some(Ty::I16);
    }
    if text == ty_bytes(Ty::I32) {
        return Some(Ty::I32);
    }
    if text == ty_bytes(Ty::I64) {
        return Some(Ty::I64);
    }
    if text == ty_bytes(Ty::Ptr) {
        return Some(Ty::Ptr);
    }
    None
}

/// The type that a token names.
pub fn type_at(line: &[u8], token: Token) -> Option<Ty>
    requires { IsTokenOf line.now token }
    ensures { MatchOption result ((ty : Ty) → bytes_at line.now token ≢ type_word ty) (λ ty. bytes_at line.now token ≡ type_word ty) }
{
    known_type(bytes_of(line, token))
}

/// The operation that a token names.
pub fn op_at(line: &[u8], token: Token) -> Option<Op>
    requires { IsTokenOf line.now token }
    ensures { MatchOption result ((op : Op) → bytes_at line.now token ≢ op_word op) (λ op. bytes_at line.now token ≡ op_word op) }
{
    let text = bytes_of(line, token);
    if text == op_bytes(Op::Add) {
        return Some(Op::Add);
    }
    if text == op_bytes(Op::Sub) {
        return Some(Op::Sub);
    }
    if text == op_bytes(Op::Mul) {
        return Some(Op::Mul);
    }
    if text == op_bytes(Op::And) {
        return Some(Op::And);
    }
    if text == op_bytes(Op::Or) {
        return Some(Op::Or);
    }
    if text == op_bytes(Op::Xor) {
        return Some(Op::Xor);
    }
    if text == op_bytes(Op::Shl) {
        return Some(Op::Shl);
    }
    if text == op_bytes(Op::Lshr) {
        return Some(Op::Lshr);
    }
    if text == op_bytes(Op::Ashr) {
        return Some(Op::Ashr);
    }
    None
}

/// The predicate that a token names.
pub fn pred_at(line: &[u8], token: Token) -> Option<Pred>
    requires { IsTokenOf line.now token }
    ensures { MatchOption result ((pred : Pred) → bytes_at line.now token ≢ predicate_word pred) (λ pred. bytes_at line.now token ≡ predicate_word pred) }
{
    let text = bytes_of(line, token);
    if text == pred_bytes(Pred::Eq) {
        return Some(Pred::Eq);
    }
    if text == pred_bytes(Pred::Ne) {
        return Some(Pred::Ne);
    }
    if text == pred_bytes(Pred::Ugt) {
        return Some(Pred::Ugt);
    }
    if text == pred_bytes(Pred::Uge) {
        return Some(Pred::Uge);
    }
    if text == pred_bytes(Pred::Ult) {
        return Some(Pred::Ult);
    }
    if text == pred_bytes(Pred::Ule) {
        return Some(Pred::Ule);
    }
    if text == pred_bytes(Pred::Sgt) {
        return Some(Pred::Sgt);
    }
    if text == pred_bytes(Pred::Sge) {
        return Some(Pred::Sge);
    }
    if text == pred_bytes(Pred::Slt) {
        return Some(Pred::Slt);
    }
    if text == pred_bytes(Pred::Sle) {
        return Some(Pred::Sle);
    }
    None
}

/// The cast that a token names.
pub fn cast_at(line: &[u8], token: Token) -> Option<CastOp>
    requires { IsTokenOf line.now token }
    ensures { MatchOption result ((cast : CastOp) → bytes_at line.now token ≢ cast_word cast) (λ cast. bytes_at line.now token ≡ cast_word cast) }
{
    let text = bytes_of(line, token);
    if text == cast_bytes(CastOp::Zext) {
        return Some(CastOp::Zext);
    }
    if text == cast_bytes(CastOp::Sext) {
        return Some(CastOp::Sext);
    }
    if text == cast_bytes(CastOp::Trunc) {
        return Some(CastOp::Trunc);
    }
    None
}

// A letter or one of `$ . _`.
fn starts_word(byte: u8) -> bool
    ensures { result ≡ starts_word byte }
{
    byte.is_ascii_alphabetic() || byte == b'$' || byte == b'.' || byte == b'_'
}

fn continues_word(byte: u8) -> bool
    ensures { result ≡ continues_word byte }
{
    starts_word(byte) || byte.is_ascii_digit() || byte == b'-'
}

fn all_continue(bytes: &[u8]) -> bool
    ensures { result ≡ list_all continues_word bytes.now }
{
    bytes.iter().all(|byte| continues_word(*byte))
}

fn is_a_word(text: &[u8]) -> bool
    ensures { result ≡ is_word text.now }
{
    match text {
        [] => false,
        [first, rest @ ..] => starts_word(*first) && all_continue(rest),
    }
}

// The number that digits say; of digits `None` where it is 2^128 or more.
fn value_of(digits: &[u8]) -> Option<u128>
    ensures { is_digits digits.now ≡ true
        → MatchOption result (2 ^ 128 ≤ digits_value 10 digits.now) (λ n. n ≡ digits_value 10 digits.now) }
{
    match from_utf8(digits) {
        Ok(text) => match text.parse::<u128>() {
            Ok(n) => Some(n),
            Err(_) => None,
        },
        Err(_) => None,
    }
}

// Whether a number is printed so.
fn is_decimal(n: u128, text: &[u8]) -> bool
    ensures { result ≡ bytes_eq (decimal n) text.now }
{
    let mut buffer = Buffer::new();
    buffer.format(n).as_bytes() == text
}

// The number of at most nine digits that is printed so.
fn small_number(text: &[u8]) -> Option<u32>
    ensures { MatchOption result ((n : ℕ) → n < 10 ^ 9 → text.now ≢ decimal n) (λ n. (n < 10 ^ 9) × (text.now ≡ decimal n)) }
{
    match value_of(text) {
        Some(n) if n < 1_000_000_000 && is_decimal(n, text) => Some(n as u32),
        _ => None,
    }
}

// The number of the attribute group that a token names.
pub fn group_at(line: &[u8], token: Token) -> Option<u32>
    requires { IsTokenOf line.now token }
    ensures { MatchOption result ((n : ℕ) → n < 10 ^ 9 → bytes_at line.now token ≢ 35 ∷ decimal n)
        (λ n. (n < 10 ^ 9) × (bytes_at line.now token ≡ 35 ∷ decimal n)) }
{
    match bytes_of(line, token) {
        [b'#', digits @ ..] => small_number(digits),
        _ => None,
    }
}

/// The name that bytes without a mark are: a word, or a number of at most nine digits with no zero in front of others.
pub fn name_of(alloc: Global, text: &[u8]) -> Result<Option<Name>, NoMemory>
    ensures { IfOk result (λ found. MatchOption found ((n : Name) → IsNamed n → text.now ≢ name_text n) (λ n. IsNamed n × (text.now ≡ name_text n))) }
{
    if is_a_word(text) {
        return Ok(Some(Name::Word(Text::from_bytes(alloc, text)?)));
    }
    match small_number(text) {
        Some(n) => Ok(Some(Name::Number(n))),
        None => Ok(None),
    }
}

/// The local that a token names.
pub fn local_at(alloc: Global, line: &[u8], token: Token) -> Result<Option<Name>, NoMemory>
    requires { IsTokenOf line.now token }
    ensures { IfOk result (λ found. MatchOption found ((n : Name) → IsNamed n → bytes_at line.now token ≢ 37 ∷ name_text n)
        (λ n. IsNamed n × (bytes_at line.now token ≡ 37 ∷ name_text n))) }
{
    match bytes_of(line, token) {
        [b'%', name @ ..] => name_of(alloc, name),
        _ => Ok(None),
    }
}

/// The global or function that a token names. Its name is a word.
pub fn global_at(alloc: Global, line: &[u8], token: Token) -> Result<Option<Name>, NoMemory>
    requires { IsTokenOf line.now token }
    ensures { IfOk result (λ found. MatchOption found ((n : Name) → IsWordName n → bytes_at line.now token ≢ 64 ∷ name_text n)
        (λ n. IsWordName n × (bytes_at line.now token ≡ 64 ∷ name_text n))) }
{
    match bytes_of(line, token) {
        [b'@', name @ ..] if is_a_word(name) => {
            Ok(Some(Name::Word(Text::from_bytes(alloc, name)?)))
        }
        _ => Ok(None),
    }
}

// The value of a number without its sign; `None` where it is 2^128 or more.
pub fn magnitude_of(text: &[u8]) -> Option<u128>
    requires { is_number text.now ≡ true }
    ensures { MatchOption result (2 ^ 128 ≤ magnitude text.now) (λ n. n ≡ magnitude text.now) }
{
    match text {
        [b'-', digits @ ..] => value_of(digits),
        _ => value_of(text),
    }
}

pub fn has_minus(text: &[u8]) -> bool
    ensures { result ≡ is_negative text.now }
{
    match text {
        [first, ..] => *first == b'-',
        [] => false,
    }
}

// How many numbers a type has.
fn numbers_of(ty: Ty) -> u128
    ensures value { result ≡ 2 ^ bits ty }
    ensures within { (0 < result) × (result ≤ 2 ^ 64) }
{
    match ty {
        Ty::I1 => 2,
        Ty::I8 => 1 << 8,
        Ty::I16 => 1 << 16,
        Ty::I32 => 1 << 32,
        Ty::I64 => 1 << 64,
        Ty::Ptr => 1,
    }
}

// How far below 0 a number of a type may be.
pub fn lowest_of(ty: Ty) -> u128
    ensures value { result ≡ 2 ^ (bits ty - 1) }
    ensures within { (result ≤ 2 ^ bits ty) × (result ≤ 2 ^ 63) }
{
    match ty {
        Ty::I1 | Ty::Ptr => 1,
        Ty::I8 => 1 << 7,
        Ty::I16 => 1 << 15,
        Ty::I32 => 1 << 31,
        Ty::I64 => 1 << 63,
    }
}

// The number of a type that a numeral says.
fn numeral(text: &[u8], ty: Ty) -> Option<u64>
    requires { is_number text.now ≡ true }
    ensures { result ≡ modulo (bits ty) text.now }
{
    let size = magnitude_of(text)?;
    let whole = numbers_of(ty);
    if has_minus(text) {
        if size <= lowest_of(ty) {
            return Some(((whole - size) % whole) as u64);
        }
    } else if size < whole {
        return Some(size as u64);
    }
    None
}

// The number of a type that a numeral says, with its sign.
pub fn signed_numeral(text: &[u8], ty: Ty) -> Option<i64>
    requires { is_number text.now ≡ true }
    ensures { result ≡ signed (bits ty) text.now }
{
    let size = magnitude_of(text)?;
    if has_minus(text) {
        if size <= lowest_of(ty) {
            return Some((0 - size as i128) as i64);
        }
    } else if size < lowest_of(ty) {
        return Some(size as i64);
    }
    None
}

// The number that a truth says.
fn truth(text: &[u8], ty: Ty) -> Option<u64>
    ensures { result ≡ truth_of ty text.now }
{
    match ty {
        Ty::I1 if text == keyword_bytes(Keyword::True) => Some(1),
        Ty::I1 if text == keyword_bytes(Keyword::False) => Some(0),
        _ => None,
    }
}

/// The number of a type that a token says.
pub fn number_at(line: &[u8], token: Token, ty: Ty) -> Option<u64>
    requires { IsTokenOf line.now token }
    ensures { MatchOption result ((n : ℕ) → Means ty n (bytes_at line.now token) → ⊥) (λ n. Means ty n (bytes_at line.now token)) }
{
    let text = bytes_of(line, token);
    match token.kind {
        TokenKind::Number => numeral(text, ty),
        _ => truth(text, ty),
    }
}

// The number of 0 or more that a numeral says: `Some(None)` where it is above `most`.
fn count(text: &[u8], most: u32) -> Option<Option<u32>>
    requires { is_number text.now ≡ true }
    ensures { MatchOption result ((n : ℕ) → IsCount n text.now → ⊥)
        (λ count. MatchOption count ((n : ℕ) × (IsCount n text.now) × (most < n)) (λ n. IsCount n text.now × (n ≤ most))) }
{
    match magnitude_of(text) {
        Some(0) => Some(Some(0)),
        _ if has_minus(text) => None,
        Some(size) if size <= most as u128 => Some(Some(size as u32)),
        _ => Some(None),
    }
}

/// The number of 0 or more that a token says: `None` where it says none, `Some(None)` where the number is above `most`.
pub fn count_at(line: &[u8], token: Token, most: u32) -> Option<Option<u32>>
    requires { IsTokenOf line.now token }
    ensures { MatchOption result ((n : ℕ) → IsCount n (bytes_at line.now token) → ⊥)
        (λ count. MatchOption count ((n : ℕ) × (IsCount n (bytes_at line.now token)) × (most < n)) (λ n. IsCount n (bytes_at line.now token) × (n ≤ most))) }
{
    let text = bytes_of(line, token);
    match token.kind {
        TokenKind::Number => count(text, most),
        _ => None,
    }
}

fn is_pointer(ty: Ty) -> bool
    ensures { IsTrue result ↔ (ty ≡ Ty.Ptr) }
{
    match ty {
        Ty::Ptr => true,
        _ => false,
    }
}

// The number of a type of numbers that a token says.
fn number_value(line: &[u8], token: Token, ty: Ty) -> Option<RawVal>
    requires { IsTokenOf line.now token }
    ensures { MatchOption result ((n : ℕ) → IsInt ty → Means ty n (bytes_at line.now token) → ⊥)
        (λ v. IsValue ty v × SpellsPart line.now (token ∷ []) (value_part v)) }
{
    match number_at(line, token, ty) {
        Some(n) if !is_pointer(ty) => Some(RawVal::Num(ty, n)),
        _ => None,
    }
}

/// The value of a type that a token says.
pub fn value_at(
    alloc: Global,
    line: &[u8],
    token: Token,
    ty: Ty,
) -> Result<Option<RawVal>, NoMemory>
    requires { IsTokenOf line.now token }
    ensures { IfOk result (λ found. MatchOption found ((v : RawVal) → IsValue ty v → SpellsPart line.now (token ∷ []) (value_part v) → ⊥)
        (λ v. IsValue ty v × SpellsPart line.now (token ∷ []) (value_part v))) }
{
    match token.kind {
        TokenKind::Local => match local_at(alloc, line, token)? {
            Some(name) => Ok(Some(RawVal::Local(name))),
            None => Ok(None),
        },
        TokenKind::Global if is_pointer(ty) => match global_at(alloc, line, token)? {
            Some(name) => Ok(Some(RawVal::Global(name))),
            None => Ok(None),
        },
        _ => Ok(number_value(line, token, ty)),
    }
}

// The bytes from a place up to another; none where the second is not behind the first.
pub fn between(line: &[u8], from: u32, to: u32) -> &[u8]
    requires { to ≤ length line.now }
    ensures { result.now ≡ slice_range line.now from to }
{
    if from <= to {
        &line[from as usize..to as usize]
    } else {
        &[]
    }
}

// What stands from the first byte of the first token to the last byte of the last.
fn bytes_over<'a>(line: &'a [u8], tokens: &[Token]) -> &'a [u8]
    requires { All (IsTokenOf line.now) tokens.now }
    ensures { result.now ≡ kept_text line.now tokens.now }
{
    match tokens {
        [] => &[],
        [first, ..] => between(line, first.from, tokens[tokens.len() - 1].to),
    }
}

/// The kept text of tokens: from the first byte of the first to the last byte of the last.
pub fn kept(alloc: Global, line: &[u8], tokens: &[Token]) -> Result<Text, NoMemory>
    requires { All (IsTokenOf line.now) tokens.now }
    ensures { IfOk result (λ text. text ≡ kept_text line.now tokens.now) }
{
    Ok(Text::from_bytes(alloc, bytes_over(line, tokens))?)
}
