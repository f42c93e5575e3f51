// What a token stands for in attributes.
ghost use Rattle.std.specs.Prelude.{◌≡◌, true};
ghost use Rattle.std.specs.Str.{bytes_eq};
ghost use Rattle.ms_lex.specs.Kinds.{is_token};
ghost use Rattle.ms_attrs.specs.Parts.{word_part, mark_part, part_of};

use ms_lex::TokenKind;

// A token as attributes see it.
#[derive(Clone, Copy)]
pub enum Part {
    // `(`
    Parenthesis,
    // `[` or `{`
    Bracket,
    // `)`, `]` or `}`
    Closing,
    Comma,
    Colon,
    Memory,
    Nocapture,
    Captures,
    // `none`
    Nothing,
    Read,
    Write,
    ReadWrite,
    Argmem,
    Inaccessiblemem,
    // Any other word.
    Word,
    // Any other token.
    Other,
}

fn is(text: &[u8], word: &[u8]) -> bool
    ensures { result ≡ bytes_eq text.now word.now }
{
    text == word
}

#[tactic(auto, unfolding(crate::specs::Parts::word_part))]
fn part_of_word(text: &[u8]) -> Part
    ensures { result ≡ word_part text.now }
{
    if is(text, b"memory") {
        return Part::Memory;
    }
    if is(text, b"nocapture") {
        return Part::Nocapture;
    }
    if is(text, b"captures") {
        return Part::Captures;
    }
    if is(text, b"none") {
        return Part::Nothing;
    }
    if is(text, b"read") {
        return Part::Read;
    }
    if is(text, b"write") {
        return Part::Write;
    }
    if is(text, b"readwrite") {
        return Part::ReadWrite;
    }
    if is(text, b"argmem") {
        return Part::Argmem;
    }
    if is(text, b"inaccessiblemem") {
        return Part::Inaccessiblemem;
    }
    Part::Word
}

#[tactic(auto, unfolding(crate::specs::Parts::mark_part))]
fn part_of_mark(text: &[u8]) -> Part
    ensures { result ≡ mark_part text.now }
{
    if is(text, b"(") {
        return Part::Parenthesis;
    }
    if is(text, b"[") || is(text, b"{") {
        return Part::Bracket;
    }
    if is(text, b")") || is(text, b"]") || is(text, b"}") {
        return Part::Closing;
    }
    if is(text, b",") {
        return Part::Comma;
    }
    if is(text, b":") {
        return Part::Colon;
    }
    Part::Other
}

// The part that a token is.
pub fn part_of_token(kind: TokenKind, text: &[u8]) -> Part
    requires { is_token kind text.now ≡ true }
    ensures { result ≡ part_of text.now }
{
    match kind {
        TokenKind::Word => part_of_word(text),
        _ => part_of_mark(text),
    }
}
