// Which form a line has, by its first tokens.
ghost use Rattle.std.specs.Prelude.{◌≡◌, All};
ghost use Rattle.ms_lex.specs.Line.{IsTokenOf};
ghost use Rattle.ms_grammar.specs.Parts.{bytes_at, texts};
ghost use Rattle.ms_grammar.proofs.Sorts.{by_word, by_mark, by_third, kind_of, sort_of};
ghost use Rattle.ms_line.specs.Shapes.{kind_for};

use crate::cut::cut;
use ms_grammar::Keyword;
use ms_lex::{Token, TokenKind};
use ms_line_parts::is_keyword;

// The forms of lines.
#[derive(Clone, Copy)]
pub enum Shape {
    Empty,
    Close,
    Kept,
    Group,
    GlobalVar,
    Label,
    Declare,
    Define,
    Inst,
    Term,
}

// The form that the first word tells.
#[tactic(auto, unfolding(ms_grammar::proofs::Sorts::by_word))]
fn shape_by_word(line: &[u8], word: Token) -> Shape
    requires { IsTokenOf line.now word }
    ensures { kind_for result ≡ by_word (bytes_at line.now word) }
{
    if is_keyword(line, word, Keyword::CloseBrace) {
        return Shape::Close;
    }
    if is_keyword(line, word, Keyword::Br)
        || is_keyword(line, word, Keyword::Ret)
        || is_keyword(line, word, Keyword::Unreachable)
    {
        return Shape::Term;
    }
    if is_keyword(line, word, Keyword::Store)
        || is_keyword(line, word, Keyword::Call)
        || is_keyword(line, word, Keyword::Tail)
        || is_keyword(line, word, Keyword::NoTail)
    {
        return Shape::Inst;
    }
    if is_keyword(line, word, Keyword::Declare) {
        return Shape::Declare;
    }
    if is_keyword(line, word, Keyword::Define) {
        return Shape::Define;
    }
    if is_keyword(line, word, Keyword::Attributes) {
        return Shape::Group;
    }
    Shape::Kept
}

// The form of a line that gives a local something.
fn shape_by_third(line: &[u8], rest: &[Token]) -> Shape
    requires { All (IsTokenOf line.now) rest.now }
    ensures { kind_for result ≡ by_third (texts line.now rest.now) }
{
    match cut(line, rest) {
        Some((third, _)) => {
            if is_keyword(line, third, Keyword::TypeOf) {
                Shape::Kept
            } else {
                Shape::Inst
            }
        }
        None => Shape::Inst,
    }
}

// The form of a line that gives its first token something.
fn shape_by_mark(line: &[u8], first: Token, rest: &[Token]) -> Shape
    requires first { IsTokenOf line.now first }
    requires rest { All (IsTokenOf line.now) rest.now }
    ensures { kind_for result ≡ by_mark (kind_of (bytes_at line.now first)) (texts line.now rest.now) }
{
    match first.kind {
        TokenKind::Local => shape_by_third(line, rest),
        TokenKind::Global => Shape::GlobalVar,
        _ => Shape::Kept,
    }
}

// The form of a line with these tokens, if it has one.
#[tactic(auto, unfolding(ms_grammar::proofs::Sorts::sort_of))]
pub fn shape_by_tokens(line: &[u8], tokens: &[Token]) -> Shape
    requires { All (IsTokenOf line.now) tokens.now }
    ensures { kind_for result ≡ sort_of (texts line.now tokens.now) }
{
    let Some((first, rest)) = cut(line, tokens) else {
        return Shape::Empty;
    };
    let Some((second, behind)) = cut(line, rest) else {
        return shape_by_word(line, first);
    };
    if is_keyword(line, second, Keyword::Colon) {
        return Shape::Label;
    }
    if is_keyword(line, second, Keyword::Equals) {
        return shape_by_mark(line, first, behind);
    }
    shape_by_word(line, first)
}
