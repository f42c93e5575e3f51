// Tokens in brackets.
ghost use Rattle.std.specs.Prelude.{◌≡◌, ◌<◌, ◌≤◌, [], All, IfOk, IfSome, MatchOption, Some, None, true, false, length};
ghost use Rattle.ms_lex.specs.Line.{IsTokenOf};
ghost use Rattle.ms_grammar.specs.Words.{spelling};
ghost use Rattle.ms_grammar.specs.Kept.{closer, is_closer, behind_token};
ghost use Rattle.ms_grammar.specs.Parts.{bytes_at, texts};
ghost use Rattle.ms_line_parts.specs.Rests.{balanced};
ghost use Rattle.ms_line_parts.specs.Reach.{open_marks, ends, inner_of, bracketed};

use crate::words::is_keyword;
use ms_grammar::Keyword;
use ms_ir::NoMemory;
use ms_lex::Token;
use std::alloc::Global;

// The mark that closes the bracket which a token opens.
fn closing_mark(line: &[u8], token: Token) -> Option<Keyword>
    requires { IsTokenOf line.now token }
    ensures { MatchOption result (closer (bytes_at line.now token) ≡ None) (λ mark. closer (bytes_at line.now token) ≡ Some (spelling mark)) }
{
    if is_keyword(line, token, Keyword::Open) {
        return Some(Keyword::Close);
    }
    if is_keyword(line, token, Keyword::OpenSquare) {
        return Some(Keyword::CloseSquare);
    }
    if is_keyword(line, token, Keyword::OpenBrace) {
        return Some(Keyword::CloseBrace);
    }
    None
}

fn is_closing_mark(line: &[u8], token: Token) -> bool
    requires { IsTokenOf line.now token }
    ensures { result ≡ is_closer (bytes_at line.now token) }
{
    is_keyword(line, token, Keyword::Close)
        || is_keyword(line, token, Keyword::CloseSquare)
        || is_keyword(line, token, Keyword::CloseBrace)
}

// Changes what is open as a token does. False where the token closes a bracket that is not the last one open.
fn pass(opened: &mut Vec<Keyword>, line: &[u8], token: Token) -> Result<bool, NoMemory>
    requires { IsTokenOf line.now token }
    ensures yes { IfOk result (λ passed. passed ≡ true
        → behind_token (open_marks opened.old.items) (bytes_at line.now token) ≡ Some (open_marks opened.new.items)) }
    ensures no { IfOk result (λ passed. passed ≡ false → behind_token (open_marks opened.old.items) (bytes_at line.now token) ≡ None) }
{
    if let Some(mark) = closing_mark(line, token) {
        opened.push(mark)?;
        return Ok(true);
    }
    if !is_closing_mark(line, token) {
        return Ok(true);
    }
    match opened.pop() {
        Some(mark) => Ok(is_keyword(line, token, mark)),
        None => Ok(false),
    }
}

// Whether each bracket among tokens is closed, the last opened first.
pub fn is_balanced(alloc: Global, line: &[u8], tokens: &[Token]) -> Result<bool, NoMemory>
    requires { All (IsTokenOf line.now) tokens.now }
    ensures { IfOk result (λ is. is ≡ balanced (texts line.now tokens.now)) }
{
    let mut opened = Vec::new(alloc);
    for token in tokens {
        if !pass(&mut opened, line, *token)? {
            return Ok(false);
        }
    }
    Ok(opened.is_empty())
}

// Whether a token closes the bracket in front of all those that are open behind it.
fn is_the_end(opened: &[Keyword], line: &[u8], token: Token, mark: Keyword) -> bool
    requires { IsTokenOf line.now token }
    ensures { result ≡ ends (spelling mark) (open_marks opened.now) (bytes_at line.now token) }
{
    match opened {
        [] => is_keyword(line, token, mark),
        _ => false,
    }
}

// How many tokens stand before the mark that closes the bracket in front of them.
pub fn inner_front(
    alloc: Global,
    line: &[u8],
    tokens: &[Token],
    mark: Keyword,
) -> Result<Option<usize>, NoMemory>
    requires { All (IsTokenOf line.now) tokens.now }
    ensures is { IfOk result (λ found. found ≡ inner_of (spelling mark) (Some []) (texts line.now tokens.now)) }
    ensures within { IfOk result (λ found. IfSome found (λ n. n < length tokens.now)) }
{
    let mut opened = Vec::new(alloc);
    for (at, token) in tokens.iter().enumerate() {
        if is_the_end(&opened, line, *token, mark) {
            return Ok(Some(at));
        }
        if !pass(&mut opened, line, *token)? {
            return Ok(None);
        }
    }
    Ok(None)
}

// How many tokens stand in brackets in front, with the brackets: none where none opens there or it is not closed.
pub fn bracketed_front(
    alloc: Global,
    line: &[u8],
    tokens: &[Token],
    first_mark: Keyword,
    last_mark: Keyword,
) -> Result<usize, NoMemory>
    requires { All (IsTokenOf line.now) tokens.now }
    ensures is { IfOk result (λ n. n ≡ bracketed (spelling first_mark) (spelling last_mark) (texts line.now tokens.now)) }
    ensures within { IfOk result (λ n. n ≤ length tokens.now) }
{
    match tokens {
        [first, rest @ ..] if is_keyword(line, *first, first_mark) => match inner_front(
            alloc, line, rest, last_mark,
        )? {
            Some(n) => Ok(n + 2),
            None => Ok(0),
        },
        _ => Ok(0),
    }
}
