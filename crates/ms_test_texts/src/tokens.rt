// The tokens of lines, and the first byte that begins none.
ghost use Rattle.std.specs.Prelude.{All, IfOk};
ghost use Rattle.ms_lex.specs.Line.{IsTokenOf};

use ms_lex::{LexFault, TokenKind, Tokens, tokens};
use std::alloc::Global;
use std::test::Fail;

/// The tokens of a line of a table.
pub fn read(alloc: Global, line: &[u8]) -> Result<Tokens, LexFault>
    ensures { IfOk result (λ list. All (IsTokenOf line.now) list) }
{
    if line.len() > 1000 {
        return Err(LexFault::Memory);
    }
    tokens(alloc, line)
}

fn letter(kind: TokenKind) -> &'static str {
    match kind {
        TokenKind::Word => "W",
        TokenKind::Local => "L",
        TokenKind::Global => "G",
        TokenKind::Number => "N",
        TokenKind::Quoted => "Q",
        TokenKind::Group => "A",
        TokenKind::Meta => "M",
        TokenKind::Punct => "P",
    }
}

// The tokens of a line, each as its kind's letter, its bytes and a line's end.
fn shown(alloc: Global, line: &str, list: &Tokens) -> Result<String, Fail> {
    let mut text = String::new(alloc);
    for token in list.as_slice() {
        text.push_str(letter(token.kind))?;
        let part = line.get(token.from as usize..token.to as usize);
        text.push_str(part.ok_or("a span outside the line")?)?;
        text.push_str("\n")?;
    }
    Ok(text)
}

// Lines, and their tokens.
const LISTS: [(&str, &str); 19] = [
    ("", ""),
    (" \t\r", ""),
    ("i32*", "Wi32\nP*\n"),
    ("a-b", "Wa-b\n"),
    ("...", "W...\n"),
    ("$c._9-", "W$c._9-\n"),
    ("%5x", "L%5\nWx\n"),
    ("%x5%.y", "L%x5\nL%.y\n"),
    ("@llvm.memcpy(", "G@llvm.memcpy\nP(\n"),
    ("-12 7-3", "N-12\nN7\nN-3\n"),
    ("x=-0,1", "Wx\nP=\nN-0\nP,\nN1\n"),
    ("007a", "N007\nWa\n"),
    ("#0{}", "A#0\nP{\nP}\n"),
    ("!{!0}!x.-$ !", "M!\nP{\nM!0\nP}\nM!x.-$\nM!\n"),
    ("()[]<>,:+|", "P(\nP)\nP[\nP]\nP<\nP>\nP,\nP:\nP+\nP|\n"),
    ("\"\"\"a b;%\"c", "Q\"\"\nQ\"a b;%\"\nWc\n"),
    ("a;\"b", "Wa\n"),
    ("  ret\tvoid\r", "Wret\nWvoid\n"),
    (";", ""),
];

#[test]
fn lists_of_tokens(rt: HostRuntime) -> Result<(), Fail> {
    let alloc = rt.alloc();
    for (line, wanted) in &LISTS {
        let list = read(alloc, line.as_bytes())?;
        assert_eq!(rt; shown(alloc, line, &list)?.as_str(), *wanted, "{line}");
    }
    Ok(())
}

// Lines, and the first byte of each that begins no token.
const BAD: [(&str, u32); 15] = [
    ("a \"b", 2),
    ("\"a\" \"", 4),
    ("\"a\nb\"", 0),
    ("\"", 0),
    ("source_filename = \"a.c", 18),
    ("call void @f() \"a\"=\"b", 19),
    ("%", 0),
    ("x %-1", 2),
    ("@5", 0),
    ("a -b", 2),
    ("--1", 0),
    ("#x", 0),
    ("a'b", 1),
    ("a\nb", 1),
    ("é", 0),
];

#[test]
fn bytes_that_begin_no_token(rt: HostRuntime) -> Result<(), Fail> {
    for (line, at) in &BAD {
        let fault = read(rt.alloc(), line.as_bytes()).err();
        assert_eq!(rt; fault, Some(LexFault::Bad(*at)), "{line}");
    }
    Ok(())
}

#[test]
fn a_token_more(rt: HostRuntime) -> Result<(), Fail> {
    let mut list = read(rt.alloc(), b"a b")?;
    let first = list.get(0).copied().ok_or("no token")?;
    list.push(first)?;
    assert_eq!(rt;
        (list.len(), list.get(2).copied(), list.get(3).copied()),
        (3, Some(first), None)
    );
    Ok(())
}
