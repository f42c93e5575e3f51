// From a line to its tokens.
ghost use Rattle.std.specs.Prelude.{◌≡◌, ◌<◌, ◌≤◌, ◌^◌, ℕ, length, All, IfOk, IfErr};
ghost use Rattle.ms_lex.specs.Line.{IsNext, NextIs, IsTokens, IsTokenOf, IsCause};

use crate::bytes::is_separator;
use crate::fault::LexFault;
use crate::front::first_token;
use crate::token::{Token, Tokens};
use std::alloc::Global;

// The place of the first byte that is no separator, or the line's end.
fn next_place(line: &[u8], from: usize) -> usize
    requires { from ≤ length line.now }
    ensures { IsNext line.now from result }
{
    let mut at = from;
    while at < line.len() && is_separator(line[at]) {
        at += 1;
    }
    at
}

// The next token from a place on.
fn next_token(line: &[u8], from: usize) -> Result<Option<Token>, LexFault>
    requires few { length line.now < 2 ^ 32 }
    requires within { from ≤ length line.now }
    ensures { NextIs line.now from result }
{
    let at = next_place(line, from);
    if at == line.len() || line[at] == b';' {
        return Ok(None);
    }
    match first_token(&line[at..]) {
        Some((kind, length)) => Ok(Some(Token {
            kind,
            from: at as u32,
            to: (at + length) as u32,
        })),
        None => Err(LexFault::Bad(at as u32)),
    }
}

/// The tokens of a line.
///
/// Each token is the longest one at its place. Spaces, tabs and carriage returns stand between
/// tokens, and a `;` outside a string begins a comment to the line's end. `Bad` comes exactly where a
/// byte begins no token, and names the first such byte; `Memory` says nothing of the line. The line
/// has fewer than 2^32 bytes, and is read once: the time is linear in its length.
pub fn tokens(alloc: Global, line: &[u8]) -> Result<Tokens, LexFault>
    requires { length line.now < 2 ^ 32 }
    ensures ok { IfOk result (λ tokens. IsTokens line.now tokens) }
    ensures err { IfErr result (λ fault. IsCause line.now fault) }

    // What the first clause says of each token by itself.
    ensures each { IfOk result (λ tokens. All (IsTokenOf line.now) tokens) }
{
    let mut tokens = Tokens::new(alloc);
    let mut from = 0;
    while let Some(token) = next_token(line, from)? {
        from = token.to as usize;
        tokens.push(token)?;
    }
    Ok(tokens)
}
