// From a line to its tokens.
ghost use Rattle.std.specs.Prelude.{◌≡◌, ◌<◌, ◌^◌, length, map, true, All, IfOk};
ghost use Rattle.ms_lex.specs.Kinds.{is_token};
ghost use Rattle.ms_lex.specs.Line.{IsTokenOf};
ghost use Rattle.ms_attrs.specs.Parts.{part_of};
ghost use Rattle.ms_attrs.specs.Texts.{text_of, texts_of, AreTexts};

use crate::part::{Part, part_of_token};
use ms_ir::NoMemory;
use ms_lex::{LexFault, Token, Tokens, tokens};
use std::alloc::Global;

// The tokens of a line; none where some byte begins no token. A line of 2^32 bytes or more has too many for its tokens to be kept.
pub fn tokens_of(alloc: Global, line: &[u8]) -> Result<Tokens, NoMemory>
    ensures texts { IfOk result (λ tokens. AreTexts line.now (texts_of line.now tokens)) }
    ensures each { IfOk result (λ tokens. All (IsTokenOf line.now) tokens) }
{
    if line.len() > u32::MAX as usize {
        return Err(NoMemory);
    }
    match tokens(alloc, line) {
        Ok(list) => Ok(list),
        Err(LexFault::Bad(_)) => Ok(Tokens::new(alloc)),
        Err(LexFault::Memory) => Err(NoMemory),
    }
}

// The bytes of a token.
pub fn text_at<'a>(line: &'a [u8], token: &Token) -> &'a [u8]
    requires { IsTokenOf line.now token.now }
    ensures text { result.now ≡ text_of line.now token.now }
    ensures kind { is_token token.now.kind result.now ≡ true }
{
    &line[token.from as usize..token.to as usize]
}

// The part that a token of a line is.
pub fn part_at(line: &[u8], token: &Token) -> Part
    requires { IsTokenOf line.now token.now }
    ensures { result ≡ part_of (text_of line.now token.now) }
{
    part_of_token(token.kind, text_at(line, token))
}

// The parts that the tokens of a line are.
pub fn parts_of(alloc: Global, line: &[u8], tokens: &[Token]) -> Result<Vec<Part>, NoMemory>
    requires { All (IsTokenOf line.now) tokens.now }
    ensures { IfOk result (λ parts. parts.items ≡ map part_of (texts_of line.now tokens.now)) }
{
    let mut parts = Vec::new(alloc);
    for token in tokens {
        parts.push(part_at(line, token))?;
    }
    Ok(parts)
}
