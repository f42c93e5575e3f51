// Texts that are kept with a blank between two.
ghost use Rattle.std.specs.Prelude.{◌≡◌, ◌∷◌, [], All, IfOk, OnOk};
ghost use Rattle.ms_lex.specs.Line.{IsTokenOf};
ghost use Rattle.ms_grammar.specs.Parts.{joined, kept_text, texts};

use ms_ir::NoMemory;
use ms_lex::Token;
use ms_line_parts::{bytes_of, kept};
use std::alloc::Global;

// Puts a text behind what is there, and a blank between the two where neither is empty.
pub fn join(out: &mut Vec<u8>, more: &[u8]) -> Result<(), NoMemory>
    ensures { OnOk result (out.new.items ≡ joined (out.old.items ∷ more.now ∷ [])) }
{
    if more.is_empty() {
        return Ok(());
    }
    if !out.is_empty() {
        out.push(b' ')?;
    }
    out.extend_from_slice(more)?;
    Ok(())
}

// Tokens with a blank between two.
pub fn words_text(alloc: Global, line: &[u8], tokens: &[Token]) -> Result<Vec<u8>, NoMemory>
    requires { All (IsTokenOf line.now) tokens.now }
    ensures { IfOk result (λ out. out.items ≡ joined (texts line.now tokens.now)) }
{
    let mut out = Vec::new(alloc);
    for token in tokens {
        join(&mut out, bytes_of(line, *token))?;
    }
    Ok(out)
}

// The kept text of tokens, behind what is there.
pub fn join_kept(
    alloc: Global,
    line: &[u8],
    out: &mut Vec<u8>,
    tokens: &[Token],
) -> Result<(), NoMemory>
    requires { All (IsTokenOf line.now) tokens.now }
    ensures { OnOk result (out.new.items ≡ joined (out.old.items ∷ kept_text line.now tokens.now ∷ [])) }
{
    let text = kept(alloc, line, tokens)?;
    join(out, text.bytes())
}
