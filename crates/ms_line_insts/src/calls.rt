// Calls and memcpys, each read from its first word on.
ghost use Rattle.std.specs.Prelude.{◌≡◌, ◌≤◌, ◌<◌, ℕ, ◌++◌, ◌∷◌, [], List, true, false, take, codes, All, Option, IfOk, MatchOption};
ghost use Rattle.std.specs.Str.{bytes_eq};
ghost use Rattle.ms_lex.specs.Line.{IsTokenOf};
ghost use Rattle.ms_ir.specs.declared.names.Ty.{Ty};
ghost use Rattle.ms_ir.specs.declared.names.Name.{Name};
ghost use Rattle.ms_grammar.specs.Words.{spelling};
ghost use Rattle.ms_grammar.specs.Parts.{joined, kept_text, result_word, texts};
ghost use Rattle.ms_grammar.specs.Form.{arg_parts, end_parts};
ghost use Rattle.ms_grammar.specs.Fits.{IsOwnName, IsResult, IsWordName};
ghost use Rattle.ms_grammar.specs.declared.line.RawArg.{RawArg};
ghost use Rattle.ms_grammar.specs.declared.line.RawInst.{RawInst};
ghost use Rattle.ms_line_insts.specs.Found.{IsFound, SpellInst};
ghost use Rattle.ms_line_insts.specs.Front.{Spelt, NoFront, Front, NoFrontIf, FrontIf, Ahead, Always, NoLead, Leads};
ghost use Rattle.ms_line_insts.specs.Ends.{NoEnd, End};
ghost use Rattle.ms_line_insts.specs.ListFronts.{behind_comma};
ghost use Rattle.ms_line_insts.specs.CallFronts.{NamesResult, NoResult, length_parts, copy_flag_parts, IsCallStart, call_start_parts, copy_start_parts, callee_parts, BeginsMark, IsPointerArg, AreArgs, args_end_parts, ArePointers, pointers_parts, length_end_parts, IsCopyFront, copy_front_parts};

use crate::args::{args_front, call_end, count_front, pointer_front};
use crate::cuts::{attributes_cut, mark_cut, written_cut};
use crate::found::FoundInst;
use crate::groups::{behind_lead, behind_type, is_number};
use crate::joins::{join, join_kept, words_text};
use crate::steps::{behind_word, split};
use ms_grammar::{Keyword, RawArg, RawArgs, RawInst, keyword_bytes, ty_bytes};
use ms_ir::{Name, NoMemory, Text, Ty};
use ms_lex::Token;
use std::alloc::Global;

// What a function gives.
fn result_front<'a>(line: &[u8], tokens: &'a [Token]) -> Option<(Option<Ty>, &'a [Token])>
    requires { All (IsTokenOf line.now) tokens.now }
    ensures { MatchOption result (NoResult line.now tokens.now) (λ f. NamesResult line.now tokens.now f.0 f.1.now) }
{
    let Some((first, rest)) = split(line, tokens) else {
        return None;
    };
    if ms_line_parts::is_keyword(line, first, Keyword::Void) {
        return Some((None, rest));
    }
    match ms_line_parts::type_at(line, first) {
        Some(ty) => Some((Some(ty), rest)),
        None => None,
    }
}

// Whether a call may give this.
fn is_result(ret: Option<Ty>) -> bool
    ensures yes { result ≡ true → IsResult ret }
    ensures no { result ≡ false → IsResult ret → ⊥ }
{
    match ret {
        Some(ty) => is_number(ty),
        None => true,
    }
}

// Whether a name is one of the language's own functions.
fn is_intrinsic(text: &[u8]) -> bool
    ensures { result ≡ bytes_eq (take 5 text.now) (codes "llvm.") }
{
    let most = if text.len() < 5 { text.len() } else { 5 };
    &text[..most] == b"llvm.".as_slice()
}

fn is_own(name: &Name) -> bool
    requires { IsWordName name.now }
    ensures yes { result ≡ true → IsOwnName name.now }
    ensures no { result ≡ false → IsOwnName name.now → ⊥ }
{
    match name {
        Name::Word(text) => !is_intrinsic(text.bytes()),
        _ => false,
    }
}

// The name of a callee.
fn callee_front<'a>(
    alloc: Global,
    line: &[u8],
    tokens: &'a [Token],
) -> Result<Option<(Name, &'a [Token])>, NoMemory>
    requires { All (IsTokenOf line.now) tokens.now }
    ensures { IfOk result (λ found. MatchOption found (NoFront IsOwnName callee_parts line.now tokens.now)
        (λ f. Front IsOwnName callee_parts line.now tokens.now f.0 f.1.now)) }
{
    let Some((first, rest)) = split(line, tokens) else {
        return Ok(None);
    };
    let Some(name) = ms_line_parts::global_at(alloc, line, first)? else {
        return Ok(None);
    };
    if is_own(&name) {
        Ok(Some((name, rest)))
    } else {
        Ok(None)
    }
}

fn result_bytes(ret: Option<Ty>) -> &'static [u8]
    ensures { result.now ≡ result_word ret }
{
    match ret {
        Some(ty) => ty_bytes(ty),
        None => keyword_bytes(Keyword::Void),
    }
}

// The kept text of what stands before the name of a callee.
fn call_text(
    alloc: Global,
    line: &[u8],
    mark: &[Token],
    before: &[Token],
    ret: Option<Ty>,
    written: &[Token],
) -> Result<Text, NoMemory>
    requires mark { All (IsTokenOf line.now) mark.now }
    requires before { All (IsTokenOf line.now) before.now }
    requires written { All (IsTokenOf line.now) written.now }
    ensures { IfOk result (λ text. text
        ≡ joined (texts line.now mark.now ++ kept_text line.now before.now ∷ result_word ret ∷ kept_text line.now written.now ∷ [])) }
{
    let mut text = words_text(alloc, line, mark)?;
    join_kept(alloc, line, &mut text, before)?;
    join(&mut text, result_bytes(ret))?;
    join_kept(alloc, line, &mut text, written)?;
    Ok(Text::from_vec(text))
}

// A call up to the opening parenthesis of its arguments.
fn call_start<'a>(
    alloc: Global,
    line: &[u8],
    tokens: &'a [Token],
) -> Result<Option<((Option<Ty>, Text, Name), &'a [Token])>, NoMemory>
    requires { All (IsTokenOf line.now) tokens.now }
    ensures { IfOk result (λ found. MatchOption found (NoFront IsCallStart call_start_parts line.now tokens.now)
        (λ f. Front IsCallStart call_start_parts line.now tokens.now f.0 f.1.now)) }
{
    let Some((mark, at_attributes)) = mark_cut(line, tokens) else {
        return Ok(None);
    };
    let (before, at_result) = attributes_cut(alloc, line, at_attributes)?;
    let Some((ret, at_written)) = result_front(line, at_result) else {
        return Ok(None);
    };
    if !is_result(ret) {
        return Ok(None);
    }
    let (written, at_callee) = written_cut(alloc, line, at_written)?;
    let Some((callee, at_open)) = callee_front(alloc, line, at_callee)? else {
        return Ok(None);
    };
    let Some(rest) = behind_word(line, at_open, Keyword::Open) else {
        return Ok(None);
    };
    let head = call_text(alloc, line, mark, before, ret, written)?;
    Ok(Some(((ret, head, callee), rest)))
}

// The arguments of a call, and what is kept behind them.
fn args_end(
    alloc: Global,
    line: &[u8],
    tokens: &[Token],
) -> Result<Option<(RawArgs, (Text, Text))>, NoMemory>
    requires { All (IsTokenOf line.now) tokens.now }
    ensures { IfOk result (λ found. MatchOption found (NoEnd AreArgs args_end_parts line.now tokens.now)
        (End AreArgs args_end_parts line.now tokens.now)) }
{
    let Some((args, at_end)) = args_front(alloc, line, tokens)? else {
        return Ok(None);
    };
    match call_end(alloc, line, at_end)? {
        Some(end) => Ok(Some((args, end))),
        None => Ok(None),
    }
}

// `call ATTRIBUTES RESULT CALLEE(ARGUMENTS) ATTRIBUTES`.
pub fn call(alloc: Global, line: &[u8], tokens: &[Token]) -> Result<Option<FoundInst>, NoMemory>
    requires { All (IsTokenOf line.now) tokens.now }
    ensures { IfOk result (λ found. MatchOption found
        ((callee : Name) (ret : Option Ty) (args : List RawArg) (head post rest : List ℕ) → SpellInst line.now tokens.now (RawInst.Call callee ret args head post rest) → ⊥)
        (IsFound line.now tokens.now)) }
{
    let Some((start, at_args)) = call_start(alloc, line, tokens)? else {
        return Ok(None);
    };
    let Some(end) = args_end(alloc, line, at_args)? else {
        return Ok(None);
    };
    let (ret, head, callee) = start;
    let (args, (post, tail)) = end;
    Ok(Some(FoundInst::Whole(RawInst::Call {
        callee,
        ret,
        args,
        head,
        post,
        tail,
    })))
}

// A memcpy up to the opening parenthesis of its arguments.
fn copy_start<'a>(
    alloc: Global,
    line: &[u8],
    tokens: &'a [Token],
) -> Result<Option<(Text, &'a [Token])>, NoMemory>
    requires { All (IsTokenOf line.now) tokens.now }
    ensures { IfOk result (λ found. MatchOption found (NoFront Always copy_start_parts line.now tokens.now)
        (λ f. Front Always copy_start_parts line.now tokens.now f.0 f.1.now)) }
{
    let Some((mark, at_void)) = mark_cut(line, tokens) else {
        return Ok(None);
    };
    let Some(at_name) = behind_word(line, at_void, Keyword::Void) else {
        return Ok(None);
    };
    let Some(at_open) = behind_word(line, at_name, Keyword::Memcpy) else {
        return Ok(None);
    };
    let Some(rest) = behind_word(line, at_open, Keyword::Open) else {
        return Ok(None);
    };
    let mut text = words_text(alloc, line, mark)?;
    join(&mut text, keyword_bytes(Keyword::Void))?;
    Ok(Some((Text::from_vec(text), rest)))
}

// A pointer behind a comma.
fn further_pointer<'a>(
    alloc: Global,
    line: &[u8],
    tokens: &'a [Token],
) -> Result<Option<(RawArg, &'a [Token])>, NoMemory>
    requires { All (IsTokenOf line.now) tokens.now }
    ensures { IfOk result (λ found. MatchOption found (NoFrontIf (BeginsMark line.now) IsPointerArg (behind_comma arg_parts) line.now tokens.now)
        (λ f. FrontIf (BeginsMark line.now) IsPointerArg (behind_comma arg_parts) line.now tokens.now f.0 f.1.now)) }
{
    let Some(behind) = behind_lead(line, tokens, Keyword::Comma) else {
        return Ok(None);
    };
    pointer_front(alloc, line, behind)
}

// The two pointers of a memcpy.
fn pointers_front<'a>(
    alloc: Global,
    line: &[u8],
    tokens: &'a [Token],
) -> Result<Option<((RawArg, RawArg), &'a [Token])>, NoMemory>
    requires { All (IsTokenOf line.now) tokens.now }
    ensures { IfOk result (λ found. MatchOption found (NoFrontIf (BeginsMark line.now) ArePointers pointers_parts line.now tokens.now)
        (λ f. Ahead (BeginsMark line.now) ArePointers pointers_parts line.now tokens.now f.0 f.1.now)) }
{
    let Some((to, at_comma)) = pointer_front(alloc, line, tokens)? else {
        return Ok(None);
    };
    match further_pointer(alloc, line, at_comma)? {
        Some((from, rest)) => Ok(Some(((to, from), rest))),
        None => Ok(None),
    }
}

// What is behind the length of a memcpy.
fn flag_end(alloc: Global, line: &[u8], tokens: &[Token]) -> Result<Option<(Text, Text)>, NoMemory>
    requires { All (IsTokenOf line.now) tokens.now }
    ensures { IfOk result (λ found. MatchOption found ((post rest : List ℕ) → Spelt line.now tokens.now (copy_flag_parts ++ end_parts post rest) → ⊥)
        (λ f. Spelt line.now tokens.now (copy_flag_parts ++ end_parts f.0 f.1))) }
{
    let Some(behind) = behind_flag(line, tokens) else {
        return Ok(None);
    };
    call_end(alloc, line, behind)
}

// The length of a memcpy and what is behind it.
fn length_end(
    alloc: Global,
    line: &[u8],
    tokens: &[Token],
) -> Result<Option<(Option<u32>, (Text, Text))>, NoMemory>
    requires { All (IsTokenOf line.now) tokens.now }
    ensures { IfOk result (λ found. MatchOption found (NoEnd Always length_end_parts line.now tokens.now)
        (λ f. (n : ℕ) × End Always length_end_parts line.now tokens.now (n, f.1) × MatchOption f.0 (4096 < n) (λ m. (m ≡ n) × (m ≤ 4096)))) }
{
    let Some((len, at_flag)) = length_front(line, tokens) else {
        return Ok(None);
    };
    match flag_end(alloc, line, at_flag)? {
        Some(end) => Ok(Some((len, end))),
        None => Ok(None),
    }
}

// The pointers of a memcpy, behind its start.
fn copy_front<'a>(
    alloc: Global,
    line: &[u8],
    tokens: &'a [Token],
) -> Result<Option<((Text, (RawArg, RawArg)), &'a [Token])>, NoMemory>
    requires { All (IsTokenOf line.now) tokens.now }
    ensures { IfOk result (λ found. MatchOption found (NoFrontIf (BeginsMark line.now) IsCopyFront copy_front_parts line.now tokens.now)
        (λ f. Ahead (BeginsMark line.now) IsCopyFront copy_front_parts line.now tokens.now f.0 f.1.now)) }
{
    let Some((head, at_to)) = copy_start(alloc, line, tokens)? else {
        return Ok(None);
    };
    match pointers_front(alloc, line, at_to)? {
        Some((pointers, rest)) => Ok(Some(((head, pointers), rest))),
        None => Ok(None),
    }
}

// A call of `@llvm.memcpy.p0.p0.i64`. It is past its limit where the length is above 4,096.
pub fn copy(alloc: Global, line: &[u8], tokens: &[Token]) -> Result<Option<FoundInst>, NoMemory>
    requires { All (IsTokenOf line.now) tokens.now }
    ensures { IfOk result (λ found. MatchOption found
        ((to from : RawArg) (len : ℕ) (head post rest : List ℕ) → SpellInst line.now tokens.now (RawInst.Copy to from len head post rest) → ⊥)
        (IsFound line.now tokens.now)) }
{
    let Some((front, at_length)) = copy_front(alloc, line, tokens)? else {
        return Ok(None);
    };
    let Some((len, end)) = length_end(alloc, line, at_length)? else {
        return Ok(None);
    };
    let Some(len) = len else {
        return Ok(Some(FoundInst::Past(false)));
    };
    let (head, (to, from)) = front;
    let (post, tail) = end;
    Ok(Some(FoundInst::Whole(RawInst::Copy {
        to,
        from,
        len,
        head,
        post,
        tail,
    })))
}

// The length of a memcpy behind a comma, and nothing in its place where it is above 4,096.
fn length_front<'a>(line: &[u8], tokens: &'a [Token]) -> Option<(Option<u32>, &'a [Token])>
    requires { All (IsTokenOf line.now) tokens.now }
    ensures { MatchOption result (NoFront Always length_parts line.now tokens.now)
        (λ f. (n : ℕ) × Front Always length_parts line.now tokens.now n f.1.now × MatchOption f.0 (4096 < n) (λ m. (m ≡ n) × (m ≤ 4096))) }
{
    let Some(at_type) = behind_lead(line, tokens, Keyword::Comma) else {
        return None;
    };
    let Some(at_count) = behind_type(line, at_type, Ty::I64) else {
        return None;
    };
    count_front(line, at_count)
}

// What is behind the flag of a memcpy and the closing parenthesis.
fn behind_flag<'a>(line: &[u8], tokens: &'a [Token]) -> Option<&'a [Token]>
    requires { All (IsTokenOf line.now) tokens.now }
    ensures { MatchOption result (NoLead copy_flag_parts line.now tokens.now) (λ rest. Leads copy_flag_parts line.now tokens.now rest.now) }
{
    let Some(at_type) = behind_lead(line, tokens, Keyword::Comma) else {
        return None;
    };
    let Some(at_false) = behind_type(line, at_type, Ty::I1) else {
        return None;
    };
    let Some(at_close) = behind_word(line, at_false, Keyword::False) else {
        return None;
    };
    behind_word(line, at_close, Keyword::Close)
}
