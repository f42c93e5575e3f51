// The printed form of lines.
ghost use Rattle.std.specs.Prelude.{◌≡◌, ◌*◌, ◌-◌, ◌^◌, ◌<◌, ◌≤◌, ◌++◌, ◌∷◌, [], OnOk, OnErr, None, pos, decimal, map, nat_lt, if◌then◌else◌};
ghost use Rattle.ms_grammar.specs.Numbers.{number_text, signed_text};
ghost use Rattle.ms_grammar.specs.Parts.{result_word, behind_blank, text_of, part_text, filled, flag, kept, copy_head, call_head, blank};
ghost use Rattle.ms_grammar.specs.Words.{spelling, type_word};
ghost use Rattle.ms_grammar.specs.Form.{name_text, value_part, typed_parts, printed, comma_parts, target_parts, result_parts, inst_parts, no_scale, arg_parts, further, listed, entry_parts, index_text, named_parts, param_parts, dots_parts, front_parts, head_parts, call_front, brace_parts, copy_pointers, copy_length, end_parts, word_part, global_part, bin_parts, cmp_parts, cast_parts, pair_parts, conversion_parts, ret_parts, term_parts};

use crate::keyword::{Keyword, cast_bytes, keyword_bytes, op_bytes, pred_bytes, ty_bytes};
use crate::line::{
    Head, Line, RawArg, RawArgs, RawEntry, RawIndex, RawInst, RawTerm, RawTerms, RawVal,
};
use core::mem::replace_with;
use itoa::Buffer;
use ms_ir::{CastOp, Flags, Name, NoMemory, Op, Param, Pred, Text, Ty};

fn push_keyword(out: &mut Vec<u8>, keyword: Keyword) -> Result<(), NoMemory>
    ensures { OnOk result (out.new.items ≡ out.old.items ++ spelling keyword) }
{
    out.extend_from_slice(keyword_bytes(keyword))?;
    Ok(())
}

fn push_blank(out: &mut Vec<u8>) -> Result<(), NoMemory>
    ensures { OnOk result (out.new.items ≡ out.old.items ++ 32 ∷ []) }
{
    out.push(b' ')?;
    Ok(())
}

fn push_type(out: &mut Vec<u8>, ty: Ty) -> Result<(), NoMemory>
    ensures { OnOk result (out.new.items ≡ out.old.items ++ type_word ty) }
{
    out.extend_from_slice(ty_bytes(ty))?;
    Ok(())
}

// The word of what a function gives.
fn push_result_word(out: &mut Vec<u8>, ret: Option<Ty>) -> Result<(), NoMemory>
    ensures { OnOk result (out.new.items ≡ out.old.items ++ result_word ret) }
{
    let bytes = match ret {
        Some(ty) => ty_bytes(ty),
        None => keyword_bytes(Keyword::Void),
    };
    out.extend_from_slice(bytes)?;
    Ok(())
}

fn push_decimal(out: &mut Vec<u8>, n: u128) -> Result<(), NoMemory>
    ensures { OnOk result (out.new.items ≡ out.old.items ++ decimal n) }
{
    let mut buffer = Buffer::new();
    out.extend_from_slice(buffer.format(n).as_bytes())?;
    Ok(())
}

fn push_text(out: &mut Vec<u8>, text: &Text) -> Result<(), NoMemory>
    ensures { OnOk result (out.new.items ≡ out.old.items ++ text.now) }
{
    out.extend_from_slice(text.bytes())?;
    Ok(())
}

// Kept text behind a blank, and nothing where there is none.
fn push_apart(out: &mut Vec<u8>, text: &Text) -> Result<(), NoMemory>
    ensures { OnOk result (out.new.items ≡ out.old.items ++ behind_blank text.now) }
{
    let bytes = text.bytes();
    if bytes.is_empty() {
        return Ok(());
    }
    out.push(b' ')?;
    out.extend_from_slice(bytes)?;
    Ok(())
}

fn push_name(out: &mut Vec<u8>, name: &Name) -> Result<(), NoMemory>
    ensures { OnOk result (out.new.items ≡ out.old.items ++ name_text name.now) }
{
    match name {
        Name::Word(text) => push_text(out, text)?,
        Name::Number(n) => push_decimal(out, *n as u128)?,
        Name::Absent => {}
    }
    Ok(())
}

fn push_local(out: &mut Vec<u8>, name: &Name) -> Result<(), NoMemory>
    ensures { OnOk result (out.new.items ≡ out.old.items ++ 37 ∷ name_text name.now) }
{
    out.push(b'%')?;
    push_name(out, name)?;
    Ok(())
}

fn push_global(out: &mut Vec<u8>, name: &Name) -> Result<(), NoMemory>
    ensures { OnOk result (out.new.items ≡ out.old.items ++ 64 ∷ name_text name.now) }
{
    out.push(b'@')?;
    push_name(out, name)?;
    Ok(())
}

fn push_global_text(out: &mut Vec<u8>, text: &Text) -> Result<(), NoMemory>
    ensures { OnOk result (out.new.items ≡ out.old.items ++ 64 ∷ text.now) }
{
    out.push(b'@')?;
    push_text(out, text)?;
    Ok(())
}

// A number below half of 2^M as it is, any other as what lacks to 2^M behind a minus.
fn push_signed(out: &mut Vec<u8>, half: u128, n: u64) -> Result<(), NoMemory>
    requires { half ≤ 2 ^ 64 }
    ensures { OnOk result (out.new.items ≡ out.old.items
        ++ (if nat_lt n half then decimal n else 45 ∷ decimal (half * 2 - n))) }
{
    let n = n as u128;
    if n < half {
        push_decimal(out, n)?;
    } else {
        out.push(b'-')?;
        push_decimal(out, (half * 2).saturating_sub(n))?;
    }
    Ok(())
}

fn push_number(out: &mut Vec<u8>, ty: Ty, n: u64) -> Result<(), NoMemory>
    ensures { OnOk result (out.new.items ≡ out.old.items ++ number_text ty n) }
{
    match ty {
        Ty::I1 => {
            let word = if n == 0 {
                Keyword::False
            } else {
                Keyword::True
            };
            push_keyword(out, word)?;
        }
        Ty::I8 => push_signed(out, 0x80, n)?,
        Ty::I16 => push_signed(out, 0x8000, n)?,
        Ty::I32 => push_signed(out, 0x8000_0000, n)?,
        Ty::I64 => push_signed(out, 0x8000_0000_0000_0000, n)?,
        Ty::Ptr => {}
    }
    Ok(())
}

fn push_value(out: &mut Vec<u8>, val: &RawVal) -> Result<(), NoMemory>
    ensures { OnOk result (out.new.items ≡ out.old.items ++ part_text (value_part val.now)) }
{
    match val {
        RawVal::Num(ty, n) => push_number(out, *ty, *n)?,
        RawVal::Local(name) => push_local(out, name)?,
        RawVal::Global(name) => push_global(out, name)?,
    }
    Ok(())
}

// A value behind its type.
fn push_typed(out: &mut Vec<u8>, ty: Ty, val: &RawVal) -> Result<(), NoMemory>
    ensures { OnOk result (out.new.items ≡ out.old.items ++ text_of (typed_parts ty val.now)) }
{
    push_type(out, ty)?;
    push_blank(out)?;
    push_value(out, val)?;
    Ok(())
}

fn push_comma(out: &mut Vec<u8>) -> Result<(), NoMemory>
    ensures { OnOk result (out.new.items ≡ out.old.items ++ text_of comma_parts) }
{
    push_keyword(out, Keyword::Comma)?;
    push_blank(out)?;
    Ok(())
}

fn push_target(out: &mut Vec<u8>, name: &Name) -> Result<(), NoMemory>
    ensures { OnOk result (out.new.items ≡ out.old.items ++ text_of (target_parts name.now)) }
{
    push_keyword(out, Keyword::Label)?;
    push_blank(out)?;
    push_local(out, name)?;
    Ok(())
}

// A keyword and a blank behind it.
fn push_lead(out: &mut Vec<u8>, keyword: Keyword) -> Result<(), NoMemory>
    ensures { OnOk result (out.new.items ≡ out.old.items ++ spelling keyword ++ 32 ∷ []) }
{
    push_keyword(out, keyword)?;
    push_blank(out)?;
    Ok(())
}

fn push_arg(out: &mut Vec<u8>, arg: &RawArg) -> Result<(), NoMemory>
    ensures { OnOk result (out.new.items ≡ out.old.items ++ text_of (arg_parts arg.now)) }
{
    push_type(out, arg.ty)?;
    push_apart(out, &arg.text)?;
    push_blank(out)?;
    push_value(out, &arg.val)?;
    Ok(())
}

// Arguments with a comma before each.
fn push_further_args(out: &mut Vec<u8>, args: &[RawArg]) -> Result<(), NoMemory>
    ensures { OnOk result (out.new.items ≡ out.old.items ++ text_of (further (map arg_parts args.now))) }
{
    for arg in args {
        push_comma(out)?;
        push_arg(out, arg)?;
    }
    Ok(())
}

fn push_args(out: &mut Vec<u8>, args: &[RawArg]) -> Result<(), NoMemory>
    ensures { OnOk result (out.new.items ≡ out.old.items ++ text_of (listed (map arg_parts args.now))) }
{
    if let [first, rest @ ..] = args {
        push_arg(out, first)?;
        push_further_args(out, rest)?;
    }
    Ok(())
}

fn push_entry(out: &mut Vec<u8>, entry: &RawEntry) -> Result<(), NoMemory>
    ensures { OnOk result (out.new.items ≡ out.old.items ++ text_of (entry_parts entry.now)) }
{
    push_lead(out, Keyword::OpenSquare)?;
    push_value(out, &entry.val)?;
    push_comma(out)?;
    push_local(out, &entry.from)?;
    push_blank(out)?;
    push_keyword(out, Keyword::CloseSquare)?;
    Ok(())
}

// Entries with a comma before each.
fn push_further_entries(out: &mut Vec<u8>, entries: &[RawEntry]) -> Result<(), NoMemory>
    ensures { OnOk result (out.new.items ≡ out.old.items ++ text_of (further (map entry_parts entries.now))) }
{
    for entry in entries {
        push_comma(out)?;
        push_entry(out, entry)?;
    }
    Ok(())
}

fn push_entries(out: &mut Vec<u8>, entries: &[RawEntry]) -> Result<(), NoMemory>
    ensures { OnOk result (out.new.items ≡ out.old.items ++ text_of (listed (map entry_parts entries.now))) }
{
    if let [first, rest @ ..] = entries {
        push_entry(out, first)?;
        push_further_entries(out, rest)?;
    }
    Ok(())
}

// A local behind a blank, and nothing where there is no name.
fn push_named(out: &mut Vec<u8>, name: &Name) -> Result<(), NoMemory>
    ensures { OnOk result (out.new.items ≡ out.old.items ++ text_of (named_parts name.now)) }
{
    match name {
        Name::Word(_) | Name::Number(_) => {
            push_blank(out)?;
            push_local(out, name)?;
        }
        Name::Absent => {}
    }
    Ok(())
}

fn push_param(out: &mut Vec<u8>, param: &Param) -> Result<(), NoMemory>
    ensures { OnOk result (out.new.items ≡ out.old.items ++ text_of (param_parts param.now)) }
{
    push_type(out, param.ty)?;
    push_apart(out, &param.text)?;
    push_named(out, &param.name)?;
    Ok(())
}

// Parameters with a comma before each, and the same for the dots of a variadic function.
fn push_further_params(out: &mut Vec<u8>, params: &[Param], variadic: bool) -> Result<(), NoMemory>
    ensures { OnOk result (out.new.items ≡ out.old.items
        ++ text_of (further (map param_parts params.now ++ dots_parts variadic))) }
{
    for param in params {
        push_comma(out)?;
        push_param(out, param)?;
    }
    if variadic {
        push_comma(out)?;
        push_keyword(out, Keyword::Dots)?;
    }
    Ok(())
}

fn push_params(out: &mut Vec<u8>, params: &[Param], variadic: bool) -> Result<(), NoMemory>
    ensures { OnOk result (out.new.items ≡ out.old.items
        ++ text_of (listed (map param_parts params.now ++ dots_parts variadic))) }
{
    match params {
        [first, rest @ ..] => {
            push_param(out, first)?;
            push_further_params(out, rest, variadic)?;
        }
        [] => {
            if variadic {
                push_keyword(out, Keyword::Dots)?;
            }
        }
    }
    Ok(())
}

// The line of a function, up to its opening parenthesis.
fn push_head_front(out: &mut Vec<u8>, keyword: Keyword, head: &Head) -> Result<(), NoMemory>
    ensures { OnOk result (out.new.items ≡ out.old.items ++ text_of (front_parts keyword head.now)) }
{
    push_keyword(out, keyword)?;
    push_apart(out, &head.attrs)?;
    push_blank(out)?;
    push_result_word(out, head.ret)?;
    push_blank(out)?;
    push_global_text(out, &head.name)?;
    push_keyword(out, Keyword::Open)?;
    Ok(())
}

// The line of a function, up to its last attribute.
fn push_head(out: &mut Vec<u8>, keyword: Keyword, head: &Head) -> Result<(), NoMemory>
    ensures { OnOk result (out.new.items ≡ out.old.items ++ text_of (head_parts keyword head.now)) }
{
    push_head_front(out, keyword, head)?;
    push_params(out, head.params.as_slice(), head.variadic)?;
    push_keyword(out, Keyword::Close)?;
    push_apart(out, &head.post)?;
    Ok(())
}

// A word behind a blank where a flag is set.
fn push_flag(out: &mut Vec<u8>, keyword: Keyword, set: bool) -> Result<(), NoMemory>
    ensures { OnOk result (out.new.items ≡ out.old.items ++ part_text (flag (spelling keyword) set)) }
{
    if set {
        push_blank(out)?;
        push_keyword(out, keyword)?;
    }
    Ok(())
}

fn push_load(out: &mut Vec<u8>, ty: Ty, ptr: &RawVal, tail: &Text) -> Result<(), NoMemory>
    ensures { OnOk result (out.new.items ≡ out.old.items ++ text_of (inst_parts no_scale (RawInst.Load ty ptr.now tail.now))) }
{
    push_lead(out, Keyword::Load)?;
    push_type(out, ty)?;
    push_comma(out)?;
    push_typed(out, Ty::Ptr, ptr)?;
    push_text(out, tail)?;
    Ok(())
}

fn push_select(
    out: &mut Vec<u8>,
    cond: &RawVal,
    ty: Ty,
    a: &RawVal,
    b: &RawVal,
    tail: &Text,
) -> Result<(), NoMemory>
    ensures { OnOk result (out.new.items ≡ out.old.items
        ++ text_of (inst_parts no_scale (RawInst.Select cond.now ty a.now b.now tail.now))) }
{
    push_lead(out, Keyword::Select)?;
    push_typed(out, Ty::I1, cond)?;
    push_comma(out)?;
    push_typed(out, ty, a)?;
    push_comma(out)?;
    push_typed(out, ty, b)?;
    push_text(out, tail)?;
    Ok(())
}

fn push_store(
    out: &mut Vec<u8>,
    ty: Ty,
    val: &RawVal,
    ptr: &RawVal,
    tail: &Text,
) -> Result<(), NoMemory>
    ensures { OnOk result (out.new.items ≡ out.old.items
        ++ text_of (inst_parts no_scale (RawInst.Store ty val.now ptr.now tail.now))) }
{
    push_lead(out, Keyword::Store)?;
    push_typed(out, ty, val)?;
    push_comma(out)?;
    push_typed(out, Ty::Ptr, ptr)?;
    push_text(out, tail)?;
    Ok(())
}

fn push_gep(
    out: &mut Vec<u8>,
    base: &RawVal,
    head: &Text,
    index: &Text,
    tail: &Text,
) -> Result<(), NoMemory>
    ensures { OnOk result (out.new.items ≡ out.old.items
        ++ text_of (inst_parts no_scale (RawInst.Gep base.now (pos 0) head.now index.now tail.now))) }
{
    push_lead(out, Keyword::Getelementptr)?;
    push_text(out, head)?;
    push_comma(out)?;
    push_typed(out, Ty::Ptr, base)?;
    push_comma(out)?;
    push_text(out, index)?;
    push_text(out, tail)?;
    Ok(())
}

// A list of indices, with each term's value in the place of its percent sign.
fn push_filled(out: &mut Vec<u8>, terms: &[RawIndex], index: &[u8]) -> Result<(), NoMemory>
    ensures { OnOk result (out.new.items ≡ out.old.items ++ filled (map index_text terms.now) index.now) }
{
    let mut left = terms;
    for byte in index {
        match left {
            [term, rest @ ..] if *byte == b'%' => {
                push_value(out, &term.val)?;
                left = rest;
            }
            _ => out.push(*byte)?,
        }
    }
    Ok(())
}

fn push_step(
    out: &mut Vec<u8>,
    base: &RawVal,
    terms: &RawTerms,
    head: &Text,
    index: &Text,
    tail: &Text,
) -> Result<(), NoMemory>
    ensures { OnOk result (out.new.items ≡ out.old.items
        ++ text_of (inst_parts no_scale (RawInst.Step base.now (pos 0) terms.now head.now index.now tail.now))) }
{
    push_lead(out, Keyword::Getelementptr)?;
    push_text(out, head)?;
    push_comma(out)?;
    push_typed(out, Ty::Ptr, base)?;
    push_comma(out)?;
    push_filled(out, terms.as_slice(), index.bytes())?;
    push_text(out, tail)?;
    Ok(())
}

// The pointers of a memcpy, and its opening parenthesis.
fn push_copy_pointers(out: &mut Vec<u8>, to: &RawArg, from: &RawArg) -> Result<(), NoMemory>
    ensures { OnOk result (out.new.items ≡ out.old.items ++ text_of (copy_pointers to.now from.now)) }
{
    push_keyword(out, Keyword::Open)?;
    push_arg(out, to)?;
    push_comma(out)?;
    push_arg(out, from)?;
    push_comma(out)?;
    Ok(())
}

// The length of a memcpy, and what stands behind it up to the closing parenthesis.
fn push_copy_length(out: &mut Vec<u8>, len: u32) -> Result<(), NoMemory>
    ensures { OnOk result (out.new.items ≡ out.old.items ++ text_of (copy_length len)) }
{
    push_type(out, Ty::I64)?;
    push_blank(out)?;
    push_decimal(out, len as u128)?;
    push_comma(out)?;
    push_type(out, Ty::I1)?;
    push_blank(out)?;
    push_keyword(out, Keyword::False)?;
    push_keyword(out, Keyword::Close)?;
    Ok(())
}

// What is kept behind the arguments of a call.
fn push_ends(out: &mut Vec<u8>, post: &Text, tail: &Text) -> Result<(), NoMemory>
    ensures { OnOk result (out.new.items ≡ out.old.items ++ text_of (end_parts post.now tail.now)) }
{
    push_apart(out, post)?;
    push_text(out, tail)?;
    Ok(())
}

fn push_copy(
    out: &mut Vec<u8>,
    to: &RawArg,
    from: &RawArg,
    len: u32,
    head: &Text,
) -> Result<(), NoMemory>
    ensures { OnOk result (out.new.items ≡ out.old.items
        ++ text_of (kept copy_head head.now ∷ blank ∷ word_part Keyword.Memcpy ∷ copy_pointers to.now from.now ++ copy_length len)) }
{
    push_text(out, head)?;
    push_blank(out)?;
    push_keyword(out, Keyword::Memcpy)?;
    push_copy_pointers(out, to, from)?;
    push_copy_length(out, len)?;
    Ok(())
}

// A call up to the opening parenthesis of its arguments.
fn push_call_front(out: &mut Vec<u8>, callee: &Name, head: &Text) -> Result<(), NoMemory>
    ensures { OnOk result (out.new.items ≡ out.old.items ++ text_of (call_front (call_head None) head.now callee.now)) }
{
    push_text(out, head)?;
    push_blank(out)?;
    push_global(out, callee)?;
    push_keyword(out, Keyword::Open)?;
    Ok(())
}

fn push_call(
    out: &mut Vec<u8>,
    callee: &Name,
    args: &RawArgs,
    head: &Text,
    post: &Text,
    tail: &Text,
) -> Result<(), NoMemory>
    ensures { OnOk result (out.new.items ≡ out.old.items
        ++ text_of (inst_parts no_scale (RawInst.Call callee.now None args.now head.now post.now tail.now))) }
{
    push_call_front(out, callee, head)?;
    push_args(out, args.as_slice())?;
    push_keyword(out, Keyword::Close)?;
    push_ends(out, post, tail)?;
    Ok(())
}

fn push_bin(out: &mut Vec<u8>, op: Op, flags: &Flags) -> Result<(), NoMemory>
    ensures { OnOk result (out.new.items ≡ out.old.items ++ text_of (bin_parts op flags.now)) }
{
    out.extend_from_slice(op_bytes(op))?;
    push_flag(out, Keyword::Nuw, flags.nuw)?;
    push_flag(out, Keyword::Nsw, flags.nsw)?;
    push_flag(out, Keyword::Exact, flags.exact)?;
    push_flag(out, Keyword::Disjoint, flags.disjoint)?;
    push_blank(out)?;
    Ok(())
}

fn push_cmp(out: &mut Vec<u8>, pred: Pred, flags: &Flags) -> Result<(), NoMemory>
    ensures { OnOk result (out.new.items ≡ out.old.items ++ text_of (cmp_parts pred flags.now)) }
{
    push_keyword(out, Keyword::Icmp)?;
    push_flag(out, Keyword::Samesign, flags.samesign)?;
    push_blank(out)?;
    out.extend_from_slice(pred_bytes(pred))?;
    push_blank(out)?;
    Ok(())
}

fn push_cast(out: &mut Vec<u8>, op: CastOp, flags: &Flags) -> Result<(), NoMemory>
    ensures { OnOk result (out.new.items ≡ out.old.items ++ text_of (cast_parts op flags.now)) }
{
    out.extend_from_slice(cast_bytes(op))?;
    push_flag(out, Keyword::Nneg, flags.nneg)?;
    push_flag(out, Keyword::Nuw, flags.nuw)?;
    push_flag(out, Keyword::Nsw, flags.nsw)?;
    push_blank(out)?;
    Ok(())
}

// What a cast converts, and to what.
fn push_conversion(
    out: &mut Vec<u8>,
    from: Ty,
    a: &RawVal,
    to: Ty,
    tail: &Text,
) -> Result<(), NoMemory>
    ensures { OnOk result (out.new.items ≡ out.old.items
        ++ text_of (conversion_parts from a.now to tail.now)) }
{
    push_typed(out, from, a)?;
    push_blank(out)?;
    push_lead(out, Keyword::To)?;
    push_type(out, to)?;
    push_text(out, tail)?;
    Ok(())
}

// Two operands of a type.
fn push_pair(out: &mut Vec<u8>, ty: Ty, a: &RawVal, b: &RawVal) -> Result<(), NoMemory>
    ensures { OnOk result (out.new.items ≡ out.old.items ++ text_of (pair_parts ty a.now b.now)) }
{
    push_typed(out, ty, a)?;
    push_comma(out)?;
    push_value(out, b)?;
    Ok(())
}

// The local that an instruction makes, and nothing where it is not named.
fn push_result(out: &mut Vec<u8>, name: &Name) -> Result<(), NoMemory>
    ensures { OnOk result (out.new.items ≡ out.old.items ++ text_of (result_parts name.now)) }
{
    match name {
        Name::Word(_) | Name::Number(_) => {
            push_local(out, name)?;
            push_blank(out)?;
            push_keyword(out, Keyword::Equals)?;
            push_blank(out)?;
        }
        Name::Absent => {}
    }
    Ok(())
}

#[tactic(auto, using(crate::proofs::Printing::text_of_append))]
fn push_inst(out: &mut Vec<u8>, inst: &RawInst) -> Result<(), NoMemory>
    ensures { OnOk result (out.new.items ≡ out.old.items ++ text_of (inst_parts no_scale inst.now)) }
{
    match inst {
        RawInst::Alloca { head, tail, .. } => {
            push_lead(out, Keyword::Alloca)?;
            push_text(out, head)?;
            push_text(out, tail)?;
        }
        RawInst::Gep {
            base,
            head,
            index,
            tail,
            ..
        } => push_gep(out, base, head, index, tail)?,
        RawInst::Step {
            base,
            terms,
            head,
            index,
            tail,
            ..
        } => push_step(out, base, terms, head, index, tail)?,
        RawInst::Load { ty, ptr, tail } => push_load(out, *ty, ptr, tail)?,
        RawInst::Store { ty, val, ptr, tail } => push_store(out, *ty, val, ptr, tail)?,
        RawInst::Copy {
            to,
            from,
            len,
            head,
            post,
            tail,
        } => {
            push_copy(out, to, from, *len, head)?;
            push_ends(out, post, tail)?;
        }
        RawInst::Call {
            callee,
            args,
            head,
            post,
            tail,
            ..
        } => {
            push_call(out, callee, args, head, post, tail)?;
        }
        RawInst::Bin {
            op,
            flags,
            ty,
            a,
            b,
            tail,
        } => {
            push_bin(out, *op, flags)?;
            push_pair(out, *ty, a, b)?;
            push_text(out, tail)?;
        }
        RawInst::Cmp {
            pred,
            flags,
            ty,
            a,
            b,
            tail,
        } => {
            push_cmp(out, *pred, flags)?;
            push_pair(out, *ty, a, b)?;
            push_text(out, tail)?;
        }
        RawInst::Select {
            cond,
            ty,
            a,
            b,
            tail,
        } => push_select(out, cond, *ty, a, b, tail)?,
        RawInst::Cast {
            op,
            flags,
            from,
            a,
            to,
            tail,
        } => {
            push_cast(out, *op, flags)?;
            push_conversion(out, *from, a, *to, tail)?;
        }
        RawInst::Phi { ty, entries, tail } => {
            push_lead(out, Keyword::Phi)?;
            push_type(out, *ty)?;
            push_blank(out)?;
            push_entries(out, entries.as_slice())?;
            push_text(out, tail)?;
        }
    }
    Ok(())
}

fn push_given(out: &mut Vec<u8>, given: &Option<(Ty, RawVal)>) -> Result<(), NoMemory>
    ensures { OnOk result (out.new.items ≡ out.old.items ++ text_of (ret_parts given.now)) }
{
    match given {
        Some((ty, val)) => push_typed(out, *ty, val)?,
        None => push_keyword(out, Keyword::Void)?,
    }
    Ok(())
}

fn push_branch(
    out: &mut Vec<u8>,
    cond: &RawVal,
    if_true: &Name,
    if_false: &Name,
    tail: &Text,
) -> Result<(), NoMemory>
    ensures { OnOk result (out.new.items ≡ out.old.items
        ++ text_of (term_parts (RawTerm.CondBr cond.now if_true.now if_false.now tail.now))) }
{
    push_lead(out, Keyword::Br)?;
    push_typed(out, Ty::I1, cond)?;
    push_comma(out)?;
    push_target(out, if_true)?;
    push_comma(out)?;
    push_target(out, if_false)?;
    push_text(out, tail)?;
    Ok(())
}

#[tactic(auto, using(crate::proofs::Printing::text_of_append))]
fn push_term(out: &mut Vec<u8>, term: &RawTerm) -> Result<(), NoMemory>
    ensures { OnOk result (out.new.items ≡ out.old.items ++ text_of (term_parts term.now)) }
{
    match term {
        RawTerm::Br(target, tail) => {
            push_lead(out, Keyword::Br)?;
            push_target(out, target)?;
            push_text(out, tail)?;
        }
        RawTerm::CondBr(cond, if_true, if_false, tail) => {
            push_branch(out, cond, if_true, if_false, tail)?;
        }
        RawTerm::Ret(given, tail) => {
            push_lead(out, Keyword::Ret)?;
            push_given(out, given)?;
            push_text(out, tail)?;
        }
        RawTerm::Unreachable(tail) => {
            push_keyword(out, Keyword::Unreachable)?;
            push_text(out, tail)?;
        }
    }
    Ok(())
}

// The brace that opens a function's body.
fn push_brace(out: &mut Vec<u8>) -> Result<(), NoMemory>
    ensures { OnOk result (out.new.items ≡ out.old.items ++ text_of brace_parts) }
{
    push_blank(out)?;
    push_keyword(out, Keyword::OpenBrace)?;
    Ok(())
}

fn push_define(out: &mut Vec<u8>, head: &Head) -> Result<(), NoMemory>
    ensures { OnOk result (out.new.items ≡ out.old.items ++ printed (Line.Define head.now)) }
{
    push_head(out, Keyword::Define, head)?;
    push_brace(out)?;
    Ok(())
}

// The printed form of a line.
#[tactic(auto, using(crate::proofs::Printing::text_of_append))]
fn push_line(out: &mut Vec<u8>, line: &Line) -> Result<(), NoMemory>
    ensures { OnOk result (out.new.items ≡ out.old.items ++ printed line.now) }
{
    match line {
        Line::Empty => {}
        Line::Close => push_keyword(out, Keyword::CloseBrace)?,
        Line::Kept(text) | Line::Group(_, text) | Line::GlobalVar(_, text) => push_text(out, text)?,
        Line::Label(name) => {
            push_name(out, name)?;
            push_keyword(out, Keyword::Colon)?;
        }
        Line::Declare(head) => push_head(out, Keyword::Declare, head)?,
        Line::Define(head) => {
            push_define(out, head)?;
        }
        Line::Inst(name, inst) => {
            push_blank(out)?;
            push_blank(out)?;
            push_result(out, name)?;
            push_inst(out, inst)?;
        }
        Line::Term(term) => {
            push_blank(out)?;
            push_blank(out)?;
            push_term(out, term)?;
        }
    }
    Ok(())
}

// A text with a line behind it, or the text as it was.
fn with_line(to: Text, line: &Line) -> (Text, Result<(), NoMemory>)
    ensures ok { OnOk result.1 (result.0 ≡ to ++ printed line.now) }
    ensures err { OnErr result.1 (result.0 ≡ to) }
{
    let mut whole = to.into_vec();
    let mut own = Vec::new(*whole.allocator());
    let pushed = match push_line(&mut own, line) {
        Ok(()) => match whole.extend_from_slice(own.as_slice()) {
            Ok(()) => Ok(()),
            Err(_) => Err(NoMemory),
        },
        Err(e) => Err(e),
    };
    (Text::from_vec(whole), pushed)
}

/// Appends the printed form of a line, which is one line without its end: its parts with one blank
/// between them, as the form of the line says, and kept text byte for byte. The only fault is want
/// of memory; the text is then as before.
pub fn write_line(line: &Line, to: &mut Text) -> Result<(), NoMemory>
    ensures ok { OnOk result (to.new ≡ to.old ++ printed line.now) }
    ensures err { OnErr result (to.new ≡ to.old) }
{
    replace_with(to, line, with_line)
}
