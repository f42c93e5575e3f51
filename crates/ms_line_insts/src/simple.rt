// Instructions without lists and types of objects, each read from its first word on.
ghost use Rattle.std.specs.Prelude.{◌≡◌, ℕ, ◌<◌, ◌∷◌, [], List, true, false, All, IfOk, MatchOption};
ghost use Rattle.ms_lex.specs.Line.{IsTokenOf};
ghost use Rattle.ms_ir.specs.declared.names.Ty.{Ty};
ghost use Rattle.ms_ir.specs.declared.inst.Op.{Op};
ghost use Rattle.ms_ir.specs.declared.inst.Pred.{Pred};
ghost use Rattle.ms_ir.specs.declared.inst.CastOp.{CastOp};
ghost use Rattle.ms_ir.specs.declared.inst.Flags.{Flags};
ghost use Rattle.ms_grammar.specs.Kept.{IsStored};
ghost use Rattle.ms_grammar.specs.Words.{op_word, predicate_word, cast_word};
ghost use Rattle.ms_grammar.specs.Parts.{token};
ghost use Rattle.ms_grammar.specs.Fits.{IsInt, Converts};
ghost use Rattle.ms_grammar.specs.Numbers.{bits};
ghost use Rattle.ms_grammar.specs.declared.keyword.Keyword.TheVariants as word;
ghost use Rattle.ms_grammar.specs.declared.line.RawVal.{RawVal};
ghost use Rattle.ms_grammar.specs.declared.line.RawInst.{RawInst};
ghost use Rattle.ms_line_insts.specs.Found.{IsFound, SpellInst};
ghost use Rattle.ms_line_insts.specs.Front.{NoFront, Front, NoFrontIf, Ahead, Always, typed};
ghost use Rattle.ms_line_insts.specs.Ends.{NoEnd, End, Tailed, tailed, type_lead_parts};
ghost use Rattle.ms_line_insts.specs.Heads.{IsStoredValue, store_parts, StartsType, IsOpHead, op_head_parts, comparison_parts, IsChoice, choice_end_parts, IsCastHead, cast_head_parts, IsConversion, converted_parts};

use crate::flags::{NO_FLAGS, flag_front, flags_for_cast, flags_for_op, flags_front, same_flags};
use crate::found::FoundInst;
use crate::groups::{
    behind_lead, condition_front, end_tail, further_typed, given_end, is_number, pair_end,
    type_lead, typed_front,
};
use crate::steps::{behind_word, split, type_front, value_front};
use ms_grammar::{Keyword, RawInst, RawVal};
use ms_ir::{CastOp, Flags, NoMemory, Op, Pred, Text, Ty};
use ms_lex::Token;
use ms_line_parts::{cast_at, op_at, pred_at};
use std::alloc::Global;

// Whether numbers of a type have a place in memory.
fn is_stored(ty: Ty) -> bool
    ensures yes { result ≡ true → IsStored ty }
    ensures no { result ≡ false → IsStored ty → ⊥ }
{
    match ty {
        Ty::I1 | Ty::Ptr => false,
        _ => true,
    }
}

// The type of what is loaded, behind its word.
fn load_front<'a>(line: &[u8], tokens: &'a [Token]) -> Option<(Ty, &'a [Token])>
    requires { All (IsTokenOf line.now) tokens.now }
    ensures { MatchOption result (NoFront IsStored (type_lead_parts word.Load) line.now tokens.now)
        (λ f. Front IsStored (type_lead_parts word.Load) line.now tokens.now f.0 f.1.now) }
{
    let Some((ty, rest)) = type_lead(line, tokens, Keyword::Load) else {
        return None;
    };
    if is_stored(ty) {
        Some((ty, rest))
    } else {
        None
    }
}

// `load TYPE, ptr POINTER`.
pub fn load(alloc: Global, line: &[u8], tokens: &[Token]) -> Result<Option<FoundInst>, NoMemory>
    requires { All (IsTokenOf line.now) tokens.now }
    ensures { IfOk result (λ found. MatchOption found
        ((ty : Ty) (ptr : RawVal) (rest : List ℕ) → SpellInst line.now tokens.now (RawInst.Load ty ptr rest) → ⊥)
        (IsFound line.now tokens.now)) }
{
    let Some((ty, at_ptr)) = load_front(line, tokens) else {
        return Ok(None);
    };
    match given_end(alloc, line, at_ptr, Ty::Ptr)? {
        Some((ptr, tail)) => Ok(Some(FoundInst::Whole(RawInst::Load { ty, ptr, tail }))),
        None => Ok(None),
    }
}

// What is stored, behind its type.
fn stored_front<'a>(
    alloc: Global,
    line: &[u8],
    tokens: &'a [Token],
) -> Result<Option<((Ty, RawVal), &'a [Token])>, NoMemory>
    requires { All (IsTokenOf line.now) tokens.now }
    ensures { IfOk result (λ found. MatchOption found (NoFront IsStoredValue typed line.now tokens.now)
        (λ f. Front IsStoredValue typed line.now tokens.now f.0 f.1.now)) }
{
    let Some((ty, behind)) = type_front(line, tokens) else {
        return Ok(None);
    };
    if !is_stored(ty) {
        return Ok(None);
    }
    match value_front(alloc, line, behind, ty)? {
        Some((val, rest)) => Ok(Some(((ty, val), rest))),
        None => Ok(None),
    }
}

// The same behind the word of a store.
fn store_front<'a>(
    alloc: Global,
    line: &[u8],
    tokens: &'a [Token],
) -> Result<Option<((Ty, RawVal), &'a [Token])>, NoMemory>
    requires { All (IsTokenOf line.now) tokens.now }
    ensures { IfOk result (λ found. MatchOption found (NoFront IsStoredValue store_parts line.now tokens.now)
        (λ f. Front IsStoredValue store_parts line.now tokens.now f.0 f.1.now)) }
{
    let Some(behind) = behind_lead(line, tokens, Keyword::Store) else {
        return Ok(None);
    };
    stored_front(alloc, line, behind)
}

// `store TYPE VALUE, ptr POINTER`.
pub fn store(alloc: Global, line: &[u8], tokens: &[Token]) -> Result<Option<FoundInst>, NoMemory>
    requires { All (IsTokenOf line.now) tokens.now }
    ensures { IfOk result (λ found. MatchOption found
        ((ty : Ty) (val ptr : RawVal) (rest : List ℕ) → SpellInst line.now tokens.now (RawInst.Store ty val ptr rest) → ⊥)
        (IsFound line.now tokens.now)) }
{
    let Some((given, at_ptr)) = store_front(alloc, line, tokens)? else {
        return Ok(None);
    };
    let (ty, val) = given;
    match given_end(alloc, line, at_ptr, Ty::Ptr)? {
        Some((ptr, tail)) => Ok(Some(FoundInst::Whole(RawInst::Store { ty, val, ptr, tail }))),
        None => Ok(None),
    }
}

fn op_front<'a>(line: &[u8], tokens: &'a [Token]) -> Option<(Op, &'a [Token])>
    requires { All (IsTokenOf line.now) tokens.now }
    ensures { MatchOption result (NoFront Always (λ op. token (op_word op) ∷ []) line.now tokens.now)
        (λ f. Front Always (λ op. token (op_word op) ∷ []) line.now tokens.now f.0 f.1.now) }
{
    let Some((first, rest)) = split(line, tokens) else {
        return None;
    };
    match op_at(line, first) {
        Some(op) => Some((op, rest)),
        None => None,
    }
}

fn pred_front<'a>(line: &[u8], tokens: &'a [Token]) -> Option<(Pred, &'a [Token])>
    requires { All (IsTokenOf line.now) tokens.now }
    ensures { MatchOption result (NoFront Always (λ pred. token (predicate_word pred) ∷ []) line.now tokens.now)
        (λ f. Front Always (λ pred. token (predicate_word pred) ∷ []) line.now tokens.now f.0 f.1.now) }
{
    let Some((first, rest)) = split(line, tokens) else {
        return None;
    };
    match pred_at(line, first) {
        Some(pred) => Some((pred, rest)),
        None => None,
    }
}

fn cast_front<'a>(line: &[u8], tokens: &'a [Token]) -> Option<(CastOp, &'a [Token])>
    requires { All (IsTokenOf line.now) tokens.now }
    ensures { MatchOption result (NoFront Always (λ op. token (cast_word op) ∷ []) line.now tokens.now)
        (λ f. Front Always (λ op. token (cast_word op) ∷ []) line.now tokens.now f.0 f.1.now) }
{
    let Some((first, rest)) = split(line, tokens) else {
        return None;
    };
    match cast_at(line, first) {
        Some(op) => Some((op, rest)),
        None => None,
    }
}

// An operation with its flags, in front of a type.
fn op_head<'a>(line: &[u8], tokens: &'a [Token]) -> Option<((Op, Flags), &'a [Token])>
    requires { All (IsTokenOf line.now) tokens.now }
    ensures { MatchOption result (NoFrontIf StartsType IsOpHead op_head_parts line.now tokens.now)
        (λ f. Ahead StartsType IsOpHead op_head_parts line.now tokens.now f.0 f.1.now) }
{
    let Some((op, at_flags)) = op_front(line, tokens) else {
        return None;
    };
    let (flags, rest) = flags_front(line, at_flags);
    if same_flags(flags, flags_for_op(op, flags)) {
        Some(((op, flags), rest))
    } else {
        None
    }
}

// `OP FLAGS TYPE VALUE, VALUE`.
pub fn binary(alloc: Global, line: &[u8], tokens: &[Token]) -> Result<Option<FoundInst>, NoMemory>
    requires { All (IsTokenOf line.now) tokens.now }
    ensures { IfOk result (λ found. MatchOption found
        ((op : Op) (flags : Flags) (ty : Ty) (a b : RawVal) (rest : List ℕ) → SpellInst line.now tokens.now (RawInst.Bin op flags ty a b rest) → ⊥)
        (IsFound line.now tokens.now)) }
{
    let Some(((op, flags), at_type)) = op_head(line, tokens) else {
        return Ok(None);
    };
    let Some(pair) = pair_end(alloc, line, at_type)? else {
        return Ok(None);
    };
    let ((ty, a), (b, tail)) = pair;
    Ok(Some(FoundInst::Whole(RawInst::Bin {
        op,
        flags,
        ty,
        a,
        b,
        tail,
    })))
}

// A comparison's word, sign and predicate.
fn comparison_head<'a>(line: &[u8], tokens: &'a [Token]) -> Option<((Pred, bool), &'a [Token])>
    requires { All (IsTokenOf line.now) tokens.now }
    ensures { MatchOption result (NoFront Always comparison_parts line.now tokens.now)
        (λ f. Ahead Always Always comparison_parts line.now tokens.now f.0 f.1.now) }
{
    let Some(at_flag) = behind_word(line, tokens, Keyword::Icmp) else {
        return None;
    };
    let (samesign, at_pred) = flag_front(line, at_flag, Keyword::Samesign);
    match pred_front(line, at_pred) {
        Some((pred, rest)) => Some(((pred, samesign), rest)),
        None => None,
    }
}

// `icmp SIGN PREDICATE TYPE VALUE, VALUE`.
pub fn compare(alloc: Global, line: &[u8], tokens: &[Token]) -> Result<Option<FoundInst>, NoMemory>
    requires { All (IsTokenOf line.now) tokens.now }
    ensures { IfOk result (λ found. MatchOption found
        ((pred : Pred) (flags : Flags) (ty : Ty) (a b : RawVal) (rest : List ℕ) → SpellInst line.now tokens.now (RawInst.Cmp pred flags ty a b rest) → ⊥)
        (IsFound line.now tokens.now)) }
{
    let Some(((pred, samesign), at_type)) = comparison_head(line, tokens) else {
        return Ok(None);
    };
    let Some(pair) = pair_end(alloc, line, at_type)? else {
        return Ok(None);
    };
    let ((ty, a), (b, tail)) = pair;
    Ok(Some(FoundInst::Whole(RawInst::Cmp {
        pred,
        flags: Flags {
            samesign,
            ..NO_FLAGS
        },
        ty,
        a,
        b,
        tail,
    })))
}

// The values of a select, up to the line's end.
fn choice_end(
    alloc: Global,
    line: &[u8],
    tokens: &[Token],
) -> Result<Option<((Ty, RawVal), (RawVal, Text))>, NoMemory>
    requires { All (IsTokenOf line.now) tokens.now }
    ensures { IfOk result (λ found. MatchOption found (NoEnd IsChoice choice_end_parts line.now tokens.now)
        (End IsChoice choice_end_parts line.now tokens.now)) }
{
    let Some((first, at_second)) = further_typed(alloc, line, tokens)? else {
        return Ok(None);
    };
    match given_end(alloc, line, at_second, first.0)? {
        Some(second) => Ok(Some((first, second))),
        None => Ok(None),
    }
}

// `select i1 CONDITION, TYPE VALUE, TYPE VALUE`.
pub fn select(alloc: Global, line: &[u8], tokens: &[Token]) -> Result<Option<FoundInst>, NoMemory>
    requires { All (IsTokenOf line.now) tokens.now }
    ensures { IfOk result (λ found. MatchOption found
        ((cond : RawVal) (ty : Ty) (a b : RawVal) (rest : List ℕ) → SpellInst line.now tokens.now (RawInst.Select cond ty a b rest) → ⊥)
        (IsFound line.now tokens.now)) }
{
    let Some((cond, at_first)) = condition_front(alloc, line, tokens, Keyword::Select)? else {
        return Ok(None);
    };
    let Some(choice) = choice_end(alloc, line, at_first)? else {
        return Ok(None);
    };
    let ((ty, a), (b, tail)) = choice;
    Ok(Some(FoundInst::Whole(RawInst::Select {
        cond,
        ty,
        a,
        b,
        tail,
    })))
}

// Whether a cast leads from a type of numbers to another.
fn converts(op: CastOp, from: Ty, to: Ty) -> bool
    ensures yes { result ≡ true → IsInt from × IsInt to × Converts op from to }
    ensures no { result ≡ false → IsInt from → IsInt to → Converts op from to → ⊥ }
{
    if !is_number(from) || !is_number(to) {
        return false;
    }
    match op {
        CastOp::Zext | CastOp::Sext => bits(from) < bits(to),
        CastOp::Trunc => bits(to) < bits(from),
    }
}

// The bits of a number of a type.
fn bits(ty: Ty) -> u32
    ensures { result ≡ bits ty }
{
    match ty {
        Ty::I1 => 1,
        Ty::I8 => 8,
        Ty::I16 => 16,
        Ty::I32 => 32,
        Ty::I64 => 64,
        Ty::Ptr => 0,
    }
}

// A cast with its flags, in front of a type.
fn cast_head<'a>(line: &[u8], tokens: &'a [Token]) -> Option<((CastOp, Flags), &'a [Token])>
    requires { All (IsTokenOf line.now) tokens.now }
    ensures { MatchOption result (NoFrontIf StartsType IsCastHead cast_head_parts line.now tokens.now)
        (λ f. Ahead StartsType IsCastHead cast_head_parts line.now tokens.now f.0 f.1.now) }
{
    let Some((op, at_flags)) = cast_front(line, tokens) else {
        return None;
    };
    let (flags, rest) = flags_front(line, at_flags);
    if same_flags(flags, flags_for_cast(op, flags)) {
        Some(((op, flags), rest))
    } else {
        None
    }
}

// What a cast converts, and to what.
fn conversion_front<'a>(
    alloc: Global,
    line: &[u8],
    tokens: &'a [Token],
    op: CastOp,
) -> Result<Option<(((Ty, RawVal), Ty), &'a [Token])>, NoMemory>
    requires { All (IsTokenOf line.now) tokens.now }
    ensures { IfOk result (λ found. MatchOption found (NoFront (IsConversion op) converted_parts line.now tokens.now)
        (λ f. Front (IsConversion op) converted_parts line.now tokens.now f.0 f.1.now)) }
{
    let Some((given, at_word)) = typed_front(alloc, line, tokens)? else {
        return Ok(None);
    };
    let Some((to, rest)) = type_lead(line, at_word, Keyword::To) else {
        return Ok(None);
    };
    if converts(op, given.0, to) {
        Ok(Some(((given, to), rest)))
    } else {
        Ok(None)
    }
}

// The same up to the line's end.
fn conversion_end(
    alloc: Global,
    line: &[u8],
    tokens: &[Token],
    op: CastOp,
) -> Result<Option<(((Ty, RawVal), Ty), Text)>, NoMemory>
    requires { All (IsTokenOf line.now) tokens.now }
    ensures { IfOk result (λ found. MatchOption found (NoEnd (Tailed (IsConversion op)) (tailed converted_parts) line.now tokens.now)
        (End (Tailed (IsConversion op)) (tailed converted_parts) line.now tokens.now)) }
{
    let Some((conversion, at_tail)) = conversion_front(alloc, line, tokens, op)? else {
        return Ok(None);
    };
    match end_tail(alloc, line, at_tail)? {
        Some(tail) => Ok(Some((conversion, tail))),
        None => Ok(None),
    }
}

// `CAST FLAGS TYPE VALUE to TYPE`.
pub fn cast(alloc: Global, line: &[u8], tokens: &[Token]) -> Result<Option<FoundInst>, NoMemory>
    requires { All (IsTokenOf line.now) tokens.now }
    ensures { IfOk result (λ found. MatchOption found
        ((op : CastOp) (flags : Flags) (from : Ty) (a : RawVal) (to : Ty) (rest : List ℕ) → SpellInst line.now tokens.now (RawInst.Cast op flags from a to rest) → ⊥)
        (IsFound line.now tokens.now)) }
{
    let Some(((op, flags), at_type)) = cast_head(line, tokens) else {
        return Ok(None);
    };
    let Some(conversion) = conversion_end(alloc, line, at_type, op)? else {
        return Ok(None);
    };
    let (((from, a), to), tail) = conversion;
    Ok(Some(FoundInst::Whole(RawInst::Cast {
        op,
        flags,
        from,
        a,
        to,
        tail,
    })))
}
