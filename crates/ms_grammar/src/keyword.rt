ghost use Rattle.std.specs.Prelude.{◌≡◌};
ghost use Rattle.ms_grammar.specs.Words.{spelling, type_word, op_word, predicate_word, cast_word};

use ms_ir::{CastOp, Op, Pred, Ty};

/// The words and marks that stand in lines as they are.
#[derive(Clone, Copy)]
pub enum Keyword {
    Alloca,
    Getelementptr,
    Load,
    Store,
    Call,
    Tail,
    NoTail,
    Memcpy,
    Icmp,
    Select,
    Phi,
    To,
    Br,
    Ret,
    Unreachable,
    Label,
    Declare,
    Define,
    Attributes,
    Global,
    Constant,
    SourceFilename,
    Target,
    TypeOf,
    Comdat,
    Align,
    Void,
    True,
    False,
    Nuw,
    Nsw,
    Exact,
    Disjoint,
    Nneg,
    Samesign,
    Times,
    Dots,
    Equals,
    Comma,
    Colon,
    Open,
    Close,
    OpenSquare,
    CloseSquare,
    OpenBrace,
    CloseBrace,
}

/// How a word or mark is spelled.
#[tactic(auto, unfolding(crate::specs::Words::spelling))]
pub fn keyword_bytes(keyword: Keyword) -> &'static [u8]
    ensures { result.now ≡ spelling keyword }
{
    match keyword {
        Keyword::Alloca => b"alloca",
        Keyword::Getelementptr => b"getelementptr",
        Keyword::Load => b"load",
        Keyword::Store => b"store",
        Keyword::Call => b"call",
        Keyword::Tail => b"tail",
        Keyword::NoTail => b"notail",
        Keyword::Memcpy => b"@llvm.memcpy.p0.p0.i64",
        Keyword::Icmp => b"icmp",
        Keyword::Select => b"select",
        Keyword::Phi => b"phi",
        Keyword::To => b"to",
        Keyword::Br => b"br",
        Keyword::Ret => b"ret",
        Keyword::Unreachable => b"unreachable",
        Keyword::Label => b"label",
        Keyword::Declare => b"declare",
        Keyword::Define => b"define",
        Keyword::Attributes => b"attributes",
        Keyword::Global => b"global",
        Keyword::Constant => b"constant",
        Keyword::SourceFilename => b"source_filename",
        Keyword::Target => b"target",
        Keyword::TypeOf => b"type",
        Keyword::Comdat => b"comdat",
        Keyword::Align => b"align",
        Keyword::Void => b"void",
        Keyword::True => b"true",
        Keyword::False => b"false",
        Keyword::Nuw => b"nuw",
        Keyword::Nsw => b"nsw",
        Keyword::Exact => b"exact",
        Keyword::Disjoint => b"disjoint",
        Keyword::Nneg => b"nneg",
        Keyword::Samesign => b"samesign",
        Keyword::Times => b"x",
        Keyword::Dots => b"...",
        Keyword::Equals => b"=",
        Keyword::Comma => b",",
        Keyword::Colon => b":",
        Keyword::Open => b"(",
        Keyword::Close => b")",
        Keyword::OpenSquare => b"[",
        Keyword::CloseSquare => b"]",
        Keyword::OpenBrace => b"{",
        Keyword::CloseBrace => b"}",
    }
}

/// The word of a type.
#[tactic(auto, unfolding(crate::specs::Words::type_word))]
pub fn ty_bytes(ty: Ty) -> &'static [u8]
    ensures { result.now ≡ type_word ty }
{
    match ty {
        Ty::I1 => b"i1",
        Ty::I8 => b"i8",
        Ty::I16 => b"i16",
        Ty::I32 => b"i32",
        Ty::I64 => b"i64",
        Ty::Ptr => b"ptr",
    }
}

/// The word of an operation.
#[tactic(auto, unfolding(crate::specs::Words::op_word))]
pub fn op_bytes(op: Op) -> &'static [u8]
    ensures { result.now ≡ op_word op }
{
    match op {
        Op::Add => b"add",
        Op::Sub => b"sub",
        Op::Mul => b"mul",
        Op::And => b"and",
        Op::Or => b"or",
        Op::Xor => b"xor",
        Op::Shl => b"shl",
        Op::Lshr => b"lshr",
        Op::Ashr => b"ashr",
    }
}

/// The word of a predicate.
#[tactic(auto, unfolding(crate::specs::Words::predicate_word))]
pub fn pred_bytes(pred: Pred) -> &'static [u8]
    ensures { result.now ≡ predicate_word pred }
{
    match pred {
        Pred::Eq => b"eq",
        Pred::Ne => b"ne",
        Pred::Ugt => b"ugt",
        Pred::Uge => b"uge",
        Pred::Ult => b"ult",
        Pred::Ule => b"ule",
        Pred::Sgt => b"sgt",
        Pred::Sge => b"sge",
        Pred::Slt => b"slt",
        Pred::Sle => b"sle",
    }
}

/// The word of a cast.
#[tactic(auto, unfolding(crate::specs::Words::cast_word))]
pub fn cast_bytes(cast: CastOp) -> &'static [u8]
    ensures { result.now ≡ cast_word cast }
{
    match cast {
        CastOp::Zext => b"zext",
        CastOp::Sext => b"sext",
        CastOp::Trunc => b"trunc",
    }
}
