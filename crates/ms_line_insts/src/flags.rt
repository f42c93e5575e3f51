// The flags of operations, casts and comparisons.
ghost use Rattle.std.specs.Prelude.{◌≡◌, true, false, All};
ghost use Rattle.ms_lex.specs.Line.{IsTokenOf};
ghost use Rattle.ms_grammar.specs.Words.{spelling};
ghost use Rattle.ms_grammar.specs.Fits.{flags_of_op, flags_of_cast, only_wraps};
ghost use Rattle.ms_line_insts.specs.FlagFronts.{FlagAt, Flagged};

use crate::steps::split;
use ms_grammar::Keyword;
use ms_ir::{CastOp, Flags, Op};
use ms_lex::Token;
use ms_line_parts::is_keyword;

// Whether a flag's word stands in front, and what is behind it.
pub fn flag_front<'a>(line: &[u8], tokens: &'a [Token], keyword: Keyword) -> (bool, &'a [Token])
    requires { All (IsTokenOf line.now) tokens.now }
    ensures { FlagAt (spelling keyword) line.now tokens.now result.0 result.1.now }
{
    let Some((first, rest)) = split(line, tokens) else {
        return (false, tokens);
    };
    if is_keyword(line, first, keyword) {
        (true, rest)
    } else {
        (false, tokens)
    }
}

// The flags in front of a type.
pub fn flags_front<'a>(line: &[u8], tokens: &'a [Token]) -> (Flags, &'a [Token])
    requires { All (IsTokenOf line.now) tokens.now }
    ensures { Flagged line.now tokens.now result.0 result.1.now }
{
    let (nneg, at_nuw) = flag_front(line, tokens, Keyword::Nneg);
    let (nuw, at_nsw) = flag_front(line, at_nuw, Keyword::Nuw);
    let (nsw, at_exact) = flag_front(line, at_nsw, Keyword::Nsw);
    let (exact, at_disjoint) = flag_front(line, at_exact, Keyword::Exact);
    let (disjoint, rest) = flag_front(line, at_disjoint, Keyword::Disjoint);
    let flags = Flags {
        nsw,
        nuw,
        exact,
        disjoint,
        nneg,
        samesign: false,
    };
    (flags, rest)
}

pub const NO_FLAGS: Flags = Flags {
    nsw: false,
    nuw: false,
    exact: false,
    disjoint: false,
    nneg: false,
    samesign: false,
};

fn only_wraps(flags: Flags) -> Flags
    ensures { result ≡ only_wraps flags }
{
    Flags {
        nsw: flags.nsw,
        nuw: flags.nuw,
        ..NO_FLAGS
    }
}

// Those of the flags that an operation may have.
pub fn flags_for_op(op: Op, flags: Flags) -> Flags
    ensures { result ≡ flags_of_op op flags }
{
    match op {
        Op::Add | Op::Sub | Op::Mul | Op::Shl => only_wraps(flags),
        Op::Lshr | Op::Ashr => Flags {
            exact: flags.exact,
            ..NO_FLAGS
        },
        Op::Or => Flags {
            disjoint: flags.disjoint,
            ..NO_FLAGS
        },
        Op::And | Op::Xor => NO_FLAGS,
    }
}

// Those of the flags that a cast may have.
pub fn flags_for_cast(op: CastOp, flags: Flags) -> Flags
    ensures { result ≡ flags_of_cast op flags }
{
    match op {
        CastOp::Zext => Flags {
            nneg: flags.nneg,
            ..NO_FLAGS
        },
        CastOp::Sext => NO_FLAGS,
        CastOp::Trunc => only_wraps(flags),
    }
}

pub fn same_flags(a: Flags, b: Flags) -> bool
    ensures yes { result ≡ true → a ≡ b }
    ensures no { result ≡ false → a ≡ b → ⊥ }
{
    a == b
}
