use ms_ir::{CastOp, Flags, Items, Name, Op, Params, Pred, Text, Ty};

/// An operand as a line names it. A `Num` of a type of M bits is below 2^M; a `Global` has a word.
#[derive(Drop)]
pub enum RawVal {
    Num(Ty, u64),
    Local(Name),
    Global(Name),
}

/// An argument of a call: its type, its value and its kept attributes.
#[derive(Drop)]
pub struct RawArg {
    pub ty: Ty,
    pub val: RawVal,
    pub text: Text,
}

/// What a phi takes on the edge from a block.
#[derive(Drop)]
pub struct RawEntry {
    pub val: RawVal,
    pub from: Name,
}

/// An index of a getelementptr that is no number of the offset: its type, its value, and the bytes by which it counts.
#[derive(Drop)]
pub struct RawIndex {
    pub val: RawVal,
    pub ty: Ty,
    pub scale: u64,
}

pub type RawArgs = Items<RawArg>;

pub type RawEntries = Items<RawEntry>;

pub type RawTerms = Items<RawIndex>;

/// A `declare` or `define` line. `ret` is `None` for `void`; `attrs` are the kept attributes before
/// it, `post` those behind the parameters.
#[derive(Drop)]
pub struct Head {
    pub attrs: Text,
    pub ret: Option<Ty>,
    pub name: Text,
    pub params: Params,
    pub variadic: bool,
    pub post: Text,
}

/// An instruction of a line. `tail` is what is kept behind the form, from its first comma on. The
/// `head` of an alloca is its type, that of a getelementptr its attributes and its type, and that of
/// a call or memcpy all that stands before the name of what is called. The `index` of a
/// getelementptr is its list of indices, and `offset` what its numbers come to in bytes. It is a
/// `Step` where some indices are locals: they are its `terms`, and `index` has a percent sign in the
/// place of each, behind a blank where none stands there. The `post` of a call or memcpy are its
/// attributes behind the arguments.
#[derive(Drop)]
pub enum RawInst {
    Alloca {
        size: u32,
        head: Text,
        tail: Text,
    },
    Gep {
        base: RawVal,
        offset: i64,
        head: Text,
        index: Text,
        tail: Text,
    },
    Step {
        base: RawVal,
        offset: i64,
        terms: RawTerms,
        head: Text,
        index: Text,
        tail: Text,
    },
    Load {
        ty: Ty,
        ptr: RawVal,
        tail: Text,
    },
    Store {
        ty: Ty,
        val: RawVal,
        ptr: RawVal,
        tail: Text,
    },
    Copy {
        to: RawArg,
        from: RawArg,
        len: u32,
        head: Text,
        post: Text,
        tail: Text,
    },
    Call {
        callee: Name,
        ret: Option<Ty>,
        args: RawArgs,
        head: Text,
        post: Text,
        tail: Text,
    },
    Bin {
        op: Op,
        flags: Flags,
        ty: Ty,
        a: RawVal,
        b: RawVal,
        tail: Text,
    },
    Cmp {
        pred: Pred,
        flags: Flags,
        ty: Ty,
        a: RawVal,
        b: RawVal,
        tail: Text,
    },
    Select {
        cond: RawVal,
        ty: Ty,
        a: RawVal,
        b: RawVal,
        tail: Text,
    },
    Cast {
        op: CastOp,
        flags: Flags,
        from: Ty,
        a: RawVal,
        to: Ty,
        tail: Text,
    },
    Phi {
        ty: Ty,
        entries: RawEntries,
        tail: Text,
    },
}

/// A terminator of a line, each with what is kept behind its form.
#[derive(Drop)]
pub enum RawTerm {
    Br(Name, Text),
    CondBr(RawVal, Name, Name, Text),
    Ret(Option<(Ty, RawVal)>, Text),
    Unreachable(Text),
}

/// What a line says. `Kept`, `Group` and `GlobalVar` hold the kept line, a group also its number and
/// a global variable its name. `Inst` holds the name of its result, `Absent` where the line gives
/// none.
#[derive(Drop)]
pub enum Line {
    Empty,
    Close,
    Kept(Text),
    Group(u32, Text),
    GlobalVar(Text, Text),
    Label(Name),
    Declare(Head),
    Define(Head),
    Inst(Name, RawInst),
    Term(RawTerm),
}
