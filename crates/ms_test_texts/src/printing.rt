// Lines that are built by hand, as they are printed. Each is built by a function of its own, and handed on as a result, so
// that no early exit drops a line: that is dear to prove.
use crate::built::{a_pointer, head, text, word};
use ms_grammar::{
    Head, Line, RawArg, RawArgs, RawEntries, RawEntry, RawIndex, RawInst, RawTerm, RawTerms,
    RawVal, write_line,
};
use ms_ir::{CastOp, Flags, Name, NoMemory, Op, Param, Params, Pred, Text, Ty};
use std::alloc::Global;
use std::process::Abort;

const NONE: Flags = Flags {
    nsw: false,
    nuw: false,
    exact: false,
    disjoint: false,
    nneg: false,
    samesign: false,
};

// The printed form of a line, behind what stood there.
fn printed(alloc: Global, line: &Line) -> Result<Text, NoMemory> {
    let mut all = text(alloc, "<")?;
    write_line(line, &mut all)?;
    Ok(all)
}

// Whether a line is printed so.
fn prints(alloc: Global, line: &Line, wanted: &str) -> Result<bool, NoMemory> {
    let all = printed(alloc, line)?;
    match all.bytes() {
        [b'<', printed @ ..] => Ok(printed == wanted.as_bytes()),
        _ => Ok(false),
    }
}

// Expects a line to be there, and to be printed so.
fn expect(rt: &impl Abort, alloc: Global, line: Result<Line, NoMemory>, wanted: &str) {
    match line {
        Ok(line) => assert_eq!(rt; prints(alloc, &line, wanted), Ok(true), "{wanted}"),
        Err(NoMemory) => assert!(rt; false, "no memory for {wanted}"),
    }
}

fn local(alloc: Global, name: &str) -> Result<RawVal, NoMemory> {
    Ok(RawVal::Local(word(alloc, name)?))
}

fn kept(alloc: Global, line: &str) -> Result<Line, NoMemory> {
    Ok(Line::Kept(text(alloc, line)?))
}

fn label(alloc: Global, name: &str) -> Result<Line, NoMemory> {
    Ok(Line::Label(word(alloc, name)?))
}

fn group(alloc: Global, number: u32, line: &str) -> Result<Line, NoMemory> {
    Ok(Line::Group(number, text(alloc, line)?))
}

fn global(alloc: Global, name: &str, line: &str) -> Result<Line, NoMemory> {
    Ok(Line::GlobalVar(text(alloc, name)?, text(alloc, line)?))
}

#[test]
fn plain_lines(rt: HostRuntime) {
    let alloc = rt.alloc();
    expect(&rt, alloc, Ok(Line::Empty), "");
    expect(&rt, alloc, Ok(Line::Close), "}");
    expect(&rt, alloc, kept(alloc, "!0 = !{}"), "!0 = !{}");
    expect(&rt, alloc, label(alloc, "entry"), "entry:");
    expect(&rt, alloc, Ok(Line::Label(Name::Number(6))), "6:");
}

const GROUP: &str = "attributes #0 = { nounwind  \"a\"=\"b\" }";

const GLOBAL: &str = "@g = global [64 x i8]  zeroinitializer";

#[test]
fn whole_lines(rt: HostRuntime) {
    let alloc = rt.alloc();
    expect(&rt, alloc, group(alloc, 0, GROUP), GROUP);
    expect(&rt, alloc, global(alloc, "g", GLOBAL), GLOBAL);
}

// `store TYPE N, ptr %p`, with the number as it is kept.
fn store_of(alloc: Global, ty: Ty, n: u64) -> Result<Line, NoMemory> {
    Ok(Line::Inst(
        Name::Absent,
        RawInst::Store {
            ty,
            val: RawVal::Num(ty, n),
            ptr: local(alloc, "p")?,
            tail: Text::new(alloc),
        },
    ))
}

// Numbers of a type as they are kept, and how they are stored.
const STORED: [(Ty, u64, &str); 6] = [
    (Ty::I32, 4294967295, "  store i32 -1, ptr %p"),
    (Ty::I32, 2147483647, "  store i32 2147483647, ptr %p"),
    (Ty::I32, 2147483648, "  store i32 -2147483648, ptr %p"),
    (Ty::I8, 128, "  store i8 -128, ptr %p"),
    (Ty::I16, 65535, "  store i16 -1, ptr %p"),
    (
        Ty::I64,
        9223372036854775808,
        "  store i64 -9223372036854775808, ptr %p",
    ),
];

#[test]
fn numbers(rt: HostRuntime) {
    let alloc = rt.alloc();
    for (ty, n, wanted) in &STORED {
        expect(&rt, alloc, store_of(alloc, *ty, *n), wanted);
    }
}

fn param(alloc: Global, ty: Ty, attrs: &str, name: Name) -> Result<Param, NoMemory> {
    Ok(Param {
        ty,
        text: text(alloc, attrs)?,
        name,
    })
}

fn two_params(alloc: Global) -> Result<Params, NoMemory> {
    let mut params = Params::new(alloc);
    params.push(param(alloc, Ty::Ptr, "noundef", Name::Number(0))?)?;
    params.push(param(alloc, Ty::I32, "", word(alloc, "n")?)?)?;
    Ok(params)
}

fn bump(alloc: Global) -> Result<Line, NoMemory> {
    Ok(Line::Define(Head {
        attrs: text(alloc, "dso_local")?,
        ret: Some(Ty::I32),
        name: text(alloc, "bump")?,
        params: two_params(alloc)?,
        variadic: false,
        post: text(alloc, "local_unnamed_addr  #0")?,
    }))
}

fn declared(alloc: Global, name: &str, params: Params, variadic: bool) -> Result<Line, NoMemory> {
    Ok(Line::Declare(head(alloc, name, params, variadic)?))
}

fn variadic(alloc: Global) -> Result<Line, NoMemory> {
    declared(alloc, "use", a_pointer(alloc)?, true)
}

#[test]
fn lines_of_functions(rt: HostRuntime) {
    let alloc = rt.alloc();
    expect(
        &rt,
        alloc,
        bump(alloc),
        "define dso_local i32 @bump(ptr noundef %0, i32 %n) local_unnamed_addr  #0 {",
    );
    expect(&rt, alloc, variadic(alloc), "declare void @use(ptr, ...)");
    expect(
        &rt,
        alloc,
        declared(alloc, "f", Params::new(alloc), false),
        "declare void @f()",
    );
}

fn made(alloc: Global, name: &str, inst: RawInst) -> Result<Line, NoMemory> {
    Ok(Line::Inst(word(alloc, name)?, inst))
}

fn alloca(alloc: Global) -> Result<Line, NoMemory> {
    let inst = RawInst::Alloca {
        size: 64,
        head: text(alloc, "[64 x i8]")?,
        tail: text(alloc, ", align 1")?,
    };
    made(alloc, "a", inst)
}

fn gep(alloc: Global) -> Result<Line, NoMemory> {
    let inst = RawInst::Gep {
        base: RawVal::Global(word(alloc, "g")?),
        offset: 4,
        head: text(alloc, "inbounds [4 x i32]")?,
        index: text(alloc, "i64 0, i64 1")?,
        tail: Text::new(alloc),
    };
    made(alloc, "t", inst)
}

fn index(val: RawVal, ty: Ty, scale: u64) -> RawIndex {
    RawIndex { val, ty, scale }
}

// A local, a number and a local without a word.
fn three_terms(alloc: Global) -> Result<RawTerms, NoMemory> {
    let mut terms = RawTerms::new(alloc);
    terms.push(index(local(alloc, "n")?, Ty::I64, 16))?;
    terms.push(index(RawVal::Num(Ty::I8, 255), Ty::I8, 8))?;
    terms.push(index(RawVal::Local(Name::Number(7)), Ty::I32, 4))?;
    Ok(terms)
}

fn step(alloc: Global) -> Result<Line, NoMemory> {
    let inst = RawInst::Step {
        base: RawVal::Global(word(alloc, "g")?),
        offset: 4,
        head: text(alloc, "inbounds [4 x [2 x [2 x i32]]]")?,
        index: text(alloc, "i64 %, i8   %, i64 1,i32 %")?,
        tail: text(alloc, ", align 4")?,
        terms: three_terms(alloc)?,
    };
    made(alloc, "t", inst)
}

fn load(alloc: Global) -> Result<Line, NoMemory> {
    let inst = RawInst::Load {
        ty: Ty::I32,
        ptr: RawVal::Local(Name::Number(0)),
        tail: text(alloc, ", align 4, !tbaa !5")?,
    };
    Ok(Line::Inst(Name::Number(3), inst))
}

#[test]
fn pointers(rt: HostRuntime) {
    let alloc = rt.alloc();
    expect(
        &rt,
        alloc,
        alloca(alloc),
        "  %a = alloca [64 x i8], align 1",
    );
    expect(
        &rt,
        alloc,
        gep(alloc),
        "  %t = getelementptr inbounds [4 x i32], ptr @g, i64 0, i64 1",
    );
    expect(
        &rt,
        alloc,
        step(alloc),
        "  %t = getelementptr inbounds [4 x [2 x [2 x i32]]], ptr @g, i64 %n, i8   -1, i64 1,i32 %7, align 4",
    );
    expect(
        &rt,
        alloc,
        load(alloc),
        "  %3 = load i32, ptr %0, align 4, !tbaa !5",
    );
}

fn arg(alloc: Global, ty: Ty, attrs: &str, val: RawVal) -> Result<RawArg, NoMemory> {
    Ok(RawArg {
        ty,
        val,
        text: text(alloc, attrs)?,
    })
}

fn pointer_arg(alloc: Global, attrs: &str, name: &str) -> Result<RawArg, NoMemory> {
    arg(alloc, Ty::Ptr, attrs, local(alloc, name)?)
}

fn copy(alloc: Global) -> Result<Line, NoMemory> {
    let inst = RawInst::Copy {
        to: pointer_arg(alloc, "align 4", "d")?,
        from: pointer_arg(alloc, "", "s")?,
        len: 32,
        head: text(alloc, "call void")?,
        post: text(alloc, "#1")?,
        tail: text(alloc, ", !tbaa !5")?,
    };
    Ok(Line::Inst(Name::Absent, inst))
}

fn two_args(alloc: Global) -> Result<RawArgs, NoMemory> {
    let mut args = RawArgs::new(alloc);
    args.push(pointer_arg(alloc, "noundef", "p")?)?;
    args.push(arg(alloc, Ty::I1, "zeroext", RawVal::Num(Ty::I1, 1))?)?;
    Ok(args)
}

fn call(alloc: Global) -> Result<Line, NoMemory> {
    let inst = RawInst::Call {
        callee: word(alloc, "see")?,
        ret: Some(Ty::I32),
        args: two_args(alloc)?,
        head: text(alloc, "tail call i32 (ptr, ...)")?,
        post: Text::new(alloc),
        tail: Text::new(alloc),
    };
    made(alloc, "r", inst)
}

#[test]
fn calls(rt: HostRuntime) {
    let alloc = rt.alloc();
    expect(
        &rt,
        alloc,
        copy(alloc),
        "  call void @llvm.memcpy.p0.p0.i64(ptr align 4 %d, ptr %s, i64 32, i1 false) #1, !tbaa !5",
    );
    expect(
        &rt,
        alloc,
        call(alloc),
        "  %r = tail call i32 (ptr, ...) @see(ptr noundef %p, i1 zeroext true)",
    );
}

fn bin(alloc: Global) -> Result<Line, NoMemory> {
    let inst = RawInst::Bin {
        op: Op::Add,
        flags: Flags {
            nuw: true,
            nsw: true,
            ..NONE
        },
        ty: Ty::I32,
        a: local(alloc, "a")?,
        b: RawVal::Num(Ty::I32, 1),
        tail: Text::new(alloc),
    };
    made(alloc, "x", inst)
}

fn cmp(alloc: Global) -> Result<Line, NoMemory> {
    let inst = RawInst::Cmp {
        pred: Pred::Sgt,
        flags: Flags {
            samesign: true,
            ..NONE
        },
        ty: Ty::I32,
        a: local(alloc, "a")?,
        b: RawVal::Num(Ty::I32, 100),
        tail: Text::new(alloc),
    };
    made(alloc, "x", inst)
}

fn select(alloc: Global) -> Result<Line, NoMemory> {
    let inst = RawInst::Select {
        cond: RawVal::Num(Ty::I1, 0),
        ty: Ty::Ptr,
        a: local(alloc, "a")?,
        b: local(alloc, "b")?,
        tail: Text::new(alloc),
    };
    made(alloc, "x", inst)
}

fn cast(alloc: Global) -> Result<Line, NoMemory> {
    let inst = RawInst::Cast {
        op: CastOp::Zext,
        flags: Flags { nneg: true, ..NONE },
        from: Ty::I8,
        a: local(alloc, "a")?,
        to: Ty::I32,
        tail: Text::new(alloc),
    };
    made(alloc, "x", inst)
}

#[test]
fn arithmetic(rt: HostRuntime) {
    let alloc = rt.alloc();
    expect(&rt, alloc, bin(alloc), "  %x = add nuw nsw i32 %a, 1");
    expect(
        &rt,
        alloc,
        cmp(alloc),
        "  %x = icmp samesign sgt i32 %a, 100",
    );
    expect(
        &rt,
        alloc,
        select(alloc),
        "  %x = select i1 false, ptr %a, ptr %b",
    );
    expect(&rt, alloc, cast(alloc), "  %x = zext nneg i8 %a to i32");
}

fn two_entries(alloc: Global) -> Result<RawEntries, NoMemory> {
    let mut entries = RawEntries::new(alloc);
    entries.push(RawEntry {
        val: RawVal::Num(Ty::I32, 0),
        from: word(alloc, "entry")?,
    })?;
    entries.push(RawEntry {
        val: local(alloc, "j")?,
        from: Name::Number(7),
    })?;
    Ok(entries)
}

fn phi(alloc: Global) -> Result<Line, NoMemory> {
    let inst = RawInst::Phi {
        ty: Ty::I32,
        entries: two_entries(alloc)?,
        tail: Text::new(alloc),
    };
    made(alloc, "i", inst)
}

#[test]
fn phis(rt: HostRuntime) {
    let alloc = rt.alloc();
    expect(
        &rt,
        alloc,
        phi(alloc),
        "  %i = phi i32 [ 0, %entry ], [ %j, %7 ]",
    );
}

fn branch(alloc: Global) -> Result<Line, NoMemory> {
    Ok(Line::Term(RawTerm::CondBr(
        local(alloc, "c")?,
        Name::Number(6),
        word(alloc, "end")?,
        text(alloc, ", !prof !1")?,
    )))
}

#[test]
fn terminators(rt: HostRuntime) {
    let alloc = rt.alloc();
    let jump = RawTerm::Br(Name::Number(7), Text::new(alloc));
    expect(&rt, alloc, Ok(Line::Term(jump)), "  br label %7");
    expect(
        &rt,
        alloc,
        branch(alloc),
        "  br i1 %c, label %6, label %end, !prof !1",
    );
    let leave = RawTerm::Ret(None, Text::new(alloc));
    expect(&rt, alloc, Ok(Line::Term(leave)), "  ret void");
    let give = RawTerm::Ret(Some((Ty::I8, RawVal::Num(Ty::I8, 255))), Text::new(alloc));
    expect(&rt, alloc, Ok(Line::Term(give)), "  ret i8 -1");
    let stop = RawTerm::Unreachable(Text::new(alloc));
    expect(&rt, alloc, Ok(Line::Term(stop)), "  unreachable");
}
