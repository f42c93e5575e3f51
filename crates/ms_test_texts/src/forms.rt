// Each form of a line inside a function, with every optional part and with none, and lines of no form.
use crate::told::{expect, expect_none};
use std::test::Fail;

// Lines and what they are printed as.
const IN_EACH_FORM: [(&str, &str); 67] = [
    ("%a=alloca i8", "  %a = alloca i8"),
    (
        "%a = alloca [ 2 x [3 x i16] ] , align 4, !a !b",
        "  %a = alloca [ 2 x [3 x i16] ], align 4, !a !b",
    ),
    (
        "%q = getelementptr i8, ptr %p, i64 -4",
        "  %q = getelementptr i8, ptr %p, i64 -4",
    ),
    (
        "%q = getelementptr inbounds nuw [4 x [2 x i32]],ptr @g,i64 0,i32 3, i8 01, !a !b",
        "  %q = getelementptr inbounds nuw [4 x [2 x i32]], ptr @g, i64 0,i32 3, i8 01, !a !b",
    ),
    (
        "%q = getelementptr i8, ptr %p, i64 %i",
        "  %q = getelementptr i8, ptr %p, i64 %i",
    ),
    (
        "%q=getelementptr i8,ptr %p,i64%i",
        "  %q = getelementptr i8, ptr %p, i64 %i",
    ),
    (
        "%q = getelementptr i8, ptr %p, i64   %i",
        "  %q = getelementptr i8, ptr %p, i64   %i",
    ),
    (
        "%q = getelementptr i8, ptr %p, i64\t%i",
        "  %q = getelementptr i8, ptr %p, i64\t%i",
    ),
    (
        "%q = getelementptr i8, ptr @g, i8 %0, !a !b",
        "  %q = getelementptr i8, ptr @g, i8 %0, !a !b",
    ),
    (
        "%q = getelementptr inbounds nuw [4 x [2 x i32]],ptr @g,i64%i,i32 3 ,  i16%j , align 4",
        "  %q = getelementptr inbounds nuw [4 x [2 x i32]], ptr @g, i64 %i,i32 3 ,  i16 %j, align 4",
    ),
    (
        "%q = getelementptr [4 x i32], ptr %p, i64 -1, i64 %i",
        "  %q = getelementptr [4 x i32], ptr %p, i64 -1, i64 %i",
    ),
    (
        "%q = getelementptr [4 x i32], ptr %q, i32 %q, i64 007",
        "  %q = getelementptr [4 x i32], ptr %q, i32 %q, i64 007",
    ),
    ("%v = load i64,ptr @g", "  %v = load i64, ptr @g"),
    (
        "%v = load i8, ptr %p, align 1, !noundef !0, !a !{!0, (1) }",
        "  %v = load i8, ptr %p, align 1, !noundef !0, !a !{!0, (1) }",
    ),
    ("store i16 7,ptr %p", "  store i16 7, ptr %p"),
    (
        "\tstore  i64 %v , ptr @g , align 8 , !a !b ; c",
        "  store i64 %v, ptr @g, align 8 , !a !b",
    ),
    (
        "call void @llvm.memcpy.p0.p0.i64(ptr %d, ptr %s, i64 8, i1 false)",
        "  call void @llvm.memcpy.p0.p0.i64(ptr %d, ptr %s, i64 8, i1 false)",
    ),
    (
        "tail call void @llvm.memcpy.p0.p0.i64(ptr align 8 %d,ptr nonnull @g ,i64 4,i1 false)#2 !a !b, !tbaa !1",
        "  tail call void @llvm.memcpy.p0.p0.i64(ptr align 8 %d, ptr nonnull @g, i64 4, i1 false) #2 !a !b, !tbaa !1",
    ),
    (
        "notail call void @llvm.memcpy.p0.p0.i64(ptr %d, ptr %s, i64 8, i1 false)",
        "  notail call void @llvm.memcpy.p0.p0.i64(ptr %d, ptr %s, i64 8, i1 false)",
    ),
    ("call void @f()", "  call void @f()"),
    (
        "tail call fastcc void(...)@f( ptr @g )nounwind",
        "  tail call fastcc void (...) @f(ptr @g) nounwind",
    ),
    ("call i8 @llvm()", "  call i8 @llvm()"),
    (
        "%r = notail call noundef i32 (ptr, ...) @f(ptr noundef %p, i32 5) #0 \"a\"=\"b\" !a !b, !c !{}",
        "  %r = notail call noundef i32 (ptr, ...) @f(ptr noundef %p, i32 5) #0 \"a\"=\"b\" !a !b, !c !{}",
    ),
    (
        "call i32 @f(i1 noundef zeroext true, i32 align 5)",
        "  call i32 @f(i1 noundef zeroext true, i32 align 5)",
    ),
    (
        "%3 = tail call i8 @f(i1 true true, ptr align 8 \"a\" #1 f(2) %p)",
        "  %3 = tail call i8 @f(i1 true true, ptr align 8 \"a\" #1 f(2) %p)",
    ),
    ("%r = add i8 %a, %b", "  %r = add i8 %a, %b"),
    ("%r = add nuw nsw i8 %a,255", "  %r = add nuw nsw i8 %a, -1"),
    ("%r = sub nuw i8 1, %b", "  %r = sub nuw i8 1, %b"),
    (
        "%r = mul nuw nsw i64 %a, -1, !a !b",
        "  %r = mul nuw nsw i64 %a, -1, !a !b",
    ),
    ("%r = shl i32 %a, 31", "  %r = shl i32 %a, 31"),
    ("%r = shl nsw i32 %a, 31", "  %r = shl nsw i32 %a, 31"),
    ("%r = lshr i32 %a, 1", "  %r = lshr i32 %a, 1"),
    (
        "%r = lshr exact i32 %a, 1, !a !b",
        "  %r = lshr exact i32 %a, 1, !a !b",
    ),
    ("%r = ashr i32 %a, 1", "  %r = ashr i32 %a, 1"),
    ("%r = ashr exact i16 %a, 1", "  %r = ashr exact i16 %a, 1"),
    ("%r = or i1 %a, %b", "  %r = or i1 %a, %b"),
    (
        "%r = or disjoint i1 %a, true",
        "  %r = or disjoint i1 %a, true",
    ),
    ("%r = and i1 %a, 0", "  %r = and i1 %a, false"),
    ("%r = xor i64 0, 0", "  %r = xor i64 0, 0"),
    ("%r = icmp eq i1 %a, %b", "  %r = icmp eq i1 %a, %b"),
    ("%r = icmp ne i8 %a, %b", "  %r = icmp ne i8 %a, %b"),
    ("%r = icmp ugt i8 %a, %b", "  %r = icmp ugt i8 %a, %b"),
    ("%r = icmp uge i8 %a, %b", "  %r = icmp uge i8 %a, %b"),
    (
        "%r = icmp samesign ult i64 %a, 0, !a !b",
        "  %r = icmp samesign ult i64 %a, 0, !a !b",
    ),
    ("%r = icmp ule i8 %a, %b", "  %r = icmp ule i8 %a, %b"),
    ("%r = icmp sgt i8 %a, %b", "  %r = icmp sgt i8 %a, %b"),
    ("%r = icmp sge i8 %a, %b", "  %r = icmp sge i8 %a, %b"),
    ("%r = icmp slt i8 %a, %b", "  %r = icmp slt i8 %a, %b"),
    ("%r = icmp sle i8 %a, %b", "  %r = icmp sle i8 %a, %b"),
    (
        "%r = select i1 %c, ptr @a, ptr %b",
        "  %r = select i1 %c, ptr @a, ptr %b",
    ),
    (
        "%r = select i1 0, i8 1, i8 %b, !a !b",
        "  %r = select i1 false, i8 1, i8 %b, !a !b",
    ),
    ("%r = zext i1 %a to i8", "  %r = zext i1 %a to i8"),
    (
        "%r = zext nneg i8 255 to i64",
        "  %r = zext nneg i8 -1 to i64",
    ),
    ("%r = sext i32 %a to i64", "  %r = sext i32 %a to i64"),
    ("%r = trunc i64 %a to i1", "  %r = trunc i64 %a to i1"),
    (
        "%r = trunc nuw nsw i64 %a to i32, !a !b",
        "  %r = trunc nuw nsw i64 %a to i32, !a !b",
    ),
    ("%r = phi i32 [0,%a]", "  %r = phi i32 [ 0, %a ]"),
    (
        "%r = phi ptr [ @g, %0 ],[%q , %b], !a !b",
        "  %r = phi ptr [ @g, %0 ], [ %q, %b ], !a !b",
    ),
    ("br label %a", "  br label %a"),
    ("br label %0, !llvm.loop !0", "  br label %0, !llvm.loop !0"),
    (
        "br i1 true,label %a,label %1",
        "  br i1 true, label %a, label %1",
    ),
    (
        "br i1 %c, label %a, label %a, align 1",
        "  br i1 %c, label %a, label %a, align 1",
    ),
    ("ret void", "  ret void"),
    ("ret void, !a !b", "  ret void, !a !b"),
    ("ret i1 1, !a !b", "  ret i1 true, !a !b"),
    ("unreachable", "  unreachable"),
    ("unreachable, !a !b", "  unreachable, !a !b"),
];

#[test]
fn instructions_in_each_form(rt: HostRuntime) -> Result<(), Fail> {
    expect(&rt, rt.alloc(), &IN_EACH_FORM)
}

const IN_NO_FORM: [&str; 79] = [
    "switch i32 %x, label %a",
    "indirectbr ptr %p, [label %a]",
    "invoke void @f() to label %a unwind label %b",
    "fence seq_cst",
    "alloca i8",
    "%a = alloca i1",
    "%a = alloca ptr",
    "%a = alloca i128",
    "%a = alloca i8, i32 2",
    "%a = alloca [-1 x i8]",
    "%a = alloca [2 x ptr]",
    "%q = getelementptr i8, ptr %p",
    "%q = getelementptr i8, ptr %p, i64 0, i64 0",
    "%q = getelementptr [2 x i8], ptr %p, i64 0, i64 0, i64 0",
    "getelementptr i8, ptr %p, i64 %i",
    "%q = getelementptr i8, ptr %p, i1 %i",
    "%q = getelementptr i8, ptr %p, ptr %i",
    "%q = getelementptr i8, ptr %p, i64 @i",
    "%q = getelementptr i8, ptr %p, i64 %i %j",
    "%q = getelementptr i8, ptr %p, i64 %01",
    "%q = getelementptr i8, ptr %p, i64 %i, i64 0",
    "%q = getelementptr [2 x i8], ptr %p, i64 0, i64 %i, i64 %j",
    "%q = getelementptr i8, ptr %p, i1 0",
    "%q = getelementptr { i8 }, ptr %p, i64 0",
    "%q = getelementptr volatile i8, ptr %p, i64 0",
    "%v = load i1, ptr %p",
    "%v = load ptr, ptr %p",
    "%v = load float, ptr %p",
    "%v = load volatile i8, ptr %p",
    "%v = load i8, ptr 0",
    "%v = load i8, ptr null",
    "load i8, ptr %p",
    "%v = load i8 ptr %p",
    "%v = store i8 0, ptr %p",
    "store i1 0, ptr %p",
    "store ptr %q, ptr %p",
    "store i8 undef, ptr %p",
    "store i8 true, ptr %p",
    "store i8 0, ptr %p align 1",
    "store i8 0, ptr %p, align",
    "store i8 0, ptr %p, !a",
    "store i8 0, ptr %p,",
    "call void @llvm.memset.p0.i64(ptr %d, i8 0, i64 8, i1 false)",
    "%r = call void @llvm.memcpy.p0.p0.i64(ptr %d, ptr %s, i64 8, i1 false)",
    "call void @llvm.memcpy.p0.p0.i64(ptr %d, ptr %s, i64 %n, i1 false)",
    "call void @llvm.memcpy.p0.p0.i64(ptr %d, ptr %s, i64 8, i1 true)",
    "call void @llvm.memcpy.p0.p0.i64(ptr %d, ptr %s, i64 8, i1 0)",
    "call void @llvm.memcpy.p0.p0.i64(ptr %d, ptr %s, i32 8, i1 false)",
    "%r = call void @f()",
    "%r = call ptr @f()",
    "musttail call void @f()",
    "call void %f()",
    "call void @f(i8)",
    "call void @f(i8 1,)",
    "call void @f(ptr byval(i8) %p)",
    "call void @f() [ \"a\"() ]",
    "call void asm \"\", \"\"()",
    "%r = add ptr %a, %b",
    "%r = add nsw nuw i8 %a, %b",
    "%r = and nuw i8 %a, %b",
    "%r = lshr nuw i8 %a, 1",
    "%r = sdiv i8 %a, %b",
    "%r = icmp eq ptr %a, %b",
    "%r = icmp lt i8 %a, %b",
    "%r = select i1 %c, i8 %a, i16 %b",
    "%r = select i8 %c, i8 %a, i8 %b",
    "%r = zext i8 %a to i8",
    "%r = sext nneg i8 %a to i16",
    "%r = trunc i8 %a to i16",
    "%r = trunc nsw nuw i16 %a to i8",
    "%r = ptrtoint ptr %a to i64",
    "%r = phi i32",
    "%r = phi i32 [ 0, %a ],",
    "%r = phi i32 [ 0, @a ]",
    "br label @a",
    "br i1 2, label %a, label %b",
    "br i8 1, label %a, label %b",
    "ret ptr %p",
    "unreachable void",
];

#[test]
fn instructions_in_no_form(rt: HostRuntime) -> Result<(), Fail> {
    expect_none(&rt, rt.alloc(), &IN_NO_FORM)
}
