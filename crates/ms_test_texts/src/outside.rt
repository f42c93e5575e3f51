// Each form of a line outside of functions and of the lines between blocks, with every optional part and with none, and
// lines of no form. Blanks and comments stand in odd places.
use crate::told::{expect, expect_none};
use std::test::Fail;

// Lines and what they are printed as.
const IN_EACH_FORM: [(&str, &str); 45] = [
    ("", ""),
    (" \t\r", ""),
    (" ; store i8 0, ptr %p", ""),
    ("source_filename=\"a;b\" ; c", "source_filename=\"a;b\""),
    ("source_filename = \"\"", "source_filename = \"\""),
    (
        "target datalayout  =\t\"e-m:e\"",
        "target datalayout  =\t\"e-m:e\"",
    ),
    ("!llvm.ident = !{!0, !1}", "!llvm.ident = !{!0, !1}"),
    (
        "!0 = distinct !D(name: \"a\", flags: A | B, line: -3, x: <>)  ; kept",
        "!0 = distinct !D(name: \"a\", flags: A | B, line: -3, x: <>)",
    ),
    ("!0 =", "!0 ="),
    ("! = void ptr asm", "! = void ptr asm"),
    ("!012345678901 = !{}", "!012345678901 = !{}"),
    (
        "%T  = type { i32, [2 x i8] }",
        "%T  = type { i32, [2 x i8] }",
    ),
    ("%0 = type opaque ", "%0 = type opaque"),
    ("$c = comdat any", "$c = comdat any"),
    ("@g = global i32 0", "@g = global i32 0"),
    (
        "@.s = private unnamed_addr constant [3 x i8] c\";a\", align 1, !a !b ; c",
        "@.s = private unnamed_addr constant [3 x i8] c\";a\", align 1, !a !b",
    ),
    (
        "@g = external thread_local(initialexec) \"a\"=\"b\" global ptr",
        "@g = external thread_local(initialexec) \"a\"=\"b\" global ptr",
    ),
    (
        "@g = external global constant",
        "@g = external global constant",
    ),
    ("@g = global global ptr", "@g = global global ptr"),
    ("attributes #12={}", "attributes #12={}"),
    (
        "  attributes #0 = { memory(argmem: read) \"a\"=\"b\" { ptr } } ; c",
        "attributes #0 = { memory(argmem: read) \"a\"=\"b\" { ptr } }",
    ),
    ("declare void @f()", "declare void @f()"),
    ("declare ptr @f(...)", "declare ptr @f(...)"),
    (
        "declare  dso_local ptr  @f ( ptr , i8 signext %x , ... )  #1 !a !b",
        "declare dso_local ptr @f(ptr, i8 signext, ...) #1 !a !b",
    ),
    (
        "declare noundef i32 @f(ptr noundef  align 8 nocapture, i1 f( ,\"\" ))",
        "declare noundef i32 @f(ptr noundef  align 8 nocapture, i1 f( ,\"\" ))",
    ),
    (
        "declare void @llvm.memcpy.p0.p0.i64(ptr noalias writeonly captures(none), ptr, i64, i1 immarg %3)",
        "declare void @llvm.memcpy.p0.p0.i64(ptr noalias writeonly captures(none), ptr, i64, i1 immarg)",
    ),
    ("define void @f(){", "define void @f() {"),
    (
        "define internal i1 @f(i1 zeroext%c,i64)\"a\"=\"b\" align 16 memory(none) !a !b{",
        "define internal i1 @f(i1 zeroext %c, i64) \"a\"=\"b\" align 16 memory(none) !a !b {",
    ),
    (
        "define i64 @f(ptr align %p, i8 align 4 %0, i16 align) {",
        "define i64 @f(ptr align %p, i8 align 4 %0, i16 align) {",
    ),
    ("define void @f(i32 ...) {", "define void @f(i32 ...) {"),
    ("a-b.$_1:", "a-b.$_1:"),
    ("  a\t: ; c", "a:"),
    ("0 :", "0:"),
    ("123456789:", "123456789:"),
    (" \t}\r; end", "}"),
    ("\tret\tvoid\t", "  ret void"),
    ("ret void;", "  ret void"),
    (
        "call void @f(),!a !{!\"; no comment\"}",
        "  call void @f(),!a !{!\"; no comment\"}",
    ),
    (
        "call void @f() \"; no comment\"; \"",
        "  call void @f() \"; no comment\"",
    ),
    ("define:", "define:"),
    ("declare :", "declare:"),
    ("br:", "br:"),
    ("attributes:", "attributes:"),
    ("call void @f ( ) #0 , !a !b", "  call void @f() #0, !a !b"),
    (
        "store i8 1,ptr %p  ,align  1",
        "  store i8 1, ptr %p,align  1",
    ),
];

#[test]
fn lines_in_each_form(rt: HostRuntime) -> Result<(), Fail> {
    expect(&rt, rt.alloc(), &IN_EACH_FORM)
}

const IN_NO_FORM: [&str; 61] = [
    "\"no end",
    "x",
    "!0 = !{",
    "!0 = !{)}",
    "!0 !1",
    "source_filename = sum.c",
    "source_filename = \"a\" \"b\"",
    "target = \"x\"",
    "module asm \"x\"",
    "c = comdat any",
    "$c = comdat",
    "$c = comdat any, any",
    "%T = struct { i8 }",
    "%T = type { i8",
    "@g = global",
    "@g = global )",
    "@g = dso_local i32 0",
    "@g = addrspace(1) global i32 0",
    "@g = alias i8, ptr @h",
    "@0 = global i32 0",
    "@\"g\" = global i32 0",
    "@-g = global i32 0",
    "attributes #0 = nounwind",
    "attributes #0 = { ( }",
    "attributes #0 = { } }",
    "attributes #00 = { }",
    "attributes #1234567890 = { }",
    "declare double @f()",
    "declare {i8} @f()",
    "declare void @f(",
    "declare void @f(void)",
    "declare void @f(i8,)",
    "declare void @f(..., i8)",
    "declare void @f(...,...)",
    "declare void @f(ptr %a %b)",
    "declare void @f(ptr byval)",
    "declare void @f() {",
    "declare void @f() asm",
    "define void @f(...) {",
    "define void @f(i8, ...) {",
    "define ptr @f() {",
    "define i128 @f() {",
    "define void @f()",
    "define void f() {",
    "define void @f(ptr inalloca(i8) %p) {",
    "define void @f(ptr preallocated(i8) %p) {",
    "define void @f(ptr swifterror %p) {",
    "define void @f(ptr addrspace(1) %p) {",
    "define void @f(ptr %p,) {",
    "define void @f() !a {",
    "define void @f() { }",
    "-a:",
    "%a:",
    "01:",
    "00:",
    "1234567890:",
    "a: b",
    "a::",
    "} x",
    "{",
    "call void @f(),!a !\"; no comment\"",
];

#[test]
fn lines_in_no_form(rt: HostRuntime) -> Result<(), Fail> {
    expect_none(&rt, rt.alloc(), &IN_NO_FORM)
}
