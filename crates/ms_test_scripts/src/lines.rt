// Which lines of scripts are read.
ghost use Rattle.ms_output.specs.Forms.{AreOpen};

use crate::modules::module_of;
use crate::told::{expect, told};
use ms_ir::{Module, NoMemory, Text};
use std::alloc::Global;
use std::process::Abort;
use std::test::Fail;

const LOADS: &[u8] = b"@g = global i32 0
declare void @use(ptr)
declare i32 @sum(i32, ...)

define i32 @z(ptr %p, i64 %n) {
  %x = load i32, ptr %p, align 4
  store i32 1, ptr %p, align 4
  %y = load i32, ptr %p, align 4
  ret i32 %x
}
";

const FORMS: [(&str, u32); 35] = [
    ("", 0),
    ("; remove @z", 0),
    ("  remove\t@z   %0\t2 ; the last", 0),
    ("remove @z %0 2\r", 0),
    ("delete @z %0 0", 8),
    ("remove", 8),
    ("remove @z %0", 8),
    ("remove @z %0 2 2", 8),
    ("remove @z 0 2", 8),
    ("remove z %0 2", 8),
    ("remove @y %0 0", 8),
    ("remove @use %0 0", 8),
    ("remove @g %0 0", 8),
    ("remove @z %00 2", 8),
    ("remove @z %0 002", 0),
    ("remove @z %0 -0", 8),
    ("remove @z %0 -2", 8),
    ("remove @z %0 4294967295", 12),
    ("remove @z %0 4294967296", 8),
    (
        "remove @z %0 00000000000000000000000000000000000000000000000002",
        0,
    ),
    ("move @z %0 2 to %0 1", 0),
    ("move @z %0 2 %0 1", 8),
    ("move @z %0 2 to %0", 8),
    ("move @z %0 2 to %0 4294967296", 8),
    ("unlink @z %0 0", 17),
    ("unlink @z %0 0, align 4", 8),
    ("insert @z %0 0 store i32 1, ptr %p", 8),
    ("insert @z %0 0:", 8),
    ("insert @z %0 0: ret i32 1", 8),
    ("insert @z %0 0: remove @z %0 0", 8),
    ("insert @z %0 0:store i32 1, ptr %p, align 4", 0),
    ("insert @z %0 0 : store i32 1, ptr %p, !tbaa !5 ; kept", 0),
    ("insert @z %0 0: store double 1, ptr %p", 8),
    ("insert @z %0 0: %5 = load i32, ptr %p", 8),
    ("insert @z %0 0: %w = load i32, ptr %p", 0),
];

const CALLS: [(&str, u32); 13] = [
    ("insert @z %0 0: call void @nope()", 8),
    ("insert @z %0 0: call void @g()", 8),
    ("insert @z %0 0: call void @use(ptr %p)", 0),
    ("insert @z %0 0: call void @use(ptr @g)", 0),
    ("insert @z %0 0: call void @use()", 8),
    ("insert @z %0 0: call void @use(i32 1)", 8),
    ("insert @z %0 0: call void @use(ptr %p, i32 1)", 8),
    ("insert @z %0 0: call i32 @use(ptr %p)", 8),
    ("insert @z %0 0: call i32 @sum(i32 1)", 0),
    (
        "insert @z %0 0: %w = call i32 (i32, ...) @sum(i32 1, i64 2)",
        0,
    ),
    ("insert @z %0 0: call i32 @sum()", 8),
    ("insert @z %0 0: call i64 @sum(i32 1)", 8),
    ("insert @z %0 0: call i32 @z(ptr %p, i64 %n)", 0),
];

const LIMITS: [(&str, u32); 10] = [
    (
        "insert @z %0 0: call void @llvm.memcpy.p0.p0.i64(ptr %p, ptr @g, i64 4096, i1 false)",
        0,
    ),
    (
        "insert @z %0 0: call void @llvm.memcpy.p0.p0.i64(ptr %p, ptr @g, i64 4097, i1 false)",
        9,
    ),
    (
        "insert @z %0 0: call void @llvm.memcpy.p0.p0.i64(ptr %p, ptr @g, i64 -0, i1 false)",
        0,
    ),
    (
        "insert @z %0 0: call void @llvm.memcpy.p0.p0.i64(ptr %p, ptr @g, i64 007, i1 false)",
        0,
    ),
    ("insert @z %0 0: %b = alloca [65536 x i8]", 13),
    ("insert @z %0 0: %b = alloca [65537 x i8]", 9),
    (
        "insert @z %0 0: %b = getelementptr i8, ptr %p, i64 2147483648",
        13,
    ),
    (
        "insert @z %0 0: %b = getelementptr i8, ptr %p, i64 2147483649",
        9,
    ),
    (
        "insert @z %0 0: %b = getelementptr i8, ptr %p, i64 -2147483648",
        13,
    ),
    (
        "insert @z %0 0: %b = getelementptr i8, ptr %p, i64 -2147483649",
        9,
    ),
];

// Locals among the indices of a getelementptr: such a line is one of the grammar, and no edit inserts it.
const INDICES: [(&str, u32); 25] = [
    ("insert @z %0 0: %w = getelementptr i8, ptr %p, i64 %n", 13),
    ("insert @z %0 0: %w = getelementptr i8,ptr %p,i64%n", 13),
    (
        "insert @z %0 0: %w = getelementptr [4 x i32], ptr @g, i32 1, i64 %n, align 4",
        13,
    ),
    ("insert @z %0 0: %5 = getelementptr i8, ptr %p, i64 %n", 8),
    ("insert @z %0 0: getelementptr i8, ptr %p, i64 %n", 8),
    ("insert @z %0 0: %w = getelementptr i8, ptr %p, i1 %n", 8),
    ("insert @z %0 0: %w = getelementptr i8, ptr %p, i64 @g", 8),
    (
        "insert @z %0 0: %w = getelementptr i8, ptr %p, i64 %n, i64 %n",
        8,
    ),
    ("insert @z %0 0: %x = getelementptr i8, ptr %p, i64 %n", 11),
    (
        "insert @z %0 0: %w = getelementptr i8, ptr %nope, i64 %n",
        11,
    ),
    (
        "insert @z %0 0: %w = getelementptr i8, ptr @nope, i64 %n",
        11,
    ),
    (
        "insert @z %0 0: %w = getelementptr i8, ptr %p, i64 %nope",
        11,
    ),
    ("insert @z %0 0: %w = getelementptr i8, ptr %p, i64 %w", 11),
    ("insert @z %0 0: %w = getelementptr i8, ptr %p, i64 %0", 11),
    (
        "insert @z %0 0: %w = getelementptr [4 x i32], ptr %p, i64 %n, i64 %nope",
        11,
    ),
    (
        "insert @z %0 0: %w = getelementptr [4 x i32], ptr %p, i64 %nope, i64 %n",
        11,
    ),
    (
        "insert @z %0 0: %w = getelementptr [2147483648 x i8], ptr %p, i64 %n",
        13,
    ),
    (
        "insert @z %0 0: %w = getelementptr [2147483649 x i8], ptr %p, i64 %n",
        9,
    ),
    (
        "insert @z %0 0: %w = getelementptr [2147483649 x i8], ptr %p, i64 %nope",
        9,
    ),
    (
        "insert @z %0 0: %w = getelementptr [2147483649 x i8], ptr %p, i64 0, i64 %n",
        13,
    ),
    (
        "insert @z %0 0: %w = getelementptr [2 x [2147483649 x i8]], ptr %p, i64 0, i64 %n",
        9,
    ),
    (
        "insert @z %0 0: %w = getelementptr [2 x i8], ptr %p, i64 %n, i64 2147483648",
        13,
    ),
    (
        "insert @z %0 0: %w = getelementptr [2 x i8], ptr %p, i64 %n, i64 2147483649",
        9,
    ),
    (
        "insert @z %0 0: %w = getelementptr [2 x i8], ptr %p, i64 %n, i64 -2147483648",
        13,
    ),
    (
        "insert @z %0 0: %w = getelementptr [2 x i8], ptr %p, i64 %n, i64 -2147483649",
        9,
    ),
];

fn check_rows(rt: &impl Abort, alloc: Global, module: &Module)
    requires { AreOpen module.now }
{
    expect(rt, alloc, module, &FORMS);
    expect(rt, alloc, module, &CALLS);
    expect(rt, alloc, module, &LIMITS);
    expect(rt, alloc, module, &INDICES);
}

#[test]
fn lines_are_read(rt: HostRuntime) {
    let alloc = rt.alloc();
    let module = module_of(&rt, alloc, LOADS);
    check_rows(&rt, alloc, &module);
}

// A text, a byte so many times, and another text.
fn padded(
    alloc: Global,
    before: &str,
    byte: u8,
    times: u32,
    behind: &str,
) -> Result<Text, NoMemory> {
    let mut text = Text::from_bytes(alloc, before.as_bytes())?;
    for _ in 0..times {
        text.push(byte)?;
    }
    for other in behind.as_bytes() {
        text.push(*other)?;
    }
    Ok(text)
}

// Texts that are too long to be written out, with their refusals and the lines of those.
const LONG: [(&str, u8, u32, &str, u32, u32); 19] = [
    ("", b'\n', 4095, "remove @z %0 2", 0, 0),
    ("", b'\n', 4095, "remove @z %0 2\n", 0, 0),
    ("", b'\n', 4096, "", 0, 0),
    ("", b'\n', 4096, "\n", 9, 4097),
    ("", b'\n', 4096, "; a comment", 9, 4097),
    ("", b'\n', 4096, "delete", 8, 4097),
    ("", b'\n', 4095, "delete", 8, 4096),
    ("remove @z %", b'b', 255, " 2", 11, 1),
    ("remove @z %", b'b', 256, " 2", 9, 1),
    ("remove @", b'z', 256, " %0 2", 8, 1),
    ("insert @z %0 0: store i32 1, ptr %", b'b', 255, "", 11, 1),
    ("insert @z %0 0: store i32 1, ptr %", b'b', 256, "", 9, 1),
    ("move @z %0 2 to %", b'b', 255, " 1", 11, 1),
    ("move @z %0 2 to %", b'b', 256, " 1", 9, 1),
    ("insert @z %0 0: %", b'b', 255, " = load i32, ptr %p", 0, 0),
    ("insert @z %0 0: %", b'b', 256, " = load i32, ptr %p", 9, 1),
    ("insert @z %0 0: call void @", b'z', 256, "()", 8, 1),
    (
        "insert @z %0 0: %w = getelementptr i8, ptr %p, i64 %",
        b'b',
        255,
        "",
        11,
        1,
    ),
    (
        "insert @z %0 0: %w = getelementptr i8, ptr %p, i64 %",
        b'b',
        256,
        "",
        9,
        1,
    ),
];

fn check_long(rt: &impl Abort, alloc: Global, module: &Module)
    requires { AreOpen module.now }
{
    for (before, byte, times, behind, number, line) in &LONG {
        match padded(alloc, before, *byte, *times, behind) {
            Ok(text) => assert!(rt;
                told(alloc, module, text.bytes()) == Ok((*number, *line)),
                "{before}{times}{behind}"
            ),
            Err(NoMemory) => assert!(rt; false, "no memory"),
        }
    }
}

#[test]
fn long_lines_and_many(rt: HostRuntime) {
    let alloc = rt.alloc();
    let module = module_of(&rt, alloc, LOADS);
    check_long(&rt, alloc, &module);
}
