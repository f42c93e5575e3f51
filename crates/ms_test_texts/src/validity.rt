// Which modules are accepted: faults in names (3), types (4), edges (5) and order (6), and loops (7).
use ms_ir::NoMemory;
use ms_output::{Unwritten, Wanted, render};
use std::alloc::Global;
use std::process::Abort;
use std::test::Fail;

const NOTHING: Wanted = Wanted {
    prints: 0,
    shows_module: false,
};

// The number of a text's refusal and its place; two zeros where the text is accepted.
fn told(alloc: Global, text: &[u8]) -> Result<(u32, u32), NoMemory> {
    if text.len() > 1000 {
        return Err(NoMemory);
    }
    match render(alloc, NOTHING, text) {
        Ok(_) => Ok((0, 0)),
        Err(Unwritten::Refused { refusal, func: _ }) => Ok((refusal.number, refusal.place)),
        Err(Unwritten::Memory) => Err(NoMemory),
    }
}

// Each text, and the number and place of its refusal.
fn expect(rt: &impl Abort, alloc: Global, rows: &[(&str, u32, u32)]) -> Result<(), Fail> {
    for (text, number, place) in rows {
        assert_eq!(rt; told(alloc, text.as_bytes())?, (*number, *place), "{text}");
    }
    Ok(())
}

const NAMES: [(&str, u32, u32); 42] = [
    (
        "@g = global i8 0\n@h = global i8 0\n@g = global i8 0\n",
        3,
        3,
    ),
    ("declare void @f()\n\ndeclare void @f()\n", 3, 3),
    ("@f = global i8 0\ndeclare void @f()\n", 3, 2),
    (
        "declare void @f()\ndefine void @f() {\n  ret void\n}\n",
        3,
        2,
    ),
    (
        "define void @f() {\n  ret void\n}\n@f = global i8 0\n",
        3,
        4,
    ),
    ("define void @f(ptr %p, i8 %p) {\n  ret void\n}\n", 3, 1),
    (
        "define void @f(ptr %p) {\n  %p = alloca i8\n  ret void\n}\n",
        3,
        2,
    ),
    (
        "define void @f() {\n  %x = alloca i8\n  %y = alloca i8\n  %x = alloca i8\n  ret void\n}\n",
        3,
        4,
    ),
    (
        "define void @f() {\na:\n  br label %b\nb:\n  br label %b\nb:\n  ret void\n}\n",
        3,
        6,
    ),
    (
        "define void @f() {\na:\n  %a = alloca i8\n  ret void\n}\n",
        3,
        3,
    ),
    ("define void @f(ptr %p) {\np:\n  ret void\n}\n", 3, 2),
    (
        "define void @f(ptr %x) {\n  ret void\n}\ndefine void @g(ptr %x) {\nf:\n  ret void\n}\n",
        0,
        0,
    ),
    (
        "define void @f() {\n  store i8 0, ptr %p\n  ret void\n}\n",
        3,
        2,
    ),
    (
        "define void @f() {\n  store i8 0, ptr @g\n  ret void\n}\n",
        3,
        2,
    ),
    (
        "define void @f() {\n  store i8 0, ptr @g\n  ret void\n}\n@g = global i8 0\n",
        0,
        0,
    ),
    (
        "define void @f() {\n  call void @g()\n  ret void\n}\n",
        3,
        2,
    ),
    (
        "define void @f() {\n  call void @g()\n  ret void\n}\ndeclare void @g()\n",
        0,
        0,
    ),
    (
        "define void @f() {\n  call void @f()\n  ret void\n}\n",
        0,
        0,
    ),
    ("define void @f() {\n  br label %a\n}\n", 3, 2),
    ("define void @f(ptr %p) {\n  br label %p\n}\n", 3, 2),
    (
        "define void @f() {\na:\n  store i8 0, ptr %a\n  ret void\n}\n",
        3,
        3,
    ),
    (
        "define void @f(i8 %v) {\na:\n  br label %b\nb:\n  %x = phi i8 [ 0, %v ]\n  ret void\n}\n",
        3,
        5,
    ),
    (
        "define void @f(ptr %d, ptr %s) {\n  call void @llvm.memcpy.p0.p0.i64(ptr %d, ptr %s, i64 1, i1 false)\n  ret void\n}\n",
        0,
        0,
    ),
    ("define void @f(ptr %1, ptr %0) {\n  ret void\n}\n", 3, 1),
    ("define void @f(ptr %0, ptr %3) {\n  ret void\n}\n", 0, 0),
    (
        "define void @f(ptr) {\n  %1 = load i8, ptr %0\n  ret void\n}\n",
        3,
        2,
    ),
    (
        "define void @f(ptr) {\n  %2 = load i8, ptr %0\n  ret void\n}\n",
        0,
        0,
    ),
    (
        "define void @f(ptr) {\n  %7 = load i8, ptr %0\n  %8 = load i8, ptr %0\n  ret void\n}\n",
        0,
        0,
    ),
    (
        "define void @f(ptr) {\n  %7 = load i8, ptr %0\n  %7 = load i8, ptr %0\n  ret void\n}\n",
        3,
        3,
    ),
    (
        "define void @f(ptr) {\n1:\n  br label %2\n2:\n  ret void\n}\n",
        0,
        0,
    ),
    ("define void @f(ptr) {\n0:\n  ret void\n}\n", 3, 2),
    (
        "declare i8 @g()\ndefine i8 @f() {\n  call i8 @g()\n  ret i8 %1\n}\n",
        0,
        0,
    ),
    (
        "declare i8 @g()\ndefine i8 @f() {\n  call i8 @g()\n  ret i8 %0\n}\n",
        3,
        4,
    ),
    (
        "define void @f(ptr %p) {\n  br label %p\np:\n  ret void\n}\n",
        3,
        2,
    ),
    (
        "define void @f(ptr) {\n  br label %0\n0:\n  ret void\n}\n",
        3,
        2,
    ),
    (
        "define void @f() {\n  %x = alloca i8\n  br label %x\nx:\n  ret void\n}\n",
        3,
        3,
    ),
    (
        "define void @f(i8 %v) {\na:\n  br label %b\nb:\n  %x = phi i8 [ 0, %v ]\n  br label %v\nv:\n  ret void\n}\n",
        3,
        5,
    ),
    (
        "define void @f() {\na:\n  %v = alloca i8\n  br label %b\nb:\n  %x = phi i8 [ 0, %a ], [ 1, %v ]\n  ret void\nv:\n  br label %b\n}\n",
        3,
        6,
    ),
    (
        "define void @f() {\na:\n  store i8 0, ptr %a\n  %a = alloca i8\n  ret void\n}\n",
        3,
        3,
    ),
    (
        "define i8 @f(i8 %v) {\na:\n  br label %d\nb:\n  ret i8 %d\nd:\n  %d = add i8 %v, 1\n  ret i8 %d\n}\n",
        3,
        5,
    ),
    (
        "define i8 @f(ptr %p) {\n  br label %b\nb:\n  br label %b\nc:\n  %b = load i8, ptr %p\n  ret i8 %b\n}\n",
        3,
        6,
    ),
    (
        "define void @f(ptr %p) {\n  store i8 0, ptr %p\n  ret void\np:\n  br label %p\n}\n",
        3,
        4,
    ),
];

#[test]
fn names(rt: HostRuntime) -> Result<(), Fail> {
    expect(&rt, rt.alloc(), &NAMES)
}

const TYPES: [(&str, u32, u32); 31] = [
    (
        "define void @f(i8 %x, ptr %p) {\n  store i16 %x, ptr %p\n  ret void\n}\n",
        4,
        2,
    ),
    (
        "define void @f(i8 %x) {\n  store i8 0, ptr %x\n  ret void\n}\n",
        4,
        2,
    ),
    (
        "define void @f(i8 %x) {\n  %v = load i8, ptr %x\n  ret void\n}\n",
        4,
        2,
    ),
    (
        "define void @f(i8 %x) {\n  %q = getelementptr i8, ptr %x, i64 1\n  ret void\n}\n",
        4,
        2,
    ),
    (
        "define void @f(ptr %p) {\n  %v = add i64 1, %p\n  ret void\n}\n",
        4,
        2,
    ),
    (
        "define void @f(i8 %x) {\n  %v = icmp eq i16 %x, 1\n  ret void\n}\n",
        4,
        2,
    ),
    (
        "define void @f(i8 %x) {\n  %v = select i1 %x, i8 %x, i8 1\n  ret void\n}\n",
        4,
        2,
    ),
    (
        "define void @f(i8 %x) {\n  %v = select i1 true, i8 %x, i8 %x\n  ret void\n}\n",
        0,
        0,
    ),
    (
        "define void @f(i8 %x) {\n  %v = zext i1 %x to i8\n  ret void\n}\n",
        4,
        2,
    ),
    (
        "define void @f(i8 %x) {\n  br i1 %x, label %a, label %a\na:\n  ret void\n}\n",
        4,
        2,
    ),
    (
        "define void @f(i8 %x) {\na:\n  br label %b\nb:\n  %v = phi i16 [ %x, %a ]\n  ret void\n}\n",
        4,
        5,
    ),
    (
        "define void @f(i8 %x, ptr %p) {\n  call void @llvm.memcpy.p0.p0.i64(ptr %p, ptr %x, i64 1, i1 false)\n  ret void\n}\n",
        4,
        2,
    ),
    (
        "define void @f() {\n  %v = load i8, ptr @f\n  ret void\n}\n",
        4,
        2,
    ),
    (
        "@g = global i8 0\ndefine void @f() {\n  call void @g()\n  ret void\n}\n",
        4,
        3,
    ),
    (
        "declare void @g(ptr)\ndefine void @f() {\n  call void @g(ptr @g)\n  ret void\n}\n",
        4,
        3,
    ),
    (
        "declare i8 @g()\ndefine void @f() {\n  %x = call i16 @g()\n  ret void\n}\n",
        4,
        3,
    ),
    (
        "declare i8 @g()\ndefine void @f() {\n  call void @g()\n  ret void\n}\n",
        4,
        3,
    ),
    (
        "declare void @g()\ndefine void @f() {\n  %x = call i8 @g()\n  ret void\n}\n",
        4,
        3,
    ),
    (
        "declare void @g(i8)\ndefine void @f() {\n  call void @g(i16 1)\n  ret void\n}\n",
        4,
        3,
    ),
    (
        "declare void @g(i8)\ndefine void @f() {\n  call void @g()\n  ret void\n}\n",
        4,
        3,
    ),
    (
        "declare void @g(i8)\ndefine void @f() {\n  call void @g(i8 1, i8 1)\n  ret void\n}\n",
        4,
        3,
    ),
    (
        "declare void @g(i8, ...)\ndefine void @f() {\n  call void @g(i8 1, i64 1)\n  ret void\n}\n",
        0,
        0,
    ),
    (
        "declare void @g(i8, ...)\ndefine void @f() {\n  call void @g(i8 1)\n  ret void\n}\n",
        0,
        0,
    ),
    (
        "declare void @g(i8, ...)\ndefine void @f() {\n  call void @g()\n  ret void\n}\n",
        4,
        3,
    ),
    (
        "declare void @g(i8, ...)\ndefine void @f() {\n  call void @g(i64 1)\n  ret void\n}\n",
        4,
        3,
    ),
    ("define i8 @f() {\n  ret i16 1\n}\n", 4, 2),
    ("define i8 @f() {\n  ret void\n}\n", 4, 2),
    ("define void @f() {\n  ret i8 1\n}\n", 4, 2),
    ("define i8 @f(i16 %x) {\n  ret i8 %x\n}\n", 4, 2),
    ("define i8 @f() {\n  unreachable\n}\n", 0, 0),
    // A fault in names is told first, although it stands on a later line.
    (
        "define void @f() {\n  ret i8 1\n}\ndefine void @g() {\n  ret i8 %x\n}\n",
        3,
        5,
    ),
];

#[test]
fn types(rt: HostRuntime) -> Result<(), Fail> {
    expect(&rt, rt.alloc(), &TYPES)
}

const EDGES: [(&str, u32, u32); 15] = [
    ("define void @f() {\na:\n  br label %a\n}\n", 5, 3),
    (
        "define void @f(i1 %c) {\n  br i1 %c, label %b, label %0\nb:\n  ret void\n}\n",
        5,
        2,
    ),
    (
        "define void @f() {\na:\n  ret void\nb:\n  br label %a\n}\n",
        5,
        5,
    ),
    (
        "define void @f() {\na:\n  br label %b\nb:\n  br label %b\n}\n",
        0,
        0,
    ),
    (
        "define void @f() {\na:\n  %x = phi i8 [ 0, %a ]\n  ret void\n}\n",
        5,
        3,
    ),
    (
        "define void @f(i1 %c) {\na:\n  br i1 %c, label %b, label %d\nb:\n  br label %d\nd:\n  %x = phi i8 [ 0, %a ]\n  ret void\n}\n",
        5,
        7,
    ),
    (
        "define void @f(i1 %c) {\na:\n  br i1 %c, label %b, label %d\nb:\n  br label %d\nd:\n  %x = phi i8 [ 1, %b ], [ 0, %a ]\n  ret void\n}\n",
        0,
        0,
    ),
    (
        "define void @f(i1 %c) {\na:\n  br label %d\nb:\n  ret void\nd:\n  %x = phi i8 [ 0, %a ], [ 1, %b ]\n  ret void\n}\n",
        5,
        7,
    ),
    (
        "define void @f(i1 %c) {\na:\n  br label %d\nd:\n  %x = phi i8 [ 0, %a ], [ 0, %a ]\n  ret void\n}\n",
        5,
        5,
    ),
    (
        "define void @f(i1 %c) {\na:\n  br i1 %c, label %d, label %d\nd:\n  %x = phi i8 [ 255, %a ], [ -1, %a ]\n  ret void\n}\n",
        0,
        0,
    ),
    (
        "define void @f(i1 %c) {\na:\n  br i1 %c, label %d, label %d\nd:\n  %x = phi i8 [ 0, %a ], [ 1, %a ]\n  ret void\n}\n",
        5,
        5,
    ),
    (
        "define void @f(i1 %c) {\na:\n  br i1 %c, label %d, label %d\nd:\n  %x = phi i8 [ 0, %a ]\n  ret void\n}\n",
        5,
        5,
    ),
    // Edges from blocks that no path reaches count too.
    (
        "define void @f() {\na:\n  br label %d\nb:\n  br label %d\nd:\n  %x = phi i8 [ 0, %a ]\n  ret void\n}\n",
        5,
        7,
    ),
    (
        "define void @f() {\na:\n  br label %d\nb:\n  br label %d\nd:\n  %x = phi i8 [ 0, %a ], [ 1, %b ]\n  ret void\n}\n",
        0,
        0,
    ),
    // A fault in types is told first, although it stands on a later line.
    (
        "define void @f() {\na:\n  br label %a\nb:\n  ret i8 0\n}\n",
        4,
        5,
    ),
];

#[test]
fn edges(rt: HostRuntime) -> Result<(), Fail> {
    expect(&rt, rt.alloc(), &EDGES)
}

const ORDER: [(&str, u32, u32); 17] = [
    (
        "define i8 @f() {\n  %y = add i8 %x, 1\n  %x = add i8 1, 1\n  ret i8 %y\n}\n",
        6,
        2,
    ),
    (
        "define i8 @f() {\n  %x = add i8 %x, 1\n  ret i8 %x\n}\n",
        6,
        2,
    ),
    (
        "define i8 @f(i1 %c) {\na:\n  br i1 %c, label %b, label %d\nb:\n  %x = add i8 1, 1\n  br label %d\nd:\n  ret i8 %x\n}\n",
        6,
        8,
    ),
    (
        "define i8 @f(i1 %c) {\na:\n  %x = add i8 1, 1\n  br i1 %c, label %b, label %d\nb:\n  br label %d\nd:\n  ret i8 %x\n}\n",
        0,
        0,
    ),
    // The blocks stand in another order than paths pass them.
    (
        "define i8 @f() {\na:\n  br label %d\nb:\n  ret i8 %x\nd:\n  %x = add i8 1, 1\n  br label %b\n}\n",
        0,
        0,
    ),
    // No path leads to the use.
    (
        "define i8 @f() {\na:\n  ret i8 0\nb:\n  %y = add i8 %x, 1\n  %x = add i8 1, 1\n  ret i8 %y\n}\n",
        0,
        0,
    ),
    (
        "define i8 @f() {\na:\n  ret i8 %x\nb:\n  %x = add i8 1, 1\n  ret i8 %x\n}\n",
        6,
        3,
    ),
    // A phi uses a value at the end of the block from which it comes.
    (
        "define void @f(i1 %c) {\na:\n  br label %b\nb:\n  %i = phi i8 [ 0, %a ], [ %j, %b ]\n  %j = add i8 %i, 1\n  br i1 %c, label %b, label %d\nd:\n  ret void\n}\n",
        0,
        0,
    ),
    (
        "define void @f(i1 %c) {\na:\n  br label %b\nb:\n  %i = phi i8 [ 0, %a ], [ %i, %b ]\n  br i1 %c, label %b, label %d\nd:\n  ret void\n}\n",
        0,
        0,
    ),
    (
        "define void @f(i1 %c) {\na:\n  br label %b\nb:\n  %i = phi i8 [ %j, %a ], [ 0, %b ]\n  %j = add i8 %i, 1\n  br i1 %c, label %b, label %d\nd:\n  ret void\n}\n",
        6,
        5,
    ),
    // One phi uses another of its block, which comes behind it.
    (
        "define void @f(i1 %c) {\na:\n  br label %b\nb:\n  %i = phi i8 [ 0, %a ], [ %k, %b ]\n  %k = phi i8 [ 1, %a ], [ %i, %b ]\n  br i1 %c, label %b, label %d\nd:\n  ret void\n}\n",
        0,
        0,
    ),
    (
        "define void @f(i1 %c) {\na:\n  br label %d\nb:\n  br label %d\nd:\n  %x = phi i8 [ 0, %a ], [ %y, %b ]\n  %y = add i8 %x, 1\n  ret void\n}\n",
        0,
        0,
    ),
    // Terminators use values too.
    (
        "define void @f(i1 %c) {\na:\n  br i1 %c, label %b, label %d\nb:\n  %x = add i1 1, 1\n  br label %d\nd:\n  br i1 %x, label %e, label %e\ne:\n  ret void\n}\n",
        6,
        8,
    ),
    // A fault in edges is told first, although it stands on a later line.
    (
        "define i8 @f() {\na:\n  %x = add i8 %x, 1\n  br label %a\n}\n",
        5,
        4,
    ),
    // Each function is looked at, and a fault in order is told before a loop.
    (
        "define void @f(i1 %c) {\n  br i1 %c, label %x, label %y\nx:\n  br label %y\ny:\n  br label %x\n}\ndefine i8 @g() {\n  %x = add i8 %x, 1\n  ret i8 %x\n}\n",
        6,
        9,
    ),
    (
        "define i8 @g() {\n  ret i8 0\n}\ndefine void @f(i1 %c) {\n  br i1 %c, label %x, label %y\nx:\n  br label %y\ny:\n  br label %x\n}\n",
        7,
        1,
    ),
    // No path leads to the loop.
    (
        "define void @f(i1 %c) {\n  ret void\na:\n  br i1 %c, label %x, label %y\nx:\n  br label %y\ny:\n  br label %x\n}\n",
        0,
        0,
    ),
];

#[test]
fn order_and_loops(rt: HostRuntime) -> Result<(), Fail> {
    expect(&rt, rt.alloc(), &ORDER)
}

// Locals among the indices of a getelementptr, each as an operand: what is read, what passes a limit, and then faults in names, types and order.
const INDICES: [(&str, u32, u32); 25] = [
    (
        "define void @f(ptr %p, i64 %n) {\n  %q = getelementptr i8, ptr %p, i64 %n\n  ret void\n}\n",
        0,
        0,
    ),
    (
        "define void @f(ptr %p, i64 %n) {\n  %q = getelementptr i8, ptr %p, i64%n\n  ret void\n}\n",
        0,
        0,
    ),
    (
        "define void @f(ptr, i8) {\n  %q = getelementptr [4 x i32], ptr %0, i8 %1, i8 %1\n  ret void\n}\n",
        0,
        0,
    ),
    (
        "define void @f(ptr %p, i64 %n) {\n  %q = getelementptr i8, ptr %p, i1 %n\n  ret void\n}\n",
        1,
        2,
    ),
    (
        "define void @f(ptr %p, i64 %n) {\n  %q = getelementptr [2147483648 x i8], ptr %p, i64 %n\n  ret void\n}\n",
        0,
        0,
    ),
    (
        "define void @f(ptr %p, i64 %n) {\n  %q = getelementptr [2147483649 x i8], ptr %p, i64 %n\n  ret void\n}\n",
        2,
        2,
    ),
    (
        "define void @f(ptr %p, i64 %n) {\n  %q = getelementptr [2 x i8], ptr %p, i64 %n, i64 2147483648\n  ret void\n}\n",
        0,
        0,
    ),
    (
        "define void @f(ptr %p, i64 %n) {\n  %q = getelementptr [2 x i8], ptr %p, i64 %n, i64 2147483649\n  ret void\n}\n",
        2,
        2,
    ),
    (
        "define void @f(ptr %p, i64 %n) {\n  %q = getelementptr [2 x i8], ptr %p, i64 %n, i64 -2147483649\n  ret void\n}\n",
        2,
        2,
    ),
    (
        "define void @f(ptr %p) {\n  %q = getelementptr i8, ptr %p, i64 %n\n  ret void\n}\n",
        3,
        2,
    ),
    (
        "define void @f(ptr %p, i64 %n) {\n  %q = getelementptr [2 x i8], ptr %p, i64 %n, i64 %m\n  ret void\n}\n",
        3,
        2,
    ),
    (
        "define void @f(ptr %p, i64 %n) {\n  %q = getelementptr [2 x i8], ptr %p, i64 %m, i64 %n\n  ret void\n}\n",
        3,
        2,
    ),
    (
        "define void @f(i64 %n) {\n  %q = getelementptr i8, ptr %p, i64 %n\n  ret void\n}\n",
        3,
        2,
    ),
    (
        "define void @f(ptr %p) {\na:\n  %q = getelementptr i8, ptr %p, i64 %a\n  ret void\n}\n",
        3,
        3,
    ),
    (
        "define void @f(ptr %p, i32 %n) {\n  %q = getelementptr i8, ptr %p, i64 %n\n  ret void\n}\n",
        4,
        2,
    ),
    (
        "define void @f(ptr %p) {\n  %q = getelementptr i8, ptr %p, i64 %p\n  ret void\n}\n",
        4,
        2,
    ),
    (
        "define void @f(ptr %p, i64 %n, i32 %m) {\n  %q = getelementptr [2 x i8], ptr %p, i64 %n, i64 %m\n  ret void\n}\n",
        4,
        2,
    ),
    (
        "define void @f(i64 %p) {\n  %q = getelementptr i8, ptr %p, i64 %p\n  ret void\n}\n",
        4,
        2,
    ),
    (
        "define void @f(ptr %p) {\n  %q = getelementptr i8, ptr %p, i64 %n\n  %n = add i64 1, 2\n  ret void\n}\n",
        6,
        2,
    ),
    (
        "define void @f(ptr %p) {\n  %n = add i64 1, 2\n  %q = getelementptr i8, ptr %p, i64 %n\n  ret void\n}\n",
        0,
        0,
    ),
    (
        "define void @f(ptr %p, i64 %n) {\n  %q = getelementptr [2 x i8], ptr %p, i64 %n, i64 %m\n  %m = add i64 1, 2\n  ret void\n}\n",
        6,
        2,
    ),
    (
        "define void @f(i64 %n) {\n  %q = getelementptr i8, ptr %q, i64 %n\n  ret void\n}\n",
        6,
        2,
    ),
    (
        "define void @f(ptr %p) {\n  ret void\nb:\n  %q = getelementptr i8, ptr %p, i64 %n\n  %n = add i64 1, 2\n  ret void\n}\n",
        0,
        0,
    ),
    (
        "define void @f(ptr %p, i1 %c) {\na:\n  br label %b\nb:\n  %i = phi i64 [ 0, %a ], [ %j, %b ]\n  %q = getelementptr i8, ptr %p, i64 %i\n  %j = add i64 %i, 1\n  br i1 %c, label %b, label %d\nd:\n  ret void\n}\n",
        0,
        0,
    ),
    (
        "define void @f(ptr %p, i1 %c) {\na:\n  br label %b\nb:\n  %q = getelementptr i8, ptr %p, i64 %j\n  %j = add i64 1, 1\n  br i1 %c, label %b, label %d\nd:\n  ret void\n}\n",
        6,
        5,
    ),
];

#[test]
fn indices(rt: HostRuntime) -> Result<(), Fail> {
    expect(&rt, rt.alloc(), &INDICES)
}
