// Numbers and names at and past the ends of what they may be.
use crate::told::{NO_LINE, PAST, expect, told};
use ms_ir::{NoMemory, Text};
use std::alloc::Global;
use std::test::Fail;

// Numbers at both ends of what may stand there, and past them.
const AT_ENDS: [(&str, &str); 40] = [
    ("%r = xor i1 %a, -1", "  %r = xor i1 %a, true"),
    ("%r = xor i1 %a, 0", "  %r = xor i1 %a, false"),
    ("%r = xor i1 %a, 1", "  %r = xor i1 %a, true"),
    ("%r = xor i1 %a, -2", NO_LINE),
    ("%r = xor i1 %a, 2", NO_LINE),
    ("store i8 -128, ptr %p", "  store i8 -128, ptr %p"),
    ("store i8 127, ptr %p", "  store i8 127, ptr %p"),
    ("store i8 128, ptr %p", "  store i8 -128, ptr %p"),
    ("store i8 255, ptr %p", "  store i8 -1, ptr %p"),
    ("store i8 -129, ptr %p", NO_LINE),
    ("store i8 256, ptr %p", NO_LINE),
    ("store i16 -32768, ptr %p", "  store i16 -32768, ptr %p"),
    ("store i16 65535, ptr %p", "  store i16 -1, ptr %p"),
    ("store i16 -32769, ptr %p", NO_LINE),
    ("store i16 65536, ptr %p", NO_LINE),
    (
        "store i32 -2147483648, ptr %p",
        "  store i32 -2147483648, ptr %p",
    ),
    ("store i32 4294967295, ptr %p", "  store i32 -1, ptr %p"),
    ("store i32 -2147483649, ptr %p", NO_LINE),
    ("store i32 4294967296, ptr %p", NO_LINE),
    (
        "store i64 -9223372036854775808, ptr %p",
        "  store i64 -9223372036854775808, ptr %p",
    ),
    (
        "store i64 9223372036854775808, ptr %p",
        "  store i64 -9223372036854775808, ptr %p",
    ),
    (
        "store i64 18446744073709551615, ptr %p",
        "  store i64 -1, ptr %p",
    ),
    ("store i64 -9223372036854775809, ptr %p", NO_LINE),
    ("store i64 18446744073709551616, ptr %p", NO_LINE),
    ("store i8 0127, ptr %p", "  store i8 127, ptr %p"),
    ("store i8 -0, ptr %p", "  store i8 0, ptr %p"),
    (
        "%q = getelementptr i8, ptr %p, i8 -128",
        "  %q = getelementptr i8, ptr %p, i8 -128",
    ),
    (
        "%q = getelementptr i8, ptr %p, i16 32767",
        "  %q = getelementptr i8, ptr %p, i16 32767",
    ),
    ("%q = getelementptr i8, ptr %p, i8 -129", NO_LINE),
    ("%q = getelementptr i8, ptr %p, i8 128", NO_LINE),
    ("%q = getelementptr i8, ptr %p, i32 2147483648", NO_LINE),
    (
        "%q = getelementptr [0 x i8], ptr %p, i64 9223372036854775807",
        "  %q = getelementptr [0 x i8], ptr %p, i64 9223372036854775807",
    ),
    (
        "%q = getelementptr [0 x i8], ptr %p, i64 9223372036854775808",
        NO_LINE,
    ),
    (
        "!0 = !{i8 -170141183460469231731687303715884105728}",
        "!0 = !{i8 -170141183460469231731687303715884105728}",
    ),
    (
        "!0 = !{i8 -170141183460469231731687303715884105729}",
        NO_LINE,
    ),
    (
        "call void @f() f(340282366920938463463374607431768211455)",
        "  call void @f() f(340282366920938463463374607431768211455)",
    ),
    (
        "call void @f() f(340282366920938463463374607431768211456)",
        NO_LINE,
    ),
    (
        "ret void, align 0000340282366920938463463374607431768211455",
        "  ret void, align 0000340282366920938463463374607431768211455",
    ),
    (
        "ret void, align 340282366920938463463374607431768211456",
        NO_LINE,
    ),
    (
        "ret void ; 340282366920938463463374607431768211456",
        "  ret void",
    ),
];

#[test]
fn numbers_at_the_ends_of_their_ranges(rt: HostRuntime) -> Result<(), Fail> {
    expect(&rt, rt.alloc(), &AT_ENDS)
}

// Sizes, lengths and offsets as they are reached and passed.
const LIMITS: [(&str, &str); 48] = [
    ("%a = alloca [65536 x i8]", "  %a = alloca [65536 x i8]"),
    ("%a = alloca [65537 x i8]", PAST),
    ("%a = alloca [8192 x i64]", "  %a = alloca [8192 x i64]"),
    ("%a = alloca [8193 x i64]", PAST),
    (
        "%a = alloca [256 x [128 x i16]]",
        "  %a = alloca [256 x [128 x i16]]",
    ),
    ("%a = alloca [257 x [128 x i16]]", PAST),
    ("%a = alloca [-0 x i8]", "  %a = alloca [-0 x i8]"),
    (
        "%a = alloca [340282366920938463463374607431768211455 x [0 x i64]]",
        "  %a = alloca [340282366920938463463374607431768211455 x [0 x i64]]",
    ),
    (
        "%a = alloca [340282366920938463463374607431768211455 x [340282366920938463463374607431768211455 x i64]]",
        PAST,
    ),
    (
        "%a = alloca [340282366920938463463374607431768211456 x i8]",
        NO_LINE,
    ),
    (
        "call void @llvm.memcpy.p0.p0.i64(ptr %d, ptr %s, i64 4096, i1 false)",
        "  call void @llvm.memcpy.p0.p0.i64(ptr %d, ptr %s, i64 4096, i1 false)",
    ),
    (
        "call void @llvm.memcpy.p0.p0.i64(ptr %d, ptr %s, i64 4097, i1 false)",
        PAST,
    ),
    (
        "call void @llvm.memcpy.p0.p0.i64(ptr %d, ptr %s, i64 4294967296, i1 false)",
        PAST,
    ),
    (
        "call void @llvm.memcpy.p0.p0.i64(ptr %d, ptr %s, i64 340282366920938463463374607431768211455, i1 false)",
        PAST,
    ),
    (
        "call void @llvm.memcpy.p0.p0.i64(ptr %d, ptr %s, i64 340282366920938463463374607431768211456, i1 false)",
        NO_LINE,
    ),
    (
        "call void @llvm.memcpy.p0.p0.i64(ptr %d, ptr %s, i64 -0, i1 false)",
        "  call void @llvm.memcpy.p0.p0.i64(ptr %d, ptr %s, i64 0, i1 false)",
    ),
    (
        "call void @llvm.memcpy.p0.p0.i64(ptr %d, ptr %s, i64 -1, i1 false)",
        NO_LINE,
    ),
    (
        "%q = getelementptr i8, ptr %p, i64 2147483648",
        "  %q = getelementptr i8, ptr %p, i64 2147483648",
    ),
    ("%q = getelementptr i8, ptr %p, i64 2147483649", PAST),
    (
        "%q = getelementptr i8, ptr %p, i64 -2147483648",
        "  %q = getelementptr i8, ptr %p, i64 -2147483648",
    ),
    ("%q = getelementptr i8, ptr %p, i64 -2147483649", PAST),
    (
        "%q = getelementptr [2 x i64], ptr %p, i64 -134217728, i64 0",
        "  %q = getelementptr [2 x i64], ptr %p, i64 -134217728, i64 0",
    ),
    (
        "%q = getelementptr [2 x i64], ptr %p, i64 -134217728, i64 -1",
        PAST,
    ),
    (
        "%q = getelementptr [2 x i64], ptr %p, i64 -134217729, i64 2",
        "  %q = getelementptr [2 x i64], ptr %p, i64 -134217729, i64 2",
    ),
    (
        "%q = getelementptr [2 x [4 x i8]], ptr %p, i64 268435456, i64 0, i64 0",
        "  %q = getelementptr [2 x [4 x i8]], ptr %p, i64 268435456, i64 0, i64 0",
    ),
    (
        "%q = getelementptr [2 x [4 x i8]], ptr %p, i64 268435455, i64 1, i64 5",
        PAST,
    ),
    (
        "%q = getelementptr [4611686018427387904 x i8], ptr %p, i64 2, i64 -9223372036854775808",
        "  %q = getelementptr [4611686018427387904 x i8], ptr %p, i64 2, i64 -9223372036854775808",
    ),
    (
        "%q = getelementptr [340282366920938463463374607431768211455 x [340282366920938463463374607431768211455 x i8]], ptr %p, i64 -1",
        PAST,
    ),
    (
        "%q = getelementptr [340282366920938463463374607431768211455 x [340282366920938463463374607431768211455 x i8]], ptr %p, i64 0, i64 0, i64 7",
        "  %q = getelementptr [340282366920938463463374607431768211455 x [340282366920938463463374607431768211455 x i8]], ptr %p, i64 0, i64 0, i64 7",
    ),
    (
        "%q = getelementptr [2147483648 x i8], ptr %p, i64 %i",
        "  %q = getelementptr [2147483648 x i8], ptr %p, i64 %i",
    ),
    ("%q = getelementptr [2147483649 x i8], ptr %p, i64 %i", PAST),
    (
        "%q = getelementptr [268435456 x i64], ptr %p, i64 %i, i64 %j",
        "  %q = getelementptr [268435456 x i64], ptr %p, i64 %i, i64 %j",
    ),
    (
        "%q = getelementptr [268435457 x i64], ptr %p, i64 %i, i64 0",
        PAST,
    ),
    (
        "%q = getelementptr [268435457 x i64], ptr %p, i64 0, i64 %i",
        "  %q = getelementptr [268435457 x i64], ptr %p, i64 0, i64 %i",
    ),
    (
        "%q = getelementptr [2 x [2147483649 x i8]], ptr %p, i64 0, i64 %i",
        PAST,
    ),
    (
        "%q = getelementptr [2 x [2147483649 x i8]], ptr %p, i64 0, i64 0, i64 %i",
        "  %q = getelementptr [2 x [2147483649 x i8]], ptr %p, i64 0, i64 0, i64 %i",
    ),
    (
        "%q = getelementptr [0 x i8], ptr %p, i64 %i",
        "  %q = getelementptr [0 x i8], ptr %p, i64 %i",
    ),
    (
        "%q = getelementptr [18446744073709551616 x i8], ptr %p, i64 %i",
        PAST,
    ),
    (
        "%q = getelementptr [340282366920938463463374607431768211455 x [340282366920938463463374607431768211455 x i8]], ptr %p, i64 %i",
        PAST,
    ),
    (
        "%q = getelementptr [340282366920938463463374607431768211455 x [340282366920938463463374607431768211455 x i8]], ptr %p, i64 0, i64 0, i64 %i",
        "  %q = getelementptr [340282366920938463463374607431768211455 x [340282366920938463463374607431768211455 x i8]], ptr %p, i64 0, i64 0, i64 %i",
    ),
    (
        "%q = getelementptr [2 x i8], ptr %p, i64 %i, i64 2147483648",
        "  %q = getelementptr [2 x i8], ptr %p, i64 %i, i64 2147483648",
    ),
    (
        "%q = getelementptr [2 x i8], ptr %p, i64 %i, i64 2147483649",
        PAST,
    ),
    (
        "%q = getelementptr [2 x i8], ptr %p, i64 %i, i64 -2147483648",
        "  %q = getelementptr [2 x i8], ptr %p, i64 %i, i64 -2147483648",
    ),
    (
        "%q = getelementptr [2 x i8], ptr %p, i64 %i, i64 -2147483649",
        PAST,
    ),
    (
        "%q = getelementptr [2 x [2 x i8]], ptr %p, i64 536870912, i64 %i, i64 0",
        "  %q = getelementptr [2 x [2 x i8]], ptr %p, i64 536870912, i64 %i, i64 0",
    ),
    (
        "%q = getelementptr [2 x [2 x i8]], ptr %p, i64 536870912, i64 %i, i64 1",
        PAST,
    ),
    (
        "%q = getelementptr [2 x [2 x i8]], ptr %p, i64 536870913, i64 %i, i64 -4",
        "  %q = getelementptr [2 x [2 x i8]], ptr %p, i64 536870913, i64 %i, i64 -4",
    ),
    ("%a = alloca [65537 x i8], align", NO_LINE),
];

#[test]
fn limits_of_a_line(rt: HostRuntime) -> Result<(), Fail> {
    expect(&rt, rt.alloc(), &LIMITS)
}

// A line in which a name of so many bytes stands between two texts.
fn with_name(alloc: Global, before: &str, count: usize, after: &str) -> Result<Text, NoMemory> {
    let mut line = Text::from_bytes(alloc, before.as_bytes())?;
    for _ in 0..count {
        line.push(b'n')?;
    }
    for byte in after.as_bytes() {
        line.push(*byte)?;
    }
    Ok(line)
}

// What stands around a name that is measured.
const MEASURED: [(&str, &str); 18] = [
    ("", ":"),
    ("@", " = global i8 0"),
    ("declare void @", "()"),
    ("define void @", "() {"),
    ("define void @f(ptr %", ") {"),
    ("  %", " = load i8, ptr %p"),
    ("  store i8 %", ", ptr %p"),
    ("  store i8 0, ptr @", ""),
    ("  call void @", "()"),
    ("  call void @f(ptr %", ")"),
    ("  %r = select i1 %c, ptr @", ", ptr %b"),
    ("  %r = getelementptr i8, ptr %", ", i64 %i"),
    ("  %r = getelementptr i8, ptr %p, i64 %", ", align 1"),
    ("  %r = zext i8 %", " to i64"),
    ("  %r = phi i8 [ 0, %", " ]"),
    ("  %r = phi i8 [ %", ", %a ]"),
    ("  br i1 %c, label %a, label %", ""),
    ("  ret i8 %", ""),
];

#[test]
fn names_of_255_and_256_bytes(rt: HostRuntime) -> Result<(), Fail> {
    let alloc = rt.alloc();
    for (before, after) in &MEASURED {
        let short = with_name(alloc, before, 255, after)?;
        let text = told(alloc, short.bytes())?;
        assert_eq!(rt; text.bytes(), short.bytes(), "{before}");
        let long = with_name(alloc, before, 256, after)?;
        let text = told(alloc, long.bytes())?;
        assert_eq!(rt; text.bytes(), PAST.as_bytes(), "{before}");
    }
    Ok(())
}

// What stands around names that are not: in kept texts, strings, words and metadata.
const NOT_MEASURED: [(&str, &str); 8] = [
    ("%", " = type i8"),
    ("$", " = comdat any"),
    ("!", " = !{}"),
    ("source_filename = \"", "\""),
    ("@g = global ptr @", ""),
    ("attributes #0 = { ", " }"),
    ("  call void @f() ", ""),
    ("  ret void, !", " !0"),
];

#[test]
fn names_that_are_not_printed_by_themselves(rt: HostRuntime) -> Result<(), Fail> {
    let alloc = rt.alloc();
    // A name that is dropped is measured.
    let dropped = with_name(alloc, "declare void @f(ptr %", 256, ")")?;
    let text = told(alloc, dropped.bytes())?;
    assert_eq!(rt; text.bytes(), PAST.as_bytes());
    for (before, after) in &NOT_MEASURED {
        let kept = with_name(alloc, before, 256, after)?;
        let text = told(alloc, kept.bytes())?;
        assert_eq!(rt; text.bytes(), kept.bytes(), "{before}");
    }
    Ok(())
}
