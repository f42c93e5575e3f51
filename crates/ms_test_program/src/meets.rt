// Which writes a use may see: pairs of pointers, ranges of bytes, and calls.
use crate::row::{PRINT, expect, run_on};
use ms_cli::Status;
use ms_io::FileFault;
use std::alloc::{AllocError, Global};
use std::process::Abort;
use std::test::Fail;

// What stands before the write. Each access is of one byte where its line says nothing else.
const MODULE: &[u8] = b"@g = global [8 x i8] zeroinitializer
@h = global [8 x i8] zeroinitializer
declare void @write_arg(ptr nocapture) memory(argmem: write)
declare void @write_other() memory(errnomem: write)
declare void @write_hidden() memory(inaccessiblemem: write)
declare i32 @read_arg(ptr nocapture) memory(argmem: read)
declare i32 @read_other() memory(errnomem: read)
declare i32 @read_hidden() memory(inaccessiblemem: read)

";

const HEADER: &[u8] = b"MemorySSA for function: f\n";

const BEFORE: &[u8] = b"define void @f(i1 %c, ptr %p, ptr %q) {
  %a = alloca [8 x i8]
  %b = alloca [8 x i8]
  %a1 = getelementptr i8, ptr %a, i64 1
  %a3 = getelementptr i8, ptr %a, i64 3
  %a4 = getelementptr i8, ptr %a, i64 4
  %back = getelementptr i8, ptr %a4, i64 -1
  %s = select i1 %c, ptr %a, ptr %p
  %t = select i1 %c, ptr %b, ptr @h
";

const AFTER: &[u8] = b"\n  ret void\n}\n";

// A write, a use behind it, and whether the use may see the write.
const ROWS: [(&[u8], &[u8], bool); 43] = [
    // an alloca is itself alone
    (b"  store i8 1, ptr %a", b"  %v = load i8, ptr %a", true),
    (b"  store i8 1, ptr %a", b"  %v = load i8, ptr %b", false),
    (b"  store i8 1, ptr %a", b"  %v = load i8, ptr %p", false),
    (b"  store i8 1, ptr %a", b"  %v = load i8, ptr @g", false),
    (b"  store i8 1, ptr %p", b"  %v = load i8, ptr %a", false),
    // arguments and globals
    (b"  store i8 1, ptr %p", b"  %v = load i8, ptr %p", true),
    (b"  store i8 1, ptr %p", b"  %v = load i8, ptr %q", true),
    (b"  store i8 1, ptr %p", b"  %v = load i8, ptr @g", true),
    (b"  store i8 1, ptr @g", b"  %v = load i8, ptr %p", true),
    (b"  store i8 1, ptr @g", b"  %v = load i8, ptr @g", true),
    (b"  store i8 1, ptr @g", b"  %v = load i8, ptr @h", false),
    // pointers with two bases
    (b"  store i8 1, ptr %s", b"  %v = load i8, ptr %a", true),
    (b"  store i8 1, ptr %s", b"  %v = load i8, ptr %b", false),
    (b"  store i8 1, ptr %s", b"  %v = load i8, ptr %q", true),
    (b"  store i8 1, ptr %t", b"  %v = load i8, ptr %b", true),
    (b"  store i8 1, ptr %t", b"  %v = load i8, ptr @h", true),
    (b"  store i8 1, ptr %t", b"  %v = load i8, ptr @g", false),
    (b"  store i8 1, ptr %t", b"  %v = load i8, ptr %s", true),
    (b"  store i8 1, ptr %t", b"  %v = load i8, ptr %a", false),
    // ranges that overlap, and ranges that touch
    (b"  store i32 1, ptr %a", b"  %v = load i8, ptr %a3", true),
    (b"  store i32 1, ptr %a", b"  %v = load i8, ptr %back", true),
    (b"  store i32 1, ptr %a", b"  %v = load i8, ptr %a4", false),
    (b"  store i8 1, ptr %a4", b"  %v = load i32, ptr %a", false),
    (b"  store i8 1, ptr %a4", b"  %v = load i32, ptr %a1", true),
    (b"  store i8 1, ptr %a", b"  %v = load i32, ptr %a1", false),
    (b"  store i64 1, ptr %a", b"  %v = load i16, ptr %a3", true),
    // no byte at all, and eight
    (
        b"  call void @llvm.memcpy.p0.p0.i64(ptr %a, ptr %b, i64 0, i1 false)",
        b"  %v = load i8, ptr %a",
        false,
    ),
    (
        b"  call void @llvm.memcpy.p0.p0.i64(ptr %p, ptr %b, i64 0, i1 false)",
        b"  %v = load i8, ptr %q",
        false,
    ),
    (
        b"  call void @llvm.memcpy.p0.p0.i64(ptr %a, ptr %b, i64 8, i1 false)",
        b"  %v = load i8, ptr %a4",
        true,
    ),
    (
        b"  call void @llvm.memcpy.p0.p0.i64(ptr %a, ptr %b, i64 4, i1 false)",
        b"  %v = load i8, ptr %a4",
        false,
    ),
    (
        b"  call void @llvm.memcpy.p0.p0.i64(ptr %a, ptr %b, i64 8, i1 false)",
        b"  %v = load i8, ptr %b",
        false,
    ),
    // calls and bytes
    (
        b"  call void @write_arg(ptr %a)",
        b"  %v = load i8, ptr %a4",
        true,
    ),
    (
        b"  call void @write_arg(ptr %a)",
        b"  %v = load i8, ptr %b",
        false,
    ),
    (
        b"  call void @write_other()",
        b"  %v = load i8, ptr %p",
        true,
    ),
    (
        b"  call void @write_other()",
        b"  %v = load i8, ptr @g",
        true,
    ),
    (
        b"  call void @write_other()",
        b"  %v = load i8, ptr %a",
        false,
    ),
    (
        b"  call void @write_hidden()",
        b"  %v = load i8, ptr %p",
        false,
    ),
    (
        b"  store i8 1, ptr %a4",
        b"  %v = call i32 @read_arg(ptr %a)",
        true,
    ),
    // two calls: memory outside meets memory outside, hidden memory hidden memory
    (
        b"  call void @write_other()",
        b"  %v = call i32 @read_other()",
        true,
    ),
    (
        b"  call void @write_hidden()",
        b"  %v = call i32 @read_hidden()",
        true,
    ),
    (
        b"  call void @write_other()",
        b"  %v = call i32 @read_hidden()",
        false,
    ),
    (
        b"  call void @write_hidden()",
        b"  %v = call i32 @read_other()",
        false,
    ),
    (
        b"  call void @write_other()",
        b"  %v = call i32 @read_arg(ptr %a)",
        false,
    ),
];

fn text_of(alloc: Global, write: &[u8], used: &[u8]) -> Result<Vec<u8>, AllocError> {
    let mut text = Vec::from_slice(alloc, MODULE)?;
    text.extend_from_slice(BEFORE)?;
    text.extend_from_slice(write)?;
    text.push(b'\n')?;
    text.extend_from_slice(used)?;
    text.extend_from_slice(AFTER)?;
    Ok(text)
}

// The printed form: the write is the first Def, and the use names it or the entry.
fn form_of(alloc: Global, write: &[u8], used: &[u8], sees: bool) -> Result<Vec<u8>, AllocError> {
    let mut form = Vec::from_slice(alloc, HEADER)?;
    form.extend_from_slice(BEFORE)?;
    form.extend_from_slice(b"; 1 = MemoryDef(liveOnEntry)\n")?;
    form.extend_from_slice(write)?;
    let note: &[u8] = if sees {
        b"\n; MemoryUse(1)\n"
    } else {
        b"\n; MemoryUse(liveOnEntry)\n"
    };
    form.extend_from_slice(note)?;
    form.extend_from_slice(used)?;
    form.extend_from_slice(AFTER)?;
    form.push(b'\n')?;
    Ok(form)
}

fn expect_row(
    rt: &impl Abort,
    alloc: Global,
    write: &[u8],
    used: &[u8],
    sees: bool,
) -> Result<(), FileFault> {
    let text = text_of(alloc, write, used)?;
    let form = form_of(alloc, write, used, sees)?;
    let left = run_on(
        alloc,
        &[PRINT, "--disable-output", "m.ll"],
        "m.ll",
        text.as_slice(),
    )?;
    expect(rt, &left, Status::Done, form.as_slice(), b"");
    Ok(())
}

#[test]
fn writes_that_uses_may_see(rt: HostRuntime) -> Result<(), Fail> {
    let alloc = rt.alloc();
    for (write, used, sees) in ROWS {
        expect_row(&rt, alloc, write, used, sees)?;
    }
    Ok(())
}
