// The sorts of lines, whether or not they pass a limit.
use ms_line::{LineFault, Sort, sort_of};
use std::alloc::Global;
use std::test::Fail;

fn sort(alloc: Global, line: &[u8]) -> Result<Sort, LineFault> {
    if line.len() > 1000 {
        return Err(LineFault::Memory);
    }
    sort_of(alloc, line)
}

// A line of each form, and its sort.
const SORTS: [(&str, Sort); 36] = [
    ("", Sort::Blank),
    (" \t; }", Sort::Blank),
    ("source_filename = \"a\"", Sort::Item),
    ("target triple = \"a\"", Sort::Item),
    ("!0 = !{}", Sort::Item),
    ("%T = type i8", Sort::Item),
    ("$c = comdat any", Sort::Item),
    ("@g = global i8 0", Sort::Item),
    ("attributes #0 = { }", Sort::Item),
    ("declare void @f(ptr nocapture, ...)", Sort::Item),
    ("define i32 @f(i32 %a) #0 {", Sort::Define),
    ("}", Sort::Close),
    ("a:", Sort::Label),
    ("123456789:", Sort::Label),
    ("%x = alloca i8", Sort::Alloca),
    ("%x = alloca [65537 x i8]", Sort::Alloca),
    ("%x = phi i32 [ 1, %a ]", Sort::Phi),
    ("%x = getelementptr i8, ptr %p, i64 1", Sort::Other),
    ("%x = getelementptr i8, ptr %p, i64 2147483649", Sort::Other),
    ("%x = getelementptr i8, ptr %p, i64 %i", Sort::Other),
    (
        "%x = getelementptr [2147483649 x i8], ptr %p, i64%i",
        Sort::Other,
    ),
    ("%x = load i8, ptr %p", Sort::Other),
    ("store i8 0, ptr %p", Sort::Other),
    (
        "call void @llvm.memcpy.p0.p0.i64(ptr %d, ptr %s, i64 1, i1 false)",
        Sort::Other,
    ),
    (
        "call void @llvm.memcpy.p0.p0.i64(ptr %d, ptr %s, i64 4097, i1 false)",
        Sort::Other,
    ),
    ("call void @f()", Sort::Other),
    ("%x = call i8 @f()", Sort::Other),
    ("%x = add i8 1, 1", Sort::Other),
    ("%x = icmp eq i8 1, 1", Sort::Other),
    ("%x = select i1 %c, i8 1, i8 2", Sort::Other),
    ("%x = zext i8 1 to i16", Sort::Other),
    ("br label %a", Sort::Term),
    ("br i1 %c, label %a, label %b", Sort::Term),
    ("ret void", Sort::Term),
    ("ret i8 0", Sort::Term),
    ("unreachable", Sort::Term),
];

#[test]
fn sorts_of_lines(rt: HostRuntime) -> Result<(), Fail> {
    for (line, wanted) in &SORTS {
        assert_eq!(rt; sort(rt.alloc(), line.as_bytes()), Ok(*wanted), "{line}");
    }
    let none = sort(rt.alloc(), b"switch i32 %x, label %a");
    assert_eq!(rt; none, Err(LineFault::NotOfProfile));
    Ok(())
}
