// Modules that are refused, and how this is told.
use crate::row::{PRINT, expect, refused, run_on};
use crate::texts::ONE_BLOCK;
use ms_cli::Status;
use std::alloc::{AllocError, Global};
use std::test::Fail;

const IRREDUCIBLE: &[u8] = b"define void @k(i1 %c, i1 %d) {
entry:
  br i1 %c, label %x, label %y

x:
  br i1 %d, label %y, label %z

y:
  br i1 %d, label %x, label %z

z:
  ret void
}
";

// A function with such a loop behind one that is declared: its number is 1.
const SECOND_IRREDUCIBLE: &[u8] = b"declare void @g()

define void @k2(i1 %c) {
  br i1 %c, label %x, label %y

x:
  br label %y

y:
  br label %x
}
";

#[test]
fn irreducible_refused(rt: HostRuntime) -> Result<(), Fail> {
    let rows: [(&[u8], u32, &[u8]); 2] = [
        (
            IRREDUCIBLE,
            0,
            b"mssa: k.ll: refusal 7: irreducible loop in @k\n",
        ),
        (
            SECOND_IRREDUCIBLE,
            1,
            b"mssa: k.ll: refusal 7: irreducible loop in @k2\n",
        ),
    ];
    for (text, func, told) in rows {
        let left = run_on(rt.alloc(), &[PRINT, "k.ll"], "k.ll", text)?;
        expect(&rt, &left, refused(7, func), b"", told);
    }
    Ok(())
}

// A module, the number of its refusal, its line, and the line that tells it.
const REFUSED: [(&[u8], u32, u32, &[u8]); 10] = [
    (
        b"}\n",
        1,
        1,
        b"mssa: b.ll:1: refusal 1: not of the profile\n",
    ),
    (
        b"define void @f() {\n}\n",
        1,
        2,
        b"mssa: b.ll:2: refusal 1: not of the profile\n",
    ),
    (
        b"define double @f() {\nret void\n}\n",
        1,
        1,
        b"mssa: b.ll:1: refusal 1: not of the profile\n",
    ),
    (
        b"define void @f() {\nret void\n",
        1,
        3,
        b"mssa: b.ll:3: refusal 1: not of the profile\n",
    ),
    (
        b"define void @f() {\n%a = alloca [65537 x i8], align 1\nret double\n}\n",
        2,
        2,
        b"mssa: b.ll:2: refusal 2: limit passed\n",
    ),
    (
        b"define void @f(ptr %p) {\nstore i32 %x, ptr %p\nret void\n}\n",
        3,
        2,
        b"mssa: b.ll:2: refusal 3: name\n",
    ),
    (
        b"define void @f(ptr %p, i8 %x) {\nstore i32 %x, ptr %p\nstore i32 %w, ptr %p\nret void\n}\n",
        3,
        3,
        b"mssa: b.ll:3: refusal 3: name\n",
    ),
    (
        b"define void @f(ptr %p, i8 %x) {\nstore i32 %x, ptr %p\nret void\n}\n",
        4,
        2,
        b"mssa: b.ll:2: refusal 4: type\n",
    ),
    (
        b"define i32 @f(i1 %c) {\nentry:\nbr i1 %c, label %a, label %b\na:\nbr label %b\nb:\n%x = phi i32 [ 1, %a ]\nret i32 %x\n}\n",
        5,
        7,
        b"mssa: b.ll:7: refusal 5: edges\n",
    ),
    (
        b"define i32 @f(ptr %p) {\n%y = add i32 %x, 1\n%x = load i32, ptr %p\nret i32 %y\n}\n",
        6,
        2,
        b"mssa: b.ll:2: refusal 6: order\n",
    ),
];

#[test]
fn refused_modules(rt: HostRuntime) -> Result<(), Fail> {
    for (text, number, line, told) in REFUSED {
        let left = run_on(rt.alloc(), &[PRINT, "b.ll"], "b.ll", text)?;
        expect(&rt, &left, refused(number, line), b"", told);
    }
    Ok(())
}

// A comment of so many bytes.
fn comment(alloc: Global, length: usize) -> Result<Vec<u8>, AllocError> {
    let mut text = vec![in alloc; b'x'; length]?;
    if let Some(first) = text.first_mut() {
        *first = b';';
    }
    Ok(text)
}

// A file that is cut off in a line, and a comment of the greatest length and of one byte more.
#[test]
fn cut_and_oversized_files(rt: HostRuntime) -> Result<(), Fail> {
    let alloc = rt.alloc();
    let left = run_on(alloc, &[PRINT, "cut.ll"], "cut.ll", &ONE_BLOCK[..63])?;
    expect(
        &rt,
        &left,
        refused(1, 3),
        b"",
        b"mssa: cut.ll:3: refusal 1: not of the profile\n",
    );
    let rows: [(usize, Status, &[u8]); 2] = [
        (1_048_576, Status::Done, b""),
        (
            1_048_577,
            refused(10, 0),
            b"mssa: big.ll: refusal 10: longer than 1048576 bytes\n",
        ),
    ];
    for (length, status, told) in rows {
        let text = comment(alloc, length)?;
        let left = run_on(alloc, &[PRINT, "big.ll"], "big.ll", text.as_slice())?;
        expect(&rt, &left, status, b"", told);
    }
    Ok(())
}
