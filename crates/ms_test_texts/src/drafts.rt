// Texts of modules as they are read line by line, and the first line that fails.
use ms_ir::{NoMemory, Text};
use ms_read::{ReadFault, read_module};
use std::alloc::Global;
use std::test::Fail;

// How many lines of a text say something and the number of the last of them, or why the text is not read.
fn told(alloc: Global, text: &[u8]) -> Result<(usize, u32), ReadFault> {
    if text.len() > 1_000_000 {
        return Err(ReadFault::Memory);
    }
    let draft = read_module(alloc, text)?;
    let count = draft.len();
    let last = match draft.as_slice().last() {
        Some((number, _)) => *number,
        None => 0,
    };
    Ok((count, last))
}

// Texts that are read, how many of their lines say something, and the number of the last of these.
const READ: [(&str, (usize, u32)); 8] = [
    ("", (0, 0)),
    ("; nothing\n\n \t\n", (0, 0)),
    (
        "@g = global i8 0\ndefine void @f() {\n  ret void\n}\n",
        (4, 4),
    ),
    ("define void @f() {\nret void\n}", (3, 3)),
    (
        "\ndefine void @f() {\n\na: ; here\n  br label %b\n\nb:\n  %x = phi i8 [ 0, %a ]\n\n  unreachable\n\n}\n\n",
        (7, 12),
    ),
    (
        "define void @f() {\n  %a = alloca i8\n  store i8 0, ptr %a\n  %b = alloca i8\n  ret void\n}\ndeclare void @g()\n",
        (7, 7),
    ),
    (
        "define void @f() {\n  %x = phi i8 [ 0, %a ]\n  %y = phi i8 [ 0, %a ]\n  ret void\n}\r\n",
        (5, 5),
    ),
    (
        "define void @f() {\n  ret void\n}\ndefine void @f() {\n  ret void\n}\n!0 = !{}\n!0 = !{}\nattributes #0 = { }",
        (9, 9),
    ),
];

#[test]
fn texts_of_modules(rt: HostRuntime) -> Result<(), Fail> {
    for (text, wanted) in &READ {
        assert_eq!(rt; told(rt.alloc(), text.as_bytes()), Ok(*wanted), "{text}");
    }
    Ok(())
}

// Texts, each with its first line that is in no grammar, or may not stand where it stands.
const FAIL: [(&str, u32); 30] = [
    ("ret void\n", 1),
    ("\n}\n", 2),
    ("\n; c\na:\n", 3),
    ("%a = alloca i8\n", 1),
    ("@g = global i8 0\nx\n}\n", 2),
    ("define void @f() {", 2),
    ("define void @f() {\n", 2),
    ("define void @f() {\n  ret void\n", 3),
    ("define void @f() {\n  ret void", 3),
    ("define void @f() {\n  ret void\n\n", 4),
    ("define void @f() {\na:\n  store i8 0, ptr %p\n", 4),
    ("define void @f() {\n}\n", 2),
    ("define void @f() {\na:\n}\n", 3),
    ("define void @f() {\na:\nb:\n", 3),
    ("define void @f() {\n  %a = alloca i8\n}\n", 3),
    ("define void @f() {\n  %a = alloca i8\nb:\n", 3),
    ("define void @f() {\n  ret void\n  ret void\n", 3),
    ("define void @f() {\n  ret void\n  %a = alloca i8\n", 3),
    ("define void @f() {\n  ret void\n  store i8 0, ptr %p\n", 3),
    (
        "define void @f() {\n  ret void\n  %x = phi i8 [ 0, %a ]\n",
        3,
    ),
    ("define void @f() {\n  ret void\na:\n  %x = alloca i8\n", 4),
    (
        "define void @f() {\n  %a = alloca i8\n  %x = phi i8 [ 0, %a ]\n",
        3,
    ),
    ("define void @f() {\n  ret void\n@g = global i8 0\n", 3),
    ("define void @f() {\n!0 = !{}\n", 2),
    ("define void @f() {\na:\nattributes #0 = { }\n", 3),
    ("define void @f() {\n  ret void\ndeclare void @g()\n", 3),
    ("define void @f() {\ndefine void @g() {\n", 2),
    ("define void @f() {\n  ret void\n}\n}\n", 4),
    ("define void @f() {\n  ret void\n}\nb:\n", 4),
    ("!0 = !{}\nswitch i32 %x\n}\n", 2),
];

#[test]
fn first_lines_that_fail(rt: HostRuntime) -> Result<(), Fail> {
    for (text, line) in &FAIL {
        assert_eq!(rt;
            told(rt.alloc(), text.as_bytes()),
            Err(ReadFault::Text(*line)),
            "{text}"
        );
    }
    Ok(())
}

// A line that passes a limit is refused as such where it may stand, and by its place elsewhere.
const PLACED: [(&str, ReadFault); 5] = [
    (
        "define void @f() {\n  %a = alloca [65537 x i8]\nx\n",
        ReadFault::Limit(2),
    ),
    (
        "define void @f() {\nx\n  %a = alloca [65537 x i8]\n",
        ReadFault::Text(2),
    ),
    (
        "define void @f() {\n  ret void\n  %a = alloca [65537 x i8]\n",
        ReadFault::Text(3),
    ),
    (
        "define void @f() {\n  ret void\na:\n  %a = alloca [65537 x i8]\n",
        ReadFault::Text(4),
    ),
    ("%a = alloca [65537 x i8]\n", ReadFault::Text(1)),
];

#[test]
fn limits_and_places(rt: HostRuntime) -> Result<(), Fail> {
    for (text, fault) in &PLACED {
        assert_eq!(rt; told(rt.alloc(), text.as_bytes()), Err(*fault), "{text}");
    }
    Ok(())
}

fn push(text: &mut Text, bytes: &[u8]) -> Result<(), NoMemory> {
    for byte in bytes {
        text.push(*byte)?;
    }
    Ok(())
}

// Three texts behind one another, the second of them so many times.
fn repeated(alloc: Global, parts: (&str, &str, &str), count: usize) -> Result<Text, NoMemory> {
    let mut text = Text::from_bytes(alloc, parts.0.as_bytes())?;
    for _ in 0..count {
        push(&mut text, parts.1.as_bytes())?;
    }
    push(&mut text, parts.2.as_bytes())?;
    Ok(text)
}

// What stands before, what is repeated and what stands behind, how often it may stand, and on which line one more fails.
// Every line of these texts says something.
const COUNTED: [((&str, &str, &str), usize, u32); 6] = [
    (("", "define void @f() {\n  ret void\n}\n", ""), 256, 769),
    (
        (
            "declare void @f()\n",
            "define void @f() {\n  ret void\n}\n",
            "",
        ),
        256,
        770,
    ),
    (
        ("define void @f() {\n", "a:\n  ret void\n", "}\n"),
        1024,
        2050,
    ),
    (
        (
            "define void @f() {\n  ret void\n",
            "a:\n  ret void\n",
            "}\n",
        ),
        1023,
        2049,
    ),
    (
        (
            "define void @f() {\n",
            "  store i8 0, ptr %p\n",
            "  ret void\n}\n",
        ),
        4096,
        4098,
    ),
    (
        (
            "define void @f() {\n  %a = alloca i8\n  ret void\nb:\n  %x = phi i8 [ 0, %a ]\n",
            "  call void @g()\n",
            "  ret void\n}\n",
        ),
        4094,
        4100,
    ),
];

#[test]
fn counts_of_a_module(rt: HostRuntime) -> Result<(), Fail> {
    let alloc = rt.alloc();
    for (parts, most, line) in &COUNTED {
        let reached = repeated(alloc, *parts, *most)?;
        let (count, last) = told(alloc, reached.bytes())?;
        assert_eq!(rt; count, last as usize, "{line}");
        let passed = repeated(alloc, *parts, most.saturating_add(1))?;
        assert_eq!(rt;
            told(alloc, passed.bytes()),
            Err(ReadFault::Limit(*line)),
            "{line}"
        );
    }
    Ok(())
}
