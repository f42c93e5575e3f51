// What attributes mean.
use ms_attrs::{effects_by, keeps_by};
use ms_ir::{Effects, Groups, NoMemory, Text};
use std::alloc::Global;
use std::test::Fail;

fn mark(flag: bool, letter: u8) -> u8 {
    if flag { letter } else { b'-' }
}

// The flags as letters: of arguments, of other memory and of hidden memory, each reading and writing.
fn letters(flags: Effects) -> [u8; 6] {
    [
        mark(flags.arg_read, b'r'),
        mark(flags.arg_write, b'w'),
        mark(flags.other_read, b'r'),
        mark(flags.other_write, b'w'),
        mark(flags.hidden_read, b'r'),
        mark(flags.hidden_write, b'w'),
    ]
}

// Groups by number. The first line for a number counts, and a group in a group has no meaning.
const GROUPS: [(u32, &str); 10] = [
    (0, "attributes #0 = { nounwind memory(read) \"x\"=\"y\" }"),
    (12, "attributes #12 = { \"memory(none)\" }"),
    (0, "attributes #0 = { memory(none) }"),
    (1, "attributes #1 = { nounwind }"),
    (1, "attributes #1 = { memory(none) }"),
    (
        2,
        "attributes #2 = { memory(argmem: readwrite) \"a\"=\"b\" memory(readwrite, argmem: read) }",
    ),
    (3, "attributes #3 = { #0 f(memory(none)) }"),
    (4, "attributes #4 = { memory(write) #0 }"),
    (
        5,
        "attributes #5 = { { memory(none) } memory(argmem: read) }",
    ),
    (
        6,
        "attributes #6 = { memory(read, argmem: readwrite) memory(write) }",
    ),
];

fn groups(alloc: Global) -> Result<Groups, NoMemory> {
    let mut list = Groups::new(alloc);
    for (number, line) in &GROUPS {
        list.push((*number, Text::from_bytes(alloc, line.as_bytes())?))?;
    }
    Ok(list)
}

// Attributes of a function or a call, and the flags that they give.
const FLAGS: [(&str, &str); 74] = [
    ("", "rwrwrw"),
    ("nounwind align 4 \"a\"=\"b\" !0 !1", "rwrwrw"),
    ("memory", "rwrwrw"),
    ("memory none", "rwrwrw"),
    ("memory(none)", "------"),
    ("memory ( none )", "------"),
    ("memory(read)", "r-r-r-"),
    ("memory(write)", "-w-w-w"),
    ("memory(readwrite)", "rwrwrw"),
    ("memory(argmem: none)", "------"),
    ("memory(argmem: read)", "r-----"),
    ("memory(argmem: write)", "-w----"),
    ("memory(argmem: readwrite)", "rw----"),
    ("memory(inaccessiblemem: read)", "----r-"),
    ("memory(inaccessiblemem: write)", "-----w"),
    ("memory(inaccessiblemem: readwrite)", "----rw"),
    (
        "memory(argmem: readwrite, inaccessiblemem: write)",
        "rw---w",
    ),
    ("memory(read, argmem: none)", "--r-r-"),
    ("memory(argmem: none, read)", "--r-r-"),
    ("memory(readwrite, inaccessiblemem: none)", "rwrw--"),
    ("memory(inaccessiblemem: none, readwrite)", "rwrw--"),
    (
        "memory(argmem: write, inaccessiblemem: read, read)",
        "-wr-r-",
    ),
    ("memory(errnomem: write)", "---w--"),
    ("memory(errnomem: readwrite)", "--rw--"),
    ("memory(errnomem: read, target_mem0: write)", "--rw--"),
    ("memory(errnomem: write, read, other: none)", "r-rwr-"),
    ("memory(write, errnomem: read)", "-wrw-w"),
    ("memory(errnomem: read, none)", "--r---"),
    ("memory(read: write)", "---w--"),
    ("memory(memory: read)", "--r---"),
    ("memory(read, write)", "-w-w-w"),
    ("memory(none, readwrite)", "rwrwrw"),
    ("memory(argmem: read, argmem: write)", "-w----"),
    ("memory(read, none, argmem: write, argmem: read)", "r-----"),
    (
        "memory(inaccessiblemem: read, inaccessiblemem: none)",
        "------",
    ),
    ("memory()", "rwrwrw"),
    ("memory(,)", "rwrwrw"),
    ("memory(foo)", "rwrwrw"),
    ("memory(read,)", "rwrwrw"),
    ("memory(argmem:)", "rwrwrw"),
    ("memory(: read)", "rwrwrw"),
    ("memory(read write)", "rwrwrw"),
    ("memory(argmem read)", "rwrwrw"),
    ("memory(argmem: read write)", "rwrwrw"),
    ("memory(argmem: argmem)", "rwrwrw"),
    ("memory(argmem: foo)", "rwrwrw"),
    ("memory(argmem: none, 1)", "rwrwrw"),
    ("memory((none))", "rwrwrw"),
    ("memory([none])", "rwrwrw"),
    ("memory(\"none\")", "rwrwrw"),
    ("memory() memory(none)", "------"),
    ("memory(none) memory(read)", "------"),
    ("memory(read) nounwind memory(argmem: readwrite)", "r-----"),
    (
        "memory(argmem: readwrite) memory(argmem: read, inaccessiblemem: read)",
        "r-----",
    ),
    (
        "!a !b memory(read) align 8 \"memory(none)\"=\"x\"",
        "r-r-r-",
    ),
    ("f(memory(none)) f([memory(read)])", "rwrwrw"),
    ("\"memory(none)\"", "rwrwrw"),
    // A byte that begins no token.
    ("memory(none) ?", "rwrwrw"),
    // Groups.
    ("#0", "r-r-r-"),
    ("#0 #0", "r-r-r-"),
    ("#0 memory(argmem: readwrite)", "r-----"),
    ("#0 !a !b #2", "r-----"),
    ("\"#0\"=\"#0\" f(#0)", "rwrwrw"),
    ("f(#0) #4", "-w-w-w"),
    ("#1", "rwrwrw"),
    ("#1 memory(write)", "-w-w-w"),
    ("#2", "r-----"),
    ("#3", "rwrwrw"),
    ("#4", "-w-w-w"),
    ("#5", "r-----"),
    ("#6", "-w----"),
    ("#7", "rwrwrw"),
    ("#7 #0", "r-r-r-"),
    ("#12", "rwrwrw"),
];

#[test]
fn flags_of_attributes(rt: HostRuntime) -> Result<(), Fail> {
    let alloc = rt.alloc();
    let list = groups(alloc)?;
    for (post, wanted) in &FLAGS {
        let text = Text::from_bytes(alloc, post.as_bytes())?;
        let flags = letters(effects_by(alloc, &text, &list)?);
        assert_eq!(rt; flags.as_slice(), wanted.as_bytes(), "for {post}");
    }
    Ok(())
}

// Attributes of a parameter or an argument, and whether a pointer may be kept.
const KEPT: [(&str, bool); 21] = [
    ("", true),
    ("noundef align 8", true),
    ("readonly align 8", true),
    ("nocapture", false),
    ("noundef nocapture readonly", false),
    ("nocapture captures(address)", false),
    ("nocapture(x)", true),
    ("captures(none)", false),
    ("captures ( none )", false),
    ("noundef captures(none) readonly", false),
    ("captures(address)", true),
    ("captures(address) captures(none)", false),
    ("captures(none, none)", true),
    ("captures(ret: address, none)", true),
    ("captures()", true),
    ("captures", true),
    ("f(nocapture) \"nocapture\"", true),
    ("f(captures(none))", true),
    ("\"captures(none)\" \"nocapture\"=\"nocapture\"", true),
    ("#0", true),
    // A byte that begins no token.
    ("nocapture ?", true),
];

#[test]
fn pointers_that_are_kept(rt: HostRuntime) -> Result<(), Fail> {
    let alloc = rt.alloc();
    for (attrs, wanted) in &KEPT {
        let text = Text::from_bytes(alloc, attrs.as_bytes())?;
        assert_eq!(rt; keeps_by(alloc, &text)?, *wanted, "for {attrs}");
    }
    Ok(())
}
