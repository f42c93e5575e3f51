// What the tokens of lines say.
use crate::tokens::read;
use ms_grammar::{Keyword, RawIndex, RawTerms};
use ms_ir::{CastOp, Op, Pred, Ty};
use ms_line_parts::{
    attributes_front, bytes_of, call_mark_front, call_type_front, cast_at, count_at, cut_text,
    global_at, global_line, group_line, index_terms, indices_front, is_kept_line, is_keyword,
    is_tail, kept, local_at, member_front, name_of, number_at, object_front, object_size, op_at,
    post_front, pred_at, small_offset, type_at, value_at,
};
use std::process::Abort;
use std::test::Fail;

#[test]
fn words(rt: HostRuntime) -> Result<(), Fail> {
    let alloc = rt.alloc();
    let text = "i8 add ult zext %x @f -1 70000 load";
    let line = text.as_bytes();
    let list = read(alloc, line)?;
    match list.as_slice() {
        [ty, op, pred, cast, local, global, number, count, load] => {
            assert!(rt; type_at(line, *ty) == Some(Ty::I8));
            assert!(rt; op_at(line, *op) == Some(Op::Add));
            assert!(rt; pred_at(line, *pred) == Some(Pred::Ult));
            assert!(rt; cast_at(line, *cast) == Some(CastOp::Zext));
            assert!(rt; local_at(alloc, line, *local)?.is_some());
            assert!(rt; global_at(alloc, line, *global)?.is_some());
            assert!(rt; value_at(alloc, line, *global, Ty::I8)?.is_none());
            assert!(rt; value_at(alloc, line, *number, Ty::I8)?.is_some());
            assert_eq!(rt; number_at(line, *number, Ty::I8), Some(255));
            assert_eq!(rt; count_at(line, *count, 4096), Some(None));
            assert!(rt; is_keyword(line, *load, Keyword::Load));
            assert!(rt; bytes_of(line, *load) == b"load".as_slice());
        }
        _ => return Err("other tokens")?,
    }
    assert!(rt; name_of(alloc, b"12")?.is_some());
    assert!(rt; name_of(alloc, b"012")?.is_none());
    assert!(rt; kept(alloc, line, list.as_slice())?.bytes() == line);
    Ok(())
}

// Lines, and how many of their first tokens are attributes, attributes and metadata, the type of a callee in parentheses, and
// the words that begin a call.
const FRONTS: [(&str, usize, usize, usize, usize); 5] = [
    ("nounwind f(a [b]) align 8 \"a\"=\"b\" #0 i32", 14, 14, 0, 0),
    ("f(a", 1, 1, 0, 0),
    ("(i32 (f))(a", 0, 0, 6, 0),
    ("!0 !1 x", 0, 3, 0, 0),
    ("notail call", 2, 2, 0, 2),
];

#[test]
fn fronts(rt: HostRuntime) -> Result<(), Fail> {
    let alloc = rt.alloc();
    for (text, attributes, post, parentheses, call) in &FRONTS {
        let line = text.as_bytes();
        let list = read(alloc, line)?;
        let tokens = list.as_slice();
        assert_eq!(rt;
            attributes_front(alloc, line, tokens)?,
            *attributes,
            "{text}"
        );
        assert_eq!(rt; post_front(alloc, line, tokens)?, *post, "{text}");
        assert_eq!(rt;
            call_type_front(alloc, line, tokens)?,
            *parentheses,
            "{text}"
        );
        assert_eq!(rt; call_mark_front(line, tokens), *call, "{text}");
    }
    Ok(())
}

// Members of lists, and how many tokens stand in front of the value.
const MEMBERS: [(&str, Option<usize>); 5] = [
    ("align 8, x", Some(1)),
    ("align 8 9)", Some(2)),
    ("noundef %x)", Some(1)),
    ("true,", Some(0)),
    (", x", None),
];

#[test]
fn members(rt: HostRuntime) -> Result<(), Fail> {
    let alloc = rt.alloc();
    for (text, wanted) in &MEMBERS {
        let line = text.as_bytes();
        let list = read(alloc, line)?;
        assert_eq!(rt;
            member_front(alloc, line, list.as_slice())?,
            *wanted,
            "{text}"
        );
    }
    Ok(())
}

// Tokens, and whether they are a line that says nothing of memory, the number of the group whose line they are, whether they
// are the line of a global, and whether they may stand behind an instruction.
const WHOLES: [(&str, bool, Option<u32>, bool, bool); 9] = [
    ("", false, None, false, true),
    ("source_filename = \"a\"", true, None, false, false),
    ("!0 = !{!1}", true, None, false, false),
    ("!0 = !{", false, None, false, false),
    ("attributes #3 = { a(b) }", false, Some(3), false, false),
    ("attributes #03 = { }", false, None, false, false),
    ("@x = f(global) constant i32 0", false, None, true, false),
    ("@x = f(global) i32 0", false, None, false, false),
    (", align 4, !t !0 { a }", false, None, false, true),
];

#[test]
fn wholes(rt: HostRuntime) -> Result<(), Fail> {
    let alloc = rt.alloc();
    for (text, is_kept, group, is_global, is_rest) in &WHOLES {
        let line = text.as_bytes();
        let list = read(alloc, line)?;
        let tokens = list.as_slice();
        assert_eq!(rt; is_kept_line(alloc, line, tokens)?, *is_kept, "{text}");
        assert_eq!(rt; group_line(alloc, line, tokens)?, *group, "{text}");
        assert_eq!(rt; global_line(alloc, line, tokens)?, *is_global, "{text}");
        assert_eq!(rt; is_tail(alloc, line, tokens)?, *is_rest, "{text}");
    }
    Ok(())
}

// Expects one local among indices, which counts by six bytes.
fn expect_term(rt: &impl Abort, terms: &RawTerms) {
    match terms.as_slice() {
        [RawIndex { ty, scale, .. }] => assert!(rt; *ty == Ty::I32 && *scale == 6),
        _ => assert!(rt; false, "other terms"),
    }
}

#[test]
fn objects(rt: HostRuntime) -> Result<(), Fail> {
    let alloc = rt.alloc();
    let text = "[2 x [3 x i16]] i64 1, i32%n, i8 1, align 4";
    let line = text.as_bytes();
    let list = read(alloc, line)?;
    let tokens = list.as_slice();
    if tokens.len() != 20 {
        return Err("other tokens")?;
    }
    let object = &tokens[..9];
    let indices = &tokens[9..17];
    assert_eq!(rt; object_front(line, tokens), Some(9));
    assert_eq!(rt; object_size(line, object), Some(12));
    assert_eq!(rt; indices_front(line, &tokens[9..]), 8);
    let terms = index_terms(alloc, line, object, indices)?.ok_or("no terms")?;
    expect_term(&rt, &terms);
    assert_eq!(rt; small_offset(line, object, indices, &terms), Some(14));
    let cut = cut_text(alloc, line, indices)?;
    assert!(rt; cut.bytes() == b"i64 1, i32 %, i8 1".as_slice());
    Ok(())
}
