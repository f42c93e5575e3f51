// A module in the style of clang's output, line by line.
use crate::told::expect;
use std::test::Fail;

// Each line, and what it is printed as: comments go, all else stays.
const LINES: [(&str, &str); 26] = [
    ("; ModuleID = 'sum.c'", ""),
    ("source_filename = \"sum.c\"", "source_filename = \"sum.c\""),
    (
        "target triple = \"x86_64-unknown-linux-gnu\"",
        "target triple = \"x86_64-unknown-linux-gnu\"",
    ),
    ("", ""),
    ("; Function Attrs: nounwind uwtable", ""),
    (
        "define dso_local i32 @bump(ptr noundef %0, i32 noundef %1) local_unnamed_addr #0 {",
        "define dso_local i32 @bump(ptr noundef %0, i32 noundef %1) local_unnamed_addr #0 {",
    ),
    (
        "  %3 = load i32, ptr %0, align 4, !tbaa !5",
        "  %3 = load i32, ptr %0, align 4, !tbaa !5",
    ),
    ("  %4 = add nsw i32 %3, %1", "  %4 = add nsw i32 %3, %1"),
    (
        "  store i32 %4, ptr %0, align 4, !tbaa !5",
        "  store i32 %4, ptr %0, align 4, !tbaa !5",
    ),
    ("  %5 = icmp sgt i32 %4, 100", "  %5 = icmp sgt i32 %4, 100"),
    (
        "  br i1 %5, label %6, label %7",
        "  br i1 %5, label %6, label %7",
    ),
    (
        "6:                                                ; preds = %2",
        "6:",
    ),
    (
        "  store i32 100, ptr %0, align 4, !tbaa !5",
        "  store i32 100, ptr %0, align 4, !tbaa !5",
    ),
    ("  br label %7", "  br label %7"),
    (
        "7:                                                ; preds = %6, %2",
        "7:",
    ),
    (
        "  %8 = load i32, ptr %0, align 4, !tbaa !5",
        "  %8 = load i32, ptr %0, align 4, !tbaa !5",
    ),
    ("  ret i32 %8", "  ret i32 %8"),
    ("}", "}"),
    (
        "attributes #0 = { nounwind uwtable \"min-legal-vector-width\"=\"0\" }",
        "attributes #0 = { nounwind uwtable \"min-legal-vector-width\"=\"0\" }",
    ),
    ("!llvm.module.flags = !{!0}", "!llvm.module.flags = !{!0}"),
    (
        "!0 = !{i32 1, !\"wchar_size\", i32 4}",
        "!0 = !{i32 1, !\"wchar_size\", i32 4}",
    ),
    ("!5 = !{!6, !6, i64 0}", "!5 = !{!6, !6, i64 0}"),
    ("!6 = !{!\"int\", !7, i64 0}", "!6 = !{!\"int\", !7, i64 0}"),
    (
        "!7 = !{!\"omnipotent char\", !8, i64 0}",
        "!7 = !{!\"omnipotent char\", !8, i64 0}",
    ),
    (
        "!8 = !{!\"Simple C/C++ TBAA\"}",
        "!8 = !{!\"Simple C/C++ TBAA\"}",
    ),
    ("\r", ""),
];

#[test]
fn lines_in_the_style_of_clang(rt: HostRuntime) -> Result<(), Fail> {
    expect(&rt, rt.alloc(), &LINES)
}
