// Modules, and what is written for them. A use names the last access of memory before it on every path.
use crate::row::{PRINT, expect, run_on};
use ms_cli::Status;
use std::test::Fail;

pub const ONE_BLOCK: &[u8] = b"define void @f() {
  %p = alloca i32, align 4
  store i32 7, ptr %p, align 4
  %v = load i32, ptr %p, align 4
  ret void
}
";

const ONE_BLOCK_FORM: &[u8] = b"MemorySSA for function: f
define void @f() {
  %p = alloca i32, align 4
; 1 = MemoryDef(liveOnEntry)
  store i32 7, ptr %p, align 4
; MemoryUse(1)
  %v = load i32, ptr %p, align 4
  ret void
}

";

const ONE_BLOCK_OUTPUT: &[u8] = b"MemorySSA for function: f
define void @f() {
  %p = alloca i32, align 4
; 1 = MemoryDef(liveOnEntry)
  store i32 7, ptr %p, align 4
; MemoryUse(1)
  %v = load i32, ptr %p, align 4
  ret void
}

define void @f() {
  %p = alloca i32, align 4
  store i32 7, ptr %p, align 4
  %v = load i32, ptr %p, align 4
  ret void
}
";

#[test]
fn empty_file(rt: HostRuntime) -> Result<(), Fail> {
    let left = run_on(rt.alloc(), &[PRINT, "e.ll"], "e.ll", b"")?;
    expect(&rt, &left, Status::Done, b"", b"");
    Ok(())
}

// No clause says when memory is left, so a program that always answers that there is none is proved too. It fails here.
#[test]
fn one_block(rt: HostRuntime) -> Result<(), Fail> {
    let left = run_on(rt.alloc(), &[PRINT, "one.ll"], "one.ll", ONE_BLOCK)?;
    expect(&rt, &left, Status::Done, ONE_BLOCK_OUTPUT, b"");
    Ok(())
}

// The longest list, of 16 passes.
const SIXTEEN: &str =
    "--passes=print<memoryssa>,print<memoryssa>,print<memoryssa>,print<memoryssa>,print<memoryssa>,print<memoryssa>,print<memoryssa>,print<memoryssa>,print<memoryssa>,print<memoryssa>,print<memoryssa>,print<memoryssa>,print<memoryssa>,print<memoryssa>,print<memoryssa>,print<memoryssa>";

// Each item of the list adds a form.
#[test]
fn lists_of_passes(rt: HostRuntime) -> Result<(), Fail> {
    let lists = [
        (PRINT, 1),
        ("--passes=print<memoryssa>,print<memoryssa>", 2),
        (SIXTEEN, 16),
    ];
    for (list, count) in lists {
        let words: &[&str] = &[list, "--disable-output", "-"];
        let left = run_on(rt.alloc(), words, "-", ONE_BLOCK)?;
        let out = left.out.bytes();
        assert_eq!(rt; out.chunks(ONE_BLOCK_FORM.len()).count(), count);
        assert!(rt;
            out.chunks(ONE_BLOCK_FORM.len())
                .all(|form| form == ONE_BLOCK_FORM)
        );
        assert_eq!(rt; left.status, Status::Done);
    }
    Ok(())
}

const CLANG: &[u8] = b"; ModuleID = 'sum.c'
source_filename = \"sum.c\"
target triple = \"x86_64-unknown-linux-gnu\"

; Function Attrs: nounwind uwtable
define dso_local i32 @bump(ptr noundef %0, i32 noundef %1) local_unnamed_addr #0 {
  %3 = load i32, ptr %0, align 4, !tbaa !5
  %4 = add nsw i32 %3, %1
  store i32 %4, ptr %0, align 4, !tbaa !5
  %5 = icmp sgt i32 %4, 100
  br i1 %5, label %6, label %7

6:                                                ; preds = %2
  store i32 100, ptr %0, align 4, !tbaa !5
  br label %7

7:                                                ; preds = %6, %2
  %8 = load i32, ptr %0, align 4, !tbaa !5
  ret i32 %8
}

attributes #0 = { nounwind uwtable \"min-legal-vector-width\"=\"0\" }

!llvm.module.flags = !{!0}

!0 = !{i32 1, !\"wchar_size\", i32 4}
!5 = !{!6, !6, i64 0}
!6 = !{!\"int\", !7, i64 0}
!7 = !{!\"omnipotent char\", !8, i64 0}
!8 = !{!\"Simple C/C++ TBAA\"}
";

const CLANG_OUTPUT: &[u8] = b"MemorySSA for function: bump
define dso_local i32 @bump(ptr noundef %0, i32 noundef %1) local_unnamed_addr #0 {
; MemoryUse(liveOnEntry)
  %3 = load i32, ptr %0, align 4, !tbaa !5
  %4 = add nsw i32 %3, %1
; 1 = MemoryDef(liveOnEntry)
  store i32 %4, ptr %0, align 4, !tbaa !5
  %5 = icmp sgt i32 %4, 100
  br i1 %5, label %6, label %7

6:
; 2 = MemoryDef(1)
  store i32 100, ptr %0, align 4, !tbaa !5
  br label %7

7:
; 3 = MemoryPhi({%2,1},{%6,2})
; MemoryUse(3)
  %8 = load i32, ptr %0, align 4, !tbaa !5
  ret i32 %8
}

source_filename = \"sum.c\"
target triple = \"x86_64-unknown-linux-gnu\"

define dso_local i32 @bump(ptr noundef %0, i32 noundef %1) local_unnamed_addr #0 {
  %3 = load i32, ptr %0, align 4, !tbaa !5
  %4 = add nsw i32 %3, %1
  store i32 %4, ptr %0, align 4, !tbaa !5
  %5 = icmp sgt i32 %4, 100
  br i1 %5, label %6, label %7

6:
  store i32 100, ptr %0, align 4, !tbaa !5
  br label %7

7:
  %8 = load i32, ptr %0, align 4, !tbaa !5
  ret i32 %8
}

attributes #0 = { nounwind uwtable \"min-legal-vector-width\"=\"0\" }
!llvm.module.flags = !{!0}
!0 = !{i32 1, !\"wchar_size\", i32 4}
!5 = !{!6, !6, i64 0}
!6 = !{!\"int\", !7, i64 0}
!7 = !{!\"omnipotent char\", !8, i64 0}
!8 = !{!\"Simple C/C++ TBAA\"}
";

#[test]
fn clang_style(rt: HostRuntime) -> Result<(), Fail> {
    let left = run_on(rt.alloc(), &[PRINT, "sum.ll"], "sum.ll", CLANG)?;
    expect(&rt, &left, Status::Done, CLANG_OUTPUT, b"");
    Ok(())
}
