// Modules, and the printed forms of their functions.
use crate::row::{PRINT, expect, run_on};
use ms_cli::Status;
use ms_io::FileFault;
use std::alloc::Global;
use std::process::Abort;
use std::test::Fail;

// Expects the printed forms of a module's functions.
fn expect_form(rt: &impl Abort, alloc: Global, text: &[u8], form: &[u8]) -> Result<(), FileFault> {
    let left = run_on(alloc, &[PRINT, "--disable-output", "m.ll"], "m.ll", text)?;
    expect(rt, &left, Status::Done, form, b"");
    Ok(())
}

const THREE_ALLOCAS: &[u8] = b"define void @foo(i1 %c) {
entry:
  %p1 = alloca i8
  %p2 = alloca i8
  %p3 = alloca i8
  store i8 0, ptr %p3
  br label %while.cond

while.cond:
  br i1 %c, label %if.then, label %if.else

if.then:
  store i8 0, ptr %p1
  br label %if.end

if.else:
  store i8 1, ptr %p2
  br label %if.end

if.end:
  %0 = load i8, ptr %p1
  store i8 2, ptr %p2
  %1 = load i8, ptr %p3
  br label %while.cond
}
";

const THREE_ALLOCAS_FORM: &[u8] = b"MemorySSA for function: foo
define void @foo(i1 %c) {
entry:
  %p1 = alloca i8
  %p2 = alloca i8
  %p3 = alloca i8
; 1 = MemoryDef(liveOnEntry)
  store i8 0, ptr %p3
  br label %while.cond

while.cond:
; 2 = MemoryPhi({entry,1},{if.end,6})
  br i1 %c, label %if.then, label %if.else

if.then:
; 3 = MemoryDef(2)
  store i8 0, ptr %p1
  br label %if.end

if.else:
; 4 = MemoryDef(2)
  store i8 1, ptr %p2
  br label %if.end

if.end:
; 5 = MemoryPhi({if.then,3},{if.else,4})
; MemoryUse(5)
  %0 = load i8, ptr %p1
; 6 = MemoryDef(5)
  store i8 2, ptr %p2
; MemoryUse(1)
  %1 = load i8, ptr %p3
  br label %while.cond
}

";

#[test]
fn three_allocas_in_a_loop(rt: HostRuntime) -> Result<(), Fail> {
    expect_form(&rt, rt.alloc(), THREE_ALLOCAS, THREE_ALLOCAS_FORM)?;
    Ok(())
}

const SELF_LOOP: &[u8] = b"define void @s(i1 %c, ptr %p) {
entry:
  br label %b

b:
  store i8 1, ptr %p
  br i1 %c, label %b, label %x

x:
  ret void
}
";

const SELF_LOOP_FORM: &[u8] = b"MemorySSA for function: s
define void @s(i1 %c, ptr %p) {
entry:
  br label %b

b:
; 1 = MemoryPhi({entry,liveOnEntry},{b,2})
; 2 = MemoryDef(1)
  store i8 1, ptr %p
  br i1 %c, label %b, label %x

x:
  ret void
}

";

#[test]
fn self_loop(rt: HostRuntime) -> Result<(), Fail> {
    expect_form(&rt, rt.alloc(), SELF_LOOP, SELF_LOOP_FORM)?;
    Ok(())
}

const BOTH_BRANCHES: &[u8] = b"define void @t(i1 %c, ptr %p) {
entry:
  store i8 1, ptr %p
  br i1 %c, label %a, label %a

a:
  %v = load i8, ptr %p
  ret void
}
";

const BOTH_BRANCHES_FORM: &[u8] = b"MemorySSA for function: t
define void @t(i1 %c, ptr %p) {
entry:
; 1 = MemoryDef(liveOnEntry)
  store i8 1, ptr %p
  br i1 %c, label %a, label %a

a:
; MemoryUse(1)
  %v = load i8, ptr %p
  ret void
}

";

#[test]
fn both_branches_to_one_block(rt: HostRuntime) -> Result<(), Fail> {
    expect_form(&rt, rt.alloc(), BOTH_BRANCHES, BOTH_BRANCHES_FORM)?;
    Ok(())
}

const UNREACHED: &[u8] = b"define void @u(ptr %p) {
entry:
  store i8 1, ptr %p
  br label %j

dead:
  store i8 2, ptr %p
  br label %j

j:
  %v = load i8, ptr %p
  ret void
}
";

const UNREACHED_FORM: &[u8] = b"MemorySSA for function: u
define void @u(ptr %p) {
entry:
; 1 = MemoryDef(liveOnEntry)
  store i8 1, ptr %p
  br label %j

dead:
  store i8 2, ptr %p
  br label %j

j:
; MemoryUse(1)
  %v = load i8, ptr %p
  ret void
}

";

#[test]
fn unreached_block(rt: HostRuntime) -> Result<(), Fail> {
    expect_form(&rt, rt.alloc(), UNREACHED, UNREACHED_FORM)?;
    Ok(())
}

const NESTED: &[u8] = b"define void @n(i1 %c, i1 %d, ptr %p) {
entry:
  br label %outer

outer:
  br label %inner

inner:
  store i8 1, ptr %p
  br i1 %c, label %inner, label %latch

latch:
  br i1 %d, label %outer, label %exit

exit:
  ret void
}
";

const NESTED_FORM: &[u8] = b"MemorySSA for function: n
define void @n(i1 %c, i1 %d, ptr %p) {
entry:
  br label %outer

outer:
; 1 = MemoryPhi({entry,liveOnEntry},{latch,3})
  br label %inner

inner:
; 2 = MemoryPhi({outer,1},{inner,3})
; 3 = MemoryDef(2)
  store i8 1, ptr %p
  br i1 %c, label %inner, label %latch

latch:
  br i1 %d, label %outer, label %exit

exit:
  ret void
}

";

#[test]
fn nested_loops_first_print(rt: HostRuntime) -> Result<(), Fail> {
    expect_form(&rt, rt.alloc(), NESTED, NESTED_FORM)?;
    Ok(())
}

const ATTRIBUTES: &[u8] = b"declare i32 @look(ptr nocapture) memory(argmem: read)
declare i32 @pure(i32) memory(none)
declare void @hid() memory(inaccessiblemem: write)
declare i32 @ask() memory(inaccessiblemem: read)
define i32 @a() {
  %x = alloca i32, align 4
  store i32 5, ptr %x, align 4
  call void @hid()
  %r = call i32 @look(ptr %x)
  %s = call i32 @pure(i32 %r)
  %t = call i32 @ask()
  ret i32 %s
}
";

const ATTRIBUTES_FORM: &[u8] = b"MemorySSA for function: a
define i32 @a() {
  %x = alloca i32, align 4
; 1 = MemoryDef(liveOnEntry)
  store i32 5, ptr %x, align 4
; 2 = MemoryDef(1)
  call void @hid()
; MemoryUse(1)
  %r = call i32 @look(ptr %x)
  %s = call i32 @pure(i32 %r)
; MemoryUse(2)
  %t = call i32 @ask()
  ret i32 %s
}

";

#[test]
fn attributes(rt: HostRuntime) -> Result<(), Fail> {
    expect_form(&rt, rt.alloc(), ATTRIBUTES, ATTRIBUTES_FORM)?;
    Ok(())
}

const CHANGING: &[u8] = b"define i8 @v(ptr %s, i1 %c) {
entry:
  br label %h

h:
  %p = phi ptr [ %s, %entry ], [ %q, %h ]
  %q = getelementptr i8, ptr %p, i64 4
  store i8 1, ptr %q, align 1
  %x = load i8, ptr %p, align 1
  br i1 %c, label %h, label %e

e:
  ret i8 %x
}
";

const CHANGING_FORM: &[u8] = b"MemorySSA for function: v
define i8 @v(ptr %s, i1 %c) {
entry:
  br label %h

h:
; 1 = MemoryPhi({entry,liveOnEntry},{h,2})
  %p = phi ptr [ %s, %entry ], [ %q, %h ]
  %q = getelementptr i8, ptr %p, i64 4
; 2 = MemoryDef(1)
  store i8 1, ptr %q, align 1
; MemoryUse(1)
  %x = load i8, ptr %p, align 1
  br i1 %c, label %h, label %e

e:
  ret i8 %x
}

";

#[test]
fn pointer_that_changes_per_turn(rt: HostRuntime) -> Result<(), Fail> {
    expect_form(&rt, rt.alloc(), CHANGING, CHANGING_FORM)?;
    Ok(())
}

const ARM: &[u8] = b"define void @d(i1 %c) {
entry:
  %a = alloca i32, align 4
  %b = alloca i32, align 4
  store i32 1, ptr %a, align 4
  store i32 2, ptr %b, align 4
  br i1 %c, label %l, label %r

l:
  br label %j

r:
  br label %j

j:
  %x = load i32, ptr %a, align 4
  %y = load i32, ptr %b, align 4
  ret void
}
";

const ARM_FORM: &[u8] = b"MemorySSA for function: d
define void @d(i1 %c) {
entry:
  %a = alloca i32, align 4
  %b = alloca i32, align 4
; 1 = MemoryDef(liveOnEntry)
  store i32 1, ptr %a, align 4
; 2 = MemoryDef(1)
  store i32 2, ptr %b, align 4
  br i1 %c, label %l, label %r

l:
  br label %j

r:
  br label %j

j:
; MemoryUse(1)
  %x = load i32, ptr %a, align 4
; MemoryUse(2)
  %y = load i32, ptr %b, align 4
  ret void
}

";

#[test]
fn store_inserted_on_one_arm_first_print(rt: HostRuntime) -> Result<(), Fail> {
    expect_form(&rt, rt.alloc(), ARM, ARM_FORM)?;
    Ok(())
}

const CAPTURE: &[u8] = b"declare void @use(ptr)
declare void @tick()

define void @c() {
  %a = alloca i32, align 4
  %b = alloca i32, align 4
  store i32 1, ptr %a, align 4
  store i32 2, ptr %b, align 4
  call void @tick()
  %x = load i32, ptr %a, align 4
  %y = load i32, ptr %b, align 4
  ret void
}
";

const CAPTURE_FORM: &[u8] = b"MemorySSA for function: c
define void @c() {
  %a = alloca i32, align 4
  %b = alloca i32, align 4
; 1 = MemoryDef(liveOnEntry)
  store i32 1, ptr %a, align 4
; 2 = MemoryDef(1)
  store i32 2, ptr %b, align 4
; 3 = MemoryDef(2)
  call void @tick()
; MemoryUse(1)
  %x = load i32, ptr %a, align 4
; MemoryUse(2)
  %y = load i32, ptr %b, align 4
  ret void
}

";

#[test]
fn capture_by_an_inserted_call_first_print(rt: HostRuntime) -> Result<(), Fail> {
    expect_form(&rt, rt.alloc(), CAPTURE, CAPTURE_FORM)?;
    Ok(())
}

const SELECTED: &[u8] = b"define void @w(i1 %c, i1 %d) {
entry:
  %a = alloca [8 x i8], align 1
  %b = alloca [8 x i8], align 1
  store i8 1, ptr %a, align 1
  br label %h

h:
  %p = select i1 %c, ptr %a, ptr %b
  %q = getelementptr i8, ptr %p, i64 4
  store i8 2, ptr %p, align 1
  store i8 3, ptr %q, align 1
  %x = load i8, ptr %p, align 1
  br i1 %d, label %h, label %e

e:
  ret void
}
";

const SELECTED_FORM: &[u8] = b"MemorySSA for function: w
define void @w(i1 %c, i1 %d) {
entry:
  %a = alloca [8 x i8], align 1
  %b = alloca [8 x i8], align 1
; 1 = MemoryDef(liveOnEntry)
  store i8 1, ptr %a, align 1
  br label %h

h:
; 2 = MemoryPhi({entry,1},{h,4})
  %p = select i1 %c, ptr %a, ptr %b
  %q = getelementptr i8, ptr %p, i64 4
; 3 = MemoryDef(2)
  store i8 2, ptr %p, align 1
; 4 = MemoryDef(3)
  store i8 3, ptr %q, align 1
; MemoryUse(3)
  %x = load i8, ptr %p, align 1
  br i1 %d, label %h, label %e

e:
  ret void
}

";

#[test]
fn select_in_a_loop_unlinked_first_print(rt: HostRuntime) -> Result<(), Fail> {
    expect_form(&rt, rt.alloc(), SELECTED, SELECTED_FORM)?;
    Ok(())
}

const INDEXED: &[u8] = b"define i32 @t(ptr %p, i1 %c) {
entry:
  br label %h

h:
  %i = phi i64 [ 0, %entry ], [ %j, %h ]
  %g = getelementptr i32, ptr %p, i64 %i
  %k = getelementptr i32, ptr %g, i64 1
  store i32 1, ptr %g, align 4
  %x = load i32, ptr %g, align 4
  %y = load i32, ptr %p, align 4
  %z = load i32, ptr %k, align 4
  %j = add i64 %i, 1
  br i1 %c, label %h, label %e

e:
  ret i32 %x
}
";

const INDEXED_FORM: &[u8] = b"MemorySSA for function: t
define i32 @t(ptr %p, i1 %c) {
entry:
  br label %h

h:
; 1 = MemoryPhi({entry,liveOnEntry},{h,2})
  %i = phi i64 [ 0, %entry ], [ %j, %h ]
  %g = getelementptr i32, ptr %p, i64 %i
  %k = getelementptr i32, ptr %g, i64 1
; 2 = MemoryDef(1)
  store i32 1, ptr %g, align 4
; MemoryUse(2)
  %x = load i32, ptr %g, align 4
; MemoryUse(2)
  %y = load i32, ptr %p, align 4
; MemoryUse(1)
  %z = load i32, ptr %k, align 4
  %j = add i64 %i, 1
  br i1 %c, label %h, label %e

e:
  ret i32 %x
}

";

#[test]
fn variable_index_in_a_loop(rt: HostRuntime) -> Result<(), Fail> {
    expect_form(&rt, rt.alloc(), INDEXED, INDEXED_FORM)?;
    Ok(())
}

const ELEMENT: &[u8] = b"define void @i(i64 %n) {
  %a = alloca [8 x i8]
  %b = alloca [8 x i8]
  %g = getelementptr [8 x i8], ptr %a, i64 0, i64 %n
  store i8 1, ptr %b
  store i8 2, ptr %g
  %x = load i8, ptr %a
  %y = load i8, ptr %b
  %z = load i8, ptr %g
  ret void
}
";

const ELEMENT_FORM: &[u8] = b"MemorySSA for function: i
define void @i(i64 %n) {
  %a = alloca [8 x i8]
  %b = alloca [8 x i8]
  %g = getelementptr [8 x i8], ptr %a, i64 0, i64 %n
; 1 = MemoryDef(liveOnEntry)
  store i8 1, ptr %b
; 2 = MemoryDef(1)
  store i8 2, ptr %g
; MemoryUse(2)
  %x = load i8, ptr %a
; MemoryUse(1)
  %y = load i8, ptr %b
; MemoryUse(2)
  %z = load i8, ptr %g
  ret void
}

";

#[test]
fn variable_index_into_an_array(rt: HostRuntime) -> Result<(), Fail> {
    expect_form(&rt, rt.alloc(), ELEMENT, ELEMENT_FORM)?;
    Ok(())
}
