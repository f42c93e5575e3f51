// Which edits are refused, and why: for each refusal edits just inside and just outside, and edits with two faults, of which the least number counts.
ghost use Rattle.ms_output.specs.Forms.{AreOpen};

use crate::modules::module_of;
use crate::told::expect;
use ms_ir::Module;
use std::alloc::Global;
use std::process::Abort;

const BRANCHES: &[u8] = b"@g = global i32 0
declare void @use(ptr)

define i32 @f(i1 %c, i1 %d, ptr %p, i32 %n) {
entry:
  %a = alloca i32
  store i32 %n, ptr %a
  br i1 %c, label %l, label %r
l:
  %u = load i32, ptr %a
  br label %j
r:
  %v = load i32, ptr %p
  br i1 %d, label %j, label %j
j:
  %w = phi i32 [ %u, %l ], [ %v, %r ], [ %v, %r ]
  %t = add i32 %w, %n
  store i32 %t, ptr %p
  ret i32 %t
dead:
  store i32 %n, ptr %p
  br i1 %c, label %dead, label %k
k:
  %q = phi i32 [ 1, %dead ]
  ret i32 %q
}
";

const NAMES: [(&str, u32); 16] = [
    ("remove @f %nope 0", 11),
    ("remove @f %a 0", 11),
    ("remove @f %0 0", 11),
    ("move @f %r 0 to %nope 0", 11),
    ("move @f %nope 0 to %r 0", 11),
    ("unlink @f %nope 0", 11),
    ("insert @f %nope 0: store i32 1, ptr %p", 11),
    ("insert @f %l 0: store i32 %nope, ptr %p", 11),
    ("insert @f %l 0: store i32 %0, ptr %p", 11),
    ("insert @f %l 0: store i32 %entry, ptr %p", 11),
    ("insert @f %l 0: store i32 1, ptr @g", 0),
    ("insert @f %l 0: store i32 1, ptr @nope", 11),
    ("insert @f %l 0: store i32 1, ptr @use", 11),
    ("insert @f %l 0: %new = load i32, ptr %a", 0),
    ("insert @f %l 0: %u = load i32, ptr %a", 11),
    ("insert @f %l 0: %entry = load i32, ptr %a", 11),
];

const PLACES: [(&str, u32); 14] = [
    ("insert @f %entry 0: store i32 1, ptr %p", 0),
    ("insert @f %entry 2: store i32 1, ptr %a", 0),
    ("insert @f %entry 3: store i32 1, ptr %a", 12),
    ("insert @f %j 0: store i32 1, ptr %p", 12),
    ("insert @f %j 1: store i32 1, ptr %p", 0),
    ("insert @f %dead 1: store i32 1, ptr %p", 0),
    ("insert @f %dead 2: store i32 1, ptr %p", 12),
    ("remove @f %j 2", 0),
    ("remove @f %j 3", 12),
    ("move @f %j 2 to %j 2", 0),
    ("move @f %j 2 to %j 3", 12),
    ("move @f %j 2 to %j 0", 12),
    ("move @f %j 3 to %j 1", 12),
    ("move @f %dead 0 to %dead 0", 0),
];

const KINDS: [(&str, u32); 11] = [
    ("remove @f %entry 1", 0),
    ("remove @f %entry 0", 13),
    ("remove @f %j 0", 13),
    ("remove @f %j 1", 13),
    ("move @f %j 0 to %l 0", 13),
    ("insert @f %l 0: %new = add i32 1, 2", 13),
    ("insert @f %l 0: %new = getelementptr i8, ptr %p, i64 1", 13),
    ("insert @f %l 0: %new = select i1 %c, ptr %p, ptr %a", 13),
    (
        "insert @f %l 0: call void @llvm.memcpy.p0.p0.i64(ptr %p, ptr %a, i64 4, i1 false)",
        0,
    ),
    ("unlink @f %dead 0", 0),
    ("unlink @f %dead 1", 13),
];

const TYPES: [(&str, u32); 6] = [
    ("insert @f %l 0: store i32 %n, ptr %p", 0),
    ("insert @f %l 0: store i8 %n, ptr %p", 14),
    ("insert @f %l 0: store i32 %n, ptr %n", 14),
    ("insert @f %l 0: store i32 %p, ptr %p", 14),
    ("insert @f %l 0: call void @use(ptr %c)", 14),
    ("insert @f %dead 0: store i8 %n, ptr %p", 14),
];

const ORDER: [(&str, u32); 12] = [
    ("insert @f %l 1: store i32 %u, ptr %p", 0),
    ("insert @f %l 0: store i32 %u, ptr %p", 15),
    ("insert @f %j 1: store i32 %u, ptr %p", 15),
    ("insert @f %j 1: store i32 %w, ptr %p", 0),
    ("insert @f %dead 0: store i32 %u, ptr %p", 0),
    ("insert @f %entry 0: store i32 1, ptr %a", 15),
    ("move @f %entry 1 to %entry 0", 15),
    ("move @f %entry 1 to %r 1", 0),
    ("move @f %l 0 to %j 1", 15),
    ("move @f %l 0 to %dead 0", 15),
    ("move @f %r 0 to %entry 2", 0),
    ("move @f %j 2 to %dead 0", 0),
];

const USES: [(&str, u32); 4] = [
    ("remove @f %l 0", 16),
    ("remove @f %r 0", 16),
    ("remove @f %j 2", 0),
    ("remove @f %dead 0", 0),
];

const EDGES: [(&str, u32); 10] = [
    ("unlink @f %entry 0", 0),
    ("unlink @f %entry 1", 0),
    ("unlink @f %entry 2", 17),
    ("unlink @f %entry 4294967295", 17),
    ("unlink @f %r 0", 0),
    ("unlink @f %r 1", 0),
    ("unlink @f %l 0", 17),
    ("unlink @f %j 0", 17),
    ("unlink @f %dead 2", 17),
    ("unlink @f %k 1", 17),
];

const TWO: [(&str, u32); 16] = [
    ("remove @f %nope 99", 11),
    ("insert @f %l 0: %u = load i32, ptr %n", 11),
    ("insert @f %entry 9: store i32 %nope, ptr %p", 11),
    ("insert @f %entry 9: %new = add i32 1, 2", 12),
    ("insert @f %l 9: store i32 %u, ptr %n", 12),
    ("remove @f %j 9", 12),
    ("insert @f %l 0: %new = add i32 %p, 2", 13),
    ("insert @f %l 0: %new = add i32 %u, 2", 13),
    ("remove @f %entry 0", 13),
    ("insert @f %l 0: store i8 %u, ptr %p", 14),
    ("unlink @f %nope 2", 11),
    ("move @f %nope 9 to %j 0", 11),
    ("move @f %l 9 to %j 0", 12),
    ("move @f %j 0 to %l 9", 12),
    ("move @f %j 1 to %l 0", 13),
    (
        "insert @f %nope 0: %new = getelementptr i8, ptr %p, i64 %n",
        11,
    ),
];

fn check_rows(rt: &impl Abort, alloc: Global, module: &Module)
    requires { AreOpen module.now }
{
    expect(rt, alloc, module, &NAMES);
    expect(rt, alloc, module, &PLACES);
    expect(rt, alloc, module, &KINDS);
    expect(rt, alloc, module, &TYPES);
    expect(rt, alloc, module, &ORDER);
    expect(rt, alloc, module, &USES);
    expect(rt, alloc, module, &EDGES);
    expect(rt, alloc, module, &TWO);
}

#[test]
fn edits_are_refused(rt: HostRuntime) {
    let alloc = rt.alloc();
    let module = module_of(&rt, alloc, BRANCHES);
    check_rows(&rt, alloc, &module);
}

const VALUES: &[u8] = b"define i32 @z(ptr %p) {
  %x = load i32, ptr %p, align 4
  store i32 1, ptr %p, align 4
  %y = load i32, ptr %p, align 4
  ret i32 %x
}
";

const REFUSED: [(&str, u32); 10] = [
    ("delete @z %0 0", 8),
    ("remove @y %0 0", 8),
    ("insert @z %0 0: call void @nope()", 8),
    ("remove @z %9 0", 11),
    ("insert @z %0 0: %x = load i32, ptr %p", 11),
    ("remove @z %0 3", 12),
    ("insert @z %0 0: %k = add i32 1, 2", 13),
    ("insert @z %0 0: store i8 %x, ptr %p", 14),
    ("insert @z %0 0: store i32 %x, ptr %p", 15),
    ("unlink @z %0 0", 17),
];

fn check_refused(rt: &impl Abort, alloc: Global, module: &Module)
    requires { AreOpen module.now }
{
    expect(rt, alloc, module, &REFUSED);
}

#[test]
fn refused_scripts(rt: HostRuntime) {
    let alloc = rt.alloc();
    let module = module_of(&rt, alloc, VALUES);
    check_refused(&rt, alloc, &module);
}

const STRIDES: &[u8] = b"define void @s(ptr %p, i64 %n, i32 %k) {
  %q = getelementptr i8, ptr %p, i64 %n
  store i8 1, ptr %q
  ret void
}
";

// A getelementptr with a local among its indices is not inserted, removed or moved; what uses it is.
const STRIDE: [(&str, u32); 13] = [
    ("insert @s %0 1: store i8 1, ptr %q", 0),
    ("insert @s %0 0: store i8 1, ptr %q", 15),
    ("insert @s %0 1: %w = getelementptr i8, ptr %q, i64 %n", 13),
    ("insert @s %0 1: %w = getelementptr i8, ptr %q, i64 %k", 13),
    ("insert @s %0 0: %w = getelementptr i8, ptr %q, i64 %n", 13),
    ("insert @s %0 3: %w = getelementptr i8, ptr %q, i64 %n", 12),
    ("insert @s %0 1: %q = getelementptr i8, ptr %p, i64 %n", 11),
    ("remove @s %0 0", 13),
    ("move @s %0 0 to %0 1", 13),
    ("move @s %0 0 to %0 0", 13),
    ("remove @s %0 1", 0),
    ("move @s %0 1 to %0 1", 0),
    ("move @s %0 1 to %0 0", 15),
];

fn check_strides(rt: &impl Abort, alloc: Global, module: &Module)
    requires { AreOpen module.now }
{
    expect(rt, alloc, module, &STRIDE);
}

#[test]
fn edits_beside_variable_indices(rt: HostRuntime) {
    let alloc = rt.alloc();
    let module = module_of(&rt, alloc, STRIDES);
    check_strides(&rt, alloc, &module);
}
