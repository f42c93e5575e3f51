// Pointers and clobbers: what functions of a few allocas read and write, by the rules of docs/FORMAT.md and LLVM's MemorySSA document.
ghost use Rattle.std.specs.Prelude.{◌≡◌, ◌+◌, ◌≤◌, ℕ, false, length};
ghost use Rattle.ms_paths.specs.Flow.{IsClosed, IsReducible};
ghost use Rattle.ms_ir.specs.Graph.{graph_of};
ghost use Rattle.ms_ir.specs.Func.{Placed, IsAt};
ghost use Rattle.ms_flow.specs.Table.{edges_of};
ghost use Rattle.ms_build.specs.Built.{IsFormOf};
ghost use Rattle.ms_alias.specs.Roots.{makes_pointer};
ghost use Rattle.ms_alias.specs.Tables.{IsAliasOf};

use crate::graph::{
    NO_EFFECTS, P, alloca, cut, flow_of, form_of, function, load, put, store, take,
};
use crate::starting::expect_near;
use ms_alias::{Alias, Loc, Root};
use ms_flow::Flow;
use ms_form::{Access, Form};
use ms_ir::{
    Arg, BlockNo, Effects, Entry, Func, FuncNo, GlobalNo, IndexTerm, Inst, InstNo, Items, LocalNo,
    Name, Steps, Ty, Val,
};
use ms_walk::walk;
use std::alloc::Global;
use std::process::Abort;

// The locals of the functions here: two allocas, and pointers made of them.
const A: LocalNo = LocalNo(1);

const B: LocalNo = LocalNo(2);

const C: LocalNo = LocalNo(3);

const D: LocalNo = LocalNo(4);

const E: LocalNo = LocalNo(5);

const GLOBAL: GlobalNo = GlobalNo(0);

fn local(l: LocalNo) -> Val {
    Val::Local(l)
}

fn gep(alloc: Global, base: LocalNo, offset: i64) -> Inst {
    Inst::Gep {
        base: local(base),
        offset,
        head: Items::new(alloc),
        index: Items::new(alloc),
        tail: Items::new(alloc),
    }
}

// A getelementptr by an index, which counts four bytes.
fn step(rt: &impl Abort, alloc: Global, base: LocalNo, index: Val) -> Inst {
    let term = IndexTerm {
        val: index,
        ty: Ty::I64,
        scale: 4,
    };
    let mut terms = Items::new(alloc);
    assert!(rt; terms.push(term).is_ok());
    Inst::Step {
        base: local(base),
        offset: 0,
        terms,
        head: Items::new(alloc),
        index: Items::new(alloc),
        tail: Items::new(alloc),
    }
}

fn select(alloc: Global, a: LocalNo, b: LocalNo) -> Inst {
    Inst::Select {
        cond: Val::Num(Ty::I1, 1),
        ty: Ty::Ptr,
        a: local(a),
        b: local(b),
        tail: Items::new(alloc),
    }
}

fn argument(alloc: Global, ptr: LocalNo, keeps: bool) -> Arg {
    Arg {
        ty: Ty::Ptr,
        val: local(ptr),
        keeps,
        text: Items::new(alloc),
    }
}

fn copy(alloc: Global, to: LocalNo, from: LocalNo, len: u32) -> Inst {
    Inst::Copy {
        to: argument(alloc, to, false),
        from: argument(alloc, from, false),
        len,
        head: Items::new(alloc),
        tail: Items::new(alloc),
    }
}

// A call that takes one pointer.
fn call(rt: &impl Abort, alloc: Global, ptr: LocalNo, keeps: bool, effects: Effects) -> Inst
    ensures { makes_pointer result ≡ false }
{
    let mut args = Items::new(alloc);
    assert!(rt; args.push(argument(alloc, ptr, keeps)).is_ok());
    Inst::Call {
        callee: FuncNo(0),
        ret: None,
        args,
        effects,
        head: Items::new(alloc),
        tail: Items::new(alloc),
    }
}

fn bytes(l: LocalNo, from: i64, len: u32) -> Loc {
    Loc::Bytes {
        root: Root::Local(l),
        from,
        len,
    }
}

fn global(g: u32, from: i64, len: u32) -> Loc {
    Loc::Bytes {
        root: Root::Global(GlobalNo(g)),
        from,
        len,
    }
}

// The pointers of a function.
fn pointers(rt: &impl Abort, alloc: Global, f: &Func, flow: &Flow) -> Alias
    requires { flow.now.graph ≡ edges_of f.now.blocks }
    ensures { IsAliasOf f.now result }
{
    expect_near(rt, f);
    Alias::of(alloc, f, flow).ok().expect(rt, "memory")
}

// What the function below makes: C is the fifth byte of A, D is A or B, and E is B or the parameter.
fn put_pointers(rt: &impl Abort, alloc: Global, f: &mut Func) {
    put(rt, f, 0, alloca(alloc, 8));
    put(rt, f, 0, alloca(alloc, 4));
    put(rt, f, 0, gep(alloc, A, 4));
    put(rt, f, 0, select(alloc, A, B));
    put(rt, f, 0, select(alloc, B, P));
}

// What a call may read and write through its pointer.
const AT_POINTER: Effects = Effects {
    arg_read: true,
    arg_write: true,
    other_read: false,
    other_write: false,
    hidden_read: false,
    hidden_write: false,
};

// What a call may read and write besides.
const ELSEWHERE: Effects = Effects {
    arg_read: false,
    arg_write: false,
    other_read: true,
    other_write: true,
    hidden_read: true,
    hidden_write: true,
};

// The same of memory that has a name somewhere, and of memory that no pointer reaches.
const OUTSIDE: Effects = Effects {
    arg_read: false,
    arg_write: false,
    other_read: true,
    other_write: true,
    hidden_read: false,
    hidden_write: false,
};

const HIDDEN: Effects = Effects {
    arg_read: false,
    arg_write: false,
    other_read: false,
    other_write: false,
    hidden_read: true,
    hidden_write: true,
};

// One block: instructions 5 to 10 store through each pointer, 11 to a global; 12 loads from C; 13 copies six bytes from D to A, 14
// copies none; calls 15 and 16 read and write at B and elsewhere, and 17 does nothing.
fn straight(rt: &impl Abort, alloc: Global) -> Func {
    let mut f = function(rt, alloc, &[&[]]);
    put_pointers(rt, alloc, &mut f);
    for ptr in [P, A, B, C, D, E] {
        put(rt, &mut f, 0, store(alloc, local(ptr), 7));
    }
    put(rt, &mut f, 0, store(alloc, Val::Global(GLOBAL), 7));
    put(rt, &mut f, 0, load(alloc, local(C)));
    put(rt, &mut f, 0, copy(alloc, A, D, 6));
    put(rt, &mut f, 0, copy(alloc, A, D, 0));
    put(rt, &mut f, 0, call(rt, alloc, B, false, AT_POINTER));
    put(rt, &mut f, 0, call(rt, alloc, B, false, ELSEWHERE));
    put(rt, &mut f, 0, call(rt, alloc, B, false, NO_EFFECTS));
    f
}

// Expects the location that each of some instructions reads, and the one that it writes.
fn expect_locations(
    rt: &impl Abort,
    f: &Func,
    alias: &Alias,
    rows: &[(u32, Option<Loc>, Option<Loc>)],
)
    requires { IsAliasOf f.now alias.now }
{
    for k in 0..rows.len() {
        let (i, reads, writes) = rows[k];
        assert!(rt; alias.reads(f, InstNo(i)) == reads, "{i} reads");
        assert!(rt; alias.writes(f, InstNo(i)) == writes, "{i} writes");
    }
}

// Expects which of seven instructions, from this number on, may write a location.
fn expect_writers(rt: &impl Abort, f: &Func, alias: &Alias, first: u32, rows: &[(Loc, [bool; 7])])
    requires alias { IsAliasOf f.now alias.now }
    requires few { first ≤ 1000 }
{
    for k in 0..rows.len() {
        let (loc, writers) = rows[k];
        for j in 0..7 {
            let may = alias.may_write(f, InstNo(first + j), &loc);
            assert_eq!(rt; may, writers[j as usize], "{k}: {j}");
        }
    }
}

// Expects which instructions may write a location, and may read it.
fn expect_meets(rt: &impl Abort, f: &Func, alias: &Alias, rows: &[(u32, Loc, bool, bool)])
    requires { IsAliasOf f.now alias.now }
{
    for k in 0..rows.len() {
        let (i, loc, writes, reads) = rows[k];
        assert_eq!(rt;
            alias.may_write(f, InstNo(i), &loc),
            writes,
            "{k}: {i} writes"
        );
        assert_eq!(rt; alias.may_read(f, InstNo(i), &loc), reads, "{k}: {i} reads");
    }
}

// Expects which instructions must write a byte.
fn expect_surely(rt: &impl Abort, f: &Func, alias: &Alias, rows: &[(u32, Root, i64, bool)])
    requires { IsAliasOf f.now alias.now }
{
    for k in 0..rows.len() {
        let (i, root, byte, must) = rows[k];
        assert_eq!(rt;
            alias.must_write(f, InstNo(i), root, byte),
            must,
            "{k}: {i} at {byte}"
        );
    }
}

// Expects which roots are fixed, and which have a base that is no alloca.
fn expect_roots(rt: &impl Abort, f: &Func, alias: &Alias, rows: &[(Root, bool, bool)])
    requires { IsAliasOf f.now alias.now }
{
    for k in 0..rows.len() {
        let (root, fixed, outer) = rows[k];
        assert_eq!(rt; alias.fixed(f, root), fixed, "{k}");
        assert_eq!(rt; alias.outer(f, root), outer, "{k}");
    }
}

// Expects which of the first locals are captured allocas.
fn expect_captured(rt: &impl Abort, alias: &Alias, captured: &[bool]) {
    for l in 0..captured.len() {
        assert_eq!(rt; alias.captured(LocalNo(l as u64)), captured[l], "{l}");
    }
}

// The locations of the function above.
fn locations(rt: &impl Abort, f: &Func, alias: &Alias)
    requires { IsAliasOf f.now alias.now }
{
    let rows = [
        (0, None, None),
        (5, None, Some(bytes(P, 0, 4))),
        (6, None, Some(bytes(A, 0, 4))),
        (7, None, Some(bytes(B, 0, 4))),
        (8, None, Some(bytes(A, 4, 4))),
        (9, None, Some(bytes(D, 0, 4))),
        (10, None, Some(bytes(E, 0, 4))),
        (11, None, Some(global(0, 0, 4))),
        (12, Some(bytes(A, 4, 4)), None),
        (13, Some(bytes(D, 0, 6)), Some(bytes(A, 0, 6))),
        (14, Some(bytes(D, 0, 0)), Some(bytes(A, 0, 0))),
        (15, Some(Loc::ReadBy(InstNo(15))), None),
        (16, Some(Loc::ReadBy(InstNo(16))), None),
        (17, None, None),
        (18, None, None),
    ];
    expect_locations(rt, f, alias, &rows);
}

// Which of its stores may write a location: through the parameter, A, B, C, D and E, and to a global.
fn writers(rt: &impl Abort, f: &Func, alias: &Alias)
    requires { IsAliasOf f.now alias.now }
{
    let rows = [
        (
            bytes(P, 0, 4),
            [true, false, false, false, false, true, true],
        ),
        (
            bytes(A, 0, 4),
            [false, true, false, false, true, false, false],
        ),
        (
            bytes(A, 3, 2),
            [false, true, false, true, true, false, false],
        ),
        (
            bytes(A, 4, 4),
            [false, false, false, true, true, false, false],
        ),
        (
            bytes(A, 8, 1),
            [false, false, false, false, true, false, false],
        ),
        (
            bytes(A, -4, 4),
            [false, false, false, false, true, false, false],
        ),
        (
            bytes(A, 0, 0),
            [false, false, false, false, false, false, false],
        ),
        (
            bytes(B, 0, 4),
            [false, false, true, false, true, true, false],
        ),
        (bytes(D, 0, 4), [false, true, true, true, true, true, false]),
        (
            bytes(D, 4, 4),
            [false, true, true, true, false, true, false],
        ),
        (
            bytes(D, 0, 0),
            [false, false, false, false, false, false, false],
        ),
        (bytes(E, 0, 4), [true, false, true, false, true, true, true]),
        (
            global(0, 0, 4),
            [true, false, false, false, false, true, true],
        ),
        (
            global(0, 4, 4),
            [true, false, false, false, false, true, false],
        ),
        (
            global(1, 0, 4),
            [true, false, false, false, false, true, false],
        ),
    ];
    expect_writers(rt, f, alias, 5, &rows);
}

// What its load and its copies may write and read.
fn spans(rt: &impl Abort, f: &Func, alias: &Alias)
    requires { IsAliasOf f.now alias.now }
{
    let rows = [
        (12, bytes(A, 4, 4), false, true),
        (12, bytes(A, 7, 1), false, true),
        (12, bytes(A, 0, 4), false, false),
        (12, bytes(B, 0, 4), false, false),
        (12, bytes(D, 0, 1), false, true),
        (13, bytes(A, 5, 1), true, true),
        (13, bytes(A, 6, 1), false, true),
        (13, bytes(B, 0, 4), false, true),
        (13, bytes(D, 5, 1), true, true),
        (13, bytes(D, 6, 1), true, false),
        (13, bytes(P, 0, 4), false, false),
        (13, bytes(A, 0, 0), false, false),
        (14, bytes(A, 0, 4), false, false),
        (14, bytes(B, 0, 4), false, false),
    ];
    expect_meets(rt, f, alias, &rows);
}

// What its calls may write and read, no alloca being captured; and who may write or read what a call, or a load, reads.
fn calls(rt: &impl Abort, f: &Func, alias: &Alias)
    requires { IsAliasOf f.now alias.now }
{
    let rows = [
        (15, bytes(B, 0, 4), true, true),
        (15, bytes(B, 100, 1), true, true),
        (15, bytes(B, 0, 0), false, false),
        (15, bytes(A, 0, 4), false, false),
        (15, bytes(D, 0, 4), true, true),
        (15, bytes(P, 0, 4), false, false),
        (16, bytes(A, 0, 4), false, false),
        (16, bytes(B, 0, 4), false, false),
        (16, bytes(D, 0, 4), false, false),
        (16, bytes(E, 0, 4), true, true),
        (16, bytes(P, 0, 4), true, true),
        (16, global(0, 0, 4), true, true),
        (17, bytes(P, 0, 4), false, false),
        (6, Loc::ReadBy(InstNo(15)), false, false),
        (7, Loc::ReadBy(InstNo(15)), true, false),
        (5, Loc::ReadBy(InstNo(16)), true, false),
        (7, Loc::ReadBy(InstNo(16)), false, false),
        (13, Loc::ReadBy(InstNo(15)), false, true),
        (15, Loc::ReadBy(InstNo(15)), true, true),
        (15, Loc::ReadBy(InstNo(16)), false, false),
        (16, Loc::ReadBy(InstNo(16)), true, true),
        (8, Loc::ReadBy(InstNo(12)), true, false),
        (6, Loc::ReadBy(InstNo(12)), false, false),
        (5, Loc::ReadBy(InstNo(5)), false, false),
    ];
    expect_meets(rt, f, alias, &rows);
}

// Which bytes it must write: the first and the last one, and none past the end.
fn sure_bytes(rt: &impl Abort, f: &Func, alias: &Alias)
    requires { IsAliasOf f.now alias.now }
{
    let rows = [
        (6, Root::Local(A), 0, true),
        (6, Root::Local(A), 3, true),
        (6, Root::Local(A), 4, false),
        (6, Root::Local(A), -1, false),
        (6, Root::Local(B), 0, false),
        (8, Root::Local(A), 3, false),
        (8, Root::Local(A), 4, true),
        (8, Root::Local(A), 7, true),
        (8, Root::Local(A), 8, false),
        (8, Root::Local(C), 0, false),
        (9, Root::Local(D), 0, true),
        (9, Root::Local(A), 0, false),
        (11, Root::Global(GLOBAL), 3, true),
        (12, Root::Local(A), 4, false),
        (13, Root::Local(A), 5, true),
        (13, Root::Local(A), 6, false),
        (13, Root::Local(D), 0, false),
        (14, Root::Local(A), 0, false),
        (15, Root::Local(B), 0, false),
    ];
    expect_surely(rt, f, alias, &rows);
}

fn roots(rt: &impl Abort, f: &Func, alias: &Alias)
    requires { IsAliasOf f.now alias.now }
{
    let rows = [
        (Root::Local(P), true, true),
        (Root::Local(A), true, false),
        (Root::Local(B), true, false),
        (Root::Local(D), true, false),
        (Root::Local(E), true, true),
        (Root::Global(GLOBAL), true, true),
    ];
    expect_roots(rt, f, alias, &rows);
}

// Two calls that touch nothing at their pointers meet in memory that has a name somewhere, or in memory that no pointer reaches; where one
// touches the first alone and the other the second they do not.
#[test]
fn two_calls(rt: HostRuntime) {
    let alloc = rt.alloc();
    let mut f = function(&rt, alloc, &[&[]]);
    put(&rt, &mut f, 0, call(&rt, alloc, P, false, OUTSIDE));
    put(&rt, &mut f, 0, call(&rt, alloc, P, false, HIDDEN));
    put(&rt, &mut f, 0, call(&rt, alloc, P, false, ELSEWHERE));
    let flow = flow_of(&rt, alloc, &f);
    let alias = pointers(&rt, alloc, &f, &flow);
    let rows = [
        (0, Loc::ReadBy(InstNo(0)), true, true),
        (0, Loc::ReadBy(InstNo(1)), false, false),
        (0, Loc::ReadBy(InstNo(2)), true, true),
        (1, Loc::ReadBy(InstNo(0)), false, false),
        (1, Loc::ReadBy(InstNo(1)), true, true),
        (1, Loc::ReadBy(InstNo(2)), true, true),
        (0, bytes(P, 0, 4), true, true),
        (1, bytes(P, 0, 4), false, false),
    ];
    expect_meets(&rt, &f, &alias, &rows);
}

#[test]
fn instructions_in_one_block(rt: HostRuntime) {
    let alloc = rt.alloc();
    let f = straight(&rt, alloc);
    let flow = flow_of(&rt, alloc, &f);
    let alias = pointers(&rt, alloc, &f, &flow);
    locations(&rt, &f, &alias);
    writers(&rt, &f, &alias);
    spans(&rt, &f, &alias);
    calls(&rt, &f, &alias);
    sure_bytes(&rt, &f, &alias);
    roots(&rt, &f, &alias);
    expect_captured(&rt, &alias, &[false, false, false, false, false, false]);
}

// A change of a function: a call that takes a pointer, and may keep it, is put at the end of the first block; or an instruction that
// makes no pointer is taken.
#[derive(Clone, Copy)]
enum Change {
    Call(LocalNo, bool),
    Take(InstNo),
}

// Puts a call and notes it. Whether the captured allocas are others than before.
fn put_call(
    rt: &impl Abort,
    alloc: Global,
    f: &mut Func,
    alias: &mut Alias,
    ptr: LocalNo,
    keeps: bool,
) -> bool
    requires tables { IsAliasOf f.old alias.old }
    requires room { 1 ≤ f.old.spare }
    ensures tables { IsAliasOf f.new alias.new }
    ensures room { f.old.spare ≤ f.new.spare + 1 }
{
    ms_alias::laws::tables_kept();
    assert!(rt; f.block_count() > 0);
    assert!(rt; f.made() < u32::MAX);
    let place = f.count(BlockNo(0));
    let i = f.put_inst(
        BlockNo(0),
        place,
        call(rt, alloc, ptr, keeps, NO_EFFECTS),
        Name::Absent,
    );
    alias.note_put(f, i)
}

// Expects an instruction that makes no pointer.
fn expect_idle(rt: &impl Abort, inst: &Inst)
    ensures { makes_pointer inst.now ≡ false }
{
    match inst {
        Inst::Store { .. } | Inst::Copy { .. } | Inst::Load { .. } | Inst::Call { .. } => {}
        _ => assert!(rt; false),
    }
}

// The same of the instruction of a number, where it is there.
fn expect_idle_at(rt: &impl Abort, f: &Func, i: InstNo)
    ensures { (b k : ℕ) (x : Placed) → IsAt f.now.blocks i.0 b k x → makes_pointer x.inst ≡ false }
{
    match f.inst(i) {
        Some(inst) => expect_idle(rt, inst),
        None => {}
    }
}

// Notes that an instruction is taken and takes it. Whether the captured allocas are others than before.
fn take_noted(rt: &impl Abort, f: &mut Func, alias: &mut Alias, i: InstNo) -> bool
    requires { IsAliasOf f.old alias.old }
    ensures tables { IsAliasOf f.new alias.new }
    ensures room { f.old.spare ≤ f.new.spare }
{
    ms_alias::laws::tables_kept();
    f.numbered();
    expect_idle_at(rt, f, i);
    let changed = alias.note_take(f, i);
    take(rt, f, i);
    changed
}

fn make_change(
    rt: &impl Abort,
    alloc: Global,
    f: &mut Func,
    alias: &mut Alias,
    change: Change,
) -> bool
    requires tables { IsAliasOf f.old alias.old }
    requires room { 1 ≤ f.old.spare }
    ensures tables { IsAliasOf f.new alias.new }
    ensures room { f.old.spare ≤ f.new.spare + 1 }
{
    match change {
        Change::Call(ptr, keeps) => put_call(rt, alloc, f, alias, ptr, keeps),
        Change::Take(i) => take_noted(rt, f, alias, i),
    }
}

// Makes some changes, and expects of each whether it changed the captured allocas, and whether A and B are captured then. What
// instruction 5 may write and read elsewhere tells the same.
fn changes(
    rt: &impl Abort,
    alloc: Global,
    f: &mut Func,
    alias: &mut Alias,
    rows: &[(Change, bool, bool, bool)],
)
    requires tables { IsAliasOf f.old alias.old }
    requires few { length rows.now ≤ 16 }
    requires room { 16 ≤ f.old.spare }
{
    for k in 0..rows.len() {
        let (row, changed, a, b) = rows[k];
        assert_eq!(rt; make_change(rt, alloc, f, alias, row), changed, "{k}");
        expect_captured(rt, alias, &[false, a, b, false, false]);
        expect_meets(
            rt,
            f,
            alias,
            &[(5, bytes(A, 0, 4), a, a), (5, bytes(B, 0, 4), b, b)],
        );
    }
}

// Room for sixteen puts.
fn reserve(rt: &impl Abort, f: &mut Func)
    ensures { 16 ≤ f.new.spare }
{
    assert!(rt; f.reserve(16).is_ok());
}

#[test]
fn captures_are_counted(rt: HostRuntime) {
    let alloc = rt.alloc();
    let mut f = function(&rt, alloc, &[&[]]);
    put_pointers(&rt, alloc, &mut f);
    put(&rt, &mut f, 0, call(&rt, alloc, P, true, ELSEWHERE));
    reserve(&rt, &mut f);
    let flow = flow_of(&rt, alloc, &f);
    let mut alias = pointers(&rt, alloc, &f, &flow);
    let rows = [
        (Change::Call(B, false), false, false, false),
        (Change::Call(C, true), true, true, false),
        (Change::Call(A, true), false, true, false),
        (Change::Call(D, true), true, true, true),
        (Change::Call(P, true), false, true, true),
        (Change::Take(InstNo(9)), true, true, false),
        (Change::Take(InstNo(7)), false, true, false),
        (Change::Call(E, true), true, true, true),
        (Change::Take(InstNo(8)), true, false, true),
        (Change::Take(InstNo(6)), false, false, true),
        (Change::Take(InstNo(11)), true, false, false),
    ];
    changes(&rt, alloc, &mut f, &mut alias, &rows);
}

// A phi of pointers: two of them, each with the block that it comes from.
fn phi(rt: &impl Abort, alloc: Global, sources: &[(LocalNo, u32)]) -> Inst {
    let mut entries = Items::new(alloc);
    for k in 0..sources.len() {
        let (ptr, from) = sources[k];
        let entry = Entry {
            val: local(ptr),
            from: BlockNo(from),
        };
        assert!(rt; entries.push(entry).is_ok());
    }
    Inst::Phi {
        ty: Ty::Ptr,
        entries,
        tail: Items::new(alloc),
    }
}

// A block that loops to itself, in which C is A at first and then B. Instruction 3 stores through C, and 4 is a call that keeps it.
fn looping(rt: &impl Abort, alloc: Global) -> Func {
    let mut f = function(rt, alloc, &[&[1], &[1, 2], &[]]);
    put(rt, &mut f, 0, alloca(alloc, 8));
    put(rt, &mut f, 0, alloca(alloc, 4));
    put(rt, &mut f, 1, phi(rt, alloc, &[(A, 0), (B, 1)]));
    put(rt, &mut f, 1, store(alloc, local(C), 7));
    put(rt, &mut f, 1, call(rt, alloc, C, true, AT_POINTER));
    f
}

// C is another pointer from turn to turn, so its offsets tell nothing.
fn turning(rt: &impl Abort, f: &Func, alias: &Alias)
    requires { IsAliasOf f.now alias.now }
{
    expect_roots(rt, f, alias, &[(Root::Local(C), false, false)]);
    expect_captured(rt, alias, &[false, true, true, false]);
    expect_surely(rt, f, alias, &[(3, Root::Local(C), 0, false)]);
    let rows = [
        (3, bytes(C, 0, 4), true, false),
        (3, bytes(C, 4, 4), true, false),
        (3, bytes(C, 4, 0), false, false),
        (3, bytes(A, 4, 4), true, false),
        (3, bytes(B, 0, 4), true, false),
        (4, bytes(B, 0, 4), true, true),
        (3, bytes(P, 0, 4), false, false),
    ];
    expect_meets(rt, f, alias, &rows);
}

// As long as C is not made anew, its offsets tell.
fn in_turn(rt: &impl Abort, f: &Func, alias: &Alias)
    requires { IsAliasOf f.now alias.now }
{
    assert!(rt; alias.turning(f, Root::Local(C)) == Some(InstNo(2)));
    assert!(rt; alias.turning(f, Root::Local(A)).is_none());
    assert!(rt; alias.turning(f, Root::Global(GLOBAL)).is_none());
    assert!(rt; alias.turning_of(f, &bytes(C, 4, 4)) == Some(InstNo(2)));
    assert!(rt; alias.turning_of(f, &bytes(A, 4, 4)).is_none());
    assert!(rt; alias.turning_of(f, &Loc::ReadBy(InstNo(4))).is_none());
    let rows = [
        (3, bytes(C, 0, 4), true),
        (3, bytes(C, 3, 1), true),
        (3, bytes(C, 4, 4), false),
        (3, bytes(A, 4, 4), true),
        (4, bytes(B, 0, 4), true),
        (2, bytes(C, 0, 4), false),
    ];
    for k in 0..rows.len() {
        let (i, loc, writes) = rows[k];
        assert_eq!(rt; alias.may_write_in_turn(f, InstNo(i), &loc), writes, "{k}");
    }
}

// Without the loop C is A alone.
fn still(rt: &impl Abort, f: &Func, alias: &Alias)
    requires { IsAliasOf f.now alias.now }
{
    expect_roots(rt, f, alias, &[(Root::Local(C), true, false)]);
    expect_captured(rt, alias, &[false, true, false, false]);
    expect_surely(
        rt,
        f,
        alias,
        &[(3, Root::Local(C), 0, true), (3, Root::Local(A), 0, false)],
    );
    let rows = [
        (3, bytes(C, 0, 4), true, false),
        (3, bytes(C, 4, 4), false, false),
        (3, bytes(A, 4, 4), true, false),
        (3, bytes(B, 0, 4), false, false),
        (4, bytes(B, 0, 4), false, false),
    ];
    expect_meets(rt, f, alias, &rows);
}

// Cuts the edge back, and finds the pointers afresh.
fn cut_back(rt: &impl Abort, alloc: Global, f: &mut Func, alias: &mut Alias)
    requires { IsAliasOf f.old alias.old }
    ensures { IsAliasOf f.new alias.new }
{
    ms_alias::laws::tables_kept();
    let mut steps = Steps::new(alloc).ok().expect(rt, "memory");
    cut(rt, f, BlockNo(1), 0, &mut steps);
    let flow = flow_of(rt, alloc, f);
    alias.renew(f, &flow);
}

#[test]
fn a_loop_is_cut(rt: HostRuntime) {
    let alloc = rt.alloc();
    let mut f = looping(&rt, alloc);
    let flow = flow_of(&rt, alloc, &f);
    let mut alias = pointers(&rt, alloc, &f, &flow);
    turning(&rt, &f, &alias);
    in_turn(&rt, &f, &alias);
    cut_back(&rt, alloc, &mut f, &mut alias);
    still(&rt, &f, &alias);
}

#[test]
fn an_index_makes_a_root(rt: HostRuntime) {
    let alloc = rt.alloc();
    let mut f = function(&rt, alloc, &[&[]]);
    put(&rt, &mut f, 0, alloca(alloc, 8));
    put(&rt, &mut f, 0, alloca(alloc, 4));
    put(&rt, &mut f, 0, step(&rt, alloc, A, Val::Num(Ty::I64, 1)));
    put(&rt, &mut f, 0, gep(alloc, C, 4));
    put(&rt, &mut f, 0, store(alloc, local(D), 7));
    let flow = flow_of(&rt, alloc, &f);
    let alias = pointers(&rt, alloc, &f, &flow);
    expect_roots(&rt, &f, &alias, &[(Root::Local(C), true, false)]);
    expect_surely(
        &rt,
        &f,
        &alias,
        &[(4, Root::Local(C), 4, true), (4, Root::Local(A), 4, false)],
    );
    let rows = [
        (4, bytes(C, 4, 4), true, false),
        (4, bytes(C, 0, 4), false, false),
        (4, bytes(A, 0, 4), true, false),
        (4, bytes(B, 0, 4), false, false),
    ];
    expect_meets(&rt, &f, &alias, &rows);
}

// Stores 2 to A and 3 to B, and a load 4 of A; then a loop with a store 5 to B and loads 6 of A and 7 of B; then a load 8 of A.
fn stored(rt: &impl Abort, alloc: Global) -> Func {
    let mut f = function(rt, alloc, &[&[1], &[1, 2], &[]]);
    put(rt, &mut f, 0, alloca(alloc, 8));
    put(rt, &mut f, 0, alloca(alloc, 4));
    put(rt, &mut f, 0, store(alloc, local(A), 7));
    put(rt, &mut f, 0, store(alloc, local(B), 7));
    put(rt, &mut f, 0, load(alloc, local(A)));
    put(rt, &mut f, 1, store(alloc, local(B), 7));
    put(rt, &mut f, 1, load(alloc, local(A)));
    put(rt, &mut f, 1, load(alloc, local(B)));
    put(rt, &mut f, 2, load(alloc, local(A)));
    f
}

// The clobber of a location before an instruction.
fn clobber(
    rt: &impl Abort,
    alloc: Global,
    f: &Func,
    flow: &Flow,
    form: &Form,
    alias: &Alias,
    i: InstNo,
    loc: &Loc,
) -> Access
    requires graph { flow.now.graph ≡ edges_of f.now.blocks }
    requires closed { IsClosed (graph_of f.now.blocks) }
    requires reducible { IsReducible flow.now.graph }
    requires form { IsFormOf f.now form.now }
    requires alias { IsAliasOf f.now alias.now }
{
    ms_flow::laws::same_paths();
    let (b, _) = f.place_of(i).expect(rt, "a place");
    assert!(rt; b.0 < flow.block_count());
    assert!(rt; flow.reached(b));
    let found = walk(alloc, f, flow, form, alias, i, loc);
    found.ok().expect(rt, "memory")
}

fn clobbers(
    rt: &impl Abort,
    alloc: Global,
    f: &Func,
    flow: &Flow,
    form: &Form,
    alias: &Alias,
    rows: &[(u32, Loc, Access)],
)
    requires graph { flow.now.graph ≡ edges_of f.now.blocks }
    requires closed { IsClosed (graph_of f.now.blocks) }
    requires reducible { IsReducible flow.now.graph }
    requires form { IsFormOf f.now form.now }
    requires alias { IsAliasOf f.now alias.now }
{
    for k in 0..rows.len() {
        let (i, loc, access) = rows[k];
        let found = clobber(rt, alloc, f, flow, form, alias, InstNo(i), &loc);
        assert!(rt; found == access, "{k}");
    }
}

#[test]
fn stores_elsewhere_are_passed(rt: HostRuntime) {
    let alloc = rt.alloc();
    let f = stored(&rt, alloc);
    let flow = flow_of(&rt, alloc, &f);
    let form = form_of(&rt, alloc, &f, &flow);
    let alias = pointers(&rt, alloc, &f, &flow);
    let rows = [
        (2, bytes(A, 0, 4), Access::Entry),
        (4, bytes(A, 0, 4), Access::Of(InstNo(2))),
        (4, bytes(A, 4, 4), Access::Entry),
        (4, bytes(B, 0, 4), Access::Of(InstNo(3))),
        (5, bytes(B, 0, 4), Access::Phi(BlockNo(1))),
        (5, bytes(B, 0, 0), Access::Entry),
        (6, bytes(A, 0, 4), Access::Of(InstNo(2))),
        (7, bytes(B, 0, 4), Access::Of(InstNo(5))),
        (7, bytes(P, 0, 4), Access::Entry),
        (7, Loc::ReadBy(InstNo(6)), Access::Of(InstNo(2))),
        (8, bytes(A, 3, 1), Access::Of(InstNo(2))),
        (8, bytes(B, 0, 4), Access::Of(InstNo(5))),
    ];
    clobbers(&rt, alloc, &f, &flow, &form, &alias, &rows);
}
