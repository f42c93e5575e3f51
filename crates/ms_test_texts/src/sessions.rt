// Sessions over functions that are read: annotated texts, clobbers, and what else a session tells. Instructions and locals have their numbers in
// the order of the text, the parameters before the results.
ghost use Rattle.std.specs.Prelude.{List, ℕ, IfSome};
ghost use Rattle.ms_ir.specs.SoundFunc.{IsSoundFunc};
ghost use Rattle.ms_alias.specs.Offsets.{AreOffsetsNear};
ghost use Rattle.ms_read.specs.Draft.{IsDraft};
ghost use Rattle.ms_output.specs.Forms.{AreOpen};

use ms_alias::{Loc, Root};
use ms_form::Access;
use ms_ir::{BlockNo, Func, FuncNo, InstNo, LocalNo, Module, Names};
use ms_read::{Draft, read_module};
use ms_session::{Found, Printed, Session};
use ms_valid::accept;
use std::alloc::Global;
use std::process::Abort;

fn bytes(l: u64, from: i64, len: u32) -> Loc {
    Loc::Bytes {
        root: Root::Local(LocalNo(l)),
        from,
        len,
    }
}

// The draft of a short text that is read.
fn read(alloc: Global, text: &[u8]) -> Option<Draft>
    ensures { IfSome result (λ draft. (bytes : List ℕ) × IsDraft bytes draft) }
{
    if text.len() > 1000 {
        return None;
    }
    match read_module(alloc, text) {
        Ok(draft) => Some(draft),
        Err(_) => None,
    }
}

// The module of a draft that is accepted. Each of its functions may be opened.
fn accepted(alloc: Global, draft: &Draft) -> Option<Module>
    requires { (bytes : List ℕ) × IsDraft bytes draft.now }
    ensures { IfSome result (λ m. AreOpen m) }
{
    ms_read::laws::draft_told();
    ms_read::laws::places_told();
    ms_valid::laws::accepted_are_sound();
    match accept(alloc, draft) {
        Ok(module) => Some(module),
        Err(_) => None,
    }
}

// The module of a text.
pub fn module_of(rt: &impl Abort, alloc: Global, text: &[u8]) -> Module
    ensures { AreOpen result }
{
    let draft = read(alloc, text).expect(rt, "a text that is read");
    accepted(alloc, &draft).expect(rt, "a draft that is accepted")
}

// The first function of a module.
pub fn first_of(m: &mut Module) -> Option<Func>
    requires { AreOpen m.old }
    ensures sound { IfSome result (λ f. IsSoundFunc f) }
    ensures near { IfSome result (λ f. AreOffsetsNear f) }
{
    m.take_func(FuncNo(0))
}

// A session over the first function of a module.
fn opened(rt: &impl Abort, alloc: Global, m: &mut Module) -> Session
    requires { AreOpen m.old }
{
    let func = first_of(m).expect(rt, "a body");
    Session::start(alloc, func).ok().expect(rt, "memory")
}

// Expects a function's annotated text, and how many clobbers were walked for.
fn expect_text(rt: &impl Abort, session: &mut Session, names: &Names, wanted: &[u8], uses: u64) {
    let Printed { text, walks } = session.text(names).ok().expect(rt, "memory");
    assert_eq!(rt; text.bytes(), wanted);
    assert_eq!(rt; walks, uses);
}

// The clobber of a location before an instruction.
fn clobber(rt: &impl Abort, session: &mut Session, i: u32, loc: &Loc) -> Found {
    let (b, _) = session.func().place_of(InstNo(i)).expect(rt, "a place");
    assert!(rt; session.reached(b));
    session.clobber(InstNo(i), loc).ok().expect(rt, "memory")
}

// Expects the clobbers of locations, each before an instruction.
fn expect_clobbers(rt: &impl Abort, session: &mut Session, rows: &[(u32, Loc, Access)]) {
    for k in 0..rows.len() {
        let (i, loc, wanted) = rows[k];
        let Found { access, walked } = clobber(rt, session, i, &loc);
        assert!(rt; walked, "{k}");
        assert!(rt; access == wanted, "{k}");
    }
}

const LOOP: &[u8] = b"define void @f(ptr %0) {
  store i32 0, ptr %0
  br label %2

2:
  %3 = load i32, ptr %0
  store i32 1, ptr %0
  br i1 true, label %2, label %4

4:
  ret void
}
";

const LOOP_TOLD: &[u8] = b"define void @f(ptr %0) {
; 1 = MemoryDef(liveOnEntry)
  store i32 0, ptr %0
  br label %2

2:
; 2 = MemoryPhi({%1,1},{%2,3})
; MemoryUse(2)
  %3 = load i32, ptr %0
; 3 = MemoryDef(2)
  store i32 1, ptr %0
  br i1 true, label %2, label %4

4:
  ret void
}
";

// Checks what a session tells of the loop: the clobber of what its load reads, which blocks are reached, and which every path passes.
fn check_loop(rt: &impl Abort, session: &mut Session) {
    let loc = session.alias().reads(session.func(), InstNo(1));
    let loc = loc.expect(rt, "a location");
    let found = clobber(rt, session, 1, &loc);
    assert!(rt; found.walked);
    assert!(rt; found.access == Access::Phi(BlockNo(1)));
    assert!(rt; session.func().block_count() > 2);
    assert!(rt; session.reached(BlockNo(2)));
    assert!(rt; session.cuts(BlockNo(1), BlockNo(2)));
    assert!(rt; !session.cuts(BlockNo(2), BlockNo(1)));
}

#[test]
fn a_loop_has_a_phi(rt: HostRuntime) {
    let alloc = rt.alloc();
    ms_session::laws::one_annotated();
    let mut m = module_of(&rt, alloc, LOOP);
    let mut session = opened(&rt, alloc, &mut m);
    expect_text(&rt, &mut session, m.names(), LOOP_TOLD, 1);
    check_loop(&rt, &mut session);
    assert_eq!(&rt; session.into_func().made(), 3);
}

// Stores 2 to %a and 3 to %b, and a load 4 of %a; then a loop with a store 5 to %b and loads 6 of %a and 7 of %b; then a load 8 of %a.
const STORED: &[u8] = b"define void @f(ptr %p) {
  %a = alloca i64
  %b = alloca i32
  store i32 7, ptr %a
  store i32 7, ptr %b
  %c = load i32, ptr %a
  br label %h

h:
  store i32 7, ptr %b
  %d = load i32, ptr %a
  %e = load i32, ptr %b
  br i1 true, label %h, label %out

out:
  %f = load i32, ptr %a
  ret void
}
";

#[test]
fn stores_elsewhere_are_passed(rt: HostRuntime) {
    let alloc = rt.alloc();
    let mut m = module_of(&rt, alloc, STORED);
    let mut session = opened(&rt, alloc, &mut m);
    let rows = [
        (2, bytes(1, 0, 4), Access::Entry),
        (4, bytes(1, 0, 4), Access::Of(InstNo(2))),
        (4, bytes(1, 4, 4), Access::Entry),
        (4, bytes(2, 0, 4), Access::Of(InstNo(3))),
        (5, bytes(2, 0, 4), Access::Phi(BlockNo(1))),
        (5, bytes(2, 0, 0), Access::Entry),
        (6, bytes(1, 0, 4), Access::Of(InstNo(2))),
        (7, bytes(2, 0, 4), Access::Of(InstNo(5))),
        (7, bytes(0, 0, 4), Access::Entry),
        (7, Loc::ReadBy(InstNo(6)), Access::Of(InstNo(2))),
        (8, bytes(1, 3, 1), Access::Of(InstNo(2))),
        (8, bytes(2, 0, 4), Access::Of(InstNo(5))),
    ];
    expect_clobbers(&rt, &mut session, &rows);
}

// A loop that makes the pointer %q anew in each turn, by the phi 0: stores 1 to %q and 3 four bytes behind, and a load 4 of %q; then, behind the
// loop, a load 6 of %q.
const TURNS: &[u8] = b"define void @f(ptr %p, i1 %c) {
entry:
  br label %h

h:
  %q = phi ptr [ %p, %entry ], [ %r, %h ]
  store i32 1, ptr %q
  %s = getelementptr i8, ptr %q, i64 4
  store i32 2, ptr %s
  %x = load i32, ptr %q
  %r = getelementptr i8, ptr %q, i64 8
  br i1 %c, label %h, label %out

out:
  %y = load i32, ptr %q
  ret void
}
";

const TURNS_TOLD: &[u8] = b"define void @f(ptr %p, i1 %c) {
entry:
  br label %h

h:
; 1 = MemoryPhi({entry,liveOnEntry},{h,3})
  %q = phi ptr [ %p, %entry ], [ %r, %h ]
; 2 = MemoryDef(1)
  store i32 1, ptr %q
  %s = getelementptr i8, ptr %q, i64 4
; 3 = MemoryDef(2)
  store i32 2, ptr %s
; MemoryUse(2)
  %x = load i32, ptr %q
  %r = getelementptr i8, ptr %q, i64 8
  br i1 %c, label %h, label %out

out:
; MemoryUse(2)
  %y = load i32, ptr %q
  ret void
}
";

// In a turn the two stores have bytes apart; what no store of the turn writes may have been written by either in the turn before. Bytes at the
// parameter, and what an instruction reads by its number, are not of one turn, so the nearer store may write them.
#[test]
fn a_turn_is_taken_apart(rt: HostRuntime) {
    let alloc = rt.alloc();
    let mut m = module_of(&rt, alloc, TURNS);
    let mut session = opened(&rt, alloc, &mut m);
    expect_text(&rt, &mut session, m.names(), TURNS_TOLD, 2);
    let rows = [
        (4, bytes(2, 0, 4), Access::Of(InstNo(1))),
        (4, bytes(2, 4, 4), Access::Of(InstNo(3))),
        (4, bytes(2, 2, 4), Access::Of(InstNo(3))),
        (4, bytes(2, 8, 4), Access::Phi(BlockNo(1))),
        (3, bytes(2, 4, 4), Access::Phi(BlockNo(1))),
        (3, bytes(2, 0, 4), Access::Of(InstNo(1))),
        (1, bytes(2, 0, 4), Access::Phi(BlockNo(1))),
        (0, bytes(2, 0, 4), Access::Phi(BlockNo(1))),
        (6, bytes(2, 0, 4), Access::Of(InstNo(1))),
        (6, bytes(2, 8, 4), Access::Phi(BlockNo(1))),
        (4, bytes(2, 0, 0), Access::Entry),
        (4, bytes(0, 0, 4), Access::Of(InstNo(3))),
        (4, Loc::ReadBy(InstNo(4)), Access::Of(InstNo(3))),
    ];
    expect_clobbers(&rt, &mut session, &rows);
}
