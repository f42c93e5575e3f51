// Which kept answers stay behind a change.
ghost use Rattle.ms_alias.specs.Offsets.{AreOffsetsNear};
ghost use Rattle.ms_ir.specs.SoundFunc.{IsSoundFunc};
ghost use Rattle.ms_output.specs.Forms.{AreOpen};

use crate::modules::{func_of, module_of};
use ms_alias::{Alias, Loc, Root};
use ms_cache::{Cache, Change};
use ms_flow::Flow;
use ms_form::Access;
use ms_ir::{Func, FuncNo, InstNo, LocalNo, Module, NoMemory};
use std::alloc::Global;
use std::process::Abort;

// Instructions 2 and 3 store, 4 calls, 5 and 6 load.
const LOADS: &[u8] = b"declare void @use(ptr)

define void @k(ptr %p) {
  %a = alloca i32
  %b = alloca i32
  store i32 1, ptr %a
  store i32 2, ptr %b
  call void @use(ptr %p)
  %x = load i32, ptr %a
  %y = load i32, ptr %b
  ret void
}
";

fn word(l: u64) -> Loc {
    Loc::Bytes {
        root: Root::Local(LocalNo(l)),
        from: 0,
        len: 4,
    }
}

fn locs() -> [(u32, Loc); 3] {
    [(4, Loc::ReadBy(InstNo(4))), (5, word(1)), (6, word(2))]
}

// The clobbers of what 4, 5 and 6 read.
fn fill(cache: &mut Cache) -> Result<(), NoMemory> {
    for (i, loc) in locs() {
        match cache.get(InstNo(i), &loc) {
            Some(_) => {}
            None => cache.put(InstNo(i), loc, Access::Entry)?,
        }
    }
    Ok(())
}

// Whether the answers of 4, 5 and 6 are there.
fn held(cache: &Cache) -> (bool, bool, bool) {
    let [(a, first), (b, second), (c, third)] = locs();
    (
        cache.get(InstNo(a), &first).is_some(),
        cache.get(InstNo(b), &second).is_some(),
        cache.get(InstNo(c), &third).is_some(),
    )
}

fn change(inst: Option<u32>, def: bool) -> Change {
    Change {
        inst: match inst {
            Some(i) => Some(InstNo(i)),
            None => None,
        },
        def,
        own_only: false,
        captured: false,
        unlinked: false,
    }
}

// Changes, and which of the answers of 4, 5 and 6 stay.
fn rows() -> [(Change, (bool, bool, bool)); 11] {
    let store = change(Some(2), true);
    let call = change(Some(4), true);
    let load = change(Some(5), false);
    let none = change(None, false);
    [
        (none, (true, true, true)),
        (store, (true, false, true)),
        (change(Some(3), true), (true, true, false)),
        (
            Change {
                own_only: true,
                ..store
            },
            (true, true, true),
        ),
        (call, (false, true, true)),
        (
            Change {
                captured: true,
                ..call
            },
            (false, false, false),
        ),
        (load, (true, false, true)),
        (
            Change {
                own_only: true,
                ..load
            },
            (true, false, true),
        ),
        (
            Change {
                captured: true,
                ..none
            },
            (false, false, false),
        ),
        (
            Change {
                unlinked: true,
                ..none
            },
            (false, false, false),
        ),
        (
            Change {
                unlinked: true,
                ..store
            },
            (false, false, false),
        ),
    ]
}

fn check(rt: &impl Abort, alloc: Global, func: &Func) -> Result<(), NoMemory>
    requires sound { IsSoundFunc func.now }
    requires near { AreOffsetsNear func.now }
{
    let flow = Flow::of(alloc, func)?;
    let alias = Alias::of(alloc, func, &flow)?;
    let rows = rows();
    for k in 0..rows.len() {
        let (change, wanted) = rows[k];
        let mut cache = Cache::new(alloc);
        fill(&mut cache)?;
        cache.after(func, &alias, &change);
        assert!(rt; held(&cache) == wanted, "{k}");
    }
    Ok(())
}

fn check_first(rt: &impl Abort, alloc: Global, module: &Module)
    requires { AreOpen module.now }
{
    match func_of(module, FuncNo(1)) {
        Some(func) => assert!(rt; check(rt, alloc, func).is_ok()),
        None => assert!(rt; false, "no body"),
    }
}

#[test]
fn kept_answers_stay_or_go(rt: HostRuntime) {
    let alloc = rt.alloc();
    let module = module_of(&rt, alloc, LOADS);
    check_first(&rt, alloc, &module);
}
