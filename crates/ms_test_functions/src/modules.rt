// A module of a kept line, a global, and a declared and a defined function; lists and names.
ghost use Rattle.std.specs.Prelude.{◌≡◌, ◌<◌, ◌-◌, ◌^◌, length, slice_get, IsTrue, Some, None};
ghost use Rattle.ms_ir.specs.Module.{IsNew, IsDefined};

use crate::graph::{NO_EFFECTS, no_blocks};
use ms_ir::{Func, FuncNo, GlobalNo, Item, Items, Module, Name, NoMemory, Sig, Text, same_name};
use std::alloc::Global;
use std::process::Abort;
use std::test::Fail;

fn text(alloc: Global, bytes: &str) -> Result<Text, NoMemory> {
    Items::from_bytes(alloc, bytes.as_bytes())
}

fn signature(alloc: Global) -> Sig {
    Sig {
        ret: None,
        params: Items::new(alloc),
        variadic: false,
        effects: NO_EFFECTS,
    }
}

// Whether a name is new in a module.
fn is_new(m: &Module, name: &[u8]) -> bool
    ensures { IsTrue result → IsNew m.now.names name.now }
{
    match m.names().find_func(name) {
        Some(_) => false,
        None => match m.names().find_global(name) {
            Some(_) => false,
            None => true,
        },
    }
}

// Whether a module has few items.
#[tactic(auto, using(ms_ir::proofs::LookLemmas::past_none))]
fn is_small(m: &Module) -> bool
    ensures { IsTrue result → length m.now.items < 2 ^ 32 - 1 }
{
    match m.item(1000) {
        Some(_) => false,
        None => true,
    }
}

fn expect_new(rt: &impl Abort, m: &Module, name: &Text)
    ensures new { IsNew m.now.names name.now }
    ensures small { length m.now.items < 2 ^ 32 - 1 }
{
    assert!(rt; is_small(m));
    assert!(rt; is_new(m, name.bytes()));
}

// Adds a kept line, a global, a declared and a defined function.
fn add_items(rt: &impl Abort, alloc: Global, m: &mut Module) -> Result<(), NoMemory> {
    assert!(rt; is_small(m));
    m.add_kept(text(alloc, "!0 = !{}")?)?;
    let name = text(alloc, "g")?;
    expect_new(rt, m, &name);
    m.add_global(name, Items::new(alloc))?;
    let name = text(alloc, "use")?;
    expect_new(rt, m, &name);
    m.add_declared(name, signature(alloc), Items::new(alloc))?;
    let name = text(alloc, "f")?;
    expect_new(rt, m, &name);
    m.add_defined(name, signature(alloc))?;
    Ok(())
}

fn expect_items(rt: &impl Abort, m: &Module) {
    assert!(rt; m.names().find_func(b"f") == Some(FuncNo(1)));
    assert!(rt; m.names().find_func(b"g").is_none());
    assert!(rt; m.names().find_global(b"g") == Some(GlobalNo(0)));
    assert!(rt; m.names().func_name(FuncNo(0)) == Some(b"use".as_slice()));
    assert!(rt; m.names().global_name(GlobalNo(0)) == Some(b"g".as_slice()));
    assert_eq!(rt; m.groups().len(), 0);
    assert!(rt; m.item(3).is_some());
    assert!(rt; m.item(4).is_none());
    assert!(rt; m.sig(FuncNo(0)).is_some());
    assert!(rt; m.func(FuncNo(1)).is_none());
}

// Whether an item defines a function.
fn defines(m: &Module, n: u32, f: FuncNo) -> bool
    ensures { IsTrue result → IsDefined m.now f }
{
    match m.item(n) {
        Some(Item::Defined(g)) => *g == f,
        _ => false,
    }
}

// Whether a function is there and has no body, or its body is taken.
fn lacks_body(m: &Module, f: FuncNo) -> bool
    ensures { IsTrue result → slice_get m.now.bodies f.0 ≡ Some None }
{
    m.whole();
    match m.sig(f) {
        Some(_) => match m.func(f) {
            Some(_) => false,
            None => true,
        },
        None => false,
    }
}

fn put_body(rt: &impl Abort, m: &mut Module, f: FuncNo, body: Func) {
    assert!(rt; defines(m, 3, f));
    assert!(rt; lacks_body(m, f));
    m.put_func(f, body);
}

// Whether a function has a body that can be taken.
fn takes_body(m: &mut Module, f: FuncNo) -> bool {
    m.take_func(f).is_some()
}

#[test]
fn holds_a_module(rt: HostRuntime) {
    let alloc = rt.alloc();
    let body = no_blocks(&rt, alloc, None);
    let mut m = Module::new(alloc, Items::new(alloc));
    assert!(rt; add_items(&rt, alloc, &mut m).is_ok());
    expect_items(&rt, &m);
    put_body(&rt, &mut m, FuncNo(1), body);
    for (f, taken) in [(1, true), (1, false), (0, false), (2, false)] {
        assert!(rt; takes_body(&mut m, FuncNo(f)) == taken);
    }
}

#[test]
fn holds_lists_and_names(rt: HostRuntime) -> Result<(), Fail> {
    let alloc = rt.alloc();
    let list = Items::from_vec(text(alloc, "ab")?.into_vec());
    assert!(rt; list.get(1) == Some(&b'b'));
    assert_eq!(rt; list.as_slice(), b"ab".as_slice());
    assert!(rt; same_name(&Name::Number(1), &Name::Number(1)));
    Ok(())
}
