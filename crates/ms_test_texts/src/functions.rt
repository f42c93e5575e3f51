// Functions and modules that are built by hand, as they are printed. Functions are handed around by reference, so that no
// early exit drops one: that is dear to prove.
ghost use Rattle.std.specs.Prelude.{◌<◌};

use crate::built::{a_pointer, text, word};
use ms_ir::{
    BlockNo, Func, Groups, Inst, Items, LocalNo, Module, Name, Names, NoMemory, Term, Text, Ty, Val,
};
use ms_print::{Note, Notes, block_labels, print_func, print_module};
use std::alloc::Global;
use std::process::Abort;
use std::test::Fail;

// A function of a pointer parameter without a name, and of no block.
fn no_blocks(alloc: Global) -> Result<Func, NoMemory> {
    let name = text(alloc, "f")?;
    let params = a_pointer(alloc)?;
    Ok(Func::new(
        alloc,
        name,
        Text::new(alloc),
        None,
        params,
        Text::new(alloc),
    ))
}

// A block that returns.
fn add(rt: &impl Abort, alloc: Global, f: &mut Func, name: Name) {
    assert!(rt; f.block_count() < 1000);
    assert!(rt; f.add_block(name, Term::Ret(None, Text::new(alloc))).is_ok());
}

// Puts a load from the parameter first.
fn put_load(rt: &impl Abort, alloc: Global, f: &mut Func) {
    assert!(rt; 0 < f.block_count());
    assert!(rt; f.made() < u32::MAX);
    assert!(rt; f.reserve(1).is_ok());
    let load = Inst::Load {
        ty: Ty::I32,
        ptr: Val::Local(LocalNo(0)),
        tail: Text::new(alloc),
    };
    f.put_inst(BlockNo(0), 0, load, Name::Absent);
}

// A block of a load.
fn fill(rt: &impl Abort, alloc: Global, f: &mut Func) {
    add(rt, alloc, f, Name::Absent);
    put_load(rt, alloc, f);
}

const PLAIN: &str = "define void @f(ptr %0) {
  %2 = load i32, ptr %0
  ret void
}
";

const NOTED: &str = "define void @f(ptr %0) {
; MemoryUse(liveOnEntry)
  %2 = load i32, ptr %0
  ret void
}
";

// A note at the first instruction.
fn note(alloc: Global) -> Result<Notes, NoMemory> {
    let mut insts = Items::new(alloc);
    insts.push(Note {
        at: 0,
        line: text(alloc, "; MemoryUse(liveOnEntry)")?,
    })?;
    Ok(Notes {
        phis: Items::new(alloc),
        insts,
    })
}

pub fn no_notes(alloc: Global) -> Notes {
    Notes {
        phis: Items::new(alloc),
        insts: Items::new(alloc),
    }
}

fn expect_text(rt: &impl Abort, text: Result<Text, NoMemory>, wanted: &str) {
    match text {
        Ok(text) => assert_eq!(rt; text.bytes(), wanted.as_bytes()),
        Err(NoMemory) => assert!(rt; false, "no memory for {wanted}"),
    }
}

fn expect_func(
    rt: &impl Abort,
    alloc: Global,
    f: &Func,
    notes: Result<Notes, NoMemory>,
    wanted: &str,
) {
    match notes {
        Ok(notes) => expect_text(rt, print_func(alloc, f, &Names::new(alloc), &notes), wanted),
        Err(NoMemory) => assert!(rt; false, "no memory for {wanted}"),
    }
}

#[test]
fn a_function_is_printed(rt: HostRuntime) -> Result<(), Fail> {
    let alloc = rt.alloc();
    let mut f = no_blocks(alloc)?;
    fill(&rt, alloc, &mut f);
    expect_func(&rt, alloc, &f, Ok(no_notes(alloc)), PLAIN);
    expect_func(&rt, alloc, &f, note(alloc), NOTED);
    Ok(())
}

// Two blocks more, of which one has a word for a name.
fn extend(rt: &impl Abort, alloc: Global, f: &mut Func) {
    match word(alloc, "end") {
        Ok(name) => add(rt, alloc, f, name),
        Err(NoMemory) => assert!(rt; false),
    }
    add(rt, alloc, f, Name::Number(7));
}

// The parameter has the number 0, and the load of the first block the number 2.
fn expect_labels(rt: &impl Abort, labels: Result<Items<Name>, NoMemory>) {
    match labels {
        Ok(labels) => match labels.as_slice() {
            [Name::Number(1), Name::Word(end), Name::Number(3)] => {
                assert_eq!(rt; end.bytes(), b"end".as_slice());
            }
            _ => assert!(rt; false, "other labels"),
        },
        Err(NoMemory) => assert!(rt; false),
    }
}

#[test]
fn labels_of_blocks(rt: HostRuntime) -> Result<(), Fail> {
    let alloc = rt.alloc();
    let mut f = no_blocks(alloc)?;
    fill(&rt, alloc, &mut f);
    extend(&rt, alloc, &mut f);
    expect_labels(&rt, block_labels(alloc, &f));
    Ok(())
}

/// Expects a module to be printed so.
pub fn expect_module(rt: &impl Abort, alloc: Global, module: &Module, wanted: &str) {
    expect_text(rt, print_module(alloc, module), wanted);
}

#[test]
fn an_empty_module_is_printed(rt: HostRuntime) {
    let alloc = rt.alloc();
    let module = Module::new(alloc, Groups::new(alloc));
    expect_module(&rt, alloc, &module, "");
}
