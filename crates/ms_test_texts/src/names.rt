// Lines that are built by hand, and the module whose names they are, or the line with a fault in its names.
ghost use Rattle.std.specs.Prelude.{List, IfOk};
ghost use Rattle.ms_resolve.specs.Shape.{IsShape, ItemLines};
ghost use Rattle.ms_resolve.specs.Cause.{IsFew};

use crate::built::{a_pointer, head};
use crate::functions::expect_module;
use ms_grammar::{Head, Line, RawInst, RawTerm, RawVal};
use ms_ir::{BlockNo, Func, FuncNo, Items, Name, NoMemory, Text, Ty};
use ms_resolve::{NameFault, Resolved, resolve};
use std::alloc::Global;
use std::process::Abort;
use std::test::Fail;

// A function of one block with one instruction.
fn draft(alloc: Global, head: Head, inst: RawInst) -> Result<Items<(u32, Line)>, NoMemory>
    ensures shape { IfOk result (λ d. (items : List ItemLines) × IsShape d items) }
    ensures few { IfOk result (λ d. IsFew d) }
{
    let mut lines = Items::new(alloc);
    lines.push((1, Line::Define(head)))?;
    lines.push((2, Line::Inst(Name::Absent, inst)))?;
    lines.push((3, Line::Term(RawTerm::Ret(None, Text::new(alloc)))))?;
    lines.push((4, Line::Close))?;
    Ok(lines)
}

fn head_of_f(alloc: Global) -> Result<Head, NoMemory> {
    head(alloc, "f", a_pointer(alloc)?, false)
}

fn store_to(alloc: Global, local: u32) -> RawInst {
    RawInst::Store {
        ty: Ty::I8,
        val: RawVal::Num(Ty::I8, 1),
        ptr: RawVal::Local(Name::Number(local)),
        tail: Text::new(alloc),
    }
}

// The module of a function with one pointer for a parameter, which stores to a local.
fn resolved(alloc: Global, local: u32) -> Result<Resolved, NameFault> {
    let made = match head_of_f(alloc) {
        Ok(head) => draft(alloc, head, store_to(alloc, local)),
        Err(NoMemory) => Err(NoMemory),
    };
    match made {
        Ok(lines) => resolve(alloc, &lines),
        Err(NoMemory) => Err(NameFault::Memory),
    }
}

fn expect_one_inst(rt: &impl Abort, func: Option<&Func>) {
    match func {
        Some(func) => {
            assert_eq!(rt; func.made(), 1);
            assert_eq!(rt; func.block_count(), 1);
            assert!(rt; func.first_inst(BlockNo(0)).is_some());
        }
        None => assert!(rt; false, "no body"),
    }
}

const STORES: &str = "define void @f(ptr %0) {
  store i8 1, ptr %0
  ret void
}
";

fn expect_store(rt: &impl Abort, alloc: Global, resolved: &Resolved) {
    expect_one_inst(rt, resolved.module.func(FuncNo(0)));
    assert_eq!(rt; resolved.lines.len(), 1);
    expect_module(rt, alloc, &resolved.module, STORES);
}

#[test]
fn a_parameter_without_a_name_is_local_0(rt: HostRuntime) -> Result<(), Fail> {
    let resolved = resolved(rt.alloc(), 0)?;
    expect_store(&rt, rt.alloc(), &resolved);
    Ok(())
}

#[test]
fn a_block_is_no_local(rt: HostRuntime) {
    assert!(rt; resolved(rt.alloc(), 1).err() == Some(NameFault::Name(2)));
}
