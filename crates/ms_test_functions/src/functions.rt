// Changes of a function, and what look-ups answer after them.
ghost use Rattle.std.specs.Prelude.{IsTrue};
ghost use Rattle.ms_ir.specs.Changes.{IsCopyThere};

use crate::graph::{NO_EFFECTS, P, add, cut, is_conditional, load, no_blocks, put, put_at, take};
use ms_ir::{
    Arg, BlockNo, Entry, Func, FuncNo, Inst, InstNo, Items, Kind, LocalNo, Name, NoMemory, Steps,
    Term, Ty, Val, kind_of, result_type,
};
use std::alloc::Global;
use std::process::Abort;
use std::test::Fail;

fn at(rt: &impl Abort, f: &Func, b: BlockNo, place: u32) -> Option<InstNo> {
    assert!(rt; b.0 < f.block_count());
    f.inst_at(b, place)
}

// Whether an instruction loads from a local.
fn loads(inst: Option<&Inst>, local: LocalNo) -> bool {
    match inst {
        Some(Inst::Load { ptr, .. }) => *ptr == Val::Local(local),
        _ => false,
    }
}

// Puts a load from the parameter at the end of the first block.
fn put_load(rt: &impl Abort, alloc: Global, f: &mut Func, name: Name) {
    assert!(rt; f.block_count() > 0);
    let place = f.count(BlockNo(0));
    put_at(rt, f, BlockNo(0), place, load(alloc, Val::Local(P)), name);
}

fn add_unreachable(rt: &impl Abort, alloc: Global, f: &mut Func, name: Name) {
    let term = Term::Unreachable(Items::new(alloc));
    add(rt, f, name, term);
}

// A block of two loads from the parameter.
fn fill(rt: &impl Abort, alloc: Global, f: &mut Func) {
    add_unreachable(rt, alloc, f, Name::Number(0));
    put_load(rt, alloc, f, Name::Number(1));
    put_load(rt, alloc, f, Name::Absent);
}

fn expect_parts(rt: &impl Abort, f: &Func) {
    assert_eq!(rt; f.name().bytes(), b"f".as_slice());
    assert_eq!(rt; f.head().len(), 0);
    assert_eq!(rt; f.tail().len(), 0);
    assert_eq!(rt; f.params().len(), 1);
    assert!(rt; f.ret() == Some(Ty::I32));
    assert_eq!(rt; f.made(), 2);
    assert_eq!(rt; f.local_count(), 3);
    assert!(rt; f.block_name(BlockNo(0)).is_some());
    assert!(rt; f.find_block(&Name::Number(0)) == Some(BlockNo(0)));
}

fn expect_insts(rt: &impl Abort, f: &Func) {
    f.numbered();
    assert!(rt; f.first_inst(BlockNo(0)) == Some(InstNo(0)));
    assert!(rt; f.next_inst(InstNo(0)) == Some(InstNo(1)));
    assert!(rt; at(rt, f, BlockNo(0), 1) == Some(InstNo(1)));
    assert!(rt; f.place_of(InstNo(1)) == Some((BlockNo(0), 1)));
    assert!(rt; loads(f.inst(InstNo(1)), P));
    assert!(rt; f.node(InstNo(1)).is_some());
    assert!(rt; f.block_count() == 1);
    assert!(rt; f.node_at(BlockNo(0), 1).is_some());
}

fn expect_locals(rt: &impl Abort, f: &Func) {
    assert!(rt; f.result_of(InstNo(1)) == Some(LocalNo(2)));
    assert!(rt; f.def_of(LocalNo(2)) == Some(InstNo(1)));
    assert!(rt; f.giver(LocalNo(2)).is_some());
    assert!(rt; f.type_of(LocalNo(2)) == Some(Ty::I32));
    assert!(rt; f.local_name(LocalNo(2)).is_some());
    assert!(rt; f.find_local(&Name::Number(1)) == Some(LocalNo(1)));
}

#[test]
fn looks_up(rt: HostRuntime) {
    let alloc = rt.alloc();
    let mut f = no_blocks(&rt, alloc, Some(Ty::I32));
    fill(&rt, alloc, &mut f);
    expect_parts(&rt, &f);
    expect_insts(&rt, &f);
    expect_locals(&rt, &f);
}

// Puts an instruction first in the first block.
fn shift_first(rt: &impl Abort, f: &mut Func, i: InstNo) {
    assert!(rt; f.block_count() > 0);
    assert!(rt; f.place_of(i).is_some());
    f.shift_inst(i, BlockNo(0), 0);
}

// Whether an instruction is there, and is a copy.
fn is_copy(f: &Func, i: InstNo) -> bool
    ensures { IsTrue result → IsCopyThere f.now.blocks i.0 }
{
    match f.inst(i) {
        Some(Inst::Copy { .. }) => true,
        _ => false,
    }
}

fn argument(alloc: Global, local: LocalNo) -> Arg {
    Arg {
        ty: Ty::Ptr,
        val: Val::Local(local),
        keeps: false,
        text: Items::new(alloc),
    }
}

// Puts a copy from a local to itself, which then copies from another.
fn copy_from(rt: &impl Abort, alloc: Global, f: &mut Func, local: LocalNo, other: LocalNo) {
    let copy = Inst::Copy {
        to: argument(alloc, local),
        from: argument(alloc, local),
        len: 4,
        head: Items::new(alloc),
        tail: Items::new(alloc),
    };
    let i = put(rt, f, 0, copy);
    assert!(rt; is_copy(f, i));
    f.set_copy_source(i, argument(alloc, other));
}

// Adds a block that branches to itself or to the first block, and cuts its edge to the first one.
fn cut_new_edge(rt: &impl Abort, alloc: Global, f: &mut Func, steps: &mut Steps) {
    let term = Term::CondBr(
        Val::Num(Ty::I1, 1),
        BlockNo(1),
        BlockNo(0),
        Items::new(alloc),
    );
    add(rt, f, Name::Absent, term);
    cut(rt, f, BlockNo(1), 1, steps);
    assert!(rt; f.block_count() == 2);
    assert!(rt; !is_conditional(f, BlockNo(1), steps));
}

#[test]
fn changes(rt: HostRuntime) -> Result<(), Fail> {
    let alloc = rt.alloc();
    let mut steps = Steps::new(alloc)?;
    let mut f = no_blocks(&rt, alloc, Some(Ty::I32));
    fill(&rt, alloc, &mut f);
    shift_first(&rt, &mut f, InstNo(1));
    take(&rt, &mut f, InstNo(0));
    copy_from(&rt, alloc, &mut f, P, LocalNo(2));
    f.replace_local(P, Val::Local(LocalNo(2)));
    assert!(rt; loads(f.inst(InstNo(1)), LocalNo(2)));
    cut_new_edge(&rt, alloc, &mut f, &mut steps);
    steps.add(4);
    assert_eq!(rt; steps.count(), 7);
    Ok(())
}

// Expects the first block's instructions, from both ends of each link.
fn expect_order(rt: &impl Abort, f: &Func, numbers: &[u32]) {
    assert!(rt; f.block_count() > 0);
    assert_eq!(rt; f.count(BlockNo(0)) as usize, numbers.len());
    let mut at = f.first_inst(BlockNo(0));
    for number in numbers {
        assert!(rt; at == Some(InstNo(*number)));
        at = f.next_inst(InstNo(*number));
    }
    assert!(rt; at.is_none());
}

#[test]
fn instructions_stand_in_order(rt: HostRuntime) {
    let alloc = rt.alloc();
    let mut f = no_blocks(&rt, alloc, None);
    add_unreachable(&rt, alloc, &mut f, Name::Absent);
    for number in [1, 2, 3] {
        put_load(&rt, alloc, &mut f, Name::Number(number));
    }
    expect_order(&rt, &f, &[0, 1, 2]);
    shift_first(&rt, &mut f, InstNo(2));
    put_load(&rt, alloc, &mut f, Name::Absent);
    expect_order(&rt, &f, &[2, 0, 1, 3]);
    take(&rt, &mut f, InstNo(3));
    put_load(&rt, alloc, &mut f, Name::Absent);
    expect_order(&rt, &f, &[2, 0, 1, 4]);
}

// Two locals of one name, and a third one without.
#[test]
fn numbers_are_not_used_again(rt: HostRuntime) {
    let alloc = rt.alloc();
    let mut f = no_blocks(&rt, alloc, None);
    add_unreachable(&rt, alloc, &mut f, Name::Absent);
    put_load(&rt, alloc, &mut f, Name::Number(7));
    put_load(&rt, alloc, &mut f, Name::Number(7));
    assert!(rt; f.find_local(&Name::Number(7)) == Some(LocalNo(1)));
    take(&rt, &mut f, InstNo(0));
    put_load(&rt, alloc, &mut f, Name::Absent);
    assert!(rt; f.inst(InstNo(0)).is_none());
    assert!(rt; f.find_local(&Name::Number(7)) == Some(LocalNo(2)));
    assert!(rt; f.find_local(&Name::Number(8)).is_none());
    assert!(rt; f.find_local(&Name::Absent).is_none());
    assert!(rt; f.find_block(&Name::Number(7)).is_none());
    assert!(rt; f.result_of(InstNo(2)) == Some(LocalNo(3)));
    assert!(rt; f.def_of(P).is_none());
    assert!(rt; f.type_of(P) == Some(Ty::Ptr));
    assert!(rt; f.type_of(LocalNo(1)).is_none());
}

// A phi with one entry for each of some blocks.
fn phi(alloc: Global, froms: &[u32]) -> Result<Inst, NoMemory> {
    let mut entries = Items::new(alloc);
    for from in froms {
        entries.push(Entry {
            val: Val::Num(Ty::I32, *from as u64),
            from: BlockNo(*from),
        })?;
    }
    Ok(Inst::Phi {
        ty: Ty::I32,
        entries,
        tail: Items::new(alloc),
    })
}

// How many entries a phi has.
fn entries(inst: Option<&Inst>) -> usize {
    match inst {
        Some(Inst::Phi { entries, .. }) => entries.len(),
        _ => 0,
    }
}

// Block 1 branches to two targets, and blocks 2 and 3 have a phi each.
fn branch(rt: &impl Abort, alloc: Global, f: &mut Func, yes: u32, no: u32) -> Result<(), NoMemory> {
    add_unreachable(rt, alloc, f, Name::Absent);
    let kept = Items::from_bytes(alloc, b", !prof !0")?;
    let term = Term::CondBr(Val::Num(Ty::I1, 1), BlockNo(yes), BlockNo(no), kept);
    add(rt, f, Name::Absent, term);
    add_unreachable(rt, alloc, f, Name::Absent);
    add_unreachable(rt, alloc, f, Name::Absent);
    put(rt, f, 2, phi(alloc, &[1, 1])?);
    put(rt, f, 3, phi(alloc, &[0, 1])?);
    Ok(())
}

// The target of a block's branch.
fn target(rt: &impl Abort, f: &Func, b: BlockNo, steps: &mut Steps) -> Option<BlockNo> {
    assert!(rt; b.0 < f.block_count());
    match f.term(b, steps) {
        Term::Br(b, _) => Some(*b),
        _ => None,
    }
}

#[test]
fn cut_edges(rt: HostRuntime) -> Result<(), Fail> {
    let alloc = rt.alloc();
    let mut steps = Steps::new(alloc)?;
    // each row: the targets, the slot that is cut, the target that stays, and how many entries the two phis keep
    for (yes, no, slot, kept, first, second) in [
        (2, 3, 0, 3, 1, 2),
        (2, 3, 1, 2, 2, 1),
        (2, 2, 0, 2, 1, 2),
        (2, 2, 1, 2, 1, 2),
        (2, 9, 1, 2, 2, 2),
    ] {
        let mut f = no_blocks(&rt, alloc, None);
        assert!(rt; branch(&rt, alloc, &mut f, yes, no).is_ok());
        cut(&rt, &mut f, BlockNo(1), slot, &mut steps);
        assert!(rt; target(&rt, &f, BlockNo(1), &mut steps) == Some(BlockNo(kept)));
        assert_eq!(rt; entries(f.inst(InstNo(0))), first);
        assert_eq!(rt; entries(f.inst(InstNo(1))), second);
    }
    assert_eq!(rt; steps.count(), 15);
    Ok(())
}

#[test]
fn tells_what_a_call_does(rt: HostRuntime) {
    let alloc = rt.alloc();
    for (reads, writes, kind) in [
        (false, false, Kind::Neither),
        (true, false, Kind::Reads),
        (false, true, Kind::Def),
        (true, true, Kind::Def),
    ] {
        let mut effects = NO_EFFECTS;
        effects.hidden_read = reads;
        effects.other_write = writes;
        let call = Inst::Call {
            callee: FuncNo(0),
            ret: None,
            args: Items::new(alloc),
            effects,
            head: Items::new(alloc),
            tail: Items::new(alloc),
        };
        assert!(rt; kind_of(&call) == kind);
        assert!(rt; result_type(&call).is_none());
    }
}
