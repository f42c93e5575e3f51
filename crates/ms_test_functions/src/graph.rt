// Functions that tests make, and what calls ask of them. A function is handed around by reference, and what may want memory is
// asserted to succeed, so that no early exit drops one: that is dear to prove.
ghost use Rattle.std.specs.Prelude.{◌≡◌, ◌<◌, ℕ, [], Contains, length, slice_index_or, IsTrue};
ghost use Rattle.ms_paths.specs.Flow.{IsClosed, IsReducible};
ghost use Rattle.ms_ir.specs.declared.inst.Inst.{Inst};
ghost use Rattle.ms_ir.specs.Func.{IsTaken, no_block};
ghost use Rattle.ms_ir.specs.Changes.{IsCondBr, with_edge_cut};
ghost use Rattle.ms_ir.specs.Graph.{graph_of, successors};
ghost use Rattle.ms_flow.specs.Table.{edges_of};
ghost use Rattle.ms_form.specs.Form.{HasPlaces};
ghost use Rattle.ms_form.specs.Counts.{pred_counts};
ghost use Rattle.ms_build.specs.Built.{IsFormOf};

use ms_build::build;
use ms_flow::Flow;
use ms_form::Form;
use ms_ir::{
    BlockNo, Effects, Func, Inst, InstNo, Items, LocalNo, Name, Param, Steps, Term, Text, Ty, Val,
};
use std::alloc::Global;
use std::process::Abort;

/// The only parameter, a pointer.
pub const P: LocalNo = LocalNo(0);

/// A call that reads and writes nothing.
pub const NO_EFFECTS: Effects = Effects {
    arg_read: false,
    arg_write: false,
    other_read: false,
    other_write: false,
    hidden_read: false,
    hidden_write: false,
};

/// A function `f` of a pointer parameter, without a block.
pub fn no_blocks(rt: &impl Abort, alloc: Global, ret: Option<Ty>) -> Func {
    let mut params = Items::new(alloc);
    let param = Param {
        ty: Ty::Ptr,
        text: Items::new(alloc),
        name: Name::Number(0),
    };
    assert!(rt; params.push(param).is_ok());
    assert!(rt; params.len() < 2);
    let name = Text::from_bytes(alloc, b"f").ok().expect(rt, "memory");
    let head = Items::new(alloc);
    let tail = Items::new(alloc);
    Func::new(alloc, name, head, ret, params, tail)
}

/// One more block.
pub fn add(rt: &impl Abort, f: &mut Func, name: Name, term: Term) {
    assert!(rt; f.block_count() < 1000);
    assert!(rt; f.add_block(name, term).is_ok());
}

// A terminator with these targets, two at most.
fn term_to(alloc: Global, targets: &[u32]) -> Term {
    let text = Items::new(alloc);
    match targets {
        [] => Term::Ret(None, text),
        [a] => Term::Br(BlockNo(*a), text),
        [a, b, ..] => Term::CondBr(Val::Num(Ty::I1, 1), BlockNo(*a), BlockNo(*b), text),
    }
}

/// A function with a block for each of these lists of targets.
pub fn function(rt: &impl Abort, alloc: Global, shape: &[&[u32]]) -> Func {
    let mut f = no_blocks(rt, alloc, None);
    for b in 0..shape.len() {
        add(rt, &mut f, Name::Absent, term_to(alloc, shape[b]));
    }
    f
}

/// Puts an instruction at a place of a block.
pub fn put_at(
    rt: &impl Abort,
    f: &mut Func,
    b: BlockNo,
    place: u32,
    inst: Inst,
    name: Name,
) -> InstNo {
    assert!(rt; b.0 < f.block_count());
    assert!(rt; f.made() < u32::MAX);
    assert!(rt; f.reserve(1).is_ok());
    assert!(rt; place <= f.count(b));
    f.put_inst(b, place, inst, name)
}

/// Puts an instruction behind the others of a block.
pub fn put(rt: &impl Abort, f: &mut Func, b: u32, inst: Inst) -> InstNo {
    assert!(rt; b < f.block_count());
    let place = f.count(BlockNo(b));
    put_at(rt, f, BlockNo(b), place, inst, Name::Absent)
}

/// Takes an instruction out.
pub fn take(rt: &impl Abort, f: &mut Func, i: InstNo)
    ensures { (inst : Inst) × IsTaken f.old f.new i.0 inst }
{
    assert!(rt; f.place_of(i).is_some());
    f.take_inst(i);
}

/// An alloca of so many bytes.
pub fn alloca(alloc: Global, size: u32) -> Inst {
    Inst::Alloca {
        size,
        head: Items::new(alloc),
        tail: Items::new(alloc),
    }
}

/// A load of four bytes.
pub fn load(alloc: Global, ptr: Val) -> Inst {
    Inst::Load {
        ty: Ty::I32,
        ptr,
        tail: Items::new(alloc),
    }
}

/// A store of four bytes.
pub fn store(alloc: Global, ptr: Val, n: u64) -> Inst {
    Inst::Store {
        ty: Ty::I32,
        val: Val::Num(Ty::I32, n),
        ptr,
        tail: Items::new(alloc),
    }
}

/// Whether a block ends in a conditional branch.
pub fn is_conditional(f: &Func, b: BlockNo, steps: &mut Steps) -> bool
    requires { b.0 < length f.now.blocks }
    ensures { IsTrue result → IsCondBr (slice_index_or f.now.blocks b.0 no_block).term }
{
    match f.term(b, steps) {
        Term::CondBr(..) => true,
        Term::Br(..) | Term::Ret(..) | Term::Unreachable(..) => false,
    }
}

/// Cuts the edge at a slot of a block's conditional branch.
pub fn cut(rt: &impl Abort, f: &mut Func, b: BlockNo, slot: u32, steps: &mut Steps)
    ensures { f.new ≡ with_edge_cut f.old b.0 slot }
{
    assert!(rt; slot < 2);
    assert!(rt; b.0 < f.block_count());
    assert!(rt; is_conditional(f, b, steps));
    f.cut_edge(b, slot);
}

// Expects targets to be below a number of blocks.
fn expect_targets(rt: &impl Abort, term: &Term, blocks: u32)
    ensures { (b : ℕ) → Contains (successors term.now) b → b < blocks }
{
    match term {
        Term::Br(a, _) => assert!(rt; a.0 < blocks),
        Term::CondBr(_, a, b, _) => {
            assert!(rt; a.0 < blocks);
            assert!(rt; b.0 < blocks);
        }
        Term::Ret(..) | Term::Unreachable(..) => {}
    }
}

// Expects a block, and that terminators name blocks of the function.
fn expect_closed(rt: &impl Abort, alloc: Global, f: &Func)
    ensures { IsClosed (graph_of f.now.blocks) }
{
    let mut steps = Steps::new(alloc).ok().expect(rt, "memory");
    assert!(rt; f.block_count() > 0);
    for b in 0..f.block_count() {
        expect_targets(rt, f.term(BlockNo(b), &mut steps), f.block_count());
    }
}

/// The flow graph of a function.
pub fn flow_of(rt: &impl Abort, alloc: Global, f: &Func) -> Flow
    ensures graph { result.graph ≡ edges_of f.now.blocks }
    ensures closed { IsClosed (graph_of f.now.blocks) }
{
    expect_closed(rt, alloc, f);
    Flow::of(alloc, f).ok().expect(rt, "memory")
}

// Expects loops to be reducible.
fn expect_reducible(rt: &impl Abort, flow: &Flow)
    ensures { IsReducible flow.now.graph }
{
    assert!(rt; flow.reducible());
}

/// The memory form of a function with reducible loops.
pub fn form_of(rt: &impl Abort, alloc: Global, f: &Func, flow: &Flow) -> Form
    requires graph { flow.now.graph ≡ edges_of f.now.blocks }
    requires closed { IsClosed (graph_of f.now.blocks) }
    ensures form { IsFormOf f.now result }
    ensures places { HasPlaces (pred_counts flow.now) f.now.made result }
    ensures waiting { result.waiting ≡ [] }
    ensures reducible { IsReducible flow.now.graph }
{
    expect_reducible(rt, flow);
    build(alloc, f, flow).ok().expect(rt, "memory")
}
