// Edits of a memory form, each held against a form that is built afresh.
ghost use Rattle.std.specs.Prelude.{◌≡◌, ◌<◌, ◌≤◌, length, max};
ghost use Rattle.ms_paths.specs.Flow.{IsClosed};
ghost use Rattle.ms_ir.specs.Graph.{graph_of};
ghost use Rattle.ms_flow.specs.Table.{edges_of};
ghost use Rattle.ms_test_functions.specs.Together.{IsTogether};

use crate::graph::{P, flow_of, form_of, function, is_conditional, load, put, store, take};
use ms_flow::Flow;
use ms_form::{Access, Form};
use ms_ir::{BlockNo, Func, Inst, InstNo, Name, Steps, Val};
use ms_update::{drop_edge, insert, remove, shift};
use std::alloc::Global;
use std::process::Abort;

// The form of a function.
fn begin(rt: &impl Abort, alloc: Global, f: &Func, flow: &Flow) -> Form
    requires graph { flow.now.graph ≡ edges_of f.now.blocks }
    requires closed { IsClosed (graph_of f.now.blocks) }
    ensures { IsTogether f.now flow.now result }
{
    form_of(rt, alloc, f, flow)
}

// What leaves a block that is entered.
fn leaving(rt: &impl Abort, form: &Form, b: BlockNo) -> Access {
    assert!(rt; form.entering(b).is_some());
    form.leaving(b)
}

// Expects two forms to say the same of a block.
fn expect_block(rt: &impl Abort, flow: &Flow, form: &Form, fresh: &Form, b: BlockNo)
    requires { b.0 < length flow.now.graph }
{
    assert!(rt; form.phi_at(b) == fresh.phi_at(b));
    assert!(rt; form.entering(b) == fresh.entering(b));
    for slot in 0..flow.pred_count(b) {
        assert!(rt; form.operand(b, slot) == fresh.operand(b, slot));
    }
    if flow.reached(b) {
        assert!(rt; leaving(rt, form, b) == leaving(rt, fresh, b));
    }
}

// Expects a form to be the one that is built afresh.
fn expect_fresh(rt: &impl Abort, alloc: Global, f: &Func, flow: &Flow, form: &Form)
    requires { IsTogether f.now flow.now form.now }
{
    let fresh = form_of(rt, alloc, f, flow);
    for b in 0..flow.block_count() {
        expect_block(rt, flow, form, &fresh, BlockNo(b));
    }
    for i in 0..f.made() {
        assert!(rt; form.defining(InstNo(i)) == fresh.defining(InstNo(i)));
    }
}

// Makes room in a form for one more instruction.
fn room_in(rt: &impl Abort, form: &mut Form)
    ensures { form.new ≡ record form.old { spare = max form.old.spare 1 } }
{
    assert!(rt; form.reserve(1).is_ok());
}

// Makes room for one more instruction.
fn make_room(rt: &impl Abort, f: &mut Func, flow: &Flow, form: &mut Form)
    requires { IsTogether f.old flow.now form.old }
    ensures together { IsTogether f.new flow.now form.new }
    ensures func { 1 ≤ f.new.spare }
    ensures form { 1 ≤ form.new.spare }
{
    assert!(rt; f.reserve(1).is_ok());
    room_in(rt, form);
}

// Puts an instruction at a place of a block.
fn put_with(
    rt: &impl Abort,
    f: &mut Func,
    flow: &Flow,
    form: &mut Form,
    b: BlockNo,
    place: u32,
    inst: Inst,
    steps: &mut Steps,
) -> InstNo
    requires { IsTogether f.old flow.now form.old }
    ensures { IsTogether f.new flow.now form.new }
{
    ms_update::laws::without_told();
    make_room(rt, f, flow, form);
    f.numbered();
    assert!(rt; f.made() < u32::MAX);
    assert!(rt; b.0 < f.block_count());
    assert!(rt; place <= f.count(b));
    let i = f.put_inst(b, place, inst, Name::Absent);
    assert!(rt; f.place_of(i).is_some());
    insert(form, f, flow, i, steps);
    i
}

// Takes an instruction out.
fn take_with(
    rt: &impl Abort,
    f: &mut Func,
    flow: &Flow,
    form: &mut Form,
    i: InstNo,
    steps: &mut Steps,
)
    requires { IsTogether f.old flow.now form.old }
    ensures { IsTogether f.new flow.now form.new }
{
    ms_update::laws::without_told();
    f.numbered();
    assert!(rt; f.place_of(i).is_some());
    remove(form, f, flow, i, steps);
    take(rt, f, i);
}

// Puts an instruction first in a block.
fn shift_with(
    rt: &impl Abort,
    f: &mut Func,
    flow: &Flow,
    form: &mut Form,
    i: InstNo,
    b: BlockNo,
    steps: &mut Steps,
)
    requires { IsTogether f.old flow.now form.old }
    ensures { IsTogether f.new flow.now form.new }
{
    ms_update::laws::without_told();
    assert!(rt; b.0 < f.block_count());
    assert!(rt; f.place_of(i).is_some());
    shift(form, f, flow, i, b, 0, steps);
}

// A function with a store and a load in blocks of these lists.
fn accessed(
    rt: &impl Abort,
    alloc: Global,
    shape: &[&[u32]],
    stores: &[u32],
    loads: &[u32],
) -> Func {
    let mut f = function(rt, alloc, shape);
    for k in 0..stores.len() {
        put(rt, &mut f, stores[k], store(alloc, Val::Local(P), 7));
    }
    for k in 0..loads.len() {
        put(rt, &mut f, loads[k], load(alloc, Val::Local(P)));
    }
    f
}

// Puts a store at the end of a block, then first in another one, and takes it out. Expects how many edges were read after each of
// the first two.
fn edit(
    rt: &impl Abort,
    alloc: Global,
    f: &mut Func,
    flow: &Flow,
    blocks: (u32, u32),
    reads: (u64, u64),
)
    requires graph { flow.now.graph ≡ edges_of f.old.blocks }
    requires closed { IsClosed (graph_of f.old.blocks) }
{
    let mut form = begin(rt, alloc, f, flow);
    let mut steps = Steps::new(alloc).ok().expect(rt, "memory");
    let (at, to) = blocks;
    assert!(rt; at < f.block_count());
    let place = f.count(BlockNo(at));
    let inst = store(alloc, Val::Local(P), 7);
    let i = put_with(rt, f, flow, &mut form, BlockNo(at), place, inst, &mut steps);
    expect_fresh(rt, alloc, f, flow, &form);
    assert_eq!(rt; steps.count(), reads.0);
    shift_with(rt, f, flow, &mut form, i, BlockNo(to), &mut steps);
    expect_fresh(rt, alloc, f, flow, &form);
    assert_eq!(rt; steps.count(), reads.1);
    take_with(rt, f, flow, &mut form, i, &mut steps);
    expect_fresh(rt, alloc, f, flow, &form);
    assert_eq!(rt; steps.count(), reads.1);
}

// The same of a function with these blocks.
fn edit_of(
    rt: &impl Abort,
    alloc: Global,
    shape: &[&[u32]],
    stores: &[u32],
    loads: &[u32],
    blocks: (u32, u32),
    reads: (u64, u64),
) {
    let mut f = accessed(rt, alloc, shape, stores, loads);
    let flow = flow_of(rt, alloc, &f);
    edit(rt, alloc, &mut f, &flow, blocks, reads);
}

// On one arm of a diamond: one edge leaves 1, two lead to 3, and none leaves that. On the other arm 3 has its phi still.
#[test]
fn arms(rt: HostRuntime) {
    edit_of(
        &rt,
        rt.alloc(),
        &[&[1, 2], &[3], &[3], &[]],
        &[0, 0],
        &[3, 3],
        (1, 2),
        (3, 4),
    );
}

// In a loop in a loop: two edges leave 2; what enters 2 meets its Def; one edge leads to 3 and two leave it, two lead to 1 and one
// leaves it, one leads to 4. From the entry block on there is one edge to read.
#[test]
fn loops(rt: HostRuntime) {
    edit_of(
        &rt,
        rt.alloc(),
        &[&[1], &[2], &[2, 3], &[1, 4], &[]],
        &[],
        &[4, 1, 0],
        (2, 0),
        (11, 12),
    );
}

// In a block that is not reached, and then in one that is.
#[test]
fn unreached(rt: HostRuntime) {
    edit_of(
        &rt,
        rt.alloc(),
        &[&[2], &[2], &[]],
        &[0],
        &[2],
        (1, 1),
        (0, 0),
    );
}

// A diamond in a loop, and a block that is not reached: four Defs and four Uses.
fn small(rt: &impl Abort, alloc: Global) -> Func {
    accessed(
        rt,
        alloc,
        &[&[1], &[2, 3], &[4], &[4], &[1, 5], &[], &[5]],
        &[0, 2, 2, 6],
        &[1, 2, 4, 5],
    )
}

// Puts a store at a place, and takes it out again.
fn put_and_take(
    rt: &impl Abort,
    alloc: Global,
    f: &mut Func,
    flow: &Flow,
    form: &mut Form,
    b: BlockNo,
    place: u32,
    steps: &mut Steps,
)
    requires { IsTogether f.old flow.now form.old }
    ensures { IsTogether f.new flow.now form.new }
{
    let inst = store(alloc, Val::Local(P), 7);
    let i = put_with(rt, f, flow, form, b, place, inst, steps);
    expect_fresh(rt, alloc, f, flow, form);
    take_with(rt, f, flow, form, i, steps);
    expect_fresh(rt, alloc, f, flow, form);
}

// The same at each place of a block.
fn put_and_take_in(
    rt: &impl Abort,
    alloc: Global,
    f: &mut Func,
    flow: &Flow,
    form: &mut Form,
    b: BlockNo,
    steps: &mut Steps,
)
    requires { IsTogether f.old flow.now form.old }
    ensures { IsTogether f.new flow.now form.new }
{
    assert!(rt; b.0 < f.block_count());
    let count = f.count(b);
    for place in 0..count {
        put_and_take(rt, alloc, f, flow, form, b, place, steps);
    }
    put_and_take(rt, alloc, f, flow, form, b, count, steps);
}

// The same in each block.
fn put_and_take_everywhere(
    rt: &impl Abort,
    alloc: Global,
    f: &mut Func,
    flow: &Flow,
    form: &mut Form,
)
    requires { IsTogether f.old flow.now form.old }
{
    let mut steps = Steps::new(alloc).ok().expect(rt, "memory");
    for b in 0..flow.block_count() {
        put_and_take_in(rt, alloc, f, flow, form, BlockNo(b), &mut steps);
    }
}

#[test]
fn every_insert(rt: HostRuntime) {
    let alloc = rt.alloc();
    ms_update::laws::one_cost();
    let mut f = small(&rt, alloc);
    let flow = flow_of(&rt, alloc, &f);
    let mut form = begin(&rt, alloc, &f, &flow);
    put_and_take_everywhere(&rt, alloc, &mut f, &flow, &mut form);
    assert_eq!(&rt; f.made(), 8 + 15);
}

// Takes one instruction out of the function.
fn take_one(rt: &impl Abort, alloc: Global, i: InstNo) {
    let mut f = small(rt, alloc);
    let flow = flow_of(rt, alloc, &f);
    let mut form = begin(rt, alloc, &f, &flow);
    let mut steps = Steps::new(alloc).ok().expect(rt, "memory");
    take_with(rt, &mut f, &flow, &mut form, i, &mut steps);
    expect_fresh(rt, alloc, &f, &flow, &form);
    assert_eq!(rt; steps.count(), 0);
}

#[test]
fn every_remove(rt: HostRuntime) {
    for i in 0..8 {
        take_one(&rt, rt.alloc(), InstNo(i));
    }
}

// Cuts the edge at a slot of a block.
fn cut_with(
    rt: &impl Abort,
    alloc: Global,
    f: &mut Func,
    flow: &mut Flow,
    form: &mut Form,
    b: BlockNo,
    slot: u32,
    steps: &mut Steps,
)
    requires { IsTogether f.old flow.old form.old }
    ensures { IsTogether f.new flow.new form.new }
{
    let mut asked = Steps::new(alloc).ok().expect(rt, "memory");
    assert!(rt; slot < 2);
    assert!(rt; b.0 < f.block_count());
    assert!(rt; is_conditional(f, b, &mut asked));
    drop_edge(form, f, flow, b, slot, steps);
}

// Cuts an edge of a function with blocks of this shape, and expects how many edges are left.
fn cut_of(
    rt: &impl Abort,
    alloc: Global,
    shape: &[&[u32]],
    stores: &[u32],
    loads: &[u32],
    edge: (u32, u32),
    left: u64,
) {
    let mut f = accessed(rt, alloc, shape, stores, loads);
    let mut flow = flow_of(rt, alloc, &f);
    let mut form = begin(rt, alloc, &f, &flow);
    let mut steps = Steps::new(alloc).ok().expect(rt, "memory");
    let (b, slot) = edge;
    cut_with(
        rt,
        alloc,
        &mut f,
        &mut flow,
        &mut form,
        BlockNo(b),
        slot,
        &mut steps,
    );
    expect_fresh(rt, alloc, &f, &flow, &form);
    assert_eq!(rt; steps.count(), left);
}

// An edge of a block with two to one block; the way back of a loop; a block that is reached no longer, whose phi has users; an edge of a
// block that is not reached; and an arm of a diamond in a loop.
#[test]
fn edges_are_cut(rt: HostRuntime) {
    let alloc = rt.alloc();
    let twice: &[&[u32]] = &[&[1], &[2, 3], &[1, 1], &[]];
    cut_of(&rt, alloc, twice, &[0, 2], &[1, 3], (2, 0), 4);
    cut_of(&rt, alloc, twice, &[0, 2], &[1, 3], (1, 0), 2);
    let lost: &[&[u32]] = &[&[1, 4], &[2, 3], &[3], &[4], &[]];
    cut_of(&rt, alloc, lost, &[2], &[3, 4], (0, 0), 1);
    let apart: &[&[u32]] = &[&[2], &[2, 2], &[]];
    cut_of(&rt, alloc, apart, &[0, 1], &[2], (1, 1), 1);
    let looped: &[&[u32]] = &[&[1], &[2, 3], &[4], &[4], &[1, 5], &[]];
    cut_of(&rt, alloc, looped, &[0, 2], &[1, 4, 5], (4, 0), 6);
    cut_of(&rt, alloc, looped, &[0, 2], &[1, 4, 5], (1, 1), 5);
}
