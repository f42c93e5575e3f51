// The search for one Def of a function, in a loop with two arms.
ghost use Rattle.std.specs.Prelude.{◌≡◌, ◌&&◌, ◌==◌, false};
ghost use Rattle.ms_paths.specs.Flow.{IsClosed, IsReducible};
ghost use Rattle.ms_ir.specs.Graph.{graph_of, defs_of, is_def};
ghost use Rattle.ms_flow.specs.Table.{edges_of};
ghost use Rattle.ms_build.specs.Built.{IsFormOf};

use crate::graph::{P, alloca, flow_of, form_of, function, put, put_at, store};
use ms_build::Formed;
use ms_climb::{Writes, last_at_end, last_before};
use ms_flow::Flow;
use ms_form::{Access, Form};
use ms_ir::{BlockNo, Func, InstNo, Kind, Name, Val, kind_of};
use std::alloc::Global;
use std::cell::Cell;
use std::process::Abort;

fn writes(kind: Kind) -> bool
    ensures { result ≡ is_def kind }
{
    match kind {
        Kind::Def => true,
        Kind::Reads | Kind::Neither => false,
    }
}

// Whether an instruction is a Def.
fn is_def_of(func: &Func, i: InstNo) -> bool
    ensures { result ≡ defs_of func.now.blocks i.0 }
{
    func.numbered();
    match func.inst(i) {
        Some(inst) => writes(kind_of(inst)),
        None => false,
    }
}

// One Def of a function, none if the number is that of another instruction.
#[derive(Drop)]
struct Only<'a> {
    func: &'a Func,
    number: u32,
}

impl<'a> Writes for Only<'a> {
    ghost test = { λ s i. (i == s.number) && defs_of s.func.now.blocks i };

    fn writes(&self, i: InstNo) -> bool {
        i.0 == self.number && is_def_of(self.func, i)
    }
}

// The last Def of this number at the end of a block.
fn at_end(
    rt: &impl Abort,
    alloc: Global,
    func: &Func,
    flow: &Flow,
    form: &Form,
    number: u32,
    b: u32,
) -> Access
    requires graph { flow.now.graph ≡ edges_of func.now.blocks }
    requires closed { IsClosed (graph_of func.now.blocks) }
    requires reducible { IsReducible flow.now.graph }
    requires form { IsFormOf func.now form.now }
{
    ms_flow::laws::same_paths();
    assert!(rt; b < flow.block_count());
    assert!(rt; flow.reached(BlockNo(b)));
    let counted = Only { func, number };
    let formed = Formed { func, flow, form };
    let found = last_at_end(alloc, &formed, &counted, BlockNo(b));
    found.ok().expect(rt, "memory")
}

// The same before an instruction.
fn before(
    rt: &impl Abort,
    alloc: Global,
    func: &Func,
    flow: &Flow,
    form: &Form,
    number: u32,
    i: u32,
) -> Access
    requires graph { flow.now.graph ≡ edges_of func.now.blocks }
    requires closed { IsClosed (graph_of func.now.blocks) }
    requires reducible { IsReducible flow.now.graph }
    requires form { IsFormOf func.now form.now }
{
    ms_flow::laws::same_paths();
    let (b, _) = func.place_of(InstNo(i)).expect(rt, "the instruction");
    assert!(rt; b.0 < flow.block_count());
    assert!(rt; flow.reached(b));
    let counted = Only { func, number };
    let formed = Formed { func, flow, form };
    let found = last_before(alloc, &formed, &counted, InstNo(i));
    found.ok().expect(rt, "memory")
}

// A loop with two arms, a store in each, and a store before it. The form has phis at the head, 1, and where the arms join, 5. In
// block 4 the store stands before an alloca of a lower number.
fn arms(rt: &impl Abort, alloc: Global) -> Func {
    let shape: [&[u32]; 7] = [&[1], &[2, 6], &[3, 4], &[5], &[5], &[1], &[]];
    let mut func = function(rt, alloc, &shape);
    put(rt, &mut func, 0, store(alloc, Val::Local(P), 7));
    put(rt, &mut func, 3, store(alloc, Val::Local(P), 7));
    put(rt, &mut func, 4, alloca(alloc, 4));
    let last = store(alloc, Val::Local(P), 7);
    put_at(rt, &mut func, BlockNo(4), 0, last, Name::Absent);
    func
}

fn answers(rt: &impl Abort, alloc: Global, func: &Func, flow: &Flow, form: &Form)
    requires graph { flow.now.graph ≡ edges_of func.now.blocks }
    requires closed { IsClosed (graph_of func.now.blocks) }
    requires reducible { IsReducible flow.now.graph }
    requires form { IsFormOf func.now form.now }
{
    let cases = [
        (0, 6, Access::Of(InstNo(0))),
        (1, 3, Access::Of(InstNo(1))),
        (1, 4, Access::Phi(BlockNo(1))),
        (1, 5, Access::Phi(BlockNo(5))),
        (1, 6, Access::Phi(BlockNo(1))),
        (9, 6, Access::Entry),
    ];
    for (number, block, answer) in cases {
        assert!(rt; at_end(rt, alloc, func, flow, form, number, block) == answer);
    }
    assert!(rt; before(rt, alloc, func, flow, form, 3, 2) == Access::Of(InstNo(3)));
    assert!(rt; before(rt, alloc, func, flow, form, 1, 2) == Access::Phi(BlockNo(1)));
    assert!(rt; before(rt, alloc, func, flow, form, 0, 3) == Access::Of(InstNo(0)));
}

#[test]
fn arms_in_a_loop(rt: HostRuntime) {
    let alloc = rt.alloc();
    let func = arms(&rt, alloc);
    let flow = flow_of(&rt, alloc, &func);
    let form = form_of(&rt, alloc, &func, &flow);
    answers(&rt, alloc, &func, &flow, &form);
}

// How often the search asked each instruction, by its number. None counts, so that the search goes on to the entry.
#[derive(Drop)]
struct Asked<'a> {
    times: &'a [Cell<u8>],
}

impl<'a> Writes for Asked<'a> {
    ghost test = { λ s i. false };

    fn writes(&self, i: InstNo) -> bool {
        if let Some(times) = self.times.get(i.0 as usize) {
            times.set(times.get().saturating_add(1));
        }
        false
    }
}

// How often one search from the end of a block asks each instruction.
fn times_asked(
    rt: &impl Abort,
    alloc: Global,
    func: &Func,
    flow: &Flow,
    form: &Form,
    b: u32,
) -> Vec<Cell<u8>>
    requires graph { flow.now.graph ≡ edges_of func.now.blocks }
    requires closed { IsClosed (graph_of func.now.blocks) }
    requires reducible { IsReducible flow.now.graph }
    requires form { IsFormOf func.now form.now }
{
    ms_flow::laws::same_paths();
    let times = Vec::from_elem(alloc, Cell::new(0), func.made() as usize);
    let times = times.ok().expect(rt, "memory");
    assert!(rt; b < flow.block_count());
    assert!(rt; flow.reached(BlockNo(b)));
    let counted = Asked { times: &times };
    let formed = Formed { func, flow, form };
    let found = last_at_end(alloc, &formed, &counted, BlockNo(b));
    assert!(rt; found.ok().expect(rt, "memory") == Access::Entry);
    times
}

// A loop with two arms, and so many stores behind it: each Def is asked once.
fn each_asked_once(rt: &impl Abort, alloc: Global, stores: u32) {
    let mut func = arms(rt, alloc);
    for _ in 0..stores {
        put(rt, &mut func, 6, store(alloc, Val::Local(P), 7));
    }
    let flow = flow_of(rt, alloc, &func);
    let form = form_of(rt, alloc, &func, &flow);
    let times = times_asked(rt, alloc, &func, &flow, &form, 6);
    for number in 0..func.made() {
        let asked = times.get(number as usize).expect(rt, "a number");
        let is_def = is_def_of(&func, InstNo(number));
        assert!(rt; asked.get() == u8::from(is_def));
    }
}

#[test]
fn each_def_is_asked_once(rt: HostRuntime) {
    let alloc = rt.alloc();
    for stores in [0, 3, 63, 64, 65, 100] {
        each_asked_once(&rt, alloc, stores);
    }
}
