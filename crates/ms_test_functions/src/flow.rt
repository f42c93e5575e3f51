// Flow graphs, by shape.
use crate::graph::{flow_of, function};
use ms_flow::Flow;
use ms_ir::{BlockNo, Steps};
use std::alloc::Global;
use std::process::Abort;

// What is wanted of a graph.
#[derive(Drop)]
struct Want<'a> {
    order: &'a [Option<u32>],
    cyclic: &'a [bool],
    reducible: bool,
    // for each block the edges to it, as the block that each leaves and the slot there
    preds: &'a [&'a [(u32, u32)]],
    // pairs h, b where every path to b passes h, and pairs where not
    cuts: &'a [(u32, u32)],
    passes: &'a [(u32, u32)],
}

// Checks the targets of a reached block, and that each edge is found from both ends.
fn check_succs(rt: &impl Abort, flow: &Flow, b: u32, targets: &[u32], steps: &mut Steps) {
    let block = BlockNo(b);
    assert!(rt; b < flow.block_count());
    assert!(rt; flow.reached(block));
    assert_eq!(rt; flow.succ_count(block) as usize, targets.len());
    for slot in 0..flow.succ_count(block) {
        let edge = flow.succ(block, slot, steps);
        assert_eq!(rt; edge.from.0, b);
        assert_eq!(rt; edge.to.0, targets[slot as usize]);
        assert_eq!(rt; edge.out_slot, slot);
        assert!(rt; edge.to.0 < flow.block_count());
        assert!(rt; flow.reached(edge.to));
        assert!(rt; edge.in_slot < flow.pred_count(edge.to));
        let same = flow.pred(edge.to, edge.in_slot, steps);
        assert_eq!(rt; same.from.0, b);
        assert_eq!(rt; same.to.0, edge.to.0);
        assert_eq!(rt; same.out_slot, slot);
        assert_eq!(rt; same.in_slot, edge.in_slot);
    }
}

// Checks the edges to a reached block.
fn check_preds(rt: &impl Abort, flow: &Flow, b: u32, preds: &[(u32, u32)], steps: &mut Steps) {
    let block = BlockNo(b);
    assert!(rt; b < flow.block_count());
    assert_eq!(rt; flow.pred_count(block) as usize, preds.len());
    if flow.reached(block) {
        for slot in 0..flow.pred_count(block) {
            let edge = flow.pred(block, slot, steps);
            assert_eq!(rt; edge.from.0, preds[slot as usize].0);
            assert_eq!(rt; edge.out_slot, preds[slot as usize].1);
        }
    }
}

// Checks which blocks cut off which.
fn check_cuts(rt: &impl Abort, flow: &mut Flow, pairs: &[(u32, u32)], want: bool) {
    for k in 0..pairs.len() {
        let (h, b) = pairs[k];
        assert!(rt; h < flow.block_count());
        assert!(rt; b < flow.block_count());
        assert_eq!(rt; flow.cuts(BlockNo(h), BlockNo(b)), want, "{h} and {b}");
    }
}

// The same for all blocks at once.
fn check_behind(rt: &impl Abort, alloc: Global, flow: &Flow, pairs: &[(u32, u32)], want: bool) {
    for k in 0..pairs.len() {
        let (h, b) = pairs[k];
        assert!(rt; h < flow.block_count());
        let behind = flow.behind(alloc, BlockNo(h)).ok().expect(rt, "memory");
        assert!(rt; (b as usize) < behind.len());
        assert_eq!(rt; behind[b as usize], want, "{h} and {b}");
    }
}

fn check(rt: &impl Abort, alloc: Global, shape: &[&[u32]], want: &Want) {
    let func = function(rt, alloc, shape);
    let mut flow = flow_of(rt, alloc, &func);
    let mut steps = Steps::new(alloc).ok().expect(rt, "memory");
    assert_eq!(rt; flow.block_count() as usize, shape.len());
    assert_eq!(rt; want.order.len(), shape.len());
    assert_eq!(rt; want.cyclic.len(), shape.len());
    assert_eq!(rt; want.preds.len(), shape.len());
    assert_eq!(rt; flow.reducible(), want.reducible);
    for b in 0..flow.block_count() {
        let block = BlockNo(b);
        let place = want.order[b as usize];
        assert_eq!(rt; flow.order(block), place, "order of {b}");
        assert_eq!(rt; flow.reached(block), place.is_some(), "reached {b}");
        assert_eq!(rt;
            flow.on_cycle(block),
            want.cyclic[b as usize],
            "cycle at {b}"
        );
        let before = steps.count();
        let mut calls = 0;
        if place.is_some() {
            check_succs(rt, &flow, b, shape[b as usize], &mut steps);
            let targets = shape[b as usize].len();
            calls = targets
                .saturating_add(targets)
                .saturating_add(want.preds[b as usize].len());
        }
        check_preds(rt, &flow, b, want.preds[b as usize], &mut steps);
        assert_eq!(rt;
            steps.count(),
            before.saturating_add(calls as u64),
            "steps at {b}"
        );
    }
    check_cuts(rt, &mut flow, want.cuts, true);
    check_cuts(rt, &mut flow, want.passes, false);
    check_behind(rt, alloc, &flow, want.cuts, true);
    check_behind(rt, alloc, &flow, want.passes, false);
}

#[test]
fn diamond(rt: HostRuntime) {
    let want = Want {
        order: &[Some(0), Some(2), Some(1), Some(3)],
        cyclic: &[false, false, false, false],
        reducible: true,
        preds: &[&[], &[(0, 0)], &[(0, 1)], &[(1, 0), (2, 0)]],
        cuts: &[(0, 0), (0, 3), (3, 3), (2, 2)],
        passes: &[(1, 3), (2, 3), (3, 1), (1, 0)],
    };
    check(&rt, rt.alloc(), &[&[1, 2], &[3], &[3], &[]], &want);
}

#[test]
fn loops(rt: HostRuntime) {
    let alone = Want {
        order: &[Some(0), Some(1), Some(2)],
        cyclic: &[false, true, false],
        reducible: true,
        preds: &[&[], &[(0, 0), (1, 0)], &[(1, 1)]],
        cuts: &[(1, 2), (1, 1)],
        passes: &[(2, 1)],
    };
    check(&rt, rt.alloc(), &[&[1], &[1, 2], &[]], &alone);
    let nested = Want {
        order: &[Some(0), Some(1), Some(3), Some(5), Some(4), Some(2)],
        cyclic: &[false, true, true, true, true, false],
        reducible: true,
        preds: &[
            &[],
            &[(0, 0), (4, 0)],
            &[(1, 0), (3, 0)],
            &[(2, 0)],
            &[(2, 1)],
            &[(1, 1)],
        ],
        cuts: &[(2, 3), (1, 4), (1, 5)],
        passes: &[(3, 4), (4, 1), (2, 5)],
    };
    let shape: [&[u32]; 6] = [&[1], &[2, 5], &[3, 4], &[2], &[1], &[]];
    check(&rt, rt.alloc(), &shape, &nested);
    let entry = Want {
        order: &[Some(0), Some(1)],
        cyclic: &[true, false],
        reducible: true,
        preds: &[&[(0, 0)], &[(0, 1)]],
        cuts: &[(0, 1)],
        passes: &[(1, 0)],
    };
    check(&rt, rt.alloc(), &[&[0, 1], &[]], &entry);
}

#[test]
fn two_edges_to_one_block(rt: HostRuntime) {
    let want = Want {
        order: &[Some(0), Some(1)],
        cyclic: &[false, false],
        reducible: true,
        preds: &[&[], &[(0, 0), (0, 1)]],
        cuts: &[(0, 1)],
        passes: &[(1, 0)],
    };
    check(&rt, rt.alloc(), &[&[1, 1], &[]], &want);
}

#[test]
fn unreached(rt: HostRuntime) {
    let want = Want {
        order: &[Some(0), Some(1), None, None],
        cyclic: &[false, false, false, false],
        reducible: true,
        preds: &[&[], &[(0, 0)], &[], &[]],
        cuts: &[(1, 2), (3, 2), (2, 2), (0, 3)],
        passes: &[(2, 1), (3, 0)],
    };
    check(&rt, rt.alloc(), &[&[1], &[], &[1, 3], &[3]], &want);
}

#[test]
fn two_entries(rt: HostRuntime) {
    let want = Want {
        order: &[Some(0), Some(1), Some(2), Some(3)],
        cyclic: &[false, true, true, false],
        reducible: false,
        preds: &[&[], &[(0, 0), (2, 0)], &[(0, 1), (1, 0)], &[(1, 1), (2, 1)]],
        cuts: &[(0, 3)],
        passes: &[(1, 2), (2, 1), (1, 3)],
    };
    check(&rt, rt.alloc(), &[&[1, 2], &[2, 3], &[1, 3], &[]], &want);
}

// Cuts an edge of a graph, and expects how many are left and where those to a block stood.
fn cut(
    rt: &impl Abort,
    alloc: Global,
    shape: &[&[u32]],
    edge: (u32, u32),
    left: u64,
    to: u32,
    stood: &[(u32, u32, u32)],
) {
    let func = function(rt, alloc, shape);
    let mut flow = flow_of(rt, alloc, &func);
    let mut steps = Steps::new(alloc).ok().expect(rt, "memory");
    let (b, slot) = edge;
    assert!(rt; b < flow.block_count());
    assert_eq!(rt; flow.succ_count(BlockNo(b)), 2);
    assert!(rt; slot < 2);
    flow.drop_edge(BlockNo(b), slot, &mut steps);
    assert_eq!(rt; steps.count(), left);
    assert_eq!(rt; flow.succ_count(BlockNo(b)), 1);
    assert!(rt; to < flow.block_count());
    assert!(rt; flow.reached(BlockNo(to)));
    assert_eq!(rt; flow.pred_count(BlockNo(to)) as usize, stood.len());
    for k in 0..flow.pred_count(BlockNo(to)) {
        let edge = flow.pred(BlockNo(to), k, &mut steps);
        let before = flow.slot_before(BlockNo(to), k);
        assert!(rt; (edge.from.0, edge.out_slot, before) == stood[k as usize]);
    }
}

// The edges to a block that are left, each with its place before: a block with two edges to it loses one; a loop its way back; and in a
// graph that was not reducible.
#[test]
fn edges_stood_before(rt: HostRuntime) {
    let alloc = rt.alloc();
    let page: &[&[u32]] = &[&[1], &[2, 3], &[1, 1], &[], &[1]];
    cut(&rt, alloc, page, (2, 0), 4, 1, &[(0, 0, 0), (2, 0, 2)]);
    cut(&rt, alloc, page, (1, 0), 2, 1, &[(0, 0, 0)]);
    let knot: &[&[u32]] = &[&[1, 2], &[2], &[1, 3], &[]];
    cut(&rt, alloc, knot, (0, 0), 4, 2, &[(0, 0, 0), (1, 0, 1)]);
}
