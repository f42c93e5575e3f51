// Memory forms as they are built, by shape and the blocks that store.
use crate::graph::{P, flow_of, form_of, function, put, store};
use ms_form::{Access, Form};
use ms_ir::{BlockNo, InstNo, Val};
use std::alloc::Global;
use std::process::Abort;

// The form of a function with stores in these blocks.
fn stored(rt: &impl Abort, alloc: Global, shape: &[&[u32]], stores: &[u32]) -> Form {
    let mut func = function(rt, alloc, shape);
    for k in 0..stores.len() {
        put(rt, &mut func, stores[k], store(alloc, Val::Local(P), 7));
    }
    let flow = flow_of(rt, alloc, &func);
    form_of(rt, alloc, &func, &flow)
}

const STORE: Access = Access::Of(InstNo(0));

// A store on one arm: what comes from the arms differs.
#[test]
fn diamond(rt: HostRuntime) {
    let form = stored(&rt, rt.alloc(), &[&[1, 2], &[3], &[3], &[]], &[1]);
    let join = BlockNo(3);
    assert!(&rt; !form.phi_at(BlockNo(1)));
    assert!(&rt; form.phi_at(join));
    assert!(&rt; form.operand(join, 0) == Some(STORE));
    assert!(&rt; form.operand(join, 1) == Some(Access::Entry));
    assert!(&rt; form.entering(BlockNo(2)) == Some(Access::Entry));
    assert!(&rt; form.defining(InstNo(0)) == Some(Access::Entry));
}

// A store before a loop and none in it: the phi that its head gets at first is taken out.
#[test]
fn loop_without_a_store(rt: HostRuntime) {
    let form = stored(&rt, rt.alloc(), &[&[1], &[1, 2], &[]], &[0]);
    assert!(&rt; !form.phi_at(BlockNo(1)));
    assert!(&rt; form.entering(BlockNo(1)) == Some(STORE));
    assert!(&rt; form.entering(BlockNo(2)) == Some(STORE));
}

// Both targets of a branch are one block, and a block that is not reached leads there too.
#[test]
fn both_to_one(rt: HostRuntime) {
    let form = stored(&rt, rt.alloc(), &[&[1, 1], &[], &[1]], &[0, 2]);
    assert!(&rt; !form.phi_at(BlockNo(1)));
    assert!(&rt; form.entering(BlockNo(1)) == Some(STORE));
    assert!(&rt; form.entering(BlockNo(2)).is_none());
    assert!(&rt; form.defining(InstNo(1)).is_none());
}
