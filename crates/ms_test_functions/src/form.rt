// Changes of a memory form, and what it answers after them.
ghost use Rattle.std.specs.Prelude.{[], ◌∷◌};
ghost use Rattle.ms_form.specs.Form.{HasPlaces, HasUser, HasAccess};
ghost use Rattle.ms_form.specs.Counts.{pred_counts};

use crate::graph::{flow_of, function};
use ms_flow::Flow;
use ms_form::{Access, Form, User};
use ms_ir::{BlockNo, InstNo};
use std::alloc::Global;
use std::process::Abort;

// An empty form with two instructions.
fn empty_of(rt: &impl Abort, alloc: Global, flow: &Flow) -> Form
    ensures { HasPlaces (pred_counts flow.now) 2 result }
{
    Form::empty(alloc, flow, 2).ok().expect(rt, "memory")
}

// The same of three blocks with 0, 2 and 1 slots.
fn empty_of_three(rt: &impl Abort, alloc: Global, flow: &Flow) -> Form
    ensures { HasPlaces (0 ∷ 2 ∷ 1 ∷ []) 2 result }
{
    assert!(rt; flow.block_count() == 3);
    assert!(rt; flow.pred_count(BlockNo(0)) == 0);
    assert!(rt; flow.pred_count(BlockNo(1)) == 2);
    assert!(rt; flow.pred_count(BlockNo(2)) == 1);
    empty_of(rt, alloc, flow)
}

// Tests that a form of three blocks with 0, 2 and 1 slots and two instructions has the place.
fn test_user(rt: &impl Abort, form: &Form, u: User)
    requires { HasPlaces (0 ∷ 2 ∷ 1 ∷ []) 2 form.now }
    ensures { HasUser form.now u }
{
    match u {
        User::Inst(i) => assert!(rt; i.0 < 2),
        User::Operand(b, slot) => {
            assert!(rt; b.0 == 1);
            assert!(rt; slot < 2);
        }
        User::Entering(b) => assert!(rt; b.0 < 3),
    }
}

fn test_access(rt: &impl Abort, form: &Form, a: Access)
    requires { HasPlaces (0 ∷ 2 ∷ 1 ∷ []) 2 form.now }
    ensures { HasAccess form.now a }
{
    match a {
        Access::Entry => {}
        Access::Of(i) => assert!(rt; i.0 < 2),
        Access::Phi(b) => assert!(rt; b.0 < 3),
    }
}

// Links a user to an access, or to none.
fn link_one(rt: &impl Abort, form: &mut Form, u: User, to: Option<Access>)
    requires { HasPlaces (0 ∷ 2 ∷ 1 ∷ []) 2 form.old }
    ensures { HasPlaces (0 ∷ 2 ∷ 1 ∷ []) 2 form.new }
{
    test_user(rt, form, u);
    if let Some(access) = to {
        test_access(rt, form, access);
        form.relink(u, access);
        return;
    }
    form.clear(u);
}

// Links each user to its access, or to none.
fn link_all(rt: &impl Abort, form: &mut Form, links: &[(User, Option<Access>)])
    requires { HasPlaces (0 ∷ 2 ∷ 1 ∷ []) 2 form.old }
    ensures { HasPlaces (0 ∷ 2 ∷ 1 ∷ []) 2 form.new }
{
    for k in 0..links.len() {
        let (u, to) = links[k];
        link_one(rt, form, u, to);
    }
}

// Checks the users of an access, in order.
fn check_users(rt: &impl Abort, form: &Form, access: Access, want: &[User]) {
    let mut user = form.first_use(access);
    for k in 0..want.len() {
        assert!(rt; user == Some(want[k]), "user {k}");
        user = form.next_use(want[k]);
    }
    assert!(rt; user.is_none());
}

// Makes the first instruction the last Def of the last block, and tells what leaves that block.
fn end_with_store(form: &mut Form) -> Access
    requires { HasPlaces (0 ∷ 2 ∷ 1 ∷ []) 2 form.old }
    ensures { HasPlaces (0 ∷ 2 ∷ 1 ∷ []) 2 form.new }
{
    form.uses();
    form.set_last(BlockNo(2), Some(InstNo(0)));
    form.leaving(BlockNo(2))
}

// Blocks wait in turn, each once.
fn check_waiting(rt: &impl Abort, form: &mut Form)
    requires { HasPlaces (0 ∷ 2 ∷ 1 ∷ []) 2 form.old }
    ensures { HasPlaces (0 ∷ 2 ∷ 1 ∷ []) 2 form.new }
{
    form.wait(BlockNo(2));
    form.wait(BlockNo(0));
    form.wait(BlockNo(2));
    form.waits_once();
    assert!(rt; form.next_waiting() == Some(BlockNo(0)));
    assert!(rt; form.next_waiting() == Some(BlockNo(2)));
    assert!(rt; form.next_waiting().is_none());
}

const STORE: User = User::Inst(InstNo(0));

const LOAD: User = User::Inst(InstNo(1));

const LEFT: User = User::Operand(BlockNo(1), 0);

const RIGHT: User = User::Operand(BlockNo(1), 1);

const BODY: User = User::Entering(BlockNo(2));

#[test]
fn a_small_form(rt: HostRuntime) {
    let (after, phi) = (Access::Of(InstNo(0)), Access::Phi(BlockNo(1)));
    let alloc = rt.alloc();
    let func = function(&rt, alloc, &[&[1], &[1, 2], &[]]);
    let flow = flow_of(&rt, alloc, &func);
    let mut form = empty_of_three(&rt, alloc, &flow);
    check_users(&rt, &form, Access::Entry, &[]);
    check_waiting(&rt, &mut form);
    let links = [
        (STORE, Some(Access::Entry)),
        (LEFT, Some(Access::Entry)),
        (BODY, Some(Access::Entry)),
        (RIGHT, Some(after)),
        (LOAD, Some(phi)),
    ];
    link_all(&rt, &mut form, &links);
    check_users(&rt, &form, Access::Entry, &[BODY, LEFT, STORE]);
    check_users(&rt, &form, after, &[RIGHT]);
    check_users(&rt, &form, phi, &[LOAD]);
    assert!(&rt; form.entering(BlockNo(2)) == Some(Access::Entry));
    link_all(
        &rt,
        &mut form,
        &[(LEFT, Some(phi)), (BODY, Some(phi)), (RIGHT, None)],
    );
    check_users(&rt, &form, Access::Entry, &[STORE]);
    check_users(&rt, &form, after, &[]);
    check_users(&rt, &form, phi, &[BODY, LEFT, LOAD]);
    form.set_phi(BlockNo(1), true);
    assert!(&rt; end_with_store(&mut form) == after);
    assert!(&rt; form.phi_at(BlockNo(1)));
    assert!(&rt; form.entering(BlockNo(1)) == Some(phi));
    assert!(&rt; form.operand(BlockNo(1), 0) == Some(phi));
    assert!(&rt; form.operand(BlockNo(1), 1).is_none());
    assert!(&rt; form.defining(InstNo(0)) == Some(Access::Entry));
    assert!(&rt; form.defining(InstNo(2)).is_none());
    assert_eq!(&rt; form.slots(BlockNo(1)), 2);
    assert_eq!(&rt; form.slots(BlockNo(3)), 0);
    assert!(&rt; form.reserve(1).is_ok());
}
