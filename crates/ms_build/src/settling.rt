// Trivial phis are taken out until none is left.
ghost use Rattle.std.specs.Prelude.{◌≡◌, ◌≢◌, ◌<◌, ◌≤◌, ◌⊎◌, ℕ, [], length, MatchOption, Some, None, slice_get, slice_index_or};
ghost use Rattle.ms_paths.specs.Flow.{IsClosed};
ghost use Rattle.ms_flow.specs.Flow.{sources_of};
ghost use Rattle.ms_form.specs.Form.{HasEntry, HasList, HasPlaces, KeepsPlaces};
ghost use Rattle.ms_form.specs.Counts.{pred_counts};
ghost use Rattle.ms_build.specs.Accesses.{has_phi, operand_at};
ghost use Rattle.ms_build.specs.Consistent.{IsConsistent};
ghost use Rattle.ms_build.specs.Settled.{IsTrivial, NoTrivial, IsSettled};
ghost use Rattle.ms_build.specs.Changes.{IsChanged, IsAwaited, IsOut, IsTried, HasOther, Waits, emptied, all_replaced, waiting_for};

use crate::change::{link, same_access, unlink};
use ms_flow::Flow;
use ms_form::{Access, Form, User};
use ms_ir::BlockNo;

/// Takes trivial phis out until none is left. It takes no memory.
///
/// A phi is trivial where its operands are only itself and one other access, which then takes its place; phis that used it
/// are tried again. So is that of a block that is not reached, to which no edge leads from a reached block: `Entry` takes its
/// place. What named a phi that was taken out names what enters its block now; its operands are cleared, and all else stays.
/// The form is one of the flow's function, and consistent; it is so afterwards.
pub fn settle(form: &mut Form, flow: &Flow)
    requires closed { IsClosed flow.now.graph }
    requires places { HasPlaces (pred_counts flow.now) 0 form.old }
    requires consistent { IsConsistent flow.now.graph form.old }
    ensures none_trivial { NoTrivial flow.now.graph form.new }
    ensures consistent { IsConsistent flow.now.graph form.new }
    ensures settled { IsSettled form.old form.new }
    ensures waiting { form.new.waiting ≡ [] }
    ensures places { KeepsPlaces form.old form.new }
{
    await_all(form, flow.block_count());
    'settling: while let Some(b) = form.next_waiting() {
        try_out(form, flow, b);
        form.waits_once();
    }
}

// Every block waits.
fn await_all(form: &mut Form, blocks: u32)
    requires { blocks ≤ length form.old.phis }
    ensures same { form.new ≡ record form.old { waiting = form.new.waiting } }
    ensures all { (b : ℕ) → b < blocks → Waits form.new b }
    ensures places { KeepsPlaces form.old form.new }
{
    for b in 0..blocks {
        form.wait(BlockNo(b));
    }
}

// The phi of a block is taken out, if it is trivial.
fn try_out(form: &mut Form, flow: &Flow, b: BlockNo)
    requires closed { IsClosed flow.now.graph }
    requires places { HasPlaces (pred_counts flow.now) 0 form.old }
    requires consistent { IsConsistent flow.now.graph form.old }
    requires block { b.0 < length form.old.phis }
    ensures tried { IsTried flow.now.graph b form.old form.new }
    ensures places { KeepsPlaces form.old form.new }
{
    if !form.phi_at(b) {
        return;
    }
    ms_flow::laws::sources_told();
    if let Some(a) = only_other(form, flow, b) {
        take_out(form, b, a);
    }
}

// The one access among the operands of a block besides its own phi, which are one for each edge to it from a reached block.
// Entry where there is no such edge. None where there is another access or an empty operand.
fn only_other(form: &Form, flow: &Flow, b: BlockNo) -> Option<Access>
    requires block { b.0 < length flow.now.graph }
    requires other { 1 ≤ length (sources_of flow.now.graph b.0) → HasOther flow.now.graph form.now b }
    ensures { MatchOption result ((a : Access) → IsTrivial flow.now.graph form.now b.0 a → ⊥)
        (λ a. IsTrivial flow.now.graph form.now b.0 a × (a ≢ Access.Phi b) × HasList form.now a) }
{
    let edges = flow.pred_count(b);
    if edges == 0 {
        return Some(Access::Entry);
    }
    form.uses();
    let mut other = if b.0 == 0 { Some(Access::Entry) } else { None };
    for slot in 0..edges {
        let operand = form.operand(b, slot)?;
        if !same_access(operand, Access::Phi(b)) {
            match other {
                None => other = Some(operand),
                Some(a) => {
                    if !same_access(a, operand) {
                        return None;
                    }
                }
            }
        }
    }
    other
}

// The phi of a block is taken out, with an access in its place.
fn take_out(form: &mut Form, b: BlockNo, a: Access)
    requires block { b.0 < length form.old.phis }
    requires access { HasList form.old a }
    requires other { a ≢ Access.Phi b }
    ensures out { IsOut b a form.old form.new }
    ensures places { KeepsPlaces form.old form.new }
{
    form.set_phi(b, false);
    empty_operands(form, b);
    replace_phi(form, b, a);
    link(form, User::Entering(b), a);
}

fn empty_operands(form: &mut Form, b: BlockNo)
    ensures changed { IsChanged (emptied b) form.old form.new }
    ensures waiting { form.new.waiting ≡ form.old.waiting }
{
    for slot in 0..form.slots(b) {
        unlink(form, User::Operand(b, slot));
    }
}

// What names the phi of a block names another access from now on. Blocks whose operands did wait.
fn replace_phi(form: &mut Form, b: BlockNo, a: Access)
    requires block { b.0 < length form.old.phis }
    requires access { HasList form.old a }
    requires other { a ≢ Access.Phi b }
    ensures changed { IsChanged (all_replaced b a) form.old form.new }
    ensures awaited { IsAwaited b form.old form.new }
{
    form.uses();
    'users: while let Some(u) = form.first_use(Access::Phi(b)) {
        wait_for(form, u);
        link(form, u, a);
        form.uses();
    }
}

fn wait_for(form: &mut Form, u: User)
    requires { HasEntry form.old u }
    ensures wait { form.new ≡ record form.old { waiting = waiting_for u form.old.waiting } }
    ensures places { KeepsPlaces form.old form.new }
{
    form.uses();
    if let User::Operand(c, _) = u {
        form.wait(c);
    }
}
