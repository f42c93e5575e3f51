// Reached blocks are entered in reverse postorder.
ghost use Rattle.std.specs.Prelude.{◌≡◌, ◌<◌, ℕ, IfOk, IfSome, MatchOption, length, slice_get, slice_index_or, Some, None};
ghost use Rattle.ms_paths.specs.Flow.{IsClosed, IsReached};
ghost use Rattle.ms_ir.specs.declared.names.InstNo.{InstNo};
ghost use Rattle.ms_form.specs.Form.{HasList, HasPlaces, KeepsPlaces};
ghost use Rattle.ms_form.specs.Counts.{pred_counts};
ghost use Rattle.ms_build.specs.Accesses.{entering_at};
ghost use Rattle.ms_build.specs.Entering.{IsLeaving, IsCommon, IsEntered, IsOrdered, AreLastsThere, AreEntered, IsBlank};

use crate::change::{link, same_access};
use ms_flow::Flow;
use ms_form::{Access, Form, User};
use ms_ir::{BlockNo, NoMemory, Steps};
use std::alloc::Global;

/// At each place of the reverse postorder its block.
pub fn in_order(alloc: Global, flow: &Flow) -> Result<Vec<Option<u32>>, NoMemory>
    requires { IsClosed flow.now.graph }
    ensures { IfOk result (λ v. IsOrdered flow.now.graph v.items) }
{
    ms_flow::laws::order_told();
    let mut blocks = Vec::from_elem(alloc, None, flow.block_count() as usize)?;
    for b in 0..flow.block_count() {
        if let Some(place) = flow.order(BlockNo(b)) {
            blocks[place as usize] = Some(b);
        }
    }
    Ok(blocks)
}

// The access that leaves a block, None where the block is not entered.
fn filled_leaving(form: &Form, x: BlockNo) -> Option<Access>
    requires { AreLastsThere form.now }
    ensures { MatchOption result (entering_at form.now x.0 ≡ None) (λ a. IsLeaving form.now x.0 a × HasList form.now a) }
{
    form.uses();
    match form.entering(x) {
        Some(_) => Some(form.leaving(x)),
        None => None,
    }
}

// The one access that comes over each edge to a block. None where there is none.
fn common_access(form: &Form, flow: &Flow, b: BlockNo, steps: &mut Steps) -> Option<Access>
    requires closed { IsClosed flow.now.graph }
    requires reached { IsReached flow.now.graph b.0 }
    requires block { b.0 < length flow.now.graph }
    requires lasts { AreLastsThere form.now }
    ensures { MatchOption result ((a : Access) → IsCommon flow.now.graph form.now b.0 a → ⊥)
        (λ a. IsCommon flow.now.graph form.now b.0 a × HasList form.now a) }
{
    ms_flow::laws::sources_told();
    let mut common = if b.0 == 0 { Some(Access::Entry) } else { None };
    for slot in 0..flow.pred_count(b) {
        let edge = flow.pred(b, slot, steps);
        let access = filled_leaving(form, edge.from)?;
        match common {
            None => common = Some(access),
            Some(a) => {
                if !same_access(a, access) {
                    return None;
                }
            }
        }
    }
    common
}

// Enters a block: with the one access that comes over its edges, or else with a phi.
fn enter_block(form: &mut Form, flow: &Flow, b: BlockNo, steps: &mut Steps)
    requires closed { IsClosed flow.now.graph }
    requires reached { IsReached flow.now.graph b.0 }
    requires block { b.0 < length flow.now.graph }
    requires blocks { length form.old.phis ≡ length flow.now.graph }
    requires lasts { AreLastsThere form.old }
    ensures entered { IsEntered flow.now.graph b form.old form.new }
    ensures places { KeepsPlaces form.old form.new }
{
    match common_access(form, flow, b, steps) {
        Some(a) => link(form, User::Entering(b), a),
        None => form.set_phi(b, true),
    }
}

/// Enters each reached block.
pub fn enter_blocks(form: &mut Form, flow: &Flow, blocks: &[Option<u32>], steps: &mut Steps)
    requires closed { IsClosed flow.now.graph }
    requires ordered { IsOrdered flow.now.graph blocks.now }
    requires blocks { length form.old.phis ≡ length flow.now.graph }
    requires lasts { AreLastsThere form.old }
    requires blank { IsBlank form.old }
    ensures entered { AreEntered flow.now.graph (length blocks.now) form.new }
    ensures lasts { form.new.lasts ≡ form.old.lasts }
    ensures numbers { length form.new.defs ≡ length form.old.defs }
    ensures places { KeepsPlaces form.old form.new }
{
    ms_flow::laws::order_told();
    for k in 0..blocks.len() {
        let block = blocks[k];
        if let Some(b) = block {
            enter_block(form, flow, BlockNo(b), steps);
        }
    }
}
