// The least fault of an edit.
ghost use Rattle.std.specs.Prelude.{◌≡◌, ◌⊎◌, IfErr, IfOk};
ghost use Rattle.ms_ir.specs.declared.faults.EditFault.TheVariants.{Memory};
ghost use Rattle.ms_ir.specs.SoundFunc.{IsSoundFunc};
ghost use Rattle.ms_ir.specs.Edits.{IsFaultless, IsRefused};
ghost use Rattle.ms_flow.specs.Table.{edges_of};

use crate::kinds::{bad_kind, bad_types, no_edge};
use crate::names::bad_name;
use crate::order::bad_order;
use crate::places::bad_place;
use crate::uses::is_still_used;
use ms_flow::Flow;
use ms_ir::{Edit, EditFault, Func};
use std::alloc::Global;

/// Whether an edit of a sound function is let through, by the function and its flow graph. `Ok` comes only for an edit without a fault,
/// and an `Err` other than `Memory` is the fault with the least number of those that the edit has. `Memory` comes only where memory is
/// wanting.
pub fn accept_edit(alloc: Global, func: &Func, flow: &Flow, edit: &Edit) -> Result<(), EditFault>
    requires graph { flow.now.graph ≡ edges_of func.now.blocks }
    requires sound { IsSoundFunc func.now }
    ensures ok { IfOk result (λ _. IsFaultless func.now edit.now) }
    ensures err { IfErr result (λ why. (why ≡ Memory) ⊎ IsRefused func.now edit.now why) }
{
    if bad_name(func, edit) {
        return Err(EditFault::Name);
    }
    if bad_place(func, edit) {
        return Err(EditFault::Place);
    }
    if bad_kind(alloc, func, edit)? {
        return Err(EditFault::Kind);
    }
    if bad_types(func, edit) {
        return Err(EditFault::Types);
    }
    if bad_order(alloc, func, flow, edit)? {
        return Err(EditFault::Order);
    }
    if is_still_used(alloc, func, edit)? {
        return Err(EditFault::Used);
    }
    if no_edge(alloc, func, edit)? {
        return Err(EditFault::NoEdge);
    }
    Ok(())
}
