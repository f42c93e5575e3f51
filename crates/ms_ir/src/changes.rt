// Changes of instructions and terminators in place. None takes memory.
ghost use Rattle.std.specs.Prelude.{◌≡◌, ◌<◌, ℕ, [], length, map, slice_set, slice_index_or, vec_len, vec_capacity};
ghost use Rattle.ms_ir.specs.Links.{IsListed, NotIn};
ghost use Rattle.ms_ir.specs.Func.{no_node};
ghost use Rattle.ms_ir.specs.Changes.{val_with, arg_with, entry_with, inst_with, term_with, node_with, parts_with, node_without, inst_sourced, inst_without, IsCondBr, kept_target, cut_target};

use crate::func::{BlockParts, Node};
use crate::inst::{Arg, Inst, Term, Val};
use crate::names::{BlockNo, LocalNo};
use crate::order::Order;

/// A use of the local becomes a use of another value.
pub fn replace(val: &mut Val, l: LocalNo, by: Val)
    ensures { val.new ≡ val_with l by val.old }
{
    if let Val::Local(k) = *val {
        if k.0 == l.0 {
            *val = by;
        }
    }
}

/// Each use of the local in an instruction becomes a use of another value.
pub fn replace_in_inst(inst: &mut Inst, l: LocalNo, by: Val)
    ensures { inst.new ≡ inst_with l by inst.old }
{
    match inst {
        Inst::Alloca { .. } => {}
        Inst::Gep { base, .. } => replace(base, l, by),
        Inst::Step { base, .. } => replace(base, l, by),
        Inst::Load { ptr, .. } => replace(ptr, l, by),
        Inst::Store { val, ptr, .. } => {
            replace(val, l, by);
            replace(ptr, l, by);
        }
        Inst::Copy { to, from, .. } => {
            replace(&mut to.val, l, by);
            replace(&mut from.val, l, by);
        }
        Inst::Call { args, .. } => args.replace(l, by),
        Inst::Bin { a, b, .. } => {
            replace(a, l, by);
            replace(b, l, by);
        }
        Inst::Cmp { a, b, .. } => {
            replace(a, l, by);
            replace(b, l, by);
        }
        Inst::Select { cond, a, b, .. } => {
            replace(cond, l, by);
            replace(a, l, by);
            replace(b, l, by);
        }
        Inst::Cast { a, .. } => replace(a, l, by),
        Inst::Phi { entries, .. } => entries.replace(l, by),
    }
    // in a match of its own, since the base is borrowed above
    if let Inst::Step { terms, .. } = inst {
        terms.replace(l, by);
    }
}

/// Each use of the local in a terminator becomes a use of another value.
pub fn replace_in_term(term: &mut Term, l: LocalNo, by: Val)
    ensures { term.new ≡ term_with l by term.old }
{
    match term {
        Term::CondBr(cond, ..) => replace(cond, l, by),
        Term::Ret(Some(returned), _) => replace(&mut returned.1, l, by),
        Term::Ret(None, _) | Term::Br(..) | Term::Unreachable(..) => {}
    }
}

/// Each use of the local in these instructions becomes a use of another value.
pub fn replace_in_nodes(nodes: &mut Vec<Node>, l: LocalNo, by: Val)
    ensures items { nodes.new.items ≡ map (node_with l by) nodes.old.items }
    ensures capacity { vec_capacity nodes.new ≡ vec_capacity nodes.old }
{
    for node in nodes.iter_mut() {
        replace_in_inst(&mut node.inst, l, by);
    }
}

/// Each use of the local in these terminators becomes a use of another value.
pub fn replace_in_parts(parts: &mut Vec<BlockParts>, l: LocalNo, by: Val)
    ensures { parts.new.items ≡ map (parts_with l by) parts.old.items }
{
    for block in parts.iter_mut() {
        replace_in_term(&mut block.term, l, by);
    }
}

/// A copy gets another source.
pub fn set_source(inst: &mut Inst, arg: Arg)
    ensures { inst.new ≡ inst_sourced arg inst.old }
{
    if let Inst::Copy { from, .. } = inst {
        *from = arg;
    }
}

/// A phi loses its first entry for a predecessor.
pub fn lose_entry(inst: &mut Inst, from: BlockNo)
    ensures { inst.new ≡ inst_without from.0 inst.old }
{
    if let Inst::Phi { entries, .. } = inst {
        entries.lose_first(from);
    }
}

/// The phis of a block lose their first entry for a predecessor.
pub fn lose_entries(nodes: &mut Vec<Node>, order: &Order, block: u32, from: BlockNo)
    requires block { block < length order.now.lists }
    requires made { vec_len nodes.old ≡ order.now.made }
    ensures listed { (n : ℕ) → IsListed n (slice_index_or order.now.lists block [])
        → slice_index_or nodes.new.items n no_node ≡ node_without from.0 (slice_index_or nodes.old.items n no_node) }
    ensures others { (n : ℕ) → NotIn n (slice_index_or order.now.lists block [])
        → slice_index_or nodes.new.items n no_node ≡ slice_index_or nodes.old.items n no_node }
    ensures len { vec_len nodes.new ≡ vec_len nodes.old }
    ensures capacity { vec_capacity nodes.new ≡ vec_capacity nodes.old }
{
    order.listed_once();
    let mut at = order.first(block);
    'walk: for _ in 0..order.count(block) {
        let number = match at {
            Some(number) => number,
            None => unreachable!(),
        };
        lose_entry(&mut nodes[number as usize].inst, from);
        at = order.after(number);
    }
}

/// The targets of a conditional branch: the one that stays where the edge at a slot is cut, and the one that is cut.
pub fn cut_targets(term: &Term, slot: u32) -> (BlockNo, BlockNo)
    requires branch { IsCondBr term.now }
    requires slot { slot < 2 }
    ensures kept { result.0 ≡ kept_target term.now slot }
    ensures cut { result.1 ≡ cut_target term.now slot }
{
    match term {
        Term::CondBr(_, yes, no, _) => { if slot == 0 { (*no, *yes) } else { (*yes, *no) } }
        _ => unreachable!(),
    }
}
