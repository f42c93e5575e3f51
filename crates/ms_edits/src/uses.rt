// Whether the result of an instruction that is removed is used.
ghost use Rattle.std.specs.Prelude.{◌≡◌, ◌<◌, ◌↔◌, IfOk, IsTrue, length, slice_index_or};
ghost use Rattle.ms_ir.specs.Edits.{HasBadName, IsOperandIn, IsStillUsed};
ghost use Rattle.ms_ir.specs.Func.{no_block};
ghost use Rattle.ms_edits.specs.Told.{HasOperand, HasTermOperand, IsResultUsed, NumberHasOperand, TermHas};

use crate::operands::{Ask, has_operand, is_asked, term_operand};
use ms_ir::{BlockNo, Edit, Func, InstNo, LocalNo, NoMemory, Steps, Term};
use std::alloc::Global;

// Whether the instruction of a number is there and has the local as an operand.
fn number_has(func: &Func, i: InstNo, l: LocalNo) -> bool
    ensures { IsTrue result ↔ NumberHasOperand func.now.blocks i.0 l }
{
    match func.inst(i) {
        Some(inst) => has_operand(func, Ask::Is(l), inst),
        None => false,
    }
}

// Whether an instruction has the local as an operand.
fn insts_have(func: &Func, l: LocalNo) -> bool
    ensures { IsTrue result ↔ HasOperand func.now.blocks l }
{
    func.numbered();
    for i in 0..func.made() {
        if number_has(func, InstNo(i), l) {
            return true;
        }
    }
    false
}

/// Whether a terminator has the local as its operand.
pub fn is_term_operand(func: &Func, term: &Term, l: LocalNo) -> bool
    ensures { IsTrue result ↔ TermHas term.now l }
{
    match term_operand(term) {
        Some(o) => is_asked(func, Ask::Is(l), o),
        None => false,
    }
}

// Whether the terminator of a block has the local as its operand.
fn block_ends_in(func: &Func, b: BlockNo, l: LocalNo, steps: &mut Steps) -> bool
    requires { b.0 < length func.now.blocks }
    ensures { IsTrue result ↔ TermHas (slice_index_or func.now.blocks b.0 no_block).term l }
{
    is_term_operand(func, func.term(b, steps), l)
}

// Whether some terminator has the local as its operand.
fn terms_have(alloc: Global, func: &Func, l: LocalNo) -> Result<bool, NoMemory>
    ensures { IfOk result (λ t. IsTrue t ↔ HasTermOperand func.now.blocks l) }
{
    let mut steps = Steps::new(alloc)?;
    for b in 0..func.block_count() {
        if block_ends_in(func, BlockNo(b), l, &mut steps) {
            return Ok(true);
        }
    }
    Ok(false)
}

// Whether the local is an operand.
fn is_operand(alloc: Global, func: &Func, l: LocalNo) -> Result<bool, NoMemory>
    ensures { IfOk result (λ t. IsTrue t ↔ IsOperandIn func.now.blocks l) }
{
    if insts_have(func, l) {
        return Ok(true);
    }
    terms_have(alloc, func, l)
}

// Whether the result of the instruction at a place is an operand.
fn is_result_used(alloc: Global, func: &Func, b: BlockNo, place: u32) -> Result<bool, NoMemory>
    requires { b.0 < length func.now.blocks }
    ensures { IfOk result (λ t. IsTrue t ↔ IsResultUsed func.now b.0 place) }
{
    match func.node_at(b, place) {
        Some(node) => match node.result {
            Some(l) => is_operand(alloc, func, l),
            None => Ok(false),
        },
        None => Ok(false),
    }
}

/// Whether the result of the instruction that is removed is used.
pub fn is_still_used(alloc: Global, func: &Func, edit: &Edit) -> Result<bool, NoMemory>
    requires { HasBadName func.now edit.now → ⊥ }
    ensures { IfOk result (λ t. IsTrue t ↔ IsStillUsed func.now edit.now) }
{
    match edit {
        Edit::Remove { block, place } => is_result_used(alloc, func, *block, *place),
        Edit::Insert { .. } | Edit::Move { .. } | Edit::Unlink { .. } => Ok(false),
    }
}
