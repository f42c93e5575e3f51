// The instructions that make pointers.
ghost use Rattle.std.specs.Prelude.{◌≡◌, ◌&&◌, not, option_map};
ghost use Rattle.ms_alias.specs.Roots.{is_pointer, makes_pointer, is_alloca, maker_of, pointer_of, step_in, step_by_maker, pair_step, moving_block};

use crate::loc::Root;
use ms_ir::{BlockNo, Func, Inst, LocalNo, Ty, Val};

/// The pointer that a value is, None where it is a number.
pub fn pointer_of(val: Val) -> Option<Root>
    ensures { result ≡ pointer_of val }
{
    match val {
        Val::Num(..) => None,
        Val::Local(l) => Some(Root::Local(l)),
        Val::Global(g) => Some(Root::Global(g)),
    }
}

pub fn is_pointer(ty: Ty) -> bool
    ensures { result ≡ is_pointer ty }
{
    match ty {
        Ty::Ptr => true,
        _ => false,
    }
}

pub fn is_alloca(inst: &Inst) -> bool
    ensures { result ≡ is_alloca inst.now }
{
    match inst {
        Inst::Alloca { .. } => true,
        _ => false,
    }
}

// Whether an instruction is an alloca, a getelementptr with or without terms, or a select or phi of pointers.
fn makes_pointer(inst: &Inst) -> bool
    ensures { result ≡ makes_pointer inst.now }
{
    match inst {
        Inst::Alloca { .. } | Inst::Gep { .. } | Inst::Step { .. } => true,
        Inst::Select { ty, .. } | Inst::Phi { ty, .. } => is_pointer(*ty),
        Inst::Load { .. }
        | Inst::Store { .. }
        | Inst::Copy { .. }
        | Inst::Call { .. }
        | Inst::Bin { .. }
        | Inst::Cmp { .. }
        | Inst::Cast { .. } => false,
    }
}

// Whether it is one of them, but no alloca.
fn moves(inst: &Inst) -> bool
    ensures { result ≡ (makes_pointer inst.now && not (is_alloca inst.now)) }
{
    makes_pointer(inst) && !is_alloca(inst)
}

/// The instruction that makes a local, where the local is a pointer.
pub fn maker(func: &Func, l: LocalNo) -> Option<&Inst>
    ensures { option_map (λ inst. inst.now) result ≡ option_map (λ m. m.inst) (maker_of func.now l) }
{
    func.numbered();
    match func.giver(l) {
        Some(node) => {
            if makes_pointer(&node.inst) {
                Some(&node.inst)
            } else {
                None
            }
        }
        None => None,
    }
}

/// The block of the instruction that makes a local, where the local is a pointer and the instruction is no alloca.
pub fn home(func: &Func, l: LocalNo) -> Option<BlockNo>
    ensures { option_map (λ b. b.0) result ≡ moving_block (maker_of func.now l) }
{
    func.numbered();
    let i = match func.def_of(l) {
        Some(i) => i,
        None => return None,
    };
    match func.inst(i) {
        Some(inst) => {
            if !moves(inst) {
                return None;
            }
        }
        None => return None,
    }
    match func.place_of(i) {
        Some((block, _)) => Some(block),
        None => None,
    }
}

// What a getelementptr adds to which pointer. One with terms adds no fixed number of bytes.
fn step_in(inst: &Inst) -> Option<(Root, i64)>
    ensures { option_map pair_step result ≡ step_in inst.now }
{
    match inst {
        Inst::Gep { base, offset, .. } => match pointer_of(*base) {
            Some(p) => Some((p, *offset)),
            None => None,
        },
        Inst::Alloca { .. }
        | Inst::Step { .. }
        | Inst::Load { .. }
        | Inst::Store { .. }
        | Inst::Copy { .. }
        | Inst::Call { .. }
        | Inst::Bin { .. }
        | Inst::Cmp { .. }
        | Inst::Select { .. }
        | Inst::Cast { .. }
        | Inst::Phi { .. } => None,
    }
}

/// What a getelementptr adds to which pointer, where one makes the local.
pub fn step(func: &Func, l: LocalNo) -> Option<(Root, i64)>
    ensures { option_map pair_step result ≡ step_by_maker (maker_of func.now l) }
{
    match maker(func, l) {
        Some(inst) => step_in(inst),
        None => None,
    }
}
