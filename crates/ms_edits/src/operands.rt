// The operands of instructions and terminators, by their place on the line.
ghost use Rattle.std.specs.Prelude.{◌≡◌, ◌↔◌, ◌+◌, ◌≤◌, ℕ, suc, None, [], ◌∷◌, IsTrue, length, map, option_map, slice_get};
ghost use Rattle.ms_ir.specs.Uses.{operands_of, term_operands, arg_operand, entry_operand, index_operand};
ghost use Rattle.ms_ir.specs.declared.names.Ty.TheVariants.{Ptr};
ghost use Rattle.ms_ir.specs.Locals.{IsNoLocal};
ghost use Rattle.ms_edits.specs.Told.{AtPlace, HasIn, HasNotType, IsAsked, IsAskedOf, as_operand};

use ms_ir::{Arg, Args, Entries, Func, Inst, LocalNo, Term, Terms, Ty, Val};

/// A value with the type that is written for it.
#[derive(Clone, Copy)]
pub struct Operand {
    pub ty: Ty,
    pub val: Val,
}

/// What is asked of an operand: is it a local that the function does not have, a local of another type than the one written, or this local?
#[derive(Clone, Copy)]
pub enum Ask {
    Missing,
    Other,
    Is(LocalNo),
}

fn of_arg(arg: &Arg) -> Operand
    ensures { result ≡ record { ty = arg.now.ty; val = arg.now.val } }
{
    Operand {
        ty: arg.ty,
        val: arg.val,
    }
}

// One of up to three operands.
fn pick(listed: &[Operand], k: usize) -> Option<Operand>
    ensures { result ≡ slice_get listed.now k }
{
    if k < listed.len() {
        Some(listed[k])
    } else {
        None
    }
}

fn of(ty: Ty, val: Val) -> Operand
    ensures { result ≡ record { ty = ty; val = val } }
{
    Operand { ty, val }
}

// The argument at a place.
fn arg_at(args: &Args, k: usize) -> Option<Operand>
    ensures { option_map as_operand result ≡ slice_get (map arg_operand args.now) k }
{
    match args.get(k) {
        Some(arg) => Some(of_arg(arg)),
        None => None,
    }
}

// One of two arguments.
fn both(first: &Arg, second: &Arg, k: usize) -> Option<Operand>
    ensures { option_map as_operand result ≡ slice_get (arg_operand first.now ∷ arg_operand second.now ∷ []) k }
{
    pick(&[of_arg(first), of_arg(second)], k)
}

// The index at a place.
fn index_at(terms: &Terms, k: usize) -> Option<Operand>
    ensures { option_map as_operand result ≡ slice_get (map index_operand terms.now) k }
{
    match terms.get(k) {
        Some(term) => Some(of(term.ty, term.val)),
        None => None,
    }
}

// A base and then indices.
fn based_at(base: Val, terms: &Terms, k: usize) -> Option<Operand>
    ensures { option_map as_operand result ≡ slice_get (record { ty = Ptr; val = base } ∷ map index_operand terms.now) k }
{
    if k == 0 {
        Some(of(Ty::Ptr, base))
    } else {
        index_at(terms, k - 1)
    }
}

// The value of the entry at a place of a phi of this type.
fn entry_at(ty: Ty, entries: &Entries, k: usize) -> Option<Operand>
    ensures { option_map as_operand result ≡ slice_get (map (entry_operand ty) entries.now) k }
{
    match entries.get(k) {
        Some(entry) => Some(of(ty, entry.val)),
        None => None,
    }
}

/// The operand of an instruction at a place of its line. `None` exactly where it has no more.
pub fn operand_at(inst: &Inst, k: usize) -> Option<Operand>
    ensures { option_map as_operand result ≡ slice_get (operands_of inst.now) k }
{
    match inst {
        Inst::Alloca { .. } => None,
        Inst::Gep { base, .. } => pick(&[of(Ty::Ptr, *base)], k),
        Inst::Step { base, terms, .. } => based_at(*base, terms, k),
        Inst::Load { ptr, .. } => pick(&[of(Ty::Ptr, *ptr)], k),
        Inst::Store { ty, val, ptr, .. } => pick(&[of(*ty, *val), of(Ty::Ptr, *ptr)], k),
        Inst::Copy { to, from, .. } => both(to, from, k),
        Inst::Call { args, .. } => arg_at(args, k),
        Inst::Bin { ty, a, b, .. } => pick(&[of(*ty, *a), of(*ty, *b)], k),
        Inst::Cmp { ty, a, b, .. } => pick(&[of(*ty, *a), of(*ty, *b)], k),
        Inst::Select { cond, ty, a, b, .. } => pick(
            &[of(Ty::I1, *cond), of(*ty, *a), of(*ty, *b)],
            k,
        ),
        Inst::Cast { from, a, .. } => pick(&[of(*from, *a)], k),
        Inst::Phi { ty, entries, .. } => entry_at(*ty, entries, k),
    }
}

/// A number of operands: an instruction has one more at most.
pub fn more_operands(inst: &Inst) -> usize
    ensures { length (operands_of inst.now) ≤ result + 1 }
{
    match inst {
        Inst::Alloca { .. } | Inst::Gep { .. } | Inst::Load { .. } | Inst::Cast { .. } => 0,
        Inst::Store { .. } | Inst::Copy { .. } | Inst::Bin { .. } | Inst::Cmp { .. } => 1,
        Inst::Select { .. } => 2,
        Inst::Step { terms, .. } => terms.len(),
        Inst::Call { args, .. } => args.len(),
        Inst::Phi { entries, .. } => entries.len(),
    }
}

/// The operand of a terminator, where it has one: none has more.
pub fn term_operand(term: &Term) -> Option<Operand>
    ensures first { option_map as_operand result ≡ slice_get (term_operands term.now) 0 }
    ensures all { (k : ℕ) → slice_get (term_operands term.now) (suc k) ≡ None }
{
    match term {
        Term::CondBr(cond, ..) => Some(of(Ty::I1, *cond)),
        Term::Ret(Some(given), _) => Some(of(given.0, given.1)),
        Term::Ret(None, _) | Term::Br(..) | Term::Unreachable(..) => None,
    }
}

// Whether the function does not have the local.
fn is_missing(func: &Func, l: LocalNo) -> bool
    ensures { IsTrue result ↔ IsNoLocal func.now l }
{
    match func.type_of(l) {
        Some(_) => false,
        None => true,
    }
}

fn same_type(a: Ty, b: Ty) -> bool
    ensures { IsTrue result ↔ (a ≡ b) }
{
    a == b
}

// Whether the local has another type.
fn is_other(func: &Func, l: LocalNo, written: Ty) -> bool
    ensures { IsTrue result ↔ HasNotType func.now l written }
{
    match func.type_of(l) {
        Some(ty) => !same_type(ty, written),
        None => false,
    }
}

fn same_local(a: LocalNo, b: LocalNo) -> bool
    ensures { IsTrue result ↔ (a ≡ b) }
{
    a == b
}

// What is asked of a local for which this type is written.
fn is_asked_of(func: &Func, ask: Ask, l: LocalNo, written: Ty) -> bool
    ensures { IsTrue result ↔ IsAskedOf func.now ask l written }
{
    match ask {
        Ask::Missing => is_missing(func, l),
        Ask::Other => is_other(func, l, written),
        Ask::Is(k) => same_local(l, k),
    }
}

/// Whether it is so of an operand.
pub fn is_asked(func: &Func, ask: Ask, o: Operand) -> bool
    ensures { IsTrue result ↔ IsAsked func.now ask (as_operand o) }
{
    match o.val {
        Val::Local(l) => is_asked_of(func, ask, l, o.ty),
        Val::Num(..) | Val::Global(_) => false,
    }
}

// Whether it is so of the operand at a place of an instruction's line.
fn is_asked_at(func: &Func, ask: Ask, inst: &Inst, k: usize) -> bool
    ensures { IsTrue result ↔ AtPlace (operands_of inst.now) (IsAsked func.now ask) k }
{
    match operand_at(inst, k) {
        Some(o) => is_asked(func, ask, o),
        None => false,
    }
}

/// Whether it is so of an operand of an instruction.
pub fn has_operand(func: &Func, ask: Ask, inst: &Inst) -> bool
    ensures { IsTrue result ↔ HasIn (operands_of inst.now) (IsAsked func.now ask) }
{
    if is_asked_at(func, ask, inst, 0) {
        return true;
    }
    for k in 0..more_operands(inst) {
        if is_asked_at(func, ask, inst, k + 1) {
            return true;
        }
    }
    false
}
