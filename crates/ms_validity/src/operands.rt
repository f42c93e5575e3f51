// The operands of instructions and terminators, by their place on the line.
ghost use Rattle.std.specs.Prelude.{◌≡◌, ℕ, suc, None, [], ◌∷◌, length, map, option_map, slice_get};
ghost use Rattle.ms_ir.specs.declared.names.Ty.TheVariants.{Ptr};
ghost use Rattle.ms_ir.specs.Uses.{operands_of, term_operands, of_type, arg_operand, entry_operand, index_operand};
ghost use Rattle.ms_validity.specs.Told.{as_operand};

use ms_ir::{Arg, Args, Entries, Inst, Term, Terms, Ty, Val};

/// A value with the type that is written for it.
#[derive(Clone, Copy)]
pub struct Operand {
    pub ty: Ty,
    pub val: Val,
}

fn of_arg(arg: &Arg) -> Operand
    ensures { result ≡ record { ty = arg.now.ty; val = arg.now.val } }
{
    Operand {
        ty: arg.ty,
        val: arg.val,
    }
}

// One of up to three operands.
fn pick(listed: &[Operand], k: usize) -> Option<Operand>
    ensures { result ≡ slice_get listed.now k }
{
    if k < listed.len() {
        Some(listed[k])
    } else {
        None
    }
}

fn of(ty: Ty, val: Val) -> Operand
    ensures { result ≡ record { ty = ty; val = val } }
{
    Operand { ty, val }
}

// The argument at a place.
fn arg_at(args: &Args, k: usize) -> Option<Operand>
    ensures { option_map as_operand result ≡ slice_get (map arg_operand args.now) k }
{
    match args.get(k) {
        Some(arg) => Some(of_arg(arg)),
        None => None,
    }
}

// One of two arguments.
fn both(first: &Arg, second: &Arg, k: usize) -> Option<Operand>
    ensures { option_map as_operand result ≡ slice_get (arg_operand first.now ∷ arg_operand second.now ∷ []) k }
{
    pick(&[of_arg(first), of_arg(second)], k)
}

// The term at a place.
fn term_at(terms: &Terms, k: usize) -> Option<Operand>
    ensures { option_map as_operand result ≡ slice_get (map index_operand terms.now) k }
{
    match terms.get(k) {
        Some(term) => Some(of(term.ty, term.val)),
        None => None,
    }
}

// The base of a getelementptr, or one of its terms behind it.
fn step_at(base: Val, terms: &Terms, k: usize) -> Option<Operand>
    ensures { option_map as_operand result ≡ slice_get (of_type Ptr base ∷ map index_operand terms.now) k }
{
    if k == 0 {
        return Some(of(Ty::Ptr, base));
    }
    term_at(terms, k - 1)
}

// The value of the entry at a place of a phi of this type.
fn entry_at(ty: Ty, entries: &Entries, k: usize) -> Option<Operand>
    ensures { option_map as_operand result ≡ slice_get (map (entry_operand ty) entries.now) k }
{
    match entries.get(k) {
        Some(entry) => Some(of(ty, entry.val)),
        None => None,
    }
}

/// The operand of an instruction at a place of its line. `None` exactly where it has no more.
pub fn operand_at(inst: &Inst, k: usize) -> Option<Operand>
    ensures { option_map as_operand result ≡ slice_get (operands_of inst.now) k }
{
    match inst {
        Inst::Alloca { .. } => None,
        Inst::Gep { base, .. } => pick(&[of(Ty::Ptr, *base)], k),
        Inst::Step { base, terms, .. } => step_at(*base, terms, k),
        Inst::Load { ptr, .. } => pick(&[of(Ty::Ptr, *ptr)], k),
        Inst::Store { ty, val, ptr, .. } => pick(&[of(*ty, *val), of(Ty::Ptr, *ptr)], k),
        Inst::Copy { to, from, .. } => both(to, from, k),
        Inst::Call { args, .. } => arg_at(args, k),
        Inst::Bin { ty, a, b, .. } => pick(&[of(*ty, *a), of(*ty, *b)], k),
        Inst::Cmp { ty, a, b, .. } => pick(&[of(*ty, *a), of(*ty, *b)], k),
        Inst::Select { cond, ty, a, b, .. } => pick(
            &[of(Ty::I1, *cond), of(*ty, *a), of(*ty, *b)],
            k,
        ),
        Inst::Cast { from, a, .. } => pick(&[of(*from, *a)], k),
        Inst::Phi { ty, entries, .. } => entry_at(*ty, entries, k),
    }
}

/// How many operands an instruction has.
pub fn operand_count(inst: &Inst) -> usize
    ensures { result ≡ length (operands_of inst.now) }
{
    match inst {
        Inst::Alloca { .. } => 0,
        Inst::Gep { .. } | Inst::Load { .. } | Inst::Cast { .. } => 1,
        Inst::Step { terms, .. } => 1 + terms.as_slice().len(),
        Inst::Store { .. } | Inst::Copy { .. } | Inst::Bin { .. } | Inst::Cmp { .. } => 2,
        Inst::Select { .. } => 3,
        Inst::Call { args, .. } => args.len(),
        Inst::Phi { entries, .. } => entries.len(),
    }
}

/// The operand of a terminator, where it has one: none has more.
pub fn term_operand(term: &Term) -> Option<Operand>
    ensures first { option_map as_operand result ≡ slice_get (term_operands term.now) 0 }
    ensures all { (k : ℕ) → slice_get (term_operands term.now) (suc k) ≡ None }
{
    match term {
        Term::CondBr(cond, ..) => Some(of(Ty::I1, *cond)),
        Term::Ret(Some(given), _) => Some(of(given.0, given.1)),
        Term::Ret(None, _) | Term::Br(..) | Term::Unreachable(..) => None,
    }
}
