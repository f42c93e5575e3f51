// Types that are not the ones written.
ghost use Rattle.std.specs.Prelude.{◌≡◌, ◌≢◌, ◌≤◌, ◌⊎◌, ◌↔◌, IsTrue, Some, false, length, map, slice_get, take};
ghost use Rattle.ms_ir.specs.Uses.{Operand as Written, operands_of, term_operands};
ghost use Rattle.ms_ir.specs.declared.inst.Arg.{Arg};
ghost use Rattle.ms_ir.specs.declared.names.Mark.{Mark};
ghost use Rattle.ms_ir.specs.Sound.{HasOtherType};
ghost use Rattle.ms_validity.specs.Faults.{ArgsFit, CallsOtherwise, ReturnsOtherwise, type_of_arg, type_of_mark};
ghost use Rattle.ms_validity.specs.Told.{as_operand, HasOtherTypeIn};

use crate::operands::{Operand, operand_at, operand_count, term_operand};
use crate::same::{same_given, same_type};
use ms_ir::{Args, Func, Inst, Marks, Module, Sig, Term, Ty, Val};

// Whether an operand is a local of another type.
fn is_other(func: &Func, o: Operand) -> bool
    ensures { IsTrue result ↔ HasOtherType func.now (as_operand o) }
{
    match o.val {
        Val::Local(l) => match func.type_of(l) {
            Some(ty) => !same_type(ty, o.ty),
            None => false,
        },
        Val::Num(..) | Val::Global(_) => false,
    }
}

// Whether the argument at a place has the type of the parameter there, where both are there.
fn same_type_at(args: &Args, marks: &Marks, k: usize) -> bool
    ensures same { IsTrue result → (a : Arg) (m : Mark) → slice_get args.now k ≡ Some a → slice_get marks.now k ≡ Some m → a.ty ≡ m.ty }
    ensures other { result ≡ false → (a : Arg) × (m : Mark) × (slice_get args.now k ≡ Some a) × (slice_get marks.now k ≡ Some m) × (a.ty ≢ m.ty) }
{
    match args.get(k) {
        Some(arg) => match marks.get(k) {
            Some(mark) => same_type(arg.ty, mark.ty),
            None => true,
        },
        None => true,
    }
}

// Whether the types of the first arguments are those of the parameters, so many of them.
fn same_types(args: &Args, marks: &Marks) -> bool
    requires { length marks.now ≤ length args.now }
    ensures { IsTrue result ↔ (take (length marks.now) (map type_of_arg args.now) ≡ map type_of_mark marks.now) }
{
    for k in 0..marks.len() {
        if !same_type_at(args, marks, k) {
            return false;
        }
    }
    true
}

// Whether arguments are those that a function's line asks for.
fn args_fit(sig: &Sig, args: &Args) -> bool
    ensures { IsTrue result ↔ ArgsFit sig.now args.now }
{
    let wanted = sig.params.len();
    if args.len() < wanted {
        return false;
    }
    if !sig.variadic && args.len() != wanted {
        return false;
    }
    same_types(args, &sig.params)
}

// Whether a call of a function says otherwise than the function's line.
fn calls_otherwise(m: &Module, inst: &Inst) -> bool
    ensures { IsTrue result ↔ CallsOtherwise m.now inst.now }
{
    match inst {
        Inst::Call {
            callee,
            ret,
            args,
            ..
        } => match m.sig(*callee) {
            Some(sig) => !same_given(*ret, sig.ret) || !args_fit(sig, args),
            None => false,
        },
        _ => false,
    }
}

// Whether the operand at a place of an instruction's line is a local of another type.
fn is_other_at(func: &Func, inst: &Inst, k: usize) -> bool
    ensures { IsTrue result ↔ ((o : Written) × (slice_get (operands_of inst.now) k ≡ Some o) × HasOtherType func.now o) }
{
    match operand_at(inst, k) {
        Some(o) => is_other(func, o),
        None => false,
    }
}

// Whether an instruction has an operand that is a local of another type.
fn has_other(func: &Func, inst: &Inst) -> bool
    ensures { IsTrue result ↔ HasOtherTypeIn func.now (operands_of inst.now) }
{
    for k in 0..operand_count(inst) {
        if is_other_at(func, inst, k) {
            return true;
        }
    }
    false
}

/// Whether an instruction has a fault in its types.
pub fn inst_types(m: &Module, func: &Func, inst: &Inst) -> bool
    ensures { IsTrue result ↔ (HasOtherTypeIn func.now (operands_of inst.now) ⊎ CallsOtherwise m.now inst.now) }
{
    has_other(func, inst) || calls_otherwise(m, inst)
}

// Whether a terminator returns another type than the function does.
fn returns_otherwise(func: &Func, term: &Term) -> bool
    ensures { IsTrue result ↔ ReturnsOtherwise func.now term.now }
{
    match term {
        Term::Ret(Some(given), _) => !same_given(Some(given.0), func.ret()),
        Term::Ret(None, _) => func.ret().is_some(),
        _ => false,
    }
}

// Whether the operand of a terminator is a local of another type.
fn term_other(func: &Func, term: &Term) -> bool
    ensures { IsTrue result ↔ HasOtherTypeIn func.now (term_operands term.now) }
{
    match term_operand(term) {
        Some(o) => is_other(func, o),
        None => false,
    }
}

/// Whether a terminator has a fault in its types.
pub fn term_types(func: &Func, term: &Term) -> bool
    ensures { IsTrue result ↔ (HasOtherTypeIn func.now (term_operands term.now) ⊎ ReturnsOtherwise func.now term.now) }
{
    term_other(func, term) || returns_otherwise(func, term)
}
