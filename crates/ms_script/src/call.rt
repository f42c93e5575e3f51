// Calls that say what the called function's line says.
ghost use Rattle.std.specs.Prelude.{◌≡◌, ◌≢◌, ◌≤◌, ◌↔◌, IsTrue, Some, false, length, map, slice_get, take};
ghost use Rattle.ms_ir.specs.declared.names.Mark.{Mark};
ghost use Rattle.ms_grammar.specs.declared.line.RawArg.{RawArg};
ghost use Rattle.ms_script.specs.Calls.{CallsAsThere, IsCallIn, IsCallOf, TypesFit, type_of_raw, type_of_mark};

use ms_grammar::{RawArgs, RawInst};
use ms_ir::{Marks, Module, Name, Sig, Ty};

fn same_type(a: Ty, b: Ty) -> bool
    ensures { IsTrue result ↔ (a ≡ b) }
{
    a == b
}

fn same_given(a: Option<Ty>, b: Option<Ty>) -> bool
    ensures { IsTrue result ↔ (a ≡ b) }
{
    match (a, b) {
        (Some(a), Some(b)) => same_type(a, b),
        (None, None) => true,
        _ => false,
    }
}

// Whether the argument at a place has the type of the parameter there, where both are there.
fn same_type_at(args: &RawArgs, marks: &Marks, k: usize) -> bool
    ensures same { IsTrue result → (a : RawArg) (m : Mark) → slice_get args.now k ≡ Some a → slice_get marks.now k ≡ Some m → a.ty ≡ m.ty }
    ensures other { result ≡ false → (a : RawArg) × (m : Mark) × (slice_get args.now k ≡ Some a) × (slice_get marks.now k ≡ Some m) × (a.ty ≢ m.ty) }
{
    match args.get(k) {
        Some(arg) => match marks.get(k) {
            Some(mark) => same_type(arg.ty, mark.ty),
            None => true,
        },
        None => true,
    }
}

// Whether the types of the first arguments are those of the parameters, so many of them.
fn same_types(args: &RawArgs, marks: &Marks) -> bool
    requires { length marks.now ≤ length args.now }
    ensures { IsTrue result ↔ (take (length marks.now) (map type_of_raw args.now) ≡ map type_of_mark marks.now) }
{
    for k in 0..marks.len() {
        if !same_type_at(args, marks, k) {
            return false;
        }
    }
    true
}

// Whether arguments are those that a function's line asks for.
fn args_fit(sig: &Sig, args: &RawArgs) -> bool
    ensures { IsTrue result ↔ TypesFit sig.now args.now }
{
    let wanted = sig.params.len();
    if args.len() < wanted {
        return false;
    }
    if !sig.variadic && args.len() != wanted {
        return false;
    }
    same_types(args, &sig.params)
}

// Whether a result and arguments are those that a function's line asks for.
fn is_call_of(sig: &Sig, ret: Option<Ty>, args: &RawArgs) -> bool
    ensures { IsTrue result ↔ IsCallOf sig.now ret args.now }
{
    same_given(ret, sig.ret) && args_fit(sig, args)
}

fn is_call_in(m: &Module, callee: &Name, ret: Option<Ty>, args: &RawArgs) -> bool
    ensures { IsTrue result ↔ IsCallIn m.now callee.now ret args.now }
{
    match callee {
        Name::Word(word) => match m.names().find_func(word.bytes()) {
            Some(f) => match m.sig(f) {
                Some(sig) => is_call_of(sig, ret, args),
                None => false,
            },
            None => false,
        },
        Name::Number(_) | Name::Absent => false,
    }
}

/// Whether what an instruction calls is called as it is in the module.
pub fn calls_as_there(m: &Module, inst: &RawInst) -> bool
    ensures { IsTrue result ↔ CallsAsThere m.now inst.now }
{
    match inst {
        RawInst::Call {
            callee,
            ret,
            args,
            ..
        } => is_call_in(m, callee, *ret, args),
        RawInst::Alloca { .. }
        | RawInst::Gep { .. }
        | RawInst::Step { .. }
        | RawInst::Load { .. }
        | RawInst::Store { .. }
        | RawInst::Copy { .. }
        | RawInst::Bin { .. }
        | RawInst::Cmp { .. }
        | RawInst::Select { .. }
        | RawInst::Cast { .. }
        | RawInst::Phi { .. } => true,
    }
}
