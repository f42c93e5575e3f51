// Names of functions where a global variable is wanted, and of global variables that are called. Numbers do not tell them apart, so
// the lines themselves are looked at.
ghost use Rattle.std.specs.Prelude.{◌≡◌, ◌↔◌, ◌⊎◌, ℕ, List, [], ◌∷◌, IfOk, IsTrue, Some, length, map, option_map, slice_get};
ghost use Rattle.std.specs.List.{flat_map};
ghost use Rattle.std.specs.Option.{option_copied};
ghost use Rattle.ms_grammar.specs.Form.{name_text};
ghost use Rattle.ms_grammar.specs.declared.line.RawVal.{RawVal};
ghost use Rattle.ms_resolve.specs.Faults.{IsIn};
ghost use Rattle.ms_resolve.specs.Used.{arg_value, callee_of, entry_value, global_of, index_value, term_values, values_of};
ghost use Rattle.ms_validity.specs.Raw.{HasName, LineHas, RawFault};
ghost use Rattle.ms_validity.specs.Told.{Tells};

use itoa::Buffer;
use ms_grammar::{Line, RawArgs, RawEntries, RawInst, RawTerm, RawTerms, RawVal};
use ms_ir::{Items, Name, Names, NoMemory, Text};
use ms_names::earlier;
use std::alloc::Global;

// The text of a name.
fn text_of(alloc: Global, name: &Name) -> Result<Text, NoMemory>
    ensures { IfOk result (λ t. t ≡ name_text name.now) }
{
    match name {
        Name::Word(text) => Items::from_bytes(alloc, text.bytes()),
        Name::Number(n) => {
            let mut buffer = Buffer::new();
            Items::from_bytes(alloc, buffer.format(*n).as_bytes())
        }
        Name::Absent => Ok(Items::new(alloc)),
    }
}

// Whether a function has this name.
fn is_func(alloc: Global, names: &Names, name: &Name) -> Result<bool, NoMemory>
    ensures { IfOk result (λ t. IsTrue t ↔ IsIn names.now.funcs (name_text name.now)) }
{
    let text = text_of(alloc, name)?;
    Ok(names.find_func(text.bytes()).is_some())
}

// Whether a global variable has this name.
fn is_global(alloc: Global, names: &Names, name: &Name) -> Result<bool, NoMemory>
    ensures { IfOk result (λ t. IsTrue t ↔ IsIn names.now.globals (name_text name.now)) }
{
    let text = text_of(alloc, name)?;
    Ok(names.find_global(text.bytes()).is_some())
}

// Whether a value names a function.
fn names_func(alloc: Global, names: &Names, val: &RawVal) -> Result<bool, NoMemory>
    ensures { IfOk result (λ t. IsTrue t ↔ HasName (global_of val.now) names.now.funcs) }
{
    match val {
        RawVal::Global(name) => is_func(alloc, names, name),
        RawVal::Num(..) | RawVal::Local(_) => Ok(false),
    }
}

fn one(a: &RawVal, k: usize) -> Option<&RawVal>
    ensures { option_copied result ≡ slice_get (a.now ∷ []) k }
{
    if k == 0 { Some(a) } else { None }
}

fn two<'a>(a: &'a RawVal, b: &'a RawVal, k: usize) -> Option<&'a RawVal>
    ensures { option_copied result ≡ slice_get (a.now ∷ b.now ∷ []) k }
{
    if k == 0 { Some(a) } else { one(b, k - 1) }
}

fn three<'a>(a: &'a RawVal, b: &'a RawVal, c: &'a RawVal, k: usize) -> Option<&'a RawVal>
    ensures { option_copied result ≡ slice_get (a.now ∷ b.now ∷ c.now ∷ []) k }
{
    if k == 0 { Some(a) } else { two(b, c, k - 1) }
}

fn arg_at(args: &RawArgs, k: usize) -> Option<&RawVal>
    ensures { option_copied result ≡ slice_get (map arg_value args.now) k }
{
    match args.get(k) {
        Some(arg) => Some(&arg.val),
        None => None,
    }
}

fn entry_at(entries: &RawEntries, k: usize) -> Option<&RawVal>
    ensures { option_copied result ≡ slice_get (map entry_value entries.now) k }
{
    match entries.get(k) {
        Some(entry) => Some(&entry.val),
        None => None,
    }
}

fn index_at(terms: &RawTerms, k: usize) -> Option<&RawVal>
    ensures { option_copied result ≡ slice_get (map index_value terms.now) k }
{
    match terms.get(k) {
        Some(term) => Some(&term.val),
        None => None,
    }
}

// The base of a getelementptr, or one of its terms behind it.
fn step_at<'a>(base: &'a RawVal, terms: &'a RawTerms, k: usize) -> Option<&'a RawVal>
    ensures { option_copied result ≡ slice_get (base.now ∷ map index_value terms.now) k }
{
    if k == 0 {
        Some(base)
    } else {
        index_at(terms, k - 1)
    }
}

// The value at a place of an instruction's line.
fn value_at(inst: &RawInst, k: usize) -> Option<&RawVal>
    ensures { option_copied result ≡ slice_get (values_of inst.now) k }
{
    match inst {
        RawInst::Alloca { .. } => None,
        RawInst::Gep { base, .. } => one(base, k),
        RawInst::Step { base, terms, .. } => step_at(base, terms, k),
        RawInst::Load { ptr, .. } => one(ptr, k),
        RawInst::Store { val, ptr, .. } => two(val, ptr, k),
        RawInst::Copy { to, from, .. } => two(&to.val, &from.val, k),
        RawInst::Call { args, .. } => arg_at(args, k),
        RawInst::Bin { a, b, .. } => two(a, b, k),
        RawInst::Cmp { a, b, .. } => two(a, b, k),
        RawInst::Select { cond, a, b, .. } => three(cond, a, b, k),
        RawInst::Cast { a, .. } => one(a, k),
        RawInst::Phi { entries, .. } => entry_at(entries, k),
    }
}

// How many values an instruction's line has.
fn value_count(inst: &RawInst) -> usize
    ensures { result ≡ length (values_of inst.now) }
{
    match inst {
        RawInst::Alloca { .. } => 0,
        RawInst::Gep { .. } | RawInst::Load { .. } | RawInst::Cast { .. } => 1,
        RawInst::Store { .. } | RawInst::Copy { .. } | RawInst::Bin { .. } | RawInst::Cmp { .. } =>
            2,
        RawInst::Step { terms, .. } => 1 + terms.as_slice().len(),
        RawInst::Select { .. } => 3,
        RawInst::Call { args, .. } => args.len(),
        RawInst::Phi { entries, .. } => entries.len(),
    }
}

// Whether the value at a place of an instruction's line names a function.
fn names_func_at(alloc: Global, names: &Names, inst: &RawInst, k: usize) -> Result<bool, NoMemory>
    ensures { IfOk result (λ t. IsTrue t ↔ ((v : RawVal) × (slice_get (values_of inst.now) k ≡ Some v) × HasName (global_of v) names.now.funcs)) }
{
    match value_at(inst, k) {
        Some(val) => names_func(alloc, names, val),
        None => Ok(false),
    }
}

// Whether a value of an instruction names a function.
fn inst_names(alloc: Global, names: &Names, inst: &RawInst) -> Result<bool, NoMemory>
    ensures { IfOk result (λ t. IsTrue t ↔ HasName (flat_map global_of (values_of inst.now)) names.now.funcs) }
{
    for k in 0..value_count(inst) {
        if names_func_at(alloc, names, inst, k)? {
            return Ok(true);
        }
    }
    Ok(false)
}

// Whether an instruction calls a global variable.
fn calls_global(alloc: Global, names: &Names, inst: &RawInst) -> Result<bool, NoMemory>
    ensures { IfOk result (λ t. IsTrue t ↔ HasName (callee_of inst.now) names.now.globals) }
{
    match inst {
        RawInst::Call { callee, .. } => is_global(alloc, names, callee),
        RawInst::Alloca { .. }
        | RawInst::Gep { .. }
        | RawInst::Step { .. }
        | RawInst::Load { .. }
        | RawInst::Store { .. }
        | RawInst::Copy { .. }
        | RawInst::Bin { .. }
        | RawInst::Cmp { .. }
        | RawInst::Select { .. }
        | RawInst::Cast { .. }
        | RawInst::Phi { .. } => Ok(false),
    }
}

fn inst_raw(alloc: Global, names: &Names, inst: &RawInst) -> Result<bool, NoMemory>
    ensures { IfOk result (λ t. IsTrue t ↔ (HasName (flat_map global_of (values_of inst.now)) names.now.funcs ⊎ HasName (callee_of inst.now) names.now.globals)) }
{
    let named = inst_names(alloc, names, inst)?;
    let called = calls_global(alloc, names, inst)?;
    Ok(named || called)
}

fn term_raw(alloc: Global, names: &Names, term: &RawTerm) -> Result<bool, NoMemory>
    ensures { IfOk result (λ t. IsTrue t ↔ HasName (flat_map global_of (term_values term.now)) names.now.funcs) }
{
    match term {
        RawTerm::CondBr(cond, ..) => names_func(alloc, names, cond),
        RawTerm::Ret(Some(given), _) => names_func(alloc, names, &given.1),
        RawTerm::Ret(None, _) | RawTerm::Br(..) | RawTerm::Unreachable(..) => Ok(false),
    }
}

fn raw_fault(alloc: Global, names: &Names, line: &Line) -> Result<bool, NoMemory>
    ensures { IfOk result (λ t. IsTrue t ↔ RawFault names.now line.now) }
{
    match line {
        Line::Inst(_, inst) => inst_raw(alloc, names, inst),
        Line::Term(term) => term_raw(alloc, names, term),
        _ => Ok(false),
    }
}

// The line at a place of a draft, where it has such a name.
fn raw_line(
    alloc: Global,
    names: &Names,
    draft: &Items<(u32, Line)>,
    k: usize,
) -> Result<Option<u32>, NoMemory>
    ensures { IfOk result (λ r. Tells (LineHas names.now draft.now k) r) }
{
    match draft.get(k) {
        Some(at) => {
            if raw_fault(alloc, names, &at.1)? {
                Ok(Some(at.0))
            } else {
                Ok(None)
            }
        }
        None => Ok(None),
    }
}

/// The least line of a draft that names a function where a global variable is wanted, or calls a global variable.
pub fn draft_fault(
    alloc: Global,
    names: &Names,
    draft: &Items<(u32, Line)>,
) -> Result<Option<u32>, NoMemory>
    ensures { IfOk result (λ r. Tells (λ n. (k : ℕ) × LineHas names.now draft.now k n) r) }
{
    let mut found = None;
    for k in 0..draft.len() {
        found = earlier(found, raw_line(alloc, names, draft, k)?);
    }
    Ok(found)
}
