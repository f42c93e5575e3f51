// Whether the names of a line are short enough.
ghost use Rattle.std.specs.Prelude.{◌≡◌};
ghost use Rattle.ms_grammar.specs.Form.{name_text};
ghost use Rattle.ms_grammar.specs.Limits.{names_of_value, names_of_arg, names_of_param, names_of_entry, names_of_index, names_of_inst, names_of_given, names_of_term, names_of_head, names_of};
ghost use Rattle.std.specs.List.{list_all};
ghost use Rattle.ms_line.specs.Short.{is_short, are_short};

use ms_grammar::{Head, Line, RawArg, RawEntry, RawIndex, RawInst, RawTerm, RawVal};
use ms_ir::{Name, Param, Ty};

const MOST_BYTES: usize = 255;

fn is_short(name: &[u8]) -> bool
    ensures { result ≡ is_short name.now }
{
    name.len() <= MOST_BYTES
}

// A number is printed with few digits.
#[tactic(auto, using(crate::proofs::ShortLemmas::short_number))]
fn is_short_name(name: &Name) -> bool
    ensures { result ≡ is_short (name_text name.now) }
{
    match name {
        Name::Word(text) => is_short(text.bytes()),
        Name::Number(_) | Name::Absent => true,
    }
}

fn is_short_value(value: &RawVal) -> bool
    ensures { result ≡ are_short (names_of_value value.now) }
{
    match value {
        RawVal::Num(_, _) => true,
        RawVal::Local(name) | RawVal::Global(name) => is_short_name(name),
    }
}

fn are_short_args(args: &[RawArg]) -> bool
    ensures { result ≡ list_all (λ arg. are_short (names_of_arg arg)) args.now }
{
    args.iter().all(|arg| is_short_value(&arg.val))
}

fn are_short_entries(entries: &[RawEntry]) -> bool
    ensures { result ≡ list_all (λ entry. are_short (names_of_entry entry)) entries.now }
{
    entries.iter().all(|entry| is_short_name(&entry.from) && is_short_value(&entry.val))
}

fn are_short_terms(terms: &[RawIndex]) -> bool
    ensures { result ≡ list_all (λ term. are_short (names_of_index term)) terms.now }
{
    terms.iter().all(|term| is_short_value(&term.val))
}

fn are_short_params(params: &[Param]) -> bool
    ensures { result ≡ list_all (λ param. are_short (names_of_param param)) params.now }
{
    params.iter().all(|param| is_short_name(&param.name))
}

#[tactic(auto, using(crate::proofs::ShortLemmas::short_append, crate::proofs::ShortLemmas::all_flat))]
fn is_short_inst(inst: &RawInst) -> bool
    ensures { result ≡ are_short (names_of_inst inst.now) }
{
    match inst {
        RawInst::Alloca { .. } => true,
        RawInst::Gep { base, .. } => is_short_value(base),
        RawInst::Step { base, terms, .. } => {
            is_short_value(base) && are_short_terms(terms.as_slice())
        }
        RawInst::Load { ptr, .. } => is_short_value(ptr),
        RawInst::Store { val, ptr, .. } => is_short_value(val) && is_short_value(ptr),
        RawInst::Copy { to, from, .. } => is_short_value(&to.val) && is_short_value(&from.val),
        RawInst::Call { callee, args, .. } => {
            is_short_name(callee) && are_short_args(args.as_slice())
        }
        RawInst::Bin { a, b, .. } | RawInst::Cmp { a, b, .. } => {
            is_short_value(a) && is_short_value(b)
        }
        RawInst::Select { cond, a, b, .. } => {
            is_short_value(cond) && is_short_value(a) && is_short_value(b)
        }
        RawInst::Cast { a, .. } => is_short_value(a),
        RawInst::Phi { entries, .. } => are_short_entries(entries.as_slice()),
    }
}

fn is_short_given(given: &Option<(Ty, RawVal)>) -> bool
    ensures { result ≡ are_short (names_of_given given.now) }
{
    match given {
        None => true,
        Some((_, value)) => is_short_value(value),
    }
}

fn is_short_term(term: &RawTerm) -> bool
    ensures { result ≡ are_short (names_of_term term.now) }
{
    match term {
        RawTerm::Br(target, _) => is_short_name(target),
        RawTerm::CondBr(cond, if_true, if_false, _) => {
            is_short_name(if_true) && is_short_name(if_false) && is_short_value(cond)
        }
        RawTerm::Ret(given, _) => is_short_given(given),
        RawTerm::Unreachable(_) => true,
    }
}

#[tactic(auto, using(crate::proofs::ShortLemmas::all_flat))]
fn is_short_head(head: &Head) -> bool
    ensures { result ≡ are_short (names_of_head head.now) }
{
    is_short(head.name.bytes()) && are_short_params(head.params.as_slice())
}

// Whether each name of a line has at most 255 bytes.
pub fn is_short_line(line: &Line) -> bool
    ensures { result ≡ are_short (names_of line.now) }
{
    match line {
        Line::Empty | Line::Close | Line::Kept(_) | Line::Group(_, _) => true,
        Line::GlobalVar(name, _) => is_short(name.bytes()),
        Line::Label(name) => is_short_name(name),
        Line::Declare(head) | Line::Define(head) => is_short_head(head),
        Line::Inst(name, inst) => is_short_name(name) && is_short_inst(inst),
        Line::Term(term) => is_short_term(term),
    }
}
