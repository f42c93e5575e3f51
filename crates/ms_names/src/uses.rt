// The names that lines use.
ghost use Rattle.std.specs.Prelude.{◌≡◌, not, IfOk};
ghost use Rattle.std.specs.List.{list_any};
ghost use Rattle.ms_grammar.specs.Form.{name_text};
ghost use Rattle.ms_names.specs.Places.{word_place};
ghost use Rattle.ms_names.specs.Draft.{is_inside, body_lines};
ghost use Rattle.ms_names.specs.Uses.{known_by, lacks_symbol, lacks_block, lacks_value, lacks_arg, lacks_entry, lacks_index, lacks_given, inst_lacks, term_lacks, line_lacks, least_lacking, least_in, least_in_line, least_after};

use crate::faults::{earlier, with_fault};
use crate::register::{Register, register_of};
use crate::table::Words;
use itoa::Buffer;
use ms_grammar::{Head, Line, RawArg, RawEntry, RawIndex, RawInst, RawTerm, RawVal};
use ms_ir::{Name, NoMemory, Ty};
use std::alloc::Global;

/// The first place of the word that a name spells.
pub fn symbol_place(words: &Words, name: &Name) -> Option<u64>
    ensures { result ≡ word_place words.now (name_text name.now) }
{
    match name {
        Name::Word(text) => words.find(text.bytes()),
        Name::Number(n) => {
            let mut buffer = Buffer::new();
            words.find(buffer.format(*n).as_bytes())
        }
        Name::Absent => words.find(&[]),
    }
}

fn lacks_symbol(register: &Register, symbols: &Words, name: &Name) -> bool
    ensures { result ≡ lacks_symbol (known_by register.now symbols.now) name.now }
{
    symbol_place(symbols, name).is_none()
}

fn lacks_block(register: &Register, symbols: &Words, name: &Name) -> bool
    ensures { result ≡ lacks_block (known_by register.now symbols.now) name.now }
{
    register.blocks.find(name).is_none()
}

fn lacks_value(register: &Register, symbols: &Words, val: &RawVal) -> bool
    ensures { result ≡ lacks_value (known_by register.now symbols.now) val.now }
{
    match val {
        RawVal::Num(..) => false,
        RawVal::Local(name) => register.locals.find(name).is_none(),
        RawVal::Global(name) => lacks_symbol(register, symbols, name),
    }
}

fn lacks_arg(register: &Register, symbols: &Words, arg: &RawArg) -> bool
    ensures { result ≡ lacks_arg (known_by register.now symbols.now) arg.now }
{
    lacks_value(register, symbols, &arg.val)
}

fn lacks_in_args(register: &Register, symbols: &Words, args: &[RawArg]) -> bool
    ensures { result ≡ list_any (lacks_arg (known_by register.now symbols.now)) args.now }
{
    for arg in args {
        if lacks_arg(register, symbols, arg) {
            return true;
        }
    }
    false
}

fn lacks_entry(register: &Register, symbols: &Words, entry: &RawEntry) -> bool
    ensures { result ≡ lacks_entry (known_by register.now symbols.now) entry.now }
{
    lacks_value(register, symbols, &entry.val) || lacks_block(register, symbols, &entry.from)
}

fn lacks_in_entries(register: &Register, symbols: &Words, entries: &[RawEntry]) -> bool
    ensures { result ≡ list_any (lacks_entry (known_by register.now symbols.now)) entries.now }
{
    for entry in entries {
        if lacks_entry(register, symbols, entry) {
            return true;
        }
    }
    false
}

fn lacks_index(register: &Register, symbols: &Words, term: &RawIndex) -> bool
    ensures { result ≡ lacks_index (known_by register.now symbols.now) term.now }
{
    lacks_value(register, symbols, &term.val)
}

fn lacks_in_terms(register: &Register, symbols: &Words, terms: &[RawIndex]) -> bool
    ensures { result ≡ list_any (lacks_index (known_by register.now symbols.now)) terms.now }
{
    for term in terms {
        if lacks_index(register, symbols, term) {
            return true;
        }
    }
    false
}

fn lacks_given(register: &Register, symbols: &Words, given: &Option<(Ty, RawVal)>) -> bool
    ensures { result ≡ lacks_given (known_by register.now symbols.now) given.now }
{
    match given {
        Some(given) => lacks_value(register, symbols, &given.1),
        None => false,
    }
}

fn inst_lacks(register: &Register, symbols: &Words, inst: &RawInst) -> bool
    ensures { result ≡ inst_lacks (known_by register.now symbols.now) inst.now }
{
    match inst {
        RawInst::Alloca { .. } => false,
        RawInst::Gep { base, .. } => lacks_value(register, symbols, base),
        RawInst::Step { base, terms, .. } => {
            lacks_value(register, symbols, base)
                || lacks_in_terms(register, symbols, terms.as_slice())
        }
        RawInst::Load { ptr, .. } => lacks_value(register, symbols, ptr),
        RawInst::Store { val, ptr, .. } => {
            lacks_value(register, symbols, val) || lacks_value(register, symbols, ptr)
        }
        RawInst::Copy { to, from, .. } => {
            lacks_arg(register, symbols, to) || lacks_arg(register, symbols, from)
        }
        RawInst::Call { callee, args, .. } => {
            lacks_in_args(register, symbols, args.as_slice())
                || lacks_symbol(register, symbols, callee)
        }
        RawInst::Bin { a, b, .. } | RawInst::Cmp { a, b, .. } => {
            lacks_value(register, symbols, a) || lacks_value(register, symbols, b)
        }
        RawInst::Select { cond, a, b, .. } => {
            lacks_value(register, symbols, cond)
                || (lacks_value(register, symbols, a) || lacks_value(register, symbols, b))
        }
        RawInst::Cast { a, .. } => lacks_value(register, symbols, a),
        RawInst::Phi { entries, .. } => lacks_in_entries(register, symbols, entries.as_slice()),
    }
}

fn term_lacks(register: &Register, symbols: &Words, term: &RawTerm) -> bool
    ensures { result ≡ term_lacks (known_by register.now symbols.now) term.now }
{
    match term {
        RawTerm::Br(to, _) => lacks_block(register, symbols, to),
        RawTerm::CondBr(cond, if_true, if_false, _) => {
            lacks_value(register, symbols, cond)
                || (lacks_block(register, symbols, if_true)
                    || lacks_block(register, symbols, if_false))
        }
        RawTerm::Ret(given, _) => lacks_given(register, symbols, given),
        RawTerm::Unreachable(_) => false,
    }
}

fn line_lacks(register: &Register, symbols: &Words, line: &Line) -> bool
    ensures { result ≡ line_lacks (known_by register.now symbols.now) line.now }
{
    match line {
        Line::Inst(_, inst) => inst_lacks(register, symbols, inst),
        Line::Term(term) => term_lacks(register, symbols, term),
        _ => false,
    }
}

// The least line of these, and of one before, that uses a name that is not there.
fn least_lacking(
    register: &Register,
    symbols: &Words,
    before: Option<u32>,
    lines: &[(u32, Line)],
) -> Option<u32>
    ensures { result ≡ least_lacking (known_by register.now symbols.now) before lines.now }
{
    let mut least = before;
    for (n, line) in lines {
        least = with_fault(least, line_lacks(register, symbols, line), *n);
    }
    least
}

// The least line of a function with a fault in its names.
fn least_in(
    alloc: Global,
    symbols: &Words,
    n: u32,
    head: &Head,
    body: &[(u32, Line)],
) -> Result<Option<u32>, NoMemory>
    ensures { IfOk result (λ least. least ≡ least_in symbols.now n head.now body.now) }
{
    let register = register_of(alloc, n, head, body)?;
    Ok(least_lacking(&register, symbols, register.least, body))
}

fn is_inside(line: &Line) -> bool
    ensures { result ≡ is_inside line.now }
{
    match line {
        Line::Close => false,
        _ => true,
    }
}

/// The lines up to a function's last one.
pub fn body_of(lines: &[(u32, Line)]) -> &[(u32, Line)]
    ensures { result.now ≡ body_lines lines.now }
{
    for (at, (_, line)) in lines.iter().enumerate() {
        if !is_inside(line) {
            return &lines[..at];
        }
    }
    lines
}

fn least_in_line(
    alloc: Global,
    symbols: &Words,
    n: u32,
    line: &Line,
    rest: &[(u32, Line)],
) -> Result<Option<u32>, NoMemory>
    ensures { IfOk result (λ least. least ≡ least_in_line symbols.now n line.now rest.now) }
{
    match line {
        Line::Define(head) => Ok(least_in(alloc, symbols, n, head, body_of(rest))?),
        _ => Ok(None),
    }
}

/// The least line of all functions with a fault in its names, and of one before.
pub fn least_in_functions(
    alloc: Global,
    symbols: &Words,
    before: Option<u32>,
    lines: &[(u32, Line)],
) -> Result<Option<u32>, NoMemory>
    ensures { IfOk result (λ least. least ≡ least_after symbols.now before lines.now) }
{
    let mut least = before;
    for (at, (n, line)) in lines.iter().enumerate() {
        least = earlier(
            least,
            least_in_line(alloc, symbols, *n, line, &lines[at + 1..])?,
        );
    }
    Ok(least)
}
