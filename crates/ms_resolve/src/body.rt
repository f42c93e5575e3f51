// Functions from their lines.
ghost use Rattle.std.specs.Prelude.{◌≡◌, OnOk, IfOk};
ghost use Rattle.ms_resolve.specs.Reader.{scope_by};
ghost use Rattle.ms_resolve.specs.Build.{bare, with_shell, shell_line, shells_after, with_inst, inst_line, block_behind, insts_after, head_in, func_in, numbers_with, numbers_after, no_numbers};

use crate::reader::{Reader, copy, name_at};
use crate::resolved::BodyLines;
use ms_grammar::{Head, Line, RawInst, RawTerm};
use ms_ir::{BlockNo, Func, Items, NoMemory};
use std::alloc::Global;

fn add_shell(reader: &Reader, func: &mut Func, term: &RawTerm) -> Result<(), NoMemory>
    ensures { OnOk result (func.new ≡ with_shell (scope_by reader.now) func.old term.now) }
{
    let count = func.block_count();
    if count >= 0x7fff_ffff {
        return Err(NoMemory);
    }
    let name = name_at(reader.alloc, reader.register.blocks.names(), count as u64)?;
    let term = reader.term(term)?;
    func.add_block(name, term)?;
    Ok(())
}

fn shell_line(reader: &Reader, func: &mut Func, line: &Line) -> Result<(), NoMemory>
    ensures { OnOk result (func.new ≡ shell_line (scope_by reader.now) func.old line.now) }
{
    match line {
        Line::Term(term) => add_shell(reader, func, term),
        _ => Ok(()),
    }
}

// The blocks, each with its terminator.
fn add_shells(reader: &Reader, func: &mut Func, lines: &[(u32, Line)]) -> Result<(), NoMemory>
    ensures { OnOk result (func.new ≡ shells_after (scope_by reader.now) func.old lines.now) }
{
    for (_, line) in lines {
        shell_line(reader, func, line)?;
    }
    Ok(())
}

// An instruction comes to the end of a block.
fn add_inst(reader: &Reader, func: &mut Func, b: u32, inst: &RawInst) -> Result<(), NoMemory>
    ensures { OnOk result (bare func.new ≡ with_inst (scope_by reader.now) b func.old inst.now) }
{
    if b >= func.block_count() || func.made() == u32::MAX {
        return Err(NoMemory);
    }
    func.reserve(1)?;
    let place = func.count(BlockNo(b));
    let name = reader.result_name(inst, func.local_count())?;
    let inst = reader.inst(inst)?;
    func.put_inst(BlockNo(b), place, inst, name);
    Ok(())
}

fn inst_line(reader: &Reader, func: &mut Func, b: u32, line: &Line) -> Result<(), NoMemory>
    ensures { OnOk result (bare func.new ≡ inst_line (scope_by reader.now) b func.old line.now) }
{
    match line {
        Line::Inst(_, inst) => add_inst(reader, func, b, inst),
        _ => Ok(()),
    }
}

// The block of the next line.
fn block_behind(b: u32, line: &Line) -> Result<u32, NoMemory>
    ensures { IfOk result (λ r. r ≡ block_behind b line.now) }
{
    match line {
        Line::Term(_) => {
            if b == u32::MAX {
                return Err(NoMemory);
            }
            Ok(b + 1)
        }
        _ => Ok(b),
    }
}

// The instructions, each in its block.
fn add_insts(reader: &Reader, func: &mut Func, lines: &[(u32, Line)]) -> Result<(), NoMemory>
    ensures { OnOk result (bare func.new ≡ insts_after (scope_by reader.now) 0 func.old lines.now) }
{
    let mut b = 0;
    for (_, line) in lines {
        inst_line(reader, func, b, line)?;
        b = block_behind(b, line)?;
    }
    Ok(())
}

// A function without a block.
fn head_of(reader: &Reader, head: &Head) -> Result<Func, NoMemory>
    ensures { IfOk result (λ f. f ≡ head_in (scope_by reader.now) head.now) }
{
    let alloc = reader.alloc;
    let name = copy(alloc, &head.name)?;
    let attrs = copy(alloc, &head.attrs)?;
    let post = copy(alloc, &head.post)?;
    let params = reader.params(head.params.as_slice())?;
    if params.len() >= 1 << 32 {
        return Err(NoMemory);
    }
    Ok(Func::new(alloc, name, attrs, head.ret, params, post))
}

// All blocks come first, since an instruction comes to a block that is there.
fn fill(reader: &Reader, func: &mut Func, body: &[(u32, Line)]) -> Result<(), NoMemory>
    ensures { OnOk result (bare func.new ≡ insts_after (scope_by reader.now) 0 (shells_after (scope_by reader.now) func.old body.now) body.now) }
{
    add_shells(reader, func, body)?;
    add_insts(reader, func, body)
}

// The function of a head and a body.
pub(crate) fn func_of(reader: &Reader, head: &Head, body: &[(u32, Line)]) -> Result<Func, NoMemory>
    ensures { IfOk result (λ f. bare f ≡ func_in (scope_by reader.now) head.now body.now) }
{
    let mut func = head_of(reader, head)?;
    fill(reader, &mut func, body)?;
    Ok(func)
}

impl BodyLines {
    fn new(alloc: Global) -> BodyLines
        ensures { result ≡ no_numbers }
    {
        BodyLines {
            insts: Items::new(alloc),
            terms: Items::new(alloc),
        }
    }

    fn add_line(&mut self, n: u32, line: &Line) -> Result<(), NoMemory>
        ensures { OnOk result (self.new ≡ numbers_with self.old n line.now) }
    {
        match line {
            Line::Inst(..) => self.insts.push(n),
            Line::Term(_) => self.terms.push(n),
            _ => Ok(()),
        }
    }
}

// The lines of a body's instructions and terminators.
pub(crate) fn numbers_of(alloc: Global, lines: &[(u32, Line)]) -> Result<BodyLines, NoMemory>
    ensures { IfOk result (λ b. b ≡ numbers_after no_numbers lines.now) }
{
    let mut numbers = BodyLines::new(alloc);
    for (n, line) in lines {
        numbers.add_line(*n, line)?;
    }
    Ok(numbers)
}
