// The names of a function's locals and blocks.
ghost use Rattle.std.specs.Prelude.{◌≡◌, ◌∷◌, ◌++◌, [], OnOk, IfOk};
ghost use Rattle.ms_names.specs.Made.{makes, free_behind};
ghost use Rattle.ms_names.specs.Draft.{register_with, register_all, params_after, lines_after, line_made, first_made, register_in, no_names, is_label, with_full};

use crate::faults::with_fault;
use crate::table::NameTable;
use ms_grammar::{Head, Line, RawInst};
use ms_ir::{Name, NoMemory, Param};
use std::alloc::Global;

/// The names that a function's locals and blocks get, in the order of the text, the next free number, and the least line that makes a name
/// again or writes a number that is too small. A name names what is made first with it: what is made again has none.
#[derive(Drop)]
pub struct Register<'a> {
    pub locals: NameTable<'a>,
    pub blocks: NameTable<'a>,
    pub next: u64,
    pub least: Option<u32>,
}

/// Whether an instruction gives a result.
pub fn makes(inst: &RawInst) -> bool
    ensures { result ≡ makes inst.now }
{
    match inst {
        RawInst::Store { .. } | RawInst::Copy { .. } => false,
        RawInst::Call { ret, .. } => ret.is_some(),
        RawInst::Alloca { .. }
        | RawInst::Gep { .. }
        | RawInst::Step { .. }
        | RawInst::Load { .. }
        | RawInst::Bin { .. }
        | RawInst::Cmp { .. }
        | RawInst::Select { .. }
        | RawInst::Cast { .. }
        | RawInst::Phi { .. } => true,
    }
}

fn is_label(line: &Line) -> bool
    ensures { result ≡ is_label line.now }
{
    match line {
        Line::Label(_) => true,
        _ => false,
    }
}

impl<'a> Register<'a> {
    fn new(alloc: Global) -> Register<'a>
        ensures { result ≡ no_names }
    {
        Register {
            locals: NameTable::new(alloc),
            blocks: NameTable::new(alloc),
            next: 0,
            least: None,
        }
    }

    fn add_word(
        &mut self,
        alloc: Global,
        n: u32,
        is_block: bool,
        word: &'a [u8],
    ) -> Result<(), NoMemory>
        ensures { OnOk result (self.new ≡ with_full self.old n is_block (Name.Word word.now)) }
    {
        let again = self.locals.find_word(word).is_some() || self.blocks.find_word(word).is_some();
        self.least = with_fault(self.least, again, n);
        if is_block {
            self.blocks.note_word(alloc, word, again)?;
        } else {
            self.locals.note_word(alloc, word, again)?;
        }
        Ok(())
    }

    fn add_number(&mut self, n: u32, is_block: bool, number: u32) -> Result<(), NoMemory>
        ensures { OnOk result (self.new ≡ with_full self.old n is_block (Name.Number number)) }
    {
        let again = self.locals.find_number(number).is_some()
            || self.blocks.find_number(number).is_some();
        self.least = with_fault(self.least, again, n);
        if is_block {
            self.blocks.note_number(number, again)?;
        } else {
            self.locals.note_number(number, again)?;
        }
        Ok(())
    }

    fn add_absent(&mut self, n: u32, is_block: bool) -> Result<(), NoMemory>
        ensures { OnOk result (self.new ≡ register_with self.old (record { line = n; is_block = is_block; name = Name.Absent })) }
    {
        let number = self.next;
        if number >= 1 << 32 {
            return Err(NoMemory);
        }
        self.add_number(n, is_block, number as u32)?;
        self.next = number + 1;
        Ok(())
    }

    fn add(&mut self, alloc: Global, n: u32, is_block: bool, name: &'a Name) -> Result<(), NoMemory>
        ensures { OnOk result (self.new ≡ register_with self.old (record { line = n; is_block = is_block; name = name.now })) }
    {
        match name {
            Name::Word(text) => self.add_word(alloc, n, is_block, text.bytes())?,
            Name::Number(number) => {
                self.least = with_fault(self.least, (*number as u64) < self.next, n);
                self.add_number(n, is_block, *number)?;
                self.next = *number as u64 + 1;
            }
            Name::Absent => self.add_absent(n, is_block)?,
        }
        Ok(())
    }

    fn add_params(&mut self, alloc: Global, n: u32, params: &'a [Param]) -> Result<(), NoMemory>
        ensures { OnOk result (self.new ≡ params_after self.old n params.now) }
    {
        for param in params {
            self.add(alloc, n, false, &param.name)?;
        }
        Ok(())
    }

    fn add_line(&mut self, alloc: Global, n: u32, line: &'a Line) -> Result<(), NoMemory>
        ensures { OnOk result (self.new ≡ register_all self.old (line_made n line.now)) }
    {
        match line {
            Line::Label(name) => self.add(alloc, n, true, name)?,
            Line::Inst(name, inst) => {
                if makes(inst) {
                    self.add(alloc, n, false, name)?;
                }
            }
            _ => {}
        }
        Ok(())
    }

    fn add_first(&mut self, n: u32, body: &[(u32, Line)]) -> Result<(), NoMemory>
        ensures { OnOk result (self.new ≡ register_all self.old (first_made n body.now)) }
    {
        match body {
            [first, ..] => {
                if !is_label(&first.1) {
                    self.add_absent(n, true)?;
                }
            }
            [] => self.add_absent(n, true)?,
        }
        Ok(())
    }

    fn add_lines(&mut self, alloc: Global, body: &'a [(u32, Line)]) -> Result<(), NoMemory>
        ensures { OnOk result (self.new ≡ lines_after self.old body.now) }
    {
        for (n, line) in body {
            self.add_line(alloc, *n, line)?;
        }
        Ok(())
    }
}

/// The names of a function of this line, head and body.
pub fn register_of<'a>(
    alloc: Global,
    n: u32,
    head: &'a Head,
    body: &'a [(u32, Line)],
) -> Result<Register<'a>, NoMemory>
    ensures { IfOk result (λ r. r ≡ register_in n head.now body.now) }
{
    let mut register = Register::new(alloc);
    register.add_params(alloc, n, head.params.as_slice())?;
    register.add_first(n, body)?;
    register.add_lines(alloc, body)?;
    Ok(register)
}
