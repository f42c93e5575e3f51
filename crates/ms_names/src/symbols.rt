// The names of a module's functions and globals.
ghost use Rattle.std.specs.Prelude.{◌≡◌, drop, OnOk, IfOk};
ghost use Rattle.ms_names.specs.Draft.{symbols_with, symbols_after, no_symbols, with_func, with_global};

use crate::faults::with_fault;
use crate::table::Words;
use ms_grammar::Line;
use ms_ir::NoMemory;
use std::alloc::Global;

/// The names of a module's functions and globals in the order of the lines, each also among its own kind, and the least line that makes one
/// again.
#[derive(Drop)]
pub struct Symbols<'a> {
    pub all: Words<'a>,
    pub funcs: Words<'a>,
    pub globals: Words<'a>,
    pub least: Option<u32>,
}

impl<'a> Symbols<'a> {
    fn new(alloc: Global) -> Symbols<'a>
        ensures { result ≡ no_symbols }
    {
        Symbols {
            all: Words::new(alloc),
            funcs: Words::new(alloc),
            globals: Words::new(alloc),
            least: None,
        }
    }

    fn add_func(&mut self, n: u32, name: &'a [u8]) -> Result<(), NoMemory>
        ensures { OnOk result (self.new ≡ with_func self.old n name.now) }
    {
        self.least = with_fault(self.least, self.all.find(name).is_some(), n);
        self.all.add(name)?;
        self.funcs.add(name)?;
        Ok(())
    }

    fn add_global(&mut self, n: u32, name: &'a [u8]) -> Result<(), NoMemory>
        ensures { OnOk result (self.new ≡ with_global self.old n name.now) }
    {
        self.least = with_fault(self.least, self.all.find(name).is_some(), n);
        self.all.add(name)?;
        self.globals.add(name)?;
        Ok(())
    }

    fn add_line(&mut self, n: u32, line: &'a Line) -> Result<(), NoMemory>
        ensures { OnOk result (self.new ≡ symbols_with self.old n line.now) }
    {
        match line {
            Line::GlobalVar(name, _) => self.add_global(n, name.bytes())?,
            Line::Declare(head) | Line::Define(head) => self.add_func(n, head.name.bytes())?,
            _ => {}
        }
        Ok(())
    }
}

/// The names that a module's lines make.
pub fn symbols_of<'a>(alloc: Global, lines: &'a [(u32, Line)]) -> Result<Symbols<'a>, NoMemory>
    ensures { IfOk result (λ s. s ≡ symbols_after no_symbols lines.now) }
{
    let mut symbols = Symbols::new(alloc);
    for (n, line) in lines {
        symbols.add_line(*n, line)?;
    }
    Ok(symbols)
}
