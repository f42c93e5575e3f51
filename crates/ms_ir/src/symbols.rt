// The names of a module: a set for the functions and one for the globals, in the order of their numbers.
ghost use Rattle.std.specs.Prelude.{◌≡◌, ◌+◌, ◌-◌, ◌<◌, ◌^◌, ℕ, [], ◌∷◌, ◌++◌, length, slice_get, option_map, MatchOption, IfSome, IfOk, OnErr, Some};
ghost use Rattle.ms_ir.specs.Symbols.{NotNamed};

use crate::items::{NoMemory, Text};
use crate::names::{FuncNo, GlobalNo};
use indexmap::IndexSet;
use std::alloc::Global;
use std::marker::Model;

// Names in the order of their adding, each found in constant time.
#[derive(Drop)]
struct Table {
    names: IndexSet<Vec<u8>>,
}

impl Model for Table {
    ghost use Rattle.std.specs.Prelude.{List, ℕ, ◌<◌, ◌^◌, length, map};
    ghost use Rattle.std.specs.Coded.{coded_list, coded_ℕ};
    ghost use Rattle.ms_ir.specs.Symbols.{AreDistinct};

    ghost Value = { List (List ℕ) };

    ghost coded = { coded_list (coded_list coded_ℕ) };

    ghost view = { λ t. map (λ v. v.items) t.names.keys };

    ghost invariant = { λ t. AreDistinct (map (λ v. v.items) t.names.keys) × (length t.names.keys < 2 ^ 32) };
}

impl Table {
    fn new(alloc: Global) -> Table
        ensures { result ≡ [] }
    {
        Table {
            names: IndexSet::new(alloc),
        }
    }

    fn get(&self, n: u32) -> Option<&[u8]>
        ensures { option_map (λ s. s.now) result ≡ slice_get self.now n }
    {
        match self.names.get_index(n as usize) {
            Some(name) => Some(name.as_slice()),
            None => None,
        }
    }

    fn find(&self, name: &[u8]) -> Option<u32>
        ensures found { MatchOption result (NotNamed self.now name.now) (λ n. slice_get self.now n ≡ Some name.now) }
        ensures each { IfSome result (λ n. (m : ℕ) → slice_get self.now m ≡ Some name.now → m ≡ n) }
    {
        match self.names.get_index_of(name) {
            Some(at) => Some(at as u32),
            None => None,
        }
    }

    fn add(&mut self, name: Text) -> Result<u32, NoMemory>
        requires new { NotNamed self.old name }
        requires few { length self.old < 2 ^ 32 - 1 }
        ensures ok { IfOk result (λ n. (n ≡ length self.old) × (self.new ≡ self.old ++ name ∷ [])) }
        ensures err { OnErr result (self.new ≡ self.old) }
    {
        let number = self.names.len() as u32;
        self.names.insert(name.into_vec())?;
        Ok(number)
    }
}

/// The names of a module's functions and of its globals. Each name stands once.
#[derive(Drop)]
pub struct Names {
    funcs: Table,
    globals: Table,
}

impl Model for Names {
    ghost use Rattle.ms_ir.specs.Symbols.{NamesState};

    ghost Value = { NamesState };

    ghost view = { λ n. record { funcs = n.funcs; globals = n.globals } };
}

impl Names {
    /// No names. It takes no memory.
    pub fn new(alloc: Global) -> Names
        ensures { result ≡ record { funcs = []; globals = [] } }
    {
        Names {
            funcs: Table::new(alloc),
            globals: Table::new(alloc),
        }
    }

    /// The name of a function. `None` exactly where there is no such function.
    pub fn func_name(&self, f: FuncNo) -> Option<&[u8]>
        ensures { option_map (λ s. s.now) result ≡ slice_get self.now.funcs f.0 }
    {
        self.funcs.get(f.0)
    }

    /// The name of a global. `None` exactly where there is no such global.
    pub fn global_name(&self, g: GlobalNo) -> Option<&[u8]>
        ensures { option_map (λ s. s.now) result ≡ slice_get self.now.globals g.0 }
    {
        self.globals.get(g.0)
    }

    /// The function of a name. `None` exactly where no function has it.
    pub fn find_func(&self, name: &[u8]) -> Option<FuncNo>
        ensures found { MatchOption result (NotNamed self.now.funcs name.now) (λ f. slice_get self.now.funcs f.0 ≡ Some name.now) }
        // No other function has the name.
        ensures each { IfSome result (λ f. (n : ℕ) → slice_get self.now.funcs n ≡ Some name.now → n ≡ f.0) }
    {
        match self.funcs.find(name) {
            Some(number) => Some(FuncNo(number)),
            None => None,
        }
    }

    /// The global of a name. `None` exactly where no global has it.
    pub fn find_global(&self, name: &[u8]) -> Option<GlobalNo>
        ensures found { MatchOption result (NotNamed self.now.globals name.now) (λ g. slice_get self.now.globals g.0 ≡ Some name.now) }
        // No other global has the name.
        ensures each { IfSome result (λ g. (n : ℕ) → slice_get self.now.globals n ≡ Some name.now → n ≡ g.0) }
    {
        match self.globals.find(name) {
            Some(number) => Some(GlobalNo(number)),
            None => None,
        }
    }

    // A function more, whose name is new among the functions.
    pub(crate) fn add_func(&mut self, name: Text) -> Result<FuncNo, NoMemory>
        requires new { NotNamed self.old.funcs name }
        requires few { length self.old.funcs < 2 ^ 32 - 1 }
        ensures ok { IfOk result (λ f. (f.0 ≡ length self.old.funcs) × (self.new ≡ record self.old { funcs = self.old.funcs ++ name ∷ [] })) }
        ensures err { OnErr result (self.new ≡ self.old) }
    {
        let number = self.funcs.add(name)?;
        Ok(FuncNo(number))
    }

    // A global more, whose name is new among the globals.
    pub(crate) fn add_global(&mut self, name: Text) -> Result<GlobalNo, NoMemory>
        requires new { NotNamed self.old.globals name }
        requires few { length self.old.globals < 2 ^ 32 - 1 }
        ensures ok { IfOk result (λ g. (g.0 ≡ length self.old.globals) × (self.new ≡ record self.old { globals = self.old.globals ++ name ∷ [] })) }
        ensures err { OnErr result (self.new ≡ self.old) }
    {
        let number = self.globals.add(name)?;
        Ok(GlobalNo(number))
    }
}
