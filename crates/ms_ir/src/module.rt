// Modules: items in the order of the text, functions by number, and names.
ghost use Rattle.std.specs.Prelude.{◌≡◌, ◌+◌, ◌-◌, ◌<◌, ◌^◌, ℕ, [], ◌∷◌, ◌++◌, length, slice_get, slice_set, option_map, MatchOption, IfOk, OnOk, OnErr, Some, None};
ghost use Rattle.std.specs.Option.{option_copied};
ghost use Rattle.ms_ir.specs.Symbols.{NotNamed};

use crate::func::Func;
use crate::inst::Effects;
use crate::items::{Groups, Marks, NoMemory, Text};
use crate::names::{FuncNo, GlobalNo, Ty};
use crate::symbols::Names;
use std::alloc::Global;
use std::marker::Model;
use std::mem;

/// What a function's line says of its calls.
#[derive(Drop)]
pub struct Sig {
    pub ret: Option<Ty>,
    pub params: Marks,
    pub variadic: bool,
    pub effects: Effects,
}

/// A line of a module, or a function with a body.
#[derive(Drop)]
pub enum Item {
    Kept(Text),
    Global(GlobalNo, Text),
    Declared(FuncNo, Text),
    Defined(FuncNo),
}

/// A module. Functions and globals are numbered in the order of their items.
#[derive(Drop)]
pub struct Module {
    groups: Groups,
    items: Vec<Item>,
    sigs: Vec<Sig>,
    // the body of each function, where it has one that is not taken
    bodies: Vec<Option<Func>>,
    names: Names,
}

impl Model for Module {
    ghost use Rattle.ms_ir.specs.Module.{ModuleState, IsWhole};

    ghost Value = { ModuleState };

    ghost view = { λ m. record {
      groups = m.groups;
      items = m.items.items;
      sigs = m.sigs.items;
      bodies = m.bodies.items;
      names = m.names;
    } };

    ghost invariant = { λ m. IsWhole (record {
      groups = m.groups;
      items = m.items.items;
      sigs = m.sigs.items;
      bodies = m.bodies.items;
      names = m.names;
    }) };
}

impl Module {
    ghost use Rattle.ms_ir.specs.declared.module.Item.TheVariants.{Kept, Declared, Defined};
    ghost use Rattle.ms_ir.specs.Module.{ModuleState, global_line, IsNew, IsDefined, IsWhole, body_of};

    /// A module without an item. It takes no memory.
    pub fn new(alloc: Global, groups: Groups) -> Module
        ensures { result ≡ record { groups = groups; items = []; sigs = []; bodies = []; names = record { funcs = []; globals = [] } } }
    {
        Module {
            groups,
            items: Vec::new(alloc),
            sigs: Vec::new(alloc),
            bodies: Vec::new(alloc),
            names: Names::new(alloc),
        }
    }

    /// The names of the functions and globals.
    pub fn names(&self) -> &Names
        ensures { result.now ≡ self.now.names }
    {
        &self.names
    }

    /// The attribute groups: each one's number and its line.
    pub fn groups(&self) -> &Groups
        ensures { result.now ≡ self.now.groups }
    {
        &self.groups
    }

    /// The item at a place. `None` exactly where the place is past the last item.
    pub fn item(&self, n: u32) -> Option<&Item>
        ensures { option_copied result ≡ slice_get self.now.items n }
    {
        self.items.get(n as usize)
    }

    /// What a function's line says of its calls. `None` exactly where there is no such function.
    pub fn sig(&self, f: FuncNo) -> Option<&Sig>
        ensures { option_copied result ≡ slice_get self.now.sigs f.0 }
    {
        self.sigs.get(f.0 as usize)
    }

    /// The body of a function. `None` exactly where it has none, or it is taken.
    pub fn func(&self, f: FuncNo) -> Option<&Func>
        ensures { option_copied result ≡ body_of self.now f.0 }
    {
        match self.bodies.get(f.0 as usize) {
            Some(Some(body)) => Some(body),
            Some(None) => None,
            None => None,
        }
    }

    /// A law: numbers go by the order of the items, each name stands once, and only a defined function has a body.
    pub fn whole(&self)
        ensures { IsWhole self.now }
    {
        let _items = &self.items;
    }

    /// A kept line more. After `NoMemory` the module is as before.
    pub fn add_kept(&mut self, text: Text) -> Result<(), NoMemory>
        requires { length self.old.items < 2 ^ 32 - 1 }
        ensures ok { OnOk result (self.new ≡ record self.old { items = self.old.items ++ Kept text ∷ [] }) }
        ensures err { OnErr result (self.new ≡ self.old) }
    {
        self.items.push(Item::Kept(text))?;
        Ok(())
    }

    /// A global more, with its line. After `NoMemory` the module is as before.
    pub fn add_global(&mut self, name: Text, text: Text) -> Result<GlobalNo, NoMemory>
        requires new { IsNew self.old.names name }
        requires few { length self.old.items < 2 ^ 32 - 1 }
        ensures ok { IfOk result (λ g. (g.0 ≡ length self.old.names.globals) × (self.new ≡ record self.old {
          items = self.old.items ++ global_line g text ∷ [];
          names = record self.old.names { globals = self.old.names.globals ++ name ∷ [] };
        })) }
        ensures err { OnErr result (self.new ≡ self.old) }
    {
        self.items.reserve(1)?;
        let number = self.names.add_global(name)?;
        self.items.push_reserved(Item::Global(number, text));
        Ok(number)
    }

    /// A function without a body more, with its line. After `NoMemory` the module is as before.
    pub fn add_declared(&mut self, name: Text, sig: Sig, text: Text) -> Result<FuncNo, NoMemory>
        requires new { IsNew self.old.names name }
        requires few { length self.old.items < 2 ^ 32 - 1 }
        ensures ok { IfOk result (λ f. (f.0 ≡ length self.old.names.funcs) × (self.new ≡ record self.old {
          items = self.old.items ++ Declared f text ∷ [];
          sigs = self.old.sigs ++ sig ∷ [];
          bodies = self.old.bodies ++ None ∷ [];
          names = record self.old.names { funcs = self.old.names.funcs ++ name ∷ [] };
        })) }
        ensures err { OnErr result (self.new ≡ self.old) }
    {
        self.items.reserve(1)?;
        self.sigs.reserve(1)?;
        self.bodies.reserve(1)?;
        let number = self.names.add_func(name)?;
        self.sigs.push_reserved(sig);
        self.bodies.push_reserved(None);
        self.items.push_reserved(Item::Declared(number, text));
        Ok(number)
    }

    /// A function with a body more, which counts as taken. After `NoMemory` the module is as before.
    pub fn add_defined(&mut self, name: Text, sig: Sig) -> Result<FuncNo, NoMemory>
        requires new { IsNew self.old.names name }
        requires few { length self.old.items < 2 ^ 32 - 1 }
        ensures ok { IfOk result (λ f. (f.0 ≡ length self.old.names.funcs) × (self.new ≡ record self.old {
          items = self.old.items ++ Defined f ∷ [];
          sigs = self.old.sigs ++ sig ∷ [];
          bodies = self.old.bodies ++ None ∷ [];
          names = record self.old.names { funcs = self.old.names.funcs ++ name ∷ [] };
        })) }
        ensures err { OnErr result (self.new ≡ self.old) }
    {
        self.items.reserve(1)?;
        self.sigs.reserve(1)?;
        self.bodies.reserve(1)?;
        let number = self.names.add_func(name)?;
        self.sigs.push_reserved(sig);
        self.bodies.push_reserved(None);
        self.items.push_reserved(Item::Defined(number));
        Ok(number)
    }

    /// Takes the body of a function out. `None` exactly where it has none, or it is taken. It takes no memory.
    pub fn take_func(&mut self, f: FuncNo) -> Option<Func>
        ensures body { result ≡ body_of self.old f.0 }
        ensures rest { self.new ≡ record self.old { bodies = slice_set self.old.bodies f.0 None } }
    {
        if f.0 as usize >= self.bodies.len() {
            return None;
        }
        mem::replace(&mut self.bodies[f.0 as usize], None)
    }

    /// Puts the body of a function that is taken back. It takes no memory.
    pub fn put_func(&mut self, f: FuncNo, func: Func)
        requires defined { IsDefined self.old f }
        requires taken { slice_get self.old.bodies f.0 ≡ Some None }
        ensures { self.new ≡ record self.old { bodies = slice_set self.old.bodies f.0 (Some func) } }
    {
        self.bodies[f.0 as usize] = Some(func);
    }
}
