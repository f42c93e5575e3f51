// Names looked up in a function and its module.
ghost use Rattle.std.specs.Prelude.{◌≡◌, ◌↔◌, ◌++◌, ℕ, Some, map, slice_get, IfOk, IsTrue, MatchOption};
ghost use Rattle.ms_ir.specs.Locals.{IsFirstBlock};
ghost use Rattle.ms_grammar.specs.Form.{name_text};
ghost use Rattle.ms_grammar.specs.Parts.{behind_blank};
ghost use Rattle.ms_resolve.specs.Scope.{value_of, block_of, number_of_word, number_of_name};
ghost use Rattle.ms_resolve.specs.Meaning.{effects_in, keeps_in};
ghost use Rattle.ms_ir.specs.Edits.{IsNameTaken};
ghost use Rattle.ms_grammar.specs.Kept.{Each};
ghost use Rattle.ms_resolve.specs.Used.{arg_value, index_value};
ghost use Rattle.ms_script.specs.Names.{scope_of, KnowsBlock, KnowsLocal, KnowsValue, KnowsEntry, KnowsEntries, KnowsInst};

use itoa::Buffer;
use ms_grammar::{RawArg, RawEntry, RawIndex, RawInst, RawVal, effects_by, keeps_by};
use ms_ir::{
    BlockNo, Effects, Func, FuncNo, GlobalNo, Groups, LocalNo, Module, Name, NoMemory, Text, Val,
};
use std::alloc::Global;

// What names are looked up in.
#[derive(Drop)]
pub struct Lookup<'a> {
    pub alloc: Global,
    pub m: &'a Module,
    pub func: &'a Func,
}

pub fn copy(alloc: Global, text: &Text) -> Result<Text, NoMemory>
    ensures { IfOk result (λ t. t ≡ text.now) }
{
    Text::from_bytes(alloc, text.bytes())
}

pub fn copy_name(alloc: Global, name: &Name) -> Result<Name, NoMemory>
    ensures { IfOk result (λ n. n ≡ name.now) }
{
    match name {
        Name::Word(text) => Ok(Name::Word(copy(alloc, text)?)),
        Name::Number(n) => Ok(Name::Number(*n)),
        Name::Absent => Ok(Name::Absent),
    }
}

// What is kept behind the arguments of a call.
pub fn ends(alloc: Global, post: &Text, tail: &Text) -> Result<Text, NoMemory>
    ensures { IfOk result (λ t. t ≡ behind_blank post.now ++ tail.now) }
{
    let bytes = post.bytes();
    if bytes.is_empty() {
        return copy(alloc, tail);
    }
    let mut out = Vec::new(alloc);
    out.push(b' ')?;
    out.extend_from_slice(bytes)?;
    out.extend_from_slice(tail.bytes())?;
    Ok(Text::from_vec(out))
}

pub fn effects_of(alloc: Global, post: &Text, groups: &Groups) -> Result<Effects, NoMemory>
    ensures { IfOk result (λ e. e ≡ effects_in groups.now post.now) }
{
    ms_attrs::laws::one_meaning();
    Ok(effects_by(alloc, post, groups)?)
}

pub fn keeps_of(alloc: Global, attrs: &Text) -> Result<bool, NoMemory>
    ensures { IfOk result (λ keeps. keeps ≡ keeps_in attrs.now) }
{
    ms_attrs::laws::one_meaning();
    Ok(keeps_by(alloc, attrs)?)
}

fn global_of(m: &Module, word: &[u8]) -> GlobalNo
    ensures { result.0 ≡ number_of_word m.now.names.globals word.now }
{
    match m.names().find_global(word) {
        Some(g) => g,
        None => GlobalNo(0),
    }
}

fn is_global(m: &Module, word: &[u8]) -> bool
    ensures { IsTrue result ↔ ((g : ℕ) × (slice_get m.now.names.globals g ≡ Some word.now)) }
{
    match m.names().find_global(word) {
        Some(_) => true,
        None => false,
    }
}

fn global_named(m: &Module, name: &Name) -> GlobalNo
    ensures { result.0 ≡ number_of_word m.now.names.globals (name_text name.now) }
{
    match name {
        Name::Word(text) => global_of(m, text.bytes()),
        Name::Number(n) => {
            let mut buffer = Buffer::new();
            global_of(m, buffer.format(*n).as_bytes())
        }
        Name::Absent => global_of(m, &[]),
    }
}

fn knows_global(m: &Module, name: &Name) -> bool
    ensures { IsTrue result ↔ ((g : ℕ) × (slice_get m.now.names.globals g ≡ Some (name_text name.now))) }
{
    match name {
        Name::Word(text) => is_global(m, text.bytes()),
        Name::Number(n) => {
            let mut buffer = Buffer::new();
            is_global(m, buffer.format(*n).as_bytes())
        }
        Name::Absent => is_global(m, &[]),
    }
}

fn func_of(m: &Module, word: &[u8]) -> FuncNo
    ensures { result.0 ≡ number_of_word m.now.names.funcs word.now }
{
    match m.names().find_func(word) {
        Some(f) => f,
        None => FuncNo(0),
    }
}

// The function of a name; the first one where none has it, as calls are looked at where a script is read.
pub fn func_named(m: &Module, name: &Name) -> FuncNo
    ensures { result.0 ≡ number_of_word m.now.names.funcs (name_text name.now) }
{
    match name {
        Name::Word(text) => func_of(m, text.bytes()),
        Name::Number(n) => {
            let mut buffer = Buffer::new();
            func_of(m, buffer.format(*n).as_bytes())
        }
        Name::Absent => func_of(m, &[]),
    }
}

// The block of a name.
pub fn block_at(func: &Func, name: &Name) -> Option<BlockNo>
    ensures { MatchOption result (KnowsBlock func.now name.now → ⊥) (λ b. IsFirstBlock func.now.blocks name.now b.0) }
{
    match func.find_block(name) {
        Some(b) => Some(b),
        None => None,
    }
}

// The name of a result is a local's or a block's already.
pub fn is_taken(func: &Func, name: &Name) -> bool
    ensures { IsTrue result ↔ IsNameTaken func.now name.now }
{
    match func.find_local(name) {
        Some(_) => true,
        None => match func.find_block(name) {
            Some(_) => true,
            None => false,
        },
    }
}

impl<'a> Lookup<'a> {
    pub fn block(&self, name: &Name) -> BlockNo
        ensures { result ≡ block_of (scope_of self.now.m.now self.now.func.now) name.now }
    {
        match self.func.find_block(name) {
            Some(b) => b,
            None => BlockNo(0),
        }
    }

    fn local(&self, name: &Name) -> LocalNo
        ensures { result.0 ≡ number_of_name (scope_of self.now.m.now self.now.func.now).locals name.now }
    {
        self.func.numbered();
        match self.func.find_local(name) {
            Some(l) => l,
            None => LocalNo(0),
        }
    }

    pub fn value(&self, val: &RawVal) -> Val
        ensures { result ≡ value_of (scope_of self.now.m.now self.now.func.now) val.now }
    {
        match val {
            RawVal::Num(ty, n) => Val::Num(*ty, *n),
            RawVal::Local(name) => Val::Local(self.local(name)),
            RawVal::Global(name) => Val::Global(global_named(self.m, name)),
        }
    }

    fn knows_local(&self, name: &Name) -> bool
        ensures { IsTrue result ↔ KnowsLocal self.now.func.now name.now }
    {
        match self.func.find_local(name) {
            Some(_) => true,
            None => false,
        }
    }

    fn knows_block(&self, name: &Name) -> bool
        ensures { IsTrue result ↔ KnowsBlock self.now.func.now name.now }
    {
        match self.func.find_block(name) {
            Some(_) => true,
            None => false,
        }
    }

    fn knows_value(&self, val: &RawVal) -> bool
        ensures { IsTrue result ↔ KnowsValue self.now.m.now self.now.func.now val.now }
    {
        match val {
            RawVal::Num(_, _) => true,
            RawVal::Local(name) => self.knows_local(name),
            RawVal::Global(name) => knows_global(self.m, name),
        }
    }

    fn knows_args(&self, args: &[RawArg]) -> bool
        ensures { IsTrue result ↔ Each (KnowsValue self.now.m.now self.now.func.now) (map arg_value args.now) }
    {
        for arg in args {
            if !self.knows_value(&arg.val) {
                return false;
            }
        }
        true
    }

    fn knows_terms(&self, terms: &[RawIndex]) -> bool
        ensures { IsTrue result ↔ Each (KnowsValue self.now.m.now self.now.func.now) (map index_value terms.now) }
    {
        for term in terms {
            if !self.knows_value(&term.val) {
                return false;
            }
        }
        true
    }

    fn knows_entry(&self, entry: &RawEntry) -> bool
        ensures { IsTrue result ↔ KnowsEntry self.now.m.now self.now.func.now entry.now }
    {
        self.knows_value(&entry.val) && self.knows_block(&entry.from)
    }

    fn knows_entries(&self, entries: &[RawEntry]) -> bool
        ensures { IsTrue result ↔ KnowsEntries self.now.m.now self.now.func.now entries.now }
    {
        for entry in entries {
            if !self.knows_entry(entry) {
                return false;
            }
        }
        true
    }

    // Whether all that an instruction names is there.
    pub fn knows_inst(&self, inst: &RawInst) -> bool
        ensures { IsTrue result ↔ KnowsInst self.now.m.now self.now.func.now inst.now }
    {
        match inst {
            RawInst::Alloca { .. } => true,
            RawInst::Gep { base, .. } => self.knows_value(base),
            RawInst::Step { base, terms, .. } => {
                self.knows_value(base) && self.knows_terms(terms.as_slice())
            }
            RawInst::Load { ptr, .. } => self.knows_value(ptr),
            RawInst::Store { val, ptr, .. } => self.knows_value(val) && self.knows_value(ptr),
            RawInst::Copy { to, from, .. } => {
                self.knows_value(&to.val) && self.knows_value(&from.val)
            }
            RawInst::Call { args, .. } => self.knows_args(args.as_slice()),
            RawInst::Bin { a, b, .. } | RawInst::Cmp { a, b, .. } => {
                self.knows_value(a) && self.knows_value(b)
            }
            RawInst::Select { cond, a, b, .. } => {
                self.knows_value(cond) && self.knows_value(a) && self.knows_value(b)
            }
            RawInst::Cast { a, .. } => self.knows_value(a),
            RawInst::Phi { entries, .. } => self.knows_entries(entries.as_slice()),
        }
    }
}
