// Marks of locals.
ghost use Rattle.std.specs.Prelude.{◌≡◌, ◌<◌, ◌^◌, length, replicate, slice_index_or, slice_set, IfOk, true, false};

use ms_ir::NoMemory;
use std::alloc::Global;
use std::marker::Model;

/// A mark for each of some locals.
#[derive(Drop)]
pub struct Marks {
    seen: Vec<bool>,
}

impl Model for Marks {
    ghost use Rattle.std.specs.Prelude.{List, Bool};

    ghost Value = { List Bool };

    ghost view = { λ m. m.seen.items };
}

impl Marks {
    /// So many locals without a mark.
    pub fn new(alloc: Global, count: usize) -> Result<Marks, NoMemory>
        ensures { IfOk result (λ m. m ≡ replicate count false) }
    {
        Ok(Marks {
            seen: Vec::from_elem(alloc, false, count)?,
        })
    }

    /// How many locals there are.
    pub fn len(&self) -> u64
        ensures len { result ≡ length self.now }
        ensures few { result < 2 ^ 63 }
    {
        self.seen.len() as u64
    }

    /// Takes all marks away.
    pub fn clear(&mut self)
        ensures { self.new ≡ replicate (length self.old) false }
    {
        self.seen.fill(false);
    }

    /// Whether a local has a mark.
    pub fn has(&self, l: u64) -> bool
        requires { l < length self.now }
        ensures { result ≡ slice_index_or self.now l false }
    {
        self.seen[l as usize]
    }

    /// Marks a local, or takes its mark away.
    pub fn put(&mut self, l: u64, mark: bool)
        requires { l < length self.old }
        ensures { self.new ≡ slice_set self.old l mark }
    {
        self.seen[l as usize] = mark;
    }

    /// The marks in the order of the locals.
    pub fn as_slice(&self) -> &[bool]
        ensures { result.now ≡ self.now }
    {
        self.seen.as_slice()
    }
}
