// Blocks that wait, each once.
ghost use Rattle.std.specs.Prelude.{◌≡◌, ◌<◌, ◌≤◌, ◌++◌, ◌∷◌, [], IfOk, MatchOption, length, vec_len};
ghost use Rattle.ms_form.specs.Waiting.{with_waiting};

use ms_ir::NoMemory;
use std::alloc::Global;
use std::marker::Model;

/// The blocks that wait, and for each block whether it does.
#[derive(Drop)]
pub struct Waiting {
    marks: Vec<bool>,
    list: Vec<u32>,
}

impl Model for Waiting {
    ghost use Rattle.std.specs.Prelude.{◌≤◌, ◌+◌, ◌^◌, length, vec_len, vec_capacity};
    ghost use Rattle.ms_form.specs.Waiting.{WaitingState, AreMarked, unmarked};

    ghost Value = { WaitingState };

    ghost view = { λ w. record { blocks = length w.marks.items; list = w.list.items } };

    ghost invariant = { λ w. AreMarked w.marks.items w.list.items × (vec_len w.list + unmarked w.marks.items ≤ vec_len w.marks)
        × (vec_len w.marks ≤ vec_capacity w.list) };
}

impl Waiting {
    /// So many blocks, none of which waits.
    pub fn none(alloc: Global, blocks: usize) -> Result<Waiting, NoMemory>
        ensures { IfOk result (λ w. w ≡ record { blocks = blocks; list = [] }) }
    {
        Ok(Waiting {
            marks: vec![in alloc; false; blocks]?,
            list: Vec::with_capacity(alloc, blocks)?,
        })
    }

    /// The block waits from now on, if it does not already.
    pub fn put(&mut self, b: u32)
        requires { b < self.old.blocks }
        ensures { self.new ≡ record self.old { list = with_waiting b self.old.list } }
    {
        if !self.marks[b as usize] {
            self.marks[b as usize] = true;
            self.list.push_reserved(b);
        }
    }

    /// The block that began to wait last, which waits no more.
    pub fn next(&mut self) -> Option<u32>
        ensures { MatchOption result ((self.old.list ≡ []) × (self.new ≡ self.old))
            (λ b. (b < self.old.blocks) × (self.old.list ≡ self.new.list ++ b ∷ []) × (self.new ≡ record self.old { list = self.new.list })) }
    {
        let b = self.list.pop()?;
        self.marks[b as usize] = false;
        Some(b)
    }

    // A law: no block waits twice.
    pub fn once(&self)
        ensures { length self.now.list ≤ self.now.blocks }
    {
        let _marks = &self.marks;
    }
}
