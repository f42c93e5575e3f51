// The blocks that may come after each block.
ghost use Rattle.std.specs.Prelude.{◌≡◌, ◌≤◌, ◌<◌, ◌^◌, ℕ, IfOk, length, slice_index};
ghost use Rattle.ms_paths.specs.Flow.{HasEdge, IsClosed};
ghost use Rattle.ms_ir.specs.Graph.{successors, graph_of};
ghost use Rattle.ms_flow.specs.Cut.{kept_slot};

use ms_ir::{BlockNo, Func, NoMemory, Steps, Term};
use std::alloc::Global;
use std::marker::Model;

/// The targets of a terminator, by slot.
#[derive(Clone, Copy)]
pub enum Targets {
    Ends,
    One(u32),
    Two(u32, u32),
}

/// For each block its targets.
#[derive(Drop)]
pub struct Table {
    targets: Vec<Targets>,
}

impl Model for Table {
    ghost use Rattle.std.specs.Prelude.{List, ◌<◌, ◌^◌, vec_len};
    ghost use Rattle.ms_paths.specs.Flow.{Block};
    ghost use Rattle.ms_flow.specs.Table.{edges, AreWithin};

    ghost Value = { List Block };

    ghost view = { λ t. edges t.targets.items };

    ghost invariant = { λ t. AreWithin (vec_len t.targets) t.targets.items × (vec_len t.targets < 2 ^ 31) };
}

impl Targets {
    ghost use Rattle.ms_flow.specs.Table.{list_of};

    pub fn of(term: &Term) -> Targets
        ensures { list_of result ≡ successors term.now }
    {
        match term {
            Term::Br(a, _) => Targets::One(a.0),
            Term::CondBr(_, a, b, _) => Targets::Two(a.0, b.0),
            Term::Ret(..) | Term::Unreachable(..) => Targets::Ends,
        }
    }

    pub fn count(self) -> u32
        ensures count { result ≡ length (list_of self) }
        ensures few { result ≤ 2 }
    {
        match self {
            Targets::Ends => 0,
            Targets::One(_) => 1,
            Targets::Two(..) => 2,
        }
    }

    pub fn at(self, slot: u32) -> u32
        requires { slot < length (list_of self) }
        ensures { result ≡ slice_index (list_of self) slot }
    {
        match self {
            Targets::Ends => unreachable!(),
            Targets::One(a) => a,
            Targets::Two(a, b) => { if slot == 0 { a } else { b } }
        }
    }
}

// Of two slots the other one.
fn other_slot(slot: u32) -> u32
    ensures { result ≡ kept_slot slot }
{
    if slot == 0 { 1 } else { 0 }
}

impl Table {
    ghost use Rattle.ms_flow.specs.Cut.{cut_graph};
    ghost use Rattle.ms_flow.specs.Table.{edges_of, next_of};

    /// The table of a function. For 2^31 blocks and more it answers `NoMemory`.
    pub fn of(alloc: Global, func: &Func) -> Result<Table, NoMemory>
        requires { IsClosed (graph_of func.now.blocks) }
        ensures table { IfOk result (λ t. t ≡ edges_of func.now.blocks) }
        ensures closed { IfOk result (λ t. IsClosed t) }
    {
        let blocks = func.block_count();
        // No function has more blocks, and the edges to one block have to fit a number.
        if blocks >= 1 << 31 {
            return Err(NoMemory);
        }
        let mut steps = Steps::new(alloc)?;
        let mut targets = Vec::new(alloc);
        for b in 0..blocks {
            targets.push(Targets::of(func.term(BlockNo(b), &mut steps)))?;
        }
        Ok(Table { targets })
    }

    /// A block that has two targets has only the one at the other slot.
    pub fn cut(&mut self, b: u32, slot: u32)
        requires two { length (next_of self.old b) ≡ 2 }
        ensures { self.new ≡ cut_graph self.old b slot }
    {
        let kept = self.at(b, other_slot(slot));
        self.targets[b as usize] = Targets::One(kept);
    }

    /// How many blocks there are.
    pub fn len(&self) -> u32
        ensures len { result ≡ length self.now }
        ensures few { result < 2 ^ 31 }
    {
        self.targets.len() as u32
    }

    /// How many targets a block has.
    pub fn count(&self, b: u32) -> u32
        requires { b < length self.now }
        ensures count { result ≡ length (next_of self.now b) }
        ensures few { result ≤ 2 }
    {
        self.targets[b as usize].count()
    }

    // A law: each edge leads to a block, a block has two at most, and there are not too many blocks.
    pub fn bounded(&self)
        ensures within { (a b : ℕ) → HasEdge self.now a b → b < length self.now }
        ensures few { (b : ℕ) → length (next_of self.now b) ≤ 2 }
        ensures small { length self.now < 2 ^ 31 }
    {
        let _targets = &self.targets;
    }

    /// The target at a slot of a block.
    pub fn at(&self, b: u32, slot: u32) -> u32
        requires block { b < length self.now }
        requires slot { slot < length (next_of self.now b) }
        ensures target { result ≡ slice_index (next_of self.now b) slot }
        ensures within { result < length self.now }
    {
        self.targets[b as usize].at(slot)
    }
}
