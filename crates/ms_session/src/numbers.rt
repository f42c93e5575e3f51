// The numbers of accesses, in the order of the text.
ghost use Rattle.std.specs.Prelude.{◌≡◌, ◌<◌, ◌++◌, ◌∷◌, [], ℕ, length, drop, vec_len, is_some, unwrap_or, Some, None, if◌then◌else◌, slice_index_or, slice_set, IsTrue, IfOk, OnOk};
ghost use Rattle.ms_paths.specs.Flow.{Of, Phi, IsReached};
ghost use Rattle.ms_ir.specs.Func.{Placed, IsAt, insts_at};
ghost use Rattle.ms_build.specs.Accesses.{event_of, has_phi};
ghost use Rattle.ms_session.specs.Annotated.{def_events, number_in, numbered_from};
ghost use Rattle.ms_session.specs.Shown.{HasPlace, with_one, with_more, phi_events, block_events, reached_in};

use ms_flow::Flow;
use ms_form::{Access, Form};
use ms_ir::{BlockNo, Func, InstNo, Kind, NoMemory};
use std::alloc::Global;
use std::marker::Model;

/// The accesses that have numbers, in the order of their numbers, which begin at 1; and the number of each by its block or
/// instruction.
#[derive(Drop)]
pub struct Numbers {
    accesses: Vec<Access>,
    phis: Vec<Option<usize>>,
    defs: Vec<Option<usize>>,
}

impl Model for Numbers {
    ghost use Rattle.std.specs.Prelude.{map, vec_len};
    ghost use Rattle.ms_build.specs.Accesses.{event_of};
    ghost use Rattle.ms_session.specs.Shown.{NumbersState, IsNumbering};

    ghost Value = { NumbersState };

    ghost view = { λ n. record { all = map event_of n.accesses.items; blocks = vec_len n.phis; insts = vec_len n.defs } };

    ghost invariant = { λ n. IsNumbering (map event_of n.accesses.items) n.phis.items n.defs.items };
}

// A place without a number gets this one.
fn give(table: &mut Vec<Option<usize>>, at: usize, number: usize)
    requires { at < vec_len table.old }
    ensures items { table.new.items ≡ (if is_some (slice_index_or table.old.items at None) then table.old.items else slice_set table.old.items at (Some number)) }
    ensures len { vec_len table.new ≡ vec_len table.old }
{
    if table[at].is_none() {
        table[at] = Some(number);
    }
}

// The number at a place, or else the next free one.
fn number_at(table: &[Option<usize>], at: usize, free: usize) -> usize
    ensures { result ≡ unwrap_or (slice_index_or table.now at None) free }
{
    if at < table.len() {
        if let Some(number) = table[at] {
            return number;
        }
    }
    free
}

impl Numbers {
    /// No access has a number. There are places for so many blocks and instructions.
    pub fn new(alloc: Global, blocks: u32, insts: u32) -> Result<Numbers, NoMemory>
        ensures { IfOk result (λ n. n ≡ record { all = []; blocks = blocks; insts = insts }) }
    {
        Ok(Numbers {
            accesses: Vec::new(alloc),
            phis: vec![in alloc; None; blocks as usize]?,
            defs: vec![in alloc; None; insts as usize]?,
        })
    }

    /// The access gets the next number, if it has none.
    pub fn push(&mut self, access: Access) -> Result<(), NoMemory>
        requires { HasPlace self.old access }
        ensures { OnOk result (self.new ≡ with_one self.old (event_of access)) }
    {
        self.accesses.push(access)?;
        let number = self.accesses.len();
        match access {
            Access::Entry => {}
            Access::Phi(b) => give(&mut self.phis, b.0 as usize, number),
            Access::Of(i) => give(&mut self.defs, i.0 as usize, number),
        }
        Ok(())
    }

    /// The number of a block's phi; the next free one where it has none.
    pub fn of_phi(&self, b: BlockNo) -> usize
        ensures { result ≡ number_in self.now.all (Phi b.0) }
    {
        number_at(self.phis.as_slice(), b.0 as usize, self.accesses.len() + 1)
    }

    /// The number of a Def; the next free one where it has none.
    pub fn of_def(&self, i: InstNo) -> usize
        ensures { result ≡ number_in self.now.all (Of i.0) }
    {
        number_at(self.defs.as_slice(), i.0 as usize, self.accesses.len() + 1)
    }
}

// Whether a block is reached: it then has a place in the order.
pub fn is_reached(flow: &Flow, b: BlockNo) -> bool
    requires { b.0 < length flow.now.graph }
    ensures placed { result ≡ reached_in flow.now.graph b.0 }
    ensures path { IsTrue result → IsReached flow.now.graph b.0 }
{
    flow.order(b).is_some()
}

// Numbers a block's phi.
fn number_phi(numbers: &mut Numbers, form: &Form, b: BlockNo) -> Result<(), NoMemory>
    requires { b.0 < numbers.old.blocks }
    ensures { OnOk result (numbers.new ≡ with_more numbers.old (phi_events form.now b.0)) }
{
    if form.phi_at(b) {
        numbers.push(Access::Phi(b))?;
    }
    Ok(())
}

// Numbers an instruction that is a Def.
fn number_inst(numbers: &mut Numbers, func: &Func, i: InstNo) -> Result<(), NoMemory>
    requires { i.0 < numbers.old.insts }
    ensures { OnOk result ((b place : ℕ) (x : Placed) → IsAt func.now.blocks i.0 b place x → numbers.new ≡ with_more numbers.old (def_events (x ∷ []))) }
{
    match func.kind(i) {
        Some(kind) => match kind {
            Kind::Def => numbers.push(Access::Of(i))?,
            Kind::Reads | Kind::Neither => {}
        },
        None => {}
    }
    Ok(())
}

// Numbers the Defs of a block.
fn number_defs(numbers: &mut Numbers, func: &Func, b: BlockNo) -> Result<(), NoMemory>
    requires block { b.0 < length func.now.blocks }
    requires insts { numbers.old.insts ≡ func.now.made }
    ensures { OnOk result (numbers.new ≡ with_more numbers.old (def_events (insts_at func.now.blocks b.0))) }
{
    func.numbered();
    let mut at = func.first_inst(b);
    for place in 0..func.count(b) {
        let i = match at {
            Some(i) => i,
            None => unreachable!(),
        };
        number_inst(numbers, func, i)?;
        at = func.next_inst(i);
    }
    Ok(())
}

// Numbers the accesses of a block, if it is reached.
fn number_block(
    numbers: &mut Numbers,
    func: &Func,
    flow: &Flow,
    form: &Form,
    b: BlockNo,
) -> Result<(), NoMemory>
    requires block { b.0 < length func.now.blocks }
    requires graph { length flow.now.graph ≡ length func.now.blocks }
    requires blocks { numbers.old.blocks ≡ length func.now.blocks }
    requires insts { numbers.old.insts ≡ func.now.made }
    ensures { OnOk result (numbers.new ≡ with_more numbers.old (block_events flow.now.graph form.now func.now.blocks b.0)) }
{
    if is_reached(flow, b) {
        number_phi(numbers, form, b)?;
        number_defs(numbers, func, b)?;
    }
    Ok(())
}

/// The numbers of a function's accesses: blocks in the order of the text, in each its phi first, then its Defs.
pub fn number_all(alloc: Global, func: &Func, flow: &Flow, form: &Form) -> Result<Numbers, NoMemory>
    requires { length flow.now.graph ≡ length func.now.blocks }
    ensures { IfOk result (λ n. n.all ≡ numbered_from (reached_in flow.now.graph) (has_phi form.now) 0 func.now.blocks) }
{
    let mut numbers = Numbers::new(alloc, func.block_count(), func.made())?;
    for b in 0..func.block_count() {
        number_block(&mut numbers, func, flow, form, BlockNo(b))?;
    }
    Ok(numbers)
}
