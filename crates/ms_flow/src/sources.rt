// The edges that lead to each block.
ghost use Rattle.std.specs.Prelude.{◌≡◌, ◌≤◌, ◌<◌, ◌+◌, ◌*◌, ◌^◌, ◌∷◌, ℕ, List, [], Contains, IfOk, IsTrue, OnOk, length, replicate, slice_index, slice_index_or, slice_get, Some};
ghost use Rattle.ms_flow.specs.Kept.{AreApart, AreKept, AreNumbered, HasRows, edge_behind, key_of, kept, kept_places, stays};
ghost use Rattle.ms_flow.specs.Table.{next_of};
ghost use Rattle.ms_flow.specs.Flow.{AreAdded, AreListed};
ghost use Rattle.ms_flow.specs.Walk.{is_seen};

use crate::table::Table;
use crate::walker::Walker;
use ms_ir::{Items, NoMemory};
use std::alloc::Global;
use std::mem;

/// An edge to a block, by the block that it leaves and its slot there.
#[derive(Clone, Copy)]
pub struct Source {
    pub from: u32,
    pub slot: u32,
}

/// For each block the edges that lead to it from reached blocks, and for each edge its place in that list, now and before the
/// last cut.
#[derive(Drop)]
pub struct Sources {
    alloc: Global,
    pub lists: Vec<Items<Source>>,
    // of the edge at a place of a list, at the same place
    pub before: Vec<Items<u32>>,
    // of the edge at a slot of a block, at twice the block's number and the slot
    pub in_slots: Vec<u32>,
}

// A list without an edge for each block.
fn no_edges(alloc: Global, blocks: u32) -> Result<Vec<Items<Source>>, NoMemory>
    ensures { IfOk result (λ v. v.items ≡ replicate blocks []) }
{
    let mut lists = Vec::new(alloc);
    for _ in 0..blocks {
        lists.push(Items::new(alloc))?;
    }
    Ok(lists)
}

// Adds the edges of a block to the lists of the blocks that they lead to.
fn add_edges(
    table: &Table,
    from: u32,
    lists: &mut Vec<Items<Source>>,
    in_slots: &mut Vec<u32>,
) -> Result<(), NoMemory>
    requires block { from < length table.now }
    requires lists { length lists.old.items ≡ length table.now }
    requires slots { length in_slots.old.items ≡ 2 * length table.now }
    requires few { (b : ℕ) → b < length table.now → length (slice_index_or lists.old.items b []) ≤ 2 * from }
    ensures { OnOk result (AreAdded table.now from (length (next_of table.now from)) lists.old.items lists.new.items in_slots.old.items in_slots.new.items) }
{
    table.bounded();
    for slot in 0..table.count(from) {
        let to = table.at(from, slot) as usize;
        in_slots[2 * from as usize + slot as usize] = lists[to].len() as u32;
        lists[to].push(Source { from, slot })?;
    }
    Ok(())
}

// The numbers below n, in order.
fn numbers(alloc: Global, n: usize) -> Result<Items<u32>, NoMemory>
    requires { n < 2 ^ 32 }
    ensures len { IfOk result (λ l. length l ≡ n) }
    ensures own { IfOk result (λ l. (k : ℕ) → k < n → slice_index l k ≡ k) }
{
    let mut list = Vec::new(alloc);
    for k in 0..n {
        list.push(k as u32)?;
    }
    Ok(Items::from_vec(list))
}

// For each list the places of its edges.
fn own_places(alloc: Global, lists: &[Items<Source>]) -> Result<Vec<Items<u32>>, NoMemory>
    requires few { (b : ℕ) → b < length lists.now → length (slice_index_or lists.now b []) < 2 ^ 32 }
    ensures rows { IfOk result (λ v. HasRows lists.now v.items) }
    ensures own { IfOk result (λ v. (b k : ℕ) → b < length lists.now → k < length (slice_index_or lists.now b []) → slice_index (slice_index_or v.items b []) k ≡ k) }
{
    let mut rows = Vec::new(alloc);
    for b in 0..lists.len() {
        rows.push(numbers(alloc, lists[b].len())?)?;
    }
    Ok(rows)
}

// Whether an edge stays when the one from c at a slot is cut, where these blocks are still reached.
fn edge_stays(walker: &Walker, c: u32, slot: u32, source: Source) -> bool
    requires { source.from < length walker.now.seen }
    ensures { result ≡ stays (is_seen walker.now) c slot source }
{
    walker.has_seen(source.from) && !(source.from == c && source.slot == slot)
}

// An edge that stays, as it is behind the cut.
fn edge_behind(c: u32, source: Source) -> Source
    ensures { result ≡ edge_behind c source }
{
    if source.from == c {
        Source { from: c, slot: 0 }
    } else {
        source
    }
}

// Of a list the edges that stay, and their places.
fn keep_edges(walker: &Walker, c: u32, slot: u32, edges: &mut Vec<Source>, before: &mut Vec<u32>)
    requires within { (k : ℕ) (e : Source) → slice_get edges.old.items k ≡ Some e → e.from < length walker.now.seen }
    requires rows { length before.old.items ≡ length edges.old.items }
    requires few { length edges.old.items < 2 ^ 32 }
    ensures edges { edges.new.items ≡ kept (is_seen walker.now) c slot edges.old.items }
    ensures places { before.new.items ≡ kept_places (is_seen walker.now) c slot 0 edges.old.items }
{
    let mut to = 0;
    for k in 0..edges.len() {
        let source = edges[k];
        if edge_stays(walker, c, slot, source) {
            edges[to] = edge_behind(c, source);
            before[to] = k as u32;
            to += 1;
        }
    }
    edges.truncate(to);
    before.truncate(to);
}

// Writes for each edge of a list its place.
fn number_list(list: &[Source], in_slots: &mut Vec<u32>)
    requires few { length list.now < 2 ^ 32 }
    requires within { (k : ℕ) (e : Source) → slice_get list.now k ≡ Some e → key_of e < length in_slots.old.items }
    requires once { (j k : ℕ) (d e : Source) → slice_get list.now j ≡ Some d → slice_get list.now k ≡ Some e → key_of d ≡ key_of e → j ≡ k }
    ensures slots { length in_slots.new.items ≡ length in_slots.old.items }
    ensures numbered { AreNumbered list.now (length list.now) in_slots.new.items }
    ensures others { (x : ℕ) → ((k : ℕ) (e : Source) → slice_get list.now k ≡ Some e → key_of e ≡ x → ⊥) → slice_index in_slots.new.items x ≡ slice_index in_slots.old.items x }
{
    for k in 0..list.len() {
        let source = list[k];
        in_slots[2 * source.from as usize + source.slot as usize] = k as u32;
    }
}

// Writes for each edge its place among the edges to the block that it leads to.
fn number_lists(lists: &[Items<Source>], in_slots: &mut Vec<u32>)
    requires few { (b : ℕ) → b < length lists.now → length (slice_index_or lists.now b []) < 2 ^ 32 }
    requires apart { AreApart (length lists.now) lists.now }
    requires slots { length in_slots.old.items ≡ 2 * length lists.now }
    ensures slots { length in_slots.new.items ≡ 2 * length lists.now }
    ensures numbered { (b : ℕ) → b < length lists.now → AreNumbered (slice_index_or lists.now b []) (length (slice_index_or lists.now b [])) in_slots.new.items }
{
    for b in 0..lists.len() {
        number_list(lists[b].as_slice(), in_slots);
    }
}

impl Sources {
    ghost use Rattle.ms_flow.specs.declared.sources.Source.{Source};

    /// How many edges lead to a block.
    pub fn count(&self, b: u32) -> u32
        requires block { b < length self.now.lists.items }
        requires few { length (slice_index_or self.now.lists.items b []) < 2 ^ 32 }
        ensures { result ≡ length (slice_index_or self.now.lists.items b []) }
    {
        self.lists[b as usize].len() as u32
    }

    /// The edge at a place of a block's list.
    pub fn at(&self, b: u32, place: u32) -> Source
        requires block { b < length self.now.lists.items }
        requires place { place < length (slice_index_or self.now.lists.items b []) }
        ensures { slice_get (slice_index_or self.now.lists.items b []) place ≡ Some result }
    {
        self.lists[b as usize].as_slice()[place as usize]
    }

    /// The place of that edge before the last cut.
    pub fn place_before(&self, b: u32, place: u32) -> u32
        requires block { b < length self.now.before.items }
        requires place { place < length (slice_index_or self.now.before.items b []) }
        ensures { result ≡ slice_index (slice_index_or self.now.before.items b []) place }
    {
        self.before[b as usize].as_slice()[place as usize]
    }

    /// Of the edges to each block those that stay when the one from c at a slot is cut, and their places. What is kept for each
    /// edge has to be made again by `number`. It takes no memory.
    pub fn keep(&mut self, walker: &Walker, c: u32, slot: u32)
        requires within { (b k : ℕ) (e : Source) → b < length self.old.lists.items → slice_get (slice_index_or self.old.lists.items b []) k ≡ Some e → e.from < length walker.now.seen }
        requires rows { HasRows self.old.lists.items self.old.before.items }
        requires few { (b : ℕ) → b < length self.old.lists.items → length (slice_index_or self.old.lists.items b []) < 2 ^ 32 }
        ensures kept { AreKept (is_seen walker.now) c slot self.old.lists.items self.new.lists.items self.new.before.items }
        ensures in_slots { self.new.in_slots ≡ self.old.in_slots }
    {
        let alloc = self.alloc;
        for b in 0..self.lists.len() {
            let mut edges = mem::replace(&mut self.lists[b], Items::new(alloc)).into_vec();
            let mut before = mem::replace(&mut self.before[b], Items::new(alloc)).into_vec();
            keep_edges(walker, c, slot, &mut edges, &mut before);
            self.lists[b] = Items::from_vec(edges);
            self.before[b] = Items::from_vec(before);
        }
    }

    /// The edges from the blocks that were seen.
    pub fn of(alloc: Global, table: &Table, walker: &Walker) -> Result<Sources, NoMemory>
        requires { length walker.now.seen ≡ length table.now }
        ensures listed { IfOk result (λ s. AreListed (is_seen walker.now) table.now (length table.now) s.lists.items s.in_slots.items) }
        ensures rows { IfOk result (λ s. HasRows s.lists.items s.before.items) }
        ensures own { IfOk result (λ s. (b k : ℕ) → b < length s.lists.items → k < length (slice_index_or s.lists.items b []) → slice_index (slice_index_or s.before.items b []) k ≡ k) }
    {
        table.bounded();
        let blocks = table.len();
        let mut lists = no_edges(alloc, blocks)?;
        let mut in_slots = Vec::from_elem(alloc, 0u32, 2 * blocks as usize)?;
        for from in 0..blocks {
            if walker.has_seen(from) {
                add_edges(table, from, &mut lists, &mut in_slots)?;
            }
        }
        let before = own_places(alloc, lists.as_slice())?;
        Ok(Sources {
            alloc,
            lists,
            before,
            in_slots,
        })
    }
    /// Writes for each edge its place among the edges to the block that it leads to.
    pub fn number(&mut self)
        requires few { (b : ℕ) → b < length self.old.lists.items → length (slice_index_or self.old.lists.items b []) < 2 ^ 32 }
        requires apart { AreApart (length self.old.lists.items) self.old.lists.items }
        requires slots { length self.old.in_slots.items ≡ 2 * length self.old.lists.items }
        ensures lists { self.new.lists ≡ self.old.lists }
        ensures before { self.new.before ≡ self.old.before }
        ensures slots { length self.new.in_slots.items ≡ 2 * length self.old.lists.items }
        ensures numbered { (b : ℕ) → b < length self.old.lists.items → AreNumbered (slice_index_or self.old.lists.items b []) (length (slice_index_or self.old.lists.items b [])) self.new.in_slots.items }
    {
        number_lists(self.lists.as_slice(), &mut self.in_slots);
    }
}
