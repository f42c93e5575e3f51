// Walks of the graph, which take no memory.
ghost use Rattle.std.specs.Prelude.{◌≡◌, ◌≤◌, ◌<◌, ◌^◌, ℕ, [], IfOk, length, reverse};

use crate::table::Table;
use ms_ir::NoMemory;
use std::alloc::Global;
use std::marker::Model;

/// A block that was entered, and the slot of its targets that comes next.
#[derive(Clone, Copy)]
pub struct Frame {
    pub block: u32,
    pub slot: u32,
}

/// A walk, with room for all of the blocks.
#[derive(Drop)]
pub struct Walker {
    marks: Vec<bool>,
    frames: Vec<Frame>,
    left: Vec<u32>,
}

impl Model for Walker {
    ghost use Rattle.std.specs.Prelude.{◌≡◌, ◌≤◌, ◌<◌, ◌+◌, ◌^◌, reverse, vec_len, vec_capacity};
    ghost use Rattle.ms_flow.specs.Walk.{WalkState, unseen};

    ghost Value = { WalkState };

    ghost view = { λ w. record { seen = w.marks.items; left = reverse w.left.items } };

    ghost invariant = { λ w. (vec_len w.left + unseen w.marks.items ≤ vec_len w.marks) × (vec_len w.frames ≡ 0)
        × (vec_len w.marks ≤ vec_capacity w.frames) × (vec_len w.marks ≤ vec_capacity w.left) × (vec_len w.marks < 2 ^ 32) };
}

impl Walker {
    ghost use Rattle.ms_flow.specs.Walk.{WalkState, fresh, enter, visit, is_seen, without, beyond};

    /// A walk of so many blocks that has not begun.
    pub fn new(alloc: Global, blocks: u32) -> Result<Walker, NoMemory>
        ensures { IfOk result (λ w. w ≡ fresh blocks) }
    {
        Ok(Walker {
            marks: Vec::from_elem(alloc, false, blocks as usize)?,
            frames: Vec::with_capacity(alloc, blocks as usize)?,
            left: Vec::with_capacity(alloc, blocks as usize)?,
        })
    }

    /// Begins anew.
    pub fn clear(&mut self)
        ensures { self.new ≡ fresh (length self.old.seen) }
    {
        self.marks.fill(false);
        self.left.clear();
    }

    /// Takes a block for seen.
    pub fn mark(&mut self, b: u32)
        requires { b < length self.old.seen }
        ensures { self.new ≡ enter b self.old }
    {
        self.marks[b as usize] = true;
    }

    pub fn has_seen(&self, b: u32) -> bool
        requires { b < length self.now.seen }
        ensures { result ≡ is_seen self.now b }
    {
        self.marks[b as usize]
    }

    /// Walks into a block, where it was not seen.
    pub fn visit(&mut self, table: &Table, b: u32)
        requires blocks { length self.old.seen ≡ length table.now }
        requires block { b < length table.now }
        ensures walk { self.new ≡ visit table.now (length table.now) b self.old }
        ensures blocks { length self.new.seen ≡ length table.now }
    {
        if self.marks[b as usize] {
            return;
        }
        self.marks[b as usize] = true;
        self.frames.push_reserved(Frame { block: b, slot: 0 });
        'walk: while let Some(frame) = self.frames.pop() {
            if frame.slot < table.count(frame.block) {
                let target = table.at(frame.block, frame.slot);
                self.frames.push_reserved(Frame {
                    block: frame.block,
                    slot: frame.slot + 1,
                });
                if !self.marks[target as usize] {
                    self.marks[target as usize] = true;
                    self.frames.push_reserved(Frame {
                        block: target,
                        slot: 0,
                    });
                }
            } else {
                self.left.push_reserved(frame.block);
            }
        }
    }

    /// Walks from the entry without a block.
    pub fn visit_without(&mut self, table: &Table, h: u32)
        requires blocks { length self.old.seen ≡ length table.now }
        requires block { h < length table.now }
        ensures walk { self.new ≡ without table.now h }
        ensures blocks { length self.new.seen ≡ length table.now }
    {
        self.clear();
        self.mark(h);
        self.visit(table, 0);
    }

    /// Walks from the targets of a block.
    pub fn visit_beyond(&mut self, table: &Table, b: u32)
        requires blocks { length self.old.seen ≡ length table.now }
        requires block { b < length table.now }
        ensures walk { self.new ≡ beyond table.now b }
        ensures blocks { length self.new.seen ≡ length table.now }
    {
        self.clear();
        for slot in 0..table.count(b) {
            self.visit(table, table.at(b, slot));
        }
    }

    /// The blocks that were left, the first one first.
    pub fn left(&self) -> &[u32]
        ensures left { reverse result.now ≡ self.now.left }
        ensures few { length result.now ≤ length self.now.seen }
    {
        self.left.as_slice()
    }
}
