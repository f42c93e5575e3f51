// The bases of pointers.
ghost use Rattle.std.specs.Prelude.{◌≡◌, ◌<◌, ◌&&◌, length, slice_index_or, slice_set, true, false, IfOk};
ghost use Rattle.ms_alias.specs.Tables.{same_root, share_mark};

use crate::loc::Root;
use ms_ir::{GlobalNo, NoMemory};
use std::alloc::Global;
use std::marker::Model;

/// What the bases of a pointer are: none; one argument; the alloca of a column; one global; or what instructions bring to a
/// local, which is in its row.
#[derive(Clone, Copy)]
pub enum Set {
    Nothing,
    Argument,
    Alloca(u32),
    Object(GlobalNo),
    Brought(u32),
}

/// The bases of a pointer: a mark for each column, whether one is an argument, and whether one is no alloca.
#[derive(Drop)]
pub struct Row {
    pub bits: Vec<bool>,
    pub argument: bool,
    pub outer: bool,
}

impl Model for Row {
    ghost use Rattle.ms_alias.specs.Tables.{RowState};

    ghost Value = { RowState };

    ghost view = { λ r. record { bits = r.bits.items; argument = r.argument; outer = r.outer } };
}

impl Row {
    ghost use Rattle.std.specs.Prelude.{replicate};
    ghost use Rattle.ms_alias.specs.Tables.{bit_of};

    /// A row of so many columns without a mark.
    pub fn new(alloc: Global, columns: usize) -> Result<Row, NoMemory>
        ensures { IfOk result (λ r. r ≡ record { bits = replicate columns false; argument = false; outer = false }) }
    {
        Ok(Row {
            bits: Vec::from_elem(alloc, false, columns)?,
            argument: false,
            outer: false,
        })
    }

    /// Takes all marks away.
    pub fn clear(&mut self)
        ensures { self.new ≡ record { bits = replicate (length self.old.bits) false; argument = false; outer = false } }
    {
        self.bits.fill(false);
        self.argument = false;
        self.outer = false;
    }

    /// Marks a column, where there is such a one.
    pub fn mark(&mut self, column: usize)
        ensures { self.new ≡ record self.old { bits = slice_set self.old.bits column true } }
    {
        if column < self.bits.len() {
            self.bits[column] = true;
        }
    }

    /// A base is no alloca.
    pub fn mark_outer(&mut self)
        ensures { self.new ≡ record self.old { outer = true } }
    {
        self.outer = true;
    }

    /// A base is an argument.
    pub fn mark_argument(&mut self)
        ensures { self.new ≡ record self.old { argument = true; outer = true } }
    {
        self.argument = true;
        self.outer = true;
    }

    /// Whether a column is marked.
    pub fn bit(&self, column: usize) -> bool
        ensures { result ≡ bit_of self.now column }
    {
        if column >= self.bits.len() {
            return false;
        }
        self.bits[column]
    }
}

/// By local what is known of its bases, the allocas and globals that have a column, and by local its row.
#[derive(Drop)]
pub struct Bases {
    pub sets: Vec<Set>,
    pub columns: Vec<Root>,
    pub rows: Vec<Row>,
}

impl Model for Bases {
    ghost use Rattle.ms_alias.specs.Tables.{BasesState};

    ghost Value = { BasesState };

    ghost view = { λ t. record { sets = t.sets.items; columns = t.columns.items; rows = t.rows.items } };
}

/// Whether two roots are one.
pub fn same_root(a: Root, b: Root) -> bool
    ensures { result ≡ same_root a b }
{
    match (a, b) {
        (Root::Local(k), Root::Local(l)) => k.0 == l.0,
        (Root::Global(g), Root::Global(h)) => g.0 == h.0,
        _ => false,
    }
}

// Whether both lists have a mark at this place.
fn both(xs: &[bool], ys: &[bool], k: usize) -> bool
    requires xs { k < length xs.now }
    requires ys { k < length ys.now }
    ensures { result ≡ (slice_index_or xs.now k false && slice_index_or ys.now k false) }
{
    xs[k] && ys[k]
}

/// Whether two lists have a mark at one place.
pub fn share_mark(xs: &[bool], ys: &[bool]) -> bool
    ensures { result ≡ share_mark xs.now ys.now }
{
    for k in 0..xs.len() {
        if k >= ys.len() {
            return false;
        }
        if both(xs, ys, k) {
            return true;
        }
    }
    false
}

impl Bases {
    ghost use Rattle.ms_alias.specs.Tables.{set_of, global_column, row_of, bit_of, bit_at, have_common, has_argument, has_outer, sets_meet, is_caught, is_known};

    /// How many locals there are.
    pub fn count(&self) -> u64
        ensures { result ≡ length self.now.sets }
    {
        self.sets.len() as u64
    }

    /// What is known of the bases of a pointer.
    pub fn set_of(&self, p: Root) -> Set
        ensures { result ≡ set_of self.now p }
    {
        match p {
            Root::Local(l) => {
                if l.0 as usize >= self.sets.len() {
                    return Set::Nothing;
                }
                self.sets[l.0 as usize]
            }
            Root::Global(g) => Set::Object(g),
        }
    }

    /// The column of a global.
    pub fn global_column(&self, g: GlobalNo) -> Option<usize>
        ensures { result ≡ global_column self.now g }
    {
        self.columns
            .iter()
            .position(|q| same_root(Root::Global(g), *q))
    }

    /// Whether the row of a local has a mark at a column.
    pub fn bit(&self, l: u32, column: usize) -> bool
        ensures { result ≡ bit_of (row_of self.now l) column }
    {
        if l as usize >= self.rows.len() {
            return false;
        }
        self.rows[l as usize].bit(column)
    }

    // Whether the row of a local has a global.
    fn has_global(&self, l: u32, g: GlobalNo) -> bool
        ensures { result ≡ bit_at (row_of self.now l) (global_column self.now g) }
    {
        match self.global_column(g) {
            Some(column) => self.bit(l, column),
            None => false,
        }
    }

    // The marks of the row of a local.
    fn marks(&self, l: u32) -> &[bool]
        ensures { result.now ≡ (row_of self.now l).bits }
    {
        if l as usize >= self.rows.len() {
            return &[];
        }
        self.rows[l as usize].bits.as_slice()
    }

    // Whether two sets have an alloca or a global in common.
    fn have_common(&self, s: Set, u: Set) -> bool
        ensures { result ≡ have_common self.now s u }
    {
        match (s, u) {
            (Set::Alloca(c), Set::Alloca(d)) => c == d,
            (Set::Alloca(c), Set::Brought(l)) => self.bit(l, c as usize),
            (Set::Brought(l), Set::Alloca(c)) => self.bit(l, c as usize),
            (Set::Object(g), Set::Object(h)) => g.0 == h.0,
            (Set::Object(g), Set::Brought(l)) => self.has_global(l, g),
            (Set::Brought(l), Set::Object(g)) => self.has_global(l, g),
            (Set::Brought(k), Set::Brought(l)) => share_mark(self.marks(k), self.marks(l)),
            _ => false,
        }
    }

    // Whether an argument is in a set.
    fn has_argument(&self, s: Set) -> bool
        ensures { result ≡ has_argument self.now s }
    {
        match s {
            Set::Argument => true,
            Set::Brought(l) => {
                if l as usize >= self.rows.len() {
                    return false;
                }
                self.rows[l as usize].argument
            }
            _ => false,
        }
    }

    /// Whether a base that is no alloca is in a set.
    pub fn has_outer(&self, s: Set) -> bool
        ensures { result ≡ has_outer self.now s }
    {
        match s {
            Set::Argument | Set::Object(_) => true,
            Set::Brought(l) => {
                if l as usize >= self.rows.len() {
                    return false;
                }
                self.rows[l as usize].outer
            }
            _ => false,
        }
    }

    /// Whether a base of one set and one of the other may be one object.
    pub fn sets_meet(&self, s: Set, u: Set) -> bool
        ensures { result ≡ sets_meet self.now s u }
    {
        self.have_common(s, u)
            || (self.has_argument(s) && self.has_outer(u))
            || (self.has_argument(u) && self.has_outer(s))
    }

    // Whether a set has a captured alloca.
    fn is_caught(&self, captured: &[bool], s: Set) -> bool
        ensures { result ≡ is_caught self.now captured.now s }
    {
        match s {
            Set::Alloca(c) => {
                if c as usize >= captured.len() {
                    return false;
                }
                captured[c as usize]
            }
            Set::Brought(l) => share_mark(self.marks(l), captured),
            _ => false,
        }
    }

    /// Whether a set has a base that may be what a call knows besides its arguments.
    pub fn is_known(&self, captured: &[bool], s: Set) -> bool
        ensures { result ≡ is_known self.now captured.now s }
    {
        self.has_outer(s) || self.is_caught(captured, s)
    }
}
