// The search for the bases of a local, which takes no memory.
ghost use Rattle.std.specs.Prelude.{◌≡◌, ◌<◌, ◌++◌, [], map, length, IfNone, IfOk};
ghost use Rattle.std.specs.Option.{option_to_list};
ghost use Rattle.ms_alias.specs.Tables.{IsRow, HasRoom};
ghost use Rattle.ms_ir.specs.declared.inst.Entry.{Entry as PhiEntry};
ghost use Rattle.ms_alias.specs.Roots.{pointer_of};
ghost use Rattle.ms_alias.specs.Bases.{pointers_in, sources_in, leads_of};

use crate::loc::Root;
use crate::maker::{maker, pointer_of};
use crate::sets::{Bases, Row, Set};
use ms_ir::{Entry, Func, Inst, LocalNo, NoMemory, Val};
use std::alloc::Global;
use std::marker::Model;

/// A search: which locals were met, those of them that were not visited yet, and the bases so far. There is room for all locals.
#[derive(Drop)]
pub struct Flood {
    pub marks: Vec<bool>,
    pub todo: Vec<u64>,
    pub row: Row,
}

impl Model for Flood {
    ghost use Rattle.std.specs.Prelude.{◌≡◌, ◌≤◌, ◌+◌, vec_len, vec_capacity};
    ghost use Rattle.ms_flow.specs.Walk.{unseen};
    ghost use Rattle.ms_alias.specs.Building.{FloodState};

    ghost Value = { FloodState };

    ghost view = { λ f. record { marked = f.marks.items; todo = f.todo.items; row = f.row } };

    ghost invariant = { λ f. (vec_len f.todo + unseen f.marks.items ≤ vec_capacity f.todo) × (vec_len f.marks ≤ vec_capacity f.todo) };
}

impl Flood {
    ghost use Rattle.ms_ir.specs.declared.names.LocalNo.{LocalNo as LocalNumber};
    ghost use Rattle.ms_alias.specs.declared.loc.Root.TheVariants.{Local};
    ghost use Rattle.ms_alias.specs.Building.{FloodState, flood_begun, met, took, took_option, took_all, owned, visited};

    /// Room for a search of so many locals and columns.
    pub fn new(alloc: Global, count: usize, columns: usize) -> Result<Flood, NoMemory>
        ensures marked { IfOk result (λ f. length f.marked ≡ count) }
        ensures bits { IfOk result (λ f. length f.row.bits ≡ columns) }
    {
        Ok(Flood {
            marks: Vec::from_elem(alloc, false, count)?,
            todo: Vec::with_capacity(alloc, count)?,
            row: Row::new(alloc, columns)?,
        })
    }

    // Begins anew.
    fn clear(&mut self)
        ensures { self.new ≡ flood_begun (length self.old.marked) (length self.old.row.bits) }
    {
        self.marks.fill(false);
        self.todo.clear();
        self.row.clear();
    }

    // A local is met. It is to be visited if it is new.
    fn meet(&mut self, m: u64)
        ensures { self.new ≡ met m self.old }
    {
        if m as usize >= self.marks.len() {
            return;
        }
        if !self.marks[m as usize] {
            self.marks[m as usize] = true;
            self.todo.push_reserved(m);
        }
    }

    // A pointer is met.
    fn take(&mut self, bases: &Bases, p: Root)
        ensures { self.new ≡ took bases.now p self.old }
    {
        match p {
            Root::Local(m) => self.meet(m.0),
            Root::Global(g) => {
                if let Some(column) = bases.global_column(g) {
                    self.row.mark(column);
                }
                self.row.mark_outer();
            }
        }
    }

    // A value is met.
    fn take_val(&mut self, bases: &Bases, val: Val)
        ensures { self.new ≡ took_option bases.now (pointer_of val) self.old }
    {
        if let Some(p) = pointer_of(val) {
            self.take(bases, p);
        }
    }

    // The values of a phi are met.
    fn take_entries(&mut self, bases: &Bases, entries: &[Entry])
        ensures { self.new ≡ took_all bases.now (pointers_in (map (λ (e : PhiEntry). e.val) entries.now)) self.old }
    {
        for k in 0..entries.len() {
            self.take_val(bases, entries[k].val);
        }
    }

    // The values that an instruction makes into its pointer are met.
    fn take_inst(&mut self, bases: &Bases, inst: &Inst)
        ensures { self.new ≡ took_all bases.now (pointers_in (sources_in inst.now)) self.old }
    {
        match inst {
            Inst::Gep { base, .. } | Inst::Step { base, .. } => self.take_val(bases, *base),
            Inst::Select { a, b, .. } => {
                self.take_val(bases, *a);
                self.take_val(bases, *b);
            }
            Inst::Phi { entries, .. } => self.take_entries(bases, entries.as_slice()),
            Inst::Alloca { .. }
            | Inst::Load { .. }
            | Inst::Store { .. }
            | Inst::Copy { .. }
            | Inst::Call { .. }
            | Inst::Bin { .. }
            | Inst::Cmp { .. }
            | Inst::Cast { .. } => {}
        }
    }

    // What a local is itself is met.
    fn own(&mut self, set: Set)
        ensures { self.new ≡ owned set self.old }
    {
        match set {
            Set::Argument => self.row.mark_argument(),
            Set::Alloca(c) => self.row.mark(c as usize),
            _ => {}
        }
    }

    // A local is visited.
    fn visit(&mut self, func: &Func, bases: &Bases, m: u64)
        ensures { self.new ≡ visited bases.now func.now m self.old }
    {
        let l = LocalNo(m);
        self.own(bases.set_of(Root::Local(l)));
        if let Some(inst) = maker(func, l) {
            self.take_inst(bases, inst);
        }
    }

    // A local that is to be visited.
    fn next(&mut self) -> Option<u64>
        ensures rest { self.old ≡ record self.new { todo = self.new.todo ++ option_to_list result } }
        ensures none { IfNone result (self.new.todo ≡ []) }
    {
        self.todo.pop()
    }

    /// The bases of a local are searched for. They are then in the row.
    pub fn run(&mut self, func: &Func, bases: &Bases, l: u64)
        requires room { HasRoom bases.now func.now }
        requires there { l < length self.old.marked }
        requires marks { length self.old.marked ≡ length bases.now.sets }
        requires bits { length self.old.row.bits ≡ length bases.now.columns }
        ensures row { IsRow bases.now func.now (Local (record { 0 = l })) self.new.row }
        ensures marks { length self.new.marked ≡ length bases.now.sets }
        ensures bits { length self.new.row.bits ≡ length bases.now.columns }
    {
        self.clear();
        self.meet(l);
        'search: while let Some(m) = self.next() {
            self.visit(func, bases, m);
        }
    }
}
