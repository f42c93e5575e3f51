// The rows of all locals, which are filled without memory.
ghost use Rattle.std.specs.Prelude.{◌≡◌, ◌<◌, length, slice_index_or, slice_set};
ghost use Rattle.ms_ir.specs.declared.names.LocalNo.{LocalNo as LocalNumber};
ghost use Rattle.ms_alias.specs.declared.loc.Root.TheVariants.{Local};
ghost use Rattle.ms_alias.specs.Tables.{HasRoom, IsBases, IsRow, row_of};

use crate::flood::Flood;
use crate::loc::Root;
use crate::sets::{Bases, Set};
use ms_ir::{Func, LocalNo};
use std::mem;

// The bases of a local are searched for, and are then in its row.
fn fill_row(func: &Func, bases: &mut Bases, flood: &mut Flood, l: u64)
    requires room { HasRoom bases.old func.now }
    requires there { l < length bases.old.sets }
    requires marks { length flood.old.marked ≡ length bases.old.sets }
    requires bits { length flood.old.row.bits ≡ length bases.old.columns }
    requires row { length (row_of bases.old l).bits ≡ length bases.old.columns }
    ensures kept { bases.new ≡ record bases.old { rows = slice_set bases.old.rows l (row_of bases.new l) } }
    ensures row { IsRow bases.old func.now (Local (record { 0 = l })) (row_of bases.new l) }
    ensures len { length (row_of bases.new l).bits ≡ length bases.old.columns }
    ensures marks { length flood.new.marked ≡ length bases.old.sets }
    ensures bits { length flood.new.row.bits ≡ length bases.old.columns }
{
    flood.run(func, bases, l);
    mem::swap(&mut flood.row, &mut bases.rows[l as usize]);
}

/// The rows of all locals are filled.
pub fn fill_rows(func: &Func, bases: &mut Bases, flood: &mut Flood)
    requires room { HasRoom bases.old func.now }
    requires marks { length flood.old.marked ≡ length bases.old.sets }
    requires bits { length flood.old.row.bits ≡ length bases.old.columns }
    ensures kept { bases.new ≡ record bases.old { rows = bases.new.rows } }
    ensures room { HasRoom bases.new func.now }
    ensures bases { IsBases bases.new func.now }
    ensures marks { length flood.new.marked ≡ length bases.old.sets }
    ensures bits { length flood.new.row.bits ≡ length bases.old.columns }
{
    for l in 0..bases.count() {
        if let Set::Brought(_) = bases.set_of(Root::Local(LocalNo(l))) {
            fill_row(func, bases, flood, l);
        }
    }
}
