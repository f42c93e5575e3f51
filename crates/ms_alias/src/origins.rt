// The roots and offsets of pointers.
ghost use Rattle.std.specs.Prelude.{◌≡◌, ◌<◌, ◌≤◌, ◌^◌, ◌↔◌, ℕ, IsTrue, IfOk, length};
ghost use Rattle.ms_ir.specs.declared.names.LocalNo.{LocalNo as LocalNumber};
ghost use Rattle.ms_alias.specs.declared.loc.Root.TheVariants.{Local};
ghost use Rattle.ms_alias.specs.Roots.{maker_of, step_by_maker, IsRing, HasRoot};
ghost use Rattle.ms_alias.specs.Building.{AreRings, IsBeyond, next_local};
ghost use Rattle.ms_alias.specs.Offsets.{AreOffsetsNear};
ghost use Rattle.ms_alias.specs.Tables.{IsOrigins};

use crate::loc::Root;
use crate::maker::step;
use crate::marks::Marks;
use ms_ir::{Func, LocalNo, NoMemory};
use std::alloc::Global;

/// The root of a pointer and its offset from there.
#[derive(Clone, Copy)]
pub struct Origin {
    pub root: Root,
    pub offset: i64,
}

// The local below a limit that the getelementptr of a local is made of.
fn next_of(func: &Func, limit: u64, l: u64) -> Option<u64>
    ensures { result ≡ next_local limit (step_by_maker (maker_of func.now (record { 0 = l }))) }
{
    match step(func, LocalNo(l)) {
        Some((Root::Local(m), _)) => { if m.0 < limit { Some(m.0) } else { None } }
        Some((Root::Global(_), _)) => None,
        None => None,
    }
}

// Whether the getelementptrs of a local lead back to it.
fn comes_back(func: &Func, marks: &mut Marks, l: u64) -> bool
    requires there { l < length marks.old }
    requires beyond { IsBeyond func.now (length marks.old) }
    ensures ring { IsTrue result ↔ IsRing func.now (Local (record { 0 = l })) }
    ensures len { length marks.new ≡ length marks.old }
{
    marks.clear();
    let limit = marks.len();
    let mut at = l;
    'walk: loop {
        let next = match next_of(func, limit, at) {
            Some(next) => next,
            None => return false,
        };
        if next == l {
            return true;
        }
        if marks.has(next) {
            return false;
        }
        marks.put(next, true);
        at = next;
    }
}

// The root of a local and its offset from there, where it is known which locals are on rings.
fn find_origin(func: &Func, rings: &Marks, marks: &mut Marks, l: u64) -> Origin
    requires there { l < length marks.old }
    requires few { length marks.old < 2 ^ 32 }
    requires same { length rings.now ≡ length marks.old }
    requires beyond { IsBeyond func.now (length marks.old) }
    requires rings { AreRings func.now rings.now }
    requires near { AreOffsetsNear func.now }
    ensures root { HasRoot func.now (Local (record { 0 = l })) result.root result.offset }
    ensures len { length marks.new ≡ length marks.old }
{
    marks.clear();
    let mut at = Root::Local(LocalNo(l));
    let mut sum: i64 = 0;
    'walk: loop {
        let m = match at {
            Root::Local(m) => m,
            Root::Global(_) => return Origin {
                root: at,
                offset: sum,
            },
        };
        if m.0 >= marks.len() || rings.has(m.0) {
            return Origin {
                root: at,
                offset: sum,
            };
        }
        let (base, bytes) = match step(func, m) {
            Some(found) => found,
            None => return Origin {
                root: at,
                offset: sum,
            },
        };
        if marks.has(m.0) {
            unreachable!();
        }
        marks.put(m.0, true);
        sum += bytes;
        at = base;
    }
}

// Finds which locals are on rings.
fn find_rings(func: &Func, rings: &mut Marks, marks: &mut Marks)
    requires same { length rings.old ≡ length marks.old }
    requires beyond { IsBeyond func.now (length marks.old) }
    ensures rings { AreRings func.now rings.new }
    ensures len { length rings.new ≡ length marks.old }
    ensures marks { length marks.new ≡ length marks.old }
{
    for l in 0..rings.len() {
        let ring = comes_back(func, marks, l);
        rings.put(l, ring);
    }
}

// The origin of each local, in the order of their numbers. `Err` comes only where memory is wanting.
fn find_origins(
    alloc: Global,
    func: &Func,
    rings: &Marks,
    marks: &mut Marks,
) -> Result<Vec<Origin>, NoMemory>
    requires few { length marks.old < 2 ^ 32 }
    requires same { length rings.now ≡ length marks.old }
    requires beyond { IsBeyond func.now (length marks.old) }
    requires rings { AreRings func.now rings.now }
    requires near { AreOffsetsNear func.now }
    ensures origins { IfOk result (λ v. IsOrigins func.now v.items) }
    ensures len { length marks.new ≡ length marks.old }
{
    let mut origins = Vec::new(alloc);
    for l in 0..rings.len() {
        origins.push(find_origin(func, rings, marks, l))?;
    }
    Ok(origins)
}

/// The origin of each local, in the order of their numbers, and as many marks. `Err` comes only where memory is wanting.
pub fn find_all_origins(
    alloc: Global,
    func: &Func,
    count: usize,
) -> Result<(Vec<Origin>, Marks), NoMemory>
    requires few { count < 2 ^ 32 }
    requires beyond { IsBeyond func.now count }
    requires near { AreOffsetsNear func.now }
    ensures origins { IfOk result (λ v. IsOrigins func.now v.0.items) }
    ensures marks { IfOk result (λ v. length v.1 ≡ count) }
{
    let mut rings = Marks::new(alloc, count)?;
    let mut marks = Marks::new(alloc, count)?;
    find_rings(func, &mut rings, &mut marks);
    let origins = find_origins(alloc, func, &rings, &mut marks)?;
    Ok((origins, marks))
}
