// Edges that do not fit: a branch to the first block, and phis whose entries are not their block's edges.
ghost use Rattle.std.specs.Prelude.{◌≡◌, ◌≢◌, ◌↔◌, ◌<◌, ℕ, IfOk, IsTrue, Some, length, map, slice_get};
ghost use Rattle.ms_ir.specs.Sound.{HasTwoValues, LeadsToFirst, from_of, times_in};
ghost use Rattle.ms_validity.specs.Tables.{HasBadEntriesFor};

use crate::same::same_val;
use ms_ir::{Entries, Entry, Inst, NoMemory, Term};
use std::alloc::Global;
use std::collections::HashMap;

/// Whether a terminator branches to the first block.
pub fn leads_to_first(term: &Term) -> bool
    ensures { IsTrue result ↔ LeadsToFirst term.now }
{
    match term {
        Term::Br(a, _) => a.0 == 0,
        Term::CondBr(_, a, b, _) => a.0 == 0 || b.0 == 0,
        Term::Ret(..) | Term::Unreachable(..) => false,
    }
}

// The blocks of a phi's entries.
fn froms(alloc: Global, entries: &Entries) -> Result<Vec<u32>, NoMemory>
    ensures { IfOk result (λ v. v.items ≡ map from_of entries.now) }
{
    let mut froms = Vec::new(alloc);
    for entry in entries.as_slice() {
        froms.push(entry.from.0)?;
    }
    Ok(froms)
}

fn same_list(a: &[u32], b: &[u32]) -> bool
    ensures { IsTrue result ↔ (a.now ≡ b.now) }
{
    a == b
}

// Whether some number stands more often in one list than in the other.
fn differ(mut a: Vec<u32>, mut b: Vec<u32>) -> bool
    ensures { IsTrue result ↔ ((n : ℕ) × (times_in n a.items ≢ times_in n b.items)) }
{
    a.sort_unstable();
    b.sort_unstable();
    !same_list(a.as_slice(), b.as_slice())
}

// Whether the blocks of a phi's entries are others than those of its block's edges.
fn other_edges(alloc: Global, sources: &[u32], entries: &Entries) -> Result<bool, NoMemory>
    ensures { IfOk result (λ t. IsTrue t ↔ ((n : ℕ) × (times_in n (map from_of entries.now) ≢ times_in n sources.now))) }
{
    let froms = froms(alloc, entries)?;
    let wanted = Vec::from_slice(alloc, sources)?;
    Ok(differ(froms, wanted))
}

fn nth(entries: &Entries, k: usize) -> Entry
    requires { k < length entries.now }
    ensures { slice_get entries.now k ≡ Some result }
{
    entries.as_slice()[k]
}

// Whether two entries of a phi for one block have different values.
fn two_values(alloc: Global, entries: &Entries) -> Result<bool, NoMemory>
    ensures { IfOk result (λ t. IsTrue t ↔ HasTwoValues entries.now) }
{
    let mut first = HashMap::new(alloc);
    for k in 0..entries.len() {
        let entry = nth(entries, k);
        match first.get(&entry.from.0) {
            Some(val) => {
                if !same_val(*val, entry.val) {
                    return Ok(true);
                }
            }
            None => {
                first.insert(entry.from.0, entry.val)?;
            }
        }
    }
    Ok(false)
}

/// Whether an instruction is a phi whose entries are not the edges of its block, which come from these blocks.
pub fn bad_entries(alloc: Global, sources: &[u32], inst: &Inst) -> Result<bool, NoMemory>
    ensures { IfOk result (λ t. IsTrue t ↔ HasBadEntriesFor sources.now inst.now) }
{
    match inst {
        Inst::Phi { entries, .. } => {
            if other_edges(alloc, sources, entries)? {
                return Ok(true);
            }
            two_values(alloc, entries)
        }
        _ => Ok(false),
    }
}
