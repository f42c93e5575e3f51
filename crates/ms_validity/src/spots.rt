// Where the instructions of a function stand.
ghost use Rattle.std.specs.Prelude.{◌≡◌, ◌≢◌, ◌<◌, ℕ, IfOk, Some, length, slice_get};
ghost use Rattle.ms_ir.specs.Func.{Placed, insts_at};
ghost use Rattle.ms_validity.specs.Tables.{AreSpots, spot_at};

use ms_ir::{BlockNo, Func, NoMemory};
use std::alloc::Global;

/// A place of a block.
#[derive(Clone, Copy)]
pub struct Spot {
    pub block: u32,
    pub place: u32,
}

// Notes where the instructions of a block stand.
fn note_block(func: &Func, b: BlockNo, spots: &mut Vec<Spot>)
    requires block { b.0 < length func.now.blocks }
    requires made { length spots.old.items ≡ func.now.made }
    ensures own { (k : ℕ) (x : Placed) → slice_get (insts_at func.now.blocks b.0) k ≡ Some x → slice_get spots.new.items x.number ≡ Some (spot_at b.0 k) }
    ensures others { (a k : ℕ) (x : Placed) → a ≢ b.0 → slice_get (insts_at func.now.blocks a) k ≡ Some x → slice_get spots.new.items x.number ≡ slice_get spots.old.items x.number }
    ensures made { length spots.new.items ≡ func.now.made }
{
    func.numbered();
    let mut at = func.first_inst(b);
    for place in 0..func.count(b) {
        match at {
            Some(i) => {
                spots[i.0 as usize] = Spot { block: b.0, place };
                at = func.next_inst(i);
            }
            None => {}
        }
    }
}

/// For each instruction, by its number, where it stands.
pub fn spots(alloc: Global, func: &Func) -> Result<Vec<Spot>, NoMemory>
    ensures { IfOk result (λ v. AreSpots func.now.blocks v.items) }
{
    let mut spots = Vec::from_elem(alloc, Spot { block: 0, place: 0 }, func.made() as usize)?;
    for b in 0..func.block_count() {
        note_block(func, BlockNo(b), &mut spots);
    }
    Ok(spots)
}
