// Places of instructions, once one of them is moved.
ghost use Rattle.std.specs.Prelude.{◌≡◌, ◌≤◌, ◌<◌, ◌+◌, IsTrue, false, length};
ghost use Rattle.ms_ir.specs.Func.{insts_at};
ghost use Rattle.ms_edits.specs.Moved.{CanBeAfter, IsMove, IsSpotAfter};
ghost use Rattle.ms_edits.specs.declared.spots.After.TheVariants.{Moved};

use ms_ir::{BlockNo, Func};

/// A place of a block.
#[derive(Clone, Copy)]
pub struct Spot {
    pub block: u32,
    pub place: u32,
}

/// The function that is looked at: as it is, or with the instruction of the one place moved to the other, which counts without it.
#[derive(Clone, Copy)]
pub enum After {
    Same,
    Moved(Spot, Spot),
}

// The place of what stands elsewhere, once the instruction of a place is taken out.
fn place_without(from: Spot, at: Spot) -> u32
    ensures behind { at.block ≡ from.block → from.place < at.place → result + 1 ≡ at.place }
    ensures before { at.block ≡ from.block → at.place ≤ from.place → result ≡ at.place }
    ensures other { (at.block ≡ from.block → ⊥) → result ≡ at.place }
    ensures most { result ≤ at.place }
{
    if at.block == from.block && from.place < at.place {
        at.place - 1
    } else {
        at.place
    }
}

// The place of what stands at place k of block c, which is below the count, once an instruction is put at a place.
fn place_with(to: Spot, c: u32, k: u32, count: u32) -> u32
    requires { k < count }
    ensures behind { to.block ≡ c → to.place ≤ k → result ≡ k + 1 }
    ensures before { to.block ≡ c → k < to.place → result ≡ k }
    ensures other { (to.block ≡ c → ⊥) → result ≡ k }
{
    if to.block == c && to.place <= k {
        k + 1
    } else {
        k
    }
}

fn is_same(a: Spot, b: Spot) -> bool
    ensures same { IsTrue result → (a.block ≡ b.block) × (a.place ≡ b.place) }
    ensures other { result ≡ false → a.block ≡ b.block → a.place ≡ b.place → ⊥ }
{
    a.block == b.block && a.place == b.place
}

// Where what stands at a place stands once an instruction is moved.
fn moved_spot(func: &Func, from: Spot, to: Spot, at: Spot) -> Spot
    requires moves { IsMove func.now from to }
    requires block { at.block < length func.now.blocks }
    requires place { at.place < length (insts_at func.now.blocks at.block) }
    ensures stands { IsSpotAfter func.now (Moved from to) at result }
    ensures block { result.block < length func.now.blocks }
{
    func.numbered();
    if is_same(at, from) {
        return to;
    }
    let left = place_without(from, at);
    let place = place_with(to, at.block, left, func.count(BlockNo(at.block)));
    Spot {
        block: at.block,
        place,
    }
}

/// Where what stands at a place stands in the function that is looked at.
pub fn spot_after(func: &Func, after: After, at: Spot) -> Spot
    requires after { CanBeAfter func.now after }
    requires block { at.block < length func.now.blocks }
    requires place { at.place < length (insts_at func.now.blocks at.block) }
    ensures stands { IsSpotAfter func.now after at result }
    ensures block { result.block < length func.now.blocks }
{
    match after {
        After::Same => at,
        After::Moved(from, to) => moved_spot(func, from, to, at),
    }
}
