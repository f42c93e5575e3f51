// Going along the instructions of a block.
ghost use Rattle.std.specs.Prelude.{◌≡◌, ◌<◌, ◌+◌, ◌-◌, ◌^◌, ◌∷◌, length, drop};
ghost use Rattle.ms_ir.specs.Func.{insts_at, placed_as};
ghost use Rattle.ms_print.specs.Walk.{IsWalk};

use ms_ir::{BlockNo, Func, InstNo, Node};

// A place of a block, with the instruction that stands there.
#[derive(Clone, Copy)]
pub struct Walk {
    pub block: BlockNo,
    pub place: u32,
    pub at: Option<InstNo>,
}

// The first place of a block.
pub fn first_of(func: &Func, block: BlockNo) -> Walk
    ensures walk { IsWalk func.now.blocks result }
    ensures block { result.block ≡ block }
    ensures place { result.place ≡ 0 }
{
    Walk {
        block,
        place: 0,
        at: func.first_inst(block),
    }
}

// The instruction at a place and its number, and the next place.
pub fn step(func: &Func, walk: Walk) -> (InstNo, &Node, Walk)
    requires walk { IsWalk func.now.blocks walk }
    requires block { walk.block.0 < length func.now.blocks }
    requires place { walk.place < length (insts_at func.now.blocks walk.block.0) }
    requires few { walk.place < 2 ^ 32 - 1 }
    ensures found { drop walk.place (insts_at func.now.blocks walk.block.0)
        ≡ placed_as result.0.0 result.1.now ∷ drop (walk.place + 1) (insts_at func.now.blocks walk.block.0) }
    ensures walk { IsWalk func.now.blocks result.2 }
    ensures block { result.2.block ≡ walk.block }
    ensures place { result.2.place ≡ walk.place + 1 }
{
    let i = match walk.at {
        Some(i) => i,
        None => unreachable!(),
    };
    let node = match func.node(i) {
        Some(node) => node,
        None => unreachable!(),
    };
    let next = Walk {
        block: walk.block,
        place: walk.place + 1,
        at: func.next_inst(i),
    };
    (i, node, next)
}
