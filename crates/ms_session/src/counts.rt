// How many uses there are.
ghost use Rattle.std.specs.Prelude.{◌≡◌, ◌<◌, ◌≤◌, ℕ, length, if◌then◌else◌};
ghost use Rattle.ms_ir.specs.Func.{Placed, IsAt, insts_at};
ghost use Rattle.ms_ir.specs.Inst.{kind_of_inst};
ghost use Rattle.ms_session.specs.Annotated.{is_use, uses_in, uses_from};
ghost use Rattle.ms_session.specs.Shown.{reached_in};

use crate::numbers::is_reached;
use ms_flow::Flow;
use ms_ir::{BlockNo, Func, InstNo, Kind};

// One for a use, none for another instruction.
fn one_if_use(func: &Func, i: InstNo) -> u32
    ensures at { (b place : ℕ) (x : Placed) → IsAt func.now.blocks i.0 b place x → result ≡ (if is_use (kind_of_inst x.inst) then 1 else 0) }
    ensures few { result ≤ 1 }
{
    match func.kind(i) {
        Some(kind) => match kind {
            Kind::Reads => 1,
            Kind::Def | Kind::Neither => 0,
        },
        None => 0,
    }
}

// The uses in a block.
fn block_uses(func: &Func, b: BlockNo) -> u32
    requires { b.0 < length func.now.blocks }
    ensures { result ≡ uses_in (insts_at func.now.blocks b.0) }
{
    func.numbered();
    let mut uses = 0;
    let mut at = func.first_inst(b);
    for place in 0..func.count(b) {
        let i = match at {
            Some(i) => i,
            None => unreachable!(),
        };
        uses += one_if_use(func, i);
        at = func.next_inst(i);
    }
    uses
}

// The uses in a block, if it is reached.
fn reached_uses(func: &Func, flow: &Flow, b: BlockNo) -> u32
    requires graph { b.0 < length flow.now.graph }
    requires block { b.0 < length func.now.blocks }
    ensures { result ≡ (if reached_in flow.now.graph b.0 then uses_in (insts_at func.now.blocks b.0) else 0) }
{
    if is_reached(flow, b) {
        return block_uses(func, b);
    }
    0
}

/// How many uses there are in reached blocks.
pub fn count_uses(func: &Func, flow: &Flow) -> u64
    requires { length flow.now.graph ≡ length func.now.blocks }
    ensures { result ≡ uses_from (reached_in flow.now.graph) 0 func.now.blocks }
{
    func.numbered();
    let mut uses = 0;
    for b in 0..func.block_count() {
        uses += reached_uses(func, flow, BlockNo(b)) as u64;
    }
    uses
}
