// The last counted Def at a place.
ghost use Rattle.std.specs.Prelude.{ℕ, IfOk};
ghost use Rattle.ms_paths.specs.Flow.{IsReached};
ghost use Rattle.ms_ir.specs.Graph.{graph_of, defs_of};
ghost use Rattle.ms_build.specs.Formed.{IsFormed};
ghost use Rattle.ms_climb.specs.Answer.{AreDefs, IsLastAt, IsLastBefore, IsLastAtEnd, StandsReached};

use crate::near::{Near, near_stop};
use crate::skips::Skips;
use crate::start::start_before;
use crate::walk::Walk;
use crate::writes::Writes;
use ms_build::Formed;
use ms_form::Access;
use ms_ir::{BlockNo, InstNo, NoMemory};
use std::alloc::Global;

// From the last Def at a place to the last one that counts.
fn climb<W: Writes>(
    alloc: Global,
    formed: &Formed,
    counted: &W,
    start: Access,
) -> Result<Access, NoMemory>
    requires formed { IsFormed formed.now.func.now formed.now.flow.now.graph formed.now.form.now }
    requires defs { AreDefs formed.now.func.now.blocks (W.test counted.now) }
    ensures { IfOk result (λ a. (b k : ℕ) → IsReached (graph_of formed.now.func.now.blocks) b
        → IsLastAt formed.now.func.now.blocks (defs_of formed.now.func.now.blocks) b k start
        → IsLastAt formed.now.func.now.blocks (W.test counted.now) b k a) }
{
    let func = formed.func;
    let flow = formed.flow;
    let form = formed.form;
    func.numbered();
    ms_flow::laws::same_paths();
    ms_flow::laws::order_told();
    ms_flow::laws::sources_told();
    ms_paths::laws::walk_answers();
    ms_paths::laws::answer_lies_on_every();
    match near_stop(alloc, form, counted, start)? {
        Near::Stop(found) => Ok(found),
        Near::Left { passed, at } => {
            let walk = Walk::collect(alloc, func.made(), flow, form, counted, &passed, at)?;
            let mut skips = Skips::none(alloc, flow.block_count())?;
            skips.settle(flow, form, &walk);
            Ok(skips.root(walk.stop(start)))
        }
    }
}

/// The last counted Def before an instruction, on every path to it, with phis at the blocks that need one for the counted
/// Defs; the entry where none is before it. The instruction stands in a reached block, and need not touch memory itself. `Err`
/// comes only where memory is wanting.
pub fn last_before<W: Writes>(
    alloc: Global,
    formed: &Formed,
    counted: &W,
    i: InstNo,
) -> Result<Access, NoMemory>
    requires formed { IsFormed formed.now.func.now formed.now.flow.now.graph formed.now.form.now }
    requires defs { AreDefs formed.now.func.now.blocks (W.test counted.now) }
    requires reached { StandsReached formed.now.func.now.blocks i.0 }
    ensures { IfOk result (IsLastBefore formed.now.func.now.blocks (W.test counted.now) i.0) }
{
    formed.func.numbered();
    let start = start_before(formed.func, formed.form, i);
    climb(alloc, formed, counted, start)
}

/// The same at the end of a reached block.
pub fn last_at_end<W: Writes>(
    alloc: Global,
    formed: &Formed,
    counted: &W,
    b: BlockNo,
) -> Result<Access, NoMemory>
    requires formed { IsFormed formed.now.func.now formed.now.flow.now.graph formed.now.form.now }
    requires defs { AreDefs formed.now.func.now.blocks (W.test counted.now) }
    requires reached { IsReached (graph_of formed.now.func.now.blocks) b.0 }
    ensures { IfOk result (IsLastAtEnd formed.now.func.now.blocks (W.test counted.now) b.0) }
{
    formed.func.numbered();
    let start = formed.form.leaving(b);
    climb(alloc, formed, counted, start)
}
