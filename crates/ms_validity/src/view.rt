// What is known of a function for looking at its lines.
ghost use Rattle.std.specs.Prelude.{IfOk};
ghost use Rattle.ms_paths.specs.Flow.{IsClosed};
ghost use Rattle.ms_ir.specs.Graph.{graph_of};
ghost use Rattle.ms_validity.specs.View.{IsView};

use crate::sources::sources;
use crate::spots::{Spot, spots};
use ms_flow::Flow;
use ms_ir::{Func, Items, NoMemory};
use std::alloc::Global;

/// The flow graph of a function, where its instructions stand, and the edges that lead to its blocks.
#[derive(Drop)]
pub struct View {
    pub flow: Flow,
    pub spots: Vec<Spot>,
    pub sources: Vec<Items<u32>>,
}

/// The view of a function.
pub fn view_of(alloc: Global, func: &Func) -> Result<View, NoMemory>
    requires { IsClosed (graph_of func.now.blocks) }
    ensures { IfOk result (λ v. IsView func.now.blocks v) }
{
    let flow = Flow::of(alloc, func)?;
    let spots = spots(alloc, func)?;
    let sources = sources(alloc, func)?;
    Ok(View {
        flow,
        spots,
        sources,
    })
}
