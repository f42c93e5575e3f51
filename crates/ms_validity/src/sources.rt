// The edges that lead to each block, from reached blocks or not.
ghost use Rattle.std.specs.Prelude.{◌≡◌, ◌<◌, ℕ, [], IfOk, OnOk, Contains, length, replicate};
ghost use Rattle.ms_paths.specs.Flow.{IsClosed};
ghost use Rattle.ms_ir.specs.Graph.{graph_of, successors};
ghost use Rattle.ms_validity.specs.Tables.{AreSources, with_source, with_sources};

use ms_ir::{BlockNo, Func, Items, NoMemory, Steps, Term};
use std::alloc::Global;

// An empty list for each block.
fn no_sources(alloc: Global, blocks: u32) -> Result<Vec<Items<u32>>, NoMemory>
    ensures { IfOk result (λ v. v.items ≡ replicate blocks []) }
{
    let mut lists = Vec::new(alloc);
    for _ in 0..blocks {
        lists.push(Items::new(alloc))?;
    }
    Ok(lists)
}

// Adds an edge to the list of the block that it leads to.
fn add(lists: &mut Vec<Items<u32>>, to: BlockNo, from: u32) -> Result<(), NoMemory>
    requires { to.0 < length lists.old.items }
    ensures { OnOk result (lists.new.items ≡ with_source lists.old.items to.0 from) }
{
    lists[to.0 as usize].push(from)?;
    Ok(())
}

// Adds the edges that leave a block.
fn add_targets(term: &Term, from: u32, lists: &mut Vec<Items<u32>>) -> Result<(), NoMemory>
    requires { (t : ℕ) → Contains (successors term.now) t → t < length lists.old.items }
    ensures { OnOk result (lists.new.items ≡ with_sources lists.old.items (successors term.now) from) }
{
    match term {
        Term::Br(a, _) => add(lists, *a, from),
        Term::CondBr(_, a, b, _) => {
            add(lists, *a, from)?;
            add(lists, *b, from)
        }
        Term::Ret(..) | Term::Unreachable(..) => Ok(()),
    }
}

/// For each block the blocks that its incoming edges leave.
pub fn sources(alloc: Global, func: &Func) -> Result<Vec<Items<u32>>, NoMemory>
    requires { IsClosed (graph_of func.now.blocks) }
    ensures { IfOk result (λ v. AreSources func.now.blocks v.items) }
{
    let blocks = func.block_count();
    let mut steps = Steps::new(alloc)?;
    let mut lists = no_sources(alloc, blocks)?;
    for from in 0..blocks {
        add_targets(func.term(BlockNo(from), &mut steps), from, &mut lists)?;
    }
    Ok(lists)
}
