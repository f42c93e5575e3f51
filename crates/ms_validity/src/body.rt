// The least line of a function that has a fault of a phase.
ghost use Rattle.std.specs.Prelude.{◌≡◌, ◌↔◌, ◌<◌, ℕ, IfOk, IsTrue, length};
ghost use Rattle.ms_paths.specs.Flow.{IsClosed};
ghost use Rattle.ms_ir.specs.Graph.{graph_of};
ghost use Rattle.ms_validity.specs.Told.{BodyHas, InstFault, InstHas, TermFault, TermHas, Tells};
ghost use Rattle.ms_validity.specs.View.{IsView};

use crate::edges::{bad_entries, leads_to_first};
use crate::order::{inst_order, spot_of, term_order};
use crate::phase::Phase;
use crate::spots::Spot;
use crate::types::{inst_types, term_types};
use crate::view::{View, view_of};
use ms_ir::{BlockNo, Func, Inst, InstNo, Items, Module, NoMemory, Steps, Term};
use ms_names::earlier;
use ms_resolve::BodyLines;
use std::alloc::Global;

// Whether an instruction that stands at this spot has the fault.
fn inst_fault(
    alloc: Global,
    phase: Phase,
    m: &Module,
    func: &Func,
    view: &mut View,
    at: Spot,
    inst: &Inst,
) -> Result<bool, NoMemory>
    requires view { IsView func.now.blocks view.old }
    requires closed { IsClosed (graph_of func.now.blocks) }
    requires block { at.block < length func.now.blocks }
    ensures told { IfOk result (λ t. IsTrue t ↔ InstFault phase m.now func.now at.block at.place inst.now) }
    ensures view { IsView func.now.blocks view.new }
{
    match phase {
        Phase::Types => Ok(inst_types(m, func, inst)),
        Phase::Edges => bad_entries(alloc, view.sources[at.block as usize].as_slice(), inst),
        Phase::Order => Ok(inst_order(func, &mut view.flow, view.spots.as_slice(), at, inst)),
    }
}

// The line of the instruction of a number, where it has the fault.
fn inst_line(
    alloc: Global,
    phase: Phase,
    m: &Module,
    func: &Func,
    view: &mut View,
    lines: &Items<u32>,
    i: InstNo,
) -> Result<Option<u32>, NoMemory>
    requires view { IsView func.now.blocks view.old }
    requires closed { IsClosed (graph_of func.now.blocks) }
    ensures told { IfOk result (λ r. Tells (InstHas phase m.now func.now lines.now i.0) r) }
    ensures view { IsView func.now.blocks view.new }
{
    let node = match func.node(i) {
        Some(node) => node,
        None => return Ok(None),
    };
    let line = match lines.get(i.0 as usize) {
        Some(line) => *line,
        None => return Ok(None),
    };
    let at = match spot_of(view.spots.as_slice(), i) {
        Some(at) => at,
        None => return Ok(None),
    };
    if inst_fault(alloc, phase, m, func, view, at, &node.inst)? {
        Ok(Some(line))
    } else {
        Ok(None)
    }
}

// The least line of an instruction with the fault.
fn least_inst(
    alloc: Global,
    phase: Phase,
    m: &Module,
    func: &Func,
    view: &mut View,
    lines: &Items<u32>,
) -> Result<Option<u32>, NoMemory>
    requires view { IsView func.now.blocks view.old }
    requires closed { IsClosed (graph_of func.now.blocks) }
    ensures told { IfOk result (λ r. Tells (λ n. (i : ℕ) × InstHas phase m.now func.now lines.now i n) r) }
    ensures view { IsView func.now.blocks view.new }
{
    func.numbered();
    let mut found = None;
    for i in 0..func.made() {
        found = earlier(
            found,
            inst_line(alloc, phase, m, func, view, lines, InstNo(i))?,
        );
    }
    Ok(found)
}

// Whether the terminator of a block has the fault.
fn term_fault(phase: Phase, func: &Func, view: &mut View, b: BlockNo, term: &Term) -> bool
    requires view { IsView func.now.blocks view.old }
    requires closed { IsClosed (graph_of func.now.blocks) }
    ensures told { IsTrue result ↔ TermFault phase func.now b.0 term.now }
    ensures view { IsView func.now.blocks view.new }
{
    match phase {
        Phase::Types => term_types(func, term),
        Phase::Edges => leads_to_first(term),
        Phase::Order => term_order(func, &mut view.flow, view.spots.as_slice(), b, term),
    }
}

// The line of the terminator of a block, where it has the fault.
fn term_line(
    phase: Phase,
    func: &Func,
    view: &mut View,
    lines: &Items<u32>,
    b: BlockNo,
    steps: &mut Steps,
) -> Option<u32>
    requires view { IsView func.now.blocks view.old }
    requires closed { IsClosed (graph_of func.now.blocks) }
    requires block { b.0 < length func.now.blocks }
    ensures told { Tells (TermHas phase func.now lines.now b.0) result }
    ensures view { IsView func.now.blocks view.new }
{
    let line = match lines.get(b.0 as usize) {
        Some(line) => *line,
        None => return None,
    };
    let term = func.term(b, steps);
    if term_fault(phase, func, view, b, term) {
        Some(line)
    } else {
        None
    }
}

// The least line of a terminator with the fault.
fn least_term(
    alloc: Global,
    phase: Phase,
    func: &Func,
    view: &mut View,
    lines: &Items<u32>,
) -> Result<Option<u32>, NoMemory>
    requires view { IsView func.now.blocks view.old }
    requires closed { IsClosed (graph_of func.now.blocks) }
    ensures told { IfOk result (λ r. Tells (λ n. (b : ℕ) × TermHas phase func.now lines.now b n) r) }
    ensures view { IsView func.now.blocks view.new }
{
    let mut steps = Steps::new(alloc)?;
    let mut found = None;
    for b in 0..func.block_count() {
        found = earlier(
            found,
            term_line(phase, func, view, lines, BlockNo(b), &mut steps),
        );
    }
    Ok(found)
}

/// The least line of a function that has the fault.
pub fn body_fault(
    alloc: Global,
    phase: Phase,
    m: &Module,
    func: &Func,
    lines: &BodyLines,
) -> Result<Option<u32>, NoMemory>
    requires { IsClosed (graph_of func.now.blocks) }
    ensures { IfOk result (λ r. Tells (BodyHas phase m.now func.now lines.now) r) }
{
    let mut view = view_of(alloc, func)?;
    let inst = least_inst(alloc, phase, m, func, &mut view, &lines.insts)?;
    let term = least_term(alloc, phase, func, &mut view, &lines.terms)?;
    Ok(earlier(inst, term))
}
