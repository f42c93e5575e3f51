// The least line of a module's functions that has a fault of a phase, and the first function with an irreducible loop.
ghost use Rattle.std.specs.Prelude.{◌≡◌, ◌≤◌, ◌↔◌, ℕ, IfOk, IsTrue, MatchOption, Some, length, slice_get};
ghost use Rattle.ms_paths.specs.Flow.{IsClosed};
ghost use Rattle.ms_ir.specs.Func.{FuncState};
ghost use Rattle.ms_ir.specs.Graph.{graph_of};
ghost use Rattle.ms_validity.specs.Cause.{HasNone, IsLeast};
ghost use Rattle.ms_validity.specs.Faults.{IsIrreducible, bodies_there};
ghost use Rattle.ms_validity.specs.Told.{ModuleHas, PlaceHas, Tells, AreClosed};

use crate::body::body_fault;
use crate::phase::Phase;
use ms_flow::Flow;
use ms_ir::{Func, FuncNo, Items, Module, NoMemory};
use ms_names::earlier;
use ms_resolve::BodyLines;
use std::alloc::Global;

// The least line of a function that has the fault, where its lines stand at a place.
fn place_fault(
    alloc: Global,
    phase: Phase,
    m: &Module,
    func: &Func,
    lines: &Items<BodyLines>,
    place: usize,
) -> Result<Option<u32>, NoMemory>
    requires closed { IsClosed (graph_of func.now.blocks) }
    requires place { slice_get (bodies_there m.now) place ≡ Some func.now }
    ensures { IfOk result (λ r. Tells (PlaceHas phase m.now lines.now place) r) }
{
    match lines.get(place) {
        Some(body) => body_fault(alloc, phase, m, func, body),
        None => Ok(None),
    }
}

/// The least line that has the fault in a module of this many functions at most.
pub fn module_fault(
    alloc: Global,
    phase: Phase,
    m: &Module,
    lines: &Items<BodyLines>,
    limit: u32,
) -> Result<Option<u32>, NoMemory>
    requires closed { AreClosed m.now }
    requires limit { length m.now.bodies ≤ limit }
    ensures { IfOk result (λ r. Tells (ModuleHas phase m.now lines.now) r) }
{
    let mut found = None;
    let mut place: usize = 0;
    for f in 0..limit {
        match m.func(FuncNo(f)) {
            Some(func) => {
                found = earlier(found, place_fault(alloc, phase, m, func, lines, place)?);
                place += 1;
            }
            None => {}
        }
    }
    Ok(found)
}

// Whether a function has an irreducible loop.
fn is_irreducible(alloc: Global, m: &Module, f: FuncNo) -> Result<bool, NoMemory>
    requires { AreClosed m.now }
    ensures { IfOk result (λ t. IsTrue t ↔ IsIrreducible m.now f.0) }
{
    ms_flow::laws::same_paths();
    match m.func(f) {
        Some(func) => {
            let flow = Flow::of(alloc, func)?;
            Ok(!flow.reducible())
        }
        None => Ok(false),
    }
}

/// The first function with an irreducible loop in a module of this many functions at most.
pub fn first_irreducible(alloc: Global, m: &Module, limit: u32) -> Result<Option<FuncNo>, NoMemory>
    requires closed { AreClosed m.now }
    requires limit { length m.now.bodies ≤ limit }
    ensures { IfOk result (λ r. MatchOption r (HasNone (IsIrreducible m.now)) (λ f. IsLeast (IsIrreducible m.now) f.0)) }
{
    for f in 0..limit {
        if is_irreducible(alloc, m, FuncNo(f))? {
            return Ok(Some(FuncNo(f)));
        }
    }
    Ok(None)
}
