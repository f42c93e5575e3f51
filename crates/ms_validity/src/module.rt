ghost use Rattle.std.specs.Prelude.{ℕ, ◌≡◌, ◌≤◌, ◌⊎◌, List, IfOk, IfErr, MatchOption, length};
ghost use Rattle.ms_resolve.specs.Shape.{ItemLines, IsShape};
ghost use Rattle.ms_validity.specs.Cause.{IsAccepted, IsResolvedTo, IsValidCause};
ghost use Rattle.ms_validity.specs.Raw.{LineHas};
ghost use Rattle.ms_validity.specs.Told.{AreClosed, ModuleHas, Tells};
ghost use Rattle.ms_validity.specs.declared.phase.Phase.TheVariants.{Types};

use crate::bodies::{first_irreducible, module_fault};
use crate::fault::ValidFault;
use crate::phase::Phase;
use crate::raw::draft_fault;
use ms_grammar::Line;
use ms_ir::{Items, Module, NoMemory};
use ms_names::earlier;
use ms_resolve::{BodyLines, Resolved, resolve};
use std::alloc::Global;

// The least line of a module with a fault in its types, of this many functions at most.
fn type_fault(
    alloc: Global,
    draft: &Items<(u32, Line)>,
    m: &Module,
    lines: &Items<BodyLines>,
    limit: u32,
) -> Result<Option<u32>, NoMemory>
    requires closed { AreClosed m.now }
    requires limit { length m.now.bodies ≤ limit }
    ensures { IfOk result (λ r. Tells (λ n. ModuleHas Types m.now lines.now n ⊎ ((k : ℕ) × LineHas m.now.names draft.now k n)) r) }
{
    let inside = module_fault(alloc, Phase::Types, m, lines, limit)?;
    let named = draft_fault(alloc, m.names(), draft)?;
    Ok(earlier(inside, named))
}

// What keeps a module of this many functions at most from being accepted, once its names are resolved.
fn fault_in(
    alloc: Global,
    draft: &Items<(u32, Line)>,
    m: &Module,
    lines: &Items<BodyLines>,
    limit: u32,
) -> Result<Option<ValidFault>, NoMemory>
    requires resolved { IsResolvedTo draft.now m.now lines.now }
    requires limit { length m.now.bodies ≤ limit }
    ensures { IfOk result (λ r. MatchOption r (IsAccepted draft.now m.now) (λ fault. IsValidCause draft.now fault)) }
{
    match type_fault(alloc, draft, m, lines, limit)? {
        Some(line) => return Ok(Some(ValidFault::Types(line))),
        None => {}
    }
    match module_fault(alloc, Phase::Edges, m, lines, limit)? {
        Some(line) => return Ok(Some(ValidFault::Edges(line))),
        None => {}
    }
    match module_fault(alloc, Phase::Order, m, lines, limit)? {
        Some(line) => return Ok(Some(ValidFault::Order(line))),
        None => {}
    }
    match first_irreducible(alloc, m, limit)? {
        Some(f) => Ok(Some(ValidFault::Irreducible(f))),
        None => Ok(None),
    }
}

/// The module of a draft's lines, where it is accepted. A draft of 2^31 - 1 lines and more is `Memory`.
pub fn accept(alloc: Global, draft: &Items<(u32, Line)>) -> Result<Module, ValidFault>
    requires shape { (items : List ItemLines) × IsShape draft.now items }
    ensures ok { IfOk result (λ m. IsAccepted draft.now m) }
    ensures err { IfErr result (λ fault. IsValidCause draft.now fault) }
{
    if draft.len() >= 0x7fff_ffff {
        return Err(ValidFault::Memory);
    }
    let limit = draft.len() as u32;
    let Resolved { module, lines } = resolve(alloc, draft)?;
    match fault_in(alloc, draft, &module, &lines, limit)? {
        Some(fault) => Err(fault),
        None => Ok(module),
    }
}
