ghost use Rattle.std.specs.Prelude.{◌≡◌, ◌<◌, ◌-◌, ◌^◌, ℕ, List, [], length, IfOk, IfErr};
ghost use Rattle.ms_ir.specs.Symbols.{AreDistinct};
ghost use Rattle.ms_names.specs.Shape.{ItemLines, IsShape};
ghost use Rattle.ms_resolve.specs.Cause.{IsFew, IsResolved, IsNameCause};
ghost use Rattle.ms_resolve.specs.Build.{bare_module, no_module, bodies_after, AreNew, built};

use crate::fault::NameFault;
use crate::items::{Context, bodies_of, groups_of, sigs_of};
use crate::resolved::Resolved;
use ms_grammar::Line;
use ms_ir::{Items, Module, NoMemory};
use ms_names::{Symbols, least_in_functions, symbols_of};
use std::alloc::Global;

// The module of lines without a fault.
fn module_of(alloc: Global, lines: &[(u32, Line)], symbols: &Symbols) -> Result<Module, NoMemory>
    requires new { AreNew (no_module []).names lines.now }
    requires few { length lines.now < 2 ^ 31 - 1 }
    ensures { IfOk result (λ m. bare_module m ≡ built symbols.now lines.now) }
{
    let groups = groups_of(alloc, lines)?;
    let sigs = sigs_of(alloc, &groups, lines)?;
    let context = Context {
        alloc,
        symbols,
        sigs: &sigs,
        groups: &groups,
    };
    context.module(lines)
}

// The same with the lines of each body.
fn build(alloc: Global, lines: &[(u32, Line)], symbols: &Symbols) -> Result<Resolved, NoMemory>
    requires new { AreNew (no_module []).names lines.now }
    requires few { length lines.now < 2 ^ 31 - 1 }
    ensures module_is { IfOk result (λ r. bare_module r.«module» ≡ built symbols.now lines.now) }
    ensures distinct { IfOk result (λ r. AreDistinct r.«module».names.funcs) }
    ensures lines_are { IfOk result (λ r. r.lines ≡ bodies_after [] lines.now) }
{
    let bodies = bodies_of(alloc, lines)?;
    let module = module_of(alloc, lines, symbols)?;
    module.whole();
    Ok(Resolved {
        module,
        lines: bodies,
    })
}

/// The module of a draft's lines: each with its number, in their order, none of them empty.
///
/// `Name` has the least line on which a function or global is made a second time in the module, or a local or label a second time in
/// its function (locals and labels share their names, and one that is made again names what is made first); a local, label, global or
/// function is used that is made nowhere, or whose name names something else; or a written number is less than the next free one. `Memory`
/// says nothing of the lines.
///
/// The time is linear in the length of the lines, but for looking names up and for the groups that attributes name.
pub fn resolve(alloc: Global, draft: &Items<(u32, Line)>) -> Result<Resolved, NameFault>
    requires shape { (items : List ItemLines) × IsShape draft.now items }
    requires few { IsFew draft.now }
    ensures ok { IfOk result (λ r. IsResolved draft.now r) }
    ensures err { IfErr result (λ fault. IsNameCause draft.now fault) }
{
    let lines = draft.as_slice();
    let symbols = match symbols_of(alloc, lines) {
        Ok(symbols) => symbols,
        Err(NoMemory) => return Err(NameFault::Memory),
    };
    match least_in_functions(alloc, &symbols.all, symbols.least, lines) {
        Ok(Some(line)) => Err(NameFault::Name(line)),
        Ok(None) => match build(alloc, lines, &symbols) {
            Ok(resolved) => Ok(resolved),
            Err(NoMemory) => Err(NameFault::Memory),
        },
        Err(NoMemory) => Err(NameFault::Memory),
    }
}
