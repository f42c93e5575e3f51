// What uses name.
ghost use Rattle.std.specs.Prelude.{ℕ, IfOk};
ghost use Rattle.ms_ir.specs.Func.{Placed, IsAt};
ghost use Rattle.ms_build.specs.Accesses.{event_of};
ghost use Rattle.ms_climb.specs.Answer.{StandsReached};
ghost use Rattle.ms_walk.specs.Pointed.{IsPointed};
ghost use Rattle.ms_session.specs.Annotated.{IsUse};

use ms_form::Access;
use ms_ir::{InstNo, NoMemory};
use ms_walk::{Pointed, walk};
use std::alloc::Global;

/// The access that a use in a reached block names: the clobber of what it reads, the entry if it reads no location.
pub fn named_by_use(alloc: Global, of: &Pointed, i: InstNo) -> Result<Access, NoMemory>
    requires pointed { IsPointed of.now.func.now of.now.flow.now.graph of.now.form.now of.now.alias.now }
    requires reached { StandsReached of.now.func.now.blocks i.0 }
    ensures { IfOk result (λ a. (b place : ℕ) (x : Placed) → IsAt of.now.func.now.blocks i.0 b place x → IsUse of.now.func.now b place x (event_of a)) }
{
    of.func.numbered();
    match of.alias.reads(of.func, i) {
        Some(loc) => Ok(walk(alloc, of.func, of.flow, of.form, of.alias, i, &loc)?),
        None => Ok(Access::Entry),
    }
}
