// Searches that end after a few Defs and meet no phi, as most do: no tables are made for them. Where the chain is left before its
// stop, the Defs that were passed are handed on with the place, so that none of them is asked again. The chain itself meets no
// Def twice, since each leads to the last one before it on every path.
ghost use Rattle.std.specs.Prelude.{IfOk};
ghost use Rattle.ms_climb.specs.Near.{IsFirstChain};

use crate::chains::access_before;
use crate::writes::Writes;
use ms_form::{Access, Form};
use ms_ir::{InstNo, NoMemory};
use std::alloc::Global;

// How many Defs are passed at most.
const NEAR: usize = 64;

/// What is found on the first chain: its stop, which is the entry or a Def that counts; or, where a phi is met first or `NEAR`
/// Defs were passed, these Defs in order, and the access to which they lead.
#[derive(Drop)]
pub enum Near {
    Stop(Access),
    Left { passed: Vec<InstNo>, at: Access },
}

/// Climbs the chain from an access, `NEAR` Defs at most.
pub fn near_stop<W: Writes>(
    alloc: Global,
    form: &Form,
    counted: &W,
    from: Access,
) -> Result<Near, NoMemory>
    ensures { IfOk result (IsFirstChain NEAR form.now (W.test counted.now) from) }
{
    let mut passed = Vec::new(alloc);
    let mut at = from;
    'climbing: while passed.len() < NEAR {
        match at {
            Access::Entry => return Ok(Near::Stop(at)),
            Access::Phi(_) => return Ok(Near::Left { passed, at }),
            Access::Of(i) => {
                if counted.writes(i) {
                    return Ok(Near::Stop(at));
                }
                passed.push(i)?;
                at = access_before(form, i);
            }
        }
    }
    Ok(Near::Left { passed, at })
}
