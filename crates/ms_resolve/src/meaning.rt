// What attributes mean.
ghost use Rattle.std.specs.Prelude.{◌≡◌, IfOk};
ghost use Rattle.ms_resolve.specs.Meaning.{effects_in, keeps_in};

use ms_attrs::{effects_by, keeps_by};
use ms_ir::{Effects, Groups, NoMemory, Text};
use std::alloc::Global;

pub(crate) fn effects_of(alloc: Global, post: &Text, groups: &Groups) -> Result<Effects, NoMemory>
    ensures { IfOk result (λ e. e ≡ effects_in groups.now post.now) }
{
    ms_attrs::laws::one_meaning();
    Ok(effects_by(alloc, post, groups)?)
}

pub(crate) fn keeps_of(alloc: Global, attrs: &Text) -> Result<bool, NoMemory>
    ensures { IfOk result (λ keeps. keeps ≡ keeps_in attrs.now) }
{
    ms_attrs::laws::one_meaning();
    Ok(keeps_by(alloc, attrs)?)
}
