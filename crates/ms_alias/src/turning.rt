// Which roots may be another pointer at each turn of a loop.
ghost use Rattle.std.specs.Prelude.{◌≡◌, ◌<◌, ◌↔◌, IsTrue, length};
ghost use Rattle.ms_ir.specs.declared.names.LocalNo.{LocalNo as LocalNumber};
ghost use Rattle.ms_flow.specs.Table.{edges_of};
ghost use Rattle.ms_alias.specs.declared.loc.Root.TheVariants.{Local};
ghost use Rattle.ms_alias.specs.Roots.{IsTurning};
ghost use Rattle.ms_alias.specs.Building.{IsBeyond};
ghost use Rattle.ms_alias.specs.Tables.{IsTurnings};

use crate::maker::home;
use crate::marks::Marks;
use ms_flow::Flow;
use ms_ir::{Func, LocalNo};

// Whether an instruction that is no alloca makes a local, in a block on a cycle among reached blocks.
fn is_turning(func: &Func, flow: &Flow, l: u64) -> bool
    requires { flow.now.graph ≡ edges_of func.now.blocks }
    ensures { IsTrue result ↔ IsTurning func.now (Local (record { 0 = l })) }
{
    match home(func, LocalNo(l)) {
        Some(block) => flow.on_cycle(block),
        None => false,
    }
}

/// Finds which locals are turning roots.
pub fn find_turning(func: &Func, flow: &Flow, turning: &mut Marks)
    requires flow { flow.now.graph ≡ edges_of func.now.blocks }
    requires beyond { IsBeyond func.now (length turning.old) }
    ensures turning { IsTurnings func.now turning.new }
    ensures len { length turning.new ≡ length turning.old }
{
    for l in 0..turning.len() {
        turning.put(l, is_turning(func, flow, l));
    }
}
