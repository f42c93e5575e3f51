// The names under which a function's blocks are printed.
ghost use Rattle.std.specs.Prelude.{◌≡◌, IfOk};
ghost use Rattle.ms_print.specs.Numbering.{labels_of};

use crate::numbering::{Tables, shown_params, tables_of};
use ms_ir::{Func, Items, Name, NoMemory};
use std::alloc::Global;

/// The names under which a function's blocks are printed, by the numbers of the blocks: each block's word, or else its number
/// in the text that `print_func` writes. The only fault is want of memory.
pub fn block_labels(alloc: Global, func: &Func) -> Result<Items<Name>, NoMemory>
    ensures { IfOk result (λ labels. labels ≡ labels_of func.now) }
{
    func.numbered();
    let (params, next) = shown_params(alloc, func.params().as_slice())?;
    let Tables { locals: _, labels } = tables_of(alloc, func, params.as_slice(), next)?;
    Ok(Items::from_vec(labels))
}
