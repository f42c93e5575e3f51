// The last Def of each block.
ghost use Rattle.std.specs.Prelude.{◌≡◌, ◌<◌, ◌≤◌, ℕ, IfSome, IsTrue, length, slice_index_or, slice_set, Some, None};
ghost use Rattle.ms_ir.specs.Inst.{kind_of_inst};
ghost use Rattle.ms_ir.specs.Func.{Placed, IsAt};
ghost use Rattle.ms_form.specs.Form.{KeepsPlaces};
ghost use Rattle.ms_build.specs.Filled.{last_of, last_step, IsBelow};

use ms_form::Form;
use ms_ir::{BlockNo, Func, InstNo, Kind};

/// What an instruction of the function is to memory.
pub fn kind_at(func: &Func, i: InstNo) -> Kind
    ensures { (b place : ℕ) (x : Placed) → IsAt func.now.blocks i.0 b place x → result ≡ kind_of_inst x.inst }
{
    match func.kind(i) {
        Some(kind) => kind,
        None => Kind::Neither,
    }
}

// The last Def after an instruction.
fn last_at(func: &Func, i: InstNo, last: Option<InstNo>) -> Option<InstNo>
    requires { IsBelow func.now.made last }
    ensures last { (b place : ℕ) (x : Placed) → IsAt func.now.blocks i.0 b place x → result ≡ last_step last x }
    ensures below { (b place : ℕ) (x : Placed) → IsAt func.now.blocks i.0 b place x → IsBelow func.now.made result }
{
    func.numbered();
    match kind_at(func, i) {
        Kind::Def => Some(i),
        Kind::Reads | Kind::Neither => last,
    }
}

/// The last Def of a block.
pub fn last_def(func: &Func, b: BlockNo) -> Option<InstNo>
    requires { b.0 < length func.now.blocks }
    ensures last { result ≡ last_of func.now.blocks b.0 }
    ensures below { IsBelow func.now.made result }
{
    let mut last = None;
    let mut at = func.first_inst(b);
    for place in 0..func.count(b) {
        if let Some(i) = at {
            last = last_at(func, i, last);
            at = func.next_inst(i);
        }
    }
    last
}

/// Gives a block its last Def, for which there is a place.
pub fn end_block(form: &mut Form, b: BlockNo, last: Option<InstNo>)
    requires block { b.0 < length form.old.phis }
    requires last { IsBelow (length form.old.defs) last }
    ensures ended { form.new ≡ record form.old { lasts = slice_set form.old.lasts b.0 last } }
    ensures places { KeepsPlaces form.old form.new }
{
    form.set_last(b, last);
}

/// Gives each block of the function its last Def.
pub fn set_lasts(form: &mut Form, func: &Func)
    requires blocks { length form.old.phis ≡ length func.now.blocks }
    requires numbers { func.now.made ≤ length form.old.defs }
    ensures rest { form.new ≡ record form.old { lasts = form.new.lasts } }
    ensures lasts { (b : ℕ) → slice_index_or form.new.lasts b None ≡ last_of func.now.blocks b }
    ensures below { (b : ℕ) → IsBelow func.now.made (slice_index_or form.new.lasts b None) }
    ensures places { KeepsPlaces form.old form.new }
{
    form.uses();
    for b in 0..func.block_count() {
        let last = last_def(func, BlockNo(b));
        end_block(form, BlockNo(b), last);
    }
}
