// The access with which a search begins.
ghost use Rattle.std.specs.Prelude.{◌≡◌, ◌<◌, ◌≤◌, ℕ, length, take, None};
ghost use Rattle.ms_ir.specs.Func.{Placed, IsAt, insts_at};
ghost use Rattle.ms_ir.specs.Graph.{is_def};
ghost use Rattle.ms_build.specs.Accesses.{entering_at};
ghost use Rattle.ms_build.specs.Filled.{before_at, last_from, last_step};
ghost use Rattle.ms_climb.specs.Answer.{IsStartAt};
ghost use Rattle.ms_climb.specs.Chains.{or_entry};

use ms_build::kind_at;
use ms_form::{Access, Form};
use ms_ir::{BlockNo, Func, InstNo, Kind};

// The last Def after an instruction.
fn last_after(func: &Func, i: InstNo, last: Option<InstNo>) -> Option<InstNo>
    ensures { (b place : ℕ) (x : Placed) → IsAt func.now.blocks i.0 b place x → result ≡ last_step last x }
{
    match kind_at(func, i) {
        Kind::Def => Some(i),
        Kind::Reads | Kind::Neither => last,
    }
}

// The last Def among the first instructions of a block.
fn last_among(func: &Func, b: BlockNo, count: u32) -> Option<InstNo>
    requires block { b.0 < length func.now.blocks }
    requires count { count ≤ length (insts_at func.now.blocks b.0) }
    ensures { result ≡ last_from None (take count (insts_at func.now.blocks b.0)) }
{
    let mut last = None;
    let mut at = func.first_inst(b);
    for place in 0..count {
        if let Some(i) = at {
            last = last_after(func, i, last);
            at = func.next_inst(i);
        }
    }
    last
}

// The last Def before a place of a block, or else what enters the block.
fn access_at(func: &Func, form: &Form, b: BlockNo, place: u32) -> Access
    requires block { b.0 < length func.now.blocks }
    requires place { place ≤ length (insts_at func.now.blocks b.0) }
    ensures { result ≡ or_entry (before_at func.now.blocks b.0 place (entering_at form.now b.0)) }
{
    if let Some(i) = last_among(func, b, place) {
        return Access::Of(i);
    }
    match form.entering(b) {
        Some(access) => access,
        None => Access::Entry,
    }
}

/// The access before an instruction. It walks the block where the instruction names none.
pub fn start_before(func: &Func, form: &Form, i: InstNo) -> Access
    ensures { (b k : ℕ) (x : Placed) → IsAt func.now.blocks i.0 b k x → IsStartAt func.now.blocks form.now i.0 b k result }
{
    func.numbered();
    if let Some(access) = form.defining(i) {
        return access;
    }
    match func.place_of(i) {
        Some((b, place)) => access_at(func, form, b, place),
        None => Access::Entry,
    }
}
