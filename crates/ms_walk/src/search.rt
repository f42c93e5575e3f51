// The clobber of a location.
ghost use Rattle.std.specs.Prelude.{◌≡◌, ◌↔◌, ℕ, IfOk, IfSome, IsTrue, MatchOption};
ghost use Rattle.ms_paths.specs.Flow.{IsClosed, IsReducible, Of};
ghost use Rattle.ms_ir.specs.Func.{Placed, IsAt};
ghost use Rattle.ms_ir.specs.Graph.{graph_of};
ghost use Rattle.ms_ir.specs.SoundFunc.{IsSoundFunc};
ghost use Rattle.ms_flow.specs.Table.{edges_of};
ghost use Rattle.ms_build.specs.Accesses.{event_of};
ghost use Rattle.ms_build.specs.Built.{IsFormOf};
ghost use Rattle.ms_climb.specs.Answer.{StandsReached};
ghost use Rattle.ms_alias.specs.Tables.{IsAliasOf};
ghost use Rattle.ms_sound.specs.Bytes.{IsSound};
ghost use Rattle.ms_walk.specs.Clobber.{IsClobber, IsLastInTurn, IsLastWriterBefore, IsTurned};
ghost use Rattle.ms_walk.specs.Pointed.{IsPointed};
ghost use Rattle.ms_walk.specs.Turn.{IsBehind, is_marked};

use crate::pointed::Pointed;
use crate::turn::Turn;
use crate::writers::{TurnWriters, Writers};
use ms_alias::{Alias, Loc};
use ms_build::Formed;
use ms_climb::last_before;
use ms_flow::Flow;
use ms_form::{Access, Form};
use ms_ir::{Func, InstNo, NoMemory};
use std::alloc::Global;

// The last instruction before another that may write a location.
fn last_writer(alloc: Global, of: &Pointed, i: InstNo, loc: &Loc) -> Result<Access, NoMemory>
    requires pointed { IsPointed of.now.func.now of.now.flow.now.graph of.now.form.now of.now.alias.now }
    requires reached { StandsReached of.now.func.now.blocks i.0 }
    ensures { IfOk result (λ a. IsLastWriterBefore of.now.func.now i.0 loc.now (event_of a)) }
{
    of.func.numbered();
    ms_alias::laws::tests_told();
    let writers = Writers {
        func: of.func,
        alias: of.alias,
        loc,
    };
    let formed = Formed {
        func: of.func,
        flow: of.flow,
        form: of.form,
    };
    Ok(last_before(alloc, &formed, &writers, i)?)
}

// The last of an instruction q and those that may write a location in q's turn, before an instruction behind q.
fn last_in_turn(
    alloc: Global,
    of: &Pointed,
    q: InstNo,
    turn: &Turn,
    i: InstNo,
    loc: &Loc,
) -> Result<Access, NoMemory>
    requires pointed { IsPointed of.now.func.now of.now.flow.now.graph of.now.form.now of.now.alias.now }
    requires reached { StandsReached of.now.func.now.blocks i.0 }
    requires turn { IsBehind of.now.func.now q.0 turn.now.insts.items turn.now.starts.items }
    requires behind { IsTrue (is_marked turn.now.insts.items i.0) }
    ensures { IfOk result (λ a. (b k : ℕ) (x : Placed) → IsAt of.now.func.now.blocks i.0 b k x → IsLastInTurn of.now.func.now q.0 b k loc.now (event_of a)) }
{
    of.func.numbered();
    ms_alias::laws::tests_told();
    ms_paths::laws::answer_behind();
    let writers = TurnWriters {
        func: of.func,
        alias: of.alias,
        loc,
        turn,
    };
    let formed = Formed {
        func: of.func,
        flow: of.flow,
        form: of.form,
    };
    let found = last_before(alloc, &formed, &writers, i)?;
    Ok(turn.or_first(q, found))
}

// Whether an access is this instruction.
fn is_inst(a: Access, q: InstNo) -> bool
    ensures { IsTrue result ↔ (event_of a ≡ Of q.0) }
{
    match a {
        Access::Of(j) => j.0 == q.0,
        Access::Phi(_) | Access::Entry => false,
    }
}

// The clobber of bytes at a turning root, which q alone makes.
fn walk_in_turn(
    alloc: Global,
    of: &Pointed,
    q: InstNo,
    i: InstNo,
    loc: &Loc,
) -> Result<Access, NoMemory>
    requires pointed { IsPointed of.now.func.now of.now.flow.now.graph of.now.form.now of.now.alias.now }
    requires reached { StandsReached of.now.func.now.blocks i.0 }
    requires turned { IsTurned of.now.func.now loc.now q.0 }
    requires only { (p : ℕ) → IsTurned of.now.func.now loc.now p → p ≡ q.0 }
    ensures { IfOk result (λ a. IsClobber of.now.func.now i.0 loc.now (event_of a)) }
{
    of.func.numbered();
    let turn = Turn::of(alloc, of.func, of.flow, q)?;
    if !turn.has(i) {
        return last_writer(alloc, of, i, loc);
    }
    let found = last_in_turn(alloc, of, q, &turn, i, loc)?;
    if is_inst(found, q) {
        return last_writer(alloc, of, q, loc);
    }
    Ok(found)
}

// What makes the root of a location's bytes, where it is turning.
fn turned_by(of: &Pointed, loc: &Loc) -> Option<InstNo>
    requires { IsPointed of.now.func.now of.now.flow.now.graph of.now.form.now of.now.alias.now }
    ensures made { MatchOption result ((q : ℕ) → IsTurned of.now.func.now loc.now q → ⊥) (λ q. IsTurned of.now.func.now loc.now q.0) }
    ensures one { IfSome result (λ q. (p : ℕ) → IsTurned of.now.func.now loc.now p → p ≡ q.0) }
{
    match *loc {
        Loc::Bytes { root, .. } => of.alias.turning(of.func, root),
        Loc::ReadBy(_) => None,
    }
}

// The clobber of any location.
fn walk_at(alloc: Global, of: &Pointed, i: InstNo, loc: &Loc) -> Result<Access, NoMemory>
    requires pointed { IsPointed of.now.func.now of.now.flow.now.graph of.now.form.now of.now.alias.now }
    requires reached { StandsReached of.now.func.now.blocks i.0 }
    ensures { IfOk result (λ a. IsClobber of.now.func.now i.0 loc.now (event_of a)) }
{
    match turned_by(of, loc) {
        Some(q) => walk_in_turn(alloc, of, q, i, loc),
        None => last_writer(alloc, of, i, loc),
    }
}

/// The clobber of a location before an instruction: the last one on every path that may write it, with phis where those need
/// one; the entry where none is before it. Of bytes at a root that a loop makes anew at each turn the turn counts first. In a sound function
/// the clobber holds on every run: from when it took place last up to the instruction no step writes a byte of the location. The flow graph, the
/// form and the alias table are the function's, and the graph is reducible. The instruction stands in a reached block. `Err` comes
/// only where memory is wanting.
pub fn walk(
    alloc: Global,
    func: &Func,
    flow: &Flow,
    form: &Form,
    alias: &Alias,
    i: InstNo,
    loc: &Loc,
) -> Result<Access, NoMemory>
    requires graph { flow.now.graph ≡ edges_of func.now.blocks }
    requires closed { IsClosed (graph_of func.now.blocks) }
    requires reducible { IsReducible flow.now.graph }
    requires form { IsFormOf func.now form.now }
    requires alias { IsAliasOf func.now alias.now }
    requires reached { StandsReached func.now.blocks i.0 }
    ensures clobber { IfOk result (λ a. IsClobber func.now i.0 loc.now (event_of a)) }
    ensures sound { IsSoundFunc func.now → IfOk result (λ a. IsSound func.now i.0 loc.now (event_of a)) }
{
    func.numbered();
    ms_sound::laws::sound_functions_begin_once();
    ms_sound::laws::clobbers_are_sound();
    ms_sound::laws::turning_clobbers_are_sound();
    let of = Pointed {
        func,
        flow,
        form,
        alias,
    };
    walk_at(alloc, &of, i, loc)
}
