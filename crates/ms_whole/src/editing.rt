// An edit is made in all parts at once.
ghost use Rattle.std.specs.Prelude.{◌≡◌, ◌<◌, ◌≤◌, ◌+◌, ◌-◌, ◌^◌, ℕ, Some, false, length, min};
ghost use Rattle.ms_ir.specs.declared.inst.Inst.{Inst};
ghost use Rattle.ms_ir.specs.declared.inst.Edit.TheVariants.{Insert, Remove, Move, Unlink};
ghost use Rattle.ms_ir.specs.Inst.{kind_of_inst};
ghost use Rattle.ms_ir.specs.Func.{Placed, IsAt, IsSomewhere, IsTaken, insts_at};
ghost use Rattle.ms_ir.specs.Graph.{is_def};
ghost use Rattle.ms_ir.specs.Edits.{edited, IsFaultless, IsFittingEdit};
ghost use Rattle.ms_kept.specs.Answers.{KeepsBehind};
ghost use Rattle.ms_whole.specs.Whole.{IsWhole};
ghost use Rattle.ms_whole.specs.Cost.{IsReadsOf};

use crate::parts::Parts;
use ms_cache::Change;
use ms_ir::{BlockNo, Func, Inst, InstNo, Kind, Name, Steps, kind_of};

// Whether an instruction is a Def.
fn is_def(inst: &Inst) -> bool
    ensures { result ≡ is_def (kind_of_inst inst.now) }
{
    match kind_of(inst) {
        Kind::Def => true,
        Kind::Reads | Kind::Neither => false,
    }
}

// The instruction at a place of a block, and whether it is a Def.
fn found_at(func: &Func, block: BlockNo, place: u32) -> (InstNo, bool)
    requires block { block.0 < length func.now.blocks }
    requires place { place < length (insts_at func.now.blocks block.0) }
    ensures { (x : Placed) × IsAt func.now.blocks result.0.0 block.0 place x × (result.1 ≡ is_def (kind_of_inst x.inst)) }
{
    match (func.inst_at(block, place), func.node_at(block, place)) {
        (Some(i), Some(node)) => (i, is_def(&node.inst)),
        _ => unreachable!(),
    }
}

// What an edit of one instruction tells the kept answers.
fn told(i: InstNo, def: bool, captured: bool) -> Change
    ensures inst { result.inst ≡ Some i }
    ensures def { result.def ≡ def }
    ensures captured { result.captured ≡ captured }
    ensures own_only { result.own_only ≡ false }
    ensures unlinked { result.unlinked ≡ false }
{
    Change {
        inst: Some(i),
        def,
        own_only: false,
        captured,
        unlinked: false,
    }
}

/// An instruction is taken out and dropped.
pub fn take(func: &mut Func, i: InstNo)
    requires { IsSomewhere func.old.blocks i.0 }
    ensures { (inst : Inst) × IsTaken func.old func.new i.0 inst }
{
    let _taken = func.take_inst(i);
}

/// An instruction is put.
pub fn insert(
    parts: &mut Parts,
    block: BlockNo,
    place: u32,
    inst: Inst,
    name: Name,
    steps: &mut Steps,
)
    requires whole { IsWhole parts.old.func parts.old.flow parts.old.form parts.old.alias parts.old.kept }
    requires faultless { IsFaultless parts.old.func (Insert block place inst name) }
    requires fitting { IsFittingEdit (Insert block place inst name) }
    requires func_room { 1 ≤ parts.old.func.spare }
    requires form_room { 1 ≤ parts.old.form.spare }
    requires few { parts.old.func.made < 2 ^ 32 - 1 }
    ensures whole { IsWhole parts.new.func parts.new.flow parts.new.form parts.new.alias parts.new.kept }
    ensures func { parts.new.func ≡ edited parts.old.func (Insert block place inst name) }
    ensures kept { KeepsBehind parts.old.func (Insert block place inst name) parts.old.kept parts.new.kept }
    ensures reads { (n : ℕ) × IsReadsOf parts.old.func (Insert block place inst name) n × (steps.new ≡ min (steps.old + n) (2 ^ 64 - 1)) }
    ensures room { parts.old.form.spare ≤ parts.new.form.spare + 1 }
    ensures unread { parts.new.unread ≡ parts.old.unread }
{
    ms_edited::laws::edits_keep_sound();
    ms_kept::laws::edits_keep_right();
    ms_update::laws::without_told();
    ms_alias::laws::tables_kept();
    ms_cache::laws::makes_none();
    parts.func.numbered();
    let def = is_def(&inst);
    let i = parts.func.put_inst(block, place, inst, name);
    parts.func.numbered();
    ms_update::insert(&mut parts.form, &parts.func, &parts.flow, i, steps);
    let captured = parts.alias.note_put(&parts.func, i);
    let put = told(i, def, captured);
    parts.kept.after(&parts.func, &parts.alias, &put);
}

/// An instruction is taken.
pub fn remove(parts: &mut Parts, block: BlockNo, place: u32, steps: &mut Steps)
    requires whole { IsWhole parts.old.func parts.old.flow parts.old.form parts.old.alias parts.old.kept }
    requires faultless { IsFaultless parts.old.func (Remove block place) }
    ensures whole { IsWhole parts.new.func parts.new.flow parts.new.form parts.new.alias parts.new.kept }
    ensures func { parts.new.func ≡ edited parts.old.func (Remove block place) }
    ensures kept { KeepsBehind parts.old.func (Remove block place) parts.old.kept parts.new.kept }
    ensures reads { (n : ℕ) × IsReadsOf parts.old.func (Remove block place) n × (steps.new ≡ min (steps.old + n) (2 ^ 64 - 1)) }
    ensures room { parts.new.form.spare ≡ parts.old.form.spare }
    ensures unread { parts.new.unread ≡ parts.old.unread }
{
    ms_edited::laws::edits_keep_sound();
    ms_kept::laws::edits_keep_right();
    ms_kept::laws::captures_told();
    ms_update::laws::without_told();
    ms_alias::laws::tables_kept();
    ms_cache::laws::makes_none();
    parts.func.numbered();
    let (i, def) = found_at(&parts.func, block, place);
    let captured = parts.alias.note_take(&parts.func, i);
    let taken = told(i, def, captured);
    parts.kept.after(&parts.func, &parts.alias, &taken);
    ms_update::remove(&mut parts.form, &parts.func, &parts.flow, i, steps);
    take(&mut parts.func, i);
    parts.func.numbered();
    // no edge is read
    steps.add(0);
}

/// An instruction is put elsewhere. Its target place counts without it.
pub fn shift(
    parts: &mut Parts,
    block: BlockNo,
    place: u32,
    to_block: BlockNo,
    to_place: u32,
    steps: &mut Steps,
)
    requires whole { IsWhole parts.old.func parts.old.flow parts.old.form parts.old.alias parts.old.kept }
    requires faultless { IsFaultless parts.old.func (Move block place to_block to_place) }
    ensures whole { IsWhole parts.new.func parts.new.flow parts.new.form parts.new.alias parts.new.kept }
    ensures func { parts.new.func ≡ edited parts.old.func (Move block place to_block to_place) }
    ensures kept { KeepsBehind parts.old.func (Move block place to_block to_place) parts.old.kept parts.new.kept }
    ensures reads { (n : ℕ) × IsReadsOf parts.old.func (Move block place to_block to_place) n × (steps.new ≡ min (steps.old + n) (2 ^ 64 - 1)) }
    ensures room { parts.new.form.spare ≡ parts.old.form.spare }
    ensures unread { parts.new.unread ≡ parts.old.unread }
{
    ms_edited::laws::edits_keep_sound();
    ms_kept::laws::edits_keep_right();
    ms_kept::laws::captures_told();
    ms_update::laws::without_told();
    ms_cache::laws::makes_none();
    ms_cache::laws::shift_kept();
    parts.func.numbered();
    let (i, def) = found_at(&parts.func, block, place);
    let moved = told(i, def, false);
    parts.kept.after(&parts.func, &parts.alias, &moved);
    ms_update::shift(
        &mut parts.form,
        &mut parts.func,
        &parts.flow,
        i,
        to_block,
        to_place,
        steps,
    );
    parts.func.numbered();
}

/// An edge is cut.
pub fn unlink(parts: &mut Parts, block: BlockNo, slot: u32, steps: &mut Steps)
    requires whole { IsWhole parts.old.func parts.old.flow parts.old.form parts.old.alias parts.old.kept }
    requires faultless { IsFaultless parts.old.func (Unlink block slot) }
    ensures whole { IsWhole parts.new.func parts.new.flow parts.new.form parts.new.alias parts.new.kept }
    ensures func { parts.new.func ≡ edited parts.old.func (Unlink block slot) }
    ensures kept { KeepsBehind parts.old.func (Unlink block slot) parts.old.kept parts.new.kept }
    ensures reads { (n : ℕ) × IsReadsOf parts.old.func (Unlink block slot) n × (steps.new ≡ min (steps.old + n) (2 ^ 64 - 1)) }
    ensures room { parts.new.form.spare ≡ parts.old.form.spare }
    ensures unread { parts.new.unread ≡ parts.old.unread }
{
    ms_edited::laws::edits_keep_sound();
    ms_kept::laws::edits_keep_right();
    ms_alias::laws::tables_kept();
    parts.func.numbered();
    parts.kept.after(
        &parts.func,
        &parts.alias,
        &Change {
            inst: None,
            def: false,
            own_only: false,
            captured: false,
            unlinked: true,
        },
    );
    ms_update::drop_edge(
        &mut parts.form,
        &mut parts.func,
        &mut parts.flow,
        block,
        slot,
        steps,
    );
    parts.alias.renew(&parts.func, &parts.flow);
    parts.func.numbered();
}
