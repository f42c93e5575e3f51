// What is read from elsewhere, and loads that give way.
ghost use Rattle.std.specs.Prelude.{◌≡◌, Some, true, false};
ghost use Rattle.ms_ir.specs.Func.{FuncState};
ghost use Rattle.ms_ir.specs.Changes.{IsCopyThere, with_source};
ghost use Rattle.ms_ir.specs.SoundFunc.{IsSoundFunc};
ghost use Rattle.ms_cache.specs.Edited.{IsLoadGone};
ghost use Rattle.ms_whole.specs.Whole.{IsWhole, IsLoadThere, answers_but};

use crate::editing::take;
use crate::parts::Parts;
use ms_cache::Change;
use ms_ir::{Arg, InstNo, Val};

// Only the answers of one instruction are to go.
fn own(i: InstNo) -> Change
    ensures inst { result.inst ≡ Some i }
    ensures own { result.own_only ≡ true }
    ensures def { result.def ≡ false }
{
    Change {
        inst: Some(i),
        def: false,
        own_only: true,
        captured: false,
        unlinked: false,
    }
}

/// A memcpy reads from another place.
pub fn source(parts: &mut Parts, to: InstNo, arg: Arg)
    requires whole { IsWhole parts.old.func parts.old.flow parts.old.form parts.old.alias parts.old.kept }
    requires copy { IsCopyThere parts.old.func.blocks to.0 }
    requires sound { IsSoundFunc (with_source parts.old.func to.0 arg) }
    ensures whole { IsWhole parts.new.func parts.new.flow parts.new.form parts.new.alias parts.new.kept }
    ensures func { parts.new.func ≡ with_source parts.old.func to.0 arg }
    ensures kept { parts.new.kept ≡ answers_but to.0 parts.old.kept }
    ensures room { parts.new.form.spare ≡ parts.old.form.spare }
    ensures unread { parts.new.unread ≡ parts.old.unread }
{
    ms_kept::laws::answers_stay();
    ms_cache::laws::source_kept();
    parts.kept.after(&parts.func, &parts.alias, &own(to));
    parts.func.set_copy_source(to, arg);
}

/// A load's result gives way to a value, and the load is taken.
pub fn replace(parts: &mut Parts, load: InstNo, by: Val)
    requires whole { IsWhole parts.old.func parts.old.flow parts.old.form parts.old.alias parts.old.kept }
    requires load { IsLoadThere parts.old.func load.0 by }
    requires sound { (g : FuncState) → IsLoadGone parts.old.func g load.0 by → IsSoundFunc g }
    ensures whole { IsWhole parts.new.func parts.new.flow parts.new.form parts.new.alias parts.new.kept }
    ensures func { IsLoadGone parts.old.func parts.new.func load.0 by }
    ensures kept { parts.new.kept ≡ answers_but load.0 parts.old.kept }
    ensures room { parts.new.form.spare ≡ parts.old.form.spare }
    ensures func_room { parts.new.func.spare ≡ parts.old.func.spare }
    ensures unread { parts.new.unread ≡ parts.old.unread }
{
    ms_kept::laws::answers_stay();
    ms_cache::laws::load_gone();
    ms_update::laws::without_told();
    parts.func.numbered();
    let l = match parts.func.result_of(load) {
        Some(l) => l,
        None => unreachable!(),
    };
    parts.kept.after(&parts.func, &parts.alias, &own(load));
    parts.func.replace_local(l, by);
    parts.func.numbered();
    ms_update::remove(
        &mut parts.form,
        &parts.func,
        &parts.flow,
        load,
        &mut parts.unread,
    );
    take(&mut parts.func, load);
}
