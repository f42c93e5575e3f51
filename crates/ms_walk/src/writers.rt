// The instructions that may write a location.
ghost use Rattle.std.specs.Prelude.{◌≡◌};
ghost use Rattle.ms_ir.specs.Graph.{defs_of, is_def};
ghost use Rattle.ms_alias.specs.Tests.{may_write_by};
ghost use Rattle.ms_walk.specs.Turn.{ends_turn};

use crate::turn::Turn;
use ms_alias::{Alias, Loc};
use ms_climb::Writes;
use ms_ir::{Func, InstNo, Kind, kind_of};

/// The instructions of a function that may write a location. The pointers are asked of an instruction when the search comes to it.
#[derive(Drop)]
pub struct Writers<'a> {
    pub func: &'a Func,
    pub alias: &'a Alias,
    pub loc: &'a Loc,
}

impl<'a> Writes for Writers<'a> {
    ghost test = { λ s i. may_write_by s.func.now s.alias.now s.loc.now i };

    fn writes(&self, i: InstNo) -> bool {
        self.alias.may_write(self.func, i, self.loc)
    }
}

/// Behind an instruction the instructions that may write a location in its turn, elsewhere all Defs: so no search goes on where it leaves the turn.
#[derive(Drop)]
pub struct TurnWriters<'a> {
    pub func: &'a Func,
    pub alias: &'a Alias,
    pub loc: &'a Loc,
    pub turn: &'a Turn,
}

fn writes(kind: Kind) -> bool
    ensures { result ≡ is_def kind }
{
    match kind {
        Kind::Def => true,
        Kind::Reads | Kind::Neither => false,
    }
}

// Whether an instruction is a Def.
fn is_def_of(func: &Func, i: InstNo) -> bool
    ensures { result ≡ defs_of func.now.blocks i.0 }
{
    func.numbered();
    match func.inst(i) {
        Some(inst) => writes(kind_of(inst)),
        None => false,
    }
}

impl<'a> TurnWriters<'a> {
    // Whether an instruction ends the search.
    #[tactic(auto, unfolding(crate::specs::Turn::ends_turn))]
    fn ends(&self, i: InstNo) -> bool
        ensures { result ≡ ends_turn self.now.func.now self.now.alias.now self.now.loc.now self.now.turn.now.insts.items i.0 }
    {
        if self.turn.has(i) {
            self.alias.may_write_in_turn(self.func, i, self.loc)
        } else {
            is_def_of(self.func, i)
        }
    }
}

impl<'a> Writes for TurnWriters<'a> {
    ghost test = { λ s i. ends_turn s.func.now s.alias.now s.loc.now s.turn.now.insts.items i };

    fn writes(&self, i: InstNo) -> bool {
        self.ends(i)
    }
}
