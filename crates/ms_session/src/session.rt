ghost use Rattle.std.specs.Prelude.{◌≡◌, ◌<◌, ◌↔◌, IfOk, IsTrue, length};
ghost use Rattle.ms_paths.specs.Flow.{IsClosed, IsReducible, IsReached, IsOnEveryPath};
ghost use Rattle.ms_ir.specs.Graph.{graph_of};

use crate::counts::count_uses;
use crate::notes::annotated;
use ms_alias::{Alias, Loc};
use ms_build::build;
use ms_flow::Flow;
use ms_form::{Access, Form};
use ms_ir::{BlockNo, Func, InstNo, Names, NoMemory, Text};
use ms_walk::{Pointed, walk};
use std::alloc::Global;
use std::marker::Model;

/// An annotated text, and how many clobber queries were walked for it: one for each use in a reached block, as nothing is kept.
#[derive(Drop)]
pub struct Printed {
    pub text: Text,
    pub walks: u64,
}

/// A clobber, and whether it was walked for: so far always, as nothing is kept.
#[derive(Clone, Copy, PartialEq, Eq)]
pub struct Found {
    pub access: Access,
    pub walked: bool,
}

/// One function, its memory form and its pointers. Contracts see the function.
#[derive(Drop)]
pub struct Session {
    alloc: Global,
    func: Func,
    flow: Flow,
    form: Form,
    alias: Alias,
}

impl Model for Session {
    ghost use Rattle.std.specs.Prelude.{◌≡◌};
    ghost use Rattle.ms_ir.specs.Func.{FuncState};
    ghost use Rattle.ms_paths.specs.Flow.{IsClosed, IsReducible};
    ghost use Rattle.ms_flow.specs.Table.{edges_of};
    ghost use Rattle.ms_build.specs.Built.{IsFormOf};
    ghost use Rattle.ms_ir.specs.Graph.{graph_of};
    ghost use Rattle.ms_ir.specs.SoundFunc.{IsSoundFunc};
    ghost use Rattle.ms_alias.specs.Tables.{IsAliasOf};

    ghost Value = { FuncState };

    ghost view = { λ s. s.func };

    ghost invariant = { λ s. (s.flow.graph ≡ edges_of s.func.blocks) × IsClosed s.flow.graph × IsReducible s.flow.graph × IsFormOf s.func s.form × IsClosed (graph_of s.func.blocks) × IsAliasOf s.func s.alias × IsSoundFunc s.func };
}

impl Session {
    ghost use Rattle.std.specs.Prelude.{◌≡◌, true};
    ghost use Rattle.ms_build.specs.Accesses.{event_of};
    ghost use Rattle.ms_climb.specs.Answer.{StandsReached};
    ghost use Rattle.ms_alias.specs.Offsets.{AreOffsetsNear};
    ghost use Rattle.ms_alias.specs.Tables.{IsAliasOf};
    ghost use Rattle.ms_ir.specs.SoundFunc.{IsSoundFunc};
    ghost use Rattle.ms_sound.specs.Bytes.{IsSound};
    ghost use Rattle.ms_walk.specs.Clobber.{IsClobber};
    ghost use Rattle.ms_session.specs.Annotated.{IsAnnotated, HasUses};

    /// Opens a sound function in which no getelementptr passes the greatest offset. The function is dropped on `NoMemory`.
    pub fn start(alloc: Global, func: Func) -> Result<Session, NoMemory>
        requires sound { IsSoundFunc func }
        requires near { AreOffsetsNear func }
        ensures { IfOk result (λ s. s ≡ func) }
    {
        ms_flow::laws::same_paths();
        let flow = Flow::of(alloc, &func)?;
        let form = build(alloc, &func, &flow)?;
        let alias = Alias::of(alloc, &func, &flow)?;
        Ok(Session {
            alloc,
            func,
            flow,
            form,
            alias,
        })
    }

    /// The function's annotated text, in which each Def and phi names the last accesses before it on every path and each use the
    /// clobber of what it reads. The names are those of the function's module.
    pub fn text(&mut self, names: &Names) -> Result<Printed, NoMemory>
        ensures text { IfOk result (λ p. IsAnnotated names.now self.old p.text) }
        ensures walks { IfOk result (λ p. HasUses self.old p.walks) }
        ensures same { self.new ≡ self.old }
    {
        ms_flow::laws::same_paths();
        ms_flow::laws::order_told();
        let of = Pointed {
            func: &self.func,
            flow: &self.flow,
            form: &self.form,
            alias: &self.alias,
        };
        let text = annotated(self.alloc, names, &of)?;
        let walks = count_uses(&self.func, &self.flow);
        Ok(Printed { text, walks })
    }

    /// The clobber of a location before an instruction of a reached block: the last one on every path that may write it.
    /// It holds on every run: from when it took place last up to the instruction, no step writes a byte of the location.
    pub fn clobber(&mut self, i: InstNo, loc: &Loc) -> Result<Found, NoMemory>
        requires { StandsReached self.old.blocks i.0 }
        ensures clobber { IfOk result (λ found. IsClobber self.old i.0 loc.now (event_of found.access)) }
        ensures sound { IfOk result (λ found. IsSound self.old i.0 loc.now (event_of found.access)) }
        ensures walked { IfOk result (λ found. found.walked ≡ true) }
        ensures same { self.new ≡ self.old }
    {
        let access = walk(
            self.alloc,
            &self.func,
            &self.flow,
            &self.form,
            &self.alias,
            i,
            loc,
        )?;
        Ok(Found {
            access,
            walked: true,
        })
    }

    /// Whether a path from block 0 leads to a block.
    pub fn reached(&self, b: BlockNo) -> bool
        requires { b.0 < length self.now.blocks }
        ensures { IsTrue result ↔ IsReached (graph_of self.now.blocks) b.0 }
    {
        ms_flow::laws::same_paths();
        self.flow.reached(b)
    }

    /// Whether every path to b passes h.
    pub fn cuts(&mut self, h: BlockNo, b: BlockNo) -> bool
        requires h { h.0 < length self.old.blocks }
        requires b { b.0 < length self.old.blocks }
        ensures cuts { IsTrue result ↔ IsOnEveryPath (graph_of self.old.blocks) h.0 b.0 }
        ensures same { self.new ≡ self.old }
    {
        ms_flow::laws::same_paths();
        self.flow.cuts(h, b)
    }

    /// The function as it stands.
    pub fn func(&self) -> &Func
        ensures { result.now ≡ self.now }
    {
        &self.func
    }

    /// The function's pointers as they stand.
    pub fn alias(&self) -> &Alias
        ensures { IsAliasOf self.now result.now }
    {
        &self.alias
    }

    /// Gives the function back.
    pub fn into_func(self) -> Func
        ensures { result ≡ self }
    {
        let Session { func, .. } = self;
        func
    }
}
