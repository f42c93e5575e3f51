// A function with all that is told of it, changed as one.
ghost use Rattle.std.specs.Prelude.{◌≡◌, ◌<◌, ◌≤◌, ◌+◌, ◌-◌, ◌^◌, ◌⊎◌, ◌↔◌, ◌++◌, ◌∷◌, ℕ, [], true, false, min, length, IfOk, IfErr, IfSome, OnOk, OnErr, IsTrue, MatchOption, Contains, if◌then◌else◌};
ghost use Rattle.ms_ir.specs.declared.faults.EditFault.TheVariants.{Memory};
ghost use Rattle.ms_ir.specs.Edits.{edited, IsFaultless, IsFittingEdit, IsRefused};
ghost use Rattle.ms_ir.specs.Graph.{graph_of};
ghost use Rattle.ms_paths.specs.Flow.{IsReached, IsOnEveryPath};
ghost use Rattle.ms_cache.specs.Stays.{query_of, NotKept};

use crate::editing::{insert, remove, shift, unlink};
use crate::parts::Parts;
use crate::replacing::{replace, source};
use ms_alias::{Alias, Loc};
use ms_build::{Formed, build};
use ms_cache::Cache;
use ms_edits::accept_edit;
use ms_flow::Flow;
use ms_form::{Access, Form};
use ms_ir::{Arg, BlockNo, Edit, EditFault, Func, InstNo, NoMemory, Steps, Val};
use ms_walk::{Pointed, walk};
use std::alloc::Global;
use std::marker::Model;

/// A clobber, and whether it was walked for: it was exactly where no answer was kept.
#[derive(Clone, Copy, PartialEq, Eq)]
pub struct Found {
    pub access: Access,
    pub walked: bool,
}

/// A sound function with its flow graph, its memory form, its pointers and the answers that are kept for its queries. They are changed as one, so
/// they are one another's at every moment.
#[derive(Drop)]
pub struct Whole {
    parts: Parts,
}

impl Model for Whole {
    ghost use Rattle.std.specs.Prelude.{◌≡◌, min};
    ghost use Rattle.ms_whole.specs.Whole.{WholeState, IsWhole};

    ghost Value = { WholeState };

    ghost view = { λ w. record { func = w.parts.func; kept = w.parts.kept; spare = min w.parts.func.spare w.parts.form.spare } };

    ghost invariant = { λ w. IsWhole w.parts.func w.parts.flow w.parts.form w.parts.alias w.parts.kept × (w.parts.unread ≡ 0) };
}

impl Whole {
    ghost use Rattle.ms_ir.specs.Changes.{IsCopyThere, with_source};
    ghost use Rattle.ms_ir.specs.Func.{FuncState};
    ghost use Rattle.ms_ir.specs.SoundFunc.{IsSoundFunc};
    ghost use Rattle.ms_flow.specs.Table.{edges_of};
    ghost use Rattle.ms_build.specs.Accesses.{event_of};
    ghost use Rattle.ms_build.specs.Built.{IsFormOf};
    ghost use Rattle.ms_build.specs.Formed.{IsFormed};
    ghost use Rattle.ms_climb.specs.Answer.{StandsReached};
    ghost use Rattle.ms_alias.specs.Offsets.{AreOffsetsNear};
    ghost use Rattle.ms_alias.specs.Tables.{IsAliasOf};
    ghost use Rattle.ms_sound.specs.Bytes.{IsSound};
    ghost use Rattle.ms_walk.specs.Clobber.{IsClobber};
    ghost use Rattle.ms_walk.specs.Pointed.{IsPointed};
    ghost use Rattle.ms_cache.specs.Edited.{IsLoadGone};
    ghost use Rattle.ms_kept.specs.Answers.{IsAskedLoc, KeepsBehind};
    ghost use Rattle.ms_whole.specs.Whole.{IsLoadThere, answers_but};
    ghost use Rattle.ms_whole.specs.Cost.{IsReadsOf, room_of};

    /// A sound function in which no getelementptr passes the greatest offset, with all that is told of it and no answer kept. The function is dropped on
    /// `NoMemory`.
    pub fn start(alloc: Global, func: Func) -> Result<Whole, NoMemory>
        requires sound { IsSoundFunc func }
        requires near { AreOffsetsNear func }
        ensures func { IfOk result (λ w. w.func ≡ func) }
        ensures kept { IfOk result (λ w. w.kept ≡ []) }
    {
        ms_flow::laws::same_paths();
        ms_kept::laws::answers_may_be_kept();
        let flow = Flow::of(alloc, &func)?;
        let form = build(alloc, &func, &flow)?;
        let alias = Alias::of(alloc, &func, &flow)?;
        let unread = Steps::new(alloc)?;
        Ok(Whole {
            parts: Parts {
                func,
                flow,
                form,
                alias,
                kept: Cache::new(alloc),
                unread,
            },
        })
    }

    /// Makes room for so many inserts, which then take no memory. Room that is there stays, and nothing but the room changes.
    pub fn reserve(&mut self, n: u32) -> Result<(), NoMemory>
        ensures ok { OnOk result (n ≤ self.new.spare) }
        ensures err { OnErr result (self.new.func ≡ self.old.func) }
        ensures room { self.old.spare ≤ self.new.spare }
        ensures func { self.new.func ≡ record self.old.func { spare = self.new.func.spare } }
        ensures kept { self.new.kept ≡ self.old.kept }
    {
        ms_kept::laws::rights_need_no_room();
        ms_update::laws::without_told();
        self.parts.form.reserve(n)?;
        self.parts.func.reserve(n)
    }

    /// Whether an edit is let through now. `Ok` comes only for an edit without a fault, and an `Err` other than `Memory` is the fault with the least number
    /// of those that the edit has. `Memory` comes only where memory is wanting.
    pub fn check(&self, alloc: Global, edit: &Edit) -> Result<(), EditFault>
        ensures ok { IfOk result (λ _. IsFaultless self.now.func edit.now) }
        ensures err { IfErr result (λ why. (why ≡ Memory) ⊎ IsRefused self.now.func edit.now why) }
    {
        accept_edit(alloc, &self.parts.func, &self.parts.flow, edit)
    }

    /// Makes an edit that has no fault, in the function and in all that is told of it. It takes no memory: an insert takes one of the room.
    pub fn make(&mut self, edit: Edit, steps: &mut Steps)
        requires faultless { IsFaultless self.old.func edit }
        requires fitting { IsFittingEdit edit }
        requires room { room_of edit ≤ self.old.spare }
        requires few { self.old.func.made + room_of edit < 2 ^ 32 }
        ensures func { self.new.func ≡ edited self.old.func edit }
        ensures kept { KeepsBehind self.old.func edit self.old.kept self.new.kept }
        ensures reads { (n : ℕ) × IsReadsOf self.old.func edit n × (steps.new ≡ min (steps.old + n) (2 ^ 64 - 1)) }
        ensures spare { self.old.spare ≤ self.new.spare + room_of edit }
    {
        match edit {
            Edit::Insert {
                block,
                place,
                inst,
                name,
            } => insert(&mut self.parts, block, place, inst, name, steps),
            Edit::Remove { block, place } => remove(&mut self.parts, block, place, steps),
            Edit::Move {
                block,
                place,
                to_block,
                to_place,
            } => shift(&mut self.parts, block, place, to_block, to_place, steps),
            Edit::Unlink { block, slot } => unlink(&mut self.parts, block, slot, steps),
        }
    }

    /// A memcpy reads from another place, where the function behind that is sound. Of the kept answers only its own go. It takes no memory.
    pub fn source(&mut self, to: InstNo, arg: Arg)
        requires copy { IsCopyThere self.old.func.blocks to.0 }
        requires sound { IsSoundFunc (with_source self.old.func to.0 arg) }
        ensures func { self.new.func ≡ with_source self.old.func to.0 arg }
        ensures kept { self.new.kept ≡ answers_but to.0 self.old.kept }
        ensures spare { self.new.spare ≡ self.old.spare }
    {
        source(&mut self.parts, to, arg);
    }

    /// A load's result gives way to a value of its type and the load is taken, where the function behind that is sound. Of the kept answers only its own go.
    /// It takes no memory.
    pub fn replace(&mut self, load: InstNo, by: Val)
        requires load { IsLoadThere self.old.func load.0 by }
        requires sound { (g : FuncState) → IsLoadGone self.old.func g load.0 by → IsSoundFunc g }
        ensures func { IsLoadGone self.old.func self.new.func load.0 by }
        ensures kept { self.new.kept ≡ answers_but load.0 self.old.kept }
        ensures spare { self.new.spare ≡ self.old.spare }
    {
        replace(&mut self.parts, load, by);
    }

    /// The answer that is kept of an instruction and a location, which is the clobber. `None` exactly where none is kept. It takes no memory.
    pub fn found(&self, i: InstNo, loc: &Loc) -> Option<Access>
        ensures found { MatchOption result (NotKept self.now.kept (query_of i loc.now)) (λ a. Contains self.now.kept (query_of i loc.now, a)) }
        ensures clobber { IfSome result (λ a. IsClobber self.now.func i.0 loc.now (event_of a)) }
    {
        self.parts.kept.get(i, loc)
    }

    /// The clobber of a location before an instruction of a reached block: the last one on every path that may write it. It holds on every run: from when it
    /// took place last up to the instruction, no step writes a byte of the location. The answer is kept, and one that was kept is given again: that takes
    /// no memory.
    pub fn clobber(&mut self, alloc: Global, i: InstNo, loc: &Loc) -> Result<Found, NoMemory>
        requires reached { StandsReached self.old.func.blocks i.0 }
        requires asked { IsAskedLoc self.old.func i loc.now }
        ensures clobber { IfOk result (λ found. IsClobber self.old.func i.0 loc.now (event_of found.access)) }
        ensures sound { IfOk result (λ found. IsSound self.old.func i.0 loc.now (event_of found.access)) }
        ensures walked { IfOk result (λ found. (found.walked ≡ true) ↔ NotKept self.old.kept (query_of i loc.now)) }
        ensures known { IfErr result (λ _. NotKept self.old.kept (query_of i loc.now)) }
        ensures kept { IfOk result (λ found. self.new.kept ≡ (if found.walked then self.old.kept ++ (query_of i loc.now, found.access) ∷ [] else self.old.kept)) }
        ensures err { OnErr result (self.new.kept ≡ self.old.kept) }
        ensures func { self.new.func ≡ self.old.func }
        ensures spare { self.new.spare ≡ self.old.spare }
    {
        ms_walk::laws::clobber_holds();
        ms_kept::laws::answers_may_be_kept();
        self.parts.func.numbered();
        if let Some(access) = self.parts.kept.get(i, loc) {
            return Ok(Found {
                access,
                walked: false,
            });
        }
        let access = walk(
            alloc,
            &self.parts.func,
            &self.parts.flow,
            &self.parts.form,
            &self.parts.alias,
            i,
            loc,
        )?;
        self.parts.kept.put(i, *loc, access)?;
        Ok(Found {
            access,
            walked: true,
        })
    }

    /// How many answers are kept.
    pub fn count(&self) -> u64
        ensures { result ≡ length self.now.kept }
    {
        self.parts.kept.count()
    }

    /// Whether a path from block 0 leads to a block.
    pub fn reached(&self, b: BlockNo) -> bool
        requires { b.0 < length self.now.func.blocks }
        ensures { IsTrue result ↔ IsReached (graph_of self.now.func.blocks) b.0 }
    {
        ms_flow::laws::same_paths();
        self.parts.flow.reached(b)
    }

    /// Whether every path to b passes h.
    pub fn cuts(&mut self, h: BlockNo, b: BlockNo) -> bool
        requires h { h.0 < length self.old.func.blocks }
        requires b { b.0 < length self.old.func.blocks }
        ensures cuts { IsTrue result ↔ IsOnEveryPath (graph_of self.old.func.blocks) h.0 b.0 }
        ensures same { self.new ≡ self.old }
    {
        ms_flow::laws::same_paths();
        self.parts.flow.cuts(h, b)
    }

    /// The function as it stands.
    pub fn func(&self) -> &Func
        ensures func { result.now ≡ self.now.func }
        ensures sound { IsSoundFunc result.now }
    {
        &self.parts.func
    }

    /// The function's flow graph.
    pub fn flow(&self) -> &Flow
        ensures { result.now.graph ≡ edges_of self.now.func.blocks }
    {
        &self.parts.flow
    }

    /// The function's memory form.
    pub fn form(&self) -> &Form
        ensures { IsFormOf self.now.func result.now }
    {
        &self.parts.form
    }

    /// The function's pointers.
    pub fn alias(&self) -> &Alias
        ensures { IsAliasOf self.now.func result.now }
    {
        &self.parts.alias
    }

    /// The function with its flow graph and its memory form.
    pub fn formed(&self) -> Formed<'_>
        ensures func { result.func.now ≡ self.now.func }
        ensures formed { IsFormed result.func.now result.flow.now.graph result.form.now }
    {
        Formed {
            func: &self.parts.func,
            flow: &self.parts.flow,
            form: &self.parts.form,
        }
    }

    /// The function with its flow graph, its memory form and its pointers.
    pub fn pointed(&self) -> Pointed<'_>
        ensures func { result.func.now ≡ self.now.func }
        ensures pointed { IsPointed result.func.now result.flow.now.graph result.form.now result.alias.now }
    {
        Pointed {
            func: &self.parts.func,
            flow: &self.parts.flow,
            form: &self.parts.form,
            alias: &self.parts.alias,
        }
    }

    /// Gives the function back.
    pub fn into_func(self) -> Func
        ensures { result ≡ self.func }
    {
        let Whole { parts } = self;
        let Parts { func, .. } = parts;
        func
    }
}
