// Phis are left out whose ways all lead to one access.
ghost use Rattle.std.specs.Prelude.{◌≡◌, ◌<◌, ◌≤◌, ◌^◌, ℕ, length, replicate, IfOk, MatchBool, MatchOption, None};
ghost use Rattle.ms_form.specs.declared.access.Access.{Access};
ghost use Rattle.ms_form.specs.declared.access.Access.TheVariants.{Phi};
ghost use Rattle.ms_climb.specs.Walk.{phi_at};
ghost use Rattle.ms_climb.specs.Skips.{skip_of, kept_count, HasTurns, IsLeading, way_of, IsOnlyWay, HasTwoWays, left_out, IsSkipping, IsDone, AreDone, HasFewer, IsSettled};

use crate::walk::{Walk, brought};
use ms_build::same_access;
use ms_flow::Flow;
use ms_form::{Access, Form};
use ms_ir::{BlockNo, NoMemory};
use std::alloc::Global;
use std::marker::Model;

/// Where a phi leads that is left out, and how many were left out before it.
#[derive(Clone, Copy)]
pub struct Skip {
    pub to: Access,
    pub turn: usize,
}

/// The phis that are left out, by block.
#[derive(Drop)]
pub struct Skips {
    skips: Vec<Option<Skip>>,
    turns: usize,
}

impl Model for Skips {
    ghost use Rattle.ms_climb.specs.Skips.{SkipsState};

    ghost Value = { SkipsState };

    ghost view = { λ s. record { skips = s.skips.items; turns = s.turns } };
}

impl Skips {
    /// No phi is left out yet, of so many blocks.
    pub fn none(alloc: Global, blocks: u32) -> Result<Skips, NoMemory>
        ensures { IfOk result (λ s. s ≡ record { skips = replicate blocks None; turns = 0 }) }
    {
        Ok(Skips {
            skips: vec![in alloc; None; blocks as usize]?,
            turns: 0,
        })
    }

    // Where an access leads on, if it is a phi that is left out.
    fn skip(&self, access: Access) -> Option<Skip>
        ensures { result ≡ skip_of self.now access }
    {
        if let Access::Phi(b) = access {
            if (b.0 as usize) < self.skips.len() {
                return self.skips[b.0 as usize];
            }
        }
        None
    }

    /// Where an access leads, past all phis that are left out.
    pub fn root(&self, access: Access) -> Access
        requires { HasTurns self.now }
        ensures kept { skip_of self.now result ≡ None }
        ensures leads { (leads : Access → Access) → IsLeading self.now leads → leads access ≡ result }
    {
        let mut at = access;
        'rooting: while let Some(skip) = self.skip(at) {
            at = skip.to;
        }
        at
    }

    // Where the way over the edge at a slot of a block leads.
    fn way(&self, form: &Form, walk: &Walk, b: BlockNo, slot: u32) -> Access
        requires { HasTurns self.now }
        ensures kept { skip_of self.now result ≡ None }
        ensures leads { (leads : Access → Access) → IsLeading self.now leads → way_of form.now walk.now leads b slot ≡ result }
    {
        self.root(walk.stop(brought(form, b, slot)))
    }

    // The one access to which all ways into a block lead that do not lead to its own phi. None where there are two.
    fn only_way(&self, form: &Form, walk: &Walk, b: BlockNo, slots: u32) -> Option<Access>
        requires { HasTurns self.now }
        ensures { MatchOption result (HasTwoWays form.now walk.now self.now b slots) (IsOnlyWay form.now walk.now self.now b slots) }
    {
        let mut other = if b.0 == 0 { Some(Access::Entry) } else { None };
        for slot in 0..slots {
            let way = self.way(form, walk, b, slot);
            if !same_access(way, Access::Phi(b)) {
                match other {
                    None => other = Some(way),
                    Some(a) => {
                        if !same_access(a, way) {
                            return None;
                        }
                    }
                }
            }
        }
        match other {
            Some(a) => Some(a),
            None => Some(Access::Entry),
        }
    }

    // Leaves the phi of a block out, for an access.
    fn leave_out(&mut self, b: BlockNo, to: Access)
        requires block { b.0 < length self.old.skips }
        requires few { self.old.turns < 2 ^ 32 }
        ensures { self.new ≡ left_out b to self.old }
    {
        self.skips[b.0 as usize] = Some(Skip {
            to,
            turn: self.turns,
        });
        self.turns += 1;
    }

    // Leaves the phi of a block out, if its ways all lead to one access. Tells whether it did.
    fn try_skip(&mut self, flow: &Flow, form: &Form, walk: &Walk, b: BlockNo) -> bool
        requires skipping { IsSkipping flow.now.graph form.now walk.now self.old }
        requires block { b.0 < length flow.now.graph }
        ensures skipping { IsSkipping flow.now.graph form.now walk.now self.new }
        ensures tried { MatchBool result (HasFewer self.old self.new) ((self.new ≡ self.old) × IsDone flow.now.graph form.now walk.now self.new b) }
    {
        if self.skip(Access::Phi(b)).is_some() {
            return false;
        }
        match self.only_way(form, walk, b, flow.pred_count(b)) {
            Some(to) => {
                self.leave_out(b, to);
                true
            }
            None => false,
        }
    }

    // Tries the phis from the one that was met last to the first, which is down from the entry. Tells whether one was left out.
    fn sweep_down(&mut self, flow: &Flow, form: &Form, walk: &Walk) -> bool
        requires skipping { IsSkipping flow.now.graph form.now walk.now self.old }
        requires blocks { (k : ℕ) → k < length walk.now.phis → (phi_at walk.now k).0 < length flow.now.graph }
        ensures skipping { IsSkipping flow.now.graph form.now walk.now self.new }
        ensures swept { MatchBool result (HasFewer self.old self.new) (AreDone flow.now.graph form.now walk.now self.new (length walk.now.phis)) }
    {
        let mut changed = false;
        let count = walk.phi_count();
        for k in 0..count {
            let b = walk.phi(count - 1 - k);
            if self.try_skip(flow, form, walk, b) {
                changed = true;
            }
        }
        changed
    }

    // Tries them in the other direction, in which nested loops come before those around them.
    fn sweep_up(&mut self, flow: &Flow, form: &Form, walk: &Walk)
        requires skipping { IsSkipping flow.now.graph form.now walk.now self.old }
        requires blocks { (k : ℕ) → k < length walk.now.phis → (phi_at walk.now k).0 < length flow.now.graph }
        ensures skipping { IsSkipping flow.now.graph form.now walk.now self.new }
        ensures fewer { kept_count self.new ≤ kept_count self.old }
    {
        for k in 0..walk.phi_count() {
            let b = walk.phi(k);
            self.try_skip(flow, form, walk, b);
        }
    }

    /// Leaves phis out until the ways of each other phi that was met lead to two accesses.
    pub fn settle(&mut self, flow: &Flow, form: &Form, walk: &Walk)
        requires skipping { IsSkipping flow.now.graph form.now walk.now self.old }
        requires blocks { (k : ℕ) → k < length walk.now.phis → (phi_at walk.now k).0 < length flow.now.graph }
        ensures { IsSettled flow.now.graph form.now walk.now self.new }
    {
        'settling: while self.sweep_down(flow, form, walk) {
            self.sweep_up(flow, form, walk);
        }
    }
}
