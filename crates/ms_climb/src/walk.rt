// The accesses that a search reaches, each once.
ghost use Rattle.std.specs.Prelude.{◌≡◌, ◌<◌, ◌≤◌, ℕ, [], length, replicate, IfOk, OnOk, None, false, Some, MatchOption, slice_get};
ghost use Rattle.ms_form.specs.declared.access.Access.TheVariants.{Phi};
ghost use Rattle.ms_climb.specs.Chains.{stop_of, first_of, LeadTo};
ghost use Rattle.ms_climb.specs.Walk.{brought_of, has_met, with_met, IsWalked, IsStep, IsOpened, IsCollected};

use crate::chains::Chains;
use crate::writes::Writes;
use ms_flow::Flow;
use ms_form::{Access, Form};
use ms_ir::{BlockNo, InstNo, NoMemory};
use std::alloc::Global;
use std::marker::Model;

/// The accesses that were reached: chains of Defs, and phis in the order in which they were met.
#[derive(Drop)]
pub struct Walk {
    chains: Chains,
    met: Vec<bool>,
    phis: Vec<BlockNo>,
}

impl Model for Walk {
    ghost use Rattle.ms_climb.specs.Walk.{WalkState};

    ghost Value = { WalkState };

    ghost view = { λ w. record { chains = w.chains; met = w.met.items; phis = w.phis.items } };
}

/// What comes into a phi over the edge at a slot. It is the entry where the form has no such operand.
pub fn brought(form: &Form, b: BlockNo, slot: u32) -> Access
    ensures { result ≡ brought_of form.now b.0 slot }
{
    match form.operand(b, slot) {
        Some(access) => access,
        None => Access::Entry,
    }
}

impl Walk {
    // Nothing is reached yet, of so many instructions and blocks.
    fn none(alloc: Global, insts: u32, blocks: u32) -> Result<Walk, NoMemory>
        ensures { IfOk result (λ w. w ≡ record { chains = record { marks = replicate insts None; stops = [] }; met = replicate blocks false; phis = [] }) }
    {
        let chains = Chains::none(alloc, insts)?;
        let met = vec![in alloc; false; blocks as usize]?;
        Ok(Walk {
            chains,
            met,
            phis: Vec::new(alloc),
        })
    }

    /// How many phis were met.
    pub fn phi_count(&self) -> usize
        ensures { result ≡ length self.now.phis }
    {
        self.phis.len()
    }

    /// The phi at a place of the list.
    pub fn phi(&self, k: usize) -> BlockNo
        requires { k < length self.now.phis }
        ensures { slice_get self.now.phis k ≡ Some result }
    {
        self.phis[k]
    }

    /// Where the way up from an access stops.
    pub fn stop(&self, access: Access) -> Access
        ensures { result ≡ stop_of self.now.chains access }
    {
        self.chains.stop(access)
    }

    // The block of a phi that was not met yet.
    fn unmet(&self, access: Access) -> Option<BlockNo>
        ensures { MatchOption result (with_met access self.now ≡ self.now)
            (λ b. (access ≡ Phi b) × (b.0 < length self.now.met) × (has_met self.now b.0 ≡ false)) }
    {
        if let Access::Phi(b) = access {
            if (b.0 as usize) < self.met.len() && !self.met[b.0 as usize] {
                return Some(b);
            }
        }
        None
    }

    // Lists a phi, if it was not met yet.
    fn meet(&mut self, access: Access) -> Result<(), NoMemory>
        ensures { OnOk result (self.new ≡ with_met access self.old) }
    {
        if let Some(b) = self.unmet(access) {
            self.phis.push(b)?;
            self.met[b.0 as usize] = true;
        }
        Ok(())
    }

    // Reaches an access, or the first of the Defs that were passed already on the way to it, and the stop of its chain.
    fn reach<W: Writes>(
        &mut self,
        form: &Form,
        counted: &W,
        passed: &[InstNo],
        access: Access,
    ) -> Result<(), NoMemory>
        requires walked { IsWalked form.now (W.test counted.now) self.old }
        requires chain { LeadTo form.now (W.test counted.now) passed.now access }
        ensures { OnOk result (IsStep form.now (W.test counted.now) (first_of passed.now access) self.old self.new) }
    {
        let stop = self.chains.climb(form, counted, passed, access)?;
        self.meet(stop)?;
        Ok(())
    }

    // Reaches the operands of a phi.
    fn open<W: Writes>(
        &mut self,
        form: &Form,
        counted: &W,
        b: BlockNo,
        slots: u32,
    ) -> Result<(), NoMemory>
        requires { IsWalked form.now (W.test counted.now) self.old }
        ensures { OnOk result (IsOpened form.now (W.test counted.now) b slots self.old self.new) }
    {
        for slot in 0..slots {
            self.reach(form, counted, &[], brought(form, b, slot))?;
        }
        Ok(())
    }

    /// Reaches all accesses to which the way up from one leads: from each Def that does not count to the access before it, and
    /// from each phi to its operands. The way begins with the Defs that were passed already, which lead to `at`.
    pub fn collect<W: Writes>(
        alloc: Global,
        insts: u32,
        flow: &Flow,
        form: &Form,
        counted: &W,
        passed: &[InstNo],
        at: Access,
    ) -> Result<Walk, NoMemory>
        requires { LeadTo form.now (W.test counted.now) passed.now at }
        ensures { IfOk result (IsCollected flow.now.graph form.now (W.test counted.now) insts (first_of passed.now at)) }
    {
        let mut walk = Walk::none(alloc, insts, flow.block_count())?;
        walk.reach(form, counted, passed, at)?;
        let mut next = 0;
        'opening: while next < walk.phi_count() {
            let b = walk.phi(next);
            walk.open(form, counted, b, flow.pred_count(b))?;
            next += 1;
        }
        Ok(walk)
    }
}
