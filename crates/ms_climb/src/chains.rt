// Chains of Defs that do not count, each climbed once: a Def is marked when it is met, and one that is marked is not asked again.
ghost use Rattle.std.specs.Prelude.{◌≡◌, ◌<◌, [], ℕ, Bool, length, replicate, IfOk, MatchOption, Some, None};
ghost use Rattle.ms_form.specs.declared.access.Access.TheVariants.{Of};
ghost use Rattle.ms_form.specs.Form.{FormState};
ghost use Rattle.ms_climb.specs.Chains.{before_of, mark_at, stop_of, first_of, LeadTo, IsMet, IsClimbed, IsClimbing, IsClimb};

use crate::writes::Writes;
use ms_form::{Access, Form};
use ms_ir::{InstNo, NoMemory};
use std::alloc::Global;
use std::marker::Model;

/// What is known of a Def that was met: it counts, or it was passed on a chain.
#[derive(Clone, Copy)]
pub enum Mark {
    Counts,
    Passed(usize),
}

/// The Defs that were met, by instruction, and for each chain the access at which it stops: the entry, a phi or a Def that
/// counts.
#[derive(Drop)]
pub struct Chains {
    marks: Vec<Option<Mark>>,
    stops: Vec<Access>,
}

impl Model for Chains {
    ghost use Rattle.ms_climb.specs.Chains.{ChainsState};

    ghost Value = { ChainsState };

    ghost view = { λ s. record { marks = s.marks.items; stops = s.stops.items } };
}

/// The access before an instruction. It is the entry where the form has none.
pub fn access_before(form: &Form, i: InstNo) -> Access
    ensures { result ≡ before_of form.now i.0 }
{
    match form.defining(i) {
        Some(access) => access,
        None => Access::Entry,
    }
}

impl Chains {
    /// Nothing was met yet, of so many instructions.
    pub fn none(alloc: Global, insts: u32) -> Result<Chains, NoMemory>
        ensures { IfOk result (λ s. s ≡ record { marks = replicate insts None; stops = [] }) }
    {
        let marks = vec![in alloc; None; insts as usize]?;
        Ok(Chains {
            marks,
            stops: Vec::new(alloc),
        })
    }

    // What is known of an access, if it is a Def that was met.
    fn mark(&self, i: InstNo) -> Option<Mark>
        ensures { result ≡ mark_at self.now i.0 }
    {
        if (i.0 as usize) < self.marks.len() {
            self.marks[i.0 as usize]
        } else {
            None
        }
    }

    /// Where the way up from an access stops: the access itself, or for a Def that was passed the stop of its chain.
    pub fn stop(&self, access: Access) -> Access
        ensures { result ≡ stop_of self.now access }
    {
        if let Access::Of(i) = access {
            if let Some(Mark::Passed(chain)) = self.mark(i) {
                if chain < self.stops.len() {
                    return self.stops[chain];
                }
                return Access::Entry;
            }
        }
        access
    }

    // The Def that an access is, if it was not met yet.
    fn unmet(&self, access: Access) -> Option<InstNo>
        ensures { MatchOption result (IsMet self.now access)
            (λ i. (access ≡ Of i) × (i.0 < length self.now.marks) × (mark_at self.now i.0 ≡ None)) }
    {
        if let Access::Of(i) = access {
            if (i.0 as usize) < self.marks.len() && self.mark(i).is_none() {
                return Some(i);
            }
        }
        None
    }

    // Begins a climb with Defs that were passed already, on the way to an access. Tells where the climb goes on: there, or at
    // the first of them that was met.
    fn pass(&mut self, passed: &[InstNo], to: Access) -> Access
        ensures { (f : FormState) (E : ℕ → Bool) → LeadTo f E passed.now to →
            IsClimbing f E (first_of passed.now to) result self.old self.new }
    {
        let chain = self.stops.len();
        for i in passed {
            match self.unmet(Access::Of(*i)) {
                Some(i) => self.marks[i.0 as usize] = Some(Mark::Passed(chain)),
                None => return Access::Of(*i),
            }
        }
        to
    }

    /// Climbs to a stop: from an access, or from the first of the Defs that were passed already on the way to it.
    pub fn climb<W: Writes>(
        &mut self,
        form: &Form,
        counted: &W,
        passed: &[InstNo],
        from: Access,
    ) -> Result<Access, NoMemory>
        requires climbed { IsClimbed form.now (W.test counted.now) self.old }
        requires chain { LeadTo form.now (W.test counted.now) passed.now from }
        ensures { IfOk result (λ stop. IsClimb form.now (W.test counted.now) (first_of passed.now from) stop self.old self.new) }
    {
        let chain = self.stops.len();
        let mut at = self.pass(passed, from);
        'climbing: while let Some(i) = self.unmet(at) {
            if counted.writes(i) {
                self.marks[i.0 as usize] = Some(Mark::Counts);
            } else {
                self.marks[i.0 as usize] = Some(Mark::Passed(chain));
                at = access_before(form, i);
            }
        }
        let stop = self.stop(at);
        self.stops.push(stop)?;
        Ok(stop)
    }
}
