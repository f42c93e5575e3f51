// The table, and the lists of users that it keeps.
ghost use Rattle.std.specs.Prelude.{◌≡◌, ◌<◌, ◌≤◌, ◌+◌, ◌^◌, ◌⊎◌, ◌++◌, ◌∷◌, ℕ, List, [], length, slice_get, slice_index_or, slice_set, max, OnOk, OnErr, OnSome, IfOk, IsSome, MatchOption, Some, None, false};
ghost use Rattle.ms_form.specs.Form.{AreUsers, IsTable, HasUser, HasAccess, HasEntry, HasList, HasInst, HasLast, HasPlaces, KeepsPlaces, entry_of, users_of, entering_of, leaving_of, next_of, placed, user_placed, access_placed, last_placed, cleared, linked, relinked, empty_form};
ghost use Rattle.ms_form.specs.Counts.{pred_counts};
ghost use Rattle.ms_form.specs.Waiting.{with_waiting};

use crate::access::{Access, User};
use crate::chains::Chains;
use crate::places::{Places, Room, access_of, list_of, place_of, push_insts};
use crate::waiting::Waiting;
use ms_flow::Flow;
use ms_ir::{BlockNo, InstNo, NoMemory};
use std::alloc::Global;
use std::marker::Model;

/// The memory form of a function. Each entry is the list in which the number of its user is linked.
#[derive(Drop)]
pub struct Form {
    phis: Vec<bool>,
    lasts: Vec<Option<InstNo>>,
    rooms: Vec<Room>,
    base: usize,
    users: Vec<User>,
    chains: Chains,
    waiting: Waiting,
}

impl Model for Form {
    ghost use Rattle.std.specs.Prelude.{◌≡◌, ◌≤◌, ◌+◌, length, map, vec_len, vec_capacity};
    ghost use Rattle.ms_form.specs.Form.{FormState};
    ghost use Rattle.ms_form.specs.Places.{IsForm, form_of, entries_of, named};

    ghost Value = { FormState };

    ghost view = { λ f. form_of f.phis.items f.lasts.items f.rooms.items f.base
        (entries_of (length f.rooms.items) f.chains.homes) (map (named f.users.items) f.chains.lists) f.chains.spare f.waiting.list };

    ghost invariant = { λ f. IsForm f.phis.items f.lasts.items f.rooms.items f.base f.users.items f.chains.homes f.chains.lists
        × (vec_len f.users + f.chains.spare ≤ vec_capacity f.users) × (f.waiting.blocks ≡ length f.phis.items) };
}

impl Form {
    // The access that a user names.
    fn entry(&self, user: User) -> Option<Access>
        ensures { result ≡ entry_of self.now user }
    {
        let number = place_of(&self.rooms, self.base, self.users.len() - self.base, user)?;
        let list = self.chains.home(number)?;
        Some(access_of(self.rooms.len(), list))
    }

    /// The access that an instruction names, None where it has no access or there is no such instruction.
    pub fn defining(&self, i: InstNo) -> Option<Access>
        ensures { result ≡ slice_index_or self.now.defs i.0 None }
    {
        self.entry(User::Inst(i))
    }

    /// Whether a block has a phi.
    pub fn phi_at(&self, b: BlockNo) -> bool
        ensures { result ≡ slice_index_or self.now.phis b.0 false }
    {
        if b.0 as usize >= self.phis.len() {
            return false;
        }
        self.phis[b.0 as usize]
    }

    /// The operand of a block for one of its predecessor slots, None where it is empty or there is no such slot.
    pub fn operand(&self, b: BlockNo, in_slot: u32) -> Option<Access>
        ensures { result ≡ slice_index_or (slice_index_or self.now.operands b.0 []) in_slot None }
    {
        self.entry(User::Operand(b, in_slot))
    }

    /// How many slots for operands a block has: one per predecessor entry, or more; none where there is no such block.
    pub fn slots(&self, b: BlockNo) -> u32
        ensures { result ≡ length (slice_index_or self.now.operands b.0 []) }
    {
        if b.0 as usize >= self.rooms.len() {
            return 0;
        }
        self.rooms[b.0 as usize].slots
    }

    /// The access at the start of a block: its phi where it has one, else the one that is stored.
    pub fn entering(&self, b: BlockNo) -> Option<Access>
        ensures { result ≡ entering_of self.now b }
    {
        if self.phi_at(b) {
            Some(Access::Phi(b))
        } else {
            self.entry(User::Entering(b))
        }
    }

    /// The access at the end of a block: its last Def where it has one, else the access at its start.
    pub fn leaving(&self, b: BlockNo) -> Access
        requires { IsSome (leaving_of self.now b) }
        ensures { Some result ≡ leaving_of self.now b }
    {
        let start = self.entering(b);
        if (b.0 as usize) < self.lasts.len() {
            if let Some(i) = self.lasts[b.0 as usize] {
                return Access::Of(i);
            }
        }
        match start {
            Some(access) => access,
            None => unreachable!(),
        }
    }

    /// The first user of an access.
    pub fn first_use(&self, a: Access) -> Option<User>
        ensures { result ≡ slice_get (users_of self.now a) 0 }
    {
        let list = list_of(self.rooms.len(), self.users.len() - self.base, a)?;
        let number = self.chains.first(list)?;
        Some(self.users[number])
    }

    /// The user behind this one, in the list of the access that it names.
    pub fn next_use(&self, u: User) -> Option<User>
        ensures { result ≡ next_of self.now u }
    {
        self.chains.exact();
        let number = place_of(&self.rooms, self.base, self.users.len() - self.base, u)?;
        let next = self.chains.after(number)?;
        Some(self.users[next])
    }

    /// A law: the list of each access holds exactly the users that name it, each once.
    pub fn uses(&self)
        ensures users { AreUsers self.now }
        ensures table { IsTable self.now }
    {
        self.chains.exact();
    }

    /// Makes room for so many further instruction numbers.
    pub fn reserve(&mut self, n: u32) -> Result<(), NoMemory>
        ensures ok { OnOk result (self.new ≡ record self.old { spare = max self.old.spare n }) }
        ensures err { OnErr result (self.new ≡ self.old) }
        ensures places { KeepsPlaces self.old self.new }
    {
        self.users.reserve(n as usize)?;
        self.chains.reserve(n as usize)?;
        Ok(())
    }

    // Makes the place of an instruction, if it is the next.
    fn place_inst(&mut self, i: InstNo)
        requires { HasInst self.old i.0 }
        ensures { self.new ≡ placed i.0 self.old }
    {
        if i.0 as usize == self.users.len() - self.base {
            self.chains.exact();
            self.users.push_reserved(User::Inst(i));
            self.chains.grow();
        }
    }

    fn place_user(&mut self, u: User)
        requires { HasUser self.old u }
        ensures { self.new ≡ user_placed u self.old }
    {
        if let User::Inst(i) = u {
            self.place_inst(i);
        }
    }

    fn place_access(&mut self, a: Access)
        requires { HasAccess self.old a }
        ensures { self.new ≡ access_placed a self.old }
    {
        if let Access::Of(i) = a {
            self.place_inst(i);
        }
    }

    fn place_last(&mut self, last: Option<InstNo>)
        requires { HasLast self.old last }
        ensures { self.new ≡ last_placed last self.old }
    {
        if let Some(i) = last {
            self.place_inst(i);
        }
    }

    // Empties the entry of a user.
    fn unlink(&mut self, u: User)
        requires { HasEntry self.old u }
        ensures { self.new ≡ cleared u self.old }
    {
        let place = place_of(&self.rooms, self.base, self.users.len() - self.base, u);
        let number = match place {
            Some(number) => number,
            None => unreachable!(),
        };
        self.chains.exact();
        self.chains.take(number);
    }

    // Fills the entry of a user, which is empty.
    fn link(&mut self, u: User, to: Access)
        requires user { HasEntry self.old u }
        requires access { HasList self.old to }
        requires free { entry_of self.old u ≡ None }
        ensures { self.new ≡ linked u to self.old }
    {
        let place = place_of(&self.rooms, self.base, self.users.len() - self.base, u);
        let number = match place {
            Some(number) => number,
            None => unreachable!(),
        };
        let entry = list_of(self.rooms.len(), self.users.len() - self.base, to);
        let list = match entry {
            Some(list) => list,
            None => unreachable!(),
        };
        self.chains.put(number, list);
    }

    /// The user names the access `to` from now on, and stands first in its list. The next instruction number, where it
    /// is the user or in `to`, takes one of `spare`.
    pub fn relink(&mut self, u: User, to: Access)
        requires user { HasUser self.old u }
        requires access { HasAccess self.old to }
        ensures link { self.new ≡ relinked u to (access_placed to (user_placed u self.old)) }
        ensures places { KeepsPlaces self.old self.new }
    {
        self.place_user(u);
        self.place_access(to);
        self.unlink(u);
        self.link(u, to);
    }

    /// The user names no access from now on. The next instruction number takes one of `spare`.
    pub fn clear(&mut self, u: User)
        requires { HasUser self.old u }
        ensures link { self.new ≡ cleared u (user_placed u self.old) }
        ensures places { KeepsPlaces self.old self.new }
    {
        self.place_user(u);
        self.unlink(u);
    }

    /// The block has a phi from now on, or has none.
    pub fn set_phi(&mut self, b: BlockNo, on: bool)
        requires { b.0 < length self.old.phis }
        ensures phi { self.new ≡ record self.old { phis = slice_set self.old.phis b.0 on } }
        ensures places { KeepsPlaces self.old self.new }
    {
        self.phis[b.0 as usize] = on;
    }

    /// The block has this last Def from now on, or has none. The next instruction number takes one of `spare`.
    pub fn set_last(&mut self, b: BlockNo, last: Option<InstNo>)
        requires block { b.0 < length self.old.phis }
        requires last { HasLast self.old last }
        ensures last { self.new ≡ record (last_placed last self.old) { lasts = slice_set self.old.lasts b.0 last } }
        ensures places { KeepsPlaces self.old self.new }
    {
        self.place_last(last);
        self.lasts[b.0 as usize] = last;
    }

    /// The block waits from now on, behind those that wait already, if it is none of them.
    pub fn wait(&mut self, b: BlockNo)
        requires { b.0 < length self.old.phis }
        ensures wait { self.new ≡ record self.old { waiting = with_waiting b.0 self.old.waiting } }
        ensures places { KeepsPlaces self.old self.new }
    {
        self.waiting.put(b.0);
    }

    /// The block that began to wait last, which waits no more. `None` exactly where no block waits.
    pub fn next_waiting(&mut self) -> Option<BlockNo>
        ensures next { MatchOption result ((self.old.waiting ≡ []) × (self.new ≡ self.old))
            (λ b. (b.0 < length self.old.phis) × (self.old.waiting ≡ self.new.waiting ++ b.0 ∷ []) × (self.new ≡ record self.old { waiting = self.new.waiting })) }
        ensures places { KeepsPlaces self.old self.new }
    {
        match self.waiting.next() {
            Some(b) => Some(BlockNo(b)),
            None => None,
        }
    }

    /// A law: no block waits twice.
    pub fn waits_once(&self)
        ensures { length self.now.waiting ≤ length self.now.phis }
    {
        self.waiting.once();
    }

    // An empty form, by the number of predecessor slots of each block.
    pub(crate) fn with_places(alloc: Global, counts: &[u32], insts: u32) -> Result<Form, NoMemory>
        requires { length counts.now < 2 ^ 32 }
        ensures form { IfOk result (λ f. f ≡ empty_form counts.now insts) }
        ensures places { IfOk result (HasPlaces counts.now insts) }
    {
        let Places { rooms, mut users } = Places::of(alloc, counts)?;
        let base = users.len();
        push_insts(&mut users, insts)?;
        let chains = Chains::free(alloc, users.len(), rooms.len() + 1 + insts as usize)?;
        let phis = vec![in alloc; false; rooms.len()]?;
        let lasts = vec![in alloc; None; rooms.len()]?;
        let waiting = Waiting::none(alloc, rooms.len())?;
        Ok(Form {
            phis,
            lasts,
            rooms,
            base,
            users,
            chains,
            waiting,
        })
    }

    /// An empty form, with a place per block, per edge that leads to it from a reached block, and per instruction number
    /// below `insts`.
    pub fn empty(alloc: Global, flow: &Flow, insts: u32) -> Result<Form, NoMemory>
        ensures form { IfOk result (λ f. f ≡ empty_form (pred_counts flow.now) insts) }
        ensures places { IfOk result (HasPlaces (pred_counts flow.now) insts) }
    {
        let mut counts = Vec::new(alloc);
        for b in 0..flow.block_count() {
            counts.push(flow.pred_count(BlockNo(b)))?;
        }
        Form::with_places(alloc, &counts, insts)
    }
}
