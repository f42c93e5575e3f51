// Clobbers that were found, kept for as long as they are right.
ghost use Rattle.std.specs.Prelude.{◌≡◌, [], ◌∷◌, ◌++◌, length, not, Contains, MatchOption, OnOk, OnErr};
ghost use Rattle.ms_alias.specs.Tables.{IsAliasOf};
ghost use Rattle.ms_cache.specs.Stays.{query_of, is_own, may_write_in, is_spared, stays_by, NotKept, AreOnce, AreWhatStays, AsksLocations};

use crate::change::Change;
use crate::query::Query;
use indexmap::IndexMap;
use ms_alias::{Alias, Loc};
use ms_form::Access;
use ms_ir::{Func, InstNo, NoMemory};
use std::alloc::Global;
use std::marker::Model;

/// Answers in the order in which they were kept. None is of the same instruction and location as another.
#[derive(Drop)]
pub struct Cache {
    answers: IndexMap<Query, Access>,
}

impl Model for Cache {
    ghost use Rattle.std.specs.Prelude.{List};
    ghost use Rattle.ms_cache.specs.Stays.{Kept, AreOnce};

    ghost Value = { List Kept };

    ghost view = { λ c. c.answers.entries };

    ghost invariant = { λ c. AreOnce c.answers.entries };
}

// Whether an instruction is the one of a change.
fn is_own(own: Option<InstNo>, i: InstNo) -> bool
    ensures { result ≡ is_own own i }
{
    match own {
        Some(own) => own.0 == i.0,
        None => false,
    }
}

// Whether the instruction of a change may write a location.
fn may_write_in(func: &Func, alias: &Alias, own: Option<InstNo>, loc: &Loc) -> bool
    ensures { result ≡ may_write_in func.now alias.now own loc.now }
{
    match own {
        Some(i) => alias.may_write(func, i, loc),
        None => false,
    }
}

// Whether an answer for a location stays, of whatever other instruction it is.
fn is_spared(func: &Func, alias: &Alias, change: &Change, loc: &Loc) -> bool
    ensures { result ≡ is_spared func.now alias.now change.now loc.now }
{
    change.own_only
        || (!change.captured
            && !change.unlinked
            && !(change.def && may_write_in(func, alias, change.inst, loc)))
}

// Whether an answer stays.
fn stays(func: &Func, alias: &Alias, change: &Change, query: &Query) -> bool
    ensures { result ≡ stays_by func.now alias.now change.now query.now }
{
    !is_own(change.inst, query.inst) && is_spared(func, alias, change, &query.loc)
}

impl Cache {
    /// No answers. It takes no memory.
    pub fn new(alloc: Global) -> Cache
        ensures { result ≡ [] }
    {
        Cache {
            answers: IndexMap::new(alloc),
        }
    }

    /// The answer that is kept of an instruction and a location. `None` exactly where none is. It takes no memory.
    pub fn get(&self, i: InstNo, loc: &Loc) -> Option<Access>
        ensures found { MatchOption result (NotKept self.now (query_of i loc.now)) (λ a. Contains self.now (query_of i loc.now, a)) }
        ensures once { AreOnce self.now }
    {
        let query = Query { inst: i, loc: *loc };
        match self.answers.get(&query) {
            Some(access) => Some(*access),
            None => None,
        }
    }

    /// An answer more, of an instruction and a location of which none is kept.
    pub fn put(&mut self, i: InstNo, loc: Loc, access: Access) -> Result<(), NoMemory>
        requires { NotKept self.old (query_of i loc) }
        ensures ok { OnOk result (self.new ≡ self.old ++ (query_of i loc, access) ∷ []) }
        ensures err { OnErr result (self.new ≡ self.old) }
        ensures once { AreOnce self.new }
    {
        self.answers.insert(Query { inst: i, loc }, access)?;
        Ok(())
    }

    /// The answers that stay behind a change of the function. The function is the one in which the instruction of the change stands,
    /// with its pointers, which are asked for only where it counts which locations the instruction may write. It takes no memory.
    pub fn after(&mut self, func: &Func, alias: &Alias, change: &Change)
        requires { AsksLocations change.now → IsAliasOf func.now alias.now }
        ensures stays { AreWhatStays func.now change.now self.old self.new }
        ensures once { AreOnce self.new }
    {
        ms_alias::laws::tests_told();
        self.answers.retain(
            |query: &Query, access: &mut Access| -> bool
                ensures { (result ≡ stays_by func.entry.now alias.entry.now change.entry.now query.now) × (access.new ≡ access.old) }
            { stays(func, alias, change, query) },
        );
    }

    /// The number of answers. It takes no memory.
    pub fn count(&self) -> u64
        ensures length { result ≡ length self.now }
        ensures once { AreOnce self.now }
    {
        self.answers.len() as u64
    }
}
