// What a kept answer is found by.
ghost use Rattle.std.specs.Prelude.{◌≡◌, fold};
ghost use Rattle.std.proofs.Common.{ap};
ghost use Rattle.std.specs.Cmp.{partial_equiv_from_equiv};
ghost use Rattle.ms_alias.specs.Tables.{same_root};
ghost use Rattle.ms_cache.specs.Same.{same_loc, same_query, query_writes, root_writes, same_query-Decides, same_query_equiv};

use ms_alias::{Loc, Root};
use ms_ir::InstNo;
use std::hash::{Hash, Hasher};

/// What a clobber is asked for: an instruction, and a location.
#[derive(Clone, Copy)]
pub struct Query {
    pub inst: InstNo,
    pub loc: Loc,
}

// Whether two roots are one.
fn same_root(a: Root, b: Root) -> bool
    ensures { result ≡ same_root a b }
{
    match (a, b) {
        (Root::Local(k), Root::Local(l)) => k.0 == l.0,
        (Root::Global(g), Root::Global(h)) => g.0 == h.0,
        _ => false,
    }
}

// Whether two locations are one.
fn same_loc(a: Loc, b: Loc) -> bool
    ensures { result ≡ same_loc a b }
{
    match (a, b) {
        (
            Loc::Bytes { root, from, len },
            Loc::Bytes {
                root: other,
                from: at,
                len: size,
            },
        ) => same_root(root, other) && from == at && len == size,
        (Loc::ReadBy(i), Loc::ReadBy(j)) => i.0 == j.0,
        _ => false,
    }
}

impl PartialEq for Query {
    ghost eq = { same_query };

    ghost laws = { partial_equiv_from_equiv same_query_equiv };

    fn eq(&self, other: &Query) -> bool {
        self.inst.0 == other.inst.0 && same_loc(self.loc, other.loc)
    }
}

impl Eq for Query {
    ghost laws = { same_query_equiv };
}

// A root is fed to a hasher by its number.
fn hash_root<H: Hasher>(root: Root, state: &mut H)
    ensures { state.new ≡ fold H.write state.old (root_writes root) }
{
    match root {
        Root::Local(l) => l.0.hash(state),
        Root::Global(g) => g.0.hash(state),
    }
}

impl Hash for Query {
    ghost hash_input = { query_writes };

    ghost respects_eq = { λ a b same. ap query_writes ((same_query-Decides a b).0 same) };

    fn hash<H: Hasher>(&self, state: &mut H) {
        self.inst.0.hash(state);
        match self.loc {
            Loc::Bytes { root, from, len } => {
                hash_root(root, state);
                from.hash(state);
                len.hash(state);
            }
            Loc::ReadBy(j) => j.0.hash(state),
        }
    }
}
