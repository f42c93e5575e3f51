// Lists of numbers, linked in both directions: each number is in one list at most.
ghost use Rattle.std.specs.Prelude.{◌≡◌, ◌+◌, ◌-◌, ◌<◌, ◌≤◌, [], ◌∷◌, ◌++◌, List, ℕ, length, slice_get, slice_index_or, slice_set, map, max, replicate, OnOk, OnErr, IfOk, IfSome, Some, None, vec_len, vec_capacity};

use ms_ir::NoMemory;
use std::alloc::Global;
use std::marker::Model;

/// Where a number stands: its list, and its neighbours there.
#[derive(Clone, Copy)]
pub struct Link {
    pub home: Option<usize>,
    pub before: Option<usize>,
    pub after: Option<usize>,
}

const FREE: Link = Link {
    home: None,
    before: None,
    after: None,
};

/// The lists, each by its first number, and the link of each number.
#[derive(Drop)]
pub struct Chains {
    links: Vec<Link>,
    heads: Vec<Option<usize>>,
    spare: usize,
}

impl Model for Chains {
    ghost use Rattle.std.specs.Prelude.{◌≤◌, ◌+◌, map, vec_len, vec_capacity};
    ghost use Rattle.ms_form.specs.Chains.{ChainsState, IsChains, home_of, numbers_from};

    ghost Value = { ChainsState };

    ghost view = { λ c. record { homes = map home_of c.links.items; lists = map (numbers_from c.links.items) c.heads.items; spare = c.spare } };

    ghost invariant = { λ c. IsChains c.links.items c.heads.items (map (numbers_from c.links.items) c.heads.items)
        × (vec_len c.links + c.spare ≤ vec_capacity c.links) × (vec_len c.heads + c.spare ≤ vec_capacity c.heads) };
}

ghost use Rattle.ms_form.specs.Chains.{before_set, after_set, first_left, without, behind_at, AreExact};

// Leads the number before, if there is one, to the one that stands behind it now.
fn set_after(links: &mut Vec<Link>, before: Option<usize>, after: Option<usize>)
    requires { IfSome before (λ n. n < vec_len links.old) }
    ensures items { links.new.items ≡ after_set links.old.items before after }
    ensures len { vec_len links.new ≡ vec_len links.old }
    ensures capacity { vec_capacity links.new ≡ vec_capacity links.old }
{
    if let Some(number) = before {
        let link = links[number];
        links[number] = Link { after, ..link };
    }
}

// Leads the number behind, if there is one, back to the one that stands before it now.
fn set_before(links: &mut Vec<Link>, after: Option<usize>, before: Option<usize>)
    requires { IfSome after (λ n. n < vec_len links.old) }
    ensures items { links.new.items ≡ before_set links.old.items after before }
    ensures len { vec_len links.new ≡ vec_len links.old }
    ensures capacity { vec_capacity links.new ≡ vec_capacity links.old }
{
    if let Some(number) = after {
        let link = links[number];
        links[number] = Link { before, ..link };
    }
}

// What a list begins with once a number is out.
fn first_after(link: Link, first: Option<usize>) -> Option<usize>
    ensures { result ≡ first_left link.before link.after first }
{
    match link.before {
        Some(_) => first,
        None => link.after,
    }
}

impl Chains {
    /// So many numbers, all in no list, and so many empty lists.
    pub fn free(alloc: Global, numbers: usize, lists: usize) -> Result<Chains, NoMemory>
        ensures { IfOk result (λ c. c ≡ record { homes = replicate numbers None; lists = replicate lists []; spare = 0 }) }
    {
        let links = vec![in alloc; FREE; numbers]?;
        let heads = vec![in alloc; None; lists]?;
        Ok(Chains {
            links,
            heads,
            spare: 0,
        })
    }

    /// Makes room for so many more numbers and lists.
    pub fn reserve(&mut self, count: usize) -> Result<(), NoMemory>
        ensures ok { OnOk result (self.new ≡ record self.old { spare = max self.old.spare count }) }
        ensures err { OnErr result (self.new ≡ self.old) }
    {
        if count > self.spare {
            self.links.reserve(count)?;
            self.heads.reserve(count)?;
            self.spare = count;
        }
        Ok(())
    }

    /// One more number, in no list, and one more list, empty.
    pub fn grow(&mut self)
        requires { 1 ≤ self.old.spare }
        ensures { self.new ≡ record { homes = self.old.homes ++ None ∷ []; lists = self.old.lists ++ [] ∷ []; spare = self.old.spare - 1 } }
    {
        self.links.push_reserved(FREE);
        self.heads.push_reserved(None);
        self.spare -= 1;
    }

    /// How many numbers there are.
    pub fn count(&self) -> usize
        ensures { result ≡ length self.now.homes }
    {
        self.links.len()
    }

    /// The list of a number.
    pub fn home(&self, number: usize) -> Option<usize>
        ensures home { result ≡ slice_index_or self.now.homes number None }
        ensures below { IfSome result (λ list. list < length self.now.lists) }
    {
        if number >= self.links.len() {
            return None;
        }
        self.links[number].home
    }

    /// The first number of a list.
    pub fn first(&self, list: usize) -> Option<usize>
        ensures number { result ≡ slice_get (slice_index_or self.now.lists list []) 0 }
        ensures below { IfSome result (λ number. number < length self.now.homes) }
    {
        if list >= self.heads.len() {
            return None;
        }
        self.heads[list]
    }

    /// The number behind this one in its list.
    pub fn after(&self, number: usize) -> Option<usize>
        requires { number < length self.now.homes }
        ensures number { result ≡ behind_at number self.now.lists (slice_index_or self.now.homes number None) }
        ensures below { IfSome result (λ behind. behind < length self.now.homes) }
    {
        let link = self.links[number];
        match link.home {
            Some(_) => link.after,
            None => None,
        }
    }

    /// Takes a number out of its list, if it is in one.
    pub fn take(&mut self, number: usize)
        requires { number < length self.old.homes }
        ensures { self.new ≡ record self.old { homes = slice_set self.old.homes number None; lists = map (without number) self.old.lists } }
    {
        let link = self.links[number];
        if let Some(list) = link.home {
            set_after(&mut self.links, link.before, link.after);
            set_before(&mut self.links, link.after, link.before);
            self.heads[list] = first_after(link, self.heads[list]);
            self.links[number] = FREE;
        }
    }

    /// Puts a number that is in no list to the front of one.
    pub fn put(&mut self, number: usize, list: usize)
        requires number { number < length self.old.homes }
        requires list { list < length self.old.lists }
        requires free { slice_index_or self.old.homes number None ≡ None }
        ensures { self.new ≡ record self.old {
          homes = slice_set self.old.homes number (Some list);
          lists = slice_set self.old.lists list (number ∷ slice_index_or self.old.lists list []);
        } }
    {
        let first = self.heads[list];
        self.links[number] = Link {
            home: Some(list),
            before: None,
            after: first,
        };
        set_before(&mut self.links, first, Some(number));
        self.heads[list] = Some(number);
    }

    // A law: each list holds exactly the numbers whose home it is, each once.
    pub fn exact(&self)
        ensures { AreExact self.now.homes self.now.lists }
    {
        let _links = &self.links;
    }
}
