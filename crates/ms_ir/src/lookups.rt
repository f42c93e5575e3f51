// Look-ups of a function's locals and blocks by number and by name.
ghost use Rattle.std.specs.Prelude.{◌≡◌, ◌↔◌, ◌+◌, ◌<◌, ◌^◌, ℕ, MatchOption, IfSome, IsTrue};
ghost use Rattle.ms_ir.specs.Func.{Placed, parts_of, node_parts};
ghost use Rattle.ms_ir.specs.Locals.{IsGiver, IsUngiven, IsNoLocal, HasType, HasName, IsFirstLocal, NoLocalNamed, IsBlockNamed, IsFirstBlock, NoBlockNamed};

use crate::func::{Func, Node};
use crate::inst::result_type;
use crate::names::{BlockNo, LocalNo, Name, Ty, same_name};

impl Func {
    /// The instruction that gives a local, with its name. `None` exactly where none gives it, as for a parameter.
    pub fn giver(&self, l: LocalNo) -> Option<&Node>
        ensures found { MatchOption result (IsUngiven self.now.blocks l)
            (λ node. (b : ℕ) × (place : ℕ) × (x : Placed) × IsGiver self.now.blocks l b place x × (node_parts x ≡ parts_of node.now)) }
        // It is the one that gives the local, wherever one does.
        ensures each { IfSome result (λ node. (b place : ℕ) (x : Placed) → IsGiver self.now.blocks l b place x → node_parts x ≡ parts_of node.now) }
    {
        match self.def_of(l) {
            Some(i) => match self.node(i) {
                Some(node) => Some(node),
                None => None,
            },
            None => None,
        }
    }

    /// The type of a local. `None` exactly where the function has no such local.
    pub fn type_of(&self, l: LocalNo) -> Option<Ty>
        ensures found { MatchOption result (IsNoLocal self.now l) (HasType self.now l) }
        // It has no other type.
        ensures each { IfSome result (λ ty. (t : Ty) → HasType self.now l t → t ≡ ty) }
    {
        self.numbered();
        match self.params().get(l.0 as usize) {
            Some(param) => Some(param.ty),
            None => match self.giver(l) {
                Some(node) => match result_type(&node.inst) {
                    Some(ty) => Some(ty),
                    None => None,
                },
                None => None,
            },
        }
    }

    /// The name of a local, a parameter's too. `None` exactly where the function has no such local.
    pub fn local_name(&self, l: LocalNo) -> Option<&Name>
        ensures found { MatchOption result (IsNoLocal self.now l) (λ name. HasName self.now l name.now) }
        // It has no other name.
        ensures each { IfSome result (λ name. (n : Name) → HasName self.now l n → n ≡ name.now) }
    {
        self.numbered();
        match self.params().get(l.0 as usize) {
            Some(param) => Some(&param.name),
            None => match self.giver(l) {
                Some(node) => Some(&node.name),
                None => None,
            },
        }
    }

    // Whether a local of this number is there and has this name.
    fn is_named(&self, l: LocalNo, name: &Name) -> bool
        ensures { IsTrue result ↔ HasName self.now l name.now }
    {
        match self.local_name(l) {
            Some(found) => same_name(found, name),
            None => false,
        }
    }

    /// The local of a name. Of several with one name it is the one that was made first. `None` exactly where no local has the
    /// name, and for `Absent`. A `Number` is the one in the text as read.
    pub fn find_local(&self, name: &Name) -> Option<LocalNo>
        ensures { MatchOption result (NoLocalNamed self.now name.now) (IsFirstLocal self.now name.now) }
    {
        if same_name(name, &Name::Absent) {
            return None;
        }
        self.numbered();
        for l in 0..self.local_count() {
            if self.is_named(LocalNo(l), name) {
                return Some(LocalNo(l));
            }
        }
        None
    }

    // Whether a block of this number is there and has this name.
    fn is_block_named(&self, b: BlockNo, name: &Name) -> bool
        ensures { IsTrue result ↔ IsBlockNamed self.now.blocks name.now b.0 }
    {
        match self.block_name(b) {
            Some(found) => same_name(found, name),
            None => false,
        }
    }

    /// The block of a name. Of several with one name it is the one that was made first. `None` exactly where no block has the
    /// name, and for `Absent`. A `Number` is the one in the text as read.
    pub fn find_block(&self, name: &Name) -> Option<BlockNo>
        ensures { MatchOption result (NoBlockNamed self.now.blocks name.now) (λ b. IsFirstBlock self.now.blocks name.now b.0) }
    {
        if same_name(name, &Name::Absent) {
            return None;
        }
        for b in 0..self.block_count() {
            if self.is_block_named(BlockNo(b), name) {
                return Some(BlockNo(b));
            }
        }
        None
    }
}
