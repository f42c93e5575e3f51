// Laws of pointers, each the contract of a function that does nothing.
ghost use Rattle.std.specs.Prelude.{◌≡◌, ◌↔◌, ℕ, ℤ, IsTrue, Some, false};
ghost use Rattle.ms_ir.specs.declared.names.InstNo.{InstNo};
ghost use Rattle.ms_ir.specs.declared.names.Name.{Name};
ghost use Rattle.ms_ir.specs.declared.inst.Inst.{Inst};
ghost use Rattle.ms_ir.specs.Func.{FuncState, IsTaken, after_put};
ghost use Rattle.ms_ir.specs.Changes.{with_edge_cut};
ghost use Rattle.ms_ir.specs.Locals.{IsNumbered};
ghost use Rattle.ms_alias.specs.declared.loc.Loc.{Loc};
ghost use Rattle.ms_alias.specs.Roots.{makes_pointer};
ghost use Rattle.ms_alias.specs.declared.loc.Root.{Root};
ghost use Rattle.ms_alias.specs.Bases.{Base, HasBase};
ghost use Rattle.ms_alias.specs.Reaches.{Span, IsReachOf, ReadsLoc, WritesLoc};
ghost use Rattle.ms_alias.specs.Meeting.{MayWrite, MayWriteInTurn, MayRead};
ghost use Rattle.ms_alias.specs.Tests.{may_write_by, may_read_by, may_write_in_turn_by};
ghost use Rattle.ms_alias.specs.Tables.{AliasState, HasPointers, IsAliasOf, IsReady, IsCapturesBut};

/// The tests over the tables of a function hold of exactly the instructions that may write a location, of those that may read it,
/// and of those that may write it while its root stays what it is.
pub fn tests_told()
    ensures writes { (f : FuncState) (a : AliasState) → IsAliasOf f a → (loc : Loc) (i : ℕ) → IsTrue (may_write_by f a loc i) ↔ MayWrite f i loc }
    ensures reads { (f : FuncState) (a : AliasState) → IsAliasOf f a → (loc : Loc) (i : ℕ) → IsTrue (may_read_by f a loc i) ↔ MayRead f i loc }
    ensures in_turn { (f : FuncState) (a : AliasState) → IsAliasOf f a → (loc : Loc) (i : ℕ) → IsTrue (may_write_in_turn_by f a loc i) ↔ MayWriteInTurn f i loc }
{}

/// What may write a location while its root stays what it is may write it at all, where that root has a base.
pub fn written_at_all()
    ensures { (f : FuncState) (a : AliasState) → IsAliasOf f a → (i : ℕ) (loc : Loc) → ((r : Root) (from : ℤ) (len : ℕ) → IsReachOf f loc (Span r from len) → (b : Base) × HasBase f r b)
        → MayWriteInTurn f i loc → MayWrite f i loc }
{}

/// An instruction reads one location at most, and a store or memcpy writes the bytes of one at most.
pub fn one_location()
    ensures reads { (f : FuncState) → IsNumbered f → (i : InstNo) (a b : Loc) → ReadsLoc f i a → ReadsLoc f i b → a ≡ b }
    ensures writes { (f : FuncState) → IsNumbered f → (i : InstNo) (a b : Loc) → WritesLoc f i a → WritesLoc f i b → a ≡ b }
{}

/// Tables stay the function's, but for the captured allocas, when an instruction that makes no pointer is put; and they are
/// the function's again once an instruction is taken that makes none and was noted. Where an edge is cut, they are ready to be renewed.
pub fn tables_kept()
    ensures put { (f : FuncState) (a : AliasState) (b place : ℕ) (inst : Inst) (name : Name) → makes_pointer inst ≡ false → IsAliasOf f a → HasPointers (after_put f b place inst name) a }
    ensures take { (f g : FuncState) (a : AliasState) (i : InstNo) (inst : Inst) → IsNumbered f → IsTaken f g i.0 inst → makes_pointer inst ≡ false → HasPointers f a
        → IsCapturesBut a.bases f (Some i) a.captured → IsAliasOf g a }
    ensures pointers { (f : FuncState) (a : AliasState) → IsAliasOf f a → HasPointers f a }
    ensures cut { (f : FuncState) (a : AliasState) (b slot : ℕ) → IsAliasOf f a → IsReady (with_edge_cut f b slot) a }
{}
