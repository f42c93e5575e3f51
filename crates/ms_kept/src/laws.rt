// Laws of kept answers, each the contract of a function that does nothing.
ghost use Rattle.std.specs.Prelude.{◌≡◌, ◌≢◌, ◌↔◌, ◌<◌, ◌++◌, ◌∷◌, ℕ, Bool, true, false, IsTrue, length, List, [], Some};
ghost use Rattle.ms_ir.specs.declared.names.InstNo.{InstNo};
ghost use Rattle.ms_ir.specs.declared.names.LocalNo.{LocalNo};
ghost use Rattle.ms_ir.specs.declared.names.Name.{Name};
ghost use Rattle.ms_ir.specs.declared.inst.Arg.{Arg};
ghost use Rattle.ms_ir.specs.declared.inst.Val.{Val};
ghost use Rattle.ms_ir.specs.declared.inst.Inst.{Inst};
ghost use Rattle.ms_ir.specs.declared.inst.Edit.{Edit};
ghost use Rattle.ms_paths.specs.Flow.{Event};
ghost use Rattle.ms_ir.specs.Inst.{kind_of_inst};
ghost use Rattle.ms_ir.specs.Func.{FuncState, IsTaken, IsShifted, after_put};
ghost use Rattle.ms_ir.specs.Changes.{with_source};
ghost use Rattle.ms_ir.specs.Edits.{is_movable, edited, IsFaultless};
ghost use Rattle.ms_ir.specs.Locals.{IsNumbered};
ghost use Rattle.ms_ir.specs.SoundFunc.{IsSoundFunc};
ghost use Rattle.ms_alias.specs.Roots.{makes_pointer};
ghost use Rattle.ms_alias.specs.Captured.{IsCaptured, IsCapturedBut, Differ};
ghost use Rattle.ms_alias.specs.Meeting.{MayWrite, MayWriteInTurn};
ghost use Rattle.ms_alias.specs.Reaches.{ReadsLoc, WritesLoc};
ghost use Rattle.ms_alias.specs.Tables.{AliasState, IsAliasOf};
ghost use Rattle.ms_alias.specs.declared.loc.Loc.{Loc};
ghost use Rattle.ms_walk.specs.Clobber.{IsClobber};
ghost use Rattle.ms_cache.specs.declared.change.Change.{Change};
ghost use Rattle.ms_cache.specs.Stays.{Kept, AreWhatStays};
ghost use Rattle.ms_cache.specs.Edited.{MakesNone, IsLoadGone};
ghost use Rattle.ms_kept.specs.Spared.{SameBut, IsIdle, IsSpared};
ghost use Rattle.ms_kept.specs.Answers.{IsAskedLoc, IsRight, AreRight, IsChangeOf, IsOwnChange, IsCutChange, IsToldOf, KeepsBehind, judged};

/// Where functions differ in one instruction that has no say in what the clobber of a location is, each other instruction has the same clobber of it.
pub fn spared_clobbers_stay()
    ensures { (f g : FuncState) (n : ℕ) (loc : Loc) → IsSpared f g n loc → (i : ℕ) → i ≢ n → (e : Event) → IsClobber f i loc e → IsClobber g i loc e }
{}

/// An insert, a remove and a move leave the edges and all other instructions in their order.
pub fn edits_leave_the_others()
    ensures put { (f : FuncState) (b place : ℕ) (inst : Inst) (name : Name) → SameBut f (after_put f b place inst name) f.made }
    ensures taken { (f g : FuncState) (n : ℕ) (inst : Inst) → IsTaken f g n inst → SameBut f g n }
    ensures shifted { (f g : FuncState) (n b place : ℕ) → IsShifted f g n b place → SameBut f g n }
{}

/// An instruction that is no Def may write no location.
pub fn idle_instructions_write_not()
    ensures at_all { (f : FuncState) (n : ℕ) (loc : Loc) → IsIdle f n → MayWrite f n loc → ⊥ }
    ensures in_turn { (f : FuncState) (n : ℕ) (loc : Loc) → IsIdle f n → MayWriteInTurn f n loc → ⊥ }
{}

/// An answer that is right stays right where the rule lets it stay, as long as the tables of pointers are those of the functions before and behind. An
/// insert is judged in the function behind it, a remove and a move in the one before. Where a memcpy took another source, or a load gave way to a value and
/// was taken, only the instruction's own answers go. Behind a cut edge nothing stays.
pub fn answers_stay()
    ensures put { (f : FuncState) (b place : ℕ) (inst : Inst) (name : Name) → is_movable inst ≡ true → IsNumbered f → IsNumbered (after_put f b place inst name)
        → IsSoundFunc (after_put f b place inst name) → (a d : AliasState) → IsAliasOf f a → IsAliasOf (after_put f b place inst name) d
        → (c : Change) → IsChangeOf f (after_put f b place inst name) f.made (kind_of_inst inst) c → (old new : List Kept) → AreRight f old
        → AreWhatStays (after_put f b place inst name) c old new → AreRight (after_put f b place inst name) new }
    ensures taken { (f g : FuncState) (n : ℕ) (inst : Inst) → IsTaken f g n inst → is_movable inst ≡ true → IsNumbered f → IsSoundFunc f → (a d : AliasState)
        → IsAliasOf f a → IsAliasOf g d → (c : Change) → IsChangeOf f g n (kind_of_inst inst) c → (old new : List Kept) → AreRight f old
        → AreWhatStays f c old new → AreRight g new }
    ensures shifted { (f g : FuncState) (n b place : ℕ) → (s : IsShifted f g n b place) → b < length f.blocks → is_movable s.x.inst ≡ true → IsNumbered f
        → IsSoundFunc f → IsNumbered g → IsSoundFunc g → (a : AliasState) → IsAliasOf f a → (c : Change) → IsChangeOf f g n (kind_of_inst s.x.inst) c
        → (old new : List Kept) → AreRight f old → AreWhatStays f c old new → AreRight g new }
    ensures source { (f : FuncState) (n : ℕ) (arg : Arg) (c : Change) → IsOwnChange n c → (old new : List Kept) → AreRight f old
        → AreWhatStays f c old new → AreRight (with_source f n arg) new }
    ensures gone { (f g : FuncState) (n : ℕ) (by : Val) → IsNumbered f → IsSoundFunc f → IsLoadGone f g n by → (c : Change) → IsOwnChange n c
        → (old new : List Kept) → AreRight f old → AreWhatStays f c old new → AreRight g new }
    ensures unlinked { (f : FuncState) (c : Change) → IsCutChange c → (old new : List Kept) → AreWhatStays f c old new → new ≡ [] }
{}

/// The answers that stay behind an accepted edit are right in the edited function; they are those that stay by a change that tells of the edit, and there is
/// one list of them alone.
pub fn edits_keep_right()
    ensures told { (f : FuncState) (e : Edit) (c : Change) → IsToldOf f e c → (old new : List Kept) → AreWhatStays (judged f e) c old new → KeepsBehind f e old new }
    ensures right { (f : FuncState) (e : Edit) → IsFaultless f e → IsNumbered f → IsSoundFunc f → IsNumbered (edited f e) → IsSoundFunc (edited f e)
        → (a d : AliasState) → IsAliasOf f a → IsAliasOf (edited f e) d → (old new : List Kept) → AreRight f old → KeepsBehind f e old new
        → AreRight (edited f e) new }
    ensures one { (f : FuncState) (e : Edit) (old a b : List Kept) → KeepsBehind f e old a → KeepsBehind f e old b → a ≡ b }
{}

/// The captured allocas behind a take are those that are captured without the instruction, so what `Alias::note_take` answers tells whether they are others
/// than before. A move changes none.
pub fn captures_told()
    ensures without { (f g : FuncState) (i : InstNo) (inst : Inst) → IsNumbered f → IsTaken f g i.0 inst → makes_pointer inst ≡ false → (l : LocalNo)
        → IsCapturedBut f (Some i) l ↔ IsCaptured g l }
    ensures taken { (f g : FuncState) (i : InstNo) (inst : Inst) → IsNumbered f → IsTaken f g i.0 inst → makes_pointer inst ≡ false → (t : Bool)
        → (IsTrue t ↔ Differ (IsCaptured f) (IsCapturedBut f (Some i))) → (IsTrue t ↔ Differ (IsCaptured f) (IsCaptured g)) }
    ensures moved { (f g : FuncState) (n b place : ℕ) → IsShifted f g n b place → b < length f.blocks → MakesNone f n
        → Differ (IsCaptured f) (IsCaptured g) → ⊥ }
{}

/// What an instruction reads may be asked before it, and so may the bytes that it writes.
pub fn own_locations_may_be_asked()
    ensures read { (f : FuncState) (i : InstNo) (loc : Loc) → ReadsLoc f i loc → IsAskedLoc f i loc }
    ensures written { (f : FuncState) (i : InstNo) (loc : Loc) → WritesLoc f i loc → IsAskedLoc f i loc }
{}

/// No answer is wrong where none is kept, and one more that is right may be kept.
pub fn answers_may_be_kept()
    ensures none { (f : FuncState) → AreRight f [] }
    ensures more { (f : FuncState) (old : List Kept) (x : Kept) → AreRight f old → IsRight f x → AreRight f (old ++ x ∷ []) }
{}

/// Right answers are right in the same function with other room.
pub fn rights_need_no_room()
    ensures { (f : FuncState) (k : ℕ) (kept : List Kept) → AreRight f kept ↔ AreRight (record f { spare = k }) kept }
{}
