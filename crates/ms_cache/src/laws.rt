// Laws of kept answers and of kept tables, the contracts of a function that does nothing.
ghost use Rattle.std.specs.Prelude.{◌≡◌, ◌≢◌, ◌↔◌, ◌<◌, ℕ, ℤ, true, false, length, List, [], Contains, slice_index_or};
ghost use Rattle.ms_ir.specs.declared.names.InstNo.{InstNo};
ghost use Rattle.ms_ir.specs.declared.names.LocalNo.{LocalNo};
ghost use Rattle.ms_ir.specs.declared.inst.Arg.{Arg};
ghost use Rattle.ms_ir.specs.declared.inst.Val.{Val};
ghost use Rattle.ms_ir.specs.declared.inst.Inst.{Inst};
ghost use Rattle.ms_ir.specs.Func.{Placed, FuncState, no_block, IsAt, IsSomewhere, IsShifted, IsTaken};
ghost use Rattle.ms_ir.specs.Changes.{IsCondBr, with_source, with_replaced, with_edge_cut};
ghost use Rattle.ms_ir.specs.Edits.{is_movable};
ghost use Rattle.ms_ir.specs.Locals.{IsNumbered};
ghost use Rattle.ms_ir.specs.SoundFunc.{IsSoundFunc};
ghost use Rattle.ms_alias.specs.declared.loc.Root.{Root};
ghost use Rattle.ms_alias.specs.declared.loc.Loc.{Loc};
ghost use Rattle.ms_alias.specs.declared.loc.Loc.TheVariants.{ReadBy};
ghost use Rattle.ms_alias.specs.Roots.{makes_pointer, HasRoot, IsTurning};
ghost use Rattle.ms_alias.specs.Bases.{Base, HasBase};
ghost use Rattle.ms_alias.specs.Captured.{IsCaptured, args_of};
ghost use Rattle.ms_alias.specs.Reaches.{ReadsLoc, WritesLoc};
ghost use Rattle.ms_alias.specs.Tables.{AliasState, IsAliasOf, IsReady};
ghost use Rattle.ms_alias.specs.Tests.{may_write_by, may_read_by, may_write_in_turn_by};
ghost use Rattle.ms_cache.specs.declared.change.Change.{Change};
ghost use Rattle.ms_cache.specs.Stays.{Kept, Stays, AreOnce, AreWhatStays};
ghost use Rattle.ms_cache.specs.Edited.{MakesNone, GivesWay, IsLoadGone, SamePointers, SameWrites, SameReads, SameLocs};

/// Exactly those answers are left that were kept and stay; none stands twice; and there is one list of them alone.
pub fn stays_told()
    ensures members { (f : FuncState) (e : Change) (old new : List Kept) → AreWhatStays f e old new → (x : Kept)
        → Contains new x ↔ (Contains old x × Stays f e x.0) }
    ensures once { (f : FuncState) (e : Change) (old new : List Kept) → AreWhatStays f e old new → AreOnce old → AreOnce new }
    ensures one { (f : FuncState) (e : Change) (old a b : List Kept) → AreWhatStays f e old a → AreWhatStays f e old b → a ≡ b }
{}

/// Where an instruction that makes no pointer stands elsewhere, the tables are the function's without any call, its pointers are the same, and each
/// instruction, the moved one too, reads and writes what it did.
pub fn shift_kept()
    ensures tables { (f g : FuncState) (n b place : ℕ) → IsShifted f g n b place → b < length f.blocks → MakesNone f n → (a : AliasState)
        → IsAliasOf f a → IsAliasOf g a }
    ensures pointers { (f g : FuncState) (n b place : ℕ) → IsShifted f g n b place → b < length f.blocks → MakesNone f n → SamePointers f g }
    ensures writes { (f g : FuncState) (n b place : ℕ) → IsShifted f g n b place → b < length f.blocks → MakesNone f n → (i : ℕ) (loc : Loc)
        → SameWrites f g i loc }
    ensures reads { (f g : FuncState) (n b place : ℕ) → IsShifted f g n b place → b < length f.blocks → MakesNone f n → (i : ℕ) (loc : Loc)
        → SameReads f g i loc }
    ensures locations { (f g : FuncState) (n b place : ℕ) → IsShifted f g n b place → b < length f.blocks → MakesNone f n → (i : InstNo) → SameLocs f g i }
{}

/// Where a memcpy took another source, the tables are the function's without any call, its pointers are the same, and each instruction writes what it did
/// and, the memcpy left out, reads what it did.
pub fn source_kept()
    ensures tables { (f : FuncState) (n : ℕ) (arg : Arg) (a : AliasState) → IsAliasOf f a → IsAliasOf (with_source f n arg) a }
    ensures pointers { (f : FuncState) (n : ℕ) (arg : Arg) → SamePointers f (with_source f n arg) }
    ensures writes { (f : FuncState) (n : ℕ) (arg : Arg) (i : ℕ) (loc : Loc) → loc ≢ ReadBy (record { 0 = n }) → SameWrites f (with_source f n arg) i loc }
    ensures reads { (f : FuncState) (n : ℕ) (arg : Arg) (i : ℕ) (loc : Loc) → i ≢ n → loc ≢ ReadBy (record { 0 = n })
        → SameReads f (with_source f n arg) i loc }
    ensures written { (f : FuncState) (n : ℕ) (arg : Arg) (i : InstNo) (loc : Loc) → WritesLoc f i loc ↔ WritesLoc (with_source f n arg) i loc }
    ensures read { (f : FuncState) (n : ℕ) (arg : Arg) (i : InstNo) (loc : Loc) → i.0 ≢ n → ReadsLoc f i loc ↔ ReadsLoc (with_source f n arg) i loc }
{}

/// Where each use of a local that holds numbers became a use of a value of its type, the tables are the function's without any call, its pointers are the
/// same, and each instruction reads and writes what it did.
pub fn replace_kept()
    ensures tables { (f : FuncState) → IsNumbered f → (l : LocalNo) (by : Val) → GivesWay f l by → IsSoundFunc f → (a : AliasState) → IsAliasOf f a
        → IsAliasOf (with_replaced f l by) a }
    ensures pointers { (f : FuncState) → IsNumbered f → (l : LocalNo) (by : Val) → GivesWay f l by → IsSoundFunc f → SamePointers f (with_replaced f l by) }
    ensures writes { (f : FuncState) → IsNumbered f → (l : LocalNo) (by : Val) → GivesWay f l by → IsSoundFunc f → (i : ℕ) (loc : Loc)
        → SameWrites f (with_replaced f l by) i loc }
    ensures reads { (f : FuncState) → IsNumbered f → (l : LocalNo) (by : Val) → GivesWay f l by → IsSoundFunc f → (i : ℕ) (loc : Loc)
        → SameReads f (with_replaced f l by) i loc }
    ensures locations { (f : FuncState) → IsNumbered f → (l : LocalNo) (by : Val) → GivesWay f l by → IsSoundFunc f → (i : InstNo)
        → SameLocs f (with_replaced f l by) i }
    ensures there { (f : FuncState) (l : LocalNo) (by : Val) (n : ℕ) → IsSomewhere f.blocks n → IsSomewhere (with_replaced f l by).blocks n }
{}

/// Where an instruction was taken that makes no pointer and passes none to a call, the tables are the function's without any call, its pointers are the
/// same, and each other instruction reads and writes what it did.
pub fn take_kept()
    ensures tables { (f g : FuncState) (n : ℕ) (inst : Inst) → IsTaken f g n inst → makes_pointer inst ≡ false → args_of inst ≡ [] → (a : AliasState)
        → IsAliasOf f a → IsAliasOf g a }
    ensures pointers { (f g : FuncState) (n : ℕ) (inst : Inst) → IsTaken f g n inst → makes_pointer inst ≡ false → args_of inst ≡ [] → SamePointers f g }
    ensures writes { (f g : FuncState) (n : ℕ) (inst : Inst) → IsTaken f g n inst → makes_pointer inst ≡ false → args_of inst ≡ []
        → (i : ℕ) (loc : Loc) → i ≢ n → loc ≢ ReadBy (record { 0 = n }) → SameWrites f g i loc }
    ensures reads { (f g : FuncState) (n : ℕ) (inst : Inst) → IsTaken f g n inst → makes_pointer inst ≡ false → args_of inst ≡ []
        → (i : ℕ) (loc : Loc) → i ≢ n → loc ≢ ReadBy (record { 0 = n }) → SameReads f g i loc }
    ensures locations { (f g : FuncState) (n : ℕ) (inst : Inst) → IsTaken f g n inst → makes_pointer inst ≡ false → args_of inst ≡ [] → (i : InstNo)
        → i.0 ≢ n → SameLocs f g i }
{}

/// Where a load's result gave way to a value of its type and then the load was taken, the tables are the function's without any call, its pointers are the
/// same, and each other instruction reads and writes what it did.
pub fn load_gone()
    ensures tables { (f g : FuncState) (n : ℕ) (by : Val) → IsNumbered f → IsSoundFunc f → IsLoadGone f g n by → (a : AliasState) → IsAliasOf f a
        → IsAliasOf g a }
    ensures pointers { (f g : FuncState) (n : ℕ) (by : Val) → IsNumbered f → IsSoundFunc f → IsLoadGone f g n by → SamePointers f g }
    ensures writes { (f g : FuncState) (n : ℕ) (by : Val) → IsNumbered f → IsSoundFunc f → IsLoadGone f g n by
        → (i : ℕ) (loc : Loc) → i ≢ n → loc ≢ ReadBy (record { 0 = n }) → SameWrites f g i loc }
    ensures reads { (f g : FuncState) (n : ℕ) (by : Val) → IsNumbered f → IsSoundFunc f → IsLoadGone f g n by
        → (i : ℕ) (loc : Loc) → i ≢ n → loc ≢ ReadBy (record { 0 = n }) → SameReads f g i loc }
    ensures locations { (f g : FuncState) (n : ℕ) (by : Val) → IsNumbered f → IsSoundFunc f → IsLoadGone f g n by → (i : InstNo) → i.0 ≢ n → SameLocs f g i }
{}

/// Where an edge was cut the tables are ready to be renewed; each pointer has the same root and offset, and each instruction has the same locations; and no
/// pointer has another base, no other alloca is captured, and no other root turns.
pub fn cut_kept()
    ensures ready { (f : FuncState) (a : AliasState) (b slot : ℕ) → IsAliasOf f a → IsReady (with_edge_cut f b slot) a }
    ensures roots { (f : FuncState) (b slot : ℕ) (p r : Root) (offset : ℤ) → HasRoot f p r offset ↔ HasRoot (with_edge_cut f b slot) p r offset }
    ensures locations { (f : FuncState) (b slot : ℕ) (i : InstNo) → SameLocs f (with_edge_cut f b slot) i }
    ensures bases { (f : FuncState) (b slot : ℕ) (p : Root) (c : Base) → HasBase (with_edge_cut f b slot) p c → HasBase f p c }
    ensures captured { (f : FuncState) (b slot : ℕ) (l : LocalNo) → IsCaptured (with_edge_cut f b slot) l → IsCaptured f l }
    ensures turning { (f : FuncState) (b slot : ℕ) → IsCondBr (slice_index_or f.blocks b no_block).term → (r : Root)
        → IsTurning (with_edge_cut f b slot) r → IsTurning f r }
{}

/// An instruction that may be moved makes no pointer, and one instruction alone has a number.
pub fn makes_none()
    ensures movable { (inst : Inst) → is_movable inst ≡ true → makes_pointer inst ≡ false }
    ensures one { (f : FuncState) (n b place : ℕ) (x : Placed) → IsNumbered f → IsAt f.blocks n b place x → makes_pointer x.inst ≡ false → MakesNone f n }
{}

/// Where the tables are those of two functions, what may write or read a location in both or in neither passes the same test.
pub fn tests_kept()
    ensures writes { (f g : FuncState) (a : AliasState) → IsAliasOf f a → IsAliasOf g a → (i : ℕ) (loc : Loc) → SameWrites f g i loc
        → may_write_by f a loc i ≡ may_write_by g a loc i }
    ensures in_turn { (f g : FuncState) (a : AliasState) → IsAliasOf f a → IsAliasOf g a → (i : ℕ) (loc : Loc) → SameWrites f g i loc
        → may_write_in_turn_by f a loc i ≡ may_write_in_turn_by g a loc i }
    ensures reads { (f g : FuncState) (a : AliasState) → IsAliasOf f a → IsAliasOf g a → (i : ℕ) (loc : Loc) → SameReads f g i loc
        → may_read_by f a loc i ≡ may_read_by g a loc i }
{}
