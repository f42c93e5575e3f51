// What edits keep. Each law is the contract of a function that does nothing.
ghost use Rattle.std.specs.Prelude.{◌≡◌, ◌<◌, ◌+◌, ◌^◌, ℕ, [], ◌∷◌, length};
ghost use Rattle.ms_ir.specs.Func.{FuncState, insts_at};
ghost use Rattle.ms_ir.specs.Uses.{Use};
ghost use Rattle.ms_ir.specs.Sound.{IsUsedBefore};
ghost use Rattle.ms_ir.specs.Locals.{IsNumbered};
ghost use Rattle.ms_ir.specs.SoundFunc.{IsSoundFunc};
ghost use Rattle.ms_ir.specs.Edits.{edited, IsUseIn, IsFaultless, IsFittingEdit, IsRefused};
ghost use Rattle.ms_ir.specs.declared.names.BlockNo.{BlockNo};
ghost use Rattle.ms_ir.specs.declared.names.Name.TheVariants.{Number, Absent};
ghost use Rattle.ms_ir.specs.declared.names.Ty.TheVariants.{I32};
ghost use Rattle.ms_ir.specs.declared.inst.Val.TheVariants.{Num};
ghost use Rattle.ms_ir.specs.declared.inst.Inst.TheVariants.{Load, Store, Phi};
ghost use Rattle.ms_ir.specs.declared.inst.Edit.{Edit};
ghost use Rattle.ms_ir.specs.declared.inst.Edit.TheVariants.{Insert, Remove, Move, Unlink};
ghost use Rattle.ms_ir.specs.declared.faults.EditFault.TheVariants as fault;
ghost use Rattle.ms_edited.specs.Samples.{block_no, local, entry, stores, loads, diamond, inserted, loads_first, removed, moved, unlinked, twice, once, guarded};

/// A sound function is sound behind an edit that has no fault, where an inserted instruction has types that can stand and numbers within their
/// ranges.
pub fn edits_keep_sound()
    ensures { (f : FuncState) (e : Edit) → IsNumbered f → IsSoundFunc f → IsFittingEdit e → IsFaultless f e → IsSoundFunc (edited f e) }
{
    ms_paths::laws::part_form();
}

/// Each number stands for one thing behind such an edit, as long as there are numbers left.
pub fn edits_keep_numbers()
    ensures { (f : FuncState) (e : Edit) → IsNumbered f → f.made + 1 < 2 ^ 32 → IsFaultless f e → IsNumbered (edited f e) }
{}

/// Where an instruction of a sound function is removed, no path comes to a use of a local before its definition, be the edit refused or not: what is
/// left of the uses of the removed instruction's result counts as another fault.
pub fn removes_keep_order()
    ensures { (f : FuncState) (block : BlockNo) (place : ℕ) → IsNumbered f → IsSoundFunc f → block.0 < length f.blocks → place < length (insts_at f.blocks block.0) →
        (u : Use) → IsUseIn (edited f (Remove block place)).blocks u → IsUsedBefore (edited f (Remove block place)) u → ⊥ }
{}

/// Edits of small functions: what becomes of them, and why some are refused.
pub fn samples()
    ensures insert { edited diamond (Insert (block_no 2) 1 (stores 7) Absent) ≡ inserted }
    ensures insert_load { edited diamond (Insert (block_no 0) 0 loads Absent) ≡ loads_first }
    ensures remove { edited diamond (Remove (block_no 1) 0) ≡ removed }
    ensures place_without { edited diamond (Move (block_no 0) 0 (block_no 0) 1) ≡ moved }
    ensures unlink { edited diamond (Unlink (block_no 0) 1) ≡ unlinked }
    ensures first_entry { edited twice (Unlink (block_no 0) 0) ≡ once }
    ensures no_block { IsRefused diamond (Insert (block_no 3) 0 (stores 7) Absent) fault.Name }
    ensures no_local { IsRefused diamond (Insert (block_no 0) 0 (Load I32 (local 4) []) Absent) fault.Name }
    ensures no_source { IsRefused diamond (Insert (block_no 0) 0 (Phi I32 (entry (Num I32 0) 5 ∷ []) []) Absent) fault.Name }
    ensures name_taken { IsRefused diamond (Insert (block_no 0) 0 loads (Number 5)) fault.Name }
    ensures before_phi { IsRefused diamond (Insert (block_no 2) 0 (stores 7) (Number 5)) fault.Place }
    ensures past_end { IsRefused diamond (Move (block_no 0) 0 (block_no 0) 2) fault.Place }
    ensures phi { IsRefused diamond (Remove (block_no 2) 0) fault.Kind }
    ensures idle_phi { IsRefused guarded (Unlink (block_no 0) 0) fault.Kind }
    ensures other_type { IsRefused diamond (Insert (block_no 0) 0 (Store I32 (local 1) (local 1) []) Absent) fault.Types }
    ensures too_early { IsRefused diamond (Move (block_no 0) 1 (block_no 1) 0) fault.Order }
    ensures used { IsRefused diamond (Remove (block_no 0) 1) fault.Used }
    ensures no_fork { IsRefused diamond (Unlink (block_no 1) 0) fault.NoEdge }
    ensures no_slot { IsRefused diamond (Unlink (block_no 0) 2) fault.NoEdge }
    ensures insert_fine { IsFaultless diamond (Insert (block_no 2) 1 (stores 7) Absent) }
    ensures move_fine { IsFaultless diamond (Move (block_no 0) 0 (block_no 0) 1) }
    ensures remove_fine { IsFaultless diamond (Remove (block_no 1) 0) }
    ensures unlink_fine { IsFaultless diamond (Unlink (block_no 0) 1) }
{}
