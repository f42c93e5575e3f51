// Laws of changes, each the contract of a function that does nothing.
ghost use Rattle.std.specs.Prelude.{◌≡◌, ℕ};
ghost use Rattle.ms_ir.specs.declared.inst.Edit.{Edit};
ghost use Rattle.ms_ir.specs.Func.{FuncState};
ghost use Rattle.ms_ir.specs.Edits.{IsFaultless};
ghost use Rattle.ms_whole.specs.Cost.{IsReadsOf};

/// How many edges an edit without a fault reads is one number.
pub fn one_number_of_reads()
    ensures { (f : FuncState) (e : Edit) (m n : ℕ) → IsFaultless f e → IsReadsOf f e m → IsReadsOf f e n → m ≡ n }
{
    ms_update::laws::one_cost();
}
