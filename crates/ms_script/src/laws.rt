// Laws of scripts, each the contract of a function that does nothing.
ghost use Rattle.std.specs.Prelude.{◌≡◌, ◌≢◌, ℕ, List};
ghost use Rattle.ms_ir.specs.Func.{FuncState};
ghost use Rattle.ms_ir.specs.Module.{ModuleState};
ghost use Rattle.ms_ir.specs.Symbols.{AreDistinct};
ghost use Rattle.ms_ir.specs.declared.inst.Edit.{Edit};
ghost use Rattle.ms_ir.specs.declared.faults.EditFault.{EditFault};
ghost use Rattle.ms_ir.specs.declared.faults.EditFault.TheVariants as why;
ghost use Rattle.ms_script.specs.Names.{IsResolved, KnowsEdit, Refuses};
ghost use Rattle.ms_script.specs.Script.{IsScript, IsScriptCause};
ghost use Rattle.ms_script.specs.declared.edit.RawEdit.{RawEdit};
ghost use Rattle.ms_script.specs.declared.edit.Step.{Step};
ghost use Rattle.ms_script.specs.declared.fault.ScriptFault.{ScriptFault};
ghost use Rattle.ms_script.specs.declared.fault.ScriptFault.TheVariants as fault;

/// In a module, in which each function has a name of its own, a text is one script at most, or has one fault at most, and never both. Want of
/// memory is no fault of a text.
pub fn one_script()
    ensures script { (bytes : List ℕ) (m : ModuleState) (s t : List Step) → AreDistinct m.names.funcs → IsScript bytes m s → IsScript bytes m t → s ≡ t }
    ensures cause { (bytes : List ℕ) (m : ModuleState) (a b : ScriptFault) → a ≢ fault.Memory → b ≢ fault.Memory → IsScriptCause bytes m a → IsScriptCause bytes m b → a ≡ b }
    ensures apart { (bytes : List ℕ) (m : ModuleState) (s : List Step) (a : ScriptFault) → a ≢ fault.Memory → IsScript bytes m s → IsScriptCause bytes m a → ⊥ }
{}

/// In a function as it stands, a step's edit by names is one edit by numbers at most, or has one fault at most, and never both.
pub fn one_edit()
    ensures edit { (m : ModuleState) (f : FuncState) (raw : RawEdit) (e d : Edit) → IsResolved m f raw e → IsResolved m f raw d → e ≡ d }
    ensures cause { (m : ModuleState) (f : FuncState) (raw : RawEdit) (a b : EditFault) → a ≢ why.Memory → b ≢ why.Memory
        → Refuses (KnowsEdit m f raw) a → Refuses (KnowsEdit m f raw) b → a ≡ b }
    ensures apart { (m : ModuleState) (f : FuncState) (raw : RawEdit) (e : Edit) (a : EditFault) → a ≢ why.Memory
        → IsResolved m f raw e → Refuses (KnowsEdit m f raw) a → ⊥ }
{}
