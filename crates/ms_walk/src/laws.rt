// Laws of clobbers. Each is the contract of a function that does nothing.
ghost use Rattle.std.specs.Prelude.{◌≡◌, ℕ};
ghost use Rattle.ms_paths.specs.Flow.{Event, IsReached};
ghost use Rattle.ms_ir.specs.Func.{FuncState};
ghost use Rattle.ms_ir.specs.Graph.{graph_of};
ghost use Rattle.ms_ir.specs.Locals.{IsNumbered};
ghost use Rattle.ms_alias.specs.declared.loc.Loc.{Loc};
ghost use Rattle.ms_ir.specs.SoundFunc.{IsSoundFunc};
ghost use Rattle.ms_sound.specs.Bytes.{IsSound};
ghost use Rattle.ms_walk.specs.Clobber.{IsClobberAt, IsClobber};

/// A location has one clobber at most before a place of a reached block, and so before an instruction.
pub fn one_clobber()
    ensures at { (f : FuncState) (b k : ℕ) (loc : Loc) (d e : Event) → IsReached (graph_of f.blocks) b → IsClobberAt f b k loc d → IsClobberAt f b k loc e → d ≡ e }
    ensures one { (f : FuncState) (i : ℕ) (loc : Loc) (d e : Event) → IsNumbered f → IsClobber f i loc d → IsClobber f i loc e → d ≡ e }
{
    ms_paths::laws::one_answer();
}

/// A clobber holds on every run of a sound function: from when it took place last up to the instruction no step writes a byte of the location.
pub fn clobber_holds()
    ensures { (f : FuncState) (i : ℕ) (loc : Loc) (e : Event) → IsNumbered f → IsSoundFunc f → IsClobber f i loc e → IsSound f i loc e }
{
    ms_sound::laws::sound_functions_begin_once();
    ms_sound::laws::clobbers_are_sound();
    ms_sound::laws::turning_clobbers_are_sound();
}
