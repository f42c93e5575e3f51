// Laws of accepted modules that have changed. Each is the contract of a function that does nothing.
ghost use Rattle.std.specs.Prelude.{◌≡◌, ◌<◌, ◌^◌, List, ℕ, true, map, length, Some, slice_get};
ghost use Rattle.ms_ir.specs.Func.{FuncState};
ghost use Rattle.ms_ir.specs.Locals.{IsNumbered};
ghost use Rattle.ms_ir.specs.Module.{ModuleState};
ghost use Rattle.ms_ir.specs.SoundFunc.{IsSoundFunc};
ghost use Rattle.ms_grammar.specs.declared.line.Line.{Line};
ghost use Rattle.ms_line.specs.Sorts.{sort_of};
ghost use Rattle.ms_read.specs.Rows.{rows_of};
ghost use Rattle.ms_read.specs.Places.{is_outside};
ghost use Rattle.ms_read.specs.Shape.{Walk};
ghost use Rattle.ms_read.specs.Draft.{IsDraft, IsModuleCause, numbered};
ghost use Rattle.ms_read.specs.declared.place.Place.{Place};
ghost use Rattle.ms_read.specs.declared.place.Place.TheVariants.{Outside};
ghost use Rattle.ms_read.specs.declared.fault.ReadFault.TheVariants.{Limit};
ghost use Rattle.ms_print.specs.Text.{module_text};
ghost use Rattle.ms_valid.specs.Module.{IsAcceptedModule};
ghost use Rattle.ms_again.specs.Again.{IsReadInOrder};
ghost use Rattle.ms_again.specs.Ordered.{ordered};
ghost use Rattle.ms_reprint.specs.Rows.{AreSaid};

/// A sound function is sound with its instructions and locals numbered in the order of the text.
pub fn sound_in_order()
    ensures { (f : FuncState) → IsNumbered f → IsSoundFunc f → IsSoundFunc (ordered f) }
{
    ms_paths::laws::part_form();
}

/// A text whose rows say lines that may stand behind one another is read as these, unless it passes a limit.
pub fn within_limits()
    ensures { (bytes : List ℕ) (lines : List Line) (end : Place) → AreSaid (rows_of bytes) lines → Walk Outside (map sort_of lines) end → is_outside end ≡ true →
        ((n : ℕ) → IsModuleCause bytes (Limit n) → ⊥) → IsDraft bytes (numbered 1 lines) }
{}

/// An accepted module that is printed within the limits is read and accepted as the same module, and as no other, and that module prints the same text: be
/// it read from a text, or changed by edits and passes, so that its numbers of instructions and locals have gaps or stand in another order. In each of its
/// functions a number stands for one thing, as `Func` keeps it.
pub fn read_again()
    ensures { (m : ModuleState) → IsAcceptedModule m → ((n : ℕ) (f : FuncState) → slice_get m.bodies n ≡ Some (Some f) → IsNumbered f) →
        length (module_text m) < 10 ^ 9 → ((n : ℕ) → IsModuleCause (module_text m) (Limit n) → ⊥) → IsReadInOrder m }
{
    ms_paths::laws::part_form();
    ms_reread::laws::said_with_numbers();
}
