// Laws of printed modules, each the contract of a function that does nothing.
ghost use Rattle.std.specs.Prelude.{◌≡◌, ◌<◌, ◌^◌, ℕ, List, length};
ghost use Rattle.ms_grammar.specs.declared.line.Line.{Line};
ghost use Rattle.ms_ir.specs.Module.{ModuleState};
ghost use Rattle.ms_print.specs.Text.{module_text};
ghost use Rattle.ms_read.specs.Draft.{IsDraft};
ghost use Rattle.ms_resolve.specs.Build.{bare_module};
ghost use Rattle.ms_validity.specs.Cause.{IsAccepted};
ghost use Rattle.ms_again.specs.Again.{IsReadAgain, IsReadInOrder};
ghost use Rattle.ms_again.specs.Basis.{IsBasis};
ghost use Rattle.ms_again.specs.Ordered.{IsSameInOrder};
ghost use Rattle.ms_again.specs.Same.{IsSameModule};

/// An accepted module that is printed is read and accepted as the same module, and as no other; and that module prints
/// the same text. A written number has at most nine digits, so the text has to be shorter than 10^9 bytes, which is far
/// more than a file may hold.
pub fn read_again()
    ensures { (bytes : List ℕ) (draft : List (ℕ × Line)) (m : ModuleState)
        → IsDraft bytes draft → IsAccepted draft m → length (module_text m) < 10 ^ 9 → IsReadAgain m }
{}

/// So is one whose items rows say, whatever text they come from, if any.
pub fn read_items()
    ensures { (draft : List (ℕ × Line)) (m : ModuleState) (a : IsAccepted draft m) → IsBasis a.items → length (module_text m) < 10 ^ 9 → IsReadAgain m }
{}

/// So is one that is the same in order, though its instructions and locals are numbered otherwise.
pub fn read_in_order()
    ensures { (m n : ModuleState) → IsSameInOrder m n → IsReadAgain n → IsReadInOrder m }
{}

/// The same module prints the same text: the numbers that are written for things without a name, and the room that
/// functions have, are not seen in it.
pub fn same_text()
    ensures { (m n : ModuleState) → IsSameModule m n → module_text m ≡ module_text n }
{}

/// So does a module whose numbers of instructions and locals stand in another order, or have gaps.
pub fn same_order()
    ensures { (m n : ModuleState) → IsSameInOrder m n → module_text m ≡ module_text n }
{}

/// What is the same but for written numbers and room is the same in order.
pub fn in_order()
    ensures { (m n : ModuleState) → IsSameModule m n → IsSameInOrder m n }
{}

/// A draft is accepted as one module, but for the room that its functions have.
pub fn one_module()
    ensures { (draft : List (ℕ × Line)) (m n : ModuleState) → IsAccepted draft m → IsAccepted draft n
        → bare_module m ≡ bare_module n }
{}
