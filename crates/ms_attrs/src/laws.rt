// What the definitions determine, each the contract of a function that does nothing.
ghost use Rattle.std.specs.Prelude.{◌≡◌, ℕ, List, Bool};
ghost use Rattle.ms_ir.specs.declared.inst.Effects.{Effects};
ghost use Rattle.ms_attrs.specs.Effects.{IsEffectsOf};
ghost use Rattle.ms_attrs.specs.Captures.{IsKeepsOf};

/// Attributes have one meaning: each text has effects, under any groups, and no two; and likewise for what a parameter's
/// attributes say.
pub fn one_meaning()
    ensures some_effects { (post : List ℕ) (groups : List (ℕ × List ℕ)) → (e : Effects) × IsEffectsOf post groups e }
    ensures one_effects { (post : List ℕ) (groups : List (ℕ × List ℕ)) (a b : Effects)
        → IsEffectsOf post groups a → IsEffectsOf post groups b → a ≡ b }
    ensures some_keeps { (attrs : List ℕ) → (keeps : Bool) × IsKeepsOf attrs keeps }
    ensures one_keeps { (attrs : List ℕ) (a b : Bool) → IsKeepsOf attrs a → IsKeepsOf attrs b → a ≡ b }
{}
