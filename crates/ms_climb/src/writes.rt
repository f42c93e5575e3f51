// Which Defs count.
ghost use Rattle.std.specs.Prelude.{◌≡◌, ℕ, Bool};

use ms_ir::InstNo;

/// A set of instructions, given by a test.
pub trait Writes {
    ghost test: { Self → ℕ → Bool };

    /// Whether the instruction is one of the set. Only Defs of the function at hand are asked.
    fn writes(&self, i: InstNo) -> bool
        ensures { result ≡ test self.now i.0 };
}
