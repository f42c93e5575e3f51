// Modules of texts, and their functions.
ghost use Rattle.std.specs.Prelude.{List, ℕ, IfSome, option_copied};
ghost use Rattle.ms_ir.specs.SoundFunc.{IsSoundFunc};
ghost use Rattle.ms_alias.specs.Offsets.{AreOffsetsNear};
ghost use Rattle.ms_read.specs.Draft.{IsDraft};
ghost use Rattle.ms_output.specs.Forms.{AreOpen};

use ms_ir::{Func, FuncNo, Module};
use ms_read::{Draft, read_module};
use ms_valid::accept;
use std::alloc::Global;
use std::process::Abort;

// The draft of a short text that is read.
fn read(alloc: Global, text: &[u8]) -> Option<Draft>
    ensures { IfSome result (λ draft. (bytes : List ℕ) × IsDraft bytes draft) }
{
    if text.len() > 1000 {
        return None;
    }
    match read_module(alloc, text) {
        Ok(draft) => Some(draft),
        Err(_) => None,
    }
}

// The module of a draft that is accepted, whose functions are sound.
fn accepted(alloc: Global, draft: &Draft) -> Option<Module>
    requires { (bytes : List ℕ) × IsDraft bytes draft.now }
    ensures { IfSome result (λ m. AreOpen m) }
{
    ms_read::laws::draft_told();
    ms_read::laws::places_told();
    ms_valid::laws::accepted_are_sound();
    match accept(alloc, draft) {
        Ok(module) => Some(module),
        Err(_) => None,
    }
}

// The module of a text.
pub fn module_of(rt: &impl Abort, alloc: Global, text: &[u8]) -> Module
    ensures { AreOpen result }
{
    let draft = read(alloc, text).expect(rt, "a text that is read");
    accepted(alloc, &draft).expect(rt, "a draft that is accepted")
}

// A function of a module.
pub fn func_of(m: &Module, f: FuncNo) -> Option<&Func>
    requires { AreOpen m.now }
    ensures { IfSome (option_copied result) (λ f. IsSoundFunc f × AreOffsetsNear f) }
{
    m.func(f)
}
